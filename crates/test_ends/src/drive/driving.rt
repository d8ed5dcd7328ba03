//! What the tables of clients and those of early clients have in common. Each test is a table of steps: what is done with a client and its
//! link, and what must come of it. One function makes them, and lends them to those that judge a step.

ghost use Rattle.std.specs.Prelude.{◌≡◌, IfOk};

use pg_client::Settings;
use pg_wire::Seq;
use std::alloc::{AllocError, Global};
use testing::values::WELCOME;
use testing::{MemoryLink, holds, memory_link};

/// A step of a table: what is done with a client and its link, or what must come of it.
pub(crate) trait DriveStep: Copy {
    /// A client, what it has put out, and the link that it is driven over.
    type Drive: Drop;

    /// A client with these settings, in phase New, over a link.
    fn drive(alloc: Global, settings: Settings, link: MemoryLink<'static>) -> Self::Drive
        requires { settings.limit ≡ 65536 };

    /// Whether the client starts. Its startup packet waits to be sent then.
    fn starts(it: &mut Self::Drive) -> bool;

    /// Whether the client takes these bytes, which don't come over the link.
    fn feeds(it: &mut Self::Drive, bytes: &[u8]) -> bool;

    /// Whether the client makes the query `SELECT 1`, whose message alone waits to be sent then.
    fn asks(it: &mut Self::Drive, alloc: Global) -> bool;

    /// Does what the step says, and whether it was so.
    fn is_so(self, it: &mut Self::Drive) -> bool;
}

// What a client of the user `u` with this password, or with none, is made with.
fn settings(alloc: Global, password: Option<&[u8]>) -> Result<Settings, AllocError>
    ensures { IfOk result (λ settings. settings.limit ≡ 65536) }
{
    let mut settings = Settings::new(alloc, Seq::from_slice(alloc, b"u")?);
    settings.limit = 65_536;
    if let Some(password) = password {
        settings.password = Some(Seq::from_slice(alloc, password)?);
    }
    Ok(settings)
}

/// A client with this password, or with none, over a link.
pub(crate) fn over<S: DriveStep>(
    alloc: Global,
    password: Option<&[u8]>,
    link: MemoryLink<'static>,
) -> Option<S::Drive> {
    Some(S::drive(alloc, settings(alloc, password).ok()?, link))
}

/// Whether a client starts, is let in, and makes a query, whose message alone waits to be sent then.
pub(crate) fn has_asked<S: DriveStep>(it: &mut S::Drive, alloc: Global) -> bool {
    S::starts(it) && S::feeds(it, &WELCOME) && S::asks(it, alloc)
}

fn are_so<S: DriveStep>(it: &mut S::Drive, steps: &[S]) -> bool {
    for step in steps {
        if !step.is_so(it) {
            return false;
        }
    }
    true
}

/// What a client has done before the steps of a table.
#[derive(Clone, Copy)]
pub(crate) enum Beginning {
    /// It has started.
    Started,
    /// It has the password `p`, and has started.
    StartedWithPassword,
    /// It has made a query.
    Asked,
}

impl Beginning {
    fn password(self) -> Option<&'static [u8]> {
        match self {
            Beginning::StartedWithPassword => Some(b"p"),
            _ => None,
        }
    }
}

fn begins<S: DriveStep>(it: &mut S::Drive, alloc: Global, beginning: Beginning) -> bool {
    match beginning {
        Beginning::Asked => has_asked::<S>(it, alloc),
        _ => S::starts(it),
    }
}

/// Whether a client that begins so, over a link that gives these bytes, so many at a time, does what these steps say.
pub(crate) fn does<S: DriveStep>(
    alloc: Global,
    beginning: Beginning,
    gives: &'static [u8],
    most: usize,
    steps: &[S],
) -> bool {
    let link = memory_link(alloc, gives, most);
    holds(
        over::<S>(alloc, beginning.password(), link),
        |it| begins::<S>(it, alloc, beginning) && are_so(it, steps),
    )
}
