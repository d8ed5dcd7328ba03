//! The sessions that are tested, and the items that come of them. One function makes the client, and lends it to those that judge a step.

use pg_client::{Cause, EarlyClient, Item, Loss, Next, Phase, Settings};
use pg_wire::{Request, Seq, Status};
use std::alloc::{AllocError, Global};
use testing::values::{WELCOME, query};
use testing::{TestStep, are_so, holds};

/// RowDescription of one column, DataRow of a null and an empty text, a notice and CommandComplete.
pub(crate) const ANSWER: &[u8] =
    b"T\0\0\0\x1a\0\x01n\0\0\0\0\0\0\0\0\0\0\x17\0\x04\xff\xff\xff\xff\0\0D\0\0\0\x0e\0\x02\xff\xff\xff\xff\0\0\0\0N\0\0\0\x05\0C\0\0\0\x0dSELECT 1\0";

/// ReadyForQuery.
pub(crate) const READY: &[u8] = b"Z\0\0\0\x05I";

/// CopyInResponse without columns.
pub(crate) const COPY_IN: &[u8] = b"G\0\0\0\x07\0\0\0";

/// The query that is made.
const QUERY: &[u8] = b"SELECT 1";

// An early client of the user `u`, in phase New.
fn fresh(alloc: Global) -> Result<EarlyClient, AllocError> {
    let settings = Settings::new(alloc, Seq::from_slice(alloc, b"u")?);
    Ok(EarlyClient::new(alloc, settings))
}

/// What is done with a session, or what must come of it.
#[derive(Clone, Copy)]
pub(crate) enum EarlyTableStep {
    /// It starts, and is let in.
    Start,
    /// It starts, is let in and makes a query.
    Ask,
    /// These bytes are taken.
    Feed(&'static [u8]),
    /// These bytes are kept.
    Push(&'static [u8]),
    /// A chunk of a copy is put out, and its end.
    Copy(&'static [u8]),
    /// It gives items of just these tags.
    Gives(&'static [u8]),
    /// The next items have just these tags.
    GivesFirst(&'static [u8]),
    /// It gives the query, as settled.
    GivesSettledQuery,
    /// It gives no item.
    GivesNone,
    /// What comes next has just these tags: `*` is a row that is lent, `.` no whole message, `!` a fault.
    Comes(&'static [u8]),
    /// The row that is lent has so many values; with None, none is lent.
    LendsValues(Option<usize>),
    /// The row that is lent begins with this text.
    Lends(&'static [u8]),
    /// It loses its connection, and with it the query, after an error or not.
    LosesQuery(bool),
    /// It stands in this phase.
    Stands(Phase),
}

/// An early client, and its output. What it is asked for answers whether it was so.
#[derive(Drop)]
pub(crate) struct TriedEarlyClient {
    client: EarlyClient,
    out: Vec<u8>,
}

// An early client in phase New, and no output.
fn new_session(alloc: Global) -> Result<TriedEarlyClient, AllocError> {
    Ok(TriedEarlyClient {
        client: fresh(alloc)?,
        out: Vec::new(alloc),
    })
}

impl TriedEarlyClient {
    // Starts, and is let in.
    fn starts(&mut self) -> bool {
        self.client.start(&mut self.out).is_ok() && self.feeds(&WELCOME)
    }

    // Makes the request.
    fn makes(&mut self, request: Request) -> bool {
        self.client.request(request, &mut self.out).is_ok()
    }

    // Starts, is let in and makes a query.
    fn asks(&mut self, alloc: Global) -> bool {
        match query(alloc, QUERY) {
            Ok(request) => self.starts() && self.makes(request),
            Err(_) => false,
        }
    }

    // Takes these bytes.
    fn feeds(&mut self, bytes: &[u8]) -> bool {
        self.client.feed(bytes, &mut self.out).is_ok()
    }

    // Keeps these bytes.
    fn pushes(&mut self, bytes: &[u8]) -> bool {
        self.client.push(bytes).is_ok()
    }

    // The tag of the item that comes next, `*` of a row that is lent, `.` where no message is whole, and `!` of a fault.
    fn comes_next(&mut self) -> u8 {
        match self.client.next_lent(&mut self.out) {
            Ok(Next::Nothing) => b'.',
            Ok(Next::Held) => b'*',
            Ok(Next::Item(item)) => tag_of(Some(item)),
            Err(_) => b'!',
        }
    }

    // What comes next has just these tags.
    fn comes(&mut self, tags: &[u8]) -> bool {
        let mut same = true;
        for tag in tags {
            same = self.comes_next() == *tag && same;
        }
        same
    }

    // How many values the row that is lent has; None where none is lent.
    fn width_lent(&self) -> Option<usize> {
        match self.client.held() {
            Some(row) => Some(row.values().count()),
            None => None,
        }
    }

    // The row that is lent begins with this text.
    fn lends(&self, text: &[u8]) -> bool {
        let Some(row) = self.client.held() else {
            return false;
        };
        matches!(row.values().next(), Some(Some(value)) if value == text)
    }

    /// Takes these bytes, so many at a time.
    pub(crate) fn feeds_by(&mut self, bytes: &[u8], most: usize) -> bool {
        let mut fed = true;
        for piece in bytes.chunks(most.max(1)) {
            fed = fed && self.feeds(piece);
        }
        fed
    }

    // Puts out a chunk of a copy, and its end.
    fn copies(&mut self, chunk: &[u8]) -> bool {
        self.client.copy_chunk(chunk, &mut self.out).is_ok()
            && self.client.copy_done(&mut self.out).is_ok()
    }

    // Whether an item waits.
    fn has_item(&self) -> bool {
        self.client.has_item()
    }

    // The tag of the next item, which is taken.
    fn next_tag(&mut self) -> u8 {
        tag_of(self.client.take_item())
    }

    /// Gives items of just these tags.
    pub(crate) fn gives(&mut self, tags: &[u8]) -> bool {
        let mut same = true;
        for tag in tags {
            same = self.has_item() && self.next_tag() == *tag && same;
        }
        same && !self.has_item()
    }

    // The next items have just these tags.
    fn gives_first(&mut self, tags: &[u8]) -> bool {
        let mut same = true;
        for tag in tags {
            same = self.next_tag() == *tag && same;
        }
        same
    }

    // Gives the query, as settled.
    fn gives_settled_query(&mut self, alloc: Global) -> bool {
        match query(alloc, QUERY) {
            Ok(request) => self.gives_item(Item::Settled {
                request,
                status: Status::Idle,
            }),
            Err(_) => false,
        }
    }

    // Gives this item.
    fn gives_item(&mut self, item: Item) -> bool {
        self.client.take_item() == Some(item)
    }

    // Gives no item.
    fn gives_none(&mut self) -> bool {
        self.client.take_item().is_none()
    }

    // Loses its connection, and with it the query, after an error or not.
    fn loses_query(&mut self, alloc: Global, seen_error: bool) -> bool {
        match query(alloc, QUERY) {
            Ok(request) => self.loses(Loss {
                unsettled: Some(request),
                seen_error,
            }),
            Err(_) => false,
        }
    }

    fn loses(&mut self, loss: Loss) -> bool {
        self.client.lost() == loss
    }
}

// The tag of an early item, `=` of a settled one and `.` of none.
fn tag_of(item: Option<Item>) -> u8 {
    match item {
        Some(Item::Early(message)) => message.tag(),
        Some(Item::Settled { .. }) => b'=',
        None => b'.',
    }
}

/// A session that has made a query.
pub(crate) fn asked(alloc: Global) -> Option<TriedEarlyClient> {
    let mut session = new_session(alloc).ok()?;
    if session.asks(alloc) {
        Some(session)
    } else {
        None
    }
}

// ---- steps

// Whether what a step says has come of the session.
fn has_come(alloc: Global, session: &mut TriedEarlyClient, step: EarlyTableStep) -> bool {
    match step {
        EarlyTableStep::Gives(tags) => session.gives(tags),
        EarlyTableStep::GivesFirst(tags) => session.gives_first(tags),
        EarlyTableStep::GivesSettledQuery => session.gives_settled_query(alloc),
        EarlyTableStep::GivesNone => session.gives_none(),
        EarlyTableStep::Comes(tags) => session.comes(tags),
        EarlyTableStep::LendsValues(count) => session.width_lent() == count,
        EarlyTableStep::Lends(text) => session.lends(text),
        EarlyTableStep::LosesQuery(seen_error) => session.loses_query(alloc, seen_error),
        EarlyTableStep::Stands(phase) => session.client.phase() == phase,
        _ => false,
    }
}

impl TestStep<TriedEarlyClient> for EarlyTableStep {
    fn is_so(self, alloc: Global, it: &mut TriedEarlyClient) -> bool {
        match self {
            EarlyTableStep::Start => it.starts(),
            EarlyTableStep::Ask => it.asks(alloc),
            EarlyTableStep::Feed(bytes) => it.feeds(bytes),
            EarlyTableStep::Push(bytes) => it.pushes(bytes),
            EarlyTableStep::Copy(chunk) => it.copies(chunk),
            _ => has_come(alloc, it, self),
        }
    }
}

/// Whether a new session does what these steps say.
pub(crate) fn does(alloc: Global, steps: &[EarlyTableStep]) -> bool {
    holds(
        new_session(alloc).ok(),
        |session| are_so(alloc, session, steps),
    )
}
