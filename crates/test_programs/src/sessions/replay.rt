//! A session made again with a client, and an early client beside it.

ghost use Rattle.std.specs.Prelude.{◌≡◌, IfOk, option_copied};
ghost use Rattle.test_programs.specs.Entry.{password_of};

use crate::sessions::early::Early;
use crate::sessions::entry::Entry;
use crate::sessions::link::has_taken;
use anyhow::{Result, bail, ensure};
use pg_client::{Call, Cause, Client, FeedFault, Loss, Phase, Settings, Settled};
use pg_drive::{DriveFault, Driven, drive};
use pg_wire::{Part, Request, Seq, Step};
use std::alloc::Global;
use std::mem;
use testing::{MemoryLink, memory_link};

/// How the server's bytes come to a client.
#[derive(Clone, Copy, Debug)]
pub enum StreamCut {
    /// They are fed as they came.
    Nowhere,
    /// A byte at a time.
    Everywhere,
    /// In two, after so many bytes.
    At(usize),
    /// Over a link, by which the client is driven. It gives and takes so many bytes at a time.
    Link(usize),
}

// How many bytes a link gives and takes where the bytes are fed, and only what the client sends goes over it.
const PIECE: usize = 4_096;

/// What came of a session.
#[derive(Debug, PartialEq, Drop)]
pub struct SessionEnd {
    pub settled: Vec<Settled>,
    pub loss: Loss,
    /// The fault in the server's bytes that closed the client.
    pub refusal: Option<FeedFault>,
}

// A client, and what came of it so far.
#[derive(Drop)]
struct Running<'a> {
    client: Client,
    early: Early<'a>,
    // What the client sends over.
    line: MemoryLink<'a>,
    // The steps of the group that isn't asked for yet.
    steps: Vec<Step>,
    // What the client put out and didn't send.
    out: Vec<u8>,
    settled: Vec<Settled>,
    refusal: Option<FeedFault>,
}

// What a `SHOW` showed has to be the parameter that the client knows.
fn compare_shown(client: &Client, settled: &Settled) -> Result<()> {
    let Request::Query(text) = &settled.request else {
        return Ok(());
    };
    let Some(name) = text.as_slice().strip_prefix(b"SHOW ".as_slice()) else {
        return Ok(());
    };
    let name = name.strip_suffix(b";".as_slice()).unwrap_or(name);
    let Some(Part::Rows { rows, .. }) = settled.outcome.parts.get(0) else {
        bail!("SHOW gives rows");
    };
    let Some(Some(value)) = rows.get(0).and_then(|row| row.get(0)) else {
        bail!("SHOW gives a value");
    };
    if client.parameter(name) != Some(value) {
        bail!("the client knows another value");
    }
    Ok(())
}

fn request(client: &mut Client, request: Request, out: &mut Vec<u8>) -> Result<()> {
    match client.request(request, out) {
        Ok(()) => Ok(()),
        Err((_, fault)) => Err(fault.into()),
    }
}

fn call(client: &mut Client, made: &Call, out: &mut Vec<u8>) -> Result<()> {
    match made {
        Call::Start => client.start(out)?,
        Call::Request(asked) => request(client, asked.clone()?, out)?,
        Call::Chunk(bytes) => client.copy_chunk(bytes.as_slice(), out)?,
        Call::Done => client.copy_done(out)?,
        Call::Fail(reason) => client.copy_fail(reason.as_slice(), out)?,
        Call::Terminate => client.terminate(out)?,
    }
    Ok(())
}

// The name of a phase in a line of a session.
fn phase_name(phase: Phase) -> &'static str {
    match phase {
        Phase::New => "new",
        Phase::Starting => "starting",
        Phase::Ready => "ready",
        Phase::Busy => "busy",
        Phase::CopyingIn => "copying",
        Phase::Closed(_) => "closed",
    }
}

// What a driven client answered to its piece.
fn fed_of(driven: Result<Driven, DriveFault>) -> Result<Result<(), FeedFault>> {
    match driven {
        Ok(Driven::Lost(_)) => bail!("there are bytes left to give"),
        Ok(_) => Ok(Ok(())),
        Err(DriveFault::Feed(fault)) => Ok(Err(fault)),
        Err(fault) => Err(fault.into()),
    }
}

impl<'a> Running<'a> {
    fn new(alloc: Global, settings: Settings, cut: StreamCut) -> Result<Running<'a>>
        requires { settings.limit ≡ 65536 }
    {
        let most = match cut {
            StreamCut::Link(most) => most,
            _ => PIECE,
        };
        Ok(Running {
            early: Early::new(alloc, settings.clone()?, most),
            client: Client::new(alloc, settings),
            line: memory_link(alloc, &[], most),
            steps: Vec::new(alloc),
            out: Vec::new(alloc),
            settled: Vec::new(alloc),
            refusal: None,
        })
    }

    fn is_closed(&self) -> bool {
        matches!(self.client.phase(), Phase::Closed(_))
    }

    // Keeps the fault that closes the client. Bytes that come after that, or after a Terminate, are rejected.
    fn note(&mut self, was_closed: bool, fed: Result<(), FeedFault>) -> Result<()> {
        if was_closed {
            ensure!(fed == Err(FeedFault::Closed), "a closed client takes bytes");
        } else if let Err(fault) = fed {
            self.refusal = Some(fault);
        }
        Ok(())
    }

    // Feeds a piece.
    fn feed_piece(&mut self, piece: &[u8]) -> Result<()> {
        let was_closed = self.is_closed();
        let fed = self.client.feed(piece, &mut self.out);
        if !self.early.answers(piece, &fed) {
            bail!("an early client answers otherwise");
        }
        self.note(was_closed, fed)
    }

    // Drives with a piece of the link's bytes.
    fn drive_piece(&mut self) -> Result<()> {
        let was_closed = self.is_closed();
        let fed = fed_of(drive(&mut self.client, &mut self.out, &mut self.line, 1))?;
        if !self.early.drives(&fed) {
            bail!("an early client is driven otherwise");
        }
        self.note(was_closed, fed)
    }

    // Feeds both clients what their links have left to give.
    fn feed_rest(&mut self) -> Result<()> {
        let rest = self.line.gives;
        self.line.gives = &[];
        self.early.give(&[]);
        self.feed_piece(rest)
    }

    // Drives until these bytes have come. While the client copies to the server `drive` receives nothing, so what comes then is fed.
    fn drive_through(&mut self, bytes: &'a [u8]) -> Result<()> {
        self.line.gives = bytes;
        self.early.give(bytes);
        for _ in 0..bytes.len() {
            if self.client.phase() == Phase::CopyingIn {
                return self.feed_rest();
            }
            if !self.line.gives.is_empty() {
                self.drive_piece()?;
            }
        }
        Ok(())
    }

    fn feed(&mut self, bytes: &'a [u8], cut: StreamCut) -> Result<()> {
        match cut {
            StreamCut::Nowhere => self.feed_piece(bytes)?,
            StreamCut::Everywhere => {
                for i in 0..bytes.len() {
                    self.feed_piece(&bytes[i..i + 1])?;
                }
            }
            StreamCut::At(place) => {
                let (front, back) = bytes.split_at(place.min(bytes.len()));
                self.feed_piece(front)?;
                self.feed_piece(back)?;
            }
            StreamCut::Link(_) => self.drive_through(bytes)?,
        }
        Ok(())
    }

    // Whether both clients have sent just these bytes since the last time.
    fn has_sent(&mut self, bytes: &[u8]) -> Result<bool> {
        drive(&mut self.client, &mut self.out, &mut self.line, 0)?;
        Ok(has_taken(&mut self.line, bytes) && self.early.has_sent(bytes))
    }

    // Makes a call of both clients.
    fn call(&mut self, made: &Call) -> Result<()> {
        call(&mut self.client, made, &mut self.out)?;
        self.early.call(made)
    }

    // Asks for a group of the steps before.
    fn sync(&mut self, alloc: Global) -> Result<()> {
        let steps = mem::replace(&mut self.steps, Vec::new(alloc));
        self.call(&Call::Request(Request::Group(Seq::new(steps))))
    }

    // The client has to be in this phase, and the early client to have given just these messages. `settle` compares the phases of both.
    fn check_told(&mut self, phase: &str, messages: &[u8]) -> Result<()> {
        let found = phase_name(self.client.phase());
        ensure!(found == phase, "the client is {found}");
        ensure!(
            self.early.has_told(messages),
            "the early client gives other messages than {messages:?}"
        );
        Ok(())
    }

    fn make(&mut self, alloc: Global, entry: &'a Entry, cut: StreamCut) -> Result<()> {
        match entry {
            Entry::Start(_) => self.call(&Call::Start)?,
            Entry::Password(_) => {}
            Entry::Step(step) => self.steps.push(step.clone()?)?,
            Entry::Sync => self.sync(alloc)?,
            Entry::Call(made) => self.call(made)?,
            Entry::Sent(bytes) => {
                if !self.has_sent(bytes.as_slice())? {
                    bail!("the client sends other bytes than {:?}", bytes);
                }
            }
            Entry::Bytes(bytes) => self.feed(bytes.as_slice(), cut)?,
            Entry::Told { phase, messages } => {
                self.check_told(phase.as_str(), messages.as_slice())?;
            }
        }
        Ok(())
    }

    // The client has to know what is settled and its status.
    fn check_settled(&self, group: &Settled) -> Result<()> {
        compare_shown(&self.client, group)?;
        if self.client.status() != Some(group.outcome.status) {
            bail!("the client knows another status");
        }
        Ok(())
    }

    // Takes what is settled. The early client has to stand where the client stands.
    fn settle(&mut self) -> Result<()> {
        let settled = self.client.take_settled();
        if !self
            .early
            .agrees(&self.client, self.out.as_slice(), settled.as_ref())
        {
            bail!("an early client comes to something else");
        }
        if let Some(group) = settled {
            self.check_settled(&group)?;
            self.settled.push(group)?;
        }
        Ok(())
    }

    fn make_all(&mut self, alloc: Global, entries: &'a [Entry], cut: StreamCut) -> Result<()> {
        for entry in entries {
            self.make(alloc, entry, cut)?;
            self.settle()?;
        }
        Ok(())
    }

    // The session has to end by its Terminate, or by a fault in the server's bytes, and leave nothing over.
    fn check_end(&self) -> Result<()> {
        if self.refusal.is_none() && self.client.phase() != Phase::Closed(Cause::Terminated) {
            bail!("the session ends in {:?}", self.client.phase());
        }
        if !self.steps.is_empty() || !self.out.is_empty() || !self.line.taken.is_empty() {
            bail!("steps or bytes are left over");
        }
        Ok(())
    }

    // Takes what came of the session.
    fn take_end(&mut self, alloc: Global) -> SessionEnd {
        SessionEnd {
            settled: mem::replace(&mut self.settled, Vec::new(alloc)),
            loss: self.client.lost(),
            refusal: self.refusal.take(),
        }
    }

    // Makes the session, and takes what came of it.
    fn come_to_end(
        &mut self,
        alloc: Global,
        entries: &'a [Entry],
        cut: StreamCut,
    ) -> Result<SessionEnd> {
        self.make_all(alloc, entries, cut)?;
        self.check_end()?;
        Ok(self.take_end(alloc))
    }
}

// The password that the client has, if it has one.
fn password_of(entries: &[Entry]) -> Option<&Seq<u8>>
    ensures { option_copied result ≡ password_of entries.now }
{
    match entries {
        [_, Entry::Password(password), ..] => Some(password),
        _ => None,
    }
}

// A copy of a text, if there is one.
fn copy_of(text: Option<&Seq<u8>>) -> Result<Option<Seq<u8>>>
    ensures { IfOk result (λ copy. copy ≡ option_copied text.entry) }
{
    match text {
        Some(text) => Ok(Some(text.clone()?)),
        None => Ok(None),
    }
}

// The value of a startup packet's parameter of this name, if it has one.
fn parameter<'a>(parameters: &'a Seq<(Seq<u8>, Seq<u8>)>, wanted: &[u8]) -> Option<&'a Seq<u8>> {
    for (name, value) in parameters {
        if name.as_slice() == wanted {
            return Some(value);
        }
    }
    None
}

// A startup packet's parameters without the user and the database.
fn other_parameters(
    alloc: Global,
    parameters: &Seq<(Seq<u8>, Seq<u8>)>,
) -> Result<Seq<(Seq<u8>, Seq<u8>)>> {
    let mut others = Vec::new(alloc);
    for parameter in parameters {
        if !matches!(parameter.0.as_slice(), b"user" | b"database") {
            others.push(parameter.clone()?)?;
        }
    }
    Ok(Seq::new(others))
}

// The settings that a startup packet's parameters say: the user, maybe the database, and others.
fn settings_of(alloc: Global, entries: &[Entry]) -> Result<Settings>
    ensures limit { IfOk result (λ settings. settings.limit ≡ 65536) }
    ensures password { IfOk result (λ settings. settings.password ≡ password_of entries.now) }
{
    let Some(Entry::Start(parameters)) = entries.first() else {
        bail!("a session begins with its start");
    };
    let Some(user) = parameter(parameters, b"user") else {
        bail!("a startup names the user");
    };
    let mut settings = Settings::new(alloc, user.clone()?);
    settings.limit = 65_536;
    settings.database = copy_of(parameter(parameters, b"database"))?;
    settings.pairs = other_parameters(alloc, parameters)?;
    settings.password = copy_of(password_of(entries))?;
    Ok(settings)
}

/// Makes the session again.
pub fn replay(alloc: Global, entries: &[Entry], cut: StreamCut) -> Result<SessionEnd> {
    let mut running = Running::new(alloc, settings_of(alloc, entries)?, cut)?;
    running.come_to_end(alloc, entries, cut)
}
