//! Sessions over a link in memory. Each test is a table of steps: what is done with a session and its link, and what must come of it. One
//! function makes them, and lends them to those that judge a step.
//!
//! What a call gives is told by a letter: a message by its tag, a row that is lent by `*`, that a request is settled by `=`, that data of a
//! copy is awaited by `<`, and nothing by `_`. A fault is `c` where the call is refused, `!` where what came is, `x` where the connection is
//! lost, and `.` where the pieces are used. Of the second and third the capital letter, `?` and `X`, says that no request is in doubt.

ghost use Rattle.std.specs.Prelude.{IfOk};
ghost use Rattle.pg_wire.specs.Direction.{IsLimit};

use pg_client::{CallFault, Loss, Phase, Settings};
use pg_drive::{Event, GroupEvent, GroupSession, Session, SessionFault};
use pg_wire::Seq;
use std::alloc::{AllocError, Global};
use testing::values::WELCOME;
use testing::{MemoryLink, holds, memory_link};

/// What is done with a session and its link, or what must come of it.
#[derive(Clone, Copy)]
pub(crate) enum SessionStep {
    /// The link gives these bytes from now on.
    Receive(&'static [u8]),
    /// The receive of this number fails.
    FailReceive(u64),
    /// The send of this number fails.
    FailSend(u64),
    /// A call receives at most so many pieces.
    Pieces(u32),
    /// It starts, which comes to this: `r` is that a request may be made.
    Starts(u8),
    /// It makes the query `SELECT 1`.
    Ask,
    /// The next calls give these.
    Gives(&'static [u8]),
    /// The next calls give these, with rows lent.
    Lends(&'static [u8]),
    /// The row that is lent has so many values, or none is lent.
    LendsValues(Option<usize>),
    /// The next calls give these of what has come, with rows lent.
    Finds(&'static [u8]),
    /// It hands over a chunk of a copy.
    Copy(&'static [u8]),
    /// It says that the data of a copy is complete.
    EndCopy,
    /// It ends, and hands back a request, or none.
    Ends(bool),
    /// It stands in this phase.
    Stands(Phase),
    /// Just these bytes were sent.
    HasSent(&'static [u8]),
    /// So many bytes wait to be sent.
    Waits(usize),
    /// So many bytes are left to be received.
    IsLeft(usize),
}

// One of two letters, by whether a request is in doubt.
fn loss_told(loss: &Loss, some: u8, none: u8) -> u8 {
    if loss.unsettled.is_some() { some } else { none }
}

fn fault_told(fault: &SessionFault) -> u8 {
    match fault {
        SessionFault::Call(_) => b'c',
        SessionFault::Feed { loss, .. } => loss_told(loss, b'!', b'?'),
        SessionFault::Lost(loss) => loss_told(loss, b'x', b'X'),
        SessionFault::PiecesUsed => b'.',
        SessionFault::Memory => b'm',
    }
}

fn event_told(event: &Event) -> u8 {
    match event {
        Event::Message(message) => message.tag(),
        Event::Row => b'*',
        Event::Settled { .. } => b'=',
        Event::CopyIn => b'<',
    }
}

fn group_told(event: &GroupEvent) -> u8 {
    match event {
        GroupEvent::Settled(_) => b'=',
        GroupEvent::CopyIn => b'<',
    }
}

fn settings(alloc: Global) -> Result<Settings, AllocError>
    ensures { IfOk result (λ settings. IsLimit settings.limit) }
{
    Ok(Settings::new(alloc, Seq::from_slice(alloc, b"u")?))
}

/// A session, and what is asked of it: whether it was so.
pub(crate) trait Judged {
    /// Does what a step says, and whether it was so.
    fn is_so(&mut self, step: SessionStep) -> bool;
}

// Whether a session does what these steps say.
fn are_so<S: Judged>(it: &mut S, steps: &[SessionStep]) -> bool {
    for step in steps {
        if !it.is_so(*step) {
            return false;
        }
    }
    true
}

// A session of the user `u` over a link that gives the welcome and then nothing, so many bytes at a time.
fn session(alloc: Global, most: usize) -> Option<Session<MemoryLink<'static>>> {
    let link = memory_link(alloc, &WELCOME, most);
    Some(Session::new(alloc, settings(alloc).ok()?, link))
}

// Such a session that gives whole answers.
fn group_session(alloc: Global, most: usize) -> Option<GroupSession<MemoryLink<'static>>> {
    let link = memory_link(alloc, &WELCOME, most);
    Some(GroupSession::new(alloc, settings(alloc).ok()?, link))
}

/// Whether a session, over a link that gives so many bytes at a time, does what these steps say.
pub(crate) fn session_does(alloc: Global, most: usize, steps: &[SessionStep]) -> bool {
    holds(session(alloc, most), |it| are_so(it, steps))
}

/// Whether a session that gives whole answers does.
pub(crate) fn groups_do(alloc: Global, most: usize, steps: &[SessionStep]) -> bool {
    holds(group_session(alloc, most), |it| are_so(it, steps))
}

fn starts_as(started: Result<(), SessionFault>) -> u8 {
    match started {
        Ok(()) => b'r',
        Err(fault) => fault_told(&fault),
    }
}

// Whether a request is handed back by the end of a session, or None where it is rejected.
fn hands_back(ended: Result<Loss, CallFault>) -> Option<bool> {
    match ended {
        Ok(loss) => Some(loss.unsettled.is_some()),
        Err(_) => None,
    }
}

// What the next event is told by.
fn next_told(it: &mut Session<MemoryLink<'static>>) -> u8 {
    match it.next() {
        Ok(event) => event_told(&event),
        Err(fault) => fault_told(&fault),
    }
}

fn next_lent_told(it: &mut Session<MemoryLink<'static>>) -> u8 {
    match it.next_lent() {
        Ok(event) => event_told(&event),
        Err(fault) => fault_told(&fault),
    }
}

fn found_told(it: &mut Session<MemoryLink<'static>>) -> u8 {
    match it.try_next_lent() {
        Ok(Some(event)) => event_told(&event),
        Ok(None) => b'_',
        Err(fault) => fault_told(&fault),
    }
}

fn next_group_told(it: &mut GroupSession<MemoryLink<'static>>) -> u8 {
    match it.next() {
        Ok(event) => group_told(&event),
        Err(fault) => fault_told(&fault),
    }
}

fn gives(it: &mut Session<MemoryLink<'static>>, wanted: &[u8]) -> bool {
    for told in wanted {
        if next_told(it) != *told {
            return false;
        }
    }
    true
}

fn lends(it: &mut Session<MemoryLink<'static>>, wanted: &[u8]) -> bool {
    for told in wanted {
        if next_lent_told(it) != *told {
            return false;
        }
    }
    true
}

fn finds(it: &mut Session<MemoryLink<'static>>, wanted: &[u8]) -> bool {
    for told in wanted {
        if found_told(it) != *told {
            return false;
        }
    }
    true
}

fn gives_groups(it: &mut GroupSession<MemoryLink<'static>>, wanted: &[u8]) -> bool {
    for told in wanted {
        if next_group_told(it) != *told {
            return false;
        }
    }
    true
}

// How many values the row that is lent has; None where none is lent.
fn width_lent(it: &Session<MemoryLink<'static>>) -> Option<usize> {
    match it.held() {
        Some(row) => Some(row.values().count()),
        None => None,
    }
}

// Whether what a step of a link says has come of it, or is done with it.
fn link_is_so(link: &mut MemoryLink<'static>, step: SessionStep) -> bool {
    match step {
        SessionStep::Receive(bytes) => link.gives = bytes,
        SessionStep::FailReceive(number) => link.fails_at_receive = number,
        SessionStep::FailSend(number) => link.fails_at_send = number,
        SessionStep::HasSent(bytes) => return link.taken.as_slice() == bytes,
        SessionStep::IsLeft(count) => return link.gives.len() == count,
        _ => return false,
    }
    true
}

// What a step comes to that both kinds of session take in the same way: whether it was so.
macro_rules! is_so_of_both {
    ($session:expr, $step:expr) => {
        match $step {
            SessionStep::Pieces(pieces) => {
                $session.pieces = pieces;
                true
            }
            SessionStep::Starts(told) => starts_as($session.start()) == told,
            SessionStep::Ask => $session.query("SELECT 1").is_ok(),
            SessionStep::Copy(chunk) => $session.copy_chunk(chunk).is_ok(),
            SessionStep::EndCopy => $session.copy_done().is_ok(),
            SessionStep::Ends(some) => hands_back($session.end()) == Some(some),
            SessionStep::Stands(phase) => $session.client.phase() == phase,
            SessionStep::Waits(count) => $session.out.len() == count,
            step => link_is_so(&mut $session.link, step),
        }
    };
}

impl Judged for Session<MemoryLink<'static>> {
    fn is_so(&mut self, step: SessionStep) -> bool {
        match step {
            SessionStep::Gives(wanted) => gives(self, wanted),
            SessionStep::Lends(wanted) => lends(self, wanted),
            SessionStep::LendsValues(count) => width_lent(self) == count,
            SessionStep::Finds(wanted) => finds(self, wanted),
            _ => is_so_of_both!(self, step),
        }
    }
}

impl Judged for GroupSession<MemoryLink<'static>> {
    fn is_so(&mut self, step: SessionStep) -> bool {
        match step {
            SessionStep::Gives(wanted) => gives_groups(self, wanted),
            _ => is_so_of_both!(self, step),
        }
    }
}
