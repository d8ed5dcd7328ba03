//! Clients. Each test is a table of steps: what is done with a client, and what must come of it. A client costs the prover much in each
//! function that owns one, so one makes it, by `holds`, and lends it to those that judge a step.

mod calls;
mod copies;
mod faults;
mod judge;
mod passwords;
mod session;
mod settled;

use pg_client::{CallFault, Cause, Phase};
use pg_wire::{Status, WireFault};
use session::fresh;
use std::alloc::Global;
use testing::{are_so, holds};

/// A request.
#[derive(Clone, Copy)]
enum TableRequest {
    /// The query `SELECT 1`.
    Query,
    /// A group of one step.
    Group,
    /// A group of two steps, of which the second has no spelling.
    Unspelled,
}

/// What the query comes to.
#[derive(Clone, Copy)]
enum TableGroup {
    /// One command.
    Completed,
    /// One command, and a notice.
    Noted,
    /// An error at once.
    Failed,
}

/// Why bytes are rejected. The errors have no field.
#[derive(Clone, Copy)]
enum TableFault {
    Wire(WireFault),
    Unexpected(u8),
    UnsupportedAuth(i32),
    PasswordWanted,
    StartupError,
    ServerEnd,
}

/// What is done with a client, or what must come of it.
#[derive(Clone, Copy)]
enum TableStep {
    /// It is started.
    Start,
    /// These bytes are taken.
    Take(&'static [u8]),
    /// What was put out is taken off.
    Send,
    /// It is started and let in, and what was put out is taken off.
    Begin,
    /// It is started and let in, with these messages after the AuthenticationOk, and what was put out is taken off.
    Introduce(&'static [u8]),
    /// A request is made.
    Make(TableRequest),
    /// A chunk of a copy is put out.
    Chunk(&'static [u8]),
    /// The end of a copy is put out.
    EndCopy,
    /// The failure of a copy, with its reason, is put out.
    FailCopy(&'static [u8]),
    /// It is terminated.
    Terminate,
    /// The packet that cancels is put out.
    Cancel,
    /// It has put just these bytes out, and is in this phase.
    HasPut(&'static [u8], Phase),
    /// It shows this status and phase.
    Shows(Option<Status>, Phase),
    /// It gives just this group, and shows this status in phase Ready.
    Gives(TableGroup, Status),
    /// It gives a group, and is in phase Ready.
    Settles,
    /// It gives no group.
    SettlesNothing,
    /// As its connection is gone it hands the query back, after an error or not.
    LosesQuery(bool),
    /// It knows that the parameter `a` has the value `b`, and that `b` has none.
    Knows,
    /// It has no key to cancel with.
    HasNoKey,
    /// It rejects these bytes so, and is closed then for good.
    Refuses(&'static [u8], TableFault, Cause),
    /// It hands a request back with this fault, and puts nothing out.
    HandsBack(TableRequest, CallFault),
    /// It rejects a chunk as it isn't copying, but in this phase, and puts nothing out.
    RefusesChunk(Phase),
    /// It can't be started, for this fault, and is as it was.
    CannotStart(CallFault),
}

// Whether a new client of the user `u` does what these steps say.
fn does(alloc: Global, steps: &[TableStep]) -> bool {
    holds(fresh(alloc).ok(), |session| are_so(alloc, session, steps))
}

/// CommandComplete with the tag `OK`, and ReadyForQuery.
pub(crate) const ANSWER: &[u8] = b"C\0\0\0\x07OK\0Z\0\0\0\x05I";

/// All of it but its last byte.
const HALF: &[u8] = b"C\0\0\0\x07OK\0Z\0\0\0\x05";

/// ErrorResponse without a field.
pub(crate) const ERROR: &[u8] = b"E\0\0\0\x05\0";

const WAITING: [TableStep; 5] = [
    TableStep::Begin,
    TableStep::Make(TableRequest::Query),
    TableStep::Take(HALF),
    TableStep::SettlesNothing,
    TableStep::Shows(Some(Status::Idle), Phase::Busy),
];

#[test]
fn a_group_waits_for_its_last_byte(rt: HostRuntime) {
    assert!(rt; does(rt.alloc(), &WAITING));
}

const COMPLETED: [TableStep; 5] = [
    TableStep::Begin,
    TableStep::Make(TableRequest::Query),
    TableStep::Take(HALF),
    TableStep::Take(b"I"),
    TableStep::Gives(TableGroup::Completed, Status::Idle),
];

#[test]
fn a_group_settles_at_its_last_byte(rt: HostRuntime) {
    assert!(rt; does(rt.alloc(), &COMPLETED));
}

const FAILED: [TableStep; 4] = [
    TableStep::Begin,
    TableStep::Make(TableRequest::Query),
    TableStep::Take(b"E\0\0\0\x05\0Z\0\0\0\x05E"),
    TableStep::Gives(TableGroup::Failed, Status::Failed),
];

#[test]
fn a_group_settles_with_its_error(rt: HostRuntime) {
    assert!(rt; does(rt.alloc(), &FAILED));
}

const NOTED: [TableStep; 5] = [
    TableStep::Begin,
    TableStep::Take(b"N\0\0\0\x05\0"),
    TableStep::Make(TableRequest::Query),
    TableStep::Take(ANSWER),
    TableStep::Gives(TableGroup::Noted, Status::Idle),
];

#[test]
fn a_notice_stays_for_the_next_group(rt: HostRuntime) {
    assert!(rt; does(rt.alloc(), &NOTED));
}

const LOST: [TableStep; 4] = [
    TableStep::Begin,
    TableStep::Make(TableRequest::Query),
    TableStep::Take(HALF),
    TableStep::LosesQuery(false),
];

#[test]
fn what_is_lost_is_handed_back_once(rt: HostRuntime) {
    assert!(rt; does(rt.alloc(), &LOST));
}

const LOST_WITH_ERROR: [TableStep; 4] = [
    TableStep::Begin,
    TableStep::Make(TableRequest::Query),
    TableStep::Take(ERROR),
    TableStep::LosesQuery(true),
];

#[test]
fn what_is_lost_says_its_error(rt: HostRuntime) {
    assert!(rt; does(rt.alloc(), &LOST_WITH_ERROR));
}
