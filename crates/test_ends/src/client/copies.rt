//! A copy from the client.

use super::{ANSWER, TableFault, TableRequest, TableStep, does};
use pg_client::{Cause, Phase};

/// CopyInResponse of text without a column.
const COPY_IN: &[u8] = b"G\0\0\0\x07\0\0\0";

const CHUNKS: [TableStep; 7] = [
    TableStep::Begin,
    TableStep::Make(TableRequest::Query),
    TableStep::Take(COPY_IN),
    TableStep::Send,
    TableStep::Chunk(b""),
    TableStep::Chunk(b"1\n"),
    TableStep::HasPut(b"d\0\0\0\x04d\0\0\0\x061\n", Phase::CopyingIn),
];

#[test]
fn chunks_are_put_out(rt: HostRuntime) {
    assert!(rt; does(rt.alloc(), &CHUNKS));
}

const END: [TableStep; 7] = [
    TableStep::Begin,
    TableStep::Make(TableRequest::Query),
    TableStep::Take(COPY_IN),
    TableStep::Send,
    TableStep::Chunk(b""),
    TableStep::EndCopy,
    TableStep::HasPut(b"d\0\0\0\x04c\0\0\0\x04", Phase::Busy),
];

#[test]
fn the_end_of_a_copy_is_put_out(rt: HostRuntime) {
    assert!(rt; does(rt.alloc(), &END));
}

const DONE: [TableStep; 7] = [
    TableStep::Begin,
    TableStep::Make(TableRequest::Query),
    TableStep::Take(COPY_IN),
    TableStep::Send,
    TableStep::EndCopy,
    TableStep::Take(ANSWER),
    TableStep::Settles,
];

#[test]
fn a_copy_that_is_done_settles(rt: HostRuntime) {
    assert!(rt; does(rt.alloc(), &DONE));
}

const FAILURE: [TableStep; 6] = [
    TableStep::Begin,
    TableStep::Make(TableRequest::Query),
    TableStep::Take(COPY_IN),
    TableStep::Send,
    TableStep::FailCopy(b"no"),
    TableStep::HasPut(b"f\0\0\0\x07no\0", Phase::Busy),
];

#[test]
fn the_failure_of_a_copy_is_put_out(rt: HostRuntime) {
    assert!(rt; does(rt.alloc(), &FAILURE));
}

const FAILED: [TableStep; 6] = [
    TableStep::Begin,
    TableStep::Make(TableRequest::Query),
    TableStep::Take(COPY_IN),
    TableStep::Send,
    TableStep::FailCopy(b"no"),
    TableStep::Refuses(ANSWER, TableFault::Unexpected(67), Cause::Unexpected),
];

#[test]
fn a_copy_that_failed_is_not_completed(rt: HostRuntime) {
    assert!(rt; does(rt.alloc(), &FAILED));
}

const TOO_EARLY: [TableStep; 4] = [
    TableStep::Begin,
    TableStep::Make(TableRequest::Query),
    TableStep::Take(b""),
    TableStep::Refuses(
        b"G\0\0\0\x07\0\0\0C\0\0\0\x07OK\0",
        TableFault::Unexpected(67),
        Cause::Unexpected,
    ),
];

#[test]
fn a_copy_is_not_completed_before_its_end(rt: HostRuntime) {
    assert!(rt; does(rt.alloc(), &TOO_EARLY));
}

const OF_A_GROUP: [TableStep; 3] = [
    TableStep::Begin,
    TableStep::Make(TableRequest::Group),
    TableStep::Refuses(COPY_IN, TableFault::Unexpected(71), Cause::Unexpected),
];

#[test]
fn a_group_wants_no_copy(rt: HostRuntime) {
    assert!(rt; does(rt.alloc(), &OF_A_GROUP));
}

const BUSY: [TableStep; 4] = [
    TableStep::Begin,
    TableStep::Make(TableRequest::Query),
    TableStep::Take(b""),
    TableStep::RefusesChunk(Phase::Busy),
];

#[test]
fn a_busy_client_takes_no_chunk(rt: HostRuntime) {
    assert!(rt; does(rt.alloc(), &BUSY));
}

const READY: [TableStep; 4] = [
    TableStep::Begin,
    TableStep::Make(TableRequest::Query),
    TableStep::Take(ANSWER),
    TableStep::RefusesChunk(Phase::Ready),
];

#[test]
fn a_ready_client_takes_no_chunk(rt: HostRuntime) {
    assert!(rt; does(rt.alloc(), &READY));
}
