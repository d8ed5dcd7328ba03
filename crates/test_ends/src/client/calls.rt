//! What calls put out, and how they are refused.

use super::{TableRequest, TableStep, does};
use pg_client::{CallFault, Cause, Phase};
use pg_wire::EncodeFault;

const STARTED: [TableStep; 2] = [
    TableStep::Start,
    TableStep::HasPut(b"\0\0\0\x10\0\x03\0\0user\0u\0\0", Phase::Starting),
];

#[test]
fn start_puts_the_startup_packet(rt: HostRuntime) {
    assert!(rt; does(rt.alloc(), &STARTED));
}

const QUERIED: [TableStep; 3] = [
    TableStep::Begin,
    TableStep::Make(TableRequest::Query),
    TableStep::HasPut(b"Q\0\0\0\x0DSELECT 1\0", Phase::Busy),
];

#[test]
fn a_query_is_put_out(rt: HostRuntime) {
    assert!(rt; does(rt.alloc(), &QUERIED));
}

const GROUPED: [TableStep; 3] = [
    TableStep::Begin,
    TableStep::Make(TableRequest::Group),
    TableStep::HasPut(b"E\0\0\0\x09\0\0\0\0\0S\0\0\0\x04", Phase::Busy),
];

#[test]
fn a_group_is_put_out(rt: HostRuntime) {
    assert!(rt; does(rt.alloc(), &GROUPED));
}

const TERMINATED: [TableStep; 3] = [
    TableStep::Begin,
    TableStep::Terminate,
    TableStep::HasPut(b"X\0\0\0\x04", Phase::Closed(Cause::Terminated)),
];

#[test]
fn terminate_ends_the_session(rt: HostRuntime) {
    assert!(rt; does(rt.alloc(), &TERMINATED));
}

const SECOND: [TableStep; 3] = [
    TableStep::Begin,
    TableStep::Make(TableRequest::Query),
    TableStep::HandsBack(TableRequest::Query, CallFault::NotReady(Phase::Busy)),
];

#[test]
fn a_second_request_is_handed_back(rt: HostRuntime) {
    assert!(rt; does(rt.alloc(), &SECOND));
}

const UNSPELLED: [TableStep; 2] = [
    TableStep::Begin,
    TableStep::HandsBack(
        TableRequest::Unspelled,
        CallFault::Encode(EncodeFault::HasZero),
    ),
];

#[test]
fn what_has_no_spelling_is_handed_back(rt: HostRuntime) {
    assert!(rt; does(rt.alloc(), &UNSPELLED));
}

const SETTLED: [TableStep; 4] = [
    TableStep::Begin,
    TableStep::Make(TableRequest::Group),
    TableStep::Take(b"s\0\0\0\x04Z\0\0\0\x05I"),
    TableStep::Settles,
];

#[test]
fn a_group_settles(rt: HostRuntime) {
    assert!(rt; does(rt.alloc(), &SETTLED));
}

const KEYLESS: [TableStep; 2] = [TableStep::Begin, TableStep::HasNoKey];

#[test]
fn without_a_key_nothing_is_cancelled(rt: HostRuntime) {
    assert!(rt; does(rt.alloc(), &KEYLESS));
}

/// Two keys come.
const KEYED: [TableStep; 3] = [
    TableStep::Introduce(b"K\0\0\0\x0C\0\0\0\x03\0\0\0\x04K\0\0\0\x0C\0\0\0\x01\0\0\0\x02"),
    TableStep::Cancel,
    TableStep::HasPut(
        b"\0\0\0\x10\x04\xD2\x16\x2E\0\0\0\x01\0\0\0\x02",
        Phase::Ready,
    ),
];

#[test]
fn the_last_key_cancels(rt: HostRuntime) {
    assert!(rt; does(rt.alloc(), &KEYED));
}

const TOLD_TWICE: [TableStep; 2] = [
    TableStep::Introduce(b"S\0\0\0\x08a\0c\0S\0\0\0\x08a\0b\0"),
    TableStep::Knows,
];

#[test]
fn the_last_value_counts(rt: HostRuntime) {
    assert!(rt; does(rt.alloc(), &TOLD_TWICE));
}

const TOLD_LATER: [TableStep; 4] = [
    TableStep::Begin,
    TableStep::Make(TableRequest::Query),
    TableStep::Take(b"S\0\0\0\x08a\0b\0"),
    TableStep::Knows,
];

#[test]
fn a_value_counts_that_comes_later(rt: HostRuntime) {
    assert!(rt; does(rt.alloc(), &TOLD_LATER));
}
