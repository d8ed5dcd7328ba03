//! Sessions over a link.

use crate::drive::session::{SessionStep, groups_do, session_does};
use crate::early::session::{ANSWER, COPY_IN};
use pg_client::{Cause, Phase};
use std::alloc::Global;

/// RowDescription of one column, DataRow of a null and an empty text, a notice, CommandComplete and ReadyForQuery.
const WHOLE: &[u8] =
    b"T\0\0\0\x1a\0\x01n\0\0\0\0\0\0\0\0\0\0\x17\0\x04\xff\xff\xff\xff\0\0D\0\0\0\x0e\0\x02\xff\xff\xff\xff\0\0\0\0N\0\0\0\x05\0C\0\0\0\x0dSELECT 1\0Z\0\0\0\x05I";

/// CommandComplete with the tag `COPY 1`, and ReadyForQuery.
const COPIED: &[u8] = b"C\0\0\0\x0bCOPY 1\0Z\0\0\0\x05I";

/// What is sent by a session that starts, asks `SELECT 1`, hands over a chunk of one byte, and says that the data is complete.
const COPY_SENT: &[u8] =
    b"\0\0\0\x10\0\x03\0\0user\0u\0\0Q\0\0\0\x0dSELECT 1\0d\0\0\0\x05ac\0\0\0\x04";

/// What is sent by one that starts, asks `SELECT 1` and ends.
const END_SENT: &[u8] = b"\0\0\0\x10\0\x03\0\0user\0u\0\0Q\0\0\0\x0dSELECT 1\0X\0\0\0\x04";

const ANSWERED: [SessionStep; 9] = [
    SessionStep::Starts(b'r'),
    SessionStep::Ask,
    SessionStep::Waits(14),
    SessionStep::Receive(WHOLE),
    SessionStep::Gives(b"TDNC="),
    SessionStep::Stands(Phase::Ready),
    SessionStep::Waits(0),
    SessionStep::IsLeft(0),
    SessionStep::Gives(b"X"),
];

const LENT: [SessionStep; 8] = [
    SessionStep::Starts(b'r'),
    SessionStep::Ask,
    SessionStep::Receive(WHOLE),
    SessionStep::Lends(b"T*"),
    SessionStep::LendsValues(Some(2)),
    SessionStep::Lends(b"NC="),
    SessionStep::LendsValues(None),
    SessionStep::Stands(Phase::Ready),
];

// Whether the whole answer is given, owned and lent, so many bytes at a time.
fn is_given_by(alloc: Global, most: usize) -> bool {
    session_does(alloc, most, &ANSWERED) && session_does(alloc, most, &LENT)
}

#[test]
fn each_call_gives_an_event(rt: HostRuntime) {
    for most in 1..20 {
        assert!(rt; is_given_by(rt.alloc(), most), "{most}");
    }
}

const LOST: [SessionStep; 6] = [
    SessionStep::Starts(b'r'),
    SessionStep::Ask,
    SessionStep::Receive(ANSWER),
    SessionStep::Gives(b"TDNCx"),
    SessionStep::Stands(Phase::Closed(Cause::Lost)),
    // what is lost is told once
    SessionStep::Gives(b"?"),
];

#[test]
fn events_are_given_before_a_loss(rt: HostRuntime) {
    assert!(rt; session_does(rt.alloc(), 40, &LOST));
}

const REFUSED: [SessionStep; 5] = [
    SessionStep::Starts(b'r'),
    SessionStep::Ask,
    // a notice, and a message that a server doesn't send
    SessionStep::Receive(b"N\0\0\0\x05\0Q\0\0\0\x04"),
    SessionStep::Gives(b"N!"),
    SessionStep::Gives(b"?"),
];

#[test]
fn events_are_given_before_a_fault(rt: HostRuntime) {
    assert!(rt; session_does(rt.alloc(), 40, &REFUSED));
}

const FOUND: [SessionStep; 8] = [
    SessionStep::Starts(b'r'),
    SessionStep::Ask,
    SessionStep::Finds(b"_"),
    // the query was sent, and nothing was received
    SessionStep::Waits(0),
    SessionStep::Receive(WHOLE),
    SessionStep::Finds(b"_"),
    SessionStep::Lends(b"T"),
    SessionStep::Finds(b"*NC=_"),
];

#[test]
fn what_has_come_is_found_without_a_receive(rt: HostRuntime) {
    assert!(rt; session_does(rt.alloc(), 99, &FOUND));
}

const USED: [SessionStep; 8] = [
    SessionStep::Pieces(1),
    SessionStep::Starts(b'.'),
    SessionStep::Stands(Phase::Starting),
    SessionStep::Pieces(99),
    SessionStep::Starts(b'r'),
    SessionStep::Starts(b'c'),
    SessionStep::Pieces(0),
    SessionStep::Gives(b"."),
];

#[test]
fn pieces_are_used(rt: HostRuntime) {
    assert!(rt; session_does(rt.alloc(), 9, &USED));
    assert!(rt; groups_do(rt.alloc(), 9, &USED));
}

const COPY: [SessionStep; 10] = [
    SessionStep::Starts(b'r'),
    SessionStep::Ask,
    SessionStep::Receive(COPY_IN),
    SessionStep::Gives(b"G<<"),
    SessionStep::Copy(b"a"),
    SessionStep::Gives(b"<"),
    SessionStep::EndCopy,
    SessionStep::Receive(COPIED),
    SessionStep::Gives(b"C="),
    SessionStep::HasSent(COPY_SENT),
];

/// The same steps of a session that gives whole answers.
const GROUP_COPY: [SessionStep; 10] = [
    SessionStep::Starts(b'r'),
    SessionStep::Ask,
    SessionStep::Receive(COPY_IN),
    SessionStep::Gives(b"<<"),
    SessionStep::Copy(b"a"),
    SessionStep::Gives(b"<"),
    SessionStep::EndCopy,
    SessionStep::Receive(COPIED),
    SessionStep::Gives(b"="),
    SessionStep::HasSent(COPY_SENT),
];

// Whether a copy takes its data, and sends it.
fn is_copied(alloc: Global) -> bool {
    session_does(alloc, 99, &COPY) && groups_do(alloc, 99, &GROUP_COPY)
}

#[test]
fn each_chunk_is_sent_before_the_next_is_awaited(rt: HostRuntime) {
    assert!(rt; is_copied(rt.alloc()));
}

const ENDED: [SessionStep; 6] = [
    SessionStep::Starts(b'r'),
    SessionStep::Ask,
    SessionStep::Ends(true),
    SessionStep::HasSent(END_SENT),
    SessionStep::Waits(0),
    SessionStep::Stands(Phase::Closed(Cause::Terminated)),
];

#[test]
fn an_end_hands_back_what_is_in_doubt(rt: HostRuntime) {
    assert!(rt; session_does(rt.alloc(), 99, &ENDED));
    assert!(rt; groups_do(rt.alloc(), 99, &ENDED));
}

const GROUPS: [SessionStep; 8] = [
    SessionStep::Starts(b'r'),
    SessionStep::Ask,
    SessionStep::Receive(WHOLE),
    SessionStep::Gives(b"="),
    SessionStep::Stands(Phase::Ready),
    SessionStep::Ask,
    SessionStep::Receive(ANSWER),
    SessionStep::Gives(b"x"),
];

#[test]
fn a_whole_answer_is_given_and_a_part_is_lost(rt: HostRuntime) {
    for most in 1..20 {
        assert!(rt; groups_do(rt.alloc(), most, &GROUPS), "{most}");
    }
}

const SEND_FAILS: [SessionStep; 5] = [
    SessionStep::Starts(b'r'),
    // the startup packet and the query have 30 bytes
    SessionStep::FailSend(20),
    SessionStep::Ask,
    SessionStep::Gives(b"x"),
    SessionStep::Waits(11),
];

#[test]
fn a_link_fails_as_a_query_is_sent(rt: HostRuntime) {
    assert!(rt; session_does(rt.alloc(), 1, &SEND_FAILS));
    assert!(rt; groups_do(rt.alloc(), 1, &SEND_FAILS));
}
