//! Rows that are lent.

use crate::early::session::{ANSWER, EarlyTableStep, READY, does};
use pg_client::Phase;

/// DataRow of one text.
const ROW: &[u8] = b"D\0\0\0\x0b\0\x01\0\0\0\x01a";

/// DataRow of another text.
const OTHER: &[u8] = b"D\0\0\0\x0b\0\x01\0\0\0\x01b";

const IN_ITS_PLACE: [EarlyTableStep; 9] = [
    EarlyTableStep::Ask,
    EarlyTableStep::Push(ANSWER),
    EarlyTableStep::Comes(b"T*"),
    EarlyTableStep::LendsValues(Some(2)),
    EarlyTableStep::Comes(b"NC."),
    EarlyTableStep::LendsValues(None),
    EarlyTableStep::Push(READY),
    EarlyTableStep::Comes(b"=."),
    EarlyTableStep::Stands(Phase::Ready),
];

#[test]
fn a_row_is_lent_in_its_place(rt: HostRuntime) {
    assert!(rt; does(rt.alloc(), &IN_ITS_PLACE));
}

const UNTIL_THE_NEXT: [EarlyTableStep; 12] = [
    EarlyTableStep::Ask,
    // RowDescription of one column
    EarlyTableStep::Push(b"T\0\0\0\x1a\0\x01n\0\0\0\0\0\0\0\0\0\0\x17\0\x04\xff\xff\xff\xff\0\0"),
    EarlyTableStep::Push(ROW),
    EarlyTableStep::Push(OTHER),
    EarlyTableStep::Comes(b"T*"),
    EarlyTableStep::Lends(b"a"),
    EarlyTableStep::Comes(b"*"),
    EarlyTableStep::Lends(b"b"),
    EarlyTableStep::GivesNone,
    EarlyTableStep::Lends(b"b"),
    EarlyTableStep::Push(b""),
    EarlyTableStep::LendsValues(None),
];

#[test]
fn each_row_is_lent_until_the_next(rt: HostRuntime) {
    assert!(rt; does(rt.alloc(), &UNTIL_THE_NEXT));
}

const PUSHED_AND_FED: [EarlyTableStep; 5] = [
    EarlyTableStep::Ask,
    EarlyTableStep::Push(ANSWER),
    EarlyTableStep::Comes(b"T"),
    EarlyTableStep::Feed(READY),
    EarlyTableStep::Comes(b"DNC=."),
];

#[test]
fn feed_takes_what_was_pushed_too(rt: HostRuntime) {
    assert!(rt; does(rt.alloc(), &PUSHED_AND_FED));
}

const UNASKED: [EarlyTableStep; 4] = [
    EarlyTableStep::Start,
    EarlyTableStep::Push(ROW),
    EarlyTableStep::Comes(b"!!"),
    EarlyTableStep::LendsValues(None),
];

#[test]
fn a_row_that_no_request_waits_for_is_a_fault(rt: HostRuntime) {
    assert!(rt; does(rt.alloc(), &UNASKED));
}
