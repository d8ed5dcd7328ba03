//! Items, as a session gives them.

use crate::early::session::{ANSWER, COPY_IN, EarlyTableStep, READY, asked, does};
use pg_client::{Cause, Phase};
use std::alloc::Global;
use testing::holds;

const BY_MESSAGE: [EarlyTableStep; 7] = [
    EarlyTableStep::Ask,
    EarlyTableStep::Feed(ANSWER),
    EarlyTableStep::Feed(READY),
    EarlyTableStep::GivesFirst(b"TDNC"),
    EarlyTableStep::GivesSettledQuery,
    EarlyTableStep::GivesNone,
    EarlyTableStep::Stands(Phase::Ready),
];

#[test]
fn an_answer_comes_message_by_message(rt: HostRuntime) {
    assert!(rt; does(rt.alloc(), &BY_MESSAGE));
}

const BEFORE_ITS_END: [EarlyTableStep; 5] = [
    EarlyTableStep::Ask,
    EarlyTableStep::Feed(ANSWER),
    EarlyTableStep::Gives(b"TDNC"),
    EarlyTableStep::LosesQuery(false),
    EarlyTableStep::GivesNone,
];

#[test]
fn before_its_end_nothing_is_settled(rt: HostRuntime) {
    assert!(rt; does(rt.alloc(), &BEFORE_ITS_END));
}

// Whether the answer comes of so many bytes at a time.
fn comes_by(alloc: Global, most: usize) -> bool {
    holds(asked(alloc), |session| {
        session.feeds_by(ANSWER, most) && session.feeds_by(READY, most) && session.gives(b"TDNC=")
    })
}

#[test]
fn however_many_bytes_come_at_once(rt: HostRuntime) {
    for most in 1..20 {
        assert!(rt; comes_by(rt.alloc(), most), "{most} at once");
    }
}

/// The description and the row of the answer, and no more.
const A_ROW: [EarlyTableStep; 3] = [
    EarlyTableStep::Ask,
    EarlyTableStep::Feed(
        b"T\0\0\0\x1a\0\x01n\0\0\0\0\0\0\0\0\0\0\x17\0\x04\xff\xff\xff\xff\0\0D\0\0\0\x0e\0\x02\xff\xff\xff\xff\0\0\0\0",
    ),
    EarlyTableStep::Gives(b"TD"),
];

#[test]
fn a_row_is_there_before_the_next_message(rt: HostRuntime) {
    assert!(rt; does(rt.alloc(), &A_ROW));
}

const NOTIFIED: [EarlyTableStep; 4] = [
    EarlyTableStep::Start,
    EarlyTableStep::Feed(b"A\0\0\0\x0d\0\0\0\x07c\0ab\0"),
    EarlyTableStep::Gives(b"A"),
    EarlyTableStep::Stands(Phase::Ready),
];

#[test]
fn a_notification_in_phase_ready_is_there_at_once(rt: HostRuntime) {
    assert!(rt; does(rt.alloc(), &NOTIFIED));
}

const COPIED: [EarlyTableStep; 8] = [
    EarlyTableStep::Ask,
    EarlyTableStep::Feed(COPY_IN),
    EarlyTableStep::Stands(Phase::CopyingIn),
    EarlyTableStep::Gives(b"G"),
    EarlyTableStep::Copy(b"a"),
    EarlyTableStep::Feed(b"C\0\0\0\x0bCOPY 1\0"),
    EarlyTableStep::Feed(READY),
    EarlyTableStep::Gives(b"C="),
];

#[test]
fn the_head_of_a_copy_is_there_in_phase_copying_in(rt: HostRuntime) {
    assert!(rt; does(rt.alloc(), &COPIED));
}

const LOST: [EarlyTableStep; 5] = [
    EarlyTableStep::Ask,
    EarlyTableStep::Feed(b"E\0\0\0\x05\0"),
    EarlyTableStep::LosesQuery(true),
    EarlyTableStep::Stands(Phase::Closed(Cause::Lost)),
    EarlyTableStep::Gives(b"E"),
];

#[test]
fn an_error_stays_to_be_taken_after_a_loss(rt: HostRuntime) {
    assert!(rt; does(rt.alloc(), &LOST));
}
