use crate::client::ANSWER;
use crate::drive::client::{ClientStep, Lost, Told};
use crate::drive::driving::{Beginning, does};
use crate::early::session::COPY_IN;
use pg_client::{Cause, Phase};

const SETTLED: [ClientStep; 5] = [
    ClientStep::Gives(14, Told::Settled),
    // it waits also where no piece is to be received
    ClientStep::Gives(0, Told::TurnsUsed),
    ClientStep::HasSettled(true),
    ClientStep::Settle,
    ClientStep::HasSettled(false),
];

#[test]
fn a_group_settles(rt: HostRuntime) {
    assert!(rt; does(rt.alloc(), Beginning::Asked, ANSWER, 1, &SETTLED));
}

const FED: [ClientStep; 3] = [
    ClientStep::Feed(ANSWER),
    ClientStep::Gives(9, Told::Settled),
    ClientStep::IsLeft(3),
];

#[test]
fn a_group_that_waits_is_seen_after_a_piece(rt: HostRuntime) {
    assert!(rt; does(rt.alloc(), Beginning::Asked, b"N\0\0\0\x05\0", 3, &FED));
}

const COPYING: [ClientStep; 3] = [
    ClientStep::Gives(9, Told::CopyIn),
    ClientStep::Stands(Phase::CopyingIn),
    ClientStep::HasToReceive(b""),
];

#[test]
fn a_copy_is_awaited(rt: HostRuntime) {
    assert!(rt; does(rt.alloc(), Beginning::Asked, COPY_IN, 1, &COPYING));
}

const LOST: [ClientStep; 2] = [
    ClientStep::Gives(2, Told::Lost(Lost::Query(true))),
    ClientStep::Stands(Phase::Closed(Cause::Lost)),
];

#[test]
fn a_request_is_lost(rt: HostRuntime) {
    assert!(rt; does(rt.alloc(), Beginning::Asked, b"E\0\0\0\x05\0", 40, &LOST));
}

const LOST_WITH_LINK: [ClientStep; 3] = [
    ClientStep::FailReceive(2),
    ClientStep::Gives(2, Told::Failed(Lost::Query(false))),
    ClientStep::Failures(1),
];

#[test]
fn a_request_is_lost_with_the_link(rt: HostRuntime) {
    assert!(rt; does(rt.alloc(), Beginning::Asked, ANSWER, 13, &LOST_WITH_LINK));
}
