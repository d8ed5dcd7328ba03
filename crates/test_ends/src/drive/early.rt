use crate::client::ERROR;
use crate::drive::client::STARTUP;
use crate::drive::driving::{Beginning, does};
use crate::drive::early_client::{EarlyStep, NOTHING, REQUEST, REQUEST_WITH_ERROR, Told};
use crate::drive::early_failures::WHOLE_ANSWER;
use crate::early::session::{ANSWER, READY};
use pg_client::{Cause, Phase};
use testing::values::WELCOME;

/// CopyInResponse without columns, and what must not be received before the data is sent.
const COPY_IN: &[u8] = b"G\0\0\0\x07\0\0\0N\0\0\0\x05\0";

const STARTED: [EarlyStep; 5] = [
    EarlyStep::Gives(15, Told::Ready),
    EarlyStep::Stands(Phase::Ready),
    EarlyStep::HasSent(&STARTUP),
    EarlyStep::HasToSend(false),
    // and Ready isn't answered once more
    EarlyStep::Gives(0, Told::TurnsUsed),
];

#[test]
fn a_startup_ends_at_its_last_byte(rt: HostRuntime) {
    assert!(rt; does(rt.alloc(), Beginning::Started, &WELCOME, 1, &STARTED));
}

const USED: [EarlyStep; 4] = [
    EarlyStep::Gives(14, Told::TurnsUsed),
    EarlyStep::Stands(Phase::Starting),
    EarlyStep::IsLeft(1),
    EarlyStep::Gives(1, Told::Ready),
];

#[test]
fn the_turns_of_a_startup_are_used_before(rt: HostRuntime) {
    assert!(rt; does(rt.alloc(), Beginning::Started, &WELCOME, 1, &USED));
}

const ENDED: [EarlyStep; 3] = [
    EarlyStep::Gives(20, Told::Lost(NOTHING)),
    EarlyStep::Stands(Phase::Closed(Cause::Lost)),
    EarlyStep::Failures(0),
];

#[test]
fn the_bytes_of_a_startup_end_before(rt: HostRuntime) {
    assert!(rt; does(rt.alloc(), Beginning::Started, &WELCOME[..14], 1, &ENDED));
}

/// What an answer without its end comes to, an item a call.
const MESSAGES: &[Told] = &[
    Told::Early(b'T'),
    Told::Early(b'D'),
    Told::Early(b'N'),
    Told::Early(b'C'),
];

const WHOLE: [EarlyStep; 5] = [
    EarlyStep::GivesAll(99, MESSAGES),
    EarlyStep::Gives(99, Told::Settled),
    EarlyStep::Stands(Phase::Ready),
    EarlyStep::IsLeft(0),
    EarlyStep::Gives(0, Told::TurnsUsed),
];

#[test]
fn each_call_gives_an_item(rt: HostRuntime) {
    for most in 1..20 {
        assert!(rt;
            does(rt.alloc(), Beginning::Asked, WHOLE_ANSWER, most, &WHOLE),
            "{most}"
        );
    }
}

const WAITING: [EarlyStep; 4] = [
    EarlyStep::Feed(ANSWER),
    EarlyStep::GivesAll(9, MESSAGES),
    EarlyStep::IsLeft(6),
    EarlyStep::Gives(9, Told::Settled),
];

#[test]
fn nothing_is_received_while_an_item_waits(rt: HostRuntime) {
    assert!(rt; does(rt.alloc(), Beginning::Asked, READY, 1, &WAITING));
}

const COPY: [EarlyStep; 9] = [
    EarlyStep::Gives(9, Told::Early(b'G')),
    EarlyStep::Gives(9, Told::CopyIn),
    EarlyStep::IsLeft(6),
    EarlyStep::Gives(9, Told::CopyIn),
    EarlyStep::IsLeft(6),
    EarlyStep::Stands(Phase::CopyingIn),
    EarlyStep::EndCopy,
    EarlyStep::Gives(1, Told::Early(b'N')),
    EarlyStep::HasToSend(false),
];

#[test]
fn a_copy_is_awaited_without_a_receive(rt: HostRuntime) {
    assert!(rt; does(rt.alloc(), Beginning::Asked, COPY_IN, 8, &COPY));
}

const LOST: [EarlyStep; 4] = [
    EarlyStep::GivesAll(9, MESSAGES),
    EarlyStep::Gives(9, Told::Lost(REQUEST)),
    EarlyStep::Stands(Phase::Closed(Cause::Lost)),
    // what is lost is told once
    EarlyStep::Gives(9, Told::Lost(NOTHING)),
];

#[test]
fn items_are_given_before_a_loss(rt: HostRuntime) {
    assert!(rt; does(rt.alloc(), Beginning::Asked, ANSWER, 40, &LOST));
}

const LOST_WITH_ERROR: [EarlyStep; 2] = [
    EarlyStep::Gives(9, Told::Early(b'E')),
    EarlyStep::Gives(9, Told::Lost(REQUEST_WITH_ERROR)),
];

#[test]
fn an_error_is_lost_with_its_request(rt: HostRuntime) {
    assert!(rt; does(rt.alloc(), Beginning::Asked, ERROR, 40, &LOST_WITH_ERROR));
}

const LINK_FAILS: [EarlyStep; 4] = [
    EarlyStep::FailReceive(2),
    EarlyStep::Gives(9, Told::Failed(REQUEST)),
    EarlyStep::Failures(1),
    EarlyStep::Stands(Phase::Closed(Cause::Lost)),
];

#[test]
fn a_link_fails_in_an_answer(rt: HostRuntime) {
    assert!(rt; does(rt.alloc(), Beginning::Asked, ANSWER, 13, &LINK_FAILS));
}

const SEND_FAILS: [EarlyStep; 8] = [
    EarlyStep::FailSend(1),
    EarlyStep::Feed(ANSWER),
    EarlyStep::Gives(9, Told::Failed(REQUEST)),
    EarlyStep::HasToSend(true),
    // a further call gives them, once what waits can be sent
    EarlyStep::Gives(9, Told::Early(b'T')),
    EarlyStep::HasToSend(false),
    EarlyStep::HasItem(Some(Told::Early(b'D'))),
    EarlyStep::IsLeft(6),
];

#[test]
fn items_stay_where_a_link_fails(rt: HostRuntime) {
    assert!(rt; does(rt.alloc(), Beginning::Asked, READY, 1, &SEND_FAILS));
}

/// A notice, and a message that a server doesn't send.
const REFUSED: &[u8] = b"N\0\0\0\x05\0Q\0\0\0\x04";

const MESSAGE_REFUSED: [EarlyStep; 3] = [
    EarlyStep::Gives(9, Told::Refused),
    EarlyStep::Gives(9, Told::Early(b'N')),
    EarlyStep::HasItem(None),
];

#[test]
fn items_stay_where_a_message_is_refused(rt: HostRuntime) {
    assert!(rt; does(rt.alloc(), Beginning::Asked, REFUSED, 40, &MESSAGE_REFUSED));
}
