//! What is answered, turn by turn.

use crate::serve::serving::{ServingStep, does};
use pg_backend::{AnswerFault, Answered, BackPhase, BackendFault};
use pg_wire::WireFault;
use std::test::Fail;
use testing::is_told;
use testing::values::WELCOME;

/// The startup packet of the user `u`, a query of `Q`, and Terminate.
const SESSION: &[u8] = b"\0\0\0\x10\0\x03\0\0user\0u\0\0Q\0\0\0\x06Q\0X\0\0\0\x04";

/// AuthenticationOk and ReadyForQuery; CommandComplete of `OK` and ReadyForQuery.
const REPLY: &[u8] = b"R\0\0\0\x08\0\0\0\0Z\0\0\0\x05IC\0\0\0\x07OK\0Z\0\0\0\x05I";

const ANSWERED: [ServingStep; 6] = [
    ServingStep::Gives(99, Answered::Closed),
    ServingStep::HasSent(REPLY),
    ServingStep::HasLogged(1),
    // and nothing more happens
    ServingStep::Gives(1, Answered::Closed),
    ServingStep::Gives(0, Answered::TurnsUsed),
    ServingStep::HasSent(REPLY),
];

#[test]
fn a_session_is_answered(rt: HostRuntime) {
    for most in 1..30 {
        assert!(rt; does(rt.alloc(), SESSION, most, &ANSWERED), "{most}");
    }
}

const BY_TURNS: [ServingStep; 11] = [
    ServingStep::Gives(1, Answered::TurnsUsed),
    ServingStep::IsLeft(5),
    ServingStep::HasSent(b""),
    ServingStep::Gives(1, Answered::TurnsUsed),
    ServingStep::HasSent(&WELCOME),
    // the query isn't waited for, since it is whole
    ServingStep::Gives(1, Answered::TurnsUsed),
    ServingStep::HasSent(REPLY),
    ServingStep::IsLeft(5),
    ServingStep::Gives(2, Answered::TurnsUsed),
    ServingStep::Stands(BackPhase::Closed),
    ServingStep::Gives(1, Answered::Closed),
];

#[test]
fn a_turn_is_a_piece_or_a_reply(rt: HostRuntime) {
    assert!(rt; does(rt.alloc(), SESSION, 23, &BY_TURNS));
}

/// The startup packet, and a query without its last byte.
const CUT_OFF: &[u8] = b"\0\0\0\x10\0\x03\0\0user\0u\0\0Q\0\0\0\x06Q";

const ENDED: [ServingStep; 4] = [
    ServingStep::Gives(99, Answered::Lost),
    ServingStep::Stands(BackPhase::Closed),
    ServingStep::HasSent(&WELCOME),
    ServingStep::HasLogged(0),
];

#[test]
fn the_bytes_of_a_client_end_before(rt: HostRuntime) {
    assert!(rt; does(rt.alloc(), CUT_OFF, 1, &ENDED));
}

/// The startup packet, and a message of an unknown tag.
const FAULTY: &[u8] = b"\0\0\0\x10\0\x03\0\0user\0u\0\0!\0\0\0\x04";

/// AuthenticationOk, ReadyForQuery, and how an error begins.
const ERROR: &[u8] = b"R\0\0\0\x08\0\0\0\0Z\0\0\0\x05IE\0\0\0";

const REFUSED: [ServingStep; 3] = [
    ServingStep::Fails(
        99,
        AnswerFault::Backend(BackendFault::Wire(WireFault::UnknownTag(b'!'))),
    ),
    ServingStep::HasSentFirst(ERROR),
    ServingStep::Stands(BackPhase::Closed),
];

#[test]
fn a_faulty_message_is_answered_before_the_fault(rt: HostRuntime) {
    assert!(rt; does(rt.alloc(), FAULTY, 21, &REFUSED));
}

/// The startup packet, and a password that wasn't asked for.
const STRAY: &[u8] = b"\0\0\0\x10\0\x03\0\0user\0u\0\0p\0\0\0\x05\0";

const OUT_OF_PLACE: [ServingStep; 2] = [
    ServingStep::Fails(99, AnswerFault::Backend(BackendFault::Unexpected(b'p'))),
    ServingStep::HasSentFirst(ERROR),
];

#[test]
fn a_message_out_of_place_is_answered_before_the_fault(rt: HostRuntime) {
    assert!(rt; does(rt.alloc(), STRAY, 9, &OUT_OF_PLACE));
}

const RECEIVE_FAILS: [ServingStep; 5] = [
    ServingStep::FailReceive(2),
    ServingStep::Fails(99, AnswerFault::Link),
    ServingStep::HasSent(&WELCOME),
    ServingStep::Stands(BackPhase::Closed),
    ServingStep::Gives(1, Answered::Closed),
];

#[test]
fn a_receive_fails(rt: HostRuntime) {
    assert!(rt; does(rt.alloc(), SESSION, 20, &RECEIVE_FAILS));
}

const SEND_FAILS: [ServingStep; 4] = [
    ServingStep::FailSend(2),
    ServingStep::Fails(99, AnswerFault::Link),
    // the first ten bytes of the reply
    ServingStep::HasSent(b"R\0\0\0\x08\0\0\0\0Z"),
    ServingStep::Stands(BackPhase::Closed),
];

#[test]
fn a_send_fails(rt: HostRuntime) {
    assert!(rt; does(rt.alloc(), SESSION, 10, &SEND_FAILS));
}

#[test]
fn faults_have_their_codes_and_texts(rt: HostRuntime) -> Result<(), Fail> {
    let refused = AnswerFault::Backend(BackendFault::Unexpected(b'p'));
    assert_eq!(rt; refused.code(), "A1");
    assert!(rt; is_told(rt.alloc(), refused, "A1 Backend K4 Unexpected 112")?);
    assert_eq!(rt; AnswerFault::Link.code(), "A2");
    assert!(rt; is_told(rt.alloc(), AnswerFault::Link, "A2 Link")?);
    Ok(())
}
