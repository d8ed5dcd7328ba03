use crate::drive::client::{ClientDrive, ClientStep, Lost, STARTUP, Told, nothing_lost};
use crate::drive::driving::{Beginning, does, over};
use pg_client::{Cause, FeedFault, Phase};
use pg_drive::DriveFault;
use std::alloc::Global;
use std::test::Fail;
use testing::values::WELCOME;
use testing::{holds, is_told, memory_link};

const ENDED: [ClientStep; 5] = [
    ClientStep::Gives(15, Told::Ready),
    ClientStep::Stands(Phase::Ready),
    ClientStep::HasSent(&STARTUP),
    ClientStep::HasToSend(b""),
    ClientStep::Failures(0),
];

#[test]
fn it_ends_at_its_last_byte(rt: HostRuntime) {
    assert!(rt; does(rt.alloc(), Beginning::Started, &WELCOME, 1, &ENDED));
}

const USED: [ClientStep; 5] = [
    ClientStep::Gives(14, Told::TurnsUsed),
    ClientStep::Stands(Phase::Starting),
    ClientStep::IsLeft(1),
    // it goes on by the next call
    ClientStep::Gives(1, Told::Ready),
    // and Ready isn't answered once more
    ClientStep::Gives(0, Told::TurnsUsed),
];

#[test]
fn the_turns_are_used_before(rt: HostRuntime) {
    assert!(rt; does(rt.alloc(), Beginning::Started, &WELCOME, 1, &USED));
}

const SENT_ALONE: [ClientStep; 3] = [
    ClientStep::Gives(0, Told::TurnsUsed),
    ClientStep::HasSent(&STARTUP),
    ClientStep::HasToReceive(&WELCOME),
];

#[test]
fn without_turns_it_is_sent_alone(rt: HostRuntime) {
    assert!(rt; does(rt.alloc(), Beginning::Started, &WELCOME, 3, &SENT_ALONE));
}

const BY_PIECES: [ClientStep; 3] = [
    ClientStep::Gives(15, Told::Ready),
    ClientStep::HasSent(&STARTUP),
    ClientStep::HasToSend(b""),
];

#[test]
fn however_many_bytes_are_taken_at_once(rt: HostRuntime) {
    for most in 1..20 {
        assert!(rt;
            does(rt.alloc(), Beginning::Started, &WELCOME, most, &BY_PIECES),
            "{most}"
        );
    }
}

const CUT_OFF: [ClientStep; 3] = [
    ClientStep::Gives(20, Told::Lost(Lost::Nothing)),
    ClientStep::Stands(Phase::Closed(Cause::Lost)),
    ClientStep::Failures(0),
];

#[test]
fn the_bytes_end_before(rt: HostRuntime) {
    assert!(rt; does(rt.alloc(), Beginning::Started, &WELCOME[..14], 1, &CUT_OFF));
}

const RECEIVE_FAILS: [ClientStep; 4] = [
    ClientStep::FailReceive(15),
    ClientStep::Gives(20, Told::Failed(Lost::Nothing)),
    ClientStep::Stands(Phase::Closed(Cause::Lost)),
    ClientStep::Failures(1),
];

#[test]
fn a_receive_fails_before(rt: HostRuntime) {
    assert!(rt; does(rt.alloc(), Beginning::Started, &WELCOME, 1, &RECEIVE_FAILS));
}

impl ClientDrive {
    // It starts, and the send after so many bytes of the startup packet fails: these were sent, the others wait, and nothing was received.
    fn fails_after(&mut self, sent: usize) -> bool {
        let (before, after) = STARTUP.as_slice().split_at(sent.min(STARTUP.len()));
        self.link.fails_at_send = (sent as u64).saturating_add(1);
        self.starts()
            && self.gives(20, Told::Failed(Lost::Nothing))
            && self.stands(Phase::Closed(Cause::Lost))
            && self.link.has_sent(before)
            && self.has_to_send(after)
            && self.has_to_receive(&WELCOME)
    }
}

fn send_fails_after(alloc: Global, sent: usize) -> bool {
    let made = over::<ClientStep>(alloc, None, memory_link(alloc, &WELCOME, 1));
    holds(made, |it| it.fails_after(sent))
}

#[test]
fn a_send_fails(rt: HostRuntime) {
    for sent in 0..16usize {
        assert!(rt; send_fails_after(rt.alloc(), sent), "{sent}");
    }
}

/// AuthenticationCleartextPassword.
const QUESTION: [u8; 9] = [0x52, 0, 0, 0, 8, 0, 0, 0, 3];

/// PasswordMessage with the password `p`.
const PASSWORD: [u8; 7] = [0x70, 0, 0, 0, 6, b'p', 0];

const ASKED: [ClientStep; 3] = [
    ClientStep::Gives(5, Told::TurnsUsed),
    ClientStep::HasSentFromTo(&STARTUP, &PASSWORD),
    ClientStep::HasToSend(b""),
];

#[test]
fn a_password_is_sent(rt: HostRuntime) {
    assert!(rt;
        does(
            rt.alloc(),
            Beginning::StartedWithPassword,
            &QUESTION,
            2,
            &ASKED
        )
    );
}

const HALF_SENT: [ClientStep; 3] = [
    ClientStep::FailSend(6),
    ClientStep::Gives(9, Told::Failed(Lost::Nothing)),
    // the last three bytes of the PasswordMessage
    ClientStep::HasToSend(&[6, b'p', 0]),
];

#[test]
fn a_password_is_sent_in_part(rt: HostRuntime) {
    assert!(rt;
        does(
            rt.alloc(),
            Beginning::StartedWithPassword,
            &QUESTION,
            4,
            &HALF_SENT
        )
    );
}

const CLOSED: [ClientStep; 4] = [
    ClientStep::Lose,
    ClientStep::Gives(2, Told::Closed),
    ClientStep::HasSent(&STARTUP),
    ClientStep::HasToReceive(b""),
];

#[test]
fn a_closed_client_sends_and_takes_nothing(rt: HostRuntime) {
    assert!(rt; does(rt.alloc(), Beginning::Started, &WELCOME, 40, &CLOSED));
}

const TOO_EARLY: [ClientStep; 2] = [
    ClientStep::Gives(2, Told::Unexpected(b'Z')),
    ClientStep::Stands(Phase::Closed(Cause::Unexpected)),
];

#[test]
fn nothing_may_come_before_it(rt: HostRuntime) {
    assert!(rt;
        does(
            rt.alloc(),
            Beginning::Started,
            &WELCOME[9..],
            40,
            &TOO_EARLY
        )
    );
}

#[test]
fn faults_have_their_codes_and_texts(rt: HostRuntime) -> Result<(), Fail> {
    let refused = DriveFault::Feed(FeedFault::Unexpected(b'Z'));
    assert_eq!(rt; refused.code(), "D1");
    assert!(rt; is_told(rt.alloc(), refused, "D1 Feed F2 Unexpected 90")?);
    let failed = DriveFault::Link(nothing_lost());
    assert_eq!(rt; failed.code(), "D2");
    assert!(rt; is_told(rt.alloc(), failed, "D2 Link")?);
    Ok(())
}
