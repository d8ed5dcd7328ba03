//! A link that fails at one call, for each call of the drives of an early client: what was sent and received before stands, and the
//! items that came before are given.

use crate::drive::client::STARTUP;
use crate::drive::driving::{Beginning, does};
use crate::drive::early_client::{EarlyStep, Lost, NOTHING, REQUEST, REQUEST_WITH_ERROR, Told};
use crate::drive::failures::{ERROR, GIVEN, QUERY, SENT};
use pg_client::Phase;
use std::alloc::Global;

/// A RowDescription, a DataRow, a notice, CommandComplete and ReadyForQuery.
pub(crate) const WHOLE_ANSWER: &[u8] =
    b"T\0\0\0\x1a\0\x01n\0\0\0\0\0\0\0\0\0\0\x17\0\x04\xff\xff\xff\xff\0\0D\0\0\0\x0e\0\x02\xff\xff\xff\xff\0\0\0\0\
    N\0\0\0\x05\0C\0\0\0\x0dSELECT 1\0Z\0\0\0\x05I";

// Whether a client with a password that is started, over a link that gives GIVEN a byte at a time, does what these steps say.
fn startup_does(alloc: Global, steps: &[EarlyStep]) -> bool {
    does(alloc, Beginning::StartedWithPassword, &GIVEN, 1, steps)
}

#[test]
fn each_send_of_an_early_startup(rt: HostRuntime) {
    for sent in 0..16usize {
        let steps = [
            EarlyStep::FailSend(sent as u64 + 1),
            EarlyStep::Fails(NOTHING),
            EarlyStep::HasSentOf(&STARTUP, sent),
            EarlyStep::IsLeft(24),
        ];
        assert!(rt; startup_does(rt.alloc(), &steps), "{sent}");
    }
}

#[test]
fn each_send_of_an_early_password(rt: HostRuntime) {
    // it waits only once it was asked for
    for sent in 16..23usize {
        let steps = [
            EarlyStep::FailSend(sent as u64 + 1),
            EarlyStep::Fails(NOTHING),
            EarlyStep::HasSentOf(&SENT, sent),
            EarlyStep::IsLeft(15),
        ];
        assert!(rt; startup_does(rt.alloc(), &steps), "{sent}");
    }
}

#[test]
fn each_receive_of_an_early_question(rt: HostRuntime) {
    for received in 0..9usize {
        let steps = [
            EarlyStep::FailReceive(received as u64 + 1),
            EarlyStep::Fails(NOTHING),
            EarlyStep::HasSentOf(&STARTUP, 16),
            EarlyStep::IsLeft(24 - received),
        ];
        assert!(rt; startup_does(rt.alloc(), &steps), "{received}");
    }
}

#[test]
fn each_receive_of_an_early_welcome(rt: HostRuntime) {
    for received in 9..24usize {
        let steps = [
            EarlyStep::FailReceive(received as u64 + 1),
            EarlyStep::Fails(NOTHING),
            EarlyStep::HasSentOf(&SENT, 23),
            EarlyStep::IsLeft(24 - received),
        ];
        assert!(rt; startup_does(rt.alloc(), &steps), "{received}");
    }
}

#[test]
fn each_send_of_an_early_query(rt: HostRuntime) {
    for sent in 0..14usize {
        let steps = [
            EarlyStep::FailSend(sent as u64 + 1),
            EarlyStep::Fails(REQUEST),
            EarlyStep::HasSentOf(QUERY, sent),
            EarlyStep::IsLeft(68),
        ];
        assert!(rt;
            does(rt.alloc(), Beginning::Asked, WHOLE_ANSWER, 1, &steps),
            "{sent}"
        );
    }
}

// Whether a query whose link fails once so many of these bytes were received gives these items, and then loses this.
fn fails_after(
    alloc: Global,
    gives: &'static [u8],
    received: usize,
    items: &'static [Told],
    lost: Lost,
) -> bool {
    let steps = [
        EarlyStep::FailReceive((received as u64).saturating_add(1)),
        EarlyStep::GivesAll(100, items),
        EarlyStep::Fails(lost),
        EarlyStep::HasSentOf(QUERY, 14),
        EarlyStep::IsLeft(gives.len().saturating_sub(received)),
    ];
    does(alloc, Beginning::Asked, gives, 1, &steps)
}

/// The items that are given of an answer before the message of which these bytes are.
const BEFORE: [(&[Told], usize, usize); 5] = [
    (&[], 0, 27),
    (&[Told::Early(b'T')], 27, 42),
    (&[Told::Early(b'T'), Told::Early(b'D')], 42, 48),
    (
        &[Told::Early(b'T'), Told::Early(b'D'), Told::Early(b'N')],
        48,
        62,
    ),
    (
        &[
            Told::Early(b'T'),
            Told::Early(b'D'),
            Told::Early(b'N'),
            Told::Early(b'C'),
        ],
        62,
        68,
    ),
];

#[test]
fn each_receive_of_an_early_answer(rt: HostRuntime) {
    for (items, begin, end) in BEFORE {
        for received in begin..end {
            assert!(rt;
                fails_after(rt.alloc(), WHOLE_ANSWER, received, items, REQUEST),
                "{received}"
            );
        }
    }
}

#[test]
fn each_receive_of_an_early_error(rt: HostRuntime) {
    for received in 0..6usize {
        assert!(rt;
            fails_after(rt.alloc(), ERROR, received, &[], REQUEST),
            "{received}"
        );
    }
    for received in 6..12usize {
        assert!(rt;
            fails_after(
                rt.alloc(),
                ERROR,
                received,
                &[Told::Early(b'E')],
                REQUEST_WITH_ERROR
            ),
            "{received}"
        );
    }
}

const PAST_STARTUP: [EarlyStep; 7] = [
    EarlyStep::FailSend(24),
    EarlyStep::FailReceive(25),
    EarlyStep::Gives(24, Told::Ready),
    EarlyStep::Failures(0),
    EarlyStep::Stands(Phase::Ready),
    EarlyStep::HasSentOf(&SENT, 23),
    EarlyStep::IsLeft(0),
];

#[test]
fn past_the_last_call_of_an_early_startup(rt: HostRuntime) {
    assert!(rt; startup_does(rt.alloc(), &PAST_STARTUP));
}

const PAST_QUERY: [EarlyStep; 7] = [
    EarlyStep::FailSend(15),
    EarlyStep::FailReceive(13),
    EarlyStep::GivesAll(12, &[Told::Early(b'E'), Told::Settled]),
    EarlyStep::Failures(0),
    EarlyStep::Stands(Phase::Ready),
    EarlyStep::HasSentOf(QUERY, 14),
    EarlyStep::IsLeft(0),
];

#[test]
fn past_the_last_call_of_an_early_query(rt: HostRuntime) {
    assert!(rt; does(rt.alloc(), Beginning::Asked, ERROR, 1, &PAST_QUERY));
}
