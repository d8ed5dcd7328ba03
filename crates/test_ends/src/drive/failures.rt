//! A link that fails at one call, for each call of a drive: what was sent and received before stands.

use crate::drive::client::{ClientDrive, ClientStep, Lost, STARTUP, Told};
use crate::drive::driving::{has_asked, over};
use pg_client::{Cause, Phase};
use std::alloc::Global;
use testing::{MemoryLink, holds, memory_link};

/// AuthenticationCleartextPassword and then the welcome.
pub(crate) const GIVEN: [u8; 24] = [
    0x52, 0, 0, 0, 8, 0, 0, 0, 3, 0x52, 0, 0, 0, 8, 0, 0, 0, 0, 0x5A, 0, 0, 0, 5, 0x49,
];

/// The startup packet, and a PasswordMessage with the password `p`.
pub(crate) const SENT: [u8; 23] = [
    0, 0, 0, 16, 0, 3, 0, 0, b'u', b's', b'e', b'r', 0, b'u', 0, 0, 0x70, 0, 0, 0, 6, b'p', 0,
];

/// ErrorResponse without fields, and ReadyForQuery.
pub(crate) const ERROR: &[u8] = b"E\0\0\0\x05\0Z\0\0\0\x05I";

/// The message of the query `SELECT 1`.
pub(crate) const QUERY: &[u8] = b"Q\0\0\0\x0dSELECT 1\0";

// A link that gives these bytes, one at a time, and fails at this send and this receive, or at none where that is 0.
fn failing(alloc: Global, gives: &'static [u8], send: u64, receive: u64) -> MemoryLink<'static> {
    let mut link = memory_link(alloc, gives, 1);
    link.fails_at_send = send;
    link.fails_at_receive = receive;
    link
}

// A client for a drive that begins with the startup, and one for a drive that begins with a query.
fn startup(alloc: Global, send: u64, receive: u64) -> Option<ClientDrive> {
    over::<ClientStep>(alloc, Some(b"p"), failing(alloc, &GIVEN, send, receive))
}

fn query(alloc: Global, send: u64, receive: u64) -> Option<ClientDrive> {
    over::<ClientStep>(alloc, None, failing(alloc, ERROR, send, receive))
}

impl ClientDrive {
    // Driven, it ends as the link fails, once.
    fn is_failed(&mut self, lost: Lost) -> bool {
        self.gives(100, Told::Failed(lost))
            && self.link.failures == 1
            && self.stands(Phase::Closed(Cause::Lost))
    }

    // Driven, it ends well, and is ready.
    fn ends_well(&mut self, told: Told) -> bool {
        self.gives(100, told) && self.link.failures == 0 && self.stands(Phase::Ready)
    }

    // Just the first so many of these bytes were sent.
    fn has_sent_of(&self, all: &[u8], sent: usize) -> bool {
        self.link.taken.len() == sent && all.starts_with(self.link.taken.as_slice())
    }

    // Just so many bytes wait to be sent, the last of these.
    fn has_to_send_of(&self, all: &[u8], waiting: usize) -> bool {
        self.out.len() == waiting && all.ends_with(self.out.as_slice())
    }

    // Driven, it ends as the link fails, and leaves this of the bytes that are to be sent.
    fn leaves(&mut self, all: &[u8], left: Left) -> bool {
        self.is_failed(left.lost)
            && self.has_sent_of(all, left.sent)
            && self.has_to_send_of(all, left.waiting)
            && self.is_left(left.given)
    }

    // Driven, it ends well, and all of these bytes were sent, and all that are to be received.
    fn ends_whole(&mut self, told: Told, all: &[u8]) -> bool {
        self.ends_well(told) && self.link.has_sent(all) && self.has_to_send(b"") && self.is_left(0)
    }
}

/// What is left where a link has failed.
#[derive(Clone, Copy)]
struct Left {
    // What is lost with it.
    lost: Lost,
    // How many bytes were sent.
    sent: usize,
    // How many bytes wait to be sent.
    waiting: usize,
    // How many bytes are left to be received.
    given: usize,
}

// Whether a startup that fails at this send or this receive leaves this of the bytes that are to be sent.
fn startup_leaves(alloc: Global, send: u64, receive: u64, all: &[u8], left: Left) -> bool {
    holds(
        startup(alloc, send, receive),
        |it| it.starts() && it.leaves(all, left),
    )
}

// Whether a query that fails so leaves this of its message.
fn query_leaves(alloc: Global, send: u64, receive: u64, left: Left) -> bool {
    holds(
        query(alloc, send, receive),
        |it| has_asked::<ClientStep>(it, alloc) && it.leaves(QUERY, left),
    )
}

#[test]
fn each_send_of_a_startup(rt: HostRuntime) {
    for sent in 0..16usize {
        let left = Left {
            lost: Lost::Nothing,
            sent,
            waiting: 16 - sent,
            given: 24,
        };
        let held = startup_leaves(rt.alloc(), sent as u64 + 1, 0, &STARTUP, left);
        assert!(rt; held, "{sent}");
    }
}

#[test]
fn each_send_of_a_password(rt: HostRuntime) {
    // it waits only once it was asked for
    for sent in 16..23usize {
        let left = Left {
            lost: Lost::Nothing,
            sent,
            waiting: 23 - sent,
            given: 15,
        };
        let held = startup_leaves(rt.alloc(), sent as u64 + 1, 0, &SENT, left);
        assert!(rt; held, "{sent}");
    }
}

// Whether a startup whose receive after so many bytes fails has sent so many bytes, and keeps none.
fn receive_fails_after(alloc: Global, received: usize, sent: usize) -> bool {
    let left = Left {
        lost: Lost::Nothing,
        sent,
        waiting: 0,
        given: GIVEN.len().saturating_sub(received),
    };
    startup_leaves(alloc, 0, (received as u64).saturating_add(1), &SENT, left)
}

#[test]
fn each_receive_of_a_question(rt: HostRuntime) {
    for received in 0..9usize {
        assert!(rt; receive_fails_after(rt.alloc(), received, 16), "{received}");
    }
}

#[test]
fn each_receive_of_a_welcome(rt: HostRuntime) {
    for received in 9..24usize {
        assert!(rt; receive_fails_after(rt.alloc(), received, 23), "{received}");
    }
}

#[test]
fn each_send_of_a_query(rt: HostRuntime) {
    for sent in 0..14usize {
        let left = Left {
            lost: Lost::Query(false),
            sent,
            waiting: 14 - sent,
            given: 12,
        };
        let held = query_leaves(rt.alloc(), sent as u64 + 1, 0, left);
        assert!(rt; held, "{sent}");
    }
}

#[test]
fn each_receive_of_a_query(rt: HostRuntime) {
    for received in 0..12usize {
        let left = Left {
            // the error is seen once its six bytes are there
            lost: Lost::Query(received >= 6),
            sent: 14,
            waiting: 0,
            given: 12 - received,
        };
        let held = query_leaves(rt.alloc(), 0, received as u64 + 1, left);
        assert!(rt; held, "{received}");
    }
}

#[test]
fn past_the_last_call_of_a_startup(rt: HostRuntime) {
    let held = holds(
        startup(rt.alloc(), 24, 25),
        |it| it.starts() && it.ends_whole(Told::Ready, &SENT),
    );
    assert!(rt; held);
}

#[test]
fn past_the_last_call_of_a_query(rt: HostRuntime) {
    let alloc = rt.alloc();
    let held = holds(
        query(alloc, 15, 13),
        |it| has_asked::<ClientStep>(it, alloc) && it.ends_whole(Told::Settled, QUERY),
    );
    assert!(rt; held);
}
