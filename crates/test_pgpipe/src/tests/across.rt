//! A carrier over two ends that give and take few bytes at a time, fail, or end.

use crate::tests::links::{Paper, Pieces, sheet, source_of};
use pg_pair::{Carry, CarryFault, Way};
use pg_wire::{LinkFault, Sink, Source};
use pgpipe_loop::Across;
use std::alloc::Global;
use testing::holds;

/// An end that gives certain bytes, whatever it was sent.
#[derive(Drop)]
struct End<'a> {
    gives: Pieces<'a>,
    takes: Paper,
}

impl<'a> Source for End<'a> {
    ghost failures = { λ e. e.gives.failures };

    ghost gives = { λ _ _ _. Unit {0} };

    ghost has_ended = { λ _. Unit {0} };

    fn receive(&mut self, into: &mut [u8]) -> Result<usize, LinkFault> {
        self.gives.receive(into)
    }
}

impl<'a> Sink for End<'a> {
    ghost failures = { λ e. e.takes.failures };

    ghost takes = { λ _ _ _. Unit {0} };

    fn send(&mut self, piece: &[u8]) -> Result<usize, LinkFault> {
        self.takes.send(piece)
    }
}

/// What is sent: three sends take it, seven bytes at most each.
const PIECE: &[u8] = b"twenty bytes of text";

/// What is received for it.
const OTHER: &[u8] = b"TWENTY BYTES OF TEXT";

// A carrier between two ends. Each gives these bytes, so many at a time; this send of it fails, and this receive.
fn between(
    alloc: Global,
    gives: &[u8],
    most: usize,
    fails: (u64, u64),
) -> Across<End<'_>, End<'_>> {
    let (send, receive) = fails;
    Across::new(
        End {
            gives: source_of(gives, most, receive),
            takes: sheet(alloc, send),
        },
        End {
            gives: source_of(gives, most, receive),
            takes: sheet(alloc, send),
        },
    )
}

// Carries the piece.
fn carry(
    carrier: &mut Across<End<'_>, End<'_>>,
    way: Way,
) -> (Result<usize, CarryFault>, [u8; 20]) {
    let mut into = [0; 20];
    let answer = carrier.carry(way, PIECE, &mut into);
    (answer, into)
}

// Whether so many bytes were sent at this end, in so many sends, and nothing was received there.
fn has_sent(end: &End<'_>, count: usize, sends: u64) -> bool {
    let text = end.takes.text.as_slice();
    text.len() == count
        && PIECE.starts_with(text)
        && end.takes.calls == sends
        && end.gives.calls == 0
}

// Whether so many receives were made at this end, and nothing was sent there.
fn has_received(end: &End<'_>, receives: u64) -> bool {
    end.gives.calls == receives && end.takes.calls == 0
}

// Whether so many bytes were sent at the end where the way begins, in so many sends, and so many receives were made at the other.
fn went(carrier: &Across<End<'_>, End<'_>>, way: Way, sent: (usize, u64), receives: u64) -> bool {
    let (count, sends) = sent;
    let (first, last) = match way {
        Way::ToBackend => (carrier.client(), carrier.backend()),
        Way::ToClient => (carrier.backend(), carrier.client()),
    };
    has_sent(first, count, sends) && has_received(last, receives)
}

// Whether the piece comes whole, by so many receives.
fn comes_whole(carrier: &mut Across<End<'_>, End<'_>>, way: Way, receives: u64) -> bool {
    let (answer, into) = carry(carrier, way);
    let whole = answer == Ok(20) && into.as_slice() == OTHER;
    whole && carrier.failures() == 0 && went(carrier, way, (20, 3), receives)
}

// Whether a first call fails, when so many bytes were sent, in so many sends, and so many receives were made.
fn fails(
    carrier: &mut Across<End<'_>, End<'_>>,
    way: Way,
    sent: (usize, u64),
    receives: u64,
) -> bool {
    let failed = carry(carrier, way).0 == Err(CarryFault);
    failed && carrier.failures() == 1 && went(carrier, way, sent, receives)
}

// Whether a first call fails as an end has no more bytes, after so many receives; neither end has failed, and the next call fails as well.
fn ends(carrier: &mut Across<End<'_>, End<'_>>, way: Way, receives: u64) -> bool {
    let ended = fails(carrier, way, (20, 3), receives)
        && carrier.client().gives.failures == 0
        && carrier.backend().gives.failures == 0;
    ended && carry(carrier, way).0 == Err(CarryFault) && carrier.failures() == 2
}

// Whether the piece comes whole where an end gives so many bytes at a time.
fn is_whole(alloc: Global, way: Way, most: usize, receives: u64) -> bool {
    holds(
        Some(between(alloc, OTHER, most, (0, 0))),
        |it| comes_whole(it, way, receives),
    )
}

// Whether the call fails where this send of an end fails, or this receive.
fn is_failed(alloc: Global, way: Way, at: (u64, u64), sent: (usize, u64), receives: u64) -> bool {
    holds(
        Some(between(alloc, OTHER, 3, at)),
        |it| fails(it, way, sent, receives),
    )
}

// Whether the call fails where an end gives only so many bytes, after so many receives.
fn is_ended(alloc: Global, way: Way, count: usize, receives: u64) -> bool {
    let (gives, _) = OTHER.split_at(count.min(OTHER.len()));
    holds(
        Some(between(alloc, gives, 1, (0, 0))),
        |it| ends(it, way, receives),
    )
}

const WAYS: [Way; 2] = [Way::ToBackend, Way::ToClient];

// How many bytes an end gives at a time, and how many receives that takes.
const RECEIVES: [(usize, u64); 5] = [(1, 20), (3, 7), (19, 2), (20, 1), (4_096, 1)];

#[test]
fn a_piece_comes_whole(rt: HostRuntime) {
    for way in WAYS {
        for (most, receives) in RECEIVES {
            assert!(rt; is_whole(rt.alloc(), way, most, receives), "{most}");
        }
    }
}

// The send that fails, and how many bytes were sent before.
const SENDS: [(u64, usize); 3] = [(1, 0), (2, 7), (3, 14)];

#[test]
fn an_end_that_fails_to_send(rt: HostRuntime) {
    for way in WAYS {
        for (sends, sent) in SENDS {
            let (at, sent) = ((sends, 0), (sent, sends));
            assert!(rt; is_failed(rt.alloc(), way, at, sent, 0), "{sends}");
        }
    }
}

#[test]
fn an_end_that_fails_to_receive(rt: HostRuntime) {
    for way in WAYS {
        for receives in 1..=7 {
            let (at, sent) = ((0, receives), (20, 3));
            assert!(rt;
                is_failed(rt.alloc(), way, at, sent, receives),
                "{receives}"
            );
        }
    }
}

#[test]
fn an_end_that_ends(rt: HostRuntime) {
    for way in WAYS {
        for count in 0..20 {
            // a byte a receive, and one that finds the end
            let receives = count as u64 + 1;
            assert!(rt; is_ended(rt.alloc(), way, count, receives), "{count}");
        }
    }
}
