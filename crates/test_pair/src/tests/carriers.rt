//! Carriers with a flaw.

use super::answers::{Reply, answering};
use super::claims::Claim;
use super::events::{ASKS, TableEvent};
use super::wanted::TableAnswer;
use super::{carried_out, happened, judge};
use pg_pair::{Carry, CarryFault, Way};
use std::alloc::Global;

/// What becomes of a carrier's call.
#[derive(Clone, Copy, PartialEq, Eq)]
enum CallFlaw {
    /// The last byte is another one.
    Differs,
    /// Half of the bytes arrive.
    Fewer,
    /// None arrives, and the carrier says so.
    Fails,
}

/// Carries whole pieces, but for one call.
#[derive(Drop)]
struct Flawed {
    flaw: CallFlaw,
    at: u64,
    calls: u64,
    failures: u64,
}

impl Carry for Flawed {
    ghost failures = { λ c. c.failures };

    ghost carries = { λ _ _ _ _ _. Unit {0} };

    fn carry(&mut self, _way: Way, piece: &[u8], into: &mut [u8]) -> Result<usize, CarryFault> {
        into.copy_from_slice(piece);
        self.calls = self.calls.saturating_add(1);
        if self.calls != self.at {
            return Ok(piece.len());
        }
        match self.flaw {
            CallFlaw::Differs => {
                let last = piece.len() - 1;
                into[last] ^= 1;
                Ok(piece.len())
            }
            CallFlaw::Fewer => Ok(piece.len() / 2),
            CallFlaw::Fails => {
                self.failures = self.failures.saturating_add(1);
                Err(CarryFault)
            }
        }
    }
}

// A carrier with a flaw in this call.
fn with_flaw(flaw: CallFlaw, at: u64) -> Flawed {
    Flawed {
        flaw,
        at,
        calls: 0,
        failures: 0,
    }
}

// Whether this holds where the client asks, and all that waits goes to and fro, if this call of the carrier has a flaw.
fn comes_to(alloc: Global, flaw: CallFlaw, at: u64, claims: &[Claim<'_, '_>]) -> bool {
    judge(
        alloc,
        answering(&[Reply::Row]),
        with_flaw(flaw, at),
        carried_out(&[TableEvent::Start, ASKS], 4_096),
        claims,
    )
}

const UNBROKEN: [Claim<'static, 'static>; 2] = [Claim::Broken(false, false), Claim::Settled(1)];

#[test]
fn fewer_bytes_break_nothing(rt: HostRuntime) {
    for at in 1..=4 {
        assert!(rt; comes_to(rt.alloc(), CallFlaw::Fewer, at, &UNBROKEN));
    }
}

// The way that breaks at this call of the four that carry the row: the calls go to the backend and to the client in turn.
fn broken_at(at: u64) -> [Claim<'static, 'static>; 2] {
    let to_backend = at % 2 == 1;
    [Claim::Broken(to_backend, !to_backend), Claim::Settled(0)]
}

#[test]
fn other_bytes_break_a_way(rt: HostRuntime) {
    for at in 1..=4 {
        assert!(rt; comes_to(rt.alloc(), CallFlaw::Differs, at, &broken_at(at)));
    }
}

#[test]
fn a_failure_breaks_a_way(rt: HostRuntime) {
    for at in 1..=4 {
        assert!(rt; comes_to(rt.alloc(), CallFlaw::Fails, at, &broken_at(at)));
    }
}

// Whether the delivery of the startup packet of 16 bytes is answered so with that flaw, and so many bytes of it come.
fn answers(alloc: Global, flaw: CallFlaw, answer: TableAnswer, reached: usize) -> bool {
    let claims = [
        Claim::Answer(&[TableEvent::ToBackend(100)], answer),
        Claim::Reached(Way::ToBackend, reached),
    ];
    judge(
        alloc,
        answering(&[Reply::Row]),
        with_flaw(flaw, 1),
        happened(&[TableEvent::Start]),
        &claims,
    )
}

#[test]
fn a_flaw_is_answered(rt: HostRuntime) {
    let alloc = rt.alloc();
    assert!(rt; answers(alloc, CallFlaw::Differs, TableAnswer::Carrier, 15));
    assert!(rt; answers(alloc, CallFlaw::Fewer, TableAnswer::Done, 8));
    assert!(rt; answers(alloc, CallFlaw::Fails, TableAnswer::Carrier, 0));
}
