//! Ways that break after each byte.

use super::answers::{Ends, Question, Reply, SECRET, answering, asking};
use super::claims::Claim;
use super::events::{ASKS, TableEvent};
use super::worked::{DONE_COPY, FAILED_COPY, REFUSED_COPY, UNNAMED_GROUP};
use super::{Plan, carried_out, judge};
use pg_pair::{Carry, CarryFault, Way};
use pg_wire::Status;
use std::alloc::Global;

/// Carries whole pieces, but of one way so many bytes alone, and then it fails.
#[derive(Drop)]
struct Short {
    way: Way,
    left: usize,
    failures: u64,
}

impl Carry for Short {
    ghost failures = { λ c. c.failures };

    ghost carries = { λ _ _ _ _ _. Unit {0} };

    fn carry(&mut self, way: Way, piece: &[u8], into: &mut [u8]) -> Result<usize, CarryFault> {
        into.copy_from_slice(piece);
        if way != self.way {
            return Ok(piece.len());
        }
        if self.left == 0 {
            self.failures = self.failures.saturating_add(1);
            return Err(CarryFault);
        }
        let count = piece.len().min(self.left);
        self.left -= count;
        Ok(count)
    }
}

// A carrier of so many bytes of this way.
fn carrying(way: Way, left: usize) -> Short {
    Short {
        way,
        left,
        failures: 0,
    }
}

// Whether what is settled begins what the backend has answered, where this way breaks after so many bytes.
fn is_cut_off(alloc: Global, ends: Ends<'_>, plan: Plan<'_>, way: Way, place: usize) -> bool {
    let claims = [Claim::CutOff(way, place)];
    judge(alloc, ends, carrying(way, place), plan, &claims)
}

// Whether the way isn't broken where so many bytes of it are carried, which are all.
fn is_whole(alloc: Global, ends: Ends<'_>, plan: Plan<'_>, way: Way, count: usize) -> bool {
    let claims = [Claim::Broken(false, false), Claim::Reached(way, count)];
    judge(alloc, ends, carrying(way, count), plan, &claims)
}

// Whether what is settled begins what the backend has answered where this way breaks after each of its bytes, of which there are so
// many. After all of them it isn't broken.
fn one_way(alloc: Global, ends: Ends<'_>, plan: Plan<'_>, way: Way, count: usize) -> bool {
    for place in 0..count {
        if !is_cut_off(alloc, ends, plan, way, place) {
            return false;
        }
    }
    is_whole(alloc, ends, plan, way, count)
}

// Whether it is so where the way to the backend breaks, and where the way to the client does, which have so many bytes.
fn both_ways(alloc: Global, ends: Ends<'_>, plan: Plan<'_>, counts: (usize, usize)) -> bool {
    let (to_backend, to_client) = counts;
    one_way(alloc, ends, plan, Way::ToBackend, to_backend)
        && one_way(alloc, ends, plan, Way::ToClient, to_client)
}

// A startup packet has 16 bytes, and the welcome has 15.

#[test]
fn a_refused_copy_and_a_query(rt: HostRuntime) {
    let ends = answering(&[Reply::Refusing(2), Reply::Command]);
    // a query of 10, five chunks of 6, a CopyDone of 5 and a query; a head of 10, an error of 18, a tag of 8 and two ends of 6
    let counts = (16 + 10 + 30 + 5 + 10, 15 + 10 + 18 + 8 + 12);
    assert!(rt; both_ways(rt.alloc(), ends, REFUSED_COPY, counts));
}

#[test]
fn a_copy_that_fails(rt: HostRuntime) {
    let ends = answering(&[Reply::Accepting]);
    // a query of 10, a chunk of 6 and a CopyFail of 8; a head of 10, an error of 44 and an end of 6
    let counts = (16 + 10 + 6 + 8, 15 + 10 + 44 + 6);
    assert!(rt; both_ways(rt.alloc(), ends, carried_out(&FAILED_COPY, 4_096), counts));
}

#[test]
fn a_copy_that_is_done(rt: HostRuntime) {
    let ends = answering(&[Reply::Accepting]);
    // a query of 10, a chunk of 6 and a CopyDone of 5; a head of 10, a tag of 12 and an end of 6
    let counts = (16 + 10 + 6 + 5, 15 + 10 + 12 + 6);
    assert!(rt; both_ways(rt.alloc(), ends, carried_out(&DONE_COPY, 4_096), counts));
}

#[test]
fn a_group(rt: HostRuntime) {
    let ends = answering(&[Reply::FailingStep(Status::Idle)]);
    // a Parse of 15, a Bind of 13, an Execute of 10 and a Sync of 5; a ParseComplete of 5, an error of 18 and an end of 6
    let counts = (16 + 15 + 13 + 10 + 5, 15 + 5 + 18 + 6);
    assert!(rt; both_ways(rt.alloc(), ends, carried_out(&UNNAMED_GROUP, 4_096), counts));
}

#[test]
fn a_password_and_a_row(rt: HostRuntime) {
    let ends = asking(Question::Cleartext, Some(SECRET));
    // the step does nothing, and then the password goes to the backend
    let list = [TableEvent::Start, TableEvent::Step, ASKS];
    // a password of 12 and a query of 14; a question of 9 before the welcome, and an answer of 59
    let counts = (16 + 12 + 14, 9 + 15 + 59);
    assert!(rt; both_ways(rt.alloc(), ends, carried_out(&list, 4_096), counts));
}
