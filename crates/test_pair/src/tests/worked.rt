//! Copies and a group that fail, in deliveries of 4,096 bytes and of one byte, which a client outside the pair settles, too. What each comes to
//! is asked by `.ci/loops`.

use super::answers::{Ends, Reply, answering};
use super::claims::Claim;
use super::events::{TableEvent, TableRequest, UNNAMED};
use super::{Plan, carried_out, judge};
use pg_pair::Direct;
use pg_wire::Status;
use std::alloc::Global;

const ASKS_COPY: TableEvent = TableEvent::Request(TableRequest::Query(b"COPY"));

const ASKS_NEXT: TableEvent = TableEvent::Request(TableRequest::Query(b"NEXT"));

// Whether a client outside the pair, with these calls, settles the same after what the plan says.
fn is_alike(alloc: Global, ends: Ends<'_>, plan: Plan<'_>, calls: &[TableEvent]) -> bool {
    judge(alloc, ends, Direct, plan, &[Claim::Alike(calls)])
}

// ---- a rejected copy, whose other chunks are dropped before the next request

/// The client asks for a copy. Two chunks reach the backend, which rejects the second, and three more and the end don't. Then the client
/// asks for something else.
pub const REFUSED_COPY: Plan<'static> = Plan {
    lets_in: true,
    cut: 4_096,
    whole: &[ASKS_COPY],
    single: &[
        TableEvent::Chunk(b"a"),
        TableEvent::Chunk(b"b"),
        TableEvent::ToBackend(100),
        TableEvent::Step,
        TableEvent::Step,
        TableEvent::Chunk(b"c"),
        TableEvent::Chunk(b"d"),
        TableEvent::Chunk(b"e"),
        TableEvent::Done,
        TableEvent::ToClient(1_000),
    ],
    last: &[ASKS_NEXT],
};

const REFUSED_CALLS: [TableEvent; 9] = [
    TableEvent::Start,
    ASKS_COPY,
    TableEvent::Chunk(b"a"),
    TableEvent::Chunk(b"b"),
    TableEvent::Chunk(b"c"),
    TableEvent::Chunk(b"d"),
    TableEvent::Chunk(b"e"),
    TableEvent::Done,
    ASKS_NEXT,
];

#[test]
fn outside_a_pair_a_refused_copy_settles(rt: HostRuntime) {
    let ends = answering(&[Reply::Refusing(2), Reply::Command]);
    for cut in [4_096, 1] {
        let plan = Plan {
            cut,
            ..REFUSED_COPY
        };
        assert!(rt; is_alike(rt.alloc(), ends, plan, &REFUSED_CALLS));
    }
}

// ---- an accepted copy, which fails or is done

/// A copy of one chunk, which the client gives up.
pub const FAILED_COPY: [TableEvent; 4] = [
    TableEvent::Start,
    ASKS_COPY,
    TableEvent::Chunk(b"a"),
    TableEvent::Fail(b"no"),
];

/// A copy of one chunk, which the client ends.
pub const DONE_COPY: [TableEvent; 4] = [
    TableEvent::Start,
    ASKS_COPY,
    TableEvent::Chunk(b"a"),
    TableEvent::Done,
];

#[test]
fn outside_a_pair_an_accepted_copy_settles(rt: HostRuntime) {
    let ends = answering(&[Reply::Accepting]);
    for cut in [4_096, 1] {
        let fails = carried_out(&FAILED_COPY, cut);
        assert!(rt; is_alike(rt.alloc(), ends, fails, &FAILED_COPY));
        let ends_well = carried_out(&DONE_COPY, cut);
        assert!(rt; is_alike(rt.alloc(), ends, ends_well, &DONE_COPY));
    }
}

// ---- a group of three steps, of which one is answered

pub const UNNAMED_GROUP: [TableEvent; 2] = [
    TableEvent::Start,
    TableEvent::Request(TableRequest::Group(&UNNAMED)),
];

#[test]
fn outside_a_pair_a_group_that_breaks_off_settles(rt: HostRuntime) {
    let ends = answering(&[Reply::FailingStep(Status::Idle)]);
    for cut in [4_096, 1] {
        let plan = carried_out(&UNNAMED_GROUP, cut);
        assert!(rt; is_alike(rt.alloc(), ends, plan, &UNNAMED_GROUP));
    }
}
