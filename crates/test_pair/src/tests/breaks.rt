//! A way to the client that breaks. What both ends come to then, also where the way to the backend breaks, is asked by `.ci/loops`.

use super::answers::{Reply, answering};
use super::claims::Claim;
use super::events::{ASKS, TableEvent};
use super::{happened, judge, started};
use pg_pair::Direct;
use std::alloc::Global;

// An event, then all that waits goes to the backend, which steps, and the way to the client breaks after so many bytes; and then another
// event.
fn with_break(first: TableEvent, most: u32, last: TableEvent) -> [TableEvent; 6] {
    [
        first,
        TableEvent::ToBackend(4_096),
        TableEvent::Step,
        TableEvent::ToClient(most),
        TableEvent::BreakToClient,
        last,
    ]
}

const CALLS: [TableEvent; 2] = [TableEvent::Start, ASKS];

/// A client outside the pair settles the same.
const ALIKE: [Claim<'static, 'static>; 1] = [Claim::Alike(&CALLS)];

// Whether it does where the way breaks in the startup, and the client asks then.
fn at_start(alloc: Global, most: u32) -> bool {
    let list = with_break(TableEvent::Start, most, ASKS);
    judge(
        alloc,
        answering(&[Reply::Row]),
        Direct,
        happened(&list),
        &ALIKE,
    )
}

// Whether it does where the way breaks after the client's query, and is broken again.
fn at_query(alloc: Global, most: u32) -> bool {
    let list = with_break(ASKS, most, TableEvent::BreakToClient);
    judge(
        alloc,
        answering(&[Reply::Row]),
        Direct,
        started(&list),
        &ALIKE,
    )
}

#[test]
fn outside_a_broken_pair_the_same_settles(rt: HostRuntime) {
    for most in 0..=15 {
        assert!(rt; at_start(rt.alloc(), most));
    }
    for most in 0..=59 {
        assert!(rt; at_query(rt.alloc(), most));
    }
}
