//! Copies from the client, which a client outside the pair settles, too. What each comes to is asked by `.ci/loops`.

use super::answers::{Reply, answering};
use super::claims::Claim;
use super::events::{ASKS, TableEvent};
use super::{judge, started};
use pg_pair::Direct;
use std::alloc::Global;

const FIRST: TableEvent = TableEvent::Chunk(b"1\n");

const SECOND: TableEvent = TableEvent::Chunk(b"2\n");

// Whether a client outside the pair settles the same where the client asks for a copy, hands two chunks over, and ends it so; and then all of
// that arrives.
fn is_alike(alloc: Global, reply: Reply, end: TableEvent) -> bool {
    let calls = [TableEvent::Start, ASKS, FIRST, SECOND, end];
    let list = [
        ASKS,
        TableEvent::ToBackend(4_096),
        TableEvent::Step,
        TableEvent::ToClient(4_096),
        FIRST,
        SECOND,
        end,
        TableEvent::ToBackend(4_096),
        TableEvent::Step,
        TableEvent::Step,
        TableEvent::Step,
        TableEvent::ToClient(4_096),
    ];
    judge(
        alloc,
        answering(&[reply]),
        Direct,
        started(&list),
        &[Claim::Alike(&calls)],
    )
}

// What the backend answers, and how the client ends its copy.
const COPIES: [(Reply, TableEvent); 3] = [
    (Reply::Accepting, TableEvent::Done),
    (Reply::Refusing(1), TableEvent::Done),
    (Reply::Accepting, TableEvent::Fail(b"why")),
];

#[test]
fn outside_a_pair_a_copy_settles(rt: HostRuntime) {
    for (reply, end) in COPIES {
        assert!(rt; is_alike(rt.alloc(), reply, end));
    }
}
