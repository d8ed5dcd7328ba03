//! Groups of steps, which a client outside the pair settles, too. What each comes to is asked by `.ci/loops`.

use super::answers::{Reply, answering};
use super::claims::Claim;
use super::events::{GROUP, TableEvent, TableRequest};
use super::{carried_out, judge};
use pg_pair::Direct;
use pg_wire::Status;
use std::alloc::Global;

const CALLS: [TableEvent; 2] = [
    TableEvent::Start,
    TableEvent::Request(TableRequest::Group(&GROUP)),
];

// Whether a client outside the pair settles the same where the client asks for the group and is answered so, in deliveries of at most so
// many bytes.
fn is_alike(alloc: Global, reply: Reply, cut: u32) -> bool {
    judge(
        alloc,
        answering(&[reply]),
        Direct,
        carried_out(&CALLS, cut),
        &[Claim::Alike(&CALLS)],
    )
}

// What the backend answers, and how many bytes are delivered at a time.
const GROUPS: [(Reply, u32); 3] = [
    (Reply::Steps, 4_096),
    (Reply::Steps, 1),
    (Reply::FailingStep(Status::Failed), 4_096),
];

#[test]
fn outside_a_pair_a_group_settles(rt: HostRuntime) {
    for (reply, cut) in GROUPS {
        assert!(rt; is_alike(rt.alloc(), reply, cut));
    }
}
