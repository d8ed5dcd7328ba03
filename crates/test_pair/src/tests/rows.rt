//! Queries, which a client outside the pair settles, too, and a list of events that is run. What each query comes to is asked by `.ci/loops`.

use super::answers::{Reply, answering};
use super::claims::Claim;
use super::events::{ASKED, ASKS, TableEvent, TableRequest};
use super::wanted::{TableGroup, TablePart};
use super::{carried_out, happened, judge};
use pg_backend::BackPhase;
use pg_client::Phase;
use pg_pair::Direct;
use pg_wire::Status;
use std::alloc::Global;

// Whether a client outside the pair settles the same where the calls are made and answered so, in deliveries of at most so many bytes.
fn is_alike(alloc: Global, calls: &[TableEvent], replies: &[Reply], cut: u32) -> bool {
    judge(
        alloc,
        answering(replies),
        Direct,
        carried_out(calls, cut),
        &[Claim::Alike(calls)],
    )
}

const CALLS: [TableEvent; 2] = [TableEvent::Start, ASKS];

#[test]
fn outside_a_pair_a_row_settles(rt: HostRuntime) {
    for cut in [4_096, 1, 3] {
        assert!(rt; is_alike(rt.alloc(), &CALLS, &[Reply::Row], cut));
    }
}

#[test]
fn outside_a_pair_an_error_settles(rt: HostRuntime) {
    assert!(rt; is_alike(rt.alloc(), &CALLS, &[Reply::Failing], 4_096));
}

const TWO_CALLS: [TableEvent; 3] = [
    TableEvent::Start,
    TableEvent::Request(TableRequest::Query(b"Q1")),
    TableEvent::Request(TableRequest::Query(b"Q2")),
];

#[test]
fn outside_a_pair_asides_settle(rt: HostRuntime) {
    let replies = [Reply::Told, Reply::InBlock];
    assert!(rt; is_alike(rt.alloc(), &TWO_CALLS, &replies, 4_096));
}

/// Start and a query. After each all that waits goes to the backend, twice, with steps up to the one that does nothing, and then to the
/// client.
const ROW_EVENTS: [TableEvent; 16] = [
    TableEvent::Start,
    TableEvent::ToBackend(u32::MAX),
    TableEvent::Step,
    TableEvent::Step,
    TableEvent::ToClient(u32::MAX),
    TableEvent::ToBackend(u32::MAX),
    TableEvent::Step,
    TableEvent::ToClient(u32::MAX),
    ASKS,
    TableEvent::ToBackend(u32::MAX),
    TableEvent::Step,
    TableEvent::Step,
    TableEvent::ToClient(u32::MAX),
    TableEvent::ToBackend(u32::MAX),
    TableEvent::Step,
    TableEvent::ToClient(u32::MAX),
];

const ROW: [TableGroup; 1] = [TableGroup {
    request: ASKED,
    parts: &[TablePart::Row],
    status: Status::Idle,
}];

/// The list of the row's events runs and settles its group, and a list of none no more.
const RUNS: [Claim<'static, 'static>; 5] = [
    Claim::Runs(&ROW_EVENTS),
    Claim::Groups(&ROW),
    Claim::Runs(&[]),
    Claim::Settled(1),
    Claim::Stand(Phase::Ready, BackPhase::Ready),
];

#[test]
fn a_list_of_events_runs(rt: HostRuntime) {
    assert!(rt;
        judge(
            rt.alloc(),
            answering(&[Reply::Row]),
            Direct,
            happened(&[]),
            &RUNS
        )
    );
}
