//! What is told of a refused call and of a fault. What other events are answered is asked by `.ci/loops`.

use super::answers::{Reply, answering};
use super::claims::Claim;
use super::events::{ASKS, TableEvent, TableRequest};
use super::wanted::TableAnswer;
use super::{Plan, happened, judge, started};
use pg_backend::BackPhase;
use pg_client::{CallFault, Cause, Phase};
use pg_pair::Direct;
use pg_wire::{EncodeFault, WireFault};
use std::alloc::Global;

const ASKS_B: TableEvent = TableEvent::Request(TableRequest::Query(b"B"));

const CHUNK: TableEvent = TableEvent::Chunk(b"1\n");

// Whether the call is rejected so after what the plan says, and a second time.
fn refuses(alloc: Global, plan: Plan<'_>, call: TableEvent, fault: CallFault) -> bool {
    let twice = [call, call];
    let claims = [Claim::Answer(&twice, TableAnswer::Refused(fault))];
    judge(alloc, answering(&[Reply::Row]), Direct, plan, &claims)
}

// Whether each of these calls is rejected with its fault after what the plan says, each by a pair of its own.
fn all_refused(alloc: Global, plan: Plan<'_>, calls: &[(TableEvent, CallFault)]) -> bool {
    for (call, fault) in calls {
        if !refuses(alloc, plan, *call, *fault) {
            return false;
        }
    }
    true
}

const NEW: CallFault = CallFault::NotReady(Phase::New);

const REQUESTS: [(TableEvent, CallFault); 2] = [(ASKS_B, NEW), (TableEvent::Terminate, NEW)];

#[test]
fn without_a_start_requests_are_refused(rt: HostRuntime) {
    assert!(rt; all_refused(rt.alloc(), happened(&[]), &REQUESTS));
}

const NO_COPY: CallFault = CallFault::NotCopying(Phase::New);

const COPY_CALLS: [(TableEvent, CallFault); 3] = [
    (CHUNK, NO_COPY),
    (TableEvent::Done, NO_COPY),
    (TableEvent::Fail(b"why"), NO_COPY),
];

#[test]
fn without_a_start_copy_calls_are_refused(rt: HostRuntime) {
    assert!(rt; all_refused(rt.alloc(), happened(&[]), &COPY_CALLS));
}

const BUSY: CallFault = CallFault::NotReady(Phase::Busy);

const BEFORE_THE_ANSWER: [(TableEvent, CallFault); 3] = [
    (TableEvent::Start, BUSY),
    (ASKS_B, BUSY),
    (CHUNK, CallFault::NotCopying(Phase::Busy)),
];

#[test]
fn before_the_answer_calls_are_refused(rt: HostRuntime) {
    assert!(rt; all_refused(rt.alloc(), started(&[ASKS]), &BEFORE_THE_ANSWER));
}

#[test]
fn what_has_no_spelling_is_refused(rt: HostRuntime) {
    let asks = TableEvent::Request(TableRequest::Query(b"\0"));
    let fault = CallFault::Encode(EncodeFault::HasZero);
    assert!(rt; refuses(rt.alloc(), started(&[]), asks, fault));
}

// Whether this holds after these events, where the client was let in.
fn comes_to(alloc: Global, reply: Reply, list: &[TableEvent], claims: &[Claim<'_, '_>]) -> bool {
    judge(alloc, answering(&[reply]), Direct, started(list), claims)
}

const UP_TO_THE_ANSWER: [TableEvent; 3] = [ASKS, TableEvent::ToBackend(4_096), TableEvent::Step];

const TOO_LONG: [Claim<'static, 'static>; 2] = [
    Claim::Answer(
        &[TableEvent::ToClient(4_096)],
        TableAnswer::Wire(WireFault::LongLength(70_005)),
    ),
    Claim::Stand(Phase::Closed(Cause::Wire), BackPhase::Ready),
];

#[test]
fn a_fault_of_the_client_is_answered(rt: HostRuntime) {
    assert!(rt; comes_to(rt.alloc(), Reply::Long, &UP_TO_THE_ANSWER, &TOO_LONG));
}
