//! What a caller draws from the contracts of a pair.

use super::answers::{Question, Reply, checked, settings};
use super::events::{ASKS, TableEvent, events};
use example_pair::{answers_settled, deliver, play, settled_when_ready};
use pg_pair::{Direct, Pair, Way};
use std::alloc::{AllocError, Global};
use testing::holds;

/// A start and a query, whose answer of 59 bytes waits for the client.
const ANSWERED: [TableEvent; 7] = [
    TableEvent::Start,
    TableEvent::ToBackend(16),
    TableEvent::Step,
    TableEvent::ToClient(15),
    ASKS,
    TableEvent::ToBackend(14),
    TableEvent::Step,
];

fn played(alloc: Global) -> Result<Pair<Direct>, AllocError> {
    let script = checked(alloc, Question::Trust, &[Reply::Row])?;
    let settings = settings(alloc, None)?;
    let events = events(alloc, &ANSWERED)?;
    match play(alloc, settings, script, Direct, events) {
        (pair, Ok(())) => Ok(pair),
        (_, Err(_)) => Err(AllocError),
    }
}

// Whether the answer settles once all of it is delivered.
fn settles_then(pair: &mut Pair<Direct>) -> bool {
    answers_settled(pair) == 0
        && settled_when_ready(pair).is_none()
        && deliver(pair, Way::ToClient, 100) == 59
        && answers_settled(pair) == 1
        && settled_when_ready(pair).is_some()
}

#[test]
fn a_played_row_settles(rt: HostRuntime) {
    assert!(rt; holds(played(rt.alloc()).ok(), |pair| settles_then(pair)));
}
