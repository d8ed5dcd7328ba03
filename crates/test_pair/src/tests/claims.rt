//! What is so of a pair.

use super::events::{TableEvent, events};
use super::outside::settles_alike;
use super::perform;
use super::wanted::{TableAnswer, TableGroup, applied, are_groups};
use pg_backend::{BackPhase, Logged};
use pg_client::{Phase, Settled};
use pg_pair::{Carry, Pair, Way};
use std::alloc::{AllocError, Global};

/// What is so of a pair. It lends events, and what is wanted, each for as long as that is there.
#[derive(Clone, Copy)]
pub enum Claim<'a, 'b> {
    /// Both ends are in these phases.
    Stand(Phase, BackPhase),
    /// So many bytes of the way have reached the other end.
    Reached(Way, usize),
    /// The ways to the backend and to the client are broken or not.
    Broken(bool, bool),
    /// So many groups are settled, and they are, in order, the first of what the backend has answered.
    Settled(usize),
    /// These groups are settled, which are all that the backend has answered.
    Groups(&'b [TableGroup]),
    /// The way is broken after so many bytes, and the groups that are settled are, in order, the first of what the backend has answered,
    /// which is one more at most.
    CutOff(Way, usize),
    /// A client outside the pair, with the calls of these events, settles the same of the same bytes.
    Alike(&'a [TableEvent]),
    /// Each of these events is answered so.
    Answer(&'a [TableEvent], TableAnswer),
    /// The list of these events runs to its end.
    Runs(&'a [TableEvent]),
}

fn is_logged(group: &Settled, logged: &Logged) -> bool {
    group.request == logged.request && group.outcome == logged.outcome
}

// Whether the groups are, in order, the first of what the backend has answered.
fn begins(groups: &[Settled], log: &[Logged]) -> bool {
    for (group, logged) in groups.iter().zip(log) {
        if !is_logged(group, logged) {
            return false;
        }
    }
    groups.len() <= log.len()
}

fn stands<C: Carry>(pair: &Pair<C>, client: Phase, backend: BackPhase) -> bool {
    pair.client().phase() == client && pair.backend().phase() == backend
}

fn is_broken<C: Carry>(pair: &Pair<C>, to_backend: bool, to_client: bool) -> bool {
    pair.broken(Way::ToBackend) == to_backend && pair.broken(Way::ToClient) == to_client
}

fn is_settled<C: Carry>(pair: &Pair<C>, count: usize) -> bool {
    pair.settled().len() == count && begins(pair.settled(), pair.backend().log())
}

fn is_cut_off<C: Carry>(pair: &Pair<C>, way: Way, count: usize) -> bool {
    let (groups, log) = (pair.settled(), pair.backend().log());
    let one_more = log.len() <= groups.len().saturating_add(1);
    pair.broken(way) && pair.reached(way) == count && begins(groups, log) && one_more
}

fn gives<C: Carry>(
    alloc: Global,
    pair: &Pair<C>,
    groups: &[TableGroup],
) -> Result<bool, AllocError> {
    let log = pair.backend().log();
    let all = groups.len() == log.len() && begins(pair.settled(), log);
    Ok(all && are_groups(alloc, pair.settled(), groups)?)
}

fn is_answered<C: Carry>(
    alloc: Global,
    pair: &mut Pair<C>,
    event: TableEvent,
    answer: TableAnswer,
) -> Result<bool, AllocError> {
    let wanted = applied(alloc, event, answer)?;
    Ok(perform(alloc, pair, event)? == wanted)
}

// Whether each of the events is answered so.
fn are_answered<C: Carry>(
    alloc: Global,
    pair: &mut Pair<C>,
    list: &[TableEvent],
    answer: TableAnswer,
) -> Result<bool, AllocError> {
    for event in list {
        if !is_answered(alloc, pair, *event, answer)? {
            return Ok(false);
        }
    }
    Ok(true)
}

fn runs<C: Carry>(
    alloc: Global,
    pair: &mut Pair<C>,
    list: &[TableEvent],
) -> Result<bool, AllocError> {
    let events = events(alloc, list)?;
    Ok(pair.run(events) == Ok(()))
}

fn is_so<C: Carry>(
    alloc: Global,
    pair: &mut Pair<C>,
    claim: Claim<'_, '_>,
) -> Result<bool, AllocError> {
    match claim {
        Claim::Stand(client, backend) => Ok(stands(pair, client, backend)),
        Claim::Reached(way, count) => Ok(pair.reached(way) == count),
        Claim::Broken(to_backend, to_client) => Ok(is_broken(pair, to_backend, to_client)),
        Claim::Settled(count) => Ok(is_settled(pair, count)),
        Claim::Groups(groups) => gives(alloc, pair, groups),
        Claim::CutOff(way, count) => Ok(is_cut_off(pair, way, count)),
        Claim::Alike(calls) => settles_alike(alloc, pair, calls),
        Claim::Answer(list, answer) => are_answered(alloc, pair, list, answer),
        Claim::Runs(list) => runs(alloc, pair, list),
    }
}

/// Whether each of the claims holds.
pub fn are_so<C: Carry>(
    alloc: Global,
    pair: &mut Pair<C>,
    claims: &[Claim<'_, '_>],
) -> Result<bool, AllocError> {
    for claim in claims {
        if !is_so(alloc, pair, *claim)? {
            return Ok(false);
        }
    }
    Ok(true)
}
