//! Runs of a pair. Each is a table: the ends, what happens, and what is so then. A pair costs the prover much in each function that
//! owns one, so one makes it, by `holds`, and lends it to the others.

mod answers;
mod breaks;
mod calls;
mod carriers;
mod claims;
mod copies;
mod drawn;
mod events;
mod everywhere;
mod groups;
mod outside;
mod rows;
mod wanted;
mod worked;

use answers::{Ends, pair};
use claims::{Claim, are_so};
use events::{TableEvent, event};
use pg_pair::{Applied, Carry, Pair};
use std::alloc::{AllocError, Global};
use testing::holds;

// More than a run here takes of one kind.
const MANY: u32 = 1_000;

fn perform<C: Carry>(
    alloc: Global,
    pair: &mut Pair<C>,
    happens: TableEvent,
) -> Result<Applied, AllocError> {
    pair.apply(event(alloc, happens)?).map_err(|_| AllocError)
}

// Lets an event happen, and says whether it was done.
fn is_done<C: Carry>(
    alloc: Global,
    pair: &mut Pair<C>,
    happens: TableEvent,
) -> Result<bool, AllocError> {
    match perform(alloc, pair, happens)? {
        Applied::Done => Ok(true),
        _ => Ok(false),
    }
}

fn perform_all<C: Carry>(
    alloc: Global,
    pair: &mut Pair<C>,
    list: &[TableEvent],
) -> Result<(), AllocError> {
    for happens in list {
        is_done(alloc, pair, *happens)?;
    }
    Ok(())
}

// Lets an event happen until it isn't answered Done.
fn exhaust<C: Carry>(
    alloc: Global,
    pair: &mut Pair<C>,
    happens: TableEvent,
) -> Result<(), AllocError> {
    for _ in 0..MANY {
        if !is_done(alloc, pair, happens)? {
            break;
        }
    }
    Ok(())
}

// Lets an event happen, and then all that waits goes to the backend in deliveries of at most so many bytes, it steps, and all goes to
// the client.
fn carry_out<C: Carry>(
    alloc: Global,
    pair: &mut Pair<C>,
    happens: TableEvent,
    cut: u32,
) -> Result<(), AllocError> {
    is_done(alloc, pair, happens)?;
    exhaust(alloc, pair, TableEvent::ToBackend(cut))?;
    exhaust(alloc, pair, TableEvent::Step)?;
    exhaust(alloc, pair, TableEvent::ToClient(cut))
}

fn carry_out_all<C: Carry>(
    alloc: Global,
    pair: &mut Pair<C>,
    list: &[TableEvent],
    cut: u32,
) -> Result<(), AllocError> {
    for happens in list {
        carry_out(alloc, pair, *happens, cut)?;
    }
    Ok(())
}

/// What is done with a pair: the client may be let in, then events are carried out, in deliveries of at most so many bytes, then single
/// ones happen, and at last events are carried out again.
#[derive(Clone, Copy)]
struct Plan<'a> {
    lets_in: bool,
    cut: u32,
    whole: &'a [TableEvent],
    single: &'a [TableEvent],
    last: &'a [TableEvent],
}

fn conduct<C: Carry>(alloc: Global, pair: &mut Pair<C>, plan: Plan<'_>) -> Result<(), AllocError> {
    if plan.lets_in {
        carry_out(alloc, pair, TableEvent::Start, plan.cut)?;
    }
    carry_out_all(alloc, pair, plan.whole, plan.cut)?;
    perform_all(alloc, pair, plan.single)?;
    carry_out_all(alloc, pair, plan.last, plan.cut)
}

// Whether the claims hold of a pair after what the plan says.
fn comes_to<C: Carry>(
    alloc: Global,
    pair: &mut Pair<C>,
    plan: Plan<'_>,
    claims: &[Claim<'_, '_>],
) -> Result<bool, AllocError> {
    conduct(alloc, pair, plan)?;
    are_so(alloc, pair, claims)
}

// Whether the claims hold of a new pair of these ends after what the plan says.
fn judge<C: Carry>(
    alloc: Global,
    ends: Ends<'_>,
    carrier: C,
    plan: Plan<'_>,
    claims: &[Claim<'_, '_>],
) -> bool {
    holds(
        pair(alloc, ends, carrier).ok(),
        |pair| comes_to(alloc, pair, plan, claims) == Ok(true),
    )
}

// The events are carried out.
fn carried_out<'a>(list: &'a [TableEvent], cut: u32) -> Plan<'a> {
    Plan {
        lets_in: false,
        cut,
        whole: list,
        single: &[],
        last: &[],
    }
}

// The client is let in, and then these events happen.
fn started<'a>(list: &'a [TableEvent]) -> Plan<'a> {
    Plan {
        lets_in: true,
        ..happened(list)
    }
}

// These events happen.
fn happened<'a>(list: &'a [TableEvent]) -> Plan<'a> {
    Plan {
        lets_in: false,
        cut: 4_096,
        whole: &[],
        single: list,
        last: &[],
    }
}
