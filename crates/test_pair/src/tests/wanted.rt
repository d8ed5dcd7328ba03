//! What is wanted of a pair, as tables have it, owning nothing.

use super::answers::{columns, rows};
use super::events::{TableEvent, TableRequest, request, text};
use pg_client::{CallFault, FeedFault, Settled};
use pg_pair::Applied;
use pg_wire::{Outcome, Part, Request, Seq, Status, WireFault};
use std::alloc::{AllocError, Global};

/// A whole result.
#[derive(Clone, Copy)]
pub enum TablePart {
    /// A row of one value, under a column `n`.
    Row,
}

/// A settled group, without an error and without asides.
#[derive(Clone, Copy)]
pub struct TableGroup {
    pub request: TableRequest,
    pub parts: &'static [TablePart],
    pub status: Status,
}

/// What comes of an event.
#[derive(Clone, Copy)]
pub enum TableAnswer {
    Done,
    Carrier,
    /// The call is rejected so, and its request is handed back, if it is one.
    Refused(CallFault),
    /// The stream has this fault.
    Wire(WireFault),
}

// ---- settled groups

fn row(alloc: Global) -> Result<Part, AllocError> {
    Ok(Part::Rows {
        columns: columns(alloc)?,
        rows: rows(alloc)?,
        tag: text(alloc, b"SELECT 1")?,
    })
}

fn part(alloc: Global, part: TablePart) -> Result<Part, AllocError> {
    match part {
        TablePart::Row => row(alloc),
    }
}

fn parts(alloc: Global, list: &[TablePart]) -> Result<Vec<Part>, AllocError> {
    let mut parts = Vec::new(alloc);
    for it in list {
        parts.push(part(alloc, *it)?)?;
    }
    Ok(parts)
}

fn outcome(alloc: Global, group: TableGroup) -> Result<Outcome, AllocError> {
    Ok(Outcome {
        parts: Seq::new(parts(alloc, group.parts)?),
        error: None,
        status: group.status,
        asides: Seq::new(Vec::new(alloc)),
    })
}

fn settled(alloc: Global, group: TableGroup) -> Result<Settled, AllocError> {
    Ok(Settled {
        request: request(alloc, group.request)?,
        outcome: outcome(alloc, group)?,
    })
}

fn is_group(alloc: Global, found: &Settled, group: TableGroup) -> Result<bool, AllocError> {
    Ok(*found == settled(alloc, group)?)
}

/// Whether these are the groups.
pub fn are_groups(
    alloc: Global,
    found: &[Settled],
    groups: &[TableGroup],
) -> Result<bool, AllocError> {
    for (it, group) in found.iter().zip(groups) {
        if !is_group(alloc, it, *group)? {
            return Ok(false);
        }
    }
    Ok(found.len() == groups.len())
}

// ---- what else is answered

fn handed_back(alloc: Global, event: TableEvent) -> Result<Option<Request>, AllocError> {
    match event {
        TableEvent::Request(asked) => Ok(Some(request(alloc, asked)?)),
        _ => Ok(None),
    }
}

fn refused(alloc: Global, event: TableEvent, fault: CallFault) -> Result<Applied, AllocError> {
    Ok(Applied::Refused {
        request: handed_back(alloc, event)?,
        fault,
    })
}

/// What comes of this event.
pub fn applied(
    alloc: Global,
    event: TableEvent,
    answer: TableAnswer,
) -> Result<Applied, AllocError> {
    match answer {
        TableAnswer::Done => Ok(Applied::Done),
        TableAnswer::Carrier => Ok(Applied::Carrier),
        TableAnswer::Refused(fault) => refused(alloc, event, fault),
        TableAnswer::Wire(fault) => Ok(Applied::Client(FeedFault::Wire(fault))),
    }
}
