//! What is told of in lines, as tables have it, owning nothing.

use pg_backend::{BackendFault, Logged};
use pg_client::{CallFault, FeedFault};
use pg_pair::Applied;
use pg_wire::{Fields, Outcome, Seq, Status, WireFault};
use std::alloc::{AllocError, Global};
use testing::values::{bad, none, query, text};

/// What comes of an event.
#[derive(Clone, Copy)]
pub(crate) enum TableAnswer {
    Done,
    Nothing,
    Carrier,
    /// A call other than a request is rejected so.
    Refused(CallFault),
    /// The client's stream has this fault.
    Wire(WireFault),
    Unexpected(u8),
    UnsupportedAuth(i32),
    PasswordWanted,
    Memory,
    /// The startup is rejected with the error that the tests of all crates are written with.
    StartupError,
    /// The session is ended with it.
    ServerEnd,
    /// The startup is rejected with so many fields.
    ManyFields(usize),
    Backend(BackendFault),
}

// ---- requests that loaded chunks

fn chunks(alloc: Global, count: usize) -> Result<Seq<Seq<u8>>, AllocError> {
    let mut chunks = none(alloc);
    for _ in 0..count {
        chunks.push(text(alloc, b"c")?)?;
    }
    Ok(chunks)
}

fn outcome(alloc: Global) -> Outcome {
    Outcome {
        parts: none(alloc),
        error: None,
        status: Status::InBlock,
        asides: none(alloc),
    }
}

fn logged(alloc: Global, count: usize) -> Result<Logged, AllocError> {
    Ok(Logged {
        loaded: chunks(alloc, count)?,
        request: query(alloc, b"Q")?,
        outcome: outcome(alloc),
    })
}

/// Requests that loaded so many chunks of one byte.
pub(crate) fn log(alloc: Global, counts: &[usize]) -> Result<Vec<Logged>, AllocError> {
    let mut log = Vec::new(alloc);
    for count in counts {
        log.push(logged(alloc, *count)?)?;
    }
    Ok(log)
}

// ---- what else comes of an event

// So many fields of an error, of one byte each.
fn many_fields(alloc: Global, count: usize) -> Result<Fields, AllocError> {
    let mut fields = Fields::new(alloc);
    for _ in 0..count {
        fields.push(b'M', b"v").map_err(|_| AllocError)?;
    }
    Ok(fields)
}

fn client_fault(alloc: Global, answer: TableAnswer) -> Result<FeedFault, AllocError> {
    match answer {
        TableAnswer::Wire(fault) => Ok(FeedFault::Wire(fault)),
        TableAnswer::Unexpected(tag) => Ok(FeedFault::Unexpected(tag)),
        TableAnswer::UnsupportedAuth(code) => Ok(FeedFault::UnsupportedAuth(code)),
        TableAnswer::PasswordWanted => Ok(FeedFault::PasswordWanted),
        TableAnswer::StartupError => Ok(FeedFault::StartupError(bad(alloc)?)),
        TableAnswer::ServerEnd => Ok(FeedFault::ServerEnd(bad(alloc)?)),
        TableAnswer::ManyFields(count) => Ok(FeedFault::StartupError(many_fields(alloc, count)?)),
        _ => Ok(FeedFault::Memory),
    }
}

pub(crate) fn applied(alloc: Global, answer: TableAnswer) -> Result<Applied, AllocError> {
    match answer {
        TableAnswer::Done => Ok(Applied::Done),
        TableAnswer::Nothing => Ok(Applied::Nothing),
        TableAnswer::Carrier => Ok(Applied::Carrier),
        TableAnswer::Refused(fault) => Ok(Applied::Refused {
            request: None,
            fault,
        }),
        TableAnswer::Backend(fault) => Ok(Applied::Backend(fault)),
        _ => Ok(Applied::Client(client_fault(alloc, answer)?)),
    }
}
