//! What is so of calls that were read.

use crate::tests::files::values::{TablePair, optional, pairs};
use pg_client::Settings;
use pg_pair::{Call, Event};
use pgpipe_files::{CallLine, Calls, read_calls};
use std::alloc::{AllocError, Global};
use testing::holds;
use testing::values::text;

/// What a client is made with.
#[derive(Clone, Copy)]
pub(crate) struct TableSettings {
    pub(crate) user: &'static [u8],
    pub(crate) database: Option<&'static [u8]>,
    pub(crate) pairs: &'static [TablePair],
    pub(crate) password: Option<&'static [u8]>,
    pub(crate) limit: u32,
}

/// What is so of calls. A claim that fills a file in changes them.
#[derive(Clone, Copy)]
pub(crate) enum CallsClaim<'a> {
    /// A client is made with these.
    Makes(TableSettings),
    /// The first file that they name has this path, and is filled in with these bytes.
    Fills(&'static str, &'a [u8]),
    /// Each of their lines is a chunk of so many crosses.
    Crosses(&'static [usize]),
}

// ---- lines

fn chunk(alloc: Global, bytes: &[u8]) -> Result<CallLine, AllocError> {
    let call = Call::Chunk(text(alloc, bytes)?);
    Ok(CallLine::Event(Event::Call(call)))
}

/// So many bytes.
pub(crate) fn crosses(alloc: Global, count: usize) -> Result<Vec<u8>, AllocError> {
    vec![in alloc; b'x'; count]
}

fn is_chunk(alloc: Global, found: &CallLine, size: usize) -> Result<bool, AllocError> {
    let bytes = crosses(alloc, size)?;
    Ok(*found == chunk(alloc, &bytes)?)
}

fn are_chunks(alloc: Global, found: &[CallLine], sizes: &[usize]) -> Result<bool, AllocError> {
    for (it, size) in found.iter().zip(sizes) {
        if !is_chunk(alloc, it, *size)? {
            return Ok(false);
        }
    }
    Ok(found.len() == sizes.len())
}

// ---- what else is so

fn settings(alloc: Global, table: TableSettings) -> Result<Settings, AllocError> {
    Ok(Settings {
        user: text(alloc, table.user)?,
        database: optional(alloc, table.database)?,
        pairs: pairs(alloc, table.pairs)?,
        password: optional(alloc, table.password)?,
        limit: table.limit,
    })
}

fn makes(alloc: Global, calls: &Calls, wanted: TableSettings) -> Result<bool, AllocError> {
    Ok(calls.settings == settings(alloc, wanted)?)
}

// Fills in the first file, if this is its path; otherwise nothing is changed.
fn fill(alloc: Global, calls: &mut Calls, path: &str, bytes: &[u8]) -> Result<bool, AllocError> {
    match calls.next_file() {
        None => return Ok(false),
        Some(next) if next != path => return Ok(false),
        Some(_) => {}
    }
    calls.fill(alloc, bytes)?;
    Ok(true)
}

fn is_so(alloc: Global, calls: &mut Calls, claim: CallsClaim<'_>) -> Result<bool, AllocError> {
    match claim {
        CallsClaim::Makes(settings) => makes(alloc, calls, settings),
        CallsClaim::Fills(path, bytes) => fill(alloc, calls, path, bytes),
        CallsClaim::Crosses(sizes) => are_chunks(alloc, calls.lines.as_slice(), sizes),
    }
}

fn are_so(alloc: Global, calls: &mut Calls, claims: &[CallsClaim<'_>]) -> Result<bool, AllocError> {
    for claim in claims {
        if !is_so(alloc, calls, *claim)? {
            return Ok(false);
        }
    }
    Ok(true)
}

/// Whether the claims hold, one after the other, of the calls that this file is read as.
pub(crate) fn asks(alloc: Global, file: &[u8], claims: &[CallsClaim<'_>]) -> bool {
    holds(
        read_calls(alloc, file).ok(),
        |calls| are_so(alloc, calls, claims) == Ok(true),
    )
}
