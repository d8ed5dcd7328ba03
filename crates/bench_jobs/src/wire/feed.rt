//! Rows that a client is fed.

ghost use Rattle.std.specs.Prelude.{◌<◌, IfOk};
ghost use Rattle.pg_wire.specs.Direction.{IsLimit};

use anyhow::bail;
use pg_client::{Client, Settings};
use pg_wire::{Request, Seq};
use std::alloc::{AllocError, Global};

/// AuthenticationOk and ReadyForQuery, with which a session begins.
pub(crate) const WELCOME: [u8; 15] = [0x52, 0, 0, 0, 8, 0, 0, 0, 0, 0x5A, 0, 0, 0, 5, 0x49];

/// A RowDescription without columns: a client doesn't count the values of a row.
pub(crate) const COLUMNS: [u8; 7] = [0x54, 0, 0, 0, 6, 0, 0];

/// How many bytes of the stream stand before its rows, those of AuthenticationOk.
const BEFORE: usize = 9;

/// How many bytes of the stream stand after its rows, those of ReadyForQuery.
const AFTER: usize = 6;

/// What a client is made with.
pub(crate) fn settings(alloc: Global) -> Result<Settings, AllocError>
    ensures { IfOk result (λ settings. IsLimit settings.limit) }
{
    Ok(Settings::new(alloc, Seq::from_slice(alloc, b"u")?))
}

/// What a client asks for.
pub(crate) fn asked(alloc: Global) -> anyhow::Result<Request> {
    Ok(Request::Query(Seq::from_slice(alloc, b"SELECT")?))
}

/// The rows of the stream.
pub(crate) fn rows_of(stream: &[u8]) -> anyhow::Result<&[u8]> {
    if stream.len() < BEFORE + AFTER {
        bail!("a stream has rows");
    }
    Ok(&stream[BEFORE..stream.len() - AFTER])
}

// A client asks for rows, and their columns come.
fn ask(alloc: Global, client: &mut Client, out: &mut Vec<u8>) -> anyhow::Result<()> {
    client.start(out)?;
    client.feed(&WELCOME, out)?;
    if client.request(asked(alloc)?, out).is_err() {
        bail!("the request is refused");
    }
    client.feed(&COLUMNS, out)?;
    Ok(())
}

// A client asks for rows, and is fed them in pieces of so many bytes.
fn feed_rows(alloc: Global, client: &mut Client, rows: &[u8], piece: usize) -> anyhow::Result<()>
    requires { 0 < piece }
{
    let mut out = Vec::new(alloc);
    ask(alloc, client, &mut out)?;
    for bytes in rows.chunks(piece) {
        client.feed(bytes, &mut out)?;
    }
    Ok(())
}

/// Feeds the rows of the stream to a client, in pieces of so many bytes.
pub fn feed(alloc: Global, stream: &[u8], piece: usize) -> anyhow::Result<u64> {
    if piece == 0 {
        bail!("a piece has a byte at least");
    }
    let rows = rows_of(stream)?;
    let mut client = Client::new(alloc, settings(alloc)?);
    feed_rows(alloc, &mut client, rows, piece)?;
    Ok(rows.len() as u64)
}
