//! Rows that an early client lends.

ghost use Rattle.std.specs.Prelude.{◌<◌};

use super::feed::{COLUMNS, WELCOME, asked, rows_of, settings};
use super::size_of_lent;
use anyhow::bail;
use pg_client::{EarlyClient, Next};
use std::alloc::Global;

// An early client asks for rows, and their columns come.
fn ask(alloc: Global, client: &mut EarlyClient, out: &mut Vec<u8>) -> anyhow::Result<()> {
    client.start(out)?;
    client.feed(&WELCOME, out)?;
    if client.request(asked(alloc)?, out).is_err() {
        bail!("the request is refused");
    }
    client.feed(&COLUMNS, out)?;
    Ok(())
}

// Takes what came of the bytes that were pushed: how many bytes the values of the rows have.
fn take(client: &mut EarlyClient, out: &mut Vec<u8>) -> anyhow::Result<u64> {
    let mut size = 0u64;
    for _ in 0..u64::MAX {
        match client.next_lent(out)? {
            Next::Nothing => break,
            Next::Held => {
                if let Some(row) = client.held() {
                    size = size.wrapping_add(size_of_lent(&row));
                }
            }
            Next::Item(_) => {}
        }
    }
    Ok(size)
}

// An early client asks for rows, is given them in pieces of so many bytes, and they are taken lent.
fn lend_rows(
    alloc: Global,
    client: &mut EarlyClient,
    rows: &[u8],
    piece: usize,
) -> anyhow::Result<u64>
    requires { 0 < piece }
{
    let mut out = Vec::new(alloc);
    ask(alloc, client, &mut out)?;
    let mut size = 0u64;
    for bytes in rows.chunks(piece) {
        client.push(bytes)?;
        size = size.wrapping_add(take(client, &mut out)?);
    }
    Ok(size)
}

/// Gives the rows of the stream to an early client, in pieces of so many bytes, and takes them lent.
pub fn lend(alloc: Global, stream: &[u8], piece: usize) -> anyhow::Result<u64> {
    if piece == 0 {
        bail!("a piece has a byte at least");
    }
    let rows = rows_of(stream)?;
    let mut client = EarlyClient::new(alloc, settings(alloc)?);
    lend_rows(alloc, &mut client, rows, piece)
}
