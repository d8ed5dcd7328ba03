//! Rows that an early client lends as they come.

use crate::digest::Digest;
use crate::fetch::{answer, query, settings, welcome};
use crate::orders::Order;
use anyhow::bail;
use pg_client::{EarlyClient, Next};
use rand_xoshiro::Xoshiro256PlusPlus;
use std::alloc::Global;

/// The most bytes that come at once, of a loopback or a socket of the same machine.
const PIECE: usize = 65_536;

// An early client starts, and is let in.
fn begin(alloc: Global, client: &mut EarlyClient, out: &mut Vec<u8>) -> anyhow::Result<()> {
    let mut buf = Vec::new(alloc);
    welcome(&mut buf)?;
    client.start(out)?;
    client.feed(buf.as_slice(), out)?;
    Ok(())
}

// Takes all that came: the rows lent, the other items owned.
fn take(client: &mut EarlyClient, digest: &mut Digest, out: &mut Vec<u8>) -> anyhow::Result<()> {
    for _ in 0..u64::MAX {
        match client.next_lent(out)? {
            Next::Nothing => break,
            Next::Held => {
                if let Some(row) = client.held() {
                    for value in row.values() {
                        digest.put_value(value);
                    }
                }
            }
            Next::Item(_) => digest.put(1),
        }
    }
    Ok(())
}

// An early client starts, asks so many queries, and takes the answers as they come.
fn ask_all(
    alloc: Global,
    client: &mut EarlyClient,
    random: &mut Xoshiro256PlusPlus,
    queries: u32,
    digest: &mut Digest,
) -> anyhow::Result<()> {
    let mut order = Order::new();
    let mut out = Vec::new(alloc);
    begin(alloc, client, &mut out)?;
    let mut stream = Vec::new(alloc);
    for _ in 0..queries {
        out.clear();
        if client.request(query(alloc)?, &mut out).is_err() {
            bail!("the request is refused");
        }
        stream.clear();
        answer(alloc, &mut order, random, &mut stream)?;
        for piece in stream.chunks(PIECE) {
            client.push(piece)?;
            take(client, digest, &mut out)?;
        }
    }
    Ok(())
}

/// An early client asks so many queries.
pub fn stream(alloc: Global, mut random: Xoshiro256PlusPlus, queries: u32) -> anyhow::Result<u64> {
    let mut digest = Digest::new();
    let mut client = EarlyClient::new(alloc, settings(alloc)?);
    ask_all(alloc, &mut client, &mut random, queries, &mut digest)?;
    Ok(digest.finish())
}
