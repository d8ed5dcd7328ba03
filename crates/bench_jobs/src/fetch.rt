//! Rows that a client is fed, group by group.

ghost use Rattle.std.specs.Prelude.{IfOk};
ghost use Rattle.pg_wire.specs.Direction.{IsLimit};

use crate::digest::Digest;
use crate::orders::{Order, columns};
use anyhow::bail;
use pg_client::{Client, Settings};
use pg_wire::backend::{command_complete, data_row, encode, row_description};
use pg_wire::{BackMessage, EncodeFault, Part, Request, Seq, Status};
use rand_xoshiro::Xoshiro256PlusPlus;
use rand_xoshiro::rand_core::Rng;
use std::alloc::{AllocError, Global};

/// The most bytes that come at once.
const PIECE: usize = 8_192;

/// What a server sends at the beginning, where it asks for no password.
pub fn welcome(buf: &mut Vec<u8>) -> Result<(), EncodeFault> {
    encode(&BackMessage::AuthOk, buf)?;
    encode(&BackMessage::Ready(Status::Idle), buf)
}

/// What is asked for.
pub fn query(alloc: Global) -> anyhow::Result<Request> {
    Ok(Request::Query(Seq::from_slice(
        alloc,
        b"SELECT * FROM orders WHERE placed_at > '2026-11-20' ORDER BY order_id",
    )?))
}

/// What a server answers with some rows: few of most queries, and a thousand of some.
pub fn answer(
    alloc: Global,
    order: &mut Order,
    random: &mut Xoshiro256PlusPlus,
    buf: &mut Vec<u8>,
) -> anyhow::Result<()> {
    row_description(columns(alloc)?.as_slice(), buf)?;
    let bits = random.next_u64();
    let count = if bits & 3 == 0 {
        bits >> 32 & 0xFFF
    } else {
        bits >> 32 & 0xFF
    };
    for _ in 0..count {
        let values = order.next(random);
        data_row(values.as_slice(), buf)?;
    }
    command_complete(b"SELECT 1", buf)?;
    encode(&BackMessage::Ready(Status::Idle), buf)?;
    Ok(())
}

/// What a client is made with.
pub fn settings(alloc: Global) -> Result<Settings, AllocError>
    ensures { IfOk result (λ settings. IsLimit settings.limit) }
{
    Ok(Settings::new(alloc, Seq::from_slice(alloc, b"clerk")?))
}

// A client starts, and is let in.
fn begin(alloc: Global, client: &mut Client, out: &mut Vec<u8>) -> anyhow::Result<()> {
    let mut buf = Vec::new(alloc);
    welcome(&mut buf)?;
    client.start(out)?;
    client.feed(buf.as_slice(), out)?;
    Ok(())
}

// Puts the rows of a group's parts.
fn put_parts(parts: &[Part], digest: &mut Digest) {
    for part in parts {
        if let Part::Rows { rows, .. } = part {
            digest.put_rows(rows.as_slice());
            digest.put(rows.len() as u64);
        }
    }
}

// Takes the group that was settled.
fn take(client: &mut Client, digest: &mut Digest) -> anyhow::Result<()> {
    let Some(settled) = client.take_settled() else {
        bail!("no group is settled");
    };
    put_parts(settled.outcome.parts.as_slice(), digest);
    Ok(())
}

// A client starts, asks so many queries, is fed the answers, and its groups are taken.
fn ask_all(
    alloc: Global,
    client: &mut Client,
    random: &mut Xoshiro256PlusPlus,
    queries: u32,
    digest: &mut Digest,
) -> anyhow::Result<()> {
    let mut order = Order::new();
    let mut out = Vec::new(alloc);
    begin(alloc, client, &mut out)?;
    let mut stream = Vec::new(alloc);
    for _ in 0..queries {
        out.clear();
        if client.request(query(alloc)?, &mut out).is_err() {
            bail!("the request is refused");
        }
        stream.clear();
        answer(alloc, &mut order, random, &mut stream)?;
        for piece in stream.chunks(PIECE) {
            client.feed(piece, &mut out)?;
        }
        take(client, digest)?;
    }
    Ok(())
}

/// A client asks so many queries.
pub fn fetch(alloc: Global, mut random: Xoshiro256PlusPlus, queries: u32) -> anyhow::Result<u64> {
    let mut digest = Digest::new();
    let mut client = Client::new(alloc, settings(alloc)?);
    ask_all(alloc, &mut client, &mut random, queries, &mut digest)?;
    Ok(digest.finish())
}
