//! What came to the client of a pair, fed to a client that stands alone.

use super::answers::settings;
use super::events::{TableEvent, TableRequest, request};
use pg_client::{Client, Settled};
use pg_pair::{Carry, Pair, Way};
use std::alloc::{AllocError, Global};
use testing::holds;

fn ask(
    alloc: Global,
    client: &mut Client,
    asked: TableRequest,
    out: &mut Vec<u8>,
) -> Result<bool, AllocError> {
    Ok(client.request(request(alloc, asked)?, out).is_ok())
}

// Calls the client where the event is a call, and says whether it took it.
fn call(
    alloc: Global,
    client: &mut Client,
    event: TableEvent,
    out: &mut Vec<u8>,
) -> Result<bool, AllocError> {
    match event {
        TableEvent::Start => Ok(client.start(out).is_ok()),
        TableEvent::Request(asked) => ask(alloc, client, asked, out),
        TableEvent::Chunk(bytes) => Ok(client.copy_chunk(bytes, out).is_ok()),
        TableEvent::Done => Ok(client.copy_done(out).is_ok()),
        TableEvent::Fail(reason) => Ok(client.copy_fail(reason, out).is_ok()),
        TableEvent::Terminate => Ok(client.terminate(out).is_ok()),
        _ => Ok(false),
    }
}

// Makes these calls up to the first that isn't taken, and says which are left.
fn call_on<'a>(
    alloc: Global,
    client: &mut Client,
    calls: &'a [TableEvent],
    out: &mut Vec<u8>,
) -> Result<&'a [TableEvent], AllocError> {
    for (made, event) in calls.iter().enumerate() {
        if !call(alloc, client, *event, out)? {
            return Ok(&calls[made..]);
        }
    }
    Ok(&[])
}

// Which of the wanted groups are left where the client has settled one or none: None where it has settled another.
fn take_group<'a>(client: &mut Client, wanted: &'a [Settled]) -> Option<&'a [Settled]> {
    let Some(group) = client.take_settled() else {
        return Some(wanted);
    };
    match wanted.split_first() {
        Some((first, rest)) if group == *first => Some(rest),
        _ => None,
    }
}

// Whether the client settles just these groups, where it is fed the bytes one by one and makes each call once it takes it.
fn settles(
    alloc: Global,
    client: &mut Client,
    calls: &[TableEvent],
    bytes: &[u8],
    wanted: &[Settled],
) -> Result<bool, AllocError> {
    let mut out = Vec::new(alloc);
    let mut wanted = wanted;
    let mut left = call_on(alloc, client, calls, &mut out)?;
    for byte in bytes {
        if client.feed(&[*byte], &mut out).is_err() {
            return Ok(false);
        }
        match take_group(client, wanted) {
            Some(rest) => wanted = rest,
            None => return Ok(false),
        }
        left = call_on(alloc, client, left, &mut out)?;
    }
    Ok(wanted.is_empty())
}

fn client(alloc: Global) -> Result<Client, AllocError> {
    Ok(Client::new(alloc, settings(alloc, None)?))
}

/// Whether a client that stands alone, with the same calls, settles the same of the same bytes.
pub fn settles_alike<C: Carry>(
    alloc: Global,
    pair: &Pair<C>,
    calls: &[TableEvent],
) -> Result<bool, AllocError> {
    let (sent, wanted) = (pair.sent(Way::ToClient), pair.settled());
    let came = &sent[..pair.reached(Way::ToClient).min(sent.len())];
    Ok(holds(
        client(alloc).ok(),
        |client| settles(alloc, client, calls, came, wanted) == Ok(true),
    ))
}
