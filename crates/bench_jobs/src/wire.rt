//! Works of the decoder, of the clients and of an encoder, each alone: `bench/wire` times them beside a peer.

mod bind;
mod early;
mod feed;

use anyhow::bail;
use pg_wire::{BackDecoder, BackMessage, Cut, LONGEST, Lent, RowView, WireFault};
use std::alloc::Global;

// How many bytes the values of a row have; 0 of any other message.
fn size_of(message: &BackMessage) -> u64 {
    let mut size = 0u64;
    if let BackMessage::DataRow(values) = message {
        for value in values.iter() {
            if let Some(value) = value {
                size = size.wrapping_add(value.len() as u64);
            }
        }
    }
    size
}

/// How many bytes the values of a row that is lent have.
pub(crate) fn size_of_lent(row: &RowView<'_>) -> u64 {
    let mut size = 0u64;
    for value in row.values() {
        if let Some(value) = value {
            size = size.wrapping_add(value.len() as u64);
        }
    }
    size
}

// Takes the messages that are whole, each owned.
fn take_owned(decoder: &mut BackDecoder) -> Result<u64, WireFault> {
    let mut size = 0u64;
    for _ in 0..u64::MAX {
        let Some(message) = decoder.next()? else {
            break;
        };
        size = size.wrapping_add(size_of(&message));
    }
    Ok(size)
}

// Takes the messages that are whole, the rows lent.
fn take_lent(decoder: &mut BackDecoder) -> Result<u64, WireFault> {
    let mut size = 0u64;
    for _ in 0..u64::MAX {
        match decoder.next_lent()? {
            Cut::Nothing => break,
            Cut::Held => {
                if let Some(Lent::Row(row)) = decoder.held() {
                    size = size.wrapping_add(size_of_lent(&row));
                }
            }
            Cut::Other(_) => {}
        }
    }
    Ok(size)
}

// Decodes the stream, by owned messages or by rows that are lent.
fn decode(alloc: Global, stream: &[u8], piece: usize, is_lent: bool) -> anyhow::Result<u64> {
    if piece == 0 {
        bail!("a piece has a byte at least");
    }
    let mut decoder = BackDecoder::new(alloc, LONGEST);
    let mut size = 0u64;
    for bytes in stream.chunks(piece) {
        decoder.push(bytes)?;
        let more = if is_lent {
            take_lent(&mut decoder)?
        } else {
            take_owned(&mut decoder)?
        };
        size = size.wrapping_add(more);
    }
    Ok(size)
}

/// Does the work of a name, on a stream and with a number: what it comes to.
pub fn work(alloc: Global, name: &str, stream: &[u8], number: usize) -> anyhow::Result<u64> {
    match name {
        "read" => Ok(stream.len() as u64),
        "owned" => decode(alloc, stream, number, false),
        "lent" => decode(alloc, stream, number, true),
        "feed" => feed::feed(alloc, stream, number),
        "early" => early::lend(alloc, stream, number),
        "bind" => bind::bind(alloc, number),
        other => bail!("no work: {other}"),
    }
}
