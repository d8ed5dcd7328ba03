//! Great messages: they pass whole, and the room that they took is given back.

use pg_wire::{BackDecoder, BackMessage, Cut, LONGEST, Lent, WireFault};
use std::alloc::{AllocError, Global};
use testing::holds;

/// How many bytes the great messages carry.
const GREAT: usize = 100_000_000;

/// How many bytes a piece has.
const PIECE: usize = 1_000_000;

/// The head of a CopyData of that size.
const COPY_DATA: [u8; 5] = [0x64, 0x05, 0xF5, 0xE1, 0x04];

/// The head of a DataRow with one value of that size.
const ROW: [u8; 11] = [0x44, 0x05, 0xF5, 0xE1, 0x0A, 0, 1, 0x05, 0xF5, 0xE1, 0x00];

fn piece(alloc: Global) -> Result<Vec<u8>, AllocError> {
    Ok(vec![in alloc; b'x'; PIECE]?)
}

// Pushes what a great message carries, in pieces.
fn push_great(decoder: &mut BackDecoder, piece: &[u8]) -> Result<(), WireFault> {
    for _ in 0..GREAT / PIECE {
        decoder.push(piece)?;
    }
    Ok(())
}

// Takes a message with this head, in pieces.
fn takes(alloc: Global, decoder: &mut BackDecoder, head: &[u8]) -> bool {
    holds(piece(alloc).ok(), |piece| {
        decoder.push(head).is_ok() && push_great(decoder, piece.as_slice()).is_ok()
    })
}

fn is_great_data(message: &BackMessage) -> bool {
    matches!(message, BackMessage::CopyData(data) if data.len() == GREAT)
}

fn gives_great_data(decoder: &mut BackDecoder) -> bool {
    match decoder.next() {
        Ok(Some(message)) => is_great_data(&message),
        Ok(None) | Err(_) => false,
    }
}

// Whether it keeps a CopyData, gives it whole, and keeps nothing then.
fn gives_data(decoder: &mut BackDecoder) -> bool {
    decoder.kept() == GREAT + 5 && gives_great_data(decoder) && decoder.kept() == 0
}

// Whether it lends a row of a great value.
fn lends_great(decoder: &BackDecoder) -> bool {
    let Some(Lent::Row(row)) = decoder.held() else {
        return false;
    };
    matches!(row.values().next(), Some(Some(value)) if value.len() == GREAT)
}

// Whether it lends a row whole, keeps nothing then, and has no further message.
fn lends_row(decoder: &mut BackDecoder) -> bool {
    matches!(decoder.next_lent(), Ok(Cut::Held))
        && lends_great(decoder)
        && decoder.kept() == 0
        && matches!(decoder.next_lent(), Ok(Cut::Nothing))
}

fn has_room(decoder: BackDecoder) -> bool {
    decoder.into_rest().capacity() > 0
}

fn gives_data_and_its_room(alloc: Global) -> bool {
    let mut decoder = BackDecoder::new(alloc, LONGEST);
    let given = takes(alloc, &mut decoder, &COPY_DATA) && gives_data(&mut decoder);
    given & !has_room(decoder)
}

fn lends_row_and_gives_its_room(alloc: Global) -> bool {
    let mut decoder = BackDecoder::new(alloc, LONGEST);
    let lent = takes(alloc, &mut decoder, &ROW) && lends_row(&mut decoder);
    lent & !has_room(decoder)
}

#[test]
fn an_owned_one_gives_its_room_back(rt: HostRuntime) {
    assert!(rt; gives_data_and_its_room(rt.alloc()));
}

#[test]
fn a_held_one_gives_its_room_back(rt: HostRuntime) {
    assert!(rt; lends_row_and_gives_its_room(rt.alloc()));
}
