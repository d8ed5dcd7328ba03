//! Messages of a stream. Most tests are tables of steps: what is done with a decoder, and what must come of it. What a decoder gives
//! costs the prover much in each function that owns it, so one function of each kind takes a message, and says in a word what it was.

mod first;
mod frontend;
mod great;
mod lent;
mod link;
mod password;

use lent::{Loan, lends, next_lent};
use pg_wire::{
    BackDecoder, BackMessage, Column, EncodeFault, FrontMessage, Seq, Status, Values, WireFault,
    backend, laws,
};
use std::alloc::{AllocError, Global};
use std::test::Fail;
use testing::{holds, is_told};

/// A decoder with the limit 64, to which these bytes were pushed.
pub(crate) fn pushed(alloc: Global, bytes: &[u8]) -> Result<BackDecoder, WireFault> {
    let mut decoder = BackDecoder::new(alloc, 64);
    decoder.push(bytes)?;
    Ok(decoder)
}

/// What a decoder gave.
#[derive(Clone, Copy, PartialEq, Eq)]
enum Came {
    Nothing,
    /// A message that is held and lent.
    Held,
    Fault(WireFault),
    /// A ReadyForQuery in the status Idle.
    Ready,
    EmptyQuery,
    /// A row of a null and an empty text.
    NullAndEmpty,
    /// An error of two fields.
    Error,
    /// Another message.
    Other,
}

/// What is done with a decoder, and what must come of it.
#[derive(Clone, Copy)]
enum DecoderStep {
    /// A piece is taken.
    Push(&'static [u8]),
    /// The bytes are taken one by one, and before each `next` gives nothing.
    PushEach(&'static [u8]),
    /// The bytes are taken one by one, and before each `next_lent` gives nothing.
    PushEachLent(&'static [u8]),
    /// A piece is rejected.
    Refuse(&'static [u8], WireFault),
    Next(Came),
    NextLent(Came),
    Lends(Loan),
    /// So many bytes are kept.
    Kept(usize),
}

fn is_null_and_empty(row: &Values) -> bool {
    row.len() == 2
        && matches!(row.get(0), Some(None))
        && matches!(row.get(1), Some(Some(text)) if text.is_empty())
}

fn row_came(row: &Values) -> Came {
    if is_null_and_empty(row) {
        Came::NullAndEmpty
    } else {
        Came::Other
    }
}

fn error_came(fields: usize) -> Came {
    if fields == 2 {
        Came::Error
    } else {
        Came::Other
    }
}

fn message_came(message: &BackMessage) -> Came {
    match message {
        BackMessage::Ready(Status::Idle) => Came::Ready,
        BackMessage::EmptyQuery => Came::EmptyQuery,
        BackMessage::DataRow(row) => row_came(row),
        BackMessage::ErrorResponse(fields) => error_came(fields.len()),
        _ => Came::Other,
    }
}

// What the decoder gives by `next`.
fn next(decoder: &mut BackDecoder) -> Came {
    match decoder.next() {
        Ok(None) => Came::Nothing,
        Ok(Some(message)) => message_came(&message),
        Err(fault) => Came::Fault(fault),
    }
}

// Whether a byte is taken, and before it nothing comes, by `next_lent` or by `next`.
fn waits(decoder: &mut BackDecoder, by_lent: bool, byte: u8) -> bool {
    let came = if by_lent {
        next_lent(decoder)
    } else {
        next(decoder)
    };
    came == Came::Nothing && decoder.push(&[byte]).is_ok()
}

fn waits_for_each(decoder: &mut BackDecoder, by_lent: bool, bytes: &[u8]) -> bool {
    for byte in bytes {
        if !waits(decoder, by_lent, *byte) {
            return false;
        }
    }
    true
}

fn is_so(decoder: &mut BackDecoder, step: DecoderStep) -> bool {
    match step {
        DecoderStep::Push(piece) => decoder.push(piece).is_ok(),
        DecoderStep::PushEach(bytes) => waits_for_each(decoder, false, bytes),
        DecoderStep::PushEachLent(bytes) => waits_for_each(decoder, true, bytes),
        DecoderStep::Refuse(piece, fault) => decoder.push(piece) == Err(fault),
        DecoderStep::Next(came) => next(decoder) == came,
        DecoderStep::NextLent(came) => next_lent(decoder) == came,
        DecoderStep::Lends(loan) => lends(decoder, loan),
        DecoderStep::Kept(count) => decoder.kept() == count,
    }
}

fn are_so(decoder: &mut BackDecoder, steps: &[DecoderStep]) -> bool {
    for step in steps {
        if !is_so(decoder, *step) {
            return false;
        }
    }
    true
}

// Whether a new decoder with the limit 64 does what these steps say.
fn does(alloc: Global, steps: &[DecoderStep]) -> bool {
    holds(
        Some(BackDecoder::new(alloc, 64)),
        |decoder| are_so(decoder, steps),
    )
}

// Whether a new decoder gives this first of these bytes.
fn comes_first(alloc: Global, bytes: &[u8], came: Came) -> bool {
    holds(pushed(alloc, bytes).ok(), |decoder| next(decoder) == came)
}

fn all_come_first(alloc: Global, rows: &[(&[u8], Came)]) -> bool {
    for (bytes, came) in rows {
        if !comes_first(alloc, bytes, *came) {
            return false;
        }
    }
    true
}

// ---- tables

const LAST_BYTE: [DecoderStep; 4] = [
    DecoderStep::PushEach(&[0x5A, 0, 0, 0, 5, 0x49]),
    DecoderStep::Kept(6),
    DecoderStep::Next(Came::Ready),
    DecoderStep::Kept(0),
];

#[test]
fn a_message_comes_with_its_last_byte(rt: HostRuntime) {
    assert!(rt; does(rt.alloc(), &LAST_BYTE));
}

const HEADS: [(&[u8], Came); 4] = [
    (&[0x21, 0, 0, 0], Came::Nothing),
    (&[0x21, 0, 0, 0, 4], Came::Fault(WireFault::UnknownTag(33))),
    (&[0x5A, 0, 0, 0, 3], Came::Fault(WireFault::ShortLength(3))),
    (&[0x44, 0, 0, 0, 65], Came::Fault(WireFault::LongLength(65))),
];

#[test]
fn heads_are_judged(rt: HostRuntime) {
    assert!(rt; all_come_first(rt.alloc(), &HEADS));
}

/// An unknown status, a byte after the body, a text without its zero byte, and a length below that of null.
const BODIES: [(&[u8], Came); 4] = [
    (
        &[0x5A, 0, 0, 0, 5, 0x58],
        Came::Fault(WireFault::BadBody(90)),
    ),
    (
        &[0x5A, 0, 0, 0, 6, 0x49, 0x49],
        Came::Fault(WireFault::BadBody(90)),
    ),
    (
        &[0x43, 0, 0, 0, 6, 0x4F, 0x4B],
        Came::Fault(WireFault::BadBody(67)),
    ),
    (
        &[0x44, 0, 0, 0, 10, 0, 1, 0xFF, 0xFF, 0xFF, 0xFE],
        Came::Fault(WireFault::BadBody(68)),
    ),
];

#[test]
fn bodies_are_judged(rt: HostRuntime) {
    assert!(rt; all_come_first(rt.alloc(), &BODIES));
}

const SHORT: Came = Came::Fault(WireFault::ShortLength(3));

const FAULTY: [DecoderStep; 6] = [
    DecoderStep::Push(&[0x49, 0, 0, 0, 4, 0x5A, 0, 0, 0, 3]),
    DecoderStep::Next(Came::EmptyQuery),
    DecoderStep::Next(SHORT),
    DecoderStep::Refuse(&[1], WireFault::ShortLength(3)),
    DecoderStep::Next(SHORT),
    DecoderStep::Kept(5),
];

#[test]
fn a_fault_stays(rt: HostRuntime) {
    assert!(rt; does(rt.alloc(), &FAULTY));
}

const ROW: &[u8] = &[
    0x44, 0, 0, 0, 0x0E, 0, 2, 0xFF, 0xFF, 0xFF, 0xFF, 0, 0, 0, 0,
];

#[test]
fn null_is_not_the_empty_text(rt: HostRuntime) {
    assert!(rt; comes_first(rt.alloc(), ROW, Came::NullAndEmpty));
}

// ---- encoders

/// A RowDescription of one column.
const COLUMN: &[u8] = &[
    0x54, 0, 0, 0, 0x1A, 0, 1, 0x6E, 0, 0, 0, 0, 0, 0, 0, 0, 0, 0, 0x17, 0, 4, 0xFF, 0xFF, 0xFF,
    0xFF, 0, 0,
];

fn column(alloc: Global) -> Result<Column, AllocError> {
    Ok(Column {
        name: Seq::from_slice(alloc, b"n")?,
        table_oid: 0,
        attribute: 0,
        type_oid: 23,
        size: 4,
        modifier: -1,
        format: 0,
    })
}

fn description(alloc: Global) -> Result<BackMessage, AllocError> {
    let mut columns = Seq::new(Vec::new(alloc));
    columns.push(column(alloc)?)?;
    Ok(BackMessage::RowDescription(columns))
}

fn is_spelled(alloc: Global, message: &BackMessage, bytes: &[u8]) -> Result<bool, EncodeFault> {
    let mut written = Vec::new(alloc);
    backend::encode(message, &mut written)?;
    Ok(written.as_slice() == bytes)
}

// Whether the decoder gives this message, which is spelled so.
fn gives(alloc: Global, decoder: &mut BackDecoder, wanted: &BackMessage, bytes: &[u8]) -> bool {
    match decoder.next() {
        Ok(Some(message)) => {
            message == *wanted && is_spelled(alloc, &message, bytes) == Ok(true)
        }
        Ok(None) | Err(_) => false,
    }
}

// Whether these bytes are read as this message, and it is written as they are.
fn is_read_and_written(alloc: Global, bytes: &[u8], wanted: &BackMessage) -> bool {
    holds(
        pushed(alloc, bytes).ok(),
        |decoder| gives(alloc, decoder, wanted, bytes),
    )
}

#[test]
fn a_column_is_read_and_written(rt: HostRuntime) {
    let alloc = rt.alloc();
    let held = holds(description(alloc).ok(), |wanted| {
        is_read_and_written(alloc, COLUMN, wanted)
    });
    assert!(rt; held);
}

fn zero_in_a_tag(alloc: Global) -> Result<BackMessage, AllocError> {
    Ok(BackMessage::CommandComplete(Seq::from_slice(alloc, b"a\0")?))
}

fn reserved_code(alloc: Global) -> BackMessage {
    let rest = Seq::new(Vec::new(alloc));
    BackMessage::AuthOther { code: 3, rest }
}

// Whether the message is rejected so, and leaves what stands in the buffer.
fn is_refused(message: &BackMessage, fault: EncodeFault, buf: &mut Vec<u8>) -> bool {
    backend::encode(message, buf) == Err(fault) && buf.as_slice() == [7].as_slice()
}

fn leaves_the_buffer(alloc: Global, message: &BackMessage, fault: EncodeFault) -> bool {
    holds(
        Vec::from_slice(alloc, &[7]).ok(),
        |buf| is_refused(message, fault, buf),
    )
}

#[test]
fn a_refused_message_leaves_the_buffer(rt: HostRuntime) {
    let alloc = rt.alloc();
    let held = holds(zero_in_a_tag(alloc).ok(), |tag| {
        leaves_the_buffer(alloc, tag, EncodeFault::HasZero)
    });
    assert!(rt; held);
    let held = holds(Some(reserved_code(alloc)), |request| {
        leaves_the_buffer(alloc, request, EncodeFault::ReservedCode)
    });
    assert!(rt; held);
}

#[test]
fn a_fault_says_its_code_and_numbers(rt: HostRuntime) -> Result<(), Fail> {
    let alloc = rt.alloc();
    assert!(rt; is_told(alloc, WireFault::BadBody(90), "W4 BadBody 90")?);
    assert!(rt; is_told(alloc, WireFault::ShortLength(-1), "W2 ShortLength -1")?);
    assert!(rt; is_told(alloc, EncodeFault::TooLong, "E4 TooLong")?);
    assert!(rt; !is_told(alloc, EncodeFault::TooLong, "E3 TooMany")?);
    Ok(())
}

#[test]
fn the_laws_are_called() {
    laws::one_spelling::<BackMessage>();
    laws::one_reading::<FrontMessage>();
    laws::faulty_begins_none::<BackMessage>();
    laws::one_fault::<FrontMessage>();
    laws::fault_of_next::<BackMessage>();
    laws::round_trip::<BackMessage>();
    laws::one_packet();
    laws::one_beginning();
    laws::faulty_begins_no_packet();
    laws::one_packet_fault();
    laws::packets_again();
    laws::one_outcome();
    laws::one_cut();
    laws::answer_is_spelled();
}
