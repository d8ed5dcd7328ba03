//! Rows, errors and notices that a decoder lends.

use super::{Came, DecoderStep, does, message_came};
use pg_wire::{BackDecoder, Cut, Lent, WireFault};

/// What a decoder lends.
#[derive(Clone, Copy)]
pub enum Loan {
    Nothing,
    /// A row of a null and an empty text.
    NullAndEmpty,
    /// The error of `ERROR`.
    Error,
    /// A notice without fields.
    BareNotice,
}

/// What the decoder gives by `next_lent`.
pub fn next_lent(decoder: &mut BackDecoder) -> Came {
    match decoder.next_lent() {
        Ok(Cut::Nothing) => Came::Nothing,
        Ok(Cut::Held) => Came::Held,
        Ok(Cut::Other(message)) => message_came(&message),
        Err(fault) => Came::Fault(fault),
    }
}

// Whether the decoder lends a row of a null and an empty text now.
fn lends_null_and_empty(decoder: &BackDecoder) -> bool {
    let Some(Lent::Row(row)) = decoder.held() else {
        return false;
    };
    let mut values = row.values();
    matches!(values.next(), Some(None))
        && matches!(values.next(), Some(Some(text)) if text.is_empty())
        && values.next().is_none()
        && values.next().is_none()
        && row.values().count() == 2
}

// Whether the decoder lends the error now.
fn lends_error(decoder: &BackDecoder) -> bool {
    let Some(Lent::Error(error)) = decoder.held() else {
        return false;
    };
    let mut fields = error.fields();
    matches!(fields.next(), Some((67, text)) if text == b"57014".as_slice())
        && matches!(fields.next(), Some((77, text)) if text == b"no".as_slice())
        && fields.next().is_none()
}

// Whether the decoder lends a notice without fields now.
fn lends_bare_notice(decoder: &BackDecoder) -> bool {
    match decoder.held() {
        Some(Lent::Notice(notice)) => notice.fields().next().is_none(),
        _ => false,
    }
}

/// Whether the decoder lends this now.
pub fn lends(decoder: &BackDecoder, loan: Loan) -> bool {
    match loan {
        Loan::Nothing => decoder.held().is_none(),
        Loan::NullAndEmpty => lends_null_and_empty(decoder),
        Loan::Error => lends_error(decoder),
        Loan::BareNotice => lends_bare_notice(decoder),
    }
}

// ---- tables

const ROW: &[u8] = &[
    0x44, 0, 0, 0, 0x0E, 0, 2, 0xFF, 0xFF, 0xFF, 0xFF, 0, 0, 0, 0,
];

const ERROR: &[u8] = &[
    0x45, 0, 0, 0, 0x10, 0x43, 0x35, 0x37, 0x30, 0x31, 0x34, 0, 0x4D, 0x6E, 0x6F, 0, 0,
];

const A_ROW: [DecoderStep; 5] = [
    DecoderStep::Push(ROW),
    DecoderStep::Lends(Loan::Nothing),
    DecoderStep::NextLent(Came::Held),
    DecoderStep::Kept(0),
    DecoderStep::Lends(Loan::NullAndEmpty),
];

#[test]
fn a_row_is_lent(rt: HostRuntime) {
    assert!(rt; does(rt.alloc(), &A_ROW));
}

const AN_ERROR: [DecoderStep; 3] = [
    DecoderStep::Push(ERROR),
    DecoderStep::NextLent(Came::Held),
    DecoderStep::Lends(Loan::Error),
];

#[test]
fn an_error_is_lent(rt: HostRuntime) {
    assert!(rt; does(rt.alloc(), &AN_ERROR));
}

const A_NOTICE: [DecoderStep; 3] = [
    DecoderStep::Push(&[0x4E, 0, 0, 0, 5, 0]),
    DecoderStep::NextLent(Came::Held),
    DecoderStep::Lends(Loan::BareNotice),
];

#[test]
fn a_notice_without_fields_is_lent(rt: HostRuntime) {
    assert!(rt; does(rt.alloc(), &A_NOTICE));
}

const ANOTHER: [DecoderStep; 4] = [
    DecoderStep::Push(&[0x5A, 0, 0, 0, 5, 0x49]),
    DecoderStep::NextLent(Came::Ready),
    DecoderStep::Lends(Loan::Nothing),
    DecoderStep::NextLent(Came::Nothing),
];

#[test]
fn another_message_is_given(rt: HostRuntime) {
    assert!(rt; does(rt.alloc(), &ANOTHER));
}

const BYTE_BY_BYTE: [DecoderStep; 3] = [
    DecoderStep::PushEachLent(ROW),
    DecoderStep::NextLent(Came::Held),
    DecoderStep::Lends(Loan::NullAndEmpty),
];

#[test]
fn a_row_comes_byte_by_byte(rt: HostRuntime) {
    assert!(rt; does(rt.alloc(), &BYTE_BY_BYTE));
}

/// Two rows with an error between them, a third row, and a ReadyForQuery that comes in two pieces.
const EACH_CALL: [DecoderStep; 21] = [
    DecoderStep::Push(ROW),
    DecoderStep::Push(ERROR),
    DecoderStep::Push(ROW),
    DecoderStep::Push(ROW),
    DecoderStep::Push(&[0x5A, 0, 0]),
    DecoderStep::NextLent(Came::Held),
    DecoderStep::Lends(Loan::NullAndEmpty),
    DecoderStep::Kept(50),
    DecoderStep::Next(Came::Error),
    DecoderStep::Lends(Loan::Nothing),
    DecoderStep::NextLent(Came::Held),
    DecoderStep::Push(&[]),
    DecoderStep::Lends(Loan::Nothing),
    DecoderStep::NextLent(Came::Held),
    DecoderStep::Lends(Loan::NullAndEmpty),
    DecoderStep::NextLent(Came::Nothing),
    DecoderStep::Lends(Loan::Nothing),
    DecoderStep::Push(&[0, 5, 0x49]),
    DecoderStep::Next(Came::Ready),
    DecoderStep::Kept(0),
    DecoderStep::Lends(Loan::Nothing),
];

#[test]
fn each_call_ends_the_lending(rt: HostRuntime) {
    assert!(rt; does(rt.alloc(), &EACH_CALL));
}

const BAD: WireFault = WireFault::BadBody(68);

const NO_ROW: [DecoderStep; 8] = [
    DecoderStep::Push(ROW),
    DecoderStep::Push(&[0x44, 0, 0, 0, 7, 0, 0, 0]),
    DecoderStep::NextLent(Came::Held),
    DecoderStep::NextLent(Came::Fault(BAD)),
    DecoderStep::Lends(Loan::Nothing),
    DecoderStep::Next(Came::Fault(BAD)),
    DecoderStep::Refuse(&[], BAD),
    DecoderStep::Kept(8),
];

#[test]
fn a_row_that_is_none_is_a_fault(rt: HostRuntime) {
    assert!(rt; does(rt.alloc(), &NO_ROW));
}
