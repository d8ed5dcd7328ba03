//! The fields of a line, and which of them isn't of its kind.

ghost use Rattle.std.specs.Prelude.{◌≡◌, ◌+◌, ◌<◌, ◌^◌, drop, option_copied, true};
ghost use Rattle.std.specs.List.{slice_get};
ghost use Rattle.pgpipe_explain.specs.Fields.{judge_all, judge_at, judge_codes, judge_field};
ghost use Rattle.pgpipe_explain.specs.Fields.{judge_fields, judge_from, judge_tail, word_of};

use crate::kind::FieldKind;
use crate::reason::LineReason;
use pg_wire::Values;

/// What comes after the fields that are listed one by one.
#[derive(Clone, Copy)]
pub enum Tail {
    /// Nothing.
    Nothing,
    /// Fields of this kind.
    All(FieldKind),
    /// Values, of which any may be null.
    Values,
    /// Codes of one byte, each with a value after it.
    Codes,
}

// Why the field of this number isn't of a kind, if it isn't.
fn judge_field(kind: FieldKind, number: usize, field: Option<&[u8]>) -> Option<LineReason>
    ensures { result ≡ judge_field kind number (option_copied field.entry) }
{
    match field {
        Some(text) => {
            if kind.is_of(text) {
                return None;
            }
            Some(LineReason::Not(number, kind))
        }
        None => Some(LineReason::Null(number)),
    }
}

// Why the field in a place isn't of a kind. Where there is no field, it is the reason that is given for that, if one is.
fn judge_at(
    kind: FieldKind,
    fields: &Values,
    place: usize,
    missing: Option<LineReason>,
) -> Option<LineReason>
    requires { place + 1 < 2 ^ 64 }
    ensures { result ≡ judge_at missing kind (place + 1) (slice_get fields.now place) }
{
    match fields.get(place) {
        Some(field) => judge_field(kind, place + 1, field),
        None => missing,
    }
}

// Why the fields from a place on aren't all of a kind: the first that isn't.
fn judge_all(kind: FieldKind, fields: &Values, from: usize) -> Option<LineReason>
    ensures { result ≡ judge_all kind from (drop from fields.now) }
{
    let mut place = from;
    'left: while place < fields.len() {
        match judge_at(kind, fields, place, None) {
            Some(reason) => return Some(reason),
            None => place += 1,
        }
    }
    None
}

// What a field of codes with values has to be.
fn code_or_value(is_code: bool) -> FieldKind
    ensures { result ≡ Rattle.pgpipe_explain.specs.Fields.code_or_value is_code }
{
    if is_code {
        FieldKind::Code
    } else {
        FieldKind::Text
    }
}

// Why the fields from a place on aren't codes with values: the first that isn't.
fn judge_codes(fields: &Values, from: usize) -> Option<LineReason>
    ensures { result ≡ judge_codes true from (drop from fields.now) }
{
    let mut place = from;
    let mut is_code = true;
    'left: while place < fields.len() {
        match judge_at(code_or_value(is_code), fields, place, None) {
            Some(reason) => return Some(reason),
            None => place += 1,
        }
        is_code = !is_code;
    }
    if is_code {
        return None;
    }
    Some(LineReason::NoValue(place))
}

// Why the fields from a place on aren't as they have to be.
fn judge_tail(tail: Tail, fields: &Values, from: usize) -> Option<LineReason>
    ensures { result ≡ judge_tail tail from (drop from fields.now) }
{
    match tail {
        Tail::Nothing => match fields.get(from) {
            None => None,
            Some(_) => Some(LineReason::TooMany(from)),
        },
        Tail::All(kind) => judge_all(kind, fields, from),
        Tail::Values => None,
        Tail::Codes => judge_codes(fields, from),
    }
}

// Why these fields aren't of these kinds and this tail: the first that isn't. The line must have so many fields in all.
fn judge_kinds(
    fields: &Values,
    kinds: &[FieldKind],
    tail: Tail,
    wanted: usize,
) -> Option<LineReason>
    ensures { result ≡ judge_from 0 wanted kinds.now tail fields.now }
{
    let mut place = 0;
    for kind in kinds {
        match judge_at(*kind, fields, place, Some(LineReason::TooFew(wanted))) {
            Some(reason) => return Some(reason),
            None => place += 1,
        }
    }
    judge_tail(tail, fields, place)
}

/// Why these fields aren't of these kinds and this tail: the first that isn't.
pub fn judge_fields(fields: &Values, kinds: &[FieldKind], tail: Tail) -> Option<LineReason>
    ensures { result ≡ judge_fields kinds.now tail fields.now }
{
    judge_kinds(fields, kinds, tail, kinds.len())
}

/// The text of a field, and no byte where it is null or isn't there.
pub fn word_at(fields: &Values, place: usize) -> &[u8]
    ensures { result.now ≡ word_of (slice_get fields.now place) }
{
    match fields.get(place) {
        Some(Some(text)) => text,
        _ => &[],
    }
}
