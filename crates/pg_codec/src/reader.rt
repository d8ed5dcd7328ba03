//! Reading at the beginning of a body: a value and the bytes after it.

ghost use Rattle.std.specs.Prelude.{◌≡◌, ◌<◌, ◌==◌, if◌then◌else◌, length, position, Some, None};
ghost use Rattle.std.specs.Prelude.{MatchOption, IfSome, IsOkUnless};
ghost use Rattle.pg_codec.specs.declared.fault.BodyFault.TheVariants.{Bad};
ghost use Rattle.std.specs.Int.{w16, w32};
ghost use Rattle.pg_codec.specs.Private.Reader.{Gives, name_at, number_at, signed_at, nonzero_at};
ghost use Rattle.pg_codec.specs.Private.Reader.{string_at, counted_at, times_at, after_zero};
ghost use Rattle.pg_codec.specs.Private.Reader.{terminated_at, choice_at, status_of_byte};
ghost use Rattle.pg_codec.specs.Private.Reader.{binary_of_byte, copy_head_at};

use crate::fault::BodyFault;
use crate::field::ReadField;
use crate::value::{CopyHead, Status};
use pg_seq::Seq;
use std::alloc::Global;

/// Two bytes as a number, the highest first.
pub fn u16_at(bytes: &[u8]) -> Result<(u16, &[u8]), BodyFault>
    ensures read { Gives (λ x. (x.0, x.1.now)) result (number_at w16 bytes.now) }
    ensures no_memory { IsOkUnless result Bad }
{
    if bytes.len() < 2 {
        return Err(BodyFault::Bad);
    }
    let (number, rest) = bytes.split_at(2);
    Ok((u16::from_be_bytes([number[0], number[1]]), rest))
}

/// Four bytes as a number, the highest first.
pub fn u32_at(bytes: &[u8]) -> Result<(u32, &[u8]), BodyFault>
    ensures read { Gives (λ x. (x.0, x.1.now)) result (number_at w32 bytes.now) }
    ensures no_memory { IsOkUnless result Bad }
{
    if bytes.len() < 4 {
        return Err(BodyFault::Bad);
    }
    let (number, rest) = bytes.split_at(4);
    Ok((
        u32::from_be_bytes([number[0], number[1], number[2], number[3]]),
        rest,
    ))
}

/// An Int16.
pub fn i16_at(bytes: &[u8]) -> Result<(i16, &[u8]), BodyFault>
    ensures read { Gives (λ x. (x.0, x.1.now)) result (signed_at w16 bytes.now) }
    ensures no_memory { IsOkUnless result Bad }
{
    let (n, rest) = u16_at(bytes)?;
    Ok((n.cast_signed(), rest))
}

/// An Int32.
pub fn i32_at(bytes: &[u8]) -> Result<(i32, &[u8]), BodyFault>
    ensures read { Gives (λ x. (x.0, x.1.now)) result (signed_at w32 bytes.now) }
    ensures no_memory { IsOkUnless result Bad }
{
    let (n, rest) = u32_at(bytes)?;
    Ok((n.cast_signed(), rest))
}

/// A byte that isn't zero.
pub fn nonzero_at(bytes: &[u8]) -> Result<(u8, &[u8]), BodyFault>
    ensures read { Gives (λ x. (x.0, x.1.now)) result (nonzero_at bytes.now) }
    ensures no_memory { IsOkUnless result Bad }
{
    match bytes {
        [] | [0, ..] => Err(BodyFault::Bad),
        [b, rest @ ..] => Ok((*b, rest)),
    }
}

/// The place of the first zero byte.
pub fn zero_place(bytes: &[u8]) -> Option<usize>
    ensures place { result ≡ position (λ b. b == 0) bytes.now }
    ensures within { IfSome result (λ i. i < length bytes.now) }
{
    bytes.iter().position(|b| *b == 0)
}

/// A String: the bytes before the first zero byte.
pub fn text_at(alloc: Global, bytes: &[u8]) -> Result<(Seq<u8>, &[u8]), BodyFault>
    ensures { Gives (λ x. (x.0, x.1.now)) result (string_at bytes.now) }
{
    let Some(end) = zero_place(bytes) else {
        return Err(BodyFault::Bad);
    };
    let (text, _) = bytes.split_at(end);
    let (_, rest) = bytes.split_at(end + 1);
    Ok((copy_of(alloc, text)?, rest))
}

/// A String that isn't empty.
pub fn name_at(alloc: Global, bytes: &[u8]) -> Result<(Seq<u8>, &[u8]), BodyFault>
    ensures { Gives (λ x. (x.0, x.1.now)) result (name_at bytes.now) }
{
    let (name, rest) = text_at(alloc, bytes)?;
    if name.as_slice().is_empty() {
        return Err(BodyFault::Bad);
    }
    Ok((name, rest))
}

/// A value of these bytes.
pub fn copy_of(alloc: Global, bytes: &[u8]) -> Result<Seq<u8>, BodyFault>
    ensures { Gives (λ x. x) result (Some bytes.now) }
{
    Ok(Seq::from_slice(alloc, bytes)?)
}

// So many fields, one after the other.
fn times<T: ReadField>(
    alloc: Global,
    count: u16,
    bytes: &[u8],
) -> Result<(Seq<T>, &[u8]), BodyFault>
    ensures { Gives (λ x. (x.0, x.1.now)) result (times_at T.reading count bytes.now) }
{
    // a field has at least one byte, so a count that passes the bytes gets no more room than they need
    let mut items: Vec<T> = Vec::with_capacity(alloc, usize::from(count).min(bytes.len()))?;
    let mut rest = bytes;
    for _ in 0..count {
        let (item, after) = T::read(alloc, rest)?;
        items.push(item)?;
        rest = after;
    }
    Ok((Seq::new(items), rest))
}

/// A list after its count.
#[tactic(auto, unfolding(crate::specs::Private::Reader::counted_at))]
pub fn counted<T: ReadField>(alloc: Global, bytes: &[u8]) -> Result<(Seq<T>, &[u8]), BodyFault>
    ensures { Gives (λ x. (x.0, x.1.now)) result (counted_at T.reading bytes.now) }
{
    let (count, rest) = u16_at(bytes)?;
    times(alloc, count, rest)
}

/// What stands after a zero byte.
pub fn after_zero(bytes: &[u8]) -> Option<&[u8]>
    ensures { MatchOption result (after_zero bytes.now ≡ None) (λ rest. after_zero bytes.now
        ≡ Some rest.now) }
{
    match bytes {
        [0, rest @ ..] => Some(rest),
        _ => None,
    }
}

/// A list up to a zero byte.
#[tactic(auto, unfolding(crate::specs::Private::Reader::terminated_at))]
pub fn terminated<T: ReadField>(alloc: Global, bytes: &[u8]) -> Result<(Seq<T>, &[u8]), BodyFault>
    ensures { Gives (λ x. (x.0, x.1.now)) result (terminated_at T.reading bytes.now) }
{
    let mut items: Vec<T> = Vec::new(alloc);
    let mut rest = bytes;
    for _ in 0..bytes.len() {
        if let Some(after) = after_zero(rest) {
            return Ok((Seq::new(items), after));
        }
        let (item, after) = T::read(alloc, rest)?;
        items.push(item)?;
        rest = after;
    }
    Err(BodyFault::Bad)
}

/// A transaction status, by its byte.
pub fn status_at(bytes: &[u8]) -> Result<(Status, &[u8]), BodyFault>
    ensures read { Gives (λ x. (x.0, x.1.now)) result (choice_at status_of_byte bytes.now) }
    ensures no_memory { IsOkUnless result Bad }
{
    match bytes {
        [b'I', rest @ ..] => Ok((Status::Idle, rest)),
        [b'T', rest @ ..] => Ok((Status::InBlock, rest)),
        [b'E', rest @ ..] => Ok((Status::Failed, rest)),
        _ => Err(BodyFault::Bad),
    }
}

/// The overall format of a copy, by its byte.
pub fn binary_at(bytes: &[u8]) -> Result<(bool, &[u8]), BodyFault>
    ensures read { Gives (λ x. (x.0, x.1.now)) result (choice_at binary_of_byte bytes.now) }
    ensures no_memory { IsOkUnless result Bad }
{
    match bytes {
        [0, rest @ ..] => Ok((false, rest)),
        [1, rest @ ..] => Ok((true, rest)),
        _ => Err(BodyFault::Bad),
    }
}

/// What begins a copy: its overall format, and the formats after their count.
#[tactic(auto, unfolding(crate::specs::Private::Reader::copy_head_at))]
pub fn copy_head_at(alloc: Global, bytes: &[u8]) -> Result<(CopyHead, &[u8]), BodyFault>
    ensures { Gives (λ x. (x.0, x.1.now)) result (copy_head_at bytes.now) }
{
    let (binary, rest) = binary_at(bytes)?;
    let (formats, rest) = counted(alloc, rest)?;
    Ok((CopyHead { binary, formats }, rest))
}

/// The message, if nothing is left after it.
pub fn ended<M: Drop>(message: M, rest: &[u8]) -> Result<M, BodyFault>
    ensures read { Gives (λ m. m) result (if length rest.now == 0 then Some message else None) }
    ensures no_memory { IsOkUnless result Bad }
{
    if rest.is_empty() {
        Ok(message)
    } else {
        Err(BodyFault::Bad)
    }
}
