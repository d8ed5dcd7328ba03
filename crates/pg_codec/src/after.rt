//! What is left of a body after a value that isn't made: no memory is taken.

ghost use Rattle.std.specs.Prelude.{◌≡◌, option_copied};
ghost use Rattle.std.specs.Int.{w32};
ghost use Rattle.pg_codec.specs.Private.Reader.{choice_at, copy_head_at, counted_at, name_at};
ghost use Rattle.pg_codec.specs.Private.Reader.{signed_at, status_of_byte, string_at};
ghost use Rattle.pg_codec.specs.Private.Reader.{terminated_at, times_at};
ghost use Rattle.pg_codec.specs.Private.Lent.{left_after};

use crate::field::ReadField;
use crate::reader::{after_zero, binary_at, i32_at, status_at, u16_at, zero_place};

/// The bytes after an Int32.
pub fn after_i32(bytes: &[u8]) -> Option<&[u8]>
    ensures { option_copied result ≡ left_after (signed_at w32 bytes.now) }
{
    match i32_at(bytes) {
        Ok((_, rest)) => Some(rest),
        Err(_) => None,
    }
}

/// The bytes after a String.
pub fn after_text(bytes: &[u8]) -> Option<&[u8]>
    ensures { option_copied result ≡ left_after (string_at bytes.now) }
{
    let end = zero_place(bytes)?;
    let (_, rest) = bytes.split_at(end + 1);
    Some(rest)
}

/// The bytes after a String that isn't empty.
pub fn after_name(bytes: &[u8]) -> Option<&[u8]>
    ensures { option_copied result ≡ left_after (name_at bytes.now) }
{
    let end = zero_place(bytes)?;
    if end == 0 {
        return None;
    }
    let (_, rest) = bytes.split_at(end + 1);
    Some(rest)
}

/// The bytes after a transaction status.
pub fn after_status(bytes: &[u8]) -> Option<&[u8]>
    ensures { option_copied result ≡ left_after (choice_at status_of_byte bytes.now) }
{
    match status_at(bytes) {
        Ok((_, rest)) => Some(rest),
        Err(_) => None,
    }
}

/// The bytes after so many fields. None where they aren't all there.
pub fn after_times<T: ReadField>(count: u16, bytes: &[u8]) -> Option<&[u8]>
    ensures { option_copied result ≡ left_after (times_at T.reading count bytes.now) }
{
    let mut rest = bytes;
    for _ in 0..count {
        rest = T::after(rest)?;
    }
    Some(rest)
}

/// The bytes after a list that stands after its count.
#[tactic(auto, unfolding(crate::specs::Private::Reader::counted_at))]
pub fn after_counted<T: ReadField>(bytes: &[u8]) -> Option<&[u8]>
    ensures { option_copied result ≡ left_after (counted_at T.reading bytes.now) }
{
    match u16_at(bytes) {
        Ok((count, rest)) => after_times::<T>(count, rest),
        Err(_) => None,
    }
}

/// The bytes after a list and the zero byte that closes it.
#[tactic(auto, unfolding(crate::specs::Private::Reader::terminated_at))]
pub fn after_terminated<T: ReadField>(bytes: &[u8]) -> Option<&[u8]>
    ensures { option_copied result ≡ left_after (terminated_at T.reading bytes.now) }
{
    let mut rest = bytes;
    for _ in 0..bytes.len() {
        if let Some(end) = after_zero(rest) {
            return Some(end);
        }
        rest = T::after(rest)?;
    }
    None
}

/// The bytes after what begins a copy.
#[tactic(auto, unfolding(crate::specs::Private::Reader::copy_head_at))]
pub fn after_copy_head(bytes: &[u8]) -> Option<&[u8]>
    ensures { option_copied result ≡ left_after (copy_head_at bytes.now) }
{
    match binary_at(bytes) {
        Ok((_, rest)) => after_counted::<i16>(rest),
        Err(_) => None,
    }
}
