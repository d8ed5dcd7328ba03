//! A value and a field that are read in place: nothing of them is copied, and no memory is taken.

ghost use Rattle.std.specs.Prelude.{◌≡◌, option_copied};
ghost use Rattle.std.specs.Option.{option_map};
ghost use Rattle.pg_codec.specs.Private.Reader.{value_at, error_field_at};
ghost use Rattle.pg_codec.specs.Private.Lent.{lent_field};

use crate::reader::{nonzero_at, u32_at, zero_place};

/// The value at the beginning of the bytes, and the bytes after it.
#[tactic(auto, unfolding(crate::specs::Private::Reader::value_at))]
pub fn lent_value_at(bytes: &[u8]) -> Option<(Option<&[u8]>, &[u8])>
    ensures { option_map (λ x. (option_copied x.0, x.1.now)) result ≡ value_at bytes.now }
{
    let Ok((len, rest)) = u32_at(bytes) else {
        return None;
    };
    // the length -1
    if len == u32::MAX {
        return Some((None, rest));
    }
    if len > i32::MAX as u32 || rest.len() < len as usize {
        return None;
    }
    let (value, rest) = rest.split_at(len as usize);
    Some((Some(value), rest))
}

/// The field of an error or a notice at the beginning of the bytes, and the bytes after it.
#[tactic(auto, unfolding(crate::specs::Private::Reader::error_field_at))]
pub fn lent_field_at(bytes: &[u8]) -> Option<((u8, &[u8]), &[u8])>
    ensures { option_map (λ x. (lent_field x.0, x.1.now)) result ≡ error_field_at bytes.now }
{
    let Ok((code, rest)) = nonzero_at(bytes) else {
        return None;
    };
    let end = zero_place(rest)?;
    let (text, _) = rest.split_at(end);
    let (_, rest) = rest.split_at(end + 1);
    Some(((code, text), rest))
}
