//! The first of values that stand one after the other.

ghost use Rattle.std.specs.Prelude.{◌≡◌, Some, IsSome, option_copied};
ghost use Rattle.pg_codec.specs.Private.Reader.{value_at};

/// The value that these bytes begin with, and the bytes after it.
#[inline(always)]
pub fn first_value(bytes: &[u8]) -> (Option<&[u8]>, &[u8])
    requires { IsSome (value_at bytes.now) }
    ensures { value_at bytes.now ≡ Some (option_copied result.0, result.1.now) }
{
    let (number, rest) = bytes.split_at(4);
    let len = u32::from_be_bytes([number[0], number[1], number[2], number[3]]);
    // the length -1
    if len == u32::MAX {
        return (None, rest);
    }
    let (value, rest) = rest.split_at(len as usize);
    (Some(value), rest)
}
