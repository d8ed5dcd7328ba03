//! Judging and writing the fields of a body.

ghost use Rattle.std.specs.Prelude.{◌≡◌, ◌<◌, ◌^◌, ◌++◌, length, OnOk};
ghost use Rattle.pg_codec.specs.Field.{string, contains_zero, listed};
ghost use Rattle.pg_codec.specs.Private.Writer.{LeavesRoom};

use crate::appender::Appender;
use crate::field::Field;
use std::alloc::AllocError;

/// The most elements that a 16-bit count can say.
pub const MOST: usize = 65_535;

/// Whether the text has a zero byte.
pub fn text_has_zero(text: &[u8]) -> bool
    ensures { result ≡ contains_zero text.now }
{
    text.contains(&0)
}

/// Whether a String of an element has a zero byte.
pub fn any_has_zero<T: Field>(items: &[T]) -> bool
    ensures { result ≡ (listed T.layout items.now).has_zero }
{
    for item in items {
        if item.has_zero() {
            return true;
        }
    }
    false
}

/// The room that is left after the bytes.
pub fn room_after_bytes(bytes: &[u8], room: u32) -> Option<u32>
    ensures { LeavesRoom room (length bytes.now) result }
{
    if bytes.len() > room as usize {
        None
    } else {
        Some(room - bytes.len() as u32)
    }
}

/// The room that is left after a String.
pub fn room_after_text(text: &[u8], room: u32) -> Option<u32>
    ensures { LeavesRoom room (length (string text.now).bytes) result }
{
    room_after_bytes(text, room)?.checked_sub(1)
}

/// The room that is left after the elements.
pub fn room_after_all<T: Field>(items: &[T], room: u32) -> Option<u32>
    ensures { LeavesRoom room (length (listed T.layout items.now).bytes) result }
{
    let mut left = room;
    for item in items {
        left = item.room_after(left)?;
    }
    Some(left)
}

/// Appends a String.
pub fn write_text(text: &[u8], out: &mut Appender) -> Result<(), AllocError>
    ensures before { out.new.before ≡ out.old.before }
    ensures added { OnOk result (out.new.added ≡ out.old.added ++ (string text.now).bytes) }
{
    out.put(text)?;
    out.put(&[0])
}

/// Appends the elements.
pub fn write_all<T: Field>(items: &[T], out: &mut Appender) -> Result<(), AllocError>
    requires { length (listed T.layout items.now).bytes < 2 ^ 32 }
    ensures before { out.new.before ≡ out.old.before }
    ensures added { OnOk result (out.new.added
        ≡ out.old.added ++ (listed T.layout items.now).bytes) }
    ensures of_type { OnOk result (listed T.layout items.now).IsOfType }
{
    for item in items {
        item.write(out)?;
    }
    Ok(())
}
