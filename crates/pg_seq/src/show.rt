//! How `{:?}` writes a list: one of bytes as an escaped text, and any other element by element.
//!
//! No two impls of `Debug` may fit one type, so the type of the elements says which form their lists have.
ghost use Rattle.std.specs.Prelude.{◌≡◌, ℕ, List, Option, Some, flat_map};
ghost use Rattle.std.specs.Fmt.{DisplaysOnOk, WritesOnOk, debug_list};
ghost use Rattle.pg_seq.specs.Text.{byte_text, escaped_byte};

mod elements;

use crate::Seq;
use std::fmt;

/// What `{:?}` writes in a list. For a type of your own write `impl DebugElement for Mine { type Form = ByElement; }`.
pub trait DebugElement: fmt::Debug + Sized {
    /// How a list of such elements is written.
    type Form: DebugForm<Self>;
}

/// A form in which `{:?}` writes a list of `T`.
pub trait DebugForm<T> {
    // The bytes that are written, or `None` where an element doesn't specify its own.
    ghost list_output: { List T → Option (List ℕ) };

    /// Writes a list of these elements. It fails only where `f` does or an element's own writing.
    fn fmt_list<W: fmt::Write>(items: &[T], f: &mut fmt::Formatter<W>) -> fmt::Result
        ensures { DisplaysOnOk W.write_str_gives f.old result (list_output items.now) f.new };
}

/// A list is written as a slice is, as `[1, 2]`.
pub struct ByElement;

impl<T: fmt::Debug> DebugForm<T> for ByElement {
    ghost list_output = { debug_list T.debug_output };

    fn fmt_list<W: fmt::Write>(items: &[T], f: &mut fmt::Formatter<W>) -> fmt::Result {
        fmt::Debug::fmt(&items, f)
    }
}

/// A list of bytes is written as Rust writes a byte string, as `b"ab\x00"`.
pub struct AsText;

impl DebugForm<u8> for AsText {
    ghost list_output = { λ bytes. Some (byte_text bytes) };

    fn fmt_list<W: fmt::Write>(items: &[u8], f: &mut fmt::Formatter<W>) -> fmt::Result {
        f.write_str("b\"")?;
        write_escaped(items, f)?;
        f.write_str("\"")
    }
}

fn write_escaped<W: fmt::Write>(bytes: &[u8], f: &mut fmt::Formatter<W>) -> fmt::Result
    ensures { WritesOnOk W.write_str_gives f.old result (flat_map escaped_byte bytes.now) f.new }
{
    'bytes: for &byte in bytes {
        write_byte(byte, f)?;
    }
    Ok(())
}

fn write_byte<W: fmt::Write>(byte: u8, f: &mut fmt::Formatter<W>) -> fmt::Result
    ensures { WritesOnOk W.write_str_gives f.old result (escaped_byte byte) f.new }
{
    let mut rest = byte.escape_ascii();
    'escape: while let Some(escaped) = rest.next() {
        f.write_char(char::from(escaped))?;
    }
    Ok(())
}

/// `{:?}` writes a list of bytes as an escaped text, as `b"ab\x00"`, and any other as a slice, as `[1, 2]`.
impl<T: DebugElement> fmt::Debug for Seq<T> {
    ghost debug_output = { T.Form.list_output };

    fn fmt<W: fmt::Write>(&self, f: &mut fmt::Formatter<W>) -> fmt::Result {
        T::Form::fmt_list(self.as_slice(), f)
    }
}
