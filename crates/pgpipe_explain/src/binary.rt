//! The header, the rows and the trailer of a COPY binary file.

ghost use Rattle.std.specs.Prelude.{◌≡◌};
ghost use Rattle.pgpipe_explain.specs.Tracker.{binary_taken, count_taken, fields_left};
ghost use Rattle.pgpipe_explain.specs.Tracker.{length_taken};

use crate::tracker::{ByteEffect, Phase};
use crate::wire::with_byte;

/// How far a binary file has come. A number is made of the bytes that came of it, most significant first.
#[derive(Clone, Copy)]
pub enum Binary {
    /// So many bytes of the 19 of the header came, the last of which make this number.
    Header(u8, u32),
    /// So many bytes of the header's extension are left.
    Extension(u32),
    /// So many bytes of a row's number of fields came, which make this number.
    Count(u8, u32),
    /// So many bytes of a value's length came, which make this number; so many values come after it.
    Length(u8, u32, u32),
    /// So many bytes of a value are left; so many values come after it.
    Value(u32, u32),
    /// The trailer came.
    Trailer,
}

fn within(binary: Binary) -> ByteEffect
    ensures { result ≡ ByteEffect.Within (Phase.Binary binary) }
{
    ByteEffect::Within(Phase::Binary(binary))
}

// What a byte does in a row of which so many values are left.
fn fields(left: u32) -> ByteEffect
    ensures { result ≡ fields_left left }
{
    if left == 0 {
        return ByteEffect::Last(Phase::Binary(Binary::Count(0, 0)));
    }
    within(Binary::Length(0, 0, left - 1))
}

// What the last byte of a row's number of fields does. The row is the trailer where that is -1.
fn count(count: u32) -> ByteEffect
    ensures { result ≡ count_taken count }
{
    if count == 65_535 {
        return within(Binary::Trailer);
    }
    fields(count)
}

// What the last byte of a value's length does, that of null too. The row has so many values left after it.
fn length(length: u32, left: u32) -> ByteEffect
    ensures { result ≡ length_taken length left }
{
    if length == 0 || length == 4_294_967_295 {
        return fields(left);
    }
    within(Binary::Value(length, left))
}

impl Binary {
    /// Before the header.
    pub fn header() -> Binary
        ensures { result ≡ Binary.Header 0 0 }
    {
        Binary::Header(0, 0)
    }

    /// What a byte does. The header stands before the first row, and is a part of it.
    pub fn take(self, byte: u8) -> ByteEffect
        ensures { result ≡ binary_taken self byte }
    {
        match self {
            Binary::Header(seen, word) if seen < 18 => {
                within(Binary::Header(seen + 1, with_byte(word, byte)))
            }
            Binary::Header(_, word) => {
                let left = with_byte(word, byte);
                if left == 0 {
                    return within(Binary::Count(0, 0));
                }
                within(Binary::Extension(left))
            }
            Binary::Extension(left) if left > 1 => within(Binary::Extension(left - 1)),
            Binary::Extension(_) => within(Binary::Count(0, 0)),
            Binary::Count(seen, word) if seen < 1 => {
                within(Binary::Count(seen + 1, with_byte(word, byte)))
            }
            Binary::Count(_, word) => count(with_byte(word, byte) % 65_536),
            Binary::Length(seen, word, left) if seen < 3 => {
                within(Binary::Length(seen + 1, with_byte(word, byte), left))
            }
            Binary::Length(_, word, left) => length(with_byte(word, byte), left),
            Binary::Value(left, more) if left > 1 => within(Binary::Value(left - 1, more)),
            Binary::Value(_, more) => fields(more),
            Binary::Trailer => within(Binary::Trailer),
        }
    }
}
