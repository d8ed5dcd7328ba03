//! The lines of a text file.

ghost use Rattle.std.specs.Prelude.{◌≡◌};
ghost use Rattle.pgpipe_explain.specs.Tracker.{text_taken};

use crate::tracker::{ByteEffect, Phase};

/// What the last byte was, of those that have come of a line.
#[derive(Clone, Copy)]
pub enum LastByte {
    /// Nothing that changes what the next byte is.
    Plain,
    /// A backslash that begins an escape.
    Escape,
    /// A return that ends the line, unless a newline does after it.
    Return,
}

impl LastByte {
    /// What a byte does: an escaped line end stands within its line.
    pub fn take(self, byte: u8) -> ByteEffect
        ensures { result ≡ text_taken self byte }
    {
        match (self, byte) {
            (LastByte::Escape, b'\n' | b'\r') => ByteEffect::Line(Phase::Text(LastByte::Plain)),
            (LastByte::Escape, _) => ByteEffect::Within(Phase::Text(LastByte::Plain)),
            (_, b'\n') => ByteEffect::Last(Phase::Text(LastByte::Plain)),
            (LastByte::Plain, b'\\') => ByteEffect::Within(Phase::Text(LastByte::Escape)),
            (LastByte::Plain, b'\r') => ByteEffect::Within(Phase::Text(LastByte::Return)),
            (LastByte::Plain, _) => ByteEffect::Within(Phase::Text(LastByte::Plain)),
            (LastByte::Return, b'\\') => ByteEffect::First(Phase::Text(LastByte::Escape)),
            (LastByte::Return, b'\r') => ByteEffect::First(Phase::Text(LastByte::Return)),
            (LastByte::Return, _) => ByteEffect::First(Phase::Text(LastByte::Plain)),
        }
    }
}
