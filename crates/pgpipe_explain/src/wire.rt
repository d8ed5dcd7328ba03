//! The messages and first packets of a stream, by their length fields.

ghost use Rattle.std.specs.Prelude.{◌≡◌, ◌<◌, ◌^◌};
ghost use Rattle.pgpipe_explain.specs.Tracker.{body_of, after_length, next_by, after_packet_length};
ghost use Rattle.pgpipe_explain.specs.Tracker.{wire_taken, with_byte};

use crate::tracker::{ByteEffect, Phase};
use pg_wire::{LONGEST, LONGEST_PACKET};

/// What comes after a first packet, or that a message comes after a message.
#[derive(Clone, Copy)]
pub enum NextPart {
    /// A message.
    Message,
    /// A first packet.
    Packet,
    /// Nothing, since a Cancel came: all further bytes are the rest.
    Nothing,
}

/// How far a message or a first packet has come. A number is made of the bytes that came of it, most significant first.
#[derive(Clone, Copy)]
pub enum Wire {
    /// So many bytes of a tag and a length field came, the last of which make this number.
    Head(u8, u32),
    /// So many bytes of a first packet's length field came, which make this number.
    Length(u8, u32),
    /// So many bytes of a first packet's code came, which make this number; then come so many bytes.
    Code(u8, u32, u32),
    /// So many bytes are left, and then comes this.
    Body(u32, NextPart),
    /// Nothing more comes that has an end: after a request to cancel, or after a length field that can't be.
    Rest,
}

// The number with one more byte, of which the last four count.
pub fn with_byte(word: u32, byte: u8) -> u32
    ensures { result ≡ with_byte word byte }
{
    (word % 16_777_216) * 256 + u32::from(byte)
}

// The code of a request to cancel.
const CANCEL: u32 = 80_877_102;

// The codes of requests, 1234 and any lower half.
const REQUESTS: u32 = 1_234;

// What comes after a first packet with this code.
fn next_by(code: u32) -> NextPart
    ensures { result ≡ next_by code }
{
    if code == CANCEL {
        NextPart::Nothing
    } else if code / 65_536 == REQUESTS {
        NextPart::Packet
    } else {
        NextPart::Message
    }
}

// What begins where a part has ended.
fn begin(next: NextPart) -> Wire
    ensures { result ≡ Rattle.pgpipe_explain.specs.Tracker.beginning next }
{
    match next {
        NextPart::Message => Wire::message(),
        NextPart::Packet => Wire::packet(),
        NextPart::Nothing => Wire::Rest,
    }
}

// What a byte does in a part that has so many bytes left after it.
fn body(left: u32, next: NextPart) -> ByteEffect
    ensures { result ≡ body_of left next }
{
    if left == 0 {
        return ByteEffect::Last(Phase::Wire(begin(next)));
    }
    ByteEffect::Within(Phase::Wire(Wire::Body(left, next)))
}

// What the last byte of a message's length field does, which makes this number.
fn after_length(length: u32) -> ByteEffect
    ensures { result ≡ after_length length }
{
    if length < 4 || length > LONGEST {
        return ByteEffect::Within(Phase::Wire(Wire::Rest));
    }
    body(length - 4, NextPart::Message)
}

// What the last byte of a first packet's length field does, which makes this number.
fn after_packet_length(length: u32) -> ByteEffect
    ensures { result ≡ after_packet_length length }
{
    if length < 8 || length > LONGEST_PACKET {
        return ByteEffect::Within(Phase::Wire(Wire::Rest));
    }
    ByteEffect::Within(Phase::Wire(Wire::Code(0, 0, length - 8)))
}

impl Wire {
    /// Before a message.
    pub fn message() -> Wire
        ensures { result ≡ Wire.Head 0 0 }
    {
        Wire::Head(0, 0)
    }

    /// Before a first packet.
    pub fn packet() -> Wire
        ensures { result ≡ Wire.Length 0 0 }
    {
        Wire::Length(0, 0)
    }

    /// What a byte does. A length field counts itself: at least 4 and at most 1,073,741,823 in a message, and 8 to 10,000 in a first packet. After one
    /// that can't be no part ends.
    pub fn take(self, byte: u8) -> ByteEffect
        ensures { result ≡ wire_taken self byte }
    {
        match self {
            Wire::Head(seen, word) if seen < 4 => {
                ByteEffect::Within(Phase::Wire(Wire::Head(seen + 1, with_byte(word, byte))))
            }
            Wire::Head(_, word) => after_length(with_byte(word, byte)),
            Wire::Length(seen, word) if seen < 3 => {
                ByteEffect::Within(Phase::Wire(Wire::Length(seen + 1, with_byte(word, byte))))
            }
            Wire::Length(_, word) => after_packet_length(with_byte(word, byte)),
            Wire::Code(seen, word, left) if seen < 3 => {
                ByteEffect::Within(Phase::Wire(Wire::Code(seen + 1, with_byte(word, byte), left)))
            }
            Wire::Code(_, word, left) => body(left, next_by(with_byte(word, byte))),
            Wire::Body(left, next) => body(left.saturating_sub(1), next),
            Wire::Rest => ByteEffect::Within(Phase::Wire(Wire::Rest)),
        }
    }
}
