//! The parts of a line, which are coloured each in its way.

ghost use Rattle.std.specs.Prelude.{◌≡◌, ◌≤◌, length};
ghost use Rattle.pgpipe_show.specs.ColoredPart.{ends_word, escape, name_with_byte, next};

// ECMA-48, "Select graphic rendition"
const CYAN: &[u8] = b"\x1b[1;36m";

const RESET: &[u8] = b"\x1b[0m";

const RESET_THEN_RED: &[u8] = b"\x1b[0m\x1b[31m";

const ERROR_RESPONSE: &[u8] = b"ErrorResponse";

/// The part of a line that the next byte is of, unless that byte ends the part before.
#[derive(Clone, Copy, Debug, PartialEq, Eq)]
pub enum LinePart {
    /// The beginning of a line.
    Start,
    /// Its first word, so far this many of the 13 bytes of `ErrorResponse`.
    ErrorName(usize),
    /// Its first word, which isn't `ErrorResponse`.
    Name,
    /// What follows such a word.
    Rest,
    /// What follows `ErrorResponse`.
    ErrorRest,
}

// Whether a byte ends the first word of a line: a space, a comma and the line's end do.
fn ends_word(byte: u8) -> bool
    ensures { result ≡ ends_word byte }
{
    byte == b' ' || byte == b',' || byte == b'\n'
}

// The first word with one more byte, where it was this many bytes of `ErrorResponse`.
fn name_with_byte(count: usize, byte: u8) -> LinePart
    ensures { result ≡ name_with_byte count byte }
{
    if count < ERROR_RESPONSE.len() && ERROR_RESPONSE[count] == byte {
        LinePart::ErrorName(count + 1)
    } else {
        LinePart::Name
    }
}

impl LinePart {
    /// The escape that is written before this byte: at most 9 bytes.
    pub fn escape(self, byte: u8) -> &'static [u8]
        ensures escape { result.now ≡ escape self byte }
        ensures size { length result.now ≤ 9 }
    {
        match self {
            LinePart::Start if !ends_word(byte) => CYAN,
            LinePart::ErrorName(13) if ends_word(byte) && byte != b'\n' => RESET_THEN_RED,
            LinePart::ErrorName(_) | LinePart::Name if ends_word(byte) => RESET,
            LinePart::ErrorRest if byte == b'\n' => RESET,
            _ => b"",
        }
    }

    /// The part after this byte.
    pub fn next(self, byte: u8) -> LinePart
        ensures { result ≡ next self byte }
    {
        match self {
            _ if byte == b'\n' => LinePart::Start,
            LinePart::Start if !ends_word(byte) => name_with_byte(0, byte),
            LinePart::ErrorName(count) if !ends_word(byte) => name_with_byte(count, byte),
            LinePart::Name if !ends_word(byte) => LinePart::Name,
            LinePart::ErrorName(13) | LinePart::ErrorRest => LinePart::ErrorRest,
            _ => LinePart::Rest,
        }
    }
}
