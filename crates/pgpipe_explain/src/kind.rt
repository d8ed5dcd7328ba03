//! What a field has to be.

ghost use Rattle.std.specs.Prelude.{◌≡◌, ◌≢◌, ◌⊎◌, IfSome, is_some, slice_index, None};
ghost use Rattle.std.specs.Str.{IsUtf8, bytes_eq, is_utf8};
ghost use Rattle.pgpipe_lines.specs.Arguments.{number, short_number, signed_number};
ghost use Rattle.pgpipe_explain.specs.Fields.{are_digits, is_format, is_of, is_salt, is_status};

use pgpipe_lines::{AuthWay, EndWay, LoadWay, target_of};
use std::str;
use thiserror::Error;

/// What a field has to be. Each is shown as the end of a sentence about a field that isn't it.
#[derive(Clone, Copy, Debug, Error)]
pub enum FieldKind {
    /// Any text.
    #[error("is no text")]
    Text,
    /// A path.
    #[error("isn't UTF-8")]
    Path,
    /// A number without a sign.
    #[error("is no number from 0 to 4,294,967,295")]
    Number,
    /// A number with a sign.
    #[error("is no number from -2,147,483,648 to 2,147,483,647")]
    Signed,
    /// A number of columns.
    #[error("is no number from 0 to 65,535")]
    Columns,
    /// How a client is let in.
    #[error("is none of trust, cleartext and md5")]
    Way,
    /// A salt.
    #[error("isn't 8 hexadecimal digits")]
    Salt,
    /// The status after an answer.
    #[error("is none of I, T and E")]
    Status,
    /// The format of a copy.
    #[error("is none of text and binary")]
    Format,
    /// What becomes of a copy from the client.
    #[error("is none of accept and refuse")]
    Load,
    /// How the run of a portal ended.
    #[error("is none of complete, empty and suspended")]
    End,
    /// A statement or a portal.
    #[error("is none of S and P")]
    Target,
    /// The code of a value of an error or a notice.
    #[error("isn't one byte, the code of the value after it")]
    Code,
}

// The text of a number, which has no plus sign.
fn number_text(text: &[u8]) -> Option<&str>
    ensures text { IfSome result (λ s. (s.now ≡ text.now) × (slice_index text.now 0 ≢ 43)) }
    ensures none { result ≡ None → (slice_index text.now 0 ≡ 43) ⊎ ¬ (IsUtf8 text.now) }
{
    if text.first() == Some(&b'+') {
        return None;
    }
    match str::from_utf8(text) {
        Ok(text) => Some(text),
        Err(_) => None,
    }
}

// Whether a text is a number without a sign.
fn is_number(text: &[u8]) -> bool
    ensures { result ≡ is_some (number text.now) }
{
    match number_text(text) {
        Some(digits) => match digits.parse::<u32>() {
            Ok(_number) => true,
            Err(_) => false,
        },
        None => false,
    }
}

// Whether a text is a number with a sign.
fn is_signed(text: &[u8]) -> bool
    ensures { result ≡ is_some (signed_number text.now) }
{
    match number_text(text) {
        Some(digits) => match digits.parse::<i32>() {
            Ok(_number) => true,
            Err(_) => false,
        },
        None => false,
    }
}

// Whether a text is a number of columns.
fn is_columns(text: &[u8]) -> bool
    ensures { result ≡ is_some (short_number text.now) }
{
    match number_text(text) {
        Some(digits) => match digits.parse::<u16>() {
            Ok(_number) => true,
            Err(_) => false,
        },
        None => false,
    }
}

// Whether a text is UTF-8.
fn is_path(text: &[u8]) -> bool
    ensures { result ≡ is_utf8 text.now }
{
    match str::from_utf8(text) {
        Ok(_) => true,
        Err(_) => false,
    }
}

// Whether a byte is a hexadecimal digit.
fn is_digit(byte: u8) -> bool
    ensures { result ≡ Rattle.pgpipe_explain.specs.Fields.is_digit byte }
{
    match byte {
        b'0'..=b'9' | b'a'..=b'f' | b'A'..=b'F' => true,
        _ => false,
    }
}

// Whether these bytes are hexadecimal digits.
fn are_digits(a: u8, b: u8, c: u8, d: u8) -> bool
    ensures { result ≡ are_digits a b c d }
{
    is_digit(a) && is_digit(b) && is_digit(c) && is_digit(d)
}

// Whether a text is 8 hexadecimal digits.
fn is_salt(text: &[u8]) -> bool
    ensures { result ≡ is_salt text.now }
{
    match text {
        [a, b, c, d, e, f, g, h] => are_digits(*a, *b, *c, *d) && are_digits(*e, *f, *g, *h),
        _ => false,
    }
}

// Whether a text is this word.
fn is_word(text: &[u8], word: &[u8]) -> bool
    ensures { result ≡ bytes_eq text.now word.now }
{
    text == word
}

// Whether a text is a status.
fn is_status(text: &[u8]) -> bool
    ensures { result ≡ is_status text.now }
{
    match text {
        b"I" | b"T" | b"E" => true,
        _ => false,
    }
}

// Whether a text is the format of a copy.
fn is_format(text: &[u8]) -> bool
    ensures { result ≡ is_format text.now }
{
    is_word(text, b"text") || is_word(text, b"binary")
}

impl FieldKind {
    /// Whether a text is of this kind.
    pub fn is_of(self, text: &[u8]) -> bool
        ensures { result ≡ is_of self text.now }
    {
        match self {
            FieldKind::Text => true,
            FieldKind::Path => is_path(text),
            FieldKind::Number => is_number(text),
            FieldKind::Signed => is_signed(text),
            FieldKind::Columns => is_columns(text),
            FieldKind::Way => AuthWay::named(text).is_some(),
            FieldKind::Salt => is_salt(text),
            FieldKind::Status => is_status(text),
            FieldKind::Format => is_format(text),
            FieldKind::Load => LoadWay::named(text).is_some(),
            FieldKind::End => EndWay::named(text).is_some(),
            FieldKind::Target => target_of(text).is_some(),
            FieldKind::Code => text.len() == 1,
        }
    }
}
