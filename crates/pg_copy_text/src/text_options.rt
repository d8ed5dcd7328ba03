//! The options of a text file.

ghost use Rattle.std.specs.Prelude.{◌≡◌, false};
ghost use Rattle.std.specs.List.{list_any};
ghost use Rattle.pg_copy_text.specs.Text.{default_options};
ghost use Rattle.pg_copy_text.specs.TextOptions.{is_no_delimiter, ends_field, is_no_mark};
ghost use Rattle.pg_copy_text.specs.TextOptions.{AreOptions, MakesOptions};
ghost use Rattle.pg_copy_text.specs.Text.{ends_escaped};

use crate::format::{DELIMITER, END_MARK, NULL_MARK};
use pg_copy_rows::OptionFault;
use pg_seq::Seq;
use std::alloc::Global;
use std::marker::Model;

/// The byte that separates two fields of a text file, and the bytes of a field that is null (PostgreSQL documentation, page COPY, DELIMITER and
/// NULL). By default they are a tab and `\N`.
#[derive(Drop)]
pub struct TextOptions {
    delimiter: u8,
    // None is the default
    null_mark: Option<Seq<u8>>,
}

impl Model for TextOptions {
    ghost use Rattle.pg_copy_text.specs.Text.{Options};
    ghost use Rattle.pg_copy_text.specs.TextOptions.{AreOptions, mark_of};

    ghost Value = { Options };

    ghost view = { λ o. record { delimiter = o.delimiter; null_mark = mark_of o.null_mark } };

    ghost invariant = { λ o. AreOptions (record {
      delimiter = o.delimiter;
      null_mark = mark_of o.null_mark;
    }) };
}

fn is_no_delimiter(byte: u8) -> bool
    ensures { result ≡ is_no_delimiter byte }
{
    byte == b'\n'
        || byte == b'\r'
        || byte == b'\\'
        || byte == b'.'
        || byte.is_ascii_lowercase()
        || byte.is_ascii_digit()
}

fn ends_field(delimiter: u8, byte: u8) -> bool
    ensures { result ≡ ends_field delimiter byte }
{
    byte == b'\n' || byte == b'\r' || byte == delimiter
}

// Whether the bytes end in a backslash that begins a unit.
fn ends_escaped(bytes: &[u8]) -> bool
    ensures { result ≡ ends_escaped false bytes.now }
{
    let mut escaped = false;
    for byte in bytes {
        if escaped {
            escaped = false;
        } else {
            escaped = *byte == b'\\';
        }
    }
    escaped
}

fn holds_end(delimiter: u8, mark: &[u8]) -> bool
    ensures { result ≡ list_any (ends_field delimiter) mark.now }
{
    mark.iter().any(|byte| ends_field(delimiter, *byte))
}

fn is_no_mark(delimiter: u8, mark: &[u8]) -> bool
    ensures { result ≡ is_no_mark delimiter mark.now }
{
    holds_end(delimiter, mark) || mark == END_MARK.as_slice() || ends_escaped(mark)
}

impl TextOptions {
    /// Options with this delimiter and these bytes for null. The fault is the first of these that holds. Delimiter: it is a newline, a return, a
    /// backslash, a dot, a letter from `a` to `z` or a digit. NullMark: a newline, a return or the delimiter is among the bytes, they are `\.`, or
    /// they end in a backslash that begins an escape. Memory: memory ran out.
    pub fn new(alloc: Global, delimiter: u8, null_mark: &[u8]) -> Result<TextOptions, OptionFault>
        ensures { MakesOptions delimiter null_mark.now result }
    {
        if is_no_delimiter(delimiter) {
            return Err(OptionFault::Delimiter(delimiter));
        }
        if is_no_mark(delimiter, null_mark) {
            return Err(OptionFault::NullMark);
        }
        match Seq::from_slice(alloc, null_mark) {
            Ok(mark) => Ok(TextOptions {
                delimiter,
                null_mark: Some(mark),
            }),
            Err(_) => Err(OptionFault::Memory),
        }
    }

    /// The byte that separates two fields.
    pub fn delimiter(&self) -> u8
        ensures value { result ≡ self.now.delimiter }
        ensures options { AreOptions self.now }
    {
        self.delimiter
    }

    /// The bytes of a null.
    pub fn null_mark(&self) -> &[u8]
        ensures { result.now ≡ self.now.null_mark }
    {
        match &self.null_mark {
            None => &NULL_MARK,
            Some(mark) => mark.as_slice(),
        }
    }
}

/// A tab and `\N`.
impl Default for TextOptions {
    ghost is_default = { λ o. o ≡ default_options };

    fn default() -> TextOptions {
        TextOptions {
            delimiter: DELIMITER,
            null_mark: None,
        }
    }
}
