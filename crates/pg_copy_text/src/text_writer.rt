//! The canonical line of a row.

ghost use Rattle.std.specs.Prelude.{◌≡◌, ◌++◌, ◌<◌, true, false, None, length, option_copied};
ghost use Rattle.std.specs.Prelude.{take, OnOk, OnErr};
ghost use Rattle.std.specs.List.{flat_map, position_from};
ghost use Rattle.std.specs.Str.{bytes_eq};
ghost use Rattle.pg_copy_rows.specs.Row.{is_misfit, Writes};
ghost use Rattle.pg_copy_text.specs.Private.Units.{IsWrittenFirst};
ghost use Rattle.pg_copy_text.specs.Text.{default_options, letter_for, written_byte, written_field};
ghost use Rattle.pg_copy_text.specs.Text.{written_row, is_like_null, text_fault};

use crate::plain::{is_plain, plain_end};
use crate::text_options::TextOptions;
use pg_copy_rows::format::{is_misfit, settle};
use pg_copy_rows::{Row, RowFault};
use std::alloc::AllocError;

// The letter that is written for a byte, after a backslash.
fn letter_for(byte: u8, delimiter: u8) -> Option<u8>
    ensures { result ≡ letter_for delimiter byte }
{
    match byte {
        8 => Some(b'b'),
        b'\t' => Some(b't'),
        b'\n' => Some(b'n'),
        11 => Some(b'v'),
        12 => Some(b'f'),
        b'\r' => Some(b'r'),
        b'\\' => Some(b'\\'),
        _ => { if byte == delimiter { Some(byte) } else { None } }
    }
}

// Appends the bytes of a text. Runs of plain bytes are copied at once.
fn put_text(text: &[u8], delimiter: u8, buf: &mut Vec<u8>) -> Result<(), AllocError>
    ensures ok { OnOk result (buf.new.items
        ≡ buf.old.items ++ flat_map (written_byte delimiter) text.now) }
    ensures err { OnErr result (take (length buf.old.items) buf.new.items ≡ buf.old.items) }
{
    // where the bytes begin that are still to be copied as they are
    let mut start = 0;
    let mut at = plain_end(text, 0, delimiter);
    while at < text.len() {
        if is_plain(text[at], delimiter) {
            at = plain_end(text, at + 1, delimiter);
        } else {
            if let Some(letter) = letter_for(text[at], delimiter) {
                buf.extend_from_slice(&text[start..at])?;
                buf.extend_from_slice(&[b'\\', letter])?;
                start = at + 1;
            }
            at += 1;
        }
    }
    buf.extend_from_slice(&text[start..])
}

/// Appends a field, as a line has it.
// as a part of a large function it pays for that one's locals, value by value
#[inline(never)]
pub fn put_field(
    field: Option<&[u8]>,
    options: &TextOptions,
    buf: &mut Vec<u8>,
) -> Result<(), AllocError>
    ensures ok { OnOk result (buf.new.items
        ≡ buf.old.items ++ written_field options.now (option_copied field.entry)) }
    ensures err { OnErr result (take (length buf.old.items) buf.new.items ≡ buf.old.items) }
{
    match field {
        None => buf.extend_from_slice(options.null_mark()),
        Some(text) => put_text(text, options.delimiter(), buf),
    }
}

fn put_row(row: &Row, options: &TextOptions, buf: &mut Vec<u8>) -> Result<(), AllocError>
    ensures ok { OnOk result (buf.new.items
        ≡ buf.old.items ++ written_row options.now row.now) }
    ensures err { OnErr result (take (length buf.old.items) buf.new.items ≡ buf.old.items) }
{
    let mut first = true;
    for value in row.iter() {
        if !first {
            buf.push(options.delimiter())?;
        }
        first = false;
        put_field(value, options, buf)?;
    }
    buf.push(b'\n')?;
    Ok(())
}

// Appends the line of a row, or nothing.
fn write_fields(row: &Row, options: &TextOptions, buf: &mut Vec<u8>) -> Result<(), RowFault>
    ensures { Writes None
        (written_row options.now row.now) buf.old.items result buf.new.items }
{
    let before = buf.len();
    let written = put_row(row, options, buf);
    settle(buf, before, written)
}

// How many of these bytes spell the byte as it is written, if they begin with it.
fn written_len(byte: u8, delimiter: u8, bytes: &[u8]) -> Option<usize>
    ensures { IsWrittenFirst (written_byte delimiter byte) bytes.now result }
{
    match letter_for(byte, delimiter) {
        None => match bytes {
            [first, ..] => if *first == byte { Some(1) } else { None },
            [] => None,
        },
        Some(letter) => match bytes {
            [b'\\', second, ..] => if *second == letter { Some(2) } else { None },
            _ => None,
        },
    }
}

// Whether a text is written as these bytes.
fn is_written_as(text: &[u8], delimiter: u8, bytes: &[u8]) -> bool
    ensures { result ≡ bytes_eq (flat_map (written_byte delimiter) text.now) bytes.now }
{
    let mut rest = bytes;
    for i in 0..text.len() {
        match written_len(text[i], delimiter, rest) {
            Some(len) => rest = &rest[len..],
            None => return false,
        }
    }
    rest.is_empty()
}

/// Whether a field is a text that would be written as the null mark is.
pub fn is_like_null(field: Option<&[u8]>, options: &TextOptions) -> bool
    ensures { result ≡ is_like_null options.now (option_copied field.entry) }
{
    match field {
        None => false,
        // no text is written with fewer bytes than it has
        Some(text) if text.len() > options.null_mark().len() => false,
        Some(text) => is_written_as(text, options.delimiter(), options.null_mark()),
    }
}

// The first field that is a text and would be written as the null mark is.
fn first_like_null(row: &Row, options: &TextOptions) -> Option<usize>
    requires { is_misfit row.now ≡ false }
    ensures { result ≡ position_from (is_like_null options.now) 0 row.now }
{
    let mut index = 0;
    for value in row.iter() {
        if is_like_null(value, options) {
            return Some(index);
        }
        index += 1;
    }
    None
}

/// Appends one field as a line has it: null is `\N`, the bytes 08 to 0D are written by their letters, a backslash is doubled, and all other bytes are
/// written as they are. A caller whose values don't stand in a `Row` writes a line by a [`TextRowWriter`](crate::TextRowWriter) (PostgreSQL
/// documentation, page COPY, "Text Format"). Memory: the buffer could not grow, and `buf` is as it was.
pub fn write_text_field(field: Option<&[u8]>, buf: &mut Vec<u8>) -> Result<(), RowFault>
    ensures { Writes None (written_field default_options (option_copied field.entry)) buf.old.items
        result buf.new.items }
{
    let before = buf.len();
    let written = put_field(field, &TextOptions::default(), buf);
    settle(buf, before, written)
}

/// Appends the canonical line of the row: null is `\N`, the bytes 08 to 0D are written by their letters, a backslash is doubled, and all other bytes
/// are written as they are. A tab separates two fields, and a newline ends the line (PostgreSQL documentation, page COPY, "Text Format"). Width: the
/// row has no field or more than 32,767. Else Memory: the buffer could not grow. A fault leaves `buf` as it was.
pub fn write_text_row(row: &Row, buf: &mut Vec<u8>) -> Result<(), RowFault>
    ensures { Writes (text_fault default_options row.now)
        (written_row default_options row.now) buf.old.items result buf.new.items }
{
    if is_misfit(row) {
        return Err(RowFault::Width(row.len()));
    }
    write_fields(row, &TextOptions::default(), buf)
}

/// Appends the canonical line of the row with these options. Their null mark is a null, and their delimiter separates two fields. The bytes 08 to 0D
/// are written by their letters, a backslash is doubled, and a delimiter in a text, unless it has such a letter, is written after a backslash. All
/// other bytes are written as they are (PostgreSQL documentation, page COPY, "Text Format").
///
/// Width: the row has no field or more than 32,767. Else LikeNull: a text would be written as the null mark is. Else Memory: the buffer could not
/// grow. A fault leaves `buf` as it was.
pub fn write_text_row_with(
    row: &Row,
    options: &TextOptions,
    buf: &mut Vec<u8>,
) -> Result<(), RowFault>
    ensures { Writes (text_fault options.now row.now)
        (written_row options.now row.now) buf.old.items result buf.new.items }
{
    if is_misfit(row) {
        return Err(RowFault::Width(row.len()));
    }
    if let Some(field) = first_like_null(row, options) {
        return Err(RowFault::LikeNull(field));
    }
    write_fields(row, options, buf)
}
