//! Lines of few fields, and fields that several lines have.

ghost use Rattle.std.specs.Prelude.{◌≡◌, Some, [], ◌∷◌, map, OnOk};
ghost use Rattle.std.specs.Fmt.{decimal};
ghost use Rattle.pgpipe_loop.specs.Lines.{error_fields, head_fields, request_fields};
ghost use Rattle.pgpipe_loop.specs.Private.Lines.{with_fields, with_row};

use super::buffer::{LineBuffer, PutsField};
use super::lists::put_each_field;
use pg_wire::{Column, CopyHead, Fields, Request, Seq, Values};
use std::alloc::AllocError;

/// Puts the values of a row, of which any may be null.
pub fn put_values(values: &Values, lines: &mut LineBuffer) -> Result<(), AllocError>
    ensures { OnOk result (lines.new ≡ with_fields lines.old values.now) }
{
    'values: for value in values.iter() {
        lines.put(value)?;
    }
    Ok(())
}

/// A chunk of a copy.
impl PutsField for Seq<u8> {
    ghost field = { λ bytes. Some bytes };

    fn put_field(&self, lines: &mut LineBuffer) -> Result<(), AllocError> {
        lines.put_text(self.as_slice())
    }
}

/// The object id of a type.
impl PutsField for u32 {
    ghost field = { λ oid. Some (decimal oid) };

    fn put_field(&self, lines: &mut LineBuffer) -> Result<(), AllocError> {
        lines.put_count(*self as usize)
    }
}

/// A column, by its name.
impl PutsField for Column {
    ghost field = { λ column. Some column.name };

    fn put_field(&self, lines: &mut LineBuffer) -> Result<(), AllocError> {
        lines.put_text(self.name.as_slice())
    }
}

/// Puts the fields of an error or a notice.
pub fn put_error_fields(fields: &Fields, lines: &mut LineBuffer) -> Result<(), AllocError>
    ensures { OnOk result (lines.new ≡ with_fields lines.old (error_fields fields.now)) }
{
    'fields: for field in fields.iter() {
        lines.put_text(&[field.0])?;
        lines.put_text(field.1)?;
    }
    Ok(())
}

/// Puts the formats of a copy.
pub fn put_head(head: &CopyHead, lines: &mut LineBuffer) -> Result<(), AllocError>
    ensures { OnOk result (lines.new ≡ with_fields lines.old (head_fields head.now)) }
{
    lines.put_text(if head.binary { b"binary" } else { b"text" })?;
    lines.put_count(head.formats.len())
}

/// Puts what a request is.
pub fn put_request(request: &Request, lines: &mut LineBuffer) -> Result<(), AllocError>
    ensures { OnOk result (lines.new ≡ with_fields lines.old (request_fields request.now)) }
{
    match request {
        Request::Query(text) => {
            lines.put_text(b"query")?;
            lines.put_text(text.as_slice())
        }
        Request::Group(steps) => {
            lines.put_text(b"group")?;
            lines.put_count(steps.len())
        }
    }
}

/// Puts the line of a word.
pub fn put_word_line(word: &[u8], lines: &mut LineBuffer) -> Result<(), AllocError>
    ensures { OnOk result (lines.new ≡ with_row lines.old (Some word.now ∷ [])) }
{
    lines.put_text(word)?;
    lines.end()
}

/// Puts the line of a word and a text.
pub fn put_text_line(word: &[u8], text: &[u8], lines: &mut LineBuffer) -> Result<(), AllocError>
    ensures { OnOk result (lines.new ≡ with_row lines.old (Some word.now ∷ Some text.now ∷ [])) }
{
    lines.put_text(word)?;
    lines.put_text(text)?;
    lines.end()
}

/// Puts the line of a word and the fields of an error or a notice.
pub fn put_error_line(
    word: &[u8],
    fields: &Fields,
    lines: &mut LineBuffer,
) -> Result<(), AllocError>
    ensures { OnOk result (lines.new
        ≡ with_row lines.old (Some word.now ∷ error_fields fields.now)) }
{
    lines.put_text(word)?;
    put_error_fields(fields, lines)?;
    lines.end()
}

/// Puts the line of a word and of what a request is.
pub fn put_request_line(
    word: &[u8],
    request: &Request,
    lines: &mut LineBuffer,
) -> Result<(), AllocError>
    ensures { OnOk result (lines.new
        ≡ with_row lines.old (Some word.now ∷ request_fields request.now)) }
{
    lines.put_text(word)?;
    put_request(request, lines)?;
    lines.end()
}

/// Puts the line of a word and the field of each element.
pub fn put_list_line<T: PutsField>(
    word: &[u8],
    items: &[T],
    lines: &mut LineBuffer,
) -> Result<(), AllocError>
    ensures { OnOk result (lines.new ≡ with_row lines.old (Some word.now ∷ map T.field items.now)) }
{
    lines.put_text(word)?;
    put_each_field(items, lines)?;
    lines.end()
}
