//! The fields of a line of SCRIPT or CALLS.

ghost use Rattle.std.specs.Prelude.{◌≡◌, ◌≢◌, ◌↔◌, ◌⊎◌, [], IsTrue, IfOk, OnErr, Some, slice_index};
ghost use Rattle.std.specs.Str.{IsUtf8};
ghost use Rattle.pgpipe_lines.specs.declared.fault.Refusal.TheVariants.{Memory};
ghost use Rattle.pgpipe_lines.specs.Arguments.{byte_of, copy_head, copy_head_at, error_fields_of};
ghost use Rattle.pgpipe_lines.specs.Arguments.{nothing_of, number, number_of, numbers_of, pair_at};
ghost use Rattle.pgpipe_lines.specs.Arguments.{pair_of, read_at, short_number, signed_number};
ghost use Rattle.pgpipe_lines.specs.Arguments.{text_at, text_of, texts_of};
ghost use Rattle.pgpipe_lines.specs.Reads.{ReadsAs, TakesOff};

use crate::fault::Refusal;
use crate::verb::{CopyFormat, format_of};
use pg_copy::Row;
use pg_wire::{CopyHead, Fields, Seq, Values};
use std::alloc::{AllocError, Global};
use std::marker::Model;
use std::{str, vec};

/// The fields of a line that aren't taken yet. They are taken from the front, and moved. A line is rejected where a field isn't there, or isn't of
/// the kind that is asked for.
#[derive(Drop)]
pub struct Arguments {
    alloc: Global,
    fields: vec::IntoIter<Option<Seq<u8>>>,
}

impl Model for Arguments {
    ghost use Rattle.std.specs.Vec.Iter.{into_iter_items};
    ghost use Rattle.pg_copy.specs.Row.{Row};

    ghost Value = { Row };

    ghost view = { λ a. into_iter_items a.fields };
}

// The fields of a row, each copied.
fn fields_of(alloc: Global, row: &Row) -> Result<Vec<Option<Seq<u8>>>, AllocError>
    ensures { IfOk result (λ fields. fields.items ≡ row.now) }
{
    let mut fields = Vec::with_capacity(alloc, row.len())?;
    for value in row.iter() {
        let field = match value {
            Some(text) => Some(Seq::from_slice(alloc, text)?),
            None => None,
        };
        fields.push(field)?;
    }
    Ok(fields)
}

impl Arguments {
    /// All the fields of a row, copied.
    pub fn new(alloc: Global, row: &Row) -> Result<Arguments, AllocError>
        ensures { IfOk result (λ arguments. arguments ≡ row.now) }
    {
        let fields = fields_of(alloc, row)?;
        Ok(Arguments {
            alloc,
            fields: fields.into_iter(),
        })
    }

    /// The next field, which is a text.
    pub fn text(&mut self) -> Result<Seq<u8>, Refusal>
        ensures text { TakesOff result self.new (text_at self.old) }
        ensures at_once { result ≡ Err Memory → ⊥ }
    {
        match self.fields.next() {
            Some(Some(text)) => Ok(text),
            Some(None) | None => Err(Refusal::Wrong),
        }
    }

    /// The next two fields, which are texts.
    pub fn pair(&mut self) -> Result<(Seq<u8>, Seq<u8>), Refusal>
        ensures pair { TakesOff result self.new (pair_at self.old) }
        ensures at_once { result ≡ Err Memory → ⊥ }
    {
        let first = self.text()?;
        let second = self.text()?;
        Ok((first, second))
    }

    /// The next field, which is a number in decimal with `-` where it is negative.
    pub fn signed(&mut self) -> Result<i32, Refusal>
        ensures { TakesOff result self.new (read_at signed_number self.old) }
    {
        let text = self.text()?;
        signed_number(text.as_slice())
    }

    /// The next field, which is a number in decimal.
    pub fn number(&mut self) -> Result<u32, Refusal>
        ensures { TakesOff result self.new (read_at number self.old) }
    {
        let text = self.text()?;
        number(text.as_slice())
    }

    /// The next two fields, the format of a copy and the number of its columns.
    pub fn copy_head(&mut self) -> Result<CopyHead, Refusal>
        ensures { TakesOff result self.new (copy_head_at self.old) }
    {
        let word = self.text()?;
        let format = format_of(word.as_slice()).ok_or(Refusal::Wrong)?;
        let count = self.text()?;
        let columns = short_number(count.as_slice())?;
        Ok(copy_head(self.alloc, format, columns)?)
    }

    // Whether nothing is left.
    fn is_empty(&self) -> bool
        ensures { IsTrue result ↔ (self.now ≡ []) }
    {
        self.fields.len() == 0
    }

    /// The fields that are left: texts.
    pub fn texts(mut self) -> Result<Seq<Seq<u8>>, Refusal>
        ensures { ReadsAs result (texts_of self) }
    {
        let mut texts = Seq::new(Vec::new(self.alloc));
        while !self.is_empty() {
            texts.push(self.text()?)?;
        }
        Ok(texts)
    }

    /// The fields that are left: numbers in decimal.
    pub fn numbers(mut self) -> Result<Seq<u32>, Refusal>
        ensures { ReadsAs result (numbers_of self) }
    {
        let mut numbers = Seq::new(Vec::new(self.alloc));
        while !self.is_empty() {
            numbers.push(self.number()?)?;
        }
        Ok(numbers)
    }

    /// The fields that are left, as values. Any of them may be null.
    pub fn values(mut self) -> Result<Values, Refusal>
        ensures { ReadsAs result (Some self) }
    {
        let mut values = Values::new(self.alloc);
        'values: while let Some(field) = self.fields.next() {
            let value = match &field {
                None => None,
                Some(text) => Some(text.as_slice()),
            };
            // values that no message could hold are more than this program takes
            if values.push(value).is_err() {
                return Err(Refusal::Memory);
            }
        }
        Ok(values)
    }

    /// The fields that are left, as those of an error or a notice: each is a code of one byte and a value.
    pub fn error_fields(mut self) -> Result<Fields, Refusal>
        ensures { ReadsAs result (error_fields_of self) }
    {
        let mut fields = Fields::new(self.alloc);
        while !self.is_empty() {
            let text = self.text()?;
            let code = one_byte(text.as_slice())?;
            let value = self.text()?;
            match fields.push(code, value.as_slice()) {
                Ok(()) => {}
                // fields that no message could hold are more than this program takes
                Err(_) => return Err(Refusal::Memory),
            }
        }
        Ok(fields)
    }

    /// The one field that is left, which is a text.
    pub fn only_text(mut self) -> Result<Seq<u8>, Refusal>
        ensures text { ReadsAs result (text_of self) }
        ensures at_once { result ≡ Err Memory → ⊥ }
    {
        let text = self.text()?;
        self.end()?;
        Ok(text)
    }

    /// The two fields that are left, which are texts.
    pub fn only_pair(mut self) -> Result<(Seq<u8>, Seq<u8>), Refusal>
        ensures pair { ReadsAs result (pair_of self) }
        ensures at_once { result ≡ Err Memory → ⊥ }
    {
        let pair = self.pair()?;
        self.end()?;
        Ok(pair)
    }

    /// The one field that is left, which is a number in decimal.
    pub fn only_number(mut self) -> Result<u32, Refusal>
        ensures { ReadsAs result (number_of self) }
    {
        let number = self.number()?;
        self.end()?;
        Ok(number)
    }

    /// Checks that no field is left.
    pub fn end(mut self) -> Result<(), Refusal>
        ensures all { ReadsAs result (nothing_of self) }
        ensures at_once { result ≡ Err Memory → ⊥ }
    {
        match self.fields.next() {
            None => Ok(()),
            Some(_) => Err(Refusal::Wrong),
        }
    }
}

// The head of a copy, all of whose columns are in its format.
fn copy_head(alloc: Global, format: CopyFormat, columns: u16) -> Result<CopyHead, AllocError>
    ensures { IfOk result (λ head. head ≡ copy_head format columns) }
{
    let binary = matches!(format, CopyFormat::Binary);
    let mut formats = Vec::new(alloc);
    formats.resize(usize::from(columns), i16::from(binary))?;
    Ok(CopyHead {
        binary,
        formats: Seq::new(formats),
    })
}

// The number that a text says in decimal, with `-` where it is negative.
fn signed_number(text: &[u8]) -> Result<i32, Refusal>
    ensures { ReadsAs result (signed_number text.now) }
{
    match number_text(text)?.parse::<i32>() {
        Ok(number) => Ok(number),
        Err(_) => Err(Refusal::Wrong),
    }
}

// The number that a text says in decimal.
fn number(text: &[u8]) -> Result<u32, Refusal>
    ensures { ReadsAs result (number text.now) }
{
    match number_text(text)?.parse::<u32>() {
        Ok(number) => Ok(number),
        Err(_) => Err(Refusal::Wrong),
    }
}

// The number that a text says in decimal, which is at most 65,535.
fn short_number(text: &[u8]) -> Result<u16, Refusal>
    ensures { ReadsAs result (short_number text.now) }
{
    match number_text(text)?.parse::<u16>() {
        Ok(number) => Ok(number),
        Err(_) => Err(Refusal::Wrong),
    }
}

// The text of a number, which has no plus sign.
fn number_text(text: &[u8]) -> Result<&str, Refusal>
    ensures text { IfOk result (λ s. (s.now ≡ text.now) × (slice_index text.now 0 ≢ 43)) }
    ensures none { OnErr result ((slice_index text.now 0 ≡ 43) ⊎ ¬ (IsUtf8 text.now)) }
{
    if text.first() == Some(&b'+') {
        return Err(Refusal::Wrong);
    }
    str::from_utf8(text).map_err(|_| Refusal::Wrong)
}

// The byte of a text that has one.
fn one_byte(text: &[u8]) -> Result<u8, Refusal>
    ensures { ReadsAs result (byte_of text.now) }
{
    match text {
        [byte] => Ok(*byte),
        _ => Err(Refusal::Wrong),
    }
}
