//! The canonical line of a row, written field by field.

ghost use Rattle.std.specs.Prelude.{◌≡◌, ◌++◌, ◌∷◌, ◌≤◌, [], suc, length, option_copied, take};
ghost use Rattle.std.specs.Prelude.{OnOk, OnErr};
ghost use Rattle.pg_copy_rows.specs.Row.{Writes};
ghost use Rattle.pg_copy_text.specs.Text.{default_options, newline};
ghost use Rattle.pg_copy_text.specs.TextWriter.{next_fault, next_written, end_fault};

use crate::text_options::TextOptions;
use crate::text_writer::{is_like_null, put_field};
use pg_copy_rows::RowFault;
use pg_copy_rows::format::MOST_FIELDS;
use std::alloc::AllocError;
use std::marker::Model;

/// Writes the canonical lines of rows whose values don't stand in a [`Row`](crate::Row): call `field` for each value of a row, in the order of its
/// columns, and then `end`. The bytes are those that [`write_text_row_with`](crate::write_text_row_with) writes for the row (PostgreSQL
/// documentation, page COPY, "Text Format").
#[derive(Drop)]
pub struct TextRowWriter {
    options: TextOptions,
    // How many fields of the row that isn't ended were written.
    fields: usize,
}

impl Model for TextRowWriter {
    ghost use Rattle.std.specs.Prelude.{◌≤◌};
    ghost use Rattle.pg_copy_text.specs.TextWriter.{RowWriterState};

    ghost Value = { RowWriterState };

    ghost view = { λ w. record { options = w.options; fields = w.fields } };

    ghost invariant = { λ w. w.fields ≤ 32767 };
}

impl TextRowWriter {
    /// A writer of rows whose fields a tab separates, and whose nulls are `\N`.
    pub fn new() -> Self
        ensures { result ≡ record { options = default_options; fields = 0 } }
    {
        TextRowWriter::with_options(TextOptions::default())
    }

    /// A writer of rows whose fields the options' delimiter separates, and whose nulls are their null mark.
    pub fn with_options(options: TextOptions) -> Self
        ensures { result ≡ record { options = options; fields = 0 } }
    {
        TextRowWriter { options, fields: 0 }
    }

    /// Appends the next field of the row, after the delimiter unless it is the first. None is null. Width: the row has 32,767 fields already. Else
    /// LikeNull, with the field's number: it is a text that would be written as the null mark is. Else Memory: the buffer could not grow. A fault
    /// leaves `buf` and the row as they were (PostgreSQL documentation, page COPY, "Text Format").
    // else a program that calls it in more than one loop pays for a call with each value
    #[inline(always)]
    pub fn field(&mut self, field: Option<&[u8]>, buf: &mut Vec<u8>) -> Result<(), RowFault>
        ensures written { Writes
            (next_fault self.old.options self.old.fields (option_copied field.entry))
            (next_written self.old.options self.old.fields (option_copied field.entry))
            buf.old.items result buf.new.items }
        ensures ok { OnOk result (self.new ≡ record self.old { fields = suc self.old.fields }) }
        ensures err { OnErr result (self.new ≡ self.old) }
    {
        if let Some(fault) = self.next_fault(field) {
            return Err(fault);
        }
        let before = buf.len();
        match self.put_next(field, buf) {
            Ok(()) => {
                self.fields += 1;
                Ok(())
            }
            Err(_) => {
                buf.truncate(before);
                Err(RowFault::Memory)
            }
        }
    }

    /// Appends the newline that ends the row. The next field is then the first of a row. Width: the row has no field. Else Memory: the buffer could
    /// not grow. A fault leaves `buf` and the row as they were (PostgreSQL documentation, page COPY, "Text Format").
    pub fn end(&mut self, buf: &mut Vec<u8>) -> Result<(), RowFault>
        ensures written { Writes (end_fault self.old.fields)
            (newline ∷ []) buf.old.items result buf.new.items }
        ensures ok { OnOk result (self.new ≡ record self.old { fields = 0 }) }
        ensures err { OnErr result (self.new ≡ self.old) }
    {
        if self.fields == 0 {
            return Err(RowFault::Width(0));
        }
        match buf.push(b'\n') {
            Ok(()) => {
                self.fields = 0;
                Ok(())
            }
            Err(_) => Err(RowFault::Memory),
        }
    }

    /// Gives up the row that isn't ended. The next field is then the first of a row. What was written of it stays in the buffer.
    pub fn give_up(&mut self)
        ensures { self.new ≡ record self.old { fields = 0 } }
    {
        self.fields = 0;
    }

    // Why the row can't have this field next.
    fn next_fault(&self, field: Option<&[u8]>) -> Option<RowFault>
        ensures { result
            ≡ next_fault self.now.options self.now.fields (option_copied field.entry) }
    {
        if self.fields >= MOST_FIELDS {
            return Some(RowFault::Width(self.fields + 1));
        }
        if is_like_null(field, &self.options) {
            return Some(RowFault::LikeNull(self.fields));
        }
        None
    }

    fn put_next(&self, field: Option<&[u8]>, buf: &mut Vec<u8>) -> Result<(), AllocError>
        ensures ok { OnOk result (buf.new.items ≡ buf.old.items
            ++ next_written self.now.options self.now.fields (option_copied field.entry)) }
        ensures err { OnErr result (take (length buf.old.items) buf.new.items ≡ buf.old.items) }
    {
        if self.fields > 0 {
            buf.push(self.options.delimiter())?;
        }
        put_field(field, &self.options, buf)
    }
}
