//! Lines of COPY text, written field by field.

ghost use Rattle.std.specs.Prelude.{◌≡◌, [], List, Some, OnOk, option_copied};
ghost use Rattle.std.specs.Fmt.{decimal, signed_decimal};
ghost use Rattle.pg_copy.specs.Row.{Row};
ghost use Rattle.pgpipe_base.specs.Outbox.{body_text};
ghost use Rattle.pgpipe_loop.specs.Lines.{text_lines};
ghost use Rattle.pgpipe_loop.specs.Private.Lines.{whole_lines, with_field, with_end, with_row};
ghost use Rattle.pgpipe_loop.specs.Private.Lines.{with_rows};

use pg_copy::laws::{fields_are_line, text_round_trip};
use pg_copy::{RowFault, TextRowWriter};
use std::alloc::{AllocError, Global};
use std::marker::Model;
use std::string::ToString;

/// Lines of COPY text. What is put stands in the open line, which has at most its first 32,767 fields. Where memory ran out, the text is of no use.
#[derive(Drop)]
pub struct LineBuffer {
    alloc: Global,
    text: Vec<u8>,
    row: TextRowWriter,
}

impl Model for LineBuffer {
    ghost use Rattle.std.specs.Prelude.{◌≡◌};
    ghost use Rattle.pg_copy.specs.Text.{default_options};
    ghost use Rattle.pgpipe_loop.specs.Private.Lines.{LineState};

    ghost Value = { LineState };

    ghost view = { λ l. record { text = l.text.items; fields = l.row.fields } };

    ghost invariant = { λ l. l.row.options ≡ default_options };
}

impl LineBuffer {
    /// A buffer without lines.
    pub fn new(alloc: Global) -> LineBuffer
        ensures { result ≡ whole_lines [] }
    {
        LineBuffer {
            alloc,
            text: Vec::new(alloc),
            row: TextRowWriter::new(),
        }
    }

    /// The text, which is the canonical lines of the rows that were put.
    pub fn into_text(self) -> Vec<u8>
        ensures { (rows : List Row) → self ≡ with_rows (whole_lines []) rows
            → result.items ≡ text_lines rows }
    {
        fields_are_line();
        text_round_trip();
        let LineBuffer { text, .. } = self;
        text
    }

    /// Puts a field into the open line, unless that has all its fields.
    pub fn put(&mut self, field: Option<&[u8]>) -> Result<(), AllocError>
        ensures { OnOk result (self.new ≡ with_field self.old (option_copied field.entry)) }
    {
        match self.row.field(field, &mut self.text) {
            Ok(()) => Ok(()),
            Err(RowFault::Width(_)) => Ok(()),
            Err(_) => Err(AllocError),
        }
    }

    /// Puts a text into the open line.
    pub fn put_text(&mut self, text: &[u8]) -> Result<(), AllocError>
        ensures { OnOk result (self.new ≡ with_field self.old (Some text.now)) }
    {
        self.put(Some(text))
    }

    /// Puts a number into the open line, in decimal.
    pub fn put_count(&mut self, number: usize) -> Result<(), AllocError>
        ensures { OnOk result (self.new ≡ with_field self.old (Some (decimal number))) }
    {
        let digits = number.to_string(self.alloc)?;
        self.put_text(digits.as_bytes())
    }

    /// Puts a number into the open line, in decimal, with `-` where it is negative.
    pub fn put_signed(&mut self, number: i32) -> Result<(), AllocError>
        ensures { OnOk result (self.new ≡ with_field self.old (Some (signed_decimal number))) }
    {
        let digits = number.to_string(self.alloc)?;
        self.put_text(digits.as_bytes())
    }

    /// Puts bytes into the open line, in hexadecimal, or `-` where there are none.
    pub fn put_hexadecimal(&mut self, bytes: &[u8]) -> Result<(), AllocError>
        ensures { OnOk result (self.new ≡ with_field self.old (Some (body_text bytes.now))) }
    {
        if bytes.is_empty() {
            return self.put_text(b"-");
        }
        let digits = hex::encode(self.alloc, bytes)?;
        self.put_text(digits.as_bytes())
    }

    /// Closes the open line, which has a field.
    pub fn end(&mut self) -> Result<(), AllocError>
        ensures { OnOk result (self.new ≡ with_end self.old) }
    {
        match self.row.end(&mut self.text) {
            Ok(()) => Ok(()),
            Err(_) => Err(AllocError),
        }
    }
}

/// Something that is written as a field of a line.
pub trait PutsField {
    ghost use Rattle.std.specs.Prelude.{ℕ, List, Option};

    // The field that it is written as.
    ghost field: { Self → Option (List ℕ) };

    /// Puts its field into the open line.
    fn put_field(&self, lines: &mut LineBuffer) -> Result<(), AllocError>
        ensures { OnOk result (lines.new ≡ with_field lines.old (field self.now)) };
}

/// Something that is written as a line.
pub trait PutsLine {
    ghost use Rattle.std.specs.Prelude.{ℕ, List, Option};

    // The row of its line.
    ghost line_row: { Self → List (Option (List ℕ)) };

    /// Puts its line after the closed ones.
    fn put_line(&self, lines: &mut LineBuffer) -> Result<(), AllocError>
        ensures { OnOk result (lines.new ≡ with_row lines.old (line_row self.now)) };
}

/// Something that is written as lines.
pub trait PutsLines {
    ghost use Rattle.std.specs.Prelude.{ℕ, List, Option};

    // The rows of its lines.
    ghost rows: { Self → List (List (Option (List ℕ))) };

    /// Puts its lines after the closed ones.
    fn put_lines(&self, lines: &mut LineBuffer) -> Result<(), AllocError>
        ensures { OnOk result (lines.new ≡ with_rows lines.old (rows self.now)) };
}
