//! The two formats of COPY files, written.

ghost use Rattle.std.specs.Prelude.{◌≡◌, ◌<◌, ◌≤◌, None, length, IfOk};
ghost use Rattle.std.specs.Iterator.{IsFinite};
ghost use Rattle.pg_copy.specs.Row.{Row, Writes};
ghost use Rattle.pg_copy.specs.Text.{text_fault, written_row};
ghost use Rattle.pgpipe_convert.specs.Convert.{writing_with};
ghost use Rattle.pgpipe_convert.specs.Private.Values.{AreGiven, WritesOrNot, writing_by};

use crate::values::{Progress, put_line};
use pg_copy::{
    RowFault, TextOptions, TextRowWriter, write_binary_head, write_binary_trailer,
    write_binary_values,
};
use pgpipe_base::ToolFault;
use std::alloc::Global;
use std::marker::Model;

// A line of more bytes is judged before it is written.
const LARGE_LINE: usize = 1024 * 1024;

/// A format of COPY files (PostgreSQL documentation, page COPY, "File Formats").
#[derive(Clone, Copy, Debug, PartialEq, Eq)]
pub enum Format {
    Text,
    Binary,
}

/// A copy of the options.
pub fn copy_of(alloc: Global, options: &TextOptions) -> Result<TextOptions, ToolFault>
    ensures copied { IfOk result (λ copy. copy ≡ options.now) }
    ensures refused { (fault : ToolFault) → result ≡ Err fault → fault ≡ ToolFault.Memory }
{
    match TextOptions::new(alloc, options.delimiter(), options.null_mark()) {
        Ok(copy) => Ok(copy),
        // options have no other fault
        Err(_) => Err(ToolFault::Memory),
    }
}

/// A writer of files of one format, text with these options. A clause sees how the files are written.
#[derive(Drop)]
pub struct RowWriter<'a> {
    format: Format,
    columns: u16,
    options: &'a TextOptions,
    // writes the lines of rows that are lent
    lines: TextRowWriter,
}

impl<'a> Model for RowWriter<'a> {
    ghost use Rattle.std.specs.Prelude.{◌≡◌, ◌<◌, ◌≤◌};
    ghost use Rattle.pgpipe_convert.specs.Private.Values.{RowWriting};

    ghost Value = { RowWriting };

    ghost view = { λ w. record {
      format = w.format;
      columns = w.columns;
      options = w.options.now;
    } };

    ghost invariant = { λ w. (0 < w.columns) × (w.columns ≤ 32767)
        × (w.lines.options ≡ w.options.now) × (w.lines.fields ≡ 0) };
}

impl<'a> RowWriter<'a> {
    /// A writer of this format, of rows that are lent with so many values.
    pub fn new(
        alloc: Global,
        format: Format,
        columns: u16,
        options: &'a TextOptions,
    ) -> Result<RowWriter<'a>, ToolFault>
        requires { (0 < columns) × (columns ≤ 32767) }
        ensures begun { IfOk result (λ to. writing_by to ≡ writing_with options.now format) }
        ensures columns { IfOk result (λ to. to.columns ≡ columns) }
        ensures refused { (fault : ToolFault) → result ≡ Err fault → fault ≡ ToolFault.Memory }
    {
        match copy_of(alloc, options) {
            Ok(copy) => Ok(RowWriter {
                format,
                columns,
                options,
                lines: TextRowWriter::with_options(copy),
            }),
            Err(fault) => Err(fault),
        }
    }

    /// Appends what stands before the rows. After a fault `buf` is as it was.
    pub fn write_head(&self, buf: &mut Vec<u8>) -> Result<(), RowFault>
        ensures { Writes None (writing_by self.now).head buf.old.items result buf.new.items }
    {
        match self.format {
            Format::Text => Ok(()),
            Format::Binary => write_binary_head(buf),
        }
    }

    // Puts the line of these values. Where it has more than `most` bytes, it may be put off. Where it isn't written, nothing of it stays.
    fn try_line<'v, I: Iterator<Item = Option<&'v [u8]>> + Drop>(
        &mut self,
        values: I,
        most: usize,
        buf: &mut Vec<u8>,
    ) -> Result<Progress, RowFault>
        requires can { I.can_next values }
        requires ends { IsFinite (I.remaining values) }
        requires width { (row : Row) × AreGiven I.next_gives values row
            × (length row ≡ self.old.columns) }
        ensures puts { (row : Row) → AreGiven I.next_gives values row
            → length row ≡ self.old.columns
            → WritesOrNot (text_fault self.old.options row) (written_row self.old.options row)
            buf.old.items result buf.new.items }
        ensures same { self.new ≡ self.old }
    {
        let before = buf.len();
        let put = put_line(values, most, self.options, &mut self.lines, buf);
        match put {
            Ok(Progress::Written) => put,
            _ => {
                buf.truncate(before);
                put
            }
        }
    }

    // Appends the line of these values, however large it is. After a fault `buf` is as it was.
    fn write_large<'v, I: Iterator<Item = Option<&'v [u8]>> + Drop>(
        &mut self,
        values: I,
        buf: &mut Vec<u8>,
    ) -> Result<(), RowFault>
        requires can { I.can_next values }
        requires ends { IsFinite (I.remaining values) }
        requires width { (row : Row) × AreGiven I.next_gives values row
            × (length row ≡ self.old.columns) }
        ensures writes { (row : Row) → AreGiven I.next_gives values row
            → length row ≡ self.old.columns
            → Writes (text_fault self.old.options row) (written_row self.old.options row)
            buf.old.items result buf.new.items }
        ensures same { self.new ≡ self.old }
    {
        match self.try_line(values, usize::MAX, buf) {
            Ok(Progress::Written) => Ok(()),
            Ok(_) => Err(RowFault::Memory),
            Err(fault) => Err(fault),
        }
    }

    // Appends the line of these values; `again` gives the same. A large line is judged before it is written. After a fault `buf` is as it was.
    fn write_line<'v, I: Iterator<Item = Option<&'v [u8]>> + Drop>(
        &mut self,
        values: I,
        again: I,
        buf: &mut Vec<u8>,
    ) -> Result<(), RowFault>
        requires can { I.can_next values × I.can_next again }
        requires ends { IsFinite (I.remaining values) × IsFinite (I.remaining again) }
        requires width { (row : Row) × AreGiven I.next_gives values row
            × AreGiven I.next_gives again row × (length row ≡ self.old.columns) }
        ensures writes { (row : Row) → AreGiven I.next_gives values row
            → AreGiven I.next_gives again row → length row ≡ self.old.columns
            → Writes (text_fault self.old.options row) (written_row self.old.options row)
            buf.old.items result buf.new.items }
        ensures same { self.new ≡ self.old }
    {
        match self.try_line(values, LARGE_LINE, buf) {
            Ok(Progress::Written) => Ok(()),
            Ok(Progress::PutOff) => self.write_large(again, buf),
            Ok(Progress::Refused) => Err(RowFault::Memory),
            Err(fault) => Err(fault),
        }
    }

    /// Appends a row of these values, which are lent one by one; `again` gives the same values. A large row is judged before it is written, so a row
    /// that can't be written takes little memory. After a fault `buf` is as it was.
    pub fn write_values<'v, I: Iterator<Item = Option<&'v [u8]>> + Drop>(
        &mut self,
        values: I,
        again: I,
        buf: &mut Vec<u8>,
    ) -> Result<(), RowFault>
        requires can { I.can_next values × I.can_next again }
        requires ends { IsFinite (I.remaining values) × IsFinite (I.remaining again) }
        requires width { (row : Row) × AreGiven I.next_gives values row
            × AreGiven I.next_gives again row × (length row ≡ self.old.columns) }
        ensures writes { (row : Row) → AreGiven I.next_gives values row
            → AreGiven I.next_gives again row → length row ≡ self.old.columns
            → Writes ((writing_by self.old).row_fault row) ((writing_by self.old).row row)
            buf.old.items result buf.new.items }
        ensures same { self.new ≡ self.old }
    {
        match self.format {
            Format::Text => self.write_line(values, again, buf),
            Format::Binary => write_binary_values(usize::from(self.columns), values, again, buf),
        }
    }

    /// Appends what stands after the rows. After a fault `buf` is as it was.
    pub fn write_trailer(&self, buf: &mut Vec<u8>) -> Result<(), RowFault>
        ensures { Writes None (writing_by self.now).trailer buf.old.items result buf.new.items }
    {
        match self.format {
            Format::Text => Ok(()),
            Format::Binary => write_binary_trailer(buf),
        }
    }
}
