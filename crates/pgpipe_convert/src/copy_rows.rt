//! The rows of a file of either format, read from pieces and written after what is to be sent.

ghost use Rattle.std.specs.Prelude.{◌≡◌, ◌<◌, ◌≤◌, [], ℕ, List, Some, false, true, length, IfOk};
ghost use Rattle.std.specs.Prelude.{OnOk};
ghost use Rattle.std.specs.Iterator.{IsFinite};
ghost use Rattle.pg_copy.specs.Lent.{as_next, Lends};
ghost use Rattle.pg_copy.specs.Row.{Row};
ghost use Rattle.pgpipe_convert.specs.Convert.{file_with};
ghost use Rattle.pgpipe_convert.specs.Private.Values.{AreGiven, writing_by};
ghost use Rattle.pgpipe_convert.specs.Private.Converting.{file_by, ended_of, held_of, HasReadBy};
ghost use Rattle.pgpipe_convert.specs.Private.Converting.{HasWidth, text_stop, binary_stop};
ghost use Rattle.pgpipe_convert.specs.Private.Converting.{row_stop, TakesPiece, GivesRow};
ghost use Rattle.pgpipe_convert.specs.Private.Converting.{WritesRow, PutsNext, SendsMuch, PutsRows};

use crate::convert::Converted;
use crate::format::{Format, RowWriter, copy_of};
use pg_copy::{BinaryFault, BinaryReader, RowFault, TextFault, TextOptions, TextReader};
use pg_wire::Sink;
use pgpipe_base::outbox::{ROOM, send};
use pgpipe_base::{Stop, ToolFault};
use std::alloc::Global;

// The most bytes that a value of a binary file may have.
const VALUE_LIMIT: u32 = 1_073_741_823;

/// A reader of a file of either format.
#[derive(Drop)]
pub enum RowReader {
    Text(TextReader),
    Binary(BinaryReader),
}

// Why the work stops where a reader of text returns a fault.
fn text_stop(fault: TextFault) -> Stop<Converted>
    ensures { result ≡ text_stop fault }
{
    match fault {
        TextFault::Memory => Stop::Memory,
        _ => Stop::Answer(Converted::Text(fault)),
    }
}

// Why the work stops where a reader of a binary file returns a fault.
fn binary_stop(fault: BinaryFault) -> Stop<Converted>
    ensures { result ≡ binary_stop fault }
{
    match fault {
        BinaryFault::Memory => Stop::Memory,
        _ => Stop::Answer(Converted::Binary(fault)),
    }
}

// Why the work stops where a row can't be written.
fn row_stop(fault: RowFault) -> Stop<Converted>
    ensures { result ≡ row_stop fault }
{
    match fault {
        RowFault::Memory => Stop::Memory,
        _ => Stop::Answer(Converted::Row(fault)),
    }
}

impl RowReader {
    /// A reader that has read nothing.
    pub fn new(
        alloc: Global,
        from: Format,
        columns: u16,
        options: &TextOptions,
    ) -> Result<RowReader, ToolFault>
        requires { (0 < columns) × (columns ≤ 32767) }
        ensures begun { IfOk result (λ reader. (file_by reader ≡ file_with options.now from columns)
            × HasReadBy reader [] [] × (ended_of reader ≡ false)) }
        ensures refused { (fault : ToolFault) → result ≡ Err fault → fault ≡ ToolFault.Memory }
    {
        match from {
            Format::Text => match copy_of(alloc, options) {
                Ok(copy) => Ok(RowReader::Text(TextReader::with_options(
                    alloc,
                    Some(columns),
                    copy,
                ))),
                Err(fault) => Err(fault),
            },
            Format::Binary => Ok(RowReader::Binary(BinaryReader::new(alloc, columns, VALUE_LIMIT))),
        }
    }

    /// Takes the next piece of the file.
    pub fn push(&mut self, piece: &[u8]) -> Result<(), Stop<Converted>>
        requires { ended_of self.old ≡ false }
        ensures { TakesPiece self.old piece.now result self.new }
    {
        match self {
            RowReader::Text(reader) => reader.push(piece).map_err(text_stop),
            RowReader::Binary(reader) => reader.push(piece).map_err(binary_stop),
        }
    }

    // Whether a next row waits, or is left at the end of the input, which is lent then.
    fn next_lent(&mut self, at_end: bool) -> Result<bool, Stop<Converted>>
        requires begun { at_end ≡ false → ended_of self.old ≡ false }
        requires read { (bytes : List ℕ) × (given : List Row) × HasReadBy self.old bytes given }
        ensures gives { GivesRow at_end self.old (as_next result (held_of self.new)) self.new }
        ensures lends { Lends result (held_of self.new) }
    {
        match self {
            RowReader::Text(reader) => {
                if at_end {
                    reader.finish_lent().map_err(text_stop)
                } else {
                    reader.next_lent().map_err(text_stop)
                }
            }
            RowReader::Binary(reader) => {
                if at_end {
                    reader.finish_lent().map_err(binary_stop)
                } else {
                    reader.next_lent().map_err(binary_stop)
                }
            }
        }
    }
}

// Puts a row that is lent. Both iterators give its values.
fn put_lent<'v, I: Iterator<Item = Option<&'v [u8]>> + Drop>(
    values: I,
    again: I,
    to: &mut RowWriter<'_>,
    out: &mut Vec<u8>,
) -> Result<bool, Stop<Converted>>
    requires can { I.can_next values × I.can_next again }
    requires ends { IsFinite (I.remaining values) × IsFinite (I.remaining again) }
    requires width { (row : Row) × AreGiven I.next_gives values row
        × AreGiven I.next_gives again row × (length row ≡ to.old.columns) }
    ensures puts { (row : Row) → AreGiven I.next_gives values row
        → AreGiven I.next_gives again row → length row ≡ to.old.columns
        → WritesRow (writing_by to.old) row out.old.items result out.new.items }
    ensures same { to.new ≡ to.old }
{
    match to.write_values(values, again, out) {
        Ok(()) => Ok(true),
        Err(refusal) => Err(row_stop(refusal)),
    }
}

// Puts the row that a reader lends.
fn put_held(
    reader: &RowReader,
    to: &mut RowWriter<'_>,
    out: &mut Vec<u8>,
) -> Result<bool, Stop<Converted>>
    requires width { (row : Row) → held_of reader.now ≡ Some row → length row ≡ to.old.columns }
    ensures writes { (row : Row) → held_of reader.now ≡ Some row
        → WritesRow (writing_by to.old) row out.old.items result out.new.items }
    ensures same { to.new ≡ to.old }
{
    match reader {
        RowReader::Text(reader) => match reader.held() {
            Some(row) => put_lent(row.values(), row.values(), to, out),
            None => Ok(false),
        },
        RowReader::Binary(reader) => match reader.held() {
            Some(row) => put_lent(row.values(), row.values(), to, out),
            None => Ok(false),
        },
    }
}

// Puts the next row that waits, or at the end of the input the next that is left, and returns whether there was one.
fn put_next(
    reader: &mut RowReader,
    at_end: bool,
    to: &mut RowWriter<'_>,
    out: &mut Vec<u8>,
) -> Result<bool, Stop<Converted>>
    requires begun { at_end ≡ false → ended_of reader.old ≡ false }
    requires read { (bytes : List ℕ) × (given : List Row) × HasReadBy reader.old bytes given }
    requires width { HasWidth (file_by reader.old) to.old.columns }
    ensures puts { PutsNext at_end (writing_by to.old) reader.old out.old.items result reader.new
        out.new.items }
    ensures same { to.new ≡ to.old }
{
    match reader.next_lent(at_end) {
        Ok(true) => put_held(reader, to, out),
        Ok(false) => Ok(false),
        Err(stop) => Err(stop),
    }
}

// Sends what was put, where it is much.
fn send_much<K: Sink>(out: &mut Vec<u8>, sink: &mut K) -> Result<(), Stop<Converted>>
    ensures { SendsMuch K.takes K.failures out.old.items sink.old result out.new.items sink.new }
{
    if out.len() < ROOM {
        return Ok(());
    }
    match send(out, sink) {
        Ok(()) => Ok(()),
        Err(_) => Err(Stop::SinkFailed),
    }
}

/// Puts the rows that wait, or, at the end of the input, all that are left.
pub fn put_rows<K: Sink>(
    reader: &mut RowReader,
    at_end: bool,
    to: &mut RowWriter<'_>,
    out: &mut Vec<u8>,
    sink: &mut K,
) -> Result<(), Stop<Converted>>
    requires begun { at_end ≡ false → ended_of reader.old ≡ false }
    requires read { (bytes : List ℕ) × (given : List Row) × HasReadBy reader.old bytes given }
    requires width { HasWidth (file_by reader.old) to.old.columns }
    ensures puts { PutsRows K.takes K.failures at_end (writing_by to.old) reader.old out.old.items
        sink.old result reader.new out.new.items sink.new }
    ensures same { to.new ≡ to.old }
{
    while put_next(reader, at_end, to, out)? {
        send_much(out, sink)?;
    }
    Ok(())
}

/// Puts the rows that wait, and sends them.
pub fn send_rows<K: Sink>(
    reader: &mut RowReader,
    to: &mut RowWriter<'_>,
    out: &mut Vec<u8>,
    sink: &mut K,
) -> Result<(), Stop<Converted>>
    requires begun { ended_of reader.old ≡ false }
    requires read { (bytes : List ℕ) × (given : List Row) × HasReadBy reader.old bytes given }
    requires width { HasWidth (file_by reader.old) to.old.columns }
    ensures puts { PutsRows K.takes K.failures false (writing_by to.old) reader.old out.old.items
        sink.old result reader.new out.new.items sink.new }
    ensures same { to.new ≡ to.old }
    ensures nothing_left { OnOk result (out.new.items ≡ []) }
{
    put_rows(reader, false, to, out, sink)?;
    match send(out, sink) {
        Ok(()) => Ok(()),
        Err(_) => Err(Stop::SinkFailed),
    }
}
