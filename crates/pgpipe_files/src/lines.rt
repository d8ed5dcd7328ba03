//! The lines of SCRIPT and CALLS: text files of any width, whose first field is a verb.

ghost use Rattle.std.specs.Prelude.{◌≡◌, ◌<◌, ℕ, List, length, Option, Err};
ghost use Rattle.pg_copy.specs.Row.{Row};
ghost use Rattle.pgpipe_files.specs.Lines.{is_blank, with_file, with_row};
ghost use Rattle.pgpipe_files.specs.Private.Faults.{text_fault_at};
ghost use Rattle.pgpipe_lines.specs.Reads.{Leaves, LeavesAll};

use pg_copy::{Row, TextFault, TextReader};
use pgpipe_lines::{Arguments, LineFault, Refusal};
use std::alloc::Global;

/// What is made of the lines of a file.
pub trait TakesLines {
    // What was taken so far together with the line in the row of this number, of this verb and with these fields; nothing where it is rejected.
    ghost line: { Self → ℕ → List ℕ → Row → Option Self };

    /// Takes the line in the row of this number, counted from 1, with this verb and these fields after it.
    fn take(&mut self, row: usize, verb: &[u8], arguments: Arguments) -> Result<(), Refusal>
        ensures { Leaves result self.new (line self.old row verb.now arguments) };
}

// Whether a row is one empty field, as an empty line is.
fn is_blank(row: &Row) -> bool
    ensures { result ≡ is_blank row.now }
{
    match row.get(0) {
        Some(Some(field)) => field.is_empty() && row.len() == 1,
        _ => false,
    }
}

// Takes the row of this number, unless it is blank.
fn take_row<T: TakesLines>(
    alloc: Global,
    number: usize,
    row: Row,
    taker: &mut T,
) -> Result<(), Refusal>
    ensures { Leaves result taker.new (with_row T.line taker.old number row) }
{
    if is_blank(&row) {
        return Ok(());
    }
    let mut arguments = Arguments::new(alloc, &row)?;
    let verb = arguments.text()?;
    taker.take(number, verb.as_slice(), arguments)
}

// The fault of the file whose row of this number can't be read.
fn text_fault_at(fault: TextFault, number: usize) -> LineFault
    ensures { result ≡ text_fault_at fault number }
{
    match fault {
        TextFault::Memory => LineFault::Memory,
        _ => LineFault::Line(number),
    }
}

/// Has each line of a file taken, in order, up to the first that is rejected.
pub fn take_lines<T: TakesLines>(
    alloc: Global,
    bytes: &[u8],
    taker: &mut T,
) -> Result<(), LineFault>
    ensures taken { LeavesAll result taker.new (with_file T.line taker.old bytes.now) }
    ensures memory { result ≡ Err LineFault.Memory → 0 < length bytes.now }
{
    let mut reader = TextReader::new(alloc, None);
    // a reader to which nothing was pushed has found no fault
    let Ok(()) = reader.push(bytes) else {
        return Err(LineFault::Memory);
    };
    for number in 1..usize::MAX {
        match reader.finish() {
            Ok(Some(row)) => match take_row(alloc, number, row, taker) {
                Ok(()) => {}
                Err(refusal) => return Err(refusal.at(number)),
            },
            Ok(None) => return Ok(()),
            Err(fault) => return Err(text_fault_at(fault, number)),
        }
    }
    // no file has so many rows
    Ok(())
}
