//! A line of text, whose values are written one by one from where the row that is lent has them.

ghost use Rattle.std.specs.Prelude.{◌≡◌, ◌<◌, ◌≤◌, ℕ, List, Ok, length, option_copied};
ghost use Rattle.std.specs.Iterator.{IsFinite};
ghost use Rattle.pg_copy.specs.Row.{Row};
ghost use Rattle.pg_copy.specs.Text.{Options, written_row, text_fault};
ghost use Rattle.pgpipe_convert.specs.declared.values.Progress.TheVariants.{Written};
ghost use Rattle.pgpipe_convert.specs.Private.Values.{AreGiven, WritesInPart, progress_of};
ghost use Rattle.pgpipe_convert.specs.Private.Values.{judged_at, LineStands, LineGoesOn};

use pg_copy::laws::fields_are_line;
use pg_copy::{RowFault, TextOptions, TextRowWriter};

/// What has become of the first values of a line, none of which has a fault.
#[derive(Clone, Copy, Drop)]
pub enum Progress {
    /// They are written.
    Written,
    /// They were judged alone from one on, since the line is large.
    PutOff,
    /// They were judged alone from one on, since memory ran out.
    Refused,
}

// How a writer's result carries the line on.
fn progress_of(written: Result<(), RowFault>) -> Result<Progress, RowFault>
    ensures { result ≡ progress_of written }
{
    match written {
        Ok(()) => Ok(Progress::Written),
        Err(RowFault::Memory) => Ok(Progress::Refused),
        Err(fault) => Err(fault),
    }
}

// Puts a value off, and all after it, where `out` has so many bytes and would have more than `end` with it.
fn put_off(so_far: Progress, value: Option<&[u8]>, len: usize, end: usize) -> Progress
    ensures { result ≡ Written → so_far ≡ Written }
{
    match value {
        Some(bytes) if bytes.len() > end.saturating_sub(len) => match so_far {
            Progress::Written => Progress::PutOff,
            _ => so_far,
        },
        _ => so_far,
    }
}

// What is known after a value of a line, with so many before it, was given to a writer only to be judged.
fn judged_at(
    before: usize,
    so_far: Progress,
    written: Result<(), RowFault>,
) -> Result<Progress, RowFault>
    ensures { result ≡ judged_at before so_far written }
{
    match written {
        Err(RowFault::LikeNull(_)) => Err(RowFault::LikeNull(before)),
        _ => Ok(so_far),
    }
}

// Judges a value of a line, with so many before it, one of which wasn't written. LikeNull is returned as if all were written. Only a text that is no
// longer than the null mark is given to the writer for it. What then stands in `out` is of no use.
fn judge_field(
    value: Option<&[u8]>,
    before: usize,
    so_far: Progress,
    options: &TextOptions,
    writer: &mut TextRowWriter,
    out: &mut Vec<u8>,
) -> Result<Progress, RowFault>
    requires other { so_far ≡ Written → ⊥ }
    requires few { writer.old.fields < 32767 }
    requires options { writer.old.options ≡ options.now }
    ensures goes_on { (row : Row) (start : List ℕ) → length row ≡ before
        → LineStands options.now row start so_far writer.old out.old.items
        → LineGoesOn options.now row start (option_copied value.entry) result writer.new
        out.new.items }
{
    match value {
        None => Ok(so_far),
        // no text is written with fewer bytes than it has
        Some(text) if text.len() > options.null_mark().len() => Ok(so_far),
        Some(_) => judged_at(before, so_far, writer.field(value, out)),
    }
}

// Puts the next value of a line, with so many before it. It is written where all those are, and else only judged.
fn put_field(
    value: Option<&[u8]>,
    before: usize,
    so_far: Progress,
    options: &TextOptions,
    writer: &mut TextRowWriter,
    out: &mut Vec<u8>,
) -> Result<Progress, RowFault>
    requires few { writer.old.fields < 32767 }
    requires options { writer.old.options ≡ options.now }
    ensures goes_on { (row : Row) (start : List ℕ) → length row ≡ before
        → LineStands options.now row start so_far writer.old out.old.items
        → LineGoesOn options.now row start (option_copied value.entry) result writer.new
        out.new.items }
{
    match so_far {
        Progress::Written => progress_of(writer.field(value, out)),
        _ => judge_field(value, before, so_far, options, writer, out),
    }
}

// Ends a line, where all its values are written.
fn end_line(
    so_far: Progress,
    writer: &mut TextRowWriter,
    out: &mut Vec<u8>,
) -> Result<Progress, RowFault>
    ensures ends { (o : Options) (row : Row) (start : List ℕ) → 0 < length row
        → length row ≤ 32767 → LineStands o row start so_far writer.old out.old.items
        → WritesInPart (text_fault o row) (written_row o row) start result out.new.items }
    ensures ended { result ≡ Ok Written → writer.new ≡ record writer.old { fields = 0 } }
    ensures options { writer.new.options ≡ writer.old.options }
{
    fields_are_line();
    match so_far {
        Progress::Written => progress_of(writer.end(out)),
        _ => Ok(so_far),
    }
}

// Puts the line of a row of these values, of which there are at least one and at most 32,767. Where it isn't written, a part of it stays
// in `out`, and in the writer.
fn put_fields<'v, I: Iterator<Item = Option<&'v [u8]>> + Drop>(
    values: I,
    most: usize,
    options: &TextOptions,
    writer: &mut TextRowWriter,
    out: &mut Vec<u8>,
) -> Result<Progress, RowFault>
    requires can { I.can_next values }
    requires ends { IsFinite (I.remaining values) }
    requires few { (row : Row) × AreGiven I.next_gives values row × (length row ≤ 32767) }
    requires options { writer.old.options ≡ options.now }
    requires first { writer.old.fields ≡ 0 }
    ensures puts { (row : Row) → AreGiven I.next_gives values row → 0 < length row
        → length row ≤ 32767 → WritesInPart (text_fault options.now row)
        (written_row options.now row) out.old.items result out.new.items }
    ensures ended { result ≡ Ok Written → writer.new ≡ writer.old }
    ensures options { writer.new.options ≡ writer.old.options }
{
    let end = out.len().saturating_add(most);
    let mut before = 0;
    let mut so_far = Progress::Written;
    for value in values {
        so_far = put_off(so_far, value, out.len(), end);
        so_far = put_field(value, before, so_far, options, writer, out)?;
        before += 1;
    }
    end_line(so_far, writer, out)
}

/// Puts the line of a row of these values, of which there are at least one and at most 32,767. Where the line has more than `most`
/// bytes, it may be put off. Where it isn't written, a part of it stays in `out`.
pub fn put_line<'v, I: Iterator<Item = Option<&'v [u8]>> + Drop>(
    values: I,
    most: usize,
    options: &TextOptions,
    writer: &mut TextRowWriter,
    out: &mut Vec<u8>,
) -> Result<Progress, RowFault>
    requires can { I.can_next values }
    requires ends { IsFinite (I.remaining values) }
    requires few { (row : Row) × AreGiven I.next_gives values row × (length row ≤ 32767) }
    requires options { writer.old.options ≡ options.now }
    requires first { writer.old.fields ≡ 0 }
    ensures puts { (row : Row) → AreGiven I.next_gives values row → 0 < length row
        → length row ≤ 32767 → WritesInPart (text_fault options.now row)
        (written_row options.now row) out.old.items result out.new.items }
    ensures same { writer.new ≡ writer.old }
{
    let put = put_fields(values, most, options, writer, out);
    match put {
        Ok(Progress::Written) => put,
        _ => {
            writer.give_up();
            put
        }
    }
}
