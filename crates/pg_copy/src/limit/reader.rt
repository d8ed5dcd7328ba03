//! Reading a text file that comes in pieces, with a limit for its lines.

ghost use Rattle.std.specs.Prelude.{◌≡◌, ◌≤◌, ◌<◌, ◌++◌, ◌⊎◌, ℕ, List, None, Some, Ok, Err, []};
ghost use Rattle.std.specs.Prelude.{false, true, length, IfSome, OnOk};
ghost use Rattle.pg_copy_rows.specs.declared.fault.TextFault.TheVariants.{Memory};
ghost use Rattle.pg_copy_rows.specs.Reading.{AnswersNext, RowWaits, given_by};
ghost use Rattle.pg_copy_rows.specs.Row.{Row};
ghost use Rattle.pg_copy_text.specs.Text.{text_reading, text_file_reading};
ghost use Rattle.pg_copy_text.specs.TextReader.{text_ending, last_text_ending, text_left};
ghost use Rattle.pg_copy_text.specs.TextReader.{text_last};
ghost use Rattle.pg_copy.specs.declared.limit.fault.LimitedTextFault.TheVariants.{Text, LongLine};
ghost use Rattle.pg_copy.specs.Limited.{HasReadLimited, JudgesLine, PushesLimited, as_text};
ghost use Rattle.pg_copy.specs.Limited.{begun};
ghost use Rattle.pg_copy.specs.Private.Judging.{is_long, judged, after_judging, limited};

use crate::laws::one_split;
use crate::limit::fault::LimitedTextFault;
use pg_copy_rows::{Row, TextFault};
use pg_copy_text::{TextOptions, TextReader};
use std::alloc::Global;
use std::marker::Model;

/// Takes a text file in any pieces, and gives its rows as a [`TextReader`] does, but rejects a line that is too long to be kept.
///
/// Where no whole line waits, and more bytes of the next are there than the limit, `next` returns `LongLine` in the place of its row. So no more is
/// kept than the limit and the piece that was pushed last, where `next` is called until it returns None before another piece is pushed. A line that
/// came whole is given, however long it is. Bytes are counted up to `u64::MAX`. Once so many were pushed, no line is rejected any more (PostgreSQL
/// documentation, page COPY, "Text Format").
#[derive(Drop)]
pub struct LimitedTextReader {
    reader: TextReader,
    limit: usize,
    // how many bytes were pushed
    pushed: u64,
    // whether a line was too long
    long: bool,
}

impl Model for LimitedTextReader {
    ghost use Rattle.pg_copy.specs.Limited.{LimitedState};

    ghost Value = { LimitedState };

    ghost view = { λ r. record {
      reader = r.reader;
      limit = r.limit;
      pushed = r.pushed;
      long = r.long;
    } };
}

impl LimitedTextReader {
    /// A reader of rows of so many columns, 1 to 32,767; where None is given, a row may have any number up to 32,767. The options' delimiter
    /// separates the fields, and their null mark is a null. A line that isn't whole may have at most `limit` bytes.
    pub fn new(alloc: Global, columns: Option<u16>, options: TextOptions, limit: usize) -> Self
        requires { IfSome columns (λ n. (0 < n) × (n ≤ 32767)) }
        ensures state { result ≡ begun options columns limit }
        ensures read { HasReadLimited result [] [] }
    {
        LimitedTextReader {
            reader: TextReader::with_options(alloc, columns, options),
            limit,
            pushed: 0,
            long: false,
        }
    }

    /// The reader without the limit. It has the number of rows that were given, where the next line begins, whether the end mark was read, and
    /// whether `finish` was called.
    pub fn reader(&self) -> &TextReader
        ensures { result.now ≡ self.now.reader }
    {
        &self.reader
    }

    /// Takes the next piece of the file, all of it, and drops it after the end mark. A fault that was found is returned again. After Memory nothing
    /// of the piece was taken, and the reader is unchanged.
    pub fn push(&mut self, piece: &[u8]) -> Result<(), LimitedTextFault>
        requires { self.old.reader.ended ≡ false }
        ensures call { PushesLimited self.old piece.now result self.new }
        ensures ended { self.new.reader.ended ≡ false }
        ensures read { OnOk result ((pushed : List ℕ) (given : List Row)
            → HasReadLimited self.old pushed given
            → HasReadLimited self.new (pushed ++ piece.now) given) }
    {
        if self.long {
            return Err(LimitedTextFault::LongLine);
        }
        match self.reader.push(piece) {
            Ok(()) => {
                self.pushed = self.pushed.saturating_add(piece.len() as u64);
                Ok(())
            }
            Err(fault) => Err(LimitedTextFault::Text(fault)),
        }
    }

    /// The next row, or None where no whole line waits or the end mark was read. A fault is returned once all rows before it were given, and by each
    /// call after that. LongLine is returned where no whole line waits, and more bytes are kept than the limit. Memory is returned only where a row
    /// waits, and leaves the reader unchanged (PostgreSQL documentation, page COPY, "Text Format").
    pub fn next(&mut self) -> Result<Option<Row>, LimitedTextFault>
        requires { self.old.reader.ended ≡ false }
        ensures read { (pushed : List ℕ) (given : List Row) → HasReadLimited self.old pushed given
            → HasReadLimited self.new pushed (given ++ given_by (as_text result)) }
        ensures gives { self.old.long ≡ false → (pushed : List ℕ) (given : List Row)
            → HasReadLimited self.old pushed given
            → AnswersNext Memory
            (text_reading self.new.reader.options self.new.reader.columns pushed) given
            (text_ending self.new.reader.stage self.new.reader.kept) (as_text result) }
        ensures judges { self.old.long ≡ false → (pushed : List ℕ) (given : List Row)
            → HasReadLimited self.old pushed given → JudgesLine self.new pushed result }
        ensures long { self.old.long ≡ true → (result ≡ Err LongLine) × (self.new ≡ self.old) }
        ensures limit { self.new.limit ≡ self.old.limit }
        ensures options { self.new.reader.options ≡ self.old.reader.options }
        ensures columns { self.new.reader.columns ≡ self.old.reader.columns }
        ensures ended { self.new.reader.ended ≡ false }
        ensures fewer { (row : Row) → result ≡ Ok (Some row)
            → length self.new.reader.kept < length self.old.reader.kept }
        ensures memory { result ≡ Err (Text Memory)
            → (self.new ≡ self.old) × RowWaits (text_left self.old.reader []) }
    {
        one_split();
        if self.long {
            return Err(LimitedTextFault::LongLine);
        }
        let found = self.reader.next();
        self.judge(found)
    }

    /// Says that the input has ended, and gives the next row that is left, or None where none is. Call it until it returns None. The last line is
    /// then whole, and isn't rejected for its length. A fault that was found is returned again. Memory is returned only where a row is left, and
    /// leaves the reader unchanged (PostgreSQL documentation, page COPY, "Text Format").
    pub fn finish(&mut self) -> Result<Option<Row>, LimitedTextFault>
        ensures read { (pushed : List ℕ) (given : List Row) → HasReadLimited self.old pushed given
            → HasReadLimited self.new pushed (given ++ given_by (as_text result)) }
        ensures gives { self.old.long ≡ false → (pushed : List ℕ) (given : List Row)
            → HasReadLimited self.old pushed given
            → AnswersNext Memory
            (text_file_reading self.new.reader.options self.new.reader.columns pushed) given
            (last_text_ending self.new.reader.stage) (as_text result) }
        ensures whole { self.old.long ≡ false → result ≡ Err LongLine → ⊥ }
        ensures long { self.old.long ≡ true → (result ≡ Err LongLine) × (self.new ≡ self.old) }
        ensures goes_on { self.new.long ≡ self.old.long }
        ensures limit { self.new.limit ≡ self.old.limit }
        ensures options { self.new.reader.options ≡ self.old.reader.options }
        ensures columns { self.new.reader.columns ≡ self.old.reader.columns }
        ensures ended { self.old.long ≡ false
            → (result ≡ Err (Text Memory)) ⊎ (self.new.reader.ended ≡ true) }
        ensures fewer { (row : Row) → result ≡ Ok (Some row)
            → length self.new.reader.kept < length self.old.reader.kept }
        ensures memory { result ≡ Err (Text Memory)
            → (self.new ≡ self.old) × RowWaits (text_last self.old.reader) }
    {
        if self.long {
            return Err(LimitedTextFault::LongLine);
        }
        let found = self.reader.finish();
        limited(found)
    }

    // Whether more bytes were pushed than the limit after those of the rows that were given, and no end mark was read.
    fn is_long(&self) -> bool
        ensures { result ≡ is_long self.now }
    {
        !self.reader.done() && self.pushed.saturating_sub(self.reader.offset()) > self.limit as u64
    }

    // What `next` returns where the reader without the limit returned this. Where that found no row, the next line is judged.
    fn judge(
        &mut self,
        found: Result<Option<Row>, TextFault>,
    ) -> Result<Option<Row>, LimitedTextFault>
        ensures answer { result ≡ judged (is_long self.old) found }
        ensures state { self.new ≡ after_judging self.old found }
    {
        match found {
            Ok(None) => {
                self.long = self.is_long();
                if self.long {
                    Err(LimitedTextFault::LongLine)
                } else {
                    Ok(None)
                }
            }
            _ => limited(found),
        }
    }
}

// What is returned where the reader without the limit returned this, and no line is too long.
fn limited(found: Result<Option<Row>, TextFault>) -> Result<Option<Row>, LimitedTextFault>
    ensures { result ≡ limited found }
{
    match found {
        Ok(row) => Ok(row),
        Err(fault) => Err(LimitedTextFault::Text(fault)),
    }
}
