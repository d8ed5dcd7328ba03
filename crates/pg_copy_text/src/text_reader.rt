//! Reading a text file that comes in pieces.

mod steps;

ghost use Rattle.std.specs.Prelude.{◌≡◌, ◌++◌, ◌≤◌, ◌+◌, ◌<◌, ◌↔◌, ℕ, List, Some, None, Ok, Err};
ghost use Rattle.std.specs.Prelude.{[], true, false, length, IsTrue, OnOk, IfSome, ◌⊎◌};
ghost use Rattle.pg_copy_rows.specs.declared.fault.TextFault.{TextFault};
ghost use Rattle.pg_copy_rows.specs.declared.fault.TextFault.TheVariants.{Memory};
ghost use Rattle.pg_copy_text.specs.declared.text_stage.TextStage.TheVariants.{Lines, Marked};
ghost use Rattle.pg_copy_text.specs.declared.text_stage.TextStage.TheVariants.{Failed};
ghost use Rattle.pg_copy_rows.specs.Row.{Row};
ghost use Rattle.pg_copy_rows.specs.Reading.{RowWaits, given_by, given_after, AnswersNext};
ghost use Rattle.pg_copy_text.specs.Text.{default_options, text_reading, text_file_reading};
ghost use Rattle.pg_copy_rows.specs.Lent.{as_next, Lends};
ghost use Rattle.pg_copy_text.specs.TextReader.{HasReadText, PushesText, text_begun, text_left};
ghost use Rattle.pg_copy_text.specs.TextReader.{text_last, text_ending, last_text_ending};

use crate::line_end::LineEnd;
use crate::scan::Scan;
use crate::text_options::TextOptions;
use crate::text_row::TextRow;
use crate::text_stage::TextStage;
use pg_copy_rows::row_buffer::RowBuffer;
use pg_copy_rows::{Row, TextFault};
use std::alloc::Global;
use std::marker::Model;

/// Takes a text file in any pieces, and gives exactly its rows.
///
/// `push` keeps a piece. `next` gives the rows of the lines that are closed, one by one, and `finish` those that are left at the end of the input.
/// `next_lent` and `finish_lent` lend each row in place of that. A fault takes the place of its row, and each later call returns it. The line `\.`
/// ends the rows, and what follows it is dropped.
///
/// All lines end alike: by a newline, by a return, or by a return and a newline directly after it. The first newline or return that isn't escaped
/// decides which. While that is a return and is the last byte, its line isn't whole. Each byte is walked over once to find where its line ends,
/// however the pieces are cut (PostgreSQL documentation, page COPY, "Text Format").
#[derive(Drop)]
pub struct TextReader {
    alloc: Global,
    options: TextOptions,
    columns: Option<u16>,
    // how the lines of the rows that were given ended
    line_end: Option<LineEnd>,
    buffer: RowBuffer,
    // how far the first line of the buffer was walked over, and the cuts that were noted
    scan: Scan,
    cuts: Vec<usize>,
    // the cuts of the row that is lent
    held_cuts: Vec<usize>,
    stage: TextStage,
    ended: bool,
    given: u64,
    offset: u64,
}

impl Model for TextReader {
    ghost use Rattle.pg_copy_text.specs.TextReader.{TextState};
    ghost use Rattle.pg_copy_text.specs.Private.TextLine.{IsTextReader};
    ghost use Rattle.pg_copy_text.specs.Private.TextRow.{held_row};

    ghost Value = { TextState };

    ghost view = { λ r. record {
      options = r.options;
      columns = r.columns;
      line_end = r.line_end;
      kept = r.buffer.kept;
      stage = r.stage;
      ended = r.ended;
      given = r.given;
      offset = r.offset;
      held = held_row r.held_cuts.items r.buffer.front;
    } };

    ghost invariant = { λ r. IsTextReader r.options r.line_end r.buffer r.scan r.cuts.items r.stage
        r.held_cuts.items };
}

impl TextReader {
    /// A reader of rows of so many columns, 1 to 32,767; where None is given, a row may have any number up to 32,767. A tab separates the fields, and
    /// null is `\N`.
    pub fn new(alloc: Global, columns: Option<u16>) -> Self
        requires { IfSome columns (λ n. (0 < n) × (n ≤ 32767)) }
        ensures state { result ≡ text_begun default_options columns }
        ensures read { HasReadText result [] [] }
    {
        TextReader::with_options(alloc, columns, TextOptions::default())
    }

    /// A reader of rows of so many columns, 1 to 32,767; where None is given, a row may have any number up to 32,767. The options' delimiter
    /// separates the fields, and their null mark is a null.
    pub fn with_options(alloc: Global, columns: Option<u16>, options: TextOptions) -> Self
        requires { IfSome columns (λ n. (0 < n) × (n ≤ 32767)) }
        ensures state { result ≡ text_begun options columns }
        ensures read { HasReadText result [] [] }
    {
        TextReader {
            alloc,
            options,
            columns,
            line_end: None,
            buffer: RowBuffer::new(alloc),
            scan: Scan::start(),
            cuts: Vec::new(alloc),
            held_cuts: Vec::new(alloc),
            stage: TextStage::Lines,
            ended: false,
            given: 0,
            offset: 0,
        }
    }

    /// Whether the end mark was read. From then on no row comes, and what is pushed is dropped.
    pub fn done(&self) -> bool
        ensures { IsTrue result ↔ (self.now.stage ≡ Marked) }
    {
        self.stage == TextStage::Marked
    }

    /// Whether `finish` or `finish_lent` was called; a call that returned Memory doesn't count. Once one was, no more may be pushed, and neither
    /// `next` nor `next_lent` may be called.
    pub fn ended(&self) -> bool
        ensures { result ≡ self.now.ended }
    {
        self.ended
    }

    /// How many rows were given. A fault stands in the place of the row after these. The number stays at `u64::MAX`.
    pub fn rows_given(&self) -> u64
        ensures { result ≡ self.now.given }
    {
        self.given
    }

    /// Where in the file the next line begins: how many bytes stand before it, those of the rows that were given and of their line ends. After a
    /// fault it is where the line with the fault begins, and after the end mark where that begins. The number stays at `u64::MAX`.
    pub fn offset(&self) -> u64
        ensures { result ≡ self.now.offset }
    {
        self.offset
    }

    /// Takes the next piece of the file, all of it, and drops it after the end mark. A fault that was found is returned again. After Memory nothing
    /// of the piece was taken, and the reader is unchanged. A piece without bytes, or one that is dropped, needs no memory.
    pub fn push(&mut self, piece: &[u8]) -> Result<(), TextFault>
        requires { self.old.ended ≡ false }
        ensures call { PushesText self.old piece.now result self.new }
        ensures read { OnOk result ((pushed : List ℕ) (given : List Row)
            → HasReadText self.old pushed given
            → HasReadText self.new (pushed ++ piece.now) given) }
    {
        match self.stage {
            TextStage::Failed(fault) => Err(fault),
            TextStage::Marked => Ok(()),
            TextStage::Lines => match self.buffer.push(piece) {
                Ok(()) => Ok(()),
                Err(_) => Err(TextFault::Memory),
            },
        }
    }

    /// The next row, or None where no whole line waits or the end mark was read. A fault is returned once all rows before it were given, and by each
    /// call after that. Memory is returned only where a row waits, and leaves the reader unchanged. Where it gives a row, fewer bytes are kept, so
    /// that a loop over the rows comes to its end (PostgreSQL documentation, page COPY, "Text Format").
    pub fn next(&mut self) -> Result<Option<Row>, TextFault>
        requires { self.old.ended ≡ false }
        ensures read { (pushed : List ℕ) (given : List Row) → HasReadText self.old pushed given
            → HasReadText self.new pushed (given ++ given_by result) }
        ensures gives { (pushed : List ℕ) (given : List Row) → HasReadText self.old pushed given
            → AnswersNext Memory (text_reading self.new.options self.new.columns pushed) given
            (text_ending self.new.stage self.new.kept) result }
        ensures options { self.new.options ≡ self.old.options }
        ensures columns { self.new.columns ≡ self.old.columns }
        ensures ended { self.new.ended ≡ false }
        ensures row { (row : Row) → result ≡ Ok (Some row) → self.new.stage ≡ Lines }
        ensures given { self.new.given ≡ given_after self.old.given (given_by result) }
        ensures fewer { (row : Row) → result ≡ Ok (Some row)
            → length self.new.kept < length self.old.kept }
        ensures failed { (fault : TextFault) → self.old.stage ≡ Failed fault
            → (result ≡ Err fault) × (self.new ≡ self.old) }
        ensures marked { self.old.stage ≡ Marked → (result ≡ Ok None) × (self.new ≡ self.old) }
        ensures held { result ≡ Err Memory ⊎ self.new.held ≡ None }
        ensures memory { result ≡ Err Memory
            → (self.new ≡ self.old) × RowWaits (text_left self.old []) }
    {
        match self.stage {
            TextStage::Failed(fault) => Err(fault),
            TextStage::Marked => Ok(None),
            TextStage::Lines => {
                let (scan, found) = self.walk();
                match found {
                    Some(end) => self.take_line(scan, scan.at + end.len(), Some(end)),
                    None => {
                        self.let_go();
                        Ok(None)
                    }
                }
            }
        }
    }

    /// Whether a next row waits. It counts as given, and [`TextReader::held`] lends it until the next change of the reader, which keeps its bytes
    /// until then. The text of a field that has an escape takes the field's place.
    ///
    /// A fault is returned as `next` returns it. Memory is returned only where a row waits and there is none to keep where its fields end: eight
    /// bytes for each, which the reader uses again. The reader is then unchanged, but lends no row (PostgreSQL documentation, page COPY,
    /// "Text Format").
    pub fn next_lent(&mut self) -> Result<bool, TextFault>
        requires { self.old.ended ≡ false }
        ensures read { (pushed : List ℕ) (given : List Row) → HasReadText self.old pushed given
            → HasReadText self.new pushed (given ++ given_by (as_next result self.new.held)) }
        ensures gives { (pushed : List ℕ) (given : List Row) → HasReadText self.old pushed given
            → AnswersNext Memory (text_reading self.new.options self.new.columns pushed) given
            (text_ending self.new.stage self.new.kept) (as_next result self.new.held) }
        ensures options { self.new.options ≡ self.old.options }
        ensures columns { self.new.columns ≡ self.old.columns }
        ensures ended { self.new.ended ≡ false }
        ensures lends { Lends result self.new.held }
        ensures row { result ≡ Ok true → self.new.stage ≡ Lines }
        ensures given { self.new.given
            ≡ given_after self.old.given (given_by (as_next result self.new.held)) }
        ensures fewer { result ≡ Ok true → length self.new.kept < length self.old.kept }
        ensures failed { (fault : TextFault) → self.old.stage ≡ Failed fault
            → (result ≡ Err fault) × (self.new ≡ self.old) }
        ensures marked { self.old.stage ≡ Marked → (result ≡ Ok false) × (self.new ≡ self.old) }
        ensures memory { result ≡ Err Memory
            → (self.new ≡ record self.old { held = None }) × RowWaits (text_left self.old []) }
    {
        match self.stage {
            TextStage::Failed(fault) => Err(fault),
            TextStage::Marked => Ok(false),
            TextStage::Lines => {
                let (scan, found) = self.walk();
                match found {
                    Some(end) => self.lend_line(scan, scan.at + end.len(), Some(end)),
                    None => {
                        self.let_go();
                        Ok(false)
                    }
                }
            }
        }
    }

    /// The row for which the last call of `next_lent` or `finish_lent` returned true. It is None after any other call that changes the reader, except
    /// a `push`, `next` or `finish` that returned Memory. It takes no memory.
    pub fn held(&self) -> Option<TextRow<'_>>
        ensures { result ≡ self.now.held }
    {
        match self.buffer.front() {
            Some(bytes) => Some(TextRow::of_cuts(bytes, self.held_cuts.as_slice())),
            None => None,
        }
    }

    /// Says that the input has ended, and gives the next row that is left, or None where none is. Call it until it returns None. The last line need
    /// not be closed; an empty rest is no line. A return at the very end ends its line, where it is the first newline or return that isn't escaped.
    /// Memory is returned only where a row is left, and leaves the reader unchanged (PostgreSQL documentation, page COPY, "Text Format").
    pub fn finish(&mut self) -> Result<Option<Row>, TextFault>
        ensures read { (pushed : List ℕ) (given : List Row) → HasReadText self.old pushed given
            → HasReadText self.new pushed (given ++ given_by result) }
        ensures gives { (pushed : List ℕ) (given : List Row) → HasReadText self.old pushed given
            → AnswersNext Memory (text_file_reading self.new.options self.new.columns pushed) given
            (last_text_ending self.new.stage) result }
        ensures options { self.new.options ≡ self.old.options }
        ensures columns { self.new.columns ≡ self.old.columns }
        ensures ended { result ≡ Err Memory ⊎ self.new.ended ≡ true }
        ensures row { (row : Row) → result ≡ Ok (Some row) → self.new.stage ≡ Lines }
        ensures given { self.new.given ≡ given_after self.old.given (given_by result) }
        ensures fewer { (row : Row) → result ≡ Ok (Some row)
            → length self.new.kept < length self.old.kept }
        ensures failed { (fault : TextFault) → self.old.stage ≡ Failed fault
            → (result ≡ Err fault) × (self.new ≡ record self.old { ended = true }) }
        ensures marked { self.old.stage ≡ Marked
            → (result ≡ Ok None) × (self.new ≡ record self.old { ended = true }) }
        ensures held { result ≡ Err Memory ⊎ self.new.held ≡ None }
        ensures memory { result ≡ Err Memory
            → (self.new ≡ self.old) × RowWaits (text_last self.old) }
    {
        match self.stage {
            TextStage::Failed(fault) => {
                self.ended = true;
                Err(fault)
            }
            TextStage::Marked => {
                self.ended = true;
                Ok(None)
            }
            TextStage::Lines => {
                let answer = self.last_line();
                self.end(&answer);
                answer
            }
        }
    }

    /// Says that the input has ended, and returns whether a row is left. It counts as given, and [`TextReader::held`] lends it until the next change
    /// of the reader, so that a last line that isn't closed is kept once. Call it until it returns false.
    ///
    /// The last line and a fault are those that `finish` returns. Memory is returned only where a row is left and there is none to keep where its
    /// fields end. The reader is then unchanged, but lends no row (PostgreSQL documentation, page COPY, "Text Format").
    pub fn finish_lent(&mut self) -> Result<bool, TextFault>
        ensures read { (pushed : List ℕ) (given : List Row) → HasReadText self.old pushed given
            → HasReadText self.new pushed (given ++ given_by (as_next result self.new.held)) }
        ensures gives { (pushed : List ℕ) (given : List Row) → HasReadText self.old pushed given
            → AnswersNext Memory (text_file_reading self.new.options self.new.columns pushed) given
            (last_text_ending self.new.stage) (as_next result self.new.held) }
        ensures options { self.new.options ≡ self.old.options }
        ensures columns { self.new.columns ≡ self.old.columns }
        ensures ended { result ≡ Err Memory ⊎ self.new.ended ≡ true }
        ensures lends { Lends result self.new.held }
        ensures row { result ≡ Ok true → self.new.stage ≡ Lines }
        ensures given { self.new.given
            ≡ given_after self.old.given (given_by (as_next result self.new.held)) }
        ensures fewer { result ≡ Ok true → length self.new.kept < length self.old.kept }
        ensures failed { (fault : TextFault) → self.old.stage ≡ Failed fault
            → (result ≡ Err fault) × (self.new ≡ record self.old { ended = true }) }
        ensures marked { self.old.stage ≡ Marked
            → (result ≡ Ok false) × (self.new ≡ record self.old { ended = true }) }
        ensures memory { result ≡ Err Memory
            → (self.new ≡ record self.old { held = None }) × RowWaits (text_last self.old) }
    {
        match self.stage {
            TextStage::Failed(fault) => {
                self.ended = true;
                Err(fault)
            }
            TextStage::Marked => {
                self.ended = true;
                Ok(false)
            }
            TextStage::Lines => {
                let lent = self.lend_last();
                self.end(&lent);
                lent
            }
        }
    }
}
