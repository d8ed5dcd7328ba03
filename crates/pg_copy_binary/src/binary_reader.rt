//! Reading a binary file that comes in pieces.

mod steps;

ghost use Rattle.std.specs.Prelude.{◌≡◌, ◌+◌, ◌++◌, ◌≤◌, ◌<◌, ◌↔◌, ◌⊎◌, ℕ, List, length, None, Ok};
ghost use Rattle.std.specs.Prelude.{Err, [], true, false, IsTrue, OnOk};
ghost use Rattle.pg_copy_rows.specs.declared.fault.BinaryFault.{BinaryFault};
ghost use Rattle.pg_copy_rows.specs.declared.fault.BinaryFault.TheVariants.{Memory};
ghost use Rattle.pg_copy_binary.specs.declared.binary_reader.BinaryStage.TheVariants.{Head, Rows};
ghost use Rattle.pg_copy_binary.specs.declared.binary_reader.BinaryStage.TheVariants.{Closed};
ghost use Rattle.pg_copy_binary.specs.declared.binary_reader.BinaryStage.TheVariants.{Failed};
ghost use Rattle.pg_copy_rows.specs.Row.{Row};
ghost use Rattle.pg_copy_rows.specs.Reading.{RowWaits, given_by, AnswersNext, given_after};
ghost use Rattle.pg_copy_binary.specs.BinaryPart.{binary_reading, binary_file_reading};
ghost use Rattle.pg_copy_binary.specs.BinaryReader.{HasReadBinary, PushesBinary, WaitsWith};
ghost use Rattle.pg_copy_binary.specs.BinaryReader.{binary_left, binary_ending};
ghost use Rattle.pg_copy_rows.specs.Lent.{as_next, Lends};

use crate::binary_part::{Look, NoPart, NoRow};
use crate::binary_row::BinaryRow;
use pg_copy_rows::row_buffer::RowBuffer;
use pg_copy_rows::{BinaryFault, Row};
use std::alloc::Global;
use std::marker::Model;

/// Where a reader of a binary file stands.
#[derive(Clone, Copy, Debug, Drop, PartialEq, Eq)]
pub enum BinaryStage {
    /// At the head, or at the first row after it.
    Head,
    /// In the head's extension, of which so many bytes are to come, 1 to 2,147,483,647.
    Extension(u32),
    /// At a row, or at the trailer.
    Rows,
    /// After the trailer.
    Closed,
    /// At a fault, which is not Memory.
    Failed(BinaryFault),
}

/// Takes a binary file in any pieces, and gives exactly its rows.
///
/// `push` keeps a piece. `next` gives the rows that are whole, one by one, and `finish` those that are left at the end of the input. `next_lent` and
/// `finish_lent` lend each row in place of that. The trailer must have come by then, and no byte may stand after it. The length -1 is a null. A fault
/// takes the place of its row, and each later call returns it.
///
/// The flags that a reader need not know and the header's extension are skipped. The extension's bytes are dropped as they come. So no more is kept
/// than a row until it is whole, and what was pushed since `next` was last called. A row is looked over once, however the pieces are cut, and its
/// values are copied once it is whole (PostgreSQL documentation, page COPY, "Binary Format").
#[derive(Drop)]
pub struct BinaryReader {
    alloc: Global,
    columns: u16,
    limit: u32,
    buffer: RowBuffer,
    // how far the next part was looked over
    look: Look,
    stage: BinaryStage,
    ended: bool,
    given: u64,
    offset: u64,
}

impl Model for BinaryReader {
    ghost use Rattle.pg_copy_binary.specs.BinaryReader.{BinaryState};
    ghost use Rattle.pg_copy_binary.specs.Private.BinaryPart.{IsBinaryReader};
    ghost use Rattle.pg_copy_binary.specs.Private.BinaryRow.{held_row};

    ghost Value = { BinaryState };

    ghost view = { λ r. record {
      columns = r.columns;
      limit = r.limit;
      kept = r.buffer.kept;
      stage = r.stage;
      ended = r.ended;
      given = r.given;
      held = held_row r.columns r.limit r.buffer.front;
      offset = r.offset;
    } };

    ghost invariant = { λ r. IsBinaryReader r.columns r.limit r.buffer r.look r.stage };
}

impl BinaryReader {
    /// A reader of rows of so many columns, 1 to 32,767, with values of at most `limit` bytes, 1 to 2,147,483,647.
    pub fn new(alloc: Global, columns: u16, limit: u32) -> Self
        requires columns { (0 < columns) × (columns ≤ 32767) }
        requires limit { (0 < limit) × (limit ≤ 2147483647) }
        ensures state { result
            ≡ record { columns = columns; limit = limit; kept = []; stage = Head; ended = false; given = 0; held = None; offset = 0 } }
        ensures read { HasReadBinary result [] [] }
    {
        BinaryReader {
            alloc,
            columns,
            limit,
            buffer: RowBuffer::new(alloc),
            look: Look::start(),
            stage: BinaryStage::Head,
            ended: false,
            given: 0,
            offset: 0,
        }
    }

    /// Whether the trailer was read, and no byte was pushed after it.
    pub fn done(&self) -> bool
        ensures { IsTrue result ↔ (self.now.stage ≡ Closed) }
    {
        self.stage == BinaryStage::Closed
    }

    /// Whether `finish` or `finish_lent` was called; a call that returned Memory doesn't count. Once one was, no more may be pushed, and neither
    /// `next` nor `next_lent` may be called.
    pub fn ended(&self) -> bool
        ensures { result ≡ self.now.ended }
    {
        self.ended
    }

    /// How many rows were given. A fault stands in the place of the row after these. The number stays at `u64::MAX`.
    pub fn rows_given(&self) -> u64
        ensures { result ≡ self.now.given }
    {
        self.given
    }

    /// Where in the file the next row begins: how many bytes stand before it, those of the head and of the rows that were given. After a fault it is
    /// where the row begins in whose place the fault stands, or 0 where that is the head. Within the header's extension it is where the first row
    /// will begin. The number stays at `u64::MAX`.
    pub fn offset(&self) -> u64
        ensures { result ≡ self.now.offset }
    {
        self.offset
    }

    /// Takes the next piece of the file, all of it. Bytes of the header's extension are dropped, once a call of `next` has found that nothing else of
    /// the head is to come. After the trailer nothing is kept: a byte is a fault, which the next call returns. A fault that was found is returned
    /// again.
    ///
    /// After Memory nothing of the piece was taken, and the reader is unchanged. A piece of which nothing is kept needs no memory: one without bytes,
    /// one within the extension, or one after the trailer.
    pub fn push(&mut self, piece: &[u8]) -> Result<(), BinaryFault>
        requires { self.old.ended ≡ false }
        ensures call { PushesBinary self.old piece.now result self.new }
        ensures read { OnOk result ((pushed : List ℕ) (given : List Row)
            → HasReadBinary self.old pushed given
            → HasReadBinary self.new (pushed ++ piece.now) given) }
    {
        match self.stage {
            BinaryStage::Failed(fault) => Err(fault),
            BinaryStage::Closed => {
                if !piece.is_empty() {
                    self.stage = BinaryStage::Failed(BinaryFault::AfterTrailer);
                }
                Ok(())
            }
            BinaryStage::Extension(missing) => self.skip(missing, piece),
            BinaryStage::Head | BinaryStage::Rows => match self.buffer.push(piece) {
                Ok(()) => Ok(()),
                Err(_) => Err(BinaryFault::Memory),
            },
        }
    }

    /// The next row, or None where no whole row waits or the trailer was read. A fault is returned once all rows before it were given, and by each
    /// call after that. Memory is returned only where a row waits, and leaves the reader unchanged.
    ///
    /// Where it returns None, at most 18 bytes of a head are kept, and none of its extension. Where it gives a row, fewer bytes are kept, so that a
    /// loop over the rows comes to its end (PostgreSQL documentation, page COPY, "Binary Format").
    pub fn next(&mut self) -> Result<Option<Row>, BinaryFault>
        requires { self.old.ended ≡ false }
        ensures read { (pushed : List ℕ) (given : List Row) → HasReadBinary self.old pushed given
            → HasReadBinary self.new pushed (given ++ given_by result) }
        ensures gives { (pushed : List ℕ) (given : List Row) → HasReadBinary self.old pushed given
            → AnswersNext Memory (binary_reading self.new.columns self.new.limit pushed) given
            (binary_ending self.new.stage self.new.kept) result }
        ensures same { (self.new.columns ≡ self.old.columns) × (self.new.limit ≡ self.old.limit) }
        ensures ended { self.new.ended ≡ false }
        ensures row { (row : Row) → result ≡ Ok (Some row) → self.new.stage ≡ Rows }
        ensures given { self.new.given ≡ given_after self.old.given (given_by result) }
        ensures fewer { (row : Row) → result ≡ Ok (Some row)
            → length self.new.kept < length self.old.kept }
        ensures waits { result ≡ Ok None → WaitsWith self.new.stage self.new.kept }
        ensures failed { (fault : BinaryFault) → self.old.stage ≡ Failed fault
            → (result ≡ Err fault) × (self.new ≡ self.old) }
        ensures closed { self.old.stage ≡ Closed → (result ≡ Ok None) × (self.new ≡ self.old) }
        ensures held { result ≡ Err Memory ⊎ self.new.held ≡ None }
        ensures memory { result ≡ Err Memory
            → (self.new ≡ self.old) × RowWaits (binary_left self.old []) }
    {
        match self.stage {
            BinaryStage::Failed(fault) => Err(fault),
            BinaryStage::Closed => Ok(None),
            BinaryStage::Head | BinaryStage::Extension(_) | BinaryStage::Rows => match self.read() {
                Ok(row) => Ok(row),
                Err(NoRow::Memory) => Err(BinaryFault::Memory),
                Err(NoRow::NoPart(NoPart::Incomplete)) => Ok(None),
                Err(NoRow::NoPart(NoPart::Faulty(fault))) => Err(fault),
            },
        }
    }

    /// Whether a next row waits. It counts as given, and [`BinaryReader::held`] lends it until the next change of the reader, which keeps its bytes
    /// until then. A fault is returned as `next` returns it, and no memory is taken (PostgreSQL documentation, page COPY, "Binary Format").
    pub fn next_lent(&mut self) -> Result<bool, BinaryFault>
        requires { self.old.ended ≡ false }
        ensures read { (pushed : List ℕ) (given : List Row) → HasReadBinary self.old pushed given
            → HasReadBinary self.new pushed (given ++ given_by (as_next result self.new.held)) }
        ensures gives { (pushed : List ℕ) (given : List Row) → HasReadBinary self.old pushed given
            → AnswersNext Memory (binary_reading self.new.columns self.new.limit pushed) given
            (binary_ending self.new.stage self.new.kept) (as_next result self.new.held) }
        ensures same { (self.new.columns ≡ self.old.columns) × (self.new.limit ≡ self.old.limit) }
        ensures ended { self.new.ended ≡ false }
        ensures lends { Lends result self.new.held }
        ensures row { result ≡ Ok true → self.new.stage ≡ Rows }
        ensures given { self.new.given
            ≡ given_after self.old.given (given_by (as_next result self.new.held)) }
        ensures fewer { result ≡ Ok true → length self.new.kept < length self.old.kept }
        ensures waits { result ≡ Ok false → WaitsWith self.new.stage self.new.kept }
        ensures failed { (fault : BinaryFault) → self.old.stage ≡ Failed fault
            → (result ≡ Err fault) × (self.new ≡ self.old) }
        ensures closed { self.old.stage ≡ Closed → (result ≡ Ok false) × (self.new ≡ self.old) }
        ensures memory { result ≡ Err Memory → ⊥ }
    {
        match self.stage {
            BinaryStage::Failed(fault) => Err(fault),
            BinaryStage::Closed => Ok(false),
            BinaryStage::Head | BinaryStage::Extension(_) | BinaryStage::Rows => {
                match self.find() {
                    Ok(Some(place)) => {
                        self.hold(place);
                        Ok(true)
                    }
                    Ok(None) => Ok(false),
                    Err(NoPart::Incomplete) => Ok(false),
                    Err(NoPart::Faulty(fault)) => Err(fault),
                }
            }
        }
    }

    /// The row for which the last call of `next_lent` or `finish_lent` returned true. It is None after any other call that changes the reader, except
    /// one that returned Memory. It takes no memory.
    pub fn held(&self) -> Option<BinaryRow<'_>>
        ensures { result ≡ self.now.held }
    {
        match self.buffer.front() {
            Some(values) => Some(BinaryRow::of_values(self.limit, self.columns, values)),
            None => None,
        }
    }

    /// Says that the input has ended, and gives the next row that is left. None: no row is left, and the trailer was read. Truncated: no row is left,
    /// and the trailer wasn't read. Call it until it returns None. Memory is returned only where a row is left, and leaves the reader unchanged
    /// (PostgreSQL documentation, page COPY, "Binary Format").
    pub fn finish(&mut self) -> Result<Option<Row>, BinaryFault>
        ensures read { (pushed : List ℕ) (given : List Row) → HasReadBinary self.old pushed given
            → HasReadBinary self.new pushed (given ++ given_by result) }
        ensures gives { (pushed : List ℕ) (given : List Row) → HasReadBinary self.old pushed given
            → AnswersNext Memory (binary_file_reading self.new.columns self.new.limit pushed) given
            (binary_ending self.new.stage self.new.kept) result }
        ensures same { (self.new.columns ≡ self.old.columns) × (self.new.limit ≡ self.old.limit) }
        ensures ended { result ≡ Err Memory ⊎ self.new.ended ≡ true }
        ensures row { (row : Row) → result ≡ Ok (Some row) → self.new.stage ≡ Rows }
        ensures given { self.new.given ≡ given_after self.old.given (given_by result) }
        ensures fewer { (row : Row) → result ≡ Ok (Some row)
            → length self.new.kept < length self.old.kept }
        ensures failed { (fault : BinaryFault) → self.old.stage ≡ Failed fault
            → (result ≡ Err fault) × (self.new ≡ record self.old { ended = true }) }
        ensures closed { self.old.stage ≡ Closed
            → (result ≡ Ok None) × (self.new ≡ record self.old { ended = true }) }
        ensures trailer { result ≡ Ok None → self.new.stage ≡ Closed }
        ensures held { result ≡ Err Memory ⊎ self.new.held ≡ None }
        ensures memory { result ≡ Err Memory
            → (self.new ≡ self.old) × RowWaits (binary_left self.old []) }
    {
        match self.stage {
            BinaryStage::Failed(fault) => {
                self.ended = true;
                Err(fault)
            }
            BinaryStage::Closed => {
                self.ended = true;
                Ok(None)
            }
            BinaryStage::Head | BinaryStage::Extension(_) | BinaryStage::Rows => match self.read() {
                Ok(row) => {
                    self.end();
                    Ok(row)
                }
                Err(NoRow::Memory) => Err(BinaryFault::Memory),
                Err(NoRow::NoPart(NoPart::Incomplete)) => {
                    self.stop(BinaryFault::Truncated);
                    self.end();
                    Err(BinaryFault::Truncated)
                }
                Err(NoRow::NoPart(NoPart::Faulty(fault))) => {
                    self.end();
                    Err(fault)
                }
            },
        }
    }

    /// Says that the input has ended, and returns whether a row is left. It counts as given, and [`BinaryReader::held`] lends it until the next change
    /// of the reader. Call it until it returns false, which says that the trailer was read. A fault is returned as `finish` returns it, and no memory
    /// is taken (PostgreSQL documentation, page COPY, "Binary Format").
    pub fn finish_lent(&mut self) -> Result<bool, BinaryFault>
        ensures read { (pushed : List ℕ) (given : List Row) → HasReadBinary self.old pushed given
            → HasReadBinary self.new pushed (given ++ given_by (as_next result self.new.held)) }
        ensures gives { (pushed : List ℕ) (given : List Row) → HasReadBinary self.old pushed given
            → AnswersNext Memory (binary_file_reading self.new.columns self.new.limit pushed) given
            (binary_ending self.new.stage self.new.kept) (as_next result self.new.held) }
        ensures same { (self.new.columns ≡ self.old.columns) × (self.new.limit ≡ self.old.limit) }
        ensures ended { self.new.ended ≡ true }
        ensures lends { Lends result self.new.held }
        ensures row { result ≡ Ok true → self.new.stage ≡ Rows }
        ensures given { self.new.given
            ≡ given_after self.old.given (given_by (as_next result self.new.held)) }
        ensures fewer { result ≡ Ok true → length self.new.kept < length self.old.kept }
        ensures failed { (fault : BinaryFault) → self.old.stage ≡ Failed fault
            → (result ≡ Err fault) × (self.new ≡ record self.old { ended = true }) }
        ensures closed { self.old.stage ≡ Closed
            → (result ≡ Ok false) × (self.new ≡ record self.old { ended = true }) }
        ensures trailer { result ≡ Ok false → self.new.stage ≡ Closed }
        ensures memory { result ≡ Err Memory → ⊥ }
    {
        match self.stage {
            BinaryStage::Failed(fault) => {
                self.ended = true;
                Err(fault)
            }
            BinaryStage::Closed => {
                self.ended = true;
                Ok(false)
            }
            BinaryStage::Head | BinaryStage::Extension(_) | BinaryStage::Rows => {
                let lent = self.lend_last();
                self.end();
                lent
            }
        }
    }
}
