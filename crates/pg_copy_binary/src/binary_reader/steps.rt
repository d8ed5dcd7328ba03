//! The steps of a reader's calls: finding the next part of the file, and taking or lending its row.

ghost use Rattle.std.specs.Prelude.{◌≡◌, None, Err, [], true, IfOk};
ghost use Rattle.pg_copy_rows.specs.declared.fault.BinaryFault.TheVariants.{Memory};
ghost use Rattle.pg_copy_binary.specs.declared.binary_reader.BinaryStage.TheVariants.{Head};
ghost use Rattle.pg_copy_binary.specs.declared.binary_reader.BinaryStage.TheVariants.{Extension};
ghost use Rattle.pg_copy_binary.specs.declared.binary_reader.BinaryStage.TheVariants.{Closed};
ghost use Rattle.pg_copy_binary.specs.declared.binary_reader.BinaryStage.TheVariants.{Failed};
ghost use Rattle.pg_copy_rows.specs.Row.{Row};
ghost use Rattle.pg_copy_binary.specs.BinaryPart.{Incomplete, fixed_at, head_at};
ghost use Rattle.pg_copy_binary.specs.BinaryReader.{PushesBinary, IsReading, rows_begin};
ghost use Rattle.pg_copy_binary.specs.Private.BinaryPart.{IsRowAt, HasRowAt, lending, let_go};
ghost use Rattle.pg_copy_binary.specs.Private.BinaryPart.{start_offset, TakesPart, FindsNext};
ghost use Rattle.pg_copy_binary.specs.Private.BinaryPart.{LendsLast, stage_of, extension_left};
ghost use Rattle.pg_copy_binary.specs.Private.BinaryPart.{in_extension};

use crate::binary_part::{
    Look, NoPart, NoRow, Place, RowOrTrailer, extension_left, find_part, values_of,
};
use crate::binary_reader::{BinaryReader, BinaryStage};
use pg_copy_rows::counts::{later, one_more};
use pg_copy_rows::{BinaryFault, Row};
use std::alloc::AllocError;

// Where the row begins that stands so many bytes after the first of those that are kept. Only a head may stand before it.
fn start_offset(offset: u64, start: usize) -> u64
    ensures { result ≡ start_offset offset start }
{
    if start > 0 { start as u64 } else { offset }
}

impl BinaryReader {
    // Drops what a piece has of the extension, and keeps what stands after it.
    pub(super) fn skip(&mut self, missing: u32, piece: &[u8]) -> Result<(), BinaryFault>
        requires { self.old.stage ≡ Extension missing }
        ensures { PushesBinary self.old piece.now result self.new }
    {
        if piece.len() < missing as usize {
            self.stage = BinaryStage::Extension(missing - piece.len() as u32);
            return Ok(());
        }
        let (_, rest) = piece.split_at(missing as usize);
        match self.buffer.push(rest) {
            Ok(()) => {
                self.stage = BinaryStage::Rows;
                Ok(())
            }
            Err(_) => Err(BinaryFault::Memory),
        }
    }

    // Takes the next part of the file.
    pub(super) fn read(&mut self) -> Result<Option<Row>, NoRow>
        requires { IsReading self.old.stage }
        ensures { TakesPart result self.old self.new }
    {
        match self.find() {
            Ok(None) => Ok(None),
            Ok(Some(place)) => match self.copy_row(place) {
                Ok(row) => {
                    self.hold(place);
                    self.let_go();
                    Ok(Some(row))
                }
                Err(_) => Err(NoRow::Memory),
            },
            Err(stop) => Err(NoRow::NoPart(stop)),
        }
    }

    // Lends the next row that is left at the end of the input, or takes the trailer.
    pub(super) fn lend_last(&mut self) -> Result<bool, BinaryFault>
        requires { IsReading self.old.stage }
        ensures { LendsLast result self.old self.new }
    {
        match self.find() {
            Ok(None) => Ok(false),
            Ok(Some(place)) => {
                self.hold(place);
                Ok(true)
            }
            Err(NoPart::Incomplete) => {
                self.stop(BinaryFault::Truncated);
                Err(BinaryFault::Truncated)
            }
            Err(NoPart::Faulty(fault)) => Err(fault),
        }
    }

    // Finds the next row, or takes the trailer.
    pub(super) fn find(&mut self) -> Result<Option<Place>, NoPart>
        requires { IsReading self.old.stage }
        ensures { FindsNext result self.old self.new }
    {
        if let BinaryStage::Extension(_) = self.stage {
            return Err(NoPart::Incomplete);
        }
        let in_head = self.stage == BinaryStage::Head;
        self.find_row(in_head)
    }

    // Finds a row, or takes the trailer; the head may stand in front of it. Where neither is whole, a head that is whole is taken off alone, so that
    // it isn't kept until the first row has come. So is a head that lacks only bytes of its extension.
    fn find_row(&mut self, in_head: bool) -> Result<Option<Place>, NoPart>
        requires { self.old.stage ≡ stage_of in_head }
        ensures { FindsNext result self.old self.new }
    {
        let bytes = self.buffer.kept();
        match find_part(in_head, self.columns, self.limit, bytes, &mut self.look) {
            Ok(RowOrTrailer::Row) => Ok(Some(Place {
                start: self.look.start,
                end: self.look.start + self.look.walk.at,
            })),
            Ok(RowOrTrailer::Trailer) => {
                self.offset = start_offset(self.offset, self.look.start);
                self.close();
                Ok(None)
            }
            Err(NoPart::Incomplete) => {
                if self.look.start > 0 {
                    self.offset = self.look.start as u64;
                    self.buffer.take(self.look.start);
                    self.look.start = 0;
                    self.stage = BinaryStage::Rows;
                } else if in_head {
                    self.enter_extension();
                } else {
                    self.buffer.take(0);
                }
                Err(NoPart::Incomplete)
            }
            Err(NoPart::Faulty(fault)) => {
                self.offset = start_offset(self.offset, self.look.start);
                self.stop(fault);
                Err(NoPart::Faulty(fault))
            }
        }
    }

    // A copy of the row that was found at this place.
    fn copy_row(&self, place: Place) -> Result<Row, AllocError>
        requires { HasRowAt self.now place }
        ensures { IfOk result (λ row. IsRowAt self.now place row) }
    {
        let (_, values) = self.buffer.kept().split_at(place.start + 2);
        // a length of four bytes stands in front of each value
        let lengths = 2 + 4 * usize::from(self.columns);
        let size = (place.end - place.start).saturating_sub(lengths);
        values_of(self.alloc, self.limit, self.columns, size, values)
    }

    // Takes the row that was found at this place, and lends it.
    pub(super) fn hold(&mut self, place: Place)
        requires { HasRowAt self.old place }
        ensures { (row : Row) → IsRowAt self.old place row
            → self.new ≡ lending row place self.old }
    {
        self.buffer.hold(place.start + 2, place.end);
        let start = start_offset(self.offset, place.start);
        self.offset = later(start, place.end - place.start);
        self.look = Look::start();
        self.stage = BinaryStage::Rows;
        self.given = one_more(self.given);
    }

    // Lends no row any more.
    fn let_go(&mut self)
        ensures { self.new ≡ let_go self.old }
    {
        self.buffer.take(0);
    }

    // Takes a head off that lacks only bytes of its extension.
    fn enter_extension(&mut self)
        requires stage { self.old.stage ≡ Head }
        requires open { head_at self.old.kept ≡ Err Incomplete }
        ensures { self.new ≡ in_extension (extension_left (fixed_at self.old.kept))
            (record self.old { held = None; offset = rows_begin self.old.offset (fixed_at self.old.kept) }) }
    {
        let kept = self.buffer.kept();
        if let Some(missing) = extension_left(kept) {
            self.offset = kept.len() as u64 + u64::from(missing);
            self.buffer.clear();
            self.look = Look::start();
            self.stage = BinaryStage::Extension(missing);
        }
    }

    // The trailer was read, and nothing stands after it.
    fn close(&mut self)
        ensures { self.new ≡ record self.old { kept = []; stage = Closed; held = None } }
    {
        self.buffer.clear();
        self.look = Look::start();
        self.stage = BinaryStage::Closed;
    }

    // Reads no more.
    pub(super) fn stop(&mut self, fault: BinaryFault)
        requires { fault ≡ Memory → ⊥ }
        ensures { self.new ≡ record self.old { kept = []; stage = Failed fault; held = None } }
    {
        self.buffer.clear();
        self.look = Look::start();
        self.stage = BinaryStage::Failed(fault);
    }

    // The input has ended.
    pub(super) fn end(&mut self)
        ensures { self.new ≡ record self.old { ended = true } }
    {
        self.ended = true;
    }
}
