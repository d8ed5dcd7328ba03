//! The readers of both formats, as the loops of a caller see them.

ghost use Rattle.std.specs.Prelude.{◌≡◌, ◌<◌, ℕ, Bool, Ok, Some, true, false, length, OnOk};
ghost use Rattle.pg_copy.specs.Row.{Row};

use pg_copy::{BinaryFault, BinaryReader, Row, TextFault, TextReader};
use std::alloc::Global;
use std::error::Error;

/// How many columns the files have.
pub const COLUMNS: u16 = 3;

/// The longest value that is read of a binary file.
pub const LIMIT: u32 = 65_536;

/// A reader of either format. Each row that it gives leaves fewer bytes to be read.
pub trait CopyReader: Drop {
    /// What stands in the place of a row.
    type ReaderFault: Error;

    // whether the input has ended
    ghost has_ended: { Self → Bool };

    // how many bytes are kept
    ghost kept: { Self → ℕ };

    // It has the width and the limit of these files.
    ghost has_width: { Self → Type 0 };

    /// Nothing was read yet.
    fn begin(alloc: Global) -> Self
    where
        Self: Sized,
        ensures begun { has_ended result ≡ false }
        ensures width { has_width result };

    /// Whether the input has ended.
    fn ended(&self) -> bool
        ensures { result ≡ has_ended self.now };

    /// Takes the next piece.
    fn push(&mut self, piece: &[u8]) -> Result<(), Self::ReaderFault>
        requires { has_ended self.old ≡ false }
        ensures { OnOk result (has_ended self.new ≡ false) };

    /// The next row that waits.
    fn next(&mut self) -> Result<Option<Row>, Self::ReaderFault>
        requires { has_ended self.old ≡ false }
        ensures ended { has_ended self.new ≡ false }
        ensures fewer { (row : Row) → result ≡ Ok (Some row) → kept self.new < kept self.old };

    /// Whether a next row waits, which is lent.
    fn next_lent(&mut self) -> Result<bool, Self::ReaderFault>
        requires { has_ended self.old ≡ false }
        ensures ended { has_ended self.new ≡ false }
        ensures fewer { result ≡ Ok true → kept self.new < kept self.old };

    /// The next row that is left at the end of the input.
    fn finish(&mut self) -> Result<Option<Row>, Self::ReaderFault>
        ensures { (row : Row) → result ≡ Ok (Some row) → kept self.new < kept self.old };

    /// Whether a fault is that memory was refused.
    fn is_memory(fault: &Self::ReaderFault) -> bool;
}

impl CopyReader for TextReader {
    type ReaderFault = TextFault;

    ghost has_ended = { λ reader. reader.ended };

    ghost kept = { λ reader. length reader.kept };

    ghost has_width = { λ reader. reader.columns ≡ Some 3 };

    fn begin(alloc: Global) -> TextReader {
        TextReader::new(alloc, Some(COLUMNS))
    }

    fn ended(&self) -> bool {
        TextReader::ended(self)
    }

    fn push(&mut self, piece: &[u8]) -> Result<(), TextFault> {
        match TextReader::push(self, piece) {
            Ok(()) => Ok(()),
            Err(fault) => Err(fault),
        }
    }

    fn next(&mut self) -> Result<Option<Row>, TextFault> {
        TextReader::next(self)
    }

    fn next_lent(&mut self) -> Result<bool, TextFault> {
        TextReader::next_lent(self)
    }

    fn finish(&mut self) -> Result<Option<Row>, TextFault> {
        TextReader::finish(self)
    }

    fn is_memory(fault: &TextFault) -> bool {
        matches!(fault, TextFault::Memory)
    }
}

impl CopyReader for BinaryReader {
    type ReaderFault = BinaryFault;

    ghost has_ended = { λ reader. reader.ended };

    ghost kept = { λ reader. length reader.kept };

    ghost has_width = { λ reader. (reader.columns ≡ 3) × (reader.limit ≡ 65536) };

    fn begin(alloc: Global) -> BinaryReader {
        BinaryReader::new(alloc, COLUMNS, LIMIT)
    }

    fn ended(&self) -> bool {
        BinaryReader::ended(self)
    }

    fn push(&mut self, piece: &[u8]) -> Result<(), BinaryFault> {
        match BinaryReader::push(self, piece) {
            Ok(()) => Ok(()),
            Err(fault) => Err(fault),
        }
    }

    fn next(&mut self) -> Result<Option<Row>, BinaryFault> {
        BinaryReader::next(self)
    }

    fn next_lent(&mut self) -> Result<bool, BinaryFault> {
        BinaryReader::next_lent(self)
    }

    fn finish(&mut self) -> Result<Option<Row>, BinaryFault> {
        BinaryReader::finish(self)
    }

    fn is_memory(fault: &BinaryFault) -> bool {
        matches!(fault, BinaryFault::Memory)
    }
}
