//! Why a file is rejected, or a row (PostgreSQL documentation, page COPY, "Text Format" and "Binary Format").

ghost use Rattle.std.specs.Prelude.{◌≡◌};
ghost use Rattle.pg_copy_rows.specs.declared.fault.TextFault.TheVariants as text;
ghost use Rattle.pg_copy_rows.specs.declared.fault.OptionFault.TheVariants as option;
ghost use Rattle.pg_copy_rows.specs.declared.fault.BinaryFault.TheVariants as binary;
ghost use Rattle.pg_copy_rows.specs.declared.fault.RowFault.TheVariants as row;

use std::alloc::AllocError;
use thiserror::Error;

/// What stands in the place of a row of a text file: the first of these that holds. After Memory the reader is unchanged. Any other fault is returned
/// by each later call (PostgreSQL documentation, page COPY, "Text Format").
#[derive(Clone, Copy, Debug, Drop, PartialEq, Eq, Error)]
pub enum TextFault {
    /// The line has a carriage return that isn't escaped, in a file whose lines don't end by a return alone.
    #[error("T1 RawReturn")]
    RawReturn,
    /// The input ends in a backslash that begins an escape. Only `finish` and `finish_lent` return it.
    #[error("T2 LoneBackslash")]
    LoneBackslash,
    /// The line has this many fields, which isn't the number of columns, or is above 32,767 where none was given.
    #[error("T3 Columns {0}")]
    Columns(usize),
    /// The line has a newline that isn't escaped, in a file whose lines don't end by a newline alone.
    #[error("T5 RawNewline")]
    RawNewline,
    /// Memory ran out.
    #[error("T4 Memory")]
    Memory,
}

impl From<AllocError> for TextFault {
    ghost from_gives = { λ _ e. e ≡ text.Memory };

    fn from(_e: AllocError) -> TextFault {
        TextFault::Memory
    }
}

/// Why a text file can't have these options: the first of these that holds (PostgreSQL documentation, page COPY, DELIMITER and NULL).
#[derive(Clone, Copy, Debug, Drop, PartialEq, Eq, Error)]
pub enum OptionFault {
    /// This byte can't separate fields: it is a newline, a return, a backslash, a dot, a letter from `a` to `z` or a digit.
    #[error("O1 Delimiter {0}")]
    Delimiter(u8),
    /// These bytes can't stand for null: a newline, a return or the delimiter is among them, they are `\.`, or they end in a
    /// lone backslash.
    #[error("O2 NullMark")]
    NullMark,
    /// Memory ran out.
    #[error("O3 Memory")]
    Memory,
}

impl From<AllocError> for OptionFault {
    ghost from_gives = { λ _ e. e ≡ option.Memory };

    fn from(_e: AllocError) -> OptionFault {
        OptionFault::Memory
    }
}

/// What stands in the place of a part of a binary file: the first of these that holds. After Memory the reader is unchanged. Any other fault is
/// returned by each later call (PostgreSQL documentation, page COPY, "Binary Format").
#[derive(Clone, Copy, Debug, Drop, PartialEq, Eq, Error)]
pub enum BinaryFault {
    /// The first eleven bytes of the file aren't the signature.
    #[error("B1 Signature")]
    Signature,
    /// The flags, this number, have one of the bits 16 to 31, which a reader must know.
    #[error("B2 Flags {0}")]
    Flags(u32),
    /// The length of the header's extension, this number, is negative.
    #[error("B3 Extension {0}")]
    Extension(i32),
    /// The number of fields, this number, is neither -1 nor the number of columns.
    #[error("B4 FieldCount {0}")]
    FieldCount(i16),
    /// The length of a field, this number, is below -1 or above the reader's limit.
    #[error("B5 FieldLength {0}")]
    FieldLength(i32),
    /// The input ends before the trailer. Only `finish` and `finish_lent` return it.
    #[error("B6 Truncated")]
    Truncated,
    /// A byte stands after the trailer.
    #[error("B7 AfterTrailer")]
    AfterTrailer,
    /// Memory ran out.
    #[error("B8 Memory")]
    Memory,
}

impl From<AllocError> for BinaryFault {
    ghost from_gives = { λ _ e. e ≡ binary.Memory };

    fn from(_e: AllocError) -> BinaryFault {
        BinaryFault::Memory
    }
}

/// Why a row was not written: the first of these that holds. The buffer is then as it was (PostgreSQL documentation, page
/// COPY, "Text Format" and "Binary Format").
#[derive(Clone, Copy, Debug, Drop, PartialEq, Eq, Error)]
pub enum RowFault {
    /// The row has this many fields, which is none or more than 32,767.
    #[error("R1 Width {0}")]
    Width(usize),
    /// A value is longer than a binary file can say: it has more than 2,147,483,647 bytes.
    #[error("R2 FieldLong")]
    FieldLong,
    /// The field of this number, counted from 0, is the first text that would be written as the null mark is.
    #[error("R4 LikeNull {0}")]
    LikeNull(usize),
    /// The buffer could not grow.
    #[error("R3 Memory")]
    Memory,
}

impl From<AllocError> for RowFault {
    ghost from_gives = { λ _ e. e ≡ row.Memory };

    fn from(_e: AllocError) -> RowFault {
        RowFault::Memory
    }
}
