//! Laws of the binary format: each function does nothing, and its contract is the law (PostgreSQL documentation, page COPY,
//! "Binary Format").

ghost use Rattle.pg_copy_binary.specs.BinaryLaws.{OneFile, BinaryRoundTrip, FieldsAreRow};

/// The bytes of a binary file are a head, rows and a rest in one way: the one that a reader takes.
pub fn one_file()
    ensures { OneFile }
{}

/// A head and rows that were written in binary are read as those rows, whatever follows them.
pub fn binary_round_trip()
    ensures { BinaryRoundTrip }
{}

/// The number of a row's fields and then each field, written one after the other in binary, are the row written.
pub fn fields_are_row()
    ensures { FieldsAreRow }
{}
