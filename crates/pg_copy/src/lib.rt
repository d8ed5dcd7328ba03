//! The files of PostgreSQL's COPY, text and binary: readers that take a file in any pieces and give its rows, and writers of rows
//! (PostgreSQL documentation, page COPY, "File Formats").
//!
//! - **Readers.** [`TextReader`] and [`BinaryReader`]: `push` appends bytes, `next` returns the next row that is whole, and `finish`
//!   those that are left at the end of the input. `next_lent` and `finish_lent` copy no row: `held` lends it until the next call. A fault
//!   stands in the place of its row, after all rows before it; `rows_given` and `offset` say where.
//! - **A limit.** A [`TextReader`] keeps a line until it is whole, however long it is. A [`LimitedTextReader`] gives the same rows, and
//!   rejects a line once more bytes of it are there than its limit, while the line isn't whole ([`LimitedTextFault::LongLine`]). So a
//!   server or a loader that reads what a stranger sends keeps no more than the limit and one piece.
//! - **Writers.** [`write_text_row`] and [`write_text_row_with`] append the canonical line of a row; [`write_binary_row`], between
//!   [`write_binary_head`] and [`write_binary_trailer`], a row of a binary file. Values that don't stand in a [`Row`] are written one by
//!   one: [`TextRowWriter`], and [`write_binary_count`] with [`write_binary_field`]; or from an iterator that lends them,
//!   [`write_binary_values`].
//! - **Options.** [`TextOptions`]: the delimiter and the null mark of a text file.
//!
//! Types aren't known here: a value is its bytes, or null.
//!
//! # States of a reader
//!
//!     Reading --- next: a row, or None where no whole row waits -----> Reading
//!     Reading --- next: T1 to T5, LongLine, B1 to B7 ----------------> Failed: each later call returns this fault again
//!     Reading --- next: memory ran out ------------------------------> Reading, unchanged: the call may be made again
//!     Reading --- the end mark `\.`, or the trailer -----------------> Done: no row comes any more
//!     Reading, Done --- finish, finish_lent, until no row is left ----> Ended: the input has ended
//!
//! # What is proved
//!
//! A file has one split into lines and fields, and a field has one value (`one_split`, `one_value`); a binary file has one reading
//! (`one_file`). A reader gives exactly the rows of its file, however the file is cut. What a writer writes is read as the same rows
//! (`text_round_trip`, `binary_round_trip`). These are the functions of [`laws`].
//!
//! # Files
//!
//! `limit` has the reader with a limit, of which `specs/Limited` has the definitions. The rest is passed on from three crates:
//! `pg_copy_rows` (rows, why one is refused, what a reader keeps), `pg_copy_text` and `pg_copy_binary` (each format).
#![tactic(auto)]

pub mod laws;
mod limit;

pub use limit::{LimitedTextFault, LimitedTextReader};
pub use pg_copy_binary::{
    BinaryReader, BinaryRow, LentValues, write_binary_count, write_binary_field, write_binary_head,
    write_binary_row, write_binary_trailer, write_binary_values,
};
pub use pg_copy_rows::{BinaryFault, OptionFault, Row, RowFault, TextFault};
pub use pg_copy_text::{
    LentTexts, TextOptions, TextReader, TextRow, TextRowWriter, write_text_field, write_text_row,
    write_text_row_with,
};
