//! Rows of COPY files in binary (PostgreSQL documentation, page COPY, "Binary Format").
//!
//! It is a layer of `pg_copy`. Users name `pg_copy`, which passes on what they need of it.
//!
//! # Files
//!
//! | File | Definitions in `specs/` | What it has |
//! |---|---|---|
//! | `format.rt`, `binary_writer.rt`, `binary_values.rt` | `Binary` | the parts of a binary file; a file as head, rows and rest |
//! | `binary_part.rt` | `BinaryPart` | a binary file read from left to right |
//! | `binary_reader.rt`, `binary_reader/steps.rt`, `binary_row.rt` | `BinaryReader` | what the calls of a reader do, and the row that it lends |
//! | `laws.rt` | `BinaryLaws` | a binary file has one reading, and what was written is read as what was meant |
//!
//! **A reader** looks over a row's lengths without copying, and goes on where it stopped. When the row is whole it copies its values,
//! once each, for `next`, or lends them from the front of the buffer for `next_lent`. A head that is whole is taken off when no row follows
//! it yet, and an extension of a head is dropped as it comes.
#![tactic(auto)]

mod binary_part;
mod binary_reader;
mod binary_row;
mod binary_values;
mod binary_writer;
mod format;
pub mod laws;

pub use binary_reader::BinaryReader;
pub use binary_row::{BinaryRow, LentValues};
pub use binary_values::write_binary_values;
pub use binary_writer::{
    write_binary_count, write_binary_field, write_binary_head, write_binary_row,
    write_binary_trailer,
};
