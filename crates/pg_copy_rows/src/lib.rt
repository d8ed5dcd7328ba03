//! What the text and the binary files of COPY have in common: rows, why one is refused, the bytes that a reader keeps and the numbers
//! that it tells (PostgreSQL documentation, page COPY, "File Formats").
//!
//! It is the lowest layer of `pg_copy`. Users name `pg_copy`, which passes on what they need of it.
//!
//! | File | Definitions in `specs/` | What it has |
//! |---|---|---|
//! | `row.rt`, `fault.rt`, `format.rt` | `Row` | rows, and why one can't be written |
//! | `counts.rt`, `row_buffer.rt`, `lent_texts.rt` | `Reading`, `Lent` | rows and what comes after them; what a call may return that looks for the next row, or lends it; the numbers that a reader tells |
#![tactic(auto)]

pub mod counts;
mod fault;
pub mod format;
pub mod lent_texts;
pub mod row;
pub mod row_buffer;

pub use fault::{BinaryFault, OptionFault, RowFault, TextFault};
pub use row::Row;
