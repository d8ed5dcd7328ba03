//! Rows of COPY files in text (PostgreSQL documentation, page COPY, "Text Format").
//!
//! It is a layer of `pg_copy`. Users name `pg_copy`, which passes on what they need of it.
//!
//! # Files
//!
//! | File | Definitions in `specs/` | What it has |
//! |---|---|---|
//! | `format.rt`, `plain.rt`, `text_field.rt`, `text_line.rt`, `line_end.rt`, `text_writer.rt` | `Text`, `TextField`, `TextLine` | units, escapes, fields, line ends, lines and files; the canonical line, and rows that have none |
//! | `text_options.rt` | `TextOptions` | the delimiter and the null mark, and which there are |
//! | `text_reader.rt`, `text_reader/steps.rt`, `text_stage.rt`, `scan.rt`, `cuts.rt`, `text_row.rt` | `TextReader` | what the calls of a reader do, what it was given and has given, and the row that it lends |
//! | `text_row_writer.rt` | `TextWriter` | a row written field by field |
//! | `laws.rt` | `TextLaws` | bytes have one split into lines and fields, a field has one value, and what was written is read as what was meant |
//!
//! **A reader** keeps a buffer and how far its first line was walked over (`scan`): the walk counts delimiters, notes where they stand (`cuts`) and
//! notes returns while it looks for the line's end, and goes on where it stopped when the next piece has come. At a newline or a return `break_at`
//! says whether it ends the line, by how the lines before it ended. Most bytes stand for themselves: `plain` looks for the first that may not,
//! sixteen at a time.
//!
//! **A line that is lent** stays in front of the buffer, and a value is a slice of it. Of a line with escapes each text is put where its field stands,
//! or nearer to the line's beginning. So a line is kept once, and its row takes eight bytes more for each value, where its text ends.
#![tactic(auto)]

mod cuts;
mod format;
pub mod laws;
mod line_end;
mod plain;
mod scan;
mod text_field;
mod text_line;
mod text_options;
mod text_reader;
mod text_row;
mod text_row_writer;
mod text_stage;
mod text_writer;

pub use pg_copy_rows::lent_texts::LentTexts;
pub use text_options::TextOptions;
pub use text_reader::TextReader;
pub use text_row::TextRow;
pub use text_row_writer::TextRowWriter;
pub use text_writer::{write_text_field, write_text_row, write_text_row_with};
