//! Laws of the formats: each function does nothing, and its contract is the law (PostgreSQL documentation, page COPY, "File
//! Formats").

pub use pg_copy_binary::laws::{binary_round_trip, fields_are_row, one_file};
pub use pg_copy_text::laws::{fields_are_line, one_split, one_value, text_round_trip};
