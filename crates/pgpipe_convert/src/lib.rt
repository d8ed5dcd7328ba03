//! A COPY file converted from the one format to the other, from any source to any sink ([`convert`], [`convert_with`]).
//!
//! Pieces of up to 64 KiB are received, and each is pushed to a reader of the one format (`copy_rows`). The rows that wait are written in the other
//! format (`format`) from where their values stand, a line of text value by value (`values`), into a buffer that is sent where it has 64 KiB, before the
//! next receive, and at the end. So memory is bounded by a small multiple of the largest row.
//!
//! What the calls of a reader do is told once for both formats (`FileReading`), and so is how a file is written (`FileWriting`): the work knows of
//! neither format.
#![tactic(auto)]

pub mod convert;
mod copy_rows;
mod format;
mod values;

pub use convert::convert_with;
pub use format::Format;
