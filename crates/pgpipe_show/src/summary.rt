//! What a stream is summed up as: a table of its messages by their names ([`summarize`]).
//!
//! - stream.rt: a stream from any source, to any sink ([`summarize`])
//! - label.rt: what a frame is counted under
//! - counts.rt, table.rt: the counts, and their table
//!
//! [`summarize`] receives pieces as `show_as` does, and counts each frame under its label (`label`) in a map
//! (`counts`); the table (`table`) is made and sent when the work stops, whatever stops it. Memory is bounded by the
//! largest message, and by the labels that differ: those of messages are few, but a server may send any number of codes
//! of errors.

mod counts;
mod label;
mod stream;
mod table;

pub use stream::summarize;
