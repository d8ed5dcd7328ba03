//! What a message of the server and a first packet of a client are shown as: the text that a person reads, and the JSON object that a program
//! reads.
//!
//! - text.rt, fields.rt, words.rt: texts in quotes, fields of errors, words for numbers
//! - backend.rt, packet.rt: the text of a message of the server, and of a first packet
//! - as_json.rt: their JSON objects
//!
//! What can be shown says its text ([`Readable`]), so a list is shown once for all elements. A text is escaped in runs (`put_some` in `text`): the
//! bytes in front that are shown as they are, at once, or one that isn't. A word of the definitions that stands for a long text is opaque to all
//! but the function that appends it. Texts are cut at a width, and keys are hidden. `pgpipe_frames` shows messages of a client with the same parts,
//! hides passwords, and shows what isn't of the tables.
#![tactic(auto)]

pub mod as_json;
mod backend;
mod fields;
mod packet;
mod text;
mod words;

pub use backend::{put_after, put_name, put_named, put_named_quoted, put_row};
pub use text::{Readable, put_digits, put_number, put_quoted, put_whole};
