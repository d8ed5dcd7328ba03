//! How the data types of the protocol are coded, and the values and bodies that are made of them: each is judged, written and read; and
//! why a message can't be written or read (PostgreSQL documentation, "Message Data Types", "Message Formats").
//!
//! It is a layer of `pg_wire`. Users name `pg_wire`, which passes on what they need of it.
//!
//! # Files
//!
//! | File | Definitions in `specs/` | What it has |
//! |---|---|---|
//! | `field.rt`, `value.rt`, `writer.rt`, `reader.rt` | `Field`, `Value` | the parts of a body: how each data type, and each value that messages carry, is spelled, and what keeps it from having a spelling |
//! | `part.rt`, `appender.rt` | | the parts of a body, and the buffer that they are appended to |
//! | `fault.rt` | | why a message can't be written or read |
//! | `lent.rt` | | a value and a field that are read in place |
//! | `after.rt` | | what is left of a body after a value, for judging it without making the value |
//!
//! **A body is a body of parts** (`part`): a String, bytes, a number, a list after its count, and pairs of these. Each part of the code
//! (`BodyPart`) says which part of a message's definition it writes, and how it is judged.
#![tactic(auto)]

mod after;
mod appender;
mod fault;
mod field;
mod lent;
mod part;
mod reader;
mod value;
mod writer;

pub use after::{
    after_copy_head, after_counted, after_i32, after_status, after_terminated, after_text,
    after_times,
};
pub use appender::Appender;
pub use fault::{BodyFault, EncodeFault};
pub use field::{Field, ReadField};
pub use lent::lent_field_at;
pub use part::{BodyPart, Byte, Bytes, Counted, Int32, LONGEST, Pair, Salt, Terminated, Text};
pub use reader::{
    after_zero, copy_head_at, copy_of, counted, ended, i32_at, status_at, terminated, text_at,
    u16_at,
};
pub use value::{Column, CopyHead, ErrorField, Status, Target};
pub use writer::text_has_zero;
