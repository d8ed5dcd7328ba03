//! The messages of the PostgreSQL Frontend/Backend Protocol 3.0 and the first packets of a connection, one by one: each is written as
//! its one spelling, and read from its tag and its body (PostgreSQL documentation, "Message Formats").
//!
//! It is a layer of `pg_wire`, which reads streams. Users name `pg_wire`, which passes on what they need of it.
//!
//! # Files
//!
//! | File | Definitions in `specs/` | What it has |
//! |---|---|---|
//! | `direction.rt` | `Direction`, `Message` | what the messages of a direction have in common: tag, length field, body, which have no spelling and why |
//! | `backend.rt`, `frontend.rt`, `message.rt` | `Backend`, `Frontend`, `First` | the messages of each direction as a table: a row has the tag and the body of a message; first packets as bytes |
//! | `lent.rt` | `Lent` | a row, an error or a notice that is read in place |
//! | `judging.rt` | | whether a body is one of its tag, without making the message |
//! | `backend.rt`, `frontend.rt` | `Encoder` | what an encoder does with the buffer |
//! | `appending.rt` | `Appending` | how a message is put together of its tag and body, what keeps it from having a spelling, and how it is appended |
//!
//! **The definitions are a table**, with a row for each message: its tag and its body, put together of the protocol's data types
//! (`back_row (ParameterStatus name text) = row 83 (string name ⨾ string text)`). All else that is said of a message follows from its row:
//! its bytes, whether a text holds a zero byte, whether a list is too long for its count. No definition says how reading goes; two laws
//! tie the readers to the table: what is read is spelled so, and what is spelled so is read.
//!
//! **An encoder** takes a message apart into the parts of its body, which `append` judges first (the first fault, then the length) and then
//! writes once, in order.
//!
//! **Judging a body** makes no message and needs no memory: `Message::is_message` says whether a body is one of its tag. `of_body` judges
//! a body after memory ran out for its message, so that out of memory is returned for messages alone.
#![tactic(auto)]

mod appending;
pub mod backend;
mod direction;
pub mod frontend;
mod judging;
mod lent;
mod message;

pub use appending::LONGEST_PACKET;
pub use direction::Message;
pub use lent::Lent;
pub use message::{BackMessage, First, FrontMessage};
