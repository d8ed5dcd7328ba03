//! Messages of the PostgreSQL Frontend/Backend Protocol 3.0 as bytes: decoders that take a stream in any pieces, and encoders.
//!
//! Whoever writes a driver, a proxy, a pooler or a test server begins here. (PostgreSQL documentation, chapter "Frontend/Backend
//! Protocol"; doc comments name its sections, as "Message Formats".)
//!
//! - **Decoders.** [`BackDecoder`] reads a server's stream, and [`FrontDecoder`] a client's. [`FirstDecoder`] reads the packets with
//!   which a client begins, which have no tag; its `into_front` then gives a `FrontDecoder`. `push` appends the bytes that came, in
//!   any pieces, and `next` returns the next message once all of it is there. [`BackDecoder::next_lent`] copies no row, error or
//!   notice: `held` lends it until the next call. [`Spellings`] gives the bytes of each message, for a tool that only passes them on.
//! - **Encoders.** [`backend`] and [`frontend`] have a function for each message. It appends the message to a buffer, or returns why
//!   the message can't be written ([`EncodeFault`]) and leaves the buffer as it was.
//! - **Links.** [`Source`] and [`Sink`] give and take bytes. [`Over`] makes one of anything that reads and writes, as a TCP
//!   connection, and [`Patient`] repeats calls that were interrupted. [`send_all`] and [`send_out`] send all of some bytes.
//! - **Passwords.** [`md5_answer`] is what a server wants to hear that asks for an MD5 password.
//! - **Sessions as data.** [`Request`] and [`Step`] are what a client asks for, [`Outcome`], [`Part`] and [`Aside`] what a server's
//!   whole answer says.
//!
//! # States of a decoder
//!
//!     Reading ---- next: a message, or None while it isn't whole ----> Reading
//!     Reading ---- next: W1 to W5, the stream has a fault -----------> Failed: each later call returns this fault again
//!     Reading ---- next or push: W6, memory ran out -----------------> Reading, unchanged: the call may be made again
//!
//! After `next` has returned None a decoder keeps at most as many bytes as its limit: a message is refused at its length field.
//!
//! # What is proved
//!
//! For every stream and every way to cut it, the messages that a decoder returns are exactly those that the stream is made of, in
//! order, up to its first fault (`Takes`, `HasTaken` in `specs/Decoder.antt`). An encoder appends the one spelling of its message
//! (`Encodes`, `pg_message/specs/Encoder.antt`). The functions of [`laws`] say more: no spelling begins another, a stream has one
//! reading, and what is written is read again.
//!
//! # Files
//!
//! | File | Definitions in `specs/` | What it has |
//! |---|---|---|
//! | `decoder.rt`, `machine.rt`, `find.rt`, `buffer.rt`, `fault.rt` | `Stream`, `Decoder` | messages and the rest of a stream; what the calls of a decoder do |
//! | `back.rt` | `BackDecoder` | a server's decoder, and what it holds and lends |
//! | `spellings.rt` | `Spellings` | the bytes of each message |
//! | `first.rt` | `First`, `FirstDecoder` | first packets |
//! | `session.rt` | `Segment`, `Turns` | requests and outcomes; what a server may send for a request; what a client sends, request by request |
//! | `laws.rt` | `Laws` | laws of spellings and streams |
//! | `password.rt` | `Password` | the answer to AuthenticationMD5Password |
//! | `link.rt`, `patient.rt` | `Link` | sources and sinks; reads and writes that are made again after an interruption |
//! | `sending.rt` | `Sending` | bytes that are sent whole, by as many calls of a sink as it takes |
//!
//! Three crates below it hold the rest, and `pg_wire` passes on what users need of them: `pg_codec` (how each data type of the protocol
//! is coded), `pg_values` (rows, errors and notices in one block of memory, or read in place) and `pg_message` (messages one by one).
//!
//! # How it works
//!
//! **A decoder** is one type for both directions (`machine`): a buffer, how many bytes at its front are a message that was given and
//! is still held, the limit, and the fault that was found. `find` judges the five bytes of a head, and reads a body in place once it is
//! whole. A piece for which there is no room behind what is kept makes room for four of its size, up to 16 KiB. A call that leaves the
//! buffer empty gives its room back where that is more than 64 KiB. What a decoder was given isn't stored: a relation (`HasTaken`) ties
//! it to the decoder's state, `new` begins it, and each call carries it on.
//!
//! **A `BackDecoder`** may hold a message. `next_lent` looks first (`hold_next`): a row, an error or a notice that is whole is judged in
//! place and stays in the buffer. A view is made only of a body that was judged, so its iterators have no error to return. `next` looks
//! for a row first (`take_row`), judges it in place and copies it once.
//!
//! **`Spellings`** judges each whole message in place and makes none, so it needs no memory but for the pieces that it keeps.
#![tactic(auto)]

mod back;
mod buffer;
mod decoder;
mod fault;
mod find;
mod first;
pub mod laws;
mod link;
mod machine;
mod password;
mod patient;
mod sending;
mod session;
mod spellings;

pub use back::{BackDecoder, Cut};
pub use decoder::{Decoder, FrontDecoder};
pub use fault::WireFault;
pub use first::FirstDecoder;
pub use link::{LinkFault, Over, Sink, Source};
pub use password::md5_answer;
pub use patient::{PATIENCE, Patient};
pub use pg_codec::{BodyFault, Column, CopyHead, EncodeFault, ErrorField, LONGEST, Status, Target};
pub use pg_message::{
    BackMessage, First, FrontMessage, LONGEST_PACKET, Lent, Message, backend, frontend,
};
pub use pg_seq::Seq;
pub use pg_values::{
    Fields, FieldsView, KeptFields, LentFields, LentValues, ParameterList, RowView, Text,
    ValueList, Values,
};
pub use sending::{send_all, send_out};
pub use session::{Aside, ExecEnd, Outcome, Part, Request, Step};
pub use spellings::Spellings;
