//! The frames of a stream, by their length fields alone, the text that a person reads of each, and the JSON object that a program reads. A frame
//! is a message's tag, length field and body, or a first packet of a client's connection.
//!
//! **The frames.** [`Frames`] takes the bytes of a server or of a client in any pieces, and lends frame after frame, whatever its tag and its
//! body are. Only a length that can't be ends the stream.
//!
//! - next.rt: where a frame stands, which the frame before it says
//! - judge.rt: what stands at the beginning of a rest
//! - frames.rt: the reader
//! - reading.rt: the message or packet that a frame is, by the tables
//! - laws.rt: what readings have in common
//!
//! **What each is shown as.** [`put_frame`] appends a message's name and its fields, with texts escaped, values cut at a width, and passwords
//! and keys hidden. What isn't of the tables of this library is shown as its tag, its length and its bytes.
//!
//! - frame_text.rt: a frame of either direction ([`put_frame`])
//! - frontend.rt: messages of a client; those of a server, first packets and the parts of texts are `pgpipe_texts`
//! - other.rt: what isn't of the tables
//!
//! [`put_frame`] appends the text of what a frame is read as, or of its bytes (`other`).
//!
//! **As JSON.** [`as_json::put_frame`] appends the object of a frame (as_json.rt and the files in as_json/).
#![tactic(auto)]

pub mod as_json;
mod frame_text;
mod frames;
mod frontend;
mod judge;
pub mod laws;
mod next;
mod other;
mod reading;

pub use frame_text::put_frame;
pub use frames::Frames;
pub use judge::FrameJudgement;
pub use next::{NextFrame, code_of};
pub use other::{back_name, front_name, request_of_code};
pub use reading::{is_message, read_message, read_packet};
