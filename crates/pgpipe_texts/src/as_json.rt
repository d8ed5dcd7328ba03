//! What the same are shown as, as a program reads them: a JSON object of a message's name, its length field and its fields. Bytes are a string
//! where they are UTF-8, and else hexadecimal in an object of its own, so none is lost; keys are hidden.
//!
//! - backend.rt, packet.rt: messages of the server and first packets, and their names ([`back_called`], [`packet_called`])
//! - values.rt, members.rt: JSON values, and the members of an object

mod backend;
mod members;
mod packet;
mod values;

pub use backend::{back_called, back_value, status_word};
pub use members::{begin, put_hidden, put_shown, put_text};
pub use packet::{packet_called, packet_value};
pub use values::ToJson;
