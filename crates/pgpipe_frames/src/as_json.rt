//! What the frames of either direction are shown as, as a program reads them: a JSON object of a message's name, its length field and its
//! fields, as the module `as_json` of `pgpipe_texts` makes them; passwords and keys are hidden. What isn't of the tables of this library is marked
//! so, with its tag, its length field and its bytes.
//!
//! - frame.rt: a frame of either direction ([`put_frame`])
//! - frontend.rt: messages of a client, and their names ([`front_called`])
//! - other.rt: what isn't of the tables
//!
//! Of an object it makes a `Value` of `serde_json` first, member by member, and writes that; so memory is bounded by a
//! multiple of the largest message.

mod frame;
mod frontend;
mod other;

pub use frame::put_frame;
pub use frontend::front_called;
pub use other::packet_name;
