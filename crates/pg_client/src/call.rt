//! The calls of a client that send something, as values.

use pg_wire::{Request, Seq};

/// A call of a client that sends something.
#[derive(Clone, Debug, PartialEq, Eq, Drop)]
pub enum Call {
    /// Sends the startup packet.
    Start,
    /// Makes a request.
    Request(Request),
    /// Hands over a chunk of a copy: the bytes of one CopyData.
    Chunk(Seq<u8>),
    /// Says that the data of a copy is complete.
    Done,
    /// Says that a copy is to fail, for this reason.
    Fail(Seq<u8>),
    /// Ends the session.
    Terminate,
}
