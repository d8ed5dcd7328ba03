//! A stream of one direction, taken in pieces.

ghost use Rattle.std.specs.Prelude.{◌≡◌, ◌++◌, [], List, ℕ, length, None, OnOk};
ghost use Rattle.pg_message.specs.Direction.{IsLimit};
ghost use Rattle.pg_wire.specs.Decoder.{HasTaken, Pushes, IsLasting, Takes, given_after};

use crate::fault::WireFault;
use crate::machine::Stream;
use bytes::BytesMut;
use pg_message::{FrontMessage, Message};
use std::alloc::Global;
use std::marker::Model;

/// Takes a stream of one direction in any pieces, and gives exactly its messages ("Overview", "Message Formats").
///
/// `push` keeps a piece, and `next` gives the messages one by one. After `next` has returned None at most `limit` bytes are kept. A fault of the
/// stream takes the place of a message, and each later call returns it.
#[derive(Drop)]
pub struct Decoder<M: Message> {
    stream: Stream<M>,
}

/// Decodes what a frontend sends after its startup packet.
pub type FrontDecoder = Decoder<FrontMessage>;

impl<M: Message> Model for Decoder<M> {
    ghost use Rattle.pg_wire.specs.Decoder.{DecoderState};

    ghost Value = { DecoderState };

    ghost view = { λ d. d.stream.rest };
}

impl<M: Message> Decoder<M> {
    /// A decoder that begins with the bytes that are kept already. If a fault is given, each call returns it.
    pub(crate) fn resume(
        alloc: Global,
        buffer: BytesMut,
        limit: u32,
        fault: Option<WireFault>,
    ) -> Self
        requires limit { IsLimit limit }
        requires fault { IsLasting fault }
        ensures { result ≡ record { kept = buffer.items; limit = limit; fault = fault } }
    {
        Decoder {
            stream: Stream::resume(alloc, buffer, limit, fault),
        }
    }

    /// A decoder that takes messages with a length field of at most `limit`, which is from 64 to 1,073,741,823.
    pub fn new(alloc: Global, limit: u32) -> Self
        requires { IsLimit limit }
        ensures value { result ≡ record { kept = []; limit = limit; fault = None } }
        ensures taken { HasTaken M.direction result [] [] }
    {
        Decoder::resume(alloc, BytesMut::new(alloc), limit, None)
    }

    /// The greatest length field of a message that it takes, as given to `new`.
    pub fn limit(&self) -> u32
        ensures { result ≡ self.now.limit }
    {
        self.stream.limit()
    }

    /// Gives back the bytes that are kept: what was pushed after the messages that were given. Where the connection changes its protocol, the next
    /// reader goes on with them. It takes no memory.
    pub fn into_rest(self) -> BytesMut
        ensures { result.items ≡ self.kept }
    {
        self.stream.into_rest()
    }

    /// How many bytes are kept: those that were pushed and have not been given as messages.
    pub fn kept(&self) -> usize
        ensures { result ≡ length self.now.kept }
    {
        self.stream.kept()
    }

    /// Takes the next piece of the stream, all of it. Where `next` has found a fault, that fault is returned. After Memory nothing of the piece was
    /// taken, and the decoder is unchanged. A piece without bytes needs no memory.
    pub fn push(&mut self, piece: &[u8]) -> Result<(), WireFault>
        ensures call { Pushes self.old piece.now result self.new }
        ensures taken { OnOk result ((pushed : List ℕ) (given : List M)
            → HasTaken M.direction self.old pushed given
            → HasTaken M.direction self.new (pushed ++ piece.now) given) }
    {
        self.stream.push(piece)
    }

    /// The next message, or None where more bytes are to come. A fault is returned once all messages before it were given, and by each call after
    /// that. Memory is returned only for a message that is whole and holds a text or another list, and leaves the decoder unchanged.
    pub fn next(&mut self) -> Result<Option<M>, WireFault>
        ensures call { Takes M.direction self.old result self.new }
        ensures taken { (pushed : List ℕ) (given : List M)
            → HasTaken M.direction self.old pushed given
            → HasTaken M.direction self.new pushed (given_after given result) }
    {
        self.stream.next()
    }
}
