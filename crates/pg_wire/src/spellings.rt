//! A stream of one direction, taken in pieces, of which the bytes of each message are lent.

ghost use Rattle.std.specs.Prelude.{◌≡◌, [], length, None};
ghost use Rattle.pg_message.specs.Direction.{IsLimit};
ghost use Rattle.pg_wire.specs.Decoder.{IsLasting, Pushes};
ghost use Rattle.pg_wire.specs.Spellings.{LetsBytes, TakesSpelling};

use crate::fault::WireFault;
use crate::machine::Stream;
use bytes::BytesMut;
use pg_message::Message;
use std::alloc::Global;
use std::marker::Model;

/// Takes a stream of one direction in any pieces, and lends the bytes of exactly its messages ("Overview", "Message Formats").
///
/// Unlike a [`Decoder`](crate::Decoder) it judges a message where it stands, and makes no value of it. So a message takes no memory, however large it
/// is. Which bytes it keeps, and which faults of the stream it finds, are as with a decoder.
#[derive(Drop)]
pub struct Spellings<M: Message> {
    stream: Stream<M>,
}

impl<M: Message> Model for Spellings<M> {
    ghost use Rattle.pg_wire.specs.Spellings.{SpellingsState};
    ghost use Rattle.pg_wire.specs.Private.Held.{spellings_state};

    ghost Value = { SpellingsState };

    ghost view = { λ s. spellings_state s.stream };
}

impl<M: Message> Spellings<M> {
    /// A reader that begins with the bytes that are kept already. If a fault is given, each call returns it.
    pub(crate) fn resume(
        alloc: Global,
        buffer: BytesMut,
        limit: u32,
        fault: Option<WireFault>,
    ) -> Self
        requires limit { IsLimit limit }
        requires fault { IsLasting fault }
        ensures stream { result.stream
            ≡ record { kept = buffer.items; limit = limit; fault = fault } }
        ensures held { result.held ≡ [] }
    {
        Spellings {
            stream: Stream::resume(alloc, buffer, limit, fault),
        }
    }

    /// A reader that takes messages with a length field of at most `limit`, which is from 64 to 1,073,741,823.
    pub fn new(alloc: Global, limit: u32) -> Self
        requires { IsLimit limit }
        ensures stream { result.stream ≡ record { kept = []; limit = limit; fault = None } }
        ensures held { result.held ≡ [] }
    {
        Spellings::resume(alloc, BytesMut::new(alloc), limit, None)
    }

    /// How many bytes are kept: those that were pushed and have not been given as messages.
    pub fn kept(&self) -> usize
        ensures { result ≡ length self.now.stream.kept }
    {
        self.stream.kept()
    }

    /// Takes the next piece of the stream, all of it. Where `next` has found a fault, that fault is returned. After Memory nothing of the piece was
    /// taken, and the reader is unchanged. A piece without bytes needs no memory.
    pub fn push(&mut self, piece: &[u8]) -> Result<(), WireFault>
        ensures call { Pushes self.old.stream piece.now result self.new.stream }
        ensures held { LetsBytes self.old.held result self.new.held }
    {
        self.stream.push(piece)
    }

    /// Looks for the next message. True: it is whole, counts as given, and [`spelling`](Self::spelling) lends its bytes. False: more bytes are to
    /// come. A fault is returned once all messages before it were given, and by each call after that; it is never Memory.
    pub fn next(&mut self) -> Result<bool, WireFault>
        ensures { TakesSpelling M.direction self.old.stream result self.new }
    {
        self.stream.next_spelling()
    }

    /// The bytes of the message for which the last call of `next` returned true: its tag, its length field and its body. There are none after any
    /// other call of `push` or `next`, except a `push` that returned Memory.
    pub fn spelling(&self) -> &[u8]
        ensures { result.now ≡ self.now.held }
    {
        self.stream.front()
    }
}
