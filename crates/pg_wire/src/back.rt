//! What a backend sends, taken in pieces, with rows, errors and notices that are lent.

ghost use Rattle.std.specs.Prelude.{◌≡◌, ◌++◌, [], List, ℕ, length, None, OnOk};
ghost use Rattle.pg_message.specs.Backend.{backend};
ghost use Rattle.pg_message.specs.Direction.{IsLimit};
ghost use Rattle.pg_message.specs.declared.message.BackMessage.{BackMessage};
ghost use Rattle.pg_wire.specs.Decoder.{HasTaken, Pushes, Takes, given_after};
ghost use Rattle.pg_wire.specs.BackDecoder.{LetsGo, TakesLent, as_next};

use crate::fault::WireFault;
use crate::machine::Stream;
use bytes::BytesMut;
use pg_message::{BackMessage, Lent};
use std::alloc::Global;
use std::marker::Model;

/// What [`next_lent`](BackDecoder::next_lent) returns.
#[derive(Debug, PartialEq, Drop)]
pub enum Cut {
    /// No whole message waits: more bytes are to come.
    Nothing,
    /// A row, an error or a notice, which [`held`](BackDecoder::held) lends until the next call.
    Held,
    /// Any other message.
    Other(BackMessage),
}

/// Takes what a backend sends in any pieces, and gives exactly its messages ("Overview", "Message Formats").
///
/// `push` keeps a piece, and `next` gives the messages one by one. After `next` has returned None at most `limit` bytes are kept. A fault of the
/// stream takes the place of a message, and each later call returns it.
///
/// `next_lent` gives the same messages, but leaves a row, an error or a notice where it stands, so that it isn't copied.
#[derive(Drop)]
pub struct BackDecoder {
    stream: Stream<BackMessage>,
}

impl Model for BackDecoder {
    ghost use Rattle.pg_wire.specs.BackDecoder.{BackState};
    ghost use Rattle.pg_wire.specs.Private.Held.{back_state, IsHeldFront};

    ghost Value = { BackState };

    ghost view = { λ d. back_state d.stream };

    ghost invariant = { λ d. IsHeldFront d.stream.front };
}

impl BackDecoder {
    /// A decoder that takes messages with a length field of at most `limit`, which is from 64 to 1,073,741,823.
    pub fn new(alloc: Global, limit: u32) -> BackDecoder
        requires { IsLimit limit }
        ensures value { result.stream ≡ record { kept = []; limit = limit; fault = None } }
        ensures held { result.held ≡ None }
        ensures taken { HasTaken backend result.stream [] [] }
    {
        BackDecoder {
            stream: Stream::resume(alloc, BytesMut::new(alloc), limit, None),
        }
    }

    /// The greatest length field of a message that it takes, as given to `new`.
    pub fn limit(&self) -> u32
        ensures { result ≡ self.now.stream.limit }
    {
        self.stream.limit()
    }

    /// Gives back the bytes that are kept: what was pushed after the messages that were given. Where the connection changes its protocol, the next
    /// reader goes on with them. It takes no memory.
    pub fn into_rest(self) -> BytesMut
        ensures { result.items ≡ self.stream.kept }
    {
        self.stream.into_rest()
    }

    /// How many bytes are kept: those that were pushed and have not been given as messages.
    pub fn kept(&self) -> usize
        ensures { result ≡ length self.now.stream.kept }
    {
        self.stream.kept()
    }

    /// Takes the next piece of the stream, all of it. Where `next` has found a fault, that fault is returned. After Memory nothing of the piece was
    /// taken, and the decoder is unchanged. A piece without bytes needs no memory.
    #[inline(always)]
    pub fn push(&mut self, piece: &[u8]) -> Result<(), WireFault>
        ensures call { Pushes self.old.stream piece.now result self.new.stream }
        ensures held { LetsGo self.old.held result self.new.held }
        ensures taken { OnOk result ((pushed : List ℕ) (given : List BackMessage)
            → HasTaken backend self.old.stream pushed given
            → HasTaken backend self.new.stream (pushed ++ piece.now) given) }
    {
        self.stream.push(piece)
    }

    /// The next message, or None where more bytes are to come. A fault is returned once all messages before it were given, and by each call after
    /// that. Memory is returned only for a message that is whole and holds a text or another list, and leaves the decoder unchanged.
    #[inline(always)]
    pub fn next(&mut self) -> Result<Option<BackMessage>, WireFault>
        ensures call { Takes backend self.old.stream result self.new.stream }
        ensures held { LetsGo self.old.held result self.new.held }
        ensures taken { (pushed : List ℕ) (given : List BackMessage)
            → HasTaken backend self.old.stream pushed given
            → HasTaken backend self.new.stream pushed (given_after given result) }
    {
        self.stream.next_owned()
    }

    /// The next message, as `next` gives it, but a row, an error or a notice is returned as Held. Such a message counts as given, and takes no
    /// memory. `held` lends it until the next call of `push`, `next` or `next_lent` that doesn't return Memory.
    #[inline(always)]
    pub fn next_lent(&mut self) -> Result<Cut, WireFault>
        ensures call { TakesLent self.old result self.new }
        ensures taken { (pushed : List ℕ) (given : List BackMessage)
            → HasTaken backend self.old.stream pushed given
            → HasTaken backend self.new.stream pushed
            (given_after given (as_next result self.new.held)) }
    {
        self.stream.next_lent()
    }

    /// The row, error or notice for which the last call of `next_lent` returned Held. It is None after any other call of `push`, `next` or
    /// `next_lent`, except one that returned Memory. It takes no memory.
    pub fn held(&self) -> Option<Lent<'_>>
        ensures { result ≡ self.now.held }
    {
        let front = self.stream.front();
        if front.len() < 5 {
            return None;
        }
        Some(Lent::of_judged(front[0], &front[5..]))
    }
}
