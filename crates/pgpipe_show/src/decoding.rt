//! How far the reading has come.

ghost use Rattle.std.specs.Prelude.{◌≡◌, ◌<◌, ◌+◌, ◌^◌, ◌++◌, [], length, true, false, None, ℕ};
ghost use Rattle.std.specs.Prelude.{List, OnOk};
ghost use Rattle.pgpipe_show.specs.declared.decoding.Decoding.TheVariants.{First};
ghost use Rattle.pgpipe_show.specs.Way.{messages_of};
ghost use Rattle.pgpipe_show.specs.Private.Showing.{way_of, unshown, AreAt, IsSoundAt, HasShown};
ghost use Rattle.pgpipe_show.specs.Private.Showing.{StepShows, LeavesSource};

use crate::form::{Form, Line};
use crate::framing::{Framing, take_frames};
use crate::messages::{put_messages, take_messages};
use crate::packets::put_packets;
use crate::show::Shown;
use pg_wire::{BackMessage, FirstDecoder, FrontMessage, LONGEST, Sink, Spellings};
use pgpipe_base::Stop;
use pgpipe_base::outbox::Outbox;
use pgpipe_frames::NextFrame;
use std::alloc::Global;

/// What is read now.
#[derive(Drop)]
pub enum Decoding {
    /// The messages of a backend.
    Back(Spellings<BackMessage>),
    /// The first packets of a client.
    First(FirstDecoder),
    /// The messages of a client.
    Front(Spellings<FrontMessage>),
    /// Nothing, since a Cancel came. So many bytes came after it.
    Over(usize),
    /// Frames.
    Framed(Framing),
    /// Nothing, since a client whose frames are shown so sent a request to cancel. So many bytes came after it.
    FramedOver(Line, bool, usize),
}

// Takes a piece of what a client begins with, and puts the lines of the packets and messages that are whole then.
fn take_packets<K: Sink>(
    decoder: FirstDecoder,
    piece: &[u8],
    spelled: &mut Vec<u8>,
    outbox: &mut Outbox,
    sink: &mut K,
) -> Result<Decoding, Stop<Shown>>
    requires { (decoder.ended ≡ false) × (decoder.fault ≡ None) }
    ensures steps { (start : K) (bytes : List ℕ)
        (stands : HasShown K.takes K.failures start bytes (First decoder) outbox.old sink.old)
        → StepShows K.takes K.failures (messages_of true) start (bytes
        ++ piece.now) stands.put.pieces result outbox.new sink.new }
    ensures source { LeavesSource result }
{
    let mut first = decoder;
    if first.push(piece).is_err() {
        return Err(Stop::Memory);
    }
    match put_packets(&mut first, spelled, outbox, sink)? {
        NextFrame::Packet => Ok(Decoding::First(first)),
        NextFrame::Message => {
            let spellings = put_messages(first.into_spellings(LONGEST), outbox, sink)?;
            Ok(Decoding::Front(spellings))
        }
        NextFrame::Nothing => Ok(Decoding::Over(first.kept())),
    }
}

impl Decoding {
    // Nothing was read yet of messages and packets of the tables.
    fn begin_messages(alloc: Global, front: bool) -> Decoding
        ensures side { way_of result ≡ messages_of front }
        ensures begun { AreAt [] [] result }
    {
        if front {
            Decoding::First(FirstDecoder::new(alloc))
        } else {
            Decoding::Back(Spellings::new(alloc, LONGEST))
        }
    }

    /// The state before the first byte.
    pub fn begin(alloc: Global, form: Form, front: bool) -> Decoding
        ensures side { way_of result ≡ record { form = form; front = front } }
        ensures begun { AreAt [] [] result }
    {
        match form {
            Form::Messages => Decoding::begin_messages(alloc, front),
            Form::Frames(line) => Decoding::Framed(Framing::new(alloc, line, front)),
        }
    }

    /// How many bytes are left that no line was put for.
    pub fn kept(&self) -> usize
        ensures { result ≡ unshown self.now }
    {
        match self {
            Decoding::Back(spellings) => spellings.kept(),
            Decoding::First(decoder) => decoder.kept(),
            Decoding::Front(spellings) => spellings.kept(),
            Decoding::Over(count) => *count,
            Decoding::FramedOver(_, _, count) => *count,
            Decoding::Framed(framing) => framing.frames.kept(),
        }
    }

    /// Takes a piece, and puts the lines of the packets and messages that are whole then.
    pub fn take<K: Sink>(
        self,
        piece: &[u8],
        spelled: &mut Vec<u8>,
        outbox: &mut Outbox,
        sink: &mut K,
    ) -> Result<Decoding, Stop<Shown>>
        requires sound { IsSoundAt self }
        requires room { unshown self + length piece.now < 2 ^ 64 }
        ensures steps { (start : K) (bytes : List ℕ)
            (stands : HasShown K.takes K.failures start bytes self outbox.old sink.old)
            → StepShows K.takes K.failures (way_of self) start (bytes
            ++ piece.now) stands.put.pieces result outbox.new sink.new }
        ensures source { LeavesSource result }
    {
        match self {
            Decoding::Back(spellings) => {
                let spellings = take_messages(spellings, piece, outbox, sink)?;
                Ok(Decoding::Back(spellings))
            }
            Decoding::First(decoder) => take_packets(decoder, piece, spelled, outbox, sink),
            Decoding::Front(spellings) => {
                let spellings = take_messages(spellings, piece, outbox, sink)?;
                Ok(Decoding::Front(spellings))
            }
            Decoding::Over(count) => Ok(Decoding::Over(count + piece.len())),
            Decoding::Framed(framing) => take_frames(framing, piece, spelled, outbox, sink),
            Decoding::FramedOver(line, front, count) => {
                Ok(Decoding::FramedOver(line, front, count + piece.len()))
            }
        }
    }

    /// Takes a piece, and sends the lines of the packets and messages that are whole then.
    pub fn send<K: Sink>(
        self,
        piece: &[u8],
        spelled: &mut Vec<u8>,
        outbox: &mut Outbox,
        sink: &mut K,
    ) -> Result<Decoding, Stop<Shown>>
        requires sound { IsSoundAt self }
        requires room { unshown self + length piece.now < 2 ^ 64 }
        ensures steps { (start : K) (bytes : List ℕ)
            (stands : HasShown K.takes K.failures start bytes self outbox.old sink.old)
            → StepShows K.takes K.failures (way_of self) start (bytes
            ++ piece.now) stands.put.pieces result outbox.new sink.new }
        ensures source { LeavesSource result }
        ensures nothing_left { OnOk result (outbox.new ≡ []) }
    {
        let next = self.take(piece, spelled, outbox, sink)?;
        match outbox.flush(sink) {
            Ok(()) => Ok(next),
            Err(_) => Err(Stop::SinkFailed),
        }
    }
}
