//! Showing a stream, over any source and any sink.

ghost use Rattle.std.specs.Prelude.{◌≡◌, ◌<◌, ◌≤◌, ◌+◌, ◌^◌, ◌++◌, ℕ, List, [], length, IfOk, OnOk};
ghost use Rattle.std.specs.List.{FoldsTo, concat};
ghost use Rattle.pg_wire.specs.Link.{HasRisen};
ghost use Rattle.pgpipe_base.specs.Receiving.{receive_limit, HasStopped, CountsNoFailure};
ghost use Rattle.pgpipe_base.specs.Receiving.{IsSentAtOnce};
ghost use Rattle.pgpipe_show.specs.Show.{AreAllShown, ShowAnswers, EndsStream};
ghost use Rattle.pgpipe_show.specs.Way.{messages_of};
ghost use Rattle.pgpipe_show.specs.Private.Showing.{way_of, unshown, IsSoundAt, HasShown};
ghost use Rattle.pgpipe_show.specs.Private.Showing.{StepShows, StepsSource, HasRun};

use crate::decoding::Decoding;
use crate::form::Form;
use crate::stop::end_stop;
use pg_wire::{Sink, Source, WireFault};
use pgpipe_base::outbox::Outbox;
use pgpipe_base::receiving::{MOST_RECEIVES, PIECE};
use pgpipe_base::{Stop, ToolFault};
use std::alloc::{AllocError, Global};

/// How a stream ended.
#[derive(Clone, Copy, Debug, PartialEq, Eq)]
pub enum Shown {
    /// With a whole message or packet, or without any.
    Whole,
    /// With so many bytes that are no whole message or packet, or that came after a Cancel.
    Rest(usize),
    /// With bytes that can't begin a message or packet.
    Fault(WireFault),
}

// What the work is done with.
#[derive(Drop)]
struct Showing {
    outbox: Outbox,
    // where messages and packets are spelled
    spelled: Vec<u8>,
    // where pieces are received
    into: Vec<u8>,
    ghost a_piece: { length into.items ≡ receive_limit },
}

impl Showing {
    // Receives a piece, and sends the lines of what is whole then.
    fn step<S: Source, K: Sink>(
        &mut self,
        decoding: Decoding,
        source: &mut S,
        sink: &mut K,
    ) -> Result<Decoding, Stop<Shown>>
        requires sound { IsSoundAt decoding }
        requires room { unshown decoding + receive_limit < 2 ^ 64 }
        ensures steps { (piece : List ℕ) × (length piece ≤ receive_limit)
            × S.gives source.old piece source.new
            × ((start : K) (bytes : List ℕ)
            (stands : HasShown K.takes K.failures start bytes decoding self.old.outbox sink.old)
            → StepShows K.takes K.failures (way_of decoding) start (bytes
            ++ piece) stands.put.pieces result self.new.outbox sink.new) }
        ensures source { StepsSource (S.has_ended source.new) (S.failures source.old)
            (S.failures source.new) result }
        ensures nothing_left { OnOk result (self.new.outbox ≡ []) }
    {
        let count = match source.receive(self.into.as_mut_slice()) {
            Ok(0) => return Err(end_stop(decoding.kept())),
            Ok(count) => count,
            Err(_) => return Err(Stop::SourceFailed),
        };
        decoding.send(
            &self.into[..count],
            &mut self.spelled,
            &mut self.outbox,
            sink,
        )
    }

    // Goes on until there is no more to do.
    fn run<S: Source, K: Sink>(
        &mut self,
        decoding: Decoding,
        source: &mut S,
        sink: &mut K,
    ) -> Stop<Shown>
        requires stands { HasShown K.takes K.failures sink.old [] decoding self.old.outbox
            sink.old }
        requires nothing_left { self.old.outbox ≡ [] }
        ensures { HasRun S.gives S.failures (S.has_ended source.new) K.takes K.failures
            (way_of decoding) source.old sink.old result source.new self.new.outbox sink.new }
    {
        let mut decoding = decoding;
        for _ in 0..MOST_RECEIVES {
            decoding = match self.step(decoding, source, sink) {
                Ok(next) => next,
                Err(stop) => return stop,
            };
        }
        Stop::Endless
    }
}

// What stands before the first piece.
fn begin(alloc: Global) -> Result<Showing, AllocError>
    ensures { IfOk result (λ work. work.outbox ≡ []) }
{
    Ok(Showing {
        outbox: Outbox::new(alloc)?,
        spelled: Vec::new(alloc),
        into: vec![in alloc; 0; PIECE]?,
    })
}

/// Shows a stream in one of several forms. One has its messages and packets of the tables, as [`show`] does. The others have its frames, whatever
/// they are ("Message Formats", "Start-up"), with a line of hexadecimal, of words or of JSON for each. Only its length field says where a frame ends:
/// 4 to 1,073,741,823 in a message, 8 to 10,000 in a first packet. A client's first packets go on up to one that isn't a request, of any version, and
/// messages follow. After a request to cancel nothing is read.
///
/// What is returned is as with `show`. Where frames are shown, a fault is a bad length field.
pub fn show_as<S: Source, K: Sink>(
    alloc: Global,
    form: Form,
    front: bool,
    source: &mut S,
    sink: &mut K,
) -> Result<Shown, ToolFault>
    // what was received, what was sent, and the answer for them, where the source may have stopped and the sink broken
    ensures shown { (received sent : List (List ℕ)) × FoldsTo S.gives source.old received source.new
        × FoldsTo K.takes sink.old sent sink.new × ShowAnswers
        (HasStopped (S.failures source.old) (S.failures source.new) received)
        (HasRisen (K.failures sink.old) (K.failures sink.new))
        (record { form = form; front = front }) (concat received) (concat sent) result }
    // before each receive but the first, the lines for all that came had been sent
    ensures at_once { (received sent : List (List ℕ))
        × FoldsTo S.gives source.old received source.new × FoldsTo K.takes sink.old sent sink.new
        × IsSentAtOnce (AreAllShown (record { form = form; front = front })) received sent }
    ensures ended { EndsStream (S.has_ended source.new) result }
    // where the answer isn't Device, neither failed
    ensures source { CountsNoFailure (S.failures source.old) result (S.failures source.new) }
    ensures sink { CountsNoFailure (K.failures sink.old) result (K.failures sink.new) }
{
    let mut work = match begin(alloc) {
        Ok(work) => work,
        Err(_) => return Err(ToolFault::Memory),
    };
    let stop = work.run(Decoding::begin(alloc, form, front), source, sink);
    match stop.settle(work.outbox.collected(), sink) {
        Ok(()) => stop.answer(),
        Err(_) => Err(ToolFault::Device),
    }
}

/// Writes a line for each message of a backend's stream: its tag as a letter, a space, its length field in decimal, a space, and its body in
/// lower-case hexadecimal, or `-` for an empty body. Length fields of up to 1,073,741,823 are taken.
///
/// With `front` it is a client's side: first packets up to a Startup or a Cancel, and the client's messages after a Startup. A packet's line is
/// `startup`, `cancel`, `ssl` or `gss`, a space, its length in decimal, a space, and the bytes after the length in hexadecimal. What comes after a
/// Cancel is the rest.
///
/// Before each `receive` the lines for all that came are sent. The lines before a fault or a rest are sent. `Device` is returned where
/// - the sink failed in this call: a prefix of the lines was sent, and the lines for all that was received but the last piece are at most 65,536
///   bytes more; or
/// - the source failed in this call or gave no end in 1,099,511,627,776 receives: the lines for all that was received were sent.
///
/// `Memory` is returned where memory ran out: whole lines were sent, and none is missing for what came before the last piece, of at most 65,536
/// bytes.
pub fn show<S: Source, K: Sink>(
    alloc: Global,
    front: bool,
    source: &mut S,
    sink: &mut K,
) -> Result<Shown, ToolFault>
    // what was received, what was sent, and the answer for them, where the source may have stopped and the sink broken
    ensures shown { (received sent : List (List ℕ)) × FoldsTo S.gives source.old received source.new
        × FoldsTo K.takes sink.old sent sink.new × ShowAnswers
        (HasStopped (S.failures source.old) (S.failures source.new) received)
        (HasRisen (K.failures sink.old) (K.failures sink.new))
        (messages_of front) (concat received) (concat sent) result }
    // before each receive but the first, the lines for all that came had been sent
    ensures at_once { (received sent : List (List ℕ))
        × FoldsTo S.gives source.old received source.new × FoldsTo K.takes sink.old sent sink.new
        × IsSentAtOnce (AreAllShown (messages_of front)) received sent }
    ensures ended { EndsStream (S.has_ended source.new) result }
    // where the answer isn't Device, neither failed
    ensures source { CountsNoFailure (S.failures source.old) result (S.failures source.new) }
    ensures sink { CountsNoFailure (K.failures sink.old) result (K.failures sink.new) }
{
    show_as(alloc, Form::Messages, front, source, sink)
}
