//! Both streams of a connection, over any sources and any sink.

ghost use Rattle.std.specs.Prelude.{◌≡◌, ℕ, [], IfOk};
ghost use Rattle.pgpipe_frames.specs.declared.next.NextFrame.TheVariants as next;
ghost use Rattle.pgpipe_show.specs.Both.{ShowsBoth};
ghost use Rattle.pgpipe_show.specs.Private.Telling.{IsUntouched, Stands, StepTells, Stops};

use super::page::Page;
use super::place::FramePlace;
use super::reader::Reader;
use super::tell::{tell, tell_answer};
use super::turn::{BothEnds, Due, Turn};
use pg_wire::{Sink, Source};
use pgpipe_base::{Stop, ToolFault};
use pgpipe_frames::NextFrame;
use std::alloc::{AllocError, Global};

// The most entries that are printed.
const MOST_ENTRIES: u64 = 18_446_744_073_709_551_615;

/// Where each of two streams stands: its next frame, which isn't whole where the stream ended in a rest or with a bad length field.
#[derive(Clone, Copy)]
pub struct BothPlaces {
    /// The client's.
    pub front: FramePlace,
    /// The server's.
    pub back: FramePlace,
}

/// What came of printing both streams.
#[derive(Drop)]
pub struct BothShown {
    /// How each ended, or why the work stopped before that.
    pub answer: Result<BothEnds, ToolFault>,
    /// Where each stands.
    pub places: BothPlaces,
}

// What the work is done with.
#[derive(Drop)]
struct Work {
    front: Reader,
    back: Reader,
    page: Page,
}

impl Work {
    // Nothing was received and nothing was put.
    fn new(alloc: Global) -> Result<Work, AllocError>
        ensures { IfOk result (λ work.
            (work.front.frames ≡ record { next = next.Packet; kept = []; held = [] })
            × (work.back.frames ≡ record { next = next.Message; kept = []; held = [] })
            × (work.page.outbox ≡ [])) }
    {
        Ok(Work {
            front: Reader::new(alloc, NextFrame::Packet)?,
            back: Reader::new(alloc, NextFrame::Message)?,
            page: Page::new(alloc)?,
        })
    }

    // Puts what is printed next.
    fn step<F: Source, B: Source, K: Sink>(
        &mut self,
        turn: Turn,
        front: &mut F,
        back: &mut B,
        sink: &mut K,
    ) -> Result<Turn, Stop<BothEnds>>
        requires messages { self.old.back.frames.next ≡ next.Message }
        requires untouched { IsUntouched turn.stage self.old.back.frames.kept }
        ensures { (front0 : F) (back0 : B) (sink0 : K) (count : ℕ)
            (stands : Stands F.gives F.failures F.has_ended B.gives B.failures B.has_ended K.takes
            K.failures front0 back0 sink0 count turn self.old.front.frames.next
            self.old.front.frames.kept front.old self.old.back.frames.next self.old.back.frames.kept
            back.old self.old.page.outbox sink.old)
            → StepTells F.gives F.failures F.has_ended B.gives B.failures B.has_ended K.takes
            K.failures front0 back0 sink0 count result self.new.front.frames.next
            self.new.front.frames.kept front.new self.new.back.frames.next self.new.back.frames.kept
            back.new self.new.page.outbox sink.new }
    {
        match turn.due() {
            Due::Side(true) => tell(true, turn, &mut self.front, front, &mut self.page, sink),
            Due::Side(false) => tell(false, turn, &mut self.back, back, &mut self.page, sink),
            Due::Reply(request) => {
                tell_answer(request, turn, &mut self.back, back, &mut self.page, sink)
            }
            Due::Nobody(ends) => Err(Stop::Answer(ends)),
        }
    }

    // Goes on until both streams have ended.
    fn run<F: Source, B: Source, K: Sink>(
        &mut self,
        front: &mut F,
        back: &mut B,
        sink: &mut K,
    ) -> Stop<BothEnds>
        requires front { self.old.front.frames
            ≡ record { next = next.Packet; kept = []; held = [] } }
        requires back { self.old.back.frames
            ≡ record { next = next.Message; kept = []; held = [] } }
        requires page { self.old.page.outbox ≡ [] }
        ensures { Stops F.gives F.failures F.has_ended B.gives B.failures B.has_ended K.takes
            K.failures front.old back.old sink.old result front.new back.new
            self.new.page.outbox sink.new }
    {
        let mut turn = Turn::first();
        for _ in 0..MOST_ENTRIES {
            turn = match self.step(turn, front, back, sink) {
                Ok(next) => next,
                Err(stop) => return stop,
            };
        }
        Stop::Endless
    }

    // Prints both streams.
    fn print<F: Source, B: Source, K: Sink>(
        &mut self,
        front: &mut F,
        back: &mut B,
        sink: &mut K,
    ) -> Result<BothEnds, ToolFault>
        requires front { self.old.front.frames
            ≡ record { next = next.Packet; kept = []; held = [] } }
        requires back { self.old.back.frames
            ≡ record { next = next.Message; kept = []; held = [] } }
        requires page { self.old.page.outbox ≡ [] }
        ensures { ShowsBoth F.gives F.failures F.has_ended B.gives B.failures B.has_ended K.takes
            K.failures front.old back.old sink.old result front.new back.new sink.new }
    {
        let stop = self.run(front, back, sink);
        match stop.settle(self.page.outbox.collected(), sink) {
            Ok(()) => stop.answer(),
            Err(_) => Err(ToolFault::Device),
        }
    }

    // Where both streams stand.
    fn places(&self) -> BothPlaces {
        BothPlaces {
            front: self.front.place,
            back: self.back.place,
        }
    }
}

// Where both streams begin.
fn first_places() -> BothPlaces {
    BothPlaces {
        front: FramePlace::first(),
        back: FramePlace::first(),
    }
}

/// Prints the two streams of one connection together, each from a source of its own. The sources have no times. A line is `-> ` and the text of a
/// frame that the client sent, or `<- ` and that of a frame that the server sent; `pgpipe_frames` has the texts. The client's frames stand up to one
/// after which it waits, then the server's up to the end of its answer, and so on ("Message Flow"). Each ReadyForQuery answers the next Query,
/// FunctionCall or Sync in order. Where one stream has ended, the rest of the other is printed.
///
/// The byte by which the server answers an SSLRequest or a GSSENCRequest has a line of its own. After `S` or `G` both streams go on encrypted, and
/// nothing more of them is read. After a CancelRequest nothing more of the client's stream is read.
///
/// What is returned says how each stream ended: with a whole frame, with a rest that is none, or with a bad length field. A length field is from 4 to
/// 1,073,741,823 in a message, and from 8 to 10,000 in a first packet. It also says where, for a person: no contract speaks of these places. At most
/// one frame of each stream is kept, and lines are sent in pieces of 65,536 bytes.
///
/// `Device`: the sink failed in this call, and a prefix of the lines was sent. Or a source failed, or gave no whole frame and no end in
/// 1,099,511,627,776 receives, or more than 18,446,744,073,709,551,614 entries came; then all lines were sent.
///
/// `Memory`: memory ran out, and all lines were sent.
pub fn show_both<F: Source, B: Source, K: Sink>(
    alloc: Global,
    front: &mut F,
    back: &mut B,
    sink: &mut K,
) -> BothShown
    ensures { ShowsBoth F.gives F.failures F.has_ended B.gives B.failures B.has_ended K.takes
        K.failures front.old back.old sink.old result.answer front.new back.new sink.new }
{
    match Work::new(alloc) {
        Ok(mut work) => {
            let answer = work.print(front, back, sink);
            BothShown {
                answer,
                places: work.places(),
            }
        }
        Err(_) => BothShown {
            answer: Err(ToolFault::Memory),
            places: first_places(),
        },
    }
}
