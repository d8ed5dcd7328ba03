//! Summing up a stream, over any source and any sink.

ghost use Rattle.std.specs.Prelude.{◌≡◌, ◌≤◌, ◌+◌, ◌-◌, ◌^◌, ◌++◌, ℕ, List, [], length, min, take};
ghost use Rattle.std.specs.Prelude.{IfOk, OnOk};
ghost use Rattle.std.specs.List.{FoldsTo, concat};
ghost use Rattle.pgpipe_base.specs.Receiving.{receive_limit};
ghost use Rattle.pgpipe_frames.specs.Frames.{fewest};
ghost use Rattle.pgpipe_show.specs.Counts.{counted};
ghost use Rattle.pgpipe_show.specs.Labels.{IsLabelOf};
ghost use Rattle.pgpipe_show.specs.Private.Counting.{AreAt, Counts, GoesOn, HasRun};
ghost use Rattle.pgpipe_show.specs.Summary.{IsSummedUp, SumsUp};
ghost use Rattle.pgpipe_show.specs.Table.{table};

use super::counts::Summary;
use super::label::write_label;
use super::table::table_text;
use crate::framing::first_of;
use crate::show::Shown;
use crate::stop::{end_stop, fault_stop};
use pg_wire::{Sink, Source};
use pgpipe_base::outbox::send_all;
use pgpipe_base::receiving::{MOST_RECEIVES, PIECE};
use pgpipe_base::{Stop, ToolFault};
use pgpipe_frames::{Frames, NextFrame};
use std::alloc::{AllocError, Global};

// Counts a frame.
fn count_frame(
    alloc: Global,
    front: bool,
    kind: NextFrame,
    frame: &[u8],
    summary: &mut Summary,
    label: &mut Vec<u8>,
) -> Result<(), AllocError>
    requires { fewest kind ≤ length frame.now }
    ensures { OnOk result ((text : List ℕ) × IsLabelOf front kind frame.now text
        × (summary.new ≡ counted text (length frame.now) summary.old)) }
{
    write_label(alloc, front, kind, frame, label)?;
    summary.add(alloc, label.as_slice(), frame.len())
}

// Counts the frames that are whole.
fn count_frames(
    alloc: Global,
    front: bool,
    frames: &mut Frames,
    summary: &mut Summary,
    label: &mut Vec<u8>,
) -> Result<(), Stop<Shown>>
    ensures { (bytes : List ℕ)
        → IsSummedUp front bytes summary.old frames.old.next frames.old.kept
        → Counts front bytes result summary.new frames.new }
{
    'frames: loop {
        let kind = frames.upcoming();
        match frames.next() {
            Ok(false) => return Ok(()),
            Ok(true) => match count_frame(alloc, front, kind, frames.frame(), summary, label) {
                Ok(()) => {}
                Err(_) => return Err(Stop::Memory),
            },
            Err(fault) => return Err(fault_stop(fault)),
        }
    }
}

// What the work is done with.
#[derive(Drop)]
struct Counting {
    alloc: Global,
    front: bool,
    frames: Frames,
    summary: Summary,
    // how many bytes came after a request to cancel: none of them is kept
    over: usize,
    // where labels are written
    label: Vec<u8>,
    // where pieces are received
    into: Vec<u8>,
    ghost a_piece: { length into.items ≡ receive_limit },
}

impl Counting {
    // Nothing was received yet.
    fn begin(alloc: Global, front: bool) -> Result<Counting, AllocError>
        ensures side { IfOk result (λ work. work.front ≡ front) }
        ensures begun { IfOk result (λ work. AreAt front [] work.summary work.frames work.over) }
    {
        Ok(Counting {
            alloc,
            front,
            frames: Frames::new(alloc, first_of(front)),
            summary: Summary::new(alloc),
            over: 0,
            label: Vec::new(alloc),
            into: vec![in alloc; 0; PIECE]?,
        })
    }

    // Takes a piece that was received, and counts the frames that are whole then.
    fn push_piece(&mut self, count: usize) -> Result<(), Stop<Shown>>
        requires { count ≤ length self.old.into.items }
        ensures side { self.new.front ≡ self.old.front }
        ensures over { self.new.over ≡ self.old.over }
        ensures counts { (bytes : List ℕ)
            → IsSummedUp self.old.front bytes self.old.summary self.old.frames.next
            self.old.frames.kept
            → Counts self.old.front (bytes ++ take count self.old.into.items) result
            self.new.summary self.new.frames }
    {
        match self.frames.push(&self.into[..count]) {
            Ok(()) => count_frames(
                self.alloc,
                self.front,
                &mut self.frames,
                &mut self.summary,
                &mut self.label,
            ),
            Err(_) => Err(Stop::Memory),
        }
    }

    // Takes a piece that was received, or passes it over where nothing more is read.
    fn count_piece(&mut self, count: usize) -> Result<(), Stop<Shown>>
        requires { count ≤ length self.old.into.items }
        ensures side { self.new.front ≡ self.old.front }
        ensures goes_on { (bytes : List ℕ)
            → AreAt self.old.front bytes self.old.summary self.old.frames self.old.over
            → GoesOn self.old.front (bytes ++ take count self.old.into.items) result
            self.new.summary self.new.frames self.new.over }
    {
        match self.frames.upcoming() {
            NextFrame::Nothing => {
                self.over = self.over.saturating_add(count);
                Ok(())
            }
            NextFrame::Packet | NextFrame::Message => self.push_piece(count),
        }
    }

    // How many bytes are left that are no whole frame.
    fn left(&self) -> usize
        ensures { result ≡ min (length self.now.frames.kept + self.now.over) (2 ^ 64 - 1) }
    {
        self.frames.kept().saturating_add(self.over)
    }

    // Receives a piece, and counts the frames that are whole then.
    fn step<S: Source>(&mut self, source: &mut S) -> Result<(), Stop<Shown>>
        ensures side { self.new.front ≡ self.old.front }
        ensures steps { (piece : List ℕ) × S.gives source.old piece source.new
            × ((bytes : List ℕ)
            → AreAt self.old.front bytes self.old.summary self.old.frames self.old.over
            → GoesOn self.old.front (bytes ++ piece) result self.new.summary self.new.frames
            self.new.over) }
    {
        match source.receive(self.into.as_mut_slice()) {
            Ok(0) => Err(end_stop(self.left())),
            Ok(count) => self.count_piece(count),
            Err(_) => Err(Stop::SourceFailed),
        }
    }

    // Goes on until there is no more to do.
    fn run<S: Source>(&mut self, source: &mut S) -> Stop<Shown>
        requires { AreAt self.old.front [] self.old.summary self.old.frames self.old.over }
        ensures { HasRun S.gives self.old.front source.old result source.new self.new.summary }
    {
        for _ in 0..MOST_RECEIVES {
            match self.step(source) {
                Ok(()) => {}
                Err(stop) => return stop,
            }
        }
        Stop::Endless
    }

    // Sends the table of what was counted.
    fn print<K: Sink>(&self, sink: &mut K) -> Result<(), ToolFault>
        ensures { (sent : List (List ℕ)) × FoldsTo K.takes sink.old sent sink.new
            × OnOk result (concat sent ≡ table self.now.summary) }
    {
        match table_text(self.alloc, &self.summary) {
            Ok(text) => match send_all(text.as_slice(), sink) {
                Ok(()) => Ok(()),
                Err(_) => Err(ToolFault::Device),
            },
            Err(_) => Err(ToolFault::Memory),
        }
    }
}

/// Sums up the frames of a stream ("Message Formats", "Start-up"), as `show_as` reads them: of a client's side with `front`, and else of a backend's.
/// A table is sent once, at the end. It has how many messages of each name there are, and how many bytes they have. Each status of a ReadyForQuery
/// and each code of an ErrorResponse has a line of its own.
///
/// What is returned is as with `show_as`. A fault is a bad length field. Where the stream ends in a rest or has a fault, the table of the frames
/// before that is sent. Where the source fails or memory runs out, the table of what was counted is sent too, if there is memory for it. Memory is
/// bounded by the largest message, and by the codes of errors that differ.
pub fn summarize<S: Source, K: Sink>(
    alloc: Global,
    front: bool,
    source: &mut S,
    sink: &mut K,
) -> Result<Shown, ToolFault>
    ensures { SumsUp S.gives K.takes front source.old sink.old result source.new sink.new }
{
    let mut work = match Counting::begin(alloc, front) {
        Ok(work) => work,
        Err(_) => return Err(ToolFault::Memory),
    };
    let stop = work.run(source);
    match work.print(sink) {
        Ok(()) => stop.answer(),
        Err(fault) => Err(fault),
    }
}
