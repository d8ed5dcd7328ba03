//! One stream, frame by frame.

ghost use Rattle.std.specs.Prelude.{◌≡◌, ℕ, List, [], length, IfOk};
ghost use Rattle.pgpipe_base.specs.Receiving.{receive_limit};
ghost use Rattle.pgpipe_frames.specs.declared.judge.FrameJudgement.TheVariants as judge;
ghost use Rattle.pgpipe_show.specs.Entries.{end_by};
ghost use Rattle.pgpipe_show.specs.Private.Telling.{Fetches, Looks, Received, ReceivedByte};
ghost use Rattle.pgpipe_show.specs.Private.Telling.{look_on};

use super::place::FramePlace;
use super::turn::{BothEnds, Ended};
use pg_wire::Source;
use pgpipe_base::Stop;
use pgpipe_base::receiving::{MOST_RECEIVES, PIECE};
use pgpipe_frames::{Frames, NextFrame};
use std::alloc::{AllocError, Global};

/// What stands at the beginning of the bytes that are kept.
#[derive(Clone, Copy)]
pub enum Look {
    /// A whole frame, which is lent.
    Frame,
    /// Not all of a frame.
    Open,
    /// The end of the stream.
    Over(Ended),
}

/// The frames of a stream that is received in pieces.
#[derive(Drop)]
pub struct Reader {
    pub frames: Frames,
    /// Where the frame begins that comes next.
    pub place: FramePlace,
    // where pieces are received
    into: Vec<u8>,
    ghost a_piece: { length into.items ≡ receive_limit },
}

/// Receives one byte, where the source gives one before its end.
pub fn receive_byte<S: Source>(source: &mut S) -> Result<Option<u8>, Stop<BothEnds>>
    ensures { (piece : List ℕ) × S.gives source.old piece source.new
        × ReceivedByte (S.has_ended source.new) (S.failures source.old) (S.failures source.new)
        piece result }
{
    let mut into = [0; 1];
    match source.receive(&mut into) {
        Ok(0) => Ok(None),
        Ok(_) => Ok(Some(into[0])),
        Err(_) => Err(Stop::SourceFailed),
    }
}

// What is to be done where no frame is whole. Nothing is read after a request to cancel.
fn look_on(next: NextFrame) -> Look
    ensures { result ≡ look_on next }
{
    match next {
        NextFrame::Packet => Look::Open,
        NextFrame::Message => Look::Open,
        NextFrame::Nothing => Look::Over(Ended::Canceled),
    }
}

impl Reader {
    /// A reader that has received nothing, and whose first frame is of this kind.
    pub fn new(alloc: Global, first: NextFrame) -> Result<Reader, AllocError>
        ensures { IfOk result (λ reader. reader.frames
            ≡ record { next = first; kept = []; held = [] }) }
    {
        Ok(Reader {
            frames: Frames::new(alloc, first),
            place: FramePlace::first(),
            into: vec![in alloc; 0; PIECE]?,
        })
    }

    // How the stream ends where its source does and no frame is whole.
    fn end(&self) -> Ended
        ensures { result ≡ end_by judge.Open (length self.now.frames.kept) }
    {
        match self.frames.kept() {
            0 => Ended::Whole,
            size => Ended::Rest(size),
        }
    }

    // What stands at the beginning of the bytes that are kept.
    fn look(&mut self) -> Look
        ensures { Looks self.old.frames result self.new.frames }
    {
        match self.frames.next() {
            Ok(true) => {
                self.place = self.place.after(self.frames.frame().len());
                Look::Frame
            }
            Ok(false) => look_on(self.frames.upcoming()),
            Err(fault) => Look::Over(Ended::Fault(fault)),
        }
    }

    // Receives a piece, and keeps it. It returns false at the end of the source.
    fn receive<S: Source>(&mut self, source: &mut S) -> Result<bool, Stop<BothEnds>>
        ensures { (piece : List ℕ) × S.gives source.old piece source.new
            × Received (S.has_ended source.new) (S.failures source.old) (S.failures source.new)
            self.old.frames piece result self.new.frames }
    {
        let count = match source.receive(self.into.as_mut_slice()) {
            Ok(0) => return Ok(false),
            Ok(count) => count,
            Err(_) => return Err(Stop::SourceFailed),
        };
        match self.frames.push(&self.into[..count]) {
            Ok(()) => Ok(true),
            Err(_) => Err(Stop::Memory),
        }
    }

    /// Receives pieces until the next frame is whole, which is then lent (None), or until the stream ends before that: then it returns how.
    pub fn fetch<S: Source>(&mut self, source: &mut S) -> Result<Option<Ended>, Stop<BothEnds>>
        ensures { Fetches S.gives S.failures S.has_ended self.old.frames source.old result
            self.new.frames source.new }
    {
        for _ in 0..MOST_RECEIVES {
            match self.look() {
                Look::Frame => return Ok(None),
                Look::Over(how) => return Ok(Some(how)),
                Look::Open => match self.receive(source) {
                    Ok(true) => {}
                    Ok(false) => return Ok(Some(self.end())),
                    Err(stop) => return Err(stop),
                },
            }
        }
        Err(Stop::Endless)
    }
}
