//! How far the reading of frames has come.

ghost use Rattle.std.specs.Prelude.{◌≡◌, ◌++◌, [], List, ℕ};
ghost use Rattle.pgpipe_show.specs.declared.decoding.Decoding.TheVariants.{Framed};
ghost use Rattle.pgpipe_show.specs.declared.form.Form.TheVariants as forms;
ghost use Rattle.pgpipe_show.specs.FrameLines.{first_of};
ghost use Rattle.pgpipe_show.specs.Private.Showing.{HasShown, LeavesSource, StepShows, AreAt};
ghost use Rattle.pgpipe_show.specs.Private.Showing.{way_of};

use crate::decoding::Decoding;
use crate::form::Line;
use crate::frame_lines::put_frames;
use crate::show::Shown;
use pg_wire::Sink;
use pgpipe_base::Stop;
use pgpipe_base::outbox::Outbox;
use pgpipe_frames::{Frames, NextFrame};
use std::alloc::Global;

/// The frames of a client (`front`) or of a backend, and what stands in their lines.
#[derive(Drop)]
pub struct Framing {
    pub alloc: Global,
    pub line: Line,
    pub front: bool,
    pub frames: Frames,
}

/// What a stream begins with.
pub fn first_of(front: bool) -> NextFrame
    ensures { result ≡ first_of front }
{
    if front {
        NextFrame::Packet
    } else {
        NextFrame::Message
    }
}

impl Framing {
    /// No frame was read yet.
    pub fn new(alloc: Global, line: Line, front: bool) -> Framing
        ensures line { result.line ≡ line }
        ensures front { result.front ≡ front }
        ensures frames { result.frames
            ≡ record { next = first_of result.front; kept = []; held = [] } }
    {
        Framing {
            alloc,
            line,
            front,
            frames: Frames::new(alloc, first_of(front)),
        }
    }

    // Goes on with the frames, or after a request to cancel with nothing.
    fn go_on(self) -> Decoding
        ensures side { way_of result
            ≡ record { form = forms.Frames self.line; front = self.front } }
        ensures stands { (bytes text : List ℕ) → AreAt bytes text (Framed self)
            → AreAt bytes text result }
    {
        match self.frames.upcoming() {
            NextFrame::Nothing => Decoding::FramedOver(self.line, self.front, self.frames.kept()),
            NextFrame::Packet | NextFrame::Message => Decoding::Framed(self),
        }
    }
}

/// Takes a piece, and puts the lines of the frames that are whole then.
pub fn take_frames<K: Sink>(
    framing: Framing,
    piece: &[u8],
    spelled: &mut Vec<u8>,
    outbox: &mut Outbox,
    sink: &mut K,
) -> Result<Decoding, Stop<Shown>>
    ensures steps { (start : K) (bytes : List ℕ)
        (stands : HasShown K.takes K.failures start bytes (Framed framing) outbox.old sink.old)
        → StepShows K.takes K.failures (way_of (Framed framing)) start (bytes
        ++ piece.now) stands.put.pieces result outbox.new sink.new }
    ensures source { LeavesSource result }
{
    let Framing {
        alloc,
        line,
        front,
        mut frames,
    } = framing;
    if frames.push(piece).is_err() {
        return Err(Stop::Memory);
    }
    put_frames(alloc, line, front, &mut frames, spelled, outbox, sink)?;
    let framing = Framing {
        alloc,
        line,
        front,
        frames,
    };
    Ok(framing.go_on())
}
