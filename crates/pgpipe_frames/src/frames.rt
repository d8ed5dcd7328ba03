//! The reader of frames.

ghost use Rattle.std.specs.Prelude.{◌≡◌, ◌≤◌, ◌++◌, [], length, take, drop, OnOk, OnErr, IsOk};
ghost use Rattle.pgpipe_frames.specs.Frames.{judged};
ghost use Rattle.pgpipe_frames.specs.Reader.{answer_of, left_by};

use crate::judge::{FrameJudgement, judge};
use crate::next::{NextFrame, next_after};
use pg_seq::Buffer;
use pg_wire::WireFault;
use std::alloc::{AllocError, Global};
use std::marker::Model;

/// Takes a stream in any pieces, and lends its frames, by their length fields alone ("Overview", "Message Formats").
///
/// A byte is moved once on average, however small the pieces. After each `next` that returned false less than a frame is kept. It stores no fault:
/// where what stands at the beginning of the kept bytes is faulty, it stays so.
#[derive(Drop)]
pub struct Frames {
    bytes: Buffer,
    // how many bytes in front are a frame that was given, and is lent until the next call
    held: usize,
    next: NextFrame,
}

impl Model for Frames {
    ghost use Rattle.std.specs.Prelude.{◌≤◌, length, take, drop};
    ghost use Rattle.pgpipe_frames.specs.Reader.{FramesState};

    ghost Value = { FramesState };

    ghost view = { λ f. record {
      next = f.next;
      kept = drop f.held f.bytes;
      held = take f.held f.bytes;
    } };

    ghost invariant = { λ f. f.held ≤ length f.bytes };
}

impl Frames {
    /// A reader that was given nothing yet, whose first frame is a first packet of a client or a message. It takes no memory.
    pub fn new(alloc: Global, first: NextFrame) -> Frames
        ensures { result ≡ record { next = first; kept = []; held = [] } }
    {
        Frames {
            bytes: Buffer::new(alloc),
            held: 0,
            next: first,
        }
    }

    /// What stands next, after the frames that were given.
    pub fn upcoming(&self) -> NextFrame
        ensures { result ≡ self.now.next }
    {
        self.next
    }

    /// How many bytes are kept: those that were pushed and have not been given in frames.
    pub fn kept(&self) -> usize
        ensures { result ≡ length self.now.kept }
    {
        self.bytes.len() - self.held
    }

    /// Takes the next piece of the stream, all of it. Where memory runs out, nothing of it is taken. A piece without bytes needs no memory.
    pub fn push(&mut self, piece: &[u8]) -> Result<(), AllocError>
        ensures ok { OnOk result (self.new
            ≡ record self.old { kept = self.old.kept ++ piece.now; held = [] }) }
        ensures err { OnErr result (self.new ≡ self.old) }
        ensures nothing { piece.now ≡ [] → IsOk result }
    {
        self.bytes.push(piece)?;
        self.let_go();
        Ok(())
    }

    // Ends the lending.
    fn let_go(&mut self)
        ensures { self.new ≡ record self.old { held = [] } }
    {
        let held = self.held;
        self.bytes.take(held);
        self.held = 0;
    }

    // The bytes that are kept.
    fn rest(&self) -> &[u8]
        ensures { result.now ≡ self.now.kept }
    {
        let (_, rest) = self.bytes.as_slice().split_at(self.held);
        rest
    }

    // Takes a frame off, and lends it.
    fn hold(&mut self, size: usize, after: NextFrame)
        requires { size ≤ length self.old.kept }
        ensures { self.new ≡ record {
          next = after;
          kept = drop size self.old.kept;
          held = take size self.old.kept;
        } }
    {
        let held = self.held;
        self.bytes.take(held);
        self.held = size;
        self.next = after;
    }

    /// Looks for the next frame. True: it is whole, counts as given, and [`frame`](Self::frame) lends it. False: more bytes are to come. A bad length
    /// field is returned as ShortLength or LongLength, by this call and each later one. After a request to cancel it is always false.
    pub fn next(&mut self) -> Result<bool, WireFault>
        ensures answer { result ≡ answer_of (judged self.old.next self.old.kept) }
        ensures left { self.new ≡ left_by self.old (judged self.old.next self.old.kept) }
    {
        match judge(self.next, self.rest()) {
            FrameJudgement::Open => {
                self.let_go();
                Ok(false)
            }
            FrameJudgement::Whole(size) => {
                let after = next_after(self.next, self.rest().split_at(size).0);
                self.hold(size, after);
                Ok(true)
            }
            FrameJudgement::Faulty(fault) => {
                self.let_go();
                Err(fault)
            }
        }
    }

    /// The frame for which the last call of `next` returned true: a message's tag, its length field and its body, or a first packet. It is empty
    /// after any other call of `push` or `next`, except a `push` for which memory ran out.
    pub fn frame(&self) -> &[u8]
        ensures { result.now ≡ self.now.held }
    {
        let (frame, _) = self.bytes.as_slice().split_at(self.held);
        frame
    }
}
