//! The lines of frames.

ghost use Rattle.std.specs.Prelude.{◌≡◌, ◌≤◌, ◌^◌, ◌++◌, ℕ, List, true, length, None, OnOk};
ghost use Rattle.pgpipe_base.specs.Outbox.{line_of};
ghost use Rattle.pgpipe_frames.specs.Frames.{fewest};
ghost use Rattle.pgpipe_frames.specs.declared.next.NextFrame.TheVariants.{Packet};
ghost use Rattle.pgpipe_show.specs.FrameLines.{IsHexLine, IsLine, IsMessageLine, IsSideLine};
ghost use Rattle.pgpipe_show.specs.FrameLines.{first_line, other_line};
ghost use Rattle.pgpipe_show.specs.Private.Showing.{AreWords, LeavesSource, PutsFrames, PutsLine};
ghost use Rattle.pgpipe_show.specs.Private.Showing.{PutsLineOf, words_of};

use crate::form::Line;
use crate::messages::put_spelled;
use crate::packets::put_packet;
use crate::show::Shown;
use crate::stop::fault_stop;
use pg_wire::{BackMessage, FrontMessage, Message, Sink};
use pgpipe_base::Stop;
use pgpipe_base::outbox::Outbox;
use pgpipe_frames::{Frames, NextFrame, is_message, read_packet};
use std::alloc::{AllocError, Global};

// Puts a line of a word, a length and bytes.
fn put_word<K: Sink>(
    word: &[u8],
    size: usize,
    bytes: &[u8],
    outbox: &mut Outbox,
    sink: &mut K,
) -> Result<(), Stop<Shown>>
    requires { (length word.now ≤ 7) × (size ≤ 2 ^ 30) }
    ensures { PutsLine K.takes K.failures outbox.old sink.old
        (line_of word.now size bytes.now) result outbox.new sink.new }
{
    match outbox.put_line(word, size as u32, bytes, sink) {
        Ok(()) => Ok(()),
        Err(_) => Err(Stop::SinkFailed),
    }
}

// Puts the line of a message that isn't of the tables.
fn put_other<K: Sink>(frame: &[u8], outbox: &mut Outbox, sink: &mut K) -> Result<(), Stop<Shown>>
    requires { (5 ≤ length frame.now) × (length frame.now ≤ 2 ^ 30) }
    ensures { PutsLine K.takes K.failures outbox.old sink.old
        (other_line frame.now) result outbox.new sink.new }
{
    let (tag, size, body) = (frame[0], frame.len() - 1, &frame[5..]);
    if b' ' < tag && tag < 0x7F {
        return put_word(&[b'?', tag], size, body, outbox, sink);
    }
    let mut word = *b"?\\x00";
    // there is room for both digits, so this doesn't fail
    let _ = hex::encode_to_slice([tag], &mut word[3..]);
    put_word(&word, size, body, outbox, sink)
}

// Puts the line of a message.
fn put_message<M: Message, K: Sink>(
    frame: &[u8],
    outbox: &mut Outbox,
    sink: &mut K,
) -> Result<(), Stop<Shown>>
    requires { (5 ≤ length frame.now) × (length frame.now ≤ 2 ^ 30) }
    ensures { PutsLineOf K.takes K.failures outbox.old sink.old
        (IsMessageLine M.direction frame.now) result outbox.new sink.new }
{
    if is_message::<M>(frame) {
        put_spelled(frame, outbox, sink)
    } else {
        put_other(frame, outbox, sink)
    }
}

// Puts the line of a message of a client or of a backend.
fn put_side<K: Sink>(
    front: bool,
    frame: &[u8],
    outbox: &mut Outbox,
    sink: &mut K,
) -> Result<(), Stop<Shown>>
    requires { (5 ≤ length frame.now) × (length frame.now ≤ 2 ^ 30) }
    ensures { PutsLineOf K.takes K.failures outbox.old sink.old
        (IsSideLine front frame.now) result outbox.new sink.new }
{
    if front {
        put_message::<FrontMessage, K>(frame, outbox, sink)
    } else {
        put_message::<BackMessage, K>(frame, outbox, sink)
    }
}

// Puts the line of a first packet that isn't of the tables.
fn put_other_packet<K: Sink>(
    frame: &[u8],
    outbox: &mut Outbox,
    sink: &mut K,
) -> Result<(), Stop<Shown>>
    requires { (8 ≤ length frame.now) × (length frame.now ≤ 2 ^ 30) }
    ensures { PutsLine K.takes K.failures outbox.old sink.old
        (first_line frame.now None) result outbox.new sink.new }
{
    put_word(b"?packet", frame.len(), &frame[4..], outbox, sink)
}

// Puts the line of a first packet.
fn put_first<K: Sink>(
    alloc: Global,
    frame: &[u8],
    spelled: &mut Vec<u8>,
    outbox: &mut Outbox,
    sink: &mut K,
) -> Result<(), Stop<Shown>>
    requires { (8 ≤ length frame.now) × (length frame.now ≤ 2 ^ 30) }
    ensures { PutsLineOf K.takes K.failures outbox.old sink.old
        (IsHexLine true Packet frame.now) result outbox.new sink.new }
{
    match read_packet(alloc, frame) {
        Ok(Some(packet)) => put_packet(packet, spelled, outbox, sink),
        Ok(None) => put_other_packet(frame, outbox, sink),
        Err(_) => Err(Stop::Memory),
    }
}

// Puts the line of a frame in hexadecimal.
fn put_hexadecimal<K: Sink>(
    alloc: Global,
    kind: NextFrame,
    front: bool,
    frame: &[u8],
    spelled: &mut Vec<u8>,
    outbox: &mut Outbox,
    sink: &mut K,
) -> Result<(), Stop<Shown>>
    requires { (fewest kind ≤ length frame.now) × (length frame.now ≤ 2 ^ 30) }
    ensures { PutsLineOf K.takes K.failures outbox.old sink.old
        (IsHexLine front kind frame.now) result outbox.new sink.new }
{
    match kind {
        NextFrame::Packet => put_first(alloc, frame, spelled, outbox, sink),
        NextFrame::Message | NextFrame::Nothing => put_side(front, frame, outbox, sink),
    }
}

// How a frame is put into words: decoded or as a JSON object, by the side that sent it and by what it is.
#[derive(Clone, Copy)]
struct Wording {
    json: bool,
    front: bool,
    kind: NextFrame,
}

impl Wording {
    // Appends the words of a frame's line, without its end.
    fn put(self, alloc: Global, frame: &[u8], line: &mut Vec<u8>) -> Result<(), AllocError>
        requires { fewest self.kind ≤ length frame.now }
        ensures { OnOk result ((words : List ℕ)
            × AreWords self.json self.front (record { kind = self.kind; bytes = frame.now }) words
            × (line.new.items ≡ line.old.items ++ words)) }
    {
        if self.json {
            pgpipe_frames::as_json::put_frame(alloc, self.front, self.kind, frame, line)
        } else {
            pgpipe_frames::put_frame(alloc, self.front, self.kind, frame, line)
        }
    }

    // Writes the line of a frame.
    fn write(self, alloc: Global, frame: &[u8], line: &mut Vec<u8>) -> Result<(), AllocError>
        requires { fewest self.kind ≤ length frame.now }
        ensures { OnOk result (IsLine (words_of self.json) self.front
            (record { kind = self.kind; bytes = frame.now }) line.new.items) }
    {
        line.clear();
        self.put(alloc, frame, line)?;
        line.extend_from_slice(b"\n")
    }
}

// Puts a text.
fn put_text<K: Sink>(text: &Vec<u8>, outbox: &mut Outbox, sink: &mut K) -> Result<(), Stop<Shown>>
    ensures { PutsLine K.takes K.failures outbox.old sink.old text.now.items result outbox.new
        sink.new }
{
    match outbox.put_text(text.as_slice(), sink) {
        Ok(()) => Ok(()),
        Err(_) => Err(Stop::SinkFailed),
    }
}

// Puts the line of a frame in words, which is written whole first.
fn put_in_words<K: Sink>(
    alloc: Global,
    wording: Wording,
    frame: &[u8],
    line: &mut Vec<u8>,
    outbox: &mut Outbox,
    sink: &mut K,
) -> Result<(), Stop<Shown>>
    requires { fewest wording.kind ≤ length frame.now }
    ensures { PutsLineOf K.takes K.failures outbox.old sink.old (IsLine (words_of wording.json)
        wording.front (record { kind = wording.kind; bytes = frame.now })) result outbox.new
        sink.new }
{
    match wording.write(alloc, frame, line) {
        Ok(()) => put_text(line, outbox, sink),
        Err(_) => Err(Stop::Memory),
    }
}

// Puts the line of a frame.
fn put_frame<K: Sink>(
    alloc: Global,
    line: Line,
    front: bool,
    kind: NextFrame,
    frame: &[u8],
    spelled: &mut Vec<u8>,
    outbox: &mut Outbox,
    sink: &mut K,
) -> Result<(), Stop<Shown>>
    requires { (fewest kind ≤ length frame.now) × (length frame.now ≤ 2 ^ 30) }
    ensures { PutsLineOf K.takes K.failures outbox.old sink.old
        (IsLine line front (record { kind = kind; bytes = frame.now })) result outbox.new sink.new }
{
    let decoded = Wording {
        json: false,
        front,
        kind,
    };
    let json = Wording {
        json: true,
        ..decoded
    };
    match line {
        Line::Hexadecimal => put_hexadecimal(alloc, kind, front, frame, spelled, outbox, sink),
        Line::Decoded => put_in_words(alloc, decoded, frame, spelled, outbox, sink),
        Line::Json => put_in_words(alloc, json, frame, spelled, outbox, sink),
    }
}

/// Puts the lines of the frames that are whole.
pub fn put_frames<K: Sink>(
    alloc: Global,
    line: Line,
    front: bool,
    frames: &mut Frames,
    spelled: &mut Vec<u8>,
    outbox: &mut Outbox,
    sink: &mut K,
) -> Result<(), Stop<Shown>>
    ensures puts { PutsFrames K.takes K.failures line front outbox.old sink.old frames.old result
        frames.new outbox.new sink.new }
    ensures source { LeavesSource result }
{
    loop {
        let kind = frames.upcoming();
        match frames.next() {
            Ok(false) => return Ok(()),
            Ok(true) => {
                put_frame(
                    alloc,
                    line,
                    front,
                    kind,
                    frames.frame(),
                    spelled,
                    outbox,
                    sink,
                )?;
            }
            Err(fault) => return Err(fault_stop(fault)),
        }
    }
}
