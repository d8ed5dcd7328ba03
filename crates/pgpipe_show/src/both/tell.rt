//! One line more.

ghost use Rattle.std.specs.Prelude.{◌≡◌, ◌≤◌, ◌∷◌, [], length};
ghost use Rattle.pgpipe_frames.specs.declared.next.NextFrame.TheVariants as next;
ghost use Rattle.pgpipe_frames.specs.Frames.{fewest};
ghost use Rattle.pgpipe_show.specs.declared.both.turn.Due.TheVariants as whose;
ghost use Rattle.pgpipe_show.specs.Entries.{Message, Reply};
ghost use Rattle.pgpipe_show.specs.Private.Telling.{Tells, TellsEntry};

use super::page::Page;
use super::reader::{Reader, receive_byte};
use super::turn::{BothEnds, Encryption, Ended, Turn, is_reply};
use pg_wire::{Sink, Source};
use pgpipe_base::Stop;
use pgpipe_frames::NextFrame;

// Puts the line of a frame of the client (`front`) or of the server.
fn tell_frame<K: Sink>(
    front: bool,
    turn: Turn,
    kind: NextFrame,
    frame: &[u8],
    page: &mut Page,
    sink: &mut K,
) -> Result<Turn, Stop<BothEnds>>
    requires { (5 ≤ length frame.now) × (fewest kind ≤ length frame.now) }
    ensures { TellsEntry K.takes K.failures turn page.old.outbox sink.old
        (Message front (record { kind = kind; bytes = frame.now })) result page.new.outbox sink.new }
{
    match page.put_frame(front, kind, frame, sink) {
        Ok(()) => Ok(turn.after_frame(front, kind, frame)),
        Err(stop) => Err(stop),
    }
}

// Puts the line of the answer to a request for encryption.
fn tell_reply<K: Sink>(
    turn: Turn,
    byte: u8,
    page: &mut Page,
    sink: &mut K,
) -> Result<Turn, Stop<BothEnds>>
    ensures { TellsEntry K.takes K.failures turn page.old.outbox sink.old (Reply byte) result
        page.new.outbox sink.new }
{
    match page.put_reply(byte, sink) {
        Ok(()) => Ok(turn.after_reply(byte == b'N')),
        Err(stop) => Err(stop),
    }
}

/// Puts the line of the next frame of the client (`front`) or of the server, or says that the stream has ended.
pub fn tell<S: Source, K: Sink>(
    front: bool,
    turn: Turn,
    reader: &mut Reader,
    source: &mut S,
    page: &mut Page,
    sink: &mut K,
) -> Result<Turn, Stop<BothEnds>>
    ensures { Tells S.gives S.failures S.has_ended K.takes K.failures (whose.Side front) turn
        reader.old.frames.next reader.old.frames.kept source.old page.old.outbox sink.old result
        reader.new.frames.next reader.new.frames.kept source.new page.new.outbox sink.new }
{
    let kind = reader.frames.upcoming();
    match reader.fetch(source) {
        Ok(None) => tell_frame(front, turn, kind, reader.frames.frame(), page, sink),
        Ok(Some(how)) => Ok(turn.after_end(front, how)),
        Err(stop) => Err(stop),
    }
}

// Puts what begins with this byte, where a request for encryption is to be answered.
fn tell_byte<S: Source, K: Sink>(
    request: Encryption,
    turn: Turn,
    byte: u8,
    reader: &mut Reader,
    source: &mut S,
    page: &mut Page,
    sink: &mut K,
) -> Result<Turn, Stop<BothEnds>>
    requires { reader.old.frames.kept ≡ [] }
    ensures { Tells S.gives S.failures S.has_ended K.takes K.failures (whose.Reply request) turn
        reader.old.frames.next (byte ∷ []) source.old page.old.outbox sink.old result
        reader.new.frames.next reader.new.frames.kept source.new page.new.outbox sink.new }
{
    if is_reply(request, byte) {
        reader.place = reader.place.past_byte();
        return tell_reply(turn, byte, page, sink);
    }
    match reader.frames.push(&[byte]) {
        Ok(()) => tell(false, turn, reader, source, page, sink),
        Err(_) => Err(Stop::Memory),
    }
}

/// Puts the server's answer to a request for encryption, or a message in its place, or says that its stream has ended.
pub fn tell_answer<S: Source, K: Sink>(
    request: Encryption,
    turn: Turn,
    reader: &mut Reader,
    source: &mut S,
    page: &mut Page,
    sink: &mut K,
) -> Result<Turn, Stop<BothEnds>>
    requires kept { reader.old.frames.kept ≡ [] }
    requires messages { reader.old.frames.next ≡ next.Message }
    ensures { Tells S.gives S.failures S.has_ended K.takes K.failures (whose.Reply request) turn
        reader.old.frames.next reader.old.frames.kept source.old page.old.outbox sink.old result
        reader.new.frames.next reader.new.frames.kept source.new page.new.outbox sink.new }
{
    match receive_byte(source) {
        Ok(Some(byte)) => tell_byte(request, turn, byte, reader, source, page, sink),
        Ok(None) => Ok(turn.after_end(false, Ended::Whole)),
        Err(stop) => Err(stop),
    }
}
