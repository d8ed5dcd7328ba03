//! A tracker of the parts of a stream or a file.

ghost use Rattle.std.specs.Prelude.{◌≡◌, drop};
ghost use Rattle.pgpipe_explain.specs.Tracker.{after, after_byte, begun, place_in, taken};

use crate::binary::Binary;
use crate::place::Place;
use crate::text::LastByte;
use crate::wire::Wire;

/// What is tracked.
#[derive(Clone, Copy)]
pub enum TrackedKind {
    /// The messages of a backend.
    Back,
    /// The first packets and then the messages of a client.
    Front,
    /// The rows of a COPY text file, or other lines in which a backslash stands before none of their ends.
    Text,
    /// The rows of a COPY binary file.
    Binary,
}

/// How far a part has come, by the kind of what is tracked.
#[derive(Clone, Copy)]
pub enum Phase {
    /// A message or a first packet.
    Wire(Wire),
    /// A line of a text file.
    Text(LastByte),
    /// The header of a binary file, a row or the trailer.
    Binary(Binary),
}

/// What one byte does.
#[derive(Clone, Copy)]
pub enum ByteEffect {
    /// It stands within its part.
    Within(Phase),
    /// It stands within its part, and ends a line.
    Line(Phase),
    /// It is the last byte of its part.
    Last(Phase),
    /// It is the first byte of the next part, since the part before has ended without it.
    First(Phase),
}

/// Follows the parts of a stream or a file, byte by byte. It judges only lengths and line ends.
#[derive(Clone, Copy)]
pub struct Tracker {
    /// Where the part that the next byte is of begins.
    pub place: Place,
    /// The line that the next byte is of.
    pub line: u64,
    /// How many bytes there were.
    pub read: u64,
    /// How far the part has come.
    pub phase: Phase,
}

impl Tracker {
    /// A tracker before the first byte.
    pub fn new(kind: TrackedKind) -> Tracker
        ensures { result ≡ begun kind }
    {
        Tracker {
            place: Place {
                number: 1,
                line: 1,
                offset: 0,
            },
            line: 1,
            read: 0,
            phase: match kind {
                TrackedKind::Back => Phase::Wire(Wire::message()),
                TrackedKind::Front => Phase::Wire(Wire::packet()),
                TrackedKind::Text => Phase::Text(LastByte::Plain),
                TrackedKind::Binary => Phase::Binary(Binary::header()),
            },
        }
    }

    // What a byte does.
    fn turn(self, byte: u8) -> ByteEffect
        ensures { result ≡ taken self.phase byte }
    {
        match self.phase {
            Phase::Wire(wire) => wire.take(byte),
            Phase::Text(text) => text.take(byte),
            Phase::Binary(binary) => binary.take(byte),
        }
    }

    /// The tracker after one more byte.
    pub fn after_byte(self, byte: u8) -> Tracker
        ensures { result ≡ after_byte self byte }
    {
        let read = self.read.saturating_add(1);
        match self.turn(byte) {
            ByteEffect::Within(phase) => Tracker {
                read,
                phase,
                ..self
            },
            ByteEffect::Line(phase) => Tracker {
                read,
                phase,
                line: self.line.saturating_add(1),
                ..self
            },
            ByteEffect::Last(phase) => {
                let line = self.line.saturating_add(1);
                Tracker {
                    place: self.place.next(line, read),
                    line,
                    read,
                    phase,
                }
            }
            ByteEffect::First(phase) => {
                let line = self.line.saturating_add(1);
                Tracker {
                    place: self.place.next(line, self.read),
                    line,
                    read,
                    phase,
                }
            }
        }
    }

    /// The tracker after these bytes too.
    pub fn after(self, bytes: &[u8]) -> Tracker
        ensures { result ≡ after self bytes.now }
    {
        let mut tracker = self;
        for byte in bytes {
            tracker = tracker.after_byte(*byte);
        }
        tracker
    }
}

/// Where the part of this number begins, if a tracker comes to it within these bytes.
pub fn place_in(tracker: Tracker, bytes: &[u8], number: u64) -> Option<Place>
    ensures { result ≡ place_in tracker bytes.now number }
{
    let mut tracker = tracker;
    for byte in bytes {
        if tracker.place.number == number {
            return Some(tracker.place);
        }
        tracker = tracker.after_byte(*byte);
    }
    if tracker.place.number == number {
        return Some(tracker.place);
    }
    None
}
