//! What stands at the beginning of a rest.

ghost use Rattle.std.specs.Prelude.{◌≡◌, ◌≤◌};
ghost use Rattle.pgpipe_frames.specs.Frames.{field_at, judged, judged_by, judged_field};

use crate::next::NextFrame;
use pg_wire::{LONGEST, LONGEST_PACKET, WireFault};

/// What stands at the beginning of a rest.
#[derive(Clone, Copy, Debug, PartialEq, Eq)]
pub enum FrameJudgement {
    /// Not all of a frame: more bytes are to come.
    Open,
    /// A frame of so many bytes.
    Whole(usize),
    /// A bad length field.
    Faulty(WireFault),
}

// The length field of a message, once it is there.
fn message_field(rest: &[u8]) -> Option<[u8; 4]>
    ensures { result ≡ field_at 1 rest.now }
{
    match rest {
        [_, a, b, c, d, ..] => Some([*a, *b, *c, *d]),
        _ => None,
    }
}

// The length field of a first packet, once it is there.
fn packet_field(rest: &[u8]) -> Option<[u8; 4]>
    ensures { result ≡ field_at 0 rest.now }
{
    match rest {
        [a, b, c, d, ..] => Some([*a, *b, *c, *d]),
        _ => None,
    }
}

// What a length field says, of a rest of so many bytes, where so many stand before the field.
fn judge_by(tag: usize, least: u32, most: u32, size: usize, field: [u8; 4]) -> FrameJudgement
    requires { tag ≤ 1 }
    ensures { result ≡ judged_by tag least most size field }
{
    let len = u32::from_be_bytes(field);
    if len < least || len > i32::MAX as u32 {
        return FrameJudgement::Faulty(WireFault::ShortLength(i32::from_be_bytes(field)));
    }
    if len > most {
        return FrameJudgement::Faulty(WireFault::LongLength(i32::from_be_bytes(field)));
    }
    let whole = tag + len as usize;
    if size < whole {
        FrameJudgement::Open
    } else {
        FrameJudgement::Whole(whole)
    }
}

// What stands at the beginning of a rest, by its length field where that is there.
fn judge_field(
    tag: usize,
    least: u32,
    most: u32,
    size: usize,
    field: Option<[u8; 4]>,
) -> FrameJudgement
    requires { tag ≤ 1 }
    ensures { result ≡ judged_field tag least most size field }
{
    match field {
        None => FrameJudgement::Open,
        Some(field) => judge_by(tag, least, most, size, field),
    }
}

/// What stands at the beginning of a rest. A length field of a message is at least 4 and at most 1,073,741,823, that of a first packet at
/// least 8 and at most 10,000.
pub fn judge(next: NextFrame, rest: &[u8]) -> FrameJudgement
    ensures { result ≡ judged next rest.now }
{
    match next {
        NextFrame::Packet => judge_field(0, 8, LONGEST_PACKET, rest.len(), packet_field(rest)),
        NextFrame::Message => judge_field(1, 4, LONGEST, rest.len(), message_field(rest)),
        NextFrame::Nothing => FrameJudgement::Open,
    }
}
