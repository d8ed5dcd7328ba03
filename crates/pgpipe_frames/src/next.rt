//! Where a frame stands.

ghost use Rattle.std.specs.Prelude.{◌≡◌, ◌<◌, ◌≤◌, length, MatchOption};
ghost use Rattle.pgpipe_frames.specs.Frames.{code, after_code, next_after};
ghost use Rattle.pgpipe_frames.specs.declared.next.NextFrame.TheVariants.{Packet};

/// What stands next in a stream.
#[derive(Clone, Copy, Debug, PartialEq, Eq)]
pub enum NextFrame {
    /// A first packet of a client.
    Packet,
    /// A message.
    Message,
    /// Nothing that is read, since a request to cancel came.
    Nothing,
}

// The code of a request to cancel.
const CANCEL: u32 = 80_877_102;

// The codes of requests, 1234 and any lower half.
const REQUESTS: u32 = 1_234;

// What stands after a first packet of this code.
fn after_code(code: u32) -> NextFrame
    ensures { result ≡ after_code code }
{
    if code == CANCEL {
        NextFrame::Nothing
    } else if code / 65_536 == REQUESTS {
        NextFrame::Packet
    } else {
        NextFrame::Message
    }
}

/// The code of a first packet: the version that a startup asks for, or the number of a request.
pub fn code_of(packet: &[u8]) -> u32
    requires { 8 ≤ length packet.now }
    ensures { result ≡ code packet.now }
{
    match packet {
        [_, _, _, _, a, b, c, d, ..] => u32::from_be_bytes([*a, *b, *c, *d]),
        _ => 0,
    }
}

/// What stands after a frame. After a request for encryption it is another first packet, after a request to cancel nothing that is read, and after
/// any other frame a message.
pub fn next_after(next: NextFrame, frame: &[u8]) -> NextFrame
    requires { next ≡ Packet → 8 ≤ length frame.now }
    ensures { result ≡ next_after next frame.now }
{
    match next {
        NextFrame::Packet => after_code(code_of(frame)),
        NextFrame::Message => NextFrame::Message,
        NextFrame::Nothing => NextFrame::Nothing,
    }
}
