//! Who has the turn, from a connection's first packet on, and how each stream ended.

ghost use Rattle.std.specs.Prelude.{◌≡◌, ◌==◌, ◌≤◌, length, None};
ghost use Rattle.pgpipe_frames.specs.Frames.{Frame, fewest};
ghost use Rattle.pgpipe_show.specs.Turn.{accepts, after_reply, due, due_of, ended_by, first_turn};
ghost use Rattle.pgpipe_show.specs.Turn.{is_reply, moved, opened, opening_sent, request_of};
ghost use Rattle.pgpipe_show.specs.Turn.{server_due, stage_due, stage_got, stage_sent, talk_of};

use super::talk::Talk;
use pg_wire::WireFault;
use pgpipe_frames::{NextFrame, code_of};

/// How a stream ended.
#[derive(Clone, Copy)]
pub enum Ended {
    /// With a whole frame, or without any.
    Whole,
    /// With so many bytes that are no whole frame.
    Rest(usize),
    /// With a bad length field.
    Fault(WireFault),
    /// With a request to cancel, after which nothing is read.
    Canceled,
    /// The stream goes on encrypted, which can't be read.
    Encrypted,
}

/// How the two streams of a connection ended.
#[derive(Clone, Copy)]
pub struct BothEnds {
    /// The client's.
    pub front: Ended,
    /// The server's.
    pub back: Ended,
}

/// A request for encryption.
#[derive(Clone, Copy)]
pub enum Encryption {
    /// An SSLRequest, which `S` accepts.
    Ssl,
    /// A GSSENCRequest, which `G` accepts.
    Gss,
}

/// How far a conversation has come.
#[derive(Clone, Copy)]
pub enum Stage {
    /// The client sends a first packet.
    Opening,
    /// The server has to answer a request for encryption, with one byte.
    Requested(Encryption),
    /// The client and the server talk.
    Talking(Talk),
}

/// What is printed next.
#[derive(Clone, Copy)]
pub enum Due {
    /// A frame of the client (true) or of the server, or the end of that stream.
    Side(bool),
    /// The answer to a request for encryption, or a message in its place, or the end of the server's stream.
    Reply(Encryption),
    /// Nothing: both streams have ended so.
    Nobody(BothEnds),
}

/// Who has the turn, and how the streams ended of which nothing is left.
#[derive(Clone, Copy)]
pub struct Turn {
    stage: Stage,
    front: Option<Ended>,
    back: Option<Ended>,
}

// Whether a byte accepts a request for encryption.
fn accepts(request: Encryption, byte: u8) -> bool
    ensures { result ≡ accepts request byte }
{
    match request {
        Encryption::Ssl => byte == b'S',
        Encryption::Gss => byte == b'G',
    }
}

/// Whether a byte answers a request for encryption: it rejects or accepts it.
pub fn is_reply(request: Encryption, byte: u8) -> bool
    ensures { result ≡ is_reply request byte }
{
    byte == b'N' || accepts(request, byte)
}

// The request for encryption that a first packet of this code is.
fn request_of(code: u32) -> Option<Encryption>
    ensures { result ≡ request_of code }
{
    if code == 80_877_103 {
        Some(Encryption::Ssl)
    } else if code == 80_877_104 {
        Some(Encryption::Gss)
    } else {
        None
    }
}

// After a first packet that may be a request for encryption.
fn opened(request: Option<Encryption>) -> Stage
    ensures { result ≡ opened request }
{
    match request {
        None => Stage::Talking(Talk::answering()),
        Some(request) => Stage::Requested(request),
    }
}

// After the first frame of a client, and after each that follows a rejected request for encryption.
fn opening_sent(kind: NextFrame, frame: &[u8]) -> Stage
    requires { fewest kind ≤ length frame.now }
    ensures { result ≡ opening_sent kind frame.now }
{
    match kind {
        NextFrame::Packet => opened(request_of(code_of(frame))),
        NextFrame::Message | NextFrame::Nothing => Stage::Talking(Talk::asked_first(frame[0])),
    }
}

// What is due, where the client's stream has ended.
fn server_due(stage: Stage) -> Due
    ensures { result ≡ server_due stage }
{
    match stage {
        Stage::Opening => Due::Side(false),
        Stage::Requested(request) => Due::Reply(request),
        Stage::Talking(_) => Due::Side(false),
    }
}

// What is due, where neither stream has ended.
fn stage_due(stage: Stage) -> Due
    ensures { result ≡ stage_due stage }
{
    match stage {
        Stage::Opening => Due::Side(true),
        Stage::Requested(request) => Due::Reply(request),
        Stage::Talking(talk) => Due::Side(talk.is_clients()),
    }
}

// What is due, by how the streams ended.
fn due_of(stage: Stage, front: Option<Ended>, back: Option<Ended>) -> Due
    ensures { result ≡ due_of stage front back }
{
    match back {
        None => match front {
            None => stage_due(stage),
            Some(_) => server_due(stage),
        },
        Some(back) => match front {
            None => Due::Side(true),
            Some(front) => Due::Nobody(BothEnds { front, back }),
        },
    }
}

impl Stage {
    // After a frame of the client.
    fn after_sent(self, kind: NextFrame, frame: &[u8]) -> Stage
        requires { fewest kind ≤ length frame.now }
        ensures { result ≡ stage_sent self kind frame.now }
    {
        match self {
            Stage::Opening => opening_sent(kind, frame),
            Stage::Requested(_) => opening_sent(kind, frame),
            Stage::Talking(talk) => Stage::Talking(talk.after_sent(kind, frame)),
        }
    }

    // The talk, which a message of the server begins if it has not begun.
    fn talk(self) -> Talk
        ensures { result ≡ talk_of self }
    {
        match self {
            Stage::Opening => Talk::answering(),
            Stage::Requested(_) => Talk::answering(),
            Stage::Talking(talk) => talk,
        }
    }

    // After a frame of the server.
    fn after_got(self, frame: &[u8]) -> Stage
        requires { 5 ≤ length frame.now }
        ensures { result ≡ stage_got self frame.now }
    {
        Stage::Talking(self.talk().after_got(frame))
    }
}

impl Turn {
    /// The turn at the beginning: the client sends its first packet.
    pub fn first() -> Turn
        ensures { result ≡ first_turn }
    {
        Turn {
            stage: Stage::Opening,
            front: None,
            back: None,
        }
    }

    /// What is printed next.
    pub fn due(self) -> Due
        ensures { result ≡ due self }
    {
        due_of(self.stage, self.front, self.back)
    }

    /// The turn after a frame of the client (`front`) or of the server.
    pub fn after_frame(self, front: bool, kind: NextFrame, frame: &[u8]) -> Turn
        requires { (5 ≤ length frame.now) × (fewest kind ≤ length frame.now) }
        ensures { result ≡ moved self front (record { kind = kind; bytes = frame.now }) }
    {
        if front {
            Turn {
                stage: self.stage.after_sent(kind, frame),
                front: self.front,
                back: self.back,
            }
        } else {
            Turn {
                stage: self.stage.after_got(frame),
                front: self.front,
                back: self.back,
            }
        }
    }

    /// The turn after the end of the client's stream (`front`) or of the server's.
    pub fn after_end(self, front: bool, how: Ended) -> Turn
        ensures { result ≡ ended_by self front how }
    {
        if front {
            Turn {
                stage: self.stage,
                front: Some(how),
                back: self.back,
            }
        } else {
            Turn {
                stage: Stage::Talking(self.stage.talk()),
                front: self.front,
                back: Some(how),
            }
        }
    }

    /// The turn after the answer to a request for encryption: another first packet follows, or both streams go on encrypted.
    pub fn after_reply(self, refused: bool) -> Turn
        ensures { result ≡ after_reply refused self }
    {
        if refused {
            Turn {
                stage: Stage::Opening,
                front: self.front,
                back: self.back,
            }
        } else {
            Turn {
                stage: Stage::Opening,
                front: Some(self.front.unwrap_or(Ended::Encrypted)),
                back: Some(Ended::Encrypted),
            }
        }
    }
}
