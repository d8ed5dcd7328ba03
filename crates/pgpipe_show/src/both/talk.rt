//! Who has the turn, by the messages that were sent ("Message Flow").

ghost use Rattle.std.specs.Prelude.{◌≡◌, ◌≤◌, false, length};
ghost use Rattle.pgpipe_frames.specs.Frames.{fewest, field_at};
ghost use Rattle.pgpipe_show.specs.declared.both.talk.Talk.TheVariants.{Answering};
ghost use Rattle.pgpipe_show.specs.Talk.{after_copy_in, after_message, after_ready, after_request};
ghost use Rattle.pgpipe_show.specs.Talk.{asked, filled, is_clients, is_final, talk_got, talk_sent};
ghost use Rattle.pgpipe_show.specs.Talk.{after_answer, wants_answer};

use pgpipe_frames::NextFrame;

/// Who has the turn once the server has sent a message, or the client a startup.
#[derive(Clone, Copy)]
pub enum Talk {
    /// The client.
    Asking {
        /// Whether it has ended a copy since its turn began.
        copied: bool,
        /// Whether the server owes a ReadyForQuery for what was asked before.
        behind: bool,
    },
    /// The client, which sends the data of a copy that a Query began.
    Filling,
    /// The server.
    Answering {
        /// Whether it answers a Query.
        query: bool,
        /// Whether the client ended a copy before it asked.
        copied: bool,
        /// Whether it owes two ReadyForQuery, and not one.
        behind: bool,
    },
}

// After a message of the client with this tag, in its turn.
fn asked(copied: bool, behind: bool, tag: u8) -> Talk
    ensures { result ≡ asked copied behind tag }
{
    if tag == b'Q' {
        Talk::Answering {
            query: true,
            copied: false,
            behind,
        }
    } else if tag == b'S' || tag == b'F' {
        Talk::Answering {
            query: false,
            copied,
            behind,
        }
    } else if tag == b'p' {
        Talk::Answering {
            query: false,
            copied: false,
            behind: false,
        }
    } else if tag == b'c' || tag == b'f' {
        Talk::Asking {
            copied: true,
            behind,
        }
    } else {
        Talk::Asking { copied, behind }
    }
}

// After a message of the client with this tag, where it sends the data of a copy that a Query began.
fn filled(tag: u8) -> Talk
    ensures { result ≡ filled tag }
{
    if tag == b'c' || tag == b'f' {
        Talk::Answering {
            query: true,
            copied: false,
            behind: false,
        }
    } else if tag == b'd' || tag == b'H' || tag == b'S' {
        Talk::Filling
    } else {
        asked(false, true, tag)
    }
}

// After a ReadyForQuery.
fn after_ready(query: bool, copied: bool, behind: bool) -> Talk
    ensures { result ≡ after_ready query copied behind }
{
    if behind {
        Talk::Answering {
            query,
            copied,
            behind: false,
        }
    } else {
        Talk::Asking {
            copied: false,
            behind: false,
        }
    }
}

// After a CopyInResponse or a CopyBothResponse.
fn after_copy_in(query: bool, copied: bool, behind: bool) -> Talk
    ensures { result ≡ after_copy_in query copied behind }
{
    if copied {
        Talk::Answering {
            query,
            copied: false,
            behind,
        }
    } else if query {
        Talk::Filling
    } else {
        Talk::Asking {
            copied: false,
            behind,
        }
    }
}

// Whether a message of the client follows no request for authentication of this code: AuthenticationOk or AuthenticationSASLFinal.
fn is_final(code: u32) -> bool
    ensures { result ≡ is_final code }
{
    code == 0 || code == 12
}

// The field after the length field of a message, once it is there.
fn code_at(frame: &[u8]) -> Option<[u8; 4]>
    ensures { result ≡ field_at 5 frame.now }
{
    match frame {
        [_, _, _, _, _, a, b, c, d, ..] => Some([*a, *b, *c, *d]),
        _ => None,
    }
}

// Whether a request for authentication with this field wants an answer.
fn wants_answer(field: Option<[u8; 4]>) -> bool
    ensures { result ≡ wants_answer field }
{
    match field {
        None => false,
        Some(field) => !is_final(u32::from_be_bytes(field)),
    }
}

// The server goes on answering.
fn goes_on(query: bool, copied: bool, behind: bool) -> Talk
    ensures { result ≡ Answering query copied behind }
{
    Talk::Answering {
        query,
        copied,
        behind,
    }
}

// After a request for authentication, which may want an answer.
fn after_request(query: bool, copied: bool, behind: bool, wants: bool) -> Talk
    ensures { result ≡ after_request query copied behind wants }
{
    if wants {
        Talk::Asking {
            copied: false,
            behind: true,
        }
    } else {
        goes_on(query, copied, behind)
    }
}

// After a message of the server, in its turn.
fn after_answer(query: bool, copied: bool, behind: bool, frame: &[u8]) -> Talk
    requires { 5 ≤ length frame.now }
    ensures { result ≡ after_answer query copied behind frame.now }
{
    let tag = frame[0];
    if tag == b'Z' {
        after_ready(query, copied, behind)
    } else if tag == b'R' {
        after_request(query, copied, behind, wants_answer(code_at(frame)))
    } else if tag == b'G' || tag == b'W' {
        after_copy_in(query, copied, behind)
    } else {
        goes_on(query, copied, behind)
    }
}

impl Talk {
    /// The talk after a startup, or after what the client sent first: the server answers.
    pub fn answering() -> Talk
        ensures { result ≡ Answering false false false }
    {
        Talk::Answering {
            query: false,
            copied: false,
            behind: false,
        }
    }

    /// The talk after the client has sent a message with this tag first, where it should have sent a packet.
    pub fn asked_first(tag: u8) -> Talk
        ensures { result ≡ asked false false tag }
    {
        asked(false, false, tag)
    }

    /// Whether the client has the turn.
    pub fn is_clients(self) -> bool
        ensures { result ≡ is_clients self }
    {
        match self {
            Talk::Asking { .. } => true,
            Talk::Filling => true,
            Talk::Answering { .. } => false,
        }
    }

    // After a message of the client with this tag.
    fn after_message(self, tag: u8) -> Talk
        ensures { result ≡ after_message self tag }
    {
        match self {
            Talk::Asking { copied, behind } => asked(copied, behind, tag),
            Talk::Filling => filled(tag),
            Talk::Answering {
                query,
                copied,
                behind,
            } => Talk::Answering {
                query,
                copied,
                behind,
            },
        }
    }

    /// The talk after a frame of the client.
    pub fn after_sent(self, kind: NextFrame, frame: &[u8]) -> Talk
        requires { fewest kind ≤ length frame.now }
        ensures { result ≡ talk_sent self kind frame.now }
    {
        match kind {
            NextFrame::Packet => Talk::answering(),
            NextFrame::Message | NextFrame::Nothing => self.after_message(frame[0]),
        }
    }

    /// The talk after a frame of the server.
    pub fn after_got(self, frame: &[u8]) -> Talk
        requires { 5 ≤ length frame.now }
        ensures { result ≡ talk_got self frame.now }
    {
        match self {
            Talk::Asking { copied, behind } => Talk::Asking { copied, behind },
            Talk::Filling => Talk::Filling,
            Talk::Answering {
                query,
                copied,
                behind,
            } => after_answer(query, copied, behind, frame),
        }
    }
}
