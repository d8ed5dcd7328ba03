//! What a backend is to answer, and what it logs of the requests that it answered.

mod shown;

use pg_seq::{ByElement, DebugElement};
use pg_wire::{Aside, Column, CopyHead, ExecEnd, Fields, Outcome, Request, Seq, Status, Values};

/// The key with which a client may ask to cancel ("Canceling Requests in Progress").
#[derive(Clone, Copy, Debug, PartialEq, Eq)]
pub struct Key {
    /// The process id of the backend.
    pub process: i32,
    /// The secret key of the backend.
    pub secret: i32,
}

/// How a client is authenticated ("Start-up"). `{:?}` doesn't write a password.
#[derive(Clone, PartialEq, Eq, Drop)]
pub enum Auth {
    /// Each user is let in.
    Trust,
    /// A client is let in that sends this password when it is asked by AuthenticationCleartextPassword.
    Cleartext(Seq<u8>),
    /// A client is let in that sends the right answer to AuthenticationMD5Password, made of this password, this salt and its user.
    Md5 {
        /// The password.
        password: Seq<u8>,
        /// The salt.
        salt: [u8; 4],
    },
}

/// How a copy from the client ends ("COPY Operations").
#[derive(Clone, Debug, PartialEq, Eq, Drop)]
pub enum Load {
    /// Its chunks are taken, and after its CopyDone it is complete with this tag.
    Accept(Seq<u8>),
    /// It is rejected with an error, which decides its request.
    Refuse {
        /// It is rejected at the chunk of this number, counted from 1, or at its CopyDone where that comes before. Where this is 0, it is rejected
        /// at once.
        after: u32,
        /// The error.
        fields: Fields,
    },
}

/// A result of a query, or the answer to a step. It is a [`Part`](pg_wire::Part), except that a copy from the client has how it is to end.
#[derive(Clone, Debug, PartialEq, Eq, Drop)]
pub enum ScriptPart {
    /// Rows, of a query.
    Rows {
        /// The rows' columns.
        columns: Seq<Column>,
        /// The rows.
        rows: Seq<Values>,
        /// The tag of the complete command, as `SELECT 1`.
        tag: Seq<u8>,
    },
    /// A command without rows, with its tag.
    Command(Seq<u8>),
    /// An empty query.
    Empty,
    /// A copy to the client.
    CopyOut {
        /// The copy's formats.
        head: CopyHead,
        /// The data: a CopyData message for each.
        chunks: Seq<Seq<u8>>,
        /// The tag of the complete command.
        tag: Seq<u8>,
    },
    /// A copy from the client.
    CopyIn {
        /// The copy's formats.
        head: CopyHead,
        /// How it ends.
        load: Load,
    },
    /// A Parse was done.
    Parsed,
    /// A Bind was done.
    Bound,
    /// What a Describe asked for.
    Described {
        /// The types of the statement's parameters; None for a portal.
        parameters: Option<Seq<u32>>,
        /// The columns of the rows that it returns; None where it returns no rows.
        columns: Option<Seq<Column>>,
    },
    /// What an Execute gave.
    Executed {
        /// The rows.
        rows: Seq<Values>,
        /// How the run ended.
        end: ExecEnd,
    },
    /// A Close was done.
    Shut,
}

impl DebugElement for ScriptPart {
    type Form = ByElement;
}

/// The answer to one request. It fits a Query where all its parts are results. It fits a group where part i answers step i, and there are as many
/// parts as steps; with an error there may be fewer parts.
#[derive(Clone, Debug, PartialEq, Eq, Drop)]
pub struct Answer {
    /// The asides, which are sent before the parts ("Asynchronous Operations").
    pub before: Seq<Aside>,
    /// The whole results, or the answers to steps.
    pub parts: Seq<ScriptPart>,
    /// The error that ends it, if there is one.
    pub error: Option<Fields>,
    /// The transaction status after it.
    pub status: Status,
}

impl DebugElement for Answer {
    type Form = ByElement;
}

/// What a backend answers: request number k gets answer number k. `{:?}` doesn't write a password.
#[derive(Clone, PartialEq, Eq, Drop)]
pub struct Script {
    /// How a client is authenticated.
    pub auth: Auth,
    /// The run-time parameters that a client is sent once it is let in: names and values.
    pub pairs: Seq<(Seq<u8>, Seq<u8>)>,
    /// The key of the BackendKeyData that a client is sent once it is let in, if there is one.
    pub key: Option<Key>,
    /// The answers, in the order of the requests.
    pub answers: Seq<Answer>,
}

/// A request that was decided, how it ended, and the chunks that were taken for its copy up to then.
#[derive(Clone, Debug, PartialEq, Eq, Drop)]
pub struct Logged {
    /// What the client asked for.
    pub request: Request,
    /// Its outcome.
    pub outcome: Outcome,
    /// The chunks that were taken for its copy from the client, in order.
    pub loaded: Seq<Seq<u8>>,
}
