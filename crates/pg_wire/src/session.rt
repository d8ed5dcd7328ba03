//! What a session is made of, for either end: requests, and how they end.

use pg_codec::{Column, CopyHead, Status, Target};
use pg_seq::{ByElement, DebugElement, Seq};
use pg_values::{Fields, Values};

/// A step of an extended query ("Extended Query"). Its texts hold no zero byte, and its lists have at most 65,535 elements. A client rejects a
/// request in which this isn't so (C3).
#[derive(Clone, Debug, PartialEq, Eq, Drop)]
pub enum Step {
    /// Makes a prepared statement.
    Parse {
        /// The statement's name; empty for the unnamed one.
        name: Seq<u8>,
        /// The query.
        text: Seq<u8>,
        /// The object ids of the types of the first parameters; 0 leaves one open.
        types: Seq<u32>,
    },
    /// Makes a portal of a prepared statement.
    Bind {
        /// The portal's name; empty for the unnamed one.
        portal: Seq<u8>,
        /// The statement's name.
        statement: Seq<u8>,
        /// The format codes of the values: none, one for all, or one each.
        formats: Seq<i16>,
        /// The values of the parameters.
        values: Values,
        /// The format codes of the result's columns: none, one for all, or one each.
        result_formats: Seq<i16>,
    },
    /// Asks for the description of a statement or a portal.
    Describe {
        /// Which of the two is named.
        target: Target,
        /// Its name.
        name: Seq<u8>,
    },
    /// Runs a portal.
    Execute {
        /// The portal's name.
        portal: Seq<u8>,
        /// The most rows to return; 0 is no limit.
        max_rows: i32,
    },
    /// Closes a statement or a portal.
    Close {
        /// Which of the two is named.
        target: Target,
        /// Its name.
        name: Seq<u8>,
    },
}

impl DebugElement for Step {
    type Form = ByElement;
}

/// What a client asks for. A ReadyForQuery ends the answer to each.
#[derive(Clone, Debug, PartialEq, Eq, Drop)]
pub enum Request {
    /// A simple query: one message, which may hold several commands ("Simple Query"). A client rejects a text that holds a zero byte (C3).
    Query(Seq<u8>),
    /// An extended query: these steps, and a Sync after them ("Extended Query").
    Group(Seq<Step>),
}

/// What a server may say at any time ("Asynchronous Operations").
#[derive(Clone, Debug, PartialEq, Eq, Drop)]
pub enum Aside {
    /// A notice.
    Notice(Fields),
    /// A run-time parameter has this value now.
    Parameter {
        /// The parameter's name.
        name: Seq<u8>,
        /// Its value.
        value: Seq<u8>,
    },
    /// A notification that the session listens for.
    Notification {
        /// The process id of the notifying backend.
        process: i32,
        /// The channel that the notification was raised on.
        channel: Seq<u8>,
        /// The payload that the notifying process passed.
        payload: Seq<u8>,
    },
}

impl DebugElement for Aside {
    type Form = ByElement;
}

/// How the run of a portal ended.
#[derive(Clone, Debug, PartialEq, Eq, Drop)]
pub enum ExecEnd {
    /// The command is complete, with this tag.
    Complete(Seq<u8>),
    /// The query was empty.
    Empty,
    /// The row limit was reached.
    Suspended,
}

/// A whole result of a query, or the whole answer to a step.
#[derive(Clone, Debug, PartialEq, Eq, Drop)]
pub enum Part {
    /// Rows, of a query.
    Rows {
        /// The rows' columns.
        columns: Seq<Column>,
        /// The rows. The number of a row's values isn't compared with that of the columns.
        rows: Seq<Values>,
        /// The tag of the complete command, as `SELECT 1`.
        tag: Seq<u8>,
    },
    /// A command without rows, with its tag.
    Command(Seq<u8>),
    /// An empty query.
    Empty,
    /// A copy from the server ("COPY Operations").
    CopyOut {
        /// The copy's formats.
        head: CopyHead,
        /// The data, as it was cut by the server.
        chunks: Seq<Seq<u8>>,
        /// The tag of the complete command.
        tag: Seq<u8>,
    },
    /// A copy to the server that the server has accepted ("COPY Operations").
    CopyIn {
        /// The copy's formats.
        head: CopyHead,
        /// The tag of the complete command.
        tag: Seq<u8>,
    },
    /// A Parse was done.
    Parsed,
    /// A Bind was done.
    Bound,
    /// What a Describe asked for.
    Described {
        /// The types of the statement's parameters; None for a portal.
        parameters: Option<Seq<u32>>,
        /// The columns of the rows that it returns; None where it returns no rows.
        columns: Option<Seq<Column>>,
    },
    /// What an Execute gave.
    Executed {
        /// The rows.
        rows: Seq<Values>,
        /// How the run ended.
        end: ExecEnd,
    },
    /// A Close was done.
    Shut,
}

impl DebugElement for Part {
    type Form = ByElement;
}

/// How a request ended.
#[derive(Clone, Debug, PartialEq, Eq, Drop)]
pub struct Outcome {
    /// The results or answers that came whole, in order. One that an error cut off isn't among them.
    pub parts: Seq<Part>,
    /// The first error, if there was one.
    pub error: Option<Fields>,
    /// The transaction status after the request.
    pub status: Status,
    /// The notices, run-time parameters and notifications that came before its ReadyForQuery, in order.
    pub asides: Seq<Aside>,
}
