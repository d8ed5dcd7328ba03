//! The messages of both directions, and first packets.

mod shown;

use pg_codec::{Column, CopyHead, Status, Target};
use pg_seq::Seq;
use pg_values::{Fields, Values};

/// A message of the backend ("Message Formats", those marked B). A String has no zero byte, and a list after a 16-bit
/// count has at most 65,535 elements: a message in which this isn't so has no spelling.
#[derive(Clone, Debug, PartialEq, Eq, Drop)]
pub enum BackMessage {
    /// `R` with code 0, AuthenticationOk.
    AuthOk,
    /// `R` with code 3: the server asks for a password in clear text.
    AuthCleartext,
    /// `R` with code 5: the server asks for the MD5 text of a password, made with this salt.
    AuthMd5([u8; 4]),
    /// `R` with any other code, and what follows it.
    AuthOther {
        /// Not 0, 3 or 5.
        code: i32,
        /// The bytes after the code.
        rest: Seq<u8>,
    },
    /// `K`, BackendKeyData: what a cancel request has to name.
    KeyData {
        /// The process id of the backend.
        process: i32,
        /// The secret key of the backend.
        secret: i32,
    },
    /// `S`: the value of a run-time parameter.
    ParameterStatus {
        /// The parameter's name.
        name: Seq<u8>,
        /// Its current value.
        value: Seq<u8>,
    },
    /// `Z`, ReadyForQuery.
    Ready(Status),
    /// `T`: the columns of the rows that follow.
    RowDescription(Seq<Column>),
    /// `D`: a row.
    DataRow(Values),
    /// `C`: a command is complete; its tag, as `SELECT 1`.
    CommandComplete(Seq<u8>),
    /// `I`, EmptyQueryResponse.
    EmptyQuery,
    /// `1`: a Parse is done.
    ParseComplete,
    /// `2`: a Bind is done.
    BindComplete,
    /// `3`: a Close is done.
    CloseComplete,
    /// `n`: a statement or a portal returns no rows.
    NoData,
    /// `s`: the row limit of an Execute was reached.
    PortalSuspended,
    /// `t`: the object ids of the types of a statement's parameters.
    ParameterDescription(Seq<u32>),
    /// `E`: an error. The rest of what it cuts off doesn't come.
    ErrorResponse(Fields),
    /// `N`: a notice. It doesn't change what may follow.
    NoticeResponse(Fields),
    /// `A`, NotificationResponse.
    Notification {
        /// The process id of the notifying backend.
        process: i32,
        /// The channel that the notification was raised on.
        channel: Seq<u8>,
        /// The payload that the notifying process passed.
        payload: Seq<u8>,
    },
    /// `G`, CopyInResponse: the frontend is to send data.
    CopyIn(CopyHead),
    /// `H`, CopyOutResponse: data follows.
    CopyOut(CopyHead),
    /// `d`: data of a copy, cut anywhere.
    CopyData(Seq<u8>),
    /// `c`: the data of a copy is complete.
    CopyDone,
}

/// A message of the frontend ("Message Formats", those marked F). A String has no zero byte, and a list after a 16-bit count has at most 65,535
/// elements: a message in which this isn't so has no spelling. `{:?}` doesn't write a password.
#[derive(Clone, PartialEq, Eq, Drop)]
pub enum FrontMessage {
    /// `Q`: a simple query.
    Query(Seq<u8>),
    /// `P`: makes a prepared statement.
    Parse {
        /// The statement's name; empty for the unnamed one.
        name: Seq<u8>,
        /// The query.
        text: Seq<u8>,
        /// The object ids of the types of the first parameters; 0 leaves one open.
        types: Seq<u32>,
    },
    /// `B`: makes a portal of a prepared statement.
    Bind {
        /// The portal's name; empty for the unnamed one.
        portal: Seq<u8>,
        /// The statement's name.
        statement: Seq<u8>,
        /// The format codes of the values: none, one for all, or one each.
        formats: Seq<i16>,
        /// The values of the parameters.
        values: Values,
        /// The format codes of the result's columns: none, one for all, or one each.
        result_formats: Seq<i16>,
    },
    /// `D`: asks for the description of a statement or a portal.
    Describe {
        /// Which of the two is named.
        target: Target,
        /// Its name.
        name: Seq<u8>,
    },
    /// `C`: closes a statement or a portal.
    Close {
        /// Which of the two is named.
        target: Target,
        /// Its name.
        name: Seq<u8>,
    },
    /// `E`: runs a portal.
    Execute {
        /// The portal's name.
        portal: Seq<u8>,
        /// The most rows to return; 0 is no limit.
        max_rows: i32,
    },
    /// `S`: ends a group of messages, and asks for ReadyForQuery.
    Sync,
    /// `H`: asks for the answers so far.
    Flush,
    /// `X`: ends the session.
    Terminate,
    /// `d`: data of a copy, cut anywhere.
    CopyData(Seq<u8>),
    /// `c`: the data of a copy is complete.
    CopyDone,
    /// `f`: the copy is to fail, for this reason.
    CopyFail(Seq<u8>),
    /// `p`: a password in clear text, or the text of an MD5 answer.
    Password(Seq<u8>),
}

/// A packet with which a connection may begin. It has no tag ("Message Formats", StartupMessage, CancelRequest, SSLRequest
/// and GSSENCRequest).
#[derive(Clone, Debug, PartialEq, Eq, Drop)]
pub enum First {
    /// Begins a session of protocol 3.0 with these parameters: names, which aren't empty, and values.
    Startup(Seq<(Seq<u8>, Seq<u8>)>),
    /// Asks to cancel what a backend is doing.
    Cancel {
        /// The process id of the backend.
        process: i32,
        /// The secret key of the backend.
        secret: i32,
    },
    /// Asks for TLS.
    Ssl,
    /// Asks for GSSAPI encryption.
    Gss,
}
