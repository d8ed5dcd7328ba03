//! Kinds of messages.

ghost use Rattle.pg_response.specs.Kind.{IsKind};

use pg_wire::{Aside, BackMessage, Seq, Status};

/// What kind of message it is.
#[derive(Drop)]
pub enum Kind {
    /// A message that may come at any time and belongs to no answer, except a parameter's value.
    Aside(Aside),
    /// ParameterStatus.
    Parameter { name: Seq<u8>, value: Seq<u8> },
    /// ReadyForQuery.
    Ready(Status),
    /// BackendKeyData.
    Key { process: i32, secret: i32 },
    /// A message of the authentication.
    Auth(Auth),
    /// Any other message: one of a result, of the answer to a step, or an error.
    Part(BackMessage),
}

/// What the server asks for, or says, in a message of the authentication.
#[derive(Drop)]
pub enum Auth {
    /// The client is let in.
    Ok,
    /// The server asks for a password in clear text.
    Cleartext,
    /// The server asks for the MD5 text of a password, made with this salt.
    Md5([u8; 4]),
    /// The server asks for another way: its code, and what follows it.
    Other { code: i32, rest: Seq<u8> },
}

impl Kind {
    /// The kind of a message.
    pub fn of(message: BackMessage) -> Kind
        ensures { IsKind message result }
    {
        match message {
            BackMessage::AuthOk => Kind::Auth(Auth::Ok),
            BackMessage::AuthCleartext => Kind::Auth(Auth::Cleartext),
            BackMessage::AuthMd5(salt) => Kind::Auth(Auth::Md5(salt)),
            BackMessage::AuthOther { code, rest } => Kind::Auth(Auth::Other { code, rest }),
            BackMessage::KeyData { process, secret } => Kind::Key { process, secret },
            BackMessage::ParameterStatus { name, value } => Kind::Parameter { name, value },
            BackMessage::Ready(status) => Kind::Ready(status),
            BackMessage::NoticeResponse(fields) => Kind::Aside(Aside::Notice(fields)),
            BackMessage::Notification {
                process,
                channel,
                payload,
            } => Kind::Aside(Aside::Notification {
                process,
                channel,
                payload,
            }),
            other => Kind::Part(other),
        }
    }
}
