//! What a message of the client means.

ghost use Rattle.std.specs.Prelude.{◌≡◌};
ghost use Rattle.pg_backend.specs.Meaning.{meaning, in_copy};

use pg_wire::{FrontMessage, Seq, Step};

/// What a message means where a request is awaited.
pub enum Meaning {
    /// A query, with its text.
    Asks(Seq<u8>),
    /// One more step of a group.
    Adds(Step),
    /// A Sync: the group is complete, and is a request.
    Closes,
    /// A message that has no effect.
    Drops,
    /// The client leaves.
    Leaves,
    /// A message that can't stand there.
    Strays,
}

/// What a message means during a copy from the client.
pub enum InCopy {
    /// Data of the copy.
    Chunk(Seq<u8>),
    /// The data is complete.
    Done,
    /// The client gives the copy up, for this reason.
    Fails(Seq<u8>),
    /// A message that has no effect.
    Waits,
    /// The client leaves.
    Leaves,
    /// A message that can't stand there, and ends the copy.
    Strays,
}

impl Meaning {
    /// What the message means where a request is awaited.
    pub fn of(message: FrontMessage) -> Meaning
        ensures { result ≡ meaning message }
    {
        match message {
            FrontMessage::Query(text) => Meaning::Asks(text),
            FrontMessage::Parse { name, text, types } => {
                Meaning::Adds(Step::Parse { name, text, types })
            }
            FrontMessage::Bind {
                portal,
                statement,
                formats,
                values,
                result_formats,
            } => Meaning::Adds(Step::Bind {
                portal,
                statement,
                formats,
                values,
                result_formats,
            }),
            FrontMessage::Describe { target, name } => Meaning::Adds(Step::Describe {
                target,
                name,
            }),
            FrontMessage::Execute { portal, max_rows } => {
                Meaning::Adds(Step::Execute { portal, max_rows })
            }
            FrontMessage::Close { target, name } => Meaning::Adds(Step::Close { target, name }),
            FrontMessage::Sync => Meaning::Closes,
            FrontMessage::Flush => Meaning::Drops,
            FrontMessage::CopyData(_) => Meaning::Drops,
            FrontMessage::CopyDone => Meaning::Drops,
            FrontMessage::CopyFail(_) => Meaning::Drops,
            FrontMessage::Terminate => Meaning::Leaves,
            FrontMessage::Password(_) => Meaning::Strays,
        }
    }
}

impl InCopy {
    /// What the message means during a copy.
    pub fn of(message: FrontMessage) -> InCopy
        ensures { result ≡ in_copy message }
    {
        match message {
            FrontMessage::CopyData(bytes) => InCopy::Chunk(bytes),
            FrontMessage::CopyDone => InCopy::Done,
            FrontMessage::CopyFail(reason) => InCopy::Fails(reason),
            FrontMessage::Flush => InCopy::Waits,
            FrontMessage::Sync => InCopy::Waits,
            FrontMessage::Terminate => InCopy::Leaves,
            _ => InCopy::Strays,
        }
    }
}
