//! Marks of messages.

ghost use Rattle.std.specs.Prelude.{◌≡◌};
ghost use Rattle.pg_response.specs.Place.{mark_of};

use pg_wire::BackMessage;

/// What a message of a response is, without what it carries: all that decides where it may come.
#[derive(Clone, Copy)]
pub enum Mark {
    RowDescription,
    DataRow,
    CommandComplete,
    EmptyQuery,
    CopyOut,
    CopyIn,
    CopyData,
    CopyDone,
    ParameterDescription,
    NoData,
    PortalSuspended,
    ParseComplete,
    BindComplete,
    CloseComplete,
    Error,
    /// A message that is no part of a response.
    Other,
}

impl Mark {
    /// The mark of a message.
    pub fn of(message: &BackMessage) -> Mark
        ensures { result ≡ mark_of message.now }
    {
        match message {
            BackMessage::RowDescription(_) => Mark::RowDescription,
            BackMessage::DataRow(_) => Mark::DataRow,
            BackMessage::CommandComplete(_) => Mark::CommandComplete,
            BackMessage::EmptyQuery => Mark::EmptyQuery,
            BackMessage::CopyOut(_) => Mark::CopyOut,
            BackMessage::CopyIn(_) => Mark::CopyIn,
            BackMessage::CopyData(_) => Mark::CopyData,
            BackMessage::CopyDone => Mark::CopyDone,
            BackMessage::ParameterDescription(_) => Mark::ParameterDescription,
            BackMessage::NoData => Mark::NoData,
            BackMessage::PortalSuspended => Mark::PortalSuspended,
            BackMessage::ParseComplete => Mark::ParseComplete,
            BackMessage::BindComplete => Mark::BindComplete,
            BackMessage::CloseComplete => Mark::CloseComplete,
            BackMessage::ErrorResponse(_) => Mark::Error,
            _ => Mark::Other,
        }
    }
}
