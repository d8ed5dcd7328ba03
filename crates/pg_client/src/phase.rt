//! Where a client stands, as its caller sees it.

ghost use Rattle.std.specs.Prelude.{◌↔◌, IsTrue};
ghost use Rattle.pg_client.specs.View.{IsOpenPhase};

/// Why a client is closed: the first of these that came.
#[derive(Clone, Copy, Debug, PartialEq, Eq)]
pub enum Cause {
    /// The stream has a fault.
    Wire,
    /// No fitting segment goes on with the message that came.
    Unexpected,
    /// The server asks for another way of authentication than a password.
    UnsupportedAuth,
    /// The server asks for a password, and none was given.
    PasswordWanted,
    /// The server rejected the startup.
    StartupError,
    /// The server ended the session with an error while no request was outstanding.
    ServerEnd,
    /// Memory ran out while bytes were taken in.
    Memory,
    /// The connection was lost.
    Lost,
    /// The client ended the session.
    Terminated,
}

/// Where a client stands.
#[derive(Clone, Copy, Debug, PartialEq, Eq)]
pub enum Phase {
    /// It was not started.
    New,
    /// The startup packet went out, and ReadyForQuery hasn't come.
    Starting,
    /// A request may be made.
    Ready,
    /// A request is outstanding.
    Busy,
    /// A request is outstanding, and the server waits for the data of a copy.
    CopyingIn,
    /// No more bytes are taken.
    Closed(Cause),
}

impl Phase {
    // Whether the client was started and isn't closed.
    pub(crate) fn is_open(self) -> bool
        ensures { IsTrue result ↔ IsOpenPhase self }
    {
        match self {
            Phase::New | Phase::Closed(_) => false,
            Phase::Starting | Phase::Ready | Phase::Busy | Phase::CopyingIn => true,
        }
    }
}
