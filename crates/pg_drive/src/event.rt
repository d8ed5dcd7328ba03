//! What a session gives, and why it gives nothing.

ghost use Rattle.std.specs.Prelude.{◌≡◌};
ghost use Rattle.pg_drive.specs.Session.{session_code};
ghost use Rattle.pg_drive.specs.declared.event.SessionFault.TheVariants as faults;

use pg_client::{CallFault, FeedFault, Loss, Settled};
use pg_wire::{BackMessage, Request, Status};
use thiserror::Error;

/// What a session gives of a request, in order.
#[derive(Clone, Debug, PartialEq, Eq, Drop)]
pub enum Event {
    /// A message of the answer, but not its ReadyForQuery. Whether the request takes effect isn't known yet.
    Message(BackMessage),
    /// A row, which [`Session::held`](crate::Session::held) lends until the next call. Only
    /// [`next_lent`](crate::Session::next_lent) and [`try_next_lent`](crate::Session::try_next_lent) give it.
    Row,
    /// ReadyForQuery has come: the request is settled, and a new one may be made.
    Settled {
        /// The request.
        request: Request,
        /// The transaction status after it.
        status: Status,
    },
    /// The server awaits the data of a copy. Nothing was received in this call.
    CopyIn,
}

/// What a session that gives whole answers gives of a request.
#[derive(Clone, Debug, PartialEq, Eq, Drop)]
pub enum GroupEvent {
    /// The request is settled: this is it, with its whole answer.
    Settled(Settled),
    /// The server awaits the data of a copy, and nothing was received.
    CopyIn,
}

/// Why a session gives nothing.
#[derive(Clone, Debug, PartialEq, Eq, Drop, Error)]
pub enum SessionFault {
    /// The client rejected the call, and nothing has changed.
    #[error("N1 Call {0}")]
    Call(CallFault),
    /// The client rejected what the server sent, and the session is closed.
    #[error("N2 Feed {fault}")]
    Feed {
        /// Why the client rejected it.
        fault: FeedFault,
        /// The request that is in doubt, if there is one.
        loss: Loss,
    },
    /// The connection is lost, with the request that is in doubt, if there is one. The server's bytes have ended, or a call of the link failed. The
    /// session is closed.
    #[error("N3 Lost")]
    Lost(Loss),
    /// The call received as many pieces as it may. Nothing is lost: the call can be made again.
    #[error("N4 PiecesUsed")]
    PiecesUsed,
    /// Memory for the copy of a row ran out. Nothing is lost: [`Session::held`](crate::Session::held) lends the row, and the next call goes on.
    #[error("N5 Memory")]
    Memory,
}

impl From<CallFault> for SessionFault {
    ghost from_gives = { λ f e. e ≡ faults.Call f };

    fn from(refused: CallFault) -> SessionFault {
        SessionFault::Call(refused)
    }
}

impl SessionFault {
    /// Its code, `N1` to `N5`: the first word of what it is shown as.
    pub fn code(&self) -> &'static str
        ensures { result.now ≡ session_code self.now }
    {
        match self {
            SessionFault::Call(_) => "N1",
            SessionFault::Feed { .. } => "N2",
            SessionFault::Lost(_) => "N3",
            SessionFault::PiecesUsed => "N4",
            SessionFault::Memory => "N5",
        }
    }
}
