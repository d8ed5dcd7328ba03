//! What `drive` and `drive_early` return.

ghost use Rattle.std.specs.Prelude.{◌≡◌};
ghost use Rattle.pg_drive.specs.Drive.{drive_code};
ghost use Rattle.pg_drive.specs.declared.answer.DriveFault.TheVariants as faults;

use pg_client::{FeedFault, Item, Loss};
use thiserror::Error;

/// Why [`drive`](crate::drive) returned: what there is to do for the caller.
#[derive(Clone, Debug, PartialEq, Eq, Drop)]
pub enum Driven {
    /// A settled group waits to be taken.
    Settled,
    /// The startup has ended: a request may be made.
    Ready,
    /// The server waits for the data of a copy.
    CopyIn,
    /// As many pieces were received as the call was given turns.
    TurnsUsed,
    /// The server's bytes have ended. The client is closed, and this is the request that is in doubt, if there is one.
    Lost(Loss),
}

/// Why [`drive_early`](crate::drive_early) returned.
#[derive(Clone, Debug, PartialEq, Eq, Drop)]
pub enum DrivenEarly {
    /// The startup has ended: a request may be made.
    Ready,
    /// The oldest item that waited, which was taken.
    Item(Item),
    /// The server waits for the data of a copy.
    CopyIn,
    /// As many pieces were received as the call was given turns.
    TurnsUsed,
    /// The server's bytes have ended. The client is closed, and this is the request that is in doubt, if there is one.
    Lost(Loss),
}

/// Why a client can't be driven.
#[derive(Clone, Debug, PartialEq, Eq, Drop, Error)]
pub enum DriveFault {
    /// The client returned this fault to what the server sent, and is closed.
    #[error("D1 Feed {0}")]
    Feed(FeedFault),
    /// The link failed. The client is closed, and this is the request that is in doubt, if there is one.
    #[error("D2 Link")]
    Link(Loss),
}

impl From<FeedFault> for DriveFault {
    ghost from_gives = { λ f e. e ≡ faults.Feed f };

    fn from(refused: FeedFault) -> DriveFault {
        DriveFault::Feed(refused)
    }
}

impl DriveFault {
    /// Its code, `D1` or `D2`: the first word of what it is shown as.
    pub fn code(&self) -> &'static str
        ensures { result.now ≡ drive_code self.now }
    {
        match self {
            DriveFault::Feed(_) => "D1",
            DriveFault::Link(_) => "D2",
        }
    }
}
