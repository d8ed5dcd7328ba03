//! What may happen to a pair, and what comes of it.

ghost use Rattle.std.specs.Prelude.{◌≡◌};
ghost use Rattle.pg_pair.specs.declared.event.PairFault.TheVariants.{Memory};

use pg_backend::BackendFault;
use pg_client::{Call, CallFault, FeedFault};
use pg_wire::Request;
use std::alloc::AllocError;
use thiserror::Error;

/// What may happen to a pair.
#[derive(Clone, Debug, PartialEq, Eq, Drop)]
pub enum Event {
    /// This call of the client is made.
    Call(Call),
    /// The backend handles one first packet or message, if one is whole.
    Step,
    /// At most so many bytes, the first that wait on the way, are delivered to the backend.
    ToBackend(u32),
    /// At most so many bytes, the first that wait on the way, are delivered to the client.
    ToClient(u32),
    /// The way to the backend breaks: nothing more arrives along it, and the backend is closed as lost.
    BreakToBackend,
    /// The way to the client breaks: nothing more arrives along it, and the client is closed as lost.
    BreakToClient,
}

/// What came of an event.
#[derive(Clone, Debug, PartialEq, Eq, Drop)]
pub enum Applied {
    /// It was done: no call was rejected, and no fault was returned.
    Done,
    /// Nothing was done: a delivery moved no byte, a step found no whole packet or message, the way is broken, or the end is closed.
    Nothing,
    /// The client rejected the call, and is as it was.
    Refused {
        /// The request that is handed back, where the call made one.
        request: Option<Request>,
        /// Why it was rejected.
        fault: CallFault,
    },
    /// The client returned this fault (F1 to F7) to the bytes that reached it last, and is closed.
    Client(FeedFault),
    /// The backend returned this fault. K1, K2 or K4 to a step: it is then closed. K2 to bytes that were delivered: they haven't reached it.
    Backend(BackendFault),
    /// The carrier failed or gave other bytes, and the receiving end returned no fault. The way is broken.
    Carrier,
}

/// Why an event wasn't applied.
#[derive(Clone, Copy, Debug, PartialEq, Eq, Error)]
pub enum PairFault {
    /// Memory for what the pair keeps of a call ran out. Both ways break as by the two break events, and what was settled stays.
    #[error("P1 Memory")]
    Memory,
}

impl From<AllocError> for PairFault {
    ghost from_gives = { λ _ e. e ≡ Memory };

    fn from(_e: AllocError) -> PairFault {
        PairFault::Memory
    }
}
