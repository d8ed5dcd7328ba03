//! What an early client gives.

use pg_wire::{BackMessage, Request, Status};

/// What an early client gives of a session, as it comes.
#[derive(Clone, Debug, PartialEq, Eq, Drop)]
pub enum Item {
    /// A message of a request's segment, but not its ReadyForQuery. Whether the request takes effect isn't known yet.
    Early(BackMessage),
    /// The ReadyForQuery that ends the segment of this request: all before it is settled.
    Settled {
        /// The request.
        request: Request,
        /// The transaction status that the ReadyForQuery gave.
        status: Status,
    },
}
