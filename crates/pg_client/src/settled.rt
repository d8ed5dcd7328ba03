//! What a client hands back.

use pg_wire::{Outcome, Request};

/// A request and how it ended.
#[derive(Clone, Debug, PartialEq, Eq, Drop)]
pub struct Settled {
    /// The request.
    pub request: Request,
    /// What the server answered.
    pub outcome: Outcome,
}

/// What is left of a session whose connection is gone.
#[derive(Clone, Debug, PartialEq, Eq, Drop)]
pub struct Loss {
    /// The request that was made and isn't settled, if there is one. Whether it took effect isn't known.
    pub unsettled: Option<Request>,
    /// Whether an error came for it.
    pub seen_error: bool,
}
