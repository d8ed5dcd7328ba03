//! What a backend is doing.

/// What a backend is doing.
#[derive(Clone, Copy, Debug, PartialEq, Eq)]
pub enum BackPhase {
    /// It awaits first packets.
    First,
    /// It awaits a password.
    Password,
    /// It awaits a request.
    Ready,
    /// It awaits the next step of a group, or the Sync that makes the group a request.
    Grouping,
    /// It awaits the data of a copy that isn't decided.
    CopyIn,
    /// It is closed.
    Closed,
}
