//! What `answer` returns.

ghost use Rattle.std.specs.Prelude.{◌≡◌};
ghost use Rattle.pg_backend.specs.OverLink.{answer_code};

use crate::fault::BackendFault;
use thiserror::Error;

/// Why [`answer`](crate::answer) returned.
#[derive(Clone, Copy, Debug, PartialEq, Eq)]
pub enum Answered {
    /// The backend is closed, and all that it replied is sent.
    Closed,
    /// The client's bytes have ended. `lost` was called on the backend, which is closed.
    Lost,
    /// As many turns were taken as the call was given.
    TurnsUsed,
}

/// Why a backend can't answer a client any more. The backend is closed.
#[derive(Clone, Copy, Debug, PartialEq, Eq, Error)]
pub enum AnswerFault {
    /// The backend returned this fault to what the client sent. What it replied is sent.
    #[error("A1 Backend {0}")]
    Backend(BackendFault),
    /// The link failed, and `lost` was called on the backend.
    #[error("A2 Link")]
    Link,
}

impl AnswerFault {
    /// Its code, `A1` or `A2`: the first word of what it is shown as.
    pub fn code(&self) -> &'static str
        ensures { result.now ≡ answer_code self.now }
    {
        match self {
            AnswerFault::Backend(_) => "A1",
            AnswerFault::Link => "A2",
        }
    }
}
