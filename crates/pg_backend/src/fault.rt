//! Why a call of a backend fails.

ghost use Rattle.std.specs.Prelude.{◌≡◌};
ghost use Rattle.pg_backend.specs.Fault.{backend_code};
ghost use Rattle.pg_backend.specs.declared.fault.BackendFault.TheVariants.{Memory};

use pg_wire::WireFault;
use std::alloc::{AllocError, AllocFailed};
use thiserror::Error;

/// Why a call of a backend fails.
#[derive(Clone, Copy, Debug, PartialEq, Eq, Error)]
pub enum BackendFault {
    /// The client's stream has this fault. An ErrorResponse with severity FATAL goes out, and the backend is closed.
    #[error("K1 Wire {0}")]
    Wire(WireFault),
    /// Memory ran out. After `push` nothing has changed. After `step` the backend is closed, with its output and log as they were.
    #[error("K2 Memory")]
    Memory,
    /// The backend was closed before the call, which changed nothing.
    #[error("K3 Closed")]
    Closed,
    /// A message with this tag can't stand in its place. An ErrorResponse with severity FATAL goes out, and the backend is closed.
    #[error("K4 Unexpected {0}")]
    Unexpected(u8),
}

impl BackendFault {
    /// Its code, `K1` to `K4`: the first word of what it is shown as.
    pub fn code(&self) -> &'static str
        ensures { result.now ≡ backend_code self.now }
    {
        match self {
            BackendFault::Wire(_) => "K1",
            BackendFault::Memory => "K2",
            BackendFault::Closed => "K3",
            BackendFault::Unexpected(_) => "K4",
        }
    }
}

impl From<AllocError> for BackendFault {
    ghost from_gives = { λ _ e. e ≡ Memory };

    fn from(_e: AllocError) -> BackendFault {
        BackendFault::Memory
    }
}

impl<T: Drop> From<AllocFailed<T>> for BackendFault {
    ghost from_gives = { λ _ e. e ≡ Memory };

    fn from(_e: AllocFailed<T>) -> BackendFault {
        BackendFault::Memory
    }
}
