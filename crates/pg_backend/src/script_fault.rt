//! Why a script is rejected.

ghost use Rattle.std.specs.Prelude.{◌≡◌};
ghost use Rattle.pg_backend.specs.declared.script_fault.ScriptFault.TheVariants.{Memory};

use std::alloc::AllocError;
use thiserror::Error;

/// Why a script can't be played: the first of these that holds.
#[derive(Clone, Copy, Debug, PartialEq, Eq, Error)]
pub enum ScriptFault {
    /// An answer has two or more copies from the client.
    #[error("S1 Copies")]
    Copies,
    /// A message of the script has no spelling, be it in an answer that fits its request or not.
    #[error("S2 Encode")]
    Encode,
    /// Memory ran out, and neither of the others holds.
    #[error("S3 Memory")]
    Memory,
}

impl From<AllocError> for ScriptFault {
    ghost from_gives = { λ _ e. e ≡ Memory };

    fn from(_e: AllocError) -> ScriptFault {
        ScriptFault::Memory
    }
}
