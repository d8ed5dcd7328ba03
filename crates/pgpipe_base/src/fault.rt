//! How a tool fails.

ghost use Rattle.std.specs.Prelude.{◌≡◌};

use std::alloc::AllocError;
use thiserror::Error;

/// Why a tool couldn't finish its work.
#[derive(Clone, Copy, Debug, PartialEq, Eq, Error)]
pub enum ToolFault {
    /// The source or the sink failed, or the source gave no end.
    #[error("device")]
    Device,
    /// Memory ran out.
    #[error("memory")]
    Memory,
}

impl From<AllocError> for ToolFault {
    ghost use Rattle.pgpipe_base.specs.declared.fault.ToolFault.TheVariants.{Memory};

    ghost from_gives = { λ _ fault. fault ≡ Memory };

    fn from(_e: AllocError) -> ToolFault {
        ToolFault::Memory
    }
}
