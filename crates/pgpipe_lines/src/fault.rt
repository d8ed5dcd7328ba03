//! Why a file of a loop isn't read.

ghost use Rattle.std.specs.Prelude.{◌≡◌};
ghost use Rattle.pgpipe_lines.specs.declared.fault.LineFault.TheVariants as line;
ghost use Rattle.pgpipe_lines.specs.declared.fault.Refusal.TheVariants.{Memory};
ghost use Rattle.pgpipe_lines.specs.Reads.{fault_at};

use std::alloc::{AllocError, AllocFailed};
use thiserror::Error;

/// Why SCRIPT or CALLS isn't read.
#[derive(Clone, Copy, Debug, PartialEq, Eq, Error)]
pub enum LineFault {
    /// The line in the row of this number, counted from 1, has no meaning in its place, or has a fault of the text format.
    #[error("line {0}")]
    Line(usize),
    /// Memory ran out.
    #[error("memory")]
    Memory,
}

impl From<AllocError> for LineFault {
    ghost from_gives = { λ _ e. e ≡ line.Memory };

    fn from(_e: AllocError) -> LineFault {
        LineFault::Memory
    }
}

/// Why a line is rejected.
#[derive(Clone, Copy, Debug, PartialEq, Eq)]
pub enum Refusal {
    /// It is none of its file's lines, or stands where it may not.
    Wrong,
    /// Memory ran out.
    Memory,
}

impl Refusal {
    /// The fault of the file whose row of this number is rejected.
    pub fn at(self, number: usize) -> LineFault
        ensures { result ≡ fault_at self number }
    {
        match self {
            Refusal::Wrong => LineFault::Line(number),
            Refusal::Memory => LineFault::Memory,
        }
    }
}

impl From<AllocError> for Refusal {
    ghost from_gives = { λ _ e. e ≡ Memory };

    fn from(_e: AllocError) -> Refusal {
        Refusal::Memory
    }
}

impl<T: Drop> From<AllocFailed<T>> for Refusal {
    ghost from_gives = { λ _ e. e ≡ Memory };

    fn from(_e: AllocFailed<T>) -> Refusal {
        Refusal::Memory
    }
}
