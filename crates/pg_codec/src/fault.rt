//! Why a message was not written, or not read.

ghost use Rattle.std.specs.Prelude.{◌≡◌};
ghost use Rattle.pg_codec.specs.declared.fault.BodyFault.TheVariants.{Memory};
ghost use Rattle.pg_codec.specs.declared.fault.EncodeFault.TheVariants as encode;

use std::alloc::{AllocError, AllocFailed};
use thiserror::Error;

/// Why an encoder rejected a message: the first of these that holds. The buffer is then as it was. Which messages have no spelling follows from
/// "Message Formats".
#[derive(Clone, Copy, Debug, PartialEq, Eq, Error)]
pub enum EncodeFault {
    /// A String holds a zero byte, or the code of an error field is 0.
    #[error("E1 HasZero")]
    HasZero,
    /// A name of a startup packet's parameter is empty.
    #[error("E2 EmptyName")]
    EmptyName,
    /// A list with a 16-bit count has more than 65,535 elements.
    #[error("E3 TooMany")]
    TooMany,
    /// An AuthOther has the code 0, 3 or 5, which other messages have.
    #[error("E6 ReservedCode")]
    ReservedCode,
    /// The length field would pass 1,073,741,823, or 10,000 for a startup packet.
    #[error("E4 TooLong")]
    TooLong,
    /// The buffer could not grow.
    #[error("E5 Memory")]
    Memory,
}

impl From<AllocError> for EncodeFault {
    ghost from_gives = { λ _ e. e ≡ encode.Memory };

    fn from(_e: AllocError) -> EncodeFault {
        EncodeFault::Memory
    }
}

impl<T: Drop> From<AllocFailed<T>> for EncodeFault {
    ghost from_gives = { λ _ e. e ≡ encode.Memory };

    fn from(_e: AllocFailed<T>) -> EncodeFault {
        EncodeFault::Memory
    }
}

/// Why no message was made of a body.
#[derive(Clone, Copy, Debug, PartialEq, Eq)]
pub enum BodyFault {
    /// No message has this tag and this body.
    Bad,
    /// Memory ran out.
    Memory,
}

impl From<AllocError> for BodyFault {
    ghost from_gives = { λ _ e. e ≡ Memory };

    fn from(_e: AllocError) -> BodyFault {
        BodyFault::Memory
    }
}

impl<T: Drop> From<AllocFailed<T>> for BodyFault {
    ghost from_gives = { λ _ e. e ≡ Memory };

    fn from(_e: AllocFailed<T>) -> BodyFault {
        BodyFault::Memory
    }
}
