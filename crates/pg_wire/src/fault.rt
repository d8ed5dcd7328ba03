//! Why a stream gives no next message.

ghost use Rattle.std.specs.Prelude.{◌≡◌};
ghost use Rattle.pg_wire.specs.Fault.{wire_code};
ghost use Rattle.pg_wire.specs.declared.fault.WireFault.TheVariants as wire;

use std::alloc::AllocError;
use thiserror::Error;

/// Why the bytes of a stream can't be read as a next message: the first of these that holds ("Overview" and "Message Formats" say what a message is).
/// After Memory the decoder is unchanged. Any other fault is returned by each later call.
#[derive(Clone, Copy, Debug, PartialEq, Eq, Error)]
pub enum WireFault {
    /// Five bytes are there, and no message has this tag. First packets have no tag.
    #[error("W1 UnknownTag {0}")]
    UnknownTag(u8),
    /// The length field, this number, is below 4, or below 8 for a first packet.
    #[error("W2 ShortLength {0}")]
    ShortLength(i32),
    /// The length field, this number, is above the decoder's limit, or above 10,000 for a first packet.
    #[error("W3 LongLength {0}")]
    LongLength(i32),
    /// Eight bytes of a first packet are there, and no packet has this code.
    #[error("W5 BadFirst {0}")]
    BadFirst(i32),
    /// The message of this tag is whole, and its body isn't of the layout. The tag of a first packet is 0.
    #[error("W4 BadBody {0}")]
    BadBody(u8),
    /// Memory ran out.
    #[error("W6 Memory")]
    Memory,
}

impl WireFault {
    /// Its code, `W1` to `W6`: the first word of what it is shown as.
    pub fn code(&self) -> &'static str
        ensures { result.now ≡ wire_code self.now }
    {
        match self {
            WireFault::UnknownTag(_) => "W1",
            WireFault::ShortLength(_) => "W2",
            WireFault::LongLength(_) => "W3",
            WireFault::BadBody(_) => "W4",
            WireFault::BadFirst(_) => "W5",
            WireFault::Memory => "W6",
        }
    }
}

impl From<AllocError> for WireFault {
    ghost from_gives = { λ _ e. e ≡ wire.Memory };

    fn from(_e: AllocError) -> WireFault {
        WireFault::Memory
    }
}
