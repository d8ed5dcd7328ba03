//! To whom memory was refused.

use anyhow::Result;
use pg_client::{CallFault, FeedFault};
use pg_drive::DriveFault;
use pg_wire::{EncodeFault, WireFault};

/// Whose memory ran out.
#[derive(Clone, Copy, Debug, Default, Drop)]
pub struct Refused {
    /// A decoder's `push`.
    pub push: bool,
    /// A client's call.
    pub call: bool,
    /// A client that was driven.
    pub feed: bool,
}

impl Refused {
    /// Says it on standard error.
    pub fn say(&self, rt: &HostRuntime) -> Result<()> {
        if self.push {
            eprintln!(rt; "{}", WireFault::Memory)?;
        }
        if self.call {
            eprintln!(rt; "{}", CallFault::Encode(EncodeFault::Memory))?;
        }
        if self.feed {
            eprintln!(rt; "{}", DriveFault::Feed(FeedFault::Memory))?;
        }
        Ok(())
    }
}
