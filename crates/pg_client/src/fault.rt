//! Why a client rejects a call, or bytes.

ghost use Rattle.std.specs.Prelude.{◌≡◌};
ghost use Rattle.pg_client.specs.Closed.{cause_of};
ghost use Rattle.pg_client.specs.Fault.{call_code, feed_code};
ghost use Rattle.pg_client.specs.Private.Hearing.{of_wire};
ghost use Rattle.pg_client.specs.declared.fault.CallFault.TheVariants.{Encode};
ghost use Rattle.pg_client.specs.declared.fault.FeedFault.TheVariants as feeding;

use crate::phase::{Cause, Phase};
use pg_wire::{EncodeFault, Fields, WireFault};
use std::alloc::AllocError;
use thiserror::Error;

/// Why a client rejects a call: the first of these that holds. The client and its output are then as they were.
#[derive(Clone, Copy, Debug, PartialEq, Eq, Error)]
pub enum CallFault {
    /// The call isn't allowed in this phase.
    #[error("C1 NotReady")]
    NotReady(Phase),
    /// The call belongs to a copy, and this phase isn't CopyingIn.
    #[error("C2 NotCopying")]
    NotCopying(Phase),
    /// What the call would send has no spelling, or memory for it ran out.
    #[error("C3 Encode {0}")]
    Encode(EncodeFault),
    /// The server has sent no key.
    #[error("C4 NoKey")]
    NoKey,
}

impl CallFault {
    /// Its code, `C1` to `C4`: the first word of what it is shown as.
    pub fn code(&self) -> &'static str
        ensures { result.now ≡ call_code self.now }
    {
        match self {
            CallFault::NotReady(_) => "C1",
            CallFault::NotCopying(_) => "C2",
            CallFault::Encode(_) => "C3",
            CallFault::NoKey => "C4",
        }
    }
}

impl From<EncodeFault> for CallFault {
    ghost from_gives = { λ f e. e ≡ Encode f };

    fn from(fault: EncodeFault) -> CallFault {
        CallFault::Encode(fault)
    }
}

/// Why a client rejects the server's bytes. All but Closed leave the client closed with the cause of that name. The messages before the fault have
/// had their effect.
#[derive(Clone, Debug, PartialEq, Eq, Drop, Error)]
pub enum FeedFault {
    /// The stream has this fault.
    #[error("F1 Wire {0}")]
    Wire(WireFault),
    /// No fitting segment goes on with the message that came, which has this tag.
    #[error("F2 Unexpected {0}")]
    Unexpected(u8),
    /// The server asks for the way of authentication with this code, which the client doesn't have.
    #[error("F3 UnsupportedAuth {0}")]
    UnsupportedAuth(i32),
    /// The server asks for a password, and none was given.
    #[error("F4 PasswordWanted")]
    PasswordWanted,
    /// The server rejected the startup, with this error.
    #[error("F5 StartupError")]
    StartupError(Fields),
    /// The server ended the session while no request was outstanding, with this error.
    #[error("F6 ServerEnd")]
    ServerEnd(Fields),
    /// Memory ran out.
    #[error("F7 Memory")]
    Memory,
    /// The client was closed before.
    #[error("F8 Closed")]
    Closed,
}

impl From<AllocError> for FeedFault {
    ghost from_gives = { λ _ e. e ≡ feeding.Memory };

    fn from(_e: AllocError) -> FeedFault {
        FeedFault::Memory
    }
}

impl FeedFault {
    /// Its code, `F1` to `F8`: the first word of what it is shown as.
    pub fn code(&self) -> &'static str
        ensures { result.now ≡ feed_code self.now }
    {
        match self {
            FeedFault::Wire(_) => "F1",
            FeedFault::Unexpected(_) => "F2",
            FeedFault::UnsupportedAuth(_) => "F3",
            FeedFault::PasswordWanted => "F4",
            FeedFault::StartupError(_) => "F5",
            FeedFault::ServerEnd(_) => "F6",
            FeedFault::Memory => "F7",
            FeedFault::Closed => "F8",
        }
    }

    // The fault of a client whose decoder returned this one.
    pub(crate) fn of_wire(fault: WireFault) -> FeedFault
        ensures { result ≡ of_wire fault }
    {
        match fault {
            WireFault::Memory => FeedFault::Memory,
            fault => FeedFault::Wire(fault),
        }
    }

    // The cause with which it closes a client; None where the client was closed before.
    pub(crate) fn cause(&self) -> Option<Cause>
        ensures { result ≡ cause_of self.now }
    {
        match self {
            FeedFault::Wire(_) => Some(Cause::Wire),
            FeedFault::Unexpected(_) => Some(Cause::Unexpected),
            FeedFault::UnsupportedAuth(_) => Some(Cause::UnsupportedAuth),
            FeedFault::PasswordWanted => Some(Cause::PasswordWanted),
            FeedFault::StartupError(_) => Some(Cause::StartupError),
            FeedFault::ServerEnd(_) => Some(Cause::ServerEnd),
            FeedFault::Memory => Some(Cause::Memory),
            FeedFault::Closed => None,
        }
    }
}
