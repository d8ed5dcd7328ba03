//! Parameters that an encoder writes into a startup packet.

ghost use Rattle.std.specs.Prelude.{◌≡◌, ◌<◌, ◌^◌, ◌++◌, ◌==◌, List, ℕ, false, length, map, OnOk};
ghost use Rattle.std.specs.List.{list_any};
ghost use Rattle.pg_codec.specs.Field.{terminated};
ghost use Rattle.pg_codec.specs.Value.{parameter};
ghost use Rattle.pg_codec.specs.Private.Writer.{LeavesRoom};

use pg_codec::{Appender, BodyPart, Terminated};
use pg_seq::Seq;
use std::alloc::AllocError;

/// Names and values that an encoder takes: a slice of pairs that are owned or lent, or an array of owned ones.
pub trait ParameterList: Drop {
    // the names, each with its value
    ghost pairs: { Self → List (List ℕ × List ℕ) };

    /// Whether a name is empty.
    fn has_no_name(&self) -> bool
        ensures { result ≡ list_any (λ p. length p.0 == 0) (pairs self.now) };

    /// Whether a name or a value has a zero byte.
    fn has_zero(&self) -> bool
        ensures { result ≡ (terminated parameter (pairs self.now)).has_zero };

    /// How many of `room` bytes are left after them and the zero byte that closes them; None where they don't fit.
    fn room_after(&self, room: u32) -> Option<u32>
        ensures { LeavesRoom room (length (terminated parameter (pairs self.now)).bytes) result };

    /// Appends them and the zero byte.
    fn write(&self, out: &mut Appender) -> Result<(), AllocError>
        requires { length (terminated parameter (pairs self.now)).bytes < 2 ^ 32 }
        ensures before { out.new.before ≡ out.old.before }
        ensures added { OnOk result (out.new.added
            ≡ out.old.added ++ (terminated parameter (pairs self.now)).bytes) };
}

impl ParameterList for &[(Seq<u8>, Seq<u8>)] {
    ghost pairs = { λ list. list.now };

    fn has_no_name(&self) -> bool {
        self.iter().any(|pair| pair.0.as_slice().is_empty())
    }

    fn has_zero(&self) -> bool {
        Terminated(*self).has_zero()
    }

    fn room_after(&self, room: u32) -> Option<u32> {
        Terminated(*self).room_after(room)
    }

    fn write(&self, out: &mut Appender) -> Result<(), AllocError> {
        Terminated(*self).write(out)
    }
}

impl<const N: usize> ParameterList for &[(Seq<u8>, Seq<u8>); N] {
    ghost pairs = { λ list. list.now };

    fn has_no_name(&self) -> bool {
        self.as_slice().has_no_name()
    }

    fn has_zero(&self) -> bool {
        self.as_slice().has_zero()
    }

    fn room_after(&self, room: u32) -> Option<u32> {
        self.as_slice().room_after(room)
    }

    fn write(&self, out: &mut Appender) -> Result<(), AllocError> {
        self.as_slice().write(out)
    }
}

// Whether a name that is lent is empty.
fn any_is_unnamed(pairs: &[(&[u8], &[u8])]) -> bool
    ensures { result ≡ list_any (λ p. length p.0.now == 0) pairs.now }
{
    pairs.iter().any(|pair| pair.0.is_empty())
}

impl ParameterList for &[(&[u8], &[u8])] {
    ghost pairs = { λ list. map (λ p. (p.0.now, p.1.now)) list.now };

    fn has_no_name(&self) -> bool {
        any_is_unnamed(self)
    }

    fn has_zero(&self) -> bool {
        Terminated(*self).has_zero()
    }

    fn room_after(&self, room: u32) -> Option<u32> {
        Terminated(*self).room_after(room)
    }

    fn write(&self, out: &mut Appender) -> Result<(), AllocError> {
        Terminated(*self).write(out)
    }
}

/// Parameters and the zero byte that closes them.
#[derive(Drop)]
pub struct TerminatedParameters<P: ParameterList>(pub P);

impl<P: ParameterList> BodyPart for TerminatedParameters<P> {
    ghost layout = { λ p. terminated parameter (P.pairs p.0) };

    fn has_zero(&self) -> bool {
        self.0.has_zero()
    }

    fn has_too_many(&self) -> bool {
        false
    }

    fn room_after(&self, room: u32) -> Option<u32> {
        self.0.room_after(room)
    }

    fn write(&self, out: &mut Appender) -> Result<(), AllocError> {
        self.0.write(out)
    }
}
