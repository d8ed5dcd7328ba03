//! Values that an encoder writes after their count.

ghost use Rattle.std.specs.Prelude.{◌≡◌, ◌<◌, ◌^◌, ◌++◌, List, Option, ℕ, false, length, map};
ghost use Rattle.std.specs.Prelude.{option_copied, OnOk};
ghost use Rattle.pg_codec.specs.Field.{counted, exceeds_count, value};
ghost use Rattle.pg_codec.specs.Private.Writer.{LeavesRoom};

use crate::values::Values;
use pg_codec::{Appender, BodyPart, Counted};
use pg_seq::Seq;
use std::alloc::AllocError;

/// Values that an encoder takes: a slice of owned or of lent ones, an array of owned ones, or a block of them.
pub trait ValueList: Drop {
    // the values
    ghost values: { Self → List (Option (List ℕ)) };

    /// Whether there are more of them than a 16-bit count can say.
    fn has_too_many(&self) -> bool
        ensures { result ≡ exceeds_count (values self.now) };

    /// How many of `room` bytes are left after their count and them; None where they don't fit.
    fn room_after(&self, room: u32) -> Option<u32>
        ensures { LeavesRoom room (length (counted value (values self.now)).bytes) result };

    /// Appends their count and them.
    fn write(&self, out: &mut Appender) -> Result<(), AllocError>
        requires count { exceeds_count (values self.now) ≡ false }
        requires size { length (counted value (values self.now)).bytes < 2 ^ 32 }
        ensures before { out.new.before ≡ out.old.before }
        ensures added { OnOk result (out.new.added
            ≡ out.old.added ++ (counted value (values self.now)).bytes) };
}

impl ValueList for &[Option<Seq<u8>>] {
    ghost values = { λ list. list.now };

    fn has_too_many(&self) -> bool {
        Counted(*self).has_too_many()
    }

    fn room_after(&self, room: u32) -> Option<u32> {
        Counted(*self).room_after(room)
    }

    fn write(&self, out: &mut Appender) -> Result<(), AllocError> {
        Counted(*self).write(out)
    }
}

impl ValueList for &[Option<&[u8]>] {
    ghost values = { λ list. map option_copied list.now };

    fn has_too_many(&self) -> bool {
        Counted(*self).has_too_many()
    }

    fn room_after(&self, room: u32) -> Option<u32> {
        Counted(*self).room_after(room)
    }

    fn write(&self, out: &mut Appender) -> Result<(), AllocError> {
        Counted(*self).write(out)
    }
}

impl<const N: usize> ValueList for &[Option<Seq<u8>>; N] {
    ghost values = { λ list. list.now };

    fn has_too_many(&self) -> bool {
        self.as_slice().has_too_many()
    }

    fn room_after(&self, room: u32) -> Option<u32> {
        self.as_slice().room_after(room)
    }

    fn write(&self, out: &mut Appender) -> Result<(), AllocError> {
        self.as_slice().write(out)
    }
}

/// A block of values is written as it is kept, by one copy.
impl ValueList for &Values {
    ghost values = { λ list. list.now };

    fn has_too_many(&self) -> bool {
        self.len() > usize::from(u16::MAX)
    }

    fn room_after(&self, room: u32) -> Option<u32> {
        let size = self.spelling().len();
        room.checked_sub(2)?.checked_sub(size as u32)
    }

    fn write(&self, out: &mut Appender) -> Result<(), AllocError> {
        out.put(&(self.len() as u16).to_be_bytes())?;
        out.put(self.spelling())
    }
}

/// Values after their 16-bit count.
#[derive(Drop)]
pub struct CountedValues<V: ValueList>(pub V);

impl<V: ValueList> BodyPart for CountedValues<V> {
    ghost layout = { λ p. counted value (V.values p.0) };

    fn has_zero(&self) -> bool {
        false
    }

    fn has_too_many(&self) -> bool {
        self.0.has_too_many()
    }

    fn room_after(&self, room: u32) -> Option<u32> {
        self.0.room_after(room)
    }

    fn write(&self, out: &mut Appender) -> Result<(), AllocError> {
        self.0.write(out)
    }
}
