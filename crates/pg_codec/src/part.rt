//! The parts of a body, lent to an encoder: how each is judged and written.

ghost use Rattle.std.specs.Prelude.{◌≡◌, ◌<◌, ◌^◌, ◌+◌, ◌++◌, false, length, OnOk, IfOk};
ghost use Rattle.std.specs.Prelude.{MatchResult, None, Some};
ghost use Rattle.pg_codec.specs.Field.{Body, ◌⨾◌, int32, byte1, byte4, byten, string, counted};
ghost use Rattle.pg_codec.specs.Field.{terminated};
ghost use Rattle.pg_codec.specs.Private.Writer.{LeavesRoom};

use crate::appender::Appender;
use crate::field::Field;
use crate::writer::{
    MOST, any_has_zero, room_after_all, room_after_bytes, room_after_text, text_has_zero,
    write_all, write_text,
};
use std::alloc::AllocError;

/// The greatest length field of a message. A decoder's limit is at most this.
pub const LONGEST: u32 = 1_073_741_823;

/// A part of a body.
pub trait BodyPart: Drop {
    // the part as it is spelled
    ghost layout: { Self → Body };

    /// Whether a String of the part has a zero byte.
    fn has_zero(&self) -> bool
        ensures { result ≡ (layout self.now).has_zero };

    /// Whether a list of the part has more elements than its count can say.
    fn has_too_many(&self) -> bool
        ensures { result ≡ (layout self.now).has_too_many };

    /// The room that is left after the part.
    fn room_after(&self, room: u32) -> Option<u32>
        ensures { LeavesRoom room (length (layout self.now).bytes) result };

    /// Appends the part.
    fn write(&self, out: &mut Appender) -> Result<(), AllocError>
        requires count { (layout self.now).has_too_many ≡ false }
        requires size { length (layout self.now).bytes < 2 ^ 32 }
        ensures before { out.new.before ≡ out.old.before }
        ensures added { OnOk result (out.new.added ≡ out.old.added ++ (layout self.now).bytes) }
        ensures of_type { OnOk result (layout self.now).IsOfType };
}

/// A String.
#[derive(Drop)]
pub struct Text<'a>(pub &'a [u8]);

impl BodyPart for Text<'_> {
    ghost layout = { λ p. string p.0.now };

    fn has_zero(&self) -> bool {
        text_has_zero(self.0)
    }

    fn has_too_many(&self) -> bool {
        false
    }

    fn room_after(&self, room: u32) -> Option<u32> {
        room_after_text(self.0, room)
    }

    fn write(&self, out: &mut Appender) -> Result<(), AllocError> {
        write_text(self.0, out)
    }
}

/// Bytes as they are.
#[derive(Drop)]
pub struct Bytes<'a>(pub &'a [u8]);

impl BodyPart for Bytes<'_> {
    ghost layout = { λ p. byten p.0.now };

    fn has_zero(&self) -> bool {
        false
    }

    fn has_too_many(&self) -> bool {
        false
    }

    fn room_after(&self, room: u32) -> Option<u32> {
        room_after_bytes(self.0, room)
    }

    fn write(&self, out: &mut Appender) -> Result<(), AllocError> {
        out.put(self.0)
    }
}

/// The salt of an MD5 password.
#[derive(Drop)]
pub struct Salt(pub [u8; 4]);

impl BodyPart for Salt {
    ghost layout = { λ p. byte4 p.0 };

    fn has_zero(&self) -> bool {
        false
    }

    fn has_too_many(&self) -> bool {
        false
    }

    fn room_after(&self, room: u32) -> Option<u32> {
        room_after_bytes(&self.0, room)
    }

    fn write(&self, out: &mut Appender) -> Result<(), AllocError> {
        let salt = self.0;
        out.put(&salt)
    }
}

/// One byte.
#[derive(Drop)]
pub struct Byte(pub u8);

impl BodyPart for Byte {
    ghost layout = { λ p. byte1 p.0 };

    fn has_zero(&self) -> bool {
        false
    }

    fn has_too_many(&self) -> bool {
        false
    }

    fn room_after(&self, room: u32) -> Option<u32> {
        room.checked_sub(1)
    }

    fn write(&self, out: &mut Appender) -> Result<(), AllocError> {
        out.put(&[self.0])
    }
}

/// An Int32.
#[derive(Drop)]
pub struct Int32<'a>(pub &'a i32);

impl BodyPart for Int32<'_> {
    ghost layout = { λ p. int32 p.0.now };

    fn has_zero(&self) -> bool {
        false
    }

    fn has_too_many(&self) -> bool {
        false
    }

    fn room_after(&self, room: u32) -> Option<u32> {
        room.checked_sub(4)
    }

    fn write(&self, out: &mut Appender) -> Result<(), AllocError> {
        out.put(&self.0.to_be_bytes())
    }
}

/// A list after its 16-bit count.
#[derive(Drop)]
pub struct Counted<'a, T: Field>(pub &'a [T]);

impl<T: Field> BodyPart for Counted<'_, T> {
    ghost layout = { λ p. counted T.layout p.0.now };

    fn has_zero(&self) -> bool {
        any_has_zero(self.0)
    }

    fn has_too_many(&self) -> bool {
        self.0.len() > MOST
    }

    fn room_after(&self, room: u32) -> Option<u32> {
        room_after_all(self.0, room)?.checked_sub(2)
    }

    fn write(&self, out: &mut Appender) -> Result<(), AllocError> {
        out.put(&(self.0.len() as u16).to_be_bytes())?;
        write_all(self.0, out)
    }
}

/// A list and a zero byte after it.
#[derive(Drop)]
pub struct Terminated<'a, T: Field>(pub &'a [T]);

impl<T: Field> BodyPart for Terminated<'_, T> {
    ghost layout = { λ p. terminated T.layout p.0.now };

    fn has_zero(&self) -> bool {
        any_has_zero(self.0)
    }

    fn has_too_many(&self) -> bool {
        false
    }

    fn room_after(&self, room: u32) -> Option<u32> {
        room_after_all(self.0, room)?.checked_sub(1)
    }

    fn write(&self, out: &mut Appender) -> Result<(), AllocError> {
        write_all(self.0, out)?;
        out.put(&[0])
    }
}

/// One part and then the other.
#[derive(Drop)]
pub struct Pair<A: BodyPart, B: BodyPart>(pub A, pub B);

impl<A: BodyPart, B: BodyPart> BodyPart for Pair<A, B> {
    ghost layout = { λ p. A.layout p.0 ⨾ B.layout p.1 };

    fn has_zero(&self) -> bool {
        self.0.has_zero() || self.1.has_zero()
    }

    fn has_too_many(&self) -> bool {
        self.0.has_too_many() || self.1.has_too_many()
    }

    fn room_after(&self, room: u32) -> Option<u32> {
        let room = self.0.room_after(room)?;
        self.1.room_after(room)
    }

    fn write(&self, out: &mut Appender) -> Result<(), AllocError> {
        self.0.write(out)?;
        self.1.write(out)
    }
}
