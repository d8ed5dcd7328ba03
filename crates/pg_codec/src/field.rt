//! Fields that stand in lists: how each is judged, written and read.

ghost use Rattle.std.specs.Prelude.{◌≡◌, ◌<◌, ◌^◌, ◌++◌, ℕ, List, length, Option, OnOk};
ghost use Rattle.std.specs.Prelude.{option_copied};
ghost use Rattle.std.specs.Int.{w16, w32};
ghost use Rattle.pg_codec.specs.Field.{Body, int16, oid, value};
ghost use Rattle.pg_codec.specs.Value.{column, parameter};
ghost use Rattle.pg_codec.specs.Private.Writer.{LeavesRoom};
ghost use Rattle.pg_codec.specs.Private.Lent.{left_after};
ghost use Rattle.pg_codec.specs.Private.Reader.{Gives, number_at, signed_at, value_at, column_at};
ghost use Rattle.pg_codec.specs.Private.Reader.{error_field_at, parameter_at};

use crate::after::{after_i32, after_name, after_text};
use crate::appender::Appender;
use crate::fault::BodyFault;
use crate::lent::{lent_field_at, lent_value_at};
use crate::reader::{copy_of, i16_at, i32_at, name_at, nonzero_at, text_at, u32_at};
use crate::value::{Column, ErrorField};
use crate::writer::{room_after_bytes, room_after_text, text_has_zero, write_text};
use pg_seq::Seq;
use std::alloc::{AllocError, Global};

/// A field of a message that may stand many times, as it is written.
pub trait Field: Drop {
    // the field as it is spelled
    ghost layout: { Self → Body };

    /// Whether a String of the field has a zero byte.
    fn has_zero(&self) -> bool
        ensures { result ≡ (layout self.now).has_zero };

    /// The room that is left after the field.
    fn room_after(&self, room: u32) -> Option<u32>
        ensures { LeavesRoom room (length (layout self.now).bytes) result };

    /// Appends the field.
    fn write(&self, out: &mut Appender) -> Result<(), AllocError>
        requires { length (layout self.now).bytes < 2 ^ 32 }
        ensures before { out.new.before ≡ out.old.before }
        ensures added { OnOk result (out.new.added ≡ out.old.added ++ (layout self.now).bytes) }
        ensures of_type { OnOk result (layout self.now).IsOfType };
}

/// A field of a message that may stand many times, as it is read.
pub trait ReadField: Drop {
    // how reading goes: the value and the bytes after it
    ghost reading: { List ℕ → Option (Self × List ℕ) };

    /// The field at the beginning of the bytes, and the bytes after it.
    fn read(alloc: Global, bytes: &[u8]) -> Result<(Self, &[u8]), BodyFault>
    where
        Self: Sized,
        ensures { Gives (λ x. (x.0, x.1.now)) result (reading bytes.now) };

    /// The bytes after the field at their beginning, which isn't made; None where there is none.
    fn after(bytes: &[u8]) -> Option<&[u8]>
        ensures { option_copied result ≡ left_after (reading bytes.now) };
}

impl Field for i16 {
    ghost layout = { int16 };

    fn has_zero(&self) -> bool {
        false
    }

    fn room_after(&self, room: u32) -> Option<u32> {
        room.checked_sub(2)
    }

    fn write(&self, out: &mut Appender) -> Result<(), AllocError> {
        out.put(&self.to_be_bytes())
    }
}

impl ReadField for i16 {
    ghost reading = { signed_at w16 };

    fn read(_alloc: Global, bytes: &[u8]) -> Result<(i16, &[u8]), BodyFault> {
        i16_at(bytes)
    }

    fn after(bytes: &[u8]) -> Option<&[u8]> {
        match i16_at(bytes) {
            Ok((_, rest)) => Some(rest),
            Err(_) => None,
        }
    }
}

impl Field for u32 {
    ghost layout = { oid };

    fn has_zero(&self) -> bool {
        false
    }

    fn room_after(&self, room: u32) -> Option<u32> {
        room.checked_sub(4)
    }

    fn write(&self, out: &mut Appender) -> Result<(), AllocError> {
        out.put(&self.to_be_bytes())
    }
}

impl ReadField for u32 {
    ghost reading = { number_at w32 };

    fn read(_alloc: Global, bytes: &[u8]) -> Result<(u32, &[u8]), BodyFault> {
        u32_at(bytes)
    }

    fn after(bytes: &[u8]) -> Option<&[u8]> {
        match u32_at(bytes) {
            Ok((_, rest)) => Some(rest),
            Err(_) => None,
        }
    }
}

impl Field for Option<Seq<u8>> {
    ghost layout = { value };

    fn has_zero(&self) -> bool {
        false
    }

    fn room_after(&self, room: u32) -> Option<u32> {
        let room = room.checked_sub(4)?;
        match self {
            None => Some(room),
            Some(bytes) => room_after_bytes(bytes.as_slice(), room),
        }
    }

    fn write(&self, out: &mut Appender) -> Result<(), AllocError> {
        match self {
            None => out.put(&[255, 255, 255, 255]),
            Some(bytes) => {
                let bytes = bytes.as_slice();
                out.put(&(bytes.len() as u32).to_be_bytes())?;
                out.put(bytes)
            }
        }
    }
}

impl ReadField for Option<Seq<u8>> {
    ghost reading = { value_at };

    #[tactic(auto, unfolding(crate::specs::Private::Reader::value_at))]
    fn read(alloc: Global, bytes: &[u8]) -> Result<(Option<Seq<u8>>, &[u8]), BodyFault> {
        let (len, rest) = u32_at(bytes)?;
        // the length -1
        if len == u32::MAX {
            return Ok((None, rest));
        }
        if len > i32::MAX as u32 || rest.len() < len as usize {
            return Err(BodyFault::Bad);
        }
        let (bytes, rest) = rest.split_at(len as usize);
        Ok((Some(copy_of(alloc, bytes)?), rest))
    }

    fn after(bytes: &[u8]) -> Option<&[u8]> {
        let (_, rest) = lent_value_at(bytes)?;
        Some(rest)
    }
}

/// A value that is lent.
impl Field for Option<&[u8]> {
    ghost layout = { λ v. value (option_copied v) };

    fn has_zero(&self) -> bool {
        false
    }

    fn room_after(&self, room: u32) -> Option<u32> {
        let room = room.checked_sub(4)?;
        match self {
            None => Some(room),
            Some(bytes) => room_after_bytes(bytes, room),
        }
    }

    fn write(&self, out: &mut Appender) -> Result<(), AllocError> {
        match self {
            None => out.put(&[255, 255, 255, 255]),
            Some(bytes) => {
                out.put(&(bytes.len() as u32).to_be_bytes())?;
                out.put(bytes)
            }
        }
    }
}

impl Field for Column {
    ghost layout = { column };

    fn has_zero(&self) -> bool {
        text_has_zero(self.name.as_slice())
    }

    fn room_after(&self, room: u32) -> Option<u32> {
        room_after_text(self.name.as_slice(), room)?.checked_sub(18)
    }

    fn write(&self, out: &mut Appender) -> Result<(), AllocError> {
        write_text(self.name.as_slice(), out)?;
        out.put(&self.table_oid.to_be_bytes())?;
        out.put(&self.attribute.to_be_bytes())?;
        out.put(&self.type_oid.to_be_bytes())?;
        out.put(&self.size.to_be_bytes())?;
        out.put(&self.modifier.to_be_bytes())?;
        out.put(&self.format.to_be_bytes())
    }
}

impl ReadField for Column {
    ghost reading = { column_at };

    #[tactic(auto, unfolding(crate::specs::Private::Reader::column_at))]
    fn read(alloc: Global, bytes: &[u8]) -> Result<(Column, &[u8]), BodyFault> {
        let (name, rest) = text_at(alloc, bytes)?;
        let (table_oid, rest) = u32_at(rest)?;
        let (attribute, rest) = i16_at(rest)?;
        let (type_oid, rest) = u32_at(rest)?;
        let (size, rest) = i16_at(rest)?;
        let (modifier, rest) = i32_at(rest)?;
        let (format, rest) = i16_at(rest)?;
        let column = Column {
            name,
            table_oid,
            attribute,
            type_oid,
            size,
            modifier,
            format,
        };
        Ok((column, rest))
    }

    #[tactic(auto, unfolding(crate::specs::Private::Reader::column_at))]
    fn after(bytes: &[u8]) -> Option<&[u8]> {
        let rest = after_text(bytes)?;
        let rest = u32::after(rest)?;
        let rest = i16::after(rest)?;
        let rest = u32::after(rest)?;
        let rest = i16::after(rest)?;
        let rest = after_i32(rest)?;
        i16::after(rest)
    }
}

/// A parameter of a startup packet: its name, which isn't empty, and its value.
impl Field for (Seq<u8>, Seq<u8>) {
    ghost layout = { parameter };

    fn has_zero(&self) -> bool {
        text_has_zero(self.0.as_slice()) || text_has_zero(self.1.as_slice())
    }

    fn room_after(&self, room: u32) -> Option<u32> {
        let room = room_after_text(self.0.as_slice(), room)?;
        room_after_text(self.1.as_slice(), room)
    }

    fn write(&self, out: &mut Appender) -> Result<(), AllocError> {
        write_text(self.0.as_slice(), out)?;
        write_text(self.1.as_slice(), out)
    }
}

impl ReadField for (Seq<u8>, Seq<u8>) {
    ghost reading = { parameter_at };

    #[tactic(auto, unfolding(crate::specs::Private::Reader::parameter_at))]
    fn read(alloc: Global, bytes: &[u8]) -> Result<((Seq<u8>, Seq<u8>), &[u8]), BodyFault> {
        let (name, rest) = name_at(alloc, bytes)?;
        let (value, rest) = text_at(alloc, rest)?;
        Ok(((name, value), rest))
    }

    #[tactic(auto, unfolding(crate::specs::Private::Reader::parameter_at))]
    fn after(bytes: &[u8]) -> Option<&[u8]> {
        after_text(after_name(bytes)?)
    }
}

/// A parameter that is lent.
impl Field for (&[u8], &[u8]) {
    ghost layout = { λ p. parameter (p.0.now, p.1.now) };

    fn has_zero(&self) -> bool {
        text_has_zero(self.0) || text_has_zero(self.1)
    }

    fn room_after(&self, room: u32) -> Option<u32> {
        let room = room_after_text(self.0, room)?;
        room_after_text(self.1, room)
    }

    fn write(&self, out: &mut Appender) -> Result<(), AllocError> {
        write_text(self.0, out)?;
        write_text(self.1, out)
    }
}

impl ReadField for ErrorField {
    ghost reading = { error_field_at };

    #[tactic(auto, unfolding(crate::specs::Private::Reader::error_field_at))]
    fn read(alloc: Global, bytes: &[u8]) -> Result<(ErrorField, &[u8]), BodyFault> {
        let (code, rest) = nonzero_at(bytes)?;
        let (value, rest) = text_at(alloc, rest)?;
        Ok((ErrorField { code, value }, rest))
    }

    fn after(bytes: &[u8]) -> Option<&[u8]> {
        let (_, rest) = lent_field_at(bytes)?;
        Some(rest)
    }
}
