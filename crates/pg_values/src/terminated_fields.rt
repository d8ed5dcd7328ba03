//! The fields of an error or a notice that an encoder writes.

ghost use Rattle.std.specs.Prelude.{◌≡◌, false};
ghost use Rattle.pg_codec.specs.Field.{listed, terminated};
ghost use Rattle.pg_codec.specs.Value.{error_field};

use crate::fields::Fields;
use pg_codec::{Appender, BodyPart, text_has_zero};
use std::alloc::AllocError;

/// Fields and the zero byte that closes them. They are written as they are kept, by one copy.
#[derive(Drop)]
pub struct TerminatedFields<'a>(pub &'a Fields);

// Whether a code is 0, or a text has a zero byte.
fn any_has_zero(fields: &Fields) -> bool
    ensures { result ≡ (listed error_field fields.now).has_zero }
{
    'fields: for field in fields.iter() {
        if field.0 == 0 || text_has_zero(field.1) {
            return true;
        }
    }
    false
}

impl BodyPart for TerminatedFields<'_> {
    ghost layout = { λ p. terminated error_field p.0.now };

    fn has_zero(&self) -> bool {
        any_has_zero(self.0)
    }

    fn has_too_many(&self) -> bool {
        false
    }

    fn room_after(&self, room: u32) -> Option<u32> {
        room.checked_sub(1)?
            .checked_sub(self.0.spelling().len() as u32)
    }

    fn write(&self, out: &mut Appender) -> Result<(), AllocError> {
        out.put(self.0.spelling())?;
        out.put(&[0])
    }
}
