//! How long the texts of the fields of a block are.

ghost use Rattle.std.specs.Prelude.{◌≡◌, ◌<◌, ◌^◌, length};
ghost use Rattle.pg_codec.specs.Private.Reader.{Gives};
ghost use Rattle.pg_values.specs.Private.Kept.{text_lengths_at};

use pg_codec::{BodyFault, after_zero, lent_field_at};
use std::alloc::Global;

/// The length of the text of each field at the beginning of the bytes, up to the zero byte that closes the fields; and the bytes after it.
#[tactic(auto, unfolding(pg_codec::specs::Private::Reader::terminated_at))]
pub fn text_lengths_at(alloc: Global, bytes: &[u8]) -> Result<(Vec<u32>, &[u8]), BodyFault>
    requires short { length bytes.now < 2 ^ 32 }
    ensures { Gives (λ x. (x.0.items, x.1.now)) result (text_lengths_at bytes.now) }
{
    let mut lengths = Vec::new(alloc);
    let mut rest = bytes;
    for _ in 0..bytes.len() {
        if let Some(after) = after_zero(rest) {
            return Ok((lengths, after));
        }
        let Some((field, after)) = lent_field_at(rest) else {
            return Err(BodyFault::Bad);
        };
        lengths.push(field.1.len() as u32)?;
        rest = after;
    }
    Err(BodyFault::Bad)
}
