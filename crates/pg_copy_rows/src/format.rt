//! What both formats agree on: how many fields a row may have, and that a row for which memory runs out leaves the buffer as it was.

ghost use Rattle.std.specs.Prelude.{◌≡◌, take, MatchResult, Ok, Err};
ghost use Rattle.pg_copy_rows.specs.Row.{is_misfit};

use crate::{Row, RowFault};
use std::alloc::AllocError;

/// The most fields that a row may have.
pub const MOST_FIELDS: usize = 32_767;

/// Whether a row has no field, or too many.
pub fn is_misfit(row: &Row) -> bool
    ensures { result ≡ is_misfit row.now }
{
    row.is_empty() || row.len() > MOST_FIELDS
}

/// What a writer returns once it has appended its bytes, or memory ran out for them. In that case all but the first `before` bytes are taken off the
/// buffer, and it is Memory.
#[inline]
pub fn settle(
    buf: &mut Vec<u8>,
    before: usize,
    written: Result<(), AllocError>,
) -> Result<(), RowFault>
    ensures { MatchResult written
        (λ _. (result ≡ Ok record {}) × (buf.new.items ≡ buf.old.items))
        (λ _. (result ≡ Err RowFault.Memory) × (buf.new.items ≡ take before buf.old.items)) }
{
    match written {
        Ok(()) => Ok(()),
        Err(_) => {
            buf.truncate(before);
            Err(RowFault::Memory)
        }
    }
}
