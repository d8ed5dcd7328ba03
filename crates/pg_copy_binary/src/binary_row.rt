//! A row of a binary file, read in place: nothing of it is copied, and no memory is taken.

ghost use Rattle.std.specs.Prelude.{◌≡◌, option_copied};
ghost use Rattle.std.specs.Iterator.{YieldsFirstBy, item_count};
ghost use Rattle.pg_copy_binary.specs.Private.BinaryRow.{values_left};

use crate::binary_part::value_at;
use std::marker::Model;

/// The values of a row, lent by the reader that keeps them (PostgreSQL documentation, page COPY, "Binary Format"). A clause sees the
/// list of the values.
#[derive(Drop)]
pub struct BinaryRow<'a> {
    limit: u32,
    count: u16,
    values: &'a [u8],
}

impl<'a> Model for BinaryRow<'a> {
    ghost use Rattle.std.specs.Prelude.{List, Option, ℕ};
    ghost use Rattle.pg_copy_binary.specs.Private.BinaryRow.{values_left};

    ghost Value = { List (Option (List ℕ)) };

    ghost view = { λ r. values_left r.limit r.count r.values.now };
}

impl<'a> BinaryRow<'a> {
    /// The row of so many values at the front of the bytes, of at most `limit` bytes each.
    pub(crate) fn of_values(limit: u32, count: u16, values: &'a [u8]) -> BinaryRow<'a>
        ensures { result ≡ values_left limit count values.now }
    {
        BinaryRow {
            limit,
            count,
            values,
        }
    }

    /// The values in the order of the columns. None is null.
    pub fn values(&self) -> LentValues<'a>
        ensures { result ≡ self.now }
    {
        LentValues {
            limit: self.limit,
            count: self.count,
            values: self.values,
        }
    }
}

/// The values of a row, one after the other. A clause sees the list of those that are still to come.
#[derive(Drop)]
pub struct LentValues<'a> {
    limit: u32,
    count: u16,
    values: &'a [u8],
}

impl<'a> Model for LentValues<'a> {
    ghost use Rattle.std.specs.Prelude.{List, Option, ℕ};
    ghost use Rattle.pg_copy_binary.specs.Private.BinaryRow.{values_left};

    ghost Value = { List (Option (List ℕ)) };

    ghost view = { λ r. values_left r.limit r.count r.values.now };
}

impl<'a> Iterator for LentValues<'a> {
    type Item = Option<&'a [u8]>;

    ghost next_gives = { YieldsFirstBy option_copied (λ left. left) };

    ghost remaining = { item_count (λ left. left) };

    fn next(&mut self) -> Option<Option<&'a [u8]>> {
        if self.count == 0 {
            return None;
        }
        match value_at(self.limit, self.values) {
            Ok((value, values)) => {
                self.count -= 1;
                self.values = values;
                Some(value)
            }
            Err(_) => None,
        }
    }
}
