//! Values that are lent from bytes where each ends at a cut.

ghost use Rattle.std.specs.Prelude.{◌≡◌, ◌≤◌, ◌+◌, length, option_copied};
ghost use Rattle.std.specs.Iterator.{YieldsFirstBy, item_count};
ghost use Rattle.pg_copy_rows.specs.Private.Cuts.{AreCuts, value_by, values_by};

use std::marker::Model;

/// The values of a row, one after the other. A clause sees the list of those that are still to come.
#[derive(Drop)]
pub struct LentTexts<'a> {
    bytes: &'a [u8],
    // where the values end that are still to come: each a text with a byte after it, or null, which takes no byte
    cuts: &'a [usize],
    // where the first of them begins
    start: usize,
}

impl<'a> Model for LentTexts<'a> {
    ghost use Rattle.std.specs.Prelude.{List, Option, ℕ, length};
    ghost use Rattle.pg_copy_rows.specs.Private.Cuts.{AreCuts, values_by};

    ghost Value = { List (Option (List ℕ)) };

    ghost view = { λ r. values_by r.start r.cuts.now r.bytes.now };

    ghost invariant = { λ r. AreCuts r.start r.cuts.now (length r.bytes.now) };
}

/// The value that begins at a place and ends at a cut.
#[inline(always)]
pub fn value_by<'a>(bytes: &'a [u8], start: usize, cut: usize) -> Option<&'a [u8]>
    requires in_order { start ≤ cut }
    requires in_range { cut ≤ length bytes.now + 1 }
    ensures { option_copied result ≡ value_by start cut bytes.now }
{
    if cut == start {
        return None;
    }
    Some(&bytes[start..cut - 1])
}

/// The values that stand in these bytes, and end so.
pub fn texts_by<'a>(bytes: &'a [u8], cuts: &'a [usize]) -> LentTexts<'a>
    requires { AreCuts 0 cuts.now (length bytes.now) }
    ensures { result ≡ values_by 0 cuts.now bytes.now }
{
    LentTexts {
        bytes,
        cuts,
        start: 0,
    }
}

impl<'a> Iterator for LentTexts<'a> {
    type Item = Option<&'a [u8]>;

    ghost next_gives = { YieldsFirstBy option_copied (λ left. left) };

    ghost remaining = { item_count (λ left. left) };

    // else a program that calls it in more than one loop pays as much for the call as for a short value
    #[inline(always)]
    fn next(&mut self) -> Option<Option<&'a [u8]>> {
        match self.cuts {
            [] => None,
            [cut, rest @ ..] => {
                let start = self.start;
                self.start = *cut;
                self.cuts = rest;
                Some(value_by(self.bytes, start, *cut))
            }
        }
    }
}
