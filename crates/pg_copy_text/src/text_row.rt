//! A row of a text file, read in place.

ghost use Rattle.std.specs.Prelude.{◌≡◌, length};
ghost use Rattle.pg_copy_rows.specs.Private.Cuts.{AreCuts, values_by};

use pg_copy_rows::lent_texts::{LentTexts, texts_by};
use std::marker::Model;

/// The values of a row, lent by the reader that keeps them (PostgreSQL documentation, page COPY, "Text Format"). A clause sees the
/// list of the values.
#[derive(Drop)]
pub struct TextRow<'a> {
    bytes: &'a [u8],
    // where the values end: each a text with a byte after it, or null, which takes no byte
    cuts: &'a [usize],
}

impl<'a> Model for TextRow<'a> {
    ghost use Rattle.std.specs.Prelude.{List, Option, ℕ, length};
    ghost use Rattle.pg_copy_rows.specs.Private.Cuts.{AreCuts, values_by};

    ghost Value = { List (Option (List ℕ)) };

    ghost view = { λ r. values_by 0 r.cuts.now r.bytes.now };

    ghost invariant = { λ r. AreCuts 0 r.cuts.now (length r.bytes.now) };
}

impl<'a> TextRow<'a> {
    /// The row whose values stand in these bytes, and end so.
    pub(crate) fn of_cuts(bytes: &'a [u8], cuts: &'a [usize]) -> TextRow<'a>
        requires { AreCuts 0 cuts.now (length bytes.now) }
        ensures { result ≡ values_by 0 cuts.now bytes.now }
    {
        TextRow { bytes, cuts }
    }

    /// The values in the order of the columns. None is null.
    pub fn values(&self) -> LentTexts<'a>
        ensures { result ≡ self.now }
    {
        texts_by(self.bytes, self.cuts)
    }
}
