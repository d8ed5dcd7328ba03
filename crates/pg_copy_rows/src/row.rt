//! The values of a row, in one block of memory.

ghost use Rattle.std.specs.Prelude.{◌≡◌, ◌≤◌, ◌+◌, ◌-◌, ◌↔◌, ◌++◌, ◌∷◌, [], length, take, drop};
ghost use Rattle.std.specs.Prelude.{map, option_copied, option_map, slice_get, OnOk, OnErr, IfOk};
ghost use Rattle.std.specs.Prelude.{IsTrue, nat_eq};
ghost use Rattle.std.specs.Option.{option_eq};
ghost use Rattle.std.specs.Cmp.Lexicographic.{pointwise, lists_per, lists_equiv, options_equiv};
ghost use Rattle.std.specs.Cmp.Lexicographic.{nat_list_eq_equiv};
ghost use Rattle.std.specs.Cmp.{partial_equiv_from_equiv};
ghost use Rattle.pg_copy_rows.specs.Private.Cuts.{AreCuts, values_by, last_cut};

use crate::lent_texts::{LentTexts, texts_by, value_by};
use pg_seq::{AsText, ByElement, DebugElement, DebugForm};
use std::alloc::{AllocError, Global};
use std::fmt;
use std::marker::Model;

/// The values of a row, in the order of its columns: each is null (None) or bytes. They stand in one block of memory (PostgreSQL documentation, page
/// COPY, "File Formats"). A clause sees the list of the values.
#[derive(Drop)]
pub struct Row {
    // the values one after the other: each a text with a byte after it, or null, which takes no byte
    bytes: Vec<u8>,
    // where each value ends, with the byte after it
    cuts: Vec<usize>,
}

impl Model for Row {
    ghost use Rattle.std.specs.Prelude.{List, Option, ℕ, length};
    ghost use Rattle.pg_copy_rows.specs.Private.Cuts.{AreCuts, values_by};

    ghost Value = { List (Option (List ℕ)) };

    ghost view = { λ r. values_by 0 r.cuts.items r.bytes.items };

    ghost invariant = { λ r. AreCuts 0 r.cuts.items (length r.bytes.items) };
}

/// The row whose values stand in these bytes, and end so.
pub fn row_by(bytes: Vec<u8>, cuts: Vec<usize>) -> Row
    requires { AreCuts 0 cuts.items (length bytes.items) }
    ensures { result ≡ values_by 0 cuts.items bytes.items }
{
    Row { bytes, cuts }
}

// Where the value at `index` begins.
fn start_of(cuts: &[usize], index: usize) -> usize
    requires { index ≤ length cuts.now }
    ensures { result ≡ last_cut 0 (take index cuts.now) }
{
    if index == 0 {
        return 0;
    }
    cuts[index - 1]
}

// Puts a text behind the first bytes, and a byte after it. What stood there goes off, and one byte may lack.
fn put_text(bytes: &mut Vec<u8>, start: usize, text: &[u8]) -> Result<(), AllocError>
    requires { start ≤ length bytes.old.items + 1 }
    ensures ok { OnOk result (drop start bytes.new.items ≡ text.now ++ 0 ∷ []) }
    ensures front { take (start - 1) bytes.new.items ≡ take (start - 1) bytes.old.items }
    ensures in_range { start ≤ length bytes.new.items + 1 }
{
    bytes.resize(start, 0)?;
    bytes.extend_from_slice(text)?;
    bytes.push(0)?;
    Ok(())
}

// How many bytes these values have in all.
fn size_of(values: &[Option<&[u8]>]) -> usize {
    let mut size: usize = 0;
    for value in values {
        if let Some(text) = value {
            size = size.saturating_add(text.len());
        }
    }
    size
}

impl Row {
    /// A row without values. It takes no memory.
    pub fn new(alloc: Global) -> Row
        ensures { result ≡ [] }
    {
        Row {
            bytes: Vec::new(alloc),
            cuts: Vec::new(alloc),
        }
    }

    /// A row without values, with room for `count` of them, which have so many bytes in all. It takes that memory now.
    pub fn with_capacity(alloc: Global, count: usize, bytes: usize) -> Result<Row, AllocError>
        ensures { IfOk result (λ row. row ≡ []) }
    {
        Ok(Row {
            bytes: Vec::with_capacity(alloc, bytes.saturating_add(count))?,
            cuts: Vec::with_capacity(alloc, count)?,
        })
    }

    /// Copies these values.
    pub fn from_slice(alloc: Global, values: &[Option<&[u8]>]) -> Result<Row, AllocError>
        ensures { IfOk result (λ row. row ≡ map option_copied values.now) }
    {
        let mut row = Row::with_capacity(alloc, values.len(), size_of(values))?;
        for i in 0..values.len() {
            row.push(values[i])?;
        }
        Ok(row)
    }

    /// How many values there are.
    pub fn len(&self) -> usize
        ensures { result ≡ length self.now }
    {
        self.cuts.len()
    }

    /// Whether there is no value.
    pub fn is_empty(&self) -> bool
        ensures { IsTrue result ↔ (self.now ≡ []) }
    {
        self.cuts.is_empty()
    }

    /// The value at `index`, or `None` past the end. A value that is None is null.
    pub fn get(&self, index: usize) -> Option<Option<&[u8]>>
        ensures { option_map option_copied result ≡ slice_get self.now index }
    {
        let cut = *self.cuts.get(index)?;
        let start = start_of(self.cuts.as_slice(), index);
        Some(value_by(self.bytes.as_slice(), start, cut))
    }

    /// Goes over the values in their order.
    pub fn iter(&self) -> LentTexts<'_>
        ensures { result ≡ self.now }
    {
        texts_by(self.bytes.as_slice(), self.cuts.as_slice())
    }

    /// Adds a value at the end. Where memory runs out, the row is as it was.
    pub fn push(&mut self, value: Option<&[u8]>) -> Result<(), AllocError>
        ensures ok { OnOk result (self.new ≡ self.old ++ option_copied value.entry ∷ []) }
        ensures err { OnErr result (self.new ≡ self.old) }
    {
        let start = start_of(self.cuts.as_slice(), self.cuts.len());
        let end = match value {
            None => start,
            Some(text) => {
                put_text(&mut self.bytes, start, text)?;
                self.bytes.len()
            }
        };
        self.cuts.push(end)?;
        Ok(())
    }
}

/// `clone` copies the values. It fails only where memory runs out.
impl Clone for Row {
    ghost is_clone = { λ row copy. copy ≡ row };

    fn clone(&self) -> Result<Self, AllocError> {
        let alloc = *self.bytes.allocator();
        Ok(Row {
            bytes: Vec::from_slice(alloc, self.bytes.as_slice())?,
            cuts: Vec::from_slice(alloc, self.cuts.as_slice())?,
        })
    }
}

/// Two rows are equal where they have as many values, and their values are equal, place by place.
impl PartialEq for Row {
    ghost eq = { pointwise (option_eq (pointwise nat_eq)) };

    ghost laws = { lists_per (partial_equiv_from_equiv (options_equiv nat_list_eq_equiv)) };

    fn eq(&self, other: &Self) -> bool {
        let mut values = other.iter();
        for value in self.iter() {
            match values.next() {
                Some(other) if other == value => {}
                _ => return false,
            }
        }
        values.next().is_none()
    }
}

impl Eq for Row {
    ghost laws = { lists_equiv (options_equiv nat_list_eq_equiv) };
}

/// A value that `{:?}` writes as an escaped text.
#[derive(Drop)]
struct ByteText<'a>(&'a [u8]);

impl fmt::Debug for ByteText<'_> {
    fn fmt<W: fmt::Write>(&self, f: &mut fmt::Formatter<W>) -> fmt::Result {
        AsText::fmt_list(self.0, f)
    }
}

/// `{:?}` writes the values as escaped texts, as `[Some(b"ab\x00"), None]`.
impl fmt::Debug for Row {
    fn fmt<W: fmt::Write>(&self, f: &mut fmt::Formatter<W>) -> fmt::Result {
        let mut list = f.debug_list();
        for value in self.iter() {
            list.entry(&value.map(ByteText));
        }
        list.finish()
    }
}

impl DebugElement for Row {
    type Form = ByElement;
}
