//! The values of a row or a Bind, in one block of memory.

ghost use Rattle.std.specs.Prelude.{◌≡◌, ◌↔◌, ◌<◌, ◌+◌, ◌≤◌, [], ◌∷◌, ◌++◌, length, map, take};
ghost use Rattle.std.specs.Prelude.{option_copied, option_map, slice_get, vec_len, OnOk, OnErr};
ghost use Rattle.std.specs.Prelude.{IfOk, IfErr, IfSome, IsTrue, Err};
ghost use Rattle.std.specs.Prelude.{nat_eq, ◌⊎◌};
ghost use Rattle.std.specs.Option.{option_eq};
ghost use Rattle.std.specs.Cmp.Lexicographic.{pointwise, lists_per, lists_equiv, options_equiv};
ghost use Rattle.std.specs.Cmp.Lexicographic.{nat_list_eq_equiv};
ghost use Rattle.std.specs.Cmp.{partial_equiv_from_equiv};
ghost use Rattle.pg_codec.specs.Field.{value_bytes};
ghost use Rattle.pg_codec.specs.declared.fault.EncodeFault.TheVariants.{TooLong, Memory};
ghost use Rattle.pg_codec.specs.Private.Reader.{Gives, counted_at, value_at};
ghost use Rattle.pg_values.specs.Private.Block.{IsBlock, IsRow, spelled, longest_block};
ghost use Rattle.pg_values.specs.Private.View.{values_left};
ghost use Rattle.pg_values.specs.Text.{IsTextAt};

use crate::block::{make_room, put_last, with_len};
use crate::first::first_value;
use crate::part::ValueList;
use crate::places::{note_all, noted_in};
use crate::text::Text;
use crate::view::{LentValues, RowView};
use pg_codec::{BodyFault, EncodeFault, LONGEST, after_times, u16_at};
use pg_seq::{AsText, ByElement, DebugElement, DebugForm, Seq};
use std::alloc::{AllocError, Global};
use std::fmt;
use std::marker::Model;

/// The values of a row, or those that a Bind gives to the parameters of a statement: each is null (None) or bytes. They stand in one
/// block of memory. A clause sees the list of the values.
#[derive(Drop)]
pub struct Values {
    // the values one after the other, each as it stands in a message: its length and its bytes, or -1 for null. Then room for more, and at the end
    // where each begins
    block: Vec<u8>,
    // how many bytes the values take
    size: u32,
    // how many there are
    count: u32,
}

impl Model for Values {
    ghost use Rattle.std.specs.Prelude.{List, Option, ℕ, take};
    ghost use Rattle.pg_values.specs.Private.View.{values_left};
    ghost use Rattle.pg_values.specs.Private.Block.{IsBlock};

    ghost Value = { List (Option (List ℕ)) };

    ghost view = { λ v. values_left v.count (take v.size v.block.items) };

    ghost invariant = { λ v. IsBlock v.count v.size v.block.items };
}

// Appends a value as a message spells it.
fn append(bytes: &mut Vec<u8>, value: Option<&[u8]>) -> Result<(), AllocError>
    requires { IfSome value (λ bytes. length bytes.now ≤ longest_block) }
    ensures { OnOk result (bytes.new.items
        ≡ bytes.old.items ++ value_bytes (option_copied value.entry)) }
{
    let Some(value) = value else {
        return bytes.extend_from_slice(&[255; 4]);
    };
    bytes.extend_from_slice(&(value.len() as u32).to_be_bytes())?;
    bytes.extend_from_slice(value)
}

// How many bytes these values take in a block, or 0 where no block can hold them.
fn size_of(list: &[Option<&[u8]>]) -> usize
    ensures fits { length (spelled (map option_copied list.now)) ≤ longest_block
        → result ≡ length (spelled (map option_copied list.now)) }
    ensures too_long { longest_block < length (spelled (map option_copied list.now))
        → result ≡ 0 }
{
    // a message has the count of the values in front of them, of two bytes
    match list.room_after(LONGEST + 2) {
        Some(left) => (LONGEST - left) as usize,
        None => 0,
    }
}

// So many values, which are all of these bytes.
// A part of each caller: as a call it moves the block once more.
#[inline(always)]
fn of_bytes(mut block: Vec<u8>, count: usize) -> Result<Values, AllocError>
    requires row { IsRow count block.items }
    requires short { length block.items ≤ longest_block }
    ensures { IfOk result (λ values. values ≡ values_left count block.items) }
{
    let size = block.len();
    block.resize(size + 4 * count, 0)?;
    let (bytes, places) = block.as_mut_slice().split_at_mut(size);
    note_all(places, count, bytes);
    Ok(Values {
        block,
        size: size as u32,
        count: count as u32,
    })
}

// The values of a row, copied.
fn copy_row(alloc: Global, count: u16, bytes: &[u8]) -> Result<Values, AllocError>
    requires row { IsRow count bytes.now }
    requires short { length bytes.now ≤ longest_block }
    ensures { IfOk result (λ values. values ≡ values_left count bytes.now) }
{
    let count = usize::from(count);
    let mut block = Vec::with_capacity(alloc, bytes.len() + 4 * count)?;
    block.extend_from_slice(bytes)?;
    of_bytes(block, count)
}

/// The values at the beginning of the bytes, after their count, and the bytes after them. They are judged before they are copied.
#[tactic(auto, unfolding(pg_codec::specs::Private::Reader::counted_at))]
pub fn values_at(alloc: Global, bytes: &[u8]) -> Result<(Values, &[u8]), BodyFault>
    ensures { Gives (λ x. (x.0, x.1.now)) result (counted_at value_at bytes.now) }
{
    let (count, bytes) = u16_at(bytes)?;
    // no message has a body as long as that
    if bytes.len() > LONGEST as usize {
        return Err(BodyFault::Memory);
    }
    let Some(rest) = after_times::<Option<Seq<u8>>>(count, bytes) else {
        return Err(BodyFault::Bad);
    };
    let (row, _) = bytes.split_at(bytes.len() - rest.len());
    Ok((copy_row(alloc, count, row)?, rest))
}

impl Values {
    /// A list without values. It takes no memory.
    pub fn new(alloc: Global) -> Values
        ensures { result ≡ [] }
    {
        Values {
            block: Vec::new(alloc),
            size: 0,
            count: 0,
        }
    }

    /// Copies these values. TooLong: no message could hold them. Memory: memory ran out.
    pub fn from_slice(alloc: Global, list: &[Option<&[u8]>]) -> Result<Values, EncodeFault>
        ensures ok { IfOk result (λ values. values ≡ map option_copied list.now) }
        ensures too_long { result ≡ Err TooLong
            → longest_block < length (spelled (map option_copied list.now)) }
        ensures faults { IfErr result (λ fault. (fault ≡ TooLong) ⊎ (fault ≡ Memory)) }
    {
        if list.is_empty() {
            return Ok(Values::new(alloc));
        }
        let size = size_of(list);
        if size == 0 {
            return Err(EncodeFault::TooLong);
        }
        let mut block = Vec::with_capacity(alloc, size + 4 * list.len())?;
        for value in list {
            append(&mut block, *value)?;
        }
        Ok(of_bytes(block, list.len())?)
    }

    /// Copies the values of a row that is lent. TooLong: no message could hold them. Memory: memory ran out.
    pub fn of_row(alloc: Global, row: &RowView<'_>) -> Result<Values, EncodeFault>
        ensures ok { IfOk result (λ values. values ≡ row.now) }
        ensures too_long { (result ≡ Err TooLong) ↔ (longest_block < length (spelled row.now)) }
        ensures faults { IfErr result (λ fault. (fault ≡ TooLong) ⊎ (fault ≡ Memory)) }
    {
        let (count, bytes) = row.parts();
        if bytes.len() > LONGEST as usize {
            return Err(EncodeFault::TooLong);
        }
        Ok(copy_row(alloc, count, bytes)?)
    }

    /// How many values there are.
    pub fn len(&self) -> usize
        ensures { result ≡ length self.now }
    {
        self.count as usize
    }

    /// Whether there is no value.
    pub fn is_empty(&self) -> bool
        ensures { IsTrue result ↔ (self.now ≡ []) }
    {
        self.count == 0
    }

    /// The values as a message spells them, one after the other.
    pub(crate) fn spelling(&self) -> &[u8]
        ensures bytes { result.now ≡ spelled self.now }
        ensures short { length result.now ≤ longest_block }
    {
        let (values, _) = self.block.as_slice().split_at(self.size as usize);
        values
    }

    /// The value at `index`, or `None` past the end. A value that is None is null.
    pub fn get(&self, index: usize) -> Option<Option<&[u8]>>
        ensures { option_map option_copied result ≡ slice_get self.now index }
    {
        if index >= self.len() {
            return None;
        }
        let place = noted_in(self.block.as_slice(), index);
        let (_, rest) = self.block.as_slice().split_at(place);
        let (value, _) = first_value(rest);
        Some(value)
    }

    /// The value at `index` as text, or `None` past the end.
    pub fn text(&self, index: usize) -> Option<Text<'_>>
        ensures { IsTextAt result self.now index }
    {
        let value = self.get(index)?;
        Some(Text::of(value))
    }

    /// Goes over the values in their order.
    pub fn iter(&self) -> LentValues<'_>
        ensures { result ≡ self.now }
    {
        LentValues::new(self.len(), self.spelling())
    }

    /// Adds a value at the end. TooLong: no message could hold the values any more. Memory: memory ran out. After either the list is as it was.
    pub fn push(&mut self, value: Option<&[u8]>) -> Result<(), EncodeFault>
        ensures ok { OnOk result (self.new ≡ self.old ++ option_copied value.entry ∷ []) }
        ensures err { OnErr result (self.new ≡ self.old) }
        ensures too_long { (result ≡ Err TooLong) ↔ (longest_block
            < length (spelled self.old) + length (value_bytes (option_copied value.entry))) }
        ensures faults { IfErr result (λ fault. (fault ≡ TooLong) ⊎ (fault ≡ Memory)) }
    {
        let more = match value {
            None => 4,
            Some(bytes) => 4 + bytes.len(),
        };
        let (count, size) = (self.len(), self.size as usize);
        if LONGEST as usize - size < more {
            return Err(EncodeFault::TooLong);
        }
        make_room(&mut self.block, count, size, more)?;
        put_last(self.block.as_mut_slice(), count, size, value);
        self.size += more as u32;
        self.count += 1;
        Ok(())
    }
}

/// `clone` copies the block, and fails only where memory runs out.
impl Clone for Values {
    ghost is_clone = { λ values copy. copy ≡ values };

    fn clone(&self) -> Result<Self, AllocError> {
        let alloc = *self.block.allocator();
        let (count, size) = (self.len(), self.size as usize);
        Ok(Values {
            block: with_len(alloc, self.block.as_slice(), count, size, size + 4 * count)?,
            size: self.size,
            count: self.count,
        })
    }
}

/// Two lists of values are equal where their values are, place by place.
impl PartialEq for Values {
    ghost eq = { pointwise (option_eq (pointwise nat_eq)) };

    ghost laws = { lists_per (partial_equiv_from_equiv (options_equiv nat_list_eq_equiv)) };

    fn eq(&self, other: &Self) -> bool {
        self.len() == other.len() && self.spelling() == other.spelling()
    }
}

impl Eq for Values {
    ghost laws = { lists_equiv (options_equiv nat_list_eq_equiv) };
}

/// A value that `{:?}` writes as an escaped text.
#[derive(Drop)]
pub struct ByteText<'a>(pub &'a [u8]);

impl fmt::Debug for ByteText<'_> {
    fn fmt<W: fmt::Write>(&self, f: &mut fmt::Formatter<W>) -> fmt::Result {
        AsText::fmt_list(self.0, f)
    }
}

/// `{:?}` writes the values as escaped texts, as `[Some(b"ab\x00"), None]`.
impl fmt::Debug for Values {
    fn fmt<W: fmt::Write>(&self, f: &mut fmt::Formatter<W>) -> fmt::Result {
        let mut list = f.debug_list();
        for value in self.iter() {
            list.entry(&value.map(ByteText));
        }
        list.finish()
    }
}

impl DebugElement for Values {
    type Form = ByElement;
}
