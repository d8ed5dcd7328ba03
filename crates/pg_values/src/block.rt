//! Blocks of values: the values one after the other, as messages spell them, then room for more, and at the end where each begins.

ghost use Rattle.std.specs.Prelude.{◌≡◌, ◌+◌, ◌-◌, ◌*◌, ◌≤◌, ◌<◌, [], ◌∷◌, ◌++◌, length, take, drop};
ghost use Rattle.std.specs.Prelude.{option_copied, OnOk, OnErr, IfOk, IfSome};
ghost use Rattle.pg_codec.specs.Field.{value_bytes};
ghost use Rattle.pg_values.specs.Private.Block.{HasSame, IsBlock, longest_block};
ghost use Rattle.pg_values.specs.Private.View.{values_left};

use crate::places::note;
use std::alloc::{AllocError, Global};

// Writes bytes at a place of a block.
fn write(block: &mut [u8], place: usize, bytes: &[u8])
    requires { place + length bytes.now ≤ length block.old }
    ensures front { take (place + length bytes.now) block.new ≡ take place block.old ++ bytes.now }
    ensures back { drop (place + length bytes.now) block.new
        ≡ drop (place + length bytes.now) block.old }
    ensures len { length block.new ≡ length block.old }
{
    block[place..place + bytes.len()].copy_from_slice(bytes);
}

// Writes a value at a place of a block, as a message spells it.
fn put(block: &mut [u8], place: usize, value: Option<&[u8]>)
    requires fits { place + length (value_bytes (option_copied value)) ≤ length block.old }
    requires short { IfSome value (λ bytes. length bytes.now ≤ longest_block) }
    ensures front { take (place + length (value_bytes (option_copied value.entry))) block.new
        ≡ take place block.old ++ value_bytes (option_copied value.entry) }
    ensures back { drop (place + length (value_bytes (option_copied value.entry))) block.new
        ≡ drop (place + length (value_bytes (option_copied value.entry))) block.old }
    ensures len { length block.new ≡ length block.old }
{
    match value {
        None => write(block, place, &[255; 4]),
        Some(bytes) => {
            write(block, place, &(bytes.len() as u32).to_be_bytes());
            write(block, place + 4, bytes);
        }
    }
}

/// Puts a value behind the others.
pub fn put_last(block: &mut [u8], count: usize, size: usize, value: Option<&[u8]>)
    requires block { IsBlock count size block.old }
    requires room { size + length (value_bytes (option_copied value)) + 4 * count + 4
        ≤ length block.old }
    requires short { size + length (value_bytes (option_copied value)) ≤ longest_block }
    ensures block { IsBlock (count + 1) (size + length (value_bytes (option_copied value.entry)))
        block.new }
    ensures values { values_left (count + 1)
        (take (size + length (value_bytes (option_copied value.entry))) block.new)
        ≡ values_left count (take size block.old) ++ option_copied value.entry ∷ [] }
    ensures len { length block.new ≡ length block.old }
{
    put(block, size, value);
    note(block, count, size as u32);
}

/// A block of so many bytes, with the values of this one and where each begins.
pub fn with_len(
    alloc: Global,
    block: &[u8],
    count: usize,
    size: usize,
    len: usize,
) -> Result<Vec<u8>, AllocError>
    requires fits { size + 4 * count ≤ length block.now }
    requires room { size + 4 * count ≤ len }
    ensures same { IfOk result (λ new. HasSame count size block.now new.items) }
    ensures len { IfOk result (λ new. length new.items ≡ len) }
{
    let places = 4 * count;
    let (values, _) = block.split_at(size);
    let (_, noted) = block.split_at(block.len() - places);
    let mut new = Vec::with_capacity(alloc, len)?;
    new.extend_from_slice(values)?;
    new.resize(len - places, 0)?;
    new.extend_from_slice(noted)?;
    Ok(new)
}

/// Makes room for one more value, of so many bytes. Where memory runs out, the block is as it was.
pub fn make_room(
    block: &mut Vec<u8>,
    count: usize,
    size: usize,
    more: usize,
) -> Result<(), AllocError>
    requires fits { size + 4 * count ≤ length block.old.items }
    requires few { 4 * count ≤ size }
    requires short { size + more ≤ longest_block }
    ensures same { OnOk result (HasSame count size block.old.items block.new.items) }
    ensures room { OnOk result (size + more + 4 * count + 4 ≤ length block.new.items) }
    ensures err { OnErr result (block.new.items ≡ block.old.items) }
{
    let needed = size + more + 4 * count + 4;
    if block.len() < needed {
        let len = needed.max(2 * block.len());
        *block = with_len(*block.allocator(), block.as_slice(), count, size, len)?;
    }
    Ok(())
}
