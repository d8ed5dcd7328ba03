//! Where the values of a block begin, as its end says: in four bytes for each, those of the first value last.

ghost use Rattle.std.specs.Prelude.{◌≡◌, ◌<◌, ◌≤◌, ◌+◌, ◌-◌, ◌*◌, ℕ, length, take, drop};
ghost use Rattle.pg_values.specs.Private.Block.{IsRow, noted_in, start_of, longest_block};
ghost use Rattle.pg_values.specs.Private.View.{values_left};

use crate::first::first_value;

/// Where the value of this index begins.
#[inline(always)]
pub fn noted_in(block: &[u8], index: usize) -> usize
    requires { 4 * index + 4 ≤ length block.now }
    ensures { result ≡ noted_in block.now index }
{
    let (_, end) = block.split_at(block.len() - (4 * index + 4));
    let (place, _) = end.split_at(4);
    u32::from_le_bytes([place[0], place[1], place[2], place[3]]) as usize
}

/// Notes where the value of this index begins.
#[inline(always)]
pub fn note(block: &mut [u8], index: usize, place: u32)
    requires { 4 * index + 4 ≤ length block.old }
    ensures noted { noted_in block.new index ≡ place }
    ensures before { drop (length block.old - 4 * index) block.new
        ≡ drop (length block.old - 4 * index) block.old }
    ensures values { take (length block.old - (4 * index + 4)) block.new
        ≡ take (length block.old - (4 * index + 4)) block.old }
    ensures len { length block.new ≡ length block.old }
{
    let at = block.len() - (4 * index + 4);
    block[at..at + 4].copy_from_slice(&place.to_le_bytes());
}

/// Notes where each of so many values begins, which are all of these bytes.
pub fn note_all(places: &mut [u8], count: usize, bytes: &[u8])
    requires row { IsRow count bytes.now }
    requires room { length places.old ≡ 4 * count }
    requires short { length bytes.now ≤ longest_block }
    ensures noted { (i : ℕ) → i < count
        → noted_in places.new i ≡ start_of (values_left count bytes.now) i }
    ensures len { length places.new ≡ length places.old }
{
    let mut rest = bytes;
    for index in 0..count {
        note(places, index, (bytes.len() - rest.len()) as u32);
        let (_, after) = first_value(rest);
        rest = after;
    }
}
