//! Runs of bytes that stand for themselves, in a line and in a value that is written.

ghost use Rattle.std.specs.Prelude.{◌≡◌, ◌≢◌, ◌<◌, ◌≤◌, ◌+◌, ℕ, true, false, length, slice_index};
ghost use Rattle.std.specs.Int.{bit_at};
ghost use Rattle.pg_copy_text.specs.Private.Units.{IsPlain, NoBackslash};

use std::simd::prelude::*;

/// How many bytes are looked at side by side.
const BLOCK: usize = 16;

/// How many bytes are looked at side by side, where fewer than a block are left.
const HALF: usize = 8;

/// How many bytes are looked at side by side, where fewer than half a block are left.
const QUARTER: usize = 4;

/// Whether a byte surely stands for itself. Most bytes of most texts do.
pub fn is_plain(byte: u8, delimiter: u8) -> bool
    ensures { result ≡ true → IsPlain delimiter byte }
{
    byte > b'\r' && byte != b'\\' && byte != delimiter
}

// Which bytes of a block are at most so great: a bit for each, the lowest for the first.
#[inline(always)]
fn bits_up_to(block: u8x16, most: u8) -> u64
    ensures { (k : ℕ) → k < 16 → bit_at result k ≡ 0 → most < slice_index block k }
{
    block.simd_le(u8x16::splat(most)).to_bitmask()
}

// Which bytes of a block are this byte: a bit for each, the lowest for the first.
#[inline(always)]
fn bits_of(block: u8x16, byte: u8) -> u64
    ensures { (k : ℕ) → k < 16 → bit_at result k ≡ 0 → slice_index block k ≢ byte }
{
    block.simd_eq(u8x16::splat(byte)).to_bitmask()
}

// Which bytes of a block may not be plain: a bit for each, the lowest for the first.
#[inline(always)]
fn special_bits(block: u8x16, delimiter: u8) -> u64
    ensures { (k : ℕ) → k < 16 → bit_at result k ≡ 0 → IsPlain delimiter (slice_index block k) }
{
    bits_up_to(block, b'\r') | bits_of(block, b'\\') | bits_of(block, delimiter)
}

// The place of the lowest bit that is set, or `end` where no bit before it is. Of `mark` the bit at `end` is set.
#[inline(always)]
fn lowest(bits: u64, mark: u64, end: usize) -> usize
    requires { bit_at mark end ≡ 1 }
    ensures within { result ≤ end }
    ensures below { (k : ℕ) → k < result → bit_at bits k ≡ 0 }
{
    (bits | mark).trailing_zeros() as usize
}

// How many bytes of a block are plain, up to the first that may not be.
fn plain_in_block(bytes: &[u8], from: usize, delimiter: u8) -> usize
    requires { from + 16 ≤ length bytes.now }
    ensures within { result ≤ 16 }
    ensures plain { (i : ℕ) → from ≤ i → i < from + result
        → IsPlain delimiter (slice_index bytes.now i) }
{
    let block = u8x16::from_slice(&bytes[from..]);
    lowest(special_bits(block, delimiter), 65_536, BLOCK)
}

// How many of eight bytes are plain, up to the first that may not be. They stand in the block twice.
fn plain_in_half(bytes: &[u8], from: usize, delimiter: u8) -> usize
    requires { from + 8 ≤ length bytes.now }
    ensures within { result ≤ 8 }
    ensures plain { (i : ℕ) → from ≤ i → i < from + result
        → IsPlain delimiter (slice_index bytes.now i) }
{
    let half = u8x8::from_slice(&bytes[from..]);
    let twice: u8x16 = half.shuffle(half, [0, 1, 2, 3, 4, 5, 6, 7, 0, 1, 2, 3, 4, 5, 6, 7]);
    lowest(special_bits(twice, delimiter), 256, HALF)
}

// How many of four bytes are plain, up to the first that may not be. They stand in the block four times.
fn plain_in_quarter(bytes: &[u8], from: usize, delimiter: u8) -> usize
    requires { from + 4 ≤ length bytes.now }
    ensures within { result ≤ 4 }
    ensures plain { (i : ℕ) → from ≤ i → i < from + result
        → IsPlain delimiter (slice_index bytes.now i) }
{
    let quarter = u8x4::from_slice(&bytes[from..]);
    let often: u8x16 = quarter.shuffle(quarter, [0, 1, 2, 3, 0, 1, 2, 3, 0, 1, 2, 3, 0, 1, 2, 3]);
    lowest(special_bits(often, delimiter), 16, QUARTER)
}

// Where the plain bytes end, with eight to fifteen bytes left. The last eight may overlap the first.
fn end_in_halves(bytes: &[u8], from: usize, delimiter: u8) -> usize
    requires few { length bytes.now < from + 16 }
    requires some { from + 8 ≤ length bytes.now }
    ensures in_order { from ≤ result }
    ensures in_range { result ≤ length bytes.now }
    ensures plain { (i : ℕ) → from ≤ i → i < result → IsPlain delimiter (slice_index bytes.now i) }
{
    let first = plain_in_half(bytes, from, delimiter);
    if first < HALF {
        return from + first;
    }
    let last = bytes.len() - HALF;
    last + plain_in_half(bytes, last, delimiter)
}

// Where the plain bytes end, with four to seven bytes left. The last four may overlap the first.
fn end_in_quarters(bytes: &[u8], from: usize, delimiter: u8) -> usize
    requires few { length bytes.now < from + 8 }
    requires some { from + 4 ≤ length bytes.now }
    ensures in_order { from ≤ result }
    ensures in_range { result ≤ length bytes.now }
    ensures plain { (i : ℕ) → from ≤ i → i < result → IsPlain delimiter (slice_index bytes.now i) }
{
    let first = plain_in_quarter(bytes, from, delimiter);
    if first < QUARTER {
        return from + first;
    }
    let last = bytes.len() - QUARTER;
    last + plain_in_quarter(bytes, last, delimiter)
}

// Whether a byte of a block may be a backslash.
fn is_backslash_in_block(bytes: &[u8], from: usize) -> bool
    requires { from + 16 ≤ length bytes.now }
    ensures { result ≡ false → (i : ℕ) → from ≤ i → i < from + 16 → slice_index bytes.now i ≢ 92 }
{
    bits_of(u8x16::from_slice(&bytes[from..]), b'\\') != 0
}

// Whether a byte may be a backslash. They are looked at one by one.
fn is_backslash_among(bytes: &[u8]) -> bool
    ensures { result ≡ false → NoBackslash bytes.now }
{
    for i in 0..bytes.len() {
        if bytes[i] == b'\\' {
            return true;
        }
    }
    false
}

/// Whether a byte may be a backslash.
pub fn may_have_backslash(bytes: &[u8]) -> bool
    ensures { result ≡ false → NoBackslash bytes.now }
{
    if bytes.len() < BLOCK {
        return is_backslash_among(bytes);
    }
    let last = bytes.len() - BLOCK;
    let mut at = 0;
    while at < last {
        if is_backslash_in_block(bytes, at) {
            return true;
        }
        at += BLOCK;
    }
    is_backslash_in_block(bytes, last)
}

/// Where the plain bytes that begin at a place end.
pub fn plain_end(bytes: &[u8], from: usize, delimiter: u8) -> usize
    requires { from ≤ length bytes.now }
    ensures in_order { from ≤ result }
    ensures in_range { result ≤ length bytes.now }
    ensures plain { (i : ℕ) → from ≤ i → i < result → IsPlain delimiter (slice_index bytes.now i) }
{
    let mut at = from;
    while bytes.len() - at >= BLOCK {
        let plain = plain_in_block(bytes, at, delimiter);
        at += plain;
        if plain < BLOCK {
            return at;
        }
    }
    if bytes.len() - at >= HALF {
        return end_in_halves(bytes, at, delimiter);
    }
    if bytes.len() - at >= QUARTER {
        return end_in_quarters(bytes, at, delimiter);
    }
    while at < bytes.len() && is_plain(bytes[at], delimiter) {
        at += 1;
    }
    at
}
