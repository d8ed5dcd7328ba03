//! Bytes in hexadecimal, sixteen at a time.

ghost use Rattle.std.specs.Prelude.{◌≡◌, ◌<◌, ◌≤◌, ◌+◌, ◌*◌, ◌/◌, ◌%◌, ◌++◌, ℕ, length};
ghost use Rattle.std.specs.Prelude.{slice_index, take, drop};
ghost use Rattle.hex.specs.Hex.{encode_lower, lower_digits};

use std::simd::prelude::*;

/// How many bytes are written side by side.
const BLOCK: usize = 16;

/// The digits by their numbers.
const DIGITS: [u8; 16] = *b"0123456789abcdef";

// The digit of each number.
#[inline(always)]
fn digits_of(numbers: u8x16) -> u8x16
    requires { (k : ℕ) → k < 16 → slice_index numbers k < 16 }
    ensures long { length result ≡ 16 }
    ensures each { (k : ℕ) → k < 16
        → slice_index result k ≡ slice_index lower_digits (slice_index numbers k) }
{
    u8x16::from_array(DIGITS).swizzle_dyn(numbers)
}

// The digits of each byte's high four bits, and of its low four.
#[inline(always)]
fn two_digits_of(bytes: u8x16) -> (u8x16, u8x16)
    ensures long { (length result.0 ≡ 16) × (length result.1 ≡ 16) }
    ensures high { (k : ℕ) → k < 16
        → slice_index result.0 k ≡ slice_index lower_digits (slice_index bytes k / 16) }
    ensures low { (k : ℕ) → k < 16
        → slice_index result.1 k ≡ slice_index lower_digits (slice_index bytes k % 16) }
{
    let high = digits_of(bytes >> u8x16::splat(4));
    let low = digits_of(bytes & u8x16::splat(15));
    (high, low)
}

// Writes the digits of the sixteen bytes from a place on, over those that stand there.
fn write_block(bytes: &[u8], at: usize, digits: &mut [u8])
    requires block { at + 16 ≤ length bytes.now }
    requires room { length digits.old ≡ 2 * length bytes.now }
    ensures same { length digits.new ≡ length digits.old }
    ensures written { take (2 * at + 32) digits.new
        ≡ take (2 * at) digits.old ++ encode_lower (take 16 (drop at bytes.now)) }
{
    let (high, low) = two_digits_of(u8x16::from_slice(&bytes[at..]));
    let by_turns: u8x32 = high.shuffle(
        low,
        [
            0, 16, 1, 17, 2, 18, 3, 19, 4, 20, 5, 21, 6, 22, 7, 23, 8, 24, 9, 25, 10, 26, 11, 27,
            12, 28, 13, 29, 14, 30, 15, 31,
        ],
    );
    by_turns.copy_to_slice(&mut digits[2 * at..]);
}

/// Writes the digits of bytes: the high four bits of each first.
pub fn write_hexadecimal(bytes: &[u8], digits: &mut [u8])
    requires { length digits.old ≡ 2 * length bytes.now }
    ensures { digits.new ≡ encode_lower bytes.now }
{
    if bytes.len() < BLOCK {
        // there is just room for the digits, so this doesn't fail
        let _ = hex::encode_to_slice(bytes, digits);
        return;
    }
    // the last block may begin within the one before
    let last = bytes.len() - BLOCK;
    let mut at = 0;
    while at < last {
        write_block(bytes, at, digits);
        at += BLOCK;
    }
    write_block(bytes, last, digits);
}
