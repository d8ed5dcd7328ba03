//! The parts of a binary file, read from the front of its bytes.

ghost use Rattle.std.specs.Prelude.{◌≡◌, ◌≤◌, ◌<◌, ◌⊎◌, ℕ, false, length, drop, Some, Err, IfOk};
ghost use Rattle.std.specs.Int.{w16, w32, cast_signed};
ghost use Rattle.pg_copy_rows.specs.declared.fault.BinaryFault.TheVariants.{FieldCount};
ghost use Rattle.pg_copy_binary.specs.declared.binary_part.NoPart.TheVariants.{Faulty};
ghost use Rattle.std.specs.Option.{option_copied};
ghost use Rattle.pg_copy_binary.specs.declared.binary_part.NoRow.TheVariants.{Memory};
ghost use Rattle.pg_copy_binary.specs.BinaryPart.{Incomplete, number_at, bytes_at, signature_at};
ghost use Rattle.pg_copy_binary.specs.BinaryPart.{flags_at, extension_at, fixed_at, head_at};
ghost use Rattle.pg_copy_binary.specs.BinaryPart.{value_at, values_at};
ghost use Rattle.pg_copy_rows.specs.Row.{Row};
ghost use Rattle.pg_copy_binary.specs.Private.BinaryPart.{ReadsPart, IsRowWalked, FindsRow};
ghost use Rattle.pg_copy_binary.specs.Private.BinaryPart.{IsAfterHead, StartsRow, IsLooked};
ghost use Rattle.pg_copy_binary.specs.Private.BinaryPart.{FindsPart, extension_left};

use crate::format::{LONGEST_VALUE, NULL, SIGNATURE, TRAILER};
use pg_copy_rows::{BinaryFault, Row};
use std::alloc::{AllocError, Global};

/// Why no part was read.
#[derive(Clone, Copy, Debug, Drop, PartialEq, Eq)]
pub enum NoPart {
    /// The part isn't whole.
    Incomplete,
    Faulty(BinaryFault),
}

/// Why no row was made.
#[derive(Clone, Copy, Debug, Drop, PartialEq, Eq)]
pub enum NoRow {
    /// Memory for a row ran out.
    Memory,
    NoPart(NoPart),
}

/// The flags from here on are those that a reader must know: bits 16 to 31.
const CRITICAL: u32 = 65_536;

fn take(bytes: &[u8], len: usize) -> Result<(&[u8], &[u8]), NoPart>
    ensures { ReadsPart (λ x. (x.0.now, x.1.now)) result (bytes_at len bytes.now) }
{
    if bytes.len() < len {
        return Err(NoPart::Incomplete);
    }
    Ok(bytes.split_at(len))
}

fn u16_at(bytes: &[u8]) -> Result<(u16, &[u8]), NoPart>
    ensures { ReadsPart (λ x. (x.0, x.1.now)) result (number_at w16 bytes.now) }
{
    if bytes.len() < 2 {
        return Err(NoPart::Incomplete);
    }
    let (first, rest) = bytes.split_at(2);
    Ok((u16::from_be_bytes([first[0], first[1]]), rest))
}

fn u32_at(bytes: &[u8]) -> Result<(u32, &[u8]), NoPart>
    ensures { ReadsPart (λ x. (x.0, x.1.now)) result (number_at w32 bytes.now) }
{
    if bytes.len() < 4 {
        return Err(NoPart::Incomplete);
    }
    let (first, rest) = bytes.split_at(4);
    let number = u32::from_be_bytes([first[0], first[1], first[2], first[3]]);
    Ok((number, rest))
}

#[tactic(auto, unfolding(crate::specs::BinaryPart::signature_at))]
fn signature_at(bytes: &[u8]) -> Result<(&[u8], &[u8]), NoPart>
    ensures { ReadsPart (λ x. (x.0.now, x.1.now)) result (signature_at bytes.now) }
{
    let (first, rest) = take(bytes, 11)?;
    if first != SIGNATURE.as_slice() {
        return Err(NoPart::Faulty(BinaryFault::Signature));
    }
    Ok((first, rest))
}

#[tactic(auto, unfolding(crate::specs::BinaryPart::flags_at))]
fn flags_at(bytes: &[u8]) -> Result<(u32, &[u8]), NoPart>
    ensures { ReadsPart (λ x. (x.0, x.1.now)) result (flags_at bytes.now) }
{
    let (flags, rest) = u32_at(bytes)?;
    if flags >= CRITICAL {
        return Err(NoPart::Faulty(BinaryFault::Flags(flags)));
    }
    Ok((flags, rest))
}

#[tactic(auto, unfolding(crate::specs::BinaryPart::extension_at))]
fn extension_at(bytes: &[u8]) -> Result<(u32, &[u8]), NoPart>
    ensures { ReadsPart (λ x. (x.0, x.1.now)) result (extension_at bytes.now) }
{
    let (len, rest) = u32_at(bytes)?;
    if len > LONGEST_VALUE {
        return Err(NoPart::Faulty(BinaryFault::Extension(len.cast_signed())));
    }
    Ok((len, rest))
}

// What every head begins with: the signature, the flags, and the length of the extension, which is given.
#[tactic(auto, unfolding(crate::specs::BinaryPart::fixed_at))]
fn fixed_at(bytes: &[u8]) -> Result<(u32, &[u8]), NoPart>
    ensures { ReadsPart (λ x. (x.0, x.1.now)) result (fixed_at bytes.now) }
{
    let (_, rest) = signature_at(bytes)?;
    let (_, rest) = flags_at(rest)?;
    extension_at(rest)
}

/// The extension of the head, and what stands after it.
#[tactic(auto, unfolding(crate::specs::BinaryPart::head_at))]
pub fn head_at(bytes: &[u8]) -> Result<(&[u8], &[u8]), NoPart>
    ensures { ReadsPart (λ x. (x.0.now, x.1.now)) result (head_at bytes.now) }
{
    let (len, rest) = fixed_at(bytes)?;
    take(rest, len as usize)
}

/// How many bytes of the extension are to come, where the head lacks nothing else.
pub fn extension_left(bytes: &[u8]) -> Option<u32>
    requires { head_at bytes.now ≡ Err Incomplete }
    ensures left { result ≡ extension_left (fixed_at bytes.now) }
    ensures some { (n : ℕ) → result ≡ Some n → 0 < n }
{
    match fixed_at(bytes) {
        Ok((len, rest)) => Some(len - rest.len() as u32),
        Err(_) => None,
    }
}

/// A value, which is lent, and what stands after it.
#[tactic(auto, unfolding(crate::specs::BinaryPart::value_at))]
pub fn value_at(limit: u32, bytes: &[u8]) -> Result<(Option<&[u8]>, &[u8]), NoPart>
    ensures { ReadsPart (λ x. (option_copied x.0, x.1.now)) result (value_at limit bytes.now) }
{
    let (len, rest) = u32_at(bytes)?;
    if len == NULL {
        return Ok((None, rest));
    }
    if len > limit {
        return Err(NoPart::Faulty(BinaryFault::FieldLength(len.cast_signed())));
    }
    let (value, rest) = take(rest, len as usize)?;
    Ok((Some(value), rest))
}

/// How far a row was walked over.
#[derive(Clone, Copy, Debug, Drop, PartialEq, Eq)]
pub struct Walk {
    /// How many bytes were walked over: none, or the number of values and some values.
    pub at: usize,
    /// How many values are still to come.
    pub left: u16,
}

impl Walk {
    pub fn start() -> Self
        ensures { result ≡ record { at = 0; left = 0 } }
    {
        Walk { at: 0, left: 0 }
    }
}

/// What the bytes in the place of a row are.
#[derive(Clone, Copy, Debug, Drop, PartialEq, Eq)]
pub enum RowOrTrailer {
    /// A row, which was walked over.
    Row,
    Trailer,
}

fn wrong_count(count: u16) -> NoPart
    ensures { result ≡ Faulty (FieldCount (cast_signed w16 count)) }
{
    NoPart::Faulty(BinaryFault::FieldCount(count.cast_signed()))
}

/// Walks on over the row at the front, and returns whether it is whole.
pub fn find_row(
    columns: u16,
    limit: u32,
    bytes: &[u8],
    walk: &mut Walk,
) -> Result<RowOrTrailer, NoPart>
    requires columns { columns ≤ 32767 }
    requires walked { IsRowWalked columns limit bytes.now walk.old }
    ensures walked { IsRowWalked columns limit bytes.now walk.new }
    ensures found { FindsRow columns limit bytes.now result walk.new }
{
    if walk.at > 0 {
        return find_values(columns, limit, bytes, walk);
    }
    let (count, _) = u16_at(bytes)?;
    if count == TRAILER {
        return Ok(RowOrTrailer::Trailer);
    }
    if count != columns {
        return Err(wrong_count(count));
    }
    *walk = Walk {
        at: 2,
        left: columns,
    };
    find_values(columns, limit, bytes, walk)
}

// Walks on over the values of a row whose number of values was read.
fn find_values(
    columns: u16,
    limit: u32,
    bytes: &[u8],
    walk: &mut Walk,
) -> Result<RowOrTrailer, NoPart>
    requires columns { columns ≤ 32767 }
    requires begun { 0 < walk.old.at }
    requires walked { IsRowWalked columns limit bytes.now walk.old }
    ensures walked { IsRowWalked columns limit bytes.now walk.new }
    ensures found { FindsRow columns limit bytes.now result walk.new }
{
    let mut at = walk.at;
    let mut left = walk.left;
    let (_, mut rest) = bytes.split_at(at);
    while left > 0 {
        match value_at(limit, rest) {
            Ok((_, after)) => {
                rest = after;
                at = bytes.len() - rest.len();
                left -= 1;
            }
            Err(stop) => {
                *walk = Walk { at, left };
                return Err(stop);
            }
        }
    }
    *walk = Walk { at, left };
    Ok(RowOrTrailer::Row)
}

/// How far the next part of a file was looked over.
#[derive(Clone, Copy, Debug, Drop, PartialEq, Eq)]
pub struct Look {
    /// Where the row begins: after the head, once it was read and while it is kept.
    pub start: usize,
    pub walk: Walk,
}

impl Look {
    pub fn start() -> Self
        ensures { result ≡ record { start = 0; walk = record { at = 0; left = 0 } } }
    {
        Look {
            start: 0,
            walk: Walk::start(),
        }
    }
}

/// Where a row stands in the bytes that are kept.
#[derive(Clone, Copy, Debug, Drop, PartialEq, Eq)]
pub struct Place {
    /// Where it begins, with the number of its values.
    pub start: usize,
    pub end: usize,
}

// Where the row begins in the bytes: after the head, where it is still to be read.
fn row_start(in_head: bool, bytes: &[u8], start: usize) -> Result<usize, NoPart>
    requires found { (in_head ≡ false) ⊎ (0 < start)
        → IsAfterHead in_head bytes.now (drop start bytes.now) }
    requires in_range { start ≤ length bytes.now }
    ensures { StartsRow in_head bytes.now start result }
{
    if !in_head || start > 0 {
        return Ok(start);
    }
    let (_, rest) = head_at(bytes)?;
    Ok(bytes.len() - rest.len())
}

/// Looks on over the next part of a file, in front of which a head may stand.
pub fn find_part(
    in_head: bool,
    columns: u16,
    limit: u32,
    bytes: &[u8],
    look: &mut Look,
) -> Result<RowOrTrailer, NoPart>
    requires columns { columns ≤ 32767 }
    requires looked { IsLooked in_head columns limit bytes.now look.old }
    ensures looked { IsLooked in_head columns limit bytes.now look.new }
    ensures found { FindsPart in_head columns limit bytes.now result look.new }
{
    look.start = row_start(in_head, bytes, look.start)?;
    let (_, rest) = bytes.split_at(look.start);
    match find_row(columns, limit, rest, &mut look.walk)? {
        RowOrTrailer::Row => Ok(RowOrTrailer::Row),
        RowOrTrailer::Trailer => {
            if rest.len() == 2 {
                Ok(RowOrTrailer::Trailer)
            } else {
                Err(NoPart::Faulty(BinaryFault::AfterTrailer))
            }
        }
    }
}

/// Copies so many values, which were walked over before and have so many bytes in all.
pub fn values_of(
    alloc: Global,
    limit: u32,
    count: u16,
    size: usize,
    bytes: &[u8],
) -> Result<Row, AllocError>
    ensures { IfOk result (λ row. IfOk (values_at limit count bytes.now) (λ x. row ≡ x.0)) }
{
    let mut row = Row::with_capacity(alloc, usize::from(count), size)?;
    let mut rest = bytes;
    for _ in 0..count {
        // Each was walked over, so each is whole.
        let Ok((value, after)) = value_at(limit, rest) else {
            return Ok(row);
        };
        row.push(value)?;
        rest = after;
    }
    Ok(row)
}
