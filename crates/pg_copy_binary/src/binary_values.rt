//! A row of a binary file, written from where its values stand.

ghost use Rattle.std.specs.Prelude.{◌≡◌, ◌++◌, ◌+◌, ◌≤◌, ◌<◌, true, false, Some, None};
ghost use Rattle.std.specs.Prelude.{length, option_copied, take, MatchOption, IfSome};
ghost use Rattle.std.specs.Int.{w16, to_be_bytes};
ghost use Rattle.std.specs.Iterator.{IsFinite, AlwaysYields};
ghost use Rattle.std.specs.List.{flat_map, list_any};
ghost use Rattle.pg_copy_rows.specs.Row.{Row, is_long, width_fault, binary_fault, Writes};
ghost use Rattle.pg_copy_binary.specs.Binary.{value, binary_row};
ghost use Rattle.pg_copy_binary.specs.Private.BinaryRow.{AreSized};

use crate::format::{LONGEST_VALUE, NULL};
use pg_copy_rows::RowFault;
use pg_copy_rows::format::MOST_FIELDS;

/// Why a row can't have so many fields.
pub fn width_fault(count: usize) -> Option<RowFault>
    ensures { result ≡ width_fault count }
{
    if count == 0 || count > MOST_FIELDS {
        return Some(RowFault::Width(count));
    }
    None
}

/// How many bytes a value takes with its length; None: it is too long.
pub fn size_of(field: Option<&[u8]>) -> Option<usize>
    ensures size { MatchOption result (is_long (option_copied field.entry) ≡ true)
        (λ n. (is_long (option_copied field.entry) ≡ false)
        × (n ≡ length (value (option_copied field.entry)))) }
    ensures few { IfSome result (λ n. n ≤ 2147483651) }
{
    match field {
        None => Some(4),
        Some(bytes) => {
            if bytes.len() > LONGEST_VALUE as usize {
                return None;
            }
            Some(4 + bytes.len())
        }
    }
}

// How many bytes these values take in all; None: one is too long. So few values take less than 2^47 bytes.
fn size_of_all<'v, I: Iterator<Item = Option<&'v [u8]>> + Drop>(fields: I) -> Option<usize>
    requires can { I.can_next fields }
    requires ends { IsFinite (I.remaining fields) }
    requires few { (row : Row) × AlwaysYields I.next_gives option_copied fields row
        × (length row ≤ 32767) }
    ensures sized { (row : Row) → AlwaysYields I.next_gives option_copied fields row
        → AreSized row result }
    ensures few { IfSome result (λ n. n < 140737488355328) }
{
    let mut size = 0;
    for field in fields {
        size += size_of(field)?;
    }
    Some(size)
}

// Writes bytes at a place of a block.
fn write(block: &mut [u8], place: usize, bytes: &[u8])
    requires { place + length bytes.now ≤ length block.old }
    ensures front { take (place + length bytes.now) block.new ≡ take place block.old ++ bytes.now }
    ensures len { length block.new ≡ length block.old }
{
    block[place..place + bytes.len()].copy_from_slice(bytes);
}

// Writes a value after its length at a place of a block, and returns the place behind it.
fn put_value(block: &mut [u8], place: usize, field: Option<&[u8]>) -> usize
    requires fits { place + length (value (option_copied field)) ≤ length block.old }
    requires short { is_long (option_copied field) ≡ false }
    ensures front { take result block.new
        ≡ take place block.old ++ value (option_copied field.entry) }
    ensures next { result ≡ place + length (value (option_copied field.entry)) }
    ensures len { length block.new ≡ length block.old }
{
    match field {
        None => {
            write(block, place, &NULL.to_be_bytes());
            place + 4
        }
        Some(bytes) => {
            write(block, place, &(bytes.len() as u32).to_be_bytes());
            write(block, place + 4, bytes);
            place + 4 + bytes.len()
        }
    }
}

// Writes these values from a place of a block on, up to its end.
fn put_values<'v, I: Iterator<Item = Option<&'v [u8]>> + Drop>(
    block: &mut [u8],
    place: usize,
    fields: I,
)
    requires can { I.can_next fields }
    requires ends { IsFinite (I.remaining fields) }
    requires fits { (row : Row) × AlwaysYields I.next_gives option_copied fields row
        × (list_any is_long row ≡ false)
        × (place + length (flat_map value row) ≡ length block.old) }
    ensures { (row : Row) → AlwaysYields I.next_gives option_copied fields row
        → place + length (flat_map value row) ≡ length block.old
        → block.new ≡ take place block.old ++ flat_map value row }
{
    let mut at = place;
    for field in fields {
        at = put_value(block, at, field);
    }
}

// Appends a row whose values take so many bytes.
fn put_row<'v, I: Iterator<Item = Option<&'v [u8]>> + Drop>(
    count: usize,
    fields: I,
    size: usize,
    buf: &mut Vec<u8>,
) -> Result<(), RowFault>
    requires can { I.can_next fields }
    requires ends { IsFinite (I.remaining fields) }
    requires few { (count ≤ 32767) × (size < 140737488355328) }
    requires fits { (row : Row) × AlwaysYields I.next_gives option_copied fields row
        × (length row ≡ count) × AreSized row (Some size) }
    ensures { (row : Row) → AlwaysYields I.next_gives option_copied fields row
        → length row ≡ count → AreSized row (Some size)
        → Writes None (binary_row row) buf.old.items result buf.new.items }
{
    let start = buf.len();
    if buf.resize(start + 2 + size, 0).is_err() {
        return Err(RowFault::Memory);
    }
    let block = buf.as_mut_slice();
    write(block, start, &(count as u16).to_be_bytes());
    put_values(block, start + 2, fields);
    Ok(())
}

/// Appends a row of these values, which are `count` in number, as [`crate::write_binary_row`] does; `again` gives the same values. The first are gone
/// over for their lengths alone, so the buffer grows once, and a row that can't be written takes no memory (PostgreSQL documentation, page COPY,
/// "Binary Format"). Width: there is no value, or there are more than 32,767. Else FieldLong: a value has more than 2,147,483,647 bytes. Else Memory:
/// the buffer could not grow. A fault leaves `buf` as it was.
pub fn write_binary_values<'v, I: Iterator<Item = Option<&'v [u8]>> + Drop>(
    count: usize,
    values: I,
    again: I,
    buf: &mut Vec<u8>,
) -> Result<(), RowFault>
    requires can { I.can_next values × I.can_next again }
    requires ends { IsFinite (I.remaining values) × IsFinite (I.remaining again) }
    requires same { (row : Row) × AlwaysYields I.next_gives option_copied values row
        × AlwaysYields I.next_gives option_copied again row × (length row ≡ count) }
    ensures { (row : Row) → AlwaysYields I.next_gives option_copied values row
        → AlwaysYields I.next_gives option_copied again row → length row ≡ count
        → Writes (binary_fault row) (binary_row row) buf.old.items result buf.new.items }
{
    if let Some(fault) = width_fault(count) {
        return Err(fault);
    }
    match size_of_all(values) {
        Some(size) => put_row(count, again, size, buf),
        None => Err(RowFault::FieldLong),
    }
}
