//! The parts of a binary file, written.

ghost use Rattle.std.specs.Prelude.{◌≡◌, ◌++◌, None, false, length, option_copied, take};
ghost use Rattle.std.specs.Prelude.{OnOk, OnErr};
ghost use Rattle.std.specs.Int.{w16, to_be_bytes};
ghost use Rattle.pg_copy_rows.specs.Row.{is_long, width_fault, field_fault, binary_fault, Writes};
ghost use Rattle.pg_copy_binary.specs.Binary.{value, binary_row, written_head, trailer};

use crate::binary_values::{size_of, width_fault, write_binary_values};
use crate::format::{NULL, SIGNATURE, TRAILER};
use pg_copy_rows::format::settle;
use pg_copy_rows::{Row, RowFault};
use std::alloc::AllocError;

/// Appends the head of a file, with no flags and an empty extension (PostgreSQL documentation, page COPY, "Binary Format"). Memory: the buffer could
/// not grow, and `buf` is as it was.
pub fn write_binary_head(buf: &mut Vec<u8>) -> Result<(), RowFault>
    ensures { Writes None written_head buf.old.items result buf.new.items }
{
    let before = buf.len();
    let written = put_head(buf);
    settle(buf, before, written)
}

// The signature, no flags, and the length of an empty extension.
fn put_head(buf: &mut Vec<u8>) -> Result<(), AllocError>
    ensures ok { OnOk result (buf.new.items ≡ buf.old.items ++ written_head) }
    ensures err { OnErr result (take (length buf.old.items) buf.new.items ≡ buf.old.items) }
{
    buf.extend_from_slice(&SIGNATURE)?;
    buf.extend_from_slice(&[0; 8])
}

/// Appends the trailer, which ends a file (PostgreSQL documentation, page COPY, "Binary Format"). Memory: the buffer could not grow, and `buf` is as
/// it was.
pub fn write_binary_trailer(buf: &mut Vec<u8>) -> Result<(), RowFault>
    ensures { Writes None trailer buf.old.items result buf.new.items }
{
    append(&TRAILER.to_be_bytes(), buf)
}

fn append(bytes: &[u8], buf: &mut Vec<u8>) -> Result<(), RowFault>
    ensures { Writes None bytes.now buf.old.items result buf.new.items }
{
    match buf.extend_from_slice(bytes) {
        Ok(()) => Ok(()),
        Err(_) => Err(RowFault::Memory),
    }
}

// Why a field can't be written.
fn field_fault(field: Option<&[u8]>) -> Option<RowFault>
    ensures { result ≡ field_fault (option_copied field.entry) }
{
    if size_of(field).is_none() {
        return Some(RowFault::FieldLong);
    }
    None
}

// as a part of a large function it pays for that one's locals, value by value
#[inline(never)]
fn append_value(field: Option<&[u8]>, buf: &mut Vec<u8>) -> Result<(), AllocError>
    requires { is_long (option_copied field) ≡ false }
    ensures ok { OnOk result (buf.new.items
        ≡ buf.old.items ++ value (option_copied field.entry)) }
    ensures err { OnErr result (take (length buf.old.items) buf.new.items ≡ buf.old.items) }
{
    match field {
        None => buf.extend_from_slice(&NULL.to_be_bytes()),
        Some(bytes) => {
            buf.extend_from_slice(&(bytes.len() as u32).to_be_bytes())?;
            buf.extend_from_slice(bytes)
        }
    }
}

/// Appends the number of a row's values, which stands in front of them. A caller whose values don't stand in a `Row` writes a row by this, and each
/// value by [`write_binary_field`] (PostgreSQL documentation, page COPY, "Binary Format"). Width: there is no value, or there are more than 32,767.
/// Else Memory: the buffer could not grow. A fault leaves `buf` as it was.
pub fn write_binary_count(count: usize, buf: &mut Vec<u8>) -> Result<(), RowFault>
    ensures { Writes (width_fault count)
        (to_be_bytes w16 count) buf.old.items result buf.new.items }
{
    if let Some(fault) = width_fault(count) {
        return Err(fault);
    }
    append(&(count as u16).to_be_bytes(), buf)
}

/// Appends one value after its length, as a row has it after the number of its values; a null is the length -1 (PostgreSQL documentation, page COPY,
/// "Binary Format"). FieldLong: it has more than 2,147,483,647 bytes. Else Memory: the buffer could not grow. A fault leaves `buf` as it was.
pub fn write_binary_field(field: Option<&[u8]>, buf: &mut Vec<u8>) -> Result<(), RowFault>
    ensures { Writes (field_fault (option_copied field.entry))
        (value (option_copied field.entry)) buf.old.items result buf.new.items }
{
    if let Some(fault) = field_fault(field) {
        return Err(fault);
    }
    let before = buf.len();
    let written = append_value(field, buf);
    settle(buf, before, written)
}

/// Appends the row: the number of its values, and each value after its length; a null is the length -1 (PostgreSQL documentation, page COPY, "Binary
/// Format"). Width: the row has no field or more than 32,767. Else FieldLong: a value has more than 2,147,483,647 bytes. Else Memory: the buffer
/// could not grow. A fault leaves `buf` as it was.
pub fn write_binary_row(row: &Row, buf: &mut Vec<u8>) -> Result<(), RowFault>
    ensures { Writes (binary_fault row.now)
        (binary_row row.now) buf.old.items result buf.new.items }
{
    write_binary_values(row.len(), row.iter(), row.iter(), buf)
}
