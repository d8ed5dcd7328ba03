//! The loops of a caller over the rows of a file in either format: over those that wait, and over those that are left.

ghost use Rattle.std.specs.Prelude.{◌≡◌, false};

use crate::copy_files::reader::CopyReader;
use anyhow::Result;
use pg_copy::Row;
use std::alloc::Global;

/// A format whose files are written again of rows that are lent.
pub trait LentFormat: CopyReader {
    /// Appends a file that is written again of so many rows that a reader lends.
    fn put_again(alloc: Global, bytes: &[u8], rows: usize, out: &mut Vec<u8>) -> Result<()>;
}

// Takes the rows that wait.
fn take_waiting<R: CopyReader>(reader: &mut R, rows: &mut Vec<Row>) -> Result<()>
    requires { R.has_ended reader.old ≡ false }
{
    while let Some(row) = reader.next()? {
        rows.push(row)?;
    }
    Ok(())
}

// Says that the input has ended, and takes the rows that are left.
fn take_left<R: CopyReader>(reader: &mut R, rows: &mut Vec<Row>) -> Result<()> {
    while let Some(row) = reader.finish()? {
        rows.push(row)?;
    }
    Ok(())
}

// Takes the rows of a file that comes whole.
fn take_all<R: CopyReader>(reader: &mut R, bytes: &[u8], rows: &mut Vec<Row>) -> Result<()>
    requires { R.has_ended reader.old ≡ false }
{
    reader.push(bytes)?;
    take_waiting(reader, rows)?;
    take_left(reader, rows)
}

// Appends the rows of a file that comes whole.
fn put_rows<R: CopyReader>(alloc: Global, bytes: &[u8], rows: &mut Vec<Row>) -> Result<()> {
    let mut reader = R::begin(alloc);
    take_all(&mut reader, bytes, rows)
}

/// Whether a file that comes whole has these rows.
pub fn has_rows<R: CopyReader>(alloc: Global, bytes: &[u8], rows: &[Row]) -> Result<bool> {
    let mut found = Vec::new(alloc);
    put_rows::<R>(alloc, bytes, &mut found)?;
    Ok(found.as_slice() == rows)
}

/// Whether a file of so many rows is written again as it was.
pub fn is_written_again<R: LentFormat>(alloc: Global, bytes: &[u8], rows: usize) -> Result<bool> {
    let mut out = Vec::new(alloc);
    R::put_again(alloc, bytes, rows, &mut out)?;
    Ok(out.as_slice() == bytes)
}

/// Passes the rows by that wait, and says why none stands after them.
pub fn fault_after<R: CopyReader>(reader: &mut R) -> Option<R::ReaderFault>
    requires { R.has_ended reader.old ≡ false }
{
    loop {
        match reader.next_lent() {
            Ok(true) => {}
            Ok(false) => return None,
            Err(fault) => return Some(fault),
        }
    }
}
