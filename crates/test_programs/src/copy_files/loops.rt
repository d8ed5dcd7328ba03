//! The loops of a caller over the rows of a binary file, which are lent.

ghost use Rattle.std.specs.Prelude.{◌≡◌, false, OnOk};

use crate::copy_files::looped::{LentFormat, fault_after, has_rows, is_written_again};
use crate::copy_files::reader::{COLUMNS, LIMIT};
use anyhow::{Result, bail, ensure};
use pg_copy::{
    BinaryFault, BinaryReader, Row, write_binary_count, write_binary_field, write_binary_head,
    write_binary_trailer,
};
use std::alloc::Global;

// Writes the row that the reader lends, value by value.
fn write_held(reader: &BinaryReader, out: &mut Vec<u8>) -> Result<()> {
    let Some(row) = reader.held() else {
        bail!("no row is held");
    };
    write_binary_count(usize::from(COLUMNS), out)?;
    for value in row.values() {
        write_binary_field(value, out)?;
    }
    Ok(())
}

// Writes the rows that wait, each as it is lent.
fn write_waiting(reader: &mut BinaryReader, out: &mut Vec<u8>) -> Result<()>
    requires { reader.old.ended ≡ false }
    ensures { OnOk result (reader.new.ended ≡ false) }
{
    while reader.next_lent()? {
        write_held(reader, out)?;
    }
    Ok(())
}

// Writes the rows of a binary file, which comes a byte at a time, each as it is lent.
fn write_rows(reader: &mut BinaryReader, bytes: &[u8], out: &mut Vec<u8>) -> Result<()>
    requires { reader.old.ended ≡ false }
{
    for i in 0..bytes.len() {
        reader.push(&bytes[i..i + 1])?;
        write_waiting(reader, out)?;
    }
    Ok(())
}

// The reader has to have given so many rows, which end with the trailer of a file of so many bytes.
fn check_end(reader: &mut BinaryReader, rows: usize, bytes: usize) -> Result<()> {
    ensure!(reader.finish()?.is_none(), "a row is left");
    ensure!(reader.rows_given() == rows as u64, "another number of rows");
    ensure!(
        reader.offset() == bytes.saturating_sub(2) as u64,
        "the trailer stands elsewhere"
    );
    Ok(())
}

// Writes a binary file again from so many rows that the reader lends.
fn write_file(reader: &mut BinaryReader, bytes: &[u8], rows: usize, out: &mut Vec<u8>) -> Result<()>
    requires { reader.old.ended ≡ false }
{
    write_binary_head(out)?;
    write_rows(reader, bytes, out)?;
    check_end(reader, rows, bytes.len())?;
    Ok(write_binary_trailer(out)?)
}

impl LentFormat for BinaryReader {
    fn put_again(alloc: Global, bytes: &[u8], rows: usize, out: &mut Vec<u8>) -> Result<()> {
        let mut reader = BinaryReader::new(alloc, COLUMNS, LIMIT);
        write_file(&mut reader, bytes, rows, out)
    }
}

// Pushes the rows of a file, and a trailer that has another number of fields: where the row begins in place of which the fault stands.
fn push_fault(reader: &mut BinaryReader, rows: &[u8]) -> Result<u64>
    requires { reader.old.ended ≡ false }
{
    reader.push(rows)?;
    reader.push(&[0, 9])?;
    ensure!(
        fault_after(reader) == Some(BinaryFault::FieldCount(9)),
        "another fault"
    );
    Ok(reader.offset())
}

// Where the row begins in place of which a fault stands, of a file whose trailer has another number of fields.
fn place_of_fault(alloc: Global, bytes: &[u8]) -> Result<u64> {
    ensure!(bytes.len() >= 2, "there is no trailer");
    let mut reader = BinaryReader::new(alloc, COLUMNS, LIMIT);
    push_fault(&mut reader, &bytes[..bytes.len() - 2])
}

/// Reads a binary file of these rows by the loops.
pub fn check(alloc: Global, file: &[u8], rows: &[Row]) -> Result<()> {
    ensure!(
        has_rows::<BinaryReader>(alloc, file, rows)?,
        "a loop over the reader gives other rows"
    );
    ensure!(
        is_written_again::<BinaryReader>(alloc, file, rows.len())?,
        "another binary file is written of rows that are lent"
    );
    ensure!(
        place_of_fault(alloc, file)? == file.len().saturating_sub(2) as u64,
        "a fault is told at another place"
    );
    Ok(())
}
