//! The loops of a caller over the rows of a text file, which are lent.

ghost use Rattle.std.specs.Prelude.{◌≡◌, false, OnOk};

use crate::copy_files::looped::{LentFormat, fault_after, has_rows, is_written_again};
use crate::copy_files::reader::COLUMNS;
use anyhow::{Result, bail, ensure};
use pg_copy::{Row, TextFault, TextReader, TextRowWriter};
use std::alloc::Global;

// Writes the row that the reader lends, value by value.
fn write_held(reader: &TextReader, writer: &mut TextRowWriter, out: &mut Vec<u8>) -> Result<()> {
    let Some(row) = reader.held() else {
        bail!("no row is held");
    };
    for value in row.values() {
        writer.field(value, out)?;
    }
    writer.end(out)?;
    Ok(())
}

// Writes the rows that wait, each as it is lent.
fn write_waiting(
    reader: &mut TextReader,
    writer: &mut TextRowWriter,
    out: &mut Vec<u8>,
) -> Result<()>
    requires { reader.old.ended ≡ false }
    ensures { OnOk result (reader.new.ended ≡ false) }
{
    while reader.next_lent()? {
        write_held(reader, writer, out)?;
    }
    Ok(())
}

// Writes the rows of a text file, which comes a byte at a time, each as it is lent.
fn write_rows(
    reader: &mut TextReader,
    writer: &mut TextRowWriter,
    bytes: &[u8],
    out: &mut Vec<u8>,
) -> Result<()>
    requires { reader.old.ended ≡ false }
{
    for i in 0..bytes.len() {
        reader.push(&bytes[i..i + 1])?;
        write_waiting(reader, writer, out)?;
    }
    Ok(())
}

// The reader has to have given so many rows, which end with a file of so many bytes.
fn check_end(reader: &mut TextReader, rows: usize, bytes: usize) -> Result<()> {
    ensure!(reader.finish()?.is_none(), "a row is left");
    ensure!(reader.rows_given() == rows as u64, "another number of rows");
    ensure!(reader.offset() == bytes as u64, "the rows end elsewhere");
    Ok(())
}

// Writes a text file again from so many rows that the reader lends.
fn write_file(reader: &mut TextReader, bytes: &[u8], rows: usize, out: &mut Vec<u8>) -> Result<()>
    requires { reader.old.ended ≡ false }
{
    let mut writer = TextRowWriter::new();
    write_rows(reader, &mut writer, bytes, out)?;
    check_end(reader, rows, bytes.len())
}

impl LentFormat for TextReader {
    fn put_again(alloc: Global, bytes: &[u8], rows: usize, out: &mut Vec<u8>) -> Result<()> {
        let mut reader = TextReader::new(alloc, Some(COLUMNS));
        write_file(&mut reader, bytes, rows, out)
    }
}

// Pushes a file, and a line that has another number of fields: where the line begins that the fault stands in.
fn push_fault(reader: &mut TextReader, bytes: &[u8]) -> Result<u64>
    requires { reader.old.ended ≡ false }
{
    reader.push(bytes)?;
    reader.push(b"alone\n")?;
    ensure!(
        fault_after(reader) == Some(TextFault::Columns(1)),
        "another fault"
    );
    Ok(reader.offset())
}

// Where the line begins that a fault stands in, of a file after which a line comes with another number of fields.
fn place_of_fault(alloc: Global, bytes: &[u8]) -> Result<u64> {
    let mut reader = TextReader::new(alloc, Some(COLUMNS));
    push_fault(&mut reader, bytes)
}

/// Reads a text file of these rows by the loops.
pub fn check(alloc: Global, file: &[u8], rows: &[Row]) -> Result<()> {
    ensure!(
        has_rows::<TextReader>(alloc, file, rows)?,
        "a loop over the reader of text gives other rows"
    );
    ensure!(
        is_written_again::<TextReader>(alloc, file, rows.len())?,
        "another text is written of rows that are lent"
    );
    ensure!(
        place_of_fault(alloc, file)? == file.len() as u64,
        "a fault of text is told at another place"
    );
    Ok(())
}
