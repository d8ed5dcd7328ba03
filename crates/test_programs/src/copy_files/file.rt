//! Files of either format, read in pieces and written.

ghost use Rattle.std.specs.Prelude.{◌≡◌, ◌++◌, ℕ, List, IfOk, OnOk};
ghost use Rattle.std.specs.List.{flat_map};
ghost use Rattle.pg_copy.specs.Row.{Row};
ghost use Rattle.pg_copy.specs.Text.{default_options, written_row};
ghost use Rattle.pg_copy.specs.Binary.{written_head, binary_row, trailer};

use crate::byte_cut::ByteCut;
use crate::copy_files::reader::CopyReader;
use anyhow::{Result, bail, ensure};
use pg_copy::{
    BinaryReader, Row, TextReader, write_binary_head, write_binary_row, write_binary_trailer,
    write_text_row,
};
use std::alloc::Global;

/// A format: a reader of its files, and how they are written.
pub trait CopyFormat: CopyReader {
    // the file that is written of rows
    ghost file_of: { List Row → List ℕ };

    /// Appends a whole file of these rows.
    fn write(rows: &[Row], buf: &mut Vec<u8>) -> Result<()>
        ensures { OnOk result (buf.new.items ≡ buf.old.items ++ file_of rows.now) };
}

// Appends the canonical lines of rows.
fn write_lines(rows: &[Row], buf: &mut Vec<u8>) -> Result<()>
    ensures { OnOk result (buf.new.items
        ≡ buf.old.items ++ flat_map (written_row default_options) rows.now) }
{
    for row in rows {
        write_text_row(row, buf)?;
    }
    Ok(())
}

// Appends the rows of a binary file, which stand between its head and its trailer.
fn write_binary_rows(rows: &[Row], buf: &mut Vec<u8>) -> Result<()>
    ensures { OnOk result (buf.new.items ≡ buf.old.items ++ flat_map binary_row rows.now) }
{
    for row in rows {
        write_binary_row(row, buf)?;
    }
    Ok(())
}

impl CopyFormat for TextReader {
    ghost file_of = { flat_map (written_row default_options) };

    fn write(rows: &[Row], buf: &mut Vec<u8>) -> Result<()> {
        write_lines(rows, buf)
    }
}

impl CopyFormat for BinaryReader {
    ghost file_of = { λ rows. written_head ++ flat_map binary_row rows ++ trailer };

    fn write(rows: &[Row], buf: &mut Vec<u8>) -> Result<()> {
        write_binary_head(buf)?;
        write_binary_rows(rows, buf)?;
        write_binary_trailer(buf)?;
        Ok(())
    }
}

fn next_row<R: CopyReader>(reader: &mut R) -> Result<Option<Row>> {
    ensure!(!reader.ended(), "the input has ended");
    Ok(reader.next()?)
}

// Keeps a row, and says whether there was one.
fn keep(row: Option<Row>, rows: &mut Vec<Row>) -> Result<bool> {
    let Some(row) = row else {
        return Ok(false);
    };
    rows.push(row)?;
    Ok(true)
}

// Pushes a piece, and takes the rows that wait then, of which there are no more than bytes.
fn read_piece<R: CopyReader>(
    reader: &mut R,
    piece: &[u8],
    most: usize,
    rows: &mut Vec<Row>,
) -> Result<()> {
    ensure!(!reader.ended(), "the input has ended");
    reader.push(piece)?;
    for _ in 0..=most {
        if !keep(next_row(reader)?, rows)? {
            return Ok(());
        }
    }
    bail!("there are more rows than bytes")
}

// Pushes a file a byte at a time, and takes the rows that wait after each.
fn push_bytes<R: CopyReader>(reader: &mut R, bytes: &[u8], rows: &mut Vec<Row>) -> Result<()> {
    for i in 0..bytes.len() {
        read_piece(reader, &bytes[i..i + 1], bytes.len(), rows)?;
    }
    Ok(())
}

// Pushes a file that comes in pieces, and takes the rows that wait after each.
fn push_pieces<R: CopyReader>(
    reader: &mut R,
    bytes: &[u8],
    cut: ByteCut,
    rows: &mut Vec<Row>,
) -> Result<()> {
    let most = bytes.len();
    match cut {
        ByteCut::Nowhere => read_piece(reader, bytes, most, rows),
        ByteCut::Everywhere => push_bytes(reader, bytes, rows),
        ByteCut::At(place) => {
            let (front, back) = bytes.split_at(place.min(bytes.len()));
            read_piece(reader, front, most, rows)?;
            read_piece(reader, back, most, rows)
        }
    }
}

// Takes the rows that are left at the end of the input, of which there are no more than bytes.
fn read_left<R: CopyReader>(reader: &mut R, most: usize, rows: &mut Vec<Row>) -> Result<()> {
    for _ in 0..=most {
        if !keep(reader.finish()?, rows)? {
            return Ok(());
        }
    }
    bail!("there are more rows than bytes")
}

// Reads a file that comes in pieces to its end.
fn read_pieces<R: CopyReader>(
    reader: &mut R,
    bytes: &[u8],
    cut: ByteCut,
    rows: &mut Vec<Row>,
) -> Result<()> {
    push_pieces(reader, bytes, cut, rows)?;
    read_left(reader, bytes.len(), rows)
}

/// Appends the rows of a file that comes in pieces.
pub fn read<R: CopyReader>(
    alloc: Global,
    bytes: &[u8],
    cut: ByteCut,
    rows: &mut Vec<Row>,
) -> Result<()> {
    let mut reader = R::begin(alloc);
    read_pieces(&mut reader, bytes, cut, rows)
}

/// A whole file of these rows.
pub fn write<F: CopyFormat>(alloc: Global, rows: &[Row]) -> Result<Vec<u8>>
    ensures { IfOk result (λ file. file.items ≡ F.file_of rows.now) }
{
    let mut buf = Vec::new(alloc);
    F::write(rows, &mut buf)?;
    Ok(buf)
}
