//! Converts files that a server wrote: the same rows in text, which is the input, and in binary, which is the file `rows.binary`. Each file is
//! read whole, a byte at a time and cut in two at each place, gives the same rows each time, and these are written as the very bytes of both
//! files.

pub mod file;
mod looped;
mod loops;
pub mod reader;
mod text_loops;

use crate::byte_cut::ByteCut;
use anyhow::{Context, Result, bail, ensure};
use file::CopyFormat;
use pg_copy::{BinaryReader, Row, TextReader};
use std::alloc::Global;
use std::fs;
use std::io::{BufRead, Read};

// Whether a file that is cut so has these rows.
fn has_rows<F: CopyFormat>(
    alloc: Global,
    bytes: &[u8],
    cut: ByteCut,
    rows: &[Row],
) -> Result<bool> {
    let mut found = Vec::new(alloc);
    file::read::<F>(alloc, bytes, cut, &mut found)?;
    Ok(found.as_slice() == rows)
}

// A file that is cut so has to have these rows.
fn check_cut<F: CopyFormat>(alloc: Global, bytes: &[u8], cut: ByteCut, rows: &[Row]) -> Result<()> {
    if !has_rows::<F>(alloc, bytes, cut, rows)? {
        bail!("{cut} it gives other rows");
    }
    Ok(())
}

// A file has to have these rows however it is cut.
fn check_cuts<F: CopyFormat>(alloc: Global, bytes: &[u8], rows: &[Row]) -> Result<()> {
    check_cut::<F>(alloc, bytes, ByteCut::Everywhere, rows)?;
    for place in 0..bytes.len() {
        check_cut::<F>(alloc, bytes, ByteCut::At(place), rows)?;
    }
    Ok(())
}

// Appends the rows of a file, which are the same however it is cut.
fn put_rows<F: CopyFormat>(alloc: Global, bytes: &[u8], rows: &mut Vec<Row>) -> Result<()> {
    file::read::<F>(alloc, bytes, ByteCut::Nowhere, rows)?;
    check_cuts::<F>(alloc, bytes, rows.as_slice())
}

// These rows have to be written as this file.
fn check_written<F: CopyFormat>(alloc: Global, rows: &[Row], wanted: &[u8]) -> Result<()> {
    let written = file::write::<F>(alloc, rows)?;
    ensure!(written.as_slice() == wanted, "another file is written");
    Ok(())
}

/// A text file and a binary file of the same rows.
#[derive(Clone, Copy)]
struct Files<'a> {
    text: &'a [u8],
    binary: &'a [u8],
}

// The rows that were read of both files have to be the same, and are written as both.
fn check_rows(alloc: Global, files: Files<'_>, of_text: &[Row], of_binary: &[Row]) -> Result<()> {
    ensure!(of_text == of_binary, "the files have other rows");
    check_written::<TextReader>(alloc, of_binary, files.text).context("in text")?;
    check_written::<BinaryReader>(alloc, of_text, files.binary).context("in binary")
}

// The loops over a reader and a writer that the guide shows have to come to the same.
fn check_loops(alloc: Global, files: Files<'_>, of_text: &[Row], of_binary: &[Row]) -> Result<()> {
    loops::check(alloc, files.binary, of_binary)?;
    text_loops::check(alloc, files.text, of_text)
}

// Reads both files, and says how many rows and bytes there are.
fn check(
    rt: &HostRuntime,
    files: Files<'_>,
    of_text: &mut Vec<Row>,
    of_binary: &mut Vec<Row>,
) -> Result<()> {
    put_rows::<TextReader>(rt.alloc(), files.text, of_text)?;
    put_rows::<BinaryReader>(rt.alloc(), files.binary, of_binary)?;
    check_rows(rt.alloc(), files, of_text.as_slice(), of_binary.as_slice())?;
    check_loops(rt.alloc(), files, of_text.as_slice(), of_binary.as_slice())?;
    println!(rt;
        "{} rows, {} bytes in text, {} in binary",
        of_text.len(),
        files.text.len(),
        files.binary.len()
    )?;
    Ok(())
}

// Reads both files. What they hold is owned here, in a function with one way out, since a function is proved to let go what it owns on
// each way out.
fn check_files(rt: &HostRuntime, files: Files<'_>) -> Result<()> {
    let mut of_text = Vec::new(rt.alloc());
    let mut of_binary = Vec::new(rt.alloc());
    check(rt, files, &mut of_text, &mut of_binary)
}

// Reads the binary file beside this text.
fn check_text(rt: &HostRuntime, text: &[u8]) -> Result<()> {
    let binary = fs::read(rt, "rows.binary")?;
    check_files(
        rt,
        Files {
            text,
            binary: binary.as_slice(),
        },
    )
}

/// Reads both files, of which the input is the text.
pub fn run(rt: &HostRuntime, mut input: impl BufRead + Drop) -> Result<()> {
    let mut text = Vec::new(rt.alloc());
    input.read_to_end(&mut text)?;
    check_text(rt, text.as_slice())
}
