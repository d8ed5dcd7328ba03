//! COPY files that are converted from text to binary, and back.

use crate::digest::Digest;
use crate::orders::{Order, WIDTH};
use anyhow::bail;
use pg_copy::TextRowWriter;
use pg_wire::Over;
use pgpipe_convert::Format;
use pgpipe_convert::convert::{Converted, convert};
use rand_xoshiro::Xoshiro256PlusPlus;
use std::alloc::Global;

/// How many rows a file has.
const ROWS: u32 = 20_000;

/// Appends rows as lines of COPY text.
pub fn write_rows(
    order: &mut Order,
    random: &mut Xoshiro256PlusPlus,
    rows: u32,
    buf: &mut Vec<u8>,
) -> anyhow::Result<()> {
    let mut writer = TextRowWriter::new();
    for _ in 0..rows {
        for value in order.next(random) {
            writer.field(value, buf)?;
        }
        writer.end(buf)?;
    }
    Ok(())
}

// A file of the other format.
fn converted(alloc: Global, from: Format, to: Format, file: &[u8]) -> anyhow::Result<Vec<u8>> {
    let mut source = Over::new(file);
    let mut sink = Over::new(Vec::new(alloc));
    match convert(alloc, from, to, WIDTH as u16, &mut source, &mut sink) {
        Ok(Converted::Whole) => Ok(sink.into_inner()),
        _ => bail!("a file isn't converted"),
    }
}

/// So many files are written in text, converted to binary, and back.
pub fn convert_files(
    alloc: Global,
    mut random: Xoshiro256PlusPlus,
    files: u32,
) -> anyhow::Result<u64> {
    let mut digest = Digest::new();
    let mut order = Order::new();
    let mut text = Vec::new(alloc);
    for _ in 0..files {
        text.clear();
        write_rows(&mut order, &mut random, ROWS, &mut text)?;
        let binary = converted(alloc, Format::Text, Format::Binary, text.as_slice())?;
        digest.put_bytes(binary.as_slice());
        let again = converted(alloc, Format::Binary, Format::Text, binary.as_slice())?;
        digest.put_bytes(again.as_slice());
    }
    Ok(digest.finish())
}
