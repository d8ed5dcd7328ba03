//! A COPY file that is read row by row: `bench/convert` times it beside a peer.

use anyhow::bail;
use pg_copy::TextReader;
use std::alloc::Global;
use std::io::Read;

/// How many bytes are read at once.
const PIECE: usize = 65_536;

// Takes the rows that wait, each owned: how many values they have.
fn take_owned(reader: &mut TextReader) -> anyhow::Result<u64> {
    let mut values = 0u64;
    for _ in 0..u64::MAX {
        if reader.ended() {
            break;
        }
        let Some(row) = reader.next()? else {
            break;
        };
        values = values.wrapping_add(row.len() as u64);
    }
    Ok(values)
}

// Walks over the values of the rows that wait, each lent: how many they are.
fn take_lent(reader: &mut TextReader) -> anyhow::Result<u64> {
    let mut values = 0u64;
    for _ in 0..u64::MAX {
        if reader.ended() || !reader.next_lent()? {
            break;
        }
        if let Some(row) = reader.held() {
            for _value in row.values() {
                values = values.wrapping_add(1);
            }
        }
    }
    Ok(values)
}

/// Reads a file in text, of rows with so many columns, which are owned or lent: how many values they have.
pub fn read_rows<R: Read>(
    alloc: Global,
    input: &mut R,
    columns: usize,
    lent: bool,
) -> anyhow::Result<u64> {
    if columns == 0 || columns > 32_767 {
        bail!("a row has 1 to 32,767 columns");
    }
    let mut reader = TextReader::new(alloc, Some(columns as u16));
    let mut piece = vec![in alloc; 0; PIECE]?;
    let mut values = 0u64;
    for _ in 0..u64::MAX {
        let count = input.read(piece.as_mut_slice())?;
        if count == 0 || reader.ended() {
            break;
        }
        reader.push(&piece[..count])?;
        let taken = if lent {
            take_lent(&mut reader)?
        } else {
            take_owned(&mut reader)?
        };
        values = values.wrapping_add(taken);
    }
    Ok(values)
}
