//! Converts a text file of three columns, from the input, to binary and back, and writes it again. Where memory is refused
//! to a reader or a writer the call is made once more: each has left all as it was, so the same file comes out. What was
//! refused is said on standard error.

mod again;

use again::{Again, FilePart, Refused, write_again};
use anyhow::Result;
use pg_copy::{BinaryReader, TextReader};
use std::alloc::Global;
use std::io::{self, BufRead, Read, Write};

/// How many bytes are pushed at once: some rows, and mostly a part of one.
const PIECE: usize = 100;

// Puts the binary file that a reader makes of the text.
fn put_binary(
    reader: &mut Again<TextReader>,
    text: &[u8],
    out: &mut Vec<u8>,
    refused: &mut Refused,
) -> Result<()> {
    write_again(&FilePart::Head, out, refused)?;
    for piece in text.chunks(PIECE) {
        reader.push(piece, &mut refused.text)?;
        for _ in 0..u64::MAX {
            let Some(row) = reader.next(&mut refused.text)? else {
                break;
            };
            write_again(&FilePart::Binary(&row), out, refused)?;
        }
    }
    for _ in 0..u64::MAX {
        let Some(row) = reader.finish(&mut refused.text)? else {
            break;
        };
        write_again(&FilePart::Binary(&row), out, refused)?;
    }
    write_again(&FilePart::Trailer, out, refused)
}

// Puts the file in binary.
fn to_binary(alloc: Global, text: &[u8], out: &mut Vec<u8>, refused: &mut Refused) -> Result<()> {
    let mut reader: Again<TextReader> = Again::new(alloc);
    put_binary(&mut reader, text, out, refused)
}

// Puts the text that a reader makes of the binary file.
fn put_text(
    reader: &mut Again<BinaryReader>,
    binary: &[u8],
    out: &mut Vec<u8>,
    refused: &mut Refused,
) -> Result<()> {
    for piece in binary.chunks(PIECE) {
        reader.push(piece, &mut refused.binary)?;
        for _ in 0..u64::MAX {
            let Some(row) = reader.next(&mut refused.binary)? else {
                break;
            };
            write_again(&FilePart::Text(&row), out, refused)?;
        }
    }
    for _ in 0..u64::MAX {
        let Some(row) = reader.finish(&mut refused.binary)? else {
            break;
        };
        write_again(&FilePart::Text(&row), out, refused)?;
    }
    Ok(())
}

// Puts the binary file in text.
fn to_text(alloc: Global, binary: &[u8], out: &mut Vec<u8>, refused: &mut Refused) -> Result<()> {
    let mut reader: Again<BinaryReader> = Again::new(alloc);
    put_text(&mut reader, binary, out, refused)
}

// Reads the text, and puts it as it comes back from binary. Says what was rejected.
fn convert(rt: &HostRuntime, mut input: impl BufRead + Drop, again: &mut Vec<u8>) -> Result<()> {
    let mut text = Vec::new(rt.alloc());
    input.read_to_end(&mut text)?;
    let mut refused = Refused::default();
    let mut binary = Vec::new(rt.alloc());
    to_binary(rt.alloc(), text.as_slice(), &mut binary, &mut refused)?;
    to_text(rt.alloc(), binary.as_slice(), again, &mut refused)?;
    refused.say(rt)
}

/// Converts the text of an input, and writes it again.
pub fn run(rt: &HostRuntime, input: impl BufRead + Drop) -> Result<()> {
    let mut again = Vec::new(rt.alloc());
    convert(rt, input, &mut again)?;
    io::writer(rt).write_all(again.as_slice())?;
    Ok(())
}
