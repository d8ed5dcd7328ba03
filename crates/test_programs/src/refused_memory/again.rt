//! Calls of readers and writers that are made once more where memory was refused.

use crate::copy_files::reader::CopyReader;
use anyhow::{Result, ensure};
use pg_copy::{
    BinaryFault, Row, RowFault, TextFault, write_binary_head, write_binary_row,
    write_binary_trailer, write_text_row,
};
use std::alloc::Global;

/// Whose memory ran out.
#[derive(Clone, Copy, Debug, Default, Drop)]
pub struct Refused {
    /// That of the reader of the text file.
    pub text: bool,
    /// That of the reader of the binary file.
    pub binary: bool,
    row: bool,
}

impl Refused {
    /// Says it on standard error.
    pub fn say(&self, rt: &HostRuntime) -> Result<()> {
        if self.text {
            eprintln!(rt; "{}", TextFault::Memory)?;
        }
        if self.binary {
            eprintln!(rt; "{}", BinaryFault::Memory)?;
        }
        if self.row {
            eprintln!(rt; "{}", RowFault::Memory)?;
        }
        Ok(())
    }
}

// Whether memory was refused to a call of a reader.
fn is_refused<R: CopyReader, T>(answer: &Result<T, R::ReaderFault>) -> bool {
    match answer {
        Ok(_) => false,
        Err(fault) => R::is_memory(fault),
    }
}

/// A reader whose calls are made once more where memory was refused. Each call says whether it was.
#[derive(Drop)]
pub struct Again<R> {
    reader: R,
}

impl<R: CopyReader> Again<R> {
    pub fn new(alloc: Global) -> Again<R>
        ensures { R.has_width result.reader }
    {
        Again {
            reader: R::begin(alloc),
        }
    }

    pub fn push(&mut self, piece: &[u8], refused: &mut bool) -> Result<()> {
        ensure!(!self.reader.ended(), "the input has ended");
        let answer = self.reader.push(piece);
        if !is_refused::<R, ()>(&answer) {
            return Ok(answer?);
        }
        *refused = true;
        ensure!(!self.reader.ended(), "a refused push ends the input");
        Ok(self.reader.push(piece)?)
    }

    pub fn next(&mut self, refused: &mut bool) -> Result<Option<Row>> {
        ensure!(!self.reader.ended(), "the input has ended");
        let answer = self.reader.next();
        if !is_refused::<R, Option<Row>>(&answer) {
            return Ok(answer?);
        }
        *refused = true;
        ensure!(!self.reader.ended(), "a refused row ends the input");
        Ok(self.reader.next()?)
    }

    pub fn finish(&mut self, refused: &mut bool) -> Result<Option<Row>> {
        let answer = self.reader.finish();
        if !is_refused::<R, Option<Row>>(&answer) {
            return Ok(answer?);
        }
        *refused = true;
        Ok(self.reader.finish()?)
    }
}

/// A part of a file that is written.
#[derive(Drop)]
pub enum FilePart<'a> {
    Head,
    Binary(&'a Row),
    Trailer,
    Text(&'a Row),
}

fn write(part: &FilePart<'_>, buf: &mut Vec<u8>) -> Result<(), RowFault> {
    match part {
        FilePart::Head => write_binary_head(buf),
        FilePart::Binary(row) => write_binary_row(row, buf),
        FilePart::Trailer => write_binary_trailer(buf),
        FilePart::Text(row) => write_text_row(row, buf),
    }
}

/// Appends to a buffer, which a refusal leaves as it was.
pub fn write_again(part: &FilePart<'_>, buf: &mut Vec<u8>, refused: &mut Refused) -> Result<()> {
    let before = buf.len();
    match write(part, buf) {
        Err(RowFault::Memory) => refused.row = true,
        answer => return Ok(answer?),
    }
    ensure!(buf.len() == before, "a refusal has left bytes");
    Ok(write(part, buf)?)
}
