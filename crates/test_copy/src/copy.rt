//! Rows of COPY files, read in pieces and written.
//!
//! Each test is a table that a small function judges. A reader costs the prover much in each function that owns one, so one function
//! of each format makes readers, and lends them to the others.

mod binary;
mod faults;
mod limit;
mod made;
mod options;
mod single;
mod text;

use pg_copy::{
    BinaryFault, BinaryReader, LimitedTextFault, LimitedTextReader, Row, RowFault, TextFault,
    TextOptions, TextReader, write_text_row, write_text_row_with,
};
use std::alloc::{AllocError, Global};
use std::fmt::Display;

/// A fault of either format, or of a reader with a limit.
#[derive(Clone, Copy, PartialEq, Eq)]
enum Fault {
    Text(TextFault),
    Limited(LimitedTextFault),
    Binary(BinaryFault),
}

impl From<TextFault> for Fault {
    fn from(fault: TextFault) -> Fault {
        Fault::Text(fault)
    }
}

impl From<LimitedTextFault> for Fault {
    fn from(fault: LimitedTextFault) -> Fault {
        Fault::Limited(fault)
    }
}

impl From<BinaryFault> for Fault {
    fn from(fault: BinaryFault) -> Fault {
        Fault::Binary(fault)
    }
}

/// A reader of either format, or with a limit. At the end of the input `push` and `next` do nothing.
trait Reader {
    fn push(&mut self, piece: &[u8]) -> Result<(), Fault>;

    fn next(&mut self) -> Result<Option<Row>, Fault>;

    fn finish(&mut self) -> Result<Option<Row>, Fault>;

    fn done(&self) -> bool;

    fn ended(&self) -> bool;

    fn rows_given(&self) -> u64;

    fn offset(&self) -> u64;
}

impl Reader for TextReader {
    fn push(&mut self, piece: &[u8]) -> Result<(), Fault> {
        if self.ended() {
            return Ok(());
        }
        TextReader::push(self, piece)?;
        Ok(())
    }

    fn next(&mut self) -> Result<Option<Row>, Fault> {
        if self.ended() {
            return Ok(None);
        }
        Ok(TextReader::next(self)?)
    }

    fn finish(&mut self) -> Result<Option<Row>, Fault> {
        Ok(TextReader::finish(self)?)
    }

    fn done(&self) -> bool {
        TextReader::done(self)
    }

    fn ended(&self) -> bool {
        TextReader::ended(self)
    }

    fn rows_given(&self) -> u64 {
        TextReader::rows_given(self)
    }

    fn offset(&self) -> u64 {
        TextReader::offset(self)
    }
}

impl Reader for LimitedTextReader {
    fn push(&mut self, piece: &[u8]) -> Result<(), Fault> {
        if self.reader().ended() {
            return Ok(());
        }
        LimitedTextReader::push(self, piece)?;
        Ok(())
    }

    fn next(&mut self) -> Result<Option<Row>, Fault> {
        if self.reader().ended() {
            return Ok(None);
        }
        Ok(LimitedTextReader::next(self)?)
    }

    fn finish(&mut self) -> Result<Option<Row>, Fault> {
        Ok(LimitedTextReader::finish(self)?)
    }

    fn done(&self) -> bool {
        self.reader().done()
    }

    fn ended(&self) -> bool {
        self.reader().ended()
    }

    fn rows_given(&self) -> u64 {
        self.reader().rows_given()
    }

    fn offset(&self) -> u64 {
        self.reader().offset()
    }
}

impl Reader for BinaryReader {
    fn push(&mut self, piece: &[u8]) -> Result<(), Fault> {
        if self.ended() {
            return Ok(());
        }
        BinaryReader::push(self, piece)?;
        Ok(())
    }

    fn next(&mut self) -> Result<Option<Row>, Fault> {
        if self.ended() {
            return Ok(None);
        }
        Ok(BinaryReader::next(self)?)
    }

    fn finish(&mut self) -> Result<Option<Row>, Fault> {
        Ok(BinaryReader::finish(self)?)
    }

    fn done(&self) -> bool {
        BinaryReader::done(self)
    }

    fn ended(&self) -> bool {
        BinaryReader::ended(self)
    }

    fn rows_given(&self) -> u64 {
        BinaryReader::rows_given(self)
    }

    fn offset(&self) -> u64 {
        BinaryReader::offset(self)
    }
}

// ---- a reader's calls, one by one

/// A call of a reader, or a question to it.
#[derive(Clone, Copy)]
enum ReaderCall {
    Push(&'static [u8]),
    Next,
    Finish,
    Done,
    Ended,
    RowsGiven,
    Offset,
}

/// What a reader answers.
#[derive(Clone, Copy, PartialEq, Eq)]
enum Answer {
    /// The piece was taken.
    Taken,
    /// A row came.
    Row,
    /// No row came.
    Nothing,
    Fault(Fault),
    Is(bool),
    Count(u64),
}

fn taken(answer: Result<(), Fault>) -> Answer {
    match answer {
        Ok(()) => Answer::Taken,
        Err(fault) => Answer::Fault(fault),
    }
}

fn given(answer: Result<Option<Row>, Fault>) -> Answer {
    match answer {
        Ok(Some(_)) => Answer::Row,
        Ok(None) => Answer::Nothing,
        Err(fault) => Answer::Fault(fault),
    }
}

fn ask<R: Reader>(reader: &mut R, call: ReaderCall) -> Answer {
    match call {
        ReaderCall::Push(piece) => taken(reader.push(piece)),
        ReaderCall::Next => given(reader.next()),
        ReaderCall::Finish => given(reader.finish()),
        ReaderCall::Done => Answer::Is(reader.done()),
        ReaderCall::Ended => Answer::Is(reader.ended()),
        ReaderCall::RowsGiven => Answer::Count(reader.rows_given()),
        ReaderCall::Offset => Answer::Count(reader.offset()),
    }
}

// Whether a reader answers each call so.
fn answers<R: Reader>(reader: &mut R, steps: &[(ReaderCall, Answer)]) -> bool {
    for (call, wanted) in steps {
        if ask(reader, *call) != *wanted {
            return false;
        }
    }
    true
}

// ---- files, however they are cut

// Writes the row that an answer gives as a canonical line.
fn written(answer: Result<Option<Row>, Fault>, lines: &mut Vec<u8>) -> Answer {
    match answer {
        Ok(Some(row)) => match write_text_row(&row, lines) {
            Ok(()) => Answer::Row,
            Err(_) => Answer::Nothing,
        },
        Ok(None) => Answer::Nothing,
        Err(fault) => Answer::Fault(fault),
    }
}

/// Which rows of a reader are written: those that wait, or those that are left at the end of the input.
#[derive(Clone, Copy)]
enum Rows {
    Waiting,
    Left,
}

fn next_row<R: Reader>(reader: &mut R, rows: Rows) -> Result<Option<Row>, Fault> {
    match rows {
        Rows::Waiting => reader.next(),
        Rows::Left => reader.finish(),
    }
}

// Writes these rows, of which there are no more than `most`, and gives the fault after them, if there is one.
fn write_rows<R: Reader>(
    reader: &mut R,
    rows: Rows,
    most: usize,
    lines: &mut Vec<u8>,
) -> Option<Fault> {
    for _ in 0..=most {
        match written(next_row(reader, rows), lines) {
            Answer::Row => {}
            Answer::Fault(fault) => return Some(fault),
            _ => return None,
        }
    }
    None
}

fn write_left<R: Reader>(reader: &mut R, most: usize, lines: &mut Vec<u8>) -> Option<Fault> {
    write_rows(reader, Rows::Left, most, lines)
}

// Pushes a piece, and writes the rows that wait then.
fn write_piece<R: Reader>(
    reader: &mut R,
    piece: &[u8],
    most: usize,
    lines: &mut Vec<u8>,
) -> Option<Fault> {
    match reader.push(piece) {
        Ok(()) => write_rows(reader, Rows::Waiting, most, lines),
        Err(fault) => Some(fault),
    }
}

// Reads a file in pieces, the first of `first` bytes and each other one of `size`, writes its rows as canonical lines, and gives
// the fault after them, if there is one.
fn write_file<R: Reader>(
    reader: &mut R,
    file: &[u8],
    first: usize,
    size: usize,
    lines: &mut Vec<u8>,
) -> Option<Fault> {
    let (front, rest) = file.split_at(first.min(file.len()));
    if let Some(fault) = write_piece(reader, front, file.len(), lines) {
        return Some(fault);
    }
    for piece in rest.chunks(size.max(1)) {
        if let Some(fault) = write_piece(reader, piece, file.len(), lines) {
            return Some(fault);
        }
    }
    write_left(reader, file.len(), lines)
}

// The fault of a text file that is wanted, if one is.
fn wanted_text(fault: Option<TextFault>) -> Option<Fault> {
    match fault {
        Some(fault) => Some(Fault::Text(fault)),
        None => None,
    }
}

// ---- rows, one after the other

/// A row's values, what the call that writes it answers, and all that is written then.
type WrittenRow = (
    &'static [Option<&'static [u8]>],
    Result<(), RowFault>,
    &'static [u8],
);

fn write_row(
    row: &Row,
    options: Option<&TextOptions>,
    lines: &mut Vec<u8>,
) -> Result<(), RowFault> {
    match options {
        Some(options) => write_text_row_with(row, options, lines),
        None => write_text_row(row, lines),
    }
}

// Whether these rows are written so, one after the other, with these options or without any.
fn writes(
    alloc: Global,
    options: Option<&TextOptions>,
    rows: &[WrittenRow],
) -> Result<bool, AllocError> {
    let mut lines = Vec::new(alloc);
    for (values, answer, all) in rows {
        let row = Row::from_slice(alloc, *values)?;
        if write_row(&row, options, &mut lines) != *answer || lines.as_slice() != *all {
            return Ok(false);
        }
    }
    Ok(true)
}

// Whether each fault has this text.
fn are_told<F: Display>(alloc: Global, faults: &[(F, &str)]) -> Result<bool, AllocError> {
    for (fault, text) in faults {
        if fault.to_string(alloc)?.as_str() != *text {
            return Ok(false);
        }
    }
    Ok(true)
}
