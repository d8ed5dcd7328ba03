//! Binary files.

use super::Answer::{Is, Nothing, Taken};
use super::{Answer, Fault, ReaderCall, answers, write_file};
use pg_copy::{
    BinaryFault, BinaryReader, Row, RowFault, write_binary_head, write_binary_row,
    write_binary_trailer,
};
use std::alloc::{AllocError, Global};

/// What each file begins with.
const SIGNATURE: &[u8] = b"PGCOPY\n\xFF\r\n\0";

/// What a file without an extension has in front of its rows.
const HEAD: &[u8] = b"PGCOPY\n\xFF\r\n\0\0\0\0\0\0\0\0\0";

const TRUNCATED: Option<BinaryFault> = Some(BinaryFault::Truncated);

// ---- files, however they are cut

/// What a file of one column, with values of at most two bytes, begins with and what follows, the canonical lines of its rows, and the
/// fault after them.
type BinaryFile = (
    &'static [u8],
    &'static [u8],
    &'static [u8],
    Option<BinaryFault>,
);

// Reads such a file, as `write_file` does.
fn write_column(
    alloc: Global,
    file: &[u8],
    first: usize,
    size: usize,
    lines: &mut Vec<u8>,
) -> Option<Fault> {
    let mut reader = BinaryReader::new(alloc, 1, 2);
    write_file(&mut reader, file, first, size, lines)
}

fn wanted(fault: Option<BinaryFault>) -> Option<Fault> {
    match fault {
        Some(fault) => Some(Fault::Binary(fault)),
        None => None,
    }
}

// Whether these bytes give the file's lines and its fault, where the first piece has so many, and each other one so many.
fn gives_cut(alloc: Global, bytes: &[u8], first: usize, size: usize, file: BinaryFile) -> bool {
    let (_, _, lines, fault) = file;
    let mut written = Vec::new(alloc);
    let found = write_column(alloc, bytes, first, size, &mut written);
    found == wanted(fault) && written.as_slice() == lines
}

// Whether these bytes give the file's lines and its fault, however they are cut.
fn gives(alloc: Global, bytes: &[u8], file: BinaryFile) -> bool {
    for first in 0..=bytes.len() {
        for size in 1..=bytes.len() {
            if !gives_cut(alloc, bytes, first, size, file) {
                return false;
            }
        }
    }
    true
}

fn all_give(alloc: Global, files: &[BinaryFile]) -> Result<bool, AllocError> {
    for file in files {
        let bytes = [file.0, file.1].concat(alloc)?;
        if !gives(alloc, bytes.as_slice(), *file) {
            return Ok(false);
        }
    }
    Ok(true)
}

// Whether these bytes, which come one by one, give no more lines than these, and then are truncated.
fn is_truncated(alloc: Global, bytes: &[u8], lines: &[u8]) -> bool {
    let mut written = Vec::new(alloc);
    let found = write_column(alloc, bytes, 0, 1, &mut written);
    found == wanted(TRUNCATED) && lines.starts_with(written.as_slice())
}

// Whether the bytes are truncated wherever they are cut off before their end.
fn is_truncated_everywhere(alloc: Global, bytes: &[u8], lines: &[u8]) -> bool {
    for place in 0..bytes.len() {
        let (before, _) = bytes.split_at_checked(place).unwrap_or((bytes, &[]));
        if !is_truncated(alloc, before, lines) {
            return false;
        }
    }
    true
}

// an extension of two bytes, and three rows
const EXTENDED: &[u8] = b"PGCOPY\n\xFF\r\n\0\0\0\0\x01\0\0\0\x02\xAA\xBB\
    \0\x01\0\0\0\x02a\t\0\x01\xFF\xFF\xFF\xFF\0\x01\0\0\0\0\xFF\xFF";

#[test]
fn a_file_cut_anywhere_is_truncated(rt: HostRuntime) {
    assert!(rt; is_truncated_everywhere(rt.alloc(), EXTENDED, b"a\\t\n\\N\n\n"));
}

const ROWS: [BinaryFile; 2] = [
    (HEAD, b"\xFF\xFF", b"", None),
    (
        HEAD,
        b"\0\x01\0\0\0\x02a\t\0\x01\xFF\xFF\xFF\xFF\0\x01\0\0\0\0\xFF\xFF",
        b"a\\t\n\\N\n\n",
        None,
    ),
];

#[test]
fn rows_stand_before_the_trailer(rt: HostRuntime) {
    assert!(rt; all_give(rt.alloc(), &ROWS) == Ok(true));
}

const TRAILERS: [BinaryFile; 3] = [
    (HEAD, b"\xFF\xFF\0", b"", Some(BinaryFault::AfterTrailer)),
    (HEAD, b"\xFF", b"", TRUNCATED),
    (HEAD, b"\0\x01\0\0\0\x01a\0\x01\0", b"a\n", TRUNCATED),
];

#[test]
fn the_trailer_comes_last(rt: HostRuntime) {
    assert!(rt; all_give(rt.alloc(), &TRAILERS) == Ok(true));
}

const HEADS: [BinaryFile; 3] = [
    (
        b"PGCOPY\r\xFF\r\n\0",
        b"\0",
        b"",
        Some(BinaryFault::Signature),
    ),
    (
        SIGNATURE,
        b"\0\x01\0\0\0\0\0\0\xFF\xFF",
        b"",
        Some(BinaryFault::Flags(65_536)),
    ),
    (
        SIGNATURE,
        b"\0\0\0\0\xFF\xFF\xFF\xFF",
        b"",
        Some(BinaryFault::Extension(-1)),
    ),
];

#[test]
fn heads_have_their_faults(rt: HostRuntime) {
    assert!(rt; all_give(rt.alloc(), &HEADS) == Ok(true));
}

const SKIPPED: [BinaryFile; 2] = [
    (
        SIGNATURE,
        b"\0\0\0\x01\0\0\0\x02\xAA\xBB\xFF\xFF",
        b"",
        None,
    ),
    (
        SIGNATURE,
        b"\0\0\0\x01\0\0\0\x03abc\0\x01\0\0\0\x01d\xFF\xFF",
        b"d\n",
        None,
    ),
];

#[test]
fn extensions_are_skipped(rt: HostRuntime) {
    assert!(rt; all_give(rt.alloc(), &SKIPPED) == Ok(true));
}

const CUT_SHORT: [BinaryFile; 2] = [
    (SIGNATURE, b"\0\0\0\0\0\0\0\x03ab", b"", TRUNCATED),
    (
        SIGNATURE,
        b"\0\0\0\0\x7F\xFF\xFF\xFF\0\x01\0\0\0\x01a\xFF\xFF",
        b"",
        TRUNCATED,
    ),
];

#[test]
fn extensions_come_whole(rt: HostRuntime) {
    assert!(rt; all_give(rt.alloc(), &CUT_SHORT) == Ok(true));
}

const COUNTS: [BinaryFile; 2] = [
    (HEAD, b"\0\x02", b"", Some(BinaryFault::FieldCount(2))),
    (HEAD, b"\xFF\xFE", b"", Some(BinaryFault::FieldCount(-2))),
];

#[test]
fn rows_have_their_faults(rt: HostRuntime) {
    assert!(rt; all_give(rt.alloc(), &COUNTS) == Ok(true));
}

const LENGTHS: [BinaryFile; 2] = [
    (
        HEAD,
        b"\0\x01\0\0\0\x03",
        b"",
        Some(BinaryFault::FieldLength(3)),
    ),
    (
        HEAD,
        b"\0\x01\xFF\xFF\xFF\xFE",
        b"",
        Some(BinaryFault::FieldLength(-2)),
    ),
];

#[test]
fn values_have_their_faults(rt: HostRuntime) {
    assert!(rt; all_give(rt.alloc(), &LENGTHS) == Ok(true));
}

// ---- a reader's calls, one by one

// Whether a new reader of one column, with values of at most one byte, answers each call so.
fn comes(alloc: Global, steps: &[(ReaderCall, Answer)]) -> bool {
    let mut reader = BinaryReader::new(alloc, 1, 1);
    answers(&mut reader, steps)
}

const LEFT: [(ReaderCall, Answer); 5] = [
    (ReaderCall::Push(HEAD), Taken),
    (
        ReaderCall::Push(b"\0\x01\0\0\0\x01a\0\x01\xFF\xFF\xFF\xFF\xFF\xFF"),
        Taken,
    ),
    (ReaderCall::Finish, Answer::Row),
    (ReaderCall::Finish, Answer::Row),
    (ReaderCall::Finish, Nothing),
];

#[test]
fn rows_are_left_at_the_end(rt: HostRuntime) {
    assert!(rt; comes(rt.alloc(), &LEFT));
}

const DONE: [(ReaderCall, Answer); 8] = [
    (ReaderCall::Push(HEAD), Taken),
    (ReaderCall::Push(b"\xFF\xFF"), Taken),
    (ReaderCall::Done, Is(false)),
    (ReaderCall::Next, Nothing),
    (ReaderCall::Done, Is(true)),
    (ReaderCall::Ended, Is(false)),
    (ReaderCall::Finish, Nothing),
    (ReaderCall::Ended, Is(true)),
];

#[test]
fn a_reader_is_done_at_the_trailer(rt: HostRuntime) {
    assert!(rt; comes(rt.alloc(), &DONE));
}

const AFTER_TRAILER: Answer = Answer::Fault(Fault::Binary(BinaryFault::AfterTrailer));

const FAILED: [(ReaderCall, Answer); 8] = [
    (ReaderCall::Push(HEAD), Taken),
    (ReaderCall::Push(b"\xFF\xFF"), Taken),
    (ReaderCall::Next, Nothing),
    (ReaderCall::Push(b"\0"), Taken),
    (ReaderCall::Done, Is(false)),
    (ReaderCall::Next, AFTER_TRAILER),
    (ReaderCall::Push(b"\0"), AFTER_TRAILER),
    (ReaderCall::Finish, AFTER_TRAILER),
];

#[test]
fn a_byte_after_the_trailer_is_refused_for_good(rt: HostRuntime) {
    assert!(rt; comes(rt.alloc(), &FAILED));
}

// ---- what is written

// Appends a file of this row alone.
fn write_one(row: &Row, file: &mut Vec<u8>) -> Result<(), RowFault> {
    write_binary_head(file)?;
    write_binary_row(row, file)?;
    write_binary_trailer(file)
}

// Whether a file of one row of these values is a head and these bytes.
fn is_written(alloc: Global, values: &[Option<&[u8]>], rest: &[u8]) -> Result<bool, AllocError> {
    let mut file = Vec::new(alloc);
    let row = Row::from_slice(alloc, values)?;
    Ok(write_one(&row, &mut file) == Ok(()) && file.as_slice().strip_prefix(HEAD) == Some(rest))
}

#[test]
fn files_are_written(rt: HostRuntime) {
    let rest = b"\0\x02\0\0\0\x011\xFF\xFF\xFF\xFF\xFF\xFF";
    assert!(rt; is_written(rt.alloc(), &[Some(b"1"), None], rest) == Ok(true));
}

// Whether a row of no values is rejected, and nothing is written.
fn refuses_none(alloc: Global) -> bool {
    let mut file = Vec::new(alloc);
    let none = Row::new(alloc);
    write_binary_row(&none, &mut file) == Err(RowFault::Width(0)) && file.is_empty()
}

#[test]
fn a_row_without_a_field_is_refused(rt: HostRuntime) {
    assert!(rt; refuses_none(rt.alloc()));
}
