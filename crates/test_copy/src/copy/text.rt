//! Text files.

use super::Answer::{Is, Nothing, Row, Taken};
use super::{Answer, Fault, ReaderCall, WrittenRow, answers, wanted_text, write_file, writes};
use pg_copy::{RowFault, TextFault, TextReader, write_text_field};
use std::alloc::Global;

// A reader of so many columns.
fn reader(alloc: Global, columns: u16) -> TextReader {
    TextReader::new(alloc, Some(columns.clamp(1, 32_767)))
}

// ---- files, however they are cut

/// How many columns a file has, its bytes, the canonical lines of its rows, and the fault after them.
type TextFile = (u16, &'static [u8], &'static [u8], Option<TextFault>);

// Whether the file gives its lines and its fault, where the first piece has so many bytes, and each other one so many.
fn gives_cut(alloc: Global, file: TextFile, first: usize, size: usize) -> bool {
    let (columns, bytes, lines, fault) = file;
    let mut reader = reader(alloc, columns);
    let mut written = Vec::new(alloc);
    let found = write_file(&mut reader, bytes, first, size, &mut written);
    found == wanted_text(fault) && written.as_slice() == lines
}

// Whether the file gives its lines and its fault, however it is cut.
fn gives(alloc: Global, file: TextFile) -> bool {
    for first in 0..=file.1.len() {
        for size in 1..=file.1.len() {
            if !gives_cut(alloc, file, first, size) {
                return false;
            }
        }
    }
    true
}

fn all_give(alloc: Global, files: &[TextFile]) -> bool {
    files.iter().all(|file| gives(alloc, *file))
}

const LINES: [TextFile; 4] = [
    (4, b"a\\tb\t\\N\t\t\\\\N\n", b"a\\tb\t\\N\t\t\\\\N\n", None),
    (1, b"\n", b"\n", None),
    (1, b"a\nb", b"a\nb\n", None),
    (1, b"\\\n\n", b"\\n\n", None),
];

#[test]
fn lines_have_their_fields(rt: HostRuntime) {
    assert!(rt; all_give(rt.alloc(), &LINES));
}

const MARKS: [TextFile; 2] = [(1, b"\\.\na\n", b"", None), (1, b"\\.", b"", None)];

#[test]
fn the_end_mark_ends_the_rows(rt: HostRuntime) {
    assert!(rt; all_give(rt.alloc(), &MARKS));
}

const ESCAPES: [TextFile; 4] = [
    (1, b"\\b\\v\\f\\r\\.\n", b"\\b\\v\\f\\r.\n", None),
    (4, b"\\1011\t\\x41\t\\x\t\\8", b"A1\tA\tx\t8\n", None),
    (1, b"\\777\n\\400\n", b"\xFF\n\0\n", None),
    (1, b"\\x4G\n", b"\x04G\n", None),
];

#[test]
fn escapes_spell_their_bytes(rt: HostRuntime) {
    assert!(rt; all_give(rt.alloc(), &ESCAPES));
}

const FAULTS: [TextFile; 4] = [
    (1, b"a\nb\r\n", b"a\n", Some(TextFault::RawReturn)),
    (1, b"a\\", b"", Some(TextFault::LoneBackslash)),
    (2, b"\n", b"", Some(TextFault::Columns(1))),
    (1, b"a\nb\tc\n", b"a\n", Some(TextFault::Columns(2))),
];

#[test]
fn faults_stand_in_the_place_of_rows(rt: HostRuntime) {
    assert!(rt; all_give(rt.alloc(), &FAULTS));
}

// ---- a reader's calls, one by one

// Whether a new reader of one column answers each call so.
fn of_one(alloc: Global, steps: &[(ReaderCall, Answer)]) -> bool {
    let mut reader = reader(alloc, 1);
    answers(&mut reader, steps)
}

// Whether a new reader of any number of columns answers each call so.
fn of_any(alloc: Global, steps: &[(ReaderCall, Answer)]) -> bool {
    let mut reader = TextReader::new(alloc, None);
    answers(&mut reader, steps)
}

const LEFT: [(ReaderCall, Answer); 4] = [
    (ReaderCall::Push(b"a\nb"), Taken),
    (ReaderCall::Finish, Row),
    (ReaderCall::Finish, Row),
    (ReaderCall::Finish, Nothing),
];

#[test]
fn rows_are_left_at_the_end(rt: HostRuntime) {
    assert!(rt; of_one(rt.alloc(), &LEFT));
}

const TWO_COLUMNS: Answer = Answer::Fault(Fault::Text(TextFault::Columns(2)));

const FAILED: [(ReaderCall, Answer); 6] = [
    (ReaderCall::Push(b"a\tb\nb\n"), Taken),
    (ReaderCall::Next, TWO_COLUMNS),
    (ReaderCall::Next, TWO_COLUMNS),
    (ReaderCall::Push(b"c\n"), TWO_COLUMNS),
    (ReaderCall::Finish, TWO_COLUMNS),
    (ReaderCall::Done, Is(false)),
];

#[test]
fn a_fault_is_answered_for_good(rt: HostRuntime) {
    assert!(rt; of_one(rt.alloc(), &FAILED));
}

const MARKED: [(ReaderCall, Answer); 7] = [
    (ReaderCall::Push(b"a\tb\n\\.\nc"), Taken),
    (ReaderCall::Next, Row),
    (ReaderCall::Done, Is(false)),
    (ReaderCall::Next, Nothing),
    (ReaderCall::Done, Is(true)),
    (ReaderCall::Push(b"d\n"), Taken),
    (ReaderCall::Next, Nothing),
];

#[test]
fn a_reader_is_done_after_the_mark(rt: HostRuntime) {
    assert!(rt; of_any(rt.alloc(), &MARKED));
}

const ENDED: [(ReaderCall, Answer); 4] = [
    (ReaderCall::Ended, Is(false)),
    (ReaderCall::Finish, Nothing),
    (ReaderCall::Ended, Is(true)),
    (ReaderCall::Done, Is(false)),
];

#[test]
fn a_reader_ends(rt: HostRuntime) {
    assert!(rt; of_any(rt.alloc(), &ENDED));
}

const PLACE_OF_A_FAULT: [(ReaderCall, Answer); 6] = [
    (ReaderCall::Push(b"a\r\n\\\n\r\nd\te\r\n"), Taken),
    (ReaderCall::Next, Row),
    (ReaderCall::Next, Row),
    (ReaderCall::Next, TWO_COLUMNS),
    (ReaderCall::RowsGiven, Answer::Count(2)),
    (ReaderCall::Offset, Answer::Count(7)),
];

// the last line is open
const END: [(ReaderCall, Answer); 7] = [
    (ReaderCall::Push(b"a\rbc"), Taken),
    (ReaderCall::Finish, Row),
    (ReaderCall::Offset, Answer::Count(2)),
    (ReaderCall::Finish, Row),
    (ReaderCall::Finish, Nothing),
    (ReaderCall::RowsGiven, Answer::Count(2)),
    (ReaderCall::Offset, Answer::Count(4)),
];

#[test]
fn a_reader_of_text_tells_places(rt: HostRuntime) {
    assert!(rt; of_one(rt.alloc(), &PLACE_OF_A_FAULT));
    assert!(rt; of_one(rt.alloc(), &END));
}

// ---- what is written

const ROWS: [WrittenRow; 2] = [
    (
        &[Some(b"a\tb"), None, Some(b""), Some(b"\\N")],
        Ok(()),
        b"a\\tb\t\\N\t\t\\\\N\n",
    ),
    (&[], Err(RowFault::Width(0)), b"a\\tb\t\\N\t\t\\\\N\n"),
];

#[test]
fn rows_are_written(rt: HostRuntime) {
    assert!(rt; writes(rt.alloc(), None, &ROWS) == Ok(true));
}

// Whether these fields are written so, one after the other.
fn write_fields(alloc: Global, fields: &[Option<&[u8]>], wanted: &[u8]) -> bool {
    let mut line = Vec::new(alloc);
    for field in fields {
        if write_text_field(*field, &mut line) != Ok(()) {
            return false;
        }
    }
    line.as_slice() == wanted
}

#[test]
fn fields_are_written_one_by_one(rt: HostRuntime) {
    assert!(rt; write_fields(rt.alloc(), &[None, Some(b"a\tb\\")], b"\\Na\\tb\\\\"));
}
