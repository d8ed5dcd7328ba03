//! Files with options, and the ways in which lines end.

use super::{WrittenRow, wanted_text, write_left, write_piece, writes};
use pg_copy::{OptionFault, Row, RowFault, TextFault, TextOptions, TextReader};
use std::alloc::{AllocError, Global};

// ---- files with options

const WRITTEN: [WrittenRow; 2] = [
    (
        &[Some(b"a,b"), None, Some(b"x\t")],
        Ok(()),
        b"a\\,b,,x\\t\n",
    ),
    (&[Some(b"")], Err(RowFault::LikeNull(0)), b"a\\,b,,x\\t\n"),
];

// Whether the reader is left with this row alone, at the end of the input.
fn gives_alone(reader: &mut TextReader, wanted: &Row) -> bool {
    let given = match reader.finish() {
        Ok(Some(row)) => row == *wanted,
        _ => false,
    };
    given && reader.finish() == Ok(None)
}

// Whether this line of three columns is read with these options as a row of these values.
fn is_read(
    alloc: Global,
    options: TextOptions,
    line: &[u8],
    values: &[Option<&[u8]>],
) -> Result<bool, AllocError> {
    let row = Row::from_slice(alloc, values)?;
    let mut reader = TextReader::with_options(alloc, Some(3), options);
    Ok(reader.push(line) == Ok(()) && gives_alone(&mut reader, &row))
}

// Options of a comma and the empty null.
fn comma(alloc: Global) -> Result<TextOptions, AllocError> {
    match TextOptions::new(alloc, b',', b"") {
        Ok(options) => Ok(options),
        Err(_) => Err(AllocError),
    }
}

fn are_written(alloc: Global, rows: &[WrittenRow]) -> Result<bool, AllocError> {
    let options = comma(alloc)?;
    writes(alloc, Some(&options), rows)
}

#[test]
fn rows_are_written_with_options(rt: HostRuntime) {
    assert!(rt; are_written(rt.alloc(), &WRITTEN) == Ok(true));
}

// Whether the first of these rows is read of its line.
fn is_read_again(alloc: Global, rows: &[WrittenRow]) -> Result<bool, AllocError> {
    let Some((values, _, line)) = rows.first() else {
        return Ok(false);
    };
    is_read(alloc, comma(alloc)?, *line, *values)
}

#[test]
fn rows_are_read_with_options(rt: HostRuntime) {
    assert!(rt; is_read_again(rt.alloc(), &WRITTEN) == Ok(true));
}

// Why there are no such options.
fn fault_of(alloc: Global, delimiter: u8, null_mark: &[u8]) -> Option<OptionFault> {
    match TextOptions::new(alloc, delimiter, null_mark) {
        Ok(_) => None,
        Err(fault) => Some(fault),
    }
}

// Whether there are such options, or why not.
fn are_judged(alloc: Global, list: &[(u8, &[u8], Option<OptionFault>)]) -> bool {
    for (delimiter, null_mark, fault) in list {
        if fault_of(alloc, *delimiter, *null_mark) != *fault {
            return false;
        }
    }
    true
}

const JUDGED: [(u8, &[u8], Option<OptionFault>); 5] = [
    (b'a', b"\\N", Some(OptionFault::Delimiter(97))),
    (b',', b"a,b", Some(OptionFault::NullMark)),
    (b',', b"\\", Some(OptionFault::NullMark)),
    (b',', b"\\.", Some(OptionFault::NullMark)),
    (b'\t', b"\\N", None),
];

#[test]
fn options_are_judged(rt: HostRuntime) {
    assert!(rt; are_judged(rt.alloc(), &JUDGED));
}

fn are(options: &TextOptions, delimiter: u8, null_mark: &[u8]) -> bool {
    options.delimiter() == delimiter && options.null_mark() == null_mark
}

#[test]
fn the_default_is_a_tab(rt: HostRuntime) {
    assert!(rt; are(&TextOptions::default(), b'\t', b"\\N"));
}

// ---- the ways in which lines end

/// A file of one column, the canonical lines of its rows before the end of the input where it comes whole, the lines in all, and the fault
/// at the end.
type LineEndFile = (
    &'static [u8],
    &'static [u8],
    &'static [u8],
    Option<TextFault>,
);

// Whether a new reader writes these lines of the pieces.
fn writes_before(alloc: Global, piece: &[u8], wanted: &[u8]) -> bool {
    let mut reader = TextReader::new(alloc, Some(1));
    let mut lines = Vec::new(alloc);
    let _ = write_piece(&mut reader, piece, piece.len(), &mut lines);
    lines.as_slice() == wanted
}

// Whether the file, which comes in two pieces, gives its lines and is answered its fault at the end.
fn gives_in_two(alloc: Global, file: LineEndFile, place: usize) -> bool {
    let (bytes, _, all, fault) = file;
    let mut reader = TextReader::new(alloc, Some(1));
    let mut lines = Vec::new(alloc);
    let (front, back) = bytes.split_at(place.min(bytes.len()));
    let _ = write_piece(&mut reader, front, bytes.len(), &mut lines);
    let _ = write_piece(&mut reader, back, bytes.len(), &mut lines);
    let found = write_left(&mut reader, bytes.len(), &mut lines);
    found == wanted_text(fault) && lines.as_slice() == all
}

// Whether the file gives its first lines before the end of the input; and in all the same, wherever it is cut.
fn gives(alloc: Global, file: LineEndFile) -> bool {
    if !writes_before(alloc, file.0, file.1) {
        return false;
    }
    for place in 0..=file.0.len() {
        if !gives_in_two(alloc, file, place) {
            return false;
        }
    }
    true
}

fn all_give(alloc: Global, files: &[LineEndFile]) -> bool {
    files.iter().all(|file| gives(alloc, *file))
}

const ALIKE: [LineEndFile; 6] = [
    (b"a\r\n", b"a\n", b"a\n", None),
    (b"a\r\nb\r\n", b"a\nb\n", b"a\nb\n", None),
    (b"a\rb\r", b"a\nb\n", b"a\nb\n", None),
    (b"a\r", b"", b"a\n", None),
    (b"a\r\n\\.\r\nb", b"a\n", b"a\n", None),
    (b"a\\\r\n", b"a\\r\n", b"a\\r\n", None),
];

#[test]
fn lines_end_alike(rt: HostRuntime) {
    assert!(rt; all_give(rt.alloc(), &ALIKE));
}

const RAW_RETURN: Option<TextFault> = Some(TextFault::RawReturn);

const RAW_NEWLINE: Option<TextFault> = Some(TextFault::RawNewline);

const OTHERS: [LineEndFile; 4] = [
    (b"a\nb\r\n", b"a\n", b"a\n", RAW_RETURN),
    (b"a\r\nb\r", b"a\n", b"a\n", RAW_RETURN),
    (b"a\rb\n", b"a\n", b"a\n", RAW_NEWLINE),
    (b"a\r\nb\n", b"a\n", b"a\n", RAW_NEWLINE),
];

#[test]
fn other_line_ends_are_faults(rt: HostRuntime) {
    assert!(rt; all_give(rt.alloc(), &OTHERS));
}
