//! Files that are read with a limit of four bytes.

use super::{Fault, Reader, are_told, write_left, write_piece};
use pg_copy::{LimitedTextFault, LimitedTextReader, TextFault, TextOptions};
use std::alloc::Global;

const LONG: Option<Fault> = Some(Fault::Limited(LimitedTextFault::LongLine));

const RAW_RETURN: Option<Fault> = Some(Fault::Limited(LimitedTextFault::Text(
    TextFault::RawReturn,
)));

/// A piece of a file, or its end; and what must have come after it: all lines so far, and the fault.
#[derive(Clone, Copy)]
struct Piece {
    bytes: Option<&'static [u8]>,
    lines: &'static [u8],
    fault: Option<Fault>,
}

fn reader(alloc: Global) -> LimitedTextReader {
    LimitedTextReader::new(alloc, Some(1), TextOptions::default(), 4)
}

// Writes the rows that come of a piece, or of the end of the input where there is none.
fn write<R: Reader>(reader: &mut R, piece: Option<&[u8]>, lines: &mut Vec<u8>) -> Option<Fault> {
    match piece {
        Some(piece) => write_piece(reader, piece, 100, lines),
        None => write_left(reader, 100, lines),
    }
}

fn is_wanted<R: Reader>(reader: &mut R, lines: &mut Vec<u8>, piece: Piece) -> bool {
    write(reader, piece.bytes, lines) == piece.fault && lines.as_slice() == piece.lines
}

// Whether after each piece its lines and its fault have come.
fn comes<R: Reader>(reader: &mut R, lines: &mut Vec<u8>, pieces: &[Piece]) -> bool {
    for piece in pieces {
        if !is_wanted(reader, lines, *piece) {
            return false;
        }
    }
    true
}

// Whether a new reader is given these pieces and each has what it must, and in all so many rows came, of so many bytes.
fn is_read(alloc: Global, pieces: &[Piece], rows: u64, offset: u64) -> bool {
    let mut reader = reader(alloc);
    let mut lines = Vec::new(alloc);
    comes(&mut reader, &mut lines, pieces)
        && reader.rows_given() == rows
        && reader.offset() == offset
}

const LONG_LINE: [Piece; 3] = [
    Piece {
        bytes: Some(b"a\nb\nabcde"),
        lines: b"a\nb\n",
        fault: LONG,
    },
    Piece {
        bytes: Some(b"\nc\n"),
        lines: b"a\nb\n",
        fault: LONG,
    },
    Piece {
        bytes: None,
        lines: b"a\nb\n",
        fault: LONG,
    },
];

#[test]
fn a_long_line_is_refused_for_good(rt: HostRuntime) {
    assert!(rt; is_read(rt.alloc(), &LONG_LINE[..1], 2, 4));
    assert!(rt; is_read(rt.alloc(), &LONG_LINE, 2, 4));
}

const KEPT: [Piece; 4] = [
    Piece {
        bytes: Some(b"ab"),
        lines: b"",
        fault: None,
    },
    Piece {
        bytes: Some(b"cd"),
        lines: b"",
        fault: None,
    },
    Piece {
        bytes: Some(b"\nabcd"),
        lines: b"abcd\n",
        fault: None,
    },
    Piece {
        bytes: None,
        lines: b"abcd\nabcd\n",
        fault: None,
    },
];

#[test]
fn a_line_within_the_limit_is_kept(rt: HostRuntime) {
    assert!(rt; is_read(rt.alloc(), &KEPT, 2, 9));
}

const WHOLE: [Piece; 1] = [Piece {
    bytes: Some(b"abcdefgh\nab"),
    lines: b"abcdefgh\n",
    fault: None,
}];

#[test]
fn a_line_that_came_whole_is_given(rt: HostRuntime) {
    assert!(rt; is_read(rt.alloc(), &WHOLE, 1, 9));
}

const RETURN: [Piece; 2] = [
    Piece {
        bytes: Some(b"a\nb\r\n"),
        lines: b"a\n",
        fault: RAW_RETURN,
    },
    Piece {
        bytes: Some(b"abcdefgh"),
        lines: b"a\n",
        fault: RAW_RETURN,
    },
];

#[test]
fn other_faults_are_as_without_a_limit(rt: HostRuntime) {
    assert!(rt; is_read(rt.alloc(), &RETURN, 1, 2));
}

const MARK: [Piece; 3] = [
    Piece {
        bytes: Some(b"a\n\\.\nabcdefgh"),
        lines: b"a\n",
        fault: None,
    },
    Piece {
        bytes: Some(b"abcdefgh"),
        lines: b"a\n",
        fault: None,
    },
    Piece {
        bytes: None,
        lines: b"a\n",
        fault: None,
    },
];

#[test]
fn nothing_is_too_long_after_the_end_mark(rt: HostRuntime) {
    assert!(rt; is_read(rt.alloc(), &MARK, 1, 2));
}

const FAULTS: [(LimitedTextFault, &str); 2] = [
    (LimitedTextFault::Text(TextFault::RawReturn), "T1 RawReturn"),
    (LimitedTextFault::LongLine, "LongLine"),
];

#[test]
fn faults_are_told(rt: HostRuntime) {
    assert!(rt; are_told(rt.alloc(), &FAULTS) == Ok(true));
}
