//! Rows of text that are lent, and rows that are written field by field.

use pg_copy::{RowFault, TextOptions, TextReader, TextRowWriter};
use std::alloc::Global;

// ---- rows that are lent

// Whether the reader lends a row of these values.
fn lends(reader: &TextReader, values: &[Option<&[u8]>]) -> bool {
    let Some(row) = reader.held() else {
        return false;
    };
    let mut count = 0;
    for value in row.values() {
        if count >= values.len() || values[count] != value {
            return false;
        }
        count += 1;
    }
    count == values.len()
}

// Whether the next row that the reader lends has these values.
fn lends_next(reader: &mut TextReader, values: &[Option<&[u8]>]) -> bool {
    !reader.ended() && reader.next_lent() == Ok(true) && lends(reader, values)
}

// Whether no row is left to be lent, and the reader is done.
fn lends_no_more(reader: &mut TextReader) -> bool {
    !reader.ended() && reader.next_lent() == Ok(false) && reader.held().is_none() && reader.done()
}

// Whether the reader lends these rows, one after the other, and then none.
fn lends_all(reader: &mut TextReader, rows: &[&[Option<&[u8]>]]) -> bool {
    if lends(reader, &[]) {
        return false;
    }
    for values in rows {
        if !lends_next(reader, *values) {
            return false;
        }
    }
    lends_no_more(reader)
}

// Whether this file of four columns, whose end is marked, is lent as these rows.
fn is_lent(alloc: Global, file: &[u8], rows: &[&[Option<&[u8]>]]) -> bool {
    let mut reader = TextReader::new(alloc, Some(4));
    reader.push(file) == Ok(()) && lends_all(&mut reader, rows)
}

const LENT: [&[Option<&[u8]>]; 2] = [
    &[Some(b"a\tb"), Some(b"plain"), None, Some(b"\\N")],
    &[Some(b"AB"), Some(b""), Some(b"d\\"), Some(b"e")],
];

#[test]
fn rows_of_text_are_lent(rt: HostRuntime) {
    let file = b"a\\tb\tplain\t\\N\t\\\\N\n\\x41\\102\t\td\\\\\te\n\\.\n";
    assert!(rt; is_lent(rt.alloc(), file, &LENT));
}

// Whether this file of four columns is lent as these rows once the input has ended.
fn is_lent_at_end(alloc: Global, file: &[u8], rows: &[&[Option<&[u8]>]]) -> bool {
    let mut reader = TextReader::new(alloc, Some(4));
    if reader.push(file) != Ok(()) {
        return false;
    }
    for values in rows {
        if reader.finish_lent() != Ok(true) || !lends(&reader, *values) {
            return false;
        }
    }
    reader.finish_lent() == Ok(false) && reader.held().is_none() && reader.ended()
}

#[test]
fn an_open_line_is_lent_at_the_end(rt: HostRuntime) {
    let file = b"a\\tb\tplain\t\\N\t\\\\N\n\\x41\\102\t\td\\\\\te";
    assert!(rt; is_lent_at_end(rt.alloc(), file, &LENT));
}

// ---- rows that are written field by field

/// A call of a writer.
#[derive(Clone, Copy)]
enum WriterCall {
    Field(Option<&'static [u8]>),
    End,
    GiveUp,
}

fn make(writer: &mut TextRowWriter, call: WriterCall, lines: &mut Vec<u8>) -> Result<(), RowFault> {
    match call {
        WriterCall::Field(value) => writer.field(value, lines),
        WriterCall::End => writer.end(lines),
        WriterCall::GiveUp => {
            writer.give_up();
            Ok(())
        }
    }
}

/// A call, what it answers, and all that is written then.
type Step = (WriterCall, Result<(), RowFault>, &'static [u8]);

// Whether the writer answers each call so, and writes these lines by it.
fn writes(alloc: Global, writer: &mut TextRowWriter, steps: &[Step]) -> bool {
    let mut lines = Vec::new(alloc);
    for (made, answer, all) in steps {
        if make(writer, *made, &mut lines) != *answer || lines.as_slice() != *all {
            return false;
        }
    }
    true
}

const ROWS: [Step; 6] = [
    (WriterCall::Field(Some(b"a\tb")), Ok(()), b"a\\tb"),
    (WriterCall::Field(None), Ok(()), b"a\\tb\t\\N"),
    (WriterCall::End, Ok(()), b"a\\tb\t\\N\n"),
    (WriterCall::Field(Some(b"")), Ok(()), b"a\\tb\t\\N\n"),
    (WriterCall::End, Ok(()), b"a\\tb\t\\N\n\n"),
    (WriterCall::End, Err(RowFault::Width(0)), b"a\\tb\t\\N\n\n"),
];

#[test]
fn a_row_is_written_field_by_field(rt: HostRuntime) {
    let mut writer = TextRowWriter::new();
    assert!(rt; writes(rt.alloc(), &mut writer, &ROWS));
}

const LIKE_NULL: [Step; 5] = [
    (WriterCall::Field(Some(b"a,b")), Ok(()), b"a\\,b"),
    (
        WriterCall::Field(Some(b"-")),
        Err(RowFault::LikeNull(1)),
        b"a\\,b",
    ),
    (WriterCall::Field(None), Ok(()), b"a\\,b,-"),
    (WriterCall::GiveUp, Ok(()), b"a\\,b,-"),
    (WriterCall::End, Err(RowFault::Width(0)), b"a\\,b,-"),
];

// Whether a writer whose fields are parted by commas, and whose null is a dash, answers and writes so.
fn writes_with_dash(alloc: Global, steps: &[Step]) -> bool {
    match TextOptions::new(alloc, b',', b"-") {
        Ok(options) => {
            let mut writer = TextRowWriter::with_options(options);
            writes(alloc, &mut writer, steps)
        }
        Err(_) => false,
    }
}

#[test]
fn a_field_like_null_is_refused(rt: HostRuntime) {
    assert!(rt; writes_with_dash(rt.alloc(), &LIKE_NULL));
}
