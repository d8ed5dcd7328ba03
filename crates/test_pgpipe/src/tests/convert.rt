//! Files that are converted.

use crate::tests::work::{
    BINARY_TO_BINARY, BINARY_TO_TEXT, Conversion, TEXT_TO_BINARY, TEXT_TO_TEXT, ToolAnswer, Work,
    failing_receive, failing_send, gives, perform, stops_at_receive, stops_at_send, whole,
};
use pg_copy::{BinaryFault, RowFault, TextFault};
use pgpipe_convert::Format;
use pgpipe_convert::convert::Converted;
use std::alloc::{AllocError, Global};
use testing::holds;

/// Two columns: 1 and null.
const TEXT_ROW: &[u8] = b"1\t\\N\n";

const BINARY_ROW: &[u8] =
    b"PGCOPY\n\xFF\r\n\0\0\0\0\0\0\0\0\0\0\x02\0\0\0\x011\xFF\xFF\xFF\xFF\xFF\xFF";

/// The head, and a row of one column.
const ONE_ROW: &[u8] = b"PGCOPY\n\xFF\r\n\0\0\0\0\0\0\0\0\0\0\x01\0\0\0\x01a";

/// The head, and two rows of two columns: 1 and null, and x and y.
const TWO_ROWS: &[u8] = b"PGCOPY\n\xFF\r\n\0\0\0\0\0\0\0\0\0\0\x02\0\0\0\x011\xFF\xFF\xFF\xFF\
    \0\x02\0\0\0\x01x\0\0\0\x01y\xFF\xFF";

// Conversions of a file of one column.
const ONE_TEXT_TO_TEXT: Conversion = Conversion {
    from: Format::Text,
    to: Format::Text,
    columns: 1,
};

const ONE_TEXT_TO_BINARY: Conversion = Conversion {
    from: Format::Text,
    to: Format::Binary,
    columns: 1,
};

const ONE_BINARY_TO_TEXT: Conversion = Conversion {
    from: Format::Binary,
    to: Format::Text,
    columns: 1,
};

/// What is done with which bytes, what comes of it, and what is written.
type ConversionRow = (Work, &'static [u8], Converted, &'static [u8]);

// Whether this comes of these bytes, in pieces of each size up to 39.
fn becomes(alloc: Global, work: Work, bytes: &[u8], converted: Converted, written: &[u8]) -> bool {
    for most in 1..40 {
        let task = whole(work, bytes, most);
        if !gives(alloc, task, ToolAnswer::Converted(converted), written) {
            return false;
        }
    }
    true
}

fn all_become(alloc: Global, rows: &[ConversionRow]) -> bool {
    for (work, bytes, converted, written) in rows {
        if !becomes(alloc, *work, *bytes, *converted, *written) {
            return false;
        }
    }
    true
}

const CONVERTED: [ConversionRow; 3] = [
    (
        Work::Convert(TEXT_TO_BINARY),
        TEXT_ROW,
        Converted::Whole,
        BINARY_ROW,
    ),
    (
        Work::Convert(BINARY_TO_TEXT),
        BINARY_ROW,
        Converted::Whole,
        TEXT_ROW,
    ),
    (
        Work::Convert(BINARY_TO_BINARY),
        BINARY_ROW,
        Converted::Whole,
        BINARY_ROW,
    ),
];

#[test]
fn rows_converted(rt: HostRuntime) {
    assert!(rt; all_become(rt.alloc(), &CONVERTED));
}

const WITH_OPTIONS: [ConversionRow; 4] = [
    (
        Work::ConvertWith(TEXT_TO_BINARY, b"x"),
        b"1,x\n",
        Converted::Whole,
        BINARY_ROW,
    ),
    (
        Work::ConvertWith(BINARY_TO_TEXT, b"x"),
        BINARY_ROW,
        Converted::Whole,
        b"1,x\n",
    ),
    // both sides have them, or none
    (
        Work::ConvertWith(TEXT_TO_TEXT, b"x"),
        b"\\x31,x",
        Converted::Whole,
        b"1,x\n",
    ),
    (
        Work::ConvertWith(BINARY_TO_BINARY, b"x"),
        BINARY_ROW,
        Converted::Whole,
        BINARY_ROW,
    ),
];

#[test]
fn rows_converted_with_options(rt: HostRuntime) {
    assert!(rt; all_become(rt.alloc(), &WITH_OPTIONS));
}

const LIKE_NULL: [ConversionRow; 1] = [(
    Work::ConvertWith(TEXT_TO_TEXT, b"x"),
    b"1,x\n1,\\x78\n",
    Converted::Row(RowFault::LikeNull(1)),
    b"1,x\n",
)];

#[test]
fn a_row_like_null(rt: HostRuntime) {
    assert!(rt; all_become(rt.alloc(), &LIKE_NULL));
}

const BINARY_LIKE_NULL: [ConversionRow; 3] = [
    (
        Work::ConvertWith(BINARY_TO_TEXT, b"x"),
        TWO_ROWS,
        Converted::Row(RowFault::LikeNull(0)),
        b"1,x\n",
    ),
    (
        Work::ConvertWith(BINARY_TO_TEXT, b"y"),
        TWO_ROWS,
        Converted::Row(RowFault::LikeNull(1)),
        b"1,y\n",
    ),
    // as a binary file it can be written
    (
        Work::ConvertWith(BINARY_TO_BINARY, b"x"),
        TWO_ROWS,
        Converted::Whole,
        TWO_ROWS,
    ),
];

#[test]
fn a_binary_row_like_null(rt: HostRuntime) {
    assert!(rt; all_become(rt.alloc(), &BINARY_LIKE_NULL));
}

/// How many bytes the long text of a large row has: more than a row that is written without a look at all of it.
const LONG_TEXT: usize = 1_100_000;

/// What stands before a long text, and what stands after it.
type Large = (&'static [u8], &'static [u8]);

// What stands before a long text, the text, and what stands after it.
fn around_a_long_text(alloc: Global, ends: Large) -> Result<Vec<u8>, AllocError> {
    let (before, after) = ends;
    let mut bytes = Vec::new(alloc);
    bytes.extend_from_slice(before)?;
    for _ in 0..LONG_TEXT {
        bytes.push(b'a')?;
    }
    bytes.extend_from_slice(after)?;
    Ok(bytes)
}

// Whether this comes of these bytes, and these are written, in large pieces.
fn gives_large(
    alloc: Global,
    conversion: Conversion,
    bytes: &[u8],
    converted: Converted,
    written: &[u8],
) -> bool {
    let task = whole(Work::ConvertWith(conversion, b"x"), bytes, 50_000);
    gives(alloc, task, ToolAnswer::Converted(converted), written)
}

// Whether these bytes become this large text, whole.
fn becomes_this(alloc: Global, conversion: Conversion, bytes: &[u8], written: Large) -> bool {
    holds(
        around_a_long_text(alloc, written).ok(),
        |it| gives_large(alloc, conversion, bytes, Converted::Whole, it.as_slice()),
    )
}

// Whether large text becomes this, whole.
fn becomes_large(alloc: Global, conversion: Conversion, text: Large, written: Large) -> bool {
    holds(
        around_a_long_text(alloc, text).ok(),
        |it| becomes_this(alloc, conversion, it.as_slice(), written),
    )
}

// A conversion, the text, and what is written.
const LARGE: [(Conversion, Large, Large); 2] = [
    (
        TEXT_TO_TEXT,
        (b"1,x\n", b"\\x41,2\n3,4\n"),
        (b"1,x\n", b"A,2\n3,4\n"),
    ),
    (
        TEXT_TO_BINARY,
        (b"1,x\n", b"\\x41,2\n3,4\n"),
        (
            b"PGCOPY\n\xFF\r\n\0\0\0\0\0\0\0\0\0\0\x02\0\0\0\x011\xFF\xFF\xFF\xFF\0\x02\0\x10\xC8\xE1",
            b"A\0\0\0\x012\0\x02\0\0\0\x013\0\0\0\x014\xFF\xFF",
        ),
    ),
];

#[test]
fn large_rows(rt: HostRuntime) {
    for (conversion, text, written) in LARGE {
        assert!(rt;
            becomes_large(rt.alloc(), conversion, text, written),
            "{text:?}"
        );
    }
}

// Whether the row before a large text is written, and that one has a field like null at this place.
fn is_large_like_null(alloc: Global, text: Large, place: usize) -> bool {
    let fault = Converted::Row(RowFault::LikeNull(place));
    holds(
        around_a_long_text(alloc, text).ok(),
        |it| gives_large(alloc, TEXT_TO_TEXT, it.as_slice(), fault, b"1,x\n"),
    )
}

// Large text, and the place of the field like null.
const LARGE_LIKE_NULL: [(Large, usize); 2] = [
    ((b"1,x\n", b"\\x41,\\x78\n"), 1),
    ((b"1,x\n\\x78,", b"\\x41\n"), 0),
];

#[test]
fn a_large_row_like_null(rt: HostRuntime) {
    for (text, place) in LARGE_LIKE_NULL {
        assert!(rt; is_large_like_null(rt.alloc(), text, place), "{text:?}");
    }
}

const OTHER_ENDS: [ConversionRow; 2] = [
    (
        Work::Convert(TEXT_TO_BINARY),
        b"1\t\\N\r\n",
        Converted::Whole,
        BINARY_ROW,
    ),
    (
        Work::Convert(TEXT_TO_BINARY),
        b"1\t\\N\r",
        Converted::Whole,
        BINARY_ROW,
    ),
];

#[test]
fn lines_that_end_otherwise(rt: HostRuntime) {
    assert!(rt; all_become(rt.alloc(), &OTHER_ENDS));
}

const BEFORE_A_FAULT: [ConversionRow; 2] = [
    (
        Work::Convert(ONE_TEXT_TO_TEXT),
        b"a\nb\tc\n",
        Converted::Text(TextFault::Columns(2)),
        b"a\n",
    ),
    (
        Work::Convert(ONE_TEXT_TO_BINARY),
        b"a\nb\tc\n",
        Converted::Text(TextFault::Columns(2)),
        ONE_ROW,
    ),
];

#[test]
fn rows_before_a_fault(rt: HostRuntime) {
    assert!(rt; all_become(rt.alloc(), &BEFORE_A_FAULT));
}

const WITHOUT_ITS_END: [ConversionRow; 1] = [(
    Work::Convert(ONE_BINARY_TO_TEXT),
    ONE_ROW,
    Converted::Binary(BinaryFault::Truncated),
    b"a\n",
)];

#[test]
fn rows_of_a_file_without_its_end(rt: HostRuntime) {
    assert!(rt; all_become(rt.alloc(), &WITHOUT_ITS_END));
}

// The last line is open, and what follows the end mark is dropped.
const TEXT_ENDS: [ConversionRow; 3] = [
    (
        Work::Convert(ONE_TEXT_TO_TEXT),
        b"a\nb",
        Converted::Whole,
        b"a\nb\n",
    ),
    (
        Work::Convert(ONE_TEXT_TO_TEXT),
        b"a\n\\.\n\r\n",
        Converted::Whole,
        b"a\n",
    ),
    (Work::Convert(ONE_TEXT_TO_TEXT), b"", Converted::Whole, b""),
];

#[test]
fn ends_of_a_text_file(rt: HostRuntime) {
    assert!(rt; all_become(rt.alloc(), &TEXT_ENDS));
}

// A line of 100,000 bytes, and 20,000 short ones.
fn long_file(alloc: Global) -> Result<Vec<u8>, AllocError> {
    let mut bytes = Vec::new(alloc);
    for _ in 0..100_000 {
        bytes.push(b'a')?;
    }
    for _ in 0..20_000 {
        bytes.extend_from_slice(b"\nb\\n")?;
    }
    bytes.push(b'\n')?;
    Ok(bytes)
}

// Whether this text becomes a binary file of this length, and that one this text again.
fn goes_and_comes(alloc: Global, text: &[u8], length: usize) -> bool {
    let gone = perform(
        alloc,
        whole(Work::Convert(ONE_TEXT_TO_BINARY), text, 100_000),
    );
    let there = gone.sink.text.as_slice();
    let back = whole(Work::Convert(ONE_BINARY_TO_TEXT), there, 5);
    let answer = ToolAnswer::Converted(Converted::Whole);
    gone.answer == answer && there.len() == length && gives(alloc, back, answer, text)
}

// A row that is longer than what is collected at once, and rows that together are.
#[test]
fn a_long_file(rt: HostRuntime) {
    let alloc = rt.alloc();
    // the head, six bytes and the value for each row, and the trailer
    let length = 19 + 100_006 + 20_000 * 8 + 2;
    let held = holds(
        long_file(alloc).ok(),
        |it| goes_and_comes(alloc, it.as_slice(), length),
    );
    assert!(rt; held);
}

const TWO_LINES: &[u8] = b"1\t\\N\n2\t\\N\n";

/// What becomes of them.
const TWO_NULLS: &[u8] = b"PGCOPY\n\xFF\r\n\0\0\0\0\0\0\0\0\0\0\x02\0\0\0\x011\xFF\xFF\xFF\xFF\
    \0\x02\0\0\0\x012\xFF\xFF\xFF\xFF\xFF\xFF";

// The receive that fails, and how many bytes are written before: the head, and eleven bytes a row.
const RECEIVES: [(u64, usize); 3] = [(1, 19), (2, 30), (3, 41)];

#[test]
fn a_source_that_fails(rt: HostRuntime) {
    for (call, size) in RECEIVES {
        let task = failing_receive(Work::Convert(TEXT_TO_BINARY), TWO_LINES, call);
        assert!(rt;
            stops_at_receive(rt.alloc(), task, size, TWO_NULLS),
            "at {call}"
        );
    }
}

// The send that fails, and how many bytes are written before: the head and the row, 30 bytes, are sent before the end is found, and the
// trailer after it.
const SENDS: [(u64, usize); 4] = [(1, 0), (2, 7), (5, 28), (6, 30)];

#[test]
fn a_sink_that_fails(rt: HostRuntime) {
    for (call, size) in SENDS {
        let task = failing_send(Work::Convert(TEXT_TO_BINARY), TEXT_ROW, call);
        assert!(rt;
            stops_at_send(rt.alloc(), task, size, BINARY_ROW),
            "at {call}"
        );
    }
}
