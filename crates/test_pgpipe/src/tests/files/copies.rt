//! Copies of a script that can't be played, and long files that are handed over.

use crate::tests::files::calls::{CallsClaim, asks, crosses};
use crate::tests::files::scripts::{TableHead, TableLoad, TablePart, says};
use std::alloc::{AllocError, Global};

const SCRIPT: &[u8] =
    b"answer\tI\ncopyout\tCOPY 2\ttext\t2\nchunk\ta\\nb\nnotice\tM\thi\nchunk\t\ncopyin\tbinary\t1\taccept\tCOPY 1\n\
    copyout\tCOPY 0\tbinary\t0\ncopyin\ttext\t65535\trefuse\t2\tC\tXX000\tM\tbad\ncopyin\ttext\t0\trefuse\t4294967295\n";

// The parts of the answer that `SCRIPT` has.
const PARTS: &[TablePart] = &[
    TablePart::CopyOut {
        head: TableHead::Text(2),
        chunks: &[b"a\nb", b""],
        tag: b"COPY 2",
    },
    TablePart::CopyIn(TableHead::Binary(1), TableLoad::Accept(b"COPY 1")),
    TablePart::CopyOut {
        head: TableHead::Binary(0),
        chunks: &[],
        tag: b"COPY 0",
    },
    TablePart::CopyIn(
        TableHead::Text(65_535),
        TableLoad::Refuse(2, &[(b'C', b"XX000"), (b'M', b"bad")]),
    ),
    TablePart::CopyIn(TableHead::Text(0), TableLoad::Refuse(4_294_967_295, &[])),
];

#[test]
fn copies_of_a_script(rt: HostRuntime) {
    assert!(rt; says(rt.alloc(), SCRIPT, PARTS));
}

// Whether a file of so many crosses is handed over in chunks of these sizes.
fn is_cut(alloc: Global, count: usize, sizes: &'static [usize]) -> Result<bool, AllocError> {
    let bytes = crosses(alloc, count)?;
    let claims = [
        CallsClaim::Fills("p", bytes.as_slice()),
        CallsClaim::Crosses(sizes),
    ];
    Ok(asks(alloc, b"file\tp\n", &claims))
}

#[test]
fn a_long_file_is_cut(rt: HostRuntime) {
    for (count, sizes) in CUTS {
        assert!(rt; is_cut(rt.alloc(), count, sizes) == Ok(true), "{count}");
    }
}

// How many bytes a file has, and how many its chunks have.
const CUTS: [(usize, &[usize]); 5] = [
    (1, &[1]),
    (4_095, &[4_095]),
    (4_096, &[4_096]),
    (4_097, &[4_096, 1]),
    (8_192, &[4_096, 4_096]),
];
