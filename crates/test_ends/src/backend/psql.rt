//! A session of a real client.

ghost use Rattle.std.specs.Prelude.{◌<◌};

use super::{Serving, answer, backend_of, copy_in, silent};
use pg_backend::{BackPhase, Script, ScriptPart};
use pg_wire::Seq;
use std::alloc::{AllocError, Global};
use testing::holds;
use testing::values::{column, row, text};

/// What psql 15 sends for `SELECT 1`, for a COPY of two rows and for an empty query, as recorded/psql.hex has it.
const SESSION: [u8; 141] = [
    0x00, 0x00, 0x00, 0x08, 0x04, 0xD2, 0x16, 0x2F, 0x00, 0x00, 0x00, 0x46, 0x00, 0x03, 0x00, 0x00,
    0x75, 0x73, 0x65, 0x72, 0x00, 0x75, 0x00, 0x64, 0x61, 0x74, 0x61, 0x62, 0x61, 0x73, 0x65, 0x00,
    0x64, 0x00, 0x61, 0x70, 0x70, 0x6C, 0x69, 0x63, 0x61, 0x74, 0x69, 0x6F, 0x6E, 0x5F, 0x6E, 0x61,
    0x6D, 0x65, 0x00, 0x70, 0x73, 0x71, 0x6C, 0x00, 0x63, 0x6C, 0x69, 0x65, 0x6E, 0x74, 0x5F, 0x65,
    0x6E, 0x63, 0x6F, 0x64, 0x69, 0x6E, 0x67, 0x00, 0x55, 0x54, 0x46, 0x38, 0x00, 0x00, 0x51, 0x00,
    0x00, 0x00, 0x0D, 0x53, 0x45, 0x4C, 0x45, 0x43, 0x54, 0x20, 0x31, 0x00, 0x51, 0x00, 0x00, 0x00,
    0x16, 0x43, 0x4F, 0x50, 0x59, 0x20, 0x74, 0x20, 0x46, 0x52, 0x4F, 0x4D, 0x20, 0x53, 0x54, 0x44,
    0x49, 0x4E, 0x00, 0x64, 0x00, 0x00, 0x00, 0x08, 0x61, 0x0A, 0x62, 0x0A, 0x63, 0x00, 0x00, 0x00,
    0x04, 0x51, 0x00, 0x00, 0x00, 0x06, 0x3B, 0x00, 0x58, 0x00, 0x00, 0x00, 0x04,
];

fn script(alloc: Global) -> Result<Script, AllocError> {
    let row = row(alloc, b"1")?;
    let rows = ScriptPart::Rows {
        columns: Seq::new(vec![in alloc; column(alloc, b"n")?]?),
        rows: Seq::new(vec![in alloc; row]?),
        tag: text(alloc, b"SELECT 1")?,
    };
    let answers = vec![in alloc;
        answer(alloc, rows)?,
        answer(alloc, copy_in(alloc)?)?,
        answer(alloc, ScriptPart::Empty)?,
    ]?;
    Ok(Script {
        answers: Seq::new(answers),
        ..silent(alloc)
    })
}

impl Serving {
    // Serves a session in pieces of this many bytes.
    fn serves(&mut self, session: &[u8], size: usize) -> bool
        requires { 0 < size }
    {
        let mut served = true;
        for piece in session.chunks(size) {
            served = served && self.takes(piece) && self.runs();
        }
        served
    }

    // Has loaded just this chunk by its second request.
    fn has_loaded(&self, chunk: &[u8]) -> bool {
        match self.backend.log().get(1) {
            Some(logged) => {
                matches!(logged.loaded.as_slice(), [loaded] if loaded.as_slice() == chunk)
            }
            None => false,
        }
    }

    // Has put out and logged the same.
    fn is_as(&self, other: &Serving) -> bool {
        self.out == other.out && self.backend.log() == other.backend.log()
    }
}

#[test]
fn psql_is_served(rt: HostRuntime) {
    let alloc = rt.alloc();
    let held = holds(backend_of(alloc, script(alloc)).ok(), |it| {
        it.serves(&SESSION, SESSION.len())
            && it.stands(BackPhase::Closed, 3)
            && it.has_put_from_to(
                b"NR\0\0\0\x08\0\0\0\0Z\0\0\0\x05IT",
                b"C\0\0\0\x0BCOPY 2\0Z\0\0\0\x05II\0\0\0\x04Z\0\0\0\x05I",
            )
    });
    assert!(rt; held);
}

#[test]
fn psql_loads_two_rows(rt: HostRuntime) {
    let alloc = rt.alloc();
    let held = holds(backend_of(alloc, script(alloc)).ok(), |it| {
        it.serves(&SESSION, SESSION.len()) && it.has_loaded(b"a\nb\n")
    });
    assert!(rt; held);
}

#[test]
fn psql_is_served_a_byte_at_a_time(rt: HostRuntime) {
    let alloc = rt.alloc();
    let held = holds(backend_of(alloc, script(alloc)).ok(), |whole| {
        whole.serves(&SESSION, SESSION.len())
            && holds(
                backend_of(alloc, script(alloc)).ok(),
                |cut| cut.serves(&SESSION, 1) && cut.is_as(whole),
            )
    });
    assert!(rt; held);
}
