//! Messages that come where a backend waits for others.

use super::{OPENING, Serving, backend_of, copy_in, script_with, silent};
use pg_backend::{BackPhase, BackendFault, Script};
use pg_wire::WireFault;
use std::alloc::{AllocError, Global};
use testing::holds;

/// A Query of `SELECT 1`.
const QUERY: &[u8] = b"Q\0\0\0\x0DSELECT 1\0";

// The answer to one request is a copy from the client.
fn copying(alloc: Global) -> Result<Script, AllocError> {
    script_with(alloc, copy_in(alloc)?)
}

impl Serving {
    // One step with this input says just this, answers so, and leaves this phase. What it says is taken off.
    fn says(
        &mut self,
        input: &[u8],
        said: &[u8],
        answered: Result<bool, BackendFault>,
        phase: BackPhase,
    ) -> bool {
        let stepped = self.takes(input) && self.steps(answered);
        stepped && self.has_put(said) && self.backend.phase() == phase && self.sends()
    }

    // A further step answers that it is closed, and leaves what stands in the output as long as it is.
    fn stays_closed(&mut self) -> bool {
        let before = self.out.len();
        self.steps(Err(BackendFault::Closed)) && self.out.len() == before
    }
}

#[test]
fn a_query_ends_a_copy(rt: HostRuntime) {
    let alloc = rt.alloc();
    let held = holds(backend_of(alloc, copying(alloc)).ok(), |it| {
        it.opens(&OPENING)
            && it.opens(b"Q\0\0\0\x09COPY\0")
            && it.stands(BackPhase::CopyIn, 0)
            && it.says(
                QUERY,
                b"E\0\0\0\x36SERROR\0VERROR\0C08P01\0Munexpected message in COPY\0\0Z\0\0\0\x05I",
                Ok(true),
                BackPhase::Ready,
            )
            && it.stands(BackPhase::Ready, 1)
    });
    assert!(rt; held);
}

#[test]
fn a_query_strays_in_a_group(rt: HostRuntime) {
    let alloc = rt.alloc();
    let held = holds(backend_of(alloc, Ok(silent(alloc))).ok(), |it| {
        it.opens(&OPENING)
            && it.says(b"P\0\0\0\x08\0\0\0\0", b"", Ok(true), BackPhase::Grouping)
            && it.says(
                QUERY,
                b"E\0\0\0\x2ESFATAL\0VFATAL\0C08P01\0Munexpected message\0\0",
                Err(BackendFault::Unexpected(81)),
                BackPhase::Closed,
            )
    });
    assert!(rt; held);
}

#[test]
fn a_faulty_stream_closes_for_good(rt: HostRuntime) {
    let alloc = rt.alloc();
    let held = holds(backend_of(alloc, Ok(silent(alloc))).ok(), |it| {
        it.opens(&OPENING)
            && it.takes(b"!\0\0\0\x04")
            && it.steps(Err(BackendFault::Wire(WireFault::UnknownTag(33))))
            && it.stays_closed()
    });
    assert!(rt; held);
}
