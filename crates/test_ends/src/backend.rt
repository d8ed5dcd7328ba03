mod password;
mod places;
mod psql;

use pg_backend::{
    Answer, Auth, BackPhase, Backend, BackendFault, Load, Script, ScriptFault, ScriptPart,
};
use pg_wire::{CopyHead, Seq, Status, WireFault};
use std::alloc::{AllocError, Global};
use std::test::Fail;
use testing::values::text;
use testing::{holds, is_told};

/// An SSLRequest, and a Startup with the user `u`.
const OPENING: [u8; 24] = [
    0x00, 0x00, 0x00, 0x08, 0x04, 0xD2, 0x16, 0x2F, 0x00, 0x00, 0x00, 0x10, 0x00, 0x03, 0x00, 0x00,
    0x75, 0x73, 0x65, 0x72, 0x00, 0x75, 0x00, 0x00,
];

fn answer(alloc: Global, part: ScriptPart) -> Result<Answer, AllocError> {
    Ok(Answer {
        before: Seq::new(Vec::new(alloc)),
        parts: Seq::new(vec![in alloc; part]?),
        error: None,
        status: Status::Idle,
    })
}

// A copy from the client of two rows with a column, which is taken.
fn copy_in(alloc: Global) -> Result<ScriptPart, AllocError> {
    let head = CopyHead {
        binary: false,
        formats: Seq::from_slice(alloc, &[0])?,
    };
    let load = Load::Accept(text(alloc, b"COPY 2")?);
    Ok(ScriptPart::CopyIn { head, load })
}

// A script without parameters, key and answers.
fn silent(alloc: Global) -> Script {
    Script {
        auth: Auth::Trust,
        pairs: Seq::new(Vec::new(alloc)),
        key: None,
        answers: Seq::new(Vec::new(alloc)),
    }
}

/// A script whose one answer has this part.
pub(crate) fn script_with(alloc: Global, part: ScriptPart) -> Result<Script, AllocError> {
    let answer = answer(alloc, part)?;
    Ok(Script {
        answers: Seq::new(vec![in alloc; answer]?),
        ..silent(alloc)
    })
}

fn begin(alloc: Global, script: Script) -> Result<Backend, ScriptFault> {
    script.check(alloc)?;
    Ok(Backend::new(alloc, script, 1_073_741_823))
}

/// A backend, and what it has put out. What a test asks of it answers whether it was so.
#[derive(Drop)]
struct Serving {
    backend: Backend,
    out: Vec<u8>,
}

// A backend that plays this script, if memory was left for it, and has put nothing out.
fn backend_of(alloc: Global, script: Result<Script, AllocError>) -> Result<Serving, ScriptFault> {
    match script {
        Ok(script) => Ok(Serving {
            backend: begin(alloc, script)?,
            out: Vec::new(alloc),
        }),
        Err(_) => Err(ScriptFault::Memory),
    }
}

impl Serving {
    // Takes these bytes.
    fn takes(&mut self, bytes: &[u8]) -> bool {
        self.backend.push(bytes).is_ok()
    }

    // Answers a step so.
    fn steps(&mut self, answer: Result<bool, BackendFault>) -> bool {
        self.backend.step(&mut self.out) == answer
    }

    // Steps until nothing whole waits.
    fn runs(&mut self) -> bool {
        for _ in 0..100 {
            match self.backend.step(&mut self.out) {
                Ok(true) => {}
                Ok(false) | Err(BackendFault::Closed) => return true,
                Err(_) => return false,
            }
        }
        true
    }

    // What was put out is taken off.
    fn sends(&mut self) -> bool {
        self.out.clear();
        true
    }

    // Takes these bytes and steps until nothing whole waits, and what was put out is taken off.
    fn opens(&mut self, opening: &[u8]) -> bool {
        self.takes(opening) && self.runs() && self.sends()
    }

    // Has put just these bytes out.
    fn has_put(&self, bytes: &[u8]) -> bool {
        self.out.as_slice() == bytes
    }

    // What it has put out begins and ends so.
    fn has_put_from_to(&self, begins: &[u8], ends: &[u8]) -> bool {
        self.out.as_slice().starts_with(begins) && self.out.as_slice().ends_with(ends)
    }

    // Is in this phase, and has logged so many requests.
    fn stands(&self, phase: BackPhase, logged: usize) -> bool {
        self.backend.phase() == phase && self.backend.log().len() == logged
    }

    // One step does what the case says.
    fn fits(&mut self, case: &Case<'_>) -> bool {
        let answered = self.opens(case.opening)
            && self.takes(case.input)
            && self.steps(case.answer);
        answered
            && self.has_put_from_to(case.begins, case.ends)
            && self.out.is_empty() == case.begins.is_empty()
            && self.stands(case.phase, case.logged)
    }
}

/// What one step of a backend without answers does, after this opening: its output begins and ends so.
#[derive(Clone, Copy)]
struct Case<'a> {
    opening: &'a [u8],
    input: &'a [u8],
    begins: &'a [u8],
    ends: &'a [u8],
    answer: Result<bool, BackendFault>,
    phase: BackPhase,
    logged: usize,
}

#[test]
fn a_connection_is_opened(rt: HostRuntime) {
    let alloc = rt.alloc();
    let held = holds(backend_of(alloc, Ok(silent(alloc))).ok(), |it| {
        it.takes(&OPENING)
            && it.steps(Ok(true))
            && it.steps(Ok(true))
            && it.has_put(b"NR\0\0\0\x08\0\0\0\0Z\0\0\0\x05I")
            && it.stands(BackPhase::Ready, 0)
    });
    assert!(rt; held);
}

/// A startup without a user; a request that no answer is left for; a message of no known tag, one out of place, one that is dropped, and the
/// beginning of one.
const SINGLE_INPUTS: [Case<'static>; 6] = [
    Case {
        opening: &[],
        input: b"\0\0\0\x09\0\x03\0\0\0",
        begins: b"E\0\0\0\x2ESFATAL\0VFATAL\0C28000\0",
        ends: b"Mno user in startup\0\0",
        answer: Ok(true),
        phase: BackPhase::Closed,
        logged: 0,
    },
    Case {
        opening: &OPENING,
        input: b"Q\0\0\0\x0DSELECT 1\0",
        begins: b"E\0\0\0\x38SERROR\0VERROR\0CXX000\0",
        ends: b"Z\0\0\0\x05I",
        answer: Ok(true),
        phase: BackPhase::Ready,
        logged: 1,
    },
    Case {
        opening: &OPENING,
        input: b"!\0\0\0\x04",
        begins: b"E\0\0\0\x27SFATAL\0VFATAL\0C08P01\0",
        ends: b"Mbad message\0\0",
        answer: Err(BackendFault::Wire(WireFault::UnknownTag(33))),
        phase: BackPhase::Closed,
        logged: 0,
    },
    Case {
        opening: &OPENING,
        input: b"p\0\0\0\x05\0",
        begins: b"E\0\0\0\x2ESFATAL\0VFATAL\0C08P01\0",
        ends: b"Munexpected message\0\0",
        answer: Err(BackendFault::Unexpected(b'p')),
        phase: BackPhase::Closed,
        logged: 0,
    },
    Case {
        opening: &OPENING,
        input: b"c\0\0\0\x04",
        begins: &[],
        ends: &[],
        answer: Ok(true),
        phase: BackPhase::Ready,
        logged: 0,
    },
    Case {
        opening: &OPENING,
        input: b"Q\0\0\0",
        begins: &[],
        ends: &[],
        answer: Ok(false),
        phase: BackPhase::Ready,
        logged: 0,
    },
];

#[test]
fn single_inputs_are_answered(rt: HostRuntime) {
    let alloc = rt.alloc();
    for case in SINGLE_INPUTS {
        let input = case.input;
        let held = holds(
            backend_of(alloc, Ok(silent(alloc))).ok(),
            |it| it.fits(&case),
        );
        assert!(rt; held, "{input:?}");
    }
}

// A script whose one answer has a tag with a zero byte.
fn unspelled(alloc: Global) -> Result<Script, AllocError> {
    script_with(alloc, ScriptPart::Command(text(alloc, b"\0")?))
}

#[test]
fn faults_are_told(rt: HostRuntime) -> Result<(), Fail> {
    let alloc = rt.alloc();
    let wire = BackendFault::Wire(WireFault::UnknownTag(33));
    assert!(rt; is_told(alloc, wire, "K1 Wire W1 UnknownTag 33")?);
    assert!(rt; is_told(alloc, BackendFault::Unexpected(80), "K4 Unexpected 80")?);
    assert!(rt; is_told(alloc, BackendFault::Memory, "K2 Memory")?);
    assert!(rt; is_told(alloc, ScriptFault::Copies, "S1 Copies")?);
    let held = holds(
        unspelled(alloc).ok(),
        |script| script.check(alloc) == Err(ScriptFault::Encode),
    );
    assert!(rt; held);
    Ok(())
}
