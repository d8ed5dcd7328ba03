//! Clients that are asked for a password.

use super::{Serving, backend_of, silent};
use pg_backend::{Auth, BackPhase, BackendFault, Script};
use pg_wire::WireFault;
use std::alloc::{AllocError, Global};
use testing::holds;
use testing::values::{WELCOME, text};

/// A Startup with the users `x` and `c`, of which the last counts.
const STARTUP: &[u8] = b"\0\0\0\x17\0\x03\0\0user\0x\0user\0c\0\0";

const WRONG: &[u8] = b"E\0\0\0\x3ASFATAL\0VFATAL\0C28P01\0Mpassword authentication failed\0\0";

const UNEXPECTED: &[u8] = b"E\0\0\0\x2ESFATAL\0VFATAL\0C08P01\0Munexpected message\0\0";

/// What one step does with this input where a password is awaited.
#[derive(Clone, Copy)]
struct Case<'a> {
    input: &'a [u8],
    said: &'a [u8],
    answer: Result<bool, BackendFault>,
    phase: BackPhase,
}

// Clients are let in so.
fn admitting(alloc: Global, auth: Auth) -> Script {
    Script {
        auth,
        ..silent(alloc)
    }
}

// Clients are let in by the password `ab`.
fn cleartext(alloc: Global) -> Result<Script, AllocError> {
    Ok(admitting(alloc, Auth::Cleartext(text(alloc, b"ab")?)))
}

// Clients are let in by an MD5 text of the password `ab`.
fn md5(alloc: Global) -> Result<Script, AllocError> {
    let auth = Auth::Md5 {
        password: text(alloc, b"ab")?,
        salt: [1, 2, 3, 4],
    };
    Ok(admitting(alloc, auth))
}

impl Serving {
    // Is in this phase, and has logged nothing.
    fn waits(&self, phase: BackPhase) -> bool {
        self.stands(phase, 0)
    }

    // Asks a client this question, which is taken off.
    fn asks(&mut self, question: &[u8]) -> bool {
        let asked = self.takes(STARTUP) && self.steps(Ok(true)) && self.has_put(question);
        asked && self.waits(BackPhase::Password) && self.sends()
    }

    // One step does what the case says.
    fn lets_in(&mut self, case: &Case<'_>) -> bool {
        let answered = self.takes(case.input) && self.steps(case.answer);
        answered && self.has_put(case.said) && self.waits(case.phase)
    }
}

/// The password, two that are wrong, a Terminate, two messages out of place, one of no known tag, and the beginning of one.
const CLEARTEXT: [Case<'static>; 8] = [
    Case {
        input: b"p\0\0\0\x07ab\0",
        said: &WELCOME,
        answer: Ok(true),
        phase: BackPhase::Ready,
    },
    Case {
        input: b"p\0\0\0\x06a\0",
        said: WRONG,
        answer: Ok(true),
        phase: BackPhase::Closed,
    },
    Case {
        input: b"p\0\0\0\x08abc\0",
        said: WRONG,
        answer: Ok(true),
        phase: BackPhase::Closed,
    },
    Case {
        input: b"X\0\0\0\x04",
        said: &[],
        answer: Ok(true),
        phase: BackPhase::Closed,
    },
    Case {
        input: b"Q\0\0\0\x0DSELECT 1\0",
        said: UNEXPECTED,
        answer: Err(BackendFault::Unexpected(b'Q')),
        phase: BackPhase::Closed,
    },
    Case {
        input: b"d\0\0\0\x04",
        said: UNEXPECTED,
        answer: Err(BackendFault::Unexpected(b'd')),
        phase: BackPhase::Closed,
    },
    Case {
        input: b"!\0\0\0\x04",
        said: b"E\0\0\0\x27SFATAL\0VFATAL\0C08P01\0Mbad message\0\0",
        answer: Err(BackendFault::Wire(WireFault::UnknownTag(33))),
        phase: BackPhase::Closed,
    },
    Case {
        input: b"p\0\0\0\x07a",
        said: &[],
        answer: Ok(false),
        phase: BackPhase::Password,
    },
];

#[test]
fn a_cleartext_password_is_asked_for(rt: HostRuntime) {
    let alloc = rt.alloc();
    let question = b"R\0\0\0\x08\0\0\0\x03";
    for case in CLEARTEXT {
        let input = case.input;
        let held = holds(
            backend_of(alloc, cleartext(alloc)).ok(),
            |it| it.asks(question) && it.lets_in(&case),
        );
        assert!(rt; held, "{input:?}");
    }
}

/// The text of the password, and the password itself.
const MD5: [Case<'static>; 2] = [
    Case {
        input: b"p\0\0\0\x28md596838e208aad1ff8fc396693d03e488d\0",
        said: &WELCOME,
        answer: Ok(true),
        phase: BackPhase::Ready,
    },
    Case {
        input: b"p\0\0\0\x07ab\0",
        said: WRONG,
        answer: Ok(true),
        phase: BackPhase::Closed,
    },
];

#[test]
fn an_md5_answer_is_asked_for(rt: HostRuntime) {
    let alloc = rt.alloc();
    let question = b"R\0\0\0\x0C\0\0\0\x05\x01\x02\x03\x04";
    for case in MD5 {
        let input = case.input;
        let held = holds(
            backend_of(alloc, md5(alloc)).ok(),
            |it| it.asks(question) && it.lets_in(&case),
        );
        assert!(rt; held, "{input:?}");
    }
}

#[test]
fn a_client_that_is_let_in_is_answered(rt: HostRuntime) {
    let alloc = rt.alloc();
    let held = holds(backend_of(alloc, cleartext(alloc)).ok(), |it| {
        it.asks(b"R\0\0\0\x08\0\0\0\x03")
            && it.takes(b"p\0\0\0\x07ab\0Q\0\0\0\x0DSELECT 1\0")
            && it.runs()
            && it.has_put_from_to(&WELCOME, b"")
            && it.stands(BackPhase::Ready, 1)
            // a password is no message of the session
            && it.takes(b"p\0\0\0\x07ab\0")
            && it.steps(Err(BackendFault::Unexpected(b'p')))
    });
    assert!(rt; held);
}

#[test]
fn a_client_that_is_refused_stays_out(rt: HostRuntime) {
    let alloc = rt.alloc();
    let held = holds(backend_of(alloc, cleartext(alloc)).ok(), |it| {
        it.asks(b"R\0\0\0\x08\0\0\0\x03")
            && it.takes(b"p\0\0\0\x06a\0p\0\0\0\x07ab\0")
            && it.steps(Ok(true))
            && it.steps(Err(BackendFault::Closed))
            && it.has_put(WRONG)
            && it.backend.push(b"Q") == Err(BackendFault::Closed)
    });
    assert!(rt; held);
}
