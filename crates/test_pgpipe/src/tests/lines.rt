//! Lines of what no loop of a script comes to; those of others are asked by `.ci/loops`.

use crate::tests::told::{TableAnswer, applied, log};
use pg_backend::{BackPhase, BackendFault, Logged};
use pg_client::{CallFault, Phase};
use pg_pair::Applied;
use pg_wire::{EncodeFault, WireFault};
use pgpipe_loop::{closing_lines, event_lines};
use std::alloc::Global;
use testing::holds;

// Whether these are the lines of an event that was answered so.
fn are_lines(alloc: Global, answer: &Applied, lines: &[u8]) -> bool {
    match event_lines(alloc, &[], answer, None) {
        Ok(text) => text.as_slice() == lines,
        Err(_) => false,
    }
}

fn says(alloc: Global, answer: TableAnswer, lines: &[u8]) -> bool {
    holds(
        applied(alloc, answer).ok(),
        |it| are_lines(alloc, it, lines),
    )
}

// Whether each answer has these lines.
fn say(alloc: Global, rows: &[(TableAnswer, &[u8])]) -> bool {
    for (answer, lines) in rows {
        if !says(alloc, *answer, *lines) {
            return false;
        }
    }
    true
}

const CALLS: [(TableAnswer, &[u8]); 6] = [
    (TableAnswer::Done, b""),
    (TableAnswer::Nothing, b""),
    (
        TableAnswer::Refused(CallFault::NotReady(Phase::New)),
        b"refused\tC1\n",
    ),
    (
        TableAnswer::Refused(CallFault::NotCopying(Phase::New)),
        b"refused\tC2\n",
    ),
    (
        TableAnswer::Refused(CallFault::Encode(EncodeFault::HasZero)),
        b"refused\tC3\n",
    ),
    (TableAnswer::Refused(CallFault::NoKey), b"refused\tC4\n"),
];

#[test]
fn lines_of_calls(rt: HostRuntime) {
    assert!(rt; say(rt.alloc(), &CALLS));
}

const CLIENT_FAULTS: [(TableAnswer, &[u8]); 6] = [
    (
        TableAnswer::Wire(WireFault::BadBody(90)),
        b"fault\tF1\tW4\n",
    ),
    (
        TableAnswer::Wire(WireFault::UnknownTag(0)),
        b"fault\tF1\tW1\n",
    ),
    (TableAnswer::Unexpected(90), b"fault\tF2\n"),
    (TableAnswer::UnsupportedAuth(7), b"fault\tF3\n"),
    (TableAnswer::PasswordWanted, b"fault\tF4\n"),
    (TableAnswer::Memory, b"fault\tF7\n"),
];

#[test]
fn lines_of_faults_of_the_client(rt: HostRuntime) {
    assert!(rt; say(rt.alloc(), &CLIENT_FAULTS));
}

const ERRORS: [(TableAnswer, &[u8]); 2] = [
    (TableAnswer::StartupError, b"fault\tF5\tC\tXX000\tM\tbad\n"),
    (TableAnswer::ServerEnd, b"fault\tF6\tC\tXX000\tM\tbad\n"),
];

#[test]
fn lines_of_errors_outside_a_request(rt: HostRuntime) {
    assert!(rt; say(rt.alloc(), &ERRORS));
}

const BACKEND_FAULTS: [(TableAnswer, &[u8]); 6] = [
    (
        TableAnswer::Backend(BackendFault::Wire(WireFault::ShortLength(3))),
        b"fault\tK1\tW2\n",
    ),
    (
        TableAnswer::Backend(BackendFault::Wire(WireFault::LongLength(3))),
        b"fault\tK1\tW3\n",
    ),
    (
        TableAnswer::Backend(BackendFault::Wire(WireFault::BadFirst(3))),
        b"fault\tK1\tW5\n",
    ),
    (TableAnswer::Backend(BackendFault::Memory), b"fault\tK2\n"),
    (
        TableAnswer::Backend(BackendFault::Unexpected(90)),
        b"fault\tK4\n",
    ),
    (TableAnswer::Carrier, b"fault\tcarry\n"),
];

#[test]
fn lines_of_faults_of_the_backend(rt: HostRuntime) {
    assert!(rt; say(rt.alloc(), &BACKEND_FAULTS));
}

// Whether the line of this answer has this length, and ends in a code without its value.
fn is_cut(alloc: Global, answer: &Applied, length: usize) -> bool {
    match event_lines(alloc, &[], answer, None) {
        Ok(text) => text.len() == length && text.as_slice().ends_with(b"\tM\tv\tM\n"),
        Err(_) => false,
    }
}

#[test]
fn lines_have_at_most_so_many_fields(rt: HostRuntime) {
    let alloc = rt.alloc();
    // `fault`, `F5`, and a field and a tab each for 32,765 more
    let length = 5 + 3 + 2 * 32_765 + 1;
    let held = holds(
        applied(alloc, TableAnswer::ManyFields(16_384)).ok(),
        |it| is_cut(alloc, it, length),
    );
    assert!(rt; held);
}

// ---- closing lines

// Whether one line has the first 32,765 chunks of a request, and a second one the last.
fn needs_two_lines(alloc: Global, log: &[Logged]) -> bool {
    let ends = b"\tc\nloaded\t1\tc\nclient\tready\nbackend\tready\n";
    match closing_lines(alloc, log, Phase::Ready, BackPhase::Ready) {
        Ok(text) => {
            text.len() == 8 + 2 * 32_765 + 1 + 8 + 2 + 1 + 13 + 14
                && text.as_slice().ends_with(ends)
        }
        Err(_) => false,
    }
}

#[test]
fn more_chunks_than_a_line_takes(rt: HostRuntime) {
    let alloc = rt.alloc();
    let held = holds(
        log(alloc, &[32_766]).ok(),
        |it| needs_two_lines(alloc, it.as_slice()),
    );
    assert!(rt; held);
}
