//! Links over devices that fail. Each test is a table of steps: what is done with a link, and what must come of it.

use pg_wire::{LinkFault, Over, PATIENCE, Patient, Sink, Source};
use std::io;
use std::io::{ErrorKind, Read, Write};
use std::test::Fail;
use testing::{holds, is_told};

// Gives or takes a byte a call, and fails at some calls in a row, by errors of one kind.
#[derive(Drop)]
struct Flaky {
    calls: u8,
    first: u8,
    last: u8,
    kind: ErrorKind,
}

impl Flaky {
    fn call(&mut self) -> io::Result<()> {
        self.calls = self.calls.saturating_add(1);
        if self.calls >= self.first && self.calls <= self.last {
            return Err(io::Error::from(self.kind));
        }
        Ok(())
    }
}

impl Read for Flaky {
    fn read(&mut self, buf: &mut [u8]) -> io::Result<usize> {
        self.call()?;
        match buf {
            [] => Ok(0),
            [first, ..] => {
                *first = self.calls;
                Ok(1)
            }
        }
    }
}

impl Write for Flaky {
    fn write(&mut self, buf: &[u8]) -> io::Result<usize> {
        self.call()?;
        Ok(if buf.is_empty() || self.calls > 3 {
            0
        } else {
            1
        })
    }

    fn flush(&mut self) -> io::Result<()> {
        Ok(())
    }
}

fn failing_at(call: u8) -> Over<Flaky> {
    Over::new(Flaky {
        calls: 0,
        first: call,
        last: call,
        kind: ErrorKind::BrokenPipe,
    })
}

// It would block at its first call.
fn would_block() -> Patient<Flaky> {
    Patient::new(Flaky {
        calls: 0,
        first: 1,
        last: 1,
        kind: ErrorKind::WouldBlock,
    })
}

fn interrupted(first: u8, last: u8) -> Patient<Flaky> {
    Patient::new(Flaky {
        calls: 0,
        first,
        last,
        kind: ErrorKind::Interrupted,
    })
}

// What the device of a link said last.
fn said<T>(link: &Over<T>) -> Option<ErrorKind> {
    match link.last_error() {
        Some(error) => Some(error.kind()),
        None => None,
    }
}

/// The device of a link, which counts its calls.
trait Device: Read + Write + Sized + Drop {
    fn calls(&self) -> u32;

    /// Takes the device apart, and returns how many calls it has counted.
    fn into_calls(self) -> u32;
}

impl Device for Flaky {
    fn calls(&self) -> u32 {
        u32::from(self.calls)
    }

    fn into_calls(self) -> u32 {
        u32::from(self.calls)
    }
}

impl Device for Patient<Flaky> {
    fn calls(&self) -> u32 {
        self.get_ref().calls()
    }

    fn into_calls(self) -> u32 {
        self.into_inner().into_calls()
    }
}

/// What is done with a link, and what must come of it.
#[derive(Clone, Copy)]
enum LinkStep {
    /// This byte is received, where there is room for four.
    Receive(u8),
    /// A receive fails.
    ReceiveFails,
    /// So many bytes of a piece are sent.
    Send(&'static [u8], usize),
    /// The send of a piece fails.
    SendFails(&'static [u8]),
    /// So many calls have failed.
    Failures(u64),
    /// The device said this last.
    Said(Option<ErrorKind>),
    /// So many calls of the device were made.
    Calls(u32),
}

fn receives<D: Device>(link: &mut Over<D>, byte: u8) -> bool {
    let mut into = [0u8; 4];
    link.receive(&mut into) == Ok(1) && into[0] == byte
}

fn fails_to_receive<D: Device>(link: &mut Over<D>) -> bool {
    let mut into = [0u8; 4];
    link.receive(&mut into) == Err(LinkFault)
}

fn is_so<D: Device>(link: &mut Over<D>, step: LinkStep) -> bool {
    match step {
        LinkStep::Receive(byte) => receives(link, byte),
        LinkStep::ReceiveFails => fails_to_receive(link),
        LinkStep::Send(piece, count) => link.send(piece) == Ok(count),
        LinkStep::SendFails(piece) => link.send(piece) == Err(LinkFault),
        LinkStep::Failures(count) => link.failures() == count,
        LinkStep::Said(kind) => said(link) == kind,
        LinkStep::Calls(count) => link.get_ref().calls() == count,
    }
}

fn are_so<D: Device>(link: &mut Over<D>, steps: &[LinkStep]) -> bool {
    for step in steps {
        if !is_so(link, *step) {
            return false;
        }
    }
    true
}

// Whether a link does what these steps say, and has made so many calls then.
fn does<D: Device>(mut link: Over<D>, steps: &[LinkStep], calls: u32) -> bool {
    let done = are_so(&mut link, steps) && link.get_ref().calls() == calls;
    done & (link.into_inner().into_calls() == calls)
}

const READ_FAILS: [LinkStep; 7] = [
    LinkStep::Receive(1),
    LinkStep::Said(None),
    LinkStep::ReceiveFails,
    LinkStep::Failures(1),
    LinkStep::Receive(3),
    LinkStep::Failures(1),
    // what was said stays until another call fails
    LinkStep::Said(Some(ErrorKind::BrokenPipe)),
];

#[test]
fn a_read_fails_in_the_middle(rt: HostRuntime) {
    assert!(rt; does(failing_at(2), &READ_FAILS, 3));
}

const WRITE_FAILS: [LinkStep; 8] = [
    LinkStep::Send(b"ab", 1),
    LinkStep::SendFails(b"b"),
    LinkStep::Said(Some(ErrorKind::BrokenPipe)),
    LinkStep::Send(b"b", 1),
    // a write that takes nothing is a failure, but of an empty piece
    LinkStep::Send(b"", 0),
    LinkStep::SendFails(b"c"),
    LinkStep::Failures(2),
    LinkStep::Said(Some(ErrorKind::WriteZero)),
];

#[test]
fn a_write_fails_in_the_middle(rt: HostRuntime) {
    assert!(rt; does(failing_at(2), &WRITE_FAILS, 5));
}

const WITHOUT_PATIENCE: [LinkStep; 3] = [
    LinkStep::Receive(1),
    LinkStep::ReceiveFails,
    LinkStep::Said(Some(ErrorKind::Interrupted)),
];

#[test]
fn an_interrupted_read_is_a_failure_without_patience(rt: HostRuntime) {
    let source = Over::new(interrupted(2, 2).into_inner());
    assert!(rt; does(source, &WITHOUT_PATIENCE, 2));
}

const READ_AGAIN: [LinkStep; 4] = [
    LinkStep::Receive(1),
    LinkStep::Receive(3),
    LinkStep::Failures(0),
    LinkStep::Said(None),
];

#[test]
fn an_interrupted_read_is_made_again(rt: HostRuntime) {
    assert!(rt; does(Over::new(interrupted(2, 2)), &READ_AGAIN, 3));
}

/// The call that is interrupted, and what comes of three receives.
const EACH_CALL: [(u8, [LinkStep; 4]); 3] = [
    (
        1,
        [
            LinkStep::Receive(2),
            LinkStep::Receive(3),
            LinkStep::Receive(4),
            LinkStep::Failures(0),
        ],
    ),
    (
        2,
        [
            LinkStep::Receive(1),
            LinkStep::Receive(3),
            LinkStep::Receive(4),
            LinkStep::Failures(0),
        ],
    ),
    (
        3,
        [
            LinkStep::Receive(1),
            LinkStep::Receive(2),
            LinkStep::Receive(4),
            LinkStep::Failures(0),
        ],
    ),
];

fn each_is_made_again(rows: &[(u8, [LinkStep; 4])]) -> bool {
    for (call, steps) in rows {
        if !does(Over::new(interrupted(*call, *call)), steps, 4) {
            return false;
        }
    }
    true
}

#[test]
fn an_interruption_at_each_call(rt: HostRuntime) {
    assert!(rt; each_is_made_again(&EACH_CALL));
}

const WRITE_AGAIN: [LinkStep; 3] = [
    LinkStep::Send(b"ab", 1),
    LinkStep::Failures(0),
    LinkStep::Said(None),
];

#[test]
fn an_interrupted_write_is_made_again(rt: HostRuntime) {
    assert!(rt; does(Over::new(interrupted(1, 2)), &WRITE_AGAIN, 3));
}

const PATIENCE_ENDS: [LinkStep; 5] = [
    LinkStep::ReceiveFails,
    LinkStep::Calls(65),
    LinkStep::Said(Some(ErrorKind::Interrupted)),
    // the next call has as much of it
    LinkStep::SendFails(b"a"),
    LinkStep::Failures(2),
];

#[test]
fn patience_ends(rt: HostRuntime) {
    assert_eq!(rt; PATIENCE + 1, 65);
    let link = Over::new(interrupted(1, u8::MAX));
    assert!(rt; does(link, &PATIENCE_ENDS, 2 * (PATIENCE + 1)));
}

const LAST_TRY: [LinkStep; 2] = [LinkStep::Receive(65), LinkStep::Failures(0)];

#[test]
fn patience_lasts_until_the_last_try(rt: HostRuntime) {
    assert!(rt; does(Over::new(interrupted(1, 64)), &LAST_TRY, 65));
}

const ANOTHER_ERROR: [LinkStep; 4] = [
    LinkStep::ReceiveFails,
    LinkStep::Said(Some(ErrorKind::BrokenPipe)),
    LinkStep::Calls(1),
    LinkStep::Send(b"a", 1),
];

#[test]
fn another_error_is_not_tried_again(rt: HostRuntime) {
    let link = Over::new(Patient::new(failing_at(1).into_inner()));
    assert!(rt; does(link, &ANOTHER_ERROR, 2));
}

const READ_WOULD_BLOCK: [LinkStep; 5] = [
    LinkStep::ReceiveFails,
    LinkStep::Failures(1),
    LinkStep::Said(Some(ErrorKind::WouldBlock)),
    LinkStep::Calls(1),
    LinkStep::Receive(2),
];

const WRITE_WOULD_BLOCK: [LinkStep; 4] = [
    LinkStep::SendFails(b"a"),
    LinkStep::Failures(1),
    LinkStep::Said(Some(ErrorKind::WouldBlock)),
    LinkStep::Send(b"a", 1),
];

#[test]
fn what_would_block_is_a_failure(rt: HostRuntime) {
    assert!(rt; does(Over::new(would_block()), &READ_WOULD_BLOCK, 2));
    assert!(rt; does(Over::new(would_block()), &WRITE_WOULD_BLOCK, 2));
}

// Whether just these bytes are received, where there is room for two.
fn receives_slice(source: &mut Over<&[u8]>, bytes: &[u8]) -> bool {
    let mut into = [0u8; 2];
    source.receive(&mut into) == Ok(bytes.len()) && into.starts_with(bytes)
}

fn is_received(bytes: &[u8]) -> bool {
    holds(Some(Over::new(bytes)), |source| {
        receives_slice(source, b"ab") && receives_slice(source, b"c") && receives_slice(source, b"")
    })
}

#[test]
fn a_slice_is_received_whole(rt: HostRuntime) -> Result<(), Fail> {
    assert!(rt; is_received(b"abc"));
    assert!(rt; is_told(rt.alloc(), LinkFault, "the link failed")?);
    Ok(())
}
