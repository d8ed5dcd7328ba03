//! Streams that are shown.

use crate::tests::work::{
    ToolAnswer, Work, failing_receive, failing_send, gives, perform, stops_at_receive,
    stops_at_send, whole,
};
use pg_wire::WireFault;
use pgpipe_base::ToolFault;
use pgpipe_show::show::Shown;
use std::alloc::{AllocError, Global};
use testing::{holds, is_told};

/// ReadyForQuery, CopyData of two bytes, CopyDone.
pub(crate) const STREAM: &[u8] = b"Z\0\0\0\x05Id\0\0\0\x06\x0f\xffc\0\0\0\x04";

pub(crate) const LINES: &[u8] = b"Z 5 49\nd 6 0fff\nc 4 -\n";

/// What a client begins with: SSLRequest, StartupMessage with user=u, Query.
pub(crate) const CLIENT: &[u8] =
    b"\0\0\0\x08\x04\xd2\x16\x2f\0\0\0\x10\0\x03\0\0user\0u\0\0Q\0\0\0\x0dSELECT 1\0";

pub(crate) const CLIENT_LINES: &[u8] =
    b"ssl 8 04d2162f\nstartup 16 000300007573657200750000\nQ 13 53454c454354203100\n";

/// CancelRequest, and a byte.
const CANCEL: &[u8] = b"\0\0\0\x10\x04\xd2\x16\x2e\0\0\0\x01\0\0\0\x02\0";

// Whether these bytes, five at a time, are shown as these lines, with this answer.
fn shows(alloc: Global, front: bool, bytes: &[u8], answer: Shown, lines: &[u8]) -> bool {
    let task = whole(Work::Show(front), bytes, 5);
    gives(alloc, task, ToolAnswer::Shown(answer), lines)
}

#[test]
fn a_whole_stream(rt: HostRuntime) {
    assert!(rt; shows(rt.alloc(), false, STREAM, Shown::Whole, LINES));
}

#[test]
fn no_message(rt: HostRuntime) {
    assert!(rt; shows(rt.alloc(), false, b"", Shown::Whole, b""));
    assert!(rt; shows(rt.alloc(), false, b"Z\0\0", Shown::Rest(3), b""));
}

#[test]
fn lines_before_a_fault(rt: HostRuntime) {
    let fault = Shown::Fault(WireFault::UnknownTag(33));
    let bytes = b"Z\0\0\0\x05I!\0\0\0\x04";
    assert!(rt; shows(rt.alloc(), false, bytes, fault, b"Z 5 49\n"));
}

#[test]
fn lines_before_a_rest(rt: HostRuntime) {
    let bytes = b"c\0\0\0\x04Z\0\0\0\x05";
    assert!(rt; shows(rt.alloc(), false, bytes, Shown::Rest(5), b"c 4 -\n"));
}

#[test]
fn a_client(rt: HostRuntime) {
    assert!(rt; shows(rt.alloc(), true, CLIENT, Shown::Whole, CLIENT_LINES));
}

#[test]
fn a_cancel_and_a_rest(rt: HostRuntime) {
    let lines = b"cancel 16 04d2162e0000000100000002\n";
    assert!(rt; shows(rt.alloc(), true, CANCEL, Shown::Rest(1), lines));
    assert!(rt; shows(rt.alloc(), true, &CANCEL[..15], Shown::Rest(15), b""));
}

#[test]
fn a_fault_of_a_packet(rt: HostRuntime) {
    let bytes = b"\0\0\0\x08\x04\xd2\x16\x30\0\0\0\x08\0\x02\0\0";
    let fault = Shown::Fault(WireFault::BadFirst(131_072));
    assert!(rt; shows(rt.alloc(), true, bytes, fault, b"gss 8 04d21630\n"));
}

#[test]
fn a_message_of_a_backend_at_a_client(rt: HostRuntime) {
    let bytes = b"\0\0\0\x09\0\x03\0\0\0Z\0\0\0\x05I";
    let fault = Shown::Fault(WireFault::UnknownTag(90));
    assert!(rt; shows(rt.alloc(), true, bytes, fault, b"startup 9 0003000000\n"));
}

// The receive that fails, and how much text the pieces before it make.
const RECEIVES: [(u64, usize); 5] = [(1, 0), (2, 0), (3, 7), (4, 16), (5, 22)];

#[test]
fn a_source_that_fails(rt: HostRuntime) {
    for (call, size) in RECEIVES {
        let task = failing_receive(Work::Show(false), STREAM, call);
        assert!(rt;
            stops_at_receive(rt.alloc(), task, size, LINES),
            "at {call}"
        );
    }
}

// The receives of a client's stream.
const CLIENT_RECEIVES: [(u64, usize); 9] = [
    (1, 0),
    (2, 0),
    (3, 15),
    (4, 15),
    (5, 15),
    (6, 51),
    (7, 51),
    (8, 51),
    (9, 75),
];

#[test]
fn a_client_that_fails(rt: HostRuntime) {
    for (call, size) in CLIENT_RECEIVES {
        let task = failing_receive(Work::Show(true), CLIENT, call);
        assert!(rt;
            stops_at_receive(rt.alloc(), task, size, CLIENT_LINES),
            "at {call}"
        );
    }
}

// The send that fails, and how much text is sent before: the lines of a piece, of 7, 9 and 6 bytes, are sent before the next comes, at most
// seven bytes a send.
const SENDS: [(u64, usize); 4] = [(1, 0), (2, 7), (3, 14), (4, 16)];

// So are those of a client, of 15, 36 and 24 bytes.
const CLIENT_SENDS: [(u64, usize); 6] = [(1, 0), (3, 14), (4, 15), (9, 50), (10, 51), (13, 72)];

#[test]
fn a_sink_that_fails(rt: HostRuntime) {
    for (call, size) in SENDS {
        let task = failing_send(Work::Show(false), STREAM, call);
        assert!(rt; stops_at_send(rt.alloc(), task, size, LINES), "at {call}");
    }
    for (call, size) in CLIENT_SENDS {
        let task = failing_send(Work::Show(true), CLIENT, call);
        assert!(rt;
            stops_at_send(rt.alloc(), task, size, CLIENT_LINES),
            "at {call}"
        );
    }
}

// CopyData of 100,000 bytes.
fn long_message(alloc: Global) -> Result<Vec<u8>, AllocError> {
    let mut bytes = Vec::from_slice(alloc, b"d\0\x01\x86\xa4")?;
    for _ in 0..100_000 {
        bytes.push(0xa7)?;
    }
    Ok(bytes)
}

// Whether the line of that message is sent.
fn shows_whole(alloc: Global, message: &[u8]) -> bool {
    let done = perform(alloc, whole(Work::Show(false), message, 5));
    let text = done.sink.text.as_slice();
    let ends = text.starts_with(b"d 100004 a7a7") && text.ends_with(b"a7\n");
    done.answer == ToolAnswer::Shown(Shown::Whole) && text.len() == 200_010 && ends
}

// A line that is longer than what is collected at once.
#[test]
fn a_long_message(rt: HostRuntime) {
    let alloc = rt.alloc();
    let held = holds(
        long_message(alloc).ok(),
        |it| shows_whole(alloc, it.as_slice()),
    );
    assert!(rt; held);
}

#[test]
fn faults_are_told(rt: HostRuntime) {
    assert!(rt; is_told(rt.alloc(), ToolFault::Device, "device") == Ok(true));
    assert!(rt; is_told(rt.alloc(), ToolFault::Memory, "memory") == Ok(true));
}
