//! A source and a sink that fail at one call, for each call of a conversion and of a stream that is shown: what was written before stands.

use crate::tests::show::{CLIENT, CLIENT_LINES, LINES, STREAM};
use crate::tests::work::{
    BINARY_TO_BINARY, BINARY_TO_TEXT, TEXT_TO_BINARY, TEXT_TO_TEXT, ToolAnswer, Work,
    failing_receive, failing_send, perform, stops_at_send, whole,
};
use pgpipe_base::ToolFault;
use pgpipe_convert::convert::Converted;
use pgpipe_show::show::Shown;
use std::alloc::Global;

/// Two rows of two columns, in either format.
const TEXT: &[u8] = b"1\t\\N\n\tab\n";

const BINARY: &[u8] =
    b"PGCOPY\n\xFF\r\n\0\0\0\0\0\0\0\0\0\0\x02\0\0\0\x011\xFF\xFF\xFF\xFF\0\x02\0\0\0\0\0\0\0\x02ab\xFF\xFF";

/// The same rows with a comma between fields, and `x` for null.
const OPTIONAL: &[u8] = b"1,x\n,ab\n";

/// What a tool does, with these bytes, and what it is to write.
#[derive(Clone, Copy)]
struct Trial {
    work: Work,
    bytes: &'static [u8],
    wanted: &'static [u8],
}

// Whether it is told that the receive after so many others failed, once a beginning of what is wanted was written.
fn tells_of_receive(alloc: Global, trial: Trial, before: u64) -> bool {
    let task = failing_receive(trial.work, trial.bytes, before.saturating_add(1));
    let done = perform(alloc, task);
    let failed = done.answer == ToolAnswer::Failed(ToolFault::Device) && done.source.failures == 1;
    failed && trial.wanted.starts_with(done.sink.text.as_slice())
}

// Whether it is told that the send after so many others failed, and just so much stands, which these took.
fn tells_of_send(alloc: Global, trial: Trial, before: u64, taken: usize) -> bool {
    let task = failing_send(trial.work, trial.bytes, before.saturating_add(1));
    stops_at_send(alloc, task, taken, trial.wanted)
}

fn is_whole(answer: ToolAnswer) -> bool {
    answer == ToolAnswer::Converted(Converted::Whole) || answer == ToolAnswer::Shown(Shown::Whole)
}

// Whether it makes just so many receives and sends, and then all that is wanted is written.
fn ends_after(alloc: Global, trial: Trial, receives: u64, sends: u64) -> bool {
    let done = perform(alloc, whole(trial.work, trial.bytes, 5));
    let written = is_whole(done.answer) && done.sink.text.as_slice() == trial.wanted;
    written && done.source.calls == receives && done.sink.calls == sends
}

// Whether each of just so many receives of five bytes, the last of which finds the end, is told of where it fails; and each send, of which
// this is how much was taken after it. What a piece gave is sent before the next is received, at most seven bytes a send.
fn tells_of_each(alloc: Global, trial: Trial, receives: u64, sends: &[usize]) -> bool {
    for before in 0..receives {
        if !tells_of_receive(alloc, trial, before) {
            return false;
        }
    }
    let (mut before, mut taken) = (0u64, 0usize);
    for after in sends {
        if !tells_of_send(alloc, trial, before, taken) {
            return false;
        }
        before = before.saturating_add(1);
        taken = *after;
    }
    taken == trial.wanted.len() && ends_after(alloc, trial, receives, before)
}

const PLAIN_TEXT: Trial = Trial {
    work: Work::Convert(TEXT_TO_TEXT),
    bytes: TEXT,
    wanted: TEXT,
};

#[test]
fn text_from_text(rt: HostRuntime) {
    assert!(rt; tells_of_each(rt.alloc(), PLAIN_TEXT, 3, &[5, 9]));
}

const TO_BINARY: Trial = Trial {
    work: Work::Convert(TEXT_TO_BINARY),
    bytes: TEXT,
    wanted: BINARY,
};

#[test]
fn binary_from_text(rt: HostRuntime) {
    assert!(rt; tells_of_each(rt.alloc(), TO_BINARY, 3, &[7, 14, 21, 28, 30, 37, 42, 44]));
}

const TO_TEXT: Trial = Trial {
    work: Work::Convert(BINARY_TO_TEXT),
    bytes: BINARY,
    wanted: TEXT,
};

#[test]
fn text_from_binary(rt: HostRuntime) {
    assert!(rt; tells_of_each(rt.alloc(), TO_TEXT, 10, &[5, 9]));
}

const PLAIN_BINARY: Trial = Trial {
    work: Work::Convert(BINARY_TO_BINARY),
    bytes: BINARY,
    wanted: BINARY,
};

#[test]
fn binary_from_binary(rt: HostRuntime) {
    assert!(rt;
        tells_of_each(
            rt.alloc(),
            PLAIN_BINARY,
            10,
            &[7, 14, 19, 26, 30, 37, 42, 44]
        )
    );
}

const TO_OPTIONS: Trial = Trial {
    work: Work::ConvertWith(BINARY_TO_TEXT, b"x"),
    bytes: BINARY,
    wanted: OPTIONAL,
};

#[test]
fn text_with_options(rt: HostRuntime) {
    assert!(rt; tells_of_each(rt.alloc(), TO_OPTIONS, 10, &[4, 8]));
}

const OF_A_SERVER: Trial = Trial {
    work: Work::Show(false),
    bytes: STREAM,
    wanted: LINES,
};

#[test]
fn lines_of_a_server(rt: HostRuntime) {
    assert!(rt; tells_of_each(rt.alloc(), OF_A_SERVER, 5, &[7, 14, 16, 22]));
}

const OF_A_CLIENT: Trial = Trial {
    work: Work::Show(true),
    bytes: CLIENT,
    wanted: CLIENT_LINES,
};

// How much is sent after each send.
const CLIENT_SENDS: [usize; 13] = [7, 14, 15, 22, 29, 36, 43, 50, 51, 58, 65, 72, 75];

#[test]
fn lines_of_a_client(rt: HostRuntime) {
    assert!(rt; tells_of_each(rt.alloc(), OF_A_CLIENT, 9, &CLIENT_SENDS));
}
