//! Loops that are broken after each byte.

ghost use Rattle.std.specs.Prelude.{IfOk};
ghost use Rattle.pgpipe_loop.specs.Everywhere.{IsPlayable};

use crate::tests::links::{Paper, sheet};
use pg_backend::Logged;
use pg_client::Settled;
use pg_pair::Way;
use pg_wire::{Outcome, Request, Seq, Status};
use pgpipe_base::ToolFault;
use pgpipe_files::{read_calls, read_script};
use pgpipe_loop::{Broken, LoopFiles, Place, begins_log, break_everywhere, first_unseen};
use std::alloc::{AllocError, Global};
use std::test::Fail;

// A script and calls that name no file.
type Texts<'a> = (&'a [u8], &'a [u8]);

// The files of a loop, judged as the program does.
fn files_of(alloc: Global, texts: Texts<'_>) -> Result<LoopFiles, Fail>
    ensures { IfOk result IsPlayable }
{
    let files = LoopFiles {
        script: Seq::from_slice(alloc, texts.0)?,
        calls: Seq::from_slice(alloc, texts.1)?,
        named: Seq::new(Vec::new(alloc)),
    };
    let script = read_script(alloc, files.script.as_slice())?;
    let calls = read_calls(alloc, files.calls.as_slice())?;
    script.check(alloc)?;
    match calls.next_file() {
        Some(_) => Err(Fail::new("a file is named")),
        None => Ok(files),
    }
}

// What is answered and printed where a loop is broken everywhere and the sink fails at this call, or at none where that is 0.
fn broken(
    alloc: Global,
    texts: Texts<'_>,
    cut: u32,
    fails_at: u64,
) -> Result<(Result<Option<Place>, ToolFault>, Paper), Fail> {
    let files = files_of(alloc, texts)?;
    let mut sink = sheet(alloc, fails_at);
    let answer = break_everywhere(alloc, &files, cut, &mut sink);
    Ok((answer, sink))
}

// Puts the lines of a way's places up to the last one, after those that are there, with how many groups are settled, in doubt and logged.
fn put_lines(
    text: &mut String,
    way: &str,
    places: (usize, usize),
    counts: (u8, u8, u8),
) -> Result<(), Fail> {
    let (settled, doubt, logged) = counts;
    for bytes in places.0..=places.1 {
        write!(
            text,
            "break{way}\t{bytes}\tsettled\t{settled}\tdoubt\t{doubt}\tlogged\t{logged}\n"
        )?;
    }
    Ok(())
}

const QUERY: Texts<'static> = (
    b"answer\tI\ncommand\tOK\n",
    b"user\tu\nstart\nflow\nquery\tQ\nflow\n",
);

// The lines of a query. A startup packet of 16 bytes and a query of 7 go to the backend, a welcome of 15 and an answer of 14 to the client.
// Once the startup packet has come the client is let in and asks, and once the query has come it is answered.
fn lines_of_a_query(alloc: Global) -> Result<String, Fail> {
    let mut text = String::new(alloc);
    put_lines(&mut text, "back", (1, 15), (0, 0, 0))?;
    put_lines(&mut text, "back", (16, 22), (0, 1, 0))?;
    put_lines(&mut text, "back", (23, 23), (1, 0, 1))?;
    put_lines(&mut text, "client", (1, 14), (0, 0, 0))?;
    put_lines(&mut text, "client", (15, 28), (0, 1, 1))?;
    put_lines(&mut text, "client", (29, 29), (1, 0, 1))?;
    text.push_str("places\t52\n")?;
    Ok(text)
}

#[test]
fn a_failed_sink(rt: HostRuntime) -> Result<(), Fail> {
    let lines = lines_of_a_query(rt.alloc())?;
    for call in 1..=9 {
        let (answer, paper) = broken(rt.alloc(), QUERY, 4_096, call)?;
        assert!(rt; answer == Err(ToolFault::Device));
        assert!(rt; paper.took(7 * (call as usize - 1), lines.as_bytes()));
    }
    Ok(())
}

fn query(alloc: Global, text: &[u8]) -> Result<Request, AllocError> {
    Ok(Request::Query(Seq::from_slice(alloc, text)?))
}

fn outcome(alloc: Global, status: Status) -> Outcome {
    Outcome {
        parts: Seq::new(Vec::new(alloc)),
        error: None,
        status,
        asides: Seq::new(Vec::new(alloc)),
    }
}

fn group(alloc: Global, text: &[u8], status: Status) -> Result<Settled, AllocError> {
    Ok(Settled {
        request: query(alloc, text)?,
        outcome: outcome(alloc, status),
    })
}

fn logged(alloc: Global, text: &[u8], status: Status) -> Result<Logged, AllocError> {
    Ok(Logged {
        request: query(alloc, text)?,
        outcome: outcome(alloc, status),
        loaded: Seq::new(Vec::new(alloc)),
    })
}

// Settled groups that are no beginning of what was answered are seen not to be: with another request, another outcome, in another order, or
// one too many.
#[test]
fn what_was_not_answered_is_seen(rt: HostRuntime) -> Result<(), Fail> {
    let alloc = rt.alloc();
    let log = [
        logged(alloc, b"A", Status::Idle)?,
        logged(alloc, b"B", Status::Idle)?,
    ];
    let (a, b) = (
        group(alloc, b"A", Status::Idle)?,
        group(alloc, b"B", Status::Idle)?,
    );
    assert!(rt; begins_log(&[], &log));
    assert!(rt; !begins_log(&[group(alloc, b"B", Status::Idle)?], &log));
    assert!(rt; !begins_log(&[group(alloc, b"A", Status::Failed)?], &log));
    let groups = [a, b];
    assert!(rt; begins_log(&groups, &log));
    let (first, second) = log.split_at(1);
    assert!(rt; !begins_log(&groups, first));
    assert!(rt; !begins_log(&groups, second));
    Ok(())
}

fn seen(way: Way, bytes: usize, begins: bool) -> Broken {
    Broken {
        place: Place { way, bytes },
        settled: 1,
        doubt: 0,
        logged: 1,
        begins,
    }
}

#[test]
fn the_first_unseen_place_is_named(rt: HostRuntime) {
    let (well, first, later) = (
        seen(Way::ToBackend, 9, true),
        seen(Way::ToClient, 1, false),
        seen(Way::ToClient, 2, false),
    );
    assert!(rt; first_unseen(&[well, first, later]) == Some(first.place));
    assert!(rt; first_unseen(&[well, well]) == None);
}
