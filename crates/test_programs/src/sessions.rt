//! Replays sessions that were recorded, line by line of the input, and writes what psql printed in them, or what the server answered.
//! The server's bytes are fed whole, then a byte at a time, then cut at each place, and have to settle the same. So they have where the
//! client is driven over links that give and take 1, 2, 3 .. bytes at a time. The client has to send what was recorded, and an early
//! client beside it has to come to the same.

mod early;
mod entry;
mod link;
mod print;
mod replay;
mod words;

use anyhow::{Context, Result, bail};
use entry::Entry;
use print::print;
use replay::{SessionEnd, StreamCut, replay};
use std::alloc::Global;
use std::io::{self, BufRead, BufWriter, Write};
use words::{write_ending, write_words};

/// What was recorded of one connection.
#[derive(Drop)]
struct RecordedSession {
    // The program that the client was.
    name: String,
    entries: Vec<Entry>,
}

// Takes an entry, which belongs to the last of the sessions.
fn take_entry(entry: Entry, sessions: &mut Vec<RecordedSession>) -> Result<()> {
    match sessions.last_mut() {
        Some(session) => session.entries.push(entry)?,
        None => bail!("an entry stands in a session"),
    }
    Ok(())
}

// Takes a line: a session begins with it, or it is an entry.
fn take_line(alloc: Global, line: &str, sessions: &mut Vec<RecordedSession>) -> Result<()> {
    let Some(name) = line.strip_prefix("session ") else {
        let entry = Entry::of_line(alloc, line).context(format_args!("in {line:?}"))?;
        return take_entry(entry, sessions);
    };
    sessions.push(RecordedSession {
        name: String::from_str(alloc, name)?,
        entries: Vec::new(alloc),
    })?;
    Ok(())
}

fn read_sessions(alloc: Global, input: impl BufRead + Drop) -> Result<Vec<RecordedSession>> {
    let mut sessions: Vec<RecordedSession> = Vec::new(alloc);
    for line in input.lines(alloc) {
        let line = line?;
        take_line(alloc, line.as_str(), &mut sessions)?;
    }
    Ok(sessions)
}

// The links that a session is made again over give and take up to so many bytes.
const LINKS: usize = 32;

// Whether the session, cut so, ends so too.
fn ends_so(alloc: Global, entries: &[Entry], cut: StreamCut, ending: &SessionEnd) -> Result<bool> {
    let again = replay(alloc, entries, cut)?;
    Ok(again == *ending)
}

// Replays the session a byte at a time and cut at each place, which has to end so.
fn check_cuts(alloc: Global, entries: &[Entry], ending: &SessionEnd) -> Result<()> {
    if !ends_so(alloc, entries, StreamCut::Everywhere, ending)? {
        bail!("a byte at a time settles something else");
    }
    let longest = entries.iter().map(Entry::server_bytes).max().unwrap_or(0);
    for place in 0..longest {
        if !ends_so(alloc, entries, StreamCut::At(place), ending)? {
            bail!("cut at {place} it settles something else");
        }
    }
    Ok(())
}

// Replays the session over links, which has to end so.
fn check_links(alloc: Global, entries: &[Entry], ending: &SessionEnd) -> Result<()> {
    for most in 1..LINKS + 1 {
        if !ends_so(alloc, entries, StreamCut::Link(most), ending)? {
            bail!("over a link of {most} bytes it settles something else");
        }
    }
    Ok(())
}

// Replays the session in all ways, which have to end the same.
fn replay_cut(alloc: Global, entries: &[Entry]) -> Result<SessionEnd> {
    let ending = replay(alloc, entries, StreamCut::Nowhere)?;
    check_cuts(alloc, entries, &ending)?;
    check_links(alloc, entries, &ending)?;
    Ok(ending)
}

// Writes how a session ended: what psql printed in it, or what the server answered.
fn write_session(name: &str, ending: &SessionEnd, out: &mut impl Write) -> io::Result<()> {
    writeln!(out, "session {name}")?;
    if name == "psql" {
        for group in &ending.settled {
            print(group, out)?;
        }
        return Ok(());
    }
    for group in &ending.settled {
        write_words(group, out)?;
    }
    write_ending(ending, out)
}

// Replays a session, and writes how it ended.
fn show_session(alloc: Global, session: &RecordedSession, out: &mut impl Write) -> Result<()> {
    let name = session.name.as_str();
    let replayed = replay_cut(alloc, session.entries.as_slice());
    let ending = replayed.context(format_args!("in {name}"))?;
    write_session(name, &ending, out)?;
    Ok(())
}

// Replays these sessions, and writes how each ended.
fn show_sessions(alloc: Global, sessions: &[RecordedSession], out: &mut impl Write) -> Result<()> {
    for session in sessions {
        show_session(alloc, session, out)?;
    }
    out.flush()?;
    Ok(())
}

/// Replays the sessions of an input.
pub fn run(rt: &HostRuntime, input: impl BufRead + Drop) -> Result<()> {
    let alloc = rt.alloc();
    let sessions = read_sessions(alloc, input)?;
    let mut out = BufWriter::new(alloc, io::writer(rt))?;
    show_sessions(alloc, sessions.as_slice(), &mut out)
}
