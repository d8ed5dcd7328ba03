//! `example_session query 'SELECT 1'`: asks a server a query, waits for the whole answer, and prints it.
//!
//! A `GroupSession` collects the answer, which is simpler where answers are small.

ghost use Rattle.pg_wire.specs.Direction.{IsLimit};

use anyhow::bail;
use example_base::Server;
use pg_client::Settled;
use pg_drive::{GroupEvent, GroupSession};
use pg_wire::{Over, Part, Patient, Sink, Source};
use std::net::TcpStream;

// Starts the session, makes the query and ends the session. It returns what was answered.
fn ask<L: Source + Sink>(session: &mut GroupSession<L>, query: &str) -> anyhow::Result<Settled> {
    session.start()?;
    session.query(query)?;
    for _ in 0..u64::MAX {
        match session.next()? {
            GroupEvent::Settled(settled) => {
                session.end()?;
                return Ok(settled);
            }
            // there is none: the query fails, and its answer says so
            GroupEvent::CopyIn => session.copy_fail(b"there is no data")?,
        }
    }
    bail!("the answer has no end")
}

// Prints an answer: the rows of each result and its tag, the error if there is one, and the transaction status.
fn print<R: Print>(rt: &R, settled: &Settled) -> anyhow::Result<()> {
    for part in settled.outcome.parts.iter() {
        match part {
            Part::Rows { rows, tag, .. } => {
                for row in rows.iter() {
                    println!(rt; "{row:?}")?;
                }
                println!(rt; "{tag:?}")?;
            }
            other => println!(rt; "{other:?}")?,
        }
    }
    if let Some(fields) = &settled.outcome.error {
        println!(rt; "{fields:?}")?;
    }
    println!(rt; "{:?}", settled.outcome.status)?;
    Ok(())
}

// Asks, and prints what was answered.
fn ask_and_print<R: Print, L: Source + Sink>(
    rt: &R,
    session: &mut GroupSession<L>,
    query: &str,
) -> anyhow::Result<()> {
    let settled = ask(session, query)?;
    print(rt, &settled)
}

/// Connects to the server, asks the query, and prints what was answered.
pub fn run(rt: &HostRuntime, server: Server, query: &str) -> anyhow::Result<()>
    requires { IsLimit server.settings.limit }
{
    let link = Over::new(Patient::new(TcpStream::connect(rt, server.address)?));
    let mut session = GroupSession::new(rt.alloc(), server.settings, link);
    ask_and_print(rt, &mut session, query)
}
