//! `example_session rows 'SELECT generate_series(1, 3)'`: asks a server a query, and prints each row as it comes.
//!
//! A row is lent by the `Session` and none is kept, so any number of them passes in the same memory.

ghost use Rattle.pg_wire.specs.Direction.{IsLimit};

use example_base::{Server, put_error, put_row};
use pg_drive::{Event, Session};
use pg_wire::{BackMessage, Over, Patient, Sink, Source, send_all};
use std::alloc::Global;
use std::io;
use std::net::TcpStream;

// Puts the line of an error. No other message is printed.
fn put_message(message: &BackMessage, line: &mut Vec<u8>) -> anyhow::Result<()> {
    if let BackMessage::ErrorResponse(fields) = message {
        put_error(fields, line)?;
    }
    Ok(())
}

// Starts the session, makes the query, prints what comes, and ends the session.
fn ask<L: Source + Sink, O: Sink>(
    alloc: Global,
    session: &mut Session<L>,
    query: &str,
    output: &mut O,
) -> anyhow::Result<()> {
    session.start()?;
    session.query(query)?;
    let mut line = Vec::new(alloc);
    for _ in 0..u64::MAX {
        match session.next_lent()? {
            Event::Row => {
                if let Some(row) = session.held() {
                    put_row(row.values(), &mut line)?;
                }
            }
            Event::Message(message) => put_message(&message, &mut line)?,
            // there is none: the query fails, and an error says so
            Event::CopyIn => session.copy_fail(b"there is no data")?,
            Event::Settled { .. } => break,
        }
        send_all(line.as_slice(), output)?;
        line.clear();
    }
    session.end()?;
    Ok(())
}

/// Connects to the server, asks the query, and prints the rows.
pub fn run(rt: &HostRuntime, server: Server, query: &str) -> anyhow::Result<()>
    requires { IsLimit server.settings.limit }
{
    let link = Over::new(Patient::new(TcpStream::connect(rt, server.address)?));
    let mut session = Session::new(rt.alloc(), server.settings, link);
    let mut output = Over::new(Patient::new(io::writer(rt)));
    ask(rt.alloc(), &mut session, query, &mut output)
}
