//! `example_session copy 'COPY t FROM STDIN' < rows`: copies in and out. The data of `COPY .. FROM STDIN` is the input, and that of
//! `COPY .. TO STDOUT` goes to the output.

ghost use Rattle.pg_wire.specs.Direction.{IsLimit};

use anyhow::bail;
use example_base::{Server, put_chunk};
use pg_drive::{Event, Session};
use pg_wire::{BackMessage, Fields, Over, Patient, Sink, Source, send_all};
use std::net::TcpStream;
use std::{io, str};

// What an error says, if it is UTF-8.
fn message_of(fields: &Fields) -> &str {
    str::from_utf8(fields.message().unwrap_or(b"an error")).unwrap_or("an error")
}

// Data goes to the output, and an error ends the program.
fn take<O: Sink>(message: &BackMessage, output: &mut O) -> anyhow::Result<()> {
    match message {
        BackMessage::CopyData(chunk) => send_all(chunk.as_slice(), output)?,
        BackMessage::ErrorResponse(fields) => bail!("{}", message_of(fields)),
        _ => {}
    }
    Ok(())
}

// Starts the session, makes the query, moves the data, and ends the session.
fn copy<L: Source + Sink, I: Source, O: Sink>(
    session: &mut Session<L>,
    query: &str,
    input: &mut I,
    output: &mut O,
) -> anyhow::Result<()> {
    session.start()?;
    session.query(query)?;
    for _ in 0..u64::MAX {
        match session.next()? {
            Event::CopyIn => put_chunk(session, input)?,
            Event::Message(message) => take(&message, output)?,
            Event::Settled { .. } => break,
            Event::Row => {} // comes of `next_lent` alone
        }
    }
    session.end()?;
    Ok(())
}

/// Connects to the server, asks the query, and moves the data: from standard input or to standard output.
pub fn run(rt: &HostRuntime, server: Server, query: &str) -> anyhow::Result<()>
    requires { IsLimit server.settings.limit }
{
    let link = Over::new(Patient::new(TcpStream::connect(rt, server.address)?));
    let mut session = Session::new(rt.alloc(), server.settings, link);
    let mut input = Over::new(Patient::new(rt.reader()));
    let mut output = Over::new(Patient::new(io::writer(rt)));
    copy(&mut session, query, &mut input, &mut output)
}
