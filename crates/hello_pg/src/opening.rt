//! What is opened, in which order: the output, the input, and the connection to the server.

use crate::failure::Failure;
use crate::printing::Printer;
use crate::words::{HELP, Words};
use example_base::{Given, Server};
use pg_drive::Session;
use pg_wire::{Over, Patient, Sink};
use standard_streams::ClosedStream;
use std::fs::File;
use std::io::{Read, Write};
use std::net::{Net, OpenStream, TcpStream};
use std::rt::{Env, Files};
use std::{env, io};

/// Does what the words ask for, where the standard streams are open. Results go to standard output or a file.
pub fn run<R: Env + Files + Net + Input + Print + AllocGlobal, E: Sink + Drop>(
    rt: &R,
    streams: Result<(), ClosedStream>,
    errors: E,
) -> Result<(), Failure> {
    let words: Vec<String> = env::args(rt)
        .map_err(Failure::of_words)?
        .collect(rt.alloc())?;
    let words = Words::of(rt.alloc(), words.as_slice())?;
    if words.help {
        return println!(rt; "{HELP}").map_err(|_| Failure::Output);
    }
    streams?;
    match words.output {
        Some(path) => with_output(rt, &words, File::create(rt, path)?, errors),
        None => with_output(rt, &words, io::writer(rt), errors),
    }
}

// Does it with the output open. The data of copies comes from standard input or a file.
fn with_output<R: Env + Files + Net + Input + AllocGlobal, W: Write + Drop, E: Sink + Drop>(
    rt: &R,
    words: &Words<'_>,
    output: W,
    errors: E,
) -> Result<(), Failure> {
    let output = Over::new(Patient::new(output));
    let mut printer = Printer::new(rt.alloc(), words.count, output, errors);
    match words.input {
        Some(path) => connect(rt, words, File::open(rt, path)?, &mut printer),
        None => connect(rt, words, rt.reader(), &mut printer),
    }
}

// Connects to the server, and asks it over that link. Small pieces are sent at once, and what is interrupted is tried again.
fn connect<R: Env + Net + Input + AllocGlobal, I: Read + Drop, O: Sink, E: Sink>(
    rt: &R,
    words: &Words<'_>,
    input: I,
    printer: &mut Printer<O, E>,
) -> Result<(), Failure> {
    let mut line = String::new(rt.alloc());
    if words.asks_password {
        rt.read_line(&mut line)?;
    }
    let given = Given {
        password: Some(line.trim_end_matches('\n')).filter(|password| !password.is_empty()),
        ..words.given
    };
    let Server { address, settings } = Server::of(rt, &given)?;
    let stream = TcpStream::connect(rt, address).map_err(Failure::Unreachable)?;
    stream.set_nodelay(true).map_err(Failure::Unreachable)?;
    let mut session = Session::new(rt.alloc(), settings, Over::new(Patient::new(stream)));
    let mut input = Over::new(Patient::new(input));
    let ended = crate::ask_all(&mut session, words.queries.as_slice(), &mut input, printer);
    printer.flush()?;
    ended
}
