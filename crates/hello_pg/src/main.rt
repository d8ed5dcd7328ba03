//! A driver that a reader copies from. It asks a PostgreSQL server queries over TCP, and prints what comes as it comes, in the form
//! of `psql -A`.
//!
//! `ask_all` and `print_answer` below are the driver. `opening` opens what it needs, `words` reads the command line, `printing` prints what
//! comes, and `failure` says how the program ends. `put_chunk` of `example_base` gives the server the data of a copy.
#![tactic(auto)]

mod failure;
mod opening;
mod printing;
mod words;

use crate::failure::Failure;
use crate::printing::Printer;
use example_base::put_chunk;
use pg_drive::{Event, Session};
use pg_wire::{Over, Patient, Sink, Source, send_all};
use standard_streams::all_open;
use std::process::ExitCode;

fn main(rt: HostRuntime) -> ExitCode {
    // before anything is opened, which would take the place of a stream that is closed
    let streams = all_open(&rt.stdin(), &rt.stdout(), &rt.stderr());
    match opening::run(&rt, streams, Over::new(Patient::new(rt.stderr()))) {
        Ok(()) => ExitCode::SUCCESS,
        Err(failure) => {
            // where this can't be made or written, the status still says it
            let mut text = Vec::new(rt.alloc());
            if failure.put(&mut text).is_ok() {
                let _ = send_all(text.as_slice(), &mut Over::new(Patient::new(rt.stderr())));
            }
            ExitCode::from(failure.status())
        }
    }
}

// Asks each query in its turn.
pub(crate) fn ask_all<L: Source + Sink, I: Source, O: Sink, E: Sink>(
    session: &mut Session<L>,
    queries: &[&str],
    input: &mut I,
    printer: &mut Printer<O, E>,
) -> Result<(), Failure> {
    session.start().map_err(Failure::of_start)?;
    for query in queries {
        session.query(query)?;
        print_answer(session, input, printer)?;
    }
    // the server learns of it, unless the link fails, of which it learns too
    let _ = session.end();
    if printer.has_failed {
        return Err(Failure::Refused);
    }
    Ok(())
}

// Prints the answer to a query as it comes. What was printed is seen before more is waited for.
fn print_answer<L: Source + Sink, I: Source, O: Sink, E: Sink>(
    session: &mut Session<L>,
    input: &mut I,
    printer: &mut Printer<O, E>,
) -> Result<(), Failure> {
    let mut is_settled = false;
    for _ in 0..u64::MAX {
        let event = match session.try_next_lent()? {
            Some(event) => event,
            None if is_settled => break,
            None => {
                printer.flush()?;
                session.next_lent()?
            }
        };
        match event {
            Event::Row => {
                if let Some(row) = session.held() {
                    printer.print_row(row.values())?;
                }
            }
            Event::Message(message) => printer.print(&message)?,
            Event::CopyIn => {
                printer.flush()?;
                put_chunk(session, input)?;
            }
            Event::Settled { .. } => is_settled = true,
        }
    }
    printer.flush()
}
