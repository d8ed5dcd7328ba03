//! What a query gives, printed as it comes.

use crate::failure::Failure;
use example_base::{Results, put_error};
use pg_wire::{BackMessage, Fields, LentValues, Sink, send_all};
use std::alloc::Global;

// How many bytes are collected before they are written.
const ROOM: usize = 65_536;

/// Prints what comes: results on the output, errors and notices on another sink.
#[derive(Drop)]
pub struct Printer<O, E> {
    output: O,
    errors: E,
    results: Results,
    // what is collected for the output
    text: Vec<u8>,
    /// Whether an error has come.
    pub has_failed: bool,
}

impl<O: Sink, E: Sink> Printer<O, E> {
    /// A printer to these sinks; it may print only the number of rows.
    pub fn new(alloc: Global, counts: bool, output: O, errors: E) -> Printer<O, E> {
        Printer {
            output,
            errors,
            results: Results::new(counts),
            text: Vec::new(alloc),
            has_failed: false,
        }
    }

    /// Prints a message.
    pub fn print(&mut self, message: &BackMessage) -> Result<(), Failure> {
        self.results.put(message, &mut self.text)?;
        match message {
            BackMessage::ErrorResponse(fields) => {
                self.has_failed = true;
                self.tell(fields)
            }
            BackMessage::NoticeResponse(fields) => self.tell(fields),
            _ => self.flush_much(),
        }
    }

    /// Prints a row.
    pub fn print_row(&mut self, row: LentValues<'_>) -> Result<(), Failure> {
        self.results.put_row(row, &mut self.text)?;
        self.flush_much()
    }

    // Writes what is collected where it is much.
    fn flush_much(&mut self) -> Result<(), Failure> {
        if self.text.len() < ROOM {
            return Ok(());
        }
        self.flush()
    }

    /// Writes what is collected.
    pub fn flush(&mut self) -> Result<(), Failure> {
        send_all(self.text.as_slice(), &mut self.output).map_err(|_| Failure::Output)?;
        self.text.clear();
        Ok(())
    }

    // Prints an error or a notice, after all that came before it.
    fn tell(&mut self, fields: &Fields) -> Result<(), Failure> {
        self.flush()?;
        put_error(fields, &mut self.text)?;
        // where it can't be written, the status still says it
        let _ = send_all(self.text.as_slice(), &mut self.errors);
        self.text.clear();
        Ok(())
    }
}
