//! What is printed of which message.

use crate::lines::{put_names, put_row};
use pg_wire::{BackMessage, LentValues};
use std::alloc::AllocError;
use std::io::Write;

// What has come of the command that isn't complete.
#[derive(Clone, Copy, Debug, PartialEq, Eq)]
enum Part {
    Nothing,
    // So many rows.
    Rows(u64),
    // The data of a copy.
    Copy,
}

/// What was printed of the results of queries, in the form of `psql -A`, so that it is known what comes next.
#[derive(Clone, Copy, Debug)]
pub struct Results {
    part: Part,
    // whether rows are only counted
    counts: bool,
}

impl Results {
    /// Nothing was printed yet. With `counts` only the number of rows is printed of each result.
    pub fn new(counts: bool) -> Results {
        Results {
            part: Part::Nothing,
            counts,
        }
    }

    /// Appends what is printed of a message. Some have no text: that a copy begins or ends, what a parameter is, and errors and notices, of
    /// which [`put_error`](crate::put_error) makes a line.
    pub fn put(&mut self, message: &BackMessage, text: &mut Vec<u8>) -> Result<(), AllocError> {
        match message {
            BackMessage::RowDescription(columns) => {
                self.part = Part::Rows(0);
                if !self.counts {
                    put_names(columns.as_slice(), text)?;
                }
            }
            BackMessage::DataRow(row) => self.put_row(row.iter(), text)?,
            BackMessage::CommandComplete(tag) => self.complete(tag.as_slice(), text)?,
            BackMessage::CopyOut(_) => self.part = Part::Copy,
            BackMessage::CopyData(chunk) => text.extend_from_slice(chunk.as_slice())?,
            // an error ends the command
            BackMessage::ErrorResponse(_) => self.part = Part::Nothing,
            BackMessage::Notification {
                process,
                channel,
                payload,
            } => put_notification(*process, channel.as_slice(), payload.as_slice(), text)?,
            _ => {}
        }
        Ok(())
    }

    /// Appends the line of a row, or counts it.
    pub fn put_row(&mut self, row: LentValues<'_>, text: &mut Vec<u8>) -> Result<(), AllocError> {
        if let Part::Rows(count) = self.part {
            self.part = Part::Rows(count.saturating_add(1));
        }
        if self.counts {
            return Ok(());
        }
        put_row(row, text)
    }

    // Ends a result of rows, or tells what a command has done.
    fn complete(&mut self, tag: &[u8], text: &mut Vec<u8>) -> Result<(), AllocError> {
        let shows_tag = match self.part {
            Part::Nothing => true,
            Part::Copy => false,
            Part::Rows(count) => {
                self.put_count(count, text)?;
                is_tag_shown(tag)
            }
        };
        self.part = Part::Nothing;
        if shows_tag && !self.counts {
            text.extend_from_slice(tag)?;
            text.push(b'\n')?;
        }
        Ok(())
    }

    // Tells how many rows there were.
    fn put_count(&self, count: u64, text: &mut Vec<u8>) -> Result<(), AllocError> {
        let line = match count {
            _ if self.counts => writeln!(text, "{count}"),
            1 => writeln!(text, "(1 row)"),
            _ => writeln!(text, "({count} rows)"),
        };
        line.map_err(|_| AllocError)
    }
}

// Whether a result with this tag shows it after its rows: those of a command that changes a table.
fn is_tag_shown(tag: &[u8]) -> bool {
    tag.starts_with(b"INSERT") || tag.starts_with(b"UPDATE") || tag.starts_with(b"DELETE")
}

// Appends the line of a notification.
fn put_notification(
    process: i32,
    channel: &[u8],
    payload: &[u8],
    text: &mut Vec<u8>,
) -> Result<(), AllocError> {
    text.extend_from_slice(b"Asynchronous notification \"")?;
    text.extend_from_slice(channel)?;
    text.push(b'"')?;
    if !payload.is_empty() {
        text.extend_from_slice(b" with payload \"")?;
        text.extend_from_slice(payload)?;
        text.push(b'"')?;
    }
    writeln!(text, " received from server process with PID {process}.").map_err(|_| AllocError)
}
