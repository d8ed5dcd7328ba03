//! What a second line on standard error says of a failure.

use pgpipe_explain::{Guess, LineReason, Rule};
use std::io;
use thiserror::Error;

/// Why the program ends with a status other than 0, in words for a person: where a fault stands, what was expected, and what the input looks
/// like. Messages, rows and lines are counted from 1, bytes from 0.
#[derive(Debug, Drop, Error)]
pub enum Reason {
    /// The file of this path can't be read.
    #[error("{path}: {error}")]
    File {
        /// The path.
        path: String,
        /// What the system said.
        error: io::Error,
    },
    /// The input failed: standard input, or the file that is read in its place.
    #[error("the input: {0}")]
    Input(io::Error),
    /// Standard output failed.
    #[error("standard output: {0}")]
    Output(io::Error),
    /// Standard output is closed, where a file or a connection would take its place.
    #[error("standard output is closed")]
    Closed,
    /// There is no connection of the process to itself, or it failed.
    #[error("the process has no connection to itself over 127.0.0.1, or it failed")]
    Carrier,
    /// There is no listening at the port.
    #[error("the port of 127.0.0.1 can't be listened at: {0}")]
    Port(io::Error),
    /// At the port no client can be awaited any more.
    #[error("no more clients can be awaited at the port")]
    Clients,
    /// The line of SCRIPT or CALLS that the first line names is rejected.
    #[error("{0}")]
    Line(LineReason),
    /// This was expected.
    #[error("{0}")]
    Rule(Rule),
    /// In a stream this was expected.
    #[error("message {number}, at byte {offset}: {rule}")]
    Message {
        /// The number of the message.
        number: u64,
        /// How many bytes stand before it.
        offset: u64,
        /// What was expected.
        rule: Rule,
    },
    /// In a stream this was expected, and it looks like something else.
    #[error("message {number}, at byte {offset}: {rule}; {guess}")]
    Guessed {
        /// The number of the message.
        number: u64,
        /// How many bytes stand before it.
        offset: u64,
        /// What was expected.
        rule: Rule,
        /// What the stream looks like.
        guess: Guess,
    },
    /// In a text file this was expected.
    #[error("row {number}, line {line}, at byte {offset}: {rule}")]
    TextRow {
        /// The number of the row.
        number: u64,
        /// The line that it begins in.
        line: u64,
        /// How many bytes stand before it.
        offset: u64,
        /// What was expected.
        rule: Rule,
    },
    /// In a binary file this was expected.
    #[error("row {number}, at byte {offset}: {rule}")]
    BinaryRow {
        /// The number of the row.
        number: u64,
        /// How many bytes stand before it.
        offset: u64,
        /// What was expected.
        rule: Rule,
    },
}
