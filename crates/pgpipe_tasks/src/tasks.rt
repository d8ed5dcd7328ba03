//! The task that the words of a command line ask for.

ghost use Rattle.std.specs.Prelude.{◌≡◌, option_copied, IfOk};
ghost use Rattle.clap.specs.Words.{first_value, found_of, rows_of, subcommand_rows_of};
ghost use Rattle.pgpipe_tasks.specs.Tasks.{IsTask, IsAskedFor, IsShowOf, IsConversionOf, IsLoopOf};
ghost use Rattle.pgpipe_tasks.specs.Tasks.{IsServingOf, format_named, input_file, is_over_tcp};

use crate::input_file::{file_of, lent};
use crate::showing::{Showing, showing_of};
use clap::ArgMatches;
use pgpipe_convert::Format;
use pgpipe_show::Form;
use std::alloc::{AllocError, Global};

/// A conversion of a COPY file.
#[derive(Drop)]
pub struct Conversion {
    /// The format that is read.
    pub from: Format,
    /// The format that is written.
    pub to: Format,
    /// How many fields a row has, 1 to 32,767.
    pub columns: u16,
    /// The delimiter of each text side. It may be none.
    pub delimiter: String,
    /// The null mark of each text side. It may be none.
    pub null_mark: String,
    /// The path of the file that is read; without one it is on standard input.
    pub file: Option<String>,
}

/// A loop of two files.
#[derive(Drop)]
pub struct LoopTask {
    /// Whether it is carried over TCP; else it is carried directly.
    pub tcp: bool,
    /// Whether it is broken after each byte of each way. Over TCP, or with a trace, it can't be.
    pub breaks: bool,
    /// Whether a trace of it is printed.
    pub trace: bool,
    /// Whether each line of the two files that begins with `#` is taken as empty.
    pub comments: bool,
    /// How many bytes a flow delivers at a time, 1 to 4,096.
    pub cut: u32,
    /// The path of the backend's script.
    pub script: String,
    /// The path of the calls.
    pub calls: String,
}

/// Clients to be served from a script.
#[derive(Drop)]
pub struct ServeTask {
    /// The port of 127.0.0.1 to listen at; 0 is any free one.
    pub port: u16,
    /// How many connections are served; without a number there is no end.
    pub connections: Option<u32>,
    /// The path of the backend's script.
    pub script: String,
}

/// What the program is asked to do.
#[derive(Drop)]
pub enum Task {
    /// Show a stream.
    Show(Showing),
    /// Convert a COPY file.
    Convert(Conversion),
    /// Run a loop, or break it after each byte.
    Loop(LoopTask),
    /// Serve clients.
    Serve(ServeTask),
}

impl Task {
    /// Whether it is a loop that is carried over TCP. One that is broken everywhere isn't.
    pub fn is_over_tcp(&self) -> bool
        ensures { result ≡ is_over_tcp self.now }
    {
        match self {
            Task::Loop(task) => task.tcp && !task.breaks,
            _ => false,
        }
    }

    /// The path of the file that is read in the place of standard input, if the task names one.
    pub fn input_file(&self) -> Option<&str>
        ensures { option_copied result ≡ input_file self.now }
    {
        match self {
            Task::Show(showing) => lent(&showing.file),
            Task::Convert(conversion) => lent(&conversion.file),
            _ => None,
        }
    }
}

/// The names of the formats.
pub const FORMATS: [&str; 2] = ["text", "binary"];

// The format that an argument names.
fn format_of(matches: &ArgMatches<'_>, name: &str) -> Format
    ensures { result ≡ format_named (first_value (found_of matches.now) name.now) }
{
    match matches.get_str(name) {
        Some("binary") => Format::Binary,
        _ => Format::Text,
    }
}

// The stream to be shown that the words ask for.
fn show_of(alloc: Global, matches: &ArgMatches<'_>) -> Result<Task, AllocError>
    ensures task { IfOk result IsTask }
    ensures named { IfOk result (IsShowOf (rows_of (found_of matches.now))) }
{
    Ok(Task::Show(showing_of(alloc, matches)?))
}

// The conversion that the words ask for.
fn conversion_of(alloc: Global, matches: &ArgMatches<'_>) -> Result<Task, AllocError>
    ensures task { IfOk result IsTask }
    ensures named { IfOk result (IsConversionOf (rows_of (found_of matches.now))) }
{
    let columns = matches.get_one::<u16>("columns").unwrap_or(1);
    Ok(Task::Convert(Conversion {
        from: format_of(matches, "from"),
        to: format_of(matches, "to"),
        // the parser took no number but these
        columns: columns.clamp(1, 32_767),
        delimiter: String::from_str(alloc, matches.get_str("delimiter").unwrap_or("\t"))?,
        null_mark: String::from_str(alloc, matches.get_str("null").unwrap_or("\\N"))?,
        file: file_of(alloc, matches)?,
    }))
}

// The loop that the words ask for.
fn loop_of(alloc: Global, matches: &ArgMatches<'_>) -> Result<Task, AllocError>
    ensures task { IfOk result IsTask }
    ensures named { IfOk result (IsLoopOf (rows_of (found_of matches.now))) }
{
    let cut = matches.get_one::<u32>("cut").unwrap_or(4_096);
    Ok(Task::Loop(LoopTask {
        tcp: matches.get_flag("tcp"),
        breaks: matches.get_flag("break-everywhere"),
        trace: matches.get_flag("trace"),
        comments: matches.get_flag("comments"),
        // the parser took no number but these, and both paths are there
        cut: cut.clamp(1, 4_096),
        script: String::from_str(alloc, matches.get_str("SCRIPT").unwrap_or(""))?,
        calls: String::from_str(alloc, matches.get_str("CALLS").unwrap_or(""))?,
    }))
}

// The serving that the words ask for.
fn serving_of(alloc: Global, matches: &ArgMatches<'_>) -> Result<Task, AllocError>
    ensures task { IfOk result IsTask }
    ensures named { IfOk result (IsServingOf (rows_of (found_of matches.now))) }
{
    let port = matches.get_one::<u16>("port").unwrap_or(0);
    let connections = matches.get_one::<u32>("connections");
    Ok(Task::Serve(ServeTask {
        port,
        connections,
        // the path is there
        script: String::from_str(alloc, matches.get_str("SCRIPT").unwrap_or(""))?,
    }))
}

/// The task that the matches name; no words mean `show`.
pub fn named_task(alloc: Global, matches: &ArgMatches<'_>) -> Result<Task, AllocError>
    ensures task { IfOk result IsTask }
    ensures asked_for { IfOk result (IsAskedFor (subcommand_rows_of matches.now)) }
{
    match matches.subcommand() {
        Some(("convert", convert)) => conversion_of(alloc, convert),
        Some(("loop", words)) => loop_of(alloc, words),
        Some(("serve", words)) => serving_of(alloc, words),
        Some((_, show)) => show_of(alloc, show),
        None => Ok(Task::Show(Showing {
            front: false,
            form: Form::Messages,
            summary: false,
            file: None,
            front_file: None,
            back_file: None,
        })),
    }
}
