//! What a command line asks for: a task, and what is printed about it.

ghost use Rattle.std.specs.Prelude.{◌≡◌, map, string_bytes};
ghost use Rattle.clap.specs.Words.{found_of, rows_of, subcommand_rows_of};
ghost use Rattle.pgpipe_tasks.specs.Tasks.{IsReadOf, IsTellingBy, IsTellingOf};

use crate::command_line::command_line;
use crate::tasks::{FORMATS, Task, named_task};
use clap::builder::ValueParser;
use clap::{ArgMatches, Error};
use std::alloc::Global;

/// What is printed on standard error beside a fault's own line.
#[derive(Clone, Copy)]
pub struct Telling {
    /// Whether a second line says where a fault stands, and what was expected.
    pub explain: bool,
    /// Whether lines say how far the work is.
    pub progress: bool,
}

/// What the program is to do.
#[derive(Drop)]
pub struct Asked {
    /// The task.
    pub task: Task,
    /// What is printed about it.
    pub telling: Telling,
}

// What the flags of a subcommand say.
fn telling_by(matches: &ArgMatches<'_>) -> Telling
    ensures { IsTellingBy (rows_of (found_of matches.now)) result }
{
    Telling {
        explain: matches.get_flag("explain"),
        progress: matches.get_flag("progress"),
    }
}

// What the matches say is to be printed.
fn telling_of(matches: &ArgMatches<'_>) -> Telling
    ensures { IsTellingOf (subcommand_rows_of matches.now) result }
{
    match matches.subcommand() {
        Some((_, words)) => telling_by(words),
        None => Telling {
            explain: false,
            progress: false,
        },
    }
}

/// What the words ask for; no words mean `show`. The error has clap's text: help, or why the words ask for nothing.
pub fn asked_of(alloc: Global, words: &[String]) -> Result<Asked, Error>
    ensures { IsReadOf (map string_bytes words.now) result }
{
    let command = command_line(alloc, ValueParser::from(FORMATS.as_slice()))?;
    let matches = command.try_get_matches_from(words)?;
    Ok(Asked {
        task: named_task(alloc, &matches)?,
        telling: telling_of(&matches),
    })
}
