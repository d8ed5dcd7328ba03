//! What is to be shown, by the words of a command line.

ghost use Rattle.std.specs.Prelude.{◌≡◌, option_copied, option_map, IfOk, string_bytes};
ghost use Rattle.clap.specs.Words.{found_of, rows_of};
ghost use Rattle.pgpipe_tasks.specs.Tasks.{HasShowing, form_of, is_of_both, names_both};
ghost use Rattle.pgpipe_tasks.specs.Tasks.{names_sides};

use crate::input_file::{file_of, lent, path_of};
use clap::ArgMatches;
use pgpipe_show::{Form, Line};
use std::alloc::{AllocError, Global};

/// A stream to be shown.
#[derive(Drop)]
pub struct Showing {
    /// Whether it is what a client sent; else it is what a server sent.
    pub front: bool,
    /// How it is shown.
    pub form: Form,
    /// Whether it is summed up in a table instead.
    pub summary: bool,
    /// The path of the file that has it; without one it is on standard input.
    pub file: Option<String>,
    /// The path of the file that has the client's side, where both sides are to be printed together.
    pub front_file: Option<String>,
    /// The path of the file that has the server's side then.
    pub back_file: Option<String>,
}

// Whether both sides of a connection can be shown in this form.
fn is_of_both(form: Form) -> bool
    ensures { result ≡ is_of_both form }
{
    match form {
        Form::Messages | Form::Frames(Line::Decoded) => true,
        Form::Frames(Line::Hexadecimal | Line::Json) => false,
    }
}

impl Showing {
    /// Whether both sides of a connection, from a file each, or one of them are asked for.
    pub fn names_sides(&self) -> bool
        ensures { result ≡ names_sides self.now }
    {
        self.front_file.is_some() || self.back_file.is_some()
    }

    /// Whether both are, and nothing that can't go with them: `--front`, `--frames` without `--decode`, `--json`, `--summary`, or a file of
    /// one stream.
    pub fn names_both(&self) -> bool
        ensures { result ≡ names_both self.now }
    {
        let together = self.front_file.is_some() && self.back_file.is_some();
        together && !self.front && is_of_both(self.form) && !self.summary && !self.file.is_some()
    }

    /// The path of the file that has the client's side.
    pub fn front_path(&self) -> Option<&str>
        ensures { option_copied result ≡ option_map string_bytes self.now.front_file }
    {
        lent(&self.front_file)
    }

    /// The path of the file that has the server's side.
    pub fn back_path(&self) -> Option<&str>
        ensures { option_copied result ≡ option_map string_bytes self.now.back_file }
    {
        lent(&self.back_file)
    }
}

// How a stream is shown, by the flags: `--json` goes before `--decode`, and that before `--frames`.
fn form_of(json: bool, decode: bool, frames: bool) -> Form
    ensures { result ≡ form_of json decode frames }
{
    if json {
        Form::Frames(Line::Json)
    } else if decode {
        Form::Frames(Line::Decoded)
    } else if frames {
        Form::Frames(Line::Hexadecimal)
    } else {
        Form::Messages
    }
}

/// What is to be shown.
pub fn showing_of(alloc: Global, matches: &ArgMatches<'_>) -> Result<Showing, AllocError>
    ensures { IfOk result (HasShowing (rows_of (found_of matches.now))) }
{
    let json = matches.get_flag("json");
    let decode = matches.get_flag("decode");
    let frames = matches.get_flag("frames");
    Ok(Showing {
        front: matches.get_flag("front"),
        form: form_of(json, decode, frames),
        summary: matches.get_flag("summary"),
        file: file_of(alloc, matches)?,
        front_file: path_of(alloc, matches, "front-file")?,
        back_file: path_of(alloc, matches, "back-file")?,
    })
}
