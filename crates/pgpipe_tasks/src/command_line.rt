//! The command line, as it is built.

ghost use Rattle.std.specs.Prelude.{◌≡◌, IfOk, [], codes};
ghost use Rattle.clap.specs.Words.{Rule, Shape, app_of, new_app, new_rule, with_rule};
ghost use Rattle.pgpipe_tasks.specs.CommandLine.{flag, show, columns, cut, convert, explain, file};
ghost use Rattle.pgpipe_tasks.specs.CommandLine.{loop, command_line, program, progress};
ghost use Rattle.pgpipe_tasks.specs.CommandLine.{text_option, option, required, without_serve};
ghost use Rattle.pgpipe_tasks.specs.Private.CommandLine.{IsArg, IsCommand, IsProgram};

use crate::help;
use clap::builder::ValueParser;
use clap::{Arg, ArgAction, Command, value_parser};
use serve::serve_command;
use std::alloc::{AllocError, Global};

mod serve;

// A flag.
fn flag_arg<'a>(alloc: Global, name: &'a str, help: &'a str) -> Arg<'a>
    ensures { IsArg (flag name.now) result }
{
    Arg::new(alloc, name)
        .long(name)
        .action(ArgAction::SetTrue)
        .help(help)
}

// An option with one value, of any text.
fn text_arg<'a>(alloc: Global, name: &'a str, value: &'a str, help: &'a str) -> Arg<'a>
    ensures { IsArg (text_option name.now) result }
{
    Arg::new(alloc, name)
        .long(name)
        .value_name(value)
        .help(help)
}

// An option with one value.
fn option_arg<'a>(
    alloc: Global,
    name: &'a str,
    value: &'a str,
    values: ValueParser<'a>,
    help: &'a str,
) -> Arg<'a>
    ensures { IsArg (option name.now values.entry) result }
{
    Arg::new(alloc, name)
        .long(name)
        .value_name(value)
        .value_parser(values)
        .help(help)
}

// A required option with one value.
fn required_arg<'a>(
    alloc: Global,
    name: &'a str,
    value: &'a str,
    values: ValueParser<'a>,
    help: &'a str,
) -> Arg<'a>
    ensures { IsArg (required (option name.now values.entry)) result }
{
    option_arg(alloc, name, value, values, help).required(true)
}

// A required path.
fn path_arg<'a>(alloc: Global, name: &'a str, help: &'a str) -> Arg<'a>
    ensures { IsArg (required (new_rule name.now)) result }
{
    Arg::new(alloc, name).required(true).help(help)
}

// The command with one more argument, unless memory ran out before. It takes a result, so that a command with many arguments is built without `?`: each
// `?` would be one more path to prove, on which the arguments that wait are dropped.
fn with_arg<'a>(
    command: Result<Command<'a>, AllocError>,
    arg: Arg<'a>,
) -> Result<Command<'a>, AllocError>
    ensures { (shape : Shape) (rule : Rule) → IfOk command.entry (IsCommand shape)
        → IsArg rule arg.entry
        → IfOk result (IsCommand (with_rule (record { top = shape; subs = [] }) rule).top) }
{
    command?.arg(arg)
}

// The path FILE, which may be left out.
fn file_arg<'a>(alloc: Global) -> Arg<'a>
    ensures { IsArg file result }
{
    Arg::new(alloc, "FILE").help(help::FILE)
}

// The flag `--explain`.
fn explain_arg<'a>(alloc: Global) -> Arg<'a>
    ensures { IsArg explain result }
{
    flag_arg(alloc, "explain", help::EXPLAIN)
}

// The flag `--progress`.
fn progress_arg<'a>(alloc: Global) -> Arg<'a>
    ensures { IsArg progress result }
{
    flag_arg(alloc, "progress", help::PROGRESS)
}

// The subcommand that shows a stream, without its arguments.
fn bare_show_command<'a>(alloc: Global) -> Command<'a>
    ensures { IsCommand (new_app (codes "show")).top result }
{
    Command::new(alloc, "show")
        .about("Print a line for each message of a backend's stream, or a client's")
        .after_help(help::AFTER_SHOW)
}

// The subcommand that shows a stream.
fn show_command<'a>(alloc: Global) -> Result<Command<'a>, AllocError>
    ensures { IfOk result (IsCommand show) }
{
    let front_file = text_arg(alloc, "front-file", "F", help::FRONT_FILE);
    let back_file = text_arg(alloc, "back-file", "B", help::BACK_FILE);
    let command = Ok(bare_show_command(alloc));
    let command = with_arg(command, flag_arg(alloc, "front", help::FRONT));
    let command = with_arg(command, flag_arg(alloc, "frames", help::FRAMES));
    let command = with_arg(command, flag_arg(alloc, "decode", help::DECODE));
    let command = with_arg(command, flag_arg(alloc, "json", help::JSON));
    let command = with_arg(command, flag_arg(alloc, "summary", help::SUMMARY));
    let command = with_arg(with_arg(command, front_file), back_file);
    let command = with_arg(command, explain_arg(alloc));
    let command = with_arg(command, progress_arg(alloc));
    with_arg(command, file_arg(alloc))
}

// The required option `--columns N`.
fn columns_arg<'a>(alloc: Global) -> Arg<'a>
    ensures { IsArg (required columns) result }
{
    let numbers = value_parser!(u16).range(1..=32_767);
    required_arg(alloc, "columns", "N", numbers, help::COLUMNS)
}

// The subcommand that converts a file, without its arguments.
fn bare_convert_command<'a>(alloc: Global) -> Command<'a>
    ensures { IsCommand (new_app (codes "convert")).top result }
{
    Command::new(alloc, "convert")
        .about("Convert a COPY file between the text and the binary format")
        .long_about(help::CONVERT)
        .after_help(help::AFTER_CONVERT)
}

// The subcommand that converts a file.
fn convert_command<'a>(alloc: Global, formats: ValueParser<'a>) -> Result<Command<'a>, AllocError>
    ensures { IfOk result (IsCommand (convert formats.entry)) }
{
    let from = required_arg(alloc, "from", "FORMAT", formats, "The format to read");
    let to = required_arg(alloc, "to", "FORMAT", formats, "The format to write");
    let delimiter = text_arg(alloc, "delimiter", "C", help::DELIMITER);
    let null = text_arg(alloc, "null", "S", help::NULL);
    let command = Ok(bare_convert_command(alloc));
    let command = with_arg(with_arg(command, from), to);
    let command = with_arg(command, columns_arg(alloc));
    let command = with_arg(with_arg(command, delimiter), null);
    let command = with_arg(command, explain_arg(alloc));
    let command = with_arg(command, progress_arg(alloc));
    with_arg(command, file_arg(alloc))
}

// The option `--cut N`.
fn cut_arg<'a>(alloc: Global) -> Arg<'a>
    ensures { IsArg cut result }
{
    let numbers = value_parser!(u32).range(1..=4_096);
    option_arg(alloc, "cut", "N", numbers, help::CUT)
}

// The subcommand that runs a loop, without its arguments.
fn bare_loop_command<'a>(alloc: Global) -> Command<'a>
    ensures { IsCommand (new_app (codes "loop")).top result }
{
    Command::new(alloc, "loop")
        .about("Run a client's calls against a scripted backend, and print what comes of them")
        .after_help(help::AFTER_LOOP)
}

// The subcommand that runs a loop.
fn loop_command<'a>(alloc: Global) -> Result<Command<'a>, AllocError>
    ensures { IfOk result (IsCommand loop) }
{
    let command = Ok(bare_loop_command(alloc));
    let command = with_arg(command, flag_arg(alloc, "tcp", help::TCP));
    let command = with_arg(command, flag_arg(alloc, "break-everywhere", help::BREAK));
    let command = with_arg(command, flag_arg(alloc, "trace", help::TRACE));
    let command = with_arg(command, flag_arg(alloc, "comments", help::COMMENTS));
    let command = with_arg(command, cut_arg(alloc));
    let command = with_arg(command, explain_arg(alloc));
    let command = with_arg(command, path_arg(alloc, "SCRIPT", help::SCRIPT));
    with_arg(command, path_arg(alloc, "CALLS", help::CALLS))
}

// The program, without its subcommands.
fn bare_program<'a>(alloc: Global) -> Command<'a>
    ensures { IsProgram program result }
{
    Command::new(alloc, "pgpipe")
        .about("PostgreSQL protocol 3.0 and COPY files on standard input and output")
        .version(help::VERSION)
        .after_help(help::AFTER_ALL)
}

// The command line without the subcommand that serves clients.
fn without_serve<'a>(alloc: Global, formats: ValueParser<'a>) -> Result<Command<'a>, AllocError>
    ensures { IfOk result (IsProgram (without_serve formats.entry)) }
{
    bare_program(alloc)
        .subcommand(show_command(alloc)?)?
        .subcommand(convert_command(alloc, formats)?)?
        .subcommand(loop_command(alloc)?)
}

/// The command line, with the parser for the names of the formats.
pub fn command_line<'a>(alloc: Global, formats: ValueParser<'a>) -> Result<Command<'a>, AllocError>
    ensures { IfOk result (λ command. app_of command ≡ command_line formats.entry) }
{
    without_serve(alloc, formats)?.subcommand(serve_command(alloc)?)
}
