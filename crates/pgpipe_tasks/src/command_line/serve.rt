//! The subcommand that serves clients.

ghost use Rattle.std.specs.Prelude.{IfOk, codes};
ghost use Rattle.clap.specs.Words.{new_app};
ghost use Rattle.pgpipe_tasks.specs.CommandLine.{connections, port, serve};
ghost use Rattle.pgpipe_tasks.specs.Private.CommandLine.{IsArg, IsCommand};

use super::{explain_arg, option_arg, path_arg, with_arg};
use crate::help;
use clap::{Arg, Command, value_parser};
use std::alloc::{AllocError, Global};

// The option `--port N`.
fn port_arg<'a>(alloc: Global) -> Arg<'a>
    ensures { IsArg port result }
{
    option_arg(alloc, "port", "N", value_parser!(u16), help::PORT)
}

// The option `--connections N`.
fn connections_arg<'a>(alloc: Global) -> Arg<'a>
    ensures { IsArg connections result }
{
    let numbers = value_parser!(u32).range(1..=4_294_967_295);
    option_arg(alloc, "connections", "N", numbers, help::CONNECTIONS)
}

// The subcommand, without its arguments.
fn bare_serve_command<'a>(alloc: Global) -> Command<'a>
    ensures { IsCommand (new_app (codes "serve")).top result }
{
    Command::new(alloc, "serve")
        .about("Answer clients from a script, on a port of 127.0.0.1")
        .long_about(help::SERVE)
        .after_help(help::AFTER_SERVE)
}

/// The subcommand that serves clients.
pub fn serve_command<'a>(alloc: Global) -> Result<Command<'a>, AllocError>
    ensures { IfOk result (IsCommand serve) }
{
    let command = Ok(bare_serve_command(alloc));
    let command = with_arg(command, port_arg(alloc));
    let command = with_arg(command, connections_arg(alloc));
    let command = with_arg(command, explain_arg(alloc));
    with_arg(command, path_arg(alloc, "SCRIPT", help::SCRIPT))
}
