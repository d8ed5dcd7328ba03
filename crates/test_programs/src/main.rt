//! Test programs over data. The word of the command line names one, which reads standard input and writes what comes of it:
//!
//! - `vectors` judges test vectors of the wire format;
//! - `sessions` replays recorded sessions;
//! - `copy-files` converts COPY files that a server wrote;
//! - `hostile` runs a backend or a pair on what `.ci/fuzz` and `.ci/loops` make up;
//! - `refused-memory` makes calls of readers and writers of COPY files once more where memory was refused;
//! - `refused-messages` does so with calls of decoders and of a client;
//! - `great-errors` makes errors of many fields.
//!
//! `all` runs them one after the other, each on its file in the folder, and writes a line `== NAME` before what each writes. The gate runs a
//! program once, as each of two compilers builds it: it runs `all`, in a folder with the files of `data/`.
#![tactic(auto)]

mod byte_cut;
mod copy_files;
mod great_errors;
mod hostile;
mod refused_memory;
mod refused_messages;
mod sessions;
mod vectors;

use anyhow::{Context, Result, bail};
use std::env;
use std::fs::File;
use std::io::{BufRead, BufReader};

/// The programs in the order of `all`, each with the file that is its input there.
const PROGRAMS: [(&str, &str); 7] = [
    ("vectors", "vectors"),
    ("sessions", "sessions"),
    ("copy-files", "rows.text"),
    ("hostile", "hostile"),
    ("refused-memory", "rows.text"),
    ("refused-messages", "refused-messages"),
    ("great-errors", "great-errors"),
];

// Runs the program of this name.
fn run(rt: &HostRuntime, name: &str, input: impl BufRead + Drop) -> Result<()> {
    match name {
        "vectors" => vectors::run(rt, input),
        "sessions" => sessions::run(rt, input),
        "copy-files" => copy_files::run(rt, input),
        "hostile" => hostile::run(rt, input),
        "refused-memory" => refused_memory::run(rt, input),
        "refused-messages" => refused_messages::run(rt, input),
        "great-errors" => great_errors::run(rt, input),
        _ => bail!("no program has the name {name}"),
    }
}

// Runs all programs, each on its file.
fn run_all(rt: &HostRuntime) -> Result<()> {
    for (name, path) in PROGRAMS {
        println!(rt; "== {name}")?;
        let input = BufReader::new(rt.alloc(), File::open(rt, path)?)?;
        run(rt, name, input).context(format_args!("in {name}"))?;
    }
    Ok(())
}

fn main(rt: HostRuntime) -> Result<()> {
    let name = env::args(&rt)?
        .nth(1)
        .context("the word is the name of a program")?;
    if name.as_str() == "all" {
        return run_all(&rt);
    }
    let input = BufReader::new(rt.alloc(), rt.reader())?;
    run(&rt, name.as_str(), input)
}
