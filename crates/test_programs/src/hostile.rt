//! Runs a backend alone, or a pair, as each line of the input says, and writes where it stands after each thing that happened. At the end it
//! writes the log and, of a pair, what was settled, handed over and sent. `.ci/fuzz` makes up the lines, and compares what is written with
//! what readers in Python say.
//!
//! A line has three parts with a space between them: `backend` or `pair`, the bytes of a script, and what happens.
//!
//! - To a `backend` it is words with a space between them: the bytes of a piece that is pushed, or `-` for a step.
//! - To a `pair` it is the bytes of a file of calls, each of whose lines is a setting or an event.
//!
//! Bytes are in hexadecimal. What is written of a value is what `{:?}` writes.

ghost use Rattle.std.specs.Prelude.{IfOk};
ghost use Rattle.pg_backend.specs.Check.{IsChecked};
ghost use Rattle.pg_wire.specs.Direction.{IsLimit};

use anyhow::{Result, bail};
use pg_backend::{Backend, Script};
use pg_pair::{Direct, Pair, Way};
use pg_wire::{LONGEST, Seq};
use pgpipe_files::{CallLine, Calls, read_calls, read_script};
use std::alloc::Global;
use std::io::{self, BufRead, BufWriter, Write};

// The script of these bytes, which can be played.
fn script_of(alloc: Global, digits: &str) -> Result<Script>
    ensures { IfOk result (λ script. IsChecked script) }
{
    let bytes = hex::decode(alloc, digits)?;
    let script = read_script(alloc, bytes.as_slice())?;
    script.check(alloc)?;
    Ok(script)
}

// The calls of these bytes.
fn calls_of(alloc: Global, digits: &str) -> Result<Calls>
    ensures { IfOk result (λ calls. IsLimit calls.settings.limit) }
{
    let bytes = hex::decode(alloc, digits)?;
    Ok(read_calls(alloc, bytes.as_slice())?)
}

// Pushes a piece, and writes the answer, the phase after it, and that nothing was sent.
fn push(alloc: Global, backend: &mut Backend, digits: &str, out: &mut impl Write) -> Result<()> {
    let piece = hex::decode(alloc, digits)?;
    let pushed = backend.push(piece.as_slice());
    writeln!(out, "{pushed:?} {:?} b\"\"", backend.phase())?;
    Ok(())
}

// Makes a step, and writes the answer, the phase after it, and what was sent.
fn step(alloc: Global, backend: &mut Backend, out: &mut impl Write) -> Result<()> {
    let mut sent = Vec::new(alloc);
    let made = backend.step(&mut sent);
    writeln!(out, "{made:?} {:?} {:?}", backend.phase(), Seq::new(sent))?;
    Ok(())
}

// Pushes a piece or makes a step as each word says, and writes the log at the end.
fn take_words(
    alloc: Global,
    backend: &mut Backend,
    words: &str,
    out: &mut impl Write,
) -> Result<()> {
    for word in words.split(' ') {
        if word == "-" {
            step(alloc, backend, out)?;
        } else {
            push(alloc, backend, word, out)?;
        }
    }
    writeln!(out, "{:?}", backend.log())?;
    Ok(())
}

// Runs a backend that plays the script of these bytes. It is dropped here, in a function that does little else, since proving that takes long.
fn run_backend(alloc: Global, digits: &str, words: &str, out: &mut impl Write) -> Result<()> {
    let script = script_of(alloc, digits)?;
    let mut backend = Backend::new(alloc, script, LONGEST);
    take_words(alloc, &mut backend, words, out)
}

// Writes the phases of both ends; of each way how many bytes were sent and have reached the other end, and whether it is broken; and how many
// groups are settled and logged.
fn write_place(pair: &Pair<Direct>, out: &mut impl Write) -> io::Result<()> {
    let (client, backend) = (pair.client(), pair.backend());
    write!(out, "{:?} {:?}", client.phase(), backend.phase())?;
    for way in [Way::ToBackend, Way::ToClient] {
        let (sent, reached, broken) = (pair.sent(way).len(), pair.reached(way), pair.broken(way));
        write!(out, " {sent} {reached} {broken}")?;
    }
    writeln!(out, " {} {}", pair.settled().len(), backend.log().len())
}

// Writes what was settled, logged, handed over, and sent each way.
fn write_end(pair: &Pair<Direct>, out: &mut impl Write) -> io::Result<()> {
    writeln!(out, "{:?}", pair.settled())?;
    writeln!(out, "{:?}", pair.backend().log())?;
    writeln!(out, "{:?}", pair.handed())?;
    writeln!(out, "{:?}", pair.sent(Way::ToBackend))?;
    writeln!(out, "{:?}", pair.sent(Way::ToClient))
}

// Applies the event of a line to a pair, and writes where it stands after it.
fn apply(pair: &mut Pair<Direct>, line: CallLine, out: &mut impl Write) -> Result<()> {
    let CallLine::Event(event) = line else {
        bail!("a line of calls is one event");
    };
    pair.apply(event)?;
    write_place(pair, out)?;
    Ok(())
}

// Applies each event to a pair, and writes at the end what came of it.
fn apply_all(pair: &mut Pair<Direct>, lines: Seq<CallLine>, out: &mut impl Write) -> Result<()> {
    for line in lines {
        apply(pair, line, out)?;
    }
    write_end(pair, out)?;
    Ok(())
}

// Runs a pair. It is dropped here, in a function that does little else, since proving that takes long.
fn play_pair(alloc: Global, script: Script, calls: Calls, out: &mut impl Write) -> Result<()>
    requires limit { IsLimit calls.settings.limit }
    requires checked { IsChecked script }
{
    let Calls { settings, lines } = calls;
    let mut pair = Pair::new(alloc, settings, script, Direct);
    apply_all(&mut pair, lines, out)
}

// Runs a pair whose backend plays the script of these bytes, and whose client makes the calls of those.
fn run_pair(alloc: Global, script: &str, calls: &str, out: &mut impl Write) -> Result<()> {
    let calls = calls_of(alloc, calls)?;
    let script = script_of(alloc, script)?;
    play_pair(alloc, script, calls, out)
}

// Runs what a line says.
fn take_line(alloc: Global, line: &str, out: &mut impl Write) -> Result<()> {
    let (name, rest) = line.split_once(' ').unwrap_or((line, ""));
    let (digits, happens) = rest.split_once(' ').unwrap_or((rest, ""));
    match name {
        "backend" => run_backend(alloc, digits, happens, out),
        "pair" => run_pair(alloc, digits, happens, out),
        _ => bail!("a line begins with backend or pair"),
    }
}

/// Runs what each line of an input says.
pub fn run(rt: &HostRuntime, input: impl BufRead + Drop) -> Result<()> {
    let alloc = rt.alloc();
    let mut out = BufWriter::new(alloc, io::writer(rt))?;
    for line in input.lines(alloc) {
        take_line(alloc, line?.as_str(), &mut out)?;
    }
    out.flush()?;
    Ok(())
}
