//! A test server: it answers its clients from a script, one after the other, and prints what each has asked.
//!
//! `example_server 5444` listens at that port of 127.0.0.1, and at any free one for 0. It prints the port. Then any driver may ask it, as
//! `psql -h 127.0.0.1 -p 5444 -U anyone -c 'SELECT 1' -c 'SELECT 2'` does.
#![tactic(auto)]

ghost use Rattle.std.specs.Prelude.{IfOk};
ghost use Rattle.pg_backend.specs.Check.{IsChecked};

use anyhow::Context;
use pg_backend::{Backend, Script, answer};
use pg_wire::{LONGEST, Over, Patient};
use pgpipe_files::read_script;
use standard_streams::all_open;
use std::alloc::Global;
use std::env;
use std::io::{Read, Write};
use std::net::TcpListener;

// The script: a row for the first request, an error for the second, and an error for any other one, since there is no answer to it. A tab separates
// the fields of a line; docs/LOOP.md has all lines. A Script may be made of its values too.
const SCRIPT: &[u8] = b"answer\tI
rows\tSELECT 1\tgreeting
row\thello
answer\tI
error\tS\tERROR\tC\t42P01\tM\tthere is no such table
";

// The script, which can be played.
fn script(alloc: Global) -> anyhow::Result<Script>
    ensures { IfOk result (λ script. IsChecked script) }
{
    let script = read_script(alloc, SCRIPT)?;
    script.check(alloc)?;
    Ok(script)
}

// Answers a client until it goes away, and prints what it has asked.
fn serve<R: Print + AllocGlobal, S: Read + Write + Drop>(
    rt: &R,
    backend: &mut Backend,
    stream: S,
) -> anyhow::Result<()> {
    let mut link = Over::new(Patient::new(stream));
    let ended = answer(rt.alloc(), backend, &mut link, u32::MAX);
    for logged in backend.log() {
        println!(rt; "{:?}", logged.request)?;
    }
    println!(rt; "{ended:?}")?;
    Ok(())
}

fn main(rt: HostRuntime) -> anyhow::Result<()> {
    all_open(&rt.stdin(), &rt.stdout(), &rt.stderr())?;
    let port = env::args(&rt)?.nth(1).context("the word is a port")?;
    let port = port.parse::<u16>()?;
    let listener = TcpListener::bind(&rt, ("127.0.0.1", port))?;
    println!(rt; "port {}", listener.local_addr()?.port())?;
    for stream in listener.incoming() {
        let mut backend = Backend::new(rt.alloc(), script(rt.alloc())?, LONGEST);
        serve(&rt, &mut backend, stream?)?;
    }
    Ok(())
}
