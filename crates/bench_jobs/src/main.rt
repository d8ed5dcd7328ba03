//! Does a job that a user of this library waits for, on input made up from a seed, and prints a digest of all that came of it
//! (`bench/run` times it). The words are the job, the seed and how much of it there is, each a number below 2^32:
//! - `fetch`: a client is fed the rows of so many queries, and gives their settled groups;
//! - `stream`: an early client lends the rows of so many queries;
//! - `load`: a client copies rows to a backend so many times, and what was loaded is read;
//! - `convert`: so many COPY files go from text to binary and back;
//! - `show`: so many recorded streams are shown;
//! - `trickle`: so many sessions of small extended queries with a scripted backend are played, of which a few bytes arrive at a time;
//! - `all`: each of them.
//!
//! Or it does one work of those in wire.rt (`bench/wire` times it), and prints a number that it comes to. Then the words are the work and a number,
//! and for the first three how many times it is done, where that is more than once:
//! - `owned` and `lent` read the stream of a backend on standard input in pieces of so many bytes: how many bytes the values of its rows have;
//! - `early` gives it to an early client, which lends the rows: how many bytes their values have;
//! - `feed` feeds it to a client, as the rows of a query: how many bytes were fed;
//! - `bind` writes a Bind of so many values, a million values in all: how many bytes were written;
//! - `rows` and `lent_rows` read a COPY file in text, whose rows have so many columns, owned (`bench/convert` times it) or lent: how many values they have;
//! - `read` does no more than read the stream: how many bytes it has.
#![tactic(auto)]

mod convert;
mod copy;
mod digest;
mod fetch;
mod load;
mod orders;
mod session;
mod show;
mod stream;
mod trickle;
mod wire;

use anyhow::{Context, bail};
use rand_xoshiro::Xoshiro256PlusPlus;
use rand_xoshiro::rand_core::SeedableRng;
use std::alloc::Global;
use std::env;
use std::io::Read;

/// The jobs.
const JOBS: [&str; 6] = ["fetch", "stream", "load", "convert", "show", "trickle"];

/// The works that may be done more than once.
const REPEATED: [&str; 3] = ["owned", "lent", "early"];

// Does the job of a name: what came of it.
fn do_job(alloc: Global, name: &str, seed: u32, size: u32) -> anyhow::Result<u64> {
    let random = Xoshiro256PlusPlus::seed_from_u64(u64::from(seed));
    match name {
        "fetch" => fetch::fetch(alloc, random, size),
        "stream" => stream::stream(alloc, random, size),
        "load" => load::load(alloc, random, size),
        "convert" => convert::convert_files(alloc, random, size),
        "show" => show::show_streams(alloc, random, size),
        "trickle" => trickle::trickle(alloc, random, size),
        other => bail!("no job: {other}"),
    }
}

// Does a work so many times on the stream that is the input, and prints what it comes to.
fn do_work(rt: &HostRuntime, work: &str, number: usize, times: u32) -> anyhow::Result<()> {
    if let "rows" | "lent_rows" = work {
        let lent = work == "lent_rows";
        let values = copy::read_rows(rt.alloc(), &mut rt.reader(), number, lent)?;
        println!(rt; "{values}")?;
        return Ok(());
    }
    let mut stream = Vec::new(rt.alloc());
    rt.reader().read_to_end(&mut stream)?;
    let mut size = 0u64;
    for _ in 0..times {
        let more = wire::work(rt.alloc(), work, stream.as_slice(), number)?;
        size = size.wrapping_add(more);
    }
    println!(rt; "{size}")?;
    Ok(())
}

// Does a job, or all of them, and prints the digest of each.
fn do_jobs(rt: &HostRuntime, job: &str, seed: u32, size: u32) -> anyhow::Result<()> {
    let alloc = rt.alloc();
    if job == "all" {
        for name in JOBS {
            println!(rt; "{name} {:016x}", do_job(alloc, name, seed, size)?)?;
        }
        return Ok(());
    }
    println!(rt; "{:016x}", do_job(alloc, job, seed, size)?)?;
    Ok(())
}

fn main(rt: HostRuntime) -> anyhow::Result<()> {
    let words: Vec<String> = env::args(&rt)?.collect(rt.alloc())?;
    match words.as_slice() {
        [_, work, number] => do_work(&rt, work.as_str(), number.parse().context("no number")?, 1),
        [_, work, number, times] if REPEATED.contains(&work.as_str()) => {
            let number = number.parse().context("no number")?;
            do_work(
                &rt,
                work.as_str(),
                number,
                times.parse().context("no number")?,
            )
        }
        [_, job, seed, size] => {
            let seed = seed.parse().context("no seed")?;
            do_jobs(&rt, job.as_str(), seed, size.parse().context("no size")?)
        }
        _ => bail!("the words are a job, a seed and a size, or a work and a number"),
    }
}
