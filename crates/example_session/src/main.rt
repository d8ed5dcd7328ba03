//! Three drivers of a page each: `query` prints a whole answer, `rows` prints each row as it comes, and `copy` copies in and out. The words are
//! the example and a query.
//!
//! `example_session query 'SELECT 1'` asks the server that the environment names, as `PGPORT=5433` does.
#![tactic(auto)]

mod copy;
mod query;
mod rows;

use anyhow::bail;
use example_base::{Given, Server};
use standard_streams::all_open;
use std::env;

fn main(rt: HostRuntime) -> anyhow::Result<()> {
    all_open(&rt.stdin(), &rt.stdout(), &rt.stderr())?;
    let words: Vec<String> = env::args(&rt)?.collect(rt.alloc())?;
    let [_, name, text] = words.as_slice() else {
        bail!("the words are an example (query, rows or copy) and a query");
    };
    let server = Server::of(&rt, &Given::default())?;
    match name.as_str() {
        "query" => query::run(&rt, server, text.as_str()),
        "rows" => rows::run(&rt, server, text.as_str()),
        "copy" => copy::run(&rt, server, text.as_str()),
        _ => bail!("the words are an example (query, rows or copy) and a query"),
    }
}
