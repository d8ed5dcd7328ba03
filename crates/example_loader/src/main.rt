//! A loader: it reads lines `NAME;YEAR` from standard input, and writes the binary COPY file of a table `(name text, year int)` to standard
//! output. Where there is no year, it is null.
//!
//! `printf 'Ada;1815\nKurt;\n' | example_loader > people` makes a file that `COPY people FROM STDIN (FORMAT binary)` takes. A value of a
//! binary file is as the server sends it: a text is its bytes, and an int its four bytes, the highest first.
#![tactic(auto)]

use anyhow::{Context, bail};
use pg_copy::{
    RowFault, write_binary_count, write_binary_field, write_binary_head, write_binary_trailer,
};
use std::io::{self, BufRead, BufReader, Write};

// How many bytes are collected before they are written.
const ROOM: usize = 65_536;

// The year of a line, or none.
fn year_of(text: &str) -> anyhow::Result<Option<i32>> {
    if text.is_empty() {
        return Ok(None);
    }
    Ok(Some(text.parse::<i32>().context("a year is no number")?))
}

// Appends a row. Its values are written one by one, so that no row is kept.
fn put_row(name: &str, year: Option<i32>, buf: &mut Vec<u8>) -> Result<(), RowFault> {
    write_binary_count(2, buf)?;
    write_binary_field(Some(name.as_bytes()), buf)?;
    match year {
        Some(year) => write_binary_field(Some(year.to_be_bytes().as_slice()), buf),
        None => write_binary_field(None, buf),
    }
}

// Appends the row of a line.
fn put_line(line: &str, buf: &mut Vec<u8>) -> anyhow::Result<()> {
    let Some((name, year)) = line.split_once(';') else {
        bail!("a line is a name, a semicolon and a year");
    };
    put_row(name, year_of(year)?, buf)?;
    Ok(())
}

fn main(rt: HostRuntime) -> anyhow::Result<()> {
    let mut output = io::writer(&rt);
    let mut buf = Vec::new(rt.alloc());
    write_binary_head(&mut buf)?;
    for line in BufReader::new(rt.alloc(), rt.reader())?.lines(rt.alloc()) {
        put_line(line?.as_str(), &mut buf)?;
        if buf.len() >= ROOM {
            output.write_all(buf.as_slice())?;
            buf.clear();
        }
    }
    write_binary_trailer(&mut buf)?;
    output.write_all(buf.as_slice())?;
    Ok(())
}
