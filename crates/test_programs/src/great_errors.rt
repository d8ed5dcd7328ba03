//! An error of as many fields as a line of the input says, each of two bytes: a decoder gives it, and it is written again; another lends it, and what is
//! lent is copied; and a client is told it. It prints how many fields came of each, and how many more go in before they are too long.
//!
//! The stored input has 1,000 fields. By hand it is run with the most that a message can have: 536,870,909, in 1,073,741,824 bytes.

use anyhow::{Context, Result, bail, ensure};
use pg_client::{Client, FeedFault, Settings};
use pg_wire::{BackDecoder, BackMessage, Cut, EncodeFault, Fields, LONGEST, Lent, Seq, backend};
use std::alloc::{AllocError, Global};
use std::io::BufRead;

/// How many bytes an error has without its fields: its tag, its length field, and the zero byte that closes them.
const OTHERS: usize = 6;

/// The most fields that an error can have.
const MOST: usize = 536_870_909;

/// How many fields more are tried.
const TRIED: usize = 10;

// Puts an ErrorResponse with this length field and so many fields of two bytes each: a code, and an empty text.
fn put_error(length: u32, count: usize, error: &mut Vec<u8>) -> Result<(), AllocError> {
    error.push(b'E')?;
    error.extend_from_slice(&length.to_be_bytes())?;
    for _ in 0..count {
        error.extend_from_slice(b"M\0")?;
    }
    error.push(0)?;
    Ok(())
}

// An ErrorResponse of so many fields.
fn error_of(alloc: Global, count: usize) -> Result<Vec<u8>> {
    if count > MOST {
        bail!("no message has so many fields");
    }
    let size = OTHERS + 2 * count;
    // the length field counts itself, but not the tag
    let length = (size - 1) as u32;
    let mut error = Vec::with_capacity(alloc, size)?;
    put_error(length, count, &mut error)?;
    Ok(error)
}

// Gives an error to a decoder, and takes the fields that it gives.
fn next_given(decoder: &mut BackDecoder, error: &[u8]) -> Result<Fields> {
    decoder.push(error)?;
    match decoder.next()? {
        Some(BackMessage::ErrorResponse(fields)) => Ok(fields),
        _ => bail!("no error is given"),
    }
}

// The fields that a decoder gives.
fn given(alloc: Global, error: &[u8]) -> Result<Fields> {
    let mut decoder = BackDecoder::new(alloc, LONGEST);
    next_given(&mut decoder, error)
}

// Whether an encoder writes these fields as this error.
fn is_written(alloc: Global, fields: &Fields, error: &[u8]) -> Result<bool, EncodeFault> {
    let mut written = Vec::new(alloc);
    backend::error_response(fields, &mut written)?;
    Ok(written.as_slice() == error)
}

// How many fields more go in before they are too long.
fn more(fields: &mut Fields) -> usize {
    for count in 0..TRIED {
        if fields.push(b'M', &[]) == Err(EncodeFault::TooLong) {
            return count;
        }
    }
    TRIED
}

// How many fields are copied of an error that a decoder is given and lends.
fn next_lent(alloc: Global, decoder: &mut BackDecoder, error: &[u8]) -> Result<usize> {
    decoder.push(error)?;
    let Cut::Held = decoder.next_lent()? else {
        bail!("nothing is held");
    };
    match decoder.held() {
        Some(Lent::Error(fields)) => Ok(Fields::of_view(alloc, &fields)?.len()),
        _ => bail!("no error is lent"),
    }
}

// How many fields are copied of an error that a decoder lends.
fn lent(alloc: Global, error: &[u8]) -> Result<usize> {
    let mut decoder = BackDecoder::new(alloc, LONGEST);
    next_lent(alloc, &mut decoder, error)
}

// How many fields a client is told that is started and fed an error.
fn feed(alloc: Global, client: &mut Client, error: &[u8]) -> Result<usize> {
    let mut out = Vec::new(alloc);
    client.start(&mut out)?;
    match client.feed(error, &mut out) {
        Err(FeedFault::StartupError(fields)) => Ok(fields.len()),
        Err(fault) => bail!("the client is closed by {fault}"),
        Ok(()) => bail!("the client isn't told"),
    }
}

// How many fields a client is told.
fn told(alloc: Global, error: &[u8]) -> Result<usize> {
    let user = Seq::from_slice(alloc, b"u")?;
    let mut client = Client::new(alloc, Settings::new(alloc, user));
    feed(alloc, &mut client, error)
}

// Prints what comes of the fields that were given of an error.
fn print_given(rt: &HostRuntime, fields: &mut Fields, error: &[u8]) -> Result<()> {
    println!(rt; "given {}", fields.len())?;
    ensure!(
        is_written(rt.alloc(), fields, error)?,
        "another error is written"
    );
    println!(rt; "more {}", more(fields))?;
    Ok(())
}

// Prints what comes of an error.
fn print(rt: &HostRuntime, error: &[u8]) -> Result<()> {
    println!(rt; "lent {}", lent(rt.alloc(), error)?)?;
    println!(rt; "told {}", told(rt.alloc(), error)?)?;
    let mut fields = given(rt.alloc(), error)?;
    print_given(rt, &mut fields, error)
}

// Makes the error that a line wants, and prints what comes of it.
fn take_line(rt: &HostRuntime, line: &str) -> Result<()> {
    let error = error_of(rt.alloc(), line.parse().context("no number")?)?;
    print(rt, error.as_slice())
}

/// Makes the error that each line of an input wants, and prints what comes of it.
pub fn run(rt: &HostRuntime, input: impl BufRead + Drop) -> Result<()> {
    for line in input.lines(rt.alloc()) {
        take_line(rt, line?.as_str())?;
    }
    Ok(())
}
