//! Rows that a client copies to a backend, and that are read there.

ghost use Rattle.std.specs.Prelude.{IfOk};
ghost use Rattle.pg_backend.specs.Check.{IsChecked};

use crate::convert::write_rows;
use crate::digest::Digest;
use crate::fetch::query;
use crate::orders::{Order, WIDTH};
use crate::session::{BothEnds, checked};
use pg_backend::{Answer, Load, Logged, Script, ScriptPart};
use pg_copy::TextReader;
use pg_wire::{CopyHead, Seq, Status};
use rand_xoshiro::Xoshiro256PlusPlus;
use std::alloc::{AllocError, Global};

/// How many rows a copy has.
const ROWS: u32 = 10_000;

/// How many bytes the client hands over at once.
const CHUNK: usize = 8_192;

// A copy from the client that is accepted.
fn copy_in(alloc: Global) -> Result<ScriptPart, AllocError> {
    let formats = Seq::new(vec![in alloc; 0i16; WIDTH]?);
    let tag = Seq::from_slice(alloc, b"COPY 10000")?;
    Ok(ScriptPart::CopyIn {
        head: CopyHead {
            binary: false,
            formats,
        },
        load: Load::Accept(tag),
    })
}

// An answer that takes one copy from the client.
fn answer(alloc: Global) -> Result<Answer, AllocError> {
    Ok(Answer {
        before: Seq::new(Vec::new(alloc)),
        parts: Seq::new(vec![in alloc; copy_in(alloc)?]?),
        error: None,
        status: Status::Idle,
    })
}

// A script that takes one copy from the client.
fn script(alloc: Global) -> anyhow::Result<Script>
    ensures { IfOk result (λ script. IsChecked script) }
{
    checked(alloc, vec![in alloc; answer(alloc)?]?)
}

// Puts the rows that wait.
fn put_rows(reader: &mut TextReader, digest: &mut Digest) -> anyhow::Result<()> {
    for _ in 0..u64::MAX {
        if reader.ended() {
            break;
        }
        let Some(row) = reader.next()? else {
            break;
        };
        for value in row.iter() {
            digest.put_value(value);
        }
    }
    Ok(())
}

// Reads the rows that were loaded.
fn put_loaded(alloc: Global, logged: &Logged, digest: &mut Digest) -> anyhow::Result<()> {
    let mut reader = TextReader::new(alloc, Some(WIDTH as u16));
    for chunk in logged.loaded.iter() {
        if reader.ended() {
            break;
        }
        reader.push(chunk.as_slice())?;
        put_rows(&mut reader, digest)?;
    }
    Ok(())
}

// A session is started, and a text is copied in it.
fn copy_text(
    alloc: Global,
    session: &mut BothEnds,
    text: &[u8],
    digest: &mut Digest,
) -> anyhow::Result<()> {
    session.start()?;
    session.ask(query(alloc)?)?;
    session.exchange()?;
    session.copy(text, CHUNK)?;
    for logged in session.backend().log() {
        put_loaded(alloc, logged, digest)?;
    }
    digest.put(session.settled()?.outcome.parts.len() as u64);
    Ok(())
}

// A text is copied in a session of its own.
fn load_text(alloc: Global, text: &[u8], digest: &mut Digest) -> anyhow::Result<()> {
    let mut session = BothEnds::new(alloc, script(alloc)?)?;
    copy_text(alloc, &mut session, text, digest)
}

/// So many copies are made, each in a session of its own.
pub fn load(alloc: Global, mut random: Xoshiro256PlusPlus, copies: u32) -> anyhow::Result<u64> {
    let mut digest = Digest::new();
    let mut order = Order::new();
    let mut text = Vec::new(alloc);
    for _ in 0..copies {
        text.clear();
        write_rows(&mut order, &mut random, ROWS, &mut text)?;
        load_text(alloc, text.as_slice(), &mut digest)?;
    }
    Ok(digest.finish())
}
