//! Judges test vectors of the wire format, one a line of the input, and writes a line for each: `ok` and the message, `bad`
//! and the fault, `open` where more bytes are to come, or `flawed` and what a decoder or an encoder did wrong.

mod subject;
mod trial;
pub mod vector;

use anyhow::{Context, bail};
use pg_wire::{BackDecoder, BackMessage, FirstDecoder, FrontDecoder};
use std::alloc::Global;
use std::io::{self, BufRead, BufWriter, Write};
use subject::{Lending, ShownMessage};
use trial::{Decoded, Flaw, judge};
use vector::{Side, Vector};

/// The greatest length field that the decoders of messages take.
pub const LIMIT: u32 = 65_536;

// The bytes have this reading too where all messages that can be are lent, or every other one.
fn check_lent<const ALL: bool>(
    alloc: Global,
    bytes: &[u8],
    reading: &Decoded<BackMessage>,
) -> Result<(), Flaw> {
    if judge::<Lending<ALL>>(alloc, bytes)? != *reading {
        return Err(Flaw::Lent);
    }
    Ok(())
}

// The reading of the bytes by a backend's decoder, which is the same where some of the messages are lent, or all that can be.
fn judge_back(alloc: Global, bytes: &[u8]) -> Result<Decoded<BackMessage>, Flaw> {
    let reading = judge::<BackDecoder>(alloc, bytes)?;
    check_lent::<true>(alloc, bytes, &reading)?;
    check_lent::<false>(alloc, bytes, &reading)?;
    Ok(reading)
}

// Writes what came of the bytes. Where memory ran out, nothing is known of them, and the run ends.
fn write_verdict<M: ShownMessage + Drop>(
    out: &mut impl Write,
    reading: Result<Decoded<M>, Flaw>,
) -> anyhow::Result<()> {
    match reading {
        Ok(reading) => writeln!(out, "{reading}")?,
        Err(Flaw::Memory) => bail!("{}", Flaw::Memory),
        Err(flaw) => writeln!(out, "flawed {flaw}")?,
    }
    Ok(())
}

/// Judges the vectors of an input.
pub fn run(rt: &HostRuntime, input: impl BufRead + Drop) -> anyhow::Result<()> {
    let alloc = rt.alloc();
    let mut out = BufWriter::new(alloc, io::writer(rt))?;
    for line in input.lines(alloc) {
        let line = line?;
        let vector = Vector::of_line(alloc, line.as_str()).context(format_args!("in {line:?}"))?;
        let Some(Vector { side, bytes }) = vector else {
            continue;
        };
        match side {
            Side::Back => write_verdict(&mut out, judge_back(alloc, bytes.as_slice()))?,
            Side::Front => write_verdict(&mut out, judge::<FrontDecoder>(alloc, bytes.as_slice()))?,
            Side::First => write_verdict(&mut out, judge::<FirstDecoder>(alloc, bytes.as_slice()))?,
        }
    }
    out.flush()?;
    Ok(())
}
