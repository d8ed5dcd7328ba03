//! Calls of decoders, of a client and of `drive`, one of which may be refused memory. Where one was it is made once more, or, where the
//! client is closed by it, the session is begun anew: so the output is the same.
//!
//! The input has bodies that are wrong, written as vectors are. For each the fault is written that the decoder answers once it has all
//! bytes. That is never want of memory. What was refused is said on standard error.

mod driven;
mod link;
mod refused;
mod wrong;

use crate::vectors::vector::{Side, Vector};
use anyhow::{Result, ensure};
use driven::comes_to_its_end;
use refused::Refused;
use std::alloc::Global;
use std::io::{self, BufRead, BufWriter, Write};
use wrong::{back_fault, first_fault, front_fault, lent_fault};

// Writes the faults of a line.
fn write_faults(
    alloc: Global,
    line: &str,
    refused: &mut Refused,
    out: &mut impl Write,
) -> Result<()> {
    let Some(Vector { side, bytes }) = Vector::of_line(alloc, line)? else {
        return Ok(());
    };
    let bytes = bytes.as_slice();
    match side {
        Side::Back => {
            writeln!(out, "{}", back_fault(alloc, bytes, refused))?;
            writeln!(out, "{}", lent_fault(alloc, bytes, refused))?;
        }
        Side::Front => writeln!(out, "{}", front_fault(alloc, bytes, refused))?,
        Side::First => writeln!(out, "{}", first_fault(alloc, bytes, refused))?,
    }
    Ok(())
}

/// Writes the faults of each line of an input, and drives a client through its session.
pub fn run(rt: &HostRuntime, input: impl BufRead + Drop) -> Result<()> {
    let alloc = rt.alloc();
    let mut refused = Refused::default();
    let mut out = BufWriter::new(alloc, io::writer(rt))?;
    for line in input.lines(alloc) {
        write_faults(alloc, line?.as_str(), &mut refused, &mut out)?;
    }
    if !comes_to_its_end(alloc, &mut refused)? {
        ensure!(
            comes_to_its_end(alloc, &mut refused)?,
            "memory was refused twice"
        );
    }
    writeln!(out, "driven")?;
    out.flush()?;
    refused.say(rt)?;
    Ok(())
}
