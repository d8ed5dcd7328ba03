//! Values that a Bind is written of.

use anyhow::bail;
use pg_wire::frontend;
use std::alloc::Global;

/// Each value.
const VALUE: &[u8] = b"a value of a text";

/// How many values are written in all, at most.
const ALL: usize = 1_000_000;

/// Writes a Bind of so many values, as often as it takes to write a million.
pub fn bind(alloc: Global, count: usize) -> anyhow::Result<u64> {
    if count == 0 {
        bail!("a Bind has a value at least");
    }
    let mut values: Vec<Option<&[u8]>> = Vec::new(alloc);
    for _ in 0..count {
        values.push(Some(VALUE))?;
    }
    let mut buf = Vec::new(alloc);
    let mut size = 0u64;
    for _ in 0..ALL / count {
        buf.clear();
        frontend::bind(b"", b"statement", &[0], values.as_slice(), &[0], &mut buf)?;
        size = size.wrapping_add(buf.len() as u64);
    }
    Ok(size)
}
