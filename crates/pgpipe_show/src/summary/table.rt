//! The table of what was counted.

ghost use Rattle.std.specs.Prelude.{◌≡◌, ◌++◌, IfOk, OnOk};
ghost use Rattle.std.specs.List.{flat_map};
ghost use Rattle.pgpipe_show.specs.Private.CountMap.{rows_of};
ghost use Rattle.pgpipe_show.specs.Table.{aligned, row_line, table, table_line};

use super::counts::{FrameCount, Summary};
use std::alloc::{AllocError, Global};
use std::collections::BTreeMap;

// Appends a number at the right of twelve places, or in as many as it needs.
fn put_aligned(number: u64, text: &mut Vec<u8>) -> Result<(), AllocError>
    ensures { OnOk result (text.new.items ≡ text.old.items ++ aligned number) }
{
    let spaces = b"            ";
    let mut buffer = itoa::Buffer::new();
    let digits = buffer.format(number).as_bytes();
    text.extend_from_slice(spaces.split_at(digits.len().min(12)).1)?;
    text.extend_from_slice(digits)
}

// Appends a line.
fn put_line(counted: FrameCount, label: &[u8], text: &mut Vec<u8>) -> Result<(), AllocError>
    ensures { OnOk result (text.new.items ≡ text.old.items ++ table_line counted label.now) }
{
    put_aligned(counted.count, text)?;
    put_aligned(counted.bytes, text)?;
    text.extend_from_slice(b"  ")?;
    text.extend_from_slice(label)?;
    text.extend_from_slice(b"\n")
}

// Appends the line of each row.
fn put_rows(rows: &BTreeMap<Vec<u8>, FrameCount>, text: &mut Vec<u8>) -> Result<(), AllocError>
    ensures { OnOk result (text.new.items
        ≡ text.old.items ++ flat_map row_line (rows_of rows.now.entries)) }
{
    'rows: for (label, counted) in rows.iter() {
        put_line(*counted, label.as_slice(), text)?;
    }
    Ok(())
}

// Appends the table.
fn put_table(summary: &Summary, text: &mut Vec<u8>) -> Result<(), AllocError>
    ensures { OnOk result (text.new.items ≡ text.old.items ++ table summary.now) }
{
    text.extend_from_slice(b"    messages       bytes  name\n")?;
    put_rows(summary.rows(), text)?;
    put_line(summary.total(), b"total", text)
}

/// The table of what was counted, for a person to read.
pub fn table_text(alloc: Global, summary: &Summary) -> Result<Vec<u8>, AllocError>
    ensures { IfOk result (λ text. text.items ≡ table summary.now) }
{
    let mut text = Vec::new(alloc);
    put_table(summary, &mut text)?;
    Ok(text)
}
