//! A settled group as psql prints it, unaligned and terse.

use pg_client::Settled;
use pg_wire::{Aside, Column, Fields, Part, Seq, Values};
use std::io;
use std::io::Write;

// An error or a notice: its severity, its message and its place in the query.
fn print_fields(fields: &Fields, out: &mut impl Write) -> io::Result<()> {
    out.write_all(fields.get(b'S').unwrap_or(b"".as_slice()))?;
    out.write_all(b":  ")?;
    out.write_all(fields.message().unwrap_or(b"".as_slice()))?;
    if let Some(place) = fields.get(b'P') {
        out.write_all(b" at character ")?;
        out.write_all(place)?;
    }
    out.write_all(b"\n")
}

fn print_line(text: &[u8], out: &mut impl Write) -> io::Result<()> {
    out.write_all(text)?;
    out.write_all(b"\n")
}

fn print_row(values: &Values, out: &mut impl Write) -> io::Result<()> {
    let mut first = true;
    for value in values.iter() {
        if !first {
            out.write_all(b"|")?;
        }
        first = false;
        if let Some(bytes) = value {
            out.write_all(bytes)?;
        }
    }
    out.write_all(b"\n")
}

fn print_rows(columns: &Seq<Column>, rows: &Seq<Values>, out: &mut impl Write) -> io::Result<()> {
    let mut first = true;
    for column in columns {
        if !first {
            out.write_all(b"|")?;
        }
        first = false;
        out.write_all(column.name.as_slice())?;
    }
    out.write_all(b"\n")?;
    if !columns.is_empty() {
        for row in rows {
            print_row(row, out)?;
        }
    }
    match rows.len() {
        1 => out.write_all(b"(1 row)\n"),
        count => writeln!(out, "({count} rows)"),
    }
}

// A whole result. psql says nothing of an empty query, and of a copy from the server only its data.
fn print_part(part: &Part, out: &mut impl Write) -> io::Result<()> {
    match part {
        Part::Rows { columns, rows, .. } => print_rows(columns, rows, out),
        Part::Command(tag) => print_line(tag.as_slice(), out),
        Part::CopyIn { tag, .. } => print_line(tag.as_slice(), out),
        Part::CopyOut { chunks, .. } => {
            for chunk in chunks {
                out.write_all(chunk.as_slice())?;
            }
            Ok(())
        }
        _ => Ok(()),
    }
}

fn print_notices(asides: &Seq<Aside>, out: &mut impl Write) -> io::Result<()> {
    for aside in asides {
        if let Aside::Notice(fields) = aside {
            print_fields(fields, out)?;
        }
    }
    Ok(())
}

fn print_notifications(asides: &Seq<Aside>, out: &mut impl Write) -> io::Result<()> {
    for aside in asides {
        if let Aside::Notification {
            process,
            channel,
            payload,
        } = aside
        {
            out.write_all(b"Asynchronous notification \"")?;
            out.write_all(channel.as_slice())?;
            out.write_all(b"\" with payload \"")?;
            out.write_all(payload.as_slice())?;
            writeln!(out, "\" received from server process with PID {process}.")?;
        }
    }
    Ok(())
}

/// Writes a settled group. psql prints notices as they come, which is before the results of the commands recorded here, and
/// notifications last.
pub fn print(settled: &Settled, out: &mut impl Write) -> io::Result<()> {
    print_notices(&settled.outcome.asides, out)?;
    for part in &settled.outcome.parts {
        print_part(part, out)?;
    }
    if let Some(fields) = &settled.outcome.error {
        print_fields(fields, out)?;
    }
    print_notifications(&settled.outcome.asides, out)
}
