//! A settled group in words: a line for each message of its whole results or answers, and what is known beside them.

use crate::sessions::replay::SessionEnd;
use pg_client::{FeedFault, Settled};
use pg_wire::{Aside, Column, CopyHead, ExecEnd, Fields, Outcome, Part, Seq, Status, Values};
use std::io;
use std::io::Write;

// The fields with this code.
fn write_field(fields: &Fields, code: u8, out: &mut impl Write) -> io::Result<()> {
    for (found, text) in fields.iter() {
        if found == code {
            out.write_all(b" ")?;
            out.write_all(text)?;
        }
    }
    Ok(())
}

// An error or a notice: its severity, its code and its message.
fn write_fields(name: &[u8], fields: &Fields, out: &mut impl Write) -> io::Result<()> {
    out.write_all(name)?;
    write_field(fields, b'S', out)?;
    write_field(fields, b'C', out)?;
    write_field(fields, b'M', out)?;
    out.write_all(b"\n")
}

fn write_line(name: &[u8], text: &[u8], out: &mut impl Write) -> io::Result<()> {
    out.write_all(name)?;
    out.write_all(text)?;
    out.write_all(b"\n")
}

fn write_columns(columns: &Seq<Column>, out: &mut impl Write) -> io::Result<()> {
    out.write_all(b"columns ")?;
    let mut mark = b"".as_slice();
    for column in columns {
        out.write_all(mark)?;
        out.write_all(column.name.as_slice())?;
        mark = b"|";
    }
    out.write_all(b"\n")
}

fn write_row(values: &Values, out: &mut impl Write) -> io::Result<()> {
    out.write_all(b"row ")?;
    let mut mark = b"".as_slice();
    for value in values.iter() {
        out.write_all(mark)?;
        match value {
            Some(bytes) => {
                out.write_all(b"=")?;
                out.write_all(bytes)?;
            }
            None => out.write_all(b"null")?,
        }
        mark = b"|";
    }
    out.write_all(b"\n")
}

fn write_rows(rows: &Seq<Values>, out: &mut impl Write) -> io::Result<()> {
    for row in rows {
        write_row(row, out)?;
    }
    Ok(())
}

fn write_end(end: &ExecEnd, out: &mut impl Write) -> io::Result<()> {
    match end {
        ExecEnd::Complete(tag) => write_line(b"complete ", tag.as_slice(), out),
        ExecEnd::Empty => out.write_all(b"empty\n"),
        ExecEnd::Suspended => out.write_all(b"suspended\n"),
    }
}

fn write_copy_head(name: &str, head: &CopyHead, out: &mut impl Write) -> io::Result<()> {
    let binary = if head.binary { 1 } else { 0 };
    write!(out, "{name} {binary} ")?;
    let mut mark = b"".as_slice();
    for format in &head.formats {
        out.write_all(mark)?;
        write!(out, "{format}")?;
        mark = b",";
    }
    out.write_all(b"\n")
}

fn write_copied(chunks: &Seq<Seq<u8>>, out: &mut impl Write) -> io::Result<()> {
    for chunk in chunks {
        out.write_all(b"data ")?;
        for byte in chunk {
            write!(out, "{byte:02x}")?;
        }
        out.write_all(b"\n")?;
    }
    out.write_all(b"copied\n")
}

// What a Describe asked for.
fn write_described(
    parameters: Option<&Seq<u32>>,
    columns: Option<&Seq<Column>>,
    out: &mut impl Write,
) -> io::Result<()> {
    if let Some(types) = parameters {
        out.write_all(b"parameters ")?;
        let mut mark = b"".as_slice();
        for id in types {
            out.write_all(mark)?;
            write!(out, "{id}")?;
            mark = b",";
        }
        out.write_all(b"\n")?;
    }
    match columns {
        Some(columns) => write_columns(columns, out),
        None => out.write_all(b"no columns\n"),
    }
}

fn write_part(part: &Part, out: &mut impl Write) -> io::Result<()> {
    match part {
        Part::Rows { columns, rows, tag } => {
            write_columns(columns, out)?;
            write_rows(rows, out)?;
            write_line(b"complete ", tag.as_slice(), out)
        }
        Part::Command(tag) => write_line(b"complete ", tag.as_slice(), out),
        Part::Empty => out.write_all(b"empty\n"),
        Part::CopyOut { head, chunks, tag } => {
            write_copy_head("copy out", head, out)?;
            write_copied(chunks, out)?;
            write_line(b"complete ", tag.as_slice(), out)
        }
        Part::CopyIn { head, tag } => {
            write_copy_head("copy in", head, out)?;
            write_line(b"complete ", tag.as_slice(), out)
        }
        Part::Parsed => out.write_all(b"parsed\n"),
        Part::Bound => out.write_all(b"bound\n"),
        Part::Described {
            parameters,
            columns,
        } => write_described(parameters.as_ref(), columns.as_ref(), out),
        Part::Executed { rows, end } => {
            write_rows(rows, out)?;
            write_end(end, out)
        }
        Part::Shut => out.write_all(b"closed\n"),
    }
}

fn write_aside(aside: &Aside, out: &mut impl Write) -> io::Result<()> {
    match aside {
        Aside::Notice(fields) => write_fields(b"notice", fields, out),
        Aside::Parameter { name, value } => {
            out.write_all(b"parameter ")?;
            out.write_all(name.as_slice())?;
            write_line(b"=", value.as_slice(), out)
        }
        Aside::Notification {
            process,
            channel,
            payload,
        } => {
            write!(out, "notification {process} ")?;
            out.write_all(channel.as_slice())?;
            write_line(b" ", payload.as_slice(), out)
        }
    }
}

/// Writes a settled group: its parts, the error, what was said beside it, and the status.
pub fn write_words(settled: &Settled, out: &mut impl Write) -> io::Result<()> {
    let Outcome {
        parts,
        error,
        status,
        asides,
    } = &settled.outcome;
    for part in parts {
        write_part(part, out)?;
    }
    if let Some(fields) = error {
        write_fields(b"error", fields, out)?;
    }
    for aside in asides {
        write_aside(aside, out)?;
    }
    out.write_all(match status {
        Status::Idle => b"ready I\n",
        Status::InBlock => b"ready T\n",
        Status::Failed => b"ready E\n",
    })
}

/// Writes the fault that closed the client, if one did, and whether a request was left unsettled.
pub fn write_ending(ending: &SessionEnd, out: &mut impl Write) -> io::Result<()> {
    match &ending.refusal {
        Some(FeedFault::StartupError(fields)) => write_fields(b"refused", fields, out)?,
        Some(fault) => writeln!(out, "refused {fault}")?,
        None => {}
    }
    if ending.loss.unsettled.is_some() {
        out.write_all(b"unsettled")?;
        if ending.loss.seen_error {
            out.write_all(b", with an error")?;
        }
        out.write_all(b"\n")?;
    }
    Ok(())
}
