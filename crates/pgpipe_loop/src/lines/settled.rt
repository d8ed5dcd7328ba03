//! The lines of a settled group, in the form of a script.

ghost use Rattle.std.specs.Prelude.{◌≡◌, ◌∷◌, map, OnOk};
ghost use Rattle.pgpipe_loop.specs.Lines.{aside_row, chunk_row, copy_in_row, copy_out_row};
ghost use Rattle.pgpipe_loop.specs.Lines.{described_row, executed_row, logged_rows};
ghost use Rattle.pgpipe_loop.specs.Lines.{outcome_error_rows, parameter_rows, part_rows, rows_row};
ghost use Rattle.pgpipe_loop.specs.Lines.{settled_rows, status_letter, value_row};
ghost use Rattle.pgpipe_loop.specs.Private.Lines.{with_row, with_rows};

use super::buffer::{LineBuffer, PutsLine, PutsLines};
use super::lists::{put_all_lines, put_each_field, put_each_line};
use super::short::{
    put_error_line, put_head, put_list_line, put_request_line, put_text_line, put_values,
    put_word_line,
};
use pg_backend::Logged;
use pg_client::Settled;
use pg_wire::{
    Aside, Column, CopyHead, ExecEnd, Fields, Outcome, Part, Request, Seq, Status, Values,
};
use std::alloc::AllocError;

impl PutsLine for Aside {
    ghost line_row = { aside_row };

    fn put_line(&self, lines: &mut LineBuffer) -> Result<(), AllocError> {
        match self {
            Aside::Notice(fields) => put_error_line(b"notice", fields, lines),
            Aside::Parameter { name, value } => put_parameter(name, value, lines),
            Aside::Notification {
                process,
                channel,
                payload,
            } => put_notification(*process, channel, payload, lines),
        }
    }
}

// A row of a result.
impl PutsLine for Values {
    ghost line_row = { value_row };

    fn put_line(&self, lines: &mut LineBuffer) -> Result<(), AllocError> {
        lines.put_text(b"row")?;
        put_values(self, lines)?;
        lines.end()
    }
}

// A chunk of a copy.
impl PutsLine for Seq<u8> {
    ghost line_row = { chunk_row };

    fn put_line(&self, lines: &mut LineBuffer) -> Result<(), AllocError> {
        put_text_line(b"chunk", self.as_slice(), lines)
    }
}

impl PutsLines for Part {
    ghost rows = { part_rows };

    fn put_lines(&self, lines: &mut LineBuffer) -> Result<(), AllocError> {
        match self {
            Part::Rows { columns, rows, tag } => put_rows(columns, rows, tag, lines),
            Part::Command(tag) => put_text_line(b"command", tag.as_slice(), lines),
            Part::Empty => put_word_line(b"empty", lines),
            Part::CopyOut { head, chunks, tag } => put_copy_out(head, chunks, tag, lines),
            Part::CopyIn { head, tag } => put_copy_in(head, tag, lines),
            Part::Parsed => put_word_line(b"parsed", lines),
            Part::Bound => put_word_line(b"bound", lines),
            Part::Described {
                parameters,
                columns,
            } => put_description(parameters, columns, lines),
            Part::Executed { rows, end } => put_executed(rows, end, lines),
            Part::Shut => put_word_line(b"shut", lines),
        }
    }
}

impl PutsLines for Settled {
    ghost rows = { settled_rows };

    fn put_lines(&self, lines: &mut LineBuffer) -> Result<(), AllocError> {
        put_settled(&self.request, &self.outcome, lines)
    }
}

impl PutsLines for Logged {
    ghost rows = { logged_rows };

    fn put_lines(&self, lines: &mut LineBuffer) -> Result<(), AllocError> {
        put_settled(&self.request, &self.outcome, lines)
    }
}

// Puts the lines of a request that ended so.
fn put_settled(
    request: &Request,
    outcome: &Outcome,
    lines: &mut LineBuffer,
) -> Result<(), AllocError>
    ensures { OnOk result (lines.new ≡ with_rows lines.old
        (settled_rows (record { request = request.now; outcome = outcome.now }))) }
{
    put_request_line(b"settled", request, lines)?;
    put_each_line(outcome.asides.as_slice(), lines)?;
    put_all_lines(outcome.parts.as_slice(), lines)?;
    put_error(&outcome.error, lines)?;
    put_text_line(b"status", status_letter(outcome.status), lines)
}

fn status_letter(status: Status) -> &'static [u8]
    ensures { result.now ≡ status_letter status }
{
    match status {
        Status::Idle => b"I",
        Status::InBlock => b"T",
        Status::Failed => b"E",
    }
}

fn put_parameter(name: &Seq<u8>, value: &Seq<u8>, lines: &mut LineBuffer) -> Result<(), AllocError>
    ensures { OnOk result (lines.new
        ≡ with_row lines.old (aside_row (Aside.Parameter name.now value.now))) }
{
    lines.put_text(b"set")?;
    lines.put_text(name.as_slice())?;
    lines.put_text(value.as_slice())?;
    lines.end()
}

fn put_notification(
    process: i32,
    channel: &Seq<u8>,
    payload: &Seq<u8>,
    lines: &mut LineBuffer,
) -> Result<(), AllocError>
    ensures { OnOk result (lines.new
        ≡ with_row lines.old (aside_row (Aside.Notification process channel.now payload.now))) }
{
    lines.put_text(b"notify")?;
    lines.put_signed(process)?;
    lines.put_text(channel.as_slice())?;
    lines.put_text(payload.as_slice())?;
    lines.end()
}

fn put_rows(
    columns: &Seq<Column>,
    rows: &Seq<Values>,
    tag: &Seq<u8>,
    lines: &mut LineBuffer,
) -> Result<(), AllocError>
    ensures { OnOk result (lines.new
        ≡ with_rows lines.old (rows_row columns.now tag.now ∷ map value_row rows.now)) }
{
    lines.put_text(b"rows")?;
    lines.put_text(tag.as_slice())?;
    put_each_field(columns.as_slice(), lines)?;
    lines.end()?;
    put_each_line(rows.as_slice(), lines)
}

fn put_copy_out(
    head: &CopyHead,
    chunks: &Seq<Seq<u8>>,
    tag: &Seq<u8>,
    lines: &mut LineBuffer,
) -> Result<(), AllocError>
    ensures { OnOk result (lines.new
        ≡ with_rows lines.old (copy_out_row head.now tag.now ∷ map chunk_row chunks.now)) }
{
    lines.put_text(b"copyout")?;
    lines.put_text(tag.as_slice())?;
    put_head(head, lines)?;
    lines.end()?;
    put_each_line(chunks.as_slice(), lines)
}

fn put_copy_in(head: &CopyHead, tag: &Seq<u8>, lines: &mut LineBuffer) -> Result<(), AllocError>
    ensures { OnOk result (lines.new ≡ with_row lines.old (copy_in_row head.now tag.now)) }
{
    lines.put_text(b"copyin")?;
    put_head(head, lines)?;
    lines.put_text(b"accept")?;
    lines.put_text(tag.as_slice())?;
    lines.end()
}

fn put_parameters(parameters: &Option<Seq<u32>>, lines: &mut LineBuffer) -> Result<(), AllocError>
    ensures { OnOk result (lines.new ≡ with_rows lines.old (parameter_rows parameters.now)) }
{
    match parameters {
        None => Ok(()),
        Some(types) => put_list_line(b"paramtypes", types.as_slice(), lines),
    }
}

fn put_columns(columns: &Option<Seq<Column>>, lines: &mut LineBuffer) -> Result<(), AllocError>
    ensures { OnOk result (lines.new ≡ with_row lines.old (described_row columns.now)) }
{
    match columns {
        None => put_word_line(b"described", lines),
        Some(columns) => put_list_line(b"described", columns.as_slice(), lines),
    }
}

fn put_description(
    parameters: &Option<Seq<u32>>,
    columns: &Option<Seq<Column>>,
    lines: &mut LineBuffer,
) -> Result<(), AllocError>
    ensures { OnOk result (lines.new
        ≡ with_rows lines.old (part_rows (Part.Described parameters.now columns.now))) }
{
    put_parameters(parameters, lines)?;
    put_columns(columns, lines)
}

fn put_end(end: &ExecEnd, lines: &mut LineBuffer) -> Result<(), AllocError>
    ensures { OnOk result (lines.new ≡ with_row lines.old (executed_row end.now)) }
{
    lines.put_text(b"executed")?;
    match end {
        ExecEnd::Complete(tag) => put_text_line(b"complete", tag.as_slice(), lines),
        ExecEnd::Empty => put_word_line(b"empty", lines),
        ExecEnd::Suspended => put_word_line(b"suspended", lines),
    }
}

fn put_executed(rows: &Seq<Values>, end: &ExecEnd, lines: &mut LineBuffer) -> Result<(), AllocError>
    ensures { OnOk result (lines.new
        ≡ with_rows lines.old (executed_row end.now ∷ map value_row rows.now)) }
{
    put_end(end, lines)?;
    put_each_line(rows.as_slice(), lines)
}

fn put_error(error: &Option<Fields>, lines: &mut LineBuffer) -> Result<(), AllocError>
    ensures { OnOk result (lines.new ≡ with_rows lines.old (outcome_error_rows error.now)) }
{
    match error {
        None => Ok(()),
        Some(fields) => put_error_line(b"error", fields, lines),
    }
}
