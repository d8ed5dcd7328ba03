//! What the log says of a request, copied from the script.

ghost use Rattle.std.specs.Prelude.{◌≡◌, IfOk, option_to_list};
ghost use Rattle.pg_wire.specs.declared.session.Part.TheVariants as part;
ghost use Rattle.pg_wire.specs.declared.session.Outcome.{Outcome};
ghost use Rattle.pg_backend.specs.declared.script.ScriptPart.TheVariants as script_part;
ghost use Rattle.pg_backend.specs.Outcome.{complete, parts_of, whole_outcome};

use crate::script::{Answer, Load, ScriptPart};
use pg_wire::{Aside, Column, CopyHead, ExecEnd, Fields, Outcome, Part, Seq, Values};
use std::alloc::{AllocError, Global};

fn copy_of_rows(alloc: Global, rows: &[Values]) -> Result<Seq<Values>, AllocError>
    ensures { IfOk result (λ copy. copy ≡ rows.now) }
{
    let mut copy = Seq::new(Vec::new(alloc));
    for row in rows {
        copy.push(row.clone()?)?;
    }
    Ok(copy)
}

fn copy_of_end(end: &ExecEnd) -> Result<ExecEnd, AllocError>
    ensures { IfOk result (λ copy. copy ≡ end.now) }
{
    match end {
        ExecEnd::Complete(tag) => Ok(ExecEnd::Complete(tag.clone()?)),
        ExecEnd::Empty => Ok(ExecEnd::Empty),
        ExecEnd::Suspended => Ok(ExecEnd::Suspended),
    }
}

fn copy_of_aside(aside: &Aside) -> Result<Aside, AllocError>
    ensures { IfOk result (λ copy. copy ≡ aside.now) }
{
    match aside {
        Aside::Notice(fields) => Ok(Aside::Notice(fields.clone()?)),
        Aside::Parameter { name, value } => Ok(Aside::Parameter {
            name: name.clone()?,
            value: value.clone()?,
        }),
        Aside::Notification {
            process,
            channel,
            payload,
        } => Ok(Aside::Notification {
            process: *process,
            channel: channel.clone()?,
            payload: payload.clone()?,
        }),
    }
}

fn copy_of_asides(alloc: Global, asides: &[Aside]) -> Result<Seq<Aside>, AllocError>
    ensures { IfOk result (λ copy. copy ≡ asides.now) }
{
    let mut copy = Seq::new(Vec::new(alloc));
    for aside in asides {
        copy.push(copy_of_aside(aside)?)?;
    }
    Ok(copy)
}

/// A copy of how a copy from the client ends.
pub fn copy_of_load(load: &Load) -> Result<Load, AllocError>
    ensures { IfOk result (λ copy. copy ≡ load.now) }
{
    match load {
        Load::Accept(tag) => Ok(Load::Accept(tag.clone()?)),
        Load::Refuse { after, fields } => Ok(Load::Refuse {
            after: *after,
            fields: fields.clone()?,
        }),
    }
}

// A result with rows that have these columns.
fn complete_rows(
    alloc: Global,
    columns: &Seq<Column>,
    rows: &[Values],
    tag: &Seq<u8>,
) -> Result<Part, AllocError>
    ensures { IfOk result (λ p. p ≡ part.Rows columns.now rows.now tag.now) }
{
    Ok(Part::Rows {
        columns: columns.clone()?,
        rows: copy_of_rows(alloc, rows)?,
        tag: tag.clone()?,
    })
}

// A copy to the client.
fn complete_copy_out(
    head: &CopyHead,
    chunks: &Seq<Seq<u8>>,
    tag: &Seq<u8>,
) -> Result<Part, AllocError>
    ensures { IfOk result (λ p. p ≡ part.CopyOut head.now chunks.now tag.now) }
{
    Ok(Part::CopyOut {
        head: head.clone()?,
        chunks: chunks.clone()?,
        tag: tag.clone()?,
    })
}

// A copy from the client, unless it is rejected, which is never complete.
fn complete_copy_in(head: &CopyHead, load: &Load) -> Result<Option<Part>, AllocError>
    ensures { IfOk result (λ o.
        option_to_list o ≡ complete (script_part.CopyIn head.now load.now)) }
{
    match load {
        Load::Accept(tag) => Ok(Some(Part::CopyIn {
            head: head.clone()?,
            tag: tag.clone()?,
        })),
        Load::Refuse { .. } => Ok(None),
    }
}

// The answer to a Describe.
fn complete_described(
    parameters: &Option<Seq<u32>>,
    columns: &Option<Seq<Column>>,
) -> Result<Part, AllocError>
    ensures { IfOk result (λ p. p ≡ part.Described parameters.now columns.now) }
{
    Ok(Part::Described {
        parameters: parameters.clone()?,
        columns: columns.clone()?,
    })
}

// The answer to an Execute.
fn complete_executed(alloc: Global, rows: &[Values], end: &ExecEnd) -> Result<Part, AllocError>
    ensures { IfOk result (λ p. p ≡ part.Executed rows.now end.now) }
{
    Ok(Part::Executed {
        rows: copy_of_rows(alloc, rows)?,
        end: copy_of_end(end)?,
    })
}

// What the log has of the part once it is complete. None for a copy that is rejected, which never is.
fn complete_part(alloc: Global, part: &ScriptPart) -> Result<Option<Part>, AllocError>
    ensures { IfOk result (λ o. option_to_list o ≡ complete part.now) }
{
    match part {
        ScriptPart::Rows { columns, rows, tag } => {
            let part = complete_rows(alloc, columns, rows.as_slice(), tag)?;
            Ok(Some(part))
        }
        ScriptPart::Command(tag) => Ok(Some(Part::Command(tag.clone()?))),
        ScriptPart::Empty => Ok(Some(Part::Empty)),
        ScriptPart::CopyOut { head, chunks, tag } => {
            let part = complete_copy_out(head, chunks, tag)?;
            Ok(Some(part))
        }
        ScriptPart::CopyIn { head, load } => complete_copy_in(head, load),
        ScriptPart::Parsed => Ok(Some(Part::Parsed)),
        ScriptPart::Bound => Ok(Some(Part::Bound)),
        ScriptPart::Described {
            parameters,
            columns,
        } => Ok(Some(complete_described(parameters, columns)?)),
        ScriptPart::Executed { rows, end } => {
            Ok(Some(complete_executed(alloc, rows.as_slice(), end)?))
        }
        ScriptPart::Shut => Ok(Some(Part::Shut)),
    }
}

// The parts that are complete.
fn complete_parts(alloc: Global, parts: &[ScriptPart]) -> Result<Seq<Part>, AllocError>
    ensures { IfOk result (λ ps. ps ≡ parts_of parts.now) }
{
    let mut complete = Seq::new(Vec::new(alloc));
    for part in parts {
        if let Some(part) = complete_part(alloc, part)? {
            complete.push(part)?;
        }
    }
    Ok(complete)
}

/// The outcome of an answer with these complete parts, and with this error, if there is one.
pub fn outcome(
    alloc: Global,
    answer: &Answer,
    parts: &[ScriptPart],
    error: Option<Fields>,
) -> Result<Outcome, AllocError>
    ensures { IfOk result (λ o. o ≡ record {
      parts = parts_of parts.now;
      error = error;
      status = answer.now.status;
      asides = answer.now.before;
    }) }
{
    Ok(Outcome {
        parts: complete_parts(alloc, parts)?,
        error,
        status: answer.status,
        asides: copy_of_asides(alloc, answer.before.as_slice())?,
    })
}

/// The outcome of an answer that is given whole.
pub fn whole_outcome(alloc: Global, answer: &Answer) -> Result<Outcome, AllocError>
    ensures { IfOk result (λ o. o ≡ whole_outcome answer.now) }
{
    let error = answer.error.clone()?;
    outcome(alloc, answer, answer.parts.as_slice(), error)
}
