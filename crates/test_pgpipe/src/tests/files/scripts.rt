//! What is so of a script that was read.

use crate::tests::files::values::TableFields;
use pg_backend::{Answer, Load, Script, ScriptPart};
use pg_wire::{CopyHead, Seq};
use pgpipe_files::read_script;
use std::alloc::{AllocError, Global};
use testing::holds;
use testing::values::{fields, head, text};

/// The head of a copy with so many columns, which all have the copy's format.
#[derive(Clone, Copy)]
pub(crate) enum TableHead {
    Text(usize),
    Binary(usize),
}

/// What becomes of a copy from the client.
#[derive(Clone, Copy)]
pub(crate) enum TableLoad {
    /// It is complete with this tag.
    Accept(&'static [u8]),
    /// It is rejected after so many chunks, with these fields.
    Refuse(u32, TableFields),
}

/// A part of an answer.
#[derive(Clone, Copy)]
pub(crate) enum TablePart {
    CopyOut {
        head: TableHead,
        chunks: &'static [&'static [u8]],
        tag: &'static [u8],
    },
    CopyIn(TableHead, TableLoad),
}

fn binary(alloc: Global, columns: usize) -> Result<CopyHead, AllocError> {
    Ok(CopyHead {
        binary: true,
        formats: Seq::new(vec![in alloc; 1; columns]?),
    })
}

fn copy_head(alloc: Global, table: TableHead) -> Result<CopyHead, AllocError> {
    match table {
        TableHead::Text(columns) => head(alloc, false, columns),
        TableHead::Binary(columns) => binary(alloc, columns),
    }
}

fn chunks(alloc: Global, list: &[&[u8]]) -> Result<Seq<Seq<u8>>, AllocError> {
    let mut chunks = Vec::new(alloc);
    for bytes in list {
        chunks.push(text(alloc, *bytes)?)?;
    }
    Ok(Seq::new(chunks))
}

fn load(alloc: Global, load: TableLoad) -> Result<Load, AllocError> {
    match load {
        TableLoad::Accept(tag) => Ok(Load::Accept(text(alloc, tag)?)),
        TableLoad::Refuse(after, list) => Ok(Load::Refuse {
            after,
            fields: fields(alloc, list)?,
        }),
    }
}

fn copy_out(
    alloc: Global,
    table: TableHead,
    list: &[&[u8]],
    tag: &[u8],
) -> Result<ScriptPart, AllocError> {
    Ok(ScriptPart::CopyOut {
        head: copy_head(alloc, table)?,
        chunks: chunks(alloc, list)?,
        tag: text(alloc, tag)?,
    })
}

fn copy_in(alloc: Global, table: TableHead, taken: TableLoad) -> Result<ScriptPart, AllocError> {
    Ok(ScriptPart::CopyIn {
        head: copy_head(alloc, table)?,
        load: load(alloc, taken)?,
    })
}

fn part(alloc: Global, part: TablePart) -> Result<ScriptPart, AllocError> {
    match part {
        TablePart::CopyOut { head, chunks, tag } => copy_out(alloc, head, chunks, tag),
        TablePart::CopyIn(head, load) => copy_in(alloc, head, load),
    }
}

fn is_part(alloc: Global, found: &ScriptPart, wanted: TablePart) -> Result<bool, AllocError> {
    Ok(*found == part(alloc, wanted)?)
}

fn are_parts(
    alloc: Global,
    found: &[ScriptPart],
    wanted: &[TablePart],
) -> Result<bool, AllocError> {
    for (it, part) in found.iter().zip(wanted) {
        if !is_part(alloc, it, *part)? {
            return Ok(false);
        }
    }
    Ok(found.len() == wanted.len())
}

fn has_parts(
    alloc: Global,
    answer: Option<&Answer>,
    wanted: &[TablePart],
) -> Result<bool, AllocError> {
    match answer {
        Some(answer) => are_parts(alloc, answer.parts.as_slice(), wanted),
        None => Ok(false),
    }
}

fn begins_with(alloc: Global, script: &Script, wanted: &[TablePart]) -> Result<bool, AllocError> {
    let answers = script.answers.as_slice();
    has_parts(alloc, answers.first(), wanted)
}

/// Whether the first answer of the script that this file is read as has these parts.
pub(crate) fn says(alloc: Global, file: &[u8], wanted: &[TablePart]) -> bool {
    holds(
        read_script(alloc, file).ok(),
        |script| begins_with(alloc, script, wanted) == Ok(true),
    )
}
