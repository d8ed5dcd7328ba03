//! What the frontend's messages are shown as.

ghost use Rattle.std.specs.Prelude.{◌≡◌, ◌++◌, codes, OnOk};
ghost use Rattle.std.specs.Fmt.{signed_decimal};
ghost use Rattle.pgpipe_frames.specs.Frontend.{bind_text, formats_text, front_text};
ghost use Rattle.pgpipe_texts.specs.Text.{listed, quoted, whole};
ghost use Rattle.pgpipe_texts.specs.Words.{target_text, type_text};

use pg_wire::{FrontMessage, Seq, Target, Values};
use pgpipe_texts::{put_after, put_name, put_named, put_named_quoted, put_number, put_quoted};
use std::alloc::AllocError;

// Appends a Parse.
fn put_parse(
    name: &Seq<u8>,
    text: &Seq<u8>,
    types: &Seq<u32>,
    line: &mut Vec<u8>,
) -> Result<(), AllocError>
    ensures { OnOk result (line.new.items ≡ line.old.items ++ (codes "Parse " ++ quoted name.now
        ++ codes " " ++ listed type_text types.now ++ codes " " ++ whole text.now)) }
{
    put_named_quoted(b"Parse ", name, line)?;
    put_after(b" ", types, line)?;
    put_named(b" ", text, line)
}

// Appends the formats of a Bind.
#[tactic(auto, unfolding(crate::specs::Frontend::formats_text))]
fn put_formats(
    formats: &Seq<i16>,
    result_formats: &Seq<i16>,
    line: &mut Vec<u8>,
) -> Result<(), AllocError>
    ensures { OnOk result (line.new.items
        ≡ line.old.items ++ formats_text formats.now result_formats.now) }
{
    put_after(b" formats ", formats, line)?;
    put_after(b" results ", result_formats, line)
}

// Appends a Bind without its formats.
#[tactic(auto, unfolding(crate::specs::Frontend::bind_text))]
fn put_bind(
    portal: &Seq<u8>,
    statement: &Seq<u8>,
    values: &Values,
    line: &mut Vec<u8>,
) -> Result<(), AllocError>
    ensures { OnOk result (line.new.items
        ≡ line.old.items ++ bind_text portal.now statement.now values.now) }
{
    put_named_quoted(b"Bind ", portal, line)?;
    put_named_quoted(b" to ", statement, line)?;
    put_after(b" ", values, line)
}

// Appends a name, what kind of thing is named, and how that is called.
fn put_target(
    name: &[u8],
    target: Target,
    called: &Seq<u8>,
    line: &mut Vec<u8>,
) -> Result<(), AllocError>
    ensures { OnOk result (line.new.items
        ≡ line.old.items ++ (name.now ++ target_text target ++ quoted called.now)) }
{
    put_after(name, &target, line)?;
    put_quoted(called.as_slice(), line)
}

// Appends an Execute.
fn put_execute(portal: &Seq<u8>, max_rows: i32, line: &mut Vec<u8>) -> Result<(), AllocError>
    ensures { OnOk result (line.new.items ≡ line.old.items ++ (codes "Execute " ++ quoted portal.now
        ++ codes " rows " ++ signed_decimal max_rows)) }
{
    put_named_quoted(b"Execute ", portal, line)?;
    line.extend_from_slice(b" rows ")?;
    put_number(max_rows, line)
}

/// Appends the text of a message. A password is hidden.
pub fn put_front_message(message: &FrontMessage, line: &mut Vec<u8>) -> Result<(), AllocError>
    ensures { OnOk result (line.new.items ≡ line.old.items ++ front_text message.now) }
{
    match message {
        FrontMessage::Query(text) => put_named(b"Query ", text, line),
        FrontMessage::Parse { name, text, types } => put_parse(name, text, types, line),
        FrontMessage::Bind {
            portal,
            statement,
            formats,
            values,
            result_formats,
        } => {
            put_bind(portal, statement, values, line)?;
            put_formats(formats, result_formats, line)
        }
        FrontMessage::Describe { target, name } => { put_target(b"Describe ", *target, name, line) }
        FrontMessage::Close { target, name } => put_target(b"Close ", *target, name, line),
        FrontMessage::Execute { portal, max_rows } => put_execute(portal, *max_rows, line),
        FrontMessage::Sync => put_name(b"Sync", line),
        FrontMessage::Flush => put_name(b"Flush", line),
        FrontMessage::Terminate => put_name(b"Terminate", line),
        FrontMessage::CopyData(bytes) => put_named_quoted(b"CopyData ", bytes, line),
        FrontMessage::CopyDone => put_name(b"CopyDone", line),
        FrontMessage::CopyFail(reason) => put_named_quoted(b"CopyFail ", reason, line),
        FrontMessage::Password(_) => put_name(b"PasswordMessage (hidden)", line),
    }
}
