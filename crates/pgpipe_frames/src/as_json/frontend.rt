//! What the frontend's messages are shown as.

ghost use Rattle.std.specs.Prelude.{◌≡◌, codes, IfOk, OnOk};
ghost use Rattle.serde_json.specs.Data.{put as with_member};
ghost use Rattle.serde_json.specs.View.{members_view, view};
ghost use Rattle.pgpipe_frames.specs.Json.Frontend.{front_called, front_json, front_members};
ghost use Rattle.pgpipe_frames.specs.Json.Frontend.{target_key};
ghost use Rattle.pgpipe_texts.specs.Json.Members.{with_members};
ghost use Rattle.pgpipe_texts.specs.Json.Values.{count_json, list_json, signed_json, text_json};
ghost use Rattle.pgpipe_texts.specs.Json.Values.{text_or_null};

use pg_wire::{FrontMessage, Seq, Target, Values};
use pgpipe_texts::as_json::{begin, put_hidden, put_shown, put_text};
use serde_json::{Map, Value};
use std::alloc::{AllocError, Global};

// The key under which the name of a statement or of a portal stands.
fn target_key(target: Target) -> &'static str
    ensures { result.now ≡ target_key target }
{
    match target {
        Target::Statement => "statement",
        Target::Portal => "portal",
    }
}

// Puts a Parse.
fn put_parse(
    name: &Seq<u8>,
    text: &Seq<u8>,
    types: &Seq<u32>,
    alloc: Global,
    object: &mut Map<String, Value>,
) -> Result<(), AllocError>
    ensures { OnOk result (members_view object.new.entries
        ≡ with_member (codes "types") (list_json count_json types.now)
        (with_member (codes "query") (text_json text.now)
        (with_member (codes "statement") (text_json name.now)
        (members_view object.old.entries)))) }
{
    put_text("statement", name.as_slice(), alloc, object)?;
    put_text("query", text.as_slice(), alloc, object)?;
    put_shown("types", types, alloc, object)
}

// Puts the names of a Bind.
fn put_bound(
    portal: &Seq<u8>,
    statement: &Seq<u8>,
    alloc: Global,
    object: &mut Map<String, Value>,
) -> Result<(), AllocError>
    ensures { OnOk result (members_view object.new.entries
        ≡ with_member (codes "statement") (text_json statement.now)
        (with_member (codes "portal") (text_json portal.now) (members_view object.old.entries))) }
{
    put_text("portal", portal.as_slice(), alloc, object)?;
    put_text("statement", statement.as_slice(), alloc, object)
}

// Puts the values of a Bind, with their formats and those of the result's columns.
fn put_values(
    formats: &Seq<i16>,
    values: &Values,
    result_formats: &Seq<i16>,
    alloc: Global,
    object: &mut Map<String, Value>,
) -> Result<(), AllocError>
    ensures { OnOk result (members_view object.new.entries
        ≡ with_member (codes "result_formats") (list_json signed_json result_formats.now)
        (with_member (codes "values") (list_json text_or_null values.now)
        (with_member (codes "formats") (list_json signed_json formats.now)
        (members_view object.old.entries)))) }
{
    put_shown("formats", formats, alloc, object)?;
    put_shown("values", values, alloc, object)?;
    put_shown("result_formats", result_formats, alloc, object)
}

// Puts an Execute.
fn put_execute(
    portal: &Seq<u8>,
    max_rows: i32,
    alloc: Global,
    object: &mut Map<String, Value>,
) -> Result<(), AllocError>
    ensures { OnOk result (members_view object.new.entries
        ≡ with_member (codes "max_rows") (signed_json max_rows)
        (with_member (codes "portal") (text_json portal.now) (members_view object.old.entries))) }
{
    put_text("portal", portal.as_slice(), alloc, object)?;
    put_shown("max_rows", &max_rows, alloc, object)
}

/// The name of a message, as the documentation has it.
pub fn front_called(message: &FrontMessage) -> &'static str
    ensures { result.now ≡ front_called message.now }
{
    match message {
        FrontMessage::Query(_) => "Query",
        FrontMessage::Parse { .. } => "Parse",
        FrontMessage::Bind { .. } => "Bind",
        FrontMessage::Describe { .. } => "Describe",
        FrontMessage::Close { .. } => "Close",
        FrontMessage::Execute { .. } => "Execute",
        FrontMessage::Sync => "Sync",
        FrontMessage::Flush => "Flush",
        FrontMessage::Terminate => "Terminate",
        FrontMessage::CopyData(_) => "CopyData",
        FrontMessage::CopyDone => "CopyDone",
        FrontMessage::CopyFail(_) => "CopyFail",
        FrontMessage::Password(_) => "PasswordMessage",
    }
}

// Puts the fields of a message. A password is hidden.
fn put_front(
    message: &FrontMessage,
    alloc: Global,
    object: &mut Map<String, Value>,
) -> Result<(), AllocError>
    ensures { OnOk result (members_view object.new.entries
        ≡ with_members (front_members message.now) (members_view object.old.entries)) }
{
    match message {
        FrontMessage::Query(text) => put_text("query", text.as_slice(), alloc, object),
        FrontMessage::Parse { name, text, types } => put_parse(name, text, types, alloc, object),
        FrontMessage::Bind {
            portal,
            statement,
            formats,
            values,
            result_formats,
        } => {
            put_bound(portal, statement, alloc, object)?;
            put_values(formats, values, result_formats, alloc, object)
        }
        FrontMessage::Describe { target, name } => {
            put_text(target_key(*target), name.as_slice(), alloc, object)
        }
        FrontMessage::Close { target, name } => {
            put_text(target_key(*target), name.as_slice(), alloc, object)
        }
        FrontMessage::Execute { portal, max_rows } => {
            put_execute(portal, *max_rows, alloc, object)
        }
        FrontMessage::Sync => Ok(()),
        FrontMessage::Flush => Ok(()),
        FrontMessage::Terminate => Ok(()),
        FrontMessage::CopyData(bytes) => put_text("data", bytes.as_slice(), alloc, object),
        FrontMessage::CopyDone => Ok(()),
        FrontMessage::CopyFail(reason) => put_text("reason", reason.as_slice(), alloc, object),
        FrontMessage::Password(_) => put_hidden("password", alloc, object),
    }
}

/// A message of the frontend with this length field.
pub fn front_value(alloc: Global, size: usize, message: &FrontMessage) -> Result<Value, AllocError>
    ensures { IfOk result (λ v. view v ≡ front_json size message.now) }
{
    let mut object = begin(alloc, front_called(message), size)?;
    put_front(message, alloc, &mut object)?;
    Ok(Value::from(object))
}
