//! What the backend's messages are shown as.

ghost use Rattle.std.specs.Prelude.{◌≡◌, codes, option_copied, IfOk, OnOk};
ghost use Rattle.pgpipe_texts.specs.Backend.{named_request};
ghost use Rattle.pgpipe_texts.specs.Words.{status_text};
ghost use Rattle.serde_json.specs.Data.{put as with_member};
ghost use Rattle.serde_json.specs.View.{members_view, view};
ghost use Rattle.pgpipe_texts.specs.Json.Backend.{back_called, back_json, back_members};
ghost use Rattle.pgpipe_texts.specs.Json.Backend.{column_json, copy_members, error_members};
ghost use Rattle.pgpipe_texts.specs.Json.Backend.{field_json, key_members, origin_members};
ghost use Rattle.pgpipe_texts.specs.Json.Backend.{request_called, request_members, request_more};
ghost use Rattle.pgpipe_texts.specs.Json.Backend.{type_members, type_name};
ghost use Rattle.pgpipe_texts.specs.Json.Members.{with_members};
ghost use Rattle.pgpipe_texts.specs.Json.Values.{hex_json, list_json, signed_json, text_json};
ghost use Rattle.pgpipe_texts.specs.Json.Values.{word_or_null};

use super::members::{begin, put_hidden, put_optional, put_shown, put_text, put_word};
use super::values::{ToJson, hex_value, word_value};
use crate::words::{array_type, other_type, plain_type};
use pg_wire::{BackMessage, Column, CopyHead, Fields, Seq, Status};
use serde_json::{Map, Value};
use std::alloc::{AllocError, Global};

// ---- columns

// The name of a type, where it is a usual one.
fn type_name(oid: u32) -> Option<&'static str>
    ensures { option_copied result ≡ type_name oid }
{
    if let Some(name) = plain_type(oid) {
        return Some(name);
    }
    if let Some(name) = other_type(oid) {
        return Some(name);
    }
    array_type(oid)
}

// Puts the name of a column, and where it is from.
fn put_origin(
    column: &Column,
    alloc: Global,
    object: &mut Map<String, Value>,
) -> Result<(), AllocError>
    ensures { OnOk result (members_view object.new.entries
        ≡ with_members (origin_members column.now) (members_view object.old.entries)) }
{
    put_text("name", column.name.as_slice(), alloc, object)?;
    put_shown("table", &column.table_oid, alloc, object)?;
    put_shown("attribute", &column.attribute, alloc, object)
}

// Puts the name of a type, where it is a usual one.
fn put_type_name(oid: u32, alloc: Global, object: &mut Map<String, Value>) -> Result<(), AllocError>
    ensures { OnOk result (members_view object.new.entries ≡ with_member (codes "type_name")
        (word_or_null (type_name oid)) (members_view object.old.entries)) }
{
    let value = word_value(alloc, type_name(oid))?;
    serde_json::put(object, alloc, "type_name", value)
}

// Puts the type of a column.
fn put_type(
    column: &Column,
    alloc: Global,
    object: &mut Map<String, Value>,
) -> Result<(), AllocError>
    ensures { OnOk result (members_view object.new.entries
        ≡ with_members (type_members column.now) (members_view object.old.entries)) }
{
    put_shown("type", &column.type_oid, alloc, object)?;
    put_type_name(column.type_oid, alloc, object)?;
    put_shown("size", &column.size, alloc, object)?;
    put_shown("modifier", &column.modifier, alloc, object)?;
    put_shown("format", &column.format, alloc, object)
}

impl ToJson for Column {
    ghost shown = { column_json };

    fn value(&self, alloc: Global) -> Result<Value, AllocError> {
        let mut column = Map::new(alloc);
        put_origin(self, alloc, &mut column)?;
        put_type(self, alloc, &mut column)?;
        Ok(Value::from(column))
    }
}

// ---- errors and notices

// A field of an error or a notice.
fn field_value(alloc: Global, code: u8, text: &[u8]) -> Result<Value, AllocError>
    ensures { IfOk result (λ v. view v ≡ field_json (record { code = code; value = text.now })) }
{
    let mut field = Map::new(alloc);
    put_text("code", &[code], alloc, &mut field)?;
    put_text("value", text, alloc, &mut field)?;
    Ok(Value::from(field))
}

// The fields of an error or a notice, in their order.
fn fields_value(alloc: Global, fields: &Fields) -> Result<Value, AllocError>
    ensures { IfOk result (λ v. view v ≡ list_json field_json fields.now) }
{
    let mut list = Vec::new(alloc);
    'fields: for field in fields.iter() {
        let shown = field_value(alloc, field.0, field.1)?;
        serde_json::push(&mut list, shown)?;
    }
    Ok(Value::from(list))
}

// Puts the fields of an error or a notice.
fn put_fields(
    fields: &Fields,
    alloc: Global,
    object: &mut Map<String, Value>,
) -> Result<(), AllocError>
    ensures { OnOk result (members_view object.new.entries ≡ with_member (codes "fields")
        (list_json field_json fields.now) (members_view object.old.entries)) }
{
    let value = fields_value(alloc, fields)?;
    serde_json::put(object, alloc, "fields", value)
}

// Puts what an error or a notice says.
fn put_error(
    fields: &Fields,
    alloc: Global,
    object: &mut Map<String, Value>,
) -> Result<(), AllocError>
    ensures { OnOk result (members_view object.new.entries
        ≡ with_members (error_members fields.now) (members_view object.old.entries)) }
{
    put_optional("severity", fields.severity(), alloc, object)?;
    put_optional("code", fields.code(), alloc, object)?;
    put_optional("message", fields.message(), alloc, object)?;
    put_fields(fields, alloc, object)
}

// ---- authentication

// Puts a salt.
fn put_salt(salt: [u8; 4], alloc: Global, object: &mut Map<String, Value>) -> Result<(), AllocError>
    ensures { OnOk result (members_view object.new.entries
        ≡ with_member (codes "salt") (hex_json salt) (members_view object.old.entries)) }
{
    let value = hex_value(alloc, &salt)?;
    serde_json::put(object, alloc, "salt", value)
}

// The name of an authentication request that has no message of its own, where it has a name.
#[tactic(auto, unfolding(crate::specs::Backend::named_request))]
fn named_request(code: i32) -> Option<&'static str>
    ensures { option_copied result ≡ named_request code }
{
    match code {
        2 => Some("AuthenticationKerberosV5"),
        6 => Some("AuthenticationSCMCredential"),
        7 => Some("AuthenticationGSS"),
        8 => Some("AuthenticationGSSContinue"),
        9 => Some("AuthenticationSSPI"),
        10 => Some("AuthenticationSASL"),
        11 => Some("AuthenticationSASLContinue"),
        12 => Some("AuthenticationSASLFinal"),
        _ => None,
    }
}

// The name of an authentication request that has no message of its own.
fn request_called(code: i32) -> &'static str
    ensures { result.now ≡ request_called code }
{
    match named_request(code) {
        Some(name) => name,
        None => "Authentication",
    }
}

// Puts what comes with an authentication request that has no message of its own.
fn put_request_more(
    code: i32,
    rest: &[u8],
    alloc: Global,
    object: &mut Map<String, Value>,
) -> Result<(), AllocError>
    ensures { OnOk result (members_view object.new.entries
        ≡ with_members (request_more code rest.now) (members_view object.old.entries)) }
{
    if rest.len() == 0 {
        return Ok(());
    }
    if code == 10 {
        return put_text("mechanisms", rest, alloc, object);
    }
    put_hidden("data", alloc, object)
}

// Puts an authentication request that has no message of its own.
fn put_request(
    code: i32,
    rest: &Seq<u8>,
    alloc: Global,
    object: &mut Map<String, Value>,
) -> Result<(), AllocError>
    ensures { OnOk result (members_view object.new.entries
        ≡ with_members (request_members code rest.now) (members_view object.old.entries)) }
{
    put_shown("code", &code, alloc, object)?;
    put_request_more(code, rest.as_slice(), alloc, object)
}

/// Puts a process, and that its key is hidden.
pub fn put_key(
    process: i32,
    alloc: Global,
    object: &mut Map<String, Value>,
) -> Result<(), AllocError>
    ensures { OnOk result (members_view object.new.entries
        ≡ with_members (key_members process) (members_view object.old.entries)) }
{
    put_shown("process", &process, alloc, object)?;
    put_hidden("key", alloc, object)
}

// ---- other messages

/// The word for a transaction status.
pub fn status_word(status: Status) -> &'static str
    ensures { result.now ≡ status_text status }
{
    match status {
        Status::Idle => "idle",
        Status::InBlock => "in a transaction",
        Status::Failed => "in a failed transaction",
    }
}

// Puts a parameter of the session.
fn put_parameter(
    name: &Seq<u8>,
    value: &Seq<u8>,
    alloc: Global,
    object: &mut Map<String, Value>,
) -> Result<(), AllocError>
    ensures { OnOk result (members_view object.new.entries
        ≡ with_member (codes "value") (text_json value.now)
        (with_member (codes "parameter") (text_json name.now) (members_view object.old.entries))) }
{
    put_text("parameter", name.as_slice(), alloc, object)?;
    put_text("value", value.as_slice(), alloc, object)
}

// Puts a notification.
fn put_notification(
    process: i32,
    channel: &Seq<u8>,
    payload: &Seq<u8>,
    alloc: Global,
    object: &mut Map<String, Value>,
) -> Result<(), AllocError>
    ensures { OnOk result (members_view object.new.entries
        ≡ with_member (codes "payload") (text_json payload.now)
        (with_member (codes "channel") (text_json channel.now)
        (with_member (codes "process") (signed_json process) (members_view object.old.entries)))) }
{
    put_shown("process", &process, alloc, object)?;
    put_text("channel", channel.as_slice(), alloc, object)?;
    put_text("payload", payload.as_slice(), alloc, object)
}

// Puts what a copy is like.
fn put_copy(
    head: &CopyHead,
    alloc: Global,
    object: &mut Map<String, Value>,
) -> Result<(), AllocError>
    ensures { OnOk result (members_view object.new.entries
        ≡ with_members (copy_members head.now) (members_view object.old.entries)) }
{
    put_shown("binary", &head.binary, alloc, object)?;
    put_shown("formats", &head.formats, alloc, object)
}

// ---- messages

/// The name of a message, as the documentation has it.
pub fn back_called(message: &BackMessage) -> &'static str
    ensures { result.now ≡ back_called message.now }
{
    match message {
        BackMessage::AuthOk => "AuthenticationOk",
        BackMessage::AuthCleartext => "AuthenticationCleartextPassword",
        BackMessage::AuthMd5(_) => "AuthenticationMD5Password",
        BackMessage::AuthOther { code, .. } => request_called(*code),
        BackMessage::KeyData { .. } => "BackendKeyData",
        BackMessage::ParameterStatus { .. } => "ParameterStatus",
        BackMessage::Ready(_) => "ReadyForQuery",
        BackMessage::RowDescription(_) => "RowDescription",
        BackMessage::DataRow(_) => "DataRow",
        BackMessage::CommandComplete(_) => "CommandComplete",
        BackMessage::EmptyQuery => "EmptyQueryResponse",
        BackMessage::ParseComplete => "ParseComplete",
        BackMessage::BindComplete => "BindComplete",
        BackMessage::CloseComplete => "CloseComplete",
        BackMessage::NoData => "NoData",
        BackMessage::PortalSuspended => "PortalSuspended",
        BackMessage::ParameterDescription(_) => "ParameterDescription",
        BackMessage::ErrorResponse(_) => "ErrorResponse",
        BackMessage::NoticeResponse(_) => "NoticeResponse",
        BackMessage::Notification { .. } => "NotificationResponse",
        BackMessage::CopyIn(_) => "CopyInResponse",
        BackMessage::CopyOut(_) => "CopyOutResponse",
        BackMessage::CopyData(_) => "CopyData",
        BackMessage::CopyDone => "CopyDone",
    }
}

// Puts the fields of a message.
fn put_back(
    message: &BackMessage,
    alloc: Global,
    object: &mut Map<String, Value>,
) -> Result<(), AllocError>
    ensures { OnOk result (members_view object.new.entries
        ≡ with_members (back_members message.now) (members_view object.old.entries)) }
{
    match message {
        BackMessage::AuthOk => Ok(()),
        BackMessage::AuthCleartext => Ok(()),
        BackMessage::AuthMd5(salt) => put_salt(*salt, alloc, object),
        BackMessage::AuthOther { code, rest } => put_request(*code, rest, alloc, object),
        BackMessage::KeyData { process, .. } => put_key(*process, alloc, object),
        BackMessage::ParameterStatus { name, value } => put_parameter(name, value, alloc, object),
        BackMessage::Ready(status) => put_word("status", status_word(*status), alloc, object),
        BackMessage::RowDescription(columns) => put_shown("columns", columns, alloc, object),
        BackMessage::DataRow(values) => put_shown("values", values, alloc, object),
        BackMessage::CommandComplete(tag) => put_text("command", tag.as_slice(), alloc, object),
        BackMessage::EmptyQuery => Ok(()),
        BackMessage::ParseComplete => Ok(()),
        BackMessage::BindComplete => Ok(()),
        BackMessage::CloseComplete => Ok(()),
        BackMessage::NoData => Ok(()),
        BackMessage::PortalSuspended => Ok(()),
        BackMessage::ParameterDescription(types) => put_shown("types", types, alloc, object),
        BackMessage::ErrorResponse(fields) => put_error(fields, alloc, object),
        BackMessage::NoticeResponse(fields) => put_error(fields, alloc, object),
        BackMessage::Notification {
            process,
            channel,
            payload,
        } => put_notification(*process, channel, payload, alloc, object),
        BackMessage::CopyIn(head) => put_copy(head, alloc, object),
        BackMessage::CopyOut(head) => put_copy(head, alloc, object),
        BackMessage::CopyData(bytes) => put_text("data", bytes.as_slice(), alloc, object),
        BackMessage::CopyDone => Ok(()),
    }
}

/// A message of the backend with this length field.
pub fn back_value(alloc: Global, size: usize, message: &BackMessage) -> Result<Value, AllocError>
    ensures { IfOk result (λ v. view v ≡ back_json size message.now) }
{
    let mut object = begin(alloc, back_called(message), size)?;
    put_back(message, alloc, &mut object)?;
    Ok(Value::from(object))
}
