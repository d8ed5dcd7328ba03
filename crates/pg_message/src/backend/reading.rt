//! Reading the bodies of the backend's messages.

ghost use Rattle.pg_codec.specs.Private.Reader.{Gives};
ghost use Rattle.pg_message.specs.declared.backend.kind.BackKind.TheVariants as kinds;
ghost use Rattle.pg_message.specs.Backend.{backend};
ghost use Rattle.pg_message.specs.Private.BackReader.{back_reading};
ghost use Rattle.pg_message.specs.Private.Reading.{AsksFor};

use super::kind::BackKind;
use crate::message::BackMessage;
use pg_codec::{BodyFault, copy_head_at, copy_of, counted, ended, i32_at, status_at, text_at};
use pg_values::{fields_at, values_at};
use std::alloc::Global;

// An authentication request, whose code says which.
fn auth(alloc: Global, bytes: &[u8]) -> Result<BackMessage, BodyFault>
    ensures read { Gives (λ m. m) result ((back_reading kinds.Auth).message bytes.now) }
    ensures memory { AsksFor backend.holds_list result
        ((back_reading kinds.Auth).message bytes.now) }
{
    let (code, rest) = i32_at(bytes)?;
    match code {
        0 => ended(BackMessage::AuthOk, rest),
        3 => ended(BackMessage::AuthCleartext, rest),
        5 => match rest {
            [a, b, c, d] => Ok(BackMessage::AuthMd5([*a, *b, *c, *d])),
            _ => Err(BodyFault::Bad),
        },
        _ => Ok(BackMessage::AuthOther {
            code,
            rest: copy_of(alloc, rest)?,
        }),
    }
}

// A row.
fn row(alloc: Global, bytes: &[u8]) -> Result<BackMessage, BodyFault>
    ensures read { Gives (λ m. m) result ((back_reading kinds.DataRow).message bytes.now) }
    ensures memory { AsksFor backend.holds_list result
        ((back_reading kinds.DataRow).message bytes.now) }
{
    match values_at(alloc, bytes)? {
        (values, []) => Ok(BackMessage::DataRow(values)),
        _ => Err(BodyFault::Bad),
    }
}

// A key to cancel with, which takes no memory.
fn key_data(bytes: &[u8]) -> Result<BackMessage, BodyFault>
    ensures read { Gives (λ m. m) result ((back_reading kinds.KeyData).message bytes.now) }
    ensures memory { AsksFor backend.holds_list result
        ((back_reading kinds.KeyData).message bytes.now) }
{
    let (process, rest) = i32_at(bytes)?;
    let (secret, rest) = i32_at(rest)?;
    ended(BackMessage::KeyData { process, secret }, rest)
}

// A parameter's value.
fn parameter_status(alloc: Global, bytes: &[u8]) -> Result<BackMessage, BodyFault>
    ensures read { Gives (λ m. m) result ((back_reading kinds.ParameterStatus).message bytes.now) }
    ensures memory { AsksFor backend.holds_list result
        ((back_reading kinds.ParameterStatus).message bytes.now) }
{
    let (name, rest) = text_at(alloc, bytes)?;
    let (value, rest) = text_at(alloc, rest)?;
    ended(BackMessage::ParameterStatus { name, value }, rest)
}

// The columns of rows.
fn row_description(alloc: Global, bytes: &[u8]) -> Result<BackMessage, BodyFault>
    ensures read { Gives (λ m. m) result ((back_reading kinds.RowDescription).message bytes.now) }
    ensures memory { AsksFor backend.holds_list result
        ((back_reading kinds.RowDescription).message bytes.now) }
{
    let (columns, rest) = counted(alloc, bytes)?;
    ended(BackMessage::RowDescription(columns), rest)
}

// An error.
fn error(alloc: Global, bytes: &[u8]) -> Result<BackMessage, BodyFault>
    ensures read { Gives (λ m. m) result ((back_reading kinds.ErrorResponse).message bytes.now) }
    ensures memory { AsksFor backend.holds_list result
        ((back_reading kinds.ErrorResponse).message bytes.now) }
{
    let (fields, rest) = fields_at(alloc, bytes)?;
    ended(BackMessage::ErrorResponse(fields), rest)
}

// A notice.
fn notice(alloc: Global, bytes: &[u8]) -> Result<BackMessage, BodyFault>
    ensures read { Gives (λ m. m) result ((back_reading kinds.NoticeResponse).message bytes.now) }
    ensures memory { AsksFor backend.holds_list result
        ((back_reading kinds.NoticeResponse).message bytes.now) }
{
    let (fields, rest) = fields_at(alloc, bytes)?;
    ended(BackMessage::NoticeResponse(fields), rest)
}

// A notification.
fn notification(alloc: Global, bytes: &[u8]) -> Result<BackMessage, BodyFault>
    ensures read { Gives (λ m. m) result ((back_reading kinds.Notification).message bytes.now) }
    ensures memory { AsksFor backend.holds_list result
        ((back_reading kinds.Notification).message bytes.now) }
{
    let (process, rest) = i32_at(bytes)?;
    let (channel, rest) = text_at(alloc, rest)?;
    let (payload, rest) = text_at(alloc, rest)?;
    let message = BackMessage::Notification {
        process,
        channel,
        payload,
    };
    ended(message, rest)
}

/// The message of this kind and this body. Only a message that holds a list takes memory.
pub fn back_message(alloc: Global, kind: BackKind, body: &[u8]) -> Result<BackMessage, BodyFault>
    ensures read { Gives (λ m. m) result ((back_reading kind).message body.now) }
    ensures memory { AsksFor backend.holds_list result ((back_reading kind).message body.now) }
{
    // a row goes first and alone: a function makes room for the locals of all its arms, which costs more than to read a row
    match kind {
        BackKind::DataRow => row(alloc, body),
        other => other_message(alloc, other, body),
    }
}

// The message of this kind, which isn't a row, and this body.
fn other_message(alloc: Global, kind: BackKind, body: &[u8]) -> Result<BackMessage, BodyFault>
    ensures read { Gives (λ m. m) result ((back_reading kind).message body.now) }
    ensures memory { AsksFor backend.holds_list result ((back_reading kind).message body.now) }
{
    match kind {
        BackKind::Auth => auth(alloc, body),
        BackKind::KeyData => key_data(body),
        BackKind::ParameterStatus => parameter_status(alloc, body),
        BackKind::Ready => {
            let (status, rest) = status_at(body)?;
            ended(BackMessage::Ready(status), rest)
        }
        BackKind::RowDescription => row_description(alloc, body),
        BackKind::DataRow => row(alloc, body),
        BackKind::CommandComplete => {
            let (text, rest) = text_at(alloc, body)?;
            ended(BackMessage::CommandComplete(text), rest)
        }
        BackKind::EmptyQuery => ended(BackMessage::EmptyQuery, body),
        BackKind::ParseComplete => ended(BackMessage::ParseComplete, body),
        BackKind::BindComplete => ended(BackMessage::BindComplete, body),
        BackKind::CloseComplete => ended(BackMessage::CloseComplete, body),
        BackKind::NoData => ended(BackMessage::NoData, body),
        BackKind::PortalSuspended => ended(BackMessage::PortalSuspended, body),
        BackKind::ParameterDescription => {
            let (types, rest) = counted(alloc, body)?;
            ended(BackMessage::ParameterDescription(types), rest)
        }
        BackKind::ErrorResponse => error(alloc, body),
        BackKind::NoticeResponse => notice(alloc, body),
        BackKind::Notification => notification(alloc, body),
        BackKind::CopyIn => {
            let (head, rest) = copy_head_at(alloc, body)?;
            ended(BackMessage::CopyIn(head), rest)
        }
        BackKind::CopyOut => {
            let (head, rest) = copy_head_at(alloc, body)?;
            ended(BackMessage::CopyOut(head), rest)
        }
        BackKind::CopyData => Ok(BackMessage::CopyData(copy_of(alloc, body)?)),
        BackKind::CopyDone => ended(BackMessage::CopyDone, body),
    }
}
