//! Judging the bodies of the backend's messages: no message is made, and no memory is asked for.

ghost use Rattle.std.specs.Prelude.{◌≡◌, is_some, option_copied};
ghost use Rattle.pg_message.specs.declared.backend.kind.BackKind.TheVariants.{Auth};
ghost use Rattle.pg_message.specs.Private.BackReader.{back_reading};

use super::kind::BackKind;
use crate::judging::is_end;
use pg_codec::{
    Column, ErrorField, after_copy_head, after_counted, after_i32, after_status, after_terminated,
    after_text, i32_at,
};
use pg_seq::Seq;

// Whether this is the body of an authentication request, whose code says what may follow it.
fn is_auth(body: &[u8]) -> bool
    ensures { result ≡ is_some ((back_reading Auth).message body.now) }
{
    match i32_at(body) {
        Ok((code, rest)) => match code {
            0 => rest.is_empty(),
            3 => rest.is_empty(),
            5 => rest.len() == 4,
            _ => true,
        },
        Err(_) => false,
    }
}

// What is left of the body after a message of this kind; None where the body begins none.
fn after_message(kind: BackKind, body: &[u8]) -> Option<&[u8]>
    ensures { option_copied result ≡ (back_reading kind).left body.now }
{
    match kind {
        BackKind::Auth => { if is_auth(body) { Some(&[]) } else { None } }
        BackKind::KeyData => after_i32(after_i32(body)?),
        BackKind::ParameterStatus => after_text(after_text(body)?),
        BackKind::Ready => after_status(body),
        BackKind::RowDescription => after_counted::<Column>(body),
        BackKind::DataRow => after_counted::<Option<Seq<u8>>>(body),
        BackKind::CommandComplete => after_text(body),
        BackKind::EmptyQuery
        | BackKind::ParseComplete
        | BackKind::BindComplete
        | BackKind::CloseComplete
        | BackKind::NoData
        | BackKind::PortalSuspended
        | BackKind::CopyDone => Some(body),
        BackKind::ParameterDescription => after_counted::<u32>(body),
        BackKind::ErrorResponse | BackKind::NoticeResponse => after_terminated::<ErrorField>(body),
        BackKind::Notification => after_text(after_text(after_i32(body)?)?),
        BackKind::CopyIn | BackKind::CopyOut => after_copy_head(body),
        BackKind::CopyData => Some(&[]),
    }
}

/// Whether this is the body of a message of this kind.
pub fn is_back_message(kind: BackKind, body: &[u8]) -> bool
    ensures { result ≡ is_some ((back_reading kind).message body.now) }
{
    is_end(after_message(kind, body))
}
