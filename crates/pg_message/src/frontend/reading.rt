//! Reading the bodies of the frontend's messages.

ghost use Rattle.std.specs.Prelude.{IsOkUnless};
ghost use Rattle.pg_codec.specs.declared.fault.BodyFault.TheVariants.{Bad};
ghost use Rattle.pg_codec.specs.Private.Reader.{Gives, choice_at};
ghost use Rattle.pg_message.specs.declared.frontend.kind.FrontKind.TheVariants as kinds;
ghost use Rattle.pg_message.specs.Frontend.{frontend};
ghost use Rattle.pg_message.specs.Private.FrontReader.{front_reading, target_of_byte};
ghost use Rattle.pg_message.specs.Private.Reading.{AsksFor};

use super::kind::FrontKind;
use crate::message::FrontMessage;
use pg_codec::{BodyFault, Target, copy_of, counted, ended, i32_at, text_at};
use pg_values::values_at;
use std::alloc::Global;

/// What a Describe or a Close names, by its byte.
pub fn target_at(bytes: &[u8]) -> Result<(Target, &[u8]), BodyFault>
    ensures read { Gives (λ x. (x.0, x.1.now)) result (choice_at target_of_byte bytes.now) }
    ensures no_memory { IsOkUnless result Bad }
{
    match bytes {
        [b'S', rest @ ..] => Ok((Target::Statement, rest)),
        [b'P', rest @ ..] => Ok((Target::Portal, rest)),
        _ => Err(BodyFault::Bad),
    }
}

// A Parse.
fn parse(alloc: Global, bytes: &[u8]) -> Result<FrontMessage, BodyFault>
    ensures read { Gives (λ m. m) result ((front_reading kinds.Parse).message bytes.now) }
    ensures memory { AsksFor frontend.holds_list result
        ((front_reading kinds.Parse).message bytes.now) }
{
    let (name, rest) = text_at(alloc, bytes)?;
    let (text, rest) = text_at(alloc, rest)?;
    let (types, rest) = counted(alloc, rest)?;
    ended(FrontMessage::Parse { name, text, types }, rest)
}

// A Bind.
fn bind(alloc: Global, bytes: &[u8]) -> Result<FrontMessage, BodyFault>
    ensures read { Gives (λ m. m) result ((front_reading kinds.Bind).message bytes.now) }
    ensures memory { AsksFor frontend.holds_list result
        ((front_reading kinds.Bind).message bytes.now) }
{
    let (portal, rest) = text_at(alloc, bytes)?;
    let (statement, rest) = text_at(alloc, rest)?;
    let (formats, rest) = counted(alloc, rest)?;
    let (values, rest) = values_at(alloc, rest)?;
    let (result_formats, rest) = counted(alloc, rest)?;
    let message = FrontMessage::Bind {
        portal,
        statement,
        formats,
        values,
        result_formats,
    };
    ended(message, rest)
}

/// The message of this kind and this body. Only a message that holds a list takes memory.
pub fn front_message(alloc: Global, kind: FrontKind, body: &[u8]) -> Result<FrontMessage, BodyFault>
    ensures read { Gives (λ m. m) result ((front_reading kind).message body.now) }
    ensures memory { AsksFor frontend.holds_list result ((front_reading kind).message body.now) }
{
    match kind {
        FrontKind::Query => {
            let (text, rest) = text_at(alloc, body)?;
            ended(FrontMessage::Query(text), rest)
        }
        FrontKind::Parse => parse(alloc, body),
        FrontKind::Bind => bind(alloc, body),
        FrontKind::Describe => {
            let (target, rest) = target_at(body)?;
            let (name, rest) = text_at(alloc, rest)?;
            ended(FrontMessage::Describe { target, name }, rest)
        }
        FrontKind::Close => {
            let (target, rest) = target_at(body)?;
            let (name, rest) = text_at(alloc, rest)?;
            ended(FrontMessage::Close { target, name }, rest)
        }
        FrontKind::Execute => {
            let (portal, rest) = text_at(alloc, body)?;
            let (max_rows, rest) = i32_at(rest)?;
            ended(FrontMessage::Execute { portal, max_rows }, rest)
        }
        FrontKind::Sync => ended(FrontMessage::Sync, body),
        FrontKind::Flush => ended(FrontMessage::Flush, body),
        FrontKind::Terminate => ended(FrontMessage::Terminate, body),
        FrontKind::CopyData => Ok(FrontMessage::CopyData(copy_of(alloc, body)?)),
        FrontKind::CopyDone => ended(FrontMessage::CopyDone, body),
        FrontKind::CopyFail => {
            let (reason, rest) = text_at(alloc, body)?;
            ended(FrontMessage::CopyFail(reason), rest)
        }
        FrontKind::Password => {
            let (password, rest) = text_at(alloc, body)?;
            ended(FrontMessage::Password(password), rest)
        }
    }
}
