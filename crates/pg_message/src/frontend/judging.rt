//! Judging the bodies of the frontend's messages: no message is made, and no memory is asked for.

ghost use Rattle.std.specs.Prelude.{◌≡◌, is_some, option_copied};
ghost use Rattle.pg_codec.specs.Private.Lent.{left_after};
ghost use Rattle.pg_codec.specs.Private.Reader.{choice_at};
ghost use Rattle.pg_message.specs.declared.frontend.kind.FrontKind.TheVariants.{Bind};
ghost use Rattle.pg_message.specs.Private.FrontReader.{front_reading, target_of_byte};

use super::kind::FrontKind;
use super::reading::target_at;
use crate::judging::is_end;
use pg_codec::{after_counted, after_i32, after_text};
use pg_seq::Seq;

// The bytes after what a Describe or a Close names.
fn after_target(bytes: &[u8]) -> Option<&[u8]>
    ensures { option_copied result ≡ left_after (choice_at target_of_byte bytes.now) }
{
    match target_at(bytes) {
        Ok((_, rest)) => Some(rest),
        Err(_) => None,
    }
}

// What is left of the body after a Bind.
fn after_bind(body: &[u8]) -> Option<&[u8]>
    ensures { option_copied result ≡ (front_reading Bind).left body.now }
{
    let rest = after_text(after_text(body)?)?;
    let rest = after_counted::<i16>(rest)?;
    let rest = after_counted::<Option<Seq<u8>>>(rest)?;
    after_counted::<i16>(rest)
}

// What is left of the body after a message of this kind; None where the body begins none.
fn after_message(kind: FrontKind, body: &[u8]) -> Option<&[u8]>
    ensures { option_copied result ≡ (front_reading kind).left body.now }
{
    match kind {
        FrontKind::Query | FrontKind::CopyFail | FrontKind::Password => after_text(body),
        FrontKind::Parse => after_counted::<u32>(after_text(after_text(body)?)?),
        FrontKind::Bind => after_bind(body),
        FrontKind::Describe | FrontKind::Close => after_text(after_target(body)?),
        FrontKind::Execute => after_i32(after_text(body)?),
        FrontKind::Sync | FrontKind::Flush | FrontKind::Terminate | FrontKind::CopyDone => Some(
            body,
        ),
        FrontKind::CopyData => Some(&[]),
    }
}

/// Whether this is the body of a message of this kind.
pub fn is_front_message(kind: FrontKind, body: &[u8]) -> bool
    ensures { result ≡ is_some ((front_reading kind).message body.now) }
{
    is_end(after_message(kind, body))
}
