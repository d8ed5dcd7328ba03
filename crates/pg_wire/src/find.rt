//! What stands at the beginning of a rest.

ghost use Rattle.std.specs.Prelude.{◌≡◌, ◌<◌, length, IfSome, MatchOption};
ghost use Rattle.pg_message.specs.Direction.{IsLimit};
ghost use Rattle.pg_wire.specs.Stream.{Head, IsTag, IsWhole};
ghost use Rattle.pg_wire.specs.Private.Found.{Judges, MakesFirst, FindsLent, FindsRow, FindsWhole};

use crate::fault::WireFault;
use pg_codec::BodyFault;
use pg_message::{BackMessage, Lent, Message};
use pg_values::RowView;
use std::alloc::Global;

/// So many bytes are no head of a message, which has a tag and a length field.
pub const NO_HEAD: usize = 4;

// The tag of a row.
const ROW: u8 = b'D';

/// What the head of a rest shows.
#[derive(Drop)]
pub enum Judged {
    /// No message is whole while no more than so many bytes are there.
    Open(usize),
    Faulty(WireFault),
    /// A message of this tag, with this length field, is all there.
    Whole(u8, usize),
}

// The tag and the length field; None until five bytes are there.
fn head(rest: &[u8]) -> Option<(u8, i32)>
    ensures { MatchOption result (length rest.now < 5) (λ h. Head rest.now h.0 h.1) }
{
    match rest {
        [tag, a, b, c, d, ..] => Some((*tag, i32::from_be_bytes([*a, *b, *c, *d]))),
        _ => None,
    }
}

/// What the head of a rest shows of the message that it begins.
pub fn judge<M: Message>(limit: u32, rest: &[u8]) -> Judged
    requires { IsLimit limit }
    ensures { Judges M.direction limit rest.now result }
{
    let Some((tag, len)) = head(rest) else {
        return Judged::Open(NO_HEAD);
    };
    if !M::is_tag(tag) {
        return Judged::Faulty(WireFault::UnknownTag(tag));
    }
    judge_length::<M>(limit, rest, tag, len)
}

// Judges the length field of a head whose tag some message has.
fn judge_length<M: Message>(limit: u32, rest: &[u8], tag: u8, len: i32) -> Judged
    requires limit { IsLimit limit }
    requires head { Head rest.now tag len }
    requires known { IsTag M.direction tag }
    ensures { Judges M.direction limit rest.now result }
{
    if len < 4 {
        return Judged::Faulty(WireFault::ShortLength(len));
    }
    if len > limit as i32 {
        return Judged::Faulty(WireFault::LongLength(len));
    }
    let len = len as usize;
    if rest.len() <= len {
        Judged::Open(len)
    } else {
        Judged::Whole(tag, len)
    }
}

/// The message at the beginning of a rest, which has this tag and this length field and is all there.
// a part of `Stream::next`, as that is of its callers
#[inline(always)]
pub fn first_message<M: Message>(
    alloc: Global,
    limit: u32,
    rest: &[u8],
    tag: u8,
    len: usize,
) -> Result<M, WireFault>
    requires limit { IsLimit limit }
    requires whole { IsWhole M.direction limit rest.now tag len }
    ensures { MakesFirst M.direction limit rest.now len result }
{
    match M::of_body(alloc, tag, &rest[5..len + 1]) {
        Ok(message) => Ok(message),
        Err(BodyFault::Bad) => Err(WireFault::BadBody(tag)),
        Err(BodyFault::Memory) => Err(WireFault::Memory),
    }
}

/// What stands at the beginning of a rest. A whole message is judged in place, and not made.
pub fn find_whole<M: Message>(limit: u32, rest: &[u8]) -> Judged
    requires { IsLimit limit }
    ensures { FindsWhole M.direction limit rest.now result }
{
    match judge::<M>(limit, rest) {
        Judged::Open(size) => Judged::Open(size),
        Judged::Faulty(fault) => Judged::Faulty(fault),
        Judged::Whole(tag, len) => {
            if M::is_message(tag, &rest[5..len + 1]) {
                Judged::Whole(tag, len)
            } else {
                Judged::Faulty(WireFault::BadBody(tag))
            }
        }
    }
}

/// What stands at the beginning of a backend's rest, where some messages are lent.
pub enum Found {
    /// No message is whole while no more than so many bytes are there.
    Nothing(usize),
    /// A message that can be lent, and how many bytes it takes.
    Lent(usize),
    /// Five bytes or more, and the first is no tag of a message that can be lent. It is another message, whole or not, or a fault.
    /// `Stream::hold_next` returns it also where a fault is stored, even one that it has just found.
    Other,
}

/// What stands at the beginning of a backend's rest. A message that can be lent is judged in place. A fault is found only where the tag is that of
/// such a message.
pub fn find_lent(limit: u32, rest: &[u8]) -> Result<Found, WireFault>
    requires { IsLimit limit }
    ensures { FindsLent limit rest.now result }
{
    let Some((tag, len)) = head(rest) else {
        return Ok(Found::Nothing(NO_HEAD));
    };
    if !Lent::has_tag(tag) {
        return Ok(Found::Other);
    }
    match judge_length::<BackMessage>(limit, rest, tag, len) {
        Judged::Open(size) => Ok(Found::Nothing(size)),
        Judged::Faulty(fault) => Err(fault),
        Judged::Whole(tag, len) => match Lent::of_body(tag, &rest[5..len + 1]) {
            Some(_) => Ok(Found::Lent(len + 1)),
            None => Err(WireFault::BadBody(tag)),
        },
    }
}

/// How many bytes the row takes that a backend's rest begins with. None where it begins with none, where not all of it is there, and where it has a
/// fault.
#[inline(always)]
pub fn find_row(limit: u32, rest: &[u8]) -> Option<usize>
    requires { IsLimit limit }
    ensures { IfSome result (FindsRow limit rest.now) }
{
    let (tag, len) = head(rest)?;
    if tag != ROW {
        return None;
    }
    match judge_length::<BackMessage>(limit, rest, tag, len) {
        Judged::Whole(_, len) if RowView::is_row(&rest[5..len + 1]) => Some(len + 1),
        _ => None,
    }
}
