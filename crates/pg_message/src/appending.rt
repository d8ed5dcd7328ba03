//! A message, or a first packet, as a whole: judged before its first byte is written, and appended to a buffer.

ghost use Rattle.std.specs.Prelude.{◌≡◌, ◌+◌, ◌++◌, false, length, OnOk, IfOk, MatchResult, None};
ghost use Rattle.std.specs.Prelude.{Some};
ghost use Rattle.pg_message.specs.Appending.{tagged, packet_of, body_fault, content_fault, Appends};
ghost use Rattle.pg_message.specs.Appending.{AppendsPacket};

use pg_codec::{Appender, BodyPart, EncodeFault, LONGEST};
use std::alloc::AllocError;

// The length field of a message with this body, or why it has no spelling.
fn judge<P: BodyPart>(body: &P) -> Result<u32, EncodeFault>
    ensures fault { MatchResult result (λ n. body_fault (P.layout body.now) ≡ None)
        (λ f. body_fault (P.layout body.now) ≡ Some f) }
    ensures count { OnOk result ((P.layout body.now).has_too_many ≡ false) }
    ensures length { IfOk result (λ n. n ≡ 4 + length (P.layout body.now).bytes) }
{
    if body.has_zero() {
        return Err(EncodeFault::HasZero);
    }
    if body.has_too_many() {
        return Err(EncodeFault::TooMany);
    }
    match body.room_after(LONGEST - 4) {
        None => Err(EncodeFault::TooLong),
        Some(left) => Ok(LONGEST - left),
    }
}

// Writes a message whose body was judged.
fn write_message<P: BodyPart>(
    tag: u8,
    size: u32,
    body: &P,
    out: &mut Appender,
) -> Result<(), AllocError>
    requires count { (P.layout body.now).has_too_many ≡ false }
    requires size { size ≡ 4 + length (P.layout body.now).bytes }
    ensures before { out.new.before ≡ out.old.before }
    ensures added { OnOk result (out.new.added
        ≡ out.old.added ++ tagged tag (P.layout body.now).bytes) }
    ensures of_type { OnOk result (P.layout body.now).IsOfType }
{
    out.put(&[tag])?;
    out.put(&size.to_be_bytes())?;
    body.write(out)
}

/// Appends the message of this tag and this body: the tag, the length field, the body.
pub fn append<P: BodyPart>(tag: u8, body: &P, buf: &mut Vec<u8>) -> Result<(), EncodeFault>
    ensures { Appends tag (P.layout body.now) buf.old.items result buf.new.items }
{
    let length = judge(body)?;
    let mut out = Appender::begin(buf);
    let written = write_message(tag, length, body, &mut out);
    out.settle(buf, written)
}

/// The greatest length of a first packet.
pub const LONGEST_PACKET: u32 = 10_000;

// The length of a first packet with this content, or why it has no spelling.
fn judge_packet<P: BodyPart>(has_no_name: bool, content: &P) -> Result<u32, EncodeFault>
    ensures fault { MatchResult result
        (λ n. content_fault has_no_name (P.layout content.now) ≡ None)
        (λ f. content_fault has_no_name (P.layout content.now) ≡ Some f) }
    ensures length { IfOk result (λ n. n ≡ 8 + length (P.layout content.now).bytes) }
{
    if content.has_zero() {
        return Err(EncodeFault::HasZero);
    }
    if has_no_name {
        return Err(EncodeFault::EmptyName);
    }
    match content.room_after(LONGEST_PACKET - 8) {
        None => Err(EncodeFault::TooLong),
        Some(left) => Ok(LONGEST_PACKET - left),
    }
}

// Writes a first packet whose content was judged.
fn write_packet<P: BodyPart>(
    code: u32,
    size: u32,
    content: &P,
    out: &mut Appender,
) -> Result<(), AllocError>
    requires count { (P.layout content.now).has_too_many ≡ false }
    requires size { size ≡ 8 + length (P.layout content.now).bytes }
    ensures before { out.new.before ≡ out.old.before }
    ensures added { OnOk result (out.new.added
        ≡ out.old.added ++ packet_of code (P.layout content.now).bytes) }
    ensures of_type { OnOk result (P.layout content.now).IsOfType }
{
    out.put(&size.to_be_bytes())?;
    out.put(&code.to_be_bytes())?;
    content.write(out)
}

/// Appends the first packet of this code and this content: the length, the code, the content. A content in which a name is empty is rejected.
pub fn append_packet<P: BodyPart>(
    code: u32,
    has_no_name: bool,
    content: &P,
    buf: &mut Vec<u8>,
) -> Result<(), EncodeFault>
    requires { (P.layout content.now).has_too_many ≡ false }
    ensures { AppendsPacket code has_no_name (P.layout content.now) buf.old.items result
        buf.new.items }
{
    let size = judge_packet(has_no_name, content)?;
    let mut out = Appender::begin(buf);
    let written = write_packet(code, size, content, &mut out);
    out.settle(buf, written)
}
