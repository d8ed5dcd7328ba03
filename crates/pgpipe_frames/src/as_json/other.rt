//! What frames are shown as that aren't of the tables of this library.

ghost use Rattle.std.specs.Prelude.{◌≡◌, ◌≤◌, codes, length, IfOk, OnOk};
ghost use Rattle.serde_json.specs.Data.{put as with_member};
ghost use Rattle.serde_json.specs.View.{members_view, view};
ghost use Rattle.pgpipe_texts.specs.Json.Members.{message_json, with_members};
ghost use Rattle.pgpipe_frames.specs.Json.Other.{other_back, other_front, other_members};
ghost use Rattle.pgpipe_frames.specs.Json.Other.{other_packet, other_packet_members, packet_name};
ghost use Rattle.pgpipe_frames.specs.Json.Other.{shown_or_hidden, version_name};

use crate::next::code_of;
use crate::other::{back_name, front_name, request_of_code};
use pgpipe_texts::as_json::{begin, put_hidden, put_shown, put_text};
use serde_json::{Map, Value};
use std::alloc::{AllocError, Global};

// Puts bytes, unless they are to be hidden.
fn put_or_hide(
    hidden: bool,
    bytes: &[u8],
    alloc: Global,
    object: &mut Map<String, Value>,
) -> Result<(), AllocError>
    ensures { OnOk result (members_view object.new.entries ≡ with_member (codes "bytes")
        (shown_or_hidden hidden bytes.now) (members_view object.old.entries)) }
{
    if hidden {
        put_hidden("bytes", alloc, object)
    } else {
        put_text("bytes", bytes, alloc, object)
    }
}

// Puts the tag of a message, and the bytes after its length field.
fn put_other(
    tag: u8,
    hidden: bool,
    bytes: &[u8],
    alloc: Global,
    object: &mut Map<String, Value>,
) -> Result<(), AllocError>
    ensures { OnOk result (members_view object.new.entries
        ≡ with_members (other_members tag hidden bytes.now) (members_view object.old.entries)) }
{
    put_shown("profile", &false, alloc, object)?;
    put_text("tag", &[tag], alloc, object)?;
    put_or_hide(hidden, bytes, alloc, object)
}

// A message of this name.
fn other_value(
    alloc: Global,
    name: &str,
    size: usize,
    tag: u8,
    hidden: bool,
    bytes: &[u8],
) -> Result<Value, AllocError>
    ensures { IfOk result (λ v. view v
        ≡ message_json name.now size (other_members tag hidden bytes.now)) }
{
    let mut object = begin(alloc, name, size)?;
    put_other(tag, hidden, bytes, alloc, &mut object)?;
    Ok(Value::from(object))
}

/// A message of the backend that isn't of the tables.
pub fn other_back_value(alloc: Global, frame: &[u8]) -> Result<Value, AllocError>
    requires { 5 ≤ length frame.now }
    ensures { IfOk result (λ v. view v ≡ other_back frame.now) }
{
    let tag = frame[0];
    other_value(
        alloc,
        back_name(tag),
        frame.len() - 1,
        tag,
        tag == b'K' || tag == b'R',
        &frame[5..],
    )
}

/// A message of the frontend that isn't of the tables.
pub fn other_front_value(alloc: Global, frame: &[u8]) -> Result<Value, AllocError>
    requires { 5 ≤ length frame.now }
    ensures { IfOk result (λ v. view v ≡ other_front frame.now) }
{
    let tag = frame[0];
    other_value(
        alloc,
        front_name(tag, &frame[5..]),
        frame.len() - 1,
        tag,
        tag == b'p',
        &frame[5..],
    )
}

// ---- first packets

// The code of a request to cancel.
const CANCEL: u32 = 80_877_102;

// The name of a startup of another version, or of a request.
fn version_name(code: u32) -> &'static str
    ensures { result.now ≡ version_name code }
{
    if code / 65_536 == 1_234 {
        "Request"
    } else {
        "StartupMessage"
    }
}

/// The name of a first packet, by its code.
pub fn packet_name(code: u32) -> &'static str
    ensures { result.now ≡ packet_name code }
{
    match request_of_code(code) {
        Some(name) => name,
        None => version_name(code),
    }
}

// Puts the code of a first packet, and the bytes after it.
fn put_other_packet(
    code: u32,
    hidden: bool,
    bytes: &[u8],
    alloc: Global,
    object: &mut Map<String, Value>,
) -> Result<(), AllocError>
    ensures { OnOk result (members_view object.new.entries
        ≡ with_members (other_packet_members code hidden bytes.now)
        (members_view object.old.entries)) }
{
    put_shown("profile", &false, alloc, object)?;
    put_shown("code", &code, alloc, object)?;
    put_or_hide(hidden, bytes, alloc, object)
}

/// A first packet that isn't of the tables.
pub fn other_packet_value(alloc: Global, frame: &[u8]) -> Result<Value, AllocError>
    requires { 8 ≤ length frame.now }
    ensures { IfOk result (λ v. view v ≡ other_packet frame.now) }
{
    let code = code_of(frame);
    let mut object = begin(alloc, packet_name(code), frame.len())?;
    put_other_packet(code, code == CANCEL, &frame[8..], alloc, &mut object)?;
    Ok(Value::from(object))
}
