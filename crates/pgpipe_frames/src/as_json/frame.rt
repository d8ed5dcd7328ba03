//! What frames are shown as.

ghost use Rattle.std.specs.Prelude.{◌≡◌, ◌≤◌, ◌-◌, ◌++◌, ℕ, List, length, false, IfOk, OnOk};
ghost use Rattle.pgpipe_frames.specs.Frames.{fewest};
ghost use Rattle.serde_json.specs.Data.{depth};
ghost use Rattle.serde_json.specs.Read.{max_depth};
ghost use Rattle.serde_json.specs.View.{view};
ghost use Rattle.serde_json.specs.Written.{has_float};
ghost use Rattle.pgpipe_texts.specs.Json.Backend.{back_json};
ghost use Rattle.pgpipe_frames.specs.Json.Frame.{IsBackJson, IsFrontJson, IsJsonOf, IsJsonText};
ghost use Rattle.pgpipe_frames.specs.Json.Frame.{IsMessageJson, IsPacketJson, IsTextOfJson};
ghost use Rattle.pgpipe_frames.specs.Json.Frame.{json_or};
ghost use Rattle.pgpipe_frames.specs.Json.Frontend.{front_json};
ghost use Rattle.pgpipe_frames.specs.Json.Other.{other_back, other_front, other_packet};
ghost use Rattle.pgpipe_texts.specs.Json.Packet.{packet_json};

use super::frontend::front_value;
use super::other::{other_back_value, other_front_value, other_packet_value};
use crate::next::NextFrame;
use crate::reading::{read_message, read_packet};
use pg_wire::{BackMessage, First, FrontMessage};
use pgpipe_texts::as_json::{back_value, packet_value};
use serde_json::Value;
use std::alloc::{AllocError, Global};

// What was read of a message of the backend.
fn read_back_value(
    alloc: Global,
    read: Option<BackMessage>,
    frame: &[u8],
) -> Result<Value, AllocError>
    requires { 5 ≤ length frame.now }
    ensures { IfOk result (λ v. view v
        ≡ json_or (back_json (length frame.now - 1)) (other_back frame.now) read) }
{
    match read {
        Some(message) => back_value(alloc, frame.len() - 1, &message),
        None => other_back_value(alloc, frame),
    }
}

// A message of the backend.
fn back_frame_value(alloc: Global, frame: &[u8]) -> Result<Value, AllocError>
    requires { 5 ≤ length frame.now }
    ensures { IfOk result (λ v. IsBackJson frame.now (view v)) }
{
    let read = read_message::<BackMessage>(alloc, frame)?;
    read_back_value(alloc, read, frame)
}

// What was read of a message of the frontend.
fn read_front_value(
    alloc: Global,
    read: Option<FrontMessage>,
    frame: &[u8],
) -> Result<Value, AllocError>
    requires { 5 ≤ length frame.now }
    ensures { IfOk result (λ v. view v
        ≡ json_or (front_json (length frame.now - 1)) (other_front frame.now) read) }
{
    match read {
        Some(message) => front_value(alloc, frame.len() - 1, &message),
        None => other_front_value(alloc, frame),
    }
}

// A message of the frontend.
fn front_frame_value(alloc: Global, frame: &[u8]) -> Result<Value, AllocError>
    requires { 5 ≤ length frame.now }
    ensures { IfOk result (λ v. IsFrontJson frame.now (view v)) }
{
    let read = read_message::<FrontMessage>(alloc, frame)?;
    read_front_value(alloc, read, frame)
}

// What was read of a first packet.
fn read_packet_value(alloc: Global, read: Option<First>, frame: &[u8]) -> Result<Value, AllocError>
    requires { 8 ≤ length frame.now }
    ensures { IfOk result (λ v. view v
        ≡ json_or (packet_json (length frame.now)) (other_packet frame.now) read) }
{
    match read {
        Some(packet) => packet_value(alloc, frame.len(), &packet),
        None => other_packet_value(alloc, frame),
    }
}

// A first packet.
fn packet_frame_value(alloc: Global, frame: &[u8]) -> Result<Value, AllocError>
    requires { 8 ≤ length frame.now }
    ensures { IfOk result (λ v. IsPacketJson frame.now (view v)) }
{
    let read = read_packet(alloc, frame)?;
    read_packet_value(alloc, read, frame)
}

// A message.
fn message_value(alloc: Global, front: bool, frame: &[u8]) -> Result<Value, AllocError>
    requires { 5 ≤ length frame.now }
    ensures { IfOk result (λ v. IsMessageJson front frame.now (view v)) }
{
    if front {
        front_frame_value(alloc, frame)
    } else {
        back_frame_value(alloc, frame)
    }
}

// A frame.
fn frame_value(
    alloc: Global,
    front: bool,
    kind: NextFrame,
    frame: &[u8],
) -> Result<Value, AllocError>
    requires { fewest kind ≤ length frame.now }
    ensures { IfOk result (λ v. IsJsonOf front kind frame.now (view v)) }
{
    match kind {
        NextFrame::Packet => packet_frame_value(alloc, frame),
        NextFrame::Message | NextFrame::Nothing => message_value(alloc, front, frame),
    }
}

// Appends the text of a value.
fn put_value(alloc: Global, value: &Value, line: &mut Vec<u8>) -> Result<(), AllocError>
    requires floatless { has_float (view value.now) ≡ false }
    requires flat { depth (view value.now) ≤ max_depth }
    ensures { OnOk result ((text : List ℕ) × IsTextOfJson (view value.now) text
        × (line.new.items ≡ line.old.items ++ text)) }
{
    let text = value.to_vec(alloc)?;
    line.extend_from_slice(text.as_slice())
}

/// Appends the text of a frame of a client (`front`) or of a server, without the end of a line: a JSON object without spaces. A reader of JSON reads
/// it back. The error is that memory ran out; a part of the text may stand then.
pub fn put_frame(
    alloc: Global,
    front: bool,
    kind: NextFrame,
    frame: &[u8],
    line: &mut Vec<u8>,
) -> Result<(), AllocError>
    requires { fewest kind ≤ length frame.now }
    ensures { OnOk result ((text : List ℕ) × IsJsonText front kind frame.now text
        × (line.new.items ≡ line.old.items ++ text)) }
{
    let value = frame_value(alloc, front, kind, frame)?;
    put_value(alloc, &value, line)
}
