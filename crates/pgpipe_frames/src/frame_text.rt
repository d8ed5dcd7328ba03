//! What frames are shown as.

ghost use Rattle.std.specs.Prelude.{◌≡◌, ◌≤◌, ◌++◌, ℕ, List, Some, length, IfSome, OnOk};
ghost use Rattle.pg_wire.specs.Backend.{backend};
ghost use Rattle.pg_wire.specs.message.BackMessage.TheVariants.{DataRow};
ghost use Rattle.pgpipe_frames.specs.Frames.{fewest};
ghost use Rattle.pgpipe_frames.specs.Reading.{IsReadAs};
ghost use Rattle.pgpipe_texts.specs.Backend.{back_text};
ghost use Rattle.pgpipe_frames.specs.FrameText.{IsBackText, IsFrontText, IsMessageText};
ghost use Rattle.pgpipe_frames.specs.FrameText.{IsPacketText, IsTextOf, text_or};
ghost use Rattle.pgpipe_frames.specs.Frontend.{front_text};
ghost use Rattle.pgpipe_frames.specs.Other.{other_back, other_front, other_packet};
ghost use Rattle.pgpipe_texts.specs.Packet.{packet_text};

use crate::frontend::put_front_message;
use crate::next::NextFrame;
use crate::other::{put_other_back, put_other_front, put_other_packet};
use crate::reading::{read_message, read_packet};
use pg_wire::{BackMessage, First, FrontMessage, RowView};
use pgpipe_texts::{Readable, put_row};
use std::alloc::{AllocError, Global};

// Appends the text of what was read of a message of the backend.
fn put_read_back(
    read: Option<BackMessage>,
    frame: &[u8],
    line: &mut Vec<u8>,
) -> Result<(), AllocError>
    requires { 5 ≤ length frame.now }
    ensures { OnOk result (line.new.items
        ≡ line.old.items ++ text_or back_text (other_back frame.now) read) }
{
    match read {
        Some(message) => message.put(line),
        None => put_other_back(frame, line),
    }
}

// Appends the text of a message of the backend, which is read whole.
fn put_whole_back(alloc: Global, frame: &[u8], line: &mut Vec<u8>) -> Result<(), AllocError>
    requires { 5 ≤ length frame.now }
    ensures { OnOk result ((text : List ℕ) × IsBackText frame.now text
        × (line.new.items ≡ line.old.items ++ text)) }
{
    let read = read_message::<BackMessage>(alloc, frame)?;
    put_read_back(read, frame, line)
}

// The row that a message of the backend is, lent by it; None where it is none.
fn lent_row(frame: &[u8]) -> Option<RowView<'_>>
    requires { 5 ≤ length frame.now }
    ensures { IfSome result (λ values. IsReadAs backend frame.now (Some (DataRow values))) }
{
    let (tag, body) = (frame[0], &frame[5..]);
    if tag == b'D' && RowView::is_row(body) {
        Some(RowView::of_body(body))
    } else {
        None
    }
}

// Appends the text of a message of the backend. A row isn't copied for it.
fn put_back(alloc: Global, frame: &[u8], line: &mut Vec<u8>) -> Result<(), AllocError>
    requires { 5 ≤ length frame.now }
    ensures { OnOk result ((text : List ℕ) × IsBackText frame.now text
        × (line.new.items ≡ line.old.items ++ text)) }
{
    match lent_row(frame) {
        Some(row) => put_row(row, line),
        None => put_whole_back(alloc, frame, line),
    }
}

// Appends the text of what was read of a message of the frontend.
fn put_read_front(
    read: Option<FrontMessage>,
    frame: &[u8],
    line: &mut Vec<u8>,
) -> Result<(), AllocError>
    requires { 5 ≤ length frame.now }
    ensures { OnOk result (line.new.items
        ≡ line.old.items ++ text_or front_text (other_front frame.now) read) }
{
    match read {
        Some(message) => put_front_message(&message, line),
        None => put_other_front(frame, line),
    }
}

// Appends the text of a message of the frontend.
fn put_front(alloc: Global, frame: &[u8], line: &mut Vec<u8>) -> Result<(), AllocError>
    requires { 5 ≤ length frame.now }
    ensures { OnOk result ((text : List ℕ) × IsFrontText frame.now text
        × (line.new.items ≡ line.old.items ++ text)) }
{
    let read = read_message::<FrontMessage>(alloc, frame)?;
    put_read_front(read, frame, line)
}

// Appends the text of what was read of a first packet.
fn put_read_packet(read: Option<First>, frame: &[u8], line: &mut Vec<u8>) -> Result<(), AllocError>
    requires { 8 ≤ length frame.now }
    ensures { OnOk result (line.new.items
        ≡ line.old.items ++ text_or packet_text (other_packet frame.now) read) }
{
    match read {
        Some(packet) => packet.put(line),
        None => put_other_packet(frame, line),
    }
}

// Appends the text of a first packet.
fn put_packet(alloc: Global, frame: &[u8], line: &mut Vec<u8>) -> Result<(), AllocError>
    requires { 8 ≤ length frame.now }
    ensures { OnOk result ((text : List ℕ) × IsPacketText frame.now text
        × (line.new.items ≡ line.old.items ++ text)) }
{
    let read = read_packet(alloc, frame)?;
    put_read_packet(read, frame, line)
}

// Appends the text of a message.
fn put_message(
    alloc: Global,
    front: bool,
    frame: &[u8],
    line: &mut Vec<u8>,
) -> Result<(), AllocError>
    requires { 5 ≤ length frame.now }
    ensures { OnOk result ((text : List ℕ) × IsMessageText front frame.now text
        × (line.new.items ≡ line.old.items ++ text)) }
{
    if front {
        put_front(alloc, frame, line)
    } else {
        put_back(alloc, frame, line)
    }
}

/// Appends the text of a frame of a client (`front`) or of a server, without the end of a line: its name and its fields. A frame that isn't of the
/// tables of this library has its name, its tag, its length field and its bytes. The error is that memory ran out; a part of the text may stand then.
pub fn put_frame(
    alloc: Global,
    front: bool,
    kind: NextFrame,
    frame: &[u8],
    line: &mut Vec<u8>,
) -> Result<(), AllocError>
    requires { fewest kind ≤ length frame.now }
    ensures { OnOk result ((text : List ℕ) × IsTextOf front kind frame.now text
        × (line.new.items ≡ line.old.items ++ text)) }
{
    match kind {
        NextFrame::Packet => put_packet(alloc, frame, line),
        NextFrame::Message | NextFrame::Nothing => put_message(alloc, front, frame, line),
    }
}
