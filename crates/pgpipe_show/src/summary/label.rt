//! What frames are counted under.

ghost use Rattle.std.specs.Prelude.{◌≡◌, ◌≤◌, ◌++◌, ℕ, List, drop, length, option_copied};
ghost use Rattle.std.specs.Prelude.{slice_index, OnOk};
ghost use Rattle.pgpipe_texts.specs.Fields.{first_field};
ghost use Rattle.pgpipe_frames.specs.Other.{back_name, front_name};
ghost use Rattle.pgpipe_frames.specs.Frames.{code, fewest};
ghost use Rattle.pgpipe_frames.specs.Json.Frontend.{front_called};
ghost use Rattle.pgpipe_frames.specs.Json.Other.{packet_name};
ghost use Rattle.pgpipe_texts.specs.Json.Packet.{packet_called};
ghost use Rattle.pgpipe_show.specs.Labels.{IsBackLabel, IsFrontLabel, IsLabelOf, IsMessageLabel};
ghost use Rattle.pgpipe_show.specs.Labels.{IsPacketLabel, back_detail, back_label, label_or};
ghost use Rattle.pgpipe_show.specs.Labels.{marked};

use pg_wire::{BackMessage, First, FrontMessage};
use pgpipe_frames::as_json::{front_called, packet_name};
use pgpipe_frames::{NextFrame, back_name, code_of, front_name, read_message, read_packet};
use pgpipe_texts::as_json::{back_called, packet_called, status_word};
use pgpipe_texts::put_whole;
use std::alloc::{AllocError, Global};

// Appends the code of an error, or a dash.
fn put_code(code: Option<&[u8]>, label: &mut Vec<u8>) -> Result<(), AllocError>
    ensures { OnOk result (label.new.items
        ≡ label.old.items ++ first_field (option_copied code.entry)) }
{
    match code {
        None => label.extend_from_slice(b"-"),
        Some(code) => put_whole(code, label),
    }
}

// Appends what a message of the backend says beside its name.
fn put_detail(message: &BackMessage, label: &mut Vec<u8>) -> Result<(), AllocError>
    ensures { OnOk result (label.new.items ≡ label.old.items ++ back_detail message.now) }
{
    match message {
        BackMessage::Ready(status) => {
            label.extend_from_slice(b" ")?;
            label.extend_from_slice(status_word(*status).as_bytes())
        }
        BackMessage::ErrorResponse(fields) => {
            label.extend_from_slice(b" ")?;
            put_code(fields.code(), label)
        }
        BackMessage::AuthOk => Ok(()),
        BackMessage::AuthCleartext => Ok(()),
        BackMessage::AuthMd5(_) => Ok(()),
        BackMessage::AuthOther { .. } => Ok(()),
        BackMessage::KeyData { .. } => Ok(()),
        BackMessage::ParameterStatus { .. } => Ok(()),
        BackMessage::RowDescription(_) => Ok(()),
        BackMessage::DataRow(_) => Ok(()),
        BackMessage::CommandComplete(_) => Ok(()),
        BackMessage::EmptyQuery => Ok(()),
        BackMessage::ParseComplete => Ok(()),
        BackMessage::BindComplete => Ok(()),
        BackMessage::CloseComplete => Ok(()),
        BackMessage::NoData => Ok(()),
        BackMessage::PortalSuspended => Ok(()),
        BackMessage::ParameterDescription(_) => Ok(()),
        BackMessage::NoticeResponse(_) => Ok(()),
        BackMessage::Notification { .. } => Ok(()),
        BackMessage::CopyIn(_) => Ok(()),
        BackMessage::CopyOut(_) => Ok(()),
        BackMessage::CopyData(_) => Ok(()),
        BackMessage::CopyDone => Ok(()),
    }
}

// Appends the label of a message of the backend.
fn put_back_label(message: &BackMessage, label: &mut Vec<u8>) -> Result<(), AllocError>
    ensures { OnOk result (label.new.items ≡ label.old.items ++ back_label message.now) }
{
    label.extend_from_slice(back_called(message).as_bytes())?;
    put_detail(message, label)
}

// Appends a name, marked.
fn put_marked(name: &str, label: &mut Vec<u8>) -> Result<(), AllocError>
    ensures { OnOk result (label.new.items ≡ label.old.items ++ marked name.now) }
{
    label.extend_from_slice(name.as_bytes())?;
    label.extend_from_slice(b", not of the profile")
}

// Appends the label of what was read of a message of the backend.
fn put_read_back(
    read: Option<BackMessage>,
    frame: &[u8],
    label: &mut Vec<u8>,
) -> Result<(), AllocError>
    requires { 5 ≤ length frame.now }
    ensures { OnOk result (label.new.items ≡ label.old.items
        ++ label_or back_label (back_name (slice_index frame.now 0)) read) }
{
    match read {
        Some(message) => put_back_label(&message, label),
        None => put_marked(back_name(frame[0]), label),
    }
}

// Appends the label of a message of the backend.
fn put_back(alloc: Global, frame: &[u8], label: &mut Vec<u8>) -> Result<(), AllocError>
    requires { 5 ≤ length frame.now }
    ensures { OnOk result ((text : List ℕ) × IsBackLabel frame.now text
        × (label.new.items ≡ label.old.items ++ text)) }
{
    let read = read_message::<BackMessage>(alloc, frame)?;
    put_read_back(read, frame, label)
}

// Appends the label of what was read of a message of the frontend.
fn put_read_front(
    read: Option<FrontMessage>,
    frame: &[u8],
    label: &mut Vec<u8>,
) -> Result<(), AllocError>
    requires { 5 ≤ length frame.now }
    ensures { OnOk result (label.new.items ≡ label.old.items
        ++ label_or front_called (front_name (slice_index frame.now 0) (drop 5 frame.now)) read) }
{
    match read {
        Some(message) => label.extend_from_slice(front_called(&message).as_bytes()),
        None => put_marked(front_name(frame[0], &frame[5..]), label),
    }
}

// Appends the label of a message of the frontend.
fn put_front(alloc: Global, frame: &[u8], label: &mut Vec<u8>) -> Result<(), AllocError>
    requires { 5 ≤ length frame.now }
    ensures { OnOk result ((text : List ℕ) × IsFrontLabel frame.now text
        × (label.new.items ≡ label.old.items ++ text)) }
{
    let read = read_message::<FrontMessage>(alloc, frame)?;
    put_read_front(read, frame, label)
}

// Appends the label of what was read of a first packet.
fn put_read_packet(read: Option<First>, frame: &[u8], label: &mut Vec<u8>) -> Result<(), AllocError>
    requires { 8 ≤ length frame.now }
    ensures { OnOk result (label.new.items ≡ label.old.items
        ++ label_or packet_called (packet_name (code frame.now)) read) }
{
    match read {
        Some(packet) => label.extend_from_slice(packet_called(&packet).as_bytes()),
        None => put_marked(packet_name(code_of(frame)), label),
    }
}

// Appends the label of a first packet.
fn put_packet(alloc: Global, frame: &[u8], label: &mut Vec<u8>) -> Result<(), AllocError>
    requires { 8 ≤ length frame.now }
    ensures { OnOk result ((text : List ℕ) × IsPacketLabel frame.now text
        × (label.new.items ≡ label.old.items ++ text)) }
{
    let read = read_packet(alloc, frame)?;
    put_read_packet(read, frame, label)
}

// Appends the label of a message.
fn put_message(
    alloc: Global,
    front: bool,
    frame: &[u8],
    label: &mut Vec<u8>,
) -> Result<(), AllocError>
    requires { 5 ≤ length frame.now }
    ensures { OnOk result ((text : List ℕ) × IsMessageLabel front frame.now text
        × (label.new.items ≡ label.old.items ++ text)) }
{
    if front {
        put_front(alloc, frame, label)
    } else {
        put_back(alloc, frame, label)
    }
}

// Appends the label of a frame.
fn put_label(
    alloc: Global,
    front: bool,
    kind: NextFrame,
    frame: &[u8],
    label: &mut Vec<u8>,
) -> Result<(), AllocError>
    requires { fewest kind ≤ length frame.now }
    ensures { OnOk result ((text : List ℕ) × IsLabelOf front kind frame.now text
        × (label.new.items ≡ label.old.items ++ text)) }
{
    match kind {
        NextFrame::Packet => put_packet(alloc, frame, label),
        NextFrame::Message | NextFrame::Nothing => put_message(alloc, front, frame, label),
    }
}

/// Writes the label under which a frame of a client (`front`) or of a server is counted.
pub fn write_label(
    alloc: Global,
    front: bool,
    kind: NextFrame,
    frame: &[u8],
    label: &mut Vec<u8>,
) -> Result<(), AllocError>
    requires { fewest kind ≤ length frame.now }
    ensures { OnOk result (IsLabelOf front kind frame.now label.new.items) }
{
    label.clear();
    put_label(alloc, front, kind, frame, label)
}
