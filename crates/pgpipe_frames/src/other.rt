//! What frames are shown as that aren't of the tables of this library.

ghost use Rattle.std.specs.Prelude.{◌≡◌, ◌≤◌, ◌-◌, ◌==◌, ◌||◌, ◌++◌, codes, length, drop};
ghost use Rattle.std.specs.Prelude.{slice_index, option_copied, OnOk};
ghost use Rattle.std.specs.Fmt.{decimal};
ghost use Rattle.std.specs.List.{list_any};
ghost use Rattle.pgpipe_frames.specs.Other.{answer_name, back_name, data_back_name, front_name};
ghost use Rattle.pgpipe_frames.specs.Other.{other_back, other_front, other_packet, other_text};
ghost use Rattle.pgpipe_frames.specs.Other.{packet_name, plain_back_name, plain_front_name};
ghost use Rattle.pgpipe_frames.specs.Other.{request_of_code, shown_or_hidden, tag_text};
ghost use Rattle.pgpipe_frames.specs.Other.{version_text};

use crate::next::code_of;
use pgpipe_texts::{put_digits, put_number, put_quoted};
use std::alloc::AllocError;

// The backend's messages that end a step, or tell how the session stands.
#[tactic(auto, unfolding(crate::specs::Other::plain_back_name))]
fn plain_back_name(tag: u8) -> Option<&'static str>
    ensures { option_copied result ≡ plain_back_name tag }
{
    match tag {
        b'1' => Some("ParseComplete"),
        b'2' => Some("BindComplete"),
        b'3' => Some("CloseComplete"),
        b'C' => Some("CommandComplete"),
        b'I' => Some("EmptyQueryResponse"),
        b'K' => Some("BackendKeyData"),
        b'R' => Some("Authentication"),
        b'S' => Some("ParameterStatus"),
        b'Z' => Some("ReadyForQuery"),
        b'n' => Some("NoData"),
        b's' => Some("PortalSuspended"),
        b'v' => Some("NegotiateProtocolVersion"),
        _ => None,
    }
}

// The backend's messages that bring something.
#[tactic(auto, unfolding(crate::specs::Other::data_back_name))]
fn data_back_name(tag: u8) -> Option<&'static str>
    ensures { option_copied result ≡ data_back_name tag }
{
    match tag {
        b'A' => Some("NotificationResponse"),
        b'D' => Some("DataRow"),
        b'E' => Some("ErrorResponse"),
        b'G' => Some("CopyInResponse"),
        b'H' => Some("CopyOutResponse"),
        b'N' => Some("NoticeResponse"),
        b'T' => Some("RowDescription"),
        b'V' => Some("FunctionCallResponse"),
        b'W' => Some("CopyBothResponse"),
        b'c' => Some("CopyDone"),
        b'd' => Some("CopyData"),
        b't' => Some("ParameterDescription"),
        _ => None,
    }
}

/// The name that the documentation has for a tag of the backend, or `Unknown`.
pub fn back_name(tag: u8) -> &'static str
    ensures { result.now ≡ back_name tag }
{
    if let Some(name) = plain_back_name(tag) {
        return name;
    }
    match data_back_name(tag) {
        Some(name) => name,
        None => "Unknown",
    }
}

// The frontend's messages but for those with the tag p.
#[tactic(auto, unfolding(crate::specs::Other::plain_front_name))]
fn plain_front_name(tag: u8) -> Option<&'static str>
    ensures { option_copied result ≡ plain_front_name tag }
{
    match tag {
        b'B' => Some("Bind"),
        b'C' => Some("Close"),
        b'D' => Some("Describe"),
        b'E' => Some("Execute"),
        b'F' => Some("FunctionCall"),
        b'H' => Some("Flush"),
        b'P' => Some("Parse"),
        b'Q' => Some("Query"),
        b'S' => Some("Sync"),
        b'X' => Some("Terminate"),
        b'c' => Some("CopyDone"),
        b'd' => Some("CopyData"),
        b'f' => Some("CopyFail"),
        _ => None,
    }
}

// Whether a zero byte is among these.
fn has_zero(bytes: &[u8]) -> bool
    ensures { result ≡ list_any (λ b. b == 0) bytes.now }
{
    bytes.contains(&0)
}

// The name of an answer to a request for a password that is no PasswordMessage.
#[tactic(auto, unfolding(crate::specs::Other::answer_name))]
fn answer_name(body: &[u8]) -> &'static str
    ensures { result.now ≡ answer_name body.now }
{
    if has_zero(body) {
        "SASLInitialResponse"
    } else {
        "SASLResponse"
    }
}

/// The name that the documentation has for a tag of the frontend, or `Unknown`. With the tag p the body decides it.
pub fn front_name(tag: u8, body: &[u8]) -> &'static str
    ensures { result.now ≡ front_name tag body.now }
{
    match plain_front_name(tag) {
        Some(name) => name,
        None if tag == b'p' => answer_name(body),
        None => "Unknown",
    }
}

// Appends a tag.
#[tactic(auto, unfolding(crate::specs::Other::tag_text))]
fn put_tag(tag: u8, line: &mut Vec<u8>) -> Result<(), AllocError>
    ensures { OnOk result (line.new.items ≡ line.old.items ++ tag_text tag) }
{
    if b' ' < tag && tag < 0x7F {
        line.extend_from_slice(&[tag])
    } else {
        put_digits(tag, line)
    }
}

// Appends bytes, or that they are hidden.
#[tactic(auto, unfolding(crate::specs::Other::shown_or_hidden))]
fn put_or_hide(hidden: bool, bytes: &[u8], line: &mut Vec<u8>) -> Result<(), AllocError>
    ensures { OnOk result (line.new.items ≡ line.old.items ++ shown_or_hidden hidden bytes.now) }
{
    if hidden {
        line.extend_from_slice(b"(hidden)")
    } else {
        put_quoted(bytes, line)
    }
}

// Appends a length field, and the bytes after it.
fn put_sized(size: usize, hidden: bool, bytes: &[u8], line: &mut Vec<u8>) -> Result<(), AllocError>
    ensures { OnOk result (line.new.items ≡ line.old.items
        ++ (codes " " ++ decimal size ++ codes " " ++ shown_or_hidden hidden bytes.now)) }
{
    line.extend_from_slice(b" ")?;
    put_number(size, line)?;
    line.extend_from_slice(b" ")?;
    put_or_hide(hidden, bytes, line)
}

// Appends a mark for what isn't of the tables.
fn put_mark(line: &mut Vec<u8>) -> Result<(), AllocError>
    ensures { OnOk result (line.new.items ≡ line.old.items ++ codes ", not of the profile: ") }
{
    line.extend_from_slice(b", not of the profile: ")
}

// Appends a message that isn't of the tables.
#[tactic(auto, unfolding(crate::specs::Other::other_text))]
fn put_other(name: &[u8], frame: &[u8], hidden: bool, line: &mut Vec<u8>) -> Result<(), AllocError>
    requires { 5 ≤ length frame.now }
    ensures { OnOk result (line.new.items ≡ line.old.items ++ other_text name.now
        (tag_text (slice_index frame.now 0)) (length frame.now - 1) hidden (drop 5 frame.now)) }
{
    line.extend_from_slice(name)?;
    put_mark(line)?;
    put_tag(frame[0], line)?;
    put_sized(frame.len() - 1, hidden, &frame[5..], line)
}

// Whether the bytes of such a message of the backend are hidden.
fn is_hidden_back(tag: u8) -> bool
    ensures { result ≡ (tag == 75 || tag == 82) }
{
    tag == b'K' || tag == b'R'
}

/// Appends a message of the backend that isn't of the tables.
#[tactic(auto, unfolding(crate::specs::Other::other_back))]
pub fn put_other_back(frame: &[u8], line: &mut Vec<u8>) -> Result<(), AllocError>
    requires { 5 ≤ length frame.now }
    ensures { OnOk result (line.new.items ≡ line.old.items ++ other_back frame.now) }
{
    let tag = frame[0];
    put_other(back_name(tag).as_bytes(), frame, is_hidden_back(tag), line)
}

/// Appends a message of the frontend that isn't of the tables.
#[tactic(auto, unfolding(crate::specs::Other::other_front))]
pub fn put_other_front(frame: &[u8], line: &mut Vec<u8>) -> Result<(), AllocError>
    requires { 5 ≤ length frame.now }
    ensures { OnOk result (line.new.items ≡ line.old.items ++ other_front frame.now) }
{
    let tag = frame[0];
    put_other(
        front_name(tag, &frame[5..]).as_bytes(),
        frame,
        tag == b'p',
        line,
    )
}

// The code of a request to cancel.
const CANCEL: u32 = 80_877_102;

/// The name of a request of a client's first packets, by its code.
#[tactic(auto, unfolding(crate::specs::Other::request_of_code))]
pub fn request_of_code(code: u32) -> Option<&'static str>
    ensures { option_copied result ≡ request_of_code code }
{
    match code {
        CANCEL => Some("CancelRequest"),
        80_877_103 => Some("SSLRequest"),
        80_877_104 => Some("GSSENCRequest"),
        _ => None,
    }
}

// Appends a startup of a version, or a request of a code.
#[tactic(auto, unfolding(crate::specs::Other::version_text))]
fn put_version(code: u32, line: &mut Vec<u8>) -> Result<(), AllocError>
    ensures { OnOk result (line.new.items ≡ line.old.items ++ version_text code) }
{
    let (high, low) = (code / 65_536, code % 65_536);
    if high == 1_234 {
        line.extend_from_slice(b"Request ")?;
        return put_number(low, line);
    }
    line.extend_from_slice(b"StartupMessage ")?;
    put_number(high, line)?;
    line.extend_from_slice(b".")?;
    put_number(low, line)
}

// Appends the name of a first packet.
fn put_packet_name(code: u32, line: &mut Vec<u8>) -> Result<(), AllocError>
    ensures { OnOk result (line.new.items ≡ line.old.items ++ packet_name code) }
{
    match request_of_code(code) {
        Some(name) => line.extend_from_slice(name.as_bytes()),
        None => put_version(code, line),
    }
}

/// Appends a first packet that isn't of the tables.
#[tactic(auto, unfolding(crate::specs::Other::other_packet, crate::specs::Other::other_text))]
pub fn put_other_packet(frame: &[u8], line: &mut Vec<u8>) -> Result<(), AllocError>
    requires { 8 ≤ length frame.now }
    ensures { OnOk result (line.new.items ≡ line.old.items ++ other_packet frame.now) }
{
    let code = code_of(frame);
    put_packet_name(code, line)?;
    put_mark(line)?;
    line.extend_from_slice(b"packet")?;
    put_sized(frame.len(), code == CANCEL, &frame[8..], line)
}
