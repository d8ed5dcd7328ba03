//! The lines of a trace: what an event is, and what was moved.

ghost use Rattle.std.specs.Prelude.{◌≡◌, ◌<◌, ◌≤◌, [], ◌∷◌, Some, length, take, ◌+◌, true, false};
ghost use Rattle.std.specs.Prelude.{IfOk, MatchOption, OnOk};
ghost use Rattle.std.specs.Fmt.{decimal};
ghost use Rattle.std.specs.Int.{w32, from_be_bytes};
ghost use Rattle.pgpipe_loop.specs.Lines.{text_lines};
ghost use Rattle.pgpipe_loop.specs.Trace.{begins_whole, call_fields, event_fields, event_row};
ghost use Rattle.pgpipe_loop.specs.Trace.{lead_after, length_after, message_name, reached_rows};
ghost use Rattle.pgpipe_loop.specs.Trace.{sent_row, sent_rows, sent_since, way_word};
ghost use Rattle.pgpipe_loop.specs.Private.Lines.{with_fields, with_row, with_rows};

use super::buffer::LineBuffer;
use super::short::put_request;
use pg_client::Call;
use pg_pair::{Event, Way};
use std::alloc::{AllocError, Global};

/// The line that says what an event is, as COPY text.
pub fn event_line(alloc: Global, event: &Event) -> Result<Vec<u8>, AllocError>
    ensures { IfOk result (λ text. text.items ≡ text_lines (event_row event.now ∷ [])) }
{
    let mut lines = LineBuffer::new(alloc);
    lines.put_text(b"event")?;
    put_event(event, &mut lines)?;
    lines.end()?;
    Ok(lines.into_text())
}

// Puts an event as a line of CALLS has it.
fn put_event(event: &Event, lines: &mut LineBuffer) -> Result<(), AllocError>
    ensures { OnOk result (lines.new ≡ with_fields lines.old (event_fields event.now)) }
{
    match event {
        Event::Call(call) => put_call(call, lines),
        Event::Step => lines.put_text(b"step"),
        Event::ToBackend(most) => put_delivery(Way::ToBackend, *most, lines),
        Event::ToClient(most) => put_delivery(Way::ToClient, *most, lines),
        Event::BreakToBackend => lines.put_text(b"breakback"),
        Event::BreakToClient => lines.put_text(b"breakclient"),
    }
}

// Puts a call as a line of CALLS has it; a group has the number of its steps.
fn put_call(call: &Call, lines: &mut LineBuffer) -> Result<(), AllocError>
    ensures { OnOk result (lines.new ≡ with_fields lines.old (call_fields call.now)) }
{
    match call {
        Call::Start => lines.put_text(b"start"),
        Call::Request(request) => put_request(request, lines),
        Call::Chunk(bytes) => put_two(b"chunk", bytes.as_slice(), lines),
        Call::Done => lines.put_text(b"done"),
        Call::Fail(reason) => put_two(b"fail", reason.as_slice(), lines),
        Call::Terminate => lines.put_text(b"terminate"),
    }
}

// Puts a word and a text.
fn put_two(word: &[u8], text: &[u8], lines: &mut LineBuffer) -> Result<(), AllocError>
    ensures { OnOk result (lines.new
        ≡ with_fields lines.old (Some word.now ∷ Some text.now ∷ [])) }
{
    lines.put_text(word)?;
    lines.put_text(text)
}

// Puts the verb that delivers along a way, and how many bytes it delivers at most.
fn put_delivery(way: Way, most: u32, lines: &mut LineBuffer) -> Result<(), AllocError>
    ensures { OnOk result (lines.new
        ≡ with_fields lines.old (Some (way_word way) ∷ Some (decimal most) ∷ [])) }
{
    lines.put_text(way_word(way))?;
    lines.put_count(most as usize)
}

// The verb that delivers along a way.
fn way_word(way: Way) -> &'static [u8]
    ensures { result.now ≡ way_word way }
{
    match way {
        Way::ToBackend => b"toback",
        Way::ToClient => b"toclient",
    }
}

/// Puts the line that says how many bytes have reached the end of a way, if any have.
pub fn put_reached(way: Way, count: usize, lines: &mut LineBuffer) -> Result<(), AllocError>
    ensures { OnOk result (lines.new ≡ with_rows lines.old (reached_rows way count)) }
{
    if count == 0 {
        return Ok(());
    }
    lines.put_text(b"reached")?;
    lines.put_text(way_word(way))?;
    lines.put_count(count)?;
    lines.end()
}

// The number in the first four bytes, once they are there.
fn number(bytes: &[u8]) -> Option<u32>
    ensures { MatchOption result (length bytes.now < 4) (λ n. (4 ≤ length bytes.now)
        × (from_be_bytes w32 (take 4 bytes.now) ≡ n)) }
{
    match bytes {
        [a, b, c, d, ..] => Some(u32::from_be_bytes([*a, *b, *c, *d])),
        _ => None,
    }
}

// How many bytes the first message has, if these begin with a whole one, of which so many bytes stand before its length field.
fn whole_size(lead: usize, bytes: &[u8]) -> Option<usize>
    requires { lead ≤ 1 }
    ensures { MatchOption result (begins_whole lead bytes.now ≡ false) (λ size.
        (begins_whole lead bytes.now ≡ true) × (size ≡ lead + length_after lead bytes.now)
        × (4 ≤ size) × (size ≤ length bytes.now)) }
{
    let (_, rest) = bytes.split_at(bytes.len().min(lead));
    let size = lead + number(rest)? as usize;
    if size < lead + 4 || size > bytes.len() {
        return None;
    }
    Some(size)
}

// Puts the line of a message that was sent along a way, or of bytes that are none.
fn put_sent_line(
    way: Way,
    lead: usize,
    bytes: &[u8],
    lines: &mut LineBuffer,
) -> Result<(), AllocError>
    requires { lead ≤ 1 }
    ensures { OnOk result (lines.new ≡ with_row lines.old (sent_row way lead bytes.now)) }
{
    lines.put_text(b"sent")?;
    lines.put_text(way_word(way))?;
    if whole_size(lead, bytes).is_none() {
        lines.put_text(b"rest")?;
        lines.put_count(bytes.len())?;
        lines.put_hexadecimal(bytes)?;
        return lines.end();
    }
    lines.put_text(message_name(lead, bytes))?;
    lines.put_count(bytes.len() - lead)?;
    lines.put_hexadecimal(&bytes[lead + 4..])?;
    lines.end()
}

// The name of a message: its tag, or a word for a client's first packet.
fn message_name(lead: usize, bytes: &[u8]) -> &[u8]
    ensures { result.now ≡ message_name lead bytes.now }
{
    if lead == 0 {
        return b"startup";
    }
    bytes.split_at(bytes.len().min(1)).0
}

// Puts the lines of these bytes that were sent along a way, message by message.
fn put_sent_lines(
    way: Way,
    lead: usize,
    bytes: &[u8],
    lines: &mut LineBuffer,
) -> Result<(), AllocError>
    requires { lead ≤ 1 }
    ensures { OnOk result (lines.new
        ≡ with_rows lines.old (sent_rows (length bytes.now) way lead bytes.now)) }
{
    let mut before = lead;
    let mut rest = bytes;
    while !rest.is_empty() {
        let size = whole_size(before, rest).unwrap_or(rest.len());
        let (message, later) = rest.split_at(size);
        put_sent_line(way, before, message, lines)?;
        rest = later;
        before = 1;
    }
    Ok(())
}

// How many bytes stand before the length field of what is sent along a way after so many bytes.
fn lead_after(way: Way, before: usize) -> usize
    ensures lead { result ≡ lead_after way before }
    ensures small { result ≤ 1 }
{
    match way {
        Way::ToBackend if before == 0 => 0,
        Way::ToBackend | Way::ToClient => 1,
    }
}

/// Puts the lines of what was sent along a way after so many bytes, of all that was.
pub fn put_sent(
    way: Way,
    before: usize,
    sent: &[u8],
    lines: &mut LineBuffer,
) -> Result<(), AllocError>
    ensures { OnOk result (lines.new ≡ with_rows lines.old (sent_since way before sent.now)) }
{
    let (_, new) = sent.split_at(sent.len().min(before));
    put_sent_lines(way, lead_after(way, before), new, lines)
}
