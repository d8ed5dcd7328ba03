//! The lines of what an event came to, and the closing lines.

ghost use Rattle.std.specs.Prelude.{◌≡◌, length, IfOk, OnOk, option_copied};
ghost use Rattle.pg_backend.specs.Fault.{backend_code};
ghost use Rattle.pg_client.specs.Fault.{feed_code};
ghost use Rattle.pgpipe_loop.specs.Lines.{answer_rows, backend_details, backend_word, client_word};
ghost use Rattle.pgpipe_loop.specs.Lines.{closing_rows, event_rows, fault_row, feed_details};
ghost use Rattle.pgpipe_loop.specs.Lines.{loaded_row, loaded_rows, loaded_rows_of, lost_row};
ghost use Rattle.pgpipe_loop.specs.Lines.{loss_rows, phase_rows, text_lines, unsettled_fields};
ghost use Rattle.pgpipe_loop.specs.Private.Lines.{with_fields, with_row, with_rows};

use super::buffer::LineBuffer;
use super::lists::{put_all_lines, put_each_field};
use super::short::{put_error_fields, put_request, put_text_line, put_word_line};
use pg_backend::{BackPhase, BackendFault, Logged};
use pg_client::{FeedFault, Loss, Phase, Settled};
use pg_pair::Applied;
use pg_wire::{Request, Seq};
use std::alloc::{AllocError, Global};

// The most chunks of a line.
const MOST_CHUNKS: usize = 32_765;

/// The lines of an event, as COPY text: the groups that were settled in it, what it came to, and the loss that it brought, if it brought one.
pub fn event_lines(
    alloc: Global,
    settled: &[Settled],
    answer: &Applied,
    loss: Option<&Loss>,
) -> Result<Vec<u8>, AllocError>
    ensures { IfOk result (λ text. text.items
        ≡ text_lines (event_rows settled.now answer.now (option_copied loss.entry))) }
{
    let mut lines = LineBuffer::new(alloc);
    put_all_lines(settled, &mut lines)?;
    put_answer(answer, &mut lines)?;
    put_loss(loss, &mut lines)?;
    Ok(lines.into_text())
}

/// The closing lines of a loop, as COPY text: the chunks that the backend took for each request, and the phases of both ends.
pub fn closing_lines(
    alloc: Global,
    log: &[Logged],
    client: Phase,
    backend: BackPhase,
) -> Result<Vec<u8>, AllocError>
    ensures { IfOk result (λ text. text.items ≡ text_lines (closing_rows log.now client backend)) }
{
    let mut lines = LineBuffer::new(alloc);
    put_loaded(log, &mut lines)?;
    put_phases(client, backend, &mut lines)?;
    Ok(lines.into_text())
}

/// Puts the lines of the phases of both ends.
pub fn put_phases(
    client: Phase,
    backend: BackPhase,
    lines: &mut LineBuffer,
) -> Result<(), AllocError>
    ensures { OnOk result (lines.new ≡ with_rows lines.old (phase_rows client backend)) }
{
    put_text_line(b"client", client_word(client), lines)?;
    put_text_line(b"backend", backend_word(backend), lines)
}

fn client_word(phase: Phase) -> &'static [u8]
    ensures { result.now ≡ client_word phase }
{
    match phase {
        Phase::New => b"new",
        Phase::Starting => b"starting",
        Phase::Ready => b"ready",
        Phase::Busy => b"busy",
        Phase::CopyingIn => b"copying",
        Phase::Closed(_) => b"closed",
    }
}

fn backend_word(phase: BackPhase) -> &'static [u8]
    ensures { result.now ≡ backend_word phase }
{
    match phase {
        BackPhase::First => b"first",
        BackPhase::Password => b"password",
        BackPhase::Ready => b"ready",
        BackPhase::Grouping => b"grouping",
        BackPhase::CopyIn => b"copying",
        BackPhase::Closed => b"closed",
    }
}

/// Puts the lines of what an event came to.
pub fn put_answer(answer: &Applied, lines: &mut LineBuffer) -> Result<(), AllocError>
    ensures { OnOk result (lines.new ≡ with_rows lines.old (answer_rows answer.now)) }
{
    match answer {
        Applied::Done | Applied::Nothing => Ok(()),
        Applied::Refused { fault, .. } => {
            put_text_line(b"refused", fault.code().as_bytes(), lines)
        }
        Applied::Client(fault) => put_feed_fault(fault, lines),
        Applied::Backend(fault) => put_backend_fault(fault, lines),
        Applied::Carrier => put_text_line(b"fault", b"carry", lines),
    }
}

fn put_feed_fault(fault: &FeedFault, lines: &mut LineBuffer) -> Result<(), AllocError>
    ensures { OnOk result (lines.new
        ≡ with_row lines.old (fault_row (feed_code fault.now) (feed_details fault.now))) }
{
    lines.put_text(b"fault")?;
    lines.put_text(fault.code().as_bytes())?;
    put_feed_details(fault, lines)?;
    lines.end()
}

// Puts what the fault has beside its code.
fn put_feed_details(fault: &FeedFault, lines: &mut LineBuffer) -> Result<(), AllocError>
    ensures { OnOk result (lines.new ≡ with_fields lines.old (feed_details fault.now)) }
{
    match fault {
        FeedFault::Wire(fault) => lines.put_text(fault.code().as_bytes()),
        FeedFault::StartupError(fields) | FeedFault::ServerEnd(fields) => {
            put_error_fields(fields, lines)
        }
        FeedFault::Unexpected(_)
        | FeedFault::UnsupportedAuth(_)
        | FeedFault::PasswordWanted
        | FeedFault::Memory
        | FeedFault::Closed => Ok(()),
    }
}

fn put_backend_fault(fault: &BackendFault, lines: &mut LineBuffer) -> Result<(), AllocError>
    ensures { OnOk result (lines.new
        ≡ with_row lines.old (fault_row (backend_code fault.now) (backend_details fault.now))) }
{
    lines.put_text(b"fault")?;
    let code = fault.code().as_bytes();
    match fault {
        BackendFault::Wire(fault) => put_text_line(code, fault.code().as_bytes(), lines),
        BackendFault::Memory | BackendFault::Closed | BackendFault::Unexpected(_) => {
            put_word_line(code, lines)
        }
    }
}

fn put_loss(loss: Option<&Loss>, lines: &mut LineBuffer) -> Result<(), AllocError>
    ensures { OnOk result (lines.new ≡ with_rows lines.old (loss_rows (option_copied loss.entry))) }
{
    match loss {
        None => Ok(()),
        Some(loss) => put_lost(loss, lines),
    }
}

fn put_lost(loss: &Loss, lines: &mut LineBuffer) -> Result<(), AllocError>
    ensures { OnOk result (lines.new ≡ with_row lines.old (lost_row loss.now)) }
{
    lines.put_text(b"lost")?;
    lines.put_text(if loss.seen_error { b"error" } else { b"clear" })?;
    put_unsettled(&loss.unsettled, lines)?;
    lines.end()
}

fn put_unsettled(request: &Option<Request>, lines: &mut LineBuffer) -> Result<(), AllocError>
    ensures { OnOk result (lines.new ≡ with_fields lines.old (unsettled_fields request.now)) }
{
    match request {
        None => lines.put_text(b"none"),
        Some(request) => put_request(request, lines),
    }
}

// Puts the chunks that were loaded for each request that loaded any.
fn put_loaded(log: &[Logged], lines: &mut LineBuffer) -> Result<(), AllocError>
    ensures { OnOk result (lines.new ≡ with_rows lines.old (loaded_rows 1 log.now)) }
{
    for i in 0..log.len() {
        let entry = &log[i];
        put_chunks(i + 1, entry.loaded.as_slice(), lines)?;
    }
    Ok(())
}

// Puts the chunks that the request of this number loaded.
fn put_chunks(number: usize, chunks: &[Seq<u8>], lines: &mut LineBuffer) -> Result<(), AllocError>
    ensures { OnOk result (lines.new
        ≡ with_rows lines.old (loaded_rows_of (length chunks.now) number chunks.now)) }
{
    let mut rest = chunks;
    while !rest.is_empty() {
        let (now, later) = rest.split_at(rest.len().min(MOST_CHUNKS));
        put_loaded_line(number, now, lines)?;
        rest = later;
    }
    Ok(())
}

fn put_loaded_line(
    number: usize,
    chunks: &[Seq<u8>],
    lines: &mut LineBuffer,
) -> Result<(), AllocError>
    ensures { OnOk result (lines.new ≡ with_row lines.old (loaded_row number chunks.now)) }
{
    lines.put_text(b"loaded")?;
    lines.put_count(number)?;
    put_each_field(chunks, lines)?;
    lines.end()
}
