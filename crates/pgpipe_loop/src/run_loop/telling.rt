//! The lines of an event: what it came to, and in a trace what it is, what it moved, and where both ends stand after it.

ghost use Rattle.std.specs.Prelude.{◌≡◌, ◌≤◌, true, length, IfOk};
ghost use Rattle.pg_pair.specs.View.{way_state};
ghost use Rattle.pgpipe_loop.specs.Lines.{phase_rows, text_lines};
ghost use Rattle.pgpipe_loop.specs.RunLoop.{is_nothing};
ghost use Rattle.pgpipe_loop.specs.Private.Telling.{before_of, extent_of, moved_since, named_rows};
ghost use Rattle.pgpipe_loop.specs.Private.Telling.{rows_since, text_since};
ghost use Rattle.pg_client.specs.View as client;
ghost use Rattle.pg_backend.specs.Backend as backend;

use crate::lines::{LineBuffer, event_line, event_lines, put_phases, put_reached, put_sent};
use pg_pair::{Applied, Carry, Event, Pair, Way};
use std::alloc::{AllocError, Global};

/// How many bytes of a way were sent, and how many of them have reached its end.
#[derive(Clone, Copy)]
pub struct Extent {
    pub sent: usize,
    pub reached: usize,
}

/// How far a pair had come before an event.
#[derive(Clone, Copy)]
pub struct Before {
    /// How many groups were settled.
    pub settled: usize,
    /// Whether the connection was lost.
    pub lost: bool,
    pub to_backend: Extent,
    pub to_client: Extent,
}

fn extent_of<C: Carry>(pair: &Pair<C>, way: Way) -> Extent
    ensures { result ≡ extent_of (way_state way pair.now) }
{
    Extent {
        sent: pair.sent(way).len(),
        reached: pair.reached(way),
    }
}

/// How far a pair has come.
pub fn before_of<C: Carry>(pair: &Pair<C>) -> Before
    ensures { result ≡ before_of pair.now }
{
    Before {
        settled: pair.settled().len(),
        lost: pair.loss().is_some(),
        to_backend: extent_of(pair, Way::ToBackend),
        to_client: extent_of(pair, Way::ToClient),
    }
}

/// The line that names an event in a trace. Without a trace there is none.
pub fn named_lines(alloc: Global, trace: bool, event: &Event) -> Result<Vec<u8>, AllocError>
    ensures { IfOk result (λ text. text.items ≡ text_lines (named_rows trace event.now)) }
{
    if !trace {
        return Ok(Vec::new(alloc));
    }
    event_line(alloc, event)
}

// The lines of what an event came to. Before it the pair had come so far.
fn came_lines<C: Carry>(
    alloc: Global,
    pair: &Pair<C>,
    before: &Before,
    answer: &Applied,
) -> Result<Vec<u8>, AllocError>
    requires { before.now.settled ≤ length pair.now.settled }
    ensures { IfOk result (λ text. text.items
        ≡ text_lines (rows_since before.now answer.now pair.now)) }
{
    let (_, new) = pair.settled().split_at(before.settled);
    let loss = if before.lost { None } else { pair.loss() };
    event_lines(alloc, new, answer, loss)
}

// The lines of what an event moved. Before it the pair had come so far.
fn moved_lines<C: Carry>(
    alloc: Global,
    pair: &Pair<C>,
    before: &Before,
) -> Result<Vec<u8>, AllocError>
    ensures { IfOk result (λ text. text.items ≡ text_lines (moved_since before.now pair.now)) }
{
    let mut lines = LineBuffer::new(alloc);
    let (backward, onward) = (before.to_client, before.to_backend);
    let to_backend = pair.reached(Way::ToBackend).saturating_sub(onward.reached);
    let to_client = pair.reached(Way::ToClient).saturating_sub(backward.reached);
    put_reached(Way::ToBackend, to_backend, &mut lines)?;
    put_reached(Way::ToClient, to_client, &mut lines)?;
    put_sent(
        Way::ToBackend,
        onward.sent,
        pair.sent(Way::ToBackend),
        &mut lines,
    )?;
    put_sent(
        Way::ToClient,
        backward.sent,
        pair.sent(Way::ToClient),
        &mut lines,
    )?;
    Ok(lines.into_text())
}

// The lines of the phases of both ends.
fn phase_lines<C: Carry>(alloc: Global, pair: &Pair<C>) -> Result<Vec<u8>, AllocError>
    ensures { IfOk result (λ text. text.items ≡ text_lines
        (phase_rows (client.phase_of pair.now.client) (backend.phase_of pair.now.backend.stage))) }
{
    let mut lines = LineBuffer::new(alloc);
    put_phases(pair.client().phase(), pair.backend().phase(), &mut lines)?;
    Ok(lines.into_text())
}

// The lines of an event in a trace: the one that names it, and then what it moved, what it came to, and the phases after it.
fn traced_lines<C: Carry>(
    alloc: Global,
    pair: &Pair<C>,
    before: &Before,
    named: Vec<u8>,
    answer: &Applied,
) -> Result<Vec<u8>, AllocError>
    requires { before.now.settled ≤ length pair.now.settled }
    ensures { IfOk result (λ text. text.items
        ≡ text_since true before.now named.items answer.now pair.now) }
{
    if is_nothing(answer) {
        return Ok(Vec::new(alloc));
    }
    let mut lines = named;
    lines.extend_from_slice(moved_lines(alloc, pair, before)?.as_slice())?;
    lines.extend_from_slice(came_lines(alloc, pair, before, answer)?.as_slice())?;
    lines.extend_from_slice(phase_lines(alloc, pair)?.as_slice())?;
    Ok(lines)
}

/// The lines of an event that was named so. Before it the pair had come so far.
pub fn lines_since<C: Carry>(
    alloc: Global,
    pair: &Pair<C>,
    trace: bool,
    before: &Before,
    named: Vec<u8>,
    answer: &Applied,
) -> Result<Vec<u8>, AllocError>
    requires { before.now.settled ≤ length pair.now.settled }
    ensures { IfOk result (λ text. text.items
        ≡ text_since trace before.now named.items answer.now pair.now) }
{
    if trace {
        return traced_lines(alloc, pair, before, named, answer);
    }
    came_lines(alloc, pair, before, answer)
}

/// Whether an event did nothing.
pub fn is_nothing(answer: &Applied) -> bool
    ensures { result ≡ is_nothing answer.now }
{
    matches!(answer, Applied::Nothing)
}
