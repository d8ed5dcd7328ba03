//! Serving a client over a link.

ghost use Rattle.std.specs.Prelude.{◌≡◌, ◌≤◌, drop, length, IfOk};
ghost use Rattle.pg_backend.specs.Check.{IsChecked};
ghost use Rattle.pgpipe_loop.specs.Lines.{decided_rows, text_lines};
ghost use Rattle.pgpipe_loop.specs.Serving.{Serves, applied_of, left_in};
ghost use Rattle.pgpipe_loop.specs.Private.Turning.{SendsLines, TakesTurn, TakesAllTurns, serving};

use crate::lines::{closing_lines, turn_lines};
use pg_backend::{AnswerFault, Answered, BackPhase, Backend, Logged, Script, answer};
use pg_client::{Cause, Phase};
use pg_pair::Applied;
use pg_wire::{Sink, Source};
use pgpipe_base::ToolFault;
use pgpipe_base::outbox::send_all;
use std::alloc::{AllocError, Global};

// The limit of a message's length field.
const LIMIT: u32 = 1_073_741_823;

// The most turns of a connection.
const MOST_TURNS: u64 = u64::MAX;

/// Serves a client over a link, from the script's beginning to the end of the connection, and sends the lines of what it asked and was answered. They
/// are those of each request in the turn in which it is decided, that of a fault, and the closing lines. The script must be checked.
///
/// A link that fails is no fault of this call: its line is `fault carry`. `Device`: the sink failed in this call; a prefix of the lines was then
/// sent. `Memory`: memory for lines ran out; the lines of the turns before were then sent.
pub fn serve<L: Source + Sink, K: Sink>(
    alloc: Global,
    script: Script,
    link: &mut L,
    sink: &mut K,
) -> Result<(), ToolFault>
    requires { IsChecked script }
    ensures { Serves L.gives L.takes L.has_ended L.Source.failures L.Sink.failures
        K.takes K.failures script link.old sink.old result link.new sink.new }
{
    let mut backend = Backend::new(alloc, script, LIMIT);
    let phase = take_turns(alloc, &mut backend, link, sink)?;
    let lines = closing_lines(alloc, backend.log(), Phase::Closed(Cause::Lost), phase)?;
    send_lines(lines.as_slice(), sink)
}

// Takes turns until the connection is over, and returns the phase in which the backend was left. A connection has at most 2^64 - 1 turns, which none
// uses up.
fn take_turns<L: Source + Sink, K: Sink>(
    alloc: Global,
    backend: &mut Backend,
    link: &mut L,
    sink: &mut K,
) -> Result<BackPhase, ToolFault>
    ensures { TakesAllTurns L.gives L.takes L.has_ended L.Source.failures L.Sink.failures
        K.takes K.failures
        (serving link.old backend.old sink.old) result (serving link.new backend.new sink.new) }
{
    for _ in 0..MOST_TURNS {
        if let Some(phase) = turn(alloc, backend, link, sink)? {
            return Ok(phase);
        }
    }
    Ok(backend.phase())
}

// Takes a turn, and sends its lines. None: the connection goes on.
fn turn<L: Source + Sink, K: Sink>(
    alloc: Global,
    backend: &mut Backend,
    link: &mut L,
    sink: &mut K,
) -> Result<Option<BackPhase>, ToolFault>
    ensures { TakesTurn L.gives L.takes L.has_ended L.Source.failures L.Sink.failures
        K.takes K.failures
        (serving link.old backend.old sink.old) result (serving link.new backend.new sink.new) }
{
    let decided = backend.log().len();
    let before = backend.phase();
    let answered = answer(alloc, backend, link, 1);
    let lines = lines_since(alloc, decided, backend.log(), &answered)?;
    send_lines(lines.as_slice(), sink)?;
    Ok(left_in(before, &answered, backend.phase()))
}

// The lines of a turn. Before it so many requests were decided.
fn lines_since(
    alloc: Global,
    decided: usize,
    log: &[Logged],
    answered: &Result<Answered, AnswerFault>,
) -> Result<Vec<u8>, AllocError>
    requires { decided ≤ length log.now }
    ensures { IfOk result (λ text. text.items
        ≡ text_lines (decided_rows (drop decided log.now) (applied_of answered.now))) }
{
    let (_, new) = log.split_at(decided);
    turn_lines(alloc, new, &applied_of(answered))
}

// The result of a turn, as what an event of a loop comes to.
fn applied_of(answered: &Result<Answered, AnswerFault>) -> Applied
    ensures { result ≡ applied_of answered.now }
{
    match answered {
        Ok(_) => Applied::Done,
        Err(AnswerFault::Backend(fault)) => Applied::Backend(*fault),
        Err(AnswerFault::Link) => Applied::Carrier,
    }
}

// The phase in which the last turn leaves the backend, by its phases before and after it. None: the connection goes on.
fn left_in(
    before: BackPhase,
    answered: &Result<Answered, AnswerFault>,
    after: BackPhase,
) -> Option<BackPhase>
    ensures { result ≡ left_in before answered.now after }
{
    match answered {
        Ok(Answered::TurnsUsed) => None,
        Ok(Answered::Lost) | Err(AnswerFault::Link) => Some(before),
        Ok(Answered::Closed) | Err(AnswerFault::Backend(_)) => Some(after),
    }
}

/// Sends lines.
pub(crate) fn send_lines<K: Sink>(lines: &[u8], sink: &mut K) -> Result<(), ToolFault>
    ensures { SendsLines K.takes K.failures sink.old lines.now result sink.new }
{
    match send_all(lines, sink) {
        Ok(()) => Ok(()),
        Err(_) => Err(ToolFault::Device),
    }
}
