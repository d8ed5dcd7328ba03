//! A scripted backend that answers over a link.

ghost use Rattle.pg_backend.specs.OverLink.{Answers, connected};
ghost use Rattle.pg_backend.specs.Private.Turning.{SendsReply, TakesTurn};
ghost use Rattle.pg_backend.specs.Stage.{IsWaiting};

use crate::answered::{AnswerFault, Answered};
use crate::backend::Backend;
use crate::fault::BackendFault;
use pg_wire::{Sink, Source, send_all};
use std::alloc::Global;

// How many bytes are received at once.
const PIECE: usize = 4_096;

/// Has a backend answer over a link, in at most `turns` turns. In a turn the backend makes a step, and what it put out is sent. Where nothing whole
/// waits, a piece of at most 4,096 bytes is received instead, and pushed.
///
/// It returns Closed where the backend is closed as a turn begins, Lost at the end of the client's bytes, and TurnsUsed after `turns` turns, even
/// where that is 0. All that the backend replied is sent whatever is returned, except after A2.
///
/// A1 Backend: the backend returned a fault. Where it rejected a piece, [`lost`](Backend::lost) was called on it. A2 Link: a call of the link failed,
/// and `lost` was called on the backend too.
pub fn answer<L: Source + Sink>(
    alloc: Global,
    backend: &mut Backend,
    link: &mut L,
    turns: u32,
) -> Result<Answered, AnswerFault>
    ensures { Answers L.gives L.takes L.has_ended L.Source.failures L.Sink.failures turns
        (connected link.old backend.old) result (connected link.new backend.new) }
{
    for _ in 0..turns {
        if let Some(answered) = turn(alloc, backend, link)? {
            return Ok(answered);
        }
    }
    Ok(Answered::TurnsUsed)
}

// Makes a step and sends what the backend replied, or receives a piece. None: there is nothing to return yet.
fn turn<L: Source + Sink>(
    alloc: Global,
    backend: &mut Backend,
    link: &mut L,
) -> Result<Option<Answered>, AnswerFault>
    ensures { TakesTurn L.gives L.takes L.has_ended L.Source.failures L.Sink.failures
        (connected link.old backend.old) result (connected link.new backend.new) }
{
    let mut reply = Vec::new(alloc);
    match backend.step(&mut reply) {
        Ok(true) => {
            send_reply(backend, reply.as_slice(), link)?;
            Ok(None)
        }
        Ok(false) => receive(backend, link),
        Err(BackendFault::Closed) => Ok(Some(Answered::Closed)),
        Err(fault) => {
            send_reply(backend, reply.as_slice(), link)?;
            Err(AnswerFault::Backend(fault))
        }
    }
}

// Sends what the backend replied.
fn send_reply<L: Source + Sink>(
    backend: &mut Backend,
    reply: &[u8],
    link: &mut L,
) -> Result<(), AnswerFault>
    ensures { SendsReply L.takes L.Sink.failures (connected link.old backend.old) reply.now result
        (connected link.new backend.new) }
{
    if send_all(reply, link).is_err() {
        backend.lost();
        return Err(AnswerFault::Link);
    }
    Ok(())
}

// Receives a piece and pushes it.
fn receive<L: Source + Sink>(
    backend: &mut Backend,
    link: &mut L,
) -> Result<Option<Answered>, AnswerFault>
    requires { IsWaiting backend.old.stage }
    ensures { TakesTurn L.gives L.takes L.has_ended L.Source.failures L.Sink.failures
        (connected link.old backend.old) result (connected link.new backend.new) }
{
    let mut piece = [0u8; PIECE];
    let Ok(count) = link.receive(&mut piece) else {
        backend.lost();
        return Err(AnswerFault::Link);
    };
    if count == 0 {
        backend.lost();
        return Ok(Some(Answered::Lost));
    }
    if let Err(fault) = backend.push(&piece[..count]) {
        backend.lost();
        return Err(AnswerFault::Backend(fault));
    }
    Ok(None)
}
