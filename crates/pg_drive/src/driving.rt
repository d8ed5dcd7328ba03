//! A client, driven over a link.

ghost use Rattle.std.specs.Prelude.{◌≡◌, length};
ghost use Rattle.pg_client.specs.View.{phase_of};
ghost use Rattle.pg_drive.specs.Drive.{Drives, IsSeen, connected, longest_piece};
ghost use Rattle.pg_drive.specs.Private.Turning.{TakesTurn};

use crate::answer::{DriveFault, Driven};
use crate::receiving::{PIECE, receive};
use pg_client::{Client, Phase};
use pg_wire::{Sink, Source, send_out};

/// Drives a client: sends all of `out` over a link, then receives pieces of at most 4,096 bytes, at most `turns` times, feeds each to the client and
/// sends what it put out. What was sent is taken off the front of `out`.
///
/// After each piece it returns the first of these that holds, if one does:
/// - Settled: a settled group waits.
/// - Ready: the client stood in phase Starting when the call began, and is Ready.
/// - CopyIn: the client stands in phase CopyingIn.
///
/// It returns Lost at the end of the server's bytes, and TurnsUsed after `turns` pieces, even where that is 0.
///
/// D1 Feed: the client rejected a piece, and what it put out before the fault isn't sent. D2 Link: a call of the link failed, and
/// [`lost`](Client::lost) was called on the client.
pub fn drive<L: Source + Sink>(
    client: &mut Client,
    out: &mut Vec<u8>,
    link: &mut L,
    turns: u32,
) -> Result<Driven, DriveFault>
    ensures { Drives L.gives L.takes L.has_ended L.Source.failures L.Sink.failures turns
        (connected link.old client.old out.old.items) result
        (connected link.new client.new out.new.items) }
{
    let began = client.phase();
    let Ok(()) = send_out(out, link) else {
        return Err(DriveFault::Link(client.lost()));
    };
    let mut piece = [0u8; PIECE];
    for _ in 0..turns {
        if let Some(driven) = turn(client, out, link, began, &mut piece)? {
            return Ok(driven);
        }
    }
    Ok(Driven::TurnsUsed)
}

// Receives a piece, feeds it and sends what the client put out. None: there is nothing to do for the caller yet.
fn turn<L: Source + Sink>(
    client: &mut Client,
    out: &mut Vec<u8>,
    link: &mut L,
    began: Phase,
    piece: &mut [u8],
) -> Result<Option<Driven>, DriveFault>
    requires { length piece.old ≡ longest_piece }
    ensures { TakesTurn L.gives L.takes L.has_ended L.Source.failures L.Sink.failures began
        (connected link.old client.old out.old.items) result
        (connected link.new client.new out.new.items) }
{
    if let Some(loss) = receive(client, out, link, piece)? {
        return Ok(Some(Driven::Lost(loss)));
    }
    Ok(look(client, began))
}

// Whether there is something to do for the caller after a piece. The client stood in this phase when the call began.
fn look(client: &Client, began: Phase) -> Option<Driven>
    ensures { IsSeen began client.now result }
{
    if client.has_settled() {
        return Some(Driven::Settled);
    }
    match client.phase() {
        Phase::Ready if began == Phase::Starting => Some(Driven::Ready),
        Phase::CopyingIn => Some(Driven::CopyIn),
        _ => None,
    }
}
