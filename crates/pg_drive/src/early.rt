//! An early client, driven over a link.

ghost use Rattle.std.specs.Prelude.{◌≡◌};
ghost use Rattle.pg_drive.specs.Drive.{connected};
ghost use Rattle.pg_drive.specs.Early.{DrivesEarly, Looks, early_kind};
ghost use Rattle.pg_drive.specs.Private.Turning.{Receives};

use crate::answer::{DriveFault, DrivenEarly};
use crate::receiving::{PIECE, receive};
use pg_client::{EarlyClient, Loss, Phase};
use pg_wire::{Sink, Source, send_out};

/// Drives an early client: sends all of `out` over a link, then looks whether there is something for the caller. Where there is nothing it receives a
/// piece of at most 4,096 bytes, feeds it, sends what the client put out, and looks again, at most `turns` times. What was sent is taken off the
/// front of `out`.
///
/// A look finds the first of these that holds:
/// - Ready: the client stood in phase Starting when the call began, and is Ready.
/// - Item: an item waits, which is taken and given.
/// - CopyIn: the client stands in phase CopyingIn.
///
/// So nothing is received while an item waits, or the server waits for data. It returns Lost at the end of the server's bytes, where all items are
/// taken, and TurnsUsed after `turns` pieces, even where that is 0.
///
/// D1 Feed: the client rejected a piece, and what it put out before the fault isn't sent. D2 Link: a call of the link failed, and
/// [`lost`](EarlyClient::lost) was called on the client. Items that wait in a closed client are given by further calls, or by
/// [`take_item`](EarlyClient::take_item), which needs no link.
pub fn drive_early<L: Source + Sink>(
    client: &mut EarlyClient,
    out: &mut Vec<u8>,
    link: &mut L,
    turns: u32,
) -> Result<DrivenEarly, DriveFault>
    ensures { DrivesEarly L.gives L.takes L.has_ended L.Source.failures L.Sink.failures turns
        (connected link.old client.old out.old.items) result
        (connected link.new client.new out.new.items) }
{
    let began = client.phase();
    let Ok(()) = send_out(out, link) else {
        return Err(DriveFault::Link(client.lost()));
    };
    for _ in 0..turns {
        if let Some(found) = look(client, began) {
            return Ok(found);
        }
        if let Some(loss) = receive_piece(client, out, link)? {
            return Ok(DrivenEarly::Lost(loss));
        }
    }
    match look(client, began) {
        Some(found) => Ok(found),
        None => Ok(DrivenEarly::TurnsUsed),
    }
}

// What there is for the caller. The client stood in this phase when the call began.
fn look(client: &mut EarlyClient, began: Phase) -> Option<DrivenEarly>
    ensures { Looks began client.old result client.new }
{
    let now = client.phase();
    if began == Phase::Starting && now == Phase::Ready {
        return Some(DrivenEarly::Ready);
    }
    if let Some(item) = client.take_item() {
        return Some(DrivenEarly::Item(item));
    }
    if now == Phase::CopyingIn {
        return Some(DrivenEarly::CopyIn);
    }
    None
}

// Receives a piece, feeds it and sends what the client put out. The room of the piece is a local of this function alone: a function clears the room
// of all its locals as it begins. An item that waits is to be given without that.
fn receive_piece<L: Source + Sink>(
    client: &mut EarlyClient,
    out: &mut Vec<u8>,
    link: &mut L,
) -> Result<Option<Loss>, DriveFault>
    ensures { Receives early_kind L.gives L.takes L.has_ended L.Source.failures L.Sink.failures
        (connected link.old client.old out.old.items) result
        (connected link.new client.new out.new.items) }
{
    let mut piece = [0u8; PIECE];
    receive(client, out, link, &mut piece)
}
