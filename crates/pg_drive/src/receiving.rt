//! Pieces that are received and fed.

ghost use Rattle.std.specs.Prelude.{◌≡◌, length};
ghost use Rattle.pg_drive.specs.Drive.{ClientKind, connected, longest_piece};
ghost use Rattle.pg_drive.specs.Private.Turning.{Receives};

use crate::answer::DriveFault;
use pg_client::{Connection, FeedFault, Keeper, Loss};
use pg_wire::{Sink, Source, send_out};

// How many bytes are received at once.
pub(crate) const PIECE: usize = 4_096;

/// A client that can be driven.
pub(crate) trait Drivable {
    // what it does then
    ghost kind: { ClientKind Self };

    /// Takes the bytes that came from the server.
    fn feed(&mut self, piece: &[u8], out: &mut Vec<u8>) -> Result<(), FeedFault>
        ensures { kind.feeds self.old piece.now result self.new out.old.items out.new.items };

    /// Says that the connection is gone.
    fn lost(&mut self) -> Loss
        ensures { kind.is_lost self.old result self.new };
}

impl<K: Keeper> Drivable for Connection<K> {
    ghost use Rattle.pg_drive.specs.Drive.{kind_of};

    ghost kind = { kind_of K.way };

    fn feed(&mut self, piece: &[u8], out: &mut Vec<u8>) -> Result<(), FeedFault> {
        Connection::feed(self, piece, out)
    }

    fn lost(&mut self) -> Loss {
        Connection::lost(self)
    }
}

// Receives a piece, feeds it and sends what the client put out. At the end of the server's bytes it returns the loss.
pub(crate) fn receive<C: Drivable, L: Source + Sink>(
    client: &mut C,
    out: &mut Vec<u8>,
    link: &mut L,
    piece: &mut [u8],
) -> Result<Option<Loss>, DriveFault>
    requires { length piece.old ≡ longest_piece }
    ensures { Receives C.kind L.gives L.takes L.has_ended L.Source.failures L.Sink.failures
        (connected link.old client.old out.old.items) result
        (connected link.new client.new out.new.items) }
{
    let Ok(count) = link.receive(piece) else {
        return Err(DriveFault::Link(client.lost()));
    };
    if count == 0 {
        return Ok(Some(client.lost()));
    }
    client.feed(&piece[..count], out)?;
    let Ok(()) = send_out(out, link) else {
        return Err(DriveFault::Link(client.lost()));
    };
    Ok(None)
}
