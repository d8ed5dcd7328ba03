//! What carries bytes from one end to the other.

ghost use Rattle.std.specs.Prelude.{◌≡◌, ◌<◌, ◌≤◌, ℕ, Ok, length};
ghost use Rattle.pg_pair.specs.Carrying.{arrival, Carrying, CountsFaults, IsWithinPiece};
ghost use Rattle.pg_pair.specs.Carrying.{longest_piece};

use thiserror::Error;

/// A direction of the connection: what one end sends reaches the other along it.
#[derive(Clone, Copy, Debug, PartialEq, Eq)]
pub enum Way {
    /// From the client to the backend.
    ToBackend,
    /// From the backend to the client.
    ToClient,
}

/// The carrier failed: no byte of the piece arrived.
#[derive(Clone, Copy, Debug, PartialEq, Eq, Error)]
#[error("the carrier failed")]
pub struct CarryFault;

/// Carries the bytes that each end sends to the other, piece by piece.
pub trait Carry: Drop {
    // How many calls have failed.
    ghost failures: { Self → ℕ };

    // A call may carry a piece along a way so, with these bytes arriving or with a fault, and leave the carrier so.
    ghost carries: { Carrying Self };

    /// Carries a piece of 1 to 4,096 bytes, and returns how many bytes arrived, at most those of the piece. They stand at the beginning of `into`,
    /// which is as long as the piece. A fault is returned only where carrying failed in this call, and is counted.
    fn carry(&mut self, way: Way, piece: &[u8], into: &mut [u8]) -> Result<usize, CarryFault>
        requires same_length { length into.old ≡ length piece.now }
        requires some { 0 < length piece.now }
        requires room { length piece.now ≤ longest_piece }
        ensures within { IsWithinPiece result piece.now }
        ensures carried { carries self.old way piece.now (arrival result into.new) self.new }
        ensures counted { CountsFaults result (failures self.old) (failures self.new) };
}

/// Gives each piece whole and unchanged, in memory, and never fails.
#[derive(Clone, Copy, Debug, PartialEq, Eq)]
pub struct Direct;

impl Carry for Direct {
    ghost failures = { λ _. 0 };

    ghost carries = { λ old way piece result new. result ≡ Ok piece };

    fn carry(&mut self, way: Way, piece: &[u8], into: &mut [u8]) -> Result<usize, CarryFault> {
        into.copy_from_slice(piece);
        Ok(piece.len())
    }
}
