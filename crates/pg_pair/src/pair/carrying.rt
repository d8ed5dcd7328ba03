//! A carrier's call, and what it comes to.

ghost use Rattle.std.specs.Prelude.{◌≡◌, ◌≤◌, ◌<◌, length};
ghost use Rattle.pg_pair.specs.Carrying.{longest_piece, same_front};
ghost use Rattle.pg_pair.specs.Private.Delivering.{IsCarried};

use crate::carry::{Carry, Way};

// The greatest piece.
pub(crate) const PIECE: usize = 4096;

// What became of a piece: how many of its bytes are delivered, and whether the carrier failed or gave other bytes.
#[derive(Clone, Copy)]
pub(crate) struct Carried {
    pub(crate) given: usize,
    pub(crate) bad: bool,
}

// How long the longest common prefix of both is.
fn count_same(piece: &[u8], came: &[u8]) -> usize
    ensures { result ≡ length (same_front piece.now came.now) }
{
    let most = piece.len().min(came.len());
    for index in 0..most {
        if piece[index] != came[index] {
            return index;
        }
    }
    most
}

// Carries a piece.
pub(crate) fn carry_piece<C: Carry>(carrier: &mut C, way: Way, piece: &[u8]) -> Carried
    requires some { 0 < length piece.now }
    requires room { length piece.now ≤ longest_piece }
    ensures { IsCarried C.carries way carrier.old piece.now carrier.new result }
{
    let mut buffer = [0u8; PIECE];
    let into = &mut buffer[..piece.len()];
    match carrier.carry(way, piece, into) {
        Ok(count) => {
            let given = count_same(piece, &into[..count]);
            Carried {
                given,
                bad: given < count,
            }
        }
        Err(_) => Carried {
            given: 0,
            bad: true,
        },
    }
}
