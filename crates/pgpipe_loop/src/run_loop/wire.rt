//! A carrier whose wire is cut, and a sink for lines that nobody reads.

ghost use Rattle.std.specs.Prelude.{◌≡◌};
ghost use Rattle.pgpipe_loop.specs.Everywhere.{Brings, cut_at, is_same_way};

use super::places::Place;
use pg_pair::{Carry, CarryFault, Way};
use pg_wire::{LinkFault, Sink};

/// Carries each piece whole, except along one way, where it carries only so many bytes. After these its calls along that way fail.
#[derive(Drop)]
pub struct CutWire {
    way: Way,
    left: usize,
    failures: u64,
}

impl CutWire {
    /// A carrier that is cut in this place.
    pub fn new(place: Place) -> CutWire
        ensures { result ≡ cut_at place }
    {
        CutWire {
            way: place.way,
            left: place.bytes,
            failures: 0,
        }
    }
}

fn is_same_way(a: Way, b: Way) -> bool
    ensures { result ≡ is_same_way a b }
{
    a == b
}

impl Carry for CutWire {
    ghost failures = { λ w. w.failures };

    ghost carries = { Brings };

    fn carry(&mut self, way: Way, piece: &[u8], into: &mut [u8]) -> Result<usize, CarryFault> {
        into.copy_from_slice(piece);
        if !is_same_way(way, self.way) {
            return Ok(piece.len());
        }
        if self.left == 0 {
            self.failures = self.failures.saturating_add(1);
            return Err(CarryFault);
        }
        let count = piece.len().min(self.left);
        self.left -= count;
        Ok(count)
    }
}

/// Takes all lines, and keeps none.
#[derive(Drop)]
pub struct Unread;

impl Sink for Unread {
    ghost failures = { λ _. 0 };

    ghost takes = { λ _ _ _. Unit {0} };

    fn send(&mut self, piece: &[u8]) -> Result<usize, LinkFault> {
        Ok(piece.len())
    }
}
