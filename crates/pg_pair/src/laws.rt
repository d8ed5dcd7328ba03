//! Laws of a pair: each function does nothing, and its contract is the law.

ghost use Rattle.pg_pair.specs.View.{PairView};
ghost use Rattle.pg_pair.specs.Invariant.{Tied};
ghost use Rattle.pg_pair.specs.Laws.{DeliveryMoves, WaysBreak, WholeMoves};
ghost use Rattle.pg_pair.specs.Headline.{Headline};

use crate::carry::Carry;
use crate::known::known;

/// What holds of a pair at any time (`Tied`) implies the theorem (`Headline`).
pub fn headline<C: Carry>()
    ensures { (p : PairView C) → Tied p → Headline p }
{
    known();
}

/// A delivery leaves the other way as it was, but for what the client puts out as it is fed. It moves the lesser of what was asked for and what
/// waits, unless the way is shut or a piece falls short. A piece falls short where the carrier fails, gives fewer or other bytes, or the end returns
/// a fault to it.
pub fn delivery_moves<C: Carry>()
    ensures moves { DeliveryMoves C.carries }
    ensures whole { WholeMoves C.carries }
{}

/// A way is broken only by its break event, by a delivery along it in which the carrier failed or gave other bytes, or where memory ran out. It stays
/// broken.
pub fn ways_break<C: Carry>()
    ensures { WaysBreak C.carries }
{}
