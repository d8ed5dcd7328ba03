//! Breaks of the ways.

ghost use Rattle.std.specs.Prelude.{◌≡◌};
ghost use Rattle.pg_pair.specs.Breaking.{Breaks, BreaksBoth, BreaksIf, BreaksUnless};
ghost use Rattle.pg_pair.specs.Breaking.{is_closed, is_closed_backend, is_closed_client, is_shut};
ghost use Rattle.pg_pair.specs.declared.carry.Way.TheVariants.{ToBackend, ToClient};

use crate::carry::{Carry, Way};
use crate::event::{Applied, PairFault};
use crate::pair::Pair;
use pg_backend::BackPhase;
use pg_client::Phase;

// Whether a client in this phase is closed.
fn is_closed_client(phase: Phase) -> bool
    ensures { result ≡ is_closed_client phase }
{
    match phase {
        Phase::Closed(_) => true,
        _ => false,
    }
}

// Whether a backend in this phase is closed.
pub(crate) fn is_closed_backend(phase: BackPhase) -> bool
    ensures { result ≡ is_closed_backend phase }
{
    match phase {
        BackPhase::Closed => true,
        _ => false,
    }
}

impl<C: Carry> Pair<C> {
    // Whether the receiving end of a way is closed.
    fn is_closed(&self, way: Way) -> bool
        ensures { result ≡ is_closed way self.now }
    {
        match way {
            Way::ToBackend => is_closed_backend(self.backend.phase()),
            Way::ToClient => is_closed_client(self.client.phase()),
        }
    }

    // Whether nothing arrives there any more.
    pub(crate) fn is_shut(&self, way: Way) -> bool
        ensures { result ≡ is_shut way self.now }
    {
        self.broken(way) || self.is_closed(way)
    }

    // Breaks the way to the backend, and calls `lost` on the backend.
    fn break_off_backend(&mut self)
        ensures { Breaks ToBackend self.old self.new }
    {
        self.to_backend.broken = true;
        self.backend.lost();
    }

    // Breaks the way to the client, and calls `lost` on the client, unless that is closed.
    fn break_off_client(&mut self)
        ensures { Breaks ToClient self.old self.new }
    {
        let was_closed = is_closed_client(self.client.phase());
        self.to_client.broken = true;
        if was_closed {
            return;
        }
        self.loss = Some(self.client.lost());
    }

    // Breaks a way, and calls `lost` on the receiving end, unless that is closed.
    fn break_off(&mut self, way: Way)
        ensures { Breaks way self.old self.new }
    {
        match way {
            Way::ToBackend => self.break_off_backend(),
            Way::ToClient => self.break_off_client(),
        }
    }

    // Breaks a way where the carrier failed or gave other bytes.
    pub(crate) fn break_off_if(&mut self, bad: bool, way: Way)
        ensures { BreaksIf bad way self.old self.new }
    {
        if bad {
            self.break_off(way);
        }
    }

    // Breaks a way, unless it is shut.
    pub(crate) fn break_way(&mut self, way: Way) -> Applied
        ensures { BreaksUnless (is_shut way self.old) way self.old result self.new }
    {
        if self.is_shut(way) {
            return Applied::Nothing;
        }
        self.break_off(way);
        Applied::Done
    }

    // Breaks both ways, because memory ran out.
    pub(crate) fn give_up(&mut self) -> PairFault
        ensures broken { BreaksBoth self.old self.new }
        ensures fault { result ≡ PairFault.Memory }
    {
        self.break_way(Way::ToBackend);
        self.break_way(Way::ToClient);
        PairFault::Memory
    }
}
