//! What a caller draws from the contracts of a pair of a client and a backend: the theorem, over whole runs.
#![tactic(auto)]

ghost use Rattle.std.specs.Prelude.{◌≡◌, ◌≤◌, ◌+◌, IfNone, IfSome, false, length, map, take, true};
ghost use Rattle.pg_backend.specs.Backend.{had_memory};
ghost use Rattle.pg_backend.specs.Check.{IsChecked};
ghost use Rattle.pg_client.specs.View.{phase_of};
ghost use Rattle.pg_client.specs.declared.phase.Phase.TheVariants.{Ready};
ghost use Rattle.pg_pair.specs.Event.{Ran};
ghost use Rattle.pg_pair.specs.Beginning.{IsBegun};
ghost use Rattle.pg_backend.specs.Turns.{TookEach};
ghost use Rattle.pg_pair.specs.Laws.{delivery_of, LeavesOther};
ghost use Rattle.pg_pair.specs.Headline.{answered_as, MatchesCalls, settled_as, StandsReady};
ghost use Rattle.pg_pair.specs.View.{PairView, way_state, waiting_at};
ghost use Rattle.pg_wire.specs.Direction.{IsLimit};

use pg_backend::Script;
use pg_client::{Phase, Settings, Settled};
use pg_pair::laws::delivery_moves;
use pg_pair::{Carry, Event, Pair, PairFault, Way};
use std::alloc::Global;

/// How many of the answers of a pair's backend have come to its client, whole: they are the first ones, and each is settled with its
/// own request and outcome.
pub fn answers_settled<C: Carry>(pair: &Pair<C>) -> usize
    ensures within { result ≤ length pair.now.backend.log }
    ensures beginning { map settled_as pair.now.settled
        ≡ take result (map answered_as pair.now.backend.log) }
{
    pair.settled().len()
}

/// What a pair has settled, where its client stands ready for a request, and None where it doesn't. Unless the way to the backend is
/// broken, or a step of it ran out of memory, the backend then stands ready too, with only copy messages left to drop.
pub fn settled_when_ready<C: Carry>(pair: &Pair<C>) -> Option<&[Settled]>
    ensures groups { IfSome result (λ groups. groups.now ≡ pair.now.settled) }
    ensures none { IfNone result (phase_of pair.now.client ≡ Ready → ⊥) }
    ensures client { IfSome result (λ groups. phase_of pair.now.client ≡ Ready) }
    ensures backend { IfSome result (λ groups. pair.now.to_backend.broken ≡ false
        → had_memory pair.now.backend.stage ≡ true → StandsReady pair.now) }
{
    if pair.client().phase() != Phase::Ready {
        return None;
    }
    Some(pair.settled())
}

/// Plays these events, one after the other, with a new pair of a client with these settings, whose limit is from 64 to 1,073,741,823,
/// and a backend that plays this script, whose `check` has answered Ok. It answers the pair, and P1 Memory where that ended it early.
pub fn play<C: Carry>(
    alloc: Global,
    settings: Settings,
    script: Script,
    carrier: C,
    events: Vec<Event>,
) -> (Pair<C>, Result<(), PairFault>)
    requires limit { IsLimit settings.limit }
    requires checked { IsChecked script }
    ensures ran { (begun : PairView C) × IsBegun settings script carrier begun
        × Ran C.carries events.items begun result.1 result.0 }
    ensures beginning { map settled_as result.0.settled
        ≡ take (length result.0.settled) (map answered_as result.0.backend.log) }
    ensures copied { TookEach result.0.backend.log result.0.handed }
    ensures asked { ∥ MatchesCalls result.0 ∥₁ }
    ensures ready { phase_of result.0.client ≡ Ready → result.0.to_backend.broken ≡ false
        → had_memory result.0.backend.stage ≡ true → StandsReady result.0 }
{
    let mut pair = Pair::new(alloc, settings, script, carrier);
    let ran = pair.run(events);
    (pair, ran)
}

// The event that delivers at most so many bytes of a way.
fn delivery_of(way: Way, most: u32) -> Event
    ensures { result ≡ delivery_of way most }
{
    match way {
        Way::ToBackend => Event::ToBackend(most),
        Way::ToClient => Event::ToClient(most),
    }
}

/// Delivers at most so many of the bytes that wait on a way, and says how many have reached the
/// receiving end by that. The other way stays as it was, but for what the client puts out as it is
/// fed.
pub fn deliver<C: Carry>(pair: &mut Pair<C>, way: Way, most: u32) -> usize
    ensures asked { result ≤ most }
    ensures waited { result ≤ length (waiting_at way pair.old) }
    ensures reached { (way_state way pair.new).reached
        ≡ (way_state way pair.old).reached + result }
    ensures other { LeavesOther way pair.old (take result (waiting_at way pair.old)) pair.new }
{
    delivery_moves::<C>();
    let before = pair.reached(way);
    let _ = pair.apply(delivery_of(way, most));
    pair.reached(way) - before
}
