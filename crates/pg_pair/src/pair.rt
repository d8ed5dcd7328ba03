//! Both ends of a session, and the two streams between them.

mod breaking;
mod calling;
mod carrying;
mod chunks;
mod delivering;
mod stepping;

ghost use Rattle.std.specs.Prelude.{◌≡◌, ◌≤◌, [], drop, false, length, option_copied};
ghost use Rattle.pg_backend.specs.Check.{IsChecked};
ghost use Rattle.pg_wire.specs.Direction.{IsLimit};
ghost use Rattle.pg_pair.specs.Headline.{Headline};
ghost use Rattle.pg_pair.specs.Invariant.{Tied};

use crate::carry::{Carry, Way};
use crate::event::{Applied, Event, PairFault};
use crate::laws::headline;
use pg_backend::{Backend, Script};
use pg_client::{Client, Loss, Settings, Settled};
use pg_wire::{LONGEST, Seq};
use std::alloc::Global;
use std::marker::Model;

// One way: all that one end has put out, how much of it has reached the other, and whether the way is broken.
#[derive(Drop)]
struct WayState {
    sent: Vec<u8>,
    reached: usize,
    broken: bool,
}

impl WayState {
    fn new(alloc: Global) -> WayState
        ensures { (result.sent.items ≡ []) × (result.reached ≡ 0) × (result.broken ≡ false) }
    {
        WayState {
            sent: Vec::new(alloc),
            reached: 0,
            broken: false,
        }
    }

    // The bytes that are under way.
    fn waiting(&self) -> &[u8]
        requires { self.now.reached ≤ length self.now.sent.items }
        ensures { result.now ≡ drop self.now.reached self.now.sent.items }
    {
        &self.sent[self.reached..]
    }
}

/// Both ends of a session, and the two streams between them.
#[derive(Drop)]
pub struct Pair<C: Carry> {
    alloc: Global,
    client: Client,
    backend: Backend,
    carrier: C,
    to_backend: WayState,
    to_client: WayState,
    fed_before: Vec<usize>,
    settled: Vec<Settled>,
    handed: Vec<Seq<Seq<u8>>>,
    loss: Option<Loss>,
}

impl<C: Carry> Model for Pair<C> {
    ghost use Rattle.std.specs.Prelude.{◌≤◌, length};
    ghost use Rattle.std.specs.Vec.{vec_capacity};
    ghost use Rattle.pg_pair.specs.View.{PairView};

    ghost Value = { PairView C };

    ghost use Rattle.pg_pair.specs.Invariant.{Tied};
    ghost use Rattle.pg_pair.specs.Private.Inside.{view_of};

    ghost view = { view_of };

    // there is room for a settled group of each request
    ghost invariant = { λ p. ∥ Tied (view_of p) ∥₁
        × (length p.handed.items ≤ vec_capacity p.settled) };
}

impl<C: Carry> Pair<C> {
    ghost use Rattle.pg_pair.specs.Event.{Applies, Ran};
    ghost use Rattle.pg_pair.specs.Beginning.{IsBegun};
    ghost use Rattle.pg_pair.specs.Private.Passing.{Passes};
    ghost use Rattle.pg_pair.specs.View.{way_state};

    /// A new client with these settings, whose limit is from 64 to 1,073,741,823, and a new backend that plays this script, whose `check` has
    /// returned Ok. Nothing is sent yet. It takes no memory.
    pub fn new(alloc: Global, settings: Settings, script: Script, carrier: C) -> Pair<C>
        requires limit { IsLimit settings.limit }
        requires checked { IsChecked script }
        ensures { IsBegun settings script carrier result }
    {
        Pair {
            alloc,
            client: Client::new(alloc, settings),
            backend: Backend::new(alloc, script, LONGEST),
            carrier,
            to_backend: WayState::new(alloc),
            to_client: WayState::new(alloc),
            fed_before: Vec::new(alloc),
            settled: Vec::new(alloc),
            handed: Vec::new(alloc),
            loss: None,
        }
    }

    /// Applies an event. A call that the client rejects returns Refused. A delivery goes in pieces of at most 4,096 bytes, and ends where the carrier
    /// gives fewer than its piece or where the end returns a fault. What the client puts out as it is fed is sent to the backend. Steps, deliveries
    /// and breaks for a closed end or a broken way do nothing.
    ///
    /// P1 Memory: memory for what the pair keeps of a call ran out. Both ways break as by the two break events, the call is dropped, and what was
    /// settled stays.
    pub fn apply(&mut self, event: Event) -> Result<Applied, PairFault>
        ensures applies { Applies C.carries event self.old result self.new }
        ensures headline { Headline self.new }
    {
        let result = match event {
            Event::Call(call) => self.call(call),
            Event::Step => Ok(self.step()),
            Event::ToBackend(most) => Ok(self.deliver(Way::ToBackend, most)),
            Event::ToClient(most) => Ok(self.deliver(Way::ToClient, most)),
            Event::BreakToBackend => Ok(self.break_way(Way::ToBackend)),
            Event::BreakToClient => Ok(self.break_way(Way::ToClient)),
        };
        self.stand();
        result
    }

    /// Applies events one after the other. It ends early only at P1 Memory: memory for what the pair keeps of a call ran out, and both ways are
    /// broken.
    pub fn run(&mut self, events: Vec<Event>) -> Result<(), PairFault>
        ensures ran { Ran C.carries events.items self.old result self.new }
        ensures headline { Headline self.new }
    {
        self.stand();
        for event in events {
            if let Err(fault) = self.pass(event) {
                return Err(fault);
            }
        }
        Ok(())
    }

    // Applies an event, and returns only whether memory ran out for it.
    fn pass(&mut self, event: Event) -> Result<(), PairFault>
        ensures passes { Passes C.carries event self.old result self.new }
        ensures headline { Headline self.new }
    {
        match self.apply(event) {
            Ok(_) => Ok(()),
            Err(fault) => Err(fault),
        }
    }

    // The pair as it stands. It does nothing.
    fn stand(&self)
        ensures tied { ∥ Tied self.now ∥₁ }
        ensures headline { Headline self.now }
    {
        self.settled();
    }

    /// The groups that the client has settled, in their order.
    pub fn settled(&self) -> &[Settled]
        ensures value { result.now ≡ self.now.settled }
        ensures reports { ∥ Tied self.now ∥₁ }
        ensures headline { Headline self.now }
    {
        headline::<C>();
        self.settled.as_slice()
    }

    /// For each request that was made, the chunks that were handed over for its copies.
    pub fn handed(&self) -> &[Seq<Seq<u8>>]
        ensures { result.now ≡ self.now.handed }
    {
        self.handed.as_slice()
    }

    /// What the client's `lost` returned when the way to it broke: the request in doubt, if there is one. None before that, and where the client was
    /// closed already.
    pub fn loss(&self) -> Option<&Loss>
        ensures { option_copied result ≡ self.now.loss }
    {
        self.loss.as_ref()
    }

    /// All bytes that were sent along a way.
    pub fn sent(&self, way: Way) -> &[u8]
        ensures { result.now ≡ (way_state way self.now).sent }
    {
        match way {
            Way::ToBackend => self.to_backend.sent.as_slice(),
            Way::ToClient => self.to_client.sent.as_slice(),
        }
    }

    /// How many bytes of a way have reached the receiving end: the first of those that were sent.
    pub fn reached(&self, way: Way) -> usize
        ensures value { result ≡ (way_state way self.now).reached }
        ensures within { result ≤ length (way_state way self.now).sent }
    {
        match way {
            Way::ToBackend => self.to_backend.reached,
            Way::ToClient => self.to_client.reached,
        }
    }

    /// Whether a way is broken, so that nothing more arrives along it.
    pub fn broken(&self, way: Way) -> bool
        ensures { result ≡ (way_state way self.now).broken }
    {
        match way {
            Way::ToBackend => self.to_backend.broken,
            Way::ToClient => self.to_client.broken,
        }
    }

    /// The client.
    pub fn client(&self) -> &Client
        ensures { result.now ≡ self.now.client }
    {
        &self.client
    }

    /// The backend.
    pub fn backend(&self) -> &Backend
        ensures { result.now ≡ self.now.backend }
    {
        &self.backend
    }

    /// The carrier.
    pub fn carrier(&self) -> &C
        ensures { result.now ≡ self.now.carrier }
    {
        &self.carrier
    }
}
