//! Collecting what comes until it is settled.

ghost use Rattle.std.specs.Prelude.{◌≡◌, ◌≢◌, ◌∷◌, ◌↔◌, [], IfNone, IfOk, IfSome, IsTrue};
ghost use Rattle.pg_wire.specs.declared.session.Aside.TheVariants as aside;

use crate::keeper::Keeper;
use crate::parameters::Parameters;
use crate::settled::Settled;
use pg_response::{Collected, Place};
use pg_wire::{Aside, BackMessage, Request, Seq, Status};
use std::alloc::{AllocError, Global};
use std::collections::VecDeque;
use std::marker::Model;
use std::mem;

/// All that came of the segment that isn't whole, and the settled groups that weren't taken.
#[derive(Drop)]
pub struct Collecting {
    collected: Collected,
    settled: VecDeque<Settled>,
}

impl Model for Collecting {
    ghost use Rattle.pg_client.specs.Keeping.{CollectingView};

    ghost Value = { CollectingView };

    ghost view = { λ k. record { collected = k.collected; settled = k.settled.items } };
}

impl Collecting {
    /// Takes the oldest settled group.
    pub fn take(&mut self) -> Option<Settled>
        ensures some { IfSome result (λ t.
            self.old ≡ record self.new { settled = t ∷ self.new.settled }) }
        ensures none { IfNone result ((self.old.settled ≡ []) × (self.new ≡ self.old)) }
    {
        self.settled.pop_front()
    }

    /// Whether a settled group waits to be taken.
    pub fn has_some(&self) -> bool
        ensures { IsTrue result ↔ (self.now.settled ≢ []) }
    {
        !self.settled.is_empty()
    }
}

impl Keeper for Collecting {
    ghost use Rattle.pg_client.specs.Keeping.{collecting};

    ghost way = { collecting };

    fn new(alloc: Global) -> Collecting {
        Collecting {
            collected: Collected::new(alloc),
            settled: VecDeque::new(alloc),
        }
    }

    fn keep_aside(&mut self, aside: Aside) -> Result<(), AllocError> {
        self.collected.add_aside(aside)
    }

    // Where memory runs out for the parameter, the aside that was added is taken away again.
    fn keep_parameter(
        &mut self,
        alloc: Global,
        name: Seq<u8>,
        value: Seq<u8>,
        parameters: &mut Parameters,
    ) -> Result<(), AllocError> {
        self.collected.add_aside(copied(&name, &value)?)?;
        if parameters.set(name.into_vec(), value).is_err() {
            self.collected.drop_last_aside(alloc);
            return Err(AllocError);
        }
        Ok(())
    }

    fn keep(
        &mut self,
        alloc: Global,
        request: &Request,
        place: &Place,
        message: BackMessage,
    ) -> Result<(), AllocError> {
        self.collected.add(alloc, request, place.opened, message)
    }

    fn settle(&mut self, alloc: Global, request: Request, status: Status) -> Result<(), Request> {
        if self.settled.reserve(1).is_err() {
            return Err(request);
        }
        let collected = mem::replace(&mut self.collected, Collected::new(alloc));
        let outcome = collected.into_outcome(status);
        let settled = Settled { request, outcome };
        self.settled.push_back_reserved(settled);
        Ok(())
    }

    fn silent() {}
}

// A parameter's value as an aside of its own.
fn copied(name: &Seq<u8>, value: &Seq<u8>) -> Result<Aside, AllocError>
    ensures { IfOk result (λ a. a ≡ aside.Parameter name.now value.now) }
{
    Ok(Aside::Parameter {
        name: name.clone()?,
        value: value.clone()?,
    })
}
