//! What a client keeps of the messages that come in the segments of its requests.

ghost use Rattle.std.specs.Prelude.{◌≡◌, [], IfErr, OnErr, OnOk, Some};
ghost use Rattle.pg_wire.specs.Segment.{aside_of};
ghost use Rattle.pg_wire.specs.message.BackMessage.TheVariants.{ParameterStatus};
ghost use Rattle.pg_client.specs.declared.stand.Stand.TheVariants.{New};
ghost use Rattle.pg_client.specs.Keeping.{IsSilent};
ghost use Rattle.pg_client.specs.Client.{Keeps};
ghost use Rattle.pg_client.specs.Private.Hearing.{KeepsAside, KeepsPart, KeepsEnd, SetsParameter};

use crate::parameters::Parameters;
use pg_response::Place;
use pg_wire::{Aside, BackMessage, Request, Seq, Status};
use std::alloc::{AllocError, Global};

/// What a client keeps of the messages that come in the segments of its requests, of each once it may come.
pub trait Keeper: Drop {
    // what it has to do with what happened
    ghost way: { Keeps Self };

    /// What a client keeps that was not started.
    fn new(alloc: Global) -> Self
    where
        Self: Sized,
        ensures { way.tells result New [] [] };

    /// Keeps an aside.
    fn keep_aside(&mut self, aside: Aside) -> Result<(), AllocError>
        ensures ok { OnOk result (KeepsAside way (λ m. aside_of m ≡ Some aside) self.old self.new) }
        ensures err { OnErr result (self.new ≡ self.old) };

    /// Keeps a parameter's value as an aside, and as the parameter's last value.
    fn keep_parameter(
        &mut self,
        alloc: Global,
        name: Seq<u8>,
        value: Seq<u8>,
        parameters: &mut Parameters,
    ) -> Result<(), AllocError>
        ensures ok { OnOk result (KeepsAside way (λ m. m ≡ ParameterStatus name value) self.old
            self.new) }
        ensures err { OnErr result (self.new ≡ self.old) }
        ensures sets { SetsParameter name value result parameters.old parameters.new };

    /// Keeps a message of the response to this request, which may come at this place.
    fn keep(
        &mut self,
        alloc: Global,
        request: &Request,
        place: &Place,
        message: BackMessage,
    ) -> Result<(), AllocError>
        ensures ok { OnOk result (KeepsPart way request.now place.now message self.old self.new) }
        ensures err { OnErr result (self.new ≡ self.old) };

    /// Keeps that this request is settled. Where memory runs out, the request is handed back.
    fn settle(&mut self, alloc: Global, request: Request, status: Status) -> Result<(), Request>
        ensures ok { OnOk result (KeepsEnd way request status self.old self.new) }
        ensures handed_back { IfErr result (λ r. r ≡ request) }
        ensures err { OnErr result (self.new ≡ self.old) };

    /// What is so of each keeper: nothing is kept of calls, nor of the startup, and a client agrees with its history as the code goes by. It does
    /// nothing: its contract is the law.
    fn silent()
        ensures { IsSilent way };
}
