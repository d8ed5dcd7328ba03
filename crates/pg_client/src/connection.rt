//! A client's calls, whatever it keeps of the messages that come.

mod feed;
mod lend;

ghost use Rattle.std.specs.Prelude.{◌≡◌, IfErr, OnErr, OnOk, option_copied};
ghost use Rattle.pg_wire.specs.Direction.{IsLimit};
ghost use Rattle.pg_client.specs.declared.call.Call.TheVariants as call;
ghost use Rattle.pg_client.specs.View.{IsOpenPhase, phase_of, value_of};
ghost use Rattle.pg_client.specs.Client.{blank, IsHistoryOf, IsLost};
ghost use Rattle.pg_client.specs.Client.{Accepts, Cancels, RefusesCopy, RefusesEnd, RefusesUnless};

use crate::fault::CallFault;
use crate::keeper::Keeper;
use crate::known::Known;
use crate::phase::{Cause, Phase};
use crate::sending::{put_request, put_start};
use crate::settings::Settings;
use crate::settled::Loss;
use crate::stand::{CopyAnswer, Stand};
use crate::startup::Welcome;
use pg_wire::{BackDecoder, Request, Status, frontend};
use std::alloc::Global;
use std::marker::Model;
use std::mem;

/// A driver's half of a session, without sockets. Calls put bytes for the server out, [`feed`](Connection::feed) takes the server's bytes in, and
/// what was kept of them is taken out: by a [`Client`](crate::Client) whole groups, by an [`EarlyClient`](crate::EarlyClient) each message as
/// it comes.
#[derive(Drop)]
pub struct Connection<K: Keeper> {
    alloc: Global,
    settings: Settings,
    decoder: BackDecoder,
    pub(crate) known: Known<K>,
    closed: Option<Cause>,
}

impl<K: Keeper> Model for Connection<K> {
    ghost use Rattle.std.specs.Prelude.{◌≡◌, None};
    ghost use Rattle.pg_client.specs.View.{View};

    ghost Value = { View K };

    ghost use Rattle.pg_client.specs.Private.Inside.{view_of};

    ghost view = { view_of };

    ghost invariant = { λ m. (m.decoder.stream.limit ≡ m.settings.limit)
        × (m.closed ≡ None → m.decoder.stream.fault ≡ None) };
}

impl<K: Keeper> Connection<K> {
    /// A client that was not started, in phase New. The limit of the settings is from 64 to 1,073,741,823. It takes no memory.
    pub fn new(alloc: Global, settings: Settings) -> Self
        requires { IsLimit settings.limit }
        ensures settings { result.settings ≡ settings }
        ensures phase { phase_of result ≡ Phase.New }
        ensures history { IsHistoryOf K.way blank result }
    {
        K::silent();
        let limit = settings.limit;
        Connection {
            alloc,
            settings,
            decoder: BackDecoder::new(alloc, limit),
            known: Known::new(alloc),
            closed: None,
        }
    }

    /// Where the client stands ("Message Flow").
    pub fn phase(&self) -> Phase
        ensures { result ≡ phase_of self.now }
    {
        if let Some(cause) = self.closed {
            return Phase::Closed(cause);
        }
        self.known.stand.phase()
    }

    /// The transaction status that the last ReadyForQuery gave; None before the first one.
    pub fn status(&self) -> Option<Status>
        ensures { result ≡ self.now.known.status }
    {
        self.known.status
    }

    /// The last value that the server sent of a run-time parameter ("Asynchronous Operations"); None where it sent none.
    pub fn parameter(&self, name: &[u8]) -> Option<&[u8]>
        ensures { option_copied result ≡ value_of name.now self.now.known.parameters }
    {
        match self.known.parameters.get(name) {
            Some(value) => Some(value.as_slice()),
            None => None,
        }
    }

    /// Puts the startup packet out ("Start-up"): `user`, `database` if one is given, then the further pairs. Allowed in phase New, and leads to
    /// Starting.
    ///
    /// C1 NotReady: another phase. C3 Encode: HasZero, EmptyName or TooLong for the packet, else HasZero or TooLong for the password, which the
    /// server may ask for, or Memory where neither has one of these. After a fault the client and `out` are as they were.
    pub fn start(&mut self, out: &mut Vec<u8>) -> Result<(), CallFault>
        ensures ok { OnOk result ((phase_of self.old ≡ Phase.New)
            × (phase_of self.new ≡ Phase.Starting)) }
        ensures history { OnOk result
            (Accepts K.way call.Start self.old self.new out.old.items out.new.items) }
        ensures refused { IfErr result (RefusesUnless Phase.New self.old call.Start) }
        ensures err { OnErr result ((self.new ≡ self.old) × (out.new.items ≡ out.old.items)) }
    {
        K::silent();
        let phase = self.phase();
        if phase != Phase::New {
            return Err(CallFault::NotReady(phase));
        }
        put_start(&self.settings, out)?;
        self.known.stand = Stand::Starting(Welcome::Fresh);
        Ok(())
    }

    /// Makes a request: puts a Query out, or the messages of a group's steps and a Sync ("Simple Query", "Extended Query"). Allowed in phase Ready,
    /// and leads to Busy.
    ///
    /// C1 NotReady: another phase. C3 Encode: the fault of the first message that has one (HasZero, TooMany, TooLong), or Memory where none has. A
    /// fault comes with the request, which is handed back, and leaves the client and `out` as they were.
    pub fn request(
        &mut self,
        request: Request,
        out: &mut Vec<u8>,
    ) -> Result<(), (Request, CallFault)>
        ensures ok { OnOk result ((phase_of self.old ≡ Phase.Ready)
            × (phase_of self.new ≡ Phase.Busy)) }
        ensures history { OnOk result
            (Accepts K.way (call.Request request) self.old self.new out.old.items out.new.items) }
        ensures refused { IfErr result (λ f. (f.0 ≡ request)
            × RefusesUnless Phase.Ready self.old (call.Request request) f.1) }
        ensures err { OnErr result ((self.new ≡ self.old) × (out.new.items ≡ out.old.items)) }
    {
        K::silent();
        let phase = self.phase();
        if phase != Phase::Ready {
            return Err((request, CallFault::NotReady(phase)));
        }
        if let Err(fault) = put_request(&request, out) {
            return Err((request, CallFault::Encode(fault)));
        }
        self.known.stand.ask(request);
        Ok(())
    }

    /// Puts a chunk of data out, as one CopyData, even where it is empty ("COPY Operations"). Allowed in phase CopyingIn, which stays.
    ///
    /// C2 NotCopying: another phase. C3 Encode: TooLong or Memory. After a fault the client and `out` are as they were.
    pub fn copy_chunk(&mut self, bytes: &[u8], out: &mut Vec<u8>) -> Result<(), CallFault>
        ensures ok { OnOk result ((phase_of self.old ≡ Phase.CopyingIn)
            × (phase_of self.new ≡ Phase.CopyingIn)) }
        ensures history { OnOk result
            (Accepts K.way (call.Chunk bytes.now) self.old self.new out.old.items out.new.items) }
        ensures refused { IfErr result (RefusesCopy self.old (call.Chunk bytes.now)) }
        ensures err { OnErr result ((self.new ≡ self.old) × (out.new.items ≡ out.old.items)) }
    {
        K::silent();
        let phase = self.phase();
        if phase != Phase::CopyingIn {
            return Err(CallFault::NotCopying(phase));
        }
        Ok(frontend::copy_data(bytes, out)?)
    }

    /// Says that the data of a copy is complete, by a CopyDone ("COPY Operations"). Allowed in phase CopyingIn, and leads to Busy.
    ///
    /// C2 NotCopying: another phase. C3 Encode: Memory alone. After a fault the client and `out` are as they were.
    pub fn copy_done(&mut self, out: &mut Vec<u8>) -> Result<(), CallFault>
        ensures ok { OnOk result ((phase_of self.old ≡ Phase.CopyingIn)
            × (phase_of self.new ≡ Phase.Busy)) }
        ensures history { OnOk result
            (Accepts K.way call.Done self.old self.new out.old.items out.new.items) }
        ensures refused { IfErr result (RefusesCopy self.old call.Done) }
        ensures err { OnErr result ((self.new ≡ self.old) × (out.new.items ≡ out.old.items)) }
    {
        K::silent();
        let phase = self.phase();
        if phase != Phase::CopyingIn {
            return Err(CallFault::NotCopying(phase));
        }
        frontend::copy_done(out)?;
        self.known.stand.answer_copy(CopyAnswer::Done);
        Ok(())
    }

    /// Says that a copy is to fail for this reason, by a CopyFail ("COPY Operations"). Allowed in phase CopyingIn, and leads to Busy; the server
    /// answers with an error.
    ///
    /// C2 NotCopying: another phase. C3 Encode: HasZero, TooLong or Memory. After a fault the client and `out` are as they were.
    pub fn copy_fail(&mut self, reason: &[u8], out: &mut Vec<u8>) -> Result<(), CallFault>
        ensures ok { OnOk result ((phase_of self.old ≡ Phase.CopyingIn)
            × (phase_of self.new ≡ Phase.Busy)) }
        ensures history { OnOk result
            (Accepts K.way (call.Fail reason.now) self.old self.new out.old.items out.new.items) }
        ensures refused { IfErr result (RefusesCopy self.old (call.Fail reason.now)) }
        ensures err { OnErr result ((self.new ≡ self.old) × (out.new.items ≡ out.old.items)) }
    {
        K::silent();
        let phase = self.phase();
        if phase != Phase::CopyingIn {
            return Err(CallFault::NotCopying(phase));
        }
        frontend::copy_fail(reason, out)?;
        self.known.stand.answer_copy(CopyAnswer::Refused);
        Ok(())
    }

    /// Ends the session: puts a Terminate out ("Termination"). Allowed in all phases but New and Closed, and leads to Closed(Terminated). A request
    /// that is outstanding stays to be handed back by [`lost`](Connection::lost).
    ///
    /// C1 NotReady: phase New or Closed. C3 Encode: Memory alone. After a fault the client and `out` are as they were.
    pub fn terminate(&mut self, out: &mut Vec<u8>) -> Result<(), CallFault>
        ensures ok { OnOk result (IsOpenPhase (phase_of self.old)
            × (phase_of self.new ≡ Phase.Closed Cause.Terminated)) }
        ensures history { OnOk result
            (Accepts K.way call.Terminate self.old self.new out.old.items out.new.items) }
        ensures refused { IfErr result (RefusesEnd self.old) }
        ensures err { OnErr result ((self.new ≡ self.old) × (out.new.items ≡ out.old.items)) }
    {
        K::silent();
        let phase = self.phase();
        if !phase.is_open() {
            return Err(CallFault::NotReady(phase));
        }
        frontend::terminate(out)?;
        self.closed = Some(Cause::Terminated);
        Ok(())
    }

    /// Appends the packet that asks to cancel the outstanding request, for a connection of its own ("Canceling Requests in Progress"). It has the
    /// last key that the server sent. Allowed in any phase, and the client is unchanged.
    ///
    /// C3 Encode: Memory alone. C4 NoKey: the server has sent no key. After a fault `out` is as it was.
    pub fn cancel_packet(&self, out: &mut Vec<u8>) -> Result<(), CallFault>
        ensures { Cancels self.now.known.key out.old.items result out.new.items }
    {
        let Some((process, secret)) = self.known.key else {
            return Err(CallFault::NoKey);
        };
        Ok(frontend::cancel_request(process, secret, out)?)
    }

    /// Takes note that the connection is gone. It hands back the request that isn't settled, if there is one, and says whether an ErrorResponse was
    /// handled for it. One that closed the client (F5, F6) was for no request. An open client becomes Closed(Lost), and a closed one keeps its cause.
    /// What was kept stays to be taken. A second call hands nothing back. It takes no memory.
    pub fn lost(&mut self) -> Loss
        ensures { IsLost K.way self.old result self.new }
    {
        K::silent();
        self.closed = Some(self.closed.unwrap_or(Cause::Lost));
        mem::replace(&mut self.known.stand, Stand::New).into_loss()
    }

    /// What it has kept of the messages that came.
    pub fn keeper(&self) -> &K
        ensures { result.now ≡ self.now.known.keeper }
    {
        &self.known.keeper
    }
}
