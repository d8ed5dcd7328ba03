//! Sessions, of either kind of client.

ghost use Rattle.std.specs.Prelude.{◌≡◌, ◌≢◌, [], IfErr, IfOk, OnErr, OnOk};
ghost use Rattle.pg_wire.specs.Direction.{IsLimit};
ghost use Rattle.pg_client.specs.declared.call.Call.TheVariants as call;
ghost use Rattle.pg_client.specs.Client.{IsHistoryOf, blank, IsLost};
ghost use Rattle.pg_client.specs.Client.{Accepts, RefusesCopy, RefusesEnd, RefusesUnless};
ghost use Rattle.pg_client.specs.View.{phase_of};
ghost use Rattle.pg_drive.specs.Drive.{connected};
ghost use Rattle.pg_drive.specs.Session.{Terminates};

use crate::starting::lose;
use pg_client::{CallFault, Collecting, Connection, Keeper, Loss, Phase, Queue, Settings};
use pg_wire::{EncodeFault, Request, Seq, Sink, Step, send_out};
use std::alloc::Global;

/// How many pieces a call of a session receives at most, unless the session says otherwise. No message takes so many.
pub const MOST_PIECES: u32 = 4_294_967_295;

/// A session over a link. Its calls are those of a client, with the same conditions and faults. The calls only put bytes out, and send nothing.
/// What waits is sent by the calls that receive, and by [`end`](SessionOf::end).
///
/// Where the connection is lost, [`SessionFault::Lost`](crate::SessionFault::Lost) or [`SessionFault::Feed`](crate::SessionFault::Feed) is
/// returned, which holds the request that is in doubt.
#[derive(Drop)]
pub struct SessionOf<K: Keeper, L> {
    /// The client: where the session stands, and what it knows.
    pub client: Connection<K>,
    /// What waits to be sent.
    pub out: Vec<u8>,
    /// The link to the server.
    pub link: L,
    /// How many pieces of 4,096 bytes a call receives at most.
    pub pieces: u32,
}

/// A session that gives the answer to a request message by message.
pub type Session<L> = SessionOf<Queue, L>;

/// A session that gives the answer to a request whole.
pub type GroupSession<L> = SessionOf<Collecting, L>;

impl<K: Keeper, L> SessionOf<K, L> {
    /// A session that was not started. The limit of the settings is from 64 to 1,073,741,823. It takes no memory.
    pub fn new(alloc: Global, settings: Settings, link: L) -> Self
        requires { IsLimit settings.limit }
        ensures settings { result.client.settings ≡ settings }
        ensures phase { phase_of result.client ≡ Phase.New }
        ensures history { IsHistoryOf K.way blank result.client }
        ensures out { result.out.items ≡ [] }
        ensures link { result.link ≡ link }
        ensures pieces { result.pieces ≡ MOST_PIECES }
    {
        SessionOf::over(alloc, Connection::new(alloc, settings), link)
    }

    /// A session of a client that was made before, with nothing that waits to be sent. It takes no memory.
    pub fn over(alloc: Global, client: Connection<K>, link: L) -> Self
        ensures client { result.client ≡ client }
        ensures out { result.out.items ≡ [] }
        ensures link { result.link ≡ link }
        ensures pieces { result.pieces ≡ MOST_PIECES }
    {
        SessionOf {
            client,
            out: Vec::new(alloc),
            link,
            pieces: MOST_PIECES,
        }
    }

    /// Gives back the client, what waits to be sent, and the link.
    pub fn into_parts(self) -> (Connection<K>, Vec<u8>, L)
        ensures client { result.0 ≡ self.client }
        ensures out { result.1.items ≡ self.out.items }
        ensures link { result.2 ≡ self.link }
    {
        let SessionOf {
            client,
            out,
            link,
            pieces: _,
        } = self;
        (client, out, link)
    }

    /// Makes a request, which waits to be sent. Allowed in phase Ready, and leads to Busy.
    ///
    /// C1 NotReady: another phase. C3 Encode: the request can't be sent, as [`Connection::request`] says. A fault comes with the request, which is handed
    /// back, and leaves the session as it was.
    pub fn request(&mut self, request: Request) -> Result<(), (Request, CallFault)>
        ensures ok { OnOk result ((phase_of self.old.client ≡ Phase.Ready)
            × (phase_of self.new.client ≡ Phase.Busy)) }
        ensures history { OnOk result (Accepts K.way (call.Request request) self.old.client
            self.new.client self.old.out.items self.new.out.items) }
        ensures refused { IfErr result (λ f. (f.0 ≡ request)
            × RefusesUnless Phase.Ready self.old.client (call.Request request) f.1) }
        ensures err { OnErr result ((self.new.client ≡ self.old.client)
            × (self.new.out.items ≡ self.old.out.items)) }
        ensures others { (self.new.link ≡ self.old.link) × (self.new.pieces ≡ self.old.pieces) }
    {
        self.client.request(request, &mut self.out)
    }

    /// Makes a simple query of this text, which waits to be sent. Allowed in phase Ready, and leads to Busy.
    ///
    /// C1 NotReady: another phase. C3 Encode: HasZero, TooLong or Memory; Memory also where memory for a copy of the text runs out. After a fault the
    /// session is as it was.
    pub fn query(&mut self, text: &str) -> Result<(), CallFault>
        ensures ok { OnOk result ((phase_of self.old.client ≡ Phase.Ready)
            × (phase_of self.new.client ≡ Phase.Busy)) }
        ensures history { OnOk result (Accepts K.way (call.Request (Request.Query text.now))
            self.old.client self.new.client self.old.out.items self.new.out.items) }
        ensures refused { IfErr result (λ f. f ≢ CallFault.Encode EncodeFault.Memory
            → RefusesUnless Phase.Ready self.old.client (call.Request (Request.Query text.now))
            f) }
        ensures err { OnErr result ((self.new.client ≡ self.old.client)
            × (self.new.out.items ≡ self.old.out.items)) }
        ensures others { (self.new.link ≡ self.old.link) × (self.new.pieces ≡ self.old.pieces) }
    {
        let alloc = *self.out.allocator();
        let Ok(text) = Seq::from_slice(alloc, text.as_bytes()) else {
            return Err(CallFault::Encode(EncodeFault::Memory));
        };
        match self.client.request(Request::Query(text), &mut self.out) {
            Ok(()) => Ok(()),
            Err(refused) => Err(refused.1),
        }
    }

    /// Makes a request of these steps and a Sync, which waits to be sent. Allowed in phase Ready, and leads to Busy.
    ///
    /// C1 NotReady: another phase. C3 Encode: a step can't be sent (HasZero, TooMany, TooLong), or Memory. After a fault the session is as it was.
    pub fn group(&mut self, steps: Seq<Step>) -> Result<(), CallFault>
        ensures ok { OnOk result ((phase_of self.old.client ≡ Phase.Ready)
            × (phase_of self.new.client ≡ Phase.Busy)) }
        ensures history { OnOk result (Accepts K.way (call.Request (Request.Group steps))
            self.old.client self.new.client self.old.out.items self.new.out.items) }
        ensures refused { IfErr result (λ f.
            RefusesUnless Phase.Ready self.old.client (call.Request (Request.Group steps)) f) }
        ensures err { OnErr result ((self.new.client ≡ self.old.client)
            × (self.new.out.items ≡ self.old.out.items)) }
        ensures others { (self.new.link ≡ self.old.link) × (self.new.pieces ≡ self.old.pieces) }
    {
        match self.client.request(Request::Group(steps), &mut self.out) {
            Ok(()) => Ok(()),
            Err(refused) => Err(refused.1),
        }
    }

    /// Puts a chunk of data out, as one CopyData, which waits to be sent. Allowed in phase CopyingIn, which stays.
    ///
    /// C2 NotCopying: another phase. C3 Encode: TooLong or Memory. After a fault the session is as it was.
    pub fn copy_chunk(&mut self, bytes: &[u8]) -> Result<(), CallFault>
        ensures ok { OnOk result ((phase_of self.old.client ≡ Phase.CopyingIn)
            × (phase_of self.new.client ≡ Phase.CopyingIn)) }
        ensures history { OnOk result (Accepts K.way (call.Chunk bytes.now) self.old.client
            self.new.client self.old.out.items self.new.out.items) }
        ensures refused { IfErr result (RefusesCopy self.old.client (call.Chunk bytes.now)) }
        ensures err { OnErr result ((self.new.client ≡ self.old.client)
            × (self.new.out.items ≡ self.old.out.items)) }
        ensures others { (self.new.link ≡ self.old.link) × (self.new.pieces ≡ self.old.pieces) }
    {
        self.client.copy_chunk(bytes, &mut self.out)
    }

    /// Says that the data of a copy is complete, by a CopyDone, which waits to be sent. Allowed in phase CopyingIn, and leads to Busy.
    ///
    /// C2 NotCopying: another phase. C3 Encode: Memory alone. After a fault the session is as it was.
    pub fn copy_done(&mut self) -> Result<(), CallFault>
        ensures ok { OnOk result ((phase_of self.old.client ≡ Phase.CopyingIn)
            × (phase_of self.new.client ≡ Phase.Busy)) }
        ensures history { OnOk result (Accepts K.way call.Done self.old.client self.new.client
            self.old.out.items self.new.out.items) }
        ensures refused { IfErr result (RefusesCopy self.old.client call.Done) }
        ensures err { OnErr result ((self.new.client ≡ self.old.client)
            × (self.new.out.items ≡ self.old.out.items)) }
        ensures others { (self.new.link ≡ self.old.link) × (self.new.pieces ≡ self.old.pieces) }
    {
        self.client.copy_done(&mut self.out)
    }

    /// Says that a copy is to fail for this reason, by a CopyFail, which waits to be sent. Allowed in phase CopyingIn, and leads to Busy.
    ///
    /// C2 NotCopying: another phase. C3 Encode: HasZero, TooLong or Memory. After a fault the session is as it was.
    pub fn copy_fail(&mut self, reason: &[u8]) -> Result<(), CallFault>
        ensures ok { OnOk result ((phase_of self.old.client ≡ Phase.CopyingIn)
            × (phase_of self.new.client ≡ Phase.Busy)) }
        ensures history { OnOk result (Accepts K.way (call.Fail reason.now) self.old.client
            self.new.client self.old.out.items self.new.out.items) }
        ensures refused { IfErr result (RefusesCopy self.old.client (call.Fail reason.now)) }
        ensures err { OnErr result ((self.new.client ≡ self.old.client)
            × (self.new.out.items ≡ self.old.out.items)) }
        ensures others { (self.new.link ≡ self.old.link) × (self.new.pieces ≡ self.old.pieces) }
    {
        self.client.copy_fail(reason, &mut self.out)
    }

    /// Says that the connection is of no more use, and hands back the request that isn't settled, if there is one. An open client becomes
    /// Closed(Lost), and a closed one keeps its cause.
    pub fn lost(&mut self) -> Loss
        ensures lost { IsLost K.way self.old.client result self.new.client }
        ensures others { (self.new.link ≡ self.old.link) × (self.new.pieces ≡ self.old.pieces)
            × (self.new.out.items ≡ self.old.out.items) }
    {
        self.client.lost()
    }
}

impl<K: Keeper, L: Sink> SessionOf<K, L> {
    /// Ends the session: sends a Terminate after all that waits, and closes the client. Where the link fails, the server may not get it. It returns
    /// the request that isn't settled, if there is one.
    ///
    /// C1 NotReady: phase New or Closed. C3 Encode: Memory alone. After a fault nothing has changed.
    pub fn end(&mut self) -> Result<Loss, CallFault>
        ensures ends { IfOk result (λ loss. Terminates K.way L.takes L.Sink.failures
            (connected self.old.link self.old.client self.old.out.items) loss
            (connected self.new.link self.new.client self.new.out.items)) }
        ensures refused { IfErr result (RefusesEnd self.old.client) }
        ensures err { OnErr result ((self.new.client ≡ self.old.client)
            × (self.new.out.items ≡ self.old.out.items) × (self.new.link ≡ self.old.link)) }
        ensures pieces { self.new.pieces ≡ self.old.pieces }
    {
        self.client.terminate(&mut self.out)?;
        let _ = send_out(&mut self.out, &mut self.link);
        Ok(lose(&mut self.client))
    }
}
