//! Where a backend stands.

use crate::script::Load;
use pg_wire::{FirstDecoder, FrontDecoder, Request, Seq, Step};

/// A copy from the client that isn't decided.
#[derive(Drop)]
pub struct Loading {
    /// The request that began it.
    pub request: Request,
    /// How it ends.
    pub load: Load,
    /// The chunks that were taken.
    pub loaded: Seq<Seq<u8>>,
}

/// What is awaited of a client after its Startup.
#[derive(Drop)]
pub enum Awaits {
    /// A password, which has to be this one.
    Password(Seq<u8>),
    /// A request, or the next step of a group that has these steps.
    Request(Seq<Step>),
    /// The data of a copy.
    Data(Loading),
}

/// Where a message leads.
#[derive(Drop)]
pub enum Next {
    /// The session goes on, and awaits this.
    Goes(Awaits),
    /// The session is over: the client sent a Terminate, or was rejected.
    Ends,
    /// The message, which has this tag, can't stand in its place.
    Strays(u8),
}

/// What closed a backend.
#[derive(Clone, Copy, Drop)]
pub enum ClosedBy {
    /// Its input: the client left or was rejected, or its input can't be handled further.
    Input,
    /// A step that ran out of memory.
    Memory,
    /// The connection was lost.
    Lost,
}

/// Where a backend stands.
#[derive(Drop)]
pub enum BackStage {
    /// First packets are awaited.
    First(FirstDecoder),
    /// A Startup came, and messages are awaited.
    Open(FrontDecoder, Awaits),
    /// It is closed.
    Closed(ClosedBy),
}
