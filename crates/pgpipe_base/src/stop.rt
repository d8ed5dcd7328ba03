//! Why the work of a tool stops, and what is returned for it.

ghost use Rattle.std.specs.Prelude.{◌≡◌};
ghost use Rattle.pgpipe_base.specs.Stop.{Settles, answer_of};

use crate::fault::ToolFault;
use crate::outbox::send_all;
use pg_wire::{LinkFault, Sink};

/// Why the work of a tool stops.
#[derive(Clone, Copy)]
pub enum Stop<A> {
    /// It is done, and returns this.
    Answer(A),
    /// Memory ran out.
    Memory,
    SourceFailed,
    SinkFailed,
    /// The source gave no end in as many receives as a task makes.
    Endless,
}

impl<A: Copy> Stop<A> {
    /// Sends what is still collected, unless the sink has failed.
    pub fn settle<K: Sink>(self, collected: &[u8], sink: &mut K) -> Result<(), LinkFault>
        ensures { Settles K.takes K.failures self collected.now sink.old result sink.new }
    {
        match self {
            Stop::SinkFailed => Err(LinkFault),
            Stop::Answer(_) | Stop::Memory | Stop::SourceFailed | Stop::Endless => {
                send_all(collected, sink)
            }
        }
    }

    /// What the tool returns, where all that was collected is sent.
    pub fn answer(self) -> Result<A, ToolFault>
        ensures { result ≡ answer_of self }
    {
        match self {
            Stop::Answer(answer) => Ok(answer),
            Stop::Memory => Err(ToolFault::Memory),
            Stop::SourceFailed | Stop::SinkFailed | Stop::Endless => Err(ToolFault::Device),
        }
    }
}
