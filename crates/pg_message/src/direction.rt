//! What the messages of both directions have in common.

ghost use Rattle.pg_message.specs.Direction.{Direction};
ghost use Rattle.pg_message.specs.Encoder.{Encodes};
ghost use Rattle.pg_message.specs.Message.{TellsTag, JudgesBody, ReadsBody, OneToOne};

use pg_codec::{BodyFault, EncodeFault};
use std::alloc::Global;

/// A message of one direction of the protocol.
pub trait Message: Drop {
    // how the messages of the direction are spelled, and which have a spelling
    ghost direction: { Direction Self };

    /// Whether some message has this tag.
    fn is_tag(tag: u8) -> bool
        ensures { TellsTag direction tag result };

    /// Appends the one spelling of the message. A fault leaves `buf` as it was.
    fn encode(&self, buf: &mut Vec<u8>) -> Result<(), EncodeFault>
        ensures { Encodes direction self.now buf.old.items result buf.new.items };

    /// Whether this is the body, all of it, of a message with this tag. No message is made, and no memory is taken.
    fn is_message(tag: u8, body: &[u8]) -> bool
        ensures { JudgesBody direction tag body.now result };

    /// The message of this tag and this body, all of the body. `Bad`: there is none. `Memory`: there is one, which holds a text or another list, and
    /// memory for that ran out.
    fn of_body(alloc: Global, tag: u8, body: &[u8]) -> Result<Self, BodyFault>
    where
        Self: Sized,
        ensures { ReadsBody direction tag body.now result };

    /// The law that a tag and a body make at most one message.
    fn one_to_one()
        ensures { OneToOne direction };
}
