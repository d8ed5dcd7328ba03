//! What a session gives request by request.

ghost use Rattle.std.specs.Prelude.{◌≡◌};
ghost use Rattle.pg_drive.specs.Drive.{connected};
ghost use Rattle.pg_drive.specs.Group.{GivesGroup, GroupStarts};

use crate::event::{GroupEvent, SessionFault};
use crate::groups::{next_group, start_whole};
use crate::session::GroupSession;
use pg_wire::{Sink, Source};

impl<L: Source + Sink> GroupSession<L> {
    /// Starts the session: sends the startup packet and what the server asks for, and waits until a request may be made. In phase Starting the call
    /// goes on where the last one stopped.
    ///
    /// N1 Call: the client rejected the call, and nothing has changed. N2 Feed: it rejected what came. N3 Lost: the connection is lost. N4
    /// PiecesUsed: the call received as many pieces as it may.
    pub fn start(&mut self) -> Result<(), SessionFault>
        ensures start { GroupStarts L.gives L.takes L.has_ended L.Source.failures
            L.Sink.failures self.old.pieces
            (connected self.old.link self.old.client self.old.out.items) result
            (connected self.new.link self.new.client self.new.out.items) }
        ensures pieces { self.new.pieces ≡ self.old.pieces }
    {
        start_whole(&mut self.client, &mut self.out, &mut self.link, self.pieces)
    }

    /// Gives the request that is settled next, with its whole answer, or that the server awaits the data of a copy. It sends what waits, receives
    /// pieces and feeds them until there is one of the two.
    ///
    /// N2 Feed: the client rejected what came; a group that the piece settled is given by the next call. N3 Lost: the connection is lost. N4
    /// PiecesUsed: the call received as many pieces as it may.
    pub fn next(&mut self) -> Result<GroupEvent, SessionFault>
        ensures gives { GivesGroup L.gives L.takes L.has_ended L.Source.failures L.Sink.failures
            self.old.pieces (connected self.old.link self.old.client self.old.out.items) result
            (connected self.new.link self.new.client self.new.out.items) }
        ensures pieces { self.new.pieces ≡ self.old.pieces }
    {
        next_group(&mut self.client, &mut self.out, &mut self.link, self.pieces)
    }
}
