//! What a session gives message by message.

ghost use Rattle.std.specs.Prelude.{◌≡◌};
ghost use Rattle.pg_client.specs.View.{lent_row};
ghost use Rattle.pg_drive.specs.Drive.{connected};
ghost use Rattle.pg_drive.specs.Lent.{Gives, GivesLent, Hears, Owns, Starts};

use crate::event::{Event, SessionFault};
use crate::lent::{hear, next_event, start_early};
use crate::session::Session;
use pg_client::EarlyClient;
use pg_wire::{BackMessage, RowView, Sink, Source, Values};
use std::alloc::Global;

impl<L> Session<L> {
    /// The row of the last [`Event::Row`], which is lent until the next call that gives an event. None where no row is lent.
    pub fn held(&self) -> Option<RowView<'_>>
        ensures { result ≡ lent_row self.now.client }
    {
        self.client.held()
    }
}

impl<L: Source + Sink> Session<L> {
    /// Starts the session: sends the startup packet and what the server asks for, and waits until a request may be made. In phase Starting the call
    /// goes on where the last one stopped.
    ///
    /// N1 Call: the client rejected the call, and nothing has changed. N2 Feed: it rejected what came. N3 Lost: the connection is lost. N4
    /// PiecesUsed: the call received as many pieces as it may.
    pub fn start(&mut self) -> Result<(), SessionFault>
        ensures start { Starts L.gives L.takes L.has_ended L.Source.failures L.Sink.failures
            self.old.pieces (connected self.old.link self.old.client self.old.out.items) result
            (connected self.new.link self.new.client self.new.out.items) }
        ensures pieces { self.new.pieces ≡ self.old.pieces }
    {
        start_early(&mut self.client, &mut self.out, &mut self.link, self.pieces)
    }

    /// The next event, with rows lent. It looks for one in what has come. Where there is none it sends what waits, receives a piece and looks again.
    /// Events and faults come in the order of the stream. In phase Ready it waits for what the server sends unasked.
    ///
    /// N2 Feed: the client rejected what came. N3 Lost: the connection is lost. N4 PiecesUsed: the call received as many pieces as it may.
    pub fn next_lent(&mut self) -> Result<Event, SessionFault>
        ensures gives { GivesLent L.gives L.takes L.has_ended L.Source.failures L.Sink.failures
            self.old.pieces (connected self.old.link self.old.client self.old.out.items) result
            (connected self.new.link self.new.client self.new.out.items) }
        ensures pieces { self.new.pieces ≡ self.old.pieces }
    {
        next_event(&mut self.client, &mut self.out, &mut self.link, self.pieces)
    }

    /// The next event, with rows owned: a row is an [`Event::Message`]. Else it is as [`next_lent`](Session::next_lent): where what has come has no
    /// event, it sends what waits, receives a piece and looks again.
    ///
    /// N2 Feed: the client rejected what came. N3 Lost: the connection is lost. N4 PiecesUsed: the call received as many pieces as it may. N5 Memory:
    /// memory for the copy of a row ran out, and [`held`](Session::held) lends the row.
    pub fn next(&mut self) -> Result<Event, SessionFault>
        ensures gives { Gives L.gives L.takes L.has_ended L.Source.failures L.Sink.failures
            self.old.pieces (connected self.old.link self.old.client self.old.out.items) result
            (connected self.new.link self.new.client self.new.out.items) }
        ensures pieces { self.new.pieces ≡ self.old.pieces }
    {
        match self.next_lent() {
            Ok(lent) => own(*self.out.allocator(), lent, &self.client),
            Err(fault) => Err(fault),
        }
    }

    /// The next event of what has come, with rows lent. Nothing is received. None: there is no event, and what waits was sent.
    ///
    /// N2 Feed: the client rejected what came. N3 Lost: the link failed.
    pub fn try_next_lent(&mut self) -> Result<Option<Event>, SessionFault>
        ensures hears { Hears L.takes L.Sink.failures
            (connected self.old.link self.old.client self.old.out.items) result
            (connected self.new.link self.new.client self.new.out.items) }
        ensures pieces { self.new.pieces ≡ self.old.pieces }
    {
        hear(&mut self.client, &mut self.out, &mut self.link)
    }
}

// The event with its row owned.
fn own(alloc: Global, lent: Event, client: &EarlyClient) -> Result<Event, SessionFault>
    ensures { Owns lent (lent_row client.now) result }
{
    match lent {
        Event::Row => own_row(alloc, client),
        other => Ok(other),
    }
}

// The row that is lent, as a message. A row is lent where an event is a row.
fn own_row(alloc: Global, client: &EarlyClient) -> Result<Event, SessionFault>
    ensures { Owns Event.Row (lent_row client.now) result }
{
    let Some(row) = client.held() else {
        return Err(SessionFault::Memory);
    };
    match Values::of_row(alloc, &row) {
        Ok(values) => Ok(Event::Message(BackMessage::DataRow(values))),
        Err(_) => Err(SessionFault::Memory),
    }
}
