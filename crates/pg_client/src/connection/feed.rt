//! The bytes that come from the server.

ghost use Rattle.std.specs.Prelude.{◌≡◌, ◌<◌, IfOk, length, None, OnOk};
ghost use Rattle.pg_client.specs.Client.{Feeds};
ghost use Rattle.pg_client.specs.Closed.{cause_of};
ghost use Rattle.pg_client.specs.Private.Hearing.{HearsAll, HearsNext, Owns};

use crate::connection::Connection;
use crate::fault::FeedFault;
use crate::keeper::Keeper;
use crate::phase::Cause;
use pg_wire::{BackMessage, Cut, Fields, Lent, Values};

/// What the next message is.
#[derive(Clone, Copy)]
pub enum Heard {
    /// No message is whole.
    Nothing,
    /// A row that stays lent, and is still to be heard.
    Row,
    /// A message that was heard.
    Message,
}

impl<K: Keeper> Connection<K> {
    /// Takes the bytes that came from the server, all of the piece, in whatever pieces they come. What is kept of the messages then waits to be
    /// taken. Where a password is asked for, it is put out; nothing else is.
    ///
    /// F1 Wire: the stream has a fault. F2 Unexpected: a message with this tag came that may not come after the calls and messages before it, and
    /// that F3 to F6 don't name: any message before `start`, and a CommandComplete before the `copy_done` that it needs, are such. F3
    /// UnsupportedAuth and F4 PasswordWanted: the server asks for what the client can't give. F5 StartupError: an error came in phase Starting. F6
    /// ServerEnd: one came in phase Ready, which the messages before it may have led to. F7 Memory: memory ran out. After any of these the client is
    /// closed with the cause of that name. The messages before the fault have had their effect, also on `out`. What was kept stays to be taken, and a
    /// request that is outstanding stays to be handed back by [`lost`](Connection::lost).
    ///
    /// F8 Closed: the client was closed before, and nothing changes. A piece without bytes takes no memory and changes nothing, even where pushed
    /// bytes are still to be heard.
    pub fn feed(&mut self, piece: &[u8], out: &mut Vec<u8>) -> Result<(), FeedFault>
        ensures settings { self.new.settings ≡ self.old.settings }
        ensures feeds { Feeds K.way self.old piece.now result self.new out.old.items
            out.new.items }
        ensures lends_none { OnOk result (0 < length piece.now → self.new.held ≡ None) }
    {
        K::silent();
        if self.closed.is_some() {
            return Err(FeedFault::Closed);
        }
        if piece.is_empty() {
            return Ok(());
        }
        if self.decoder.push(piece).is_err() {
            self.closed = Some(Cause::Memory);
            return Err(FeedFault::Memory);
        }
        self.hear_all(out)
    }

    // Takes in what is whole.
    fn hear_all(&mut self, out: &mut Vec<u8>) -> Result<(), FeedFault>
        requires { self.old.closed ≡ None }
        ensures settings { self.new.settings ≡ self.old.settings }
        ensures all { HearsAll K.way self.old result self.new out.old.items out.new.items }
        ensures lends_none { OnOk result (self.new.held ≡ None) }
    {
        K::silent();
        loop {
            match self.hear_next(false, out)? {
                Heard::Nothing => return Ok(()),
                // no row stays lent
                Heard::Row | Heard::Message => {}
            }
        }
    }

    // Cuts the next message off, if it is whole, and takes it in, unless it is a row that stays lent.
    pub(crate) fn hear_next(&mut self, lends: bool, out: &mut Vec<u8>) -> Result<Heard, FeedFault>
        requires { self.old.closed ≡ None }
        ensures { HearsNext K.way lends self.old result self.new out.old.items out.new.items }
    {
        let cut = match self.decoder.next_lent() {
            Ok(cut) => cut,
            Err(fault) => {
                let fault = FeedFault::of_wire(fault);
                self.closed = fault.cause();
                return Err(fault);
            }
        };
        let message = match cut {
            Cut::Nothing => return Ok(Heard::Nothing),
            Cut::Other(message) => message,
            Cut::Held => match self.owned(lends) {
                Ok(Some(message)) => message,
                Ok(None) => return Ok(Heard::Row),
                Err(fault) => return Err(self.close(fault)),
            },
        };
        match self.known.hear(self.alloc, &self.settings, message, out) {
            Ok(()) => Ok(Heard::Message),
            Err(fault) => Err(self.close(fault)),
        }
    }

    // The message that the decoder lends, as one of its own, copied once; None of a row that stays lent. No message is so long that what it holds
    // couldn't be copied: only memory may run out.
    fn owned(&self, lends: bool) -> Result<Option<BackMessage>, FeedFault>
        ensures { Owns lends self.now.held result }
    {
        match self.decoder.held() {
            Some(Lent::Row(_)) if lends => Ok(None),
            Some(Lent::Row(row)) => {
                let Ok(values) = Values::of_row(self.alloc, &row) else {
                    return Err(FeedFault::Memory);
                };
                Ok(Some(BackMessage::DataRow(values)))
            }
            Some(Lent::Error(fields)) => match Fields::of_view(self.alloc, &fields) {
                Ok(fields) => Ok(Some(BackMessage::ErrorResponse(fields))),
                Err(_) => Err(FeedFault::Memory),
            },
            Some(Lent::Notice(fields)) => match Fields::of_view(self.alloc, &fields) {
                Ok(fields) => Ok(Some(BackMessage::NoticeResponse(fields))),
                Err(_) => Err(FeedFault::Memory),
            },
            None => Ok(None),
        }
    }

    // Closes the client for this fault, and returns it.
    pub(crate) fn close(&mut self, fault: FeedFault) -> FeedFault
        requires { self.old.closed ≡ None }
        ensures fault { result ≡ fault }
        ensures closed { self.new ≡ record self.old { closed = cause_of fault } }
    {
        self.closed = fault.cause();
        fault
    }
}
