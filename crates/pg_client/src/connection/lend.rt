//! The items of an early client one by one, with rows that are lent.

ghost use Rattle.std.specs.Prelude.{◌≡◌, ◌≢◌, ◌∷◌, ◌↔◌, [], IfNone, IfSome, IsTrue, None};
ghost use Rattle.pg_client.specs.Client.{Carries, with_given};
ghost use Rattle.pg_client.specs.Lent.{HearsUpTo, Pushes, TakesLent};
ghost use Rattle.pg_client.specs.View.{items_waiting, lent_row, with_items};
ghost use Rattle.pg_client.specs.Keeping.{queueing};

use crate::connection::Connection;
use crate::connection::feed::Heard;
use crate::fault::FeedFault;
use crate::item::Item;
use crate::next::Next;
use crate::phase::Cause;
use crate::queue::Queue;
use pg_wire::{Lent, RowView};

impl Connection<Queue> {
    /// Keeps the bytes that came from the server, all of them, and handles none of their messages: [`next_lent`](Connection::next_lent) does, and
    /// so does a [`feed`](Connection::feed) that has bytes. No row is lent any more. A closed client returns F8 Closed.
    pub fn push(&mut self, piece: &[u8]) -> Result<(), FeedFault>
        ensures pushes { Pushes self.old piece.now result self.new }
    {
        if self.closed.is_some() {
            return Err(FeedFault::Closed);
        }
        if self.decoder.push(piece).is_err() {
            self.closed = Some(Cause::Memory);
            return Err(FeedFault::Memory);
        }
        Ok(())
    }

    /// The next item of the bytes that were pushed: the one that [`take_item`](Connection::take_item) would give after a
    /// [`feed`](Connection::feed) of them. A row is returned as Held: its item counts as given and takes no memory, and
    /// [`held`](Connection::held) lends it. A row comes as an item only where it waited before the call. Nothing means that no item waits, and no
    /// message is whole any more.
    ///
    /// What is to be sent for a message is put out, and the faults are those of [`feed`](Connection::feed); after one no row is lent. A call that is
    /// made before Nothing was returned comes before the bytes that are still to be heard.
    pub fn next_lent(&mut self, out: &mut Vec<u8>) -> Result<Next, FeedFault>
        ensures settings { self.new.settings ≡ self.old.settings }
        ensures takes { TakesLent self.old result self.new out.old.items out.new.items }
    {
        match self.take_item() {
            Some(item) => Ok(Next::Item(item)),
            None if self.closed.is_some() => Err(FeedFault::Closed),
            None => self.hear_up_to(out),
        }
    }

    // Hears messages up to one that has an item.
    fn hear_up_to(&mut self, out: &mut Vec<u8>) -> Result<Next, FeedFault>
        requires is_open { self.old.closed ≡ None }
        requires empty { items_waiting self.old ≡ [] }
        ensures settings { self.new.settings ≡ self.old.settings }
        ensures up_to { HearsUpTo self.old result self.new out.old.items out.new.items }
    {
        loop {
            match self.hear_next(true, out)? {
                Heard::Nothing => return Ok(Next::Nothing),
                Heard::Row => {
                    return match self.known.pass_row() {
                        Ok(()) => Ok(Next::Held),
                        Err(fault) => Err(self.close(fault)),
                    };
                }
                Heard::Message => {
                    if let Some(item) = self.take_item() {
                        return Ok(Next::Item(item));
                    }
                }
            }
        }
    }

    /// The row for which [`next_lent`](Connection::next_lent) returned Held. It is lent until the next call of `next_lent` or of
    /// [`push`](Connection::push), or of a [`feed`](Connection::feed) that has bytes. Else this is None. A closed client lends none. It takes no
    /// memory.
    pub fn held(&self) -> Option<RowView<'_>>
        ensures { result ≡ lent_row self.now }
    {
        if self.closed.is_some() {
            return None;
        }
        match self.decoder.held() {
            Some(Lent::Row(row)) => Some(row),
            _ => None,
        }
    }

    /// Takes the oldest item that wasn't taken: a message of a request's segment, or that the request is settled. None where all
    /// were taken. It takes no memory.
    pub fn take_item(&mut self) -> Option<Item>
        ensures some { IfSome result (λ t. (items_waiting self.old
            ≡ t ∷ items_waiting self.new)
            × (self.new ≡ with_items self.old (items_waiting self.new))) }
        ensures history { IfSome result (λ t. Carries queueing self.old self.new (with_given t)) }
        ensures none { IfNone result ((items_waiting self.old ≡ [])
            × (self.new ≡ self.old)) }
    {
        self.known.keeper.take()
    }

    /// Whether an item waits to be taken.
    pub fn has_item(&self) -> bool
        ensures { IsTrue result ↔ (items_waiting self.now ≢ []) }
    {
        self.known.keeper.has_some()
    }
}
