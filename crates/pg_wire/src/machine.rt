//! What the decoders of tagged messages have in common.

ghost use Rattle.std.specs.Prelude.{◌≡◌, ◌≤◌, ◌<◌, ◌+◌, [], true, take, drop, length};
ghost use Rattle.std.specs.Prelude.{None, Some};
ghost use Rattle.pg_message.specs.Backend.{backend};
ghost use Rattle.pg_message.specs.Direction.{IsLimit};
ghost use Rattle.pg_wire.specs.Decoder.{Pushes, IsLasting, Takes};
ghost use Rattle.pg_wire.specs.Stream.{IsOpen};
ghost use Rattle.pg_wire.specs.BackDecoder.{TakesLent};
ghost use Rattle.pg_wire.specs.Spellings.{LetsBytes, TakesSpelling};
ghost use Rattle.pg_wire.specs.Private.Found.{Awaits};
ghost use Rattle.pg_wire.specs.Private.Held.{back_state, spellings_state, IsHeldFront};
ghost use Rattle.pg_wire.specs.Private.Held.{HoldsNext, MayFind, TakesRow};

use crate::back::Cut;
use crate::buffer::{append, drop_first};
use crate::fault::WireFault;
use crate::find::{Found, Judged, NO_HEAD, find_lent, find_row, find_whole, first_message, judge};
use bytes::BytesMut;
use pg_message::{BackMessage, Message};
use pg_values::{RowView, Values};
use std::alloc::{AllocError, Global};
use std::marker::{Model, PhantomData};

/// The bytes of one direction that were pushed and not given as messages, and before them those of the message that is still
/// held, if one is.
#[derive(Drop)]
pub struct Stream<M: Message> {
    alloc: Global,
    buffer: BytesMut,
    // so many bytes at the beginning of the buffer are a message that was given and is held until the next call
    held: usize,
    // no message is whole while no more than so many bytes are kept
    awaited: usize,
    limit: u32,
    fault: Option<WireFault>,
    message: PhantomData<M>,
}

impl<M: Message> Model for Stream<M> {
    ghost use Rattle.std.specs.Prelude.{◌≤◌, length, take, drop};
    ghost use Rattle.pg_wire.specs.Decoder.{IsLasting};
    ghost use Rattle.pg_wire.specs.Private.Found.{Awaits};
    ghost use Rattle.pg_wire.specs.Private.Held.{StreamState};

    ghost Value = { StreamState };

    ghost view = { λ s. record {
      front = take s.held s.buffer.items;
      rest = record { kept = drop s.held s.buffer.items; limit = s.limit; fault = s.fault };
    } };

    ghost invariant = { λ s. (s.held ≤ length s.buffer.items) × (64 ≤ s.limit)
        × (s.limit ≤ 1073741823) × IsLasting s.fault
        × Awaits M.direction s.limit (drop s.held s.buffer.items) s.awaited };
}

impl<M: Message> Stream<M> {
    /// A stream that begins with the bytes that are kept already. If a fault is given, each call returns it.
    pub fn resume(
        alloc: Global,
        buffer: BytesMut,
        limit: u32,
        fault: Option<WireFault>,
    ) -> Stream<M>
        requires limit { IsLimit limit }
        requires fault { IsLasting fault }
        ensures front { result.front ≡ [] }
        ensures rest { result.rest ≡ record { kept = buffer.items; limit = limit; fault = fault } }
    {
        Stream {
            alloc,
            buffer,
            held: 0,
            awaited: NO_HEAD,
            limit,
            fault,
            message: PhantomData,
        }
    }

    /// How many bytes are kept.
    pub fn kept(&self) -> usize
        ensures { result ≡ length self.now.rest.kept }
    {
        self.buffer.len() - self.held
    }

    /// The bytes of the message that is still held.
    pub fn front(&self) -> &[u8]
        ensures { result.now ≡ self.now.front }
    {
        let (front, _) = self.buffer.as_slice().split_at(self.held);
        front
    }

    // The bytes that are kept.
    fn rest(&self) -> &[u8]
        ensures { result.now ≡ self.now.rest.kept }
    {
        let (_, rest) = self.buffer.as_slice().split_at(self.held);
        rest
    }

    // Whether too few bytes are kept for a whole message.
    fn is_short(&self) -> bool
        ensures { result ≡ true → IsOpen M.direction self.now.rest.limit self.now.rest.kept
            × (length self.now.rest.kept < self.now.rest.limit + 1) }
    {
        self.kept() <= self.awaited
    }

    // Ends the holding. No message is whole while no more than so many bytes are kept.
    fn wait_for(&mut self, size: usize)
        requires { Awaits M.direction self.old.rest.limit self.old.rest.kept size }
        ensures front { self.new.front ≡ [] }
        ensures rest { self.new.rest ≡ self.old.rest }
    {
        self.let_go();
        self.awaited = size;
    }

    // Ends the holding, and takes so many bytes off what is kept.
    fn take_off(&mut self, count: usize)
        requires { count ≤ length self.old.rest.kept }
        ensures front { self.new.front ≡ [] }
        ensures rest { self.new.rest
            ≡ record self.old.rest { kept = drop count self.old.rest.kept } }
    {
        let left = self.kept() - count;
        let len = self.buffer.len();
        drop_first(&mut self.buffer, len - left);
        self.held = 0;
        self.awaited = NO_HEAD;
    }

    // Ends the holding.
    fn let_go(&mut self)
        ensures front { self.new.front ≡ [] }
        ensures rest { self.new.rest ≡ self.old.rest }
    {
        if self.held > 0 {
            self.take_off(0);
        }
    }

    // Ends the holding, and holds so many bytes of what is kept.
    fn hold(&mut self, count: usize)
        requires { count ≤ length self.old.rest.kept }
        ensures front { self.new.front ≡ take count self.old.rest.kept }
        ensures rest { self.new.rest
            ≡ record self.old.rest { kept = drop count self.old.rest.kept } }
    {
        // what is held stays in the buffer, so that it isn't left empty, with room to be given back
        let held = self.held;
        self.buffer.advance(held);
        self.held = count;
        self.awaited = NO_HEAD;
    }

    // Ends the holding, and stores a fault, which it returns.
    fn fail(&mut self, fault: WireFault) -> WireFault
        requires { IsLasting (Some fault) }
        ensures fault { result ≡ fault }
        ensures front { self.new.front ≡ [] }
        ensures rest { self.new.rest ≡ record self.old.rest { fault = Some fault } }
    {
        self.let_go();
        self.fault = Some(fault);
        fault
    }

    /// The limit of a message's length field.
    pub fn limit(&self) -> u32
        ensures { result ≡ self.now.rest.limit }
    {
        self.limit
    }

    /// The bytes that are kept.
    pub fn into_rest(self) -> BytesMut
        ensures { result.items ≡ self.rest.kept }
    {
        let Stream {
            mut buffer,
            held,
            ..
        } = self;
        drop_first(&mut buffer, held);
        buffer
    }

    /// Takes a piece whole. Where memory runs out, it takes nothing of it.
    // a part of each caller, as `next` is
    #[inline(always)]
    pub fn push(&mut self, piece: &[u8]) -> Result<(), WireFault>
        ensures call { Pushes self.old.rest piece.now result self.new.rest }
        ensures front { LetsBytes self.old.front result self.new.front }
    {
        if let Some(fault) = self.fault {
            self.let_go();
            return Err(fault);
        }
        append(&mut self.buffer, piece)?;
        self.let_go();
        Ok(())
    }

    // Whether a look at the bytes may find a message. A fault that is stored is returned. Where one is, or too few bytes are kept, the holding ends.
    // A part of each caller, so that a small piece of a large message costs a comparison.
    #[inline(always)]
    fn may_find(&mut self) -> Result<bool, WireFault>
        ensures { MayFind M.direction self.old result self.new }
    {
        if let Some(fault) = self.fault {
            self.let_go();
            return Err(fault);
        }
        if self.is_short() {
            self.let_go();
            return Ok(false);
        }
        Ok(true)
    }

    /// The next message, taken off.
    // a part of each caller: a call that finds nothing whole then pays for no other's way, nor for room for a message
    #[inline(always)]
    pub fn next(&mut self) -> Result<Option<M>, WireFault>
        ensures call { Takes M.direction self.old.rest result self.new.rest }
        ensures front { LetsBytes self.old.front result self.new.front }
    {
        if !self.may_find()? {
            return Ok(None);
        }
        let rest = self.rest();
        match judge::<M>(self.limit, rest) {
            Judged::Open(size) => {
                self.wait_for(size);
                Ok(None)
            }
            Judged::Faulty(fault) => Err(self.fail(fault)),
            Judged::Whole(tag, len) => match first_message(self.alloc, self.limit, rest, tag, len) {
                Ok(message) => {
                    self.take_off(len + 1);
                    Ok(Some(message))
                }
                Err(WireFault::Memory) => Err(WireFault::Memory),
                Err(fault) => Err(self.fail(fault)),
            },
        }
    }
}

impl<M: Message> Stream<M> {
    /// Looks for the next message, whose bytes stay in the buffer, and returns whether there is one.
    pub fn next_spelling(&mut self) -> Result<bool, WireFault>
        ensures { TakesSpelling M.direction self.old.rest result (spellings_state self.new) }
    {
        if let Some(fault) = self.fault {
            self.let_go();
            return Err(fault);
        }
        match find_whole::<M>(self.limit, self.rest()) {
            Judged::Open(size) => {
                self.wait_for(size);
                Ok(false)
            }
            Judged::Faulty(fault) => Err(self.fail(fault)),
            Judged::Whole(_, len) => {
                self.hold(len + 1);
                Ok(true)
            }
        }
    }
}

impl Stream<BackMessage> {
    // Looks at the next message of a backend, and holds one that can be lent. Where the rest has the tag of such a message and a fault, the fault
    // is stored for `next` to return. Else nothing changes.
    // A call of its own: as a part of a caller's loop it takes the registers that the loop works with.
    #[inline(never)]
    fn hold_next(&mut self) -> Found
        ensures { HoldsNext self.old result self.new }
    {
        if self.fault.is_some() {
            return Found::Other;
        }
        let rest = self.rest();
        if rest.len() <= self.awaited {
            return Found::Nothing(self.awaited);
        }
        match find_lent(self.limit, rest) {
            Ok(Found::Nothing(size)) => Found::Nothing(size),
            Ok(Found::Lent(size)) => {
                self.hold(size);
                Found::Lent(size)
            }
            Ok(Found::Other) => Found::Other,
            Err(found) => {
                self.fault = Some(found);
                Found::Other
            }
        }
    }

    // Takes the next message of a backend off where it is a row. Where it is none, or not all of it is there, or it has a fault, nothing changes.
    // A call of its own, with room for no other message.
    #[inline(never)]
    fn take_row(&mut self) -> Result<Option<Values>, AllocError>
        requires { self.old.rest.fault ≡ None }
        ensures { TakesRow self.old result self.new }
    {
        let rest = self.rest();
        let Some(size) = find_row(self.limit, rest) else {
            return Ok(None);
        };
        match Values::of_row(self.alloc, &RowView::of_body(&rest[5..size])) {
            Ok(values) => {
                self.take_off(size);
                Ok(Some(values))
            }
            Err(_) => Err(AllocError),
        }
    }

    /// The next message of a backend, taken off.
    // a part of its caller: a call on too few bytes costs a comparison, though the caller has room for a message
    #[inline(always)]
    pub fn next_owned(&mut self) -> Result<Option<BackMessage>, WireFault>
        ensures call { Takes backend self.old.rest result self.new.rest }
        ensures front { LetsBytes self.old.front result self.new.front }
    {
        if !self.may_find()? {
            return Ok(None);
        }
        match self.take_row() {
            Ok(Some(values)) => Ok(Some(BackMessage::DataRow(values))),
            Ok(None) => self.next_apart(),
            Err(_) => Err(WireFault::Memory),
        }
    }

    // The next message of a backend, as `next` gives it: it is taken off the buffer.
    // A call of its own: the callers of `next_lent` and `next_owned` then have no part of `next`, which only other messages and faults need.
    #[inline(never)]
    fn next_apart(&mut self) -> Result<Option<BackMessage>, WireFault>
        ensures call { Takes backend self.old.rest result self.new.rest }
        ensures front { LetsBytes self.old.front result self.new.front }
    {
        self.next()
    }

    /// The next message of a backend. One that can be lent stays in the buffer, and any other is taken off.
    // a part of its callers: to hold a row they need no room for another message
    #[inline(always)]
    pub fn next_lent(&mut self) -> Result<Cut, WireFault>
        ensures call { TakesLent (back_state self.old) result (back_state self.new) }
        ensures front { IsHeldFront self.old.front → IsHeldFront self.new.front }
    {
        match self.hold_next() {
            Found::Nothing(size) => {
                self.wait_for(size);
                return Ok(Cut::Nothing);
            }
            Found::Lent(_) => return Ok(Cut::Held),
            Found::Other => {}
        }
        match self.next_apart() {
            Ok(None) => Ok(Cut::Nothing),
            Ok(Some(message)) => Ok(Cut::Other(message)),
            Err(fault) => Err(fault),
        }
    }
}
