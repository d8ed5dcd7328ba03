//! An early client, which is given what the client is given, and has to come to the same.

ghost use Rattle.std.specs.Prelude.{◌≡◌};

use crate::sessions::link::has_taken;
use anyhow::{Result, bail};
use pg_client::{Call, Client, EarlyClient, FeedFault, Item, Settings, Settled};
use pg_drive::{DriveFault, DrivenEarly, drive_early};
use pg_wire::{BackMessage, Request, Status, backend};
use std::alloc::Global;
use testing::{MemoryLink, memory_link};

/// An early client.
#[derive(Drop)]
pub struct Early<'a> {
    client: EarlyClient,
    out: Vec<u8>,
    line: MemoryLink<'a>,
    // The group that was settled since the client was last compared.
    settled: Option<(Request, Status)>,
    // The messages that it gave since they were last compared.
    told: Vec<u8>,
}

impl<'a> Early<'a> {
    pub fn new(alloc: Global, settings: Settings, most: usize) -> Early<'a>
        requires { settings.limit ≡ 65536 }
    {
        Early {
            client: EarlyClient::new(alloc, settings),
            out: Vec::new(alloc),
            line: memory_link(alloc, &[], most),
            settled: None,
            told: Vec::new(alloc),
        }
    }

    /// Makes a request.
    pub fn request(&mut self, request: Request) -> Result<()> {
        match self.client.request(request, &mut self.out) {
            Ok(()) => Ok(()),
            Err((_, fault)) => Err(fault.into()),
        }
    }

    /// Makes a call.
    pub fn call(&mut self, made: &Call) -> Result<()> {
        let Early { client, out, .. } = self;
        match made {
            Call::Start => client.start(out)?,
            Call::Request(asked) => self.request(asked.clone()?)?,
            Call::Chunk(bytes) => client.copy_chunk(bytes.as_slice(), out)?,
            Call::Done => client.copy_done(out)?,
            Call::Fail(reason) => client.copy_fail(reason.as_slice(), out)?,
            Call::Terminate => client.terminate(out)?,
        }
        Ok(())
    }

    /// Whether it answers this to a piece.
    pub fn answers(&mut self, piece: &[u8], fed: &Result<(), FeedFault>) -> bool {
        self.client.feed(piece, &mut self.out) == *fed
    }

    // Keeps the item's message, and what is settled. A message that had no spelling would be missing where they are compared.
    fn keep(&mut self, item: Item) {
        let message = match item {
            Item::Early(message) => message,
            Item::Settled { request, status } => {
                self.settled = Some((request, status));
                BackMessage::Ready(status)
            }
        };
        let _ = backend::encode(&message, &mut self.told);
    }

    // Drives it, with so many pieces at most.
    fn drive(&mut self, turns: u32) -> Result<DrivenEarly, DriveFault> {
        drive_early(&mut self.client, &mut self.out, &mut self.line, turns)
    }

    /// Gives its link these bytes.
    pub fn give(&mut self, bytes: &'a [u8]) {
        self.line.gives = bytes;
    }

    /// Whether it answers this where it is driven with a piece of the link's bytes.
    pub fn drives(&mut self, fed: &Result<(), FeedFault>) -> bool {
        self.take_items();
        match self.drive(1) {
            Ok(DrivenEarly::Item(item)) => {
                self.keep(item);
                fed.is_ok()
            }
            Ok(DrivenEarly::Ready | DrivenEarly::TurnsUsed) => fed.is_ok(),
            Err(DriveFault::Feed(fault)) => *fed == Err(fault),
            _ => false,
        }
    }

    /// Whether it has sent just these bytes since the last time.
    pub fn has_sent(&mut self, bytes: &[u8]) -> bool {
        self.take_items();
        self.drive(0).is_ok() && has_taken(&mut self.line, bytes)
    }

    /// Whether it has given just these messages since the last time.
    pub fn has_told(&mut self, bytes: &[u8]) -> bool {
        self.take_items();
        let is_same = self.told.as_slice() == bytes;
        self.told.clear();
        is_same
    }

    // Takes the items that wait.
    fn take_items(&mut self) {
        for _ in 0..u64::MAX {
            match self.client.take_item() {
                Some(item) => self.keep(item),
                None => break,
            }
        }
    }

    // Whether what was settled is this group.
    fn settles(&mut self, group: Option<&Settled>) -> bool {
        self.take_items();
        match (self.settled.take(), group) {
            (Some((request, status)), Some(group)) => {
                request == group.request && status == group.outcome.status
            }
            (None, None) => true,
            _ => false,
        }
    }

    /// Whether it stands where the client stands, which has put this out and settled this group.
    pub fn agrees(&mut self, client: &Client, out: &[u8], group: Option<&Settled>) -> bool {
        self.settles(group) && self.client.phase() == client.phase() && self.out.as_slice() == out
    }
}
