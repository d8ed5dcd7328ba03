//! A link in memory.

use pg_wire::{LinkFault, Sink, Source};
use std::alloc::Global;

/// A link that gives bytes and takes what is sent, both so many at a time. One receive and one send fail, counted from 1, or none where
/// their number is 0.
#[derive(Drop)]
pub struct MemoryLink<'a> {
    /// What is left to be received.
    pub gives: &'a [u8],
    /// What was sent.
    pub taken: Vec<u8>,
    most: usize,
    receives: u64,
    sends: u64,
    /// The receive that fails.
    pub fails_at_receive: u64,
    /// The send that fails.
    pub fails_at_send: u64,
    /// How many calls have failed.
    pub failures: u64,
}

// What a step of a table asks of a link answers whether it was so.
impl MemoryLink<'_> {
    /// The receive of this number fails, which is always so.
    pub fn fail_receive(&mut self, number: u64) -> bool {
        self.fails_at_receive = number;
        true
    }

    /// The send of this number fails, which is always so.
    pub fn fail_send(&mut self, number: u64) -> bool {
        self.fails_at_send = number;
        true
    }

    /// Whether just these bytes were sent.
    pub fn has_sent(&self, bytes: &[u8]) -> bool {
        self.taken.as_slice() == bytes
    }
}

impl<'a> Source for MemoryLink<'a> {
    ghost failures = { λ s. s.failures };

    ghost gives = { λ _ _ _. Unit {0} };

    ghost has_ended = { λ _. Unit {0} };

    fn receive(&mut self, into: &mut [u8]) -> Result<usize, LinkFault> {
        self.receives = self.receives.saturating_add(1);
        if self.receives == self.fails_at_receive {
            self.failures = self.failures.saturating_add(1);
            return Err(LinkFault);
        }
        let count = self.gives.len().min(into.len()).min(self.most);
        let (piece, rest) = self.gives.split_at(count);
        into.split_at_mut(count).0.copy_from_slice(piece);
        self.gives = rest;
        Ok(count)
    }
}

impl<'a> Sink for MemoryLink<'a> {
    ghost failures = { λ s. s.failures };

    ghost takes = { λ _ _ _. Unit {0} };

    fn send(&mut self, piece: &[u8]) -> Result<usize, LinkFault> {
        self.sends = self.sends.saturating_add(1);
        let count = piece.len().min(self.most.max(1));
        if self.sends == self.fails_at_send
            || self.taken.extend_from_slice(&piece[..count]).is_err()
        {
            self.failures = self.failures.saturating_add(1);
            return Err(LinkFault);
        }
        Ok(count)
    }
}

/// A link that doesn't fail.
pub fn memory_link(alloc: Global, gives: &[u8], most: usize) -> MemoryLink<'_> {
    MemoryLink {
        gives,
        taken: Vec::new(alloc),
        most,
        receives: 0,
        sends: 0,
        fails_at_receive: 0,
        fails_at_send: 0,
        failures: 0,
    }
}
