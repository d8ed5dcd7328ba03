//! Bytes that come in pieces, and a sheet that takes text: both fail where a test wants it.

use pg_wire::{LinkFault, Sink, Source};
use std::alloc::Global;

/// Bytes that come so many at a time, and fail once.
#[derive(Drop)]
pub(crate) struct Pieces<'a> {
    bytes: &'a [u8],
    most: usize,
    pub(crate) calls: u64,
    fails_at: u64,
    pub(crate) failures: u64,
}

impl<'a> Source for Pieces<'a> {
    ghost failures = { λ s. s.failures };

    ghost gives = { λ _ _ _. Unit {0} };

    ghost has_ended = { λ _. Unit {0} };

    fn receive(&mut self, into: &mut [u8]) -> Result<usize, LinkFault> {
        self.calls = self.calls.saturating_add(1);
        if self.calls == self.fails_at {
            self.failures = self.failures.saturating_add(1);
            return Err(LinkFault);
        }
        let count = self.bytes.len().min(into.len()).min(self.most);
        let (piece, rest) = self.bytes.split_at(count);
        into.split_at_mut(count).0.copy_from_slice(piece);
        self.bytes = rest;
        Ok(count)
    }
}

/// Text that is taken seven bytes at a time, and fails once.
#[derive(Drop)]
pub(crate) struct Paper {
    pub(crate) text: Vec<u8>,
    pub(crate) calls: u64,
    fails_at: u64,
    pub(crate) failures: u64,
}

impl Sink for Paper {
    ghost failures = { λ s. s.failures };

    ghost takes = { λ _ _ _. Unit {0} };

    fn send(&mut self, piece: &[u8]) -> Result<usize, LinkFault> {
        self.calls = self.calls.saturating_add(1);
        let count = piece.len().min(7);
        if self.calls == self.fails_at || self.text.extend_from_slice(&piece[..count]).is_err() {
            self.failures = self.failures.saturating_add(1);
            return Err(LinkFault);
        }
        Ok(count)
    }
}

impl Paper {
    /// Whether just so many bytes of this text were taken.
    pub(crate) fn took(&self, size: usize, text: &[u8]) -> bool {
        self.text.len() == size && text.starts_with(self.text.as_slice())
    }
}

/// Bytes that come so many at a time, of which this receive fails, or none where that is 0.
pub(crate) fn source_of(bytes: &[u8], most: usize, fails_at: u64) -> Pieces<'_> {
    Pieces {
        bytes,
        most,
        calls: 0,
        fails_at,
        failures: 0,
    }
}

/// An empty sheet, of which this send fails, or none where that is 0.
pub(crate) fn sheet(alloc: Global, fails_at: u64) -> Paper {
    Paper {
        text: Vec::new(alloc),
        calls: 0,
        fails_at,
        failures: 0,
    }
}
