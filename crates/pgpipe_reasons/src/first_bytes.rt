//! A source whose first bytes are kept.

ghost use Rattle.std.specs.Prelude.{◌≡◌};

use pg_wire::{LinkFault, Source};
use std::alloc::Global;

// How many of the first bytes are kept.
const FIRST: usize = 8;

/// A source whose first 8 bytes are kept. It passes on all that the source gives.
#[derive(Drop)]
pub struct FirstBytes<S> {
    inner: S,
    first: Vec<u8>,
}

impl<S> FirstBytes<S> {
    /// Nothing was received yet.
    pub fn new(alloc: Global, inner: S) -> FirstBytes<S>
        ensures { result.inner ≡ inner }
    {
        FirstBytes {
            inner,
            first: Vec::new(alloc),
        }
    }

    /// The source.
    pub fn get_ref(&self) -> &S
        ensures { result.now ≡ self.now.inner }
    {
        &self.inner
    }

    /// The first bytes of all that was received, unless memory for them ran out: at most 8.
    pub fn first(&self) -> &[u8] {
        self.first.as_slice()
    }

    // Keeps what is missing of the first bytes.
    fn keep(&mut self, piece: &[u8])
        ensures { self.new.inner ≡ self.old.inner }
    {
        let wanted = FIRST.saturating_sub(self.first.len()).min(piece.len());
        // where memory for them runs out, the stream looks like nothing
        let _ = self.first.extend_from_slice(piece.split_at(wanted).0);
    }
}

impl<S: Source> Source for FirstBytes<S> {
    ghost failures = { λ b. S.failures b.inner };

    ghost gives = { λ b bytes c. S.gives b.inner bytes c.inner };

    ghost has_ended = { λ b. S.has_ended b.inner };

    fn receive(&mut self, into: &mut [u8]) -> Result<usize, LinkFault> {
        let count = self.inner.receive(into)?;
        self.keep(&into[..count]);
        Ok(count)
    }
}
