//! A link that takes no memory.

use pg_wire::{LinkFault, Sink, Source};

/// A link that gives certain bytes and takes certain bytes, one at a time. It fails where others are sent.
#[derive(Drop)]
pub struct FixedLink {
    gives: &'static [u8],
    takes: &'static [u8],
    failures: u64,
}

impl FixedLink {
    /// A link that gives these bytes, and takes those.
    pub fn new(gives: &'static [u8], takes: &'static [u8]) -> FixedLink {
        FixedLink {
            gives,
            takes,
            failures: 0,
        }
    }

    /// Whether all was given and taken.
    pub fn is_done(&self) -> bool {
        self.gives.is_empty() && self.takes.is_empty()
    }
}

impl Source for FixedLink {
    ghost failures = { λ s. s.failures };

    ghost gives = { λ _ _ _. Unit {0} };

    ghost has_ended = { λ _. Unit {0} };

    fn receive(&mut self, into: &mut [u8]) -> Result<usize, LinkFault> {
        let (Some(place), Some((byte, rest))) = (into.first_mut(), self.gives.split_first()) else {
            return Ok(0);
        };
        *place = *byte;
        self.gives = rest;
        Ok(1)
    }
}

impl Sink for FixedLink {
    ghost failures = { λ s. s.failures };

    ghost takes = { λ _ _ _. Unit {0} };

    fn send(&mut self, piece: &[u8]) -> Result<usize, LinkFault> {
        let Some(byte) = piece.first() else {
            return Ok(0);
        };
        match self.takes.split_first() {
            Some((wanted, rest)) if wanted == byte => {
                self.takes = rest;
                Ok(1)
            }
            _ => {
                self.failures = self.failures.saturating_add(1);
                Err(LinkFault)
            }
        }
    }
}
