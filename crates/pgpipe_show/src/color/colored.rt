//! A sink that colours what it passes on.

ghost use Rattle.std.specs.Prelude.{◌≡◌, IfOk};
ghost use Rattle.pgpipe_show.specs.declared.color.part.LinePart.TheVariants.{Start};
ghost use Rattle.pgpipe_show.specs.Colored.{Takes};

use super::painting::{WIDEST, paint};
use super::part::LinePart;
use pg_wire::{LinkFault, Sink, send_all};
use std::marker::Model;

// How many bytes are coloured at once.
const AT_ONCE: usize = 256;

/// A sink over another sink, which gets the coloured form of the lines that come, or where it is off the very bytes. Where a call of that sink fails
/// within a piece, a beginning of the piece's coloured form was written, and nothing of the piece counts as taken.
#[derive(Debug, Drop)]
pub struct Colored<K> {
    inner: K,
    on: bool,
    // of the line that the next byte is of
    part: LinePart,
}

impl<K> Model for Colored<K> {
    ghost use Rattle.pgpipe_show.specs.Colored.{Coloring};

    ghost Value = { Coloring K };

    ghost view = { λ c. record { inner = c.inner; on = c.on; part = c.part } };
}

impl<K> Colored<K> {
    /// A sink at the beginning of a line.
    pub fn new(inner: K, on: bool) -> Colored<K>
        ensures { result ≡ record { inner = inner; on = on; part = Start } }
    {
        Colored {
            inner,
            on,
            part: LinePart::Start,
        }
    }

    /// The sink behind it.
    pub fn get_ref(&self) -> &K
        ensures { result.now ≡ self.now.inner }
    {
        &self.inner
    }
}

impl<K: Sink> Sink for Colored<K> {
    ghost failures = { λ c. K.failures c.inner };

    ghost takes = { Takes K.takes K.failures };

    fn send(&mut self, piece: &[u8]) -> Result<usize, LinkFault> {
        if !self.on {
            return self.inner.send(piece);
        }
        let count = piece.len().min(AT_ONCE);
        let mut out = [0; WIDEST * AT_ONCE];
        let (size, part) = paint(self.part, &piece[..count], &mut out);
        match send_all(&out[..size], &mut self.inner) {
            Ok(()) => {
                self.part = part;
                Ok(count)
            }
            Err(fault) => Err(fault),
        }
    }
}
