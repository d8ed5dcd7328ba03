//! Where bytes come from and go to: a [`Source`] gives them, a [`Sink`] takes them.
//!
//! [`Over`] makes a source of a reader and a sink of a writer. A [`Patient`](crate::Patient) reader or writer repeats calls that were interrupted.
//! [`send_all`](crate::send_all) and [`send_out`](crate::send_out) send all of some bytes (`specs/Sending.antt`). A source or a sink counts the
//! calls that failed, so that a contract can say whether a fault is true (`specs/Link.antt`).

ghost use Rattle.std.specs.Prelude.{◌≡◌, ◌<◌, ◌≤◌, ◌↔◌, ℕ, List, [], length, Some, Ok, IfOk};
ghost use Rattle.std.specs.Prelude.{IsNone};
ghost use Rattle.std.specs.Io.KnownBytes.{Appends, Consumes, IsAtEnd};
ghost use Rattle.pg_wire.specs.Link.{Counts, HasRisen, passed_on};

use std::io::{self, ErrorKind, Read, Write};
use std::marker::Model;
use thiserror::Error;

/// A link took or gave nothing, because the device behind it failed.
#[derive(Clone, Copy, Debug, PartialEq, Eq, Error)]
#[error("the link failed")]
pub struct LinkFault;

/// A source of bytes.
pub trait Source {
    // How many calls have failed.
    ghost failures: { Self → ℕ };

    // A call may give these bytes and leave the source so. At the end, without room and where it fails it gives none.
    ghost gives: { Self → List ℕ → Self → Type 0 };

    // The last call found the end.
    ghost has_ended: { Self → Type 0 };

    /// Puts bytes at the beginning of `into`, and returns how many: at most its length. 0 is the end, unless `into` is empty. A fault gives no bytes
    /// and is counted; the source may be asked again.
    fn receive(&mut self, into: &mut [u8]) -> Result<usize, LinkFault>
        ensures bound { IfOk result (λ n. n ≤ length into.new) }
        ensures bytes { gives self.old (passed_on result into.new) self.new }
        ensures end { result ≡ Ok 0 → 0 < length into.new → has_ended self.new }
        ensures counted { Counts (failures self.old) result (failures self.new) };
}

/// A sink of bytes.
pub trait Sink {
    // How many calls have failed.
    ghost failures: { Self → ℕ };

    // A call may take these bytes and leave the sink so. Where it fails it takes none.
    ghost takes: { Self → List ℕ → Self → Type 0 };

    /// Takes bytes from the beginning of `piece`, and returns how many: at most its length, and at least 1 unless it is empty. A fault takes no bytes
    /// and is counted; the call may be made again.
    fn send(&mut self, piece: &[u8]) -> Result<usize, LinkFault>
        ensures bound { IfOk result (λ n. n ≤ length piece.now) }
        ensures some { IfOk result (λ n. 0 < length piece.now → 0 < n) }
        ensures bytes { takes self.old (passed_on result piece.now) self.new }
        ensures counted { Counts (failures self.old) result (failures self.new) };
}

/// Makes a source of a reader and a sink of a writer: one read for each `receive`, one write for each `send`. Each error is a fault, even an
/// interruption ([`Patient`](crate::Patient) tries again). So is a write that takes nothing of a piece that isn't empty.
#[derive(Debug, Drop)]
pub struct Over<T> {
    inner: T,
    failures: Failures,
}

impl<T> Model for Over<T> {
    ghost use Rattle.std.specs.Prelude.{◌≡◌, ◌↔◌, IsNone};
    ghost use Rattle.pg_wire.specs.Link.{Counted};

    ghost Value = { Counted T };

    ghost view = { λ o. record { inner = o.inner; failures = o.failures.count } };

    ghost invariant = { λ o. (o.failures.count ≡ 0) ↔ IsNone o.failures.last };
}

impl<T> Over<T> {
    /// No call has failed yet.
    pub fn new(inner: T) -> Over<T>
        ensures { result ≡ record { inner = inner; failures = 0 } }
    {
        Over {
            inner,
            failures: Failures {
                count: 0,
                last: None,
            },
        }
    }

    /// The reader or writer.
    pub fn get_ref(&self) -> &T
        ensures { result.now ≡ self.now.inner }
    {
        &self.inner
    }

    /// Gives the reader or writer back.
    pub fn into_inner(self) -> T
        ensures { result ≡ self.inner }
    {
        let Over { inner, failures: _ } = self;
        inner
    }

    /// The count of failures: it rises with each failed call, up to 2^64 - 1.
    pub fn failures(&self) -> u64
        ensures { result ≡ self.now.failures }
    {
        self.failures.count
    }

    /// The error of the last call that failed; [`ErrorKind::WriteZero`] where that was a write that took nothing. None where no call has failed.
    pub fn last_error(&self) -> Option<&io::Error>
        ensures { (self.now.failures ≡ 0) ↔ IsNone result }
    {
        self.failures.last.as_ref()
    }

    // Counts a failure.
    fn fail(&mut self, error: io::Error) -> LinkFault
        ensures inner { self.new.inner ≡ self.old.inner }
        ensures counted { HasRisen self.old.failures self.new.failures }
    {
        self.failures.add(error);
        LinkFault
    }
}

// How many calls have failed, and the error of the last of them.
#[derive(Debug, Drop)]
struct Failures {
    count: u64,
    last: Option<io::Error>,
}

impl Failures {
    fn add(&mut self, error: io::Error)
        ensures counted { HasRisen self.old.count self.new.count }
        ensures last { self.new.last ≡ Some error }
    {
        self.count = self.count.saturating_add(1);
        self.last = Some(error);
    }
}

impl<R: Read> Source for Over<R> {
    ghost failures = { λ o. o.failures };

    ghost gives = { λ o bytes p. Consumes (R.remaining o.inner) (R.remaining p.inner) bytes };

    ghost has_ended = { λ o. IsAtEnd (R.remaining o.inner) };

    fn receive(&mut self, into: &mut [u8]) -> Result<usize, LinkFault> {
        match self.inner.read(into) {
            Ok(n) => Ok(n),
            Err(error) => Err(self.fail(error)),
        }
    }
}

impl<W: Write> Sink for Over<W> {
    ghost failures = { λ o. o.failures };

    ghost takes = { λ o bytes p. Appends (W.contents o.inner) (W.contents p.inner) bytes };

    fn send(&mut self, piece: &[u8]) -> Result<usize, LinkFault> {
        match self.inner.write(piece) {
            Ok(n) if n > 0 || piece.is_empty() => Ok(n),
            Ok(_) => Err(self.fail(io::Error::from(ErrorKind::WriteZero))),
            Err(error) => Err(self.fail(error)),
        }
    }
}
