//! Reads and writes that are interrupted are made again.
ghost use Rattle.std.specs.Prelude.{◌≡◌, ℕ, Result};
ghost use Rattle.std.specs.declared.io.Error.{Error};
ghost use Rattle.pg_wire.specs.Private.Patience.{Patiently, ReadGives, WriteGives};
ghost use Rattle.pg_wire.specs.declared.patient.TheConstants.{PATIENCE};

use std::io::{self, ErrorKind, Read, Write};
use std::marker::Model;

/// How many times a [`Patient`] makes one read or write again.
pub const PATIENCE: u32 = 64;

/// A reader or writer with patience: where a read or a write is interrupted ([`ErrorKind::Interrupted`]), it is made again, up to [`PATIENCE`] times.
/// Any other result is passed on unchanged, and so is the last one, even where that was interrupted too. A flush is made once.
#[derive(Debug, Drop)]
pub struct Patient<T> {
    inner: T,
}

impl<T> Model for Patient<T> {
    ghost Value = { T };

    ghost view = { λ p. p.inner };
}

impl<T> Patient<T> {
    /// Gives patience to a reader or writer.
    pub fn new(inner: T) -> Patient<T>
        ensures { result ≡ inner }
    {
        Patient { inner }
    }

    /// The reader or writer.
    pub fn get_ref(&self) -> &T
        ensures { result.now ≡ self.now }
    {
        &self.inner
    }

    /// Gives the reader or writer back.
    pub fn into_inner(self) -> T
        ensures { result ≡ self }
    {
        let Patient { inner } = self;
        inner
    }
}

impl<R: Read> Read for Patient<R> {
    ghost remaining = { R.remaining };

    fn read(&mut self, into: &mut [u8]) -> io::Result<usize> {
        patiently(&mut ReadAttempt {
            reader: &mut self.inner,
            into,
        })
    }
}

impl<W: Write> Write for Patient<W> {
    ghost contents = { W.contents };

    fn write(&mut self, piece: &[u8]) -> io::Result<usize> {
        patiently(&mut WriteAttempt {
            writer: &mut self.inner,
            piece,
        })
    }

    fn flush(&mut self) -> io::Result<()> {
        self.inner.flush()
    }
}

// A read or a write that can be made again.
trait Attempt {
    // An attempt may give this result, and leave its state so.
    ghost gives: { Self → Result ℕ Error → Self → Type 0 };

    fn make(&mut self) -> io::Result<usize>
        ensures { gives self.old result self.new };
}

// Makes an attempt, and again where it was interrupted.
fn patiently<A: Attempt>(attempt: &mut A) -> io::Result<usize>
    ensures { Patiently A.gives PATIENCE attempt.old result attempt.new }
{
    for _ in 0..PATIENCE {
        match attempt.make() {
            Err(error) if error.kind() == ErrorKind::Interrupted => {}
            answer => return answer,
        }
    }
    attempt.make()
}

// A read into a buffer.
#[derive(Drop)]
struct ReadAttempt<'a, R> {
    reader: &'a mut R,
    into: &'a mut [u8],
}

impl<R: Read> Attempt for ReadAttempt<'_, R> {
    ghost gives = { ReadGives R.remaining };

    fn make(&mut self) -> io::Result<usize> {
        self.reader.read(self.into)
    }
}

// A write of a piece.
#[derive(Drop)]
struct WriteAttempt<'a, W> {
    writer: &'a mut W,
    piece: &'a [u8],
}

impl<W: Write> Attempt for WriteAttempt<'_, W> {
    ghost gives = { WriteGives W.contents };

    fn make(&mut self) -> io::Result<usize> {
        self.writer.write(self.piece)
    }
}
