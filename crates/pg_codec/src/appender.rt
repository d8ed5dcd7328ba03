//! A buffer that is appended to, and can be put back.

ghost use Rattle.std.specs.Prelude.{◌≡◌, ◌++◌, [], OnOk, Ok, Err, MatchResult};

use crate::fault::EncodeFault;
use std::alloc::AllocError;
use std::marker::Model;
use std::mem;

/// A buffer, and the place in it where what is added begins.
#[derive(Drop)]
pub struct Appender {
    buf: Vec<u8>,
    start: usize,
}

impl Model for Appender {
    ghost use Rattle.std.specs.Prelude.{◌≤◌, take, drop, vec_len};
    ghost use Rattle.pg_codec.specs.Private.Writer.{Appended};

    ghost Value = { Appended };

    ghost view = { λ a. record {
      before = take a.start a.buf.items;
      added = drop a.start a.buf.items;
    } };

    ghost invariant = { λ a. a.start ≤ vec_len a.buf };
}

impl Appender {
    fn new(buf: Vec<u8>) -> Appender
        ensures before { result.before ≡ buf.items }
        ensures added { result.added ≡ [] }
    {
        let start = buf.len();
        Appender { buf, start }
    }

    /// Takes the buffer's bytes, to append to.
    pub fn begin(buf: &mut Vec<u8>) -> Appender
        ensures before { result.before ≡ buf.old.items }
        ensures added { result.added ≡ [] }
    {
        let alloc = *buf.allocator();
        Appender::new(mem::replace(buf, Vec::new(alloc)))
    }

    /// Appends bytes.
    pub fn put(&mut self, bytes: &[u8]) -> Result<(), AllocError>
        ensures before { self.new.before ≡ self.old.before }
        ensures added { OnOk result (self.new.added ≡ self.old.added ++ bytes.now) }
    {
        self.buf.extend_from_slice(bytes)
    }

    fn finish(self) -> Vec<u8>
        ensures { result.items ≡ self.before ++ self.added }
    {
        let Appender { buf, start: _ } = self;
        buf
    }

    fn put_back(self) -> Vec<u8>
        ensures { result.items ≡ self.before }
    {
        let Appender { mut buf, start } = self;
        buf.truncate(start);
        buf
    }

    /// Gives the buffer its bytes back, with what was added unless memory ran out.
    pub fn settle(
        self,
        buf: &mut Vec<u8>,
        written: Result<(), AllocError>,
    ) -> Result<(), EncodeFault>
        ensures { MatchResult written (λ _. (result ≡ Ok record {})
            × (buf.new.items ≡ self.before ++ self.added)) (λ _. (result ≡ Err EncodeFault.Memory)
            × (buf.new.items ≡ self.before)) }
    {
        match written {
            Ok(()) => {
                *buf = self.finish();
                Ok(())
            }
            Err(_) => {
                *buf = self.put_back();
                Err(EncodeFault::Memory)
            }
        }
    }
}
