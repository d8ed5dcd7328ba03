//! Bytes that were pushed and not yet taken.

ghost use Rattle.std.specs.Prelude.{◌≡◌, ◌≤◌, ◌++◌, [], length, drop, vec_len, OnOk, OnErr, IsOk};

use std::alloc::{AllocError, Global};
use std::marker::Model;

/// A queue of bytes: they are pushed at the end, and taken at the beginning.
#[derive(Drop)]
pub struct Buffer {
    bytes: Vec<u8>,
    // where the bytes that are kept begin: what stands before was taken
    start: usize,
}

impl Model for Buffer {
    ghost use Rattle.std.specs.Prelude.{List, ℕ, ◌≤◌, drop, vec_len};

    ghost Value = { List ℕ };

    ghost view = { λ b. drop b.start b.bytes.items };

    ghost invariant = { λ b. b.start ≤ vec_len b.bytes };
}

// Takes the first n bytes off. It moves those that stay.
fn drop_first(bytes: &mut Vec<u8>, n: usize)
    requires { n ≤ vec_len bytes.old }
    ensures { bytes.new.items ≡ drop n bytes.old.items }
{
    let len = bytes.len();
    bytes.as_mut_slice().copy_within(n..len, 0);
    bytes.truncate(len - n);
}

impl Buffer {
    /// A queue without bytes. It takes no memory.
    pub fn new(alloc: Global) -> Buffer
        ensures { result ≡ [] }
    {
        Buffer {
            bytes: Vec::new(alloc),
            start: 0,
        }
    }

    /// How many bytes there are.
    pub fn len(&self) -> usize
        ensures { result ≡ length self.now }
    {
        self.bytes.len() - self.start
    }

    /// The bytes, in the order in which they were pushed.
    pub fn as_slice(&self) -> &[u8]
        ensures { result.now ≡ self.now }
    {
        &self.bytes[self.start..]
    }

    /// Adds a piece, all of it. Where memory runs out, nothing of it is added. A piece without bytes needs no memory. A byte is moved once on
    /// average, however small the pieces.
    pub fn push(&mut self, piece: &[u8]) -> Result<(), AllocError>
        ensures ok { OnOk result (self.new ≡ self.old ++ piece.now) }
        ensures err { OnErr result (self.new ≡ self.old) }
        ensures nothing { piece.now ≡ [] → IsOk result }
    {
        if piece.is_empty() {
            return Ok(());
        }
        // what was taken goes once it is the greater part, so that each byte is moved once on average
        if self.start > self.bytes.len() - self.start {
            drop_first(&mut self.bytes, self.start);
            self.start = 0;
        }
        self.bytes.extend_from_slice(piece)
    }

    /// Takes the first n bytes off, of those that are there.
    pub fn take(&mut self, n: usize)
        requires { n ≤ length self.old }
        ensures { self.new ≡ drop n self.old }
    {
        self.start += n;
    }

    /// The block that has the bytes, and where in it they begin. So they can be changed where they are.
    pub fn into_parts(self) -> (Vec<u8>, usize)
        ensures bytes { self ≡ drop result.1 result.0.items }
        ensures in_range { result.1 ≤ vec_len result.0 }
    {
        (self.bytes, self.start)
    }

    /// A queue of the bytes that stand in a block from `start` on.
    pub fn of_parts(bytes: Vec<u8>, start: usize) -> Buffer
        requires { start ≤ vec_len bytes }
        ensures { result ≡ drop start bytes.items }
    {
        Buffer { bytes, start }
    }
}
