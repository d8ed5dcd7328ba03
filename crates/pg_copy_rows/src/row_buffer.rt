//! The bytes that a reader of rows keeps. A row that was given may still stand in front of them.

ghost use Rattle.std.specs.Prelude.{◌≡◌, ◌≤◌, ◌++◌, [], None, Some, length, drop, option_copied};
ghost use Rattle.std.specs.Prelude.{OnOk, OnErr, IsOk, vec_len};
ghost use Rattle.pg_copy_rows.specs.Private.RowBuffer.{held_len};

use pg_seq::Buffer;
use std::alloc::{AllocError, Global};
use std::marker::Model;

/// Bytes that were pushed and not yet taken. Those of a row that is lent are taken, and stay in front of the others until the next
/// change.
#[derive(Drop)]
pub struct RowBuffer {
    bytes: Buffer,
    // how many bytes of a row that is lent stand in front, where one does
    held: Option<usize>,
}

impl Model for RowBuffer {
    ghost use Rattle.std.specs.Prelude.{◌≤◌, length, drop};
    ghost use Rattle.pg_copy_rows.specs.Private.RowBuffer.{RowBytes, held_len, front_of};

    ghost Value = { RowBytes };

    ghost view = { λ b. record {
      front = front_of b.held b.bytes;
      kept = drop (held_len b.held) b.bytes;
    } };

    ghost invariant = { λ b. held_len b.held ≤ length b.bytes };
}

fn held_len(held: Option<usize>) -> usize
    ensures { result ≡ held_len held }
{
    match held {
        Some(len) => len,
        None => 0,
    }
}

impl RowBuffer {
    /// A buffer without bytes. It takes no memory.
    pub fn new(alloc: Global) -> RowBuffer
        ensures { result ≡ record { front = None; kept = [] } }
    {
        RowBuffer {
            bytes: Buffer::new(alloc),
            held: None,
        }
    }

    /// The bytes from the beginning of the row that is lent; None where no row is.
    pub fn front(&self) -> Option<&[u8]>
        ensures { option_copied result ≡ self.now.front }
    {
        match self.held {
            Some(_) => Some(self.bytes.as_slice()),
            None => None,
        }
    }

    /// The bytes that aren't taken.
    pub fn kept(&self) -> &[u8]
        ensures { result.now ≡ self.now.kept }
    {
        let (_, kept) = self.bytes.as_slice().split_at(held_len(self.held));
        kept
    }

    /// Adds a piece, all of it. Where memory runs out, nothing of it is added. A piece without bytes needs no memory.
    pub fn push(&mut self, piece: &[u8]) -> Result<(), AllocError>
        ensures ok { OnOk result (self.new
            ≡ record { front = None; kept = self.old.kept ++ piece.now }) }
        ensures err { OnErr result (self.new ≡ self.old) }
        ensures nothing { piece.now ≡ [] → IsOk result }
    {
        self.bytes.push(piece)?;
        self.take(0);
        Ok(())
    }

    /// Takes the first n bytes off.
    pub fn take(&mut self, n: usize)
        requires { n ≤ length self.old.kept }
        ensures { self.new ≡ record { front = None; kept = drop n self.old.kept } }
    {
        self.bytes.take(held_len(self.held));
        self.bytes.take(n);
        self.held = None;
    }

    /// Takes all bytes off.
    pub fn clear(&mut self)
        ensures { self.new ≡ record { front = None; kept = [] } }
    {
        let len = self.bytes.len();
        self.bytes.take(len);
        self.held = None;
    }

    /// Takes off the bytes up to the end of a row, and lends the row, which begins at `start`.
    pub fn hold(&mut self, start: usize, end: usize)
        requires in_order { start ≤ end }
        requires in_range { end ≤ length self.old.kept }
        ensures { self.new
            ≡ record { front = Some (drop start self.old.kept); kept = drop end self.old.kept } }
    {
        self.bytes.take(held_len(self.held));
        self.bytes.take(start);
        self.held = Some(end - start);
    }

    /// The block that has the bytes that aren't taken, and where in it they begin. So they can be changed where they are.
    pub fn into_parts(self) -> (Vec<u8>, usize)
        ensures bytes { self.kept ≡ drop result.1 result.0.items }
        ensures in_range { result.1 ≤ vec_len result.0 }
    {
        let mut bytes = self.bytes;
        bytes.take(held_len(self.held));
        bytes.into_parts()
    }

    /// A buffer of the bytes that stand in a block from `start` on.
    pub fn of_parts(bytes: Vec<u8>, start: usize) -> RowBuffer
        requires { start ≤ vec_len bytes }
        ensures { result ≡ record { front = None; kept = drop start bytes.items } }
    {
        RowBuffer {
            bytes: Buffer::of_parts(bytes, start),
            held: None,
        }
    }
}
