//! A source or a sink whose bytes are followed.

ghost use Rattle.std.specs.Prelude.{◌≡◌, [], IfOk};
ghost use Rattle.pgpipe_explain.specs.Tracker.{begun, place_in};
ghost use Rattle.pgpipe_explain.specs.Tracked.{followed, FollowsOn};

use crate::place::Place;
use crate::tracker::{TrackedKind, Tracker, place_in};
use pg_wire::{LinkFault, Sink, Source};
use std::alloc::Global;
use std::marker::Model;

/// A source or a sink, and where the parts of its bytes begin. It follows all that was received or sent, and has the place of each part of which the
/// last received piece has bytes.
#[derive(Drop)]
pub struct Tracked<T> {
    inner: T,
    // before the last piece
    tracker: Tracker,
    // The last piece that was received, unless memory for it ran out.
    piece: Vec<u8>,
}

impl<T> Model for Tracked<T> {
    ghost use Rattle.pgpipe_explain.specs.Tracked.{Following};

    ghost Value = { Following T };

    ghost view = { λ t. record { inner = t.inner; tracker = t.tracker; piece = t.piece.items } };
}

impl<T> Tracked<T> {
    /// A source or a sink before any byte came.
    pub fn new(alloc: Global, inner: T, kind: TrackedKind) -> Tracked<T>
        ensures { result ≡ record { inner = inner; tracker = begun kind; piece = [] } }
    {
        Tracked {
            inner,
            tracker: Tracker::new(kind),
            piece: Vec::new(alloc),
        }
    }

    /// The source or the sink.
    pub fn get_ref(&self) -> &T
        ensures { result.now ≡ self.now.inner }
    {
        &self.inner
    }

    /// The tracker, after all that came.
    pub fn tracker(&self) -> Tracker
        ensures { result ≡ followed self.now }
    {
        self.tracker.after(self.piece.as_slice())
    }

    /// Where the part of this number begins. None, unless the last piece has bytes of it.
    pub fn place(&self, number: u64) -> Option<Place>
        ensures { result ≡ place_in self.now.tracker self.now.piece number }
    {
        place_in(self.tracker, self.piece.as_slice(), number)
    }

    // Follows what came before, and keeps nothing of it.
    fn settle(&mut self)
        ensures inner { self.new.inner ≡ self.old.inner }
        ensures settled { self.new.tracker ≡ followed self.old }
        ensures nothing_kept { self.new.piece ≡ [] }
    {
        self.tracker = self.tracker.after(self.piece.as_slice());
        self.piece.clear();
    }

    // Follows bytes that were sent.
    fn follow(&mut self, bytes: &[u8])
        ensures inner { self.new.inner ≡ self.old.inner }
        ensures follows { FollowsOn self.old bytes.now self.new }
    {
        self.settle();
        self.tracker = self.tracker.after(bytes);
    }

    // Follows a piece that was received, and keeps it.
    fn keep(&mut self, piece: &[u8])
        ensures inner { self.new.inner ≡ self.old.inner }
        ensures follows { FollowsOn self.old piece.now self.new }
    {
        self.settle();
        if self.piece.extend_from_slice(piece).is_err() {
            self.tracker = self.tracker.after(piece);
        }
    }
}

impl<S: Source> Source for Tracked<S> {
    ghost failures = { λ t. S.failures t.inner };

    ghost gives = { λ t bytes u. S.gives t.inner bytes u.inner × FollowsOn t bytes u };

    ghost has_ended = { λ t. S.has_ended t.inner };

    fn receive(&mut self, into: &mut [u8]) -> Result<usize, LinkFault> {
        match self.inner.receive(into) {
            Ok(0) => Ok(0),
            Ok(count) => {
                self.keep(&into[..count]);
                Ok(count)
            }
            Err(fault) => Err(fault),
        }
    }
}

impl<K: Sink> Sink for Tracked<K> {
    ghost failures = { λ t. K.failures t.inner };

    ghost takes = { λ t bytes u. K.takes t.inner bytes u.inner × FollowsOn t bytes u };

    fn send(&mut self, piece: &[u8]) -> Result<usize, LinkFault> {
        match self.inner.send(piece) {
            Ok(count) => {
                self.follow(&piece[..count]);
                Ok(count)
            }
            Err(fault) => Err(fault),
        }
    }
}
