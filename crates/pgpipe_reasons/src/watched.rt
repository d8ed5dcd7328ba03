//! A source that is watched: how far it is may be told on standard error.

ghost use Rattle.std.specs.Prelude.{◌≡◌};

use pg_wire::{LinkFault, Source};
use pgpipe_explain::{Tracked, TrackedKind, Tracker};
use std::time::{Clock, Duration, Instant};

// How many milliseconds no further line is printed after one.
const PAUSE: u64 = 250;

/// What a tracker follows.
pub trait Followed {
    /// The tracker, after all that came.
    fn tracker(&self) -> Tracker;
}

impl<S> Followed for Tracked<S> {
    fn tracker(&self) -> Tracker {
        Tracked::tracker(self)
    }
}

/// A tracked source that prints how far it is, if it is asked to: after a piece was received, and at most four times a second. It passes on all that
/// the source gives.
#[derive(Drop)]
pub struct Watched<'a, R, T> {
    rt: &'a R,
    inner: T,
    kind: TrackedKind,
    is_told: bool,
    last: Option<Instant>,
}

impl<'a, R, T> Watched<'a, R, T> {
    /// Nothing was received yet.
    pub fn new(rt: &'a R, inner: T, kind: TrackedKind, is_told: bool) -> Watched<'a, R, T>
        ensures { result.inner ≡ inner }
    {
        Watched {
            rt,
            inner,
            kind,
            is_told,
            last: None,
        }
    }

    /// The tracked source.
    pub fn get_ref(&self) -> &T
        ensures { result.now ≡ self.now.inner }
    {
        &self.inner
    }
}

impl<R: Clock + Eprint, T: Followed> Watched<'_, R, T> {
    // Whether a line may be printed now. If so, the pause begins.
    fn may_tell(&mut self) -> bool
        ensures { self.new.inner ≡ self.old.inner }
    {
        let Ok(now) = Instant::now(self.rt) else {
            return false;
        };
        if let Some(last) = self.last {
            match now.checked_duration_since(last) {
                Some(passed) if passed >= Duration::from_millis(PAUSE) => {}
                _ => return false,
            }
        }
        self.last = Some(now);
        true
    }

    // Tells how far the source is.
    fn tell(&self) {
        let tracker = self.inner.tracker();
        let (bytes, whole) = (tracker.read, tracker.place.number.saturating_sub(1));
        let parts = match self.kind {
            TrackedKind::Back | TrackedKind::Front => "messages",
            TrackedKind::Text | TrackedKind::Binary => "rows",
        };
        // where this can't be written, the work goes on
        let _ = eprintln!(self.rt; "pgpipe: {parts} {whole}, bytes {bytes}");
    }

    // Takes note that a piece was received.
    fn note(&mut self)
        ensures { self.new.inner ≡ self.old.inner }
    {
        if self.is_told && self.may_tell() {
            self.tell();
        }
    }
}

impl<R: Clock + Eprint, T: Followed + Source> Source for Watched<'_, R, T> {
    ghost failures = { λ w. T.failures w.inner };

    ghost gives = { λ w bytes v. T.gives w.inner bytes v.inner };

    ghost has_ended = { λ w. T.has_ended w.inner };

    fn receive(&mut self, into: &mut [u8]) -> Result<usize, LinkFault> {
        match self.inner.receive(into) {
            Ok(count) => {
                self.note();
                Ok(count)
            }
            Err(fault) => Err(fault),
        }
    }
}
