//! Where a frame begins.

ghost use Rattle.std.specs.Prelude.{◌≡◌};
ghost use Rattle.pgpipe_show.specs.FramePlace.{first_place, place_after, place_past_byte};

/// Where a frame of a stream begins. No number passes 2^64 - 1.
#[derive(Clone, Copy)]
pub struct FramePlace {
    /// Its number among the frames of its stream, counted from 1.
    pub number: u64,
    /// How many bytes of the stream stand before it.
    pub offset: u64,
}

impl FramePlace {
    /// Where the first frame begins.
    pub fn first() -> FramePlace
        ensures { result ≡ first_place }
    {
        FramePlace {
            number: 1,
            offset: 0,
        }
    }

    /// Where the next frame begins, after this one of so many bytes.
    pub fn after(self, size: usize) -> FramePlace
        ensures { result ≡ place_after size self }
    {
        FramePlace {
            number: self.number.saturating_add(1),
            offset: self.offset.saturating_add(size as u64),
        }
    }

    /// Where the same frame begins, after one more byte of no frame.
    pub fn past_byte(self) -> FramePlace
        ensures { result ≡ place_past_byte self }
    {
        FramePlace {
            number: self.number,
            offset: self.offset.saturating_add(1),
        }
    }
}
