//! Where a part begins.

ghost use Rattle.std.specs.Prelude.{◌≡◌};
ghost use Rattle.pgpipe_explain.specs.Place.{next_place};

/// Where a message or a row begins. No number passes 2^64 - 1.
#[derive(Clone, Copy)]
pub struct Place {
    /// Its number among those of its stream or file, counted from 1.
    pub number: u64,
    /// The line of a text file that it begins in, counted from 1.
    pub line: u64,
    /// How many bytes stand before it.
    pub offset: u64,
}

impl Place {
    /// Where the next one begins, on this line and after so many bytes.
    pub fn next(self, line: u64, offset: u64) -> Place
        ensures { result ≡ next_place self line offset }
    {
        Place {
            number: self.number.saturating_add(1),
            line,
            offset,
        }
    }
}
