//! How bytes are cut into pieces.

use std::fmt;

/// How bytes are cut into pieces.
#[derive(Clone, Copy)]
pub enum ByteCut {
    /// In one piece.
    Nowhere,
    /// A byte at a time.
    Everywhere,
    /// In two, after so many bytes.
    At(usize),
}

impl fmt::Display for ByteCut {
    fn fmt<W: fmt::Write>(&self, f: &mut fmt::Formatter<W>) -> fmt::Result {
        match self {
            ByteCut::Nowhere => f.write_str("in one piece"),
            ByteCut::Everywhere => f.write_str("a byte at a time"),
            ByteCut::At(place) => write!(f, "cut at {place}"),
        }
    }
}

impl fmt::Debug for ByteCut {
    fn fmt<W: fmt::Write>(&self, f: &mut fmt::Formatter<W>) -> fmt::Result {
        fmt::Display::fmt(self, f)
    }
}
