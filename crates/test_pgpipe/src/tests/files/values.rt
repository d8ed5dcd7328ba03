//! What both kinds of files are read as, as tables have it, owning nothing.

use pg_wire::Seq;
use std::alloc::{AllocError, Global};
use testing::values::{pair, text};

/// A name and a value.
pub(crate) type TablePair = (&'static [u8], &'static [u8]);

/// The fields of an error, each by its code and its text.
pub(crate) type TableFields = &'static [(u8, &'static [u8])];

pub(crate) fn pairs(
    alloc: Global,
    list: &[TablePair],
) -> Result<Seq<(Seq<u8>, Seq<u8>)>, AllocError> {
    let mut pairs = Vec::new(alloc);
    for (name, value) in list {
        pairs.push(pair(alloc, *name, *value)?)?;
    }
    Ok(Seq::new(pairs))
}

pub(crate) fn optional(alloc: Global, bytes: Option<&[u8]>) -> Result<Option<Seq<u8>>, AllocError> {
    match bytes {
        Some(bytes) => Ok(Some(text(alloc, bytes)?)),
        None => Ok(None),
    }
}
