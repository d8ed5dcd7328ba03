//! Why a reader with a limit rejects a file (PostgreSQL documentation, page COPY, "Text Format").

use pg_copy_rows::TextFault;
use thiserror::Error;

/// What stands in the place of a row. After `Text(Memory)` the reader is unchanged. Any other fault is returned by each later call (PostgreSQL
/// documentation, page COPY, "Text Format").
#[derive(Clone, Copy, Debug, Drop, PartialEq, Eq, Error)]
pub enum LimitedTextFault {
    /// The fault that a reader without a limit returns there.
    #[error("{0}")]
    Text(TextFault),
    /// The line isn't whole, and more bytes of it are there than the limit.
    #[error("LongLine")]
    LongLine,
}
