//! Where a reader of a text file stands.

use pg_copy_rows::TextFault;

/// Where a reader of a text file stands.
#[derive(Clone, Copy, Debug, Drop, PartialEq, Eq)]
pub enum TextStage {
    /// Among the lines.
    Lines,
    /// After the end mark.
    Marked,
    /// At a fault, which is not Memory.
    Failed(TextFault),
}
