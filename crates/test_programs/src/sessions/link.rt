//! What a client sends over a link in memory.

use testing::MemoryLink;

/// Whether just these bytes were sent since the last time.
pub fn has_taken(line: &mut MemoryLink<'_>, bytes: &[u8]) -> bool {
    let is_same = line.taken.as_slice() == bytes;
    line.taken.clear();
    is_same
}
