//! How much is received.

/// The most bytes that are received at once.
pub const PIECE: usize = 65_536;

/// The most calls of `receive` that one task makes: 2^40.
pub const MOST_RECEIVES: u64 = 1_099_511_627_776;
