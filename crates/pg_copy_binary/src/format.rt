//! The bytes and numbers that a binary file has for its structure.

/// The bytes that a binary file begins with.
pub const SIGNATURE: [u8; 11] = *b"PGCOPY\n\xFF\r\n\0";

/// The number of fields that stands in the trailer: -1.
pub const TRAILER: u16 = 0xFFFF;

/// The length that stands for a null: -1.
pub const NULL: u32 = 0xFFFF_FFFF;

/// The longest value that its length can say. An extension of a head is at most so long too.
pub const LONGEST_VALUE: u32 = 2_147_483_647;
