//! The bytes that a text file has for its structure, where no options say other ones.

/// The byte that separates two fields.
pub const DELIMITER: u8 = b'\t';

/// The bytes of a null.
pub const NULL_MARK: [u8; 2] = *b"\\N";

/// The line that ends the rows.
pub const END_MARK: [u8; 2] = *b"\\.";
