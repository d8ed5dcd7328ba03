//! A line of the input: who sends the bytes, and the bytes in hexadecimal. Spaces part them as one likes, and `#` begins a
//! comment.

ghost use Rattle.std.specs.Prelude.{◌≡◌, Ok, IfOk};
ghost use Rattle.std.specs.List.{filter};
ghost use Rattle.hex.specs.Hex.{decode_of};
ghost use Rattle.test_programs.specs.Vector.{is_no_space};

use hex::FromHexError;
use std::alloc::Global;
use thiserror::Error;

/// Who sends the bytes of a vector.
#[derive(Clone, Copy, Debug)]
pub enum Side {
    Back,
    Front,
    /// The frontend, before its messages have tags.
    First,
}

/// The bytes of one message of one side, or what stands in its place.
#[derive(Debug, Drop)]
pub struct Vector {
    pub side: Side,
    pub bytes: Vec<u8>,
}

/// Why a line holds no vector.
#[derive(Debug, Drop, Error)]
pub enum VectorFault {
    #[error("a vector begins with back, front or first")]
    NoSide,
    #[error("{0}")]
    NoBytes(FromHexError),
}

// The bytes that are written in hexadecimal, with any spaces.
fn bytes_of(alloc: Global, text: &str) -> Result<Vec<u8>, FromHexError>
    ensures { IfOk result (λ bytes. decode_of (filter is_no_space text.now) ≡ Ok bytes.items) }
{
    let digits: Vec<u8> = text
        .as_bytes()
        .iter()
        .copied()
        .filter(|c| *c != b' ')
        .collect(alloc)?;
    hex::decode(alloc, digits)
}

// The text before the comment, if there is one.
fn without_comment(line: &str) -> &str {
    match line.split_once('#') {
        Some((text, _)) => text.trim(),
        None => line.trim(),
    }
}

impl Vector {
    /// The vector of a line, or None where it has nothing but a comment.
    pub fn of_line(alloc: Global, line: &str) -> Result<Option<Vector>, VectorFault> {
        let text = without_comment(line);
        if text.is_empty() {
            return Ok(None);
        }
        let (side, digits) = if let Some(digits) = text.strip_prefix("back") {
            (Side::Back, digits)
        } else if let Some(digits) = text.strip_prefix("front") {
            (Side::Front, digits)
        } else if let Some(digits) = text.strip_prefix("first") {
            (Side::First, digits)
        } else {
            return Err(VectorFault::NoSide);
        };
        let bytes = bytes_of(alloc, digits).map_err(VectorFault::NoBytes)?;
        Ok(Some(Vector { side, bytes }))
    }
}
