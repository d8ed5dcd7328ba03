//! Comments in the files of a loop.

ghost use Rattle.std.specs.Prelude.{◌≡◌, ◌++◌, ◌∷◌, [], true, false, IfOk, OnOk};
ghost use Rattle.pgpipe_lines.specs.Comments.{after, after_in_line, ends_line, left_of};
ghost use Rattle.pgpipe_lines.specs.Comments.{uncommented};

use std::alloc::{AllocError, Global};

/// Where a byte of a file with comments stands.
#[derive(Clone, Copy)]
pub enum BytePlace {
    /// At the beginning of a line.
    Start,
    /// In a line that is no comment.
    Line,
    /// After a backslash in such a line.
    Escaped,
    /// In a comment.
    Comment,
}

fn ends_line(byte: u8) -> bool
    ensures { result ≡ ends_line byte }
{
    byte == b'\n' || byte == b'\r'
}

// Where the byte after this one stands, in a line that is no comment.
fn after_in_line(byte: u8) -> BytePlace
    ensures { result ≡ after_in_line byte }
{
    if ends_line(byte) {
        return BytePlace::Start;
    }
    if byte == b'\\' {
        return BytePlace::Escaped;
    }
    BytePlace::Line
}

// Where the byte after this one stands.
fn after(place: BytePlace, byte: u8) -> BytePlace
    ensures { result ≡ after place byte }
{
    match place {
        BytePlace::Start if byte == b'#' => BytePlace::Comment,
        BytePlace::Start | BytePlace::Line => after_in_line(byte),
        BytePlace::Escaped => BytePlace::Line,
        BytePlace::Comment if ends_line(byte) => BytePlace::Start,
        BytePlace::Comment => BytePlace::Comment,
    }
}

// Whether a byte that stands there is left. In a comment only the byte that ends its line is.
fn is_left(place: BytePlace, byte: u8) -> bool
    ensures yes { result ≡ true → left_of place byte ≡ byte ∷ [] }
    ensures no { result ≡ false → left_of place byte ≡ [] }
{
    match place {
        BytePlace::Start => byte != b'#',
        BytePlace::Line | BytePlace::Escaped => true,
        BytePlace::Comment => ends_line(byte),
    }
}

// Appends what is left of a byte that stands there.
fn put_left(place: BytePlace, byte: u8, text: &mut Vec<u8>) -> Result<(), AllocError>
    ensures { OnOk result (text.new.items ≡ text.old.items ++ left_of place byte) }
{
    if is_left(place, byte) {
        text.push(byte)?;
    }
    Ok(())
}

/// The bytes of a file in which each line that begins with `#` is made an empty line. In such a line a backslash escapes nothing.
pub fn without_comments(alloc: Global, bytes: &[u8]) -> Result<Vec<u8>, AllocError>
    ensures { IfOk result (λ text. text.items ≡ uncommented bytes.now) }
{
    let mut text = Vec::with_capacity(alloc, bytes.len())?;
    let mut place = BytePlace::Start;
    for byte in bytes {
        put_left(place, *byte, &mut text)?;
        place = after(place, *byte);
    }
    Ok(text)
}
