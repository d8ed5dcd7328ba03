//! How texts are shown: escaped, in quotes, and cut at a width.

ghost use Rattle.std.specs.Prelude.{◌≡◌, ◌<◌, ◌≤◌, ◌∷◌, ◌++◌, true, false, length, take, IfOk};
ghost use Rattle.std.specs.Prelude.{OnOk};
ghost use Rattle.std.specs.Fmt.{is_char_start};
ghost use Rattle.std.specs.List.{list_all};
ghost use Rattle.std.specs.Str.{is_utf8};
ghost use Rattle.pgpipe_texts.specs.Text.{cut_mark, digits_escape, escaped, is_boundary};
ghost use Rattle.pgpipe_texts.specs.Text.{is_high_control, is_plain, listed, parted, quoted};
ghost use Rattle.pgpipe_texts.specs.Text.{shown_byte, shown_part, whole};
ghost use Rattle.pgpipe_texts.specs.Private.Parts.{PutsSome, control_end, is_unescaped};

use pg_seq::Seq;
use std::alloc::AllocError;
use std::str::from_utf8;

// The most bytes that are shown of a text in quotes.
const WIDTH: usize = 100;

/// Something that is shown as a text that a person reads.
pub trait Readable {
    ghost use Rattle.std.specs.Prelude.{ℕ, List};

    // The text that it is shown as.
    ghost text: { Self → List ℕ };

    /// Appends its text to a line.
    fn put(&self, line: &mut Vec<u8>) -> Result<(), AllocError>
        ensures { OnOk result (line.new.items ≡ line.old.items ++ text self.now) };
}

fn is_plain(byte: u8, is_utf8: bool) -> bool
    ensures { result ≡ is_plain is_utf8 byte }
{
    !byte.is_ascii_control() && (byte.is_ascii() || is_utf8)
}

/// Appends the escape of a byte by its digits.
pub fn put_digits(byte: u8, line: &mut Vec<u8>) -> Result<(), AllocError>
    ensures { OnOk result (line.new.items ≡ line.old.items ++ digits_escape byte) }
{
    let mut digits = [0; 2];
    // there is room for both digits, so this doesn't fail
    let _ = hex::encode_to_slice([byte], &mut digits);
    line.extend_from_slice(b"\\x")?;
    line.extend_from_slice(&digits)
}

/// Appends a byte as it is shown before this mark.
#[tactic(auto, unfolding(crate::specs::Text::shown_byte))]
pub fn put_byte(byte: u8, mark: u8, is_utf8: bool, line: &mut Vec<u8>) -> Result<(), AllocError>
    ensures { OnOk result (line.new.items ≡ line.old.items ++ shown_byte is_utf8 mark byte) }
{
    match byte {
        b'\t' => line.extend_from_slice(b"\\t"),
        b'\n' => line.extend_from_slice(b"\\n"),
        b'\r' => line.extend_from_slice(b"\\r"),
        _ if byte == b'\\' || byte == mark => line.extend_from_slice(&[b'\\', byte]),
        _ if is_plain(byte, is_utf8) => line.extend_from_slice(&[byte]),
        _ => put_digits(byte, line),
    }
}

fn is_utf8(bytes: &[u8]) -> bool
    ensures { result ≡ is_utf8 bytes.now }
{
    match from_utf8(bytes) {
        Ok(_) => true,
        Err(_) => false,
    }
}

// Whether two bytes, one after the other, are a control character from U+0080 to U+009F.
fn is_high_control(a: u8, b: u8) -> bool
    ensures { result ≡ is_high_control a b }
{
    a == 0xC2 && 0x80 <= b && b < 0xA0
}

// The byte with which this byte is such a character, if that stands first in these.
fn control_end(a: u8, later: &[u8]) -> Option<u8>
    ensures { result ≡ control_end a later.now }
{
    match later {
        [] => None,
        [b, ..] => if is_high_control(a, *b) {
            Some(*b)
        } else {
            None
        },
    }
}

// Whether a byte is shown as it is before this mark, whatever stands around it.
fn is_unescaped(byte: u8, utf8: bool, mark: u8) -> bool
    ensures { result ≡ is_unescaped utf8 mark byte }
{
    if byte == 0xC2 {
        return false;
    }
    if byte == b'\\' || byte == mark {
        return false;
    }
    is_plain(byte, utf8)
}

// How many bytes in front are shown so.
fn unescaped_len(bytes: &[u8], utf8: bool, mark: u8) -> usize
    ensures within { result ≤ length bytes.now }
    ensures all { list_all (is_unescaped utf8 mark) (take result bytes.now) ≡ true }
{
    for i in 0..bytes.len() {
        if !is_unescaped(bytes[i], utf8, mark) {
            return i;
        }
    }
    bytes.len()
}

// Appends the escapes of two bytes.
fn put_control(a: u8, b: u8, line: &mut Vec<u8>) -> Result<(), AllocError>
    ensures { OnOk result (line.new.items
        ≡ line.old.items ++ (digits_escape a ++ digits_escape b)) }
{
    put_digits(a, line)?;
    put_digits(b, line)
}

// Appends a byte as it is shown where these follow it, or the control character that it begins, and returns how many bytes that was.
fn put_unit(
    byte: u8,
    later: &[u8],
    utf8: bool,
    mark: u8,
    line: &mut Vec<u8>,
) -> Result<usize, AllocError>
    ensures { IfOk result (PutsSome utf8 mark (byte ∷ later.now) line.old.items line.new.items) }
{
    match control_end(byte, later) {
        Some(end) => {
            put_control(byte, end, line)?;
            Ok(2)
        }
        None => {
            put_byte(byte, mark, utf8, line)?;
            Ok(1)
        }
    }
}

// Appends the first bytes as they are shown: at once all that are shown as they are, or else one unit. It returns how many bytes that was.
fn put_some(bytes: &[u8], utf8: bool, mark: u8, line: &mut Vec<u8>) -> Result<usize, AllocError>
    requires { 0 < length bytes.now }
    ensures { IfOk result (PutsSome utf8 mark bytes.now line.old.items line.new.items) }
{
    let len = unescaped_len(bytes, utf8, mark);
    if len > 0 {
        line.extend_from_slice(bytes.split_at(len).0)?;
        return Ok(len);
    }
    match bytes.split_first() {
        Some((byte, later)) => put_unit(*byte, later, utf8, mark, line),
        None => Ok(0),
    }
}

// Appends bytes as they are shown before this mark, part by part.
fn put_parts(bytes: &[u8], mark: u8, line: &mut Vec<u8>) -> Result<(), AllocError>
    ensures { OnOk result (line.new.items ≡ line.old.items ++ escaped mark bytes.now) }
{
    let utf8 = is_utf8(bytes);
    let mut rest = bytes;
    while !rest.is_empty() {
        let count = put_some(rest, utf8, mark, line)?;
        rest = rest.split_at(count).1;
    }
    Ok(())
}

// Whether all bytes are shown as they are, even where the text isn't UTF-8.
fn are_unescaped(bytes: &[u8], mark: u8) -> bool
    ensures { result ≡ list_all (is_unescaped false mark) bytes.now }
{
    bytes.iter().all(|byte| is_unescaped(*byte, false, mark))
}

// Appends bytes as they are shown before this mark. Most texts are appended at once.
#[tactic(auto, using(crate::proofs::Texts::all_unescaped))]
fn put_escaped(bytes: &[u8], mark: u8, line: &mut Vec<u8>) -> Result<(), AllocError>
    ensures { OnOk result (line.new.items ≡ line.old.items ++ escaped mark bytes.now) }
{
    if are_unescaped(bytes, mark) {
        return line.extend_from_slice(bytes);
    }
    put_parts(bytes, mark, line)
}

/// Appends a text whole, without quotes.
pub fn put_whole(bytes: &[u8], line: &mut Vec<u8>) -> Result<(), AllocError>
    ensures { OnOk result (line.new.items ≡ line.old.items ++ whole bytes.now) }
{
    put_escaped(bytes, b'\\', line)
}

// Whether a byte is the first of a character.
fn is_char_start(byte: u8) -> bool
    ensures { result ≡ is_char_start byte }
{
    byte < 0x80 || 0xC0 <= byte
}

// Whether a text may be cut before the byte at this place.
#[tactic(auto, unfolding(crate::specs::Text::is_boundary))]
fn is_boundary(bytes: &[u8], place: usize) -> bool
    requires { place < length bytes.now }
    ensures { result ≡ is_boundary bytes.now place }
{
    place == 0 || is_char_start(bytes[place])
}

// What is shown of a text in quotes.
#[tactic(auto, using(crate::proofs::Texts::step_back, crate::proofs::Texts::at_boundary, crate::proofs::Texts::whole_shown, crate::proofs::Texts::cut_shown))]
fn shown_part(bytes: &[u8]) -> &[u8]
    ensures { result.now ≡ shown_part bytes.now }
{
    if bytes.len() <= WIDTH {
        return bytes;
    }
    let mut end = WIDTH;
    while !is_boundary(bytes, end) {
        end -= 1;
    }
    bytes.split_at(end).0
}

/// Appends a number in decimal.
pub fn put_number<I: itoa::Integer>(number: I, line: &mut Vec<u8>) -> Result<(), AllocError>
    ensures { OnOk result (line.new.items ≡ line.old.items ++ I.text number) }
{
    let mut digits = itoa::Buffer::new();
    line.extend_from_slice(digits.format(number).as_bytes())
}

// Appends how long a text is, where it was cut.
#[tactic(auto, unfolding(crate::specs::Text::cut_mark))]
fn put_cut_mark(size: usize, line: &mut Vec<u8>) -> Result<(), AllocError>
    ensures { OnOk result (line.new.items ≡ line.old.items ++ cut_mark size) }
{
    if size <= WIDTH {
        return Ok(());
    }
    line.extend_from_slice(b"... (")?;
    put_number(size, line)?;
    line.extend_from_slice(b" bytes)")
}

/// Appends a text in quotes.
#[tactic(auto, unfolding(crate::specs::Text::quoted))]
pub fn put_quoted(bytes: &[u8], line: &mut Vec<u8>) -> Result<(), AllocError>
    ensures { OnOk result (line.new.items ≡ line.old.items ++ quoted bytes.now) }
{
    line.extend_from_slice(b"'")?;
    put_escaped(shown_part(bytes), b'\'', line)?;
    line.extend_from_slice(b"'")?;
    put_cut_mark(bytes.len(), line)
}

// Appends the text of each element.
fn put_list<T: Readable>(items: &[T], line: &mut Vec<u8>) -> Result<(), AllocError>
    ensures { OnOk result (line.new.items ≡ line.old.items ++ parted T.text items.now) }
{
    let Some((first, rest)) = items.split_first() else {
        return Ok(());
    };
    first.put(line)?;
    for item in rest {
        line.extend_from_slice(b", ")?;
        item.put(line)?;
    }
    Ok(())
}

/// A list is shown in parentheses.
impl<T: Readable> Readable for Seq<T> {
    ghost text = { listed T.text };

    #[tactic(auto, unfolding(crate::specs::Text::listed))]
    fn put(&self, line: &mut Vec<u8>) -> Result<(), AllocError> {
        line.extend_from_slice(b"(")?;
        put_list(self.as_slice(), line)?;
        line.extend_from_slice(b")")
    }
}
