//! The bytes that escapes stand for.

ghost use Rattle.std.specs.Prelude.{◌≡◌, ◌≤◌, ◌<◌, ℕ, [], length, MatchOption};
ghost use Rattle.pg_copy_text.specs.Text.{letter_value, digits_at, octal_escape, hex_escape};
ghost use Rattle.pg_copy_text.specs.Text.{escape_at};
ghost use Rattle.pg_copy_text.specs.Private.Units.{LeadsWith};

// What a letter after a backslash stands for.
fn letter_value(letter: u8) -> u8
    ensures { result ≡ letter_value letter }
{
    match letter {
        b'b' => 8,
        b't' => b'\t',
        b'n' => b'\n',
        b'v' => 11,
        b'f' => 12,
        b'r' => b'\r',
        other => other,
    }
}

// The first byte as a digit of this base, if it is one.
fn leading_digit(bytes: &[u8], base: u32) -> Option<u32>
    requires low { 2 ≤ base }
    requires high { base ≤ 36 }
    ensures { MatchOption result ((n : ℕ)
        → digits_at base n bytes.now ≡ []) (LeadsWith base bytes.now) }
{
    match bytes {
        [] => None,
        [first, ..] => char::from(*first).to_digit(base),
    }
}

// The byte of 1 to 3 octal digits, and their number.
fn octal_escape(bytes: &[u8]) -> Option<(u8, usize)>
    ensures { MatchOption result (digits_at 8 3 bytes.now ≡ [])
        (λ x. (0 < x.1) × (x.1 ≡ length (digits_at 8 3 bytes.now)) × ((x.0, x.1) ≡ octal_escape (digits_at 8 3 bytes.now))) }
{
    let Some(first) = leading_digit(bytes, 8) else {
        return None;
    };
    let Some(second) = leading_digit(&bytes[1..], 8) else {
        return Some((first as u8, 1));
    };
    let Some(third) = leading_digit(&bytes[2..], 8) else {
        return Some(((first * 8 + second) as u8, 2));
    };
    Some(((((first * 8 + second) * 8 + third) % 256) as u8, 3))
}

// The byte of 1 or 2 hexadecimal digits after an x, or the x.
fn hex_escape(bytes: &[u8]) -> (u8, usize)
    ensures { (result.0, result.1) ≡ hex_escape (digits_at 16 2 bytes.now) }
{
    let Some(first) = leading_digit(bytes, 16) else {
        return (b'x', 1);
    };
    let Some(second) = leading_digit(&bytes[1..], 16) else {
        return (first as u8, 2);
    };
    ((first * 16 + second) as u8, 3)
}

/// The byte that an escape stands for, and how many bytes follow its backslash.
pub fn escape_at(bytes: &[u8]) -> (u8, usize)
    ensures value { (result.0, result.1) ≡ escape_at bytes.now }
    ensures len { result.1 ≤ length bytes.now }
{
    if let Some(found) = octal_escape(bytes) {
        return found;
    }
    match bytes {
        [] => (b'\\', 0),
        [b'x', rest @ ..] => hex_escape(rest),
        [letter, ..] => (letter_value(*letter), 1),
    }
}
