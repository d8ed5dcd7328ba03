//! The coloured form of a piece, in an array.

ghost use Rattle.std.specs.Prelude.{◌≡◌, ◌≤◌, ◌+◌, ◌*◌, ◌++◌, length, take};
ghost use Rattle.pgpipe_show.specs.ColoredPart.{colored, part_after};
ghost use Rattle.pgpipe_show.specs.declared.color.painting.TheConstants.{WIDEST};

use super::part::LinePart;

/// The most bytes that a byte comes to, with its escape.
pub const WIDEST: usize = 10;

// Puts bytes at a place, and returns the place after them.
fn put(out: &mut [u8], at: usize, bytes: &[u8]) -> usize
    requires { at + length bytes.now ≤ length out.old }
    ensures place { result ≡ at + length bytes.now }
    ensures size { length out.new ≡ length out.old }
    ensures bytes { take (at + length bytes.now) out.new ≡ take at out.old ++ bytes.now }
{
    let end = at + bytes.len();
    out[at..end].copy_from_slice(bytes);
    end
}

/// Puts the coloured form of a piece at the beginning of `out`. Returns how many bytes it has, and the part after the piece.
pub fn paint(part: LinePart, piece: &[u8], out: &mut [u8]) -> (usize, LinePart)
    requires { WIDEST * length piece.now ≤ length out.old }
    ensures within { result.0 ≤ length out.new }
    ensures colored { take result.0 out.new ≡ colored part piece.now }
    ensures part { result.1 ≡ part_after part piece.now }
{
    let mut at = 0;
    let mut part = part;
    for byte in piece {
        at = put(out, at, part.escape(*byte));
        at = put(out, at, &[*byte]);
        part = part.next(*byte);
    }
    (at, part)
}
