//! A walk over the units of a line: a backslash with the byte after it, or one other byte.

ghost use Rattle.std.specs.Prelude.{◌≡◌, ◌+◌, ◌<◌, ◌≤◌, ◌^◌, length, Some, None, true, false};
ghost use Rattle.pg_copy_text.specs.declared.line_end.LineEnd.{LineEnd};
ghost use Rattle.pg_copy_text.specs.Private.Breaks.{IsFirstLine};
ghost use Rattle.pg_copy_text.specs.Text.{end_len};
ghost use Rattle.pg_copy_text.specs.Private.Units.{IsScanned, StandsAt, after};
ghost use Rattle.pg_copy_text.specs.Private.Cuts.{AreNoted};

use crate::cuts::note_cut;
use crate::line_end::{LineBreak, LineEnd, break_at, is_break};
use crate::plain::{is_plain, plain_end};

/// How far a line was walked over, and what is known of it.
#[derive(Clone, Copy, Debug, Drop, PartialEq, Eq)]
pub struct Scan {
    /// How many bytes were walked over.
    pub at: usize,
    /// Whether the last of them is a backslash that begins a unit.
    pub escaped: bool,
    /// How many units were a delimiter.
    pub delimiters: usize,
    /// Whether a unit was a carriage return.
    pub returned: bool,
    /// Whether a unit was a newline.
    pub newlined: bool,
}

impl Scan {
    pub fn start() -> Self
        ensures { result ≡ record {
          at = 0;
          escaped = false;
          delimiters = 0;
          returned = false;
          newlined = false;
        } }
    {
        Scan {
            at: 0,
            escaped: false,
            delimiters: 0,
            returned: false,
            newlined: false,
        }
    }

    /// The walk after one more byte, which doesn't end the line.
    pub fn after(self, byte: u8, delimiter: u8) -> Self
        requires few { self.delimiters ≤ self.at }
        requires room { self.at + 1 < 2 ^ 64 }
        ensures { result ≡ after delimiter self byte }
    {
        if self.escaped {
            return Scan {
                at: self.at + 1,
                escaped: false,
                delimiters: self.delimiters,
                returned: self.returned,
                newlined: self.newlined,
            };
        }
        Scan {
            at: self.at + 1,
            escaped: byte == b'\\',
            delimiters: self.delimiters + usize::from(byte == delimiter),
            returned: self.returned || byte == b'\r',
            newlined: self.newlined || byte == b'\n',
        }
    }

    /// Walks on to what ends the line, where the lines before it ended so, and returns how it ends, if it does. Notes the cuts that it comes to.
    pub fn find_end(
        &mut self,
        bytes: &[u8],
        delimiter: u8,
        before: Option<LineEnd>,
        cuts: &mut Vec<usize>,
    ) -> Option<LineEnd>
        requires scanned { IsScanned delimiter before bytes.now self.old }
        requires noted { AreNoted delimiter bytes.now cuts.old.items }
        ensures scanned { IsScanned delimiter before bytes.now self.new }
        ensures found { (e : LineEnd) → result ≡ Some e
            → IsFirstLine before bytes.now e self.new.at (self.new.at + end_len e) }
        ensures room { (e : LineEnd) → result ≡ Some e → self.new.at + end_len e < 2 ^ 64 }
        ensures none { result ≡ None → StandsAt before bytes.now self.new }
        ensures noted { AreNoted delimiter bytes.now cuts.new.items }
    {
        let mut scan = *self;
        while scan.at < bytes.len() {
            let byte = bytes[scan.at];
            if scan.escaped {
                scan = scan.after(byte, delimiter);
            } else if is_plain(byte, delimiter) {
                scan.at = plain_end(bytes, scan.at + 1, delimiter);
            } else if is_break(byte) {
                match break_at(before, &bytes[scan.at..]) {
                    LineBreak::Ends(end) => {
                        *self = scan;
                        return Some(end);
                    }
                    LineBreak::Waits => {
                        *self = scan;
                        return None;
                    }
                    LineBreak::Stays => scan = scan.after(byte, delimiter),
                }
            } else {
                if byte == delimiter {
                    note_cut(scan.at + 1, scan.delimiters, cuts);
                }
                scan = scan.after(byte, delimiter);
            }
        }
        *self = scan;
        None
    }
}
