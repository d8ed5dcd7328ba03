//! The row that a line of a text file spells.

ghost use Rattle.std.specs.Prelude.{◌≡◌, ◌<◌, ◌+◌, length};
ghost use Rattle.pg_copy_text.specs.Text.{fits_width};
ghost use Rattle.pg_copy_text.specs.TextOptions.{AreOptions};
ghost use Rattle.pg_copy_text.specs.Private.Units.{IsCounted, IsFieldEnd};
ghost use Rattle.pg_copy_text.specs.Private.TextLine.{IsJudged};

use crate::format::END_MARK;
use crate::plain::{is_plain, plain_end};
use crate::scan::Scan;
use crate::text_options::TextOptions;
use pg_copy_rows::TextFault;
use pg_copy_rows::format::MOST_FIELDS;

/// What a line is found to be.
#[derive(Debug, Drop)]
pub enum JudgedLine {
    /// The end mark.
    EndMark,
    /// A row of so many fields.
    Row(usize),
    Faulty(TextFault),
}

fn fits_width(columns: Option<u16>, count: usize) -> bool
    ensures { result ≡ fits_width columns count }
{
    match columns {
        None => count <= MOST_FIELDS,
        Some(columns) => count == usize::from(columns),
    }
}

/// Judges a line that was walked over.
pub fn judge(options: &TextOptions, columns: Option<u16>, line: &[u8], scan: Scan) -> JudgedLine
    requires options { AreOptions options.now }
    requires counted { IsCounted options.now.delimiter line.now scan }
    requires whole { scan.at ≡ length line.now }
    ensures { IsJudged options.now columns line.now result }
{
    if line == END_MARK.as_slice() {
        return JudgedLine::EndMark;
    }
    if scan.returned {
        return JudgedLine::Faulty(TextFault::RawReturn);
    }
    if scan.newlined {
        return JudgedLine::Faulty(TextFault::RawNewline);
    }
    if scan.escaped {
        return JudgedLine::Faulty(TextFault::LoneBackslash);
    }
    let count = scan.delimiters + 1;
    if fits_width(columns, count) {
        JudgedLine::Row(count)
    } else {
        JudgedLine::Faulty(TextFault::Columns(count))
    }
}

/// Where a field ends.
#[derive(Clone, Copy, Debug, Drop)]
pub struct FieldEnd {
    pub len: usize,
    /// Whether no delimiter stands after it.
    pub last: bool,
}

/// Where the field at the front of a line's rest ends.
#[inline(always)]
pub fn field_end(rest: &[u8], delimiter: u8) -> FieldEnd
    ensures { IsFieldEnd delimiter rest.now result }
{
    let mut at = 0;
    while at < rest.len() {
        let byte = rest[at];
        if byte == delimiter {
            return FieldEnd {
                len: at,
                last: false,
            };
        }
        if byte == b'\\' {
            // with the byte after it
            at += 2;
        } else if is_plain(byte, delimiter) {
            at = plain_end(rest, at + 1, delimiter);
        } else {
            at += 1;
        }
    }
    FieldEnd {
        len: rest.len(),
        last: true,
    }
}
