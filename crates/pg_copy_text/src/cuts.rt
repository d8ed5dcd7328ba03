//! Where the fields of a line end, and their texts.
//!
//! A cut is the place behind a field and the delimiter after it, or behind the line and one byte more. While a line is walked over its cuts are noted.
//! Before its row is lent each text is put where its field stands, or nearer to the line's beginning, with a byte after it, and the cuts tell where the
//! texts end. A null takes no byte, so two cuts are one there.

ghost use Rattle.std.specs.Prelude.{◌≡◌, ◌≢◌, ◌≤◌, ◌+◌, ◌-◌, ◌++◌, ℕ, List, length, take, drop};
ghost use Rattle.std.specs.Prelude.{true, false, OnOk, OnErr, IfOk};
ghost use Rattle.std.specs.List.{between};
ghost use Rattle.pg_copy_text.specs.Text.{text_after};
ghost use Rattle.pg_copy_text.specs.TextOptions.{AreOptions};
ghost use Rattle.pg_copy_text.specs.Private.Units.{units, NoBackslash, has_backslash};
ghost use Rattle.pg_copy_rows.specs.Private.Cuts.{AreTexts};
ghost use Rattle.pg_copy_text.specs.Private.Cuts.{cuts_of, line_cuts, AreNoted, NotesCut};
ghost use Rattle.pg_copy_text.specs.Private.TextRow.{line_values};

use crate::plain::{may_have_backslash, plain_end};
use crate::text_field::escape_at;
use crate::text_line::field_end;
use crate::text_options::TextOptions;
use pg_copy_rows::Row;
use pg_copy_rows::format::MOST_FIELDS;
use pg_copy_rows::row::row_by;
use std::alloc::{AllocError, Global};

/// Notes the cut at the end of a field that is walked over, after so many delimiters, where all cuts before it are noted and it may be one of a row.
/// Where memory runs out it isn't noted, and is found again once the line is whole.
pub fn note_cut(cut: usize, delimiters: usize, cuts: &mut Vec<usize>)
    ensures { NotesCut cut delimiters cuts.old.items cuts.new.items }
{
    if cuts.len() == delimiters && delimiters < MOST_FIELDS {
        match cuts.push(cut) {
            Ok(()) | Err(_) => {}
        }
    }
}

// Notes all cuts of a line but the last.
fn note_all(line: &[u8], delimiter: u8, cuts: &mut Vec<usize>) -> Result<(), AllocError>
    requires { delimiter ≢ 92 }
    ensures ok { OnOk result (cuts.new.items ≡ cuts_of delimiter line.now) }
    ensures err { OnErr result (AreNoted delimiter line.now cuts.new.items) }
{
    cuts.clear();
    let mut start = 0;
    let mut end = field_end(line, delimiter);
    while !end.last {
        start += end.len + 1;
        cuts.push(start)?;
        end = field_end(&line[start..], delimiter);
    }
    Ok(())
}

/// Notes what is missing of the cuts of a line with so many delimiters. Where memory runs out, some may be missing still.
pub fn finish_cuts(
    line: &[u8],
    delimiters: usize,
    options: &TextOptions,
    cuts: &mut Vec<usize>,
) -> Result<(), AllocError>
    requires counted { units options.now.delimiter line.now ≡ delimiters }
    requires noted { (more : List ℕ)
        × AreNoted options.now.delimiter (line.now ++ more) cuts.old.items }
    ensures ok { OnOk result (cuts.new.items ≡ line_cuts options.now.delimiter line.now) }
    ensures err { OnErr result (AreNoted options.now.delimiter line.now cuts.new.items) }
    ensures options { AreOptions options.now }
{
    let delimiter = options.delimiter();
    cuts.truncate(delimiters);
    if cuts.len() < delimiters {
        note_all(line, delimiter, cuts)?;
    }
    cuts.push(line.len() + 1)?;
    Ok(())
}

/// Whether a field of a line may have another value than its own bytes.
pub fn may_differ(line: &[u8], options: &TextOptions) -> bool
    ensures plain { result ≡ false → NoBackslash line.now }
    ensures no_null { result ≡ false → has_backslash options.now.null_mark ≡ true }
{
    match options.null_mark() {
        [b'\\', ..] => may_have_backslash(line),
        _ => true,
    }
}

// Moves bytes nearer to the line's beginning.
#[inline(always)]
fn move_bytes(line: &mut [u8], from: usize, end: usize, to: usize)
    requires in_order { to ≤ from }
    requires some { from ≤ end }
    requires in_range { end ≤ length line.old }
    ensures moved { take (to + (end - from)) line.new
        ≡ take to line.old ++ between from end line.old }
    ensures rest { drop end line.new ≡ drop end line.old }
    ensures len { length line.new ≡ length line.old }
{
    if to == from {
        return;
    }
    // between two escapes there is often one byte
    if end - from == 1 {
        line[to] = line[from];
    } else {
        line.copy_within(from..end, to);
    }
}

// Writes the text of a field to a place that isn't behind its first byte, and returns where it ends.
fn put_text(line: &mut [u8], start: usize, end: usize, to: usize) -> usize
    requires place { to ≤ start }
    requires in_order { start ≤ end }
    requires in_range { end ≤ length line.old }
    ensures text { take result line.new
        ≡ take to line.old ++ text_after 0 (between start end line.old) }
    ensures rest { drop end line.new ≡ drop end line.old }
    ensures from { to ≤ result }
    ensures up_to { result ≤ end }
    ensures len { length line.new ≡ length line.old }
{
    let mut at = start;
    let mut put = to;
    while at < end {
        if line[at] == b'\\' {
            let (byte, len) = escape_at(&line[at + 1..end]);
            line[put] = byte;
            put += 1;
            at += 1 + len;
        } else {
            let next = plain_end(&line[..end], at + 1, b'\\');
            move_bytes(line, at, next, put);
            put += next - at;
            at = next;
        }
    }
    put
}

/// Puts the texts of a line's fields where the fields stand, or nearer to the line's beginning, and lets the cuts tell where they end.
pub fn put_texts(line: &mut [u8], cuts: &mut [usize], options: &TextOptions)
    requires options { AreOptions options.now }
    requires cuts { cuts.old ≡ line_cuts options.now.delimiter line.old }
    ensures texts { AreTexts (line_values options.now line.old) cuts.new line.new }
    ensures len { length line.new ≡ length line.old }
    ensures count { length cuts.new ≡ length cuts.old }
{
    let mark = options.null_mark();
    let mut start = 0;
    let mut put = 0;
    for i in 0..cuts.len() {
        let cut = cuts[i];
        if &line[start..cut - 1] != mark {
            put = put_text(line, start, cut - 1, put) + 1;
        }
        cuts[i] = put;
        start = cut;
    }
}

/// The row of a line with these cuts.
pub fn row_of(
    alloc: Global,
    line: &[u8],
    cuts: &[usize],
    options: &TextOptions,
) -> Result<Row, AllocError>
    requires options { AreOptions options.now }
    requires cuts { cuts.now ≡ line_cuts options.now.delimiter line.now }
    ensures { IfOk result (λ row. row ≡ line_values options.now line.now) }
{
    let mut bytes = Vec::from_slice(alloc, line)?;
    let mut cuts = Vec::from_slice(alloc, cuts)?;
    if may_differ(line, options) {
        put_texts(bytes.as_mut_slice(), cuts.as_mut_slice(), options);
    }
    Ok(row_by(bytes, cuts))
}
