//! What the fields of an error or a notice are shown as.

ghost use Rattle.std.specs.Prelude.{◌≡◌, ◌++◌, option_copied, OnOk};
ghost use Rattle.std.specs.List.{flat_map};
ghost use Rattle.pgpipe_texts.specs.Fields.{field_name, fields_text, first_field, further_field};
ghost use Rattle.pgpipe_texts.specs.Fields.{stands_first};

use crate::text::{Readable, put_byte, put_quoted, put_whole};
use pg_wire::Fields;
use std::alloc::AllocError;

fn stands_first(code: u8) -> bool
    ensures { result ≡ stands_first code }
{
    code == b'S' || code == b'V' || code == b'C' || code == b'M'
}

// Appends the name of a field.
#[tactic(auto, unfolding(crate::specs::Fields::field_name))]
fn put_field_name(code: u8, line: &mut Vec<u8>) -> Result<(), AllocError>
    ensures { OnOk result (line.new.items ≡ line.old.items ++ field_name code) }
{
    match code {
        b'D' => line.extend_from_slice(b"detail"),
        b'H' => line.extend_from_slice(b"hint"),
        b'P' => line.extend_from_slice(b"position"),
        b'p' => line.extend_from_slice(b"internal position"),
        b'q' => line.extend_from_slice(b"internal query"),
        b'W' => line.extend_from_slice(b"where"),
        b's' => line.extend_from_slice(b"schema"),
        b't' => line.extend_from_slice(b"table"),
        b'c' => line.extend_from_slice(b"column"),
        b'd' => line.extend_from_slice(b"type"),
        b'n' => line.extend_from_slice(b"constraint"),
        b'F' => line.extend_from_slice(b"file"),
        b'L' => line.extend_from_slice(b"line"),
        b'R' => line.extend_from_slice(b"routine"),
        _ => put_byte(code, b'\\', false, line),
    }
}

// Appends a field, unless it stands first.
#[tactic(auto, unfolding(crate::specs::Fields::further_field))]
fn put_further(code: u8, text: &[u8], line: &mut Vec<u8>) -> Result<(), AllocError>
    ensures { OnOk result (line.new.items
        ≡ line.old.items ++ further_field (record { code = code; value = text.now })) }
{
    if stands_first(code) {
        return Ok(());
    }
    line.extend_from_slice(b", ")?;
    put_field_name(code, line)?;
    line.extend_from_slice(b" ")?;
    put_quoted(text, line)
}

// Appends a text that stands first.
fn put_first(text: Option<&[u8]>, line: &mut Vec<u8>) -> Result<(), AllocError>
    ensures { OnOk result (line.new.items
        ≡ line.old.items ++ first_field (option_copied text.entry)) }
{
    match text {
        None => line.extend_from_slice(b"-"),
        Some(text) => put_whole(text, line),
    }
}

// Appends the fields that don't stand first.
fn put_all_further(fields: &Fields, line: &mut Vec<u8>) -> Result<(), AllocError>
    ensures { OnOk result (line.new.items ≡ line.old.items ++ flat_map further_field fields.now) }
{
    'fields: for field in fields.iter() {
        put_further(field.0, field.1, line)?;
    }
    Ok(())
}

impl Readable for Fields {
    ghost text = { fields_text };

    #[tactic(auto, unfolding(crate::specs::Fields::fields_text))]
    fn put(&self, line: &mut Vec<u8>) -> Result<(), AllocError> {
        put_first(self.severity(), line)?;
        line.extend_from_slice(b" ")?;
        put_first(self.code(), line)?;
        line.extend_from_slice(b" ")?;
        put_first(self.message(), line)?;
        put_all_further(self, line)
    }
}
