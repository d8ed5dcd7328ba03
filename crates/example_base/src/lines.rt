//! Lines of text, as bytes.

ghost use Rattle.std.specs.Prelude.{◌≡◌, ◌++◌, codes, OnOk, option_copied};
ghost use Rattle.example_base.specs.Lines.{error_line, names_line, row_line, value_text};

use pg_wire::{Column, Fields, LentValues};
use std::alloc::AllocError;

// Appends a value: its bytes, and nothing for a null.
fn put_value(value: Option<&[u8]>, text: &mut Vec<u8>) -> Result<(), AllocError>
    ensures { OnOk result (text.new.items
        ≡ text.old.items ++ value_text (option_copied value.entry)) }
{
    match value {
        Some(bytes) => text.extend_from_slice(bytes),
        None => Ok(()),
    }
}

// Appends a bar, and a value after it.
fn put_barred(value: Option<&[u8]>, text: &mut Vec<u8>) -> Result<(), AllocError>
    ensures { OnOk result (text.new.items ≡ text.old.items ++ codes "|"
        ++ value_text (option_copied value.entry)) }
{
    text.push(b'|')?;
    put_value(value, text)
}

/// Appends the names of the columns in a line, with a bar between two. Where memory runs out, a part of it may have been appended. So it is with each
/// function of this file.
pub fn put_names(columns: &[Column], text: &mut Vec<u8>) -> Result<(), AllocError>
    ensures { OnOk result (text.new.items ≡ text.old.items ++ names_line columns.now) }
{
    let mut names = columns.iter();
    if let Some(first) = names.next() {
        text.extend_from_slice(first.name.as_slice())?;
    }
    'names: for column in names {
        put_barred(Some(column.name.as_slice()), text)?;
    }
    Ok(text.push(b'\n')?)
}

/// Appends the values of a row in a line, with a bar between two, and nothing for a null. A row without values has no line.
pub fn put_row(row: LentValues<'_>, text: &mut Vec<u8>) -> Result<(), AllocError>
    ensures { OnOk result (text.new.items ≡ text.old.items ++ row_line row.entry) }
{
    let mut values = row;
    let Some(first) = values.next() else {
        return Ok(());
    };
    put_value(first, text)?;
    'values: for value in values {
        put_barred(value, text)?;
    }
    Ok(text.push(b'\n')?)
}

/// Appends the line of an error or a notice: its severity, its code and its message.
pub fn put_error(fields: &Fields, text: &mut Vec<u8>) -> Result<(), AllocError>
    ensures { OnOk result (text.new.items ≡ text.old.items ++ error_line fields.now) }
{
    put_value(fields.severity(), text)?;
    text.extend_from_slice(b":  ")?;
    put_value(fields.code(), text)?;
    text.extend_from_slice(b": ")?;
    put_value(fields.message(), text)?;
    Ok(text.push(b'\n')?)
}
