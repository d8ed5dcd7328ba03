//! Lists that are written element by element.

ghost use Rattle.std.specs.Prelude.{◌≡◌, map, OnOk};
ghost use Rattle.std.specs.List.{flat_map};
ghost use Rattle.pgpipe_loop.specs.Private.Lines.{with_fields, with_rows};

use super::buffer::{LineBuffer, PutsField, PutsLine, PutsLines};
use std::alloc::AllocError;

/// Puts the field of each element into the open line.
pub fn put_each_field<T: PutsField>(items: &[T], lines: &mut LineBuffer) -> Result<(), AllocError>
    ensures { OnOk result (lines.new ≡ with_fields lines.old (map T.field items.now)) }
{
    for item in items {
        item.put_field(lines)?;
    }
    Ok(())
}

/// Puts the line of each element.
pub fn put_each_line<T: PutsLine>(items: &[T], lines: &mut LineBuffer) -> Result<(), AllocError>
    ensures { OnOk result (lines.new ≡ with_rows lines.old (map T.line_row items.now)) }
{
    for item in items {
        item.put_line(lines)?;
    }
    Ok(())
}

/// Puts the lines of each element.
pub fn put_all_lines<T: PutsLines>(items: &[T], lines: &mut LineBuffer) -> Result<(), AllocError>
    ensures { OnOk result (lines.new ≡ with_rows lines.old (flat_map T.rows items.now)) }
{
    for item in items {
        item.put_lines(lines)?;
    }
    Ok(())
}
