//! The lines of a client that is served by a backend: those of a turn, and that of the port.

ghost use Rattle.std.specs.Prelude.{◌≡◌, [], ◌∷◌, IfOk};
ghost use Rattle.pgpipe_loop.specs.Lines.{decided_rows, port_row, text_lines};

use super::buffer::LineBuffer;
use super::event::put_answer;
use super::lists::put_all_lines;
use pg_backend::Logged;
use pg_pair::Applied;
use std::alloc::{AllocError, Global};

/// The lines of what a backend decided and returned in one turn, as COPY text. They are these new entries of its log, as the groups that its client
/// sees settled, and what it returned, if that is a fault.
pub fn turn_lines(
    alloc: Global,
    decided: &[Logged],
    answer: &Applied,
) -> Result<Vec<u8>, AllocError>
    ensures { IfOk result (λ text. text.items
        ≡ text_lines (decided_rows decided.now answer.now)) }
{
    let mut lines = LineBuffer::new(alloc);
    put_all_lines(decided, &mut lines)?;
    put_answer(answer, &mut lines)?;
    Ok(lines.into_text())
}

/// The line of the port on which clients are awaited, as COPY text.
pub fn port_line(alloc: Global, port: u16) -> Result<Vec<u8>, AllocError>
    ensures { IfOk result (λ text. text.items ≡ text_lines (port_row port ∷ [])) }
{
    let mut lines = LineBuffer::new(alloc);
    lines.put_text(b"port")?;
    lines.put_count(usize::from(port))?;
    lines.end()?;
    Ok(lines.into_text())
}
