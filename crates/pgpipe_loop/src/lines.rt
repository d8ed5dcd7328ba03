//! The lines of what happens in a loop, as COPY text.

mod buffer;
mod event;
mod lists;
mod served;
mod settled;
mod short;
mod trace;

pub use buffer::{LineBuffer, PutsLine};
pub use event::{closing_lines, event_lines, put_phases};
pub use lists::put_each_line;
pub use served::{port_line, turn_lines};
pub use trace::{event_line, put_reached, put_sent};
