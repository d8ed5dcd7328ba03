//! The two files of a loop, read: SCRIPT says what a backend answers, and CALLS what a client is made with and what happens.
//!
//! | File | Definitions in `specs/` | What it has |
//! |---|---|---|
//! | `script_file.rt` | `ScriptFile` | what each line of SCRIPT means in its place |
//! | `calls_file.rt` | `CallsFile`, `Filling` | what each line of CALLS means; the bytes of a file that it names (`Calls::fill`) |
//! | `lines.rt` | `Lines` | rows of COPY text of any width, up to the first that is refused |
//!
//! A reader of either file is one loop over both (`take_lines`), which asks of a taker of lines only what it takes a line as (`TakesLines`).
//! `pgpipe_lines` has what a line is by itself.
#![tactic(auto)]

mod calls_file;
mod lines;
mod script_file;

pub use calls_file::{CallLine, Calls, read_calls};
pub use lines::{TakesLines, take_lines};
pub use pgpipe_lines::LineFault;
pub use script_file::read_script;
