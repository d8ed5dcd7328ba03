//! The command line of pgpipe as data, and the task that its words ask for.
//!
//! | File | Definitions in `specs/` | What it has |
//! |---|---|---|
//! | `command_line.rt`, `help.rt` | `CommandLine` | the command line, as it is built, and its texts |
//! | `tasks.rt`, `showing.rt`, `input_file.rt` | `Tasks` | the task that a command's arguments ask for |
//! | `asked.rt` | `Tasks` | what the words ask for: a task, and what is printed about it |
#![tactic(auto)]

mod asked;
mod command_line;
mod help;
mod input_file;
mod showing;
mod tasks;

pub use asked::{Asked, Telling, asked_of};
pub use showing::Showing;
pub use tasks::{Conversion, LoopTask, ServeTask, Task};
