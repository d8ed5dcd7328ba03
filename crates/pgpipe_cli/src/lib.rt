//! The program pgpipe without its streams: each task done, over a source, a sink, a carrier and a `FileStore`, and the status that the program ends with.
//!
//! | File | Definitions in `specs/` | What it has |
//! |---|---|---|
//! | `doing.rt`, `text_options.rt` | `Doing`, `TextOptions`, `Ending` | a task done, and how the program ends |
//! | `loop_files.rt` | `LoopFiles`, `Doing` | a loop over two files, run or broken everywhere |
//! | `serving.rt` | `Serving` | clients served from a file |
//! | `network.rt`, `listening.rt` | | the connection of a loop to itself, the port of a server: nothing is assumed of what they answer |
//!
//! `pgpipe_tasks` has the tasks and the command line that asks for them, `pgpipe_reasons` how a task fails, and why.
#![tactic(auto)]

mod doing;
mod listening;
mod loop_files;
mod network;
mod serving;
mod text_options;

pub use doing::{BothDone, do_both, do_task, exit_code, explain};
pub use listening::Listening;
pub use loop_files::{break_files, run_files};
pub use network::{TcpEnd, connect_to_itself};
pub use serving::serve_file;
