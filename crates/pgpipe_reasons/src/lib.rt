//! How pgpipe fails, with which status, and why: what it tells of a task beside its output.
//!
//! | File | Definitions in `specs/` | What it has |
//! |---|---|---|
//! | `failure.rt` | `Failure` | how the program ends, with its status |
//! | `explaining.rt`, `reason.rt` | `Subject`, `Explaining` | with `--explain` why a task failed |
//! | `files.rt`, `noted_files.rt` | | the disk, and a note of what came of the last file that was read: nothing is assumed of what the disk answers |
//! | `first_bytes.rt` | | a source whose first 8 bytes are kept, for a guess |
//! | `watched.rt` | | with `--progress` how far the work is |
//!
//! **Reasons and progress stand beside the task**, which is done alike with them and without: `main` puts source and sink into wrappers that pass on all
//! that comes. `Tracked` (`pgpipe_explain`) follows the bytes: the part that a fault stands in is the next line or row of the output, and its place is looked
//! for in the last piece that was received; a summary ends where the input does. `show_both` tells the places of its two streams itself.
#![tactic(auto)]

mod explaining;
mod failure;
mod files;
mod first_bytes;
mod noted_files;
mod reason;
mod watched;

pub use explaining::{Subject, both_reason, file_reason, stream_reason, task_reason};
pub use failure::{
    Failure, both_result_of, break_result_of, calls_failure, check_failure, conversion_result_of,
    file_failure, loop_result_of, script_failure, show_result_of, words_failure,
};
pub use files::{Disk, FileStore};
pub use first_bytes::FirstBytes;
pub use noted_files::{LastRead, NotedDisk};
pub use reason::Reason;
pub use watched::{Followed, Watched};
