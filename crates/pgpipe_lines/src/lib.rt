//! The lines of SCRIPT and CALLS, one by one: the word that each begins with, the fields after it, and what is read of them. `pgpipe_files` reads the
//! two files by it, and `pgpipe_explain` says why a line is refused.
//!
//! | File | Definitions in `specs/` | What it has |
//! |---|---|---|
//! | `verb.rt` | `Verb` | which word is which verb |
//! | `arguments.rt` | `Arguments`, `Reads` | the fields of a line, taken one by one |
//! | `answer_lines.rt` | `AnswerLines` | the lines of SCRIPT that stand in an answer |
//! | `step_lines.rt` | `StepLines` | the lines of CALLS that are steps of a group |
//! | `comments.rt` | `Comments` | a file without its comments |
//! | `fault.rt` | `Reads` | why a line is refused, and the fault of its file |
//!
//! How a line is taken apart depends on neither file: verbs and fields know no client, no backend and no pair.
#![tactic(auto)]

mod answer_lines;
mod arguments;
mod comments;
mod fault;
mod step_lines;
mod verb;

pub use answer_lines::OpenAnswer;
pub use arguments::Arguments;
pub use comments::without_comments;
pub use fault::{LineFault, Refusal};
pub use step_lines::step_of;
pub use verb::{AnswerVerb, AuthWay, CallVerb, EndWay, LoadWay, ScriptVerb, StepVerb, target_of};
