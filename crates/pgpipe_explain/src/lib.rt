//! What `--explain` says: where a fault stands, what was expected there, and a guess where one is likely.
//!
//! **Where.** The parts of a stream or a file are the messages of a stream, by their length fields alone, or the rows of a COPY file. A
//! [`Tracker`] follows them byte by byte, and [`Tracked`] has one follow what comes from a source or goes to a sink.
//!
//! **Why.** [`script_reason`] and [`calls_reason`] say why a line of a loop's files is refused. For any other fault a [`Rule`] says what was
//! expected, and a [`Guess`] what the first bytes of a stream look like.
//!
//! | File | Definitions in `specs/` | What it has |
//! |---|---|---|
//! | `place.rt` | `Place` | where a part begins |
//! | `tracker.rt`, `wire.rt`, `text.rt`, `binary.rt` | `Tracker` | what each byte of a stream or a file does |
//! | `tracked.rt` | `Tracked` | a source or a sink whose bytes are followed |
//! | `reason.rt` | | why a line of SCRIPT or CALLS is refused |
//! | `kind.rt`, `fields.rt` | `Fields` | what a field has to be, and which of a line isn't that |
//! | `verbs.rt`, `script.rt`, `calls.rt` | `Verbs`, `Script`, `Calls` | why the line in a row is refused, by the lines before it |
//! | `rule.rt`, `faults.rt` | `Faults` | what was expected where each fault of a stream, a file, options or a script stands |
//! | `guess.rt` | `Guess` | what the first bytes of a stream look like |
#![tactic(auto)]

mod binary;
mod calls;
mod faults;
mod fields;
mod guess;
mod kind;
mod place;
mod reason;
mod rule;
mod script;
mod text;
mod tracked;
mod tracker;
mod verbs;
mod wire;

pub use calls::calls_reason;
pub use faults::{
    back_rule, binary_rule, front_rule, option_rule, row_rule, script_rule, text_rule,
};
pub use guess::{Guess, guess_of, side_guess};
pub use kind::FieldKind;
pub use place::Place;
pub use reason::LineReason;
pub use rule::Rule;
pub use script::script_reason;
pub use tracked::Tracked;
pub use tracker::{TrackedKind, Tracker, place_in};
