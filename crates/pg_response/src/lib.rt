//! A server's response to a request, message by message: what kind of message each is, where it may come, and what it adds to the outcome.
//!
//! It is the lower layer of `pg_client`, which keeps a whole session. Users name `pg_client`, which passes on what they need of it.
//!
//! # Files
//!
//! | File | Definitions in `specs/` | What it has |
//! |---|---|---|
//! | `kind.rt` | `Kind` | what kind of message it is: the one match over all messages |
//! | `mark.rt`, `place.rt` | `Place` | where one is in the segment of a request, which alone decides what may come |
//! | `collected.rt` | `Collected` | what the messages of a segment have given so far |
//!
//! **A place** is how many answers are whole, what is unfinished, and whether an error came. It goes on by the mark of each message, which is its
//! type without what it carries. It goes on exactly as the grammar does (`Fits`, in `pg_wire/specs/Segment.antt`): a message is rejected exactly
//! where no segment goes on with it.
//!
//! **What was collected** never decides what may come. It is told of each message that may, and at which place, and holds the parts of which the
//! messages so far consist (`Holds`).
#![tactic(auto)]

mod collected;
mod kind;
mod mark;
mod place;

pub use collected::{Collected, Unfinished};
pub use kind::{Auth, Kind};
pub use mark::Mark;
pub use place::{Open, Place};
