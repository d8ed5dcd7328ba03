//! All that `pgpipe show` does: a stream, or the two of a connection, from any source to any sink, as lines or as a table.
//!
//! | Called | What is sent | Where |
//! |---|---|---|
//! | [`show`](show::show) | a line for each message of a backend's stream, or of a client's | `show.rt` |
//! | [`show_as`](show::show_as) | the same, or a line for each frame in one of several forms, which goes on over what isn't of the profile | `show.rt` |
//! | [`show_both`] | both streams of one connection together, request by request | `both/` |
//! | [`summarize`] | how many messages of each name a stream has, and how many bytes they are | `summary/` |
//! | [`Colored`] | to the sink behind it what it takes, with colours for a terminal | `color/` |
//!
//! **One stream.** Pieces are received, and each is given to what is read now (`decoding`): a backend's messages, or a client's first packets
//! (`packets`) and then its messages (`messages`). The lines of a piece are collected in an outbox, each of a message that stays where it
//! stands, and are sent before the next piece is received. A long body goes through the outbox in parts, so memory is bounded by the largest
//! message and two buffers of 64 KiB.
//!
//! `show_as` shows frames in one of several forms (`Line`): `pgpipe_frames` lends one after the other (`framing`), and `frame_lines` writes the
//! line of each. A further form is a further variant of `Line`.
//!
//! **Both streams of a connection**: what the client sent and what the server answered. Each stream comes from a source of its own, as a capture
//! tool writes it, so no times are known: which line stands before which is said by the messages alone.
//!
//! ```text
//! -> StartupMessage (user 'u')
//! <- AuthenticationOk
//! <- ReadyForQuery idle
//! -> Query SELECT 1
//! <- RowDescription (?column? int4)
//! <- DataRow ('1')
//! <- CommandComplete SELECT 1
//! <- ReadyForQuery idle
//! ```
//!
//! **A summary** counts each status of a ReadyForQuery and each code of an ErrorResponse for itself. Its table is sent when the stream has
//! ended, was cut, or has a fault.
//!
//! **Colours**: of each line that `pgpipe show --decode` prints, the name of the message, and the rest of the line where that is an
//! ErrorResponse. `specs/ColoredPart.antt` says what each byte does. [`Colored`] may also pass all on unchanged.
//!
//! `laws.rt` has the laws: that two streams leave no choice of their order, and what a line and a whole text in colour come to.
#![tactic(auto)]

mod both;
mod color;
mod decoding;
mod form;
mod frame_lines;
mod framing;
pub mod laws;
mod messages;
mod packets;
pub mod show;
mod stop;
mod summary;

pub use both::{BothEnds, BothPlaces, BothShown, Ended, FramePlace, show_both};
pub use color::Colored;
pub use form::{Form, Line};
pub use summary::summarize;
