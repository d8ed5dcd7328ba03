//! Both streams of one connection, printed together, request by request ([`show_both`]).
//!
//! - talk.rt: who has the turn, by the messages that were sent
//! - turn.rt: the same from the first packet on, and where a stream has ended
//! - reader.rt: one stream, frame by frame
//! - place.rt: where its frames begin
//! - page.rt: lines
//! - tell.rt: one line more
//! - printing.rt: the whole ([`show_both`])
//!
//! [`show_both`] asks whose turn it is (`turn`, and `talk` once the server has sent a message), fetches the next frame
//! of that stream alone (`reader`), and puts its line (`tell`, `page`). What has the turn is a function of the entries
//! before: frames, the ends of the two streams, for which nothing is printed, and the byte by which a request for
//! encryption is answered. That byte is received alone, so that the reader of frames never sees it. So one stream waits
//! in its file while the other is read, and of each no more is kept than a frame and the piece that it ended in.

mod page;
mod place;
mod printing;
mod reader;
mod talk;
mod tell;
mod turn;

pub use place::FramePlace;
pub use printing::{BothPlaces, BothShown, show_both};
pub use turn::{BothEnds, Ended};
