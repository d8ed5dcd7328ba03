//! A client over a link: what it puts out is sent, and what the server sends is fed to it.
//!
//! - [`Session`] is what a driver is written with: it keeps the client, what waits to be sent, and the link. Its calls make requests, and
//!   [`next`](Session::next) gives each message of the answer as it comes, with rows owned or lent ([`Event`]).
//! - [`GroupSession`] has the same calls, and gives each answer whole.
//! - [`drive`] and [`drive_early`] serve where you keep the [`Client`](pg_client::Client) or [`EarlyClient`](pg_client::EarlyClient), what it
//!   has put out and the link yourself. They keep nothing from one call to the next.
//!
//! A link is a source and a sink in one ([`Over`](pg_wire::Over) makes one of a TCP connection).
//!
//! ```text
//! let mut session = Session::new(alloc, settings, link);
//! session.start()?;
//! session.query("SELECT 1")?;
//! for _ in 0..u64::MAX {
//!     match session.next()? {
//!         Event::Message(message) => show(&message),
//!         _ => break, // it is settled
//!     }
//! }
//! session.end()?;
//! ```
//!
//! # What a call returns
//!
//!     Session::next:  Message | Row | Settled | CopyIn            or N1 Call, N2 Feed, N3 Lost, N4 PiecesUsed, N5 Memory
//!     drive:          Settled | Ready | CopyIn | TurnsUsed | Lost(what is in doubt)     or D1 Feed, D2 Link
//!     drive_early:    Item    | Ready | CopyIn | TurnsUsed | Lost(what is in doubt)     or D1 Feed, D2 Link
//!
//! # What is proved
//!
//! A call sends all that was put out, in order, as far as the link takes it, and feeds exactly the bytes that it received (`Drives`,
//! `specs/Drive.antt`; `DrivesEarly`, `specs/Early.antt`). What it returns is true of the client and of the link: Lost where the server's
//! bytes ended, D2 where a call of the link failed, and nothing is received while there is something to do. The law
//! [`laws::driving_goes_on`] says what becomes of the client's history, and how it is left. A session's calls do what these do, said of the
//! session.
//!
//! # Files
//!
//! | File | Definitions in `specs/` | What it has |
//! |---|---|---|
//! | `session.rt`, `starting.rt`, `event.rt` | `Session` | sessions of either kind: the calls, the start and the end |
//! | `message_session.rt`, `lent.rt` | `Lent` | a session that gives message by message |
//! | `group_session.rt`, `groups.rt` | `Group` | a session that gives request by request |
//! | `receiving.rt`, `driving.rt`, `answer.rt` | `Drive` | what a kind of client does as it is driven; one turn, turns one after the other, and what is returned after them |
//! | `early.rt` | `Early` | what a look at an early client finds, and what is returned after its turns |
//! | `laws.rt` | `Carried` | which pieces were fed, what a history of the client becomes by them, and how the client is left |
//!
//! **A turn** is one function for both kinds of client (`receive`, over the trait `Drivable`): a piece is received and fed, and what the
//! client put out for it is sent. `drive` looks after each piece whether there is something to do, and `drive_early` before it as well.
#![tactic(auto)]

mod answer;
mod driving;
mod early;
mod event;
mod group_session;
mod groups;
pub mod laws;
mod lent;
mod message_session;
mod receiving;
mod session;
mod starting;

pub use answer::{DriveFault, Driven, DrivenEarly};
pub use driving::drive;
pub use early::drive_early;
pub use event::{Event, GroupEvent, SessionFault};
pub use session::{GroupSession, MOST_PIECES, Session, SessionOf};
