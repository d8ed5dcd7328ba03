//! Both ends of a session, a client and a scripted backend, and the two streams between them; and the theorem that joins them.
//!
//! The contract of [`Pair::apply`] and [`Pair::run`] is this theorem (`Headline`, `specs/Headline.antt`):
//!
//! > Over every list of client calls, backend steps, deliveries of any length and breaks at any byte, the groups that the client reports
//! > settled are, in order, a beginning of the groups that the backend has answered, each with the request that caused it, its outcome,
//! > status and copied bytes; and whenever the client stands ready, the backend does too, with only copy messages left to drop.
//!
//! In plain words: whatever the network does, the results that the client reports as settled are exactly the first N that the backend
//! answered, in the same order and with the same contents. So after a break you know which one request, if any, is in doubt.
//!
//! # The picture
//!
//!                      calls                                      step
//!                        |                                          |
//!                        v       to_backend: sent, reached          v
//!         settled <-- client  ------------- carrier ------------>  backend --> log
//!                        ^                                          |
//!                        +---------------- carrier -----------------+
//!                                to_client: sent, reached
//!
//! A pair stores both streams whole: all that an end has put out, how much of it has reached the other end, and whether the way is broken. A
//! carrier ([`Carry`]) brings the bytes: [`Direct`] gives them all as they are, and one of your own may fail, or alter them.
//!
//! # Files
//!
//! | File | Definitions in `specs/` | What it has |
//! |---|---|---|
//! | `pair.rt` | `View` | a pair as its callers see it |
//! | `carry.rt`, `pair/carrying.rt` | `Carrying` | what the calls of a carrier do, and what is delivered of a piece |
//! | `pair.rt` | `Invariant` | what is so of a pair at any time (`Tied`): the client's part, the backend's part, and what ties both |
//! | `laws.rt`, `pair.rt` | `Copies`, `Headline` | the theorem: what the settled groups say of the log, which requests its entries are of, what was handed over for each, and what Ready says of the backend |
//! | `pair.rt` | `Beginning` | a new pair |
//! | `pair/calling.rt`, `pair/chunks.rt`, `pair/stepping.rt`, `pair/breaking.rt`, `pair/delivering.rt` | `Calling`, `Stepping`, `Breaking`, `Delivering` | what a call, a step, a break and a delivery do |
//! | `event.rt`, `pair.rt` | `Event` | what each event does by these, and what a list of events does |
//! | `laws.rt` | `Laws` | what follows of it for a caller: what a delivery moves, and what breaks a way |
//!
//! `Headline` and `Copies` say the theorem, and `Tied` says that its settled groups are the client's own; `Event` and the four that it
//! stands on say that events do what they say. All of `specs/` but `specs/Private` is what a reader has to believe.
//!
//! # How it is proved
//!
//! **The invariant** is one record over what is stored (`Tied`), of three parts: of the client (it has a history, by which it was fed what
//! has reached it), of the backend (it has a history, by which it was given what has reached it, and found no fault in it), and of the turns
//! that tie both. What happens at one end leaves the other end's part as it was, but that more was sent to it (`proofs/Ends`). Each small
//! method keeps it by one lemma, from the contracts of the ends alone. `laws::headline` draws the theorem from it: bytes that begin a stream
//! are read as the first of its messages (`Opening`); a client that the backend let in has sent just the password by which it was let in
//! (`Meeting`); whole segments of what the client took in are the first of what was replied, each fits one outcome, and the log's requests are
//! the first that were made (`Settling`); where the client stands ready, each of its requests is decided (`Readiness`).
//!
//! **One thing is to be shown at a request alone**: that all requests before it are decided. Then no later message changes their verdicts, and
//! copy messages that are still on their way are dropped.
//!
//! **A delivery** is a loop over pieces (`deliver`), and a piece is three small steps (`move_piece`): the carrier's call with the comparison,
//! the end's call, and the break where something was bad.
#![tactic(auto)]

mod carry;
mod event;
mod known;
pub mod laws;
mod pair;

pub use carry::{Carry, CarryFault, Direct, Way};
pub use event::{Applied, Event, PairFault};
pub use pair::Pair;
pub use pg_client::Call;
