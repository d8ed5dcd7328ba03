//! A loop run: a client's calls against a scripted backend, over any carrier, and the lines of what comes of them. And a script served: a backend
//! answers clients over links, with the same lines.
//!
//! - [`run_loop`](run_loop::run_loop) gives the events of CALLS to a pair, one by one, and sends the lines of each before the next happens;
//!   [`trace_loop`](run_loop::trace_loop) sends what each event moved besides.
//! - [`break_everywhere`] runs a loop again for each byte of each way, with the way cut after it.
//! - [`event_lines`] are the lines of an event of any pair; [`turn_lines`] those of a backend's turn.
//! - [`Across`] is a carrier over two ends, each of which sends and receives, as those of a connection do.
//! - [`serve`] serves one client over a link, from the script's beginning to the end of its connection, and [`serve_all`] one client after
//!   another. Where clients come from is a trait ([`Clients`]), as nothing here opens a socket.
//!
//! | File | Definitions in `specs/` | What it has |
//! |---|---|---|
//! | `run_loop.rt`, `run_loop/telling.rt` | `RunLoop`, `Trace` | what happens as a list of events, each with how often it may happen again; what is told of each |
//! | `run_loop/everywhere.rt`, `places.rt`, `wire.rt` | `Everywhere` | the places where a loop is broken, a wire that is cut there, and the line of each |
//! | `lines.rt`, `lines/` | `Lines` | the lines, field by field, in one buffer |
//! | `across.rt` | `Across` | the carrier over two ends |
//! | `serving.rt` | `Serving` | the turns of a connection: what it comes to, and which lines it has |
//! | `clients.rt` | `Clients` | one client after another, each from the script's beginning |
//!
//! **Serving.** [`serve`] makes a backend of the script and takes turns of `pg_backend::answer`, one at a time, so that the lines of what was decided
//! in a turn are sent before the next one waits for the client. They are written from the new entries of the backend's log, where these stand.
//! `serve_all` has `Clients` give it one link after another, and reads the script anew for each. A listener is one kind of `Clients`
//! (`pgpipe_cli`).
#![tactic(auto)]

mod across;
mod clients;
mod lines;
pub mod run_loop;
mod serving;

pub use across::Across;
pub use clients::{Clients, serve_all};
pub use lines::{closing_lines, event_lines, port_line, turn_lines};
pub use run_loop::everywhere::{LoopFiles, break_everywhere};
pub use run_loop::places::{Broken, Place, begins_log, first_unseen};
pub use serving::serve;
