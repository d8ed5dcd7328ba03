//! What the example programs share: the server that the environment names ([`Server`]), the results of a query as lines of text, in the
//! form of `psql -A` ([`Results`], [`put_error`]), and the data of a copy to the server ([`put_chunk`]). And a small driver over a session, with
//! what its author draws from the contracts of `pg_drive` and `pg_client`: each request gets the group that it settles ([`ask`]).
//!
//! ```text
//! let Server { address, settings } = Server::of(&rt, &Given::default())?;
//! let stream = TcpStream::connect(&rt, address)?;
//! let mut session = Session::new(rt.alloc(), settings, Over::new(Patient::new(stream)));
//! ```
//!
//! `server.rt` has what is named, and `variable.rt` how a variable is read; `results.rt` says what is printed of which message, and `lines.rt`
//! makes its bytes; `copies.rt` gives the server what an input has. `driver.rt` is the driver:
//!
//! ```text
//! let mut session = GroupSession::new(alloc, settings, link);
//! connect(&mut session)?;
//! let group = ask(&mut session, Request::Query(text))?;
//! ```
#![tactic(auto)]

mod copies;
mod driver;
mod lines;
mod results;
mod server;
mod variable;

pub use copies::put_chunk;
pub use driver::{AskFault, ask, connect};
pub use lines::{put_error, put_names, put_row};
pub use results::Results;
pub use server::{EnvironmentFault, Given, Server};
