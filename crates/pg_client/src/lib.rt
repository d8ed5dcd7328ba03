//! A client of the PostgreSQL Frontend/Backend Protocol 3.0 that does no input or output: calls put bytes for the server into a buffer,
//! [`Client::feed`] takes the server's bytes in any pieces, and whole answers come out (PostgreSQL documentation, "Message Flow").
//!
//! - [`Client`] gives each answer whole: [`Client::take_settled`] returns a request with its results, error and status once its
//!   ReadyForQuery has come.
//! - [`EarlyClient`] gives each message as it comes ([`Item`]), and [`EarlyClient::next_lent`] lends rows where they stand.
//! - Both have the same calls: `start`, `request`, `copy_chunk`, `copy_done`, `copy_fail`, `terminate`, and `lost`, which hands back the
//!   request that is in doubt when the connection is gone. A call that isn't allowed in a phase returns a [`CallFault`] and changes nothing.
//!
//! `pg_drive` does the input and output over a link. Write your own loop over `feed` where your program waits in another way.
//!
//! # Phases
//!
//!                  START               AuthOk .. Z               REQUEST
//!          New ------------> Starting ------------> Ready ------------------> Busy ----+
//!                                                     ^                       |  ^     | results and answers
//!                                                     |           Z           |  |     | (stays Busy)
//!                                                     +-----------------------+  +-----+
//!                                                     |                       |
//!                                                     |           G           v
//!                                                     |       Busy --------> CopyingIn ----+
//!                                                     |         ^                |   ^     | COPY_CHUNK
//!                                                     |         +----------------+   +-----+
//!                                                     |           COPY_DONE, COPY_FAIL, E
//!
//!     Any phase but Closed --> Closed(cause): a fault of FEED (its name), LOST (Lost), and TERMINATE from Starting on (Terminated).
//!
//! Calls are in capitals; `Z`, `G` and `E` are ReadyForQuery, CopyInResponse and ErrorResponse. [`Client::phase`] says where a client stands.
//!
//! # What is proved
//!
//! For every list of calls and every stream of bytes, however it is cut: the client takes in the longest beginning of the stream that the
//! protocol allows, and names the fault of what comes next; each settled group is the request that was made, with the outcome that the
//! grammar gives for its messages; phase, status and parameters are functions of what came; and at most one request is in doubt. Contracts
//! say this of a *history*, which is all that a client was called with, was fed and gave (`History`, `IsHistoryOf`): `new` begins with a blank
//! one, and each call says what it appends (`Carries`; of `feed`, `Hears`). No code stores a history. `specs/Client.antt` says it all on one
//! page, to be read from top to bottom. [`laws::facts_of_a_run`] reads a history in the protocol's words, and `driver.rt` of `example_base` shows how
//! a driver's author uses it.
//!
//! # Files
//!
//! | File | Definitions in `specs/` | What it has |
//! |---|---|---|
//! | `call.rt`, `sending.rt`, `parameters.rt` | `Session` | calls and messages, the startup, where a call is allowed |
//! | `connection.rt`, `settings.rt`, `phase.rt`, `settled.rt` | `View` | what a contract sees of a client, and its phase |
//! | `client.rt`, `item.rt`, `next.rt` | `Keeping` | the two clients: what each keeps of the messages until it is taken |
//! | `connection.rt`, `connection/feed.rt` | `Client` | what a client went through; what each call, `feed` and `lost` do |
//! | `fault.rt` | `Sent`, `Closed` | what is sent for a call and for a password; why a client is closed |
//! | `connection/lend.rt` | `Lent` | taking items one by one, with rows lent |
//! | `laws.rt` | `Facts`, `Turns`, `Spelled`, `Answering`, `Driving` | what a history means; what the author of a driver goes by |
//! | `startup.rt` | `Startup` | how far the startup has come, and what one more message does there |
//! | `stand.rt` | `Stand` | where a client stands, and what any message does to that |
//! | `known.rt`, `keeper.rt`, `collecting.rt`, `queue.rt` | | what one message changes, and what is kept of it |
//!
//! `Startup`, `Stand`, and `Place` and `Collected` of `pg_response`, are the code's own words, and so is `specs/Private`. A history has them under one
//! name (`agrees`), and the law `facts_of_a_run` says what they mean. The others are what a reader has to believe.
//!
//! # How it works
//!
//! **One client, two keepers.** `Connection<K>` has all that a client does by calls and by the server's bytes. Its keeper `K` is told of each
//! message that may come in a request's segment, and decides nothing. `Collecting` adds it to what was collected, and has a group once that is
//! settled ([`Client`]). `Queue` has an item for each ([`EarlyClient`]). What a keeper has to do with what happened is its `way`.
//!
//! **One message.** `Kind::of` says what it is, and `Known` has a method for each kind. A message of a response asks the place of its request's
//! segment (`Place` of `pg_response`) where it leads, before it is kept. A row's bytes are copied once, out of the decoder, and moved from then on.
#![tactic(auto)]

mod call;
mod client;
mod collecting;
mod connection;
mod fault;
mod item;
mod keeper;
mod known;
pub mod laws;
mod next;
mod parameters;
mod phase;
mod queue;
mod sending;
mod settings;
mod settled;
mod stand;
mod startup;

pub use call::Call;
pub use client::{Client, EarlyClient};
pub use collecting::Collecting;
pub use connection::Connection;
pub use fault::{CallFault, FeedFault};
pub use item::Item;
pub use keeper::Keeper;
pub use next::Next;
pub use phase::{Cause, Phase};
pub use queue::Queue;
pub use settings::Settings;
pub use settled::{Loss, Settled};
