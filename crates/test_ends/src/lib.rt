//! Tests of both ends of a connection: of the client, of the early client and of the scripted backend, also over a link (`drive`, `serve`), by
//! their public interface alone.
//!
//! They stand in a crate of their own, so that no library is proved once more for the sake of its tests.
#![tactic(auto)]

#[cfg(test)]
mod backend;
#[cfg(test)]
mod client;
#[cfg(test)]
mod drive;
#[cfg(test)]
mod early;
#[cfg(test)]
mod serve;
#[cfg(test)]
mod shown;
