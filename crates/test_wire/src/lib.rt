//! Tests of the messages and their streams, by the public interface of `pg_wire` alone.
//!
//! They stand in a crate of their own, so that no library is proved once more for the sake of its tests.
#![tactic(auto)]

#[cfg(test)]
mod seq;
#[cfg(test)]
mod values;
#[cfg(test)]
mod wire;
