//! Tests of a pair of a client and a backend, by its public interface and by what `example_pair` draws from its contracts.
//!
//! They stand in a crate of their own, so that no library is proved once more for the sake of its tests.
#![tactic(auto)]

#[cfg(test)]
mod tests;
