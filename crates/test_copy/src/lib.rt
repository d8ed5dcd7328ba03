//! Tests of the rows of COPY files, by the public interface of `pg_copy` alone.
//!
//! They stand in a crate of their own, so that no library is proved once more for the sake of its tests.
#![tactic(auto)]

#[cfg(test)]
mod copy;
