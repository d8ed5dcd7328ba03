//! Tests of what `pgpipe` does: of the libraries that show, convert, run and read files for it, by their public interface alone.
//!
//! Each is a table that a small function judges. A tool's contract and what it is given cost the prover much in each function that has
//! them, so one function calls a tool, and others look at what came of it.
#![tactic(auto)]

#[cfg(test)]
mod tests;
