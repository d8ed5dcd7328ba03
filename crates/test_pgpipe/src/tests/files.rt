//! What a loop's two files, SCRIPT and CALLS, are read as: of what no loop shows. What else they are read as, and where they are refused, is
//! asked by `.ci/loops`.
//!
//! Each is a table: a file, and what is so of what it is read as. What was read costs the prover much in each function that owns it, so
//! one function for each kind of file reads it, by `holds`, and lends it to the others.

mod calls;
mod copies;
mod queries;
mod scripts;
mod values;
