//! Backends that answer over a link.

mod answering;
mod serving;
