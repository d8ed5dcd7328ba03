//! Colours for a terminal ([`Colored`]).
//!
//! - part.rt: what each byte of a line does
//! - painting.rt: the coloured form of a piece
//! - colored.rt: the sink ([`Colored`])

mod colored;
mod painting;
mod part;

pub use colored::Colored;
