//! Early clients. Each test is a table of steps: what is done with a client, and what must come of it.

mod items;
mod lent;
pub(crate) mod session;
