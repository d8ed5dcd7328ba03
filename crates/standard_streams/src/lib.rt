//! Whether the standard streams of the process are open.
//!
//! A process may be begun with a standard stream closed, as a shell does for `program >&-`. The first file or connection that it opens
//! takes the place of that stream: what is printed goes there, and what is read comes from there. So a program looks at its streams before
//! it opens anything:
//!
//! ```text
//! fn main(rt: HostRuntime) -> anyhow::Result<()> {
//!     all_open(&rt.stdin(), &rt.stdout(), &rt.stderr())?;
//!     let stream = TcpStream::connect(&rt, ("127.0.0.1", 5432))?;
//! ```
//!
//! `stream.rt` has what a stream answers, `look.rt` the look at all three.
#![tactic(auto)]

mod look;
mod stream;

pub use look::{ClosedStream, all_open};
pub use stream::Stream;
