//! What the tools of pgpipe share: text that is collected and sent, how much is received, why the work stops, and how a tool fails.
//!
//! | File | What it has |
//! |---|---|
//! | `outbox.rt` | a buffer of 64 KiB that collects lines, and is sent when it is full and where its owner says so (`flush`) |
//! | `receiving.rt` | how much is received at once, how often, and that all was sent before |
//! | `stop.rt` | why the work stops, what is sent then, and what is returned for it |
//! | `hexadecimal.rt` | bytes in hexadecimal |
//! | `fault.rt` | how a tool fails: the device, or memory |
#![tactic(auto)]

mod fault;
mod hexadecimal;
pub mod outbox;
pub mod receiving;
mod stop;

pub use fault::ToolFault;
pub use stop::Stop;
