//! The data of a copy to the server.

use pg_client::CallFault;
use pg_drive::Session;
use pg_wire::{Sink, Source};

// How many bytes of the input become one message.
const CHUNK: usize = 8_192;

/// Gives the server, which waits for it, a chunk of what the input has; or says that there is no more, or that it can't be read.
pub fn put_chunk<L: Source + Sink, I: Source>(
    session: &mut Session<L>,
    input: &mut I,
) -> Result<(), CallFault> {
    let mut chunk = [0; CHUNK];
    match input.receive(&mut chunk) {
        Ok(0) => session.copy_done(),
        Ok(count) => session.copy_chunk(&chunk[..count]),
        Err(_) => session.copy_fail(b"the data can't be read"),
    }
}
