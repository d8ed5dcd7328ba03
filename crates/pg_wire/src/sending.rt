//! Bytes that are sent whole, by as many calls of a sink as it takes.

ghost use Rattle.std.specs.Prelude.{◌≡◌, ◌≤◌, length, drop};
ghost use Rattle.pg_wire.specs.Link.{Counts};
ghost use Rattle.pg_wire.specs.Sending.{SendsAll, SendsOut};

use crate::link::{LinkFault, Sink};

/// Sends all of these bytes. Where a call of the sink fails, nothing more is sent.
pub fn send_all<K: Sink>(bytes: &[u8], sink: &mut K) -> Result<(), LinkFault>
    ensures sends { SendsAll K.takes K.failures sink.old bytes.now result sink.new }
    ensures counted { Counts (K.failures sink.old) result (K.failures sink.new) }
{
    send_front(bytes, sink).1
}

/// Sends all that stands in a buffer. What was sent is taken off its front, even where a call of the sink fails. Then some bytes are left, which may
/// be sent later.
pub fn send_out<K: Sink>(out: &mut Vec<u8>, sink: &mut K) -> Result<(), LinkFault>
    ensures sends { SendsOut K.takes K.failures sink.old out.old.items result sink.new
        out.new.items }
    ensures counted { Counts (K.failures sink.old) result (K.failures sink.new) }
{
    let (sent, result) = send_front(out.as_slice(), sink);
    let size = out.len();
    out.as_mut_slice().copy_within(sent..size, 0);
    out.truncate(size - sent);
    result
}

// Sends these bytes from their front, all of them unless a call of the sink fails, and returns how many were sent.
fn send_front<K: Sink>(bytes: &[u8], sink: &mut K) -> (usize, Result<(), LinkFault>)
    ensures within { result.0 ≤ length bytes.now }
    ensures sends { SendsOut K.takes K.failures sink.old bytes.now result.1 sink.new
        (drop result.0 bytes.now) }
    ensures counted { Counts (K.failures sink.old) result.1 (K.failures sink.new) }
{
    let mut sent = 0;
    while sent < bytes.len() {
        match sink.send(&bytes[sent..]) {
            Ok(count) => sent += count,
            Err(fault) => return (sent, Err(fault)),
        }
    }
    (sent, Ok(()))
}
