//! Serving clients, one after another.

ghost use Rattle.std.specs.Prelude.{[], IfErr, IfOk};
ghost use Rattle.pgpipe_loop.specs.Clients.{CanBePlayed, ServesAfter, ServesAll};
ghost use Rattle.pgpipe_loop.specs.Private.Turning.{ServesNext};

use crate::lines::port_line;
use crate::serving::{send_lines, serve};
use pg_wire::{LinkFault, Sink, Source};
use pgpipe_base::ToolFault;
use pgpipe_files::read_script;
use std::alloc::Global;

/// Where clients come from. Nothing is assumed about what comes over their links.
pub trait Clients<L> {
    /// A call may give this link as the next client's, and leave these clients to come.
    ghost gives: { Self → L → Self → Type 0 };

    /// A call may fail, and leave these clients to come.
    ghost fails: { Self → Self → Type 0 };

    /// Waits for the next client, and gives the link to it.
    fn next(&mut self) -> Result<L, LinkFault>
        ensures given { IfOk result (λ link. gives self.old link self.new) }
        ensures failed { IfErr result (λ _. fails self.old self.new) };
}

/// Sends the line of the port, and then serves so many clients, one after another, each from the beginning of the script in these bytes. They must be
/// a script that can be played. A link is dropped before the next client is awaited.
///
/// `Device`: the next client couldn't be had, or the sink failed; a prefix of the lines was then sent. `Memory`: memory for a script or for lines ran
/// out; whole lines were then sent.
pub fn serve_all<L: Source + Sink + Drop, C: Clients<L>, K: Sink>(
    alloc: Global,
    port: u16,
    bytes: &[u8],
    count: u64,
    clients: &mut C,
    sink: &mut K,
) -> Result<(), ToolFault>
    requires { CanBePlayed bytes.now }
    ensures { ServesAll L.gives L.takes L.has_ended L.Source.failures L.Sink.failures
        C.gives C.fails bytes.now K.takes K.failures port count clients.old sink.old result
        clients.new sink.new }
{
    let line = port_line(alloc, port)?;
    send_lines(line.as_slice(), sink)?;
    serve_each(alloc, bytes, count, clients, sink)
}

// Serves so many clients, one after another.
fn serve_each<L: Source + Sink + Drop, C: Clients<L>, K: Sink>(
    alloc: Global,
    bytes: &[u8],
    count: u64,
    clients: &mut C,
    sink: &mut K,
) -> Result<(), ToolFault>
    requires { CanBePlayed bytes.now }
    ensures { ServesAfter L.gives L.takes L.has_ended L.Source.failures L.Sink.failures
        C.gives C.fails bytes.now K.takes K.failures [] count clients.old sink.old result
        clients.new sink.new }
{
    for _ in 0..count {
        serve_next(alloc, bytes, clients, sink)?;
    }
    Ok(())
}

// Serves the next client.
fn serve_next<L: Source + Sink + Drop, C: Clients<L>, K: Sink>(
    alloc: Global,
    bytes: &[u8],
    clients: &mut C,
    sink: &mut K,
) -> Result<(), ToolFault>
    requires { CanBePlayed bytes.now }
    ensures { ServesNext L.gives L.takes L.has_ended L.Source.failures L.Sink.failures
        C.gives C.fails K.takes K.failures bytes.now clients.old sink.old result clients.new
        sink.new }
{
    let Ok(mut link) = clients.next() else {
        return Err(ToolFault::Device);
    };
    // The bytes are a script, so only memory can run out.
    let Ok(script) = read_script(alloc, bytes) else {
        return Err(ToolFault::Memory);
    };
    serve(alloc, script, &mut link, sink)
}
