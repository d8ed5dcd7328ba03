//! Serving clients from a file.

ghost use Rattle.std.specs.Prelude.{◌≡◌, Ok, string_bytes};
ghost use Rattle.pgpipe_files.specs.ScriptFile.{script_of};
ghost use Rattle.pgpipe_cli.specs.Serving.{ServesFile, ServesScript, most_clients, served_result};

use pg_backend::Script;
use pg_wire::{Sink, Source};
use pgpipe_base::ToolFault;
use pgpipe_files::read_script;
use pgpipe_loop::{Clients, serve_all};
use pgpipe_reasons::{Failure, FileStore, check_failure, script_failure};
use pgpipe_tasks::ServeTask;
use std::alloc::Global;

/// Serves the clients that come to a port from the script in a file, which is read first, and then judged.
///
/// Without a number of connections 2^64 - 1 clients are served, more than ever come: so it goes on, and is proved to end.
pub fn serve_file<F: FileStore, L: Source + Sink + Drop, C: Clients<L>, K: Sink>(
    alloc: Global,
    serving: &ServeTask,
    port: u16,
    files: &F,
    clients: &mut C,
    sink: &mut K,
) -> Result<(), Failure>
    ensures { ServesFile L.gives L.takes L.has_ended L.Source.failures L.Sink.failures
        C.gives C.fails K.takes K.failures port (most_clients serving.now.connections) clients.old
        sink.old result clients.new sink.new (F.holds files.now) (F.fails files.now)
        (string_bytes serving.now.script) }
{
    let bytes = files.read(serving.script.as_str())?;
    let script = read_script(alloc, bytes.as_slice()).map_err(|fault| script_failure(fault))?;
    let count = most_clients(serving.connections);
    serve_script(alloc, port, &script, bytes.as_slice(), count, clients, sink)
}

// Serves clients from a script that is judged first, and the bytes that say it.
fn serve_script<L: Source + Sink + Drop, C: Clients<L>, K: Sink>(
    alloc: Global,
    port: u16,
    script: &Script,
    bytes: &[u8],
    count: u64,
    clients: &mut C,
    sink: &mut K,
) -> Result<(), Failure>
    requires { script_of bytes.now ≡ Ok script.now }
    ensures { ServesScript L.gives L.takes L.has_ended L.Source.failures L.Sink.failures
        C.gives C.fails K.takes K.failures port count clients.old sink.old result clients.new
        sink.new bytes.now script.now }
{
    script.check(alloc).map_err(|fault| check_failure(fault))?;
    served_result(serve_all(alloc, port, bytes, count, clients, sink))
}

// How many clients are served at most.
fn most_clients(connections: Option<u32>) -> u64
    ensures { result ≡ most_clients connections }
{
    match connections {
        Some(count) => u64::from(count),
        None => u64::MAX,
    }
}

// What an answer of `serve_all` means for the program.
fn served_result(answer: Result<(), ToolFault>) -> Result<(), Failure>
    ensures { result ≡ served_result answer }
{
    match answer {
        Ok(()) => Ok(()),
        Err(ToolFault::Device) => Err(Failure::Device),
        Err(ToolFault::Memory) => Err(Failure::Memory),
    }
}
