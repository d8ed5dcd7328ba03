//! A connection of the process to itself.

ghost use Rattle.std.specs.Prelude.{◌≡◌, IfErr};
ghost use Rattle.pgpipe_reasons.specs.declared.failure.Failure.TheVariants.{Device};

use pg_wire::{Over, Patient};
use pgpipe_loop::Across;
use pgpipe_reasons::Failure;
use std::io;
use std::io::ErrorKind;
use std::net::{Net, OpenListener, OpenStream, SocketAddr, TcpListener, TcpStream};

/// An end of a TCP connection. What is interrupted at it is tried again.
pub type TcpEnd<R> = Over<Patient<<R as Net>::Stream>>;

/// The address to listen at, with this port, or with any free one for 0.
pub(crate) fn own_address(port: u16) -> SocketAddr {
    SocketAddr::from(([127, 0, 0, 1], port))
}

// The end that this process makes and the end that it accepts, of one connection. Small pieces are sent at once.
fn both_ends<R: Net>(rt: &R) -> io::Result<(R::Stream, R::Stream)> {
    let listener = TcpListener::bind(rt, own_address(0))?;
    let client = TcpStream::connect(rt, listener.local_addr()?)?;
    let (backend, peer) = listener.accept()?;
    // another process may have connected first
    if peer != client.local_addr()? {
        return Err(io::Error::from(ErrorKind::ConnectionRefused));
    }
    client.set_nodelay(true)?;
    backend.set_nodelay(true)?;
    Ok((client, backend))
}

/// A carrier over one TCP connection of this process to itself, on 127.0.0.1. Nothing is assumed about what such a connection carries.
pub fn connect_to_itself<R: Net>(rt: &R) -> Result<Across<TcpEnd<R>, TcpEnd<R>>, Failure>
    ensures { IfErr result (λ failure. failure ≡ Device) }
{
    let (client, backend) = both_ends(rt).map_err(|_| Failure::Device)?;
    Ok(Across::new(
        Over::new(Patient::new(client)),
        Over::new(Patient::new(backend)),
    ))
}
