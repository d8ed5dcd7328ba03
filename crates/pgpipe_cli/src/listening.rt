//! Clients that connect to a port.

ghost use Rattle.std.specs.Prelude.{◌≡◌};

use crate::network::{TcpEnd, own_address};
use pg_wire::{LinkFault, Over, Patient};
use pgpipe_loop::Clients;
use std::io;
use std::io::ErrorKind;
use std::net::{Net, OpenListener, OpenStream, TcpListener};

/// The clients that connect to a port of 127.0.0.1. Nothing is assumed about when they come and what they send.
#[derive(Drop)]
pub struct Listening<R: Net> {
    listener: R::Listener,
    port: u16,
}

impl<R: Net> Listening<R> {
    /// Listens at this port, or at any free one for 0. The error is what the system said, as where the port is in use.
    pub fn new(rt: &R, port: u16) -> io::Result<Listening<R>> {
        let listener = TcpListener::bind(rt, own_address(port))?;
        let port = listener.local_addr()?.port();
        Ok(Listening { listener, port })
    }

    /// The port that is listened at.
    pub fn port(&self) -> u16
        ensures { result ≡ self.now.port }
    {
        self.port
    }
}

// Whether an error is about a client that is gone again, or about a wait that was interrupted: then the next client is awaited.
fn is_passing(error: &io::Error) -> bool {
    matches!(
        error.kind(),
        ErrorKind::ConnectionAborted | ErrorKind::Interrupted
    )
}

impl<R: Net> Clients<TcpEnd<R>> for Listening<R> {
    ghost gives = { λ _ _ _. Unit {0} };

    ghost fails = { λ _ _. Unit {0} };

    // `incoming` counts its tries to 2^64, which no run uses up: so the loop is proved to end.
    fn next(&mut self) -> Result<TcpEnd<R>, LinkFault> {
        for stream in self.listener.incoming() {
            match stream {
                Ok(stream) => {
                    // small pieces are sent at once; where that can't be had, they are only later
                    let _ = stream.set_nodelay(true);
                    return Ok(Over::new(Patient::new(stream)));
                }
                Err(error) => {
                    if !is_passing(&error) {
                        return Err(LinkFault);
                    }
                }
            }
        }
        Err(LinkFault)
    }
}
