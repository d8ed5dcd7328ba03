//! A carrier over two ends that can be far apart, as those of a connection are.

ghost use Rattle.std.specs.Prelude.{◌≡◌, ◌≤◌, ℕ, IfOk, length};
ghost use Rattle.pgpipe_loop.specs.Across.{Crosses, Receives, Along, count_after};
ghost use Rattle.pg_pair.specs.Carrying.{arrival, IsWithinPiece};

use pg_pair::{Carry, CarryFault, Way};
use pg_wire::{Sink, Source};
use pgpipe_base::outbox::send_all;
use std::marker::Model;

/// Carries over two ends, the client's and the backend's. A piece is sent whole at the end where it comes from, and received whole at the other.
/// Where an end fails, or the input ends before the piece is whole, the call fails.
#[derive(Drop)]
pub struct Across<A, B> {
    client: A,
    backend: B,
    failures: u64,
}

impl<A, B> Model for Across<A, B> {
    ghost use Rattle.pgpipe_loop.specs.Across.{CarrierEnds};

    ghost Value = { CarrierEnds A B };

    ghost view = { λ a. record { client = a.client; backend = a.backend; failures = a.failures } };
}

impl<A, B> Across<A, B> {
    /// A carrier over the client's end and the backend's. No call has failed yet.
    pub fn new(client: A, backend: B) -> Across<A, B>
        ensures { result ≡ record { client = client; backend = backend; failures = 0 } }
    {
        Across {
            client,
            backend,
            failures: 0,
        }
    }

    /// The client's end.
    pub fn client(&self) -> &A
        ensures { result.now ≡ self.now.client }
    {
        &self.client
    }

    /// The backend's end.
    pub fn backend(&self) -> &B
        ensures { result.now ≡ self.now.backend }
    {
        &self.backend
    }

    /// The count of failures: it rises by one with each failed call, up to 2^64 - 1.
    pub fn failures(&self) -> u64
        ensures { result ≡ self.now.failures }
    {
        self.failures
    }
}

impl<A: Source + Sink + Drop, B: Source + Sink + Drop> Carry for Across<A, B> {
    ghost failures = { λ a. a.failures };

    ghost carries = { λ old way piece result new. (new.failures ≡ count_after result old.failures)
        × Along way
        (Crosses A.takes A.Sink.failures B.gives B.Source.failures B.has_ended piece old.client
        old.backend result new.client new.backend)
        (Crosses B.takes B.Sink.failures A.gives A.Source.failures A.has_ended piece old.backend
        old.client result new.backend new.client) };

    fn carry(&mut self, way: Way, piece: &[u8], into: &mut [u8]) -> Result<usize, CarryFault> {
        let Across {
            client,
            backend,
            failures,
        } = self;
        let crossed = match way {
            Way::ToBackend => cross(piece, client, backend, into),
            Way::ToClient => cross(piece, backend, client, into),
        };
        if crossed.is_err() {
            *failures = failures.saturating_add(1);
        }
        crossed
    }
}

// Sends a piece whole, and receives as many bytes.
fn cross<K: Sink, S: Source>(
    piece: &[u8],
    sink: &mut K,
    source: &mut S,
    into: &mut [u8],
) -> Result<usize, CarryFault>
    requires { length into.old ≡ length piece.now }
    ensures crosses { Crosses K.takes K.failures S.gives S.failures S.has_ended piece.now sink.old
        source.old (arrival result into.new) sink.new source.new }
    ensures within { IsWithinPiece result piece.now }
{
    match send_all(piece, sink) {
        Ok(()) => receive_all(source, into),
        Err(_) => Err(CarryFault),
    }
}

// Receives as many bytes as there is room for, and returns how many. It fails where the source does, or ends before.
fn receive_all<S: Source>(source: &mut S, into: &mut [u8]) -> Result<usize, CarryFault>
    ensures receives { Receives S.gives S.failures S.has_ended (length into.old) source.old
        (arrival result into.new) source.new }
    ensures within { IfOk result (λ n. n ≤ length into.old) }
{
    let mut filled = 0;
    while filled < into.len() {
        match source.receive(&mut into[filled..]) {
            Ok(count) if count > 0 => filled += count,
            _ => return Err(CarryFault),
        }
    }
    Ok(filled)
}
