//! A session that is driven over a link: the startup, and a query with a row.

use crate::refused_messages::link::FixedLink;
use crate::refused_messages::refused::Refused;
use anyhow::{Result, bail, ensure};
use pg_client::{CallFault, Cause, Client, FeedFault, Phase, Settings};
use pg_drive::{DriveFault, Driven, drive};
use pg_wire::{EncodeFault, Request, Seq};
use std::alloc::{AllocError, Global};

/// The startup packet of the user `u`, and the query `SELECT 1`.
const SENT: &[u8] = b"\0\0\0\x10\0\x03\0\0user\0u\0\0Q\0\0\0\x0dSELECT 1\0";

/// AuthenticationOk and ReadyForQuery; a row of a column `n`, and ReadyForQuery.
const GIVEN: &[u8] =
    b"R\0\0\0\x08\0\0\0\0Z\0\0\0\x05IT\0\0\0\x1a\0\x01n\0\0\0\0\0\0\0\0\0\0\x17\0\x04\xff\xff\xff\xff\0\0D\0\0\0\x0b\0\x01\0\0\0\x011C\0\0\0\x0dSELECT 1\0Z\0\0\0\x05I";

/// A client, what it has put out, and the link that it is driven over.
#[derive(Drop)]
struct Driving {
    client: Client,
    out: Vec<u8>,
    link: FixedLink,
}

// A new client of the user `u`, and the link.
fn fresh(alloc: Global) -> Result<Driving, AllocError> {
    let settings = Settings {
        user: Seq::from_slice(alloc, b"u")?,
        database: None,
        pairs: Seq::new(Vec::new(alloc)),
        password: None,
        limit: 65_536,
    };
    Ok(Driving {
        client: Client::new(alloc, settings),
        out: Vec::new(alloc),
        link: FixedLink::new(GIVEN, SENT),
    })
}

/// How far a drive came.
#[derive(Clone, Copy)]
enum Reached {
    Ready,
    Settled,
    /// The client ran out of memory.
    Memory,
    Else,
}

// Whether a call ran out of memory.
fn is_memory(fault: &CallFault) -> bool {
    matches!(fault, CallFault::Encode(EncodeFault::Memory))
}

impl Driving {
    // Demands that a rejected call has left the client in this phase, and put out nothing.
    fn check_unchanged(&self, phase: Phase) -> Result<()> {
        ensure!(
            self.client.phase() == phase,
            "a refused call has left another phase"
        );
        ensure!(self.out.is_empty(), "a refused call has put out bytes");
        Ok(())
    }

    // Starts.
    fn start(&mut self, refused: &mut Refused) -> Result<()> {
        match self.client.start(&mut self.out) {
            Ok(()) => return Ok(()),
            Err(fault) if is_memory(&fault) => refused.call = true,
            Err(fault) => bail!("{fault}"),
        }
        self.check_unchanged(Phase::New)?;
        Ok(self.client.start(&mut self.out)?)
    }

    // Makes the query. A refusal hands it back.
    fn ask(&mut self, alloc: Global, refused: &mut Refused) -> Result<()> {
        let query = Request::Query(Seq::from_slice(alloc, b"SELECT 1")?);
        let back = match self.client.request(query, &mut self.out) {
            Ok(()) => return Ok(()),
            Err((back, fault)) if is_memory(&fault) => back,
            Err((_, fault)) => bail!("{fault}"),
        };
        refused.call = true;
        self.check_unchanged(Phase::Ready)?;
        match self.client.request(back, &mut self.out) {
            Ok(()) => Ok(()),
            Err((_, fault)) => bail!("{fault}"),
        }
    }

    // Demands that a client that ran out of memory is closed for it, and hands back its request, if one was outstanding.
    fn check_closed(&mut self, asked: bool) -> Result<()> {
        let closed = self.client.phase() == Phase::Closed(Cause::Memory);
        ensure!(
            closed,
            "memory was refused, and the client isn't closed for it"
        );
        let handed_back = self.client.lost().unsettled.is_some();
        ensure!(handed_back == asked, "another request is lost");
        Ok(())
    }

    // Drives the client.
    fn drive(&mut self) -> Reached {
        match drive(&mut self.client, &mut self.out, &mut self.link, 100) {
            Ok(Driven::Ready) => Reached::Ready,
            Ok(Driven::Settled) => Reached::Settled,
            Err(DriveFault::Feed(FeedFault::Memory)) => Reached::Memory,
            _ => Reached::Else,
        }
    }

    // Starts, and is driven until it is ready. False where it ran out of memory meanwhile.
    fn becomes_ready(&mut self, refused: &mut Refused) -> Result<bool> {
        self.start(refused)?;
        match self.drive() {
            Reached::Ready => return Ok(true),
            Reached::Memory => refused.feed = true,
            _ => bail!("the client isn't ready"),
        }
        self.check_closed(false)?;
        Ok(false)
    }

    // Asks, and is driven until the query is settled. False where it ran out of memory meanwhile.
    fn settles(&mut self, alloc: Global, refused: &mut Refused) -> Result<bool> {
        self.ask(alloc, refused)?;
        match self.drive() {
            Reached::Settled => return Ok(true),
            Reached::Memory => refused.feed = true,
            _ => bail!("the query isn't settled"),
        }
        self.check_closed(true)?;
        Ok(false)
    }

    // Whether all was given and taken, and a group is to be taken.
    fn is_whole(&mut self) -> bool {
        self.link.is_done() && self.client.take_settled().is_some()
    }

    // Goes through the session. False where it ran out of memory in a drive.
    fn goes_through(&mut self, alloc: Global, refused: &mut Refused) -> Result<bool> {
        if !self.becomes_ready(refused)? || !self.settles(alloc, refused)? {
            return Ok(false);
        }
        ensure!(
            self.is_whole(),
            "bytes are left, or no group is to be taken"
        );
        Ok(true)
    }
}

/// Drives a new client through the session. False where it ran out of memory in a drive.
pub fn comes_to_its_end(alloc: Global, refused: &mut Refused) -> Result<bool> {
    let mut it = fresh(alloc)?;
    it.goes_through(alloc, refused)
}
