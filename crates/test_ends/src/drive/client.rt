//! Clients that are driven over a link in memory.

use crate::drive::driving::DriveStep;
use pg_client::{Client, FeedFault, Loss, Phase, Settings};
use pg_drive::{DriveFault, Driven, drive};
use pg_wire::Request;
use std::alloc::Global;
use testing::MemoryLink;
use testing::values::query;

/// The startup packet of the user `u`.
pub(crate) const STARTUP: [u8; 16] = [
    0, 0, 0, 16, 0, 3, 0, 0, b'u', b's', b'e', b'r', 0, b'u', 0, 0,
];

/// What is lost with a link.
#[derive(Clone, Copy)]
pub(crate) enum Lost {
    Nothing,
    /// The query, after an error or not.
    Query(bool),
}

/// What driving a client comes to.
#[derive(Clone, Copy)]
pub(crate) enum Told {
    Ready,
    Settled,
    CopyIn,
    TurnsUsed,
    /// The bytes have ended.
    Lost(Lost),
    /// The link failed.
    Failed(Lost),
    /// The client was closed before.
    Closed,
    /// A message with this tag was rejected.
    Unexpected(u8),
}

/// What is done with a client and its link, or what must come of it.
#[derive(Clone, Copy)]
pub(crate) enum ClientStep {
    /// The receive of this number fails.
    FailReceive(u64),
    /// The send of this number fails.
    FailSend(u64),
    /// This piece is taken, and not by the link.
    Feed(&'static [u8]),
    /// The client is told that its connection is gone.
    Lose,
    /// Driven with at most so many receives, it comes to this.
    Gives(u32, Told),
    /// A settled group waits, or none.
    HasSettled(bool),
    /// A settled group is taken.
    Settle,
    /// The client stands in this phase.
    Stands(Phase),
    /// Just these bytes were sent.
    HasSent(&'static [u8]),
    /// What was sent begins with the first of these bytes and ends with the others.
    HasSentFromTo(&'static [u8], &'static [u8]),
    /// Just these bytes wait to be sent.
    HasToSend(&'static [u8]),
    /// Just these bytes are left to be received.
    HasToReceive(&'static [u8]),
    /// So many bytes are left to be received.
    IsLeft(usize),
    /// So many calls of the link have failed.
    Failures(u64),
}

/// What is asked for.
const ASKED: &[u8] = b"SELECT 1";

fn is_query(request: &Request) -> bool {
    match request {
        Request::Query(text) => text.as_slice() == ASKED,
        _ => false,
    }
}

// Whether just this is lost.
fn is_loss(loss: &Loss, lost: Lost) -> bool {
    match (lost, &loss.unsettled) {
        (Lost::Nothing, None) => !loss.seen_error,
        (Lost::Query(error), Some(request)) => loss.seen_error == error && is_query(request),
        _ => false,
    }
}

fn is_driven(driven: &Driven, told: Told) -> bool {
    match (told, driven) {
        (Told::Ready, Driven::Ready) => true,
        (Told::Settled, Driven::Settled) => true,
        (Told::CopyIn, Driven::CopyIn) => true,
        (Told::TurnsUsed, Driven::TurnsUsed) => true,
        (Told::Lost(lost), Driven::Lost(loss)) => is_loss(loss, lost),
        _ => false,
    }
}

fn is_fault(fault: &DriveFault, told: Told) -> bool {
    match (told, fault) {
        (Told::Failed(lost), DriveFault::Link(loss)) => is_loss(loss, lost),
        (Told::Closed, DriveFault::Feed(FeedFault::Closed)) => true,
        (Told::Unexpected(tag), DriveFault::Feed(FeedFault::Unexpected(found))) => *found == tag,
        _ => false,
    }
}

// Whether driving came to this.
fn comes_to(answer: &Result<Driven, DriveFault>, told: Told) -> bool {
    match answer {
        Ok(driven) => is_driven(driven, told),
        Err(fault) => is_fault(fault, told),
    }
}

/// A client, what it has put out, and the link that it is driven over. What a test asks of it answers whether it was so.
#[derive(Drop)]
pub(crate) struct ClientDrive {
    pub(crate) client: Client,
    pub(crate) out: Vec<u8>,
    pub(crate) link: MemoryLink<'static>,
}

impl ClientDrive {
    /// Whether it starts. Its startup packet waits to be sent then.
    pub(crate) fn starts(&mut self) -> bool {
        self.client.start(&mut self.out).is_ok()
    }

    fn asks(&mut self, alloc: Global) -> bool {
        self.out.clear();
        match query(alloc, ASKED) {
            Ok(request) => self.client.request(request, &mut self.out).is_ok(),
            Err(_) => false,
        }
    }

    fn feeds(&mut self, piece: &[u8]) -> bool {
        self.client.feed(piece, &mut self.out).is_ok()
    }

    fn is_lost(&mut self) -> bool {
        let _ = self.client.lost();
        true
    }

    // Drives the client, with at most so many receives.
    fn drive(&mut self, turns: u32) -> Result<Driven, DriveFault> {
        drive(&mut self.client, &mut self.out, &mut self.link, turns)
    }

    /// Driven so, it comes to this.
    pub(crate) fn gives(&mut self, turns: u32, told: Told) -> bool {
        comes_to(&self.drive(turns), told)
    }

    fn settles(&mut self) -> bool {
        self.client.take_settled().is_some()
    }

    /// The client stands in this phase.
    pub(crate) fn stands(&self, phase: Phase) -> bool {
        self.client.phase() == phase
    }

    fn has_sent_from_to(&self, begins: &[u8], ends: &[u8]) -> bool {
        self.link.taken.as_slice().starts_with(begins) && self.link.taken.as_slice().ends_with(ends)
    }

    /// Just these bytes wait to be sent.
    pub(crate) fn has_to_send(&self, bytes: &[u8]) -> bool {
        self.out.as_slice() == bytes
    }

    /// Just these bytes are left to be received.
    pub(crate) fn has_to_receive(&self, bytes: &[u8]) -> bool {
        self.link.gives == bytes
    }

    /// So many bytes are left to be received.
    pub(crate) fn is_left(&self, count: usize) -> bool {
        self.link.gives.len() == count
    }
}

/// No request is lost.
pub(crate) fn nothing_lost() -> Loss {
    Loss {
        unsettled: None,
        seen_error: false,
    }
}

// ---- steps

// Whether what a step says has come of the client and its link.
fn has_come(it: &ClientDrive, step: ClientStep) -> bool {
    match step {
        ClientStep::HasSettled(waits) => it.client.has_settled() == waits,
        ClientStep::Stands(phase) => it.stands(phase),
        ClientStep::HasSent(bytes) => it.link.has_sent(bytes),
        ClientStep::HasSentFromTo(begins, ends) => it.has_sent_from_to(begins, ends),
        ClientStep::HasToSend(bytes) => it.has_to_send(bytes),
        ClientStep::HasToReceive(bytes) => it.has_to_receive(bytes),
        ClientStep::IsLeft(count) => it.is_left(count),
        ClientStep::Failures(count) => it.link.failures == count,
        _ => false,
    }
}

impl DriveStep for ClientStep {
    type Drive = ClientDrive;

    fn drive(alloc: Global, settings: Settings, link: MemoryLink<'static>) -> ClientDrive {
        ClientDrive {
            client: Client::new(alloc, settings),
            out: Vec::new(alloc),
            link,
        }
    }

    fn starts(it: &mut ClientDrive) -> bool {
        it.starts()
    }

    fn feeds(it: &mut ClientDrive, bytes: &[u8]) -> bool {
        it.feeds(bytes)
    }

    fn asks(it: &mut ClientDrive, alloc: Global) -> bool {
        it.asks(alloc)
    }

    fn is_so(self, it: &mut ClientDrive) -> bool {
        match self {
            ClientStep::FailReceive(number) => it.link.fail_receive(number),
            ClientStep::FailSend(number) => it.link.fail_send(number),
            ClientStep::Feed(piece) => it.feeds(piece),
            ClientStep::Lose => it.is_lost(),
            ClientStep::Gives(turns, told) => it.gives(turns, told),
            ClientStep::Settle => it.settles(),
            _ => has_come(it, self),
        }
    }
}
