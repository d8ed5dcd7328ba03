//! Early clients that are driven over a link, and what driving one came to, in few words.

use crate::drive::driving::DriveStep;
use pg_client::{Cause, EarlyClient, Item, Loss, Phase, Settings};
use pg_drive::{DriveFault, DrivenEarly, drive_early};
use std::alloc::Global;
use testing::MemoryLink;
use testing::values::query;

/// What driving an early client came to, without what its messages hold.
#[derive(Clone, Copy, Debug, PartialEq, Eq)]
pub(crate) enum Told {
    Ready,
    /// A message with this tag.
    Early(u8),
    Settled,
    CopyIn,
    TurnsUsed,
    Lost(Lost),
    Refused,
    Failed(Lost),
}

/// Whether a request is lost, and whether an error came for it.
#[derive(Clone, Copy, Debug, PartialEq, Eq)]
pub(crate) struct Lost {
    pub(crate) request: bool,
    pub(crate) error: bool,
}

/// No request is lost.
pub(crate) const NOTHING: Lost = Lost {
    request: false,
    error: false,
};

/// A request is lost, and no error came for it.
pub(crate) const REQUEST: Lost = Lost {
    request: true,
    error: false,
};

/// A request is lost, and an error came for it.
pub(crate) const REQUEST_WITH_ERROR: Lost = Lost {
    request: true,
    error: true,
};

fn lost_told(loss: &Loss) -> Lost {
    Lost {
        request: loss.unsettled.is_some(),
        error: loss.seen_error,
    }
}

// What of an item is told.
fn item_told(item: &Item) -> Told {
    match item {
        Item::Early(message) => Told::Early(message.tag()),
        Item::Settled { .. } => Told::Settled,
    }
}

fn driven_told(driven: &DrivenEarly) -> Told {
    match driven {
        DrivenEarly::Ready => Told::Ready,
        DrivenEarly::Item(item) => item_told(item),
        DrivenEarly::CopyIn => Told::CopyIn,
        DrivenEarly::TurnsUsed => Told::TurnsUsed,
        DrivenEarly::Lost(loss) => Told::Lost(lost_told(loss)),
    }
}

fn fault_told(fault: &DriveFault) -> Told {
    match fault {
        DriveFault::Feed(_) => Told::Refused,
        DriveFault::Link(loss) => Told::Failed(lost_told(loss)),
    }
}

// What of an answer is told.
fn answer_told(answer: &Result<DrivenEarly, DriveFault>) -> Told {
    match answer {
        Ok(driven) => driven_told(driven),
        Err(fault) => fault_told(fault),
    }
}

/// What is done with a client and its link, or what must come of it.
#[derive(Clone, Copy)]
pub(crate) enum EarlyStep {
    /// The receive of this number fails.
    FailReceive(u64),
    /// The send of this number fails.
    FailSend(u64),
    /// These bytes are taken, and not by the link.
    Feed(&'static [u8]),
    /// The end of a copy is put out.
    EndCopy,
    /// Driven with at most so many receives, it comes to this.
    Gives(u32, Told),
    /// Driven so, once for each, it comes to these.
    GivesAll(u32, &'static [Told]),
    /// Driven, it ends as the link fails, once. This is lost, the client is closed, and no item waits.
    Fails(Lost),
    /// Without the link, it gives an item that comes to this, or none.
    HasItem(Option<Told>),
    /// The client stands in this phase.
    Stands(Phase),
    /// Just these bytes were sent.
    HasSent(&'static [u8]),
    /// Just the first so many of these bytes were sent, and just the others wait to be sent.
    HasSentOf(&'static [u8], usize),
    /// Something waits to be sent, or nothing.
    HasToSend(bool),
    /// So many bytes are left to be received.
    IsLeft(usize),
    /// So many calls of the link have failed.
    Failures(u64),
}

/// An early client, what it has put out, and the link that it is driven over. What a test asks of it answers whether it was so.
#[derive(Drop)]
pub(crate) struct EarlyDrive {
    client: EarlyClient,
    out: Vec<u8>,
    link: MemoryLink<'static>,
}

impl EarlyDrive {
    fn starts(&mut self) -> bool {
        self.client.start(&mut self.out).is_ok()
    }

    fn requests(&mut self, alloc: Global) -> bool {
        match query(alloc, b"SELECT 1") {
            Ok(request) => self.client.request(request, &mut self.out).is_ok(),
            Err(_) => false,
        }
    }

    fn feeds(&mut self, bytes: &[u8]) -> bool {
        self.client.feed(bytes, &mut self.out).is_ok()
    }

    fn ends_copy(&mut self) -> bool {
        self.client.copy_done(&mut self.out).is_ok()
    }

    fn drive(&mut self, turns: u32) -> Told {
        answer_told(&drive_early(&mut self.client, &mut self.out, &mut self.link, turns))
    }

    fn gives_all(&mut self, turns: u32, tolds: &[Told]) -> bool {
        for told in tolds {
            if self.drive(turns) != *told {
                return false;
            }
        }
        true
    }

    // Driven, it ends as the link fails, once, and gives no item.
    fn fails(&mut self, lost: Lost) -> bool {
        self.drive(100) == Told::Failed(lost)
            && self.link.failures == 1
            && self.client.phase() == Phase::Closed(Cause::Lost)
            && self.take_item().is_none()
    }

    // What the item that is given without the link comes to.
    fn take_item(&mut self) -> Option<Told> {
        match self.client.take_item() {
            Some(item) => Some(item_told(&item)),
            None => None,
        }
    }

    fn has_sent_of(&self, bytes: &[u8], sent: usize) -> bool {
        match bytes.split_at_checked(sent) {
            Some((sent, waiting)) => self.link.has_sent(sent) && self.out.as_slice() == waiting,
            None => false,
        }
    }
}

// Whether what a step says has come of the client and its link.
fn has_come(it: &EarlyDrive, step: EarlyStep) -> bool {
    match step {
        EarlyStep::Stands(phase) => it.client.phase() == phase,
        EarlyStep::HasSent(bytes) => it.link.has_sent(bytes),
        EarlyStep::HasSentOf(bytes, sent) => it.has_sent_of(bytes, sent),
        EarlyStep::HasToSend(waits) => it.out.is_empty() != waits,
        EarlyStep::IsLeft(count) => it.link.gives.len() == count,
        EarlyStep::Failures(count) => it.link.failures == count,
        _ => false,
    }
}

impl DriveStep for EarlyStep {
    type Drive = EarlyDrive;

    fn drive(alloc: Global, settings: Settings, link: MemoryLink<'static>) -> EarlyDrive {
        EarlyDrive {
            client: EarlyClient::new(alloc, settings),
            out: Vec::new(alloc),
            link,
        }
    }

    fn starts(it: &mut EarlyDrive) -> bool {
        it.starts()
    }

    fn feeds(it: &mut EarlyDrive, bytes: &[u8]) -> bool {
        it.feeds(bytes)
    }

    fn asks(it: &mut EarlyDrive, alloc: Global) -> bool {
        it.out.clear();
        it.requests(alloc)
    }

    fn is_so(self, it: &mut EarlyDrive) -> bool {
        match self {
            EarlyStep::FailReceive(number) => it.link.fail_receive(number),
            EarlyStep::FailSend(number) => it.link.fail_send(number),
            EarlyStep::Feed(bytes) => it.feeds(bytes),
            EarlyStep::EndCopy => it.ends_copy(),
            EarlyStep::Gives(turns, told) => it.drive(turns) == told,
            EarlyStep::GivesAll(turns, tolds) => it.gives_all(turns, tolds),
            EarlyStep::Fails(lost) => it.fails(lost),
            EarlyStep::HasItem(told) => it.take_item() == told,
            _ => has_come(it, self),
        }
    }
}
