//! What a client settles, and what it hands back as its connection is gone.

use super::session::{TriedClient, request};
use super::{TableGroup, TableRequest};
use pg_client::{Cause, Loss, Phase, Settled};
use pg_wire::{Aside, Fields, Outcome, Part, Request, Seq, Status};
use std::alloc::{AllocError, Global};

fn query(alloc: Global) -> Result<Request, AllocError> {
    request(alloc, TableRequest::Query)
}

// One command, with these asides.
fn completed(alloc: Global, asides: Vec<Aside>) -> Result<Outcome, AllocError> {
    let tag = Seq::from_slice(alloc, b"OK")?;
    Ok(Outcome {
        parts: Seq::new(vec![in alloc; Part::Command(tag)]?),
        error: None,
        status: Status::Idle,
        asides: Seq::new(asides),
    })
}

fn noted(alloc: Global) -> Result<Outcome, AllocError> {
    let notice = Aside::Notice(Fields::new(alloc));
    completed(alloc, vec![in alloc; notice]?)
}

// An error without a field.
fn failed(alloc: Global) -> Outcome {
    Outcome {
        parts: Seq::new(Vec::new(alloc)),
        error: Some(Fields::new(alloc)),
        status: Status::Failed,
        asides: Seq::new(Vec::new(alloc)),
    }
}

fn outcome(alloc: Global, group: TableGroup) -> Result<Outcome, AllocError> {
    match group {
        TableGroup::Completed => completed(alloc, Vec::new(alloc)),
        TableGroup::Noted => noted(alloc),
        TableGroup::Failed => Ok(failed(alloc)),
    }
}

fn settled(alloc: Global, group: TableGroup) -> Result<Settled, AllocError> {
    let request = query(alloc)?;
    let outcome = outcome(alloc, group)?;
    Ok(Settled { request, outcome })
}

// The query is lost, after an error or not.
fn query_lost(alloc: Global, seen_error: bool) -> Result<Loss, AllocError> {
    Ok(Loss {
        unsettled: Some(query(alloc)?),
        seen_error,
    })
}

fn nothing_lost() -> Loss {
    Loss {
        unsettled: None,
        seen_error: false,
    }
}

impl TriedClient {
    /// Shows this status and phase.
    pub fn shows(&self, status: Option<Status>, phase: Phase) -> bool {
        self.client.status() == status && self.client.phase() == phase
    }

    pub fn settles_nothing(&mut self) -> bool {
        self.client.take_settled().is_none()
    }

    /// Gives a group, and is in phase Ready.
    pub fn settles(&mut self) -> bool {
        self.client.take_settled().is_some() && self.client.phase() == Phase::Ready
    }

    // Gives this group.
    fn settles_as(&mut self, settled: &Settled) -> bool {
        match self.client.take_settled() {
            Some(group) => group == *settled,
            None => false,
        }
    }

    fn gives_group(&mut self, alloc: Global, group: TableGroup) -> bool {
        match settled(alloc, group) {
            Ok(settled) => self.settles_as(&settled),
            Err(_) => false,
        }
    }

    /// Gives just this group, and shows this status in phase Ready.
    pub fn gives(&mut self, alloc: Global, group: TableGroup, status: Status) -> bool {
        self.gives_group(alloc, group)
            && self.settles_nothing()
            && self.shows(Some(status), Phase::Ready)
    }

    // Hands this loss back.
    fn loses(&mut self, loss: &Loss) -> bool {
        self.client.lost() == *loss
    }

    fn loses_this(&mut self, loss: Result<Loss, AllocError>) -> bool {
        match loss {
            Ok(loss) => self.loses(&loss),
            Err(_) => false,
        }
    }

    /// When its connection is gone, hands the query back once, and settles nothing.
    pub fn loses_query(&mut self, alloc: Global, seen_error: bool) -> bool {
        self.loses_this(query_lost(alloc, seen_error))
            && self.loses_this(Ok(nothing_lost()))
            && self.settles_nothing()
            && self.client.phase() == Phase::Closed(Cause::Lost)
    }
}
