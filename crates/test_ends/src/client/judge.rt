//! What is so of a client at each step.

use super::session::{TriedClient, request};
use super::{TableFault, TableRequest, TableStep};
use pg_client::{CallFault, Cause, FeedFault, Phase};
use pg_wire::{Fields, Request};
use std::alloc::{AllocError, Global};
use testing::TestStep;

fn fault(alloc: Global, fault: TableFault) -> FeedFault {
    match fault {
        TableFault::Wire(fault) => FeedFault::Wire(fault),
        TableFault::Unexpected(tag) => FeedFault::Unexpected(tag),
        TableFault::UnsupportedAuth(code) => FeedFault::UnsupportedAuth(code),
        TableFault::PasswordWanted => FeedFault::PasswordWanted,
        TableFault::StartupError => FeedFault::StartupError(Fields::new(alloc)),
        TableFault::ServerEnd => FeedFault::ServerEnd(Fields::new(alloc)),
    }
}

impl TriedClient {
    fn is_refused(&mut self, bytes: &[u8], fault: &FeedFault) -> bool {
        match self.client.feed(bytes, &mut self.out) {
            Ok(()) => false,
            Err(given) => given == *fault,
        }
    }

    // Refuses these bytes with this fault, and is closed then for good.
    fn refuses(&mut self, bytes: &[u8], fault: FeedFault, cause: Cause) -> bool {
        let first = self.is_refused(bytes, &fault);
        let again = self.is_refused(bytes, &FeedFault::Closed);
        first && again && self.client.phase() == Phase::Closed(cause)
    }

    // Hands a request back with this fault, and puts nothing out.
    fn refuses_request(&mut self, made: Request, same: Request, fault: CallFault) -> bool {
        self.out.clear();
        self.client.request(made, &mut self.out) == Err((same, fault)) && self.out.is_empty()
    }

    fn hands_back(
        &mut self,
        alloc: Global,
        made: TableRequest,
        fault: CallFault,
    ) -> Result<bool, AllocError> {
        let same = request(alloc, made)?;
        Ok(self.refuses_request(request(alloc, made)?, same, fault))
    }

    // Refuses a chunk as it isn't copying, but in this phase, and puts nothing out.
    fn takes_no_chunk(&mut self, phase: Phase) -> bool {
        self.out.clear();
        let refused = self.client.copy_chunk(b"1", &mut self.out);
        refused == Err(CallFault::NotCopying(phase)) && self.has_put(b"", phase)
    }

    // Has no key to cancel with.
    fn has_no_key(&mut self) -> bool {
        self.out.clear();
        self.client.cancel_packet(&mut self.out) == Err(CallFault::NoKey) && self.out.is_empty()
    }

    // Can't be started, and is as it was.
    fn cannot_start(&mut self, fault: CallFault) -> bool {
        self.client.start(&mut self.out) == Err(fault) && self.has_put(b"", Phase::New)
    }

    // Knows that the parameter `a` has the value `b`, and that `b` has none.
    fn knows(&self) -> bool {
        self.client.parameter(b"a") == Some(b"b".as_slice())
            && self.client.parameter(b"b").is_none()
    }
}

// Whether what a step says is rejected.
fn is_refused(alloc: Global, session: &mut TriedClient, step: TableStep) -> bool {
    match step {
        TableStep::HasNoKey => session.has_no_key(),
        TableStep::Refuses(bytes, why, cause) => session.refuses(bytes, fault(alloc, why), cause),
        TableStep::HandsBack(made, fault) => session.hands_back(alloc, made, fault) == Ok(true),
        TableStep::RefusesChunk(phase) => session.takes_no_chunk(phase),
        TableStep::CannotStart(fault) => session.cannot_start(fault),
        _ => false,
    }
}

// Whether what a step says has come of the client.
fn has_come(alloc: Global, session: &mut TriedClient, step: TableStep) -> bool {
    match step {
        TableStep::HasPut(bytes, phase) => session.has_put(bytes, phase),
        TableStep::Shows(status, phase) => session.shows(status, phase),
        TableStep::Gives(group, status) => session.gives(alloc, group, status),
        TableStep::Settles => session.settles(),
        TableStep::SettlesNothing => session.settles_nothing(),
        TableStep::LosesQuery(seen_error) => session.loses_query(alloc, seen_error),
        TableStep::Knows => session.knows(),
        _ => is_refused(alloc, session, step),
    }
}

impl TestStep<TriedClient> for TableStep {
    fn is_so(self, alloc: Global, it: &mut TriedClient) -> bool {
        match self {
            TableStep::Start => it.starts(),
            TableStep::Take(bytes) => it.takes(bytes),
            TableStep::Send => it.sends(),
            TableStep::Begin => it.begins(),
            TableStep::Introduce(messages) => it.is_introduced(messages),
            TableStep::Make(made) => it.makes(alloc, made),
            TableStep::Chunk(bytes) => it.puts_chunk(bytes),
            TableStep::EndCopy => it.ends_copy(),
            TableStep::FailCopy(reason) => it.fails_copy(reason),
            TableStep::Terminate => it.terminates(),
            TableStep::Cancel => it.cancels(),
            _ => has_come(alloc, it, self),
        }
    }
}
