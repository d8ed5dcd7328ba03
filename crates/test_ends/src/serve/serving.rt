//! Backends that answer over a link in memory. Each test is a table of steps: what is done with a backend, and what must come of it. One
//! function makes the backend and its link, and lends them to those that judge a step.

use crate::backend::script_with;
use pg_backend::{AnswerFault, Answered, BackPhase, Backend, Script, ScriptPart, answer};
use std::alloc::{AllocError, Global};
use testing::values::text;
use testing::{MemoryLink, holds, memory_link};

// Each client is let in, and its first request is answered by the tag `OK`.
fn script(alloc: Global) -> Result<Script, AllocError> {
    script_with(alloc, ScriptPart::Command(text(alloc, b"OK")?))
}

// A backend that plays the script.
fn backend(alloc: Global) -> Option<Backend> {
    let script = script(alloc).ok()?;
    script.check(alloc).ok()?;
    Some(Backend::new(alloc, script, 65_536))
}

/// What is done with a backend and its link, or what must come of it.
#[derive(Clone, Copy)]
pub(crate) enum ServingStep {
    /// The receive of this number fails.
    FailReceive(u64),
    /// The send of this number fails.
    FailSend(u64),
    /// In at most so many turns it answers so.
    Gives(u32, Answered),
    /// In at most so many turns it fails so.
    Fails(u32, AnswerFault),
    /// The backend stands in this phase.
    Stands(BackPhase),
    /// So many requests are decided.
    HasLogged(usize),
    /// Just these bytes were sent.
    HasSent(&'static [u8]),
    /// What was sent begins so.
    HasSentFirst(&'static [u8]),
    /// So many bytes are left to be received.
    IsLeft(usize),
}

/// A backend, and the link that it answers over. What a test asks of it answers whether it was so.
#[derive(Drop)]
struct Serving<'a> {
    backend: Backend,
    link: MemoryLink<'a>,
}

// A new backend, over a link that gives these bytes, so many at a time, and doesn't fail.
fn over_link(alloc: Global, gives: &[u8], most: usize) -> Option<Serving<'_>> {
    Some(Serving {
        backend: backend(alloc)?,
        link: memory_link(alloc, gives, most),
    })
}

impl Serving<'_> {
    fn answers(&mut self, alloc: Global, turns: u32) -> Result<Answered, AnswerFault> {
        answer(alloc, &mut self.backend, &mut self.link, turns)
    }

    fn has_sent_first(&self, bytes: &[u8]) -> bool {
        self.link.taken.as_slice().starts_with(bytes)
    }
}

// Whether what a step says has come of the link.
fn has_come(it: &Serving<'_>, step: ServingStep) -> bool {
    match step {
        ServingStep::Stands(phase) => it.backend.phase() == phase,
        ServingStep::HasLogged(count) => it.backend.log().len() == count,
        ServingStep::HasSent(bytes) => it.link.has_sent(bytes),
        ServingStep::HasSentFirst(bytes) => it.has_sent_first(bytes),
        ServingStep::IsLeft(count) => it.link.gives.len() == count,
        _ => false,
    }
}

// Does what a step says, and whether it was so.
fn is_so(alloc: Global, it: &mut Serving<'_>, step: ServingStep) -> bool {
    match step {
        ServingStep::FailReceive(number) => it.link.fail_receive(number),
        ServingStep::FailSend(number) => it.link.fail_send(number),
        ServingStep::Gives(turns, answered) => it.answers(alloc, turns) == Ok(answered),
        ServingStep::Fails(turns, fault) => it.answers(alloc, turns) == Err(fault),
        _ => has_come(it, step),
    }
}

fn are_so(alloc: Global, it: &mut Serving<'_>, steps: &[ServingStep]) -> bool {
    for step in steps {
        if !is_so(alloc, it, *step) {
            return false;
        }
    }
    true
}

/// Whether a new backend, over a link that gives these bytes, so many at a time, does what these steps say.
pub(crate) fn does(alloc: Global, gives: &[u8], most: usize, steps: &[ServingStep]) -> bool {
    holds(over_link(alloc, gives, most), |it| are_so(alloc, it, steps))
}
