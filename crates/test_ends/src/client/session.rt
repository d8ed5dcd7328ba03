//! A client, what is done with it, and the requests that it makes.

use super::TableRequest;
use pg_client::{Client, Phase, Settings};
use pg_wire::{Request, Seq, Step, Target};
use std::alloc::{AllocError, Global};
use testing::values::{WELCOME, none, query, text};

fn execute(alloc: Global) -> Step {
    Step::Execute {
        portal: none(alloc),
        max_rows: 0,
    }
}

// A step that has no spelling.
fn unspelled(alloc: Global) -> Result<Step, AllocError> {
    Ok(Step::Close {
        target: Target::Portal,
        name: text(alloc, b"a\0")?,
    })
}

fn group(alloc: Global) -> Result<Request, AllocError> {
    Ok(Request::Group(Seq::new(vec![in alloc; execute(alloc)]?)))
}

fn unspelled_group(alloc: Global) -> Result<Request, AllocError> {
    let steps = vec![in alloc; execute(alloc), unspelled(alloc)?]?;
    Ok(Request::Group(Seq::new(steps)))
}

pub fn request(alloc: Global, request: TableRequest) -> Result<Request, AllocError> {
    match request {
        TableRequest::Query => query(alloc, b"SELECT 1"),
        TableRequest::Group => group(alloc),
        TableRequest::Unspelled => unspelled_group(alloc),
    }
}

/// A client, and what it has put out. What a test asks of it answers whether it was so.
#[derive(Drop)]
pub struct TriedClient {
    pub client: Client,
    pub out: Vec<u8>,
}

/// A client that has put nothing out.
pub fn session_of(alloc: Global, client: Client) -> TriedClient {
    TriedClient {
        client,
        out: Vec::new(alloc),
    }
}

/// A client of the user `u` in phase New, which has put nothing out.
pub fn fresh(alloc: Global) -> Result<TriedClient, AllocError> {
    let mut settings = Settings::new(alloc, text(alloc, b"u")?);
    settings.limit = 65_536;
    Ok(session_of(alloc, Client::new(alloc, settings)))
}

impl TriedClient {
    pub fn starts(&mut self) -> bool {
        self.client.start(&mut self.out).is_ok()
    }

    pub fn takes(&mut self, bytes: &[u8]) -> bool {
        self.client.feed(bytes, &mut self.out).is_ok()
    }

    /// What was put out is taken off.
    pub fn sends(&mut self) -> bool {
        self.out.clear();
        true
    }

    /// Starts and is let in, with these messages after the AuthenticationOk, and what was put out is taken off.
    pub fn is_introduced(&mut self, messages: &[u8]) -> bool {
        let welcomed = self.starts() && self.takes(&WELCOME[..9]) && self.takes(messages);
        welcomed && self.takes(&WELCOME[9..]) && self.sends()
    }

    /// Starts and is let in, and what was put out is taken off.
    pub fn begins(&mut self) -> bool {
        self.starts() && self.takes(&WELCOME) && self.sends()
    }

    fn requests(&mut self, request: Request) -> bool {
        self.client.request(request, &mut self.out).is_ok()
    }

    /// Makes a request, if memory was left for it.
    pub fn makes(&mut self, alloc: Global, made: TableRequest) -> bool {
        match request(alloc, made) {
            Ok(request) => self.requests(request),
            Err(_) => false,
        }
    }

    pub fn puts_chunk(&mut self, bytes: &[u8]) -> bool {
        self.client.copy_chunk(bytes, &mut self.out).is_ok()
    }

    pub fn ends_copy(&mut self) -> bool {
        self.client.copy_done(&mut self.out).is_ok()
    }

    pub fn fails_copy(&mut self, reason: &[u8]) -> bool {
        self.client.copy_fail(reason, &mut self.out).is_ok()
    }

    pub fn terminates(&mut self) -> bool {
        self.client.terminate(&mut self.out).is_ok()
    }

    pub fn cancels(&mut self) -> bool {
        self.client.cancel_packet(&mut self.out).is_ok()
    }

    /// Has put just these bytes out, and is in this phase.
    pub fn has_put(&self, bytes: &[u8], phase: Phase) -> bool {
        self.out.as_slice() == bytes && self.client.phase() == phase
    }
}
