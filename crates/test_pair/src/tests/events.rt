//! Events as tables have them: they own nothing, and the pair's events are made of them as they happen.

use pg_pair::{Call, Event};
use pg_wire::{Request, Seq, Step, Target, Values};
use std::alloc::{AllocError, Global};

/// A step of a group.
#[derive(Clone, Copy)]
pub enum TableStep {
    Parse {
        name: &'static [u8],
        query: &'static [u8],
        types: &'static [u32],
    },
    /// All formats are text.
    Bind {
        portal: &'static [u8],
        statement: &'static [u8],
        values: &'static [Option<&'static [u8]>],
    },
    /// The portal of this name is described.
    Describe(&'static [u8]),
    /// The portal of this name gives all its rows.
    Execute(&'static [u8]),
}

/// What a client asks for.
#[derive(Clone, Copy)]
pub enum TableRequest {
    Query(&'static [u8]),
    Group(&'static [TableStep]),
}

/// What happens to a pair.
#[derive(Clone, Copy)]
pub enum TableEvent {
    Start,
    Request(TableRequest),
    Chunk(&'static [u8]),
    Done,
    Fail(&'static [u8]),
    Terminate,
    Step,
    ToBackend(u32),
    ToClient(u32),
    BreakToClient,
}

/// What the client asks for, where it matters little.
pub const ASKED: TableRequest = TableRequest::Query(b"SELECT 1");

pub const ASKS: TableEvent = TableEvent::Request(ASKED);

/// A query with one parameter is prepared, bound, described and run.
pub const GROUP: [TableStep; 4] = [
    TableStep::Parse {
        name: b"s",
        query: b"SELECT $1",
        types: &[25],
    },
    TableStep::Bind {
        portal: b"p",
        statement: b"s",
        values: &[Some(b"1")],
    },
    TableStep::Describe(b"p"),
    TableStep::Execute(b"p"),
];

/// A query without parameters is prepared, bound and run, and nothing has a name.
pub const UNNAMED: [TableStep; 3] = [
    TableStep::Parse {
        name: b"",
        query: b"SELECT",
        types: &[],
    },
    TableStep::Bind {
        portal: b"",
        statement: b"",
        values: &[],
    },
    TableStep::Execute(b""),
];

pub fn text(alloc: Global, bytes: &[u8]) -> Result<Seq<u8>, AllocError> {
    Seq::from_slice(alloc, bytes)
}

pub fn values(alloc: Global, list: &[Option<&[u8]>]) -> Result<Values, AllocError> {
    Values::from_slice(alloc, list).map_err(|_| AllocError)
}

fn parse(alloc: Global, name: &[u8], query: &[u8], types: &[u32]) -> Result<Step, AllocError> {
    Ok(Step::Parse {
        name: text(alloc, name)?,
        text: text(alloc, query)?,
        types: Seq::from_slice(alloc, types)?,
    })
}

fn bind(
    alloc: Global,
    portal: &[u8],
    statement: &[u8],
    list: &[Option<&[u8]>],
) -> Result<Step, AllocError> {
    Ok(Step::Bind {
        portal: text(alloc, portal)?,
        statement: text(alloc, statement)?,
        formats: Seq::new(Vec::new(alloc)),
        values: values(alloc, list)?,
        result_formats: Seq::new(Vec::new(alloc)),
    })
}

fn describe(alloc: Global, portal: &[u8]) -> Result<Step, AllocError> {
    Ok(Step::Describe {
        target: Target::Portal,
        name: text(alloc, portal)?,
    })
}

fn execute(alloc: Global, portal: &[u8]) -> Result<Step, AllocError> {
    Ok(Step::Execute {
        portal: text(alloc, portal)?,
        max_rows: 0,
    })
}

fn step(alloc: Global, step: TableStep) -> Result<Step, AllocError> {
    match step {
        TableStep::Parse { name, query, types } => parse(alloc, name, query, types),
        TableStep::Bind {
            portal,
            statement,
            values,
        } => bind(alloc, portal, statement, values),
        TableStep::Describe(portal) => describe(alloc, portal),
        TableStep::Execute(portal) => execute(alloc, portal),
    }
}

fn steps(alloc: Global, list: &[TableStep]) -> Result<Vec<Step>, AllocError> {
    let mut steps = Vec::new(alloc);
    for it in list {
        steps.push(step(alloc, *it)?)?;
    }
    Ok(steps)
}

pub fn request(alloc: Global, request: TableRequest) -> Result<Request, AllocError> {
    match request {
        TableRequest::Query(query) => Ok(Request::Query(text(alloc, query)?)),
        TableRequest::Group(list) => Ok(Request::Group(Seq::new(steps(alloc, list)?))),
    }
}

/// The event that a table has so.
pub fn event(alloc: Global, event: TableEvent) -> Result<Event, AllocError> {
    Ok(match event {
        TableEvent::Start => Event::Call(Call::Start),
        TableEvent::Request(asked) => Event::Call(Call::Request(request(alloc, asked)?)),
        TableEvent::Chunk(bytes) => Event::Call(Call::Chunk(text(alloc, bytes)?)),
        TableEvent::Done => Event::Call(Call::Done),
        TableEvent::Fail(reason) => Event::Call(Call::Fail(text(alloc, reason)?)),
        TableEvent::Terminate => Event::Call(Call::Terminate),
        TableEvent::Step => Event::Step,
        TableEvent::ToBackend(most) => Event::ToBackend(most),
        TableEvent::ToClient(most) => Event::ToClient(most),
        TableEvent::BreakToClient => Event::BreakToClient,
    })
}

pub fn events(alloc: Global, list: &[TableEvent]) -> Result<Vec<Event>, AllocError> {
    let mut events = Vec::new(alloc);
    for it in list {
        events.push(event(alloc, *it)?)?;
    }
    Ok(events)
}
