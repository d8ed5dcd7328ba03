//! What was done or came in a session.

ghost use Rattle.std.specs.Prelude.{◌≡◌};
ghost use Rattle.test_programs.specs.Entry.{server_bytes};

use hex::FromHexError;
use pg_client::Call;
use pg_wire::{EncodeFault, Request, Seq, Step, Target, Values};
use std::alloc::{AllocError, AllocFailed, Global};
use thiserror::Error;

/// A call, a step of the next group, or bytes.
#[derive(Drop)]
pub enum Entry {
    /// The call of start, with the parameters of the startup packet, the user first.
    Start(Seq<(Seq<u8>, Seq<u8>)>),
    /// The password that the client has, after its start. It is sent where the server asks for it, not by a call.
    Password(Seq<u8>),
    Step(Step),
    /// The request of a group of the steps before it.
    Sync,
    /// Another call.
    Call(Call),
    /// What the client has sent since the last time.
    Sent(Vec<u8>),
    /// What the server has sent.
    Bytes(Vec<u8>),
    /// Where both clients stand, and which messages the early client has given since the last time.
    Told { phase: String, messages: Vec<u8> },
}

/// Why a line is no entry.
#[derive(Debug, Drop, Error)]
pub enum EntryFault {
    #[error("no entry has this name")]
    NoEntry,
    #[error("{0}")]
    NoBytes(FromHexError),
    #[error("a number is wanted")]
    NoNumber,
    #[error("S or P is wanted")]
    NoTarget,
    #[error("a parameter has a name, = and a value")]
    NoParameter,
    #[error("a value is null, or = and its bytes")]
    NoValue,
    #[error("memory")]
    Memory,
}

impl From<AllocError> for EntryFault {
    fn from(_e: AllocError) -> EntryFault {
        EntryFault::Memory
    }
}

impl From<EncodeFault> for EntryFault {
    fn from(_e: EncodeFault) -> EntryFault {
        EntryFault::NoValue
    }
}

impl<T: Drop> From<AllocFailed<T>> for EntryFault {
    fn from(_e: AllocFailed<T>) -> EntryFault {
        EntryFault::Memory
    }
}

// The text up to a space, and what stands after the space.
fn word(text: &str) -> (&str, &str) {
    text.split_once(' ').unwrap_or((text, ""))
}

fn text_of(alloc: Global, text: &str) -> Result<Seq<u8>, EntryFault> {
    Ok(Seq::from_slice(alloc, text.as_bytes())?)
}

fn bytes_of(alloc: Global, digits: &str) -> Result<Vec<u8>, EntryFault> {
    hex::decode(alloc, digits).map_err(EntryFault::NoBytes)
}

// The parameters of a startup packet, parted by spaces.
fn parameters_of(alloc: Global, text: &str) -> Result<Seq<(Seq<u8>, Seq<u8>)>, EntryFault> {
    let mut parameters = Vec::new(alloc);
    for parameter in text.split(' ') {
        let (name, value) = parameter.split_once('=').ok_or(EntryFault::NoParameter)?;
        parameters.push((text_of(alloc, name)?, text_of(alloc, value)?))?;
    }
    Ok(Seq::new(parameters))
}

// Numbers, parted by commas; none of no text.
fn types_of(alloc: Global, text: &str) -> Result<Seq<u32>, EntryFault> {
    let mut types = Vec::new(alloc);
    for number in text.split(',') {
        if !text.is_empty() {
            types.push(number.parse().map_err(|_| EntryFault::NoNumber)?)?;
        }
    }
    Ok(Seq::new(types))
}

fn formats_of(alloc: Global, text: &str) -> Result<Seq<i16>, EntryFault> {
    let mut formats = Vec::new(alloc);
    for number in text.split(',') {
        if !text.is_empty() {
            formats.push(number.parse().map_err(|_| EntryFault::NoNumber)?)?;
        }
    }
    Ok(Seq::new(formats))
}

fn values_of(alloc: Global, text: &str) -> Result<Values, EntryFault> {
    let mut values = Values::new(alloc);
    for value in text.split(',') {
        if value == "null" {
            values.push(None)?;
        } else if !text.is_empty() {
            let digits = value.strip_prefix("=").ok_or(EntryFault::NoValue)?;
            let bytes = bytes_of(alloc, digits)?;
            values.push(Some(bytes.as_slice()))?;
        }
    }
    Ok(values)
}

fn target_of(text: &str) -> Result<Target, EntryFault> {
    match text {
        "S" => Ok(Target::Statement),
        "P" => Ok(Target::Portal),
        _ => Err(EntryFault::NoTarget),
    }
}

fn parse_of(alloc: Global, text: &str) -> Result<Step, EntryFault> {
    let (name, text) = word(text);
    let (types, text) = word(text);
    Ok(Step::Parse {
        name: text_of(alloc, name)?,
        text: text_of(alloc, text)?,
        types: types_of(alloc, types)?,
    })
}

fn bind_of(alloc: Global, text: &str) -> Result<Step, EntryFault> {
    let (portal, text) = word(text);
    let (statement, text) = word(text);
    let (formats, text) = word(text);
    let (values, result_formats) = word(text);
    Ok(Step::Bind {
        portal: text_of(alloc, portal)?,
        statement: text_of(alloc, statement)?,
        formats: formats_of(alloc, formats)?,
        values: values_of(alloc, values)?,
        result_formats: formats_of(alloc, result_formats)?,
    })
}

fn describe_of(alloc: Global, text: &str) -> Result<Step, EntryFault> {
    let (target, name) = word(text);
    Ok(Step::Describe {
        target: target_of(target)?,
        name: text_of(alloc, name)?,
    })
}

fn execute_of(alloc: Global, text: &str) -> Result<Step, EntryFault> {
    let (max_rows, portal) = word(text);
    Ok(Step::Execute {
        portal: text_of(alloc, portal)?,
        max_rows: max_rows.parse().map_err(|_| EntryFault::NoNumber)?,
    })
}

fn close_of(alloc: Global, text: &str) -> Result<Step, EntryFault> {
    let (target, name) = word(text);
    Ok(Step::Close {
        target: target_of(target)?,
        name: text_of(alloc, name)?,
    })
}

fn query_of(alloc: Global, text: &str) -> Result<Call, EntryFault> {
    Ok(Call::Request(Request::Query(text_of(alloc, text)?)))
}

fn told_of(alloc: Global, text: &str) -> Result<Entry, EntryFault> {
    let (phase, digits) = word(text);
    Ok(Entry::Told {
        phase: String::from_str(alloc, phase)?,
        messages: bytes_of(alloc, digits)?,
    })
}

impl Entry {
    /// The entry of a line: its name, a space, and its fields, parted by spaces. Bytes are in hexadecimal.
    pub fn of_line(alloc: Global, line: &str) -> Result<Entry, EntryFault> {
        let (name, rest) = word(line);
        match name {
            "start" => Ok(Entry::Start(parameters_of(alloc, rest)?)),
            "password" => Ok(Entry::Password(text_of(alloc, rest)?)),
            "parse" => Ok(Entry::Step(parse_of(alloc, rest)?)),
            "bind" => Ok(Entry::Step(bind_of(alloc, rest)?)),
            "describe" => Ok(Entry::Step(describe_of(alloc, rest)?)),
            "execute" => Ok(Entry::Step(execute_of(alloc, rest)?)),
            "close" => Ok(Entry::Step(close_of(alloc, rest)?)),
            "sync" => Ok(Entry::Sync),
            "query" => Ok(Entry::Call(query_of(alloc, rest)?)),
            "chunk" => Ok(Entry::Call(Call::Chunk(Seq::new(bytes_of(alloc, rest)?)))),
            "done" => Ok(Entry::Call(Call::Done)),
            "fail" => Ok(Entry::Call(Call::Fail(text_of(alloc, rest)?))),
            "terminate" => Ok(Entry::Call(Call::Terminate)),
            "sent" => Ok(Entry::Sent(bytes_of(alloc, rest)?)),
            "bytes" => Ok(Entry::Bytes(bytes_of(alloc, rest)?)),
            "told" => told_of(alloc, rest),
            _ => Err(EntryFault::NoEntry),
        }
    }

    /// How many bytes of the server it has.
    pub fn server_bytes(&self) -> usize
        ensures { result ≡ server_bytes self.now }
    {
        match self {
            Entry::Bytes(bytes) => bytes.len(),
            _ => 0,
        }
    }
}
