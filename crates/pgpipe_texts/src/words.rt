//! Words for the numbers of the protocol.

ghost use Rattle.std.specs.Prelude.{◌≡◌, ◌++◌, option_copied, OnOk};
ghost use Rattle.pgpipe_texts.specs.Words.{array_type, format_text, other_type, plain_type};
ghost use Rattle.pgpipe_texts.specs.Words.{status_text, target_text, type_text};

use crate::text::{Readable, put_number};
use pg_wire::{Status, Target};
use std::alloc::AllocError;

/// The names of the types of numbers, texts and bytes, by their object ids.
#[tactic(auto, unfolding(crate::specs::Words::plain_type))]
pub fn plain_type(oid: u32) -> Option<&'static str>
    ensures { option_copied result ≡ plain_type oid }
{
    match oid {
        16 => Some("bool"),
        17 => Some("bytea"),
        19 => Some("name"),
        20 => Some("int8"),
        21 => Some("int2"),
        23 => Some("int4"),
        25 => Some("text"),
        26 => Some("oid"),
        700 => Some("float4"),
        701 => Some("float8"),
        1042 => Some("bpchar"),
        1043 => Some("varchar"),
        1700 => Some("numeric"),
        _ => None,
    }
}

/// The names of the types of times, documents, addresses and what has no type of its own.
#[tactic(auto, unfolding(crate::specs::Words::other_type))]
pub fn other_type(oid: u32) -> Option<&'static str>
    ensures { option_copied result ≡ other_type oid }
{
    match oid {
        114 => Some("json"),
        142 => Some("xml"),
        705 => Some("unknown"),
        869 => Some("inet"),
        1082 => Some("date"),
        1083 => Some("time"),
        1114 => Some("timestamp"),
        1184 => Some("timestamptz"),
        1186 => Some("interval"),
        2249 => Some("record"),
        2278 => Some("void"),
        2950 => Some("uuid"),
        3802 => Some("jsonb"),
        _ => None,
    }
}

/// The names of the types of arrays.
#[tactic(auto, unfolding(crate::specs::Words::array_type))]
pub fn array_type(oid: u32) -> Option<&'static str>
    ensures { option_copied result ≡ array_type oid }
{
    match oid {
        1000 => Some("bool[]"),
        1005 => Some("int2[]"),
        1007 => Some("int4[]"),
        1009 => Some("text[]"),
        1015 => Some("varchar[]"),
        1016 => Some("int8[]"),
        1022 => Some("float8[]"),
        1231 => Some("numeric[]"),
        _ => None,
    }
}

/// A type, by its object id.
impl Readable for u32 {
    ghost text = { type_text };

    #[tactic(auto, unfolding(crate::specs::Words::type_text))]
    fn put(&self, line: &mut Vec<u8>) -> Result<(), AllocError> {
        if let Some(name) = plain_type(*self) {
            return line.extend_from_slice(name.as_bytes());
        }
        if let Some(name) = other_type(*self) {
            return line.extend_from_slice(name.as_bytes());
        }
        if let Some(name) = array_type(*self) {
            return line.extend_from_slice(name.as_bytes());
        }
        put_number(*self, line)
    }
}

/// A format, by its code.
impl Readable for i16 {
    ghost text = { format_text };

    #[tactic(auto, unfolding(crate::specs::Words::format_text))]
    fn put(&self, line: &mut Vec<u8>) -> Result<(), AllocError> {
        match *self {
            0 => line.extend_from_slice(b"text"),
            1 => line.extend_from_slice(b"binary"),
            code => put_number(code, line),
        }
    }
}

impl Readable for Status {
    ghost text = { status_text };

    fn put(&self, line: &mut Vec<u8>) -> Result<(), AllocError> {
        match self {
            Status::Idle => line.extend_from_slice(b"idle"),
            Status::InBlock => line.extend_from_slice(b"in a transaction"),
            Status::Failed => line.extend_from_slice(b"in a failed transaction"),
        }
    }
}

impl Readable for Target {
    ghost text = { target_text };

    fn put(&self, line: &mut Vec<u8>) -> Result<(), AllocError> {
        match self {
            Target::Statement => line.extend_from_slice(b"statement "),
            Target::Portal => line.extend_from_slice(b"portal "),
        }
    }
}
