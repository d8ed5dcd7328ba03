//! What a client's first packets are shown as.

ghost use Rattle.std.specs.Prelude.{◌≡◌, IfOk, OnOk};
ghost use Rattle.serde_json.specs.View.{members_view, view};
ghost use Rattle.pgpipe_texts.specs.Json.Members.{with_members};
ghost use Rattle.pgpipe_texts.specs.Json.Packet.{packet_called, packet_json, packet_members};
ghost use Rattle.pgpipe_texts.specs.Json.Packet.{parameter_json};

use super::backend::put_key;
use super::members::{begin, put_shown, put_text};
use super::values::ToJson;
use pg_wire::{First, Seq};
use serde_json::{Map, Value};
use std::alloc::{AllocError, Global};

/// A parameter of a startup.
impl ToJson for (Seq<u8>, Seq<u8>) {
    ghost shown = { parameter_json };

    fn value(&self, alloc: Global) -> Result<Value, AllocError> {
        let mut parameter = Map::new(alloc);
        put_text("name", self.0.as_slice(), alloc, &mut parameter)?;
        put_text("value", self.1.as_slice(), alloc, &mut parameter)?;
        Ok(Value::from(parameter))
    }
}

/// The name of a first packet, as the documentation has it.
pub fn packet_called(packet: &First) -> &'static str
    ensures { result.now ≡ packet_called packet.now }
{
    match packet {
        First::Startup(_) => "StartupMessage",
        First::Cancel { .. } => "CancelRequest",
        First::Ssl => "SSLRequest",
        First::Gss => "GSSENCRequest",
    }
}

// Puts the fields of a first packet.
fn put_packet(
    packet: &First,
    alloc: Global,
    object: &mut Map<String, Value>,
) -> Result<(), AllocError>
    ensures { OnOk result (members_view object.new.entries
        ≡ with_members (packet_members packet.now) (members_view object.old.entries)) }
{
    match packet {
        First::Startup(parameters) => put_shown("parameters", parameters, alloc, object),
        First::Cancel { process, .. } => put_key(*process, alloc, object),
        First::Ssl => Ok(()),
        First::Gss => Ok(()),
    }
}

/// A first packet of this length.
pub fn packet_value(alloc: Global, size: usize, packet: &First) -> Result<Value, AllocError>
    ensures { IfOk result (λ v. view v ≡ packet_json size packet.now) }
{
    let mut object = begin(alloc, packet_called(packet), size)?;
    put_packet(packet, alloc, &mut object)?;
    Ok(Value::from(object))
}
