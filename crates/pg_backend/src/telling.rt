//! Writing what a script says, as messages.
//!
//! All messages are judged, also after one that memory ran out for: so a message without a spelling is found in any case.

ghost use Rattle.std.specs.Prelude.{◌≡◌, ◌∷◌, [], ◌++◌, List, map};
ghost use Rattle.std.specs.List.{flat_map};
ghost use Rattle.pg_wire.specs.message.BackMessage.{BackMessage};
ghost use Rattle.pg_wire.specs.message.BackMessage.TheVariants.{DataRow, CopyData};
ghost use Rattle.pg_wire.specs.declared.session.Part.TheVariants.{Rows, CopyOut, CopyIn, Described};
ghost use Rattle.pg_wire.specs.declared.session.Part.TheVariants.{Executed};
ghost use Rattle.pg_wire.specs.Segment.{messages_of, parameters_sent, columns_sent};
ghost use Rattle.pg_wire.specs.Segment.{execute_end_sent};
ghost use Rattle.pg_backend.specs.Outcome.{complete};
ghost use Rattle.pg_backend.specs.Replies.{aside_message, error_sent};
ghost use Rattle.pg_backend.specs.Opening.{pair_message, key_messages};
ghost use Rattle.pg_backend.specs.Telling.{EncodesAll, both};

use crate::script::{Key, Load, ScriptPart};
use pg_wire::backend::{
    command_complete, copy_data, copy_in, copy_out, data_row, encode, error_response,
    notice_response, notification, parameter_description, parameter_status, row_description,
};
use pg_wire::{Aside, BackMessage, Column, CopyHead, EncodeFault, ExecEnd, Fields, Seq, Values};

/// The result of two attempts: the first fault, but Memory only where there is no other.
pub fn both(
    first: Result<(), EncodeFault>,
    second: Result<(), EncodeFault>,
) -> Result<(), EncodeFault>
    ensures { result ≡ both first second }
{
    match first {
        Ok(()) => second,
        Err(EncodeFault::Memory) => match second {
            Ok(()) => Err(EncodeFault::Memory),
            Err(fault) => Err(fault),
        },
        Err(fault) => Err(fault),
    }
}

/// Something that is sent as messages.
pub trait Tell: Drop {
    // the messages
    ghost messages: { Self → List BackMessage };

    /// Appends its messages. After a fault some of their bytes may have been appended.
    fn tell(&self, out: &mut Vec<u8>) -> Result<(), EncodeFault>
        ensures { EncodesAll (messages self.now) out.old.items result out.new.items };
}

/// Writes the messages of each, in their order.
pub fn tell_all<T: Tell>(items: &[T], out: &mut Vec<u8>) -> Result<(), EncodeFault>
    ensures { EncodesAll (flat_map T.messages items.now) out.old.items result out.new.items }
{
    let mut so_far = Ok(());
    for item in items {
        so_far = both(so_far, item.tell(out));
    }
    so_far
}

/// A row.
impl Tell for Values {
    ghost messages = { λ row. DataRow row ∷ [] };

    fn tell(&self, out: &mut Vec<u8>) -> Result<(), EncodeFault> {
        data_row(self, out)
    }
}

/// A chunk of a copy.
impl Tell for Seq<u8> {
    ghost messages = { λ chunk. CopyData chunk ∷ [] };

    fn tell(&self, out: &mut Vec<u8>) -> Result<(), EncodeFault> {
        copy_data(self.as_slice(), out)
    }
}

/// A run-time parameter.
impl Tell for (Seq<u8>, Seq<u8>) {
    ghost messages = { λ pair. pair_message pair ∷ [] };

    fn tell(&self, out: &mut Vec<u8>) -> Result<(), EncodeFault> {
        parameter_status(self.0.as_slice(), self.1.as_slice(), out)
    }
}

impl Tell for Aside {
    ghost messages = { λ aside. aside_message aside ∷ [] };

    fn tell(&self, out: &mut Vec<u8>) -> Result<(), EncodeFault> {
        match self {
            Aside::Notice(fields) => notice_response(fields, out),
            Aside::Parameter { name, value } => {
                parameter_status(name.as_slice(), value.as_slice(), out)
            }
            Aside::Notification {
                process,
                channel,
                payload,
            } => notification(*process, channel.as_slice(), payload.as_slice(), out),
        }
    }
}

// Rows of a query.
fn tell_rows(
    columns: &[Column],
    rows: &[Values],
    tag: &[u8],
    out: &mut Vec<u8>,
) -> Result<(), EncodeFault>
    ensures { EncodesAll (messages_of (Rows columns.now rows.now tag.now))
        out.old.items result out.new.items }
{
    let head = row_description(columns, out);
    let body = both(head, tell_all(rows, out));
    both(body, command_complete(tag, out))
}

// A copy to the client.
fn tell_copy_out(
    head: &CopyHead,
    chunks: &[Seq<u8>],
    tag: &[u8],
    out: &mut Vec<u8>,
) -> Result<(), EncodeFault>
    ensures { EncodesAll (messages_of (CopyOut head.now chunks.now tag.now))
        out.old.items result out.new.items }
{
    let head = copy_out(head, out);
    let body = both(head, tell_all(chunks, out));
    let body = both(body, encode(&BackMessage::CopyDone, out));
    both(body, command_complete(tag, out))
}

// A copy from the client that is complete.
fn tell_copy_in(head: &CopyHead, tag: &[u8], out: &mut Vec<u8>) -> Result<(), EncodeFault>
    ensures { EncodesAll (messages_of (CopyIn head.now tag.now))
        out.old.items result out.new.items }
{
    let head = copy_in(head, out);
    both(head, command_complete(tag, out))
}

fn tell_parameters(parameters: &Option<Seq<u32>>, out: &mut Vec<u8>) -> Result<(), EncodeFault>
    ensures { EncodesAll (parameters_sent parameters.now) out.old.items result out.new.items }
{
    match parameters {
        None => Ok(()),
        Some(types) => parameter_description(types.as_slice(), out),
    }
}

fn tell_columns(columns: &Option<Seq<Column>>, out: &mut Vec<u8>) -> Result<(), EncodeFault>
    ensures { EncodesAll (columns_sent columns.now ∷ []) out.old.items result out.new.items }
{
    match columns {
        None => encode(&BackMessage::NoData, out),
        Some(columns) => row_description(columns.as_slice(), out),
    }
}

fn tell_described(
    parameters: &Option<Seq<u32>>,
    columns: &Option<Seq<Column>>,
    out: &mut Vec<u8>,
) -> Result<(), EncodeFault>
    ensures { EncodesAll (messages_of (Described parameters.now columns.now))
        out.old.items result out.new.items }
{
    let parameters = tell_parameters(parameters, out);
    both(parameters, tell_columns(columns, out))
}

fn tell_end(end: &ExecEnd, out: &mut Vec<u8>) -> Result<(), EncodeFault>
    ensures { EncodesAll (execute_end_sent end.now ∷ []) out.old.items result out.new.items }
{
    match end {
        ExecEnd::Complete(tag) => command_complete(tag.as_slice(), out),
        ExecEnd::Empty => encode(&BackMessage::EmptyQuery, out),
        ExecEnd::Suspended => encode(&BackMessage::PortalSuspended, out),
    }
}

fn tell_executed(rows: &[Values], end: &ExecEnd, out: &mut Vec<u8>) -> Result<(), EncodeFault>
    ensures { EncodesAll (messages_of (Executed rows.now end.now))
        out.old.items result out.new.items }
{
    let rows = tell_all(rows, out);
    both(rows, tell_end(end, out))
}

/// The messages of a part that is complete. A copy that is rejected never is, and has none.
impl Tell for ScriptPart {
    ghost messages = { λ part. flat_map messages_of (complete part) };

    fn tell(&self, out: &mut Vec<u8>) -> Result<(), EncodeFault> {
        match self {
            ScriptPart::Rows { columns, rows, tag } => {
                tell_rows(columns.as_slice(), rows.as_slice(), tag.as_slice(), out)
            }
            ScriptPart::Command(tag) => command_complete(tag.as_slice(), out),
            ScriptPart::Empty => encode(&BackMessage::EmptyQuery, out),
            ScriptPart::CopyOut { head, chunks, tag } => {
                tell_copy_out(head, chunks.as_slice(), tag.as_slice(), out)
            }
            ScriptPart::CopyIn { head, load } => match load {
                Load::Accept(tag) => tell_copy_in(head, tag.as_slice(), out),
                Load::Refuse { .. } => Ok(()),
            },
            ScriptPart::Parsed => encode(&BackMessage::ParseComplete, out),
            ScriptPart::Bound => encode(&BackMessage::BindComplete, out),
            ScriptPart::Described {
                parameters,
                columns,
            } => tell_described(parameters, columns, out),
            ScriptPart::Executed { rows, end } => tell_executed(rows.as_slice(), end, out),
            ScriptPart::Shut => encode(&BackMessage::CloseComplete, out),
        }
    }
}

/// An error, if there is one.
pub fn tell_error(error: &Option<Fields>, out: &mut Vec<u8>) -> Result<(), EncodeFault>
    ensures { EncodesAll (error_sent error.now) out.old.items result out.new.items }
{
    match error {
        None => Ok(()),
        Some(fields) => error_response(fields, out),
    }
}

/// The key with which a client may cancel, if there is one.
pub fn tell_key(key: &Option<Key>, out: &mut Vec<u8>) -> Result<(), EncodeFault>
    ensures { EncodesAll (key_messages key.now) out.old.items result out.new.items }
{
    match key {
        None => Ok(()),
        Some(key) => encode(
            &BackMessage::KeyData {
                process: key.process,
                secret: key.secret,
            },
            out,
        ),
    }
}
