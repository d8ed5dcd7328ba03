//! The backend's messages: written by [`encode`], read by a `BackDecoder` of `pg_wire`.
//!
//! A message that holds bytes or lists has a function of its own too, which is lent them. Each appends the one spelling of a message ("Message
//! Formats", those marked B) to `buf`, and copies each byte once. A function names its faults in their order, and returns the first that holds.
//! Memory means that the buffer could not grow, and is returned only where no other holds. After a fault `buf` is as it was.

mod judging;
mod kind;
mod reading;

ghost use Rattle.std.specs.Prelude.{◌≡◌};
ghost use Rattle.pg_message.specs.declared.message.BackMessage.TheVariants.{AuthOther};
ghost use Rattle.pg_message.specs.declared.message.BackMessage.TheVariants.{ParameterStatus};
ghost use Rattle.pg_message.specs.declared.message.BackMessage.TheVariants.{RowDescription};
ghost use Rattle.pg_message.specs.declared.message.BackMessage.TheVariants.{DataRow};
ghost use Rattle.pg_message.specs.declared.message.BackMessage.TheVariants.{CommandComplete};
ghost use Rattle.pg_message.specs.declared.message.BackMessage.TheVariants.{ParameterDescription};
ghost use Rattle.pg_message.specs.declared.message.BackMessage.TheVariants.{ErrorResponse};
ghost use Rattle.pg_message.specs.declared.message.BackMessage.TheVariants.{NoticeResponse};
ghost use Rattle.pg_message.specs.declared.message.BackMessage.TheVariants.{Notification, CopyIn};
ghost use Rattle.pg_message.specs.declared.message.BackMessage.TheVariants.{CopyOut, CopyData};
ghost use Rattle.pg_message.specs.Backend.{backend, tag, status_byte, format_byte, copy_head};
ghost use Rattle.pg_message.specs.Backend.{is_reserved};
ghost use Rattle.pg_message.specs.Encoder.{Appends, Encodes};
ghost use Rattle.pg_message.specs.Private.BackReader.{back_reading};
ghost use Rattle.pg_message.specs.Private.Reading.{ReadsWhole};

use crate::appending::append;
use crate::direction::Message;
use crate::message::BackMessage;
use judging::is_back_message;
use kind::BackKind;
use pg_codec::{
    BodyFault, Byte, Bytes, Column, CopyHead, Counted, EncodeFault, Int32, Pair, Salt, Status, Text,
};
use pg_values::{CountedValues, Fields, TerminatedFields, ValueList};
use reading::back_message;
use std::alloc::Global;

fn status_byte(status: Status) -> u8
    ensures { result ≡ status_byte status }
{
    match status {
        Status::Idle => b'I',
        Status::InBlock => b'T',
        Status::Failed => b'E',
    }
}

fn format_byte(binary: bool) -> u8
    ensures { result ≡ format_byte binary }
{
    if binary { 1 } else { 0 }
}

// Whether a message of its own has this code.
fn is_reserved(code: i32) -> bool
    ensures { result ≡ is_reserved code }
{
    code == 0 || code == 3 || code == 5
}

// An authentication request that has no message of its own.
fn encode_other(code: i32, rest: &[u8], buf: &mut Vec<u8>) -> Result<(), EncodeFault>
    ensures { Encodes backend (AuthOther code rest.now) buf.old.items result buf.new.items }
{
    if is_reserved(code) {
        return Err(EncodeFault::ReservedCode);
    }
    append(b'R', &Pair(Int32(&code), Bytes(rest)), buf)
}

// A CopyIn or a CopyOut, by its tag.
fn encode_copy_head(tag: u8, head: &CopyHead, buf: &mut Vec<u8>) -> Result<(), EncodeFault>
    ensures { Appends tag (copy_head head.now) buf.old.items result buf.new.items }
{
    let format = Byte(format_byte(head.binary));
    append(tag, &Pair(format, Counted(head.formats.as_slice())), buf)
}

/// Appends a ParameterStatus: the value of a run-time parameter. Its faults are HasZero, TooLong and Memory.
pub fn parameter_status(name: &[u8], value: &[u8], buf: &mut Vec<u8>) -> Result<(), EncodeFault>
    ensures { Encodes backend
        (ParameterStatus name.now value.now) buf.old.items result buf.new.items }
{
    append(b'S', &Pair(Text(name), Text(value)), buf)
}

/// Appends a RowDescription of these columns. Its faults are HasZero, TooMany, TooLong and Memory.
pub fn row_description(columns: &[Column], buf: &mut Vec<u8>) -> Result<(), EncodeFault>
    ensures { Encodes backend (RowDescription columns.now) buf.old.items result buf.new.items }
{
    append(b'T', &Counted(columns), buf)
}

/// Appends a DataRow of these values, owned or lent. Its faults are TooMany, TooLong and Memory.
pub fn data_row<V: ValueList>(values: V, buf: &mut Vec<u8>) -> Result<(), EncodeFault>
    ensures { Encodes backend (DataRow (V.values values)) buf.old.items result buf.new.items }
{
    append(b'D', &CountedValues(values), buf)
}

/// Appends a CommandComplete with this tag. Its faults are HasZero, TooLong and Memory.
pub fn command_complete(tag: &[u8], buf: &mut Vec<u8>) -> Result<(), EncodeFault>
    ensures { Encodes backend (CommandComplete tag.now) buf.old.items result buf.new.items }
{
    append(b'C', &Text(tag), buf)
}

/// Appends a ParameterDescription: the object ids of the types of a statement's parameters. Its faults are TooMany, TooLong and
/// Memory.
pub fn parameter_description(types: &[u32], buf: &mut Vec<u8>) -> Result<(), EncodeFault>
    ensures { Encodes backend (ParameterDescription types.now) buf.old.items result buf.new.items }
{
    append(b't', &Counted(types), buf)
}

/// Appends an ErrorResponse with these fields. Its faults are HasZero (also for a code 0), TooLong and Memory.
pub fn error_response(fields: &Fields, buf: &mut Vec<u8>) -> Result<(), EncodeFault>
    ensures { Encodes backend (ErrorResponse fields.now) buf.old.items result buf.new.items }
{
    append(b'E', &TerminatedFields(fields), buf)
}

/// Appends a NoticeResponse with these fields. Its faults are HasZero (also for a code 0), TooLong and Memory.
pub fn notice_response(fields: &Fields, buf: &mut Vec<u8>) -> Result<(), EncodeFault>
    ensures { Encodes backend (NoticeResponse fields.now) buf.old.items result buf.new.items }
{
    append(b'N', &TerminatedFields(fields), buf)
}

/// Appends a NotificationResponse from the backend with this process id. Its faults are HasZero, TooLong and Memory.
pub fn notification(
    process: i32,
    channel: &[u8],
    payload: &[u8],
    buf: &mut Vec<u8>,
) -> Result<(), EncodeFault>
    ensures { Encodes backend
        (Notification process channel.now payload.now) buf.old.items result buf.new.items }
{
    let names = Pair(Int32(&process), Text(channel));
    append(b'A', &Pair(names, Text(payload)), buf)
}

/// Appends a CopyInResponse with these formats. Its faults are TooMany, TooLong and Memory.
pub fn copy_in(head: &CopyHead, buf: &mut Vec<u8>) -> Result<(), EncodeFault>
    ensures { Encodes backend (CopyIn head.now) buf.old.items result buf.new.items }
{
    encode_copy_head(b'G', head, buf)
}

/// Appends a CopyOutResponse with these formats. Its faults are TooMany, TooLong and Memory.
pub fn copy_out(head: &CopyHead, buf: &mut Vec<u8>) -> Result<(), EncodeFault>
    ensures { Encodes backend (CopyOut head.now) buf.old.items result buf.new.items }
{
    encode_copy_head(b'H', head, buf)
}

/// Appends a CopyData. Its faults are TooLong and Memory.
pub fn copy_data(bytes: &[u8], buf: &mut Vec<u8>) -> Result<(), EncodeFault>
    ensures { Encodes backend (CopyData bytes.now) buf.old.items result buf.new.items }
{
    append(b'd', &Bytes(bytes), buf)
}

/// Appends the one spelling of a message: its tag, its length field, its body ("Message Formats").
///
/// The fault is the first that holds of HasZero, TooMany, ReservedCode and TooLong. Where none of these holds and the buffer could not grow, it is
/// Memory. After a fault `buf` is as it was.
pub fn encode(message: &BackMessage, buf: &mut Vec<u8>) -> Result<(), EncodeFault>
    ensures { Encodes backend message.now buf.old.items result buf.new.items }
{
    match message {
        BackMessage::AuthOk => append(b'R', &Int32(&0), buf),
        BackMessage::AuthCleartext => append(b'R', &Int32(&3), buf),
        BackMessage::AuthMd5(salt) => append(b'R', &Pair(Int32(&5), Salt(*salt)), buf),
        BackMessage::AuthOther { code, rest } => encode_other(*code, rest.as_slice(), buf),
        BackMessage::KeyData { process, secret } => append(
            b'K',
            &Pair(Int32(process), Int32(secret)),
            buf,
        ),
        BackMessage::ParameterStatus { name, value } => {
            parameter_status(name.as_slice(), value.as_slice(), buf)
        }
        BackMessage::Ready(status) => append(b'Z', &Byte(status_byte(*status)), buf),
        BackMessage::RowDescription(columns) => row_description(columns.as_slice(), buf),
        BackMessage::DataRow(values) => data_row(values, buf),
        BackMessage::CommandComplete(tag) => command_complete(tag.as_slice(), buf),
        BackMessage::EmptyQuery => append(b'I', &Bytes(&[]), buf),
        BackMessage::ParseComplete => append(b'1', &Bytes(&[]), buf),
        BackMessage::BindComplete => append(b'2', &Bytes(&[]), buf),
        BackMessage::CloseComplete => append(b'3', &Bytes(&[]), buf),
        BackMessage::NoData => append(b'n', &Bytes(&[]), buf),
        BackMessage::PortalSuspended => append(b's', &Bytes(&[]), buf),
        BackMessage::ParameterDescription(types) => parameter_description(types.as_slice(), buf),
        BackMessage::ErrorResponse(fields) => error_response(fields, buf),
        BackMessage::NoticeResponse(fields) => notice_response(fields, buf),
        BackMessage::Notification {
            process,
            channel,
            payload,
        } => notification(*process, channel.as_slice(), payload.as_slice(), buf),
        BackMessage::CopyIn(head) => copy_in(head, buf),
        BackMessage::CopyOut(head) => copy_out(head, buf),
        BackMessage::CopyData(bytes) => copy_data(bytes.as_slice(), buf),
        BackMessage::CopyDone => append(b'c', &Bytes(&[]), buf),
    }
}

impl BackMessage {
    /// The message's tag, which is the first byte of its spelling.
    pub fn tag(&self) -> u8
        ensures { result ≡ tag self.now }
    {
        match self {
            BackMessage::AuthOk
            | BackMessage::AuthCleartext
            | BackMessage::AuthMd5(_)
            | BackMessage::AuthOther { .. } => b'R',
            BackMessage::KeyData { .. } => b'K',
            BackMessage::ParameterStatus { .. } => b'S',
            BackMessage::Ready(_) => b'Z',
            BackMessage::RowDescription(_) => b'T',
            BackMessage::DataRow(_) => b'D',
            BackMessage::CommandComplete(_) => b'C',
            BackMessage::EmptyQuery => b'I',
            BackMessage::ParseComplete => b'1',
            BackMessage::BindComplete => b'2',
            BackMessage::CloseComplete => b'3',
            BackMessage::NoData => b'n',
            BackMessage::PortalSuspended => b's',
            BackMessage::ParameterDescription(_) => b't',
            BackMessage::ErrorResponse(_) => b'E',
            BackMessage::NoticeResponse(_) => b'N',
            BackMessage::Notification { .. } => b'A',
            BackMessage::CopyIn(_) => b'G',
            BackMessage::CopyOut(_) => b'H',
            BackMessage::CopyData(_) => b'd',
            BackMessage::CopyDone => b'c',
        }
    }
}

// The message of this kind and this body. Memory is returned only where there is such a message, and it holds a list.
fn read_whole(alloc: Global, kind: BackKind, body: &[u8]) -> Result<BackMessage, BodyFault>
    ensures { ReadsWhole backend.holds_list result ((back_reading kind).message body.now) }
{
    match back_message(alloc, kind, body) {
        Ok(message) => Ok(message),
        Err(BodyFault::Bad) => Err(BodyFault::Bad),
        Err(BodyFault::Memory) => {
            if is_back_message(kind, body) {
                Err(BodyFault::Memory)
            } else {
                Err(BodyFault::Bad)
            }
        }
    }
}

impl Message for BackMessage {
    ghost direction = { backend };

    fn is_tag(tag: u8) -> bool {
        BackKind::of(tag).is_some()
    }

    fn encode(&self, buf: &mut Vec<u8>) -> Result<(), EncodeFault> {
        encode(self, buf)
    }

    fn is_message(tag: u8, body: &[u8]) -> bool {
        match BackKind::of(tag) {
            None => false,
            Some(kind) => is_back_message(kind, body),
        }
    }

    fn of_body(alloc: Global, tag: u8, body: &[u8]) -> Result<BackMessage, BodyFault> {
        match BackKind::of(tag) {
            None => Err(BodyFault::Bad),
            Some(kind) => read_whole(alloc, kind, body),
        }
    }

    fn one_to_one() {}
}
