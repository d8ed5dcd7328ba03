//! What the backend's messages are shown as.

ghost use Rattle.std.specs.Prelude.{◌≡◌, ◌++◌, codes, option_copied, OnOk};
ghost use Rattle.std.specs.Fmt.{signed_decimal};
ghost use Rattle.std.specs.List.{flat_map};
ghost use Rattle.hex.specs.Hex.{encode_lower};
ghost use Rattle.pgpipe_texts.specs.Backend.{back_text, column_format, column_text, column_type};
ghost use Rattle.pgpipe_texts.specs.Backend.{key_text, mechanisms, named_request};
ghost use Rattle.pgpipe_texts.specs.Backend.{notification_text, copy_text, of_mechanism};
ghost use Rattle.pgpipe_texts.specs.Backend.{request_name, request_text, value_text, without_ends};
ghost use Rattle.pgpipe_texts.specs.Text.{listed, parted, quoted, whole};

use crate::text::{Readable, put_byte, put_number, put_quoted, put_whole};
use pg_wire::{BackMessage, Column, CopyHead, LentValues, RowView, Seq, Values};
use std::alloc::AllocError;

// Appends a value.
fn put_value(value: Option<&[u8]>, line: &mut Vec<u8>) -> Result<(), AllocError>
    ensures { OnOk result (line.new.items
        ≡ line.old.items ++ value_text (option_copied value.entry)) }
{
    match value {
        None => line.extend_from_slice(b"NULL"),
        Some(bytes) => put_quoted(bytes, line),
    }
}

// Appends the values that come after the first.
fn put_further_values(values: LentValues<'_>, line: &mut Vec<u8>) -> Result<(), AllocError>
    ensures { OnOk result (line.new.items
        ≡ line.old.items ++ flat_map (λ v. codes ", " ++ value_text v) values.entry) }
{
    'values: for value in values {
        line.extend_from_slice(b", ")?;
        put_value(value, line)?;
    }
    Ok(())
}

// Appends values, separated by commas.
fn put_values(values: LentValues<'_>, line: &mut Vec<u8>) -> Result<(), AllocError>
    ensures { OnOk result (line.new.items ≡ line.old.items ++ parted value_text values.entry) }
{
    let mut rest = values;
    match rest.next() {
        None => Ok(()),
        Some(first) => {
            put_value(first, line)?;
            put_further_values(rest, line)
        }
    }
}

// Appends values in parentheses.
#[tactic(auto, unfolding(crate::specs::Text::listed))]
fn put_listed(values: LentValues<'_>, line: &mut Vec<u8>) -> Result<(), AllocError>
    ensures { OnOk result (line.new.items ≡ line.old.items ++ listed value_text values.entry) }
{
    line.extend_from_slice(b"(")?;
    put_values(values, line)?;
    line.extend_from_slice(b")")
}

/// Appends a row that is lent.
pub fn put_row(row: RowView<'_>, line: &mut Vec<u8>) -> Result<(), AllocError>
    ensures { OnOk result (line.new.items
        ≡ line.old.items ++ (codes "DataRow " ++ listed value_text row.entry)) }
{
    put_name(b"DataRow ", line)?;
    put_listed(row.values(), line)
}

impl Readable for Values {
    ghost text = { listed value_text };

    fn put(&self, line: &mut Vec<u8>) -> Result<(), AllocError> {
        put_listed(self.iter(), line)
    }
}

// Appends the format of a column, unless that is text.
#[tactic(auto, unfolding(crate::specs::Backend::column_format))]
fn put_column_format(code: i16, line: &mut Vec<u8>) -> Result<(), AllocError>
    ensures { OnOk result (line.new.items ≡ line.old.items ++ column_format code) }
{
    if code == 0 {
        return Ok(());
    }
    line.extend_from_slice(b" ")?;
    code.put(line)
}

// Appends the type of a column, and its format unless that is text.
fn put_column_type(oid: u32, format: i16, line: &mut Vec<u8>) -> Result<(), AllocError>
    ensures { OnOk result (line.new.items
        ≡ line.old.items ++ column_type oid format) }
{
    line.extend_from_slice(b" ")?;
    oid.put(line)?;
    put_column_format(format, line)
}

impl Readable for Column {
    ghost text = { column_text };

    fn put(&self, line: &mut Vec<u8>) -> Result<(), AllocError> {
        put_whole(self.name.as_slice(), line)?;
        put_column_type(self.type_oid, self.format, line)
    }
}

impl Readable for CopyHead {
    ghost text = { copy_text };

    #[tactic(auto, unfolding(crate::specs::Backend::copy_text))]
    fn put(&self, line: &mut Vec<u8>) -> Result<(), AllocError> {
        line.extend_from_slice(if self.binary { b"binary " } else { b"text " })?;
        self.formats.put(line)
    }
}

// Appends a salt in hexadecimal.
fn put_digits(salt: [u8; 4], line: &mut Vec<u8>) -> Result<(), AllocError>
    ensures { OnOk result (line.new.items ≡ line.old.items ++ encode_lower salt) }
{
    let mut digits = [0; 8];
    // there is room for all digits, so this doesn't fail
    let _ = hex::encode_to_slice(salt, &mut digits);
    line.extend_from_slice(&digits)
}

// Appends a request for an MD5 password.
fn put_salt(salt: [u8; 4], line: &mut Vec<u8>) -> Result<(), AllocError>
    ensures { OnOk result (line.new.items
        ≡ line.old.items ++ (codes "AuthenticationMD5Password salt " ++ encode_lower salt)) }
{
    put_name(b"AuthenticationMD5Password salt ", line)?;
    put_digits(salt, line)
}

// The name of an authentication request, where it has one.
#[tactic(auto, unfolding(crate::specs::Backend::named_request))]
fn named_request(code: i32) -> Option<&'static [u8]>
    ensures { option_copied result ≡ named_request code }
{
    match code {
        2 => Some(b"AuthenticationKerberosV5"),
        6 => Some(b"AuthenticationSCMCredential"),
        7 => Some(b"AuthenticationGSS"),
        8 => Some(b"AuthenticationGSSContinue"),
        9 => Some(b"AuthenticationSSPI"),
        10 => Some(b"AuthenticationSASL"),
        11 => Some(b"AuthenticationSASLContinue"),
        12 => Some(b"AuthenticationSASLFinal"),
        _ => None,
    }
}

// Appends the name of an authentication request.
fn put_request_name(code: i32, line: &mut Vec<u8>) -> Result<(), AllocError>
    ensures { OnOk result (line.new.items ≡ line.old.items ++ request_name code) }
{
    match named_request(code) {
        Some(name) => put_name(name, line),
        None => put_numbered(b"Authentication ", code, line),
    }
}

// The bytes without two zero bytes at their end.
#[tactic(auto, unfolding(crate::specs::Backend::without_ends))]
fn without_ends(bytes: &[u8]) -> &[u8]
    ensures { result.now ≡ without_ends bytes.now }
{
    let len = bytes.len();
    if len < 2 {
        return bytes;
    }
    if bytes[len - 1] == 0 && bytes[len - 2] == 0 {
        bytes.split_at(len - 2).0
    } else {
        bytes
    }
}

// Appends the names of SASL's mechanisms.
fn put_mechanisms(rest: &[u8], line: &mut Vec<u8>) -> Result<(), AllocError>
    ensures { OnOk result (line.new.items ≡ line.old.items ++ mechanisms rest.now) }
{
    let names = without_ends(rest);
    for &byte in names {
        put_of_mechanism(byte, line)?;
    }
    Ok(())
}

// Appends a byte of the name of a mechanism, or what stands between two.
#[tactic(auto, unfolding(crate::specs::Backend::of_mechanism))]
fn put_of_mechanism(byte: u8, line: &mut Vec<u8>) -> Result<(), AllocError>
    ensures { OnOk result (line.new.items ≡ line.old.items ++ of_mechanism byte) }
{
    if byte == 0 {
        line.extend_from_slice(b", ")
    } else {
        put_byte(byte, b'\\', false, line)
    }
}

// Appends what comes with an authentication request.
#[tactic(auto, unfolding(crate::specs::Backend::request_text))]
fn put_request(code: i32, rest: &[u8], line: &mut Vec<u8>) -> Result<(), AllocError>
    ensures { OnOk result (line.new.items ≡ line.old.items ++ request_text code rest.now) }
{
    if rest.len() == 0 {
        return Ok(());
    }
    if code == 10 {
        line.extend_from_slice(b" ")?;
        return put_mechanisms(rest, line);
    }
    line.extend_from_slice(b" (hidden)")
}

// Appends an authentication request that has no message of its own.
fn put_other_request(code: i32, rest: &Seq<u8>, line: &mut Vec<u8>) -> Result<(), AllocError>
    ensures { OnOk result (line.new.items
        ≡ line.old.items ++ (request_name code ++ request_text code rest.now)) }
{
    put_request_name(code, line)?;
    put_request(code, rest.as_slice(), line)
}

// Appends a name and a number.
fn put_numbered(name: &[u8], number: i32, line: &mut Vec<u8>) -> Result<(), AllocError>
    ensures { OnOk result (line.new.items ≡ line.old.items ++ (name.now ++ signed_decimal number)) }
{
    put_name(name, line)?;
    put_number(number, line)
}

// Appends a process, and that its key is hidden.
#[tactic(auto, unfolding(crate::specs::Backend::key_text))]
fn put_process(process: i32, line: &mut Vec<u8>) -> Result<(), AllocError>
    ensures { OnOk result (line.new.items ≡ line.old.items ++ key_text process) }
{
    line.extend_from_slice(b" process ")?;
    put_number(process, line)?;
    line.extend_from_slice(b" key (hidden)")
}

/// Appends a name, and the process that it speaks of, whose key is hidden.
pub fn put_key(name: &[u8], process: i32, line: &mut Vec<u8>) -> Result<(), AllocError>
    ensures { OnOk result (line.new.items ≡ line.old.items ++ (name.now ++ key_text process)) }
{
    put_name(name, line)?;
    put_process(process, line)
}

/// Appends a name and its value.
pub fn put_parameter(name: &Seq<u8>, value: &Seq<u8>, line: &mut Vec<u8>) -> Result<(), AllocError>
    ensures { OnOk result (line.new.items
        ≡ line.old.items ++ (whole name.now ++ codes " " ++ quoted value.now)) }
{
    put_whole(name.as_slice(), line)?;
    line.extend_from_slice(b" ")?;
    put_quoted(value.as_slice(), line)
}

// Appends what a notification says.
#[tactic(auto, unfolding(crate::specs::Backend::notification_text))]
fn put_raised(
    process: i32,
    channel: &Seq<u8>,
    payload: &Seq<u8>,
    line: &mut Vec<u8>,
) -> Result<(), AllocError>
    ensures { OnOk result (line.new.items
        ≡ line.old.items ++ notification_text process channel.now payload.now) }
{
    put_numbered(b" process ", process, line)?;
    put_named(b" ", channel, line)?;
    put_named_quoted(b" ", payload, line)
}

// Appends a notification.
fn put_notification(
    process: i32,
    channel: &Seq<u8>,
    payload: &Seq<u8>,
    line: &mut Vec<u8>,
) -> Result<(), AllocError>
    ensures { OnOk result (line.new.items ≡ line.old.items
        ++ (codes "NotificationResponse" ++ notification_text process channel.now payload.now)) }
{
    put_name(b"NotificationResponse", line)?;
    put_raised(process, channel, payload, line)
}

/// Appends a name.
pub fn put_name(name: &[u8], line: &mut Vec<u8>) -> Result<(), AllocError>
    ensures { OnOk result (line.new.items ≡ line.old.items ++ name.now) }
{
    line.extend_from_slice(name)
}

/// Appends a name, and what is shown after it.
pub fn put_after<T: Readable>(name: &[u8], shown: &T, line: &mut Vec<u8>) -> Result<(), AllocError>
    ensures { OnOk result (line.new.items ≡ line.old.items ++ (name.now ++ T.text shown.now)) }
{
    line.extend_from_slice(name)?;
    shown.put(line)
}

/// Appends a name, and a text whole after it.
pub fn put_named(name: &[u8], text: &Seq<u8>, line: &mut Vec<u8>) -> Result<(), AllocError>
    ensures { OnOk result (line.new.items ≡ line.old.items ++ (name.now ++ whole text.now)) }
{
    line.extend_from_slice(name)?;
    put_whole(text.as_slice(), line)
}

/// Appends a name, and a text in quotes after it.
pub fn put_named_quoted(name: &[u8], text: &Seq<u8>, line: &mut Vec<u8>) -> Result<(), AllocError>
    ensures { OnOk result (line.new.items ≡ line.old.items ++ (name.now ++ quoted text.now)) }
{
    line.extend_from_slice(name)?;
    put_quoted(text.as_slice(), line)
}

// Appends the name of a parameter after that of its message, and its value.
fn put_status(name: &Seq<u8>, value: &Seq<u8>, line: &mut Vec<u8>) -> Result<(), AllocError>
    ensures { OnOk result (line.new.items ≡ line.old.items ++ (codes "ParameterStatus "
        ++ whole name.now ++ codes " " ++ quoted value.now)) }
{
    line.extend_from_slice(b"ParameterStatus ")?;
    put_parameter(name, value, line)
}

impl Readable for BackMessage {
    ghost text = { back_text };

    fn put(&self, line: &mut Vec<u8>) -> Result<(), AllocError> {
        match self {
            BackMessage::AuthOk => put_name(b"AuthenticationOk", line),
            BackMessage::AuthCleartext => { put_name(b"AuthenticationCleartextPassword", line) }
            BackMessage::AuthMd5(salt) => put_salt(*salt, line),
            BackMessage::AuthOther { code, rest } => { put_other_request(*code, rest, line) }
            BackMessage::KeyData { process, .. } => put_key(b"BackendKeyData", *process, line),
            BackMessage::ParameterStatus { name, value } => { put_status(name, value, line) }
            BackMessage::Ready(status) => put_after(b"ReadyForQuery ", status, line),
            BackMessage::RowDescription(columns) => put_after(b"RowDescription ", columns, line),
            BackMessage::DataRow(values) => put_after(b"DataRow ", values, line),
            BackMessage::CommandComplete(tag) => { put_named(b"CommandComplete ", tag, line) }
            BackMessage::EmptyQuery => put_name(b"EmptyQueryResponse", line),
            BackMessage::ParseComplete => put_name(b"ParseComplete", line),
            BackMessage::BindComplete => put_name(b"BindComplete", line),
            BackMessage::CloseComplete => put_name(b"CloseComplete", line),
            BackMessage::NoData => put_name(b"NoData", line),
            BackMessage::PortalSuspended => put_name(b"PortalSuspended", line),
            BackMessage::ParameterDescription(types) => {
                put_after(b"ParameterDescription ", types, line)
            }
            BackMessage::ErrorResponse(fields) => put_after(b"ErrorResponse ", fields, line),
            BackMessage::NoticeResponse(fields) => put_after(b"NoticeResponse ", fields, line),
            BackMessage::Notification {
                process,
                channel,
                payload,
            } => put_notification(*process, channel, payload, line),
            BackMessage::CopyIn(head) => put_after(b"CopyInResponse ", head, line),
            BackMessage::CopyOut(head) => put_after(b"CopyOutResponse ", head, line),
            BackMessage::CopyData(bytes) => put_named_quoted(b"CopyData ", bytes, line),
            BackMessage::CopyDone => put_name(b"CopyDone", line),
        }
    }
}
