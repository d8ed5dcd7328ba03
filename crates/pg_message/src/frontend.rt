//! The frontend's messages: written by the functions here, read by a `FrontDecoder` of `pg_wire`.
//!
//! The first packets of a connection come from [`startup`], [`startup_message`], [`cancel_request`], [`ssl_request`] and [`gss_request`], or from
//! [`encode_first`]. Each other function appends the one spelling of a message ("Message Formats", those marked F) to `buf`, and copies each byte
//! once. A function names its faults in their order, and returns the first that holds. Memory means that the buffer could not grow, and is returned
//! only where no other holds. After a fault `buf` is as it was.

mod judging;
mod kind;
mod reading;

ghost use Rattle.std.specs.Prelude.{◌≡◌, false, option_copied};
ghost use Rattle.pg_message.specs.declared.message.FrontMessage.TheVariants.{Query, Parse, Bind};
ghost use Rattle.pg_message.specs.declared.message.FrontMessage.TheVariants.{Describe, Close};
ghost use Rattle.pg_message.specs.declared.message.FrontMessage.TheVariants.{Execute, Sync, Flush};
ghost use Rattle.pg_message.specs.declared.message.FrontMessage.TheVariants.{Terminate, CopyData};
ghost use Rattle.pg_message.specs.declared.message.FrontMessage.TheVariants.{CopyDone, CopyFail};
ghost use Rattle.pg_message.specs.declared.message.FrontMessage.TheVariants.{Password};
ghost use Rattle.pg_message.specs.declared.message.First.TheVariants.{Startup, Cancel, Ssl, Gss};
ghost use Rattle.pg_message.specs.Frontend.{frontend, tag, target_byte};
ghost use Rattle.pg_message.specs.First.{startup_parameters};
ghost use Rattle.pg_message.specs.Encoder.{Encodes, EncodesPacket, AppendsPacket};
ghost use Rattle.pg_message.specs.Private.FrontReader.{front_reading};
ghost use Rattle.pg_message.specs.Private.Reading.{ReadsWhole};

use crate::appending::{append, append_packet};
use crate::direction::Message;
use crate::message::{First, FrontMessage};
use judging::is_front_message;
use kind::FrontKind;
use pg_codec::{BodyFault, BodyPart, Byte, Bytes, Counted, EncodeFault, Int32, Pair, Target, Text};
use pg_values::{CountedValues, ParameterList, TerminatedParameters, ValueList};
use reading::front_message;
use std::alloc::Global;

fn target_byte(target: Target) -> u8
    ensures { result ≡ target_byte target }
{
    match target {
        Target::Statement => b'S',
        Target::Portal => b'P',
    }
}

// Appends the first packet of the protocol's version 3.0.
fn append_startup<P: BodyPart>(
    has_no_name: bool,
    content: &P,
    buf: &mut Vec<u8>,
) -> Result<(), EncodeFault>
    requires { (P.layout content.now).has_too_many ≡ false }
    ensures { AppendsPacket 196608 has_no_name (P.layout content.now) buf.old.items result
        buf.new.items }
{
    append_packet(196_608, has_no_name, content, buf)
}

/// Appends the startup packet of protocol 3.0 with these parameters, names and values, owned or lent ("Message Formats",
/// StartupMessage). The fault is the first that holds of HasZero, EmptyName, TooLong (the packet would pass 10,000 bytes) and Memory.
pub fn startup_message<P: ParameterList>(pairs: P, buf: &mut Vec<u8>) -> Result<(), EncodeFault>
    ensures { EncodesPacket (Startup (P.pairs pairs)) buf.old.items result buf.new.items }
{
    append_startup(pairs.has_no_name(), &TerminatedParameters(pairs), buf)
}

/// Appends the startup packet with `user`, `database` if one is given, and then these further parameters, owned or lent ("Start-up"). It makes no
/// copy of them. The fault is the first that holds of HasZero, EmptyName, TooLong (the packet would pass 10,000 bytes) and Memory.
pub fn startup<P: ParameterList>(
    user: &[u8],
    database: Option<&[u8]>,
    pairs: P,
    buf: &mut Vec<u8>,
) -> Result<(), EncodeFault>
    ensures { EncodesPacket
        (Startup (startup_parameters user.now (option_copied database.entry) (P.pairs pairs)))
        buf.old.items result buf.new.items }
{
    let no_name = pairs.has_no_name();
    let first = Pair(Text(b"user"), Text(user));
    match database {
        None => append_startup(no_name, &Pair(first, TerminatedParameters(pairs)), buf),
        Some(name) => {
            let second = Pair(Text(b"database"), Text(name));
            let rest = Pair(second, TerminatedParameters(pairs));
            append_startup(no_name, &Pair(first, rest), buf)
        }
    }
}

/// Appends a CancelRequest with the process id and the secret key of a backend ("Canceling Requests in Progress"). Its only
/// fault is Memory.
pub fn cancel_request(process: i32, secret: i32, buf: &mut Vec<u8>) -> Result<(), EncodeFault>
    ensures { EncodesPacket (Cancel process secret) buf.old.items result buf.new.items }
{
    append_packet(
        80_877_102,
        false,
        &Pair(Int32(&process), Int32(&secret)),
        buf,
    )
}

/// Appends an SSLRequest ("SSL Session Encryption"). Its only fault is Memory.
pub fn ssl_request(buf: &mut Vec<u8>) -> Result<(), EncodeFault>
    ensures { EncodesPacket Ssl buf.old.items result buf.new.items }
{
    append_packet(80_877_103, false, &Bytes(&[]), buf)
}

/// Appends a GSSENCRequest ("GSSAPI Session Encryption"). Its only fault is Memory.
pub fn gss_request(buf: &mut Vec<u8>) -> Result<(), EncodeFault>
    ensures { EncodesPacket Gss buf.old.items result buf.new.items }
{
    append_packet(80_877_104, false, &Bytes(&[]), buf)
}

/// Appends a first packet, by the function of this module that writes it, and returns that function's faults.
pub fn encode_first(packet: &First, buf: &mut Vec<u8>) -> Result<(), EncodeFault>
    ensures { EncodesPacket packet.now buf.old.items result buf.new.items }
{
    match packet {
        First::Startup(pairs) => startup_message(pairs.as_slice(), buf),
        First::Cancel { process, secret } => cancel_request(*process, *secret, buf),
        First::Ssl => ssl_request(buf),
        First::Gss => gss_request(buf),
    }
}

/// Appends a Query with this text. Its faults are HasZero, TooLong and Memory.
pub fn query(text: &[u8], buf: &mut Vec<u8>) -> Result<(), EncodeFault>
    ensures { Encodes frontend (Query text.now) buf.old.items result buf.new.items }
{
    append(b'Q', &Text(text), buf)
}

/// Appends a Parse that makes the statement `name` (empty for the unnamed one) of a query. `types` has the object ids of the
/// types of the first parameters; 0 leaves one open. Its faults are HasZero, TooMany, TooLong and Memory.
pub fn parse(name: &[u8], text: &[u8], types: &[u32], buf: &mut Vec<u8>) -> Result<(), EncodeFault>
    ensures { Encodes frontend
        (Parse name.now text.now types.now) buf.old.items result buf.new.items }
{
    append(
        b'P',
        &Pair(Pair(Text(name), Text(text)), Counted(types)),
        buf,
    )
}

/// Appends a Bind that makes a portal of a statement (empty names for the unnamed ones). The values are owned or lent. The format
/// codes are none, one for all, or one each. Its faults are HasZero, TooMany, TooLong and Memory.
pub fn bind<V: ValueList>(
    portal: &[u8],
    statement: &[u8],
    formats: &[i16],
    values: V,
    result_formats: &[i16],
    buf: &mut Vec<u8>,
) -> Result<(), EncodeFault>
    ensures { Encodes frontend
        (Bind portal.now statement.now formats.now (V.values values) result_formats.now)
        buf.old.items result buf.new.items }
{
    let names = Pair(Text(portal), Text(statement));
    let given = Pair(Pair(names, Counted(formats)), CountedValues(values));
    append(b'B', &Pair(given, Counted(result_formats)), buf)
}

/// Appends a Describe of a statement or a portal. Its faults are HasZero, TooLong and Memory.
pub fn describe(target: Target, name: &[u8], buf: &mut Vec<u8>) -> Result<(), EncodeFault>
    ensures { Encodes frontend (Describe target name.now) buf.old.items result buf.new.items }
{
    append(b'D', &Pair(Byte(target_byte(target)), Text(name)), buf)
}

/// Appends a Close of a statement or a portal. Its faults are HasZero, TooLong and Memory.
pub fn close(target: Target, name: &[u8], buf: &mut Vec<u8>) -> Result<(), EncodeFault>
    ensures { Encodes frontend (Close target name.now) buf.old.items result buf.new.items }
{
    append(b'C', &Pair(Byte(target_byte(target)), Text(name)), buf)
}

/// Appends an Execute of a portal, which is to return at most `max_rows` rows; 0 is no limit. Its faults are HasZero, TooLong and
/// Memory.
pub fn execute(portal: &[u8], max_rows: i32, buf: &mut Vec<u8>) -> Result<(), EncodeFault>
    ensures { Encodes frontend (Execute portal.now max_rows) buf.old.items result buf.new.items }
{
    append(b'E', &Pair(Text(portal), Int32(&max_rows)), buf)
}

/// Appends a Sync. Its only fault is Memory.
pub fn sync(buf: &mut Vec<u8>) -> Result<(), EncodeFault>
    ensures { Encodes frontend Sync buf.old.items result buf.new.items }
{
    append(b'S', &Bytes(&[]), buf)
}

/// Appends a Flush. Its only fault is Memory.
pub fn flush(buf: &mut Vec<u8>) -> Result<(), EncodeFault>
    ensures { Encodes frontend Flush buf.old.items result buf.new.items }
{
    append(b'H', &Bytes(&[]), buf)
}

/// Appends a Terminate. Its only fault is Memory.
pub fn terminate(buf: &mut Vec<u8>) -> Result<(), EncodeFault>
    ensures { Encodes frontend Terminate buf.old.items result buf.new.items }
{
    append(b'X', &Bytes(&[]), buf)
}

/// Appends a CopyData. Its faults are TooLong and Memory.
pub fn copy_data(bytes: &[u8], buf: &mut Vec<u8>) -> Result<(), EncodeFault>
    ensures { Encodes frontend (CopyData bytes.now) buf.old.items result buf.new.items }
{
    append(b'd', &Bytes(bytes), buf)
}

/// Appends a CopyDone. Its only fault is Memory.
pub fn copy_done(buf: &mut Vec<u8>) -> Result<(), EncodeFault>
    ensures { Encodes frontend CopyDone buf.old.items result buf.new.items }
{
    append(b'c', &Bytes(&[]), buf)
}

/// Appends a CopyFail, for this reason. Its faults are HasZero, TooLong and Memory.
pub fn copy_fail(reason: &[u8], buf: &mut Vec<u8>) -> Result<(), EncodeFault>
    ensures { Encodes frontend (CopyFail reason.now) buf.old.items result buf.new.items }
{
    append(b'f', &Text(reason), buf)
}

/// Appends a PasswordMessage: the password, or the text of an MD5 answer. Its faults are HasZero, TooLong and Memory.
pub fn password_message(password: &[u8], buf: &mut Vec<u8>) -> Result<(), EncodeFault>
    ensures { Encodes frontend (Password password.now) buf.old.items result buf.new.items }
{
    append(b'p', &Text(password), buf)
}

/// Appends the one spelling of a message, by the function of this module that writes it, and returns that function's faults.
pub fn encode(message: &FrontMessage, buf: &mut Vec<u8>) -> Result<(), EncodeFault>
    ensures { Encodes frontend message.now buf.old.items result buf.new.items }
{
    match message {
        FrontMessage::Query(text) => query(text.as_slice(), buf),
        FrontMessage::Parse { name, text, types } => {
            parse(name.as_slice(), text.as_slice(), types.as_slice(), buf)
        }
        FrontMessage::Bind {
            portal,
            statement,
            formats,
            values,
            result_formats,
        } => bind(
            portal.as_slice(),
            statement.as_slice(),
            formats.as_slice(),
            values,
            result_formats.as_slice(),
            buf,
        ),
        FrontMessage::Describe { target, name } => describe(*target, name.as_slice(), buf),
        FrontMessage::Close { target, name } => close(*target, name.as_slice(), buf),
        FrontMessage::Execute { portal, max_rows } => execute(portal.as_slice(), *max_rows, buf),
        FrontMessage::Sync => sync(buf),
        FrontMessage::Flush => flush(buf),
        FrontMessage::Terminate => terminate(buf),
        FrontMessage::CopyData(bytes) => copy_data(bytes.as_slice(), buf),
        FrontMessage::CopyDone => copy_done(buf),
        FrontMessage::CopyFail(reason) => copy_fail(reason.as_slice(), buf),
        FrontMessage::Password(password) => password_message(password.as_slice(), buf),
    }
}

impl FrontMessage {
    /// The message's tag, which is the first byte of its spelling.
    pub fn tag(&self) -> u8
        ensures { result ≡ tag self.now }
    {
        match self {
            FrontMessage::Query(_) => b'Q',
            FrontMessage::Parse { .. } => b'P',
            FrontMessage::Bind { .. } => b'B',
            FrontMessage::Describe { .. } => b'D',
            FrontMessage::Close { .. } => b'C',
            FrontMessage::Execute { .. } => b'E',
            FrontMessage::Sync => b'S',
            FrontMessage::Flush => b'H',
            FrontMessage::Terminate => b'X',
            FrontMessage::CopyData(_) => b'd',
            FrontMessage::CopyDone => b'c',
            FrontMessage::CopyFail(_) => b'f',
            FrontMessage::Password(_) => b'p',
        }
    }
}

// The message of this kind and this body. Memory is returned only where there is such a message, and it holds a list.
fn read_whole(alloc: Global, kind: FrontKind, body: &[u8]) -> Result<FrontMessage, BodyFault>
    ensures { ReadsWhole frontend.holds_list result ((front_reading kind).message body.now) }
{
    match front_message(alloc, kind, body) {
        Ok(message) => Ok(message),
        Err(BodyFault::Bad) => Err(BodyFault::Bad),
        Err(BodyFault::Memory) => {
            if is_front_message(kind, body) {
                Err(BodyFault::Memory)
            } else {
                Err(BodyFault::Bad)
            }
        }
    }
}

impl Message for FrontMessage {
    ghost direction = { frontend };

    fn is_tag(tag: u8) -> bool {
        FrontKind::of(tag).is_some()
    }

    fn encode(&self, buf: &mut Vec<u8>) -> Result<(), EncodeFault> {
        encode(self, buf)
    }

    fn is_message(tag: u8, body: &[u8]) -> bool {
        match FrontKind::of(tag) {
            None => false,
            Some(kind) => is_front_message(kind, body),
        }
    }

    fn of_body(alloc: Global, tag: u8, body: &[u8]) -> Result<FrontMessage, BodyFault> {
        match FrontKind::of(tag) {
            None => Err(BodyFault::Bad),
            Some(kind) => read_whole(alloc, kind, body),
        }
    }

    fn one_to_one() {}
}
