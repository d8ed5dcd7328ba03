//! What the calls put out.

ghost use Rattle.std.specs.Prelude.{◌≡◌, ◌++◌, ◌∷◌, [], map};
ghost use Rattle.pg_wire.specs.Encoder.{Encodes, EncodesPacket};
ghost use Rattle.pg_wire.specs.Frontend.{frontend};
ghost use Rattle.pg_wire.specs.Segment.{request_messages, step_message};
ghost use Rattle.pg_wire.specs.message.First.TheVariants.{Startup};
ghost use Rattle.pg_wire.specs.message.FrontMessage.TheVariants.{Password, Sync};
ghost use Rattle.pg_wire.specs.declared.session.Request.TheVariants.{Group};
ghost use Rattle.pg_client.specs.Sent.{first_fault, password_messages, startup_pairs};
ghost use Rattle.pg_client.specs.Private.Sending.{password_text, Puts, SendsAll, SendsAnswer};
ghost use Rattle.pg_client.specs.Private.Sending.{SendsStart, starved_after};
ghost use Rattle.pg_response.specs.Kind.{auth_message};

use crate::fault::FeedFault;
use crate::settings::Settings;
use pg_response::Auth;
use pg_wire::{EncodeFault, LONGEST, Request, Seq, Step, frontend, md5_answer};

fn put_startup(settings: &Settings, out: &mut Vec<u8>) -> Result<(), EncodeFault>
    ensures { EncodesPacket (Startup (startup_pairs settings.now)) out.old.items result
        out.new.items }
{
    let database = match &settings.database {
        Some(name) => Some(name.as_slice()),
        None => None,
    };
    frontend::startup(
        settings.user.as_slice(),
        database,
        settings.pairs.as_slice(),
        out,
    )
}

// Why the password can't be sent, if one was given.
fn password_fault(password: &Option<Seq<u8>>) -> Option<EncodeFault>
    ensures { result ≡ first_fault (password_messages password.now) }
{
    let Some(password) = password else {
        return None;
    };
    if password.as_slice().contains(&0) {
        Some(EncodeFault::HasZero)
    } else if password.len() > LONGEST as usize - 5 {
        // the length field, which counts itself, and the zero byte at the end
        Some(EncodeFault::TooLong)
    } else {
        None
    }
}

/// Puts the startup packet out, or nothing. The password is judged too, even where memory ran out for the packet.
pub fn put_start(settings: &Settings, out: &mut Vec<u8>) -> Result<(), EncodeFault>
    ensures { SendsStart settings.now out.old.items result out.new.items }
{
    let end = out.len();
    match put_startup(settings, out) {
        Ok(()) => match password_fault(&settings.password) {
            None => Ok(()),
            Some(fault) => {
                out.truncate(end);
                Err(fault)
            }
        },
        Err(EncodeFault::Memory) => match password_fault(&settings.password) {
            None => Err(EncodeFault::Memory),
            Some(fault) => Err(fault),
        },
        Err(fault) => Err(fault),
    }
}

/// Puts out what the server asks for in a message of the authentication. `start` has judged the password, so only memory may run out.
pub fn put_answer(settings: &Settings, auth: &Auth, out: &mut Vec<u8>) -> Result<(), FeedFault>
    ensures { SendsAnswer settings.now (auth_message auth.now) out.old.items result
        out.new.items }
{
    let salt = match auth {
        Auth::Cleartext => None,
        Auth::Md5(salt) => Some(*salt),
        _ => return Ok(()),
    };
    let Some(password) = &settings.password else {
        return Err(FeedFault::PasswordWanted);
    };
    if put_password(&settings.user, password, salt, out).is_err() {
        return Err(FeedFault::Memory);
    }
    Ok(())
}

// Puts a password out, or its MD5 text for the user and this salt.
fn put_password(
    user: &Seq<u8>,
    password: &Seq<u8>,
    salt: Option<[u8; 4]>,
    out: &mut Vec<u8>,
) -> Result<(), EncodeFault>
    ensures { Encodes frontend (Password (password_text user.now password.now salt))
        out.old.items result out.new.items }
{
    match salt {
        None => frontend::password_message(password.as_slice(), out),
        Some(salt) => {
            let text = md5_answer(user.as_slice(), password.as_slice(), salt);
            frontend::password_message(&text, out)
        }
    }
}

fn put_step(step: &Step, out: &mut Vec<u8>) -> Result<(), EncodeFault>
    ensures { Encodes frontend (step_message step.now) out.old.items result out.new.items }
{
    match step {
        Step::Parse { name, text, types } => {
            frontend::parse(name.as_slice(), text.as_slice(), types.as_slice(), out)
        }
        Step::Bind {
            portal,
            statement,
            formats,
            values,
            result_formats,
        } => frontend::bind(
            portal.as_slice(),
            statement.as_slice(),
            formats.as_slice(),
            values,
            result_formats.as_slice(),
            out,
        ),
        Step::Describe { target, name } => frontend::describe(*target, name.as_slice(), out),
        Step::Execute { portal, max_rows } => frontend::execute(portal.as_slice(), *max_rows, out),
        Step::Close { target, name } => frontend::close(*target, name.as_slice(), out),
    }
}

// Whether memory ran out so far, after one more message was put out.
fn starved_after(starved: bool, put: Result<(), EncodeFault>) -> Result<bool, EncodeFault>
    ensures { result ≡ starved_after starved put }
{
    match put {
        Ok(()) => Ok(starved),
        Err(EncodeFault::Memory) => Ok(true),
        Err(fault) => Err(fault),
    }
}

// Puts the steps and a Sync out, as far as memory allows. All are judged, even after one for which memory ran out.
fn put_steps(steps: &[Step], out: &mut Vec<u8>) -> Result<(), EncodeFault>
    ensures { Puts (map step_message steps.now ++ Sync ∷ []) out.old.items result out.new.items }
{
    let mut starved = false;
    for step in steps {
        starved = starved_after(starved, put_step(step, out))?;
    }
    if starved_after(starved, frontend::sync(out))? {
        Err(EncodeFault::Memory)
    } else {
        Ok(())
    }
}

// Puts a group out, or nothing.
fn put_group(steps: &Seq<Step>, out: &mut Vec<u8>) -> Result<(), EncodeFault>
    ensures { SendsAll (request_messages (Group steps.now)) out.old.items result out.new.items }
{
    let before = out.len();
    match put_steps(steps.as_slice(), out) {
        Ok(()) => Ok(()),
        Err(fault) => {
            out.truncate(before);
            Err(fault)
        }
    }
}

/// Puts a request out, or nothing.
pub fn put_request(request: &Request, out: &mut Vec<u8>) -> Result<(), EncodeFault>
    ensures { SendsAll (request_messages request.now) out.old.items result out.new.items }
{
    match request {
        Request::Query(text) => frontend::query(text.as_slice(), out),
        Request::Group(steps) => put_group(steps, out),
    }
}
