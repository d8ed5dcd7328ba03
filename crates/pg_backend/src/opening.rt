//! The beginning of a session.

ghost use Rattle.std.specs.Prelude.{◌≡◌, ◌==◌, ◌<◌, [], length, IsTrue, ◌↔◌};
ghost use Rattle.pg_backend.specs.Opening.{welcome, user_from};
ghost use Rattle.pg_backend.specs.Private.Opening.{Greets};
ghost use Rattle.pg_backend.specs.Telling.{EncodesAll};

use crate::answering::or_memory;
use crate::fault::BackendFault;
use crate::script::{Auth, Script};
use crate::stage::Awaits;
use crate::telling::{both, tell_all, tell_key};
use pg_wire::backend::encode;
use pg_wire::{BackMessage, EncodeFault, Seq, Status, md5_answer};
use std::alloc::Global;

/// The last value of the parameter `user`; empty where there is none ("StartupMessage").
pub fn user(pairs: &[(Seq<u8>, Seq<u8>)]) -> &[u8]
    ensures { result.now ≡ user_from [] pairs.now }
{
    let mut user: &[u8] = &[];
    for pair in pairs {
        if pair.0.as_slice() == b"user".as_slice() {
            user = pair.1.as_slice();
        }
    }
    user
}

/// Writes AuthenticationOk, the run-time parameters, the key, and that the server is ready ("Start-up").
pub fn tell_welcome(script: &Script, out: &mut Vec<u8>) -> Result<(), EncodeFault>
    ensures { EncodesAll (welcome script.now) out.old.items result out.new.items }
{
    let so_far = encode(&BackMessage::AuthOk, out);
    let so_far = both(so_far, tell_all(script.pairs.as_slice(), out));
    let so_far = both(so_far, tell_key(&script.key, out));
    both(so_far, encode(&BackMessage::Ready(Status::Idle), out))
}

/// Lets a client in, or asks for the password of this user. It returns what is awaited next.
pub fn admit(
    alloc: Global,
    script: &Script,
    user: &[u8],
    out: &mut Vec<u8>,
) -> Result<Awaits, BackendFault>
    ensures { Greets script.now user.now out.old.items result out.new.items }
{
    match &script.auth {
        Auth::Trust => {
            or_memory(tell_welcome(script, out))?;
            Ok(Awaits::Request(Seq::new(Vec::new(alloc))))
        }
        Auth::Cleartext(password) => {
            or_memory(encode(&BackMessage::AuthCleartext, out))?;
            let password = Seq::from_slice(alloc, password.as_slice())?;
            Ok(Awaits::Password(password))
        }
        Auth::Md5 { password, salt } => {
            or_memory(encode(&BackMessage::AuthMd5(*salt), out))?;
            let answer = md5_answer(user, password.as_slice(), *salt);
            Ok(Awaits::Password(Seq::from_slice(alloc, &answer)?))
        }
    }
}
