//! Whether a script can be played.

ghost use Rattle.std.specs.Prelude.{◌≡◌};
ghost use Rattle.std.specs.List.{list_all, flat_map};
ghost use Rattle.pg_backend.specs.Check.{is_copy_in, has_one_copy, part_messages, answer_messages};
ghost use Rattle.pg_backend.specs.Check.{script_messages, Checks};
ghost use Rattle.pg_backend.specs.Telling.{EncodesAll, script_fault};

use crate::script::{Answer, Load, Script, ScriptPart};
use crate::script_fault::ScriptFault;
use crate::telling::{Tell, both, tell_all, tell_error, tell_key};
use pg_wire::EncodeFault;
use pg_wire::backend::{copy_in, error_response};
use std::alloc::Global;

fn is_copy_in(part: &ScriptPart) -> bool
    ensures { result ≡ is_copy_in part.now }
{
    matches!(part, ScriptPart::CopyIn { .. })
}

// Whether an answer has at most one copy from the client.
fn has_one_copy(answer: &Answer) -> bool
    ensures { result ≡ has_one_copy answer.now }
{
    let parts = answer.parts.as_slice();
    parts.iter().filter(|part| is_copy_in(part)).count() <= 1
}

// Whether each answer has at most one copy from the client.
fn all_have_one_copy(answers: &[Answer]) -> bool
    ensures { result ≡ list_all has_one_copy answers.now }
{
    answers.iter().all(|answer| has_one_copy(answer))
}

// Writes the messages that a part may be sent as.
fn tell_part(part: &ScriptPart, out: &mut Vec<u8>) -> Result<(), EncodeFault>
    ensures { EncodesAll (part_messages part.now) out.old.items result out.new.items }
{
    match part {
        ScriptPart::CopyIn { head, load } => match load {
            Load::Accept(_) => part.tell(out),
            Load::Refuse { after: _, fields } => {
                let so_far = copy_in(head, out);
                both(so_far, error_response(fields, out))
            }
        },
        _ => part.tell(out),
    }
}

fn tell_parts(parts: &[ScriptPart], out: &mut Vec<u8>) -> Result<(), EncodeFault>
    ensures { EncodesAll (flat_map part_messages parts.now) out.old.items result out.new.items }
{
    let mut so_far = Ok(());
    for part in parts {
        so_far = both(so_far, tell_part(part, out));
    }
    so_far
}

/// The messages that an answer may be sent as, whether it fits its request or not.
impl Tell for Answer {
    ghost messages = { answer_messages };

    fn tell(&self, out: &mut Vec<u8>) -> Result<(), EncodeFault> {
        let asides = tell_all(self.before.as_slice(), out);
        let so_far = tell_parts(self.parts.as_slice(), out);
        let so_far = both(so_far, tell_error(&self.error, out));
        both(asides, so_far)
    }
}

// Writes the messages that a script may be sent as.
fn tell_script(script: &Script, out: &mut Vec<u8>) -> Result<(), EncodeFault>
    ensures { EncodesAll (script_messages script.now) out.old.items result out.new.items }
{
    let pairs = tell_all(script.pairs.as_slice(), out);
    let so_far = tell_key(&script.key, out);
    let so_far = both(so_far, tell_all(script.answers.as_slice(), out));
    both(pairs, so_far)
}

fn script_fault(fault: EncodeFault) -> ScriptFault
    ensures { result ≡ script_fault fault }
{
    match fault {
        EncodeFault::Memory => ScriptFault::Memory,
        EncodeFault::HasZero => ScriptFault::Encode,
        EncodeFault::EmptyName => ScriptFault::Encode,
        EncodeFault::TooMany => ScriptFault::Encode,
        EncodeFault::ReservedCode => ScriptFault::Encode,
        EncodeFault::TooLong => ScriptFault::Encode,
    }
}

impl Script {
    /// Whether the script can be played. Copies: an answer has two or more copies from the client. Encode: a message that the script may send has no
    /// spelling, be it in an answer that fits its request or not. Memory: memory ran out, and neither of the others holds. It writes each message
    /// once.
    pub fn check(&self, alloc: Global) -> Result<(), ScriptFault>
        ensures { Checks self.now result }
    {
        if !all_have_one_copy(self.answers.as_slice()) {
            return Err(ScriptFault::Copies);
        }
        let mut scratch = Vec::new(alloc);
        match tell_script(self, &mut scratch) {
            Ok(()) => Ok(()),
            Err(fault) => Err(script_fault(fault)),
        }
    }
}
