//! Which file a verb is of.

ghost use Rattle.std.specs.Prelude.{◌≡◌};
ghost use Rattle.pgpipe_lines.specs.Verb.{answer_verb, call_verb, script_verb, step_verb};
ghost use Rattle.pgpipe_explain.specs.Verbs.{is_of_calls, is_of_script, is_sync, no_verb};

use crate::reason::LineReason;
use pgpipe_lines::{AnswerVerb, CallVerb, ScriptVerb, StepVerb};
use std::str;

/// The verb of SCRIPT that a word is, if it stands in no answer or begins one.
pub fn script_verb(word: &[u8]) -> Option<ScriptVerb>
    ensures { result ≡ script_verb word.now }
{
    match str::from_utf8(word) {
        Ok(word) => ScriptVerb::named(word),
        Err(_) => None,
    }
}

/// The verb of SCRIPT that a word is, if it stands in an answer.
pub fn answer_verb(word: &[u8]) -> Option<AnswerVerb>
    ensures { result ≡ answer_verb word.now }
{
    match str::from_utf8(word) {
        Ok(word) => AnswerVerb::named(word),
        Err(_) => None,
    }
}

/// The verb of CALLS that a word is, if it is a step.
pub fn step_verb(word: &[u8]) -> Option<StepVerb>
    ensures { result ≡ step_verb word.now }
{
    match str::from_utf8(word) {
        Ok(word) => StepVerb::named(word),
        Err(_) => None,
    }
}

/// The verb of CALLS that a word is, if it stands in no group.
pub fn call_verb(word: &[u8]) -> Option<CallVerb>
    ensures { result ≡ call_verb word.now }
{
    match str::from_utf8(word) {
        Ok(word) => CallVerb::named(word),
        Err(_) => None,
    }
}

/// Whether a word ends a group.
pub fn is_sync(word: &[u8]) -> bool
    ensures { result ≡ is_sync word.now }
{
    match word {
        b"sync" => true,
        _ => false,
    }
}

/// Whether a word is a verb of CALLS.
pub fn is_of_calls(word: &[u8]) -> bool
    ensures { result ≡ is_of_calls word.now }
{
    call_verb(word).is_some() || step_verb(word).is_some() || is_sync(word)
}

/// Whether a word is a verb of SCRIPT.
pub fn is_of_script(word: &[u8]) -> bool
    ensures { result ≡ is_of_script word.now }
{
    script_verb(word).is_some() || answer_verb(word).is_some()
}

/// Why a word is a verb of neither file.
pub fn no_verb(word: &[u8]) -> LineReason
    ensures { result ≡ no_verb word.now }
{
    if word.contains(&b' ') {
        return LineReason::Space;
    }
    LineReason::NoVerb
}
