//! Why a line of CALLS is rejected.

ghost use Rattle.std.specs.Prelude.{◌≡◌};
ghost use Rattle.pgpipe_files.specs.Lines.{with_file};
ghost use Rattle.pgpipe_explain.specs.Calls.{call_fields, calls_search, calls_searched, is_setting};
ghost use Rattle.pgpipe_explain.specs.Calls.{judge_alone, judge_call, judge_calls, judge_grouped};
ghost use Rattle.pgpipe_explain.specs.Calls.{passed_calls, step_fields};
ghost use Rattle.pgpipe_explain.specs.Fields.{IsReasonOf};

use crate::fields::{Tail, judge_fields};
use crate::kind::FieldKind;
use crate::reason::LineReason;
use crate::verbs::{call_verb, is_of_calls, is_of_script, is_sync, no_verb, step_verb};
use pg_wire::Values;
use pgpipe_files::{TakesLines, take_lines};
use pgpipe_lines::{Arguments, CallVerb, LineFault, Refusal, StepVerb};
use std::alloc::Global;

/// What stands before a line of CALLS.
#[derive(Clone, Copy)]
pub struct CallsSeen {
    /// A `start`.
    pub started: bool,
    /// A `group` that isn't ended.
    pub grouped: bool,
}

// Why these can't be the fields of a step.
fn step_fields(verb: StepVerb, fields: &Values) -> Option<LineReason>
    ensures { result ≡ step_fields verb fields.now }
{
    match verb {
        StepVerb::Parse => judge_fields(
            fields,
            &[FieldKind::Text, FieldKind::Text],
            Tail::All(FieldKind::Number),
        ),
        StepVerb::Bind => judge_fields(fields, &[FieldKind::Text, FieldKind::Text], Tail::Values),
        StepVerb::Describe => judge_fields(
            fields,
            &[FieldKind::Target, FieldKind::Text],
            Tail::Nothing,
        ),
        StepVerb::Execute => judge_fields(
            fields,
            &[FieldKind::Text, FieldKind::Signed],
            Tail::Nothing,
        ),
        StepVerb::Close => judge_fields(
            fields,
            &[FieldKind::Target, FieldKind::Text],
            Tail::Nothing,
        ),
    }
}

// Why these can't be the fields of a line that stands in no group.
fn call_fields(verb: CallVerb, fields: &Values) -> Option<LineReason>
    ensures { result ≡ call_fields verb fields.now }
{
    match verb {
        CallVerb::User
        | CallVerb::Database
        | CallVerb::Password
        | CallVerb::Query
        | CallVerb::Chunk
        | CallVerb::Fail => judge_fields(fields, &[FieldKind::Text], Tail::Nothing),
        CallVerb::Parameter => judge_fields(
            fields,
            &[FieldKind::Text, FieldKind::Text],
            Tail::Nothing,
        ),
        CallVerb::File => judge_fields(fields, &[FieldKind::Path], Tail::Nothing),
        CallVerb::ToBackend | CallVerb::ToClient => {
            judge_fields(fields, &[FieldKind::Number], Tail::Nothing)
        }
        CallVerb::Start
        | CallVerb::Group
        | CallVerb::Done
        | CallVerb::Terminate
        | CallVerb::Step
        | CallVerb::BreakToBackend
        | CallVerb::BreakToClient
        | CallVerb::Flow => judge_fields(fields, &[], Tail::Nothing),
    }
}

// Whether a line is a setting, which stands before `start`.
fn is_setting(verb: CallVerb) -> bool
    ensures { result ≡ is_setting verb }
{
    match verb {
        CallVerb::User | CallVerb::Database | CallVerb::Parameter | CallVerb::Password => true,
        _ => false,
    }
}

// Why a word begins no line of CALLS.
fn no_call(word: &[u8]) -> LineReason
    ensures { result ≡ Rattle.pgpipe_explain.specs.Calls.no_call word.now }
{
    if is_of_script(word) {
        return LineReason::OfScript;
    }
    no_verb(word)
}

// Why a line that stands in a group is rejected.
fn judge_grouped(word: &[u8], fields: &Values) -> Option<LineReason>
    ensures { result ≡ judge_grouped word.now fields.now }
{
    match step_verb(word) {
        Some(verb) => step_fields(verb, fields),
        None if is_sync(word) => judge_fields(fields, &[], Tail::Nothing),
        None if is_of_calls(word) => Some(LineReason::InGroup),
        None => Some(no_call(word)),
    }
}

// Why a line with a verb that stands in no group is rejected. One that has no other fault is a `group` that isn't ended.
fn judge_call(started: bool, verb: CallVerb, fields: &Values) -> Option<LineReason>
    ensures { result ≡ judge_call started verb fields.now }
{
    if started && is_setting(verb) {
        return Some(LineReason::AfterStart);
    }
    let wrong = call_fields(verb, fields);
    if wrong.is_some() {
        return wrong;
    }
    match verb {
        CallVerb::Group => Some(LineReason::OpenGroup),
        _ => None,
    }
}

// Why a line that stands in no group is rejected.
fn judge_alone(started: bool, word: &[u8], fields: &Values) -> Option<LineReason>
    ensures { result ≡ judge_alone started word.now fields.now }
{
    match call_verb(word) {
        Some(verb) => judge_call(started, verb, fields),
        None if is_of_calls(word) => Some(LineReason::NoGroup),
        None => Some(no_call(word)),
    }
}

impl CallsSeen {
    // Why a line is rejected.
    fn judge(self, word: &[u8], fields: &Values) -> Option<LineReason>
        ensures { result ≡ judge_calls self word.now fields.now }
    {
        if self.grouped {
            return judge_grouped(word, fields);
        }
        judge_alone(self.started, word, fields)
    }

    // What stands before the line after this one.
    fn after(self, word: &[u8]) -> CallsSeen
        ensures { result ≡ passed_calls self word.now }
    {
        match word {
            b"group" => CallsSeen {
                grouped: true,
                ..self
            },
            b"sync" => CallsSeen {
                grouped: false,
                ..self
            },
            b"start" => CallsSeen {
                started: true,
                ..self
            },
            _ => self,
        }
    }
}

/// What is known while the line of CALLS that is rejected is looked for.
#[derive(Clone, Copy)]
pub struct CallsSearch {
    /// What stands before the next line.
    pub seen: CallsSeen,
    /// The row of the line.
    pub row: usize,
    /// Why it is rejected, once it came.
    pub reason: Option<LineReason>,
}

impl TakesLines for CallsSearch {
    ghost line = { calls_searched };

    fn take(&mut self, row: usize, verb: &[u8], arguments: Arguments) -> Result<(), Refusal> {
        if row == self.row {
            let fields = arguments.values()?;
            self.reason = self.seen.judge(verb, &fields);
        } else {
            self.seen = self.seen.after(verb);
        }
        Ok(())
    }
}

/// Why `read_calls` rejects the line of CALLS in this row. None where no reason is found, or memory ran out. The rows after it are read too. Where
/// one of them is no line of fields, nothing is claimed about what is returned.
pub fn calls_reason(alloc: Global, bytes: &[u8], row: usize) -> Option<LineReason>
    ensures { IsReasonOf (λ s. s.reason) row
        (with_file calls_searched (calls_search row) bytes.now) result }
{
    let mut search = CallsSearch {
        seen: CallsSeen {
            started: false,
            grouped: false,
        },
        row,
        reason: None,
    };
    match take_lines(alloc, bytes, &mut search) {
        Ok(()) => search.reason,
        Err(LineFault::Line(number)) if number == row => Some(LineReason::NoLine),
        Err(LineFault::Line(_)) => search.reason,
        Err(LineFault::Memory) => None,
    }
}
