//! Why a line of SCRIPT is rejected.

ghost use Rattle.std.specs.Prelude.{◌≡◌};
ghost use Rattle.pgpipe_files.specs.Lines.{with_file};
ghost use Rattle.pgpipe_explain.specs.Fields.{IsReasonOf};
ghost use Rattle.pgpipe_explain.specs.Script.{answer_fields, answer_place, before_script};
ghost use Rattle.pgpipe_explain.specs.Script.{copy_in_fields, judge_answer, judge_own};
ghost use Rattle.pgpipe_explain.specs.Script.{judge_script, own_fields, own_place, passed_answer};
ghost use Rattle.pgpipe_explain.specs.Script.{passed_own, passed_script, script_search};
ghost use Rattle.pgpipe_explain.specs.Script.{script_searched};

use crate::fields::{Tail, judge_fields, word_at};
use crate::kind::FieldKind;
use crate::reason::LineReason;
use crate::verbs::{answer_verb, is_of_calls, no_verb, script_verb};
use pg_wire::Values;
use pgpipe_files::{TakesLines, take_lines};
use pgpipe_lines::{
    AnswerVerb, Arguments, AuthWay, EndWay, LineFault, LoadWay, Refusal, ScriptVerb,
};
use std::alloc::Global;

/// What stands before a line of SCRIPT.
#[derive(Clone, Copy)]
pub struct ScriptSeen {
    /// An `answer`.
    pub answered: bool,
    /// An `auth`.
    pub auth: bool,
    /// A `key`.
    pub key: bool,
    /// An `error` of the same answer.
    pub error: bool,
    /// A `rows` or `executed`, as the last part of the same answer.
    pub rows: bool,
    /// A `copyout`, as the last part of the same answer.
    pub copy: bool,
    /// A `paramtypes` in the line before.
    pub types: bool,
}

// Before the first line.
fn before_script() -> ScriptSeen
    ensures { result ≡ before_script }
{
    ScriptSeen {
        answered: false,
        auth: false,
        key: false,
        error: false,
        rows: false,
        copy: false,
        types: false,
    }
}

// Why these can't be the fields of a line that stands in no answer, or begins one.
fn own_fields(verb: ScriptVerb, fields: &Values) -> Option<LineReason>
    ensures { result ≡ own_fields verb fields.now }
{
    match verb {
        ScriptVerb::Auth => match AuthWay::named(word_at(fields, 0)) {
            Some(AuthWay::Cleartext) => {
                judge_fields(fields, &[FieldKind::Way, FieldKind::Text], Tail::Nothing)
            }
            Some(AuthWay::Md5) => {
                judge_fields(
                    fields,
                    &[FieldKind::Way, FieldKind::Text, FieldKind::Salt],
                    Tail::Nothing,
                )
            }
            _ => judge_fields(fields, &[FieldKind::Way], Tail::Nothing),
        },
        ScriptVerb::Pair => judge_fields(
            fields,
            &[FieldKind::Text, FieldKind::Text],
            Tail::Nothing,
        ),
        ScriptVerb::Key => judge_fields(
            fields,
            &[FieldKind::Signed, FieldKind::Signed],
            Tail::Nothing,
        ),
        ScriptVerb::Answer => judge_fields(fields, &[FieldKind::Status], Tail::Nothing),
    }
}

// Why these can't be the fields of a `copyin`.
fn copy_in_fields(fields: &Values) -> Option<LineReason>
    ensures { result ≡ copy_in_fields fields.now }
{
    match LoadWay::named(word_at(fields, 2)) {
        Some(LoadWay::Refuse) => judge_fields(
            fields,
            &[
                FieldKind::Format,
                FieldKind::Columns,
                FieldKind::Load,
                FieldKind::Number,
            ],
            Tail::Codes,
        ),
        _ => judge_fields(
            fields,
            &[
                FieldKind::Format,
                FieldKind::Columns,
                FieldKind::Load,
                FieldKind::Text,
            ],
            Tail::Nothing,
        ),
    }
}

// Why these can't be the fields of an `executed`.
fn executed_fields(fields: &Values) -> Option<LineReason>
    ensures { result ≡ Rattle.pgpipe_explain.specs.Script.executed_fields fields.now }
{
    match EndWay::named(word_at(fields, 0)) {
        Some(EndWay::Complete) => judge_fields(
            fields,
            &[FieldKind::End, FieldKind::Text],
            Tail::Nothing,
        ),
        _ => judge_fields(fields, &[FieldKind::End], Tail::Nothing),
    }
}

// Why these can't be the fields of a line that stands in an answer.
fn answer_fields(verb: AnswerVerb, fields: &Values) -> Option<LineReason>
    ensures { result ≡ answer_fields verb fields.now }
{
    match verb {
        AnswerVerb::Notice => judge_fields(fields, &[], Tail::Codes),
        AnswerVerb::Set => judge_fields(fields, &[FieldKind::Text, FieldKind::Text], Tail::Nothing),
        AnswerVerb::Notify => {
            judge_fields(
                fields,
                &[FieldKind::Signed, FieldKind::Text, FieldKind::Text],
                Tail::Nothing,
            )
        }
        AnswerVerb::Rows => judge_fields(fields, &[FieldKind::Text], Tail::All(FieldKind::Text)),
        AnswerVerb::Row => None,
        AnswerVerb::Command => judge_fields(fields, &[FieldKind::Text], Tail::Nothing),
        AnswerVerb::Empty => judge_fields(fields, &[], Tail::Nothing),
        AnswerVerb::CopyOut => {
            judge_fields(
                fields,
                &[FieldKind::Text, FieldKind::Format, FieldKind::Columns],
                Tail::Nothing,
            )
        }
        AnswerVerb::Chunk => judge_fields(fields, &[FieldKind::Text], Tail::Nothing),
        AnswerVerb::CopyIn => copy_in_fields(fields),
        AnswerVerb::Parsed => judge_fields(fields, &[], Tail::Nothing),
        AnswerVerb::Bound => judge_fields(fields, &[], Tail::Nothing),
        AnswerVerb::ParamTypes => judge_fields(fields, &[], Tail::All(FieldKind::Number)),
        AnswerVerb::Described => judge_fields(fields, &[], Tail::All(FieldKind::Text)),
        AnswerVerb::Executed => executed_fields(fields),
        AnswerVerb::Shut => judge_fields(fields, &[], Tail::Nothing),
        AnswerVerb::Error => judge_fields(fields, &[], Tail::Codes),
    }
}

impl ScriptSeen {
    // Why a line that stands in no answer, or begins one, may not stand here, whatever its fields are.
    fn own_place(self, verb: ScriptVerb) -> Option<LineReason>
        ensures { result ≡ own_place self verb }
    {
        match verb {
            ScriptVerb::Auth if self.auth => Some(LineReason::Second),
            ScriptVerb::Key if self.key => Some(LineReason::Second),
            ScriptVerb::Answer if self.types => Some(LineReason::NoDescribed),
            _ => None,
        }
    }

    // Why a line that stands in an answer may not stand here, whatever its fields are.
    fn answer_place(self, verb: AnswerVerb) -> Option<LineReason>
        ensures { result ≡ answer_place self verb }
    {
        match verb {
            AnswerVerb::Row if !self.rows => Some(LineReason::NoRows),
            AnswerVerb::Chunk if !self.copy => Some(LineReason::NoCopyOut),
            AnswerVerb::Error if self.error => Some(LineReason::Second),
            AnswerVerb::ParamTypes => Some(LineReason::LastTypes),
            _ => None,
        }
    }

    // Why a line that stands in no answer, or begins one, is rejected.
    fn judge_own(self, verb: ScriptVerb, fields: &Values) -> Option<LineReason>
        ensures { result ≡ judge_own self verb fields.now }
    {
        if self.answered && !matches!(verb, ScriptVerb::Answer) {
            return Some(LineReason::AfterAnswer);
        }
        let wrong = own_fields(verb, fields);
        if wrong.is_some() {
            return wrong;
        }
        self.own_place(verb)
    }

    // Why a line that stands in an answer is rejected.
    fn judge_answer(self, verb: AnswerVerb, fields: &Values) -> Option<LineReason>
        ensures { result ≡ judge_answer self verb fields.now }
    {
        if !self.answered {
            return Some(LineReason::BeforeAnswer);
        }
        if self.types && !matches!(verb, AnswerVerb::Described) {
            return Some(LineReason::NoDescribed);
        }
        let wrong = answer_fields(verb, fields);
        if wrong.is_some() {
            return wrong;
        }
        self.answer_place(verb)
    }

    // Why a line is rejected.
    fn judge(self, word: &[u8], fields: &Values) -> Option<LineReason>
        ensures { result ≡ judge_script self word.now fields.now }
    {
        match (script_verb(word), answer_verb(word)) {
            (Some(verb), _) => self.judge_own(verb, fields),
            (None, Some(verb)) => self.judge_answer(verb, fields),
            (None, None) if is_of_calls(word) => Some(LineReason::OfCalls),
            (None, None) => Some(no_verb(word)),
        }
    }

    // What stands before the line after one that stands in no answer, or begins one.
    fn after_own(self, verb: ScriptVerb) -> ScriptSeen
        ensures { result ≡ passed_own self verb }
    {
        match verb {
            ScriptVerb::Auth => ScriptSeen { auth: true, ..self },
            ScriptVerb::Pair => self,
            ScriptVerb::Key => ScriptSeen { key: true, ..self },
            ScriptVerb::Answer => ScriptSeen {
                answered: true,
                error: false,
                rows: false,
                copy: false,
                types: false,
                ..self
            },
        }
    }

    // What stands before the line after a part, which is rows, a copy to the client, or another.
    fn after_part(self, rows: bool, copy: bool) -> ScriptSeen
        ensures { result ≡ Rattle.pgpipe_explain.specs.Script.after_part self rows copy }
    {
        ScriptSeen {
            rows,
            copy,
            types: false,
            ..self
        }
    }

    // What stands before the line after one that stands in an answer.
    fn after_answer(self, verb: AnswerVerb) -> ScriptSeen
        ensures { result ≡ passed_answer self verb }
    {
        match verb {
            AnswerVerb::Notice
            | AnswerVerb::Set
            | AnswerVerb::Notify
            | AnswerVerb::Row
            | AnswerVerb::Chunk => ScriptSeen {
                types: false,
                ..self
            },
            AnswerVerb::ParamTypes => ScriptSeen {
                types: true,
                ..self
            },
            AnswerVerb::Error => ScriptSeen {
                error: true,
                types: false,
                ..self
            },
            AnswerVerb::Rows | AnswerVerb::Executed => self.after_part(true, false),
            AnswerVerb::CopyOut => self.after_part(false, true),
            AnswerVerb::Command
            | AnswerVerb::Empty
            | AnswerVerb::CopyIn
            | AnswerVerb::Parsed
            | AnswerVerb::Bound
            | AnswerVerb::Described
            | AnswerVerb::Shut => self.after_part(false, false),
        }
    }

    // What stands before the line after this one.
    fn after(self, word: &[u8]) -> ScriptSeen
        ensures { result ≡ passed_script self word.now }
    {
        match (script_verb(word), answer_verb(word)) {
            (Some(verb), _) => self.after_own(verb),
            (None, Some(verb)) => self.after_answer(verb),
            (None, None) => self,
        }
    }
}

/// What is known while the line of SCRIPT that is rejected is looked for.
#[derive(Clone, Copy)]
pub struct ScriptSearch {
    /// What stands before the next line.
    pub seen: ScriptSeen,
    /// The row of the line.
    pub row: usize,
    /// Why it is rejected, once it came.
    pub reason: Option<LineReason>,
}

impl TakesLines for ScriptSearch {
    ghost line = { script_searched };

    fn take(&mut self, row: usize, verb: &[u8], arguments: Arguments) -> Result<(), Refusal> {
        if row == self.row {
            let fields = arguments.values()?;
            self.reason = self.seen.judge(verb, &fields);
        } else {
            self.seen = self.seen.after(verb);
        }
        Ok(())
    }
}

/// Why `read_script` rejects the line of SCRIPT in this row. None where no reason is found, or memory ran out. The rows after it are read too. Where
/// one of them is no line of fields, nothing is claimed about what is returned.
pub fn script_reason(alloc: Global, bytes: &[u8], row: usize) -> Option<LineReason>
    ensures { IsReasonOf (λ s. s.reason) row
        (with_file script_searched (script_search row) bytes.now) result }
{
    let mut search = ScriptSearch {
        seen: before_script(),
        row,
        reason: None,
    };
    match take_lines(alloc, bytes, &mut search) {
        Ok(()) => search.reason,
        Err(LineFault::Line(number)) if number == row => Some(LineReason::NoLine),
        Err(LineFault::Line(_)) => search.reason,
        Err(LineFault::Memory) => None,
    }
}
