//! Which answer a request gets.

ghost use Rattle.std.specs.Prelude.{◌≡◌};
ghost use Rattle.std.specs.List.{list_all};
ghost use Rattle.pg_backend.specs.Fitting.{answers_query, answers_step, answers_steps, fits};

use crate::script::{Answer, ScriptPart};
use pg_wire::{Request, Step, Target};

// Whether the part may answer a Query: it is a result.
fn answers_query(part: &ScriptPart) -> bool
    ensures { result ≡ answers_query part.now }
{
    match part {
        ScriptPart::Rows { .. } => true,
        ScriptPart::Command(_) => true,
        ScriptPart::Empty => true,
        ScriptPart::CopyOut { .. } => true,
        ScriptPart::CopyIn { .. } => true,
        _ => false,
    }
}

// Whether all of the parts may answer a Query.
fn answer_query(parts: &[ScriptPart]) -> bool
    ensures { result ≡ list_all answers_query parts.now }
{
    parts.iter().all(|part| answers_query(part))
}

// Whether the part may answer the step.
fn answers_step(step: &Step, part: &ScriptPart) -> bool
    ensures { result ≡ answers_step step.now part.now }
{
    match step {
        Step::Parse { .. } => matches!(part, ScriptPart::Parsed),
        Step::Bind { .. } => matches!(part, ScriptPart::Bound),
        Step::Describe { target, .. } => match part {
            ScriptPart::Described { parameters, .. } => {
                parameters.is_some() == (*target == Target::Statement)
            }
            _ => false,
        },
        Step::Execute { .. } => matches!(part, ScriptPart::Executed { .. }),
        Step::Close { .. } => matches!(part, ScriptPart::Shut),
    }
}

// Whether part i answers step i. Only an error lets steps go without an answer.
fn answers_steps(error: bool, steps: &[Step], parts: &[ScriptPart]) -> bool
    ensures { result ≡ answers_steps error steps.now parts.now }
{
    if parts.len() > steps.len() {
        return false;
    }
    if parts.len() < steps.len() && !error {
        return false;
    }
    for (i, part) in parts.iter().enumerate() {
        if !answers_step(&steps[i], part) {
            return false;
        }
    }
    true
}

/// Whether the answer fits the request.
pub fn fits(request: &Request, answer: &Answer) -> bool
    ensures { result ≡ fits request.now answer.now }
{
    let parts = answer.parts.as_slice();
    match request {
        Request::Query(_) => answer_query(parts),
        Request::Group(steps) => answers_steps(answer.error.is_some(), steps.as_slice(), parts),
    }
}
