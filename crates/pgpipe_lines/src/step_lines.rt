//! Reading the lines of CALLS that are steps of a group.

ghost use Rattle.pgpipe_lines.specs.StepLines.{named_of, step_of};
ghost use Rattle.pgpipe_lines.specs.Reads.{ReadsAs};

use crate::arguments::Arguments;
use crate::fault::Refusal;
use crate::verb::{StepVerb, target_of};
use pg_wire::{Seq, Step, Target};
use std::alloc::Global;

/// The step of a line.
pub fn step_of(alloc: Global, verb: StepVerb, arguments: Arguments) -> Result<Step, Refusal>
    ensures { ReadsAs result (step_of verb arguments) }
{
    match verb {
        StepVerb::Parse => parse_of(arguments),
        StepVerb::Bind => bind_of(alloc, arguments),
        StepVerb::Describe => {
            let (target, name) = named_of(arguments)?;
            Ok(Step::Describe { target, name })
        }
        StepVerb::Execute => execute_of(arguments),
        StepVerb::Close => {
            let (target, name) = named_of(arguments)?;
            Ok(Step::Close { target, name })
        }
    }
}

fn parse_of(mut arguments: Arguments) -> Result<Step, Refusal>
    ensures { ReadsAs result (step_of StepVerb.Parse arguments) }
{
    let (name, text) = arguments.pair()?;
    let types = arguments.numbers()?;
    Ok(Step::Parse { name, text, types })
}

// Its values are in the text format, as are the columns that come of it.
fn bind_of(alloc: Global, mut arguments: Arguments) -> Result<Step, Refusal>
    ensures { ReadsAs result (step_of StepVerb.Bind arguments) }
{
    let (portal, statement) = arguments.pair()?;
    let values = arguments.values()?;
    Ok(Step::Bind {
        portal,
        statement,
        formats: Seq::new(Vec::new(alloc)),
        values,
        result_formats: Seq::new(Vec::new(alloc)),
    })
}

fn execute_of(mut arguments: Arguments) -> Result<Step, Refusal>
    ensures { ReadsAs result (step_of StepVerb.Execute arguments) }
{
    let portal = arguments.text()?;
    let max_rows = arguments.signed()?;
    arguments.end()?;
    Ok(Step::Execute { portal, max_rows })
}

// A statement or a portal, and its name.
fn named_of(mut arguments: Arguments) -> Result<(Target, Seq<u8>), Refusal>
    ensures { ReadsAs result (named_of arguments) }
{
    let letter = arguments.text()?;
    let target = target_of(letter.as_slice()).ok_or(Refusal::Wrong)?;
    let name = arguments.text()?;
    arguments.end()?;
    Ok((target, name))
}
