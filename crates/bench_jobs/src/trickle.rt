//! Sessions of small extended queries between a client and a scripted backend, of which a few bytes arrive at a time.

ghost use Rattle.std.specs.Prelude.{IfOk};
ghost use Rattle.pg_backend.specs.Check.{IsChecked};

use crate::digest::Digest;
use crate::orders::{Order, columns};
use crate::session::{BothEnds, checked};
use pg_backend::{Answer, Script, ScriptPart};
use pg_wire::{Aside, ExecEnd, Fields, Outcome, Part, Request, Seq, Status, Step, Target, Values};
use rand_xoshiro::Xoshiro256PlusPlus;
use rand_xoshiro::rand_core::Rng;
use std::alloc::{AllocError, Global};

/// How many groups a session has.
const GROUPS: u32 = 64;

// The values of a row, owned.
fn values(
    alloc: Global,
    order: &mut Order,
    random: &mut Xoshiro256PlusPlus,
) -> anyhow::Result<Values> {
    Ok(Values::from_slice(alloc, order.next(random).as_slice())?)
}

// The step that parses a statement.
fn parse(alloc: Global) -> Result<Step, AllocError> {
    let text = b"INSERT INTO orders VALUES ($1, $2, $3, $4, $5, $6, $7) RETURNING *";
    Ok(Step::Parse {
        name: Seq::new(Vec::new(alloc)),
        text: Seq::from_slice(alloc, text)?,
        types: Seq::new(Vec::new(alloc)),
    })
}

// The step that binds values.
fn bind(alloc: Global, values: Values) -> Step {
    Step::Bind {
        portal: Seq::new(Vec::new(alloc)),
        statement: Seq::new(Vec::new(alloc)),
        formats: Seq::new(Vec::new(alloc)),
        values,
        result_formats: Seq::new(Vec::new(alloc)),
    }
}

// The step that describes what is bound.
fn describe(alloc: Global) -> Step {
    Step::Describe {
        target: Target::Portal,
        name: Seq::new(Vec::new(alloc)),
    }
}

// The step that runs what is bound.
fn execute(alloc: Global) -> Step {
    Step::Execute {
        portal: Seq::new(Vec::new(alloc)),
        max_rows: 0,
    }
}

// Puts the steps of a group: a statement is parsed, bound, described and run.
fn put_steps(
    alloc: Global,
    order: &mut Order,
    random: &mut Xoshiro256PlusPlus,
    steps: &mut Vec<Step>,
) -> anyhow::Result<()> {
    steps.push(parse(alloc)?)?;
    steps.push(bind(alloc, values(alloc, order, random)?))?;
    steps.push(describe(alloc))?;
    steps.push(execute(alloc))?;
    Ok(())
}

// A group of steps.
fn group(
    alloc: Global,
    order: &mut Order,
    random: &mut Xoshiro256PlusPlus,
) -> anyhow::Result<Request> {
    let mut steps = Vec::with_capacity(alloc, 4)?;
    put_steps(alloc, order, random, &mut steps)?;
    Ok(Request::Group(Seq::new(steps)))
}

// The notice that comes before some answers.
fn notices(alloc: Global, comes: bool) -> anyhow::Result<Seq<Aside>> {
    let mut notices = Vec::new(alloc);
    if comes {
        let text = b"the note was cut to a hundred characters";
        let fields = Fields::from_slice(alloc, &[(b'S', b"NOTICE"), (b'M', text)])?;
        notices.push(Aside::Notice(fields))?;
    }
    Ok(Seq::new(notices))
}

// The error that ends some.
fn error(alloc: Global, comes: bool) -> anyhow::Result<Option<Fields>> {
    if !comes {
        return Ok(None);
    }
    let text = b"duplicate key value violates unique constraint";
    let fields = Fields::from_slice(alloc, &[(b'S', b"ERROR"), (b'C', b"23505"), (b'M', text)])?;
    Ok(Some(fields))
}

// What a run gives: so many rows.
fn executed(
    alloc: Global,
    order: &mut Order,
    random: &mut Xoshiro256PlusPlus,
    count: u64,
) -> anyhow::Result<ScriptPart> {
    let mut rows = Vec::new(alloc);
    for _ in 0..count {
        rows.push(values(alloc, order, random)?)?;
    }
    let end = ExecEnd::Complete(Seq::from_slice(alloc, b"INSERT 0 1")?);
    Ok(ScriptPart::Executed {
        rows: Seq::new(rows),
        end,
    })
}

// Puts the parts of an answer: without rows the error comes after the statement is bound.
fn put_parts(
    alloc: Global,
    order: &mut Order,
    random: &mut Xoshiro256PlusPlus,
    rows: Option<u64>,
    parts: &mut Vec<ScriptPart>,
) -> anyhow::Result<()> {
    parts.push(ScriptPart::Parsed)?;
    parts.push(ScriptPart::Bound)?;
    let Some(count) = rows else {
        return Ok(());
    };
    parts.push(ScriptPart::Described {
        parameters: None,
        columns: Some(columns(alloc)?),
    })?;
    parts.push(executed(alloc, order, random, count)?)?;
    Ok(())
}

// What a group is answered: mostly a few rows, sometimes an error, and before some a notice.
fn answer(
    alloc: Global,
    order: &mut Order,
    random: &mut Xoshiro256PlusPlus,
) -> anyhow::Result<Answer> {
    let bits = random.next_u64();
    let fails = bits >> 3 & 15 == 0;
    let rows = if fails { None } else { Some(bits >> 8 & 7) };
    let mut parts = Vec::new(alloc);
    put_parts(alloc, order, random, rows, &mut parts)?;
    Ok(Answer {
        before: notices(alloc, bits & 7 == 0)?,
        parts: Seq::new(parts),
        error: error(alloc, fails)?,
        status: Status::Idle,
    })
}

// Puts the answers of a session.
fn put_answers(
    alloc: Global,
    order: &mut Order,
    random: &mut Xoshiro256PlusPlus,
    answers: &mut Vec<Answer>,
) -> anyhow::Result<()> {
    for _ in 0..GROUPS {
        answers.push(answer(alloc, order, random)?)?;
    }
    Ok(())
}

// What the backend answers.
fn script(
    alloc: Global,
    order: &mut Order,
    random: &mut Xoshiro256PlusPlus,
) -> anyhow::Result<Script>
    ensures { IfOk result (λ script. IsChecked script) }
{
    let mut answers = Vec::new(alloc);
    put_answers(alloc, order, random, &mut answers)?;
    checked(alloc, answers)
}

// Puts the rows of a group's parts.
fn put_rows(parts: &[Part], digest: &mut Digest) {
    for part in parts {
        if let Part::Executed { rows, .. } = part {
            digest.put_rows(rows.as_slice());
        }
    }
}

// Puts what came of a group.
fn put_outcome(outcome: &Outcome, digest: &mut Digest) {
    put_rows(outcome.parts.as_slice(), digest);
    if let Some(fields) = &outcome.error {
        digest.put_value(fields.message());
    }
    digest.put(outcome.asides.len() as u64);
}

// The client starts, and asks for group after group.
fn ask_all(
    alloc: Global,
    session: &mut BothEnds,
    order: &mut Order,
    random: &mut Xoshiro256PlusPlus,
    digest: &mut Digest,
) -> anyhow::Result<()> {
    session.start()?;
    for _ in 0..GROUPS {
        session.ask(group(alloc, order, random)?)?;
        session.trickle(random)?;
        put_outcome(&session.settled()?.outcome, digest);
    }
    Ok(())
}

// Plays a session.
fn play(
    alloc: Global,
    order: &mut Order,
    random: &mut Xoshiro256PlusPlus,
    digest: &mut Digest,
) -> anyhow::Result<()> {
    let mut session = BothEnds::new(alloc, script(alloc, order, random)?)?;
    ask_all(alloc, &mut session, order, random, digest)
}

/// So many sessions are played.
pub fn trickle(
    alloc: Global,
    mut random: Xoshiro256PlusPlus,
    sessions: u32,
) -> anyhow::Result<u64> {
    let mut digest = Digest::new();
    let mut order = Order::new();
    for _ in 0..sessions {
        play(alloc, &mut order, &mut random, &mut digest)?;
    }
    Ok(digest.finish())
}
