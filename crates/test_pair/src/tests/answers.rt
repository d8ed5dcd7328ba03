//! Pairs, by how their backends ask for a password and what they answer.

ghost use Rattle.std.specs.Prelude.{◌≡◌, IfOk};
ghost use Rattle.pg_backend.specs.Check.{IsChecked};
ghost use Rattle.pg_wire.specs.Direction.{IsLimit};

use super::events::values;
use pg_backend::{Answer, Auth, Load, Script, ScriptPart};
use pg_client::Settings;
use pg_pair::{Carry, Pair};
use pg_wire::{Aside, Column, ExecEnd, Fields, Seq, Status, Values};
use std::alloc::{AllocError, Global};
use testing::values::{column, fields, head, text};

/// The password that is right.
pub const SECRET: &[u8] = b"secret";

/// How a backend asks for it.
#[derive(Clone, Copy)]
pub enum Question {
    /// It doesn't.
    Trust,
    Cleartext,
}

/// What a backend answers to one request.
#[derive(Clone, Copy)]
pub enum Reply {
    /// A row of one value, under a column `n`.
    Row,
    /// Two commands and an error.
    Failing,
    /// A command with a notice before it.
    Told,
    /// A command.
    Command,
    /// A command within a transaction.
    InBlock,
    /// A command whose tag is longer than the client takes.
    Long,
    /// A copy from the client that is taken.
    Accepting,
    /// A copy from the client that is rejected with the chunk of this number.
    Refusing(u32),
    /// An answer to each step of a group.
    Steps,
    /// An answer to the first step of a group, and an error, in this status.
    FailingStep(Status),
}

/// The two ends of a pair.
#[derive(Clone, Copy)]
pub struct Ends<'a> {
    pub question: Question,
    /// What the client has, if it has one.
    pub password: Option<&'static [u8]>,
    pub replies: &'a [Reply],
}

/// A backend that asks for no password, and answers so.
pub fn answering<'a>(replies: &'a [Reply]) -> Ends<'a> {
    Ends {
        question: Question::Trust,
        password: None,
        replies,
    }
}

/// A backend that asks so, and answers a row, and a client with this password.
pub fn asking(question: Question, password: Option<&'static [u8]>) -> Ends<'static> {
    Ends {
        question,
        password,
        replies: &[Reply::Row],
    }
}

// ---- what answers are made of

pub fn columns(alloc: Global) -> Result<Seq<Column>, AllocError> {
    Ok(Seq::new(vec![in alloc; column(alloc, b"n")?]?))
}

pub fn rows(alloc: Global) -> Result<Seq<Values>, AllocError> {
    Ok(Seq::new(vec![in alloc; values(alloc, &[Some(b"1")])?]?))
}

fn row(alloc: Global) -> Result<ScriptPart, AllocError> {
    Ok(ScriptPart::Rows {
        columns: columns(alloc)?,
        rows: rows(alloc)?,
        tag: text(alloc, b"SELECT 1")?,
    })
}

fn command(alloc: Global, tag: &[u8]) -> Result<ScriptPart, AllocError> {
    Ok(ScriptPart::Command(text(alloc, tag)?))
}

fn long(alloc: Global) -> Result<ScriptPart, AllocError> {
    Ok(ScriptPart::Command(Seq::new(vec![in alloc; b'A'; 70_000]?)))
}

// Fields of one message.
fn message_fields(alloc: Global, message: &[u8]) -> Result<Fields, AllocError> {
    fields(alloc, &[(b'M', message)])
}

/// The fields of each error that a backend answers.
const FAILURE: &[(u8, &[u8])] = &[(b'C', b"XX000"), (b'M', b"bad")];

fn load(alloc: Global, reply: Reply) -> Result<Load, AllocError> {
    match reply {
        Reply::Refusing(after) => Ok(Load::Refuse {
            after,
            fields: fields(alloc, FAILURE)?,
        }),
        _ => Ok(Load::Accept(text(alloc, b"COPY 2")?)),
    }
}

fn copy_in(alloc: Global, reply: Reply) -> Result<ScriptPart, AllocError> {
    Ok(ScriptPart::CopyIn {
        head: head(alloc, false, 1)?,
        load: load(alloc, reply)?,
    })
}

fn first_part(alloc: Global, reply: Reply) -> Result<ScriptPart, AllocError> {
    match reply {
        Reply::Row => row(alloc),
        Reply::Failing | Reply::Told => command(alloc, b"A"),
        Reply::Command => command(alloc, b"OK"),
        Reply::InBlock => command(alloc, b"B"),
        Reply::Long => long(alloc),
        Reply::Accepting | Reply::Refusing(_) => copy_in(alloc, reply),
        Reply::Steps | Reply::FailingStep(_) => Ok(ScriptPart::Parsed),
    }
}

fn described(alloc: Global) -> Result<ScriptPart, AllocError> {
    Ok(ScriptPart::Described {
        parameters: None,
        columns: Some(columns(alloc)?),
    })
}

fn executed(alloc: Global) -> Result<ScriptPart, AllocError> {
    Ok(ScriptPart::Executed {
        rows: rows(alloc)?,
        end: ExecEnd::Complete(text(alloc, b"SELECT 1")?),
    })
}

// Appends the answers to the other steps of a group.
fn push_steps(alloc: Global, parts: &mut Vec<ScriptPart>) -> Result<(), AllocError> {
    parts.push(ScriptPart::Bound)?;
    parts.push(described(alloc)?)?;
    parts.push(executed(alloc)?)?;
    Ok(())
}

fn parts(alloc: Global, reply: Reply) -> Result<Vec<ScriptPart>, AllocError> {
    let mut parts = vec![in alloc; first_part(alloc, reply)?]?;
    match reply {
        Reply::Failing => parts.push(command(alloc, b"B")?)?,
        Reply::Steps => push_steps(alloc, &mut parts)?,
        _ => {}
    }
    Ok(parts)
}

fn before(alloc: Global, reply: Reply) -> Result<Seq<Aside>, AllocError> {
    match reply {
        Reply::Told => Ok(Seq::new(vec![in alloc; Aside::Notice(message_fields(alloc, b"hi")?)]?)),
        _ => Ok(Seq::new(Vec::new(alloc))),
    }
}

fn error(alloc: Global, reply: Reply) -> Result<Option<Fields>, AllocError> {
    match reply {
        Reply::Failing | Reply::FailingStep(_) => Ok(Some(fields(alloc, FAILURE)?)),
        _ => Ok(None),
    }
}

fn status(reply: Reply) -> Status {
    match reply {
        Reply::Failing => Status::Failed,
        Reply::FailingStep(status) => status,
        Reply::InBlock => Status::InBlock,
        _ => Status::Idle,
    }
}

fn answer(alloc: Global, reply: Reply) -> Result<Answer, AllocError> {
    Ok(Answer {
        before: before(alloc, reply)?,
        parts: Seq::new(parts(alloc, reply)?),
        error: error(alloc, reply)?,
        status: status(reply),
    })
}

fn answers(alloc: Global, replies: &[Reply]) -> Result<Vec<Answer>, AllocError> {
    let mut answers = Vec::new(alloc);
    for reply in replies {
        answers.push(answer(alloc, *reply)?)?;
    }
    Ok(answers)
}

// ---- pairs

fn auth(alloc: Global, question: Question) -> Result<Auth, AllocError> {
    match question {
        Question::Trust => Ok(Auth::Trust),
        Question::Cleartext => Ok(Auth::Cleartext(text(alloc, SECRET)?)),
    }
}

// A script that asks so, and whose answers are these, in their order.
fn script(alloc: Global, question: Question, replies: &[Reply]) -> Result<Script, AllocError> {
    Ok(Script {
        auth: auth(alloc, question)?,
        pairs: Seq::new(Vec::new(alloc)),
        key: None,
        answers: Seq::new(answers(alloc, replies)?),
    })
}

/// Such a script, which can be played.
pub fn checked(alloc: Global, question: Question, replies: &[Reply]) -> Result<Script, AllocError>
    ensures { IfOk result IsChecked }
{
    let script = script(alloc, question, replies)?;
    match script.check(alloc) {
        Ok(()) => Ok(script),
        Err(_) => Err(AllocError),
    }
}

fn optional(alloc: Global, bytes: Option<&[u8]>) -> Result<Option<Seq<u8>>, AllocError> {
    match bytes {
        Some(bytes) => Ok(Some(text(alloc, bytes)?)),
        None => Ok(None),
    }
}

/// A client of the user `u` that has this password, or none.
pub fn settings(alloc: Global, password: Option<&[u8]>) -> Result<Settings, AllocError>
    ensures { IfOk result (λ s. s.limit ≡ 65536) }
{
    Ok(Settings {
        user: text(alloc, b"u")?,
        database: None,
        pairs: Seq::new(Vec::new(alloc)),
        password: optional(alloc, password)?,
        limit: 65_536,
    })
}

/// A pair of these ends.
pub fn pair<C: Carry>(alloc: Global, ends: Ends<'_>, carrier: C) -> Result<Pair<C>, AllocError> {
    let script = checked(alloc, ends.question, ends.replies)?;
    let settings = settings(alloc, ends.password)?;
    Ok(Pair::new(alloc, settings, script, carrier))
}
