//! Answering one request.

ghost use Rattle.std.specs.Prelude.{◌≡◌, ◌++◌, ◌∷◌, [], map, MatchOption, MatchResult, Ok, Err};
ghost use Rattle.std.specs.Prelude.{Some};
ghost use Rattle.pg_wire.specs.message.BackMessage.TheVariants.{Ready, CopyIn, CommandComplete};
ghost use Rattle.pg_backend.specs.Outcome.{parts_of, whole_outcome};
ghost use Rattle.pg_backend.specs.Replies.{aside_message, parts_sent, error_sent, end_sent};
ghost use Rattle.pg_backend.specs.declared.script.Load.TheVariants.{Refuse};
ghost use Rattle.pg_backend.specs.Awaited.{NotRefused};
ghost use Rattle.pg_backend.specs.Private.Moves.{parts_before, parts_after};
ghost use Rattle.pg_backend.specs.Telling.{EncodesAll};
ghost use Rattle.pg_backend.specs.Private.Answering.{IsSplit, Gives, BeginsCopy, Opens, Decides};

use crate::fault::BackendFault;
use crate::outcome::{copy_of_load, outcome, whole_outcome};
use crate::script::{Answer, Load, Logged, ScriptPart};
use crate::stage::Loading;
use crate::telling::{Tell, both, tell_all, tell_error};
use pg_wire::backend::{command_complete, copy_in, encode};
use pg_wire::{BackMessage, CopyHead, EncodeFault, Fields, Request, Seq, Status};
use std::alloc::Global;

/// How far a request can be answered at once.
#[derive(Drop)]
pub enum Opened {
    /// The request is decided.
    Decided(Logged),
    /// The backend awaits the data of a copy.
    Copies(Loading),
}

/// The parts of an answer, split at a copy from the client.
#[derive(Drop)]
pub enum Split<'a> {
    /// There is no copy from the client.
    Whole,
    /// The parts before the copy, its formats, how it ends, and the parts after it.
    Copies(&'a [ScriptPart], &'a CopyHead, &'a Load, &'a [ScriptPart]),
}

// Splits the parts at the first copy from the client.
fn split_at_copy(parts: &[ScriptPart]) -> Split<'_>
    ensures { IsSplit parts.now result }
{
    for (i, part) in parts.iter().enumerate() {
        if let ScriptPart::CopyIn { head, load } = part {
            let (before, rest) = parts.split_at(i);
            let (_, later) = rest.split_at(1);
            return Split::Copies(before, head, load, later);
        }
    }
    Split::Whole
}

// Writes an error, if there is one, and ReadyForQuery.
fn tell_end(error: &Option<Fields>, status: Status, out: &mut Vec<u8>) -> Result<(), EncodeFault>
    ensures { EncodesAll (error_sent error.now ++ Ready status ∷ [])
        out.old.items result out.new.items }
{
    let so_far = tell_error(error, out);
    both(so_far, encode(&BackMessage::Ready(status), out))
}

// Writes these parts, and the end of the answer.
fn tell_rest(answer: &Answer, parts: &[ScriptPart], out: &mut Vec<u8>) -> Result<(), EncodeFault>
    ensures { EncodesAll (parts_sent parts.now ++ end_sent answer.now.error answer.now)
        out.old.items result out.new.items }
{
    let so_far = tell_all(parts, out);
    both(so_far, tell_end(&answer.error, answer.status, out))
}

// Writes an answer with these parts.
fn tell_whole(answer: &Answer, parts: &[ScriptPart], out: &mut Vec<u8>) -> Result<(), EncodeFault>
    ensures { EncodesAll (map aside_message answer.now.before
        ++ (parts_sent parts.now ++ end_sent answer.now.error answer.now))
        out.old.items result out.new.items }
{
    let so_far = tell_all(answer.before.as_slice(), out);
    both(so_far, tell_rest(answer, parts, out))
}

// Writes an answer up to a copy from the client.
fn tell_opening(
    answer: &Answer,
    parts: &[ScriptPart],
    head: &CopyHead,
    out: &mut Vec<u8>,
) -> Result<(), EncodeFault>
    ensures { EncodesAll (map aside_message answer.now.before
        ++ (parts_sent parts.now ++ CopyIn head.now ∷ []))
        out.old.items result out.new.items }
{
    let asides = tell_all(answer.before.as_slice(), out);
    let so_far = tell_all(parts, out);
    let so_far = both(so_far, copy_in(head, out));
    both(asides, so_far)
}

// Writes an answer up to a copy from the client, and the error with which that copy is rejected at once.
fn tell_refusal(
    answer: &Answer,
    parts: &[ScriptPart],
    head: &CopyHead,
    error: &Option<Fields>,
    out: &mut Vec<u8>,
) -> Result<(), EncodeFault>
    ensures { EncodesAll (map aside_message answer.now.before
        ++ (parts_sent parts.now ++ CopyIn head.now ∷ end_sent error.now answer.now))
        out.old.items result out.new.items }
{
    let so_far = tell_opening(answer, parts, head, out);
    both(so_far, tell_end(error, answer.status, out))
}

// Writes what comes after a copy from the client that is complete with this tag.
fn tell_completion(
    answer: &Answer,
    tag: &[u8],
    parts: &[ScriptPart],
    out: &mut Vec<u8>,
) -> Result<(), EncodeFault>
    ensures { EncodesAll (CommandComplete tag.now
        ∷ (parts_sent parts.now ++ end_sent answer.now.error answer.now))
        out.old.items result out.new.items }
{
    let so_far = command_complete(tag, out);
    both(so_far, tell_rest(answer, parts, out))
}

/// The result of writing messages of a checked script. Each of them has a spelling, so the only fault is Memory.
pub fn or_memory(telling: Result<(), EncodeFault>) -> Result<(), BackendFault>
    ensures { MatchResult telling
        (λ _. result ≡ Ok record {}) (λ _. result ≡ Err BackendFault.Memory) }
{
    match telling {
        Ok(()) => Ok(()),
        Err(_) => Err(BackendFault::Memory),
    }
}

// Answers a request whose answer is given whole at once.
fn give_whole(
    alloc: Global,
    request: Request,
    answer: &Answer,
    out: &mut Vec<u8>,
) -> Result<Logged, BackendFault>
    ensures { Gives (map aside_message answer.now.before
        ++ (parts_sent answer.now.parts ++ end_sent answer.now.error answer.now))
        (record { request = request; outcome = whole_outcome answer.now; loaded = [] })
        out.old.items result out.new.items }
{
    or_memory(tell_whole(answer, answer.parts.as_slice(), out))?;
    Ok(Logged {
        request,
        outcome: whole_outcome(alloc, answer)?,
        loaded: Seq::new(Vec::new(alloc)),
    })
}

// Answers a request whose copy is rejected at once.
fn refuse(
    alloc: Global,
    request: Request,
    answer: &Answer,
    before: &[ScriptPart],
    head: &CopyHead,
    fields: &Fields,
    out: &mut Vec<u8>,
) -> Result<Logged, BackendFault>
    ensures { Gives (map aside_message answer.now.before
        ++ (parts_sent before.now ++ CopyIn head.now ∷ end_sent (Some fields.now) answer.now))
        (record {
          request = request;
          outcome = record {
            parts = parts_of before.now;
            error = Some fields.now;
            status = answer.now.status;
            asides = answer.now.before;
          };
          loaded = [];
        })
        out.old.items result out.new.items }
{
    let error = Some(fields.clone()?);
    or_memory(tell_refusal(answer, before, head, &error, out))?;
    Ok(Logged {
        request,
        outcome: outcome(alloc, answer, before, error)?,
        loaded: Seq::new(Vec::new(alloc)),
    })
}

// Answers a request up to a copy from the client.
fn begin_copy(
    alloc: Global,
    request: Request,
    answer: &Answer,
    before: &[ScriptPart],
    head: &CopyHead,
    load: &Load,
    out: &mut Vec<u8>,
) -> Result<Loading, BackendFault>
    ensures { BeginsCopy request answer.now before.now head.now load.now
        out.old.items result out.new.items }
{
    or_memory(tell_opening(answer, before, head, out))?;
    Ok(Loading {
        request,
        load: copy_of_load(load)?,
        loaded: Seq::new(Vec::new(alloc)),
    })
}

// The error of a copy that is rejected at once.
fn refused_at_once(load: &Load) -> Option<&Fields>
    ensures { MatchOption result
        (NotRefused load.now 0) (λ fields. load.now ≡ Refuse 0 fields.now) }
{
    match load {
        Load::Accept(_) => None,
        Load::Refuse { after, fields } => { if *after == 0 { Some(fields) } else { None } }
    }
}

/// Answers a request as far as it can be answered at once.
pub fn open(
    alloc: Global,
    request: Request,
    answer: &Answer,
    out: &mut Vec<u8>,
) -> Result<Opened, BackendFault>
    ensures { Opens request answer.now out.old.items result out.new.items }
{
    match split_at_copy(answer.parts.as_slice()) {
        Split::Whole => Ok(Opened::Decided(give_whole(alloc, request, answer, out)?)),
        Split::Copies(before, head, load, _) => match refused_at_once(load) {
            Some(fields) => Ok(Opened::Decided(refuse(
                alloc, request, answer, before, head, fields, out,
            )?)),
            None => Ok(Opened::Copies(begin_copy(
                alloc, request, answer, before, head, load, out,
            )?)),
        },
    }
}

// The parts before a copy from the client, and those after it.
fn around_copy(parts: &[ScriptPart]) -> (&[ScriptPart], &[ScriptPart])
    ensures before { result.0.now ≡ parts_before parts.now }
    ensures after { result.1.now ≡ parts_after parts.now }
{
    match split_at_copy(parts) {
        Split::Whole => (parts, &[]),
        Split::Copies(before, _, _, later) => (before, later),
    }
}

// Ends an answer after a copy from the client that is complete with this tag.
fn complete(
    alloc: Global,
    request: Request,
    answer: &Answer,
    loaded: Seq<Seq<u8>>,
    tag: Seq<u8>,
    out: &mut Vec<u8>,
) -> Result<Logged, BackendFault>
    ensures { Decides request answer.now loaded (Ok tag) out.old.items result out.new.items }
{
    let (_, later) = around_copy(answer.parts.as_slice());
    or_memory(tell_completion(answer, tag.as_slice(), later, out))?;
    Ok(Logged {
        request,
        outcome: whole_outcome(alloc, answer)?,
        loaded,
    })
}

// Ends an answer with the error that ended its copy.
fn fail(
    alloc: Global,
    request: Request,
    answer: &Answer,
    loaded: Seq<Seq<u8>>,
    fields: Fields,
    out: &mut Vec<u8>,
) -> Result<Logged, BackendFault>
    ensures { Decides request answer.now loaded (Err fields) out.old.items result out.new.items }
{
    let (before, _) = around_copy(answer.parts.as_slice());
    let error = Some(fields);
    or_memory(tell_end(&error, answer.status, out))?;
    Ok(Logged {
        request,
        outcome: outcome(alloc, answer, before, error)?,
        loaded,
    })
}

/// Ends an answer whose copy ended with this tag or this error.
pub fn decide(
    alloc: Global,
    request: Request,
    answer: &Answer,
    loaded: Seq<Seq<u8>>,
    end: Result<Seq<u8>, Fields>,
    out: &mut Vec<u8>,
) -> Result<Logged, BackendFault>
    ensures { Decides request answer.now loaded end out.old.items result out.new.items }
{
    match end {
        Ok(tag) => complete(alloc, request, answer, loaded, tag, out),
        Err(fields) => fail(alloc, request, answer, loaded, fields, out),
    }
}
