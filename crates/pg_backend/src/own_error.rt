//! The errors of the backend's own, with the codes of the documentation's appendix "PostgreSQL Error Codes".

ghost use Rattle.std.specs.Prelude.{◌≡◌, IfOk, take};
ghost use Rattle.pg_backend.specs.OwnError.{own_error, no_answer, canceled, out_of_copy};
ghost use Rattle.pg_backend.specs.OwnError.{fatal_unexpected, no_user, wrong_password, fatal_bad};

use crate::script::Answer;
use pg_wire::{Fields, Seq, Status};
use std::alloc::{AllocError, Global};

/// The most bytes of a client's reason that are repeated to it.
const SHOWN: usize = 200;

// An error with this severity, SQLSTATE code and message ("Error and Notice Message Fields").
fn error_of(
    alloc: Global,
    severity: &[u8],
    code: &[u8],
    message: &[u8],
) -> Result<Fields, AllocError>
    ensures { IfOk result (λ fields. fields ≡ own_error severity.now code.now message.now) }
{
    let fields = [
        (b'S', severity),
        (b'V', severity),
        (b'C', code),
        (b'M', message),
    ];
    match Fields::from_slice(alloc, &fields) {
        Ok(fields) => Ok(fields),
        // these are far shorter than a message may be
        Err(_) => Err(AllocError),
    }
}

/// The answer to a request whose answer is missing or doesn't fit: an internal_error.
pub fn no_answer(alloc: Global) -> Result<Answer, AllocError>
    ensures { IfOk result (λ answer. answer ≡ no_answer) }
{
    let fields = error_of(alloc, b"ERROR", b"XX000", b"script has no fitting answer")?;
    Ok(Answer {
        before: Seq::new(Vec::new(alloc)),
        parts: Seq::new(Vec::new(alloc)),
        error: Some(fields),
        status: Status::Idle,
    })
}

// The part of a client's reason that is repeated to it.
fn shown(reason: &[u8]) -> &[u8]
    ensures { result.now ≡ take 200 reason.now }
{
    if reason.len() > SHOWN {
        reason.split_at(SHOWN).0
    } else {
        reason
    }
}

/// A query_canceled: the client gave a copy up, for this reason.
pub fn canceled(alloc: Global, reason: &[u8]) -> Result<Fields, AllocError>
    ensures { IfOk result (λ fields. fields ≡ canceled reason.now) }
{
    let mut message = Vec::from_slice(alloc, b"COPY failed: ")?;
    message.extend_from_slice(shown(reason))?;
    error_of(alloc, b"ERROR", b"57014", message.as_slice())
}

/// A protocol_violation: a message that can't stand in a copy.
pub fn out_of_copy(alloc: Global) -> Result<Fields, AllocError>
    ensures { IfOk result (λ fields. fields ≡ out_of_copy) }
{
    error_of(alloc, b"ERROR", b"08P01", b"unexpected message in COPY")
}

/// A protocol_violation: a message that can't stand in its place.
pub fn fatal_unexpected(alloc: Global) -> Result<Fields, AllocError>
    ensures { IfOk result (λ fields. fields ≡ fatal_unexpected) }
{
    error_of(alloc, b"FATAL", b"08P01", b"unexpected message")
}

/// A protocol_violation: bytes that are no message.
pub fn fatal_bad(alloc: Global) -> Result<Fields, AllocError>
    ensures { IfOk result (λ fields. fields ≡ fatal_bad) }
{
    error_of(alloc, b"FATAL", b"08P01", b"bad message")
}

/// An invalid_authorization_specification: a Startup that names no user.
pub fn no_user(alloc: Global) -> Result<Fields, AllocError>
    ensures { IfOk result (λ fields. fields ≡ no_user) }
{
    error_of(alloc, b"FATAL", b"28000", b"no user in startup")
}

/// An invalid_password: the client sent another password than the one that is awaited.
pub fn wrong_password(alloc: Global) -> Result<Fields, AllocError>
    ensures { IfOk result (λ fields. fields ≡ wrong_password) }
{
    error_of(alloc, b"FATAL", b"28P01", b"password authentication failed")
}
