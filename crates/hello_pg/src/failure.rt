//! How the program fails.

ghost use Rattle.std.specs.Prelude.{◌≡◌};
ghost use Rattle.hello_pg.specs.Status.{exit_status};

use example_base::{EnvironmentFault, put_error};
use pg_client::{CallFault, FeedFault, Loss};
use pg_drive::SessionFault;
use pg_wire::Request;
use standard_streams::ClosedStream;
use std::alloc::AllocError;
use std::io::{self, Write};
use thiserror::Error;

/// Why the program ends with a status other than 0, which stands before each.
#[derive(Debug, Drop, Error)]
pub enum Failure {
    /// 1: the server returned an error, which was printed as it came.
    #[error("the server answered an error")]
    Refused,
    /// 2: the server can't be reached.
    #[error("no connection: {0}")]
    Unreachable(io::Error),
    /// 2: the client closed the session before it had begun.
    #[error("no session: {0}")]
    NoSession(FeedFault),
    /// 2: there is no session, for this reason.
    #[error("{0}")]
    NotBegun(&'static str),
    /// 3: the session has ended while a query was outstanding.
    #[error("{0}")]
    Ended(#[from] SessionFault),
    /// 4: the words or the environment are wrong, for this reason.
    #[error("{0}; hello_pg --help tells more")]
    Words(&'static str),
    /// 5: the client rejects a call, as for a query that is too long.
    #[error("{0}")]
    Call(#[from] CallFault),
    /// 5: a standard stream is closed, so that what is opened would take its place.
    #[error("{0}")]
    Stream(#[from] ClosedStream),
    /// 5: a file can't be opened or read.
    #[error("file: {0}")]
    File(#[from] io::Error),
    /// 5: the output can't be written.
    #[error("the output can't be written")]
    Output,
    /// 5: memory ran out.
    #[error("no memory")]
    Memory(#[from(alloc)] AllocError),
}

const NO_ANSWER: &str = "the server ended the connection before the session had begun";

const NO_PASSWORD: &str = "no session: F4 PasswordWanted: PGPASSWORD gives a password, or -W";

const NO_SCRAM: &str = "no session: the server asks for SCRAM, and docs/GUIDE.md says what helps";

const NO_TLS: &str =
    "no session: PGSSLMODE asks for TLS, which is left out, so the connection would be plain";

const CLOSED: &str = "the client closed the session, since";

const LOST: &str = "the connection was lost";

impl Failure {
    /// The program's exit status.
    pub fn status(&self) -> u8
        ensures { result ≡ exit_status self.now }
    {
        match self {
            Failure::Refused => 1,
            Failure::Unreachable(_) | Failure::NoSession(_) | Failure::NotBegun(_) => 2,
            Failure::Ended(_) => 3,
            Failure::Words(_) => 4,
            _ => 5,
        }
    }

    /// Appends what is printed of it.
    pub fn put(&self, text: &mut Vec<u8>) -> Result<(), AllocError> {
        match self {
            Failure::Refused => Ok(()),
            Failure::NoSession(FeedFault::StartupError(fields)) => put_error(fields, text),
            Failure::Ended(SessionFault::Feed { fault, loss }) => {
                if let FeedFault::ServerEnd(fields) = fault {
                    put_error(fields, text)?;
                }
                let why = reason(fault);
                writeln!(text, "hello_pg: {fault}: {CLOSED} {why}").map_err(|_| AllocError)?;
                put_loss("the session was closed", loss, text)
            }
            Failure::Ended(SessionFault::Lost(loss)) => put_loss(LOST, loss, text),
            failure => writeln!(text, "hello_pg: {failure}").map_err(|_| AllocError),
        }
    }

    /// Why a session didn't begin.
    pub fn of_start(fault: SessionFault) -> Failure {
        match fault {
            SessionFault::Lost(_) => Failure::NotBegun(NO_ANSWER),
            SessionFault::Feed { fault, .. } => match fault {
                FeedFault::PasswordWanted => Failure::NotBegun(NO_PASSWORD),
                // AuthenticationSASL
                FeedFault::UnsupportedAuth(10) => Failure::NotBegun(NO_SCRAM),
                fault => Failure::NoSession(fault),
            },
            SessionFault::Call(fault) => Failure::Call(fault),
            fault => Failure::Ended(fault),
        }
    }

    /// Why the words of the command line can't be had: memory ran out, or one isn't text.
    pub fn of_words(error: io::Error) -> Failure {
        match error.kind() {
            io::ErrorKind::OutOfMemory => Failure::Memory(AllocError),
            _ => Failure::Words("a word is not UTF-8"),
        }
    }
}

impl From<EnvironmentFault> for Failure {
    fn from(fault: EnvironmentFault) -> Failure {
        match fault {
            EnvironmentFault::Tls => Failure::NotBegun(NO_TLS),
            EnvironmentFault::NotUnicode => Failure::Words("the environment isn't UTF-8"),
            EnvironmentFault::Port => Failure::Words("the port is no number from 0 to 65535"),
            EnvironmentFault::Memory => Failure::Memory(AllocError),
        }
    }
}

// Why a client closes a session, which had begun, by itself.
fn reason(fault: &FeedFault) -> &'static str {
    match fault {
        FeedFault::Wire(_) => "what the server sent is no message that it takes",
        FeedFault::Unexpected(_) => "the server sent a message that has no place there",
        FeedFault::Memory => "memory was refused",
        _ => "the server ended it",
    }
}

// Appends which query is in doubt, since this has happened.
fn put_loss(event: &str, loss: &Loss, text: &mut Vec<u8>) -> Result<(), AllocError> {
    if let Some(Request::Query(query)) = &loss.unsettled {
        let seen = match loss.seen_error {
            true => " after an error of",
            false => ", and this may or may not have taken effect",
        };
        write!(text, "hello_pg: {event}{seen}: ").map_err(|_| AllocError)?;
        text.extend_from_slice(query.as_slice())?;
        text.push(b'\n')?;
    }
    Ok(())
}
