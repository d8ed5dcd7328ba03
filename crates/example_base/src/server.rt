//! The server that is asked, and as whom.

ghost use Rattle.std.specs.Prelude.{IfOk};
ghost use Rattle.pg_wire.specs.Direction.{IsLimit};

use crate::variable::{bytes, parameters, value, value_or};
use pg_client::Settings;
use std::alloc::AllocError;
use std::rt::Env;
use thiserror::Error;

/// Why no server can be asked.
#[derive(Clone, Copy, Debug, PartialEq, Eq, Error)]
pub enum EnvironmentFault {
    /// `PGSSLMODE` is `require`, `verify-ca` or `verify-full`, and TLS is left out. It comes before any other fault but NotUnicode of
    /// that variable.
    #[error("PGSSLMODE asks for TLS, which is left out, so the connection would be plain")]
    Tls,
    /// A variable isn't UTF-8. One in whose place something is given isn't read.
    #[error("the environment isn't UTF-8")]
    NotUnicode,
    /// The port is no number from 0 to 65,535.
    #[error("the port is no number from 0 to 65535")]
    Port,
    /// Memory ran out.
    #[error("no memory")]
    Memory,
}

impl From<AllocError> for EnvironmentFault {
    fn from(_refused: AllocError) -> EnvironmentFault {
        EnvironmentFault::Memory
    }
}

/// What a program was given, as by the words of a command line. It counts before the environment.
#[derive(Clone, Copy, Default)]
pub struct Given<'a> {
    /// The server's host.
    pub host: Option<&'a str>,
    /// Its port, a decimal number.
    pub port: Option<&'a str>,
    /// The user's name.
    pub user: Option<&'a str>,
    /// The database.
    pub database: Option<&'a str>,
    /// The password.
    pub password: Option<&'a str>,
}

/// The server that is asked, and as whom.
#[derive(Debug, Drop)]
pub struct Server {
    /// Its host, a name or an address, and its port.
    pub address: (String, u16),
    /// What a session with it is made with.
    pub settings: Settings,
}

impl Server {
    /// What is given, and what isn't, from the environment: `PGHOST` (else 127.0.0.1), `PGPORT` (else 5432), `PGUSER` (else
    /// postgres), `PGDATABASE` (else the server takes the user's name) and `PGPASSWORD`. `PGOPTIONS`, `PGAPPNAME` and
    /// `PGCLIENTENCODING` go to the server. A variable that is empty counts as not set.
    ///
    /// No other variable is read, and no service file, password file or connection string.
    pub fn of<R: Env + AllocGlobal>(rt: &R, given: &Given<'_>) -> Result<Server, EnvironmentFault>
        ensures { IfOk result (λ server. IsLimit server.settings.limit) }
    {
        refuse_tls(rt)?;
        let settings = settings(rt, given)?;
        let host = value_or(rt, given.host, "PGHOST", "127.0.0.1")?;
        let port = value_or(rt, given.port, "PGPORT", "5432")?;
        let Ok(port) = port.parse::<u16>() else {
            return Err(EnvironmentFault::Port);
        };
        Ok(Server {
            address: (host, port),
            settings,
        })
    }
}

// Refuses where the environment asks for a connection that is encrypted.
fn refuse_tls<R: Env + AllocGlobal>(rt: &R) -> Result<(), EnvironmentFault> {
    match value(rt, None, "PGSSLMODE")? {
        Some(mode) if matches!(mode.as_str(), "require" | "verify-ca" | "verify-full") => {
            Err(EnvironmentFault::Tls)
        }
        _ => Ok(()),
    }
}

// What a session is made with.
fn settings<R: Env + AllocGlobal>(rt: &R, given: &Given<'_>) -> Result<Settings, EnvironmentFault>
    ensures { IfOk result (λ settings. IsLimit settings.limit) }
{
    let user = value_or(rt, given.user, "PGUSER", "postgres")?;
    let mut settings = Settings::new(rt.alloc(), bytes(user));
    settings.database = value(rt, given.database, "PGDATABASE")?.map(bytes);
    settings.password = value(rt, given.password, "PGPASSWORD")?.map(bytes);
    settings.pairs = parameters(rt)?;
    Ok(settings)
}
