//! How a variable is read.

use crate::server::EnvironmentFault;
use pg_wire::Seq;
use std::env::{self, VarError};
use std::rt::Env;

/// What is given, and where nothing is, what a variable says. One that is empty counts as not set.
pub fn value<R: Env + AllocGlobal>(
    rt: &R,
    given: Option<&str>,
    variable: &str,
) -> Result<Option<String>, EnvironmentFault> {
    if let Some(text) = given {
        return Ok(Some(String::from_str(rt.alloc(), text)?));
    }
    match env::var(rt, variable) {
        Ok(text) if text.is_empty() => Ok(None),
        Ok(text) => Ok(Some(text)),
        Err(VarError::NotPresent) => Ok(None),
        Err(VarError::NotUnicode) => Err(EnvironmentFault::NotUnicode),
        Err(VarError::OutOfMemory) => Err(EnvironmentFault::Memory),
    }
}

/// The text that was given, or else that of the environment's variable, unless it is empty; or else `otherwise`.
pub fn value_or<R: Env + AllocGlobal>(
    rt: &R,
    given: Option<&str>,
    variable: &str,
    otherwise: &str,
) -> Result<String, EnvironmentFault> {
    match value(rt, given, variable)? {
        Some(text) => Ok(text),
        None => Ok(String::from_str(rt.alloc(), otherwise)?),
    }
}

// The parameters of a session that the environment sets, each with its variable.
const PARAMETERS: [(&str, &str); 3] = [
    ("options", "PGOPTIONS"),
    ("application_name", "PGAPPNAME"),
    ("client_encoding", "PGCLIENTENCODING"),
];

/// What the environment sets of the parameters of a session: names and values.
pub fn parameters<R: Env + AllocGlobal>(
    rt: &R,
) -> Result<Seq<(Seq<u8>, Seq<u8>)>, EnvironmentFault> {
    let mut parameters = Vec::new(rt.alloc());
    for (name, variable) in PARAMETERS.iter() {
        if let Some(text) = value(rt, None, variable)? {
            let name = Seq::from_slice(rt.alloc(), name.as_bytes())?;
            parameters
                .push((name, bytes(text)))
                .map_err(|_| EnvironmentFault::Memory)?;
        }
    }
    Ok(Seq::new(parameters))
}

/// A text as bytes.
pub fn bytes(text: String) -> Seq<u8> {
    Seq::new(text.into_bytes())
}
