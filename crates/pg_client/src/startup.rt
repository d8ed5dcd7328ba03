//! The messages of the startup.

ghost use Rattle.pg_response.specs.Kind.{auth_message};
ghost use Rattle.pg_client.specs.Private.Hearing.{Greets};

use crate::fault::FeedFault;
use pg_response::Auth;

/// How far the startup has come.
#[derive(Clone, Copy)]
pub enum Welcome {
    Fresh,
    /// The server asked for a password.
    Asked,
    Admitted,
}

impl Welcome {
    /// How far it has come after a message of the authentication.
    pub fn next(self, auth: &Auth) -> Result<Welcome, FeedFault>
        ensures { Greets self (auth_message auth.now) result }
    {
        match self {
            Welcome::Fresh => match auth {
                Auth::Ok => Ok(Welcome::Admitted),
                Auth::Cleartext | Auth::Md5(_) => Ok(Welcome::Asked),
                Auth::Other { code, .. } => Err(FeedFault::UnsupportedAuth(*code)),
            },
            Welcome::Asked => match auth {
                Auth::Ok => Ok(Welcome::Admitted),
                _ => Err(FeedFault::Unexpected(b'R')),
            },
            Welcome::Admitted => Err(FeedFault::Unexpected(b'R')),
        }
    }
}
