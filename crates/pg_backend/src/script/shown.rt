//! What `{:?}` writes of a script and of the way in which it lets a client in.

ghost use Rattle.pg_backend.specs.Shown.{shown_auth, shown_script};

use crate::script::{Auth, Script};
use std::fmt;

/// `{:?}` writes `Password(..)` in the place of a password, and all else as a derived form does. `{:#?}` writes the same line.
impl fmt::Debug for Auth {
    ghost debug_output = { shown_auth };

    fn fmt<W: fmt::Write>(&self, f: &mut fmt::Formatter<W>) -> fmt::Result {
        match self {
            Auth::Trust => f.write_str("Trust"),
            Auth::Cleartext(_) => f.write_str("Cleartext(Password(..))"),
            Auth::Md5 { salt, .. } => write!(f, "Md5 {{ password: Password(..), salt: {salt:?} }}"),
        }
    }
}

/// `{:?}` writes the fields as a derived form does, but no password. `{:#?}` writes the same line.
impl fmt::Debug for Script {
    ghost debug_output = { shown_script };

    fn fmt<W: fmt::Write>(&self, f: &mut fmt::Formatter<W>) -> fmt::Result {
        let auth = &self.auth;
        let pairs = &self.pairs;
        let key = &self.key;
        let answers = &self.answers;
        write!(
            f,
            "Script {{ auth: {auth:?}, pairs: {pairs:?}, key: {key:?}, answers: {answers:?} }}"
        )
    }
}
