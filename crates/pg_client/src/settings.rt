//! What a client is made with.

ghost use Rattle.std.specs.Prelude.{◌≡◌, [], None};
ghost use Rattle.pg_wire.specs.Direction.{IsLimit};
ghost use Rattle.pg_client.specs.Shown.{shown_password, shown_settings};

use pg_wire::Seq;
use std::alloc::Global;
use std::fmt;

/// Whom a client connects as, and what it takes ("Start-up"). `{:?}` writes only whether there is a password.
#[derive(Clone, PartialEq, Eq, Drop)]
pub struct Settings {
    /// The user's name.
    pub user: Seq<u8>,
    /// The database; left out, it is the user's name.
    pub database: Option<Seq<u8>>,
    /// Further parameters of the startup packet, names and values.
    pub pairs: Seq<(Seq<u8>, Seq<u8>)>,
    /// The password, where the server may ask for one.
    pub password: Option<Seq<u8>>,
    /// The greatest length field of a message that is taken, from 64 to 1,073,741,823.
    pub limit: u32,
}

impl Settings {
    /// The settings of this user, with the greatest limit: no database, no further parameters and no password. Each field may be set then.
    pub fn new(alloc: Global, user: Seq<u8>) -> Settings
        ensures user { result.user ≡ user }
        ensures database { result.database ≡ None }
        ensures pairs { result.pairs ≡ [] }
        ensures password { result.password ≡ None }
        ensures limit { IsLimit result.limit }
    {
        Settings {
            user,
            database: None,
            pairs: Seq::new(Vec::new(alloc)),
            password: None,
            limit: 1_073_741_823,
        }
    }
}

// What is written in a password's place.
fn shown_password(password: &Option<Seq<u8>>) -> &'static str
    ensures { result.now ≡ shown_password password.now }
{
    match password {
        None => "None",
        Some(_) => "Some(Password(..))",
    }
}

/// `{:?}` writes the fields as a derived form does, and `Some(Password(..))` for a password. `{:#?}` writes the same line.
impl fmt::Debug for Settings {
    ghost debug_output = { shown_settings };

    fn fmt<W: fmt::Write>(&self, f: &mut fmt::Formatter<W>) -> fmt::Result {
        let user = &self.user;
        let database = &self.database;
        let pairs = &self.pairs;
        let password = shown_password(&self.password);
        let limit = self.limit;
        write!(
            f,
            "Settings {{ user: {user:?}, database: {database:?}, pairs: {pairs:?}, password: {password}, limit: {limit} }}"
        )
    }
}
