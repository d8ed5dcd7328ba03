//! The two clients.

ghost use Rattle.std.specs.Prelude.{◌≡◌, ◌≢◌, ◌∷◌, ◌↔◌, [], IfNone, IfSome, IsTrue};
ghost use Rattle.pg_client.specs.Client.{Carries, with_given};
ghost use Rattle.pg_client.specs.View.{groups_waiting, with_groups};
ghost use Rattle.pg_client.specs.Keeping.{collecting};

use crate::collecting::Collecting;
use crate::connection::Connection;
use crate::queue::Queue;
use crate::settled::Settled;

/// A client that gives each answer whole: settled groups come out, which are requests with their outcomes.
pub type Client = Connection<Collecting>;

/// A client that gives each message as it comes. Each message of a request's segment is an [`Item`](crate::Item) of its own, and is held only
/// until it is taken.
pub type EarlyClient = Connection<Queue>;

impl Connection<Collecting> {
    /// Takes the oldest settled group that wasn't taken: a request with its outcome, which the ReadyForQuery closed. None where all were taken. It
    /// takes no memory.
    pub fn take_settled(&mut self) -> Option<Settled>
        ensures some { IfSome result (λ t. (groups_waiting self.old
            ≡ t ∷ groups_waiting self.new)
            × (self.new ≡ with_groups self.old (groups_waiting self.new))) }
        ensures history { IfSome result (λ t. Carries collecting self.old self.new (with_given t)) }
        ensures none { IfNone result ((groups_waiting self.old ≡ [])
            × (self.new ≡ self.old)) }
    {
        self.known.keeper.take()
    }

    /// Whether a settled group waits to be taken.
    pub fn has_settled(&self) -> bool
        ensures { IsTrue result ↔ (groups_waiting self.now ≢ []) }
    {
        self.known.keeper.has_some()
    }
}
