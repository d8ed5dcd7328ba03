//! Laws over the definitions: each function does nothing, and its contract is the law.

ghost use Rattle.std.specs.Prelude.{◌≡◌, ◌≢◌, ◌++◌, [], ◌∷◌, ℕ, List, None, Option, Result};
ghost use Rattle.pg_wire.specs.message.BackMessage.{BackMessage};
ghost use Rattle.pg_wire.specs.declared.session.Request.{Request};
ghost use Rattle.pg_client.specs.declared.fault.FeedFault.{FeedFault};
ghost use Rattle.pg_client.specs.declared.phase.Phase.TheVariants as phase;
ghost use Rattle.pg_client.specs.declared.call.Call.{Call};
ghost use Rattle.pg_client.specs.declared.call.Call.TheVariants as call;
ghost use Rattle.pg_client.specs.Session.{Happening, Came, Expected, requests_in};
ghost use Rattle.pg_client.specs.View.{ClientView, EarlyView, groups_waiting, loss_at, phase_of};
ghost use Rattle.pg_client.specs.Keeping.{collecting, queueing};
ghost use Rattle.pg_client.specs.declared.settled.Settled.{Settled};
ghost use Rattle.pg_client.specs.Client.{happenings, History, IsHistoryOf, Feeds, Loses};
ghost use Rattle.pg_client.specs.Facts.{ClientFacts, EarlyFacts};
ghost use Rattle.pg_client.specs.declared.item.Item.{Item};
ghost use Rattle.pg_client.specs.Turns.{InTurns, turns_of};
ghost use Rattle.pg_client.specs.Spelled.{SendsSpelled};
ghost use Rattle.pg_client.specs.Answering.{AllSettled, KeepsOrder, SettlesLast, TakesTurns};
ghost use Rattle.pg_client.specs.Answering.{calls_of, turns_with};
ghost use Rattle.pg_client.specs.Driving.{IsFedOn, requests_by};

/// What the history of a client means, in the words of the protocol: what it settled, and what its phase says.
pub fn facts_of_a_run()
    ensures { (h : History Settled) (client : ClientView) → IsHistoryOf collecting h client
        → ClientFacts h client }
{}

/// What the history of an early client means: its items are those of what happened, and what its phase says.
pub fn facts_of_an_early_run()
    ensures { (h : History Item) (client : EarlyView) → IsHistoryOf queueing h client
        → EarlyFacts h client }
{}

/// What a client knows of a loss at each time: which request is in doubt, the one after those of the settled groups, and whether an error came for
/// it.
pub fn loss_of_a_run()
    ensures { (h : History Settled) (client : ClientView) → IsHistoryOf collecting h client
        → Loses h.handed_back (happenings h) (loss_at client.known.stand) }
{}

/// What went out is the startup packet, the password if it was asked for, then each request with what was called for its copies, and
/// the end of the session.
pub fn turns_of_a_run()
    ensures { (h : History Settled) (client : ClientView) → IsHistoryOf collecting h client
        → InTurns client.settings (happenings h) h.sent }
{}

/// The events of a history are the calls and the messages that were heard, each in their order. One more call is a new turn, or belongs to the last
/// one.
pub fn story_of_a_run()
    ensures order { (h : History Settled) → KeepsOrder h }
    ensures one_more { (cs : List (Call × ℕ)) (c : Call) (place : ℕ)
        → turns_of (calls_of (cs ++ (c, place) ∷ [])) ≡ turns_with (turns_of (calls_of cs)) c }
{}

/// If the messages so far are expected, so were those at each time before. So nothing after an unexpected message is expected.
pub fn expected_begins()
    ensures begins { (password : Option (List ℕ)) (hs more : List Happening)
        → Expected password (hs ++ more) → Expected password hs }
    ensures longest { (password : Option (List ℕ)) (hs : List Happening) (m : BackMessage)
        (later : List Happening) → (Expected password (hs ++ Came m ∷ []) → ⊥)
        → Expected password (hs ++ Came m ∷ later) → ⊥ }
{}

/// A request is made once all before it have been answered, and what is called for a copy belongs to the last one.
pub fn answers_of_a_run()
    ensures { (h : History Settled) (client : ClientView) → IsHistoryOf collecting h client
        → TakesTurns (happenings h) (h.given ++ groups_waiting client) client }
{}

/// What went out has a spelling: the startup packet and each message.
pub fn spelled_in_a_run()
    ensures { (h : History Settled) (client : ClientView) → IsHistoryOf collecting h client
        → SendsSpelled client.settings (happenings h) }
{}

/// As bytes come, only the request that was made last can be settled. In phase Ready all requests are settled.
pub fn settles_the_last()
    ensures fed { (h : History Settled) (old new : ClientView) (piece : List ℕ)
        (result : Result Unit FeedFault) (before after : List ℕ)
        → IsHistoryOf collecting h old → Feeds collecting old piece result new before after
        → SettlesLast (requests_in (happenings h)) h.given (groups_waiting old)
        (groups_waiting new) }
    ensures ready { (h : History Settled) (client : ClientView) → IsHistoryOf collecting h client
        → phase_of client ≡ phase.Ready
        → AllSettled (requests_in (happenings h)) (h.given ++ groups_waiting client) }
{
    pg_wire::laws::one_outcome();
}

/// What a driver can rely on. In phase Ready all requests that its calls made are settled. An open client that made a request and has settled all is
/// Ready. A request that is made then stands last among them.
pub fn requests_of_the_calls()
    ensures ready { (h : History Settled) (client : ClientView) → IsHistoryOf collecting h client
        → phase_of client ≡ phase.Ready
        → AllSettled (requests_by h.calls) (h.given ++ groups_waiting client) }
    ensures back { (h : History Settled) (client : ClientView) → IsHistoryOf collecting h client
        → client.closed ≡ None → requests_by h.calls ≢ []
        → AllSettled (requests_by h.calls) (h.given ++ groups_waiting client)
        → phase_of client ≡ phase.Ready }
    ensures asked { (calls : List (Call × ℕ)) (r : Request) (place : ℕ)
        → requests_by (calls ++ (call.Request r, place) ∷ []) ≡ requests_by calls ++ r ∷ [] }
{}

/// A feed carries on each history of a client, open or closed.
pub fn feeding_goes_on()
    ensures { (h : History Settled) (old new : ClientView) (piece : List ℕ)
        (result : Result Unit FeedFault) (before after : List ℕ) → IsHistoryOf collecting h old
        → Feeds collecting old piece result new before after
        → IsFedOn h piece result old new }
{}
