//! A driver that blocks: it asks one request, and waits for its answer.

ghost use Rattle.std.specs.Prelude.{◌≡◌, IfOk, OnOk};
ghost use Rattle.pg_client.specs.declared.phase.Phase.TheVariants as phase;
ghost use Rattle.pg_client.specs.View.{phase_of};
ghost use Rattle.pg_client.specs.declared.settled.Settled.{Settled};
ghost use Rattle.pg_client.specs.Client.{History, IsHistoryOf};
ghost use Rattle.pg_client.specs.Keeping.{collecting};
ghost use Rattle.pg_drive.specs.Drive.{connected};
ghost use Rattle.pg_drive.specs.Group.{GroupStarts};
ghost use Rattle.example_base.specs.Driver.{Asks, AwaitsRequest, OnCopyIn, next_result};

use pg_client::Settled;
use pg_client::laws::{answers_of_a_run, requests_of_the_calls, story_of_a_run};
use pg_drive::laws::driving_goes_on;
use pg_drive::{GroupEvent, GroupSession, SessionFault};
use pg_wire::{Request, Sink, Source};
use thiserror::Error;

/// Why a request has no answer.
#[derive(Debug, PartialEq, Eq, Drop, Error)]
pub enum AskFault {
    /// The session gives none: N1 Call, and nothing has changed; N2 Feed or N3 Lost, which hold the request that is in doubt; or N4
    /// PiecesUsed, and [`GroupSession::next`] goes on.
    #[error(transparent)]
    Session(SessionFault),
    /// The server awaits the data of a copy, which `ask` doesn't send. The client is in phase CopyingIn.
    #[error("the server waits for the data of a copy")]
    CopyIn,
}

/// Starts a session as [`GroupSession::start`] does, whose faults it has. Then the first request may be asked.
pub fn connect<L: Source + Sink>(session: &mut GroupSession<L>) -> Result<(), SessionFault>
    requires { (h : History Settled) × IsHistoryOf collecting h session.old.client }
    ensures ready { OnOk result (AwaitsRequest session.new.client) }
    ensures start { GroupStarts L.gives L.takes L.has_ended L.Source.failures L.Sink.failures
        session.old.pieces (connected session.old.link session.old.client session.old.out.items)
        result (connected session.new.link session.new.client session.new.out.items) }
    ensures pieces { session.new.pieces ≡ session.old.pieces }
{
    driving_goes_on::<L>();
    session.start()
}

/// Asks a request, and waits for the group that it settles: the request's own, and the only one. Then the next request may be asked.
///
/// By each history of the session's client, it made the request, was fed what the link gave, and the group was taken. After a fault the
/// history says what became of the request.
pub fn ask<L: Source + Sink>(
    session: &mut GroupSession<L>,
    request: Request,
) -> Result<Settled, AskFault>
    requires { AwaitsRequest session.old.client }
    ensures own { IfOk result (λ group. group.request ≡ request) }
    ensures again { OnOk result (AwaitsRequest session.new.client) }
    ensures copy { OnCopyIn result (phase_of session.new.client ≡ phase.CopyingIn) }
    ensures asks { Asks L.gives L.takes L.has_ended L.Source.failures L.Sink.failures
        session.old.pieces request
        (connected session.old.link session.old.client session.old.out.items) result
        (connected session.new.link session.new.client session.new.out.items) }
    ensures pieces { session.new.pieces ≡ session.old.pieces }
{
    requests_of_the_calls();
    story_of_a_run();
    answers_of_a_run();
    driving_goes_on::<L>();
    match session.request(request) {
        Ok(()) => answer(session.next()),
        Err(refused) => Err(AskFault::Session(SessionFault::Call(refused.1))),
    }
}

// What the session's `next` returned, as `ask` returns it.
fn answer(event: Result<GroupEvent, SessionFault>) -> Result<Settled, AskFault>
    ensures { event ≡ next_result result }
{
    match event {
        Ok(GroupEvent::Settled(group)) => Ok(group),
        Ok(GroupEvent::CopyIn) => Err(AskFault::CopyIn),
        Err(fault) => Err(AskFault::Session(fault)),
    }
}
