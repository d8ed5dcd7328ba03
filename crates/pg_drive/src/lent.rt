//! An early client that is driven event by event, with its rows lent.

ghost use Rattle.std.specs.Prelude.{◌≡◌, [], length};
ghost use Rattle.pg_client.specs.Keeping.{queueing};
ghost use Rattle.pg_client.specs.Client.{IsLost};
ghost use Rattle.pg_drive.specs.Drive.{connected, longest_piece};
ghost use Rattle.pg_drive.specs.Early.{DrivesEarly};
ghost use Rattle.pg_drive.specs.Lent.{GivesLent, Hears, start_told, Starts};
ghost use Rattle.pg_drive.specs.Private.LentTurning.{TakesLentTurn, TakesPiece, TellsNext, WaitsOn};
ghost use Rattle.pg_drive.specs.Private.LentTurning.{event_of};
ghost use Rattle.pg_drive.specs.Session.{Tells, TellsCame};

use crate::answer::{DriveFault, DrivenEarly};
use crate::early::drive_early;
use crate::event::{Event, SessionFault};
use crate::receiving::PIECE;
use crate::starting::{begin, lose, tell_fault};
use pg_client::{EarlyClient, Item, Next, Phase};
use pg_wire::{Sink, Source, send_out};

/// Gives the next event, and receives at most so many pieces where nothing that has come is one.
pub(crate) fn next_event<L: Source + Sink>(
    client: &mut EarlyClient,
    out: &mut Vec<u8>,
    link: &mut L,
    pieces: u32,
) -> Result<Event, SessionFault>
    ensures { GivesLent L.gives L.takes L.has_ended L.Source.failures L.Sink.failures pieces
        (connected link.old client.old out.old.items) result
        (connected link.new client.new out.new.items) }
{
    for _ in 0..pieces {
        if let Some(event) = turn(client, out, link)? {
            return Ok(event);
        }
    }
    match hear(client, out, link)? {
        Some(event) => Ok(event),
        None => Err(SessionFault::PiecesUsed),
    }
}

// Looks for an event in what has come, and pushes a piece where there is none.
fn turn<L: Source + Sink>(
    client: &mut EarlyClient,
    out: &mut Vec<u8>,
    link: &mut L,
) -> Result<Option<Event>, SessionFault>
    ensures { TakesLentTurn L.gives L.takes L.has_ended L.Source.failures L.Sink.failures
        (connected link.old client.old out.old.items) result
        (connected link.new client.new out.new.items) }
{
    if let Some(event) = hear(client, out, link)? {
        return Ok(Some(event));
    }
    push_piece(client, link)?;
    Ok(None)
}

/// Looks for the next event in what has come, and receives nothing. Where no message is one, all that waits is sent.
pub(crate) fn hear<L: Source + Sink>(
    client: &mut EarlyClient,
    out: &mut Vec<u8>,
    link: &mut L,
) -> Result<Option<Event>, SessionFault>
    ensures { Hears L.takes L.Sink.failures (connected link.old client.old out.old.items) result
        (connected link.new client.new out.new.items) }
{
    match client.next_lent(out) {
        Ok(heard) => tell(heard, client, out, link),
        Err(fault) => {
            let loss = lose(client);
            Err(SessionFault::Feed { fault, loss })
        }
    }
}

// What a session gives for what was heard.
fn tell<L: Source + Sink>(
    heard: Next,
    client: &mut EarlyClient,
    out: &mut Vec<u8>,
    link: &mut L,
) -> Result<Option<Event>, SessionFault>
    ensures { TellsNext L.takes L.Sink.failures heard
        (connected link.old client.old out.old.items) result
        (connected link.new client.new out.new.items) }
{
    match heard {
        Next::Nothing => wait(client, out, link),
        Next::Held => Ok(Some(Event::Row)),
        Next::Item(item) => Ok(Some(event_of(item))),
    }
}

// The event of an item.
fn event_of(item: Item) -> Event
    ensures { result ≡ event_of item }
{
    match item {
        Item::Early(message) => Event::Message(message),
        Item::Settled { request, status } => Event::Settled { request, status },
    }
}

// Sends what waits, where all that has come was heard, and returns whether the server awaits the data of a copy.
fn wait<L: Source + Sink>(
    client: &mut EarlyClient,
    out: &mut Vec<u8>,
    link: &mut L,
) -> Result<Option<Event>, SessionFault>
    ensures { WaitsOn L.takes L.Sink.failures (connected link.old client.old out.old.items) result
        (connected link.new client.new out.new.items) }
{
    let Ok(()) = send_out(out, link) else {
        return Err(SessionFault::Lost(lose(client)));
    };
    match client.phase() {
        Phase::CopyingIn => Ok(Some(Event::CopyIn)),
        _ => Ok(None),
    }
}

// Receives a piece and pushes it, where nothing waits to be sent. The room of the piece is a local of this function alone: a function clears the room
// of all its locals as it begins. What has come is to be given without that.
fn push_piece<L: Source + Sink>(client: &mut EarlyClient, link: &mut L) -> Result<(), SessionFault>
    ensures { TakesPiece L.gives L.takes L.has_ended L.Source.failures L.Sink.failures
        (connected link.old client.old []) result (connected link.new client.new []) }
{
    let mut piece = [0u8; PIECE];
    receive_pushed(client, link, &mut piece)
}

// Receives a piece into this room, and pushes it.
fn receive_pushed<L: Source + Sink>(
    client: &mut EarlyClient,
    link: &mut L,
    piece: &mut [u8],
) -> Result<(), SessionFault>
    requires { length piece.old ≡ longest_piece }
    ensures { TakesPiece L.gives L.takes L.has_ended L.Source.failures L.Sink.failures
        (connected link.old client.old []) result (connected link.new client.new []) }
{
    let Ok(count) = link.receive(piece) else {
        return Err(SessionFault::Lost(lose(client)));
    };
    if count == 0 {
        return Err(SessionFault::Lost(lose(client)));
    }
    match client.push(&piece[..count]) {
        Ok(()) => Ok(()),
        Err(fault) => {
            let loss = lose(client);
            Err(SessionFault::Feed { fault, loss })
        }
    }
}

/// Puts the startup packet out, unless it was before, and drives the client until the startup has ended.
pub(crate) fn start_early<L: Source + Sink>(
    client: &mut EarlyClient,
    out: &mut Vec<u8>,
    link: &mut L,
    pieces: u32,
) -> Result<(), SessionFault>
    ensures { Starts L.gives L.takes L.has_ended L.Source.failures L.Sink.failures pieces
        (connected link.old client.old out.old.items) result
        (connected link.new client.new out.new.items) }
{
    match begin(client, out) {
        Ok(()) => drive_start(client, out, link, pieces),
        Err(refused) => Err(SessionFault::Call(refused)),
    }
}

// Drives the client until the startup has ended.
fn drive_start<L: Source + Sink>(
    client: &mut EarlyClient,
    out: &mut Vec<u8>,
    link: &mut L,
    pieces: u32,
) -> Result<(), SessionFault>
    ensures { Tells (DrivesEarly L.gives L.takes L.has_ended L.Source.failures L.Sink.failures
        pieces) (TellsCame start_told (IsLost queueing)) (connected link.old client.old out.old.items)
        result (connected link.new client.new out.new.items) }
{
    let came = drive_early(client, out, link, pieces);
    tell_start(client, came)
}

// What `start` returns for what driving came to.
fn tell_start(
    client: &mut EarlyClient,
    came: Result<DrivenEarly, DriveFault>,
) -> Result<(), SessionFault>
    ensures { TellsCame start_told (IsLost queueing) came client.old result client.new }
{
    match came {
        Ok(driven) => start_told(driven),
        Err(fault) => Err(tell_fault(client, fault)),
    }
}

// What `start` returns for this result of driving.
fn start_told(driven: DrivenEarly) -> Result<(), SessionFault>
    ensures { result ≡ start_told driven }
{
    match driven {
        DrivenEarly::Ready => Ok(()),
        DrivenEarly::Lost(loss) => Err(SessionFault::Lost(loss)),
        DrivenEarly::Item(_) | DrivenEarly::CopyIn | DrivenEarly::TurnsUsed => {
            Err(SessionFault::PiecesUsed)
        }
    }
}
