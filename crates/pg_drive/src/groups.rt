//! A client that is driven until a group is settled.

ghost use Rattle.std.specs.Prelude.{◌≡◌};
ghost use Rattle.pg_client.specs.Keeping.{collecting};
ghost use Rattle.pg_client.specs.Client.{IsLost};
ghost use Rattle.pg_drive.specs.Drive.{Drives, connected};
ghost use Rattle.pg_drive.specs.Group.{AwaitsCopy, GivesGroup, GroupStarts, GroupTells};
ghost use Rattle.pg_drive.specs.Group.{group_start_told};
ghost use Rattle.pg_drive.specs.Session.{Tells, TellsCame};

use crate::answer::{DriveFault, Driven};
use crate::driving::drive;
use crate::event::{GroupEvent, SessionFault};
use crate::starting::{begin, lose, tell_fault};
use pg_client::{Client, Phase};
use pg_wire::{Sink, Source, send_out};

/// Puts the startup packet out, unless it was before, and drives the client until the startup has ended.
pub(crate) fn start_whole<L: Source + Sink>(
    client: &mut Client,
    out: &mut Vec<u8>,
    link: &mut L,
    pieces: u32,
) -> Result<(), SessionFault>
    ensures { GroupStarts L.gives L.takes L.has_ended L.Source.failures L.Sink.failures pieces
        (connected link.old client.old out.old.items) result
        (connected link.new client.new out.new.items) }
{
    match begin(client, out) {
        Ok(()) => drive_start(client, out, link, pieces),
        Err(refused) => Err(SessionFault::Call(refused)),
    }
}

// Drives the client until the startup has ended.
fn drive_start<L: Source + Sink>(
    client: &mut Client,
    out: &mut Vec<u8>,
    link: &mut L,
    pieces: u32,
) -> Result<(), SessionFault>
    ensures { Tells (Drives L.gives L.takes L.has_ended L.Source.failures L.Sink.failures pieces)
        (TellsCame group_start_told (IsLost collecting)) (connected link.old client.old out.old.items) result
        (connected link.new client.new out.new.items) }
{
    let came = drive(client, out, link, pieces);
    tell_start(client, came)
}

// What `start` returns for what driving came to.
fn tell_start(client: &mut Client, came: Result<Driven, DriveFault>) -> Result<(), SessionFault>
    ensures { TellsCame group_start_told (IsLost collecting) came client.old result client.new }
{
    match came {
        Ok(driven) => group_start_told(driven),
        Err(fault) => Err(tell_fault(client, fault)),
    }
}

// What `start` returns for this result of driving.
fn group_start_told(driven: Driven) -> Result<(), SessionFault>
    ensures { result ≡ group_start_told driven }
{
    match driven {
        Driven::Ready => Ok(()),
        Driven::Lost(loss) => Err(SessionFault::Lost(loss)),
        Driven::Settled | Driven::CopyIn | Driven::TurnsUsed => Err(SessionFault::PiecesUsed),
    }
}

/// Gives the settled group that waits, or that the server awaits the data of a copy, and else drives the client to one of these.
pub(crate) fn next_group<L: Source + Sink>(
    client: &mut Client,
    out: &mut Vec<u8>,
    link: &mut L,
    pieces: u32,
) -> Result<GroupEvent, SessionFault>
    ensures { GivesGroup L.gives L.takes L.has_ended L.Source.failures L.Sink.failures pieces
        (connected link.old client.old out.old.items) result
        (connected link.new client.new out.new.items) }
{
    if let Some(group) = client.take_settled() {
        return Ok(GroupEvent::Settled(group));
    }
    match client.phase() {
        Phase::CopyingIn => await_copy(client, out, link),
        _ => drive_on(client, out, link, pieces),
    }
}

// Sends what waits, where the server awaits the data of a copy.
fn await_copy<L: Source + Sink>(
    client: &mut Client,
    out: &mut Vec<u8>,
    link: &mut L,
) -> Result<GroupEvent, SessionFault>
    ensures { AwaitsCopy L.gives L.takes L.has_ended L.Source.failures L.Sink.failures
        (connected link.old client.old out.old.items) result
        (connected link.new client.new out.new.items) }
{
    let Ok(()) = send_out(out, link) else {
        return Err(SessionFault::Lost(lose(client)));
    };
    Ok(GroupEvent::CopyIn)
}

// Drives the client until a group is settled or the server awaits the data of a copy.
fn drive_on<L: Source + Sink>(
    client: &mut Client,
    out: &mut Vec<u8>,
    link: &mut L,
    pieces: u32,
) -> Result<GroupEvent, SessionFault>
    ensures { Tells (Drives L.gives L.takes L.has_ended L.Source.failures L.Sink.failures pieces)
        GroupTells (connected link.old client.old out.old.items) result
        (connected link.new client.new out.new.items) }
{
    let came = drive(client, out, link, pieces);
    tell_group(client, came)
}

// What `next` returns for what driving came to.
fn tell_group(
    client: &mut Client,
    came: Result<Driven, DriveFault>,
) -> Result<GroupEvent, SessionFault>
    ensures { GroupTells came client.old result client.new }
{
    match came {
        Ok(driven) => tell_driven(client, driven),
        Err(fault) => Err(tell_fault(client, fault)),
    }
}

// What `next` returns for this result of driving. Where a group is settled, it is taken.
fn tell_driven(client: &mut Client, driven: Driven) -> Result<GroupEvent, SessionFault>
    ensures { GroupTells (Ok driven) client.old result client.new }
{
    match driven {
        Driven::Settled => take_group(client),
        Driven::CopyIn => Ok(GroupEvent::CopyIn),
        Driven::Lost(loss) => Err(SessionFault::Lost(loss)),
        Driven::Ready | Driven::TurnsUsed => Err(SessionFault::PiecesUsed),
    }
}

// Takes the settled group that waits.
fn take_group(client: &mut Client) -> Result<GroupEvent, SessionFault>
    ensures { GroupTells (Ok Driven.Settled) client.old result client.new }
{
    match client.take_settled() {
        Some(group) => Ok(GroupEvent::Settled(group)),
        None => Err(SessionFault::PiecesUsed),
    }
}
