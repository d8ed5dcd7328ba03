//! The lines of messages.

ghost use Rattle.std.specs.Prelude.{◌≡◌, ◌≤◌, ◌^◌, ◌-◌, ◌++◌, [], ◌∷◌, length, drop, slice_index};
ghost use Rattle.pgpipe_base.specs.Outbox.{line_of};
ghost use Rattle.pgpipe_show.specs.Private.Showing.{IsSound, PutsLine, PutsMessages, LeavesSource};

use crate::show::Shown;
use crate::stop::fault_stop;
use pg_wire::{Message, Sink, Spellings};
use pgpipe_base::Stop;
use pgpipe_base::outbox::Outbox;

/// Puts the line of a message that is spelled so, from where it stands.
pub fn put_spelled<K: Sink>(
    spelled: &[u8],
    outbox: &mut Outbox,
    sink: &mut K,
) -> Result<(), Stop<Shown>>
    requires { (5 ≤ length spelled.now) × (length spelled.now ≤ 2 ^ 32) }
    ensures { PutsLine K.takes K.failures outbox.old sink.old
        (line_of (slice_index spelled.now 0 ∷ []) (length spelled.now - 1) (drop 5 spelled.now))
        result outbox.new sink.new }
{
    let size = (spelled.len() - 1) as u32;
    match outbox.put_line(&[spelled[0]], size, spelled.split_at(5).1, sink) {
        Ok(()) => Ok(()),
        Err(_) => Err(Stop::SinkFailed),
    }
}

/// Puts the lines of the messages that are whole.
pub fn put_messages<M: Message, K: Sink>(
    spellings: Spellings<M>,
    outbox: &mut Outbox,
    sink: &mut K,
) -> Result<Spellings<M>, Stop<Shown>>
    requires { IsSound spellings.stream }
    ensures puts { PutsMessages K.takes K.failures M.direction outbox.old sink.old
        spellings.stream.kept result outbox.new sink.new }
    ensures source { LeavesSource result }
{
    let mut reader = spellings;
    loop {
        match reader.next() {
            Ok(false) => return Ok(reader),
            Ok(true) => put_spelled(reader.spelling(), outbox, sink)?,
            Err(fault) => return Err(fault_stop(fault)),
        }
    }
}

/// Takes a piece, and puts the lines of the messages that are whole then.
pub fn take_messages<M: Message, K: Sink>(
    spellings: Spellings<M>,
    piece: &[u8],
    outbox: &mut Outbox,
    sink: &mut K,
) -> Result<Spellings<M>, Stop<Shown>>
    requires { IsSound spellings.stream }
    ensures puts { PutsMessages K.takes K.failures M.direction outbox.old sink.old
        (spellings.stream.kept ++ piece.now) result outbox.new sink.new }
    ensures source { LeavesSource result }
{
    let mut reader = spellings;
    match reader.push(piece) {
        Ok(()) => put_messages(reader, outbox, sink),
        Err(_) => Err(Stop::Memory),
    }
}
