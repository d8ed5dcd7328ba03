//! The lines of a client's first packets.

ghost use Rattle.std.specs.Prelude.{◌≡◌, ◌≤◌, ◌++◌, [], length, drop, false, None};
ghost use Rattle.pg_wire.specs.Encoder.{EncodesPacket};
ghost use Rattle.pg_wire.specs.First.{IsPacket};
ghost use Rattle.pgpipe_show.specs.Packets.{word, packet_line, after_packet};
ghost use Rattle.pgpipe_base.specs.Outbox.{line_of};
ghost use Rattle.pgpipe_show.specs.Private.Showing.{PutsLine, PutsPackets, LeavesSource};

use crate::show::Shown;
use crate::stop::fault_stop;
use pg_wire::frontend::encode_first;
use pg_wire::{EncodeFault, First, FirstDecoder, Sink};
use pgpipe_base::Stop;
use pgpipe_base::outbox::Outbox;
use pgpipe_frames::NextFrame;

// What comes after a packet.
fn after_packet(packet: &First) -> NextFrame
    ensures { result ≡ after_packet packet.now }
{
    match packet {
        First::Startup(_) => NextFrame::Message,
        First::Cancel { .. } => NextFrame::Nothing,
        First::Ssl | First::Gss => NextFrame::Packet,
    }
}

// The word for a packet.
fn word(packet: &First) -> &'static [u8]
    ensures word { result.now ≡ word packet.now }
    ensures size { length result.now ≤ 7 }
{
    match packet {
        First::Startup(_) => b"startup",
        First::Cancel { .. } => b"cancel",
        First::Ssl => b"ssl",
        First::Gss => b"gss",
    }
}

// Spells a packet.
fn spell(packet: &First, spelled: &mut Vec<u8>) -> Result<(), EncodeFault>
    ensures { EncodesPacket packet.now [] result spelled.new.items }
{
    spelled.clear();
    encode_first(packet, spelled)
}

// Puts the line of a packet that is spelled so.
fn put_spelled<K: Sink>(
    word: &[u8],
    spelled: &[u8],
    outbox: &mut Outbox,
    sink: &mut K,
) -> Result<(), Stop<Shown>>
    requires word { length word.now ≤ 7 }
    requires spelled { (4 ≤ length spelled.now) × (length spelled.now ≤ 10000) }
    ensures { PutsLine K.takes K.failures outbox.old sink.old
        (line_of word.now (length spelled.now) (drop 4 spelled.now)) result outbox.new sink.new }
{
    match outbox.put_line(word, spelled.len() as u32, spelled.split_at(4).1, sink) {
        Ok(()) => Ok(()),
        Err(_) => Err(Stop::SinkFailed),
    }
}

/// Puts the line of a packet.
pub fn put_packet<K: Sink>(
    packet: First,
    spelled: &mut Vec<u8>,
    outbox: &mut Outbox,
    sink: &mut K,
) -> Result<(), Stop<Shown>>
    requires { IsPacket packet }
    ensures { PutsLine K.takes K.failures outbox.old sink.old
        (packet_line packet) result outbox.new sink.new }
{
    match spell(&packet, spelled) {
        Ok(()) => put_spelled(word(&packet), spelled.as_slice(), outbox, sink),
        Err(_) => Err(Stop::Memory),
    }
}

/// Puts the lines of the packets that are whole, and returns what comes next.
pub fn put_packets<K: Sink>(
    first: &mut FirstDecoder,
    spelled: &mut Vec<u8>,
    outbox: &mut Outbox,
    sink: &mut K,
) -> Result<NextFrame, Stop<Shown>>
    requires { (first.old.ended ≡ false) × (first.old.fault ≡ None) }
    ensures puts { PutsPackets K.takes K.failures outbox.old sink.old first.old.kept result
        first.new outbox.new sink.new }
    ensures source { LeavesSource result }
{
    loop {
        match first.next() {
            Ok(None) => return Ok(NextFrame::Packet),
            Ok(Some(packet)) => {
                let next = after_packet(&packet);
                put_packet(packet, spelled, outbox, sink)?;
                match next {
                    NextFrame::Packet => {}
                    NextFrame::Message | NextFrame::Nothing => return Ok(next),
                }
            }
            Err(fault) => return Err(fault_stop(fault)),
        }
    }
}
