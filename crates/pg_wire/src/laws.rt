//! Laws of the formats: each function does nothing, and its contract is the law.

ghost use Rattle.pg_wire.specs.Laws.{OneSpelling, OneReading, FaultyBeginsNone, FaultOfNext};
ghost use Rattle.pg_wire.specs.Laws.{OneFault, RoundTrip, OnePacket, OneBeginning};
ghost use Rattle.pg_wire.specs.Laws.{FaultyBeginsNoPacket, OnePacketFault, PacketsAgain};
ghost use Rattle.pg_wire.specs.Laws.{OneOutcome, OneCut, AnswerIsSpelled};

use pg_message::Message;

/// Two messages with the same bytes are one, and no message's bytes begin another's.
pub fn one_spelling<M: Message>()
    ensures { OneSpelling M.direction }
{
    M::one_to_one();
}

/// Two readings of the same bytes differ only in how far they go.
pub fn one_reading<M: Message>()
    ensures { OneReading M.direction }
{
    M::one_to_one();
}

/// A faulty rest begins no message.
pub fn faulty_begins_none<M: Message>()
    ensures { FaultyBeginsNone M.direction }
{}

/// A rest is faulty for one reason at most.
pub fn one_fault<M: Message>()
    ensures { OneFault M.direction }
{}

/// What a fault that a decoder's `next` returns is: Memory, with nothing changed; one that was found before; or one that the rest has, which each
/// later call returns.
pub fn fault_of_next<M: Message>()
    ensures { FaultOfNext M.direction }
{}

/// What encoders wrote is read as what was meant, however far the reading goes.
pub fn round_trip<M: Message>()
    ensures { RoundTrip M.direction }
{
    M::one_to_one();
}

/// Two first packets with the same bytes are one, and no packet's bytes begin another's.
pub fn one_packet()
    ensures { OnePacket }
{}

/// Two readings of what a connection begins with differ only in how far they go.
pub fn one_beginning()
    ensures { OneBeginning }
{}

/// A rest that is faulty for a first packet begins no packet.
pub fn faulty_begins_no_packet()
    ensures { FaultyBeginsNoPacket }
{}

/// A rest where a first packet may come is faulty for one reason at most.
pub fn one_packet_fault()
    ensures { OnePacketFault }
{}

/// First packets that encoders wrote are read as what was meant, however far the reading goes.
pub fn packets_again()
    ensures { PacketsAgain }
{}

/// A segment fits a request with at most one outcome.
pub fn one_outcome()
    ensures { OneOutcome }
{}

/// The segments of a session are its messages, cut after each ReadyForQuery, and there is one such cut.
pub fn one_cut()
    ensures { OneCut }
{}

/// The answer to an AuthMd5 has a spelling as a Password, whatever the user, the password and the salt are.
pub fn answer_is_spelled()
    ensures { AnswerIsSpelled }
{}
