//! First packets, taken in pieces.

mod kind;

ghost use Rattle.std.specs.Prelude.{◌≡◌, ◌<◌, ◌≤◌, ◌++◌, [], List, ℕ, length, None, Some, OnOk};
ghost use Rattle.std.specs.Prelude.{MatchOption, is_some, true, false};
ghost use Rattle.pg_message.specs.declared.message.First.{First};
ghost use Rattle.pg_message.specs.First.{packet_holds_list};
ghost use Rattle.pg_message.specs.Private.Reading.{AsksFor, ReadsWhole};
ghost use Rattle.pg_wire.specs.First.{PacketHead, PacketCode, is_last};
ghost use Rattle.pg_wire.specs.FirstDecoder.{HasBegun, FirstPushes, FirstTakes, packets_after};
ghost use Rattle.pg_wire.specs.Decoder.{HasTaken};
ghost use Rattle.pg_message.specs.Direction.{IsLimit};
ghost use Rattle.pg_message.specs.Frontend.{frontend};
ghost use Rattle.pg_codec.specs.Private.Reader.{Gives};
ghost use Rattle.pg_wire.specs.Private.FirstReader.{first_of, JudgesPacket, FindsPacket};

use crate::buffer::drop_first;
use crate::decoder::FrontDecoder;
use crate::fault::WireFault;
use crate::spellings::Spellings;
use bytes::BytesMut;
use kind::FirstKind;
use pg_codec::{BodyFault, after_terminated, ended, i32_at, terminated};
use pg_message::{First, FrontMessage, LONGEST_PACKET};
use pg_seq::Seq;
use std::alloc::Global;
use std::marker::Model;

/// What the head of a rest shows.
pub enum JudgedPacket {
    Open,
    Faulty(WireFault),
    /// A packet of this kind, with this length, is all there.
    Whole(FirstKind, usize),
}

// The length; None until four bytes are there.
fn head(rest: &[u8]) -> Option<i32>
    ensures { MatchOption result (length rest.now < 4) (PacketHead rest.now) }
{
    match rest {
        [a, b, c, d, ..] => Some(i32::from_be_bytes([*a, *b, *c, *d])),
        _ => None,
    }
}

// The code; None until eight bytes are there.
fn code(rest: &[u8]) -> Option<i32>
    ensures { MatchOption result (length rest.now < 8) (PacketCode rest.now) }
{
    match rest {
        [_, _, _, _, a, b, c, d, ..] => Some(i32::from_be_bytes([*a, *b, *c, *d])),
        _ => None,
    }
}

fn judge(rest: &[u8]) -> JudgedPacket
    ensures { JudgesPacket rest.now result }
{
    let Some(len) = head(rest) else {
        return JudgedPacket::Open;
    };
    if len < 8 {
        return JudgedPacket::Faulty(WireFault::ShortLength(len));
    }
    if len > LONGEST_PACKET as i32 {
        return JudgedPacket::Faulty(WireFault::LongLength(len));
    }
    let Some(code) = code(rest) else {
        return JudgedPacket::Open;
    };
    let Some(kind) = FirstKind::of(code) else {
        return JudgedPacket::Faulty(WireFault::BadFirst(code));
    };
    let len = len as usize;
    if rest.len() < len {
        JudgedPacket::Open
    } else {
        JudgedPacket::Whole(kind, len)
    }
}

// The packet of this kind with this content, all of it. Only one that holds a list takes memory.
fn packet(alloc: Global, kind: FirstKind, content: &[u8]) -> Result<First, BodyFault>
    ensures read { Gives (λ p. p) result (first_of kind content.now) }
    ensures memory { AsksFor packet_holds_list result (first_of kind content.now) }
{
    match kind {
        FirstKind::Startup => {
            let (pairs, rest) = terminated(alloc, content)?;
            ended(First::Startup(pairs), rest)
        }
        FirstKind::Cancel => {
            let (process, rest) = i32_at(content)?;
            let (secret, rest) = i32_at(rest)?;
            ended(First::Cancel { process, secret }, rest)
        }
        FirstKind::Ssl => ended(First::Ssl, content),
        FirstKind::Gss => ended(First::Gss, content),
    }
}

// Whether this is the content of a packet of this kind. No packet is made, and no memory is taken.
fn is_packet(kind: FirstKind, content: &[u8]) -> bool
    ensures { result ≡ is_some (first_of kind content.now) }
{
    match kind {
        FirstKind::Startup => match after_terminated::<(Seq<u8>, Seq<u8>)>(content) {
            Some(rest) => rest.is_empty(),
            None => false,
        },
        FirstKind::Cancel => content.len() == 8,
        FirstKind::Ssl | FirstKind::Gss => content.is_empty(),
    }
}

// The packet of this kind with this content. Memory is returned only where there is such a packet, and it holds a list.
fn read_whole(alloc: Global, kind: FirstKind, content: &[u8]) -> Result<First, BodyFault>
    ensures { ReadsWhole packet_holds_list result (first_of kind content.now) }
{
    match packet(alloc, kind, content) {
        Ok(packet) => Ok(packet),
        Err(BodyFault::Bad) => Err(BodyFault::Bad),
        Err(BodyFault::Memory) => {
            if is_packet(kind, content) {
                Err(BodyFault::Memory)
            } else {
                Err(BodyFault::Bad)
            }
        }
    }
}

// The packet at the beginning of a rest, and how many bytes it takes.
fn find(alloc: Global, rest: &[u8]) -> Result<Option<(First, usize)>, WireFault>
    ensures { FindsPacket rest.now result }
{
    match judge(rest) {
        JudgedPacket::Open => Ok(None),
        JudgedPacket::Faulty(fault) => Err(fault),
        JudgedPacket::Whole(kind, len) => match read_whole(alloc, kind, &rest[8..len]) {
            Ok(packet) => Ok(Some((packet, len))),
            Err(BodyFault::Bad) => Err(WireFault::BadBody(0)),
            Err(BodyFault::Memory) => Err(WireFault::Memory),
        },
    }
}

// Whether no first packet comes after this one.
fn is_last(packet: &First) -> bool
    ensures { result ≡ is_last packet.now }
{
    matches!(packet, First::Startup(_) | First::Cancel { .. })
}

/// Takes what a frontend begins a connection with in any pieces, and gives its first packets. They are any number of Ssl and Gss, and then a Startup
/// or a Cancel ("Start-up", "Canceling Requests in Progress").
///
/// What comes after those is kept for [`into_front`](FirstDecoder::into_front). Until the last packet was given, fewer than 10,000 bytes are kept
/// after `next` has returned None. A fault takes the place of a packet, and each later call returns it.
#[derive(Drop)]
pub struct FirstDecoder {
    alloc: Global,
    buffer: BytesMut,
    ended: bool,
    fault: Option<WireFault>,
}

impl Model for FirstDecoder {
    ghost use Rattle.pg_wire.specs.Decoder.{IsLasting};
    ghost use Rattle.pg_wire.specs.FirstDecoder.{FirstState};

    ghost Value = { FirstState };

    ghost view = { λ d. record { kept = d.buffer.items; ended = d.ended; fault = d.fault } };

    ghost invariant = { λ d. IsLasting d.fault };
}

impl FirstDecoder {
    /// A decoder that was given nothing yet.
    pub fn new(alloc: Global) -> FirstDecoder
        ensures value { result ≡ record { kept = []; ended = false; fault = None } }
        ensures begun { HasBegun result [] [] }
    {
        FirstDecoder {
            alloc,
            buffer: BytesMut::new(alloc),
            ended: false,
            fault: None,
        }
    }

    /// How many bytes are kept: those that were pushed and have not been given as packets.
    pub fn kept(&self) -> usize
        ensures { result ≡ length self.now.kept }
    {
        self.buffer.len()
    }

    /// Takes the next piece, all of it. Where `next` has found a fault, that fault is returned. After Memory nothing of the piece was taken, and the
    /// decoder is unchanged. A piece without bytes needs no memory.
    pub fn push(&mut self, piece: &[u8]) -> Result<(), WireFault>
        ensures call { FirstPushes self.old piece.now result self.new }
        ensures begun { OnOk result ((pushed : List ℕ) (given : List First)
            → HasBegun self.old pushed given → HasBegun self.new (pushed ++ piece.now) given) }
    {
        if let Some(fault) = self.fault {
            return Err(fault);
        }
        Ok(self.buffer.extend_from_slice(piece)?)
    }

    /// The next packet, or None where more bytes are to come or the last packet was given. A fault is returned once all packets before it were given,
    /// and by each call after that. Memory is returned only for a Startup that is whole, and leaves the decoder unchanged.
    pub fn next(&mut self) -> Result<Option<First>, WireFault>
        ensures call { FirstTakes self.old result self.new }
        ensures begun { (pushed : List ℕ) (given : List First) → HasBegun self.old pushed given
            → HasBegun self.new pushed (packets_after given result) }
    {
        if let Some(fault) = self.fault {
            return Err(fault);
        }
        if self.ended {
            return Ok(None);
        }
        match find(self.alloc, self.buffer.as_slice()) {
            Ok(None) => Ok(None),
            Ok(Some((packet, len))) => {
                drop_first(&mut self.buffer, len);
                self.ended = is_last(&packet);
                Ok(Some(packet))
            }
            Err(WireFault::Memory) => Err(WireFault::Memory),
            Err(fault) => {
                self.fault = Some(fault);
                Err(fault)
            }
        }
    }

    /// A decoder of the messages after the first packets. It takes messages with a length field of at most `limit`, from 64 to 1,073,741,823. It has
    /// the bytes that are kept, and returns the fault that was found, if one was. It takes no memory.
    pub fn into_front(self, limit: u32) -> FrontDecoder
        requires { IsLimit limit }
        ensures value { result ≡ record { kept = self.kept; limit = limit; fault = self.fault } }
        ensures taken { self.fault ≡ None → HasTaken frontend result self.kept [] }
    {
        let FirstDecoder {
            alloc,
            buffer,
            ended: _,
            fault,
        } = self;
        FrontDecoder::resume(alloc, buffer, limit, fault)
    }

    /// A reader of the messages after the first packets, which lends the bytes of each. It takes messages with a length field of at most `limit`,
    /// from 64 to 1,073,741,823. It has the bytes that are kept, and returns the fault that was found, if one was.
    pub fn into_spellings(self, limit: u32) -> Spellings<FrontMessage>
        requires { IsLimit limit }
        ensures stream { result.stream
            ≡ record { kept = self.kept; limit = limit; fault = self.fault } }
        ensures held { result.held ≡ [] }
    {
        let FirstDecoder {
            alloc,
            buffer,
            ended: _,
            fault,
        } = self;
        Spellings::resume(alloc, buffer, limit, fault)
    }
}
