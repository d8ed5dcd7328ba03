//! What is read of a frame.

ghost use Rattle.std.specs.Prelude.{◌≡◌, ◌≤◌, ◌==◌, if◌then◌else◌, false, IfOk, None, Some, length};
ghost use Rattle.pg_wire.specs.Decoder.{IsLasting};
ghost use Rattle.pg_wire.specs.Message.{JudgesBody};
ghost use Rattle.pgpipe_frames.specs.Reading.{IsReadAs, IsPacketReadAs, tag_of, body_of};

use pg_wire::{BodyFault, First, FirstDecoder, Message, WireFault};
use std::alloc::{AllocError, Global};

/// Whether a frame is a message of this direction. It takes no memory.
pub fn is_message<M: Message>(frame: &[u8]) -> bool
    requires { 5 ≤ length frame.now }
    ensures { JudgesBody M.direction (tag_of frame.now) (body_of frame.now) result }
{
    M::is_message(frame[0], &frame[5..])
}

/// The message of this direction that a frame is; None where its tag or its body isn't of the tables. The error is that memory ran out.
pub fn read_message<M: Message>(alloc: Global, frame: &[u8]) -> Result<Option<M>, AllocError>
    requires { 5 ≤ length frame.now }
    ensures { IfOk result (IsReadAs M.direction frame.now) }
{
    match M::of_body(alloc, frame[0], &frame[5..]) {
        Ok(message) => Ok(Some(message)),
        Err(BodyFault::Bad) => Ok(None),
        Err(BodyFault::Memory) => Err(AllocError),
    }
}

// A decoder of first packets that was given just these bytes.
fn decoder_of(alloc: Global, frame: &[u8]) -> Result<FirstDecoder, AllocError>
    ensures { IfOk result (λ decoder. decoder
        ≡ record { kept = frame.now; ended = false; fault = None }) }
{
    let mut decoder = FirstDecoder::new(alloc);
    match decoder.push(frame) {
        Ok(()) => Ok(decoder),
        Err(_) => Err(AllocError),
    }
}

// The packet, where no bytes are left after it.
fn if_whole(packet: First, left: usize) -> Option<First>
    ensures { result ≡ (if left == 0 then Some packet else None) }
{
    if left == 0 { Some(packet) } else { None }
}

// What a decoder's fault means: there is no packet, or memory ran out.
fn if_fault(fault: WireFault) -> Result<Option<First>, AllocError>
    ensures { IfOk result (λ packet. (packet ≡ None) × IsLasting (Some fault)) }
{
    match fault {
        WireFault::Memory => Err(AllocError),
        _ => Ok(None),
    }
}

// The packet that all bytes of a decoder are.
fn only_packet(decoder: FirstDecoder) -> Result<Option<First>, AllocError>
    requires ended { decoder.ended ≡ false }
    requires fault { decoder.fault ≡ None }
    ensures { IfOk result (IsPacketReadAs decoder.kept) }
{
    let mut decoder = decoder;
    match decoder.next() {
        Ok(Some(packet)) => {
            let left = decoder.kept();
            Ok(if_whole(packet, left))
        }
        Ok(None) => Ok(None),
        Err(fault) => if_fault(fault),
    }
}

/// The first packet that a frame is; None where its code or what follows isn't of the tables. The error is that memory ran out.
pub fn read_packet(alloc: Global, frame: &[u8]) -> Result<Option<First>, AllocError>
    ensures { IfOk result (IsPacketReadAs frame.now) }
{
    match decoder_of(alloc, frame) {
        Ok(decoder) => only_packet(decoder),
        Err(error) => Err(error),
    }
}
