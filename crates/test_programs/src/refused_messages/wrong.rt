//! What decoders answer for a body that is wrong.

use crate::refused_messages::refused::Refused;
use crate::vectors::LIMIT;
use pg_wire::{BackDecoder, FirstDecoder, FrontDecoder, WireFault};
use std::alloc::Global;
use std::fmt;

/// What a decoder answers once it has all bytes: a fault, or none.
#[derive(Clone, Copy, Debug)]
pub struct Fault(Option<WireFault>);

impl fmt::Display for Fault {
    fn fmt<W: fmt::Write>(&self, f: &mut fmt::Formatter<W>) -> fmt::Result {
        match self.0 {
            Some(fault) => write!(f, "{fault}"),
            None => write!(f, "none"),
        }
    }
}

// Notes whether a push ran out of memory.
fn is_refused(answer: Result<(), WireFault>, refused: &mut Refused) -> bool {
    let memory = matches!(answer, Err(WireFault::Memory));
    refused.push |= memory;
    memory
}

/// The fault of a backend's message.
pub fn back_fault(alloc: Global, bytes: &[u8], refused: &mut Refused) -> Fault {
    let mut decoder = BackDecoder::new(alloc, LIMIT);
    if is_refused(decoder.push(bytes), refused) {
        let _ = decoder.push(bytes);
    }
    Fault(decoder.next().err())
}

/// The fault of a backend's message, where messages are lent.
pub fn lent_fault(alloc: Global, bytes: &[u8], refused: &mut Refused) -> Fault {
    let mut decoder = BackDecoder::new(alloc, LIMIT);
    if is_refused(decoder.push(bytes), refused) {
        let _ = decoder.push(bytes);
    }
    Fault(decoder.next_lent().err())
}

/// The fault of a client's message.
pub fn front_fault(alloc: Global, bytes: &[u8], refused: &mut Refused) -> Fault {
    let mut decoder = FrontDecoder::new(alloc, LIMIT);
    if is_refused(decoder.push(bytes), refused) {
        let _ = decoder.push(bytes);
    }
    Fault(decoder.next().err())
}

/// The fault of a client's first packet.
pub fn first_fault(alloc: Global, bytes: &[u8], refused: &mut Refused) -> Fault {
    let mut decoder = FirstDecoder::new(alloc);
    if is_refused(decoder.push(bytes), refused) {
        let _ = decoder.push(bytes);
    }
    Fault(decoder.next().err())
}
