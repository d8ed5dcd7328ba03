//! What a decoder makes of the bytes of a vector, however they are cut, and an encoder of the message.

use crate::byte_cut::ByteCut;
use crate::vectors::subject::{ShownMessage, Subject};
use pg_wire::{EncodeFault, WireFault};
use std::alloc::Global;
use std::fmt;
use thiserror::Error;

/// What a decoder answers for the bytes of a vector.
#[derive(Debug, PartialEq, Drop)]
pub enum Decoded<M> {
    /// More bytes are to come.
    Open,
    Message(M),
    Refused(WireFault),
}

impl<M: ShownMessage> fmt::Display for Decoded<M> {
    fn fmt<W: fmt::Write>(&self, f: &mut fmt::Formatter<W>) -> fmt::Result {
        match self {
            Decoded::Open => write!(f, "open"),
            Decoded::Message(message) => {
                f.write_str("ok ")?;
                message.show(f)
            }
            Decoded::Refused(fault) => write!(f, "bad {fault}"),
        }
    }
}

/// What a decoder or an encoder did wrong.
#[derive(Clone, Copy, Debug, Error)]
pub enum Flaw {
    #[error("{0}: an answer came before the last byte")]
    Early(ByteCut),
    #[error("{0}: the decoder keeps {1} bytes")]
    Keeps(ByteCut, usize),
    #[error("{0}: the decoder answers something else after the last byte")]
    Unsteady(ByteCut),
    #[error("{0}: the reading is not that of one piece")]
    Differs(ByteCut),
    #[error("the reading is another where messages are lent")]
    Lent,
    #[error("the message is not encoded: {0}")]
    Unwritten(EncodeFault),
    #[error("the message is encoded as other bytes")]
    Respelled,
    #[error("out of memory")]
    Memory,
}

// The reading of what a decoder answers next.
fn decoded_of<M>(answer: Result<Option<M>, WireFault>) -> Result<Decoded<M>, Flaw> {
    match answer {
        Ok(None) => Ok(Decoded::Open),
        Ok(Some(message)) => Ok(Decoded::Message(message)),
        Err(WireFault::Memory) => Err(Flaw::Memory),
        Err(fault) => Ok(Decoded::Refused(fault)),
    }
}

// What the decoder answers once it has this piece too.
fn feed<D: Subject>(decoder: &mut D, piece: &[u8]) -> Result<Decoded<D::Item>, Flaw> {
    match decoder.push(piece) {
        Ok(()) => decoded_of(decoder.next()),
        Err(fault) => decoded_of(Err(fault)),
    }
}

// Gives the decoder a piece after which more is to come, so that it has no answer yet and keeps all that it was given.
fn feed_part<D: Subject>(decoder: &mut D, piece: &[u8], cut: ByteCut) -> Result<(), Flaw> {
    let before = decoder.kept();
    match feed(decoder, piece)? {
        Decoded::Open if before.checked_add(piece.len()) == Some(decoder.kept()) => Ok(()),
        Decoded::Open => Err(Flaw::Keeps(cut, decoder.kept())),
        _ => Err(Flaw::Early(cut)),
    }
}

// What a new decoder answers with the last of the bytes, and not before.
fn read<D: Subject>(decoder: &mut D, bytes: &[u8], cut: ByteCut) -> Result<Decoded<D::Item>, Flaw> {
    match cut {
        ByteCut::Nowhere => feed(decoder, bytes),
        ByteCut::At(place) => {
            let (first, second) = bytes.split_at_checked(place).unwrap_or((bytes, &[]));
            feed_part(decoder, first, cut)?;
            feed(decoder, second)
        }
        ByteCut::Everywhere => match bytes.split_last() {
            None => feed(decoder, bytes),
            Some((last, before)) => {
                for byte in before {
                    feed_part(decoder, &[*byte], cut)?;
                }
                feed(decoder, &[*last])
            }
        },
    }
}

// Demands that the decoder keeps nothing after a message, and answers a fault for good.
fn check_end<D: Subject>(
    decoder: &mut D,
    found: &Decoded<D::Item>,
    len: usize,
    cut: ByteCut,
) -> Result<(), Flaw> {
    let (kept, later) = match found {
        Decoded::Open => (len, Decoded::Open),
        Decoded::Message(_) => (0, Decoded::Open),
        Decoded::Refused(fault) => (len, Decoded::Refused(*fault)),
    };
    if decoder.kept() != kept {
        return Err(Flaw::Keeps(cut, decoder.kept()));
    }
    if decoded_of(decoder.next())? != later || feed(decoder, &[])? != later {
        return Err(Flaw::Unsteady(cut));
    }
    Ok(())
}

// Reads the bytes by a new decoder.
fn read_cut<D: Subject>(
    alloc: Global,
    bytes: &[u8],
    cut: ByteCut,
) -> Result<Decoded<D::Item>, Flaw> {
    let mut decoder = D::begin(alloc);
    let found = read(&mut decoder, bytes, cut)?;
    check_end(&mut decoder, &found, bytes.len(), cut)?;
    Ok(found)
}

// Demands that the encoder writes the message as these bytes.
fn check_spelling<D: Subject>(alloc: Global, message: &D::Item, bytes: &[u8]) -> Result<(), Flaw> {
    let mut written = Vec::new(alloc);
    match D::encode(message, &mut written) {
        Ok(()) if written.as_slice() == bytes => Ok(()),
        Ok(()) => Err(Flaw::Respelled),
        Err(EncodeFault::Memory) => Err(Flaw::Memory),
        Err(fault) => Err(Flaw::Unwritten(fault)),
    }
}

/// The one reading of the bytes, whole and however they are cut. A message is encoded as the very bytes.
pub fn judge<D: Subject>(alloc: Global, bytes: &[u8]) -> Result<Decoded<D::Item>, Flaw> {
    let whole = read_cut::<D>(alloc, bytes, ByteCut::Nowhere)?;
    if read_cut::<D>(alloc, bytes, ByteCut::Everywhere)? != whole {
        return Err(Flaw::Differs(ByteCut::Everywhere));
    }
    for place in 0..bytes.len() {
        if read_cut::<D>(alloc, bytes, ByteCut::At(place))? != whole {
            return Err(Flaw::Differs(ByteCut::At(place)));
        }
    }
    if let Decoded::Message(message) = &whole {
        check_spelling::<D>(alloc, message, bytes)?;
    }
    Ok(whole)
}
