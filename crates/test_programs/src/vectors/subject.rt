//! What a vector is tried on: a decoder, and the encoder of what it gives.

use crate::vectors::LIMIT;
use pg_wire::{
    BackDecoder, BackMessage, Cut, Decoder, EncodeFault, Fields, FieldsView, First, FirstDecoder,
    FrontMessage, Lent, Message, RowView, Values, WireFault, backend, frontend,
};
use std::alloc::{AllocError, Global};
use std::fmt;
use std::fmt::Debug;

/// A message as the output has it.
pub trait ShownMessage {
    /// Writes it as `{:?}` does, but for a password: of a vector it is written too.
    fn show<W: fmt::Write>(&self, f: &mut fmt::Formatter<W>) -> fmt::Result
    where
        Self: Sized;
}

impl ShownMessage for BackMessage {
    fn show<W: fmt::Write>(&self, f: &mut fmt::Formatter<W>) -> fmt::Result {
        fmt::Debug::fmt(self, f)
    }
}

impl ShownMessage for FrontMessage {
    fn show<W: fmt::Write>(&self, f: &mut fmt::Formatter<W>) -> fmt::Result {
        match self {
            FrontMessage::Password(text) => f.debug_tuple("Password").field(text).finish(),
            _ => fmt::Debug::fmt(self, f),
        }
    }
}

impl ShownMessage for First {
    fn show<W: fmt::Write>(&self, f: &mut fmt::Formatter<W>) -> fmt::Result {
        fmt::Debug::fmt(self, f)
    }
}

/// A decoder, and the encoder of what it gives.
pub trait Subject: Drop {
    type Item: Debug + PartialEq + Drop;

    /// A decoder that was given nothing yet.
    fn begin(alloc: Global) -> Self
    where
        Self: Sized;

    fn push(&mut self, piece: &[u8]) -> Result<(), WireFault>;

    fn next(&mut self) -> Result<Option<Self::Item>, WireFault>;

    fn kept(&self) -> usize;

    /// Encodes what was given.
    fn encode(item: &Self::Item, buf: &mut Vec<u8>) -> Result<(), EncodeFault>;
}

impl<M: Message + Debug + PartialEq> Subject for Decoder<M> {
    type Item = M;

    fn begin(alloc: Global) -> Decoder<M> {
        Decoder::new(alloc, LIMIT)
    }

    fn push(&mut self, piece: &[u8]) -> Result<(), WireFault> {
        Decoder::push(self, piece)
    }

    fn next(&mut self) -> Result<Option<M>, WireFault> {
        Decoder::next(self)
    }

    fn kept(&self) -> usize {
        Decoder::kept(self)
    }

    fn encode(message: &M, buf: &mut Vec<u8>) -> Result<(), EncodeFault> {
        message.encode(buf)
    }
}

impl Subject for FirstDecoder {
    type Item = First;

    fn begin(alloc: Global) -> FirstDecoder {
        FirstDecoder::new(alloc)
    }

    fn push(&mut self, piece: &[u8]) -> Result<(), WireFault> {
        FirstDecoder::push(self, piece)
    }

    fn next(&mut self) -> Result<Option<First>, WireFault> {
        FirstDecoder::next(self)
    }

    fn kept(&self) -> usize {
        FirstDecoder::kept(self)
    }

    fn encode(packet: &First, buf: &mut Vec<u8>) -> Result<(), EncodeFault> {
        frontend::encode_first(packet, buf)
    }
}

impl Subject for BackDecoder {
    type Item = BackMessage;

    fn begin(alloc: Global) -> BackDecoder {
        BackDecoder::new(alloc, LIMIT)
    }

    fn push(&mut self, piece: &[u8]) -> Result<(), WireFault> {
        BackDecoder::push(self, piece)
    }

    fn next(&mut self) -> Result<Option<BackMessage>, WireFault> {
        BackDecoder::next(self)
    }

    fn kept(&self) -> usize {
        BackDecoder::kept(self)
    }

    fn encode(message: &BackMessage, buf: &mut Vec<u8>) -> Result<(), EncodeFault> {
        backend::encode(message, buf)
    }
}

// The values of a row that is lent.
fn values_of(alloc: Global, row: &RowView<'_>) -> Result<BackMessage, AllocError> {
    match Values::of_row(alloc, row) {
        Ok(values) => Ok(BackMessage::DataRow(values)),
        Err(_) => Err(AllocError),
    }
}

// The fields of an error or a notice that is lent.
fn fields_of(alloc: Global, lent: &FieldsView<'_>) -> Result<Fields, AllocError> {
    Fields::of_view(alloc, lent).map_err(|_| AllocError)
}

// What is lent, copied.
fn copied(alloc: Global, lent: &Lent<'_>) -> Result<BackMessage, AllocError> {
    match lent {
        Lent::Row(row) => values_of(alloc, row),
        Lent::Error(fields) => Ok(BackMessage::ErrorResponse(fields_of(alloc, fields)?)),
        Lent::Notice(fields) => Ok(BackMessage::NoticeResponse(fields_of(alloc, fields)?)),
    }
}

// The next message, copied where it is lent. None is lent where the decoder says that it holds one and doesn't.
fn next_copied(alloc: Global, decoder: &mut BackDecoder) -> Result<Option<BackMessage>, WireFault> {
    match decoder.next_lent()? {
        Cut::Nothing => Ok(None),
        Cut::Other(message) => Ok(Some(message)),
        Cut::Held => match decoder.held() {
            None => Ok(None),
            Some(lent) => Ok(Some(copied(alloc, &lent)?)),
        },
    }
}

/// A decoder whose rows, errors and notices are lent: all of them, or every other one.
#[derive(Drop)]
pub struct Lending<const ALL: bool> {
    alloc: Global,
    decoder: BackDecoder,
    lends: bool,
}

impl<const ALL: bool> Subject for Lending<ALL> {
    type Item = BackMessage;

    fn begin(alloc: Global) -> Lending<ALL> {
        Lending {
            alloc,
            decoder: BackDecoder::new(alloc, LIMIT),
            lends: false,
        }
    }

    fn push(&mut self, piece: &[u8]) -> Result<(), WireFault> {
        self.decoder.push(piece)
    }

    fn next(&mut self) -> Result<Option<BackMessage>, WireFault> {
        self.lends = ALL || !self.lends;
        if self.lends {
            next_copied(self.alloc, &mut self.decoder)
        } else {
            self.decoder.next()
        }
    }

    fn kept(&self) -> usize {
        self.decoder.kept()
    }

    fn encode(message: &BackMessage, buf: &mut Vec<u8>) -> Result<(), EncodeFault> {
        backend::encode(message, buf)
    }
}
