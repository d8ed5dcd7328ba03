//! What a client's first packets are shown as.

ghost use Rattle.pgpipe_texts.specs.Packet.{packet_text, parameter_text};

use crate::backend::{put_after, put_key, put_name, put_parameter};
use crate::text::Readable;
use pg_wire::{First, Seq};
use std::alloc::AllocError;

/// A parameter of a startup.
impl Readable for (Seq<u8>, Seq<u8>) {
    ghost text = { parameter_text };

    fn put(&self, line: &mut Vec<u8>) -> Result<(), AllocError> {
        put_parameter(&self.0, &self.1, line)
    }
}

impl Readable for First {
    ghost text = { packet_text };

    fn put(&self, line: &mut Vec<u8>) -> Result<(), AllocError> {
        match self {
            First::Startup(parameters) => put_after(b"StartupMessage ", parameters, line),
            First::Cancel { process, .. } => put_key(b"CancelRequest", *process, line),
            First::Ssl => put_name(b"SSLRequest", line),
            First::Gss => put_name(b"GSSENCRequest", line),
        }
    }
}
