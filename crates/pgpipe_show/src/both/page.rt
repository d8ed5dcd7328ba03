//! Lines.

ghost use Rattle.std.specs.Prelude.{◌≡◌, ◌≤◌, [], length, IfOk, OnOk};
ghost use Rattle.pgpipe_frames.specs.Frames.{fewest};
ghost use Rattle.pgpipe_show.specs.Entries.{IsFrameLine, Message, Reply, arrow, reply_line};
ghost use Rattle.pgpipe_show.specs.Private.Telling.{PutsEntry, PutsText};

use super::turn::BothEnds;
use pg_wire::Sink;
use pgpipe_base::Stop;
use pgpipe_base::outbox::Outbox;
use pgpipe_frames::NextFrame;
use std::alloc::{AllocError, Global};

/// What lines are written with.
#[derive(Drop)]
pub struct Page {
    alloc: Global,
    pub outbox: Outbox,
    // where a line is written before it is put
    line: Vec<u8>,
}

// The arrow before a line.
fn arrow(front: bool) -> &'static [u8]
    ensures { result.now ≡ arrow front }
{
    if front { b"-> " } else { b"<- " }
}

// The line of an answer to a request for encryption.
fn reply_line(byte: u8) -> &'static [u8]
    ensures { result.now ≡ reply_line byte }
{
    match byte {
        b'N' => b"<- N (no encryption)\n",
        b'S' => b"<- S (what follows is encrypted, and can't be read)\n",
        _ => b"<- G (what follows is encrypted, and can't be read)\n",
    }
}

// Writes the line of a frame.
fn write_frame(
    alloc: Global,
    kind: NextFrame,
    front: bool,
    frame: &[u8],
    line: &mut Vec<u8>,
) -> Result<(), AllocError>
    requires { fewest kind ≤ length frame.now }
    ensures { OnOk result (IsFrameLine front (record { kind = kind; bytes = frame.now })
        line.new.items) }
{
    line.clear();
    line.extend_from_slice(arrow(front))?;
    pgpipe_frames::put_frame(alloc, front, kind, frame, line)?;
    line.extend_from_slice(b"\n")
}

// Puts a text.
fn put_text<K: Sink>(text: &[u8], outbox: &mut Outbox, sink: &mut K) -> Result<(), Stop<BothEnds>>
    ensures { PutsText K.takes K.failures outbox.old sink.old text.now result outbox.new sink.new }
{
    match outbox.put_text(text, sink) {
        Ok(()) => Ok(()),
        Err(_) => Err(Stop::SinkFailed),
    }
}

// Puts a line that was written.
fn put_line<K: Sink>(
    line: &Vec<u8>,
    outbox: &mut Outbox,
    sink: &mut K,
) -> Result<(), Stop<BothEnds>>
    ensures { PutsText K.takes K.failures outbox.old sink.old line.now.items result outbox.new
        sink.new }
{
    put_text(line.as_slice(), outbox, sink)
}

impl Page {
    /// A page on which nothing was put.
    pub fn new(alloc: Global) -> Result<Page, AllocError>
        ensures { IfOk result (λ page. page.outbox ≡ []) }
    {
        Ok(Page {
            alloc,
            outbox: Outbox::new(alloc)?,
            line: Vec::new(alloc),
        })
    }

    /// Puts the line of a frame of the client (`front`) or of the server. The line is written whole before it is put.
    pub fn put_frame<K: Sink>(
        &mut self,
        front: bool,
        kind: NextFrame,
        frame: &[u8],
        sink: &mut K,
    ) -> Result<(), Stop<BothEnds>>
        requires { fewest kind ≤ length frame.now }
        ensures { PutsEntry K.takes K.failures self.old.outbox sink.old
            (Message front (record { kind = kind; bytes = frame.now })) result self.new.outbox sink.new }
    {
        match write_frame(self.alloc, kind, front, frame, &mut self.line) {
            Ok(()) => put_line(&self.line, &mut self.outbox, sink),
            Err(_) => Err(Stop::Memory),
        }
    }

    /// Puts the line of an answer to a request for encryption.
    pub fn put_reply<K: Sink>(&mut self, byte: u8, sink: &mut K) -> Result<(), Stop<BothEnds>>
        ensures { PutsEntry K.takes K.failures self.old.outbox sink.old (Reply byte) result
            self.new.outbox sink.new }
    {
        put_text(reply_line(byte), &mut self.outbox, sink)
    }
}
