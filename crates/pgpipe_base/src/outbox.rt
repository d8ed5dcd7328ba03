//! Text that is collected and then sent in large pieces.

ghost use Rattle.std.specs.Prelude.{◌≡◌, ◌≤◌, ◌+◌, ◌*◌, ◌++◌, [], length, ◌∷◌, OnOk, IfOk};
ghost use Rattle.std.specs.Fmt.{decimal};
ghost use Rattle.hex.specs.Hex.{encode_lower};
ghost use Rattle.pgpipe_base.specs.Outbox.{body_text, line_of, most_collected, Puts};

use crate::hexadecimal::write_hexadecimal;
use pg_wire::{LinkFault, Sink};
use std::alloc::{AllocError, Global};
use std::marker::Model;

/// The most bytes that are collected before they are sent.
pub const ROOM: usize = 65_536;

// The most bytes before a line's hexadecimal: a name of 7 letters, a number of 10 digits, and a space after each.
const LONGEST_HEAD: usize = 7 + 1 + 10 + 1;

/// Sends all the bytes. Where the sink fails, a prefix of them was sent.
pub fn send_all<K: Sink>(bytes: &[u8], sink: &mut K) -> Result<(), LinkFault>
    ensures { Puts K.takes K.failures bytes.now sink.old [] result [] sink.new }
{
    pg_wire::send_all(bytes, sink)
}

/// Sends all that stands in a buffer, and empties it. Where the sink fails, a prefix of it was sent.
pub fn send<K: Sink>(buf: &mut Vec<u8>, sink: &mut K) -> Result<(), LinkFault>
    ensures puts { Puts K.takes K.failures buf.old.items sink.old [] result buf.new.items sink.new }
    ensures nothing_left { OnOk result (buf.new.items ≡ []) }
{
    send_all(buf.as_slice(), sink)?;
    buf.clear();
    Ok(())
}

/// Collects text, and sends it in large pieces. Only `new` takes memory.
#[derive(Drop)]
pub struct Outbox {
    buf: Vec<u8>,
    filled: usize,
}

impl Model for Outbox {
    ghost use Rattle.std.specs.Prelude.{◌≡◌, ◌≤◌, ℕ, List, take, vec_len};
    ghost use Rattle.pgpipe_base.specs.Outbox.{most_collected};

    ghost Value = { List ℕ };

    ghost view = { λ o. take o.filled o.buf.items };

    ghost invariant = { λ o. (o.filled ≤ most_collected) × (vec_len o.buf ≡ most_collected) };
}

impl Outbox {
    /// An outbox in which nothing is collected. It fails where memory runs out.
    pub fn new(alloc: Global) -> Result<Outbox, AllocError>
        ensures { IfOk result (λ o. o ≡ []) }
    {
        Ok(Outbox {
            buf: vec![in alloc; 0; ROOM]?,
            filled: 0,
        })
    }

    /// What is collected and not sent yet.
    pub fn collected(&self) -> &[u8]
        ensures { result.now ≡ self.now }
    {
        &self.buf[..self.filled]
    }

    /// Sends all that was collected. Where the sink fails, a prefix of it was sent.
    pub fn flush<K: Sink>(&mut self, sink: &mut K) -> Result<(), LinkFault>
        ensures puts { Puts K.takes K.failures self.old sink.old [] result self.new sink.new }
        ensures nothing_left { OnOk result (self.new ≡ []) }
    {
        send_all(&self.buf[..self.filled], sink)?;
        self.filled = 0;
        Ok(())
    }

    // Sends what was collected, unless there is room for so many bytes.
    fn make_room<K: Sink>(&mut self, size: usize, sink: &mut K) -> Result<(), LinkFault>
        requires { size ≤ most_collected }
        ensures puts { Puts K.takes K.failures self.old sink.old [] result self.new sink.new }
        ensures room { OnOk result (length self.new + size ≤ most_collected) }
    {
        if ROOM - self.filled < size {
            return self.flush(sink);
        }
        Ok(())
    }

    // Collects bytes for which there is room.
    fn put(&mut self, bytes: &[u8])
        requires { length self.old + length bytes.now ≤ most_collected }
        ensures { self.new ≡ self.old ++ bytes.now }
    {
        let end = self.filled + bytes.len();
        self.buf[self.filled..end].copy_from_slice(bytes);
        self.filled = end;
    }

    // Collects bytes in hexadecimal, for which there is room.
    fn put_hexadecimal(&mut self, bytes: &[u8])
        requires { length self.old + 2 * length bytes.now ≤ most_collected }
        ensures { self.new ≡ self.old ++ encode_lower bytes.now }
    {
        let end = self.filled + 2 * bytes.len();
        write_hexadecimal(bytes, &mut self.buf[self.filled..end]);
        self.filled = end;
    }

    // How many bytes more can be collected.
    fn room(&self) -> usize
        ensures { result + length self.now ≡ most_collected }
    {
        ROOM - self.filled
    }

    // Puts bytes in hexadecimal, however many.
    fn put_all<K: Sink>(&mut self, bytes: &[u8], sink: &mut K) -> Result<(), LinkFault>
        ensures { Puts K.takes K.failures self.old sink.old
            (encode_lower bytes.now) result self.new sink.new }
    {
        let mut rest = bytes;
        while !rest.is_empty() {
            self.make_room(2, sink)?;
            let (now, later) = rest.split_at(rest.len().min(self.room() / 2));
            self.put_hexadecimal(now);
            rest = later;
        }
        Ok(())
    }

    // Puts bytes, or a mark for none.
    fn put_body<K: Sink>(&mut self, bytes: &[u8], sink: &mut K) -> Result<(), LinkFault>
        ensures { Puts K.takes K.failures self.old sink.old
            (body_text bytes.now) result self.new sink.new }
    {
        if bytes.is_empty() {
            self.make_room(1, sink)?;
            self.put(b"-");
            return Ok(());
        }
        self.put_all(bytes, sink)
    }

    // Puts what stands before the bytes: the name and the length.
    fn put_head<K: Sink>(&mut self, name: &[u8], size: u32, sink: &mut K) -> Result<(), LinkFault>
        requires { length name.now ≤ 7 }
        ensures { Puts K.takes K.failures self.old sink.old (name.now ++ (32 ∷ []) ++ decimal size
            ++ (32 ∷ [])) result self.new sink.new }
    {
        let mut digits = itoa::Buffer::new();
        self.make_room(LONGEST_HEAD, sink)?;
        self.put(name);
        self.put(b" ");
        self.put(digits.format(size).as_bytes());
        self.put(b" ");
        Ok(())
    }

    // Sends what was collected, and a text after it.
    fn send_after<K: Sink>(&mut self, text: &[u8], sink: &mut K) -> Result<(), LinkFault>
        ensures puts { Puts K.takes K.failures self.old sink.old text.now result self.new sink.new }
        ensures within { OnOk result (length self.new ≤ most_collected) }
    {
        self.flush(sink)?;
        send_all(text, sink)
    }

    // Puts a text that isn't longer than there may be room for.
    fn put_within<K: Sink>(&mut self, text: &[u8], sink: &mut K) -> Result<(), LinkFault>
        requires { length text.now ≤ most_collected }
        ensures puts { Puts K.takes K.failures self.old sink.old text.now result self.new sink.new }
        ensures within { OnOk result (length self.new ≤ most_collected) }
    {
        self.make_room(text.len(), sink)?;
        self.put(text);
        Ok(())
    }

    /// Puts a text, however long. Where the sink fails, a prefix of what was collected and of the text was sent.
    pub fn put_text<K: Sink>(&mut self, text: &[u8], sink: &mut K) -> Result<(), LinkFault>
        ensures puts { Puts K.takes K.failures self.old sink.old text.now result self.new sink.new }
        ensures within { OnOk result (length self.new ≤ most_collected) }
    {
        if text.len() > ROOM {
            self.send_after(text, sink)
        } else {
            self.put_within(text, sink)
        }
    }

    /// Puts the line for a name, a length and bytes. Where the sink fails, a prefix of what was collected and of the line was sent.
    pub fn put_line<K: Sink>(
        &mut self,
        name: &[u8],
        size: u32,
        bytes: &[u8],
        sink: &mut K,
    ) -> Result<(), LinkFault>
        requires { length name.now ≤ 7 }
        ensures puts { Puts K.takes K.failures self.old sink.old
            (line_of name.now size bytes.now) result self.new sink.new }
        ensures within { OnOk result (length self.new ≤ most_collected) }
    {
        self.put_head(name, size, sink)?;
        self.put_body(bytes, sink)?;
        self.make_room(1, sink)?;
        self.put(b"\n");
        Ok(())
    }
}
