//! Adding bytes to a buffer, and taking them off.

ghost use Rattle.std.specs.Prelude.{◌≡◌, ◌≤◌, ◌<◌, ◌++◌, length, drop, OnErr, OnOk};

use bytes::BytesMut;
use std::alloc::AllocError;

// A buffer that is left empty keeps its room up to so many bytes.
const KEPT_ROOM: usize = 64 * 1024;

// Where there is no room for a piece behind the bytes that are kept, room is made for so many of its size, up to so many bytes.
const PIECES: usize = 4;

const ROOM: usize = 16 * 1024;

/// Adds a piece at the end, all of it. Where memory runs out, the bytes are as they were. A piece without bytes needs no memory.
// a part of each caller: a piece for which there is room costs a comparison and its copy
#[inline(always)]
pub fn append(buffer: &mut BytesMut, piece: &[u8]) -> Result<(), AllocError>
    ensures ok { OnOk result (buffer.new.items ≡ buffer.old.items ++ piece.now) }
    ensures err { OnErr result (buffer.new.items ≡ buffer.old.items) }
    ensures some { OnErr result (0 < length piece.now) }
{
    if buffer.capacity() - buffer.len() < piece.len() {
        return append_with_room(buffer, piece);
    }
    buffer.extend_reserved(piece);
    Ok(())
}

// Adds a piece, and moves what is kept to where there is room for some pieces of its size: so it moves seldom. Where memory runs out for those,
// there may be enough for the one.
#[inline(never)]
fn append_with_room(buffer: &mut BytesMut, piece: &[u8]) -> Result<(), AllocError>
    ensures ok { OnOk result (buffer.new.items ≡ buffer.old.items ++ piece.now) }
    ensures err { OnErr result (buffer.new.items ≡ buffer.old.items) }
    ensures some { OnErr result (0 < length piece.now) }
{
    let room = piece.len().min(ROOM / PIECES) * PIECES;
    if piece.len() < room && !buffer.is_empty() {
        let _ = buffer.reserve(room);
    }
    buffer.extend_from_slice(piece)
}

/// Takes so many bytes off the beginning. A buffer that is left empty gives its room back, if that is more than 64 KiB.
pub fn drop_first(buffer: &mut BytesMut, count: usize)
    requires { count ≤ length buffer.old.items }
    ensures { buffer.new.items ≡ drop count buffer.old.items }
{
    buffer.advance(count);
    if buffer.is_empty() {
        // what was taken is room again
        buffer.clear();
        if buffer.capacity() > KEPT_ROOM {
            let alloc = *buffer.allocator();
            *buffer = BytesMut::new(alloc);
        }
    }
}
