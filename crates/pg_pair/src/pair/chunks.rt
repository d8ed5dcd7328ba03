//! The last request's chunks, taken out of the others so that they can grow.

ghost use Rattle.std.specs.Prelude.{◌≡◌, ◌≤◌, ◌+◌, ◌++◌, [], length, OnOk};
ghost use Rattle.std.specs.Vec.{vec_capacity, vec_len};
ghost use Rattle.pg_pair.specs.Calling.{add_to_last};
ghost use Rattle.pg_pair.specs.Private.Chunks.{HasRoom, list_of};

use pg_wire::Seq;
use std::alloc::AllocError;

// Takes the last list out.
pub(crate) fn take_last(lists: &mut Vec<Seq<Seq<u8>>>) -> Option<Vec<Seq<u8>>>
    ensures lists { lists.old.items ≡ lists.new.items ++ list_of result }
    ensures none { list_of result ≡ [] → lists.new.items ≡ [] }
    ensures room { vec_len lists.new + length (list_of result) ≤ vec_capacity lists.new }
{
    match lists.pop() {
        Some(last) => Some(last.into_vec()),
        None => None,
    }
}

// Puts back the list that was taken out, as the last one.
pub(crate) fn put_last(lists: &mut Vec<Seq<Seq<u8>>>, last: Option<Vec<Seq<u8>>>)
    requires { vec_len lists.old + length (list_of last) ≤ vec_capacity lists.old }
    ensures items { lists.new.items ≡ lists.old.items ++ list_of last }
    ensures capacity { vec_capacity lists.new ≡ vec_capacity lists.old }
{
    if let Some(chunks) = last {
        lists.push_reserved(Seq::new(chunks));
    }
}

// Makes room for one more chunk in the list that was taken out.
pub(crate) fn make_chunk_room(last: &mut Option<Vec<Seq<u8>>>) -> Result<(), AllocError>
    ensures same { list_of last.new ≡ list_of last.old }
    ensures ok { OnOk result (HasRoom last.new) }
{
    match last {
        Some(chunks) => chunks.reserve(1),
        None => Ok(()),
    }
}

// Adds a chunk to the list that was taken out.
pub(crate) fn add_chunk(last: &mut Option<Vec<Seq<u8>>>, chunk: Seq<u8>)
    requires { HasRoom last.old }
    ensures { list_of last.new ≡ add_to_last chunk (list_of last.old) }
{
    if let Some(chunks) = last {
        chunks.push_reserved(chunk);
    }
}
