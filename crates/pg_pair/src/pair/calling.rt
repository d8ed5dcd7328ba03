//! Calls of the client, and what a pair keeps of them.

ghost use Rattle.std.specs.Prelude.{◌≡◌, ◌≤◌, ◌+◌, ◌++◌, length, OnOk};
ghost use Rattle.std.specs.Vec.{vec_capacity, vec_len};
ghost use Rattle.pg_pair.specs.Calling.{handed_after};
ghost use Rattle.pg_pair.specs.Event.{Applies};
ghost use Rattle.pg_pair.specs.Private.Calling.{answer_with, ClientAnswers, handed_by};
ghost use Rattle.pg_pair.specs.Private.Calling.{HasRoomToPut, IsTakenFor};
ghost use Rattle.pg_pair.specs.Private.Chunks.{HasRoom, list_of};
ghost use Rattle.pg_pair.specs.declared.event.Event.TheVariants as event;

use crate::carry::Carry;
use crate::event::{Applied, PairFault};
use crate::known::known;
use crate::pair::Pair;
use crate::pair::chunks::{add_chunk, make_chunk_room, put_last, take_last};
use pg_client::{Call, CallFault, Client, Settled};
use pg_wire::{Request, Seq};
use std::alloc::{AllocError, Global};

// What a pair keeps of a call that its client has accepted.
#[derive(Drop)]
enum Kept {
    // Its place alone.
    Place,
    // The request's chunks, of which there are none yet.
    Request,
    // A chunk of the last request's.
    Chunk(Seq<u8>),
}

// What is kept of a call that makes no request, by what the client returned.
fn answer_with(
    answer: Result<(), CallFault>,
    kept: Kept,
) -> Result<Kept, (Option<Request>, CallFault)>
    ensures { result ≡ answer_with answer kept }
{
    match answer {
        Ok(()) => Ok(kept),
        Err(fault) => Err((None, fault)),
    }
}

// Calls the client. A request that it rejects is handed back.
fn call_client(
    client: &mut Client,
    call: Call,
    out: &mut Vec<u8>,
) -> Result<Kept, (Option<Request>, CallFault)>
    ensures { ClientAnswers call client.old out.old.items result client.new out.new.items }
{
    match call {
        Call::Start => answer_with(client.start(out), Kept::Place),
        Call::Request(request) => match client.request(request, out) {
            Ok(()) => Ok(Kept::Request),
            Err((request, fault)) => Err((Some(request), fault)),
        },
        Call::Chunk(bytes) => {
            let answer = client.copy_chunk(bytes.as_slice(), out);
            answer_with(answer, Kept::Chunk(bytes))
        }
        Call::Done => answer_with(client.copy_done(out), Kept::Place),
        Call::Fail(reason) => {
            let answer = client.copy_fail(reason.as_slice(), out);
            answer_with(answer, Kept::Place)
        }
        Call::Terminate => answer_with(client.terminate(out), Kept::Place),
    }
}

// Takes the last request's chunks out, where the call is one more of them.
fn take_chunks(call: &Call, handed: &mut Vec<Seq<Seq<u8>>>) -> Option<Vec<Seq<u8>>>
    ensures lists { handed.old.items ≡ handed.new.items ++ list_of result }
    ensures after { handed_after call.now handed.old.items
        ≡ handed.new.items ++ handed_after call.now (list_of result) }
    ensures taken { IsTakenFor call.now result }
    ensures back { vec_len handed.new + length (list_of result) ≤ vec_capacity handed.new }
{
    match call {
        Call::Chunk(_) => take_last(handed),
        _ => None,
    }
}

// Makes room for what is kept of a call. A chunk needs it among those that were taken out, and a request for a list of chunks and its settled group.
fn make_room(
    call: &Call,
    chunks: &mut Option<Vec<Seq<u8>>>,
    handed: &mut Vec<Seq<Seq<u8>>>,
    settled: &mut Vec<Settled>,
) -> Result<(), AllocError>
    requires taken { IsTakenFor call.now chunks.old }
    requires back { HasRoomToPut (list_of chunks.old) handed.old settled.old }
    ensures chunks { list_of chunks.new ≡ list_of chunks.old }
    ensures handed { handed.new.items ≡ handed.old.items }
    ensures settled { settled.new.items ≡ settled.old.items }
    ensures back { HasRoomToPut (list_of chunks.new) handed.new settled.new }
    ensures ok { OnOk result (HasRoom chunks.new) }
    ensures after { OnOk result
        (HasRoomToPut (handed_after call.now (list_of chunks.new)) handed.new settled.new) }
{
    make_chunk_room(chunks)?;
    if let Call::Request(_) = call {
        let more = (handed.len() + 1).saturating_sub(settled.len());
        handed.reserve(1)?;
        settled.reserve(more)?;
    }
    Ok(())
}

// Puts back the chunks that were taken out, with what is kept of the call.
fn put_chunks(
    alloc: Global,
    handed: &mut Vec<Seq<Seq<u8>>>,
    mut chunks: Option<Vec<Seq<u8>>>,
    kept: Kept,
)
    requires chunk { HasRoom chunks }
    requires room { vec_len handed.old + length (handed_by kept (list_of chunks))
        ≤ vec_capacity handed.old }
    ensures { handed.new.items ≡ handed.old.items ++ handed_by kept (list_of chunks) }
{
    match kept {
        Kept::Place => put_last(handed, chunks),
        Kept::Request => {
            put_last(handed, chunks);
            handed.push_reserved(Seq::new(Vec::new(alloc)));
        }
        Kept::Chunk(bytes) => {
            add_chunk(&mut chunks, bytes);
            put_last(handed, chunks);
        }
    }
}

impl<C: Carry> Pair<C> {
    // Calls the client. Room for what is kept of the call is made before, so that nothing is sent of which the pair couldn't keep what it needs.
    pub(crate) fn call(&mut self, call: Call) -> Result<Applied, PairFault>
        ensures { Applies C.carries (event.Call call) self.old result self.new }
    {
        known();
        let mut chunks = take_chunks(&call, &mut self.handed);
        if self.fed_before.reserve(1).is_err()
            || make_room(&call, &mut chunks, &mut self.handed, &mut self.settled).is_err()
        {
            put_last(&mut self.handed, chunks);
            return Err(self.give_up());
        }
        match call_client(&mut self.client, call, &mut self.to_backend.sent) {
            Ok(kept) => {
                self.fed_before.push_reserved(self.to_client.reached);
                put_chunks(self.alloc, &mut self.handed, chunks, kept);
                Ok(Applied::Done)
            }
            Err((request, fault)) => {
                put_last(&mut self.handed, chunks);
                Ok(Applied::Refused { request, fault })
            }
        }
    }
}
