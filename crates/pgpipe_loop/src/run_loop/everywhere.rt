//! A loop that is run again for each byte of each way, with that way cut after it.

ghost use Rattle.std.specs.Prelude.{◌≡◌, List, ℕ, IfOk, Ok, OnOk};
ghost use Rattle.std.specs.List.{FoldsTo, concat};
ghost use Rattle.pg_pair.specs.declared.event.Applied.{Applied};
ghost use Rattle.pg_pair.specs.Event.{Applies};
ghost use Rattle.pg_pair.specs.Laws.{break_of};
ghost use Rattle.pg_wire.specs.Link.{HasRisen};
ghost use Rattle.pgpipe_base.specs.Receiving.{CountsNoFailure};
ghost use Rattle.pgpipe_loop.specs.Everywhere.{AreBroken, BreaksAnswer, FillsIn};
ghost use Rattle.pgpipe_loop.specs.Everywhere.{IsBrokenEverywhere, IsLeftAt, IsLeftBy, IsPlayable};
ghost use Rattle.pgpipe_loop.specs.Everywhere.{Says, broken_as, broken_text};

use super::places::{Broken, Place, break_of, broken_as, first_unseen, places_of, put_places_line};
use super::wire::{CutWire, Unread};
use super::{Running, send_lines};
use crate::lines::{LineBuffer, put_each_line};
use pg_backend::Script;
use pg_pair::{Carry, Direct, Pair};
use pg_wire::{Seq, Sink};
use pgpipe_base::ToolFault;
use pgpipe_files::{Calls, read_calls, read_script};
use std::alloc::{AllocError, Global};

/// The bytes of a loop's files. They are read anew for each run.
#[derive(Drop)]
pub struct LoopFiles {
    /// SCRIPT.
    pub script: Seq<u8>,
    /// CALLS.
    pub calls: Seq<u8>,
    /// The files that CALLS names, in order.
    pub named: Seq<Seq<u8>>,
}

// Fills in the files that the calls name. Where they name fewer files than are given, it fails as where memory runs out. The calls are lent, since an
// owned value would be dropped on each way out of the loop, and each drop is proved.
fn fill_in(alloc: Global, calls: &mut Calls, named: &[Seq<u8>]) -> Result<(), AllocError>
    ensures { OnOk result (FillsIn calls.old named.now calls.new) }
{
    for bytes in named {
        if calls.next_file().is_none() {
            return Err(AllocError);
        }
        calls.fill(alloc, bytes.as_slice())?;
    }
    Ok(())
}

// Breaks the way of this place, and says what the loop has come to that has left the pair. The pair is lent, so that no answer is dropped beside it.
fn break_at<C: Carry>(pair: &mut Pair<C>, place: Place) -> Result<Broken, AllocError>
    ensures { IfOk result (λ broken. (answer : Applied)
        × Applies C.carries (break_of place.way) pair.old (Ok answer) pair.new
        × (broken ≡ broken_as place pair.new)) }
{
    match pair.apply(break_of(place.way)) {
        Ok(_) => Ok(broken_as(place, pair)),
        Err(_) => Err(AllocError),
    }
}

impl LoopFiles {
    // The script and the calls. Each can be read, so only memory can run out.
    fn read(&self, alloc: Global) -> Result<(Script, Calls), AllocError>
        ensures { IfOk result (λ said. Says self.now said.0 said.1) }
    {
        let script = read_script(alloc, self.script.as_slice()).map_err(|_| AllocError)?;
        let mut calls = read_calls(alloc, self.calls.as_slice()).map_err(|_| AllocError)?;
        fill_in(alloc, &mut calls, self.named.as_slice())?;
        Ok((script, calls))
    }

    // The pair that the loop leaves over this carrier, once all its lines are done.
    fn left_by<C: Carry>(&self, alloc: Global, cut: u32, carrier: C) -> Result<Pair<C>, AllocError>
        requires { IsPlayable self.now }
        ensures { IfOk result (IsLeftBy cut self.now C.carries carrier) }
    {
        let (script, calls) = self.read(alloc)?;
        let Calls { settings, lines } = calls;
        let mut running = Running {
            alloc,
            pair: Pair::new(alloc, settings, script, carrier),
            carrier_failed: false,
        };
        match running.lines(lines, cut, false, &mut Unread) {
            Ok(_) => {
                let Running { pair, .. } = running;
                Ok(pair)
            }
            // Nothing is sent, so only memory can run out.
            Err(_) => Err(AllocError),
        }
    }

    // What the loop has come to where it is broken in this place: its wire is cut there, and at the end the way breaks.
    fn broken_at(&self, alloc: Global, cut: u32, place: Place) -> Result<Broken, AllocError>
        requires { IsPlayable self.now }
        ensures { IfOk result (IsLeftAt cut self.now place) }
    {
        let mut pair = self.left_by(alloc, cut, CutWire::new(place))?;
        let broken = break_at(&mut pair, place);
        drop(pair);
        broken
    }

    // What the loop has come to in each of these places.
    fn broken_in(
        &self,
        alloc: Global,
        cut: u32,
        places: &[Place],
    ) -> Result<Vec<Broken>, AllocError>
        requires { IsPlayable self.now }
        ensures { IfOk result (λ all. AreBroken cut self.now places.now all.items) }
    {
        let mut all = Vec::new(alloc);
        for place in places {
            all.push(self.broken_at(alloc, cut, *place)?)?;
        }
        Ok(all)
    }

    // What the loop has come to in each of its places.
    fn broken_everywhere(&self, alloc: Global, cut: u32) -> Result<Vec<Broken>, AllocError>
        requires { IsPlayable self.now }
        ensures { IfOk result (λ all. IsBrokenEverywhere cut self.now all.items) }
    {
        let whole = self.left_by(alloc, cut, Direct)?;
        let places = places_of(alloc, &whole)?;
        self.broken_in(alloc, cut, places.as_slice())
    }
}

// The lines of these places, and the one that counts them.
fn lines_of(alloc: Global, all: &[Broken]) -> Result<Vec<u8>, AllocError>
    ensures { IfOk result (λ text. text.items ≡ broken_text all.now) }
{
    let mut lines = LineBuffer::new(alloc);
    put_each_line(all, &mut lines)?;
    put_places_line(all.len(), &mut lines)?;
    Ok(lines.into_text())
}

/// Runs a loop once, and then again for each byte that has reached the backend, and for each that has reached the client. In such a run that way is
/// cut after that byte: it breaks where more is to come along it, or at the end. In a flow `cut` bytes are delivered at a time.
///
/// It sends a line for each of these runs, and one that counts them. It returns the first place where the settled groups weren't seen to be the first
/// of those that the backend has answered.
///
/// The files have to be such as `run_loop` is run for: both can be read, the script's check returns Ok, and each file that the calls name is there.
/// `Device`: the sink failed in this call; a prefix of the lines was then sent. `Memory`: memory ran out; no line was then sent.
pub fn break_everywhere<K: Sink>(
    alloc: Global,
    files: &LoopFiles,
    cut: u32,
    sink: &mut K,
) -> Result<Option<Place>, ToolFault>
    requires { IsPlayable files.now }
    ensures broke { (sent : List (List ℕ)) × FoldsTo K.takes sink.old sent sink.new
        × BreaksAnswer (HasRisen (K.failures sink.old) (K.failures sink.new)) cut files.now
        (concat sent) result }
    // where the answer isn't Device, the sink didn't fail
    ensures sink { CountsNoFailure (K.failures sink.old) result (K.failures sink.new) }
{
    let all = files.broken_everywhere(alloc, cut)?;
    let lines = lines_of(alloc, all.as_slice())?;
    send_lines(lines, sink)?;
    Ok(first_unseen(all.as_slice()))
}
