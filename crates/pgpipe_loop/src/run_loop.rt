//! Running a loop: a client and a scripted backend in one process, and what happens between them.

pub(crate) mod everywhere;
pub(crate) mod places;
mod telling;
mod wire;

ghost use Rattle.std.specs.Prelude.{◌≡◌, ℕ, List, true, false};
ghost use Rattle.std.specs.List.{FoldsTo, concat};
ghost use Rattle.pg_wire.specs.Direction.{IsLimit};
ghost use Rattle.pg_wire.specs.Link.{HasRisen};
ghost use Rattle.pg_backend.specs.Check.{IsChecked};
ghost use Rattle.pg_pair.specs.Beginning.{IsBegun};
ghost use Rattle.pg_pair.specs.View.{PairView};
ghost use Rattle.pg_pair.specs.declared.event.Event.TheVariants as event;
ghost use Rattle.pgpipe_files.specs.Filling.{next_file};
ghost use Rattle.pgpipe_loop.specs.RunLoop.{PlannedEvent, times, most_times, flow_once};
ghost use Rattle.pgpipe_loop.specs.RunLoop.{line_events, planned_events, is_carrier, LoopAnswers};
ghost use Rattle.pgpipe_loop.specs.Private.Running.{at, delivery, SendsLines, Prints, HasDone};
ghost use Rattle.pgpipe_loop.specs.Private.Running.{DoesAll, DoesOnce, Closes, EndsLoop};
ghost use Rattle.pgpipe_base.specs.Receiving.{CountsNoFailure};

use crate::lines::closing_lines;
use pg_backend::Script;
use pg_pair::{Applied, Carry, Event, Pair, Way};
use pg_wire::{Seq, Sink};
use pgpipe_base::ToolFault;
use pgpipe_base::outbox::send;
use pgpipe_files::{CallLine, Calls};
use std::alloc::Global;
use telling::{before_of, is_nothing, lines_since, named_lines};

/// How a loop ended.
#[derive(Clone, Copy, Debug, PartialEq, Eq)]
pub enum Ran {
    /// All its lines are done.
    Whole,
    /// All its lines are done, and the carrier failed or gave other bytes at one of them.
    CarrierFailed,
}

// How often an event of a flow happens at most: each time but the last moves a byte or handles a message.
const MOST_TIMES: u64 = u64::MAX;

// A pair, and whether its carrier has failed or given other bytes.
#[derive(Drop)]
struct Running<C: Carry> {
    alloc: Global,
    pair: Pair<C>,
    carrier_failed: bool,
}

impl<C: Carry> Running<C> {
    // Applies an event, and sends its lines, in a trace or without one.
    fn apply<K: Sink>(
        &mut self,
        event: Event,
        trace: bool,
        sink: &mut K,
    ) -> Result<Applied, ToolFault>
        ensures { Prints C.carries trace K.takes K.failures event
            (at self.old.pair self.old.carrier_failed sink.old) result
            (at self.new.pair self.new.carrier_failed sink.new) }
    {
        let before = before_of(&self.pair);
        let named = named_lines(self.alloc, trace, &event)?;
        let answer = match self.pair.apply(event) {
            Ok(answer) => answer,
            Err(_) => return Err(ToolFault::Memory),
        };
        self.carrier_failed |= is_carrier(&answer);
        let lines = lines_since(self.alloc, &self.pair, trace, &before, named, &answer)?;
        send_lines(lines, sink)?;
        Ok(answer)
    }

    // Delivers at most so many bytes, and returns whether no byte was moved.
    fn deliver_once<K: Sink>(
        &mut self,
        way: Way,
        count: u32,
        trace: bool,
        sink: &mut K,
    ) -> Result<bool, ToolFault>
        ensures { DoesOnce C.carries trace K.takes K.failures (delivery way count)
            (at self.old.pair self.old.carrier_failed sink.old) result
            (at self.new.pair self.new.carrier_failed sink.new) }
    {
        let before = self.pair.reached(way);
        self.apply(delivery(way, count), trace, sink)?;
        Ok(self.pair.reached(way) == before)
    }

    // Makes a step, and returns whether nothing whole waited.
    fn step_once<K: Sink>(&mut self, trace: bool, sink: &mut K) -> Result<bool, ToolFault>
        ensures { DoesOnce C.carries trace K.takes K.failures event.Step
            (at self.old.pair self.old.carrier_failed sink.old) result
            (at self.new.pair self.new.carrier_failed sink.new) }
    {
        let answer = self.apply(Event::Step, trace, sink)?;
        Ok(is_nothing(&answer))
    }

    // Delivers so many bytes at a time, until none is moved.
    fn deliver<K: Sink>(
        &mut self,
        way: Way,
        count: u32,
        trace: bool,
        sink: &mut K,
    ) -> Result<(), ToolFault>
        ensures { DoesAll C.carries trace K.takes K.failures (times most_times (delivery way count))
            (at self.old.pair self.old.carrier_failed sink.old) result
            (at self.new.pair self.new.carrier_failed sink.new) }
    {
        for _ in 0..MOST_TIMES {
            if self.deliver_once(way, count, trace, sink)? {
                return Ok(());
            }
        }
        Ok(())
    }

    // Has the backend step, until nothing whole waits.
    fn step<K: Sink>(&mut self, trace: bool, sink: &mut K) -> Result<(), ToolFault>
        ensures { DoesAll C.carries trace K.takes K.failures (times most_times event.Step)
            (at self.old.pair self.old.carrier_failed sink.old) result
            (at self.new.pair self.new.carrier_failed sink.new) }
    {
        for _ in 0..MOST_TIMES {
            if self.step_once(trace, sink)? {
                return Ok(());
            }
        }
        Ok(())
    }

    // All that waits goes to the backend, it steps, and all that waits goes to the client.
    fn flow_once<K: Sink>(&mut self, cut: u32, trace: bool, sink: &mut K) -> Result<(), ToolFault>
        ensures { DoesAll C.carries trace K.takes K.failures (flow_once cut)
            (at self.old.pair self.old.carrier_failed sink.old) result
            (at self.new.pair self.new.carrier_failed sink.new) }
    {
        self.deliver(Way::ToBackend, cut, trace, sink)?;
        self.step(trace, sink)?;
        self.deliver(Way::ToClient, cut, trace, sink)
    }

    // Does a line of the calls.
    fn line<K: Sink>(
        &mut self,
        line: CallLine,
        cut: u32,
        trace: bool,
        sink: &mut K,
    ) -> Result<(), ToolFault>
        ensures { DoesAll C.carries trace K.takes K.failures (line_events cut line)
            (at self.old.pair self.old.carrier_failed sink.old) result
            (at self.new.pair self.new.carrier_failed sink.new) }
    {
        match line {
            CallLine::Event(event) => {
                self.apply(event, trace, sink)?;
                Ok(())
            }
            CallLine::Flow => {
                self.flow_once(cut, trace, sink)?;
                self.flow_once(cut, trace, sink)
            }
            // No line names a file any more.
            CallLine::File(_) => Ok(()),
        }
    }

    // Does the lines, one after the other.
    fn lines<K: Sink>(
        &mut self,
        lines: Seq<CallLine>,
        cut: u32,
        trace: bool,
        sink: &mut K,
    ) -> Result<(), ToolFault>
        ensures { DoesAll C.carries trace K.takes K.failures (planned_events cut lines)
            (at self.old.pair self.old.carrier_failed sink.old) result
            (at self.new.pair self.new.carrier_failed sink.new) }
    {
        for line in lines {
            self.line(line, cut, trace, sink)?;
        }
        Ok(())
    }

    // Sends the closing lines.
    fn close<K: Sink>(&self, sink: &mut K) -> Result<(), ToolFault>
        ensures { Closes K.takes K.failures self.now.pair sink.old result sink.new }
    {
        let (client, backend) = (self.pair.client(), self.pair.backend());
        let lines = closing_lines(self.alloc, backend.log(), client.phase(), backend.phase())?;
        send_lines(lines, sink)
    }

    // Does the lines, and sends the closing ones.
    fn run<K: Sink>(
        &mut self,
        lines: Seq<CallLine>,
        cut: u32,
        trace: bool,
        sink: &mut K,
    ) -> Result<Ran, ToolFault>
        ensures { (start : K) (begun : PairView C) (all : List PlannedEvent)
            → HasDone C.carries trace K.takes K.failures start begun all
            (at self.old.pair self.old.carrier_failed sink.old) (planned_events cut lines)
            → EndsLoop C.carries trace K.takes K.failures start begun all result sink.new }
    {
        self.lines(lines, cut, trace, sink)?;
        self.close(sink)?;
        Ok(if self.carrier_failed {
            Ran::CarrierFailed
        } else {
            Ran::Whole
        })
    }
}

fn is_carrier(answer: &Applied) -> bool
    ensures { result ≡ is_carrier answer.now }
{
    matches!(answer, Applied::Carrier)
}

fn delivery(way: Way, count: u32) -> Event
    ensures { result ≡ delivery way count }
{
    match way {
        Way::ToBackend => Event::ToBackend(count),
        Way::ToClient => Event::ToClient(count),
    }
}

fn send_lines<K: Sink>(lines: Vec<u8>, sink: &mut K) -> Result<(), ToolFault>
    ensures { SendsLines K.takes K.failures sink.old lines.items result sink.new }
{
    let mut lines = lines;
    send(&mut lines, sink).map_err(|_| ToolFault::Device)
}

// Runs a loop, in a trace or without one.
fn run_told<C: Carry, K: Sink>(
    alloc: Global,
    script: Script,
    calls: Calls,
    cut: u32,
    trace: bool,
    carrier: C,
    sink: &mut K,
) -> Result<Ran, ToolFault>
    requires limit { IsLimit calls.settings.limit }
    requires checked { IsChecked script }
    requires filled { next_file calls.lines ≡ None }
    ensures ran { (begun : PairView C) × (sent : List (List ℕ))
        × IsBegun calls.settings script carrier begun × FoldsTo K.takes sink.old sent sink.new
        × LoopAnswers (HasRisen (K.failures sink.old) (K.failures sink.new)) C.carries trace begun
        (planned_events cut calls.lines) (concat sent) result }
    ensures sink { CountsNoFailure (K.failures sink.old) result (K.failures sink.new) }
{
    let Calls { settings, lines } = calls;
    let mut running = Running {
        alloc,
        pair: Pair::new(alloc, settings, script, carrier),
        carrier_failed: false,
    };
    let ran = running.run(lines, cut, trace, sink);
    drop(running);
    ran
}

/// Runs the lines of `calls` over a client with their settings and a backend with `script`. `carrier` carries between them. It sends the lines of
/// each event, in order, and then the closing lines. In a flow `cut` bytes are delivered at a time. The script must be checked, each file of the
/// calls filled in, and the limit of the settings from 64 to 1,073,741,823.
///
/// `Device`: the sink failed in this call; a prefix of the lines was then sent. `Memory`: memory ran out; the lines of the events before were then
/// sent.
pub fn run_loop<C: Carry, K: Sink>(
    alloc: Global,
    script: Script,
    calls: Calls,
    cut: u32,
    carrier: C,
    sink: &mut K,
) -> Result<Ran, ToolFault>
    requires limit { IsLimit calls.settings.limit }
    requires checked { IsChecked script }
    requires filled { next_file calls.lines ≡ None }
    // the pair as it begins, what was sent, and the answer for what has happened
    ensures ran { (begun : PairView C) × (sent : List (List ℕ))
        × IsBegun calls.settings script carrier begun × FoldsTo K.takes sink.old sent sink.new
        × LoopAnswers (HasRisen (K.failures sink.old) (K.failures sink.new)) C.carries false begun
        (planned_events cut calls.lines) (concat sent) result }
    // where the answer isn't Device, the sink didn't fail
    ensures sink { CountsNoFailure (K.failures sink.old) result (K.failures sink.new) }
{
    run_told(alloc, script, calls, cut, false, carrier, sink)
}

/// Runs a loop as [`run_loop`] does, for the same script and calls and with the same results, and sends a trace of it. Each event that did something
/// has these lines: `event` and what happened, `reached` and how many bytes were delivered, `sent` for each message that an end put out, the lines
/// that `run_loop` sends for it, and the phases of both ends. The closing lines are last.
pub fn trace_loop<C: Carry, K: Sink>(
    alloc: Global,
    script: Script,
    calls: Calls,
    cut: u32,
    carrier: C,
    sink: &mut K,
) -> Result<Ran, ToolFault>
    requires limit { IsLimit calls.settings.limit }
    requires checked { IsChecked script }
    requires filled { next_file calls.lines ≡ None }
    // the pair as it begins, what was sent, and the answer for what has happened
    ensures ran { (begun : PairView C) × (sent : List (List ℕ))
        × IsBegun calls.settings script carrier begun × FoldsTo K.takes sink.old sent sink.new
        × LoopAnswers (HasRisen (K.failures sink.old) (K.failures sink.new)) C.carries true begun
        (planned_events cut calls.lines) (concat sent) result }
    // where the answer isn't Device, the sink didn't fail
    ensures sink { CountsNoFailure (K.failures sink.old) result (K.failures sink.new) }
{
    run_told(alloc, script, calls, cut, true, carrier, sink)
}
