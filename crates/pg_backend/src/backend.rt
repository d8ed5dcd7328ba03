//! A scripted backend.

ghost use Rattle.std.specs.Prelude.{◌≡◌, ◌≤◌, ◌∷◌, [], false, Ok, Err, None, OnOk, MatchResult};
ghost use Rattle.pg_wire.specs.message.BackMessage.TheVariants.{ErrorResponse};
ghost use Rattle.pg_wire.specs.Direction.{IsLimit};
ghost use Rattle.pg_wire.specs.First.{is_last};
ghost use Rattle.pg_backend.specs.Check.{IsChecked};
ghost use Rattle.pg_backend.specs.Opening.{No, Says};
ghost use Rattle.pg_backend.specs.OwnError.{no_user};
ghost use Rattle.pg_backend.specs.declared.stage.BackStage.{BackStage};
ghost use Rattle.pg_backend.specs.declared.stage.ClosedBy.TheVariants.{Input as ByInput};
ghost use Rattle.pg_backend.specs.declared.stage.ClosedBy.TheVariants.{Memory as ByMemory};
ghost use Rattle.pg_backend.specs.Stage.{phase_of, lost_stage, IsSound};
ghost use Rattle.pg_backend.specs.History.{IsHistoryOf, Carries, blank, unchanged, with_pushed};
ghost use Rattle.pg_backend.specs.Backend.{Stores, Steps, CarriesStep};
ghost use Rattle.pg_backend.specs.Private.Advancing.{BreaksOff, AdvancesUnlessClosed};
ghost use Rattle.pg_backend.specs.Private.Advancing.{is_refused, TakesEffect, only_sends};
ghost use Rattle.pg_backend.specs.Private.Advancing.{named_effect, packet_effect};

use crate::answering::or_memory;
use crate::fault::BackendFault;
use crate::opening::{admit, user};
use crate::own_error::{fatal_bad, no_user};
use crate::phase::BackPhase;
use crate::playing::Playing;
use crate::script::{Logged, Script};
use crate::stage::{Awaits, BackStage, ClosedBy, Next};
use pg_wire::backend::error_response;
use pg_wire::{First, FirstDecoder, WireFault};
use std::alloc::Global;
use std::marker::Model;
use std::mem;

/// The server's side of a connection, which answers from a script.
///
/// `push` stores a piece of what the client sends. Each `step` handles one first packet or one message of it, and appends the reply.
#[derive(Drop)]
pub struct Backend {
    alloc: Global,
    limit: u32,
    playing: Playing,
    stage: BackStage,
}

impl Model for Backend {
    ghost use Rattle.std.specs.Prelude.{◌≤◌};
    ghost use Rattle.pg_backend.specs.Stage.{BackendState, IsSound};

    ghost Value = { BackendState };

    ghost view = { λ b. record {
      script = b.playing.script;
      limit = b.limit;
      left = b.playing.left;
      stage = b.stage;
      log = b.playing.log;
    } };

    ghost invariant = { λ b. (64 ≤ b.limit) × (b.limit ≤ 1073741823)
        × IsSound b.limit b.stage };
}

// The result of a push for a decoder's result. The decoder has found no fault, so it can only be Memory.
fn stored(pushed: Result<(), WireFault>) -> Result<(), BackendFault>
    ensures { MatchResult pushed
        (λ _. result ≡ Ok record {}) (λ _. result ≡ Err BackendFault.Memory) }
{
    match pushed {
        Ok(()) => Ok(()),
        Err(_) => Err(BackendFault::Memory),
    }
}

// Whether memory ran out.
fn is_refused(answer: &Result<bool, BackendFault>) -> bool
    ensures { result ≡ is_refused answer.now }
{
    matches!(answer, Err(BackendFault::Memory))
}

// Closes the backend by its input, and rejects what is kept: it is faulty, or memory ran out for it.
fn break_off(
    alloc: Global,
    stage: &mut BackStage,
    fault: WireFault,
    out: &mut Vec<u8>,
) -> Result<bool, BackendFault>
    ensures closed { stage.new ≡ BackStage.Closed ByInput }
    ensures refuses { BreaksOff fault out.old.items result out.new.items }
{
    *stage = BackStage::Closed(ClosedBy::Input);
    if fault == WireFault::Memory {
        return Err(BackendFault::Memory);
    }
    let fields = fatal_bad(alloc)?;
    or_memory(error_response(&fields, out))?;
    Err(BackendFault::Wire(fault))
}

impl Backend {
    /// A backend that plays this script, and takes messages with a length field of at most `limit`, from 64 to 1,073,741,823. The script's `check`
    /// must have returned Ok. It takes no memory.
    pub fn new(alloc: Global, script: Script, limit: u32) -> Backend
        requires limit { IsLimit limit }
        requires checked { IsChecked script }
        ensures value { result ≡ record {
          script = script;
          limit = limit;
          left = script.answers;
          stage = BackStage.First record { kept = []; ended = false; fault = None };
          log = [];
        } }
        ensures history { IsHistoryOf blank result }
    {
        Backend {
            alloc,
            limit,
            playing: Playing::new(alloc, script),
            stage: BackStage::First(FirstDecoder::new(alloc)),
        }
    }

    /// Takes the next piece of what the client sends, all of it, and handles nothing of it. K2 Memory: memory ran out, and the backend is unchanged;
    /// a piece without bytes needs no memory. K3 Closed: the backend is closed.
    pub fn push(&mut self, piece: &[u8]) -> Result<(), BackendFault>
        ensures call { Stores self.old piece.now result self.new }
        ensures history { OnOk result (Carries self.old self.new (with_pushed piece.now)) }
    {
        match &mut self.stage {
            BackStage::First(decoder) => stored(decoder.push(piece)),
            BackStage::Open(decoder, _) => stored(decoder.push(piece)),
            BackStage::Closed(_) => Err(BackendFault::Closed),
        }
    }

    /// Says that the connection is gone: the backend is closed, unless it was before. A request that isn't decided is never logged.
    pub fn lost(&mut self)
        ensures call { self.new ≡ record self.old { stage = lost_stage self.old.stage } }
        ensures history { Carries self.old self.new unchanged }
    {
        match &self.stage {
            BackStage::Closed(_) => {}
            _ => self.stage = BackStage::Closed(ClosedBy::Lost),
        }
    }

    // Tells a client that asks for encryption that there is none ("SSL Session Encryption").
    fn decline(&mut self, decoder: FirstDecoder, out: &mut Vec<u8>) -> Result<(), BackendFault>
        requires { (decoder.fault ≡ None) × (decoder.ended ≡ false) }
        ensures { TakesEffect (only_sends self.old (BackStage.First decoder) (No ∷ []))
            self.old out.old.items result self.new out.new.items }
    {
        out.push(b'N')?;
        self.stage = BackStage::First(decoder);
        Ok(())
    }

    // Rejects a client that names no user.
    fn refuse(&mut self, out: &mut Vec<u8>) -> Result<(), BackendFault>
        ensures { TakesEffect
            (only_sends self.old (BackStage.Closed ByInput) (Says (ErrorResponse no_user) ∷ []))
            self.old out.old.items result self.new out.new.items }
    {
        let fields = no_user(self.alloc)?;
        or_memory(error_response(&fields, out))?;
        self.stage = BackStage::Closed(ClosedBy::Input);
        Ok(())
    }

    // Lets a client in, or asks for the password of this user.
    fn admit(
        &mut self,
        decoder: FirstDecoder,
        user: &[u8],
        out: &mut Vec<u8>,
    ) -> Result<(), BackendFault>
        requires { decoder.fault ≡ None }
        ensures { TakesEffect (named_effect self.old decoder user.now)
            self.old out.old.items result self.new out.new.items }
    {
        let awaits = admit(self.alloc, self.playing.script(), user, out)?;
        let decoder = decoder.into_front(self.limit);
        self.stage = BackStage::Open(decoder, awaits);
        Ok(())
    }

    // Handles a first packet. The decoder stands after it.
    fn greet(
        &mut self,
        decoder: FirstDecoder,
        packet: First,
        out: &mut Vec<u8>,
    ) -> Result<(), BackendFault>
        requires { (decoder.fault ≡ None) × (decoder.ended ≡ is_last packet) }
        ensures { TakesEffect (packet_effect self.old decoder packet)
            self.old out.old.items result self.new out.new.items }
    {
        match packet {
            First::Ssl => self.decline(decoder, out),
            First::Gss => self.decline(decoder, out),
            First::Cancel { .. } => {
                self.stage = BackStage::Closed(ClosedBy::Input);
                Ok(())
            }
            First::Startup(pairs) => {
                let user = user(pairs.as_slice());
                if user.is_empty() {
                    self.refuse(out)
                } else {
                    self.admit(decoder, user, out)
                }
            }
        }
    }

    // Handles the next packet or message. Where none is whole, nothing is moved. For a message only what is awaited is taken out, and what is awaited
    // next is put in its place. After Memory, bytes may stand after what `out` had, and the stage may have lost what it held.
    fn advance(&mut self, out: &mut Vec<u8>) -> Result<bool, BackendFault>
        ensures call { AdvancesUnlessClosed self.old out.old.items result self.new out.new.items }
        ensures sound { IsSound self.old.limit self.old.stage }
    {
        match &mut self.stage {
            BackStage::First(decoder) => match decoder.next() {
                Ok(None) => Ok(false),
                Ok(Some(packet)) => {
                    let decoder = mem::replace(decoder, FirstDecoder::new(self.alloc));
                    self.greet(decoder, packet, out)?;
                    Ok(true)
                }
                Err(fault) => break_off(self.alloc, &mut self.stage, fault, out),
            },
            BackStage::Open(decoder, awaits) => match decoder.next() {
                Ok(None) => Ok(false),
                Ok(Some(message)) => {
                    let awaited = mem::replace(awaits, Awaits::Request(self.playing.no_steps()));
                    match self.playing.take(awaited, message, out)? {
                        Next::Goes(next) => {
                            *awaits = next;
                            Ok(true)
                        }
                        Next::Ends => {
                            self.stage = BackStage::Closed(ClosedBy::Input);
                            Ok(true)
                        }
                        Next::Strays(tag) => {
                            self.stage = BackStage::Closed(ClosedBy::Input);
                            Err(BackendFault::Unexpected(tag))
                        }
                    }
                }
                Err(fault) => break_off(self.alloc, &mut self.stage, fault, out),
            },
            BackStage::Closed(_) => Err(BackendFault::Closed),
        }
    }

    // Closes because memory ran out.
    fn give_up(&mut self)
        ensures { self.new ≡ record self.old { stage = BackStage.Closed ByMemory } }
    {
        self.stage = BackStage::Closed(ClosedBy::Memory);
    }

    /// Handles one first packet or one message, if one is whole, appends the reply to `out`, and returns true. Where none is whole, and the bytes
    /// that wait may become one, it returns false, and nothing changes. A close by the protocol, as by a Terminate or a wrong password, is true.
    ///
    /// K1 Wire: the client's stream has a fault. K4 Unexpected: a message can't stand in its place. After these two the client was sent an error with
    /// severity FATAL, and the backend is closed. K2 Memory: memory ran out; the backend is closed, with `out` and the log as they were. It comes
    /// only where something whole waits, or what waits can't become a message. K3 Closed: the backend was closed before, and nothing changes.
    pub fn step(&mut self, out: &mut Vec<u8>) -> Result<bool, BackendFault>
        ensures call { Steps self.old out.old.items result self.new out.new.items }
        ensures history { CarriesStep self.old out.old.items result self.new out.new.items }
    {
        let before = out.len();
        let answer = self.advance(out);
        if is_refused(&answer) {
            out.truncate(before);
            self.give_up();
        }
        answer
    }

    /// What the backend awaits, or that it is closed.
    pub fn phase(&self) -> BackPhase
        ensures { result ≡ phase_of self.now.stage }
    {
        match &self.stage {
            BackStage::First(_) => BackPhase::First,
            BackStage::Open(_, Awaits::Password(_)) => BackPhase::Password,
            BackStage::Open(_, Awaits::Request(steps)) => {
                if steps.is_empty() {
                    BackPhase::Ready
                } else {
                    BackPhase::Grouping
                }
            }
            BackStage::Open(_, Awaits::Data(_)) => BackPhase::CopyIn,
            BackStage::Closed(_) => BackPhase::Closed,
        }
    }

    /// The log: each request that is decided, in order, with its outcome and the chunks that were taken for it.
    pub fn log(&self) -> &[Logged]
        ensures { result.now ≡ self.now.log }
    {
        self.playing.log()
    }
}
