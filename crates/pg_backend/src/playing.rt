//! A script that is played: what each message after a Startup does.

ghost use Rattle.std.specs.Prelude.{◌≡◌, ◌≤◌, ◌∷◌, ◌++◌, [], true, false, drop, MatchOption, Ok};
ghost use Rattle.std.specs.Prelude.{Err};
ghost use Rattle.pg_backend.specs.declared.meaning.InCopy.TheVariants.{Chunk};
ghost use Rattle.pg_backend.specs.Fitting.{answer_for};
ghost use Rattle.pg_backend.specs.OwnError.{no_answer};
ghost use Rattle.pg_backend.specs.Meaning.{meaning, in_copy};
ghost use Rattle.pg_backend.specs.Private.Moves.{load_result, refuses_at, requested, between};
ghost use Rattle.pg_backend.specs.Private.Moves.{effect};
ghost use Rattle.pg_backend.specs.Private.Moves.{entered, entering, has_effect, move, decided};
ghost use Rattle.pg_backend.specs.Private.Moves.{strays};
ghost use Rattle.pg_backend.specs.Private.Answering.{Opens};
ghost use Rattle.pg_backend.specs.Private.Playing.{Notes, Moves};

use crate::answering::{Opened, decide, open, or_memory};
use crate::fault::BackendFault;
use crate::fitting::fits;
use crate::meaning::{InCopy, Meaning};
use crate::opening::tell_welcome;
use crate::own_error::{canceled, fatal_unexpected, no_answer, out_of_copy, wrong_password};
use crate::script::{Answer, Load, Logged, Script};
use crate::stage::{Awaits, Loading, Next};
use pg_wire::backend::error_response;
use pg_wire::{Fields, FrontMessage, Request, Seq, Step};
use std::alloc::Global;
use std::marker::Model;

// The tag or the error that the script ends a copy with.
fn load_end(load: Load) -> Result<Seq<u8>, Fields>
    ensures { result ≡ load_result load }
{
    match load {
        Load::Accept(tag) => Ok(tag),
        Load::Refuse { after: _, fields } => Err(fields),
    }
}

// Whether the chunk of this number is rejected.
fn refuses_at(load: &Load, number: usize) -> bool
    ensures { result ≡ refuses_at load.now number }
{
    match load {
        Load::Accept(_) => false,
        Load::Refuse { after, .. } => *after as usize == number,
    }
}

// The answer at this place, if there is one and it fits the request.
fn fitting<'a>(answers: &'a [Answer], next: usize, request: &Request) -> Option<&'a Answer>
    ensures { MatchOption result
        (answer_for (drop next answers.now) request.now ≡ no_answer)
        (λ answer. answer_for (drop next answers.now) request.now ≡ answer.now) }
{
    if next >= answers.len() {
        return None;
    }
    let answer = &answers[next];
    if fits(request, answer) {
        Some(answer)
    } else {
        None
    }
}

/// A script, how far it was played, and the log.
#[derive(Drop)]
pub struct Playing {
    alloc: Global,
    script: Script,
    // The place of the next answer.
    next: usize,
    log: Vec<Logged>,
}

impl Model for Playing {
    ghost use Rattle.std.specs.Prelude.{◌≤◌, drop, length};
    ghost use Rattle.pg_backend.specs.Private.Playing.{PlayingState};

    ghost Value = { PlayingState };

    ghost view = { λ s. record {
      script = s.script;
      left = drop s.next s.script.answers;
      log = s.log.items;
    } };

    ghost invariant = { λ s. s.next ≤ length s.script.answers };
}

impl Playing {
    pub fn new(alloc: Global, script: Script) -> Playing
        ensures { result ≡ record { script = script; left = script.answers; log = [] } }
    {
        Playing {
            alloc,
            script,
            next: 0,
            log: Vec::new(alloc),
        }
    }

    pub fn script(&self) -> &Script
        ensures { result.now ≡ self.now.script }
    {
        &self.script
    }

    pub fn log(&self) -> &[Logged]
        ensures { result.now ≡ self.now.log }
    {
        self.log.as_slice()
    }

    // Answers a request as far as it can be answered at once.
    fn open(&self, request: Request, out: &mut Vec<u8>) -> Result<Opened, BackendFault>
        ensures { Opens request (answer_for self.now.left request)
            out.old.items result out.new.items }
    {
        match fitting(self.script.answers.as_slice(), self.next, &request) {
            Some(answer) => open(self.alloc, request, answer, out),
            None => {
                let answer = no_answer(self.alloc)?;
                open(self.alloc, request, &answer, out)
            }
        }
    }

    // Logs a request that is decided.
    fn note(&mut self, logged: Logged) -> Result<(), BackendFault>
        ensures { Notes logged self.old result self.new }
    {
        self.log.push(logged)?;
        if self.next < self.script.answers.len() {
            self.next += 1;
        }
        Ok(())
    }

    // Answers a request, and logs it if it is decided.
    fn ask(&mut self, request: Request, out: &mut Vec<u8>) -> Result<Next, BackendFault>
        ensures { Moves (requested self.old.left request)
            self.old out.old.items result self.new out.new.items }
    {
        match self.open(request, out)? {
            Opened::Decided(logged) => {
                self.note(logged)?;
                Ok(Next::Goes(Awaits::Request(self.no_steps())))
            }
            Opened::Copies(loading) => Ok(Next::Goes(Awaits::Data(loading))),
        }
    }

    /// The steps of a group before its first one.
    pub fn no_steps(&self) -> Seq<Step>
        ensures { result ≡ [] }
    {
        Seq::new(Vec::new(self.alloc))
    }

    // Ends a copy from the client, and logs its request.
    fn decide(
        &mut self,
        request: Request,
        loaded: Seq<Seq<u8>>,
        end: Result<Seq<u8>, Fields>,
        out: &mut Vec<u8>,
    ) -> Result<Next, BackendFault>
        ensures { Moves (decided self.old.left request loaded end)
            self.old out.old.items result self.new out.new.items }
    {
        let logged = match fitting(self.script.answers.as_slice(), self.next, &request) {
            Some(answer) => decide(self.alloc, request, answer, loaded, end, out)?,
            None => {
                let answer = no_answer(self.alloc)?;
                decide(self.alloc, request, &answer, loaded, end, out)?
            }
        };
        self.note(logged)?;
        Ok(Next::Goes(Awaits::Request(self.no_steps())))
    }

    // Takes a chunk of a copy.
    fn take_chunk(
        &mut self,
        loading: Loading,
        bytes: Seq<u8>,
        out: &mut Vec<u8>,
    ) -> Result<Next, BackendFault>
        ensures { Moves
            (has_effect self.old.left loading.request loading.load
            (effect loading.load loading.loaded (Chunk bytes)))
            self.old out.old.items result self.new out.new.items }
    {
        let Loading {
            request,
            load,
            mut loaded,
        } = loading;
        loaded.push(bytes)?;
        if refuses_at(&load, loaded.len()) {
            return self.decide(request, loaded, load_end(load), out);
        }
        Ok(Next::Goes(Awaits::Data(Loading {
            request,
            load,
            loaded,
        })))
    }

    // Takes a message during a copy.
    fn take_in_copy(
        &mut self,
        loading: Loading,
        message: FrontMessage,
        out: &mut Vec<u8>,
    ) -> Result<Next, BackendFault>
        ensures { Moves
            (has_effect self.old.left loading.request loading.load
            (effect loading.load loading.loaded (in_copy message)))
            self.old out.old.items result self.new out.new.items }
    {
        match InCopy::of(message) {
            InCopy::Chunk(bytes) => self.take_chunk(loading, bytes, out),
            InCopy::Waits => Ok(Next::Goes(Awaits::Data(loading))),
            InCopy::Leaves => Ok(Next::Ends),
            InCopy::Done => {
                let Loading {
                    request,
                    load,
                    loaded,
                } = loading;
                self.decide(request, loaded, load_end(load), out)
            }
            InCopy::Fails(reason) => {
                let fields = canceled(self.alloc, reason.as_slice())?;
                self.break_off(loading, fields, out)
            }
            InCopy::Strays => {
                let fields = out_of_copy(self.alloc)?;
                self.break_off(loading, fields, out)
            }
        }
    }

    // Ends a copy with an error that isn't from the script.
    fn break_off(
        &mut self,
        loading: Loading,
        fields: Fields,
        out: &mut Vec<u8>,
    ) -> Result<Next, BackendFault>
        ensures { Moves (decided self.old.left loading.request loading.loaded (Err fields))
            self.old out.old.items result self.new out.new.items }
    {
        let Loading {
            request,
            load: _,
            loaded,
        } = loading;
        self.decide(request, loaded, Err(fields), out)
    }

    // Sends the error for a message that can't stand in its place.
    fn stray(&self, tag: u8, out: &mut Vec<u8>) -> Result<Next, BackendFault>
        ensures { Moves (strays self.now.left tag)
            self.now out.old.items result self.now out.new.items }
    {
        let fields = fatal_unexpected(self.alloc)?;
        match error_response(&fields, out) {
            Ok(()) => Ok(Next::Strays(tag)),
            Err(_) => Err(BackendFault::Memory),
        }
    }

    // Takes a message where a request is awaited, or the next step after these.
    fn take_request(
        &mut self,
        mut steps: Seq<Step>,
        message: FrontMessage,
        out: &mut Vec<u8>,
    ) -> Result<Next, BackendFault>
        ensures { Moves (between self.old.left steps (meaning message))
            self.old out.old.items result self.new out.new.items }
    {
        match Meaning::of(message) {
            Meaning::Asks(text) => {
                if steps.is_empty() {
                    self.ask(Request::Query(text), out)
                } else {
                    self.stray(b'Q', out)
                }
            }
            Meaning::Adds(step) => {
                steps.push(step)?;
                Ok(Next::Goes(Awaits::Request(steps)))
            }
            Meaning::Closes => self.ask(Request::Group(steps), out),
            Meaning::Drops => Ok(Next::Goes(Awaits::Request(steps))),
            Meaning::Leaves => Ok(Next::Ends),
            Meaning::Strays => self.stray(b'p', out),
        }
    }

    // Lets in a client whose password is right.
    fn welcome(&self, out: &mut Vec<u8>) -> Result<Next, BackendFault>
        ensures { Moves (entered self.now.script self.now.left true)
            self.now out.old.items result self.now out.new.items }
    {
        or_memory(tell_welcome(&self.script, out))?;
        Ok(Next::Goes(Awaits::Request(self.no_steps())))
    }

    // Rejects a client whose password is wrong.
    fn refuse(&self, out: &mut Vec<u8>) -> Result<Next, BackendFault>
        ensures { Moves (entered self.now.script self.now.left false)
            self.now out.old.items result self.now out.new.items }
    {
        let fields = wrong_password(self.alloc)?;
        or_memory(error_response(&fields, out))?;
        Ok(Next::Ends)
    }

    // Takes a message where this password is awaited.
    fn take_password(
        &self,
        expected: &[u8],
        message: &FrontMessage,
        out: &mut Vec<u8>,
    ) -> Result<Next, BackendFault>
        ensures { Moves (entering self.now.script self.now.left expected.now message.now)
            self.now out.old.items result self.now out.new.items }
    {
        match message {
            FrontMessage::Password(password) => {
                if password.as_slice() == expected {
                    self.welcome(out)
                } else {
                    self.refuse(out)
                }
            }
            FrontMessage::Terminate => Ok(Next::Ends),
            _ => self.stray(message.tag(), out),
        }
    }

    /// Takes a message.
    pub fn take(
        &mut self,
        awaits: Awaits,
        message: FrontMessage,
        out: &mut Vec<u8>,
    ) -> Result<Next, BackendFault>
        ensures { Moves (move self.old.script self.old.left awaits message)
            self.old out.old.items result self.new out.new.items }
    {
        match awaits {
            Awaits::Password(expected) => {
                let next = self.take_password(expected.as_slice(), &message, out);
                drop(message);
                next
            }
            Awaits::Request(steps) => self.take_request(steps, message, out),
            Awaits::Data(loading) => self.take_in_copy(loading, message, out),
        }
    }
}
