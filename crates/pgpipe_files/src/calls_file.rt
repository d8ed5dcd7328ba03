//! Reading CALLS: what a client is made with, and what happens to it and to its backend.

ghost use Rattle.std.specs.Prelude.{◌≡◌, ◌<◌, ℕ, ◌+◌, length, Some, Ok, Err, IfOk, OnOk, OnErr};
ghost use Rattle.std.specs.Prelude.{IsSome};
ghost use Rattle.std.specs.Option.{option_copied};
ghost use Rattle.pgpipe_lines.specs.declared.fault.LineFault.TheVariants.{Line};
ghost use Rattle.pgpipe_files.specs.CallsFile.{Happens, call_line, asks_for_event, calls_line};
ghost use Rattle.pgpipe_files.specs.CallsFile.{calls_of, calls_said, if_before_start, in_group};
ghost use Rattle.pgpipe_files.specs.CallsFile.{in_no_group, line_said, no_calls, path, with_line};
ghost use Rattle.pgpipe_files.specs.CallsFile.{what_is_said};
ghost use Rattle.pgpipe_lines.specs.Arguments.{nothing_of};
ghost use Rattle.pgpipe_files.specs.Filling.{chunk_lines, filled, files, next_file};
ghost use Rattle.pgpipe_files.specs.Private.Files.{file_place, path_of};
ghost use Rattle.pgpipe_files.specs.Private.Reads.{ReadsFileAs, GivesText};
ghost use Rattle.pgpipe_lines.specs.Reads.{ReadsAs, Leaves};

use crate::lines::{TakesLines, take_lines};
use pg_client::Settings;
use pg_pair::{Call, Event};
use pg_seq::{ByElement, DebugElement};
use pg_wire::{LONGEST, Request, Seq, Step};
use pgpipe_lines::{Arguments, CallVerb, LineFault, Refusal, StepVerb, step_of};
use std::alloc::{AllocError, Global};
use std::marker::Model;
use std::{mem, str};

// The most bytes of a chunk of a file.
const CHUNK: usize = 4_096;

/// A line of CALLS that isn't a setting.
#[derive(Debug, PartialEq, Eq, Drop)]
pub enum CallLine {
    /// One event.
    Event(Event),
    /// Twice: all that waits for the backend is delivered to it, it steps until nothing whole waits, and all that waits for the client is delivered
    /// to it.
    Flow,
    /// The bytes of the file of this path are to be handed over, in chunks.
    File(String),
}

impl DebugElement for CallLine {
    type Form = ByElement;
}

/// What CALLS asks for: the client's settings, and what is to happen.
#[derive(Debug, PartialEq, Eq, Drop)]
pub struct Calls {
    /// What the client is made with. The limit is 1,073,741,823.
    pub settings: Settings,
    /// What happens, in order.
    pub lines: Seq<CallLine>,
}

impl Calls {
    /// The path of the first file that still stands among the lines, if one does.
    #[tactic(auto, using(crate::proofs::Files::path_at))]
    pub fn next_file(&self) -> Option<&str>
        ensures { option_copied result ≡ next_file self.now.lines }
    {
        match self.lines.get(file_place(self.lines.as_slice())) {
            Some(line) => path_of(line),
            None => None,
        }
    }

    /// Puts the bytes of the first file that is left in the place of its line. There is one line for each chunk of 4,096 bytes, the last with what is
    /// left, and none where there are no bytes. Where memory runs out, nothing is changed.
    #[tactic(auto, using(crate::proofs::Files::has_place))]
    pub fn fill(&mut self, alloc: Global, bytes: &[u8]) -> Result<(), AllocError>
        requires { IsSome (next_file self.old.lines) }
        ensures ok { OnOk result (self.new ≡ filled bytes.now self.old) }
        ensures err { OnErr result (self.new ≡ self.old) }
        // one file fewer is left
        ensures fewer { OnOk result (files self.new.lines + 1 ≡ files self.old.lines) }
    {
        let chunks = chunk_lines(alloc, bytes)?;
        let place = file_place(self.lines.as_slice());
        let mut lines = mem::replace(&mut self.lines, Seq::new(Vec::new(alloc))).into_vec();
        let filled = lines.splice(place..place + 1, chunks);
        self.lines = Seq::new(lines);
        filled?;
        Ok(())
    }
}

// The path of the file that a line names.
fn path_of(line: &CallLine) -> Option<&str>
    ensures { option_copied result ≡ path_of line.now }
{
    match line {
        CallLine::File(path) => Some(path.as_str()),
        CallLine::Event(_) | CallLine::Flow => None,
    }
}

// How many lines stand before the first that names a file.
fn file_place(lines: &[CallLine]) -> usize
    ensures { result ≡ file_place lines.now }
{
    for (place, line) in lines.iter().enumerate() {
        if matches!(line, CallLine::File(_)) {
            return place;
        }
    }
    lines.len()
}

// The lines that hand these bytes over.
fn chunk_lines(alloc: Global, bytes: &[u8]) -> Result<Vec<CallLine>, AllocError>
    ensures { IfOk result (λ lines. lines.items ≡ chunk_lines (length bytes.now) bytes.now) }
{
    let mut lines = Vec::new(alloc);
    let mut rest = bytes;
    while !rest.is_empty() {
        let (chunk, later) = rest.split_at(rest.len().min(CHUNK));
        let chunk = Seq::from_slice(alloc, chunk)?;
        lines.push(CallLine::Event(Event::Call(Call::Chunk(chunk))))?;
        rest = later;
    }
    Ok(lines)
}

/// Reads calls from the bytes of a text file of any width. Each line's first field is its verb, no field but the values of `bind` is null,
/// and a line of one empty field is skipped.
///
/// | Line | Meaning |
/// |---|---|
/// | `user` NAME; `database` NAME | settings, before `start`; the last counts; no `user` is an empty one |
/// | `option` NAME VALUE | a further parameter of the startup packet, before `start` |
/// | `password` PASSWORD | what the client answers to a question for its password, before `start`; the last counts; else it has none |
/// | `start`; `query` TEXT; `terminate` | the call of that name |
/// | `group`, then lines of steps, then `sync` | the call of a request of these steps |
/// | `parse` NAME TEXT OID..; `bind` PORTAL STATEMENT VALUE..; `execute` PORTAL NUMBER | steps; `bind` has no formats |
/// | `describe` S NAME; `describe` P NAME; `close` S NAME; `close` P NAME | steps about a statement or a portal |
/// | `chunk` BYTES; `done`; `fail` REASON | the call of that name, of a copy |
/// | `file` PATH | [`CallLine::File`]; a path is UTF-8 |
/// | `toback` NUMBER; `toclient` NUMBER; `step`; `breakback`; `breakclient` | the event of that name |
/// | `flow` | [`CallLine::Flow`] |
///
/// `Line` is the first row that is none of these, stands where it may not, or has a fault of the text format; or that of a `group` that
/// is open at the end of the file. A file without bytes needs no memory.
#[tactic(auto, unfolding(crate::specs::CallsFile::calls_of))]
pub fn read_calls(alloc: Global, bytes: &[u8]) -> Result<Calls, LineFault>
    ensures read { IfOk result (λ calls. calls_of bytes.now ≡ Ok (what_is_said calls)) }
    ensures refused { (n : ℕ) → result ≡ Err (Line n) → calls_of bytes.now ≡ Err n }
    ensures memory { result ≡ Err LineFault.Memory → 0 < length bytes.now }
    ensures limit { IfOk result (λ calls. calls.settings.limit ≡ 1073741823) }
{
    let mut draft = CallsDraft::new(alloc);
    take_lines(alloc, bytes, &mut draft)?;
    draft.calls()
}

/// A group whose lines are being read.
#[derive(Drop)]
pub struct Group {
    /// The row of its first line.
    pub row: usize,
    /// Its steps so far.
    pub steps: Seq<Step>,
}

// Calls whose lines are being read.
#[derive(Drop)]
struct CallsDraft {
    alloc: Global,
    user: Seq<u8>,
    database: Option<Seq<u8>>,
    pairs: Seq<(Seq<u8>, Seq<u8>)>,
    password: Option<Seq<u8>>,
    lines: Seq<CallLine>,
    started: bool,
    group: Option<Group>,
}

impl Model for CallsDraft {
    ghost use Rattle.std.specs.Prelude.{map};
    ghost use Rattle.pgpipe_files.specs.CallsFile.{CallsSoFar, line_said};

    ghost Value = { CallsSoFar };

    ghost view = { λ d. record {
      settings = record { user = d.user; database = d.database; pairs = d.pairs; password = d.password; limit = 1073741823 };
      lines = map line_said d.lines;
      started = d.started;
      group = d.group;
    } };
}

impl TakesLines for CallsDraft {
    ghost line = { calls_line };

    #[tactic(auto, using(crate::proofs::CallLines::no_calls_line), unfolding(crate::specs::CallsFile::calls_line))]
    fn take(&mut self, row: usize, verb: &[u8], arguments: Arguments) -> Result<(), Refusal> {
        // no verb has other bytes
        let Ok(verb) = str::from_utf8(verb) else {
            return Err(Refusal::Wrong);
        };
        match self.group.take() {
            Some(group) => self.take_in_group(group, verb, arguments),
            None => self.take_call(row, verb, arguments),
        }
    }
}

impl CallsDraft {
    fn new(alloc: Global) -> CallsDraft
        ensures { result ≡ no_calls }
    {
        CallsDraft {
            alloc,
            user: Seq::new(Vec::new(alloc)),
            database: None,
            pairs: Seq::new(Vec::new(alloc)),
            password: None,
            lines: Seq::new(Vec::new(alloc)),
            started: false,
            group: None,
        }
    }

    // Takes a line that stands in a group: a step or the end.
    fn take_in_group(
        &mut self,
        mut group: Group,
        verb: &str,
        arguments: Arguments,
    ) -> Result<(), Refusal>
        ensures { Leaves result self.new (in_group self.old group verb.now arguments) }
    {
        match StepVerb::named(verb) {
            Some(verb) => {
                group.steps.push(step_of(self.alloc, verb, arguments)?)?;
                self.group = Some(group);
                Ok(())
            }
            None if verb == "sync" => {
                let request = Request::Group(group.steps);
                self.alone(Event::Call(Call::Request(request)), arguments)
            }
            None => Err(Refusal::Wrong),
        }
    }

    // Takes a line that stands in no group.
    fn take_call(&mut self, row: usize, verb: &str, arguments: Arguments) -> Result<(), Refusal>
        ensures { Leaves result self.new (in_no_group self.old row verb.now arguments) }
    {
        match CallVerb::named(verb).ok_or(Refusal::Wrong)? {
            CallVerb::User => self.user(arguments),
            CallVerb::Database => self.database(arguments),
            CallVerb::Parameter => self.parameter(arguments),
            CallVerb::Password => self.password(arguments),
            CallVerb::Start => self.start(arguments),
            CallVerb::Query => self.query(arguments),
            CallVerb::Group => self.group(row, arguments),
            CallVerb::Chunk => self.chunk(arguments),
            CallVerb::File => self.file(arguments),
            CallVerb::Done => self.alone(Event::Call(Call::Done), arguments),
            CallVerb::Fail => self.fail(arguments),
            CallVerb::Terminate => self.alone(Event::Call(Call::Terminate), arguments),
            CallVerb::ToBackend => self.to_backend(arguments),
            CallVerb::ToClient => self.to_client(arguments),
            CallVerb::Step => self.alone(Event::Step, arguments),
            CallVerb::BreakToBackend => self.alone(Event::BreakToBackend, arguments),
            CallVerb::BreakToClient => self.alone(Event::BreakToClient, arguments),
            CallVerb::Flow => self.flow(arguments),
        }
    }

    // The calls, of which no more lines come.
    fn calls(self) -> Result<Calls, LineFault>
        ensures calls { ReadsFileAs what_is_said result (calls_said self) }
        ensures at_once { result ≡ Err LineFault.Memory → ⊥ }
        ensures limit { IfOk result (λ calls. calls.settings.limit ≡ 1073741823) }
    {
        if let Some(group) = &self.group {
            return Err(LineFault::Line(group.row));
        }
        Ok(Calls {
            settings: Settings {
                user: self.user,
                database: self.database,
                pairs: self.pairs,
                password: self.password,
                limit: LONGEST,
            },
            lines: self.lines,
        })
    }

    fn line(&mut self, line: CallLine) -> Result<(), Refusal>
        ensures { Leaves result self.new (Some (with_line self.old (line_said line))) }
    {
        self.lines.push(line)?;
        Ok(())
    }

    fn event(&mut self, event: Event) -> Result<(), Refusal>
        ensures { Leaves result self.new (Some (with_line self.old (Happens event))) }
    {
        self.line(CallLine::Event(event))
    }

    // An event whose line is its verb alone.
    fn alone(&mut self, event: Event, arguments: Arguments) -> Result<(), Refusal>
        ensures { Leaves result self.new
            (asks_for_event self.old (nothing_of arguments) (λ _. event)) }
    {
        arguments.end()?;
        self.event(event)
    }

    // A setting, which stands before `start`.
    fn before_start(&self) -> Result<(), Refusal>
        ensures { ReadsAs result (if_before_start self.now) }
    {
        if self.started {
            return Err(Refusal::Wrong);
        }
        Ok(())
    }

    fn user(&mut self, arguments: Arguments) -> Result<(), Refusal>
        ensures { Leaves result self.new (call_line self.old 0 CallVerb.User arguments) }
    {
        self.before_start()?;
        self.user = arguments.only_text()?;
        Ok(())
    }

    fn database(&mut self, arguments: Arguments) -> Result<(), Refusal>
        ensures { Leaves result self.new (call_line self.old 0 CallVerb.Database arguments) }
    {
        self.before_start()?;
        self.database = Some(arguments.only_text()?);
        Ok(())
    }

    fn parameter(&mut self, arguments: Arguments) -> Result<(), Refusal>
        ensures { Leaves result self.new (call_line self.old 0 CallVerb.Parameter arguments) }
    {
        self.before_start()?;
        self.pairs.push(arguments.only_pair()?)?;
        Ok(())
    }

    fn password(&mut self, arguments: Arguments) -> Result<(), Refusal>
        ensures { Leaves result self.new (call_line self.old 0 CallVerb.Password arguments) }
    {
        self.before_start()?;
        self.password = Some(arguments.only_text()?);
        Ok(())
    }

    fn start(&mut self, arguments: Arguments) -> Result<(), Refusal>
        ensures { Leaves result self.new (call_line self.old 0 CallVerb.Start arguments) }
    {
        self.alone(Event::Call(Call::Start), arguments)?;
        self.started = true;
        Ok(())
    }

    fn query(&mut self, arguments: Arguments) -> Result<(), Refusal>
        ensures { Leaves result self.new (call_line self.old 0 CallVerb.Query arguments) }
    {
        let text = arguments.only_text()?;
        self.event(Event::Call(Call::Request(Request::Query(text))))
    }

    fn group(&mut self, row: usize, arguments: Arguments) -> Result<(), Refusal>
        ensures { Leaves result self.new (call_line self.old row CallVerb.Group arguments) }
    {
        arguments.end()?;
        let steps = Seq::new(Vec::new(self.alloc));
        self.group = Some(Group { row, steps });
        Ok(())
    }

    fn chunk(&mut self, arguments: Arguments) -> Result<(), Refusal>
        ensures { Leaves result self.new (call_line self.old 0 CallVerb.Chunk arguments) }
    {
        let bytes = arguments.only_text()?;
        self.event(Event::Call(Call::Chunk(bytes)))
    }

    fn file(&mut self, arguments: Arguments) -> Result<(), Refusal>
        ensures { Leaves result self.new (call_line self.old 0 CallVerb.File arguments) }
    {
        let path = arguments.only_text()?;
        let path = path_in(path)?;
        self.line(CallLine::File(path))
    }

    fn fail(&mut self, arguments: Arguments) -> Result<(), Refusal>
        ensures { Leaves result self.new (call_line self.old 0 CallVerb.Fail arguments) }
    {
        let reason = arguments.only_text()?;
        self.event(Event::Call(Call::Fail(reason)))
    }

    fn to_backend(&mut self, arguments: Arguments) -> Result<(), Refusal>
        ensures { Leaves result self.new (call_line self.old 0 CallVerb.ToBackend arguments) }
    {
        let count = arguments.only_number()?;
        self.event(Event::ToBackend(count))
    }

    fn to_client(&mut self, arguments: Arguments) -> Result<(), Refusal>
        ensures { Leaves result self.new (call_line self.old 0 CallVerb.ToClient arguments) }
    {
        let count = arguments.only_number()?;
        self.event(Event::ToClient(count))
    }

    fn flow(&mut self, arguments: Arguments) -> Result<(), Refusal>
        ensures { Leaves result self.new (call_line self.old 0 CallVerb.Flow arguments) }
    {
        arguments.end()?;
        self.line(CallLine::Flow)
    }
}

// A path, which is UTF-8.
fn path_in(bytes: Seq<u8>) -> Result<String, Refusal>
    ensures { GivesText result (path bytes) }
{
    match String::from_utf8(bytes.into_vec()) {
        Ok(path) => Ok(path),
        Err(_) => Err(Refusal::Wrong),
    }
}
