//! Reading SCRIPT: what a backend answers.

ghost use Rattle.std.specs.Prelude.{◌≡◌, ◌<◌, ℕ, length, Some, Ok, Err, IfOk, OnErr, IsSome};
ghost use Rattle.pgpipe_lines.specs.declared.fault.LineFault.TheVariants.{Line};
ghost use Rattle.pgpipe_lines.specs.declared.fault.Refusal.TheVariants.{Memory};
ghost use Rattle.pgpipe_lines.specs.AnswerLines.{if_none};
ghost use Rattle.pgpipe_files.specs.Private.Begun.{row_left_open};
ghost use Rattle.pgpipe_files.specs.Private.Reads.{ReadsFileAs};
ghost use Rattle.pgpipe_lines.specs.Reads.{ReadsAs, Leaves};
ghost use Rattle.pgpipe_files.specs.ScriptFile.{auth_of, closed, in_answer, key_of, no_script};
ghost use Rattle.pgpipe_files.specs.ScriptFile.{own_line, salt_of, script_line, script_of};
ghost use Rattle.pgpipe_files.specs.ScriptFile.{script_said, status_named};

use crate::lines::{TakesLines, take_lines};
use hex::FromHex;
use pg_backend::{Answer, Auth, Key, Script};
use pg_wire::{Seq, Status};
use pgpipe_lines::{AnswerVerb, Arguments, AuthWay, LineFault, OpenAnswer, Refusal, ScriptVerb};
use std::alloc::Global;
use std::marker::Model;
use std::str;

/// Reads a script from the bytes of a text file of any width. Each line's first field is its verb, and a line of one empty field is
/// skipped; no field but those of `row` is null.
///
/// | Line | Meaning |
/// |---|---|
/// | `auth` trust; `auth` cleartext PASSWORD; `auth` md5 PASSWORD SALT | how a client is let in; at most once, before the answers; without this line trust |
/// | `pair` NAME VALUE; `key` PROCESS SECRET | a run-time parameter, and the key, at most once; before the answers |
/// | `answer` I, T or E | begins an answer that ends with this status; all lines below stand in one |
/// | `notice` FIELDS; `set` NAME VALUE; `notify` PROCESS CHANNEL PAYLOAD | what is said before the answer, in this order |
/// | `rows` TAG NAME.. | rows with these columns of the type text |
/// | `row` VALUE.. | a row of the `rows` or `executed` that is the last part so far |
/// | `command` TAG; `empty` | the results of that name |
/// | `copyout` TAG FORMAT COUNT; `chunk` BYTES | a copy to the client; a chunk of the `copyout` that is the last part so far |
/// | `copyin` FORMAT COUNT accept TAG; `copyin` FORMAT COUNT refuse NUMBER FIELDS | a copy from the client, that is taken, or that is refused with the chunk of this number, counted from 1, or at once where it is 0 |
/// | `parsed`; `bound`; `shut` | the answers to a Parse, a Bind and a Close |
/// | `paramtypes` OID.. | the types of the parameters of the `described` in the next line |
/// | `described` NAME.. | the answer to a Describe: columns as in `rows`; without a name no columns |
/// | `executed` complete TAG; `executed` empty; `executed` suspended | the answer to an Execute, by how the run ended |
/// | `error` FIELDS | the error that ends the answer, at most once |
///
/// FIELDS is pairs of a code of one byte and a value. A number is decimal, with `-` where it is negative. SALT is 8 hexadecimal digits of
/// either case. FORMAT is `text` or `binary`, and COUNT a number of at most 65,535: so many columns have that format.
///
/// `Line` is the first row that is none of these, stands where it may not, or has a fault of the text format; or that of a `paramtypes`
/// that is the last line. A file without bytes needs no memory.
#[tactic(auto, using(crate::proofs::ScriptLines::begun_bytes), unfolding(crate::specs::ScriptFile::script_of))]
pub fn read_script(alloc: Global, bytes: &[u8]) -> Result<Script, LineFault>
    ensures read { IfOk result (λ script. script_of bytes.now ≡ Ok script) }
    ensures refused { (n : ℕ) → result ≡ Err (Line n) → script_of bytes.now ≡ Err n }
    ensures memory { result ≡ Err LineFault.Memory → 0 < length bytes.now }
{
    let mut draft = ScriptDraft::new(alloc);
    take_lines(alloc, bytes, &mut draft)?;
    draft.script()
}

// A script whose lines are being read.
#[derive(Drop)]
struct ScriptDraft {
    alloc: Global,
    auth: Option<Auth>,
    pairs: Seq<(Seq<u8>, Seq<u8>)>,
    key: Option<Key>,
    // the answers before the one that lines are read of
    answers: Seq<Answer>,
    begun: Option<OpenAnswer>,
}

impl Model for ScriptDraft {
    ghost use Rattle.pgpipe_files.specs.ScriptFile.{ScriptSoFar};

    ghost Value = { ScriptSoFar };

    ghost view = { λ d. record {
      auth = d.auth;
      pairs = d.pairs;
      key = d.key;
      answers = d.answers;
      begun = d.begun;
    } };
}

impl TakesLines for ScriptDraft {
    ghost line = { script_line };

    #[tactic(auto, using(crate::proofs::ScriptLines::no_script_line), unfolding(crate::specs::ScriptFile::script_line))]
    fn take(&mut self, row: usize, verb: &[u8], arguments: Arguments) -> Result<(), Refusal> {
        // no verb has other bytes
        let Ok(verb) = str::from_utf8(verb) else {
            return Err(Refusal::Wrong);
        };
        match ScriptVerb::named(verb) {
            Some(verb) => self.take_own(verb, arguments),
            None => self.take_open(row, verb, arguments),
        }
    }
}

impl ScriptDraft {
    fn new(alloc: Global) -> ScriptDraft
        ensures { result ≡ no_script }
    {
        ScriptDraft {
            alloc,
            auth: None,
            pairs: Seq::new(Vec::new(alloc)),
            key: None,
            answers: Seq::new(Vec::new(alloc)),
            begun: None,
        }
    }

    // Takes a line that stands in no answer, or begins one.
    fn take_own(&mut self, verb: ScriptVerb, arguments: Arguments) -> Result<(), Refusal>
        ensures { Leaves result self.new (own_line self.old verb arguments) }
    {
        match verb {
            ScriptVerb::Auth => self.auth(arguments),
            ScriptVerb::Pair => self.pair(arguments),
            ScriptVerb::Key => self.key(arguments),
            ScriptVerb::Answer => self.answer(arguments),
        }
    }

    // Takes a line that stands in an answer.
    fn take_open(&mut self, row: usize, verb: &str, arguments: Arguments) -> Result<(), Refusal>
        ensures { Leaves result self.new
            (in_answer self.old self.old.begun row verb.now arguments) }
    {
        let Some(open) = &mut self.begun else {
            return Err(Refusal::Wrong);
        };
        let verb = AnswerVerb::named(verb).ok_or(Refusal::Wrong)?;
        open.take(self.alloc, row, verb, arguments)
    }

    // The script, of which no more lines come.
    fn script(mut self) -> Result<Script, LineFault>
        ensures script { ReadsFileAs (λ script. script) result (script_said self) }
        ensures memory { result ≡ Err LineFault.Memory → IsSome self.begun }
    {
        if let Some(row) = self.row_left_open() {
            return Err(LineFault::Line(row));
        }
        self.close().map_err(|_| LineFault::Memory)?;
        Ok(Script {
            auth: self.auth.unwrap_or(Auth::Trust),
            pairs: self.pairs,
            key: self.key,
            answers: self.answers,
        })
    }

    // The row of the parameters whose `described` has yet to come.
    fn row_left_open(&self) -> Option<usize>
        ensures { result ≡ row_left_open self.now.begun }
    {
        match &self.begun {
            Some(open) => open.row_left_open(),
            None => None,
        }
    }

    // A line that stands before the answers.
    fn before_answers(&self) -> Result<(), Refusal>
        ensures { ReadsAs result (if_none self.now.begun) }
    {
        match self.begun {
            None => Ok(()),
            Some(_) => Err(Refusal::Wrong),
        }
    }

    fn auth(&mut self, arguments: Arguments) -> Result<(), Refusal>
        ensures { Leaves result self.new (own_line self.old ScriptVerb.Auth arguments) }
    {
        self.before_answers()?;
        let auth = auth_of(arguments)?;
        if self.auth.is_some() {
            return Err(Refusal::Wrong);
        }
        self.auth = Some(auth);
        Ok(())
    }

    fn pair(&mut self, arguments: Arguments) -> Result<(), Refusal>
        ensures { Leaves result self.new (own_line self.old ScriptVerb.Pair arguments) }
    {
        self.before_answers()?;
        self.pairs.push(arguments.only_pair()?)?;
        Ok(())
    }

    fn key(&mut self, arguments: Arguments) -> Result<(), Refusal>
        ensures { Leaves result self.new (own_line self.old ScriptVerb.Key arguments) }
    {
        self.before_answers()?;
        let key = key_of(arguments)?;
        if self.key.is_some() {
            return Err(Refusal::Wrong);
        }
        self.key = Some(key);
        Ok(())
    }

    fn answer(&mut self, arguments: Arguments) -> Result<(), Refusal>
        ensures { Leaves result self.new (own_line self.old ScriptVerb.Answer arguments) }
    {
        let letter = arguments.only_text()?;
        let status = status_named(letter.as_slice())?;
        self.close()?;
        self.begun = Some(OpenAnswer::new(self.alloc, status));
        Ok(())
    }

    // Ends the answer that lines are read of.
    fn close(&mut self) -> Result<(), Refusal>
        ensures closed { Leaves result self.new (closed self.old) }
        ensures memory { OnErr result (IsSome self.old.begun) }
    {
        if let Some(open) = self.begun.take() {
            self.answers.push(open.answer()?)?;
        }
        Ok(())
    }
}

// How a line `auth` with these fields has a client let in.
fn auth_of(mut arguments: Arguments) -> Result<Auth, Refusal>
    ensures auth { ReadsAs result (auth_of arguments) }
    ensures at_once { result ≡ Err Memory → ⊥ }
{
    let word = arguments.text()?;
    match AuthWay::named(word.as_slice()).ok_or(Refusal::Wrong)? {
        AuthWay::Trust => {
            arguments.end()?;
            Ok(Auth::Trust)
        }
        AuthWay::Cleartext => Ok(Auth::Cleartext(arguments.only_text()?)),
        AuthWay::Md5 => {
            let (password, digits) = arguments.only_pair()?;
            let salt = salt_of(digits.as_slice())?;
            Ok(Auth::Md5 { password, salt })
        }
    }
}

// The salt that 8 hexadecimal digits stand for.
fn salt_of(digits: &[u8]) -> Result<[u8; 4], Refusal>
    ensures salt { ReadsAs result (salt_of digits.now) }
    ensures at_once { result ≡ Err Memory → ⊥ }
{
    <[u8; 4]>::from_hex(digits).map_err(|_| Refusal::Wrong)
}

// The key of these fields.
fn key_of(mut arguments: Arguments) -> Result<Key, Refusal>
    ensures { ReadsAs result (key_of arguments) }
{
    let process = arguments.signed()?;
    let secret = arguments.signed()?;
    arguments.end()?;
    Ok(Key { process, secret })
}

// The status that a letter stands for.
fn status_named(letter: &[u8]) -> Result<Status, Refusal>
    ensures { ReadsAs result (status_named letter.now) }
{
    match letter {
        b"I" => Ok(Status::Idle),
        b"T" => Ok(Status::InBlock),
        b"E" => Ok(Status::Failed),
        _ => Err(Refusal::Wrong),
    }
}
