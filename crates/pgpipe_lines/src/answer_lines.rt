//! Reading the lines of SCRIPT that stand in an answer.

ghost use Rattle.std.specs.Prelude.{◌≡◌, option_map};
ghost use Rattle.pgpipe_lines.specs.AnswerLines.{answer_line, begins_part, begins_alone, described};
ghost use Rattle.pgpipe_lines.specs.AnswerLines.{end_of, load_of, new_answer, part_line};
ghost use Rattle.pgpipe_lines.specs.AnswerLines.{says_before, text_column, text_columns, with_part};
ghost use Rattle.pgpipe_lines.specs.AnswerLines.{whole_answer};
ghost use Rattle.pgpipe_lines.specs.Reads.{ReadsAs, Leaves};

use crate::arguments::Arguments;
use crate::fault::Refusal;
use crate::verb::{AnswerVerb, EndWay, LoadWay};
use pg_backend::{Answer, Load, ScriptPart};
use pg_wire::{Aside, Column, ExecEnd, Seq, Status};
use std::alloc::Global;

/// An answer whose lines are being read.
#[derive(Drop)]
pub struct OpenAnswer {
    // without its last part
    answer: Answer,
    last: Option<ScriptPart>,
    types: Option<Types>,
}

/// The types of the parameters of the `described` in the next line.
#[derive(Drop)]
pub struct Types {
    /// The row of their line.
    pub row: usize,
    /// The types.
    pub types: Seq<u32>,
}

impl OpenAnswer {
    /// An answer that ends with this status.
    pub fn new(alloc: Global, status: Status) -> OpenAnswer
        ensures { result ≡ new_answer status }
    {
        OpenAnswer {
            answer: Answer {
                before: Seq::new(Vec::new(alloc)),
                parts: Seq::new(Vec::new(alloc)),
                error: None,
                status,
            },
            last: None,
            types: None,
        }
    }

    /// The answer, of which no more lines come.
    pub fn answer(mut self) -> Result<Answer, Refusal>
        ensures { ReadsAs result (whole_answer self self.types) }
    {
        if self.types.is_some() {
            return Err(Refusal::Wrong);
        }
        self.close()?;
        Ok(self.answer)
    }

    // Ends the last part.
    fn close(&mut self) -> Result<(), Refusal>
        ensures { Leaves result self.new
            (Some (record self.old
            { answer = with_part self.old.last self.old.answer; last = None })) }
    {
        if let Some(part) = self.last.take() {
            self.answer.parts.push(part)?;
        }
        Ok(())
    }

    fn part(&mut self, part: ScriptPart) -> Result<(), Refusal>
        ensures { Leaves result self.new (Some (begins_part self.old part)) }
    {
        self.close()?;
        self.last = Some(part);
        Ok(())
    }

    /// The row of parameters whose `described` has yet to come.
    pub fn row_left_open(&self) -> Option<usize>
        ensures { result ≡ option_map (λ t. t.row) self.now.types }
    {
        match &self.types {
            Some(types) => Some(types.row),
            None => None,
        }
    }

    /// Takes the line in this row.
    #[tactic(auto, unfolding(crate::specs::AnswerLines::answer_line))]
    pub fn take(
        &mut self,
        alloc: Global,
        row: usize,
        verb: AnswerVerb,
        arguments: Arguments,
    ) -> Result<(), Refusal>
        ensures { Leaves result self.new (answer_line self.old row verb arguments) }
    {
        match (self.types.take(), verb) {
            (None, verb) => self.take_any(alloc, row, verb, arguments),
            (Some(types), AnswerVerb::Described) => {
                self.described(alloc, Some(types.types), arguments)
            }
            (Some(_), _) => Err(Refusal::Wrong),
        }
    }

    // Takes a line, where no parameters stand in the one before.
    fn take_any(
        &mut self,
        alloc: Global,
        row: usize,
        verb: AnswerVerb,
        arguments: Arguments,
    ) -> Result<(), Refusal>
        ensures { Leaves result self.new (part_line self.old row verb arguments) }
    {
        match verb {
            AnswerVerb::Notice => self.notice(arguments),
            AnswerVerb::Set => self.set(arguments),
            AnswerVerb::Notify => self.notify(arguments),
            AnswerVerb::Rows => self.rows(alloc, arguments),
            AnswerVerb::Row => self.row(arguments),
            AnswerVerb::Command => self.command(arguments),
            AnswerVerb::Empty => self.alone(ScriptPart::Empty, arguments),
            AnswerVerb::CopyOut => self.copy_out(alloc, arguments),
            AnswerVerb::Chunk => self.chunk(arguments),
            AnswerVerb::CopyIn => self.copy_in(arguments),
            AnswerVerb::Parsed => self.alone(ScriptPart::Parsed, arguments),
            AnswerVerb::Bound => self.alone(ScriptPart::Bound, arguments),
            AnswerVerb::ParamTypes => self.types(row, arguments),
            AnswerVerb::Described => self.described(alloc, None, arguments),
            AnswerVerb::Executed => self.executed(alloc, arguments),
            AnswerVerb::Shut => self.alone(ScriptPart::Shut, arguments),
            AnswerVerb::Error => self.error(arguments),
        }
    }

    fn aside(&mut self, aside: Aside) -> Result<(), Refusal>
        ensures { Leaves result self.new (Some (says_before self.old aside)) }
    {
        self.answer.before.push(aside)?;
        Ok(())
    }

    fn notice(&mut self, arguments: Arguments) -> Result<(), Refusal>
        ensures { Leaves result self.new (part_line self.old 0 AnswerVerb.Notice arguments) }
    {
        self.aside(Aside::Notice(arguments.error_fields()?))
    }

    fn set(&mut self, arguments: Arguments) -> Result<(), Refusal>
        ensures { Leaves result self.new (part_line self.old 0 AnswerVerb.Set arguments) }
    {
        let (name, value) = arguments.only_pair()?;
        self.aside(Aside::Parameter { name, value })
    }

    fn notify(&mut self, mut arguments: Arguments) -> Result<(), Refusal>
        ensures { Leaves result self.new (part_line self.old 0 AnswerVerb.Notify arguments) }
    {
        let process = arguments.signed()?;
        let (channel, payload) = arguments.only_pair()?;
        self.aside(Aside::Notification {
            process,
            channel,
            payload,
        })
    }

    fn rows(&mut self, alloc: Global, mut arguments: Arguments) -> Result<(), Refusal>
        ensures { Leaves result self.new (part_line self.old 0 AnswerVerb.Rows arguments) }
    {
        let tag = arguments.text()?;
        let columns = text_columns(alloc, arguments)?;
        self.part(ScriptPart::Rows {
            columns,
            rows: Seq::new(Vec::new(alloc)),
            tag,
        })
    }

    fn row(&mut self, arguments: Arguments) -> Result<(), Refusal>
        ensures { Leaves result self.new (part_line self.old 0 AnswerVerb.Row arguments) }
    {
        let values = arguments.values()?;
        match &mut self.last {
            Some(ScriptPart::Rows { rows, .. }) => rows.push(values)?,
            Some(ScriptPart::Executed { rows, .. }) => rows.push(values)?,
            _ => return Err(Refusal::Wrong),
        }
        Ok(())
    }

    fn command(&mut self, arguments: Arguments) -> Result<(), Refusal>
        ensures { Leaves result self.new (part_line self.old 0 AnswerVerb.Command arguments) }
    {
        let tag = arguments.only_text()?;
        self.part(ScriptPart::Command(tag))
    }

    // A part whose line is its verb alone.
    fn alone(&mut self, part: ScriptPart, arguments: Arguments) -> Result<(), Refusal>
        ensures { Leaves result self.new (begins_alone self.old arguments part) }
    {
        arguments.end()?;
        self.part(part)
    }

    fn copy_out(&mut self, alloc: Global, mut arguments: Arguments) -> Result<(), Refusal>
        ensures { Leaves result self.new (part_line self.old 0 AnswerVerb.CopyOut arguments) }
    {
        let tag = arguments.text()?;
        let head = arguments.copy_head()?;
        arguments.end()?;
        self.part(ScriptPart::CopyOut {
            head,
            chunks: Seq::new(Vec::new(alloc)),
            tag,
        })
    }

    fn chunk(&mut self, arguments: Arguments) -> Result<(), Refusal>
        ensures { Leaves result self.new (part_line self.old 0 AnswerVerb.Chunk arguments) }
    {
        let bytes = arguments.only_text()?;
        match &mut self.last {
            Some(ScriptPart::CopyOut { chunks, .. }) => {
                chunks.push(bytes)?;
                Ok(())
            }
            _ => Err(Refusal::Wrong),
        }
    }

    fn copy_in(&mut self, mut arguments: Arguments) -> Result<(), Refusal>
        ensures { Leaves result self.new (part_line self.old 0 AnswerVerb.CopyIn arguments) }
    {
        let head = arguments.copy_head()?;
        let load = load_of(arguments)?;
        self.part(ScriptPart::CopyIn { head, load })
    }

    fn types(&mut self, row: usize, arguments: Arguments) -> Result<(), Refusal>
        ensures { Leaves result self.new (part_line self.old row AnswerVerb.ParamTypes arguments) }
    {
        let types = arguments.numbers()?;
        self.types = Some(Types { row, types });
        Ok(())
    }

    fn described(
        &mut self,
        alloc: Global,
        parameters: Option<Seq<u32>>,
        arguments: Arguments,
    ) -> Result<(), Refusal>
        ensures { Leaves result self.new (described self.old parameters arguments) }
    {
        let columns = text_columns(alloc, arguments)?;
        let columns = if columns.is_empty() {
            None
        } else {
            Some(columns)
        };
        self.part(ScriptPart::Described {
            parameters,
            columns,
        })
    }

    fn executed(&mut self, alloc: Global, arguments: Arguments) -> Result<(), Refusal>
        ensures { Leaves result self.new (part_line self.old 0 AnswerVerb.Executed arguments) }
    {
        let end = end_of(arguments)?;
        self.part(ScriptPart::Executed {
            rows: Seq::new(Vec::new(alloc)),
            end,
        })
    }

    fn error(&mut self, arguments: Arguments) -> Result<(), Refusal>
        ensures { Leaves result self.new (part_line self.old 0 AnswerVerb.Error arguments) }
    {
        if self.answer.error.is_some() {
            return Err(Refusal::Wrong);
        }
        self.answer.error = Some(arguments.error_fields()?);
        Ok(())
    }
}

// What becomes of a copy from the client, by the fields after its head.
fn load_of(mut arguments: Arguments) -> Result<Load, Refusal>
    ensures { ReadsAs result (load_of arguments) }
{
    let word = arguments.text()?;
    match LoadWay::named(word.as_slice()).ok_or(Refusal::Wrong)? {
        LoadWay::Accept => Ok(Load::Accept(arguments.only_text()?)),
        LoadWay::Refuse => {
            let after = arguments.number()?;
            let fields = arguments.error_fields()?;
            Ok(Load::Refuse { after, fields })
        }
    }
}

// How a run ended, by the fields of its line.
fn end_of(mut arguments: Arguments) -> Result<ExecEnd, Refusal>
    ensures { ReadsAs result (end_of arguments) }
{
    let word = arguments.text()?;
    match EndWay::named(word.as_slice()).ok_or(Refusal::Wrong)? {
        EndWay::Complete => Ok(ExecEnd::Complete(arguments.only_text()?)),
        EndWay::Empty => {
            arguments.end()?;
            Ok(ExecEnd::Empty)
        }
        EndWay::Suspended => {
            arguments.end()?;
            Ok(ExecEnd::Suspended)
        }
    }
}

// The columns of the names that are left.
fn text_columns(alloc: Global, arguments: Arguments) -> Result<Seq<Column>, Refusal>
    ensures { ReadsAs result (text_columns arguments) }
{
    let mut columns = Seq::new(Vec::new(alloc));
    for name in arguments.texts()? {
        columns.push(text_column(name))?;
    }
    Ok(columns)
}

// A column of no table, of the type text, in the text format.
fn text_column(name: Seq<u8>) -> Column
    ensures { result ≡ text_column name }
{
    Column {
        name,
        table_oid: 0,
        attribute: 0,
        type_oid: 25,
        size: -1,
        modifier: -1,
        format: 0,
    }
}
