//! The steps of a reader's calls: walking over its first line, and taking or lending the row of it.

ghost use Rattle.std.specs.Prelude.{◌≡◌, ◌≤◌, ◌+◌, ◌^◌, ◌<◌, Some, None, [], length, take, OnOk};
ghost use Rattle.std.specs.Prelude.{OnErr, IfOk};
ghost use Rattle.pg_copy_rows.specs.declared.fault.TextFault.TheVariants.{Memory};
ghost use Rattle.pg_copy_text.specs.declared.line_end.LineEnd.{LineEnd};
ghost use Rattle.pg_copy_text.specs.declared.text_stage.TextStage.TheVariants.{Lines, Failed};
ghost use Rattle.pg_copy_text.specs.Text.{end_len};
ghost use Rattle.pg_copy_text.specs.TextOptions.{AreOptions};
ghost use Rattle.pg_copy_text.specs.Private.Breaks.{IsFirstLine};
ghost use Rattle.pg_copy_text.specs.Private.Units.{IsCounted, IsScanned, StandsAt};
ghost use Rattle.pg_copy_text.specs.Private.Cuts.{line_cuts};
ghost use Rattle.pg_copy_text.specs.Private.TextRow.{line_values};
ghost use Rattle.pg_copy_text.specs.Private.TextLine.{PutsFirst, let_go, passed, lending};
ghost use Rattle.pg_copy_text.specs.Private.TextLine.{LendsLine, TakesLine, TakesLast, LendsLast};
ghost use Rattle.pg_copy_text.specs.Private.TextLine.{EndsInput, IsLeft, FindsLeft};

use crate::cuts::{finish_cuts, may_differ, put_texts, row_of};
use crate::line_end::LineEnd;
use crate::scan::Scan;
use crate::text_line::{JudgedLine, judge};
use crate::text_options::TextOptions;
use crate::text_reader::TextReader;
use crate::text_stage::TextStage;
use pg_copy_rows::counts::{later, one_more};
use pg_copy_rows::row_buffer::RowBuffer;
use pg_copy_rows::{Row, TextFault};
use std::alloc::{AllocError, Global};
use std::mem;

/// The first line, where the input has ended: how far it was walked over, how many bytes are taken with what ends it, and how lines end from then on.
#[derive(Drop)]
pub struct LineLeft {
    pub scan: Scan,
    pub taken: usize,
    pub line_end: Option<LineEnd>,
}

// Puts the texts of the first line that is kept where its fields stand, or nearer to its beginning, and lets its cuts tell where they end.
fn put_first(
    alloc: Global,
    len: usize,
    options: &TextOptions,
    buffer: &mut RowBuffer,
    cuts: &mut [usize],
)
    requires options { AreOptions options.now }
    requires cuts { cuts.old ≡ line_cuts options.now.delimiter (take len buffer.old.kept) }
    requires in_range { len ≤ length buffer.old.kept }
    ensures puts { PutsFirst len options.now buffer.old.kept buffer.new cuts.new }
    ensures count { length cuts.new ≡ length cuts.old }
{
    if !may_differ(&buffer.kept()[..len], options) {
        buffer.take(0);
        return;
    }
    let (mut block, start) = mem::replace(buffer, RowBuffer::new(alloc)).into_parts();
    put_texts(&mut block.as_mut_slice()[start..start + len], cuts, options);
    *buffer = RowBuffer::of_parts(block, start);
}

impl TextReader {
    // Walks on over the first line, and returns how far it goes and how the line ends, if it does.
    pub(super) fn walk(&mut self) -> (Scan, Option<LineEnd>)
        ensures scanned { IsScanned self.old.options.delimiter self.old.line_end self.old.kept
            result.0 }
        ensures found { (e : LineEnd) → result.1 ≡ Some e → IsFirstLine self.old.line_end
            self.old.kept e result.0.at (result.0.at + end_len e) }
        ensures room { (e : LineEnd) → result.1 ≡ Some e → result.0.at + end_len e < 2 ^ 64 }
        ensures none { result.1 ≡ None → StandsAt self.old.line_end self.old.kept result.0 }
        ensures state { self.new ≡ self.old }
        ensures options { AreOptions self.old.options }
    {
        let delimiter = self.options.delimiter();
        let kept = self.buffer.kept();
        let found = self
            .scan
            .find_end(kept, delimiter, self.line_end, &mut self.cuts);
        (self.scan, found)
    }

    // Judges the first line, which was walked over. Where it is a row, the row is returned, and its bytes are taken with what ends it. Lines end so
    // from then on.
    pub(super) fn take_line(
        &mut self,
        scan: Scan,
        taken: usize,
        line_end: Option<LineEnd>,
    ) -> Result<Option<Row>, TextFault>
        requires lines { self.old.stage ≡ Lines }
        requires options { AreOptions self.old.options }
        requires counted { IsCounted self.old.options.delimiter self.old.kept scan }
        requires in_range { taken ≤ length self.old.kept }
        ensures { TakesLine scan.at taken line_end self.old result self.new }
    {
        let line = &self.buffer.kept()[..scan.at];
        match judge(&self.options, self.columns, line, scan) {
            JudgedLine::EndMark => {
                self.stop(TextStage::Marked);
                Ok(None)
            }
            JudgedLine::Faulty(fault) => {
                self.stop(TextStage::Failed(fault));
                Err(fault)
            }
            JudgedLine::Row(_) => match self.take_row(scan, taken, line_end) {
                Ok(row) => Ok(Some(row)),
                Err(_) => Err(TextFault::Memory),
            },
        }
    }

    // Takes off the first line, which was walked over, with what ends it, and returns its row. Lines end so from then on.
    fn take_row(
        &mut self,
        scan: Scan,
        taken: usize,
        line_end: Option<LineEnd>,
    ) -> Result<Row, AllocError>
        requires lines { self.old.stage ≡ Lines }
        requires options { AreOptions self.old.options }
        requires counted { IsCounted self.old.options.delimiter self.old.kept scan }
        requires in_range { taken ≤ length self.old.kept }
        ensures row { IfOk result (λ row. row
            ≡ line_values self.old.options (take scan.at self.old.kept)) }
        ensures ok { OnOk result (self.new ≡ passed taken line_end self.old) }
        ensures err { OnErr result (self.new ≡ self.old) }
    {
        let line = &self.buffer.kept()[..scan.at];
        finish_cuts(line, scan.delimiters, &self.options, &mut self.cuts)?;
        let row = row_of(self.alloc, line, self.cuts.as_slice(), &self.options);
        self.cuts.clear();
        let row = row?;
        self.buffer.take(taken);
        self.line_end = line_end;
        self.scan = Scan::start();
        self.offset = later(self.offset, taken);
        self.given = one_more(self.given);
        Ok(row)
    }

    // Judges the first line, which was walked over. Where it is a row, the row is lent, and its bytes are taken with what ends it. Lines end so from
    // then on.
    pub(super) fn lend_line(
        &mut self,
        scan: Scan,
        taken: usize,
        line_end: Option<LineEnd>,
    ) -> Result<bool, TextFault>
        requires lines { self.old.stage ≡ Lines }
        requires options { AreOptions self.old.options }
        requires counted { IsCounted self.old.options.delimiter self.old.kept scan }
        requires in_order { scan.at ≤ taken }
        requires in_range { taken ≤ length self.old.kept }
        ensures { LendsLine scan.at taken line_end (let_go self.old) result self.new }
    {
        let line = &self.buffer.kept()[..scan.at];
        match judge(&self.options, self.columns, line, scan) {
            JudgedLine::EndMark => {
                self.stop(TextStage::Marked);
                Ok(false)
            }
            JudgedLine::Faulty(fault) => {
                self.stop(TextStage::Failed(fault));
                Err(fault)
            }
            JudgedLine::Row(_) => match self.hold(scan, taken, line_end) {
                Ok(()) => Ok(true),
                Err(_) => Err(TextFault::Memory),
            },
        }
    }

    // Takes off the first line, which was walked over, with what ends it, and lends its row. Lines end so from then on.
    fn hold(
        &mut self,
        scan: Scan,
        taken: usize,
        line_end: Option<LineEnd>,
    ) -> Result<(), AllocError>
        requires lines { self.old.stage ≡ Lines }
        requires counted { IsCounted self.old.options.delimiter self.old.kept scan }
        requires in_order { scan.at ≤ taken }
        requires in_range { taken ≤ length self.old.kept }
        ensures ok { OnOk result (self.new ≡ lending scan.at taken line_end self.old) }
        ensures err { OnErr result (self.new ≡ let_go self.old) }
    {
        self.buffer.take(0);
        let line = &self.buffer.kept()[..scan.at];
        finish_cuts(line, scan.delimiters, &self.options, &mut self.cuts)?;
        mem::swap(&mut self.cuts, &mut self.held_cuts);
        self.cuts.clear();
        let cuts = self.held_cuts.as_mut_slice();
        put_first(self.alloc, scan.at, &self.options, &mut self.buffer, cuts);
        self.buffer.hold(0, taken);
        self.line_end = line_end;
        self.scan = Scan::start();
        self.offset = later(self.offset, taken);
        self.given = one_more(self.given);
        Ok(())
    }

    // Lends no row any more.
    pub(super) fn let_go(&mut self)
        ensures { self.new ≡ let_go self.old }
    {
        self.buffer.take(0);
    }

    // Reads no more.
    fn stop(&mut self, stage: TextStage)
        requires { stage ≡ Failed Memory → ⊥ }
        ensures { self.new ≡ record self.old { kept = []; stage = stage; held = None } }
    {
        self.buffer.clear();
        self.scan = Scan::start();
        self.cuts.clear();
        self.stage = stage;
    }

    // Returns the row of the next line, or its fault. The last line may be open.
    pub(super) fn last_line(&mut self) -> Result<Option<Row>, TextFault>
        requires { self.old.stage ≡ Lines }
        ensures { TakesLast self.old result self.new }
    {
        match self.line_left() {
            Some(left) => self.take_line(left.scan, left.taken, left.line_end),
            None => {
                self.let_go();
                Ok(None)
            }
        }
    }

    // Lends the row of the next line, or returns its fault. The last line may be open.
    pub(super) fn lend_last(&mut self) -> Result<bool, TextFault>
        requires { self.old.stage ≡ Lines }
        ensures { LendsLast (let_go self.old) result self.new }
    {
        match self.line_left() {
            Some(left) => self.lend_line(left.scan, left.taken, left.line_end),
            None => {
                self.let_go();
                Ok(false)
            }
        }
    }

    // Walks on over the first line, where the input has ended, and returns what is to be taken of it. None where no line is left.
    fn line_left(&mut self) -> Option<LineLeft>
        ensures left { FindsLeft self.old.options.delimiter self.old.line_end self.old.kept result }
        ensures state { self.new ≡ self.old }
        ensures options { AreOptions self.old.options }
    {
        let (scan, found) = self.walk();
        if let Some(end) = found {
            return Some(LineLeft {
                scan,
                taken: scan.at + end.len(),
                line_end: Some(end),
            });
        }
        if self.buffer.kept().is_empty() {
            return None;
        }
        Some(self.open_line(scan))
    }

    // What is to be taken of the last line, which is open, and was walked over, but for a return at its end.
    fn open_line(&self, scan: Scan) -> LineLeft
        requires options { AreOptions self.now.options }
        requires scanned { IsScanned self.now.options.delimiter self.now.line_end self.now.kept
            scan }
        requires stands { StandsAt self.now.line_end self.now.kept scan }
        requires some { 0 < length self.now.kept }
        ensures { IsLeft self.now.options.delimiter self.now.line_end self.now.kept result }
    {
        let len = self.buffer.kept().len();
        if scan.at == len {
            return LineLeft {
                scan,
                taken: len,
                line_end: self.line_end,
            };
        }
        match self.line_end {
            None => LineLeft {
                scan,
                taken: len,
                line_end: Some(LineEnd::Return),
            },
            Some(end) => {
                let whole = scan.after(b'\r', self.options.delimiter());
                LineLeft {
                    scan: whole,
                    taken: len,
                    line_end: Some(end),
                }
            }
        }
    }

    // The input has ended, unless memory ran out.
    pub(super) fn end<T>(&mut self, answer: &Result<T, TextFault>)
        ensures { EndsInput answer.now self.old self.new }
    {
        match answer {
            Err(TextFault::Memory) => {}
            _ => self.ended = true,
        }
    }
}
