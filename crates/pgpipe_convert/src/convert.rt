//! Converting a file, over any source and any sink.

ghost use Rattle.std.specs.Prelude.{◌≡◌, ◌<◌, ◌≤◌, ◌++◌, ℕ, List, [], length, false, true, IfOk};
ghost use Rattle.std.specs.Prelude.{OnOk};
ghost use Rattle.std.specs.List.{FoldsTo, concat};
ghost use Rattle.pg_wire.specs.Link.{HasRisen};
ghost use Rattle.pgpipe_base.specs.Receiving.{receive_limit, HasStopped, CountsNoFailure};
ghost use Rattle.pgpipe_base.specs.Receiving.{IsSentAtOnce};
ghost use Rattle.pg_copy.specs.Text.{default_options};
ghost use Rattle.pgpipe_convert.specs.Convert.{FileReading, file_of, file_with, writing_with};
ghost use Rattle.pgpipe_convert.specs.Convert.{AreAllConverted, ConvertAnswers, ConversionAnswers};
ghost use Rattle.pgpipe_convert.specs.Convert.{EndsFile};
ghost use Rattle.pgpipe_convert.specs.Private.Values.{writing_by};
ghost use Rattle.pgpipe_convert.specs.Private.Converting.{file_by, ended_of, HasReadBy, HasWidth};
ghost use Rattle.pgpipe_convert.specs.Private.Converting.{HasConverted, IsAtStep, StepConverts};
ghost use Rattle.pgpipe_convert.specs.Private.Converting.{StepsSource, EndConverts, HasRun};

use crate::copy_rows::{RowReader, put_rows, send_rows};
use crate::format::{Format, RowWriter};
use pg_copy::{BinaryFault, RowFault, TextFault, TextOptions};
use pg_wire::{Sink, Source};
use pgpipe_base::receiving::{MOST_RECEIVES, PIECE};
use pgpipe_base::{Stop, ToolFault};
use std::alloc::Global;

/// How a conversion ended.
#[derive(Clone, Copy, Debug, PartialEq, Eq)]
pub enum Converted {
    /// With the end of a whole file.
    Whole,
    /// With this fault in the place of a row of a text file.
    Text(TextFault),
    /// With this fault in the place of a part of a binary file.
    Binary(BinaryFault),
    /// With a row that can't be written in the other format, for this reason.
    Row(RowFault),
}

// What the work is done with.
#[derive(Drop)]
struct Converting<'a> {
    reader: RowReader,
    to: RowWriter<'a>,
    // what is to be sent
    out: Vec<u8>,
    // where pieces are received
    into: Vec<u8>,
    ghost a_piece: { length into.items ≡ receive_limit },
}

impl Converting<'_> {
    // Receives a piece, and sends the rows that wait then.
    fn step<S: Source, K: Sink>(
        &mut self,
        source: &mut S,
        sink: &mut K,
    ) -> Result<(), Stop<Converted>>
        requires at { IsAtStep self.old.reader }
        requires width { HasWidth (file_by self.old.reader) self.old.to.columns }
        ensures to { self.new.to ≡ self.old.to }
        ensures steps { (piece : List ℕ) × (length piece ≤ receive_limit)
            × S.gives source.old piece source.new
            × ((file : FileReading) (start : K) (bytes : List ℕ)
            (stands : HasConverted K.takes K.failures file (writing_by self.old.to) start bytes
            self.old.reader self.old.out.items sink.old)
            → StepConverts K.takes K.failures file (writing_by self.old.to) (S.has_ended source.new)
            start (bytes ++ piece) stands.text stands.put.pieces result self.new.reader
            self.new.out.items sink.new) }
        ensures source { StepsSource (S.has_ended source.new) (S.failures source.old)
            (S.failures source.new) result }
        ensures nothing_left { OnOk result (self.new.out.items ≡ []) }
    {
        let count = match source.receive(self.into.as_mut_slice()) {
            Ok(0) => return Err(self.end(sink)),
            Ok(count) => count,
            Err(_) => return Err(Stop::SourceFailed),
        };
        self.reader.push(&self.into[..count])?;
        send_rows(&mut self.reader, &mut self.to, &mut self.out, sink)
    }

    // Puts what is left at the end of the input.
    fn end<K: Sink>(&mut self, sink: &mut K) -> Stop<Converted>
        requires at { IsAtStep self.old.reader }
        requires width { HasWidth (file_by self.old.reader) self.old.to.columns }
        ensures to { self.new.to ≡ self.old.to }
        ensures ends { EndConverts K.takes K.failures (writing_by self.old.to) self.old.reader
            self.old.out.items sink.old result self.new.out.items sink.new }
    {
        match put_rows(&mut self.reader, true, &mut self.to, &mut self.out, sink) {
            Ok(()) => match self.to.write_trailer(&mut self.out) {
                Ok(()) => Stop::Answer(Converted::Whole),
                Err(_) => Stop::Memory,
            },
            Err(stop) => stop,
        }
    }

    // Goes on until there is no more to do.
    fn run<S: Source, K: Sink>(&mut self, source: &mut S, sink: &mut K) -> Stop<Converted>
        requires begun { HasConverted K.takes K.failures
            (file_by self.old.reader) (writing_by self.old.to) sink.old [] self.old.reader
            self.old.out.items sink.old }
        requires width { HasWidth (file_by self.old.reader) self.old.to.columns }
        ensures { HasRun S.gives S.failures (S.has_ended source.new) K.takes K.failures
            (file_by self.old.reader) (writing_by self.old.to) source.old sink.old result source.new
            self.new.out.items sink.new }
    {
        for _ in 0..MOST_RECEIVES {
            if let Err(stop) = self.step(source, sink) {
                return stop;
            }
        }
        Stop::Endless
    }
}

// What stands before the first piece.
fn begin<'a>(
    alloc: Global,
    from: Format,
    to: Format,
    columns: u16,
    options: &'a TextOptions,
) -> Result<Converting<'a>, ToolFault>
    requires { (0 < columns) × (columns ≤ 32767) }
    ensures begun { IfOk result (λ work. (writing_by work.to ≡ writing_with options.now to)
        × (work.out.items ≡ (writing_with options.now to).head)
        × (file_by work.reader ≡ file_with options.now from columns)
        × HasReadBy work.reader [] [] × (ended_of work.reader ≡ false)) }
    ensures width { IfOk result (λ work. HasWidth (file_by work.reader) work.to.columns) }
    ensures refused { (fault : ToolFault) → result ≡ Err fault → fault ≡ ToolFault.Memory }
{
    let to = match RowWriter::new(alloc, to, columns, options) {
        Ok(to) => to,
        Err(fault) => return Err(fault),
    };
    let reader = match RowReader::new(alloc, from, columns, options) {
        Ok(reader) => reader,
        Err(fault) => return Err(fault),
    };
    let mut out = Vec::new(alloc);
    match to.write_head(&mut out) {
        Ok(()) => {}
        Err(_) => return Err(ToolFault::Memory),
    }
    match vec![in alloc; 0; PIECE] {
        Ok(into) => Ok(Converting {
            reader,
            to,
            out,
            into,
        }),
        Err(_) => Err(ToolFault::Memory),
    }
}

/// Writes the rows of a COPY file of one format, of so many columns, 1 to 32,767, as a file of the other, or of the same format. Each row is written
/// in its canonical form, in binary between the head and the trailer. Values of a binary file may have up to 1,073,741,823 bytes. The source is read
/// to its end, even after the end mark of a text file.
///
/// Before each `receive` but the first, the head and the rows of all that came are sent. The head and the rows before a fault, or before a row that
/// the format can't have, are sent, and no trailer. `Device` is returned where
/// - the sink failed in this call: a prefix of the file was sent, and what is written for all that was received but the last piece is at most 65,536
///   bytes more; or
/// - the source failed in this call or gave no end in 1,099,511,627,776 receives: the head and the rows in all that was received were sent.
///
/// `Memory` is returned where memory ran out: nothing was received and sent, or whole rows were sent after the head, and none is missing of what came
/// before the last piece, of at most 65,536 bytes.
pub fn convert<S: Source, K: Sink>(
    alloc: Global,
    from: Format,
    to: Format,
    columns: u16,
    source: &mut S,
    sink: &mut K,
) -> Result<Converted, ToolFault>
    requires { (0 < columns) × (columns ≤ 32767) }
    // what was received, what was sent, and the answer for them, where the source may have stopped and the sink broken
    ensures converted { (received sent : List (List ℕ))
        × FoldsTo S.gives source.old received source.new
        × FoldsTo K.takes sink.old sent sink.new × ConvertAnswers
        (HasStopped (S.failures source.old) (S.failures source.new) received)
        (HasRisen (K.failures sink.old) (K.failures sink.new)) (S.has_ended source.new)
        (file_of from columns) to (concat received) (concat sent) result }
    // before each receive but the first, the head and the rows of all that came had been sent
    ensures at_once { (received sent : List (List ℕ))
        × FoldsTo S.gives source.old received source.new × FoldsTo K.takes sink.old sent sink.new
        × IsSentAtOnce (AreAllConverted (file_of from columns) (writing_with default_options to))
        received sent }
    ensures ended { EndsFile (S.has_ended source.new) result }
    // where the answer isn't Device, neither failed
    ensures source { CountsNoFailure (S.failures source.old) result (S.failures source.new) }
    ensures sink { CountsNoFailure (K.failures sink.old) result (K.failures sink.new) }
{
    let options = TextOptions::default();
    convert_with(alloc, from, to, columns, &options, source, sink)
}

/// Converts a COPY file as [`convert`] does, with options for text: the file that is read, the file that is written, or both, where they are text,
/// have these. A row with a text that would be written as the null mark is can't be written (`LikeNull`).
pub fn convert_with<S: Source, K: Sink>(
    alloc: Global,
    from: Format,
    to: Format,
    columns: u16,
    options: &TextOptions,
    source: &mut S,
    sink: &mut K,
) -> Result<Converted, ToolFault>
    requires { (0 < columns) × (columns ≤ 32767) }
    // what was received, what was sent, and the answer for them, where the source may have stopped and the sink broken
    ensures converted { (received sent : List (List ℕ))
        × FoldsTo S.gives source.old received source.new
        × FoldsTo K.takes sink.old sent sink.new × ConversionAnswers
        (HasStopped (S.failures source.old) (S.failures source.new) received)
        (HasRisen (K.failures sink.old) (K.failures sink.new)) (S.has_ended source.new)
        (file_with options.now from columns) (writing_with options.now to) (concat received)
        (concat sent) result }
    // before each receive but the first, the head and the rows of all that came had been sent
    ensures at_once { (received sent : List (List ℕ))
        × FoldsTo S.gives source.old received source.new × FoldsTo K.takes sink.old sent sink.new
        × IsSentAtOnce
        (AreAllConverted (file_with options.now from columns) (writing_with options.now to))
        received sent }
    ensures ended { EndsFile (S.has_ended source.new) result }
    // where the answer isn't Device, neither failed
    ensures source { CountsNoFailure (S.failures source.old) result (S.failures source.new) }
    ensures sink { CountsNoFailure (K.failures sink.old) result (K.failures sink.new) }
{
    let mut work = begin(alloc, from, to, columns, options)?;
    let stop = work.run(source, sink);
    match stop.settle(work.out.as_slice(), sink) {
        Ok(()) => stop.answer(),
        Err(_) => Err(ToolFault::Device),
    }
}
