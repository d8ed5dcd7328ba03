//! What a tool does with bytes that come in pieces, and what it writes. One function of each tool calls it; the others look at what came
//! of that.

use crate::tests::links::{Paper, Pieces, sheet, source_of};
use pg_copy::TextOptions;
use pgpipe_base::ToolFault;
use pgpipe_convert::convert::{Converted, convert};
use pgpipe_convert::{Format, convert_with};
use pgpipe_show::show::{Shown, show};
use std::alloc::Global;

/// From which format to which a file of how many columns is converted.
#[derive(Clone, Copy)]
pub(crate) struct Conversion {
    pub(crate) from: Format,
    pub(crate) to: Format,
    pub(crate) columns: u16,
}

// Conversions of a file of two columns.
pub(crate) const TEXT_TO_TEXT: Conversion = Conversion {
    from: Format::Text,
    to: Format::Text,
    columns: 2,
};

pub(crate) const TEXT_TO_BINARY: Conversion = Conversion {
    from: Format::Text,
    to: Format::Binary,
    columns: 2,
};

pub(crate) const BINARY_TO_TEXT: Conversion = Conversion {
    from: Format::Binary,
    to: Format::Text,
    columns: 2,
};

pub(crate) const BINARY_TO_BINARY: Conversion = Conversion {
    from: Format::Binary,
    to: Format::Binary,
    columns: 2,
};

/// What a tool does.
#[derive(Clone, Copy)]
pub(crate) enum Work {
    Convert(Conversion),
    /// Text has a comma between fields, and this for null.
    ConvertWith(Conversion, &'static [u8]),
    /// The bytes are a client's, or not.
    Show(bool),
}

/// What a tool answers.
#[derive(Clone, Copy, PartialEq, Eq)]
pub(crate) enum ToolAnswer {
    Converted(Converted),
    Shown(Shown),
    Failed(ToolFault),
    /// The options are rejected.
    NoOptions,
}

/// A tool's work with these bytes, which come so many at a time.
#[derive(Clone, Copy)]
pub(crate) struct Task<'a> {
    pub(crate) work: Work,
    pub(crate) bytes: &'a [u8],
    pub(crate) most: usize,
    /// The receive that fails, counted from 1, or 0.
    pub(crate) receive: u64,
    /// The send that fails, counted from 1, or 0.
    pub(crate) send: u64,
}

/// What came of a task.
#[derive(Drop)]
pub(crate) struct Done<'a> {
    pub(crate) answer: ToolAnswer,
    pub(crate) source: Pieces<'a>,
    pub(crate) sink: Paper,
}

fn converted(answer: Result<Converted, ToolFault>) -> ToolAnswer {
    match answer {
        Ok(converted) => ToolAnswer::Converted(converted),
        Err(fault) => ToolAnswer::Failed(fault),
    }
}

fn shown(answer: Result<Shown, ToolFault>) -> ToolAnswer {
    match answer {
        Ok(shown) => ToolAnswer::Shown(shown),
        Err(fault) => ToolAnswer::Failed(fault),
    }
}

fn answer_plain(
    alloc: Global,
    conversion: Conversion,
    source: &mut Pieces<'_>,
    sink: &mut Paper,
) -> ToolAnswer {
    let (from, to) = (conversion.from, conversion.to);
    let columns = conversion.columns.clamp(1, 32_767);
    converted(convert(alloc, from, to, columns, source, sink))
}

fn answer_with(
    alloc: Global,
    conversion: Conversion,
    options: &TextOptions,
    source: &mut Pieces<'_>,
    sink: &mut Paper,
) -> ToolAnswer {
    let (from, to) = (conversion.from, conversion.to);
    let columns = conversion.columns.clamp(1, 32_767);
    converted(convert_with(alloc, from, to, columns, options, source, sink))
}

fn answer_with_null(
    alloc: Global,
    conversion: Conversion,
    null: &[u8],
    source: &mut Pieces<'_>,
    sink: &mut Paper,
) -> ToolAnswer {
    match TextOptions::new(alloc, b',', null) {
        Ok(options) => answer_with(alloc, conversion, &options, source, sink),
        Err(_) => ToolAnswer::NoOptions,
    }
}

fn call(alloc: Global, work: Work, source: &mut Pieces<'_>, sink: &mut Paper) -> ToolAnswer {
    match work {
        Work::Convert(conversion) => answer_plain(alloc, conversion, source, sink),
        Work::ConvertWith(conversion, null) => {
            answer_with_null(alloc, conversion, null, source, sink)
        }
        Work::Show(front) => shown(show(alloc, front, source, sink)),
    }
}

pub(crate) fn perform(alloc: Global, task: Task<'_>) -> Done<'_> {
    let mut source = source_of(task.bytes, task.most, task.receive);
    let mut sink = sheet(alloc, task.send);
    let answer = call(alloc, task.work, &mut source, &mut sink);
    Done {
        answer,
        source,
        sink,
    }
}

/// The bytes come so many at a time, and nothing fails.
pub(crate) fn whole(work: Work, bytes: &[u8], most: usize) -> Task<'_> {
    Task {
        work,
        bytes,
        most,
        receive: 0,
        send: 0,
    }
}

/// The bytes come five at a time, and this receive fails.
pub(crate) fn failing_receive(work: Work, bytes: &[u8], receive: u64) -> Task<'_> {
    Task {
        work,
        bytes,
        most: 5,
        receive,
        send: 0,
    }
}

/// The bytes come five at a time, and this send fails.
pub(crate) fn failing_send(work: Work, bytes: &[u8], send: u64) -> Task<'_> {
    Task {
        work,
        bytes,
        most: 5,
        receive: 0,
        send,
    }
}

/// Whether a task is answered so, and writes this.
pub(crate) fn gives(alloc: Global, task: Task<'_>, answer: ToolAnswer, written: &[u8]) -> bool {
    let done = perform(alloc, task);
    done.answer == answer && done.sink.text.as_slice() == written
}

/// Whether a receive of the task failed, once, and just so many bytes of what is wanted were written before.
pub(crate) fn stops_at_receive(alloc: Global, task: Task<'_>, size: usize, wanted: &[u8]) -> bool {
    let done = perform(alloc, task);
    let failed = done.answer == ToolAnswer::Failed(ToolFault::Device);
    failed && done.source.failures == 1 && done.sink.took(size, wanted)
}

/// Whether a send of the task failed, once, and just so many bytes of what is wanted were written before.
pub(crate) fn stops_at_send(alloc: Global, task: Task<'_>, size: usize, wanted: &[u8]) -> bool {
    let done = perform(alloc, task);
    let failed = done.answer == ToolAnswer::Failed(ToolFault::Device);
    failed && done.sink.failures == 1 && done.sink.took(size, wanted)
}
