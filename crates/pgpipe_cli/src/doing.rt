//! Doing a task, and how the program ends.

ghost use Rattle.std.specs.Prelude.{◌≡◌, MatchResult};
ghost use Rattle.std.specs.Process.{exit_status};
ghost use Rattle.clap.specs.Words.{kind_of};
ghost use Rattle.pgpipe_show.specs.Way.{Way};
ghost use Rattle.pgpipe_cli.specs.Doing.{DoesBoth, DoesTask, DoesShow, DoesShowing, DoesSummary};
ghost use Rattle.pgpipe_cli.specs.Doing.{DoesConvert, DoesLoop};
ghost use Rattle.pgpipe_cli.specs.Ending.{Explains};
ghost use Rattle.pgpipe_reasons.specs.Failure.{failure_status};
ghost use Rattle.pgpipe_tasks.specs.Tasks.{IsTask};
ghost use Rattle.pgpipe_tasks.specs.declared.tasks.Task.TheVariants as task;

use crate::loop_files::{break_files, run_files};
use crate::text_options::options_of;
use clap::error::ErrorKind;
use pg_pair::Carry;
use pg_wire::{Sink, Source};
use pgpipe_convert::convert_with;
use pgpipe_reasons::{Failure, FileStore, both_result_of, conversion_result_of, show_result_of};
use pgpipe_show::show::show_as;
use pgpipe_show::{BothPlaces, Form, show_both, summarize};
use pgpipe_tasks::{Conversion, LoopTask, Task};
use std::alloc::Global;
use std::process::ExitCode;

// Shows what the source gives.
fn do_show<S: Source, K: Sink>(
    alloc: Global,
    form: Form,
    front: bool,
    source: &mut S,
    sink: &mut K,
) -> Result<(), Failure>
    ensures { DoesShow S.gives S.failures S.has_ended K.takes K.failures
        (record { form = form; front = front }) source.old sink.old result source.new sink.new }
{
    show_result_of(show_as(alloc, form, front, source, sink))
}

// Sums up what the source gives.
fn do_summary<S: Source, K: Sink>(
    alloc: Global,
    front: bool,
    source: &mut S,
    sink: &mut K,
) -> Result<(), Failure>
    ensures { DoesSummary S.gives K.takes front source.old sink.old result source.new sink.new }
{
    show_result_of(summarize(alloc, front, source, sink))
}

// Shows or sums up what the source gives.
fn do_showing<S: Source, K: Sink>(
    alloc: Global,
    summary: bool,
    form: Form,
    front: bool,
    source: &mut S,
    sink: &mut K,
) -> Result<(), Failure>
    ensures { DoesShowing S.gives S.failures S.has_ended K.takes K.failures summary
        (record { form = form; front = front }) source.old sink.old result source.new sink.new }
{
    if summary {
        do_summary(alloc, front, source, sink)
    } else {
        do_show(alloc, form, front, source, sink)
    }
}

/// What came of printing both sides of a connection.
#[derive(Drop)]
pub struct BothDone {
    /// How the program ends.
    pub result: Result<(), Failure>,
    /// Where each side stands.
    pub places: BothPlaces,
}

/// Prints both sides of a connection together.
pub fn do_both<F: Source, B: Source, K: Sink>(
    alloc: Global,
    front: &mut F,
    back: &mut B,
    sink: &mut K,
) -> BothDone
    ensures { DoesBoth F.gives F.failures F.has_ended B.gives B.failures B.has_ended K.takes
        K.failures front.old back.old sink.old result.result front.new back.new sink.new }
{
    let shown = show_both(alloc, front, back, sink);
    BothDone {
        result: both_result_of(shown.answer),
        places: shown.places,
    }
}

// Converts what the source gives, once the options are judged.
fn do_convert<S: Source, K: Sink>(
    alloc: Global,
    conversion: Conversion,
    source: &mut S,
    sink: &mut K,
) -> Result<(), Failure>
    requires { IsTask (task.Convert conversion) }
    ensures { DoesConvert S.gives S.failures S.has_ended K.takes K.failures conversion source.old
        sink.old result source.new sink.new }
{
    let Conversion {
        from,
        to,
        columns,
        delimiter,
        null_mark,
        file: _,
    } = conversion;
    let options = options_of(alloc, delimiter.as_str(), null_mark.as_str())?;
    conversion_result_of(convert_with(alloc, from, to, columns, &options, source, sink))
}

// Runs a loop, or breaks it everywhere.
fn do_loop<F: FileStore, C: Carry, K: Sink>(
    alloc: Global,
    task: &LoopTask,
    files: &F,
    carrier: C,
    sink: &mut K,
) -> Result<(), Failure>
    ensures { DoesLoop C.carries K.takes K.failures (F.holds files.now) (F.fails files.now) carrier
        task.now sink.old result sink.new }
{
    if !task.breaks {
        return run_files(alloc, task, files, carrier, sink);
    }
    if task.tcp {
        return Err(Failure::BreaksOverTcp);
    }
    if task.trace {
        return Err(Failure::BreaksTraced);
    }
    break_files(alloc, task, files, sink)
}

/// Does a task, and sends what comes of it. It shows or converts what the source gives, or runs a loop of two files over a carrier, or breaks it
/// everywhere. It doesn't serve clients, as none come here: that task returns Device, and does nothing. [`serve_file`](crate::serve_file) serves
/// them.
pub fn do_task<F: FileStore, C: Carry, S: Source, K: Sink>(
    alloc: Global,
    task: Task,
    files: &F,
    carrier: C,
    source: &mut S,
    sink: &mut K,
) -> Result<(), Failure>
    requires { IsTask task }
    ensures { DoesTask S.gives S.failures S.has_ended K.takes K.failures (F.holds files.now)
        (F.fails files.now) C.carries carrier task source.old sink.old result source.new sink.new }
{
    match task {
        Task::Show(showing) => do_showing(
            alloc,
            showing.summary,
            showing.form,
            showing.front,
            source,
            sink,
        ),
        Task::Convert(conversion) => do_convert(alloc, conversion, source, sink),
        Task::Loop(task) => do_loop(alloc, &task, files, carrier, sink),
        Task::Serve(_) => Err(Failure::Device),
    }
}

/// Prints help, or why the words are no task, and returns the exit status for it.
pub fn explain<R: Print + Eprint>(rt: &R, error: &clap::Error) -> Result<ExitCode, Failure>
    ensures { Explains (kind_of error.now) result }
{
    if matches!(error.kind(), ErrorKind::OutOfMemory) {
        return Err(Failure::Memory);
    }
    error.print(rt).map_err(|_| Failure::Device)?;
    Ok(if error.use_stderr() {
        ExitCode::from(1)
    } else {
        ExitCode::from(0)
    })
}

/// The status that the program ends with.
pub fn exit_code(ended: &Result<ExitCode, Failure>) -> ExitCode
    ensures { MatchResult ended.now (λ code. result ≡ code) (λ failure. exit_status result
        ≡ failure_status failure) }
{
    match ended {
        Ok(code) => *code,
        Err(failure) => ExitCode::from(failure.status()),
    }
}
