//! A loop over two files: what the backend answers, and what the client is made with and what happens. It is run, or broken everywhere.

ghost use Rattle.std.specs.Prelude.{◌≡◌, IfErr, IfOk, string_bytes};
ghost use Rattle.pgpipe_files.specs.Filling.{next_file};
ghost use Rattle.pgpipe_cli.specs.Doing.{BreaksFiles, BreaksPlayable, RunsFiles, RunsCalls};
ghost use Rattle.pgpipe_cli.specs.LoopFiles.{FailsText, HasText, KeepsCalls, KeepsNamed};
ghost use Rattle.pgpipe_cli.specs.LoopFiles.{KeepsScript, SaysAll, SaysCalls, SaysScript};
ghost use Rattle.pgpipe_cli.specs.LoopFiles.{ReadsScript, ReadsCalls, ReadsFiles, calls_limit};

use pg_backend::Script;
use pg_pair::Carry;
use pg_wire::{Seq, Sink};
use pgpipe_files::{Calls, read_calls, read_script};
use pgpipe_lines::without_comments;
use pgpipe_loop::run_loop::{run_loop, trace_loop};
use pgpipe_loop::{LoopFiles, break_everywhere};
use pgpipe_reasons::{
    Failure, FileStore, break_result_of, calls_failure, check_failure, loop_result_of,
    script_failure,
};
use pgpipe_tasks::LoopTask;
use std::alloc::Global;

// The text of a file, without its comments where it may have any.
fn text_at<F: FileStore>(
    alloc: Global,
    files: &F,
    comments: bool,
    path: &str,
) -> Result<Vec<u8>, Failure>
    ensures text { IfOk result (λ text. HasText (F.holds files.now) (F.fails files.now) comments
        path.now text.items) }
    ensures failed { IfErr result (FailsText (F.holds files.now) (F.fails files.now) comments
        path.now) }
{
    let bytes = files.read(path)?;
    if comments {
        return without_comments(alloc, bytes.as_slice()).map_err(|_| Failure::Memory);
    }
    Ok(bytes)
}

// The script that a text says.
fn script_in(alloc: Global, text: &[u8]) -> Result<Script, Failure>
    ensures { SaysScript text.now result }
{
    match read_script(alloc, text) {
        Ok(script) => Ok(script),
        Err(fault) => Err(script_failure(fault)),
    }
}

// The script that a task names.
fn script_of<F: FileStore>(alloc: Global, files: &F, task: &LoopTask) -> Result<Script, Failure>
    ensures { ReadsScript (F.holds files.now) (F.fails files.now) task.now.comments
        (string_bytes task.now.script) result }
{
    let text = text_at(alloc, files, task.comments, task.script.as_str())?;
    script_in(alloc, text.as_slice())
}

// The calls that a text says.
fn calls_in(alloc: Global, text: &[u8]) -> Result<Calls, Failure>
    ensures { SaysCalls text.now result }
{
    match read_calls(alloc, text) {
        Ok(calls) => Ok(calls),
        Err(fault) => Err(calls_failure(fault)),
    }
}

// Reads the files that the calls name, each into its place.
fn fill<F: FileStore>(alloc: Global, files: &F, calls: Calls) -> Result<Calls, Failure>
    ensures { ReadsFiles (F.holds files.now) (F.fails files.now) calls result }
{
    let mut filled = calls;
    while let Some(path) = filled.next_file() {
        let bytes = files.read(path)?;
        filled
            .fill(alloc, bytes.as_slice())
            .map_err(|_| Failure::Memory)?;
    }
    Ok(filled)
}

// The calls that a task names, with the files that they name.
fn calls_of<F: FileStore>(alloc: Global, files: &F, task: &LoopTask) -> Result<Calls, Failure>
    ensures { ReadsCalls (F.holds files.now) (F.fails files.now) task.now.comments
        (string_bytes task.now.calls) result }
{
    let text = text_at(alloc, files, task.comments, task.calls.as_str())?;
    let calls = calls_in(alloc, text.as_slice())?;
    fill(alloc, files, calls)
}

// Runs a loop of a script that is judged first, with a trace where the task asks for one.
fn run_judged<C: Carry, K: Sink>(
    alloc: Global,
    task: &LoopTask,
    script: Script,
    calls: Calls,
    carrier: C,
    sink: &mut K,
) -> Result<(), Failure>
    requires limit { calls.settings.limit ≡ calls_limit }
    requires filled { next_file calls.lines ≡ None }
    ensures { RunsCalls C.carries K.takes K.failures carrier task.now sink.old result sink.new
        script (Ok calls) }
{
    script.check(alloc).map_err(|fault| check_failure(fault))?;
    if task.trace {
        return loop_result_of(trace_loop(alloc, script, calls, task.cut, carrier, sink));
    }
    loop_result_of(run_loop(alloc, script, calls, task.cut, carrier, sink))
}

/// Runs the loop of a task: SCRIPT is read, then CALLS, and then the script is judged.
pub fn run_files<F: FileStore, C: Carry, K: Sink>(
    alloc: Global,
    task: &LoopTask,
    files: &F,
    carrier: C,
    sink: &mut K,
) -> Result<(), Failure>
    ensures { RunsFiles C.carries K.takes K.failures carrier task.now sink.old result sink.new
        (F.holds files.now) (F.fails files.now) }
{
    let script = script_of(alloc, files, task)?;
    let calls = calls_of(alloc, files, task)?;
    run_judged(alloc, task, script, calls, carrier, sink)
}

// The text of the script that a task names, and the script.
fn kept_script<F: FileStore>(
    alloc: Global,
    files: &F,
    task: &LoopTask,
) -> Result<(Seq<u8>, Script), Failure>
    ensures { KeepsScript (F.holds files.now) (F.fails files.now) task.now.comments
        (string_bytes task.now.script) result }
{
    let text = text_at(alloc, files, task.comments, task.script.as_str())?;
    let script = script_in(alloc, text.as_slice())?;
    let bytes = Seq::new(text);
    Ok((bytes, script))
}

// The bytes of the files that the calls name, and the calls with each in its place.
fn kept_named<F: FileStore>(
    alloc: Global,
    files: &F,
    calls: Calls,
) -> Result<(Seq<Seq<u8>>, Calls), Failure>
    ensures { KeepsNamed (F.holds files.now) (F.fails files.now) calls result }
{
    let mut filled = calls;
    let mut named = Seq::new(Vec::new(alloc));
    while let Some(path) = filled.next_file() {
        let bytes = files.read(path)?;
        filled
            .fill(alloc, bytes.as_slice())
            .map_err(|_| Failure::Memory)?;
        named.push(Seq::new(bytes)).map_err(|_| Failure::Memory)?;
    }
    Ok((named, filled))
}

// The text of the calls that a task names, and the bytes of the files that they name.
fn kept_calls<F: FileStore>(
    alloc: Global,
    files: &F,
    task: &LoopTask,
) -> Result<(Seq<u8>, Seq<Seq<u8>>), Failure>
    ensures { KeepsCalls (F.holds files.now) (F.fails files.now) task.now.comments
        (string_bytes task.now.calls) result }
{
    let text = text_at(alloc, files, task.comments, task.calls.as_str())?;
    let calls = calls_in(alloc, text.as_slice())?;
    let (named, _) = kept_named(alloc, files, calls)?;
    let bytes = Seq::new(text);
    Ok((bytes, named))
}

// Breaks a loop of these files everywhere, whose script is judged first.
fn break_judged<K: Sink>(
    alloc: Global,
    task: &LoopTask,
    script: &Script,
    files: &LoopFiles,
    sink: &mut K,
) -> Result<(), Failure>
    requires { SaysAll files.now script.now }
    ensures { BreaksPlayable K.takes K.failures task.now sink.old result sink.new files.now
        script.now }
{
    script.check(alloc).map_err(|fault| check_failure(fault))?;
    break_result_of(break_everywhere(alloc, files, task.cut, sink))
}

/// Breaks the loop of a task everywhere. Its files are read once, in the order in which they are for a run, and then the script is judged.
pub fn break_files<F: FileStore, K: Sink>(
    alloc: Global,
    task: &LoopTask,
    files: &F,
    sink: &mut K,
) -> Result<(), Failure>
    ensures { BreaksFiles K.takes K.failures task.now sink.old result sink.new
        (F.holds files.now) (F.fails files.now) }
{
    let (script_text, script) = kept_script(alloc, files, task)?;
    let (calls, named) = kept_calls(alloc, files, task)?;
    let kept = LoopFiles {
        script: script_text,
        calls,
        named,
    };
    break_judged(alloc, task, &script, &kept, sink)
}
