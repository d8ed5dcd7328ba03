//! Shows the byte stream of a PostgreSQL backend or client, a line a message; converts COPY files; runs a client's calls against a
//! scripted backend; and serves clients from a script.
#![tactic(auto)]

ghost use Rattle.pgpipe_tasks.specs.Tasks.{IsTask};

use pg_pair::{Carry, Direct};
use pg_wire::{Over, Patient};
use pgpipe_cli::{
    BothDone, Listening, connect_to_itself, do_both, do_task, exit_code, explain, serve_file,
};
use pgpipe_explain::Tracked;
use pgpipe_reasons::{
    Disk, Failure, FirstBytes, NotedDisk, Reason, Subject, Watched, both_reason, file_failure,
    file_reason, stream_reason, task_reason, words_failure,
};
use pgpipe_show::{Colored, Form, Line};
use pgpipe_tasks::{Asked, ServeTask, Showing, Task, Telling, asked_of};
use standard_streams::{ClosedStream, all_open};
use std::env::VarError;
use std::io::{IsTerminal, Read};
use std::net::Net;
use std::process::ExitCode;
use std::rt::{Env, Files};
use std::time::Clock;
use std::{env, fs, io};

fn main(rt: HostRuntime) -> ExitCode {
    // before anything is opened, which would take the place of a stream that is closed
    let streams = all_open(&rt.stdin(), &rt.stdout(), &rt.stderr());
    let terminal = rt.stdout().is_terminal();
    let Ended { status, reason } = run(&rt, streams, terminal);
    if let Err(failure) = &status {
        // where this can't be written, the status still says it
        let _ = eprintln!(rt; "pgpipe: {failure}");
        if let Some(reason) = &reason {
            let _ = eprintln!(rt; "pgpipe: {reason}");
        }
    }
    exit_code(&status)
}

// How the program ends, and why, if that is to be explained.
#[derive(Drop)]
struct Ended {
    status: Result<ExitCode, Failure>,
    reason: Option<Reason>,
}

// The program ends so, and that isn't explained.
fn plainly(status: Result<ExitCode, Failure>) -> Ended {
    Ended {
        status,
        reason: None,
    }
}

// The program ends with a failure, for this reason, if that is to be explained.
fn failed(telling: Telling, failure: Failure, reason: Option<Reason>) -> Ended {
    Ended {
        status: Err(failure),
        reason: if telling.explain { reason } else { None },
    }
}

// Does what the words ask for, for a standard output that is a terminal or isn't.
fn run<R: Env + Files + Net + Clock + Input + Print + Eprint + AllocGlobal>(
    rt: &R,
    streams: Result<(), ClosedStream>,
    terminal: bool,
) -> Ended {
    let words = match words(rt) {
        Ok(words) => words,
        Err(failure) => return plainly(Err(failure)),
    };
    let Asked { task, telling } = match asked_of(rt.alloc(), words.as_slice()) {
        Ok(asked) => asked,
        Err(error) => return plainly(explain(rt, &error)),
    };
    // What is opened would take the place of a closed output. Of the other streams nothing is read or written meanwhile.
    if opens_first(&task) && matches!(streams, Err(ClosedStream::Output)) {
        return failed(telling, Failure::Device, Some(Reason::Closed));
    }
    if let Task::Serve(serving) = &task {
        return serve(rt, serving, telling);
    }
    let color = terminal && is_decoded(&task) && allows_color(rt);
    run_task(rt, task, telling, color)
}

// The words of the command line.
fn words<R: Env + AllocGlobal>(rt: &R) -> Result<Vec<String>, Failure> {
    env::args(rt)
        .map_err(|error| words_failure(&error))?
        .collect(rt.alloc())
        .map_err(|_| Failure::Memory)
}

// Whether a task prints the messages of one stream decoded, the lines that are coloured on a terminal.
fn is_decoded(task: &Task) -> bool {
    match task {
        Task::Show(showing) => {
            let decoded = matches!(showing.form, Form::Frames(Line::Decoded));
            decoded && !showing.summary && !showing.names_sides()
        }
        _ => false,
    }
}

// Whether the environment leaves colours on: no-color.org's `NO_COLOR` isn't set or is empty, and `TERM` isn't `dumb`.
fn allows_color<R: Env + AllocGlobal>(rt: &R) -> bool {
    let plain = match env::var(rt, "NO_COLOR") {
        Ok(value) => !value.is_empty(),
        Err(VarError::NotPresent) => false,
        Err(_) => true,
    };
    !plain && !matches!(env::var(rt, "TERM"), Ok(term) if term.as_str() == "dumb")
}

// Whether a task opens a file, a connection or a port before anything is printed, and then prints.
fn opens_first(task: &Task) -> bool {
    match task {
        Task::Serve(_) => true,
        Task::Show(showing) => showing.names_sides() || showing.file.is_some(),
        _ => task.is_over_tcp() || task.input_file().is_some(),
    }
}

// The file of this path, opened, if there is a path. If it can't be: how that ends, and why.
fn open_named<R: Files + AllocGlobal>(
    rt: &R,
    path: Option<&str>,
) -> Result<Option<R::File>, (Failure, Option<Reason>)> {
    let Some(path) = path else {
        return Ok(None);
    };
    match fs::open(rt, path) {
        Ok(file) => Ok(Some(file)),
        Err(error) => Err((
            file_failure(&error),
            match String::from_str(rt.alloc(), path) {
                Ok(path) => Some(Reason::File { path, error }),
                Err(_) => None,
            },
        )),
    }
}

// The file of one side of a connection, opened.
fn open_side<R: Files + AllocGlobal>(
    rt: &R,
    path: Option<&str>,
) -> Result<R::File, (Failure, Option<Reason>)> {
    match open_named(rt, path)? {
        Some(file) => Ok(file),
        None => Err((Failure::Sides, None)),
    }
}

// Prints both sides of a connection, from a file each.
fn run_both<R: Files + Print + AllocGlobal>(rt: &R, showing: &Showing, telling: Telling) -> Ended {
    if !showing.names_both() {
        return failed(telling, Failure::Sides, None);
    }
    let front = match open_side(rt, showing.front_path()) {
        Ok(front) => front,
        Err((failure, reason)) => return failed(telling, failure, reason),
    };
    let back = match open_side(rt, showing.back_path()) {
        Ok(back) => back,
        Err((failure, reason)) => return failed(telling, failure, reason),
    };
    let alloc = rt.alloc();
    let mut front = FirstBytes::new(alloc, Over::new(Patient::new(front)));
    let mut back = FirstBytes::new(alloc, Over::new(Patient::new(back)));
    let mut sink = Over::new(Patient::new(io::writer(rt)));
    let BothDone { result, places } = do_both(alloc, &mut front, &mut back, &mut sink);
    let Err(failure) = result else {
        return plainly(Ok(ExitCode::SUCCESS));
    };
    let input = front.get_ref().last_error().or(back.get_ref().last_error());
    let reason = stream_reason(input, sink.last_error()).or(both_reason(
        &failure,
        places,
        front.first(),
        back.first(),
    ));
    failed(telling, failure, reason)
}

// Does a task other than that of serving clients, its lines in colour or not.
fn run_task<R: Files + Net + Clock + Input + Print + Eprint + AllocGlobal>(
    rt: &R,
    task: Task,
    telling: Telling,
    color: bool,
) -> Ended
    requires { IsTask task }
{
    if let Task::Show(showing) = &task {
        if showing.names_sides() {
            return run_both(rt, showing, telling);
        }
    }
    let file = match open_named(rt, task.input_file()) {
        Ok(file) => file,
        Err((failure, reason)) => return failed(telling, failure, reason),
    };
    if let Some(file) = file {
        return run_over(rt, task, telling, color, file, Direct);
    }
    if !task.is_over_tcp() {
        return run_over(rt, task, telling, color, rt.reader(), Direct);
    }
    match connect_to_itself(rt) {
        Ok(carrier) => run_over(rt, task, telling, color, rt.reader(), carrier),
        Err(failure) => failed(telling, failure, Some(Reason::Carrier)),
    }
}

// Does a task over an input and a carrier, and prints what is asked for about it.
fn run_over<R: Files + Clock + Print + Eprint + AllocGlobal, I: Read + Drop, C: Carry>(
    rt: &R,
    task: Task,
    telling: Telling,
    color: bool,
    input: I,
    carrier: C,
) -> Ended
    requires { IsTask task }
{
    if telling.explain || telling.progress {
        return run_told(rt, task, telling, color, input, carrier);
    }
    let files = Disk::new(rt);
    let mut source = Over::new(Patient::new(input));
    let mut sink = Colored::new(Over::new(Patient::new(io::writer(rt))), color);
    match do_task(rt.alloc(), task, &files, carrier, &mut source, &mut sink) {
        Ok(()) => plainly(Ok(ExitCode::SUCCESS)),
        Err(failure) => plainly(Err(failure)),
    }
}

// Does a task whose streams are followed, so that it can be printed how far it is, and where and why it failed.
fn run_told<R: Files + Clock + Print + Eprint + AllocGlobal, I: Read + Drop, C: Carry>(
    rt: &R,
    task: Task,
    telling: Telling,
    color: bool,
    input: I,
    carrier: C,
) -> Ended
    requires { IsTask task }
{
    let alloc = rt.alloc();
    let subject = Subject::of(&task);
    let files = NotedDisk::new(rt);
    let reader = FirstBytes::new(alloc, Over::new(Patient::new(input)));
    let tracked = Tracked::new(alloc, reader, subject.input());
    let mut source = Watched::new(rt, tracked, subject.input(), telling.progress);
    let writer = Over::new(Patient::new(io::writer(rt)));
    let mut sink = Tracked::new(alloc, Colored::new(writer, color), subject.output());
    let Err(failure) = do_task(alloc, task, &files, carrier, &mut source, &mut sink) else {
        return plainly(Ok(ExitCode::SUCCESS));
    };
    let tracked = source.get_ref();
    let reader = tracked.get_ref();
    let streams = stream_reason(
        reader.get_ref().last_error(),
        sink.get_ref().get_ref().last_error(),
    );
    // a summary is one text, and of it the input ends where the fault is; of the others the output ends there
    let place = if matches!(subject, Subject::Show { summary: true, .. }) {
        Some(tracked.tracker().place)
    } else {
        tracked.place(sink.tracker().place.number)
    };
    let reason = streams
        .or(file_reason(alloc, subject, &failure, files.into_last()))
        .or(task_reason(subject, &failure, place, reader.first()));
    failed(telling, failure, reason)
}

// Serves clients on a port.
fn serve<R: Files + Net + Print + AllocGlobal>(
    rt: &R,
    serving: &ServeTask,
    telling: Telling,
) -> Ended {
    let alloc = rt.alloc();
    let mut clients = match Listening::new(rt, serving.port) {
        Ok(clients) => clients,
        Err(error) => return failed(telling, Failure::Device, Some(Reason::Port(error))),
    };
    let port = clients.port();
    let files = NotedDisk::new(rt);
    let mut sink = Over::new(Patient::new(io::writer(rt)));
    let served = serve_file(alloc, serving, port, &files, &mut clients, &mut sink);
    let Err(failure) = served else {
        return plainly(Ok(ExitCode::SUCCESS));
    };
    let reason = stream_reason(None, sink.last_error())
        .or(file_reason(alloc, Subject::Serve, &failure, files.into_last()))
        .or(task_reason(Subject::Serve, &failure, None, &[]));
    failed(telling, failure, reason)
}
