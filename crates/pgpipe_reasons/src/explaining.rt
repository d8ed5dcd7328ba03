//! Why a task failed, by what its streams and files came to.

ghost use Rattle.std.specs.Prelude.{◌≡◌};
ghost use Rattle.pgpipe_reasons.specs.Explaining.{both_reason, carrier_reason, clients_reason};
ghost use Rattle.pgpipe_reasons.specs.Explaining.{convert_reason, side_reason};
ghost use Rattle.pgpipe_reasons.specs.Explaining.{fault_rule, message_reason, rest_rule};
ghost use Rattle.pgpipe_reasons.specs.Explaining.{row_reason, row_rule_of, rule_of, show_reason};
ghost use Rattle.pgpipe_reasons.specs.Explaining.{stream_rule, subject_reason, task_reason};
ghost use Rattle.pgpipe_reasons.specs.Subject.{input_of, output_of, subject_of};

use crate::failure::Failure;
use crate::noted_files::LastRead;
use crate::reason::Reason;
use pg_wire::WireFault;
use pgpipe_convert::Format;
use pgpipe_explain::{
    Guess, Place, Rule, TrackedKind, back_rule, binary_rule, calls_reason, front_rule, guess_of,
    option_rule, row_rule, script_reason, script_rule, side_guess, text_rule,
};
use pgpipe_lines::without_comments;
use pgpipe_show::{BothPlaces, FramePlace};
use pgpipe_tasks::Task;
use std::alloc::Global;
use std::io;

/// What a task is about, without its words.
#[derive(Clone, Copy)]
pub enum Subject {
    /// A stream is shown.
    Show {
        /// Whether it is a client's.
        front: bool,
        /// Whether it is summed up, so that the output has no part for each part of the input.
        summary: bool,
    },
    /// A file is converted.
    Convert {
        /// The format that is read.
        from: Format,
        /// The format that is written.
        to: Format,
    },
    /// A loop is run.
    Loop {
        /// Whether its two files may have comments.
        comments: bool,
    },
    /// Clients are served.
    Serve,
}

// The messages of a client's stream, or of a server's.
fn stream_messages(front: bool) -> TrackedKind
    ensures { result ≡ Rattle.pgpipe_reasons.specs.Subject.stream_messages front }
{
    if front {
        TrackedKind::Front
    } else {
        TrackedKind::Back
    }
}

// The rows of a file of this format.
fn rows_of(format: Format) -> TrackedKind
    ensures { result ≡ Rattle.pgpipe_reasons.specs.Subject.rows_of format }
{
    match format {
        Format::Text => TrackedKind::Text,
        Format::Binary => TrackedKind::Binary,
    }
}

impl Subject {
    /// What a task is about.
    pub fn of(task: &Task) -> Subject
        ensures { result ≡ subject_of task.now }
    {
        match task {
            Task::Show(showing) => Subject::Show {
                front: showing.front,
                summary: showing.summary,
            },
            Task::Convert(conversion) => Subject::Convert {
                from: conversion.from,
                to: conversion.to,
            },
            Task::Loop(task) => Subject::Loop {
                comments: task.comments,
            },
            Task::Serve(_) => Subject::Serve,
        }
    }

    /// What the input has: messages or rows.
    pub fn input(self) -> TrackedKind
        ensures { result ≡ input_of self }
    {
        match self {
            Subject::Show { front, summary: _ } => stream_messages(front),
            Subject::Convert { from, to: _ } => rows_of(from),
            Subject::Loop { comments: _ } => TrackedKind::Back,
            Subject::Serve => TrackedKind::Back,
        }
    }

    /// What standard output gets: a line for each message, or rows.
    pub fn output(self) -> TrackedKind
        ensures { result ≡ output_of self }
    {
        match self {
            Subject::Show {
                front: _,
                summary: _,
            } => TrackedKind::Text,
            Subject::Convert { from: _, to } => rows_of(to),
            Subject::Loop { comments: _ } => TrackedKind::Text,
            Subject::Serve => TrackedKind::Text,
        }
    }
}

// An error of the same kind.
fn again(error: &io::Error) -> io::Error {
    match error.raw_os_error() {
        Some(code) => io::Error::from_raw_os_error(code),
        None => io::Error::from(error.kind()),
    }
}

/// Which of the two streams failed, by their last errors.
pub fn stream_reason(source: Option<&io::Error>, sink: Option<&io::Error>) -> Option<Reason> {
    match (sink, source) {
        (Some(error), _) => Some(Reason::Output(again(error))),
        (None, Some(error)) => Some(Reason::Input(again(error))),
        (None, None) => None,
    }
}

// Why a line of a file that is read as this text is rejected, if the failure names one.
fn line_reason(alloc: Global, failure: &Failure, text: &[u8]) -> Option<Reason> {
    let reason = match failure {
        Failure::Script(row) => script_reason(alloc, text, *row),
        Failure::Calls(row) => calls_reason(alloc, text, *row),
        _ => None,
    };
    match reason {
        Some(reason) => Some(Reason::Line(reason)),
        None => None,
    }
}

// Why a line of a file with these bytes is rejected, if the failure names one. Where the file may have comments, it is read without them.
fn bytes_reason(
    alloc: Global,
    subject: Subject,
    failure: &Failure,
    bytes: &[u8],
) -> Option<Reason> {
    match subject {
        Subject::Loop { comments: true } => match without_comments(alloc, bytes) {
            Ok(text) => line_reason(alloc, failure, text.as_slice()),
            Err(_) => None,
        },
        _ => line_reason(alloc, failure, bytes),
    }
}

/// Why a file of a task that is about this failed, by what came of the last one that was read.
pub fn file_reason(
    alloc: Global,
    subject: Subject,
    failure: &Failure,
    last: LastRead,
) -> Option<Reason> {
    match (failure, last) {
        (Failure::Device, LastRead::Refused { path, error }) => Some(Reason::File { path, error }),
        (_, LastRead::Bytes(bytes)) => bytes_reason(alloc, subject, failure, bytes.as_slice()),
        _ => None,
    }
}

// What was expected in a place of a stream that looks like this.
fn message_reason(place: Option<Place>, rule: Rule, guess: Option<Guess>) -> Reason
    ensures { result ≡ message_reason place rule guess }
{
    match (place, guess) {
        (None, _) => Reason::Rule(rule),
        (Some(place), None) => Reason::Message {
            number: place.number,
            offset: place.offset,
            rule,
        },
        (Some(place), Some(guess)) => Reason::Guessed {
            number: place.number,
            offset: place.offset,
            rule,
            guess,
        },
    }
}

// What was expected in a place of a file.
fn row_reason(from: Format, place: Option<Place>, rule: Rule) -> Reason
    ensures { result ≡ row_reason from place rule }
{
    match (place, from) {
        (None, _) => Reason::Rule(rule),
        (Some(place), Format::Text) => Reason::TextRow {
            number: place.number,
            line: place.line,
            offset: place.offset,
            rule,
        },
        (Some(place), Format::Binary) => Reason::BinaryRow {
            number: place.number,
            offset: place.offset,
            rule,
        },
    }
}

// What a fault of a stream expected.
fn fault_rule(front: bool, fault: WireFault) -> Rule
    ensures { result ≡ fault_rule front fault }
{
    if front {
        front_rule(fault)
    } else {
        back_rule(fault)
    }
}

// What a rest of a stream expected.
fn rest_rule(front: bool) -> Rule
    ensures { result ≡ rest_rule front }
{
    if front {
        Rule::WholePacket
    } else {
        Rule::WholeMessage
    }
}

// What a failure expected of a stream.
fn stream_rule(front: bool, failure: &Failure) -> Option<Rule>
    ensures { result ≡ stream_rule front failure.now }
{
    match failure {
        Failure::Fault(fault) => Some(fault_rule(front, *fault)),
        Failure::Rest(_) => Some(rest_rule(front)),
        _ => None,
    }
}

// What a failure expected of a row.
fn row_rule_of(failure: &Failure) -> Option<Rule>
    ensures { result ≡ row_rule_of failure.now }
{
    match failure {
        Failure::Text(fault) => Some(text_rule(*fault)),
        Failure::Binary(fault) => Some(binary_rule(*fault)),
        Failure::Row(fault) => Some(row_rule(*fault)),
        _ => None,
    }
}

// What a failure expected of words or of a script.
fn rule_of(failure: &Failure) -> Option<Rule>
    ensures { result ≡ rule_of failure.now }
{
    match failure {
        Failure::Options(fault) => Some(option_rule(*fault)),
        Failure::Delimiter => Some(Rule::OneByte),
        Failure::Check(fault) => Some(script_rule(*fault)),
        _ => None,
    }
}

// Why a stream that begins with these bytes isn't shown whole, where the output ends in this place of it.
fn show_reason(front: bool, failure: &Failure, place: Option<Place>, first: &[u8]) -> Option<Reason>
    ensures { result ≡ show_reason front failure.now place first.now }
{
    match stream_rule(front, failure) {
        Some(rule) => Some(message_reason(place, rule, guess_of(front, first))),
        None => None,
    }
}

// Why a file isn't converted whole, where the output ends in this place of it.
fn convert_reason(from: Format, failure: &Failure, place: Option<Place>) -> Option<Reason>
    ensures { result ≡ convert_reason from failure.now place }
{
    match row_rule_of(failure) {
        Some(rule) => Some(row_reason(from, place, rule)),
        None => None,
    }
}

// Why a loop failed where no file and no stream did.
fn carrier_reason(failure: &Failure) -> Option<Reason>
    ensures { result ≡ carrier_reason failure.now }
{
    match failure {
        Failure::Device => Some(Reason::Carrier),
        _ => None,
    }
}

// Why a server failed where no file and no stream did.
fn clients_reason(failure: &Failure) -> Option<Reason>
    ensures { result ≡ clients_reason failure.now }
{
    match failure {
        Failure::Device => Some(Reason::Clients),
        _ => None,
    }
}

// Why a task failed whose words and script are right.
fn subject_reason(
    subject: Subject,
    failure: &Failure,
    place: Option<Place>,
    first: &[u8],
) -> Option<Reason>
    ensures { result ≡ subject_reason subject failure.now place first.now }
{
    match subject {
        Subject::Show { front, summary: _ } => show_reason(front, failure, place, first),
        Subject::Convert { from, to: _ } => convert_reason(from, failure, place),
        Subject::Loop { comments: _ } => carrier_reason(failure),
        Subject::Serve => clients_reason(failure),
    }
}

/// Why a task that is about this failed. Its output ends in this place of its input, and the input begins with these bytes. For a stream, a file,
/// options and a script it is what was expected; for a loop, that its carrier failed; for a server, that no client could be awaited. None: the reason
/// isn't given here.
pub fn task_reason(
    subject: Subject,
    failure: &Failure,
    place: Option<Place>,
    first: &[u8],
) -> Option<Reason>
    ensures { result ≡ task_reason subject failure.now place first.now }
{
    match rule_of(failure) {
        Some(rule) => Some(Reason::Rule(rule)),
        None => subject_reason(subject, failure, place, first),
    }
}

// Why the stream of one side of a connection isn't printed whole, which begins with these bytes and stands at this place.
fn side_reason(front: bool, rule: Rule, place: FramePlace, first: &[u8]) -> Reason
    ensures { result ≡ side_reason front rule place first.now }
{
    let place = Place {
        number: place.number,
        line: 1,
        offset: place.offset,
    };
    // past the first byte the stream is that of its side
    let guess = if place.offset == 0 {
        side_guess(front, first)
    } else {
        None
    };
    message_reason(Some(place), rule, guess)
}

/// Why both sides of a connection, which stand at these places and begin with these bytes, aren't printed whole. None: the reason isn't given here.
pub fn both_reason(
    failure: &Failure,
    places: BothPlaces,
    front: &[u8],
    back: &[u8],
) -> Option<Reason>
    ensures { result ≡ both_reason failure.now places front.now back.now }
{
    match failure {
        Failure::FrontRest(_) => Some(side_reason(true, rest_rule(true), places.front, front)),
        Failure::FrontFault(fault) => {
            Some(side_reason(true, fault_rule(true, *fault), places.front, front))
        }
        Failure::BackRest(_) => Some(side_reason(false, rest_rule(false), places.back, back)),
        Failure::BackFault(fault) => {
            Some(side_reason(false, fault_rule(false, *fault), places.back, back))
        }
        _ => None,
    }
}
