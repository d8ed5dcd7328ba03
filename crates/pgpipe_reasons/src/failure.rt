//! How the program fails.

ghost use Rattle.std.specs.Prelude.{◌≡◌, ◌≢◌};
ghost use Rattle.std.specs.IoError.{error_kind};
ghost use Rattle.pgpipe_reasons.specs.Failure.{failure_status, BothResults, BreakResults};
ghost use Rattle.pgpipe_reasons.specs.Failure.{back_result, ends_result, ShowResults};
ghost use Rattle.pgpipe_reasons.specs.Failure.{ConversionResults, LoopResults, script_failure};
ghost use Rattle.pgpipe_reasons.specs.Failure.{calls_failure, check_failure};

use pg_backend::ScriptFault;
use pg_copy::{BinaryFault, OptionFault, RowFault, TextFault};
use pg_wire::WireFault;
use pgpipe_base::ToolFault;
use pgpipe_convert::convert::Converted;
use pgpipe_lines::LineFault;
use pgpipe_loop::Place;
use pgpipe_loop::run_loop::Ran;
use pgpipe_show::show::Shown;
use pgpipe_show::{BothEnds, Ended};
use std::io;
use std::io::ErrorKind;
use thiserror::Error;

/// Why the program ends with a status other than 0.
#[derive(Debug, Drop, Error)]
pub enum Failure {
    /// A word of the command line isn't UTF-8.
    #[error("a word is not UTF-8")]
    NotUtf8,
    /// The delimiter isn't one byte.
    #[error("delimiter")]
    Delimiter,
    /// A loop that is broken everywhere can't be carried over TCP.
    #[error("--break-everywhere can't go with --tcp")]
    BreaksOverTcp,
    /// A loop that is broken everywhere can't be traced.
    #[error("--break-everywhere can't go with --trace")]
    BreaksTraced,
    /// One of the files of both sides is missing, or another word can't go with them.
    #[error("--front-file and --back-file go together, and with --decode alone")]
    Sides,
    /// COPY text can't have these options, for this reason.
    #[error("{0}")]
    Options(OptionFault),
    /// The stream ends with so many bytes that are no whole message, or come after a Cancel.
    #[error("rest {0}")]
    Rest(usize),
    /// The stream has this fault.
    #[error("{0}")]
    Fault(WireFault),
    /// The client's stream ends with so many bytes that are no whole message.
    #[error("front-file: rest {0}")]
    FrontRest(usize),
    /// The client's stream has this fault.
    #[error("front-file: {0}")]
    FrontFault(WireFault),
    /// The server's stream ends with so many bytes that are no whole message.
    #[error("back-file: rest {0}")]
    BackRest(usize),
    /// The server's stream has this fault.
    #[error("back-file: {0}")]
    BackFault(WireFault),
    /// The streams go on encrypted.
    #[error("encrypted")]
    Encrypted,
    /// The COPY text file has this fault.
    #[error("{0}")]
    Text(TextFault),
    /// The COPY binary file has this fault.
    #[error("{0}")]
    Binary(BinaryFault),
    /// A row can't be written in the other format, for this reason.
    #[error("{0}")]
    Row(RowFault),
    /// The line of SCRIPT in this row, counted from 1, has no meaning there or has a fault of the text format.
    #[error("SCRIPT line {0}")]
    Script(usize),
    /// The line of CALLS in this row, counted from 1, has no meaning there or has a fault of the text format.
    #[error("CALLS line {0}")]
    Calls(usize),
    /// The script can't be played, for this reason.
    #[error("{0}")]
    Check(ScriptFault),
    /// Where the loop was broken in this place, the settled groups weren't seen to be the first of those that the backend has answered.
    #[error("unseen {0}")]
    Unseen(Place),
    /// A file, a stream or a carrier failed.
    #[error("device")]
    Device,
    /// Memory ran out.
    #[error("memory")]
    Memory,
}

impl Failure {
    /// The program's exit status. 1: a wrong word. 2: wrong options, a rest or a fault of what was read, or Unseen. 3: Device. 4: Memory.
    pub fn status(&self) -> u8
        ensures { result ≡ failure_status self.now }
    {
        match self {
            Failure::NotUtf8 => 1,
            Failure::Delimiter => 1,
            Failure::BreaksOverTcp => 1,
            Failure::BreaksTraced => 1,
            Failure::Sides => 1,
            Failure::Options(_) => 2,
            Failure::Rest(_) => 2,
            Failure::Fault(_) => 2,
            Failure::FrontRest(_) => 2,
            Failure::FrontFault(_) => 2,
            Failure::BackRest(_) => 2,
            Failure::BackFault(_) => 2,
            Failure::Encrypted => 2,
            Failure::Text(_) => 2,
            Failure::Binary(_) => 2,
            Failure::Row(_) => 2,
            Failure::Script(_) => 2,
            Failure::Calls(_) => 2,
            Failure::Check(_) => 2,
            Failure::Unseen(_) => 2,
            Failure::Device => 3,
            Failure::Memory => 4,
        }
    }
}

/// The failure of a program that can't have the words of its command line.
pub fn words_failure(error: &io::Error) -> Failure
    ensures memory { error_kind error.now ≡ ErrorKind.OutOfMemory → result ≡ Failure.Memory }
    ensures text { error_kind error.now ≢ ErrorKind.OutOfMemory → result ≡ Failure.NotUtf8 }
{
    match error.kind() {
        ErrorKind::OutOfMemory => Failure::Memory,
        _ => Failure::NotUtf8,
    }
}

/// How the program ends for a result of `show`: only a whole stream is a success.
pub fn show_result_of(answer: Result<Shown, ToolFault>) -> Result<(), Failure>
    ensures { ShowResults answer result }
{
    match answer {
        Ok(Shown::Whole) => Ok(()),
        Ok(Shown::Rest(count)) => Err(Failure::Rest(count)),
        Ok(Shown::Fault(fault)) => Err(Failure::Fault(fault)),
        Err(ToolFault::Device) => Err(Failure::Device),
        Err(ToolFault::Memory) => Err(Failure::Memory),
    }
}

// How the program ends, by how the server's stream ended, where the client's has no fault.
fn back_result(back: Ended) -> Result<(), Failure>
    ensures { result ≡ back_result back }
{
    match back {
        Ended::Whole => Ok(()),
        Ended::Rest(count) => Err(Failure::BackRest(count)),
        Ended::Fault(fault) => Err(Failure::BackFault(fault)),
        Ended::Canceled => Ok(()),
        Ended::Encrypted => Err(Failure::Encrypted),
    }
}

// How the program ends, by how both streams ended: the client's fault comes first.
fn ends_result(front: Ended, back: Ended) -> Result<(), Failure>
    ensures { result ≡ ends_result front back }
{
    match front {
        Ended::Whole => back_result(back),
        Ended::Rest(count) => Err(Failure::FrontRest(count)),
        Ended::Fault(fault) => Err(Failure::FrontFault(fault)),
        Ended::Canceled => back_result(back),
        Ended::Encrypted => Err(Failure::Encrypted),
    }
}

/// How the program ends for a result of `show_both`: only two whole streams are a success.
pub fn both_result_of(answer: Result<BothEnds, ToolFault>) -> Result<(), Failure>
    ensures { BothResults answer result }
{
    match answer {
        Ok(ends) => ends_result(ends.front, ends.back),
        Err(ToolFault::Device) => Err(Failure::Device),
        Err(ToolFault::Memory) => Err(Failure::Memory),
    }
}

/// How the program ends for a result of `convert_with`: only a whole file is a success.
pub fn conversion_result_of(answer: Result<Converted, ToolFault>) -> Result<(), Failure>
    ensures { ConversionResults answer result }
{
    match answer {
        Ok(Converted::Whole) => Ok(()),
        Ok(Converted::Text(fault)) => Err(Failure::Text(fault)),
        Ok(Converted::Binary(fault)) => Err(Failure::Binary(fault)),
        Ok(Converted::Row(fault)) => Err(Failure::Row(fault)),
        Err(ToolFault::Device) => Err(Failure::Device),
        Err(ToolFault::Memory) => Err(Failure::Memory),
    }
}

/// The failure of a program that can't read a file.
pub fn file_failure(error: &io::Error) -> Failure
    ensures memory { error_kind error.now ≡ ErrorKind.OutOfMemory → result ≡ Failure.Memory }
    ensures device { error_kind error.now ≢ ErrorKind.OutOfMemory → result ≡ Failure.Device }
{
    if matches!(error.kind(), ErrorKind::OutOfMemory) {
        return Failure::Memory;
    }
    Failure::Device
}

/// The failure for a fault of SCRIPT.
pub fn script_failure(fault: LineFault) -> Failure
    ensures { result ≡ script_failure fault }
{
    match fault {
        LineFault::Line(number) => Failure::Script(number),
        LineFault::Memory => Failure::Memory,
    }
}

/// The failure for a fault of CALLS.
pub fn calls_failure(fault: LineFault) -> Failure
    ensures { result ≡ calls_failure fault }
{
    match fault {
        LineFault::Line(number) => Failure::Calls(number),
        LineFault::Memory => Failure::Memory,
    }
}

/// The failure for a script that can't be played.
pub fn check_failure(fault: ScriptFault) -> Failure
    ensures { result ≡ check_failure fault }
{
    match fault {
        ScriptFault::Memory => Failure::Memory,
        _ => Failure::Check(fault),
    }
}

/// How the program ends for a result of `run_loop`: a carrier that failed is no success.
pub fn loop_result_of(answer: Result<Ran, ToolFault>) -> Result<(), Failure>
    ensures { LoopResults answer result }
{
    match answer {
        Ok(Ran::Whole) => Ok(()),
        Ok(Ran::CarrierFailed) => Err(Failure::Device),
        Err(ToolFault::Device) => Err(Failure::Device),
        Err(ToolFault::Memory) => Err(Failure::Memory),
    }
}

/// How the program ends for a result of `break_everywhere`: only a result that names no place is a success.
pub fn break_result_of(answer: Result<Option<Place>, ToolFault>) -> Result<(), Failure>
    ensures { BreakResults answer result }
{
    match answer {
        Ok(None) => Ok(()),
        Ok(Some(place)) => Err(Failure::Unseen(place)),
        Err(ToolFault::Device) => Err(Failure::Device),
        Err(ToolFault::Memory) => Err(Failure::Memory),
    }
}
