//! Loops of a script and of calls whose sink or carrier fails; what others print is asked by `.ci/loops`. What a loop is run with costs the prover
//! much, so one function makes it and gives it away, and those that look at what is printed own a sheet.

ghost use Rattle.std.specs.Prelude.{◌≡◌, IfOk};
ghost use Rattle.pg_backend.specs.Check.{IsChecked};
ghost use Rattle.pgpipe_files.specs.Filling.{next_file};

use crate::tests::links::{Paper, sheet};
use pg_backend::Script;
use pg_pair::{Carry, CarryFault, Direct, Way};
use pgpipe_base::ToolFault;
use pgpipe_files::{Calls, read_calls, read_script};
use pgpipe_loop::run_loop::{Ran, run_loop};
use std::alloc::{AllocError, Global};

/// The lines of SCRIPT and of CALLS.
pub(crate) type Files = (&'static [u8], &'static [u8]);

// A script that can be played.
fn checked(alloc: Global, file: &[u8]) -> Result<Script, AllocError>
    ensures { IfOk result IsChecked }
{
    let Ok(script) = read_script(alloc, file) else {
        return Err(AllocError);
    };
    match script.check(alloc) {
        Ok(()) => Ok(script),
        Err(_) => Err(AllocError),
    }
}

// Calls that name no file.
fn filled(alloc: Global, file: &[u8]) -> Result<Calls, AllocError>
    ensures filled { IfOk result (λ calls. next_file calls.lines ≡ None) }
    ensures limit { IfOk result (λ calls. calls.settings.limit ≡ 1073741823) }
{
    let Ok(calls) = read_calls(alloc, file) else {
        return Err(AllocError);
    };
    if calls.next_file().is_some() {
        return Err(AllocError);
    }
    Ok(calls)
}

/// How a loop of these files ends; what it prints is sent to the sink. Memory where the files can't be run.
pub(crate) fn run<C: Carry>(
    alloc: Global,
    files: Files,
    cut: u32,
    carrier: C,
    sink: &mut Paper,
) -> Result<Ran, ToolFault> {
    let script = checked(alloc, files.0)?;
    let calls = filled(alloc, files.1)?;
    run_loop(alloc, script, calls, cut, carrier, sink)
}

/// A query with a row.
pub(crate) const ROW: Files = (
    b"auth\ttrust\nanswer\tI\nrows\tSELECT 1\tn\nrow\t1\n",
    b"user\tu\nstart\nflow\nquery\tSELECT 1\nflow\n",
);

const COPY_IN: &[u8] = b"auth\ttrust\nanswer\tI\ncopyin\ttext\t1\taccept\tCOPY 2\n";

const REFUSED_COPY: &[u8] =
    b"auth\ttrust\nanswer\tI\ncopyin\ttext\t1\trefuse\t2\tC\tXX000\tM\tbad\nanswer\tI\ncommand\tOK\n";

/// A copy that is rejected, and a query after it.
pub(crate) const REFUSED_LOAD: Files = (
    REFUSED_COPY,
    b"user\tu\nstart\nflow\nquery\tCOPY\nflow\nchunk\ta\nchunk\tb\ntoback\t100\nstep\nstep\n\
    chunk\tc\nchunk\td\nchunk\te\ndone\ntoclient\t1000\nquery\tNEXT\nflow\n",
);

/// A copy that is given up.
pub(crate) const GIVEN_UP_LOAD: Files = (
    COPY_IN,
    b"user\tu\nstart\nflow\nquery\tCOPY\nflow\nchunk\ta\nfail\tno\nflow\n",
);

/// A copy that is taken.
pub(crate) const LOAD: Files = (
    COPY_IN,
    b"user\tu\nstart\nflow\nquery\tCOPY\nflow\nchunk\ta\ndone\nflow\n",
);

/// A group of steps, of which the second fails.
pub(crate) const FAILED_GROUP: Files = (
    b"auth\ttrust\nanswer\tI\nparsed\nerror\tC\tXX000\tM\tbad\n",
    b"user\tu\nstart\nflow\ngroup\nparse\t\tSELECT\nbind\t\t\nexecute\t\t0\nsync\nflow\n",
);

const MD5: &[u8] = b"auth\tmd5\tab\t01020304\n";

/// A client whose password is wrong.
pub(crate) const WRONG_PASSWORD: Files = (MD5, b"user\tc\npassword\twrong\nstart\nflow\n");

// Whether a loop stops at its sink, which fails at this call, with a beginning of what the whole one printed.
fn stops(alloc: Global, call: u64, whole: &[u8]) -> bool {
    let mut sink = sheet(alloc, call);
    let ran = run(alloc, ROW, 4_096, Direct, &mut sink);
    let begins = whole.starts_with(sink.text.as_slice());
    ran == Err(ToolFault::Device) && sink.calls == call && begins
}

// Whether a loop stops so at each call of a sink that was made in a whole loop, of which there are some.
fn stops_at_each(alloc: Global, whole: &Paper) -> bool {
    for before in 0..whole.calls {
        if !stops(alloc, before.saturating_add(1), whole.text.as_slice()) {
            return false;
        }
    }
    whole.calls > 0
}

#[test]
fn a_sink_that_fails(rt: HostRuntime) {
    let alloc = rt.alloc();
    let mut whole = sheet(alloc, 0);
    assert!(rt; run(alloc, ROW, 4_096, Direct, &mut whole) == Ok(Ran::Whole));
    assert!(rt; stops_at_each(alloc, &whole));
}

/// Carries nothing.
#[derive(Drop)]
struct Torn {
    failures: u64,
}

impl Carry for Torn {
    ghost failures = { λ c. c.failures };

    ghost carries = { λ _ _ _ _ _. Unit {0} };

    fn carry(&mut self, _way: Way, _piece: &[u8], _into: &mut [u8]) -> Result<usize, CarryFault> {
        self.failures = self.failures.saturating_add(1);
        Err(CarryFault)
    }
}

// Whether the carrier is told to have failed at once, and each call after it is rejected.
fn tears(alloc: Global) -> bool {
    let mut sink = sheet(alloc, 0);
    let ran = run(alloc, ROW, 4_096, Torn { failures: 0 }, &mut sink);
    let lines: &[u8] = b"fault\tcarry\nrefused\tC1\nclient\tstarting\nbackend\tclosed\n";
    ran == Ok(Ran::CarrierFailed) && sink.text.as_slice() == lines
}

#[test]
fn a_carrier_that_fails(rt: HostRuntime) {
    assert!(rt; tears(rt.alloc()));
}
