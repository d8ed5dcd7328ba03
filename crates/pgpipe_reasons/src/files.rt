//! Where the files of a loop come from.

ghost use Rattle.std.specs.Prelude.{◌≡◌, ◌⊎◌, ℕ, List, IfErr, IfOk};
ghost use Rattle.pgpipe_reasons.specs.declared.failure.Failure.{Failure};
ghost use Rattle.pgpipe_reasons.specs.declared.failure.Failure.TheVariants.{Device, Memory};

use crate::failure::{Failure, file_failure};
use std::fs;
use std::rt::Files;

/// Where the files of a loop come from, by their paths.
pub trait FileStore {
    /// The file of this path may have these bytes.
    ghost holds: { Self → List ℕ → List ℕ → Type 0 };

    /// Reading the file of this path may fail so.
    ghost fails: { Self → List ℕ → Failure → Type 0 };

    /// The bytes of the file at this path, or why it can't be read.
    fn read(&self, path: &str) -> Result<Vec<u8>, Failure>
        ensures held { IfOk result (λ bytes. holds self.now path.now bytes.items) }
        ensures failed { IfErr result (λ failure. fails self.now path.now failure) };
}

/// The files of the system that the program runs on. Nothing is assumed about their bytes.
#[derive(Drop)]
pub struct Disk<'a, R> {
    rt: &'a R,
}

impl<'a, R> Disk<'a, R> {
    /// The files that this runtime opens.
    pub fn new(rt: &'a R) -> Disk<'a, R> {
        Disk { rt }
    }
}

impl<R: Files + AllocGlobal> FileStore for Disk<'_, R> {
    ghost holds = { λ _ path bytes. Unit {0} };

    ghost fails = { λ _ path failure. (failure ≡ Device) ⊎ (failure ≡ Memory) };

    fn read(&self, path: &str) -> Result<Vec<u8>, Failure> {
        fs::read(self.rt, path).map_err(|error| file_failure(&error))
    }
}
