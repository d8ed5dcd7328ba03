//! The files of the system, with a note of what came of the last that was read.

ghost use Rattle.std.specs.Prelude.{◌≡◌, ◌⊎◌};
ghost use Rattle.pgpipe_reasons.specs.declared.failure.Failure.TheVariants.{Device, Memory};

use crate::failure::{Failure, file_failure};
use crate::files::FileStore;
use std::alloc::Global;
use std::cell::Cell;
use std::rt::Files;
use std::{fs, io};

/// What came of the last file that was read.
#[derive(Drop)]
pub enum LastRead {
    /// No file was read, or memory for the note ran out.
    Nothing,
    /// It has these bytes.
    Bytes(Vec<u8>),
    /// The file of this path can't be read, for this reason.
    Refused {
        /// The path.
        path: String,
        /// What the system said.
        error: io::Error,
    },
}

// A note of these bytes.
fn note_of(alloc: Global, bytes: &[u8]) -> LastRead {
    match Vec::from_slice(alloc, bytes) {
        Ok(bytes) => LastRead::Bytes(bytes),
        Err(_) => LastRead::Nothing,
    }
}

// A note that the file of this path can't be read.
fn refusal_of(alloc: Global, path: &str, error: io::Error) -> LastRead {
    match String::from_str(alloc, path) {
        Ok(path) => LastRead::Refused { path, error },
        Err(_) => LastRead::Nothing,
    }
}

/// The files of the system that the program runs on, as [`Disk`](crate::Disk) has them, and a note of what came of the last one that was read.
/// Nothing is assumed about their bytes and the note.
#[derive(Drop)]
pub struct NotedDisk<'a, R> {
    rt: &'a R,
    last: Cell<LastRead>,
}

impl<'a, R> NotedDisk<'a, R> {
    /// The files that this runtime opens, none of which was read.
    pub fn new(rt: &'a R) -> NotedDisk<'a, R> {
        NotedDisk {
            rt,
            last: Cell::new(LastRead::Nothing),
        }
    }

    /// What came of the last file that was read.
    pub fn into_last(self) -> LastRead {
        let NotedDisk { rt: _, last } = self;
        last.into_inner()
    }
}

impl<R: Files + AllocGlobal> FileStore for NotedDisk<'_, R> {
    ghost holds = { λ _ path bytes. Unit {0} };

    ghost fails = { λ _ path failure. (failure ≡ Device) ⊎ (failure ≡ Memory) };

    fn read(&self, path: &str) -> Result<Vec<u8>, Failure> {
        match fs::read(self.rt, path) {
            Ok(bytes) => {
                self.last.set(note_of(self.rt.alloc(), bytes.as_slice()));
                Ok(bytes)
            }
            Err(error) => {
                let failure = file_failure(&error);
                self.last.set(refusal_of(self.rt.alloc(), path, error));
                Err(failure)
            }
        }
    }
}
