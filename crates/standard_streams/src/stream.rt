//! A standard stream.

ghost use Rattle.std.specs.Prelude.{Bool};

use std::io::{Stderr, Stdin, Stdout};
use std::os::fd::AsFd;

/// A stream that may be closed.
pub trait Stream {
    /// The stream may be said to be open, or to be closed.
    ghost says: { Self → Bool → Type 0 };

    /// Whether it is open.
    fn is_open(&self) -> bool
        ensures { says self.now result };
}

// Nothing is assumed about the streams of the system that the program runs on.
impl Stream for Stdin {
    ghost says = { λ _ _. Unit {0} };

    fn is_open(&self) -> bool {
        is_in_use(self)
    }
}

impl Stream for Stdout {
    ghost says = { λ _ _. Unit {0} };

    fn is_open(&self) -> bool {
        is_in_use(self)
    }
}

impl Stream for Stderr {
    ghost says = { λ _ _. Unit {0} };

    fn is_open(&self) -> bool {
        is_in_use(self)
    }
}

// The number of the system's error EBADF: nothing is open under a descriptor's number.
const NOT_IN_USE: i32 = 9;

// Whether a descriptor's number is in use. A copy of it is made, above the numbers of the standard streams, and closed again: so it doesn't
// matter whether it may be read or written. Where there is no room for a copy it is in use.
fn is_in_use<S: AsFd>(stream: &S) -> bool {
    match stream.as_fd().try_clone_to_owned() {
        Ok(_copy) => true,
        Err(error) => error.raw_os_error() != Some(NOT_IN_USE),
    }
}
