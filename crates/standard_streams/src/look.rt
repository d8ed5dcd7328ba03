//! The look at all three streams.

ghost use Rattle.standard_streams.specs.Look.{LooksAtAll};

use crate::stream::Stream;
use thiserror::Error;

/// The standard stream that is closed.
#[derive(Clone, Copy, Debug, PartialEq, Eq, Error)]
pub enum ClosedStream {
    /// What is printed would go elsewhere.
    #[error("standard output is closed")]
    Output,
    /// Messages and errors would go elsewhere.
    #[error("standard error is closed")]
    Errors,
    /// What is read would come from elsewhere.
    #[error("standard input is closed")]
    Input,
}

/// Checks that all three are open. The error is the first closed one of output, errors and input.
pub fn all_open<I: Stream, O: Stream, E: Stream>(
    input: &I,
    output: &O,
    errors: &E,
) -> Result<(), ClosedStream>
    ensures { LooksAtAll (I.says input.now) (O.says output.now) (E.says errors.now) result }
{
    if !output.is_open() {
        return Err(ClosedStream::Output);
    }
    if !errors.is_open() {
        return Err(ClosedStream::Errors);
    }
    if !input.is_open() {
        return Err(ClosedStream::Input);
    }
    Ok(())
}
