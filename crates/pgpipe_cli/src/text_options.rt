//! The options of COPY text that words say.

ghost use Rattle.std.specs.Prelude.{◌≡◌};
ghost use Rattle.pgpipe_cli.specs.TextOptions.{only_byte, ReadsOptions};

use pg_copy::{OptionFault, TextOptions};
use pgpipe_reasons::Failure;
use std::alloc::Global;

// The byte of a text that has one.
fn only_byte(text: &[u8]) -> Option<u8>
    ensures { result ≡ only_byte text.now }
{
    match text {
        [byte] => Some(*byte),
        _ => None,
    }
}

/// The options with this delimiter and this null mark. How long the delimiter is is judged first.
pub fn options_of(alloc: Global, delimiter: &str, null_mark: &str) -> Result<TextOptions, Failure>
    ensures { ReadsOptions (only_byte delimiter.now) null_mark.now result }
{
    let Some(byte) = only_byte(delimiter.as_bytes()) else {
        return Err(Failure::Delimiter);
    };
    match TextOptions::new(alloc, byte, null_mark.as_bytes()) {
        Ok(options) => Ok(options),
        Err(OptionFault::Memory) => Err(Failure::Memory),
        Err(fault) => Err(Failure::Options(fault)),
    }
}
