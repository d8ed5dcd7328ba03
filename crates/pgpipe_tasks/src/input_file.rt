//! The file that a task reads in the place of standard input.

ghost use Rattle.std.specs.Prelude.{◌≡◌, option_copied, option_map, IfOk, codes, string_bytes};
ghost use Rattle.clap.specs.Words.{first_value, found_of};

use clap::ArgMatches;
use std::alloc::{AllocError, Global};

/// The path that an argument names, if it was given.
pub fn path_of(
    alloc: Global,
    matches: &ArgMatches<'_>,
    name: &str,
) -> Result<Option<String>, AllocError>
    ensures { IfOk result (λ path.
        option_map string_bytes path ≡ first_value (found_of matches.now) name.now) }
{
    match matches.get_str(name) {
        Some(path) => Ok(Some(String::from_str(alloc, path)?)),
        None => Ok(None),
    }
}

/// The path FILE, if it was given.
pub fn file_of(alloc: Global, matches: &ArgMatches<'_>) -> Result<Option<String>, AllocError>
    ensures { IfOk result (λ path.
        option_map string_bytes path ≡ first_value (found_of matches.now) (codes "FILE")) }
{
    path_of(alloc, matches, "FILE")
}

/// A path that may be missing, lent.
pub fn lent(path: &Option<String>) -> Option<&str>
    ensures { option_copied result ≡ option_map string_bytes path.now }
{
    match path {
        Some(path) => Some(path.as_str()),
        None => None,
    }
}
