//! What judging the bodies of both directions has in common.

ghost use Rattle.std.specs.Prelude.{◌≡◌, option_copied};
ghost use Rattle.pg_message.specs.Private.Reading.{ends};

/// Whether something was read, and nothing is left.
pub fn is_end(left: Option<&[u8]>) -> bool
    ensures { result ≡ ends (option_copied left.entry) }
{
    match left {
        Some(rest) => rest.is_empty(),
        None => false,
    }
}
