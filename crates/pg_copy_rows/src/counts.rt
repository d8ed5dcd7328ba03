//! The numbers that a reader tells.

ghost use Rattle.std.specs.Prelude.{◌≡◌, ◌+◌};
ghost use Rattle.pg_copy_rows.specs.Reading.{told, one_more};

/// The number of rows given, after one more.
pub fn one_more(given: u64) -> u64
    ensures { result ≡ one_more given }
{
    given.saturating_add(1)
}

/// The number after so many bytes more.
pub fn later(offset: u64, size: usize) -> u64
    ensures { result ≡ told (offset + size) }
{
    offset.saturating_add(size as u64)
}
