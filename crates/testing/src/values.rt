//! The values that the tests of all crates are written with. Each call fails only where memory runs out.

ghost use Rattle.std.specs.Prelude.{◌≡◌, IfOk};

use pg_wire::{Column, CopyHead, Fields, Request, Seq, Values};
use std::alloc::{AllocError, Global};

/// AuthenticationOk and ReadyForQuery.
pub const WELCOME: [u8; 15] = [b'R', 0, 0, 0, 8, 0, 0, 0, 0, b'Z', 0, 0, 0, 5, b'I'];

/// These bytes, as a list of a message or a script.
pub fn text(alloc: Global, bytes: &[u8]) -> Result<Seq<u8>, AllocError>
    ensures { IfOk result (λ list. list ≡ bytes.now) }
{
    Seq::from_slice(alloc, bytes)
}

/// No element.
pub fn none<T: Drop>(alloc: Global) -> Seq<T> {
    Seq::new(Vec::new(alloc))
}

/// A name and a value.
pub fn pair(alloc: Global, name: &[u8], value: &[u8]) -> Result<(Seq<u8>, Seq<u8>), AllocError> {
    Ok((text(alloc, name)?, text(alloc, value)?))
}

/// A request to run this text.
pub fn query(alloc: Global, bytes: &[u8]) -> Result<Request, AllocError> {
    Ok(Request::Query(text(alloc, bytes)?))
}

/// A row of a value.
pub fn row(alloc: Global, value: &[u8]) -> Result<Values, AllocError> {
    Values::from_slice(alloc, &[Some(value)]).map_err(|_| AllocError)
}

/// A column of this name, of the type text, which no table has.
pub fn column(alloc: Global, name: &[u8]) -> Result<Column, AllocError> {
    Ok(Column {
        name: text(alloc, name)?,
        table_oid: 0,
        attribute: 0,
        type_oid: 25,
        size: -1,
        modifier: -1,
        format: 0,
    })
}

/// The head of a copy with as many formats of 0 as columns.
pub fn head(alloc: Global, binary: bool, columns: usize) -> Result<CopyHead, AllocError> {
    Ok(CopyHead {
        binary,
        formats: Seq::new(vec![in alloc; 0; columns]?),
    })
}

/// The fields of an error, each by its code and its text.
pub fn fields(alloc: Global, list: &[(u8, &[u8])]) -> Result<Fields, AllocError> {
    Fields::from_slice(alloc, list).map_err(|_| AllocError)
}

/// The fields of an error: the code `XX000` and the text `bad`.
pub fn bad(alloc: Global) -> Result<Fields, AllocError> {
    fields(alloc, &[(b'C', b"XX000"), (b'M', b"bad")])
}
