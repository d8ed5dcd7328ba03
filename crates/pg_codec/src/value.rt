//! The values that messages carry.

use pg_seq::{ByElement, DebugElement, Seq};

/// The transaction status of ReadyForQuery ("Message Formats", ReadyForQuery).
#[derive(Clone, Copy, Debug, PartialEq, Eq)]
pub enum Status {
    /// `I`: not in a transaction block.
    Idle,
    /// `T`: in a transaction block.
    InBlock,
    /// `E`: in a failed transaction block, where queries are rejected until it ends.
    Failed,
}

/// What a Describe or a Close names.
#[derive(Clone, Copy, Debug, PartialEq, Eq)]
pub enum Target {
    /// `S`: a prepared statement.
    Statement,
    /// `P`: a portal.
    Portal,
}

/// A column of a RowDescription.
#[derive(Clone, Debug, PartialEq, Eq, Drop)]
pub struct Column {
    /// The column's name, without a zero byte.
    pub name: Seq<u8>,
    /// The object id of the table that the column is of, or 0.
    pub table_oid: u32,
    /// The column's attribute number in that table, or 0.
    pub attribute: i16,
    /// The object id of the column's data type.
    pub type_oid: u32,
    /// The size of the data type; negative where it varies.
    pub size: i16,
    /// The type modifier, whose meaning is the type's own.
    pub modifier: i32,
    /// The format code of the column: 0 is text and 1 is binary. Any other number is kept.
    pub format: i16,
}

impl DebugElement for Column {
    type Form = ByElement;
}

/// A field of an error or a notice ("Error and Notice Message Fields").
#[derive(Clone, Debug, PartialEq, Eq, Drop)]
pub struct ErrorField {
    /// What the field is, as `C` for the SQLSTATE code. It isn't 0. A code that isn't documented is kept, with no effect.
    pub code: u8,
    /// The field's text, without a zero byte.
    pub value: Seq<u8>,
}

impl DebugElement for ErrorField {
    type Form = ByElement;
}

/// What begins a copy: its overall format, and the format code of each column.
#[derive(Clone, Debug, PartialEq, Eq, Drop)]
pub struct CopyHead {
    /// The overall format: false is text, true is binary.
    pub binary: bool,
    /// The format codes of the columns. Any number is kept.
    pub formats: Seq<i16>,
}
