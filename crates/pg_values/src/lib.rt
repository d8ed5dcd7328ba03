//! The values of rows and parameters, and the fields of errors and notices: read in place in the body of a message, or kept in one
//! block of memory.
//!
//! It is a layer of `pg_wire`. Users name `pg_wire`, which passes on what they need of it.
//!
//! # Files
//!
//! | File | Definitions in `specs/` | What it has |
//! |---|---|---|
//! | `view.rt` | | rows, errors and notices read in place ([`RowView`], [`FieldsView`]), and their iterators |
//! | `values.rt`, `block.rt`, `places.rt`, `first.rt` | | values in one block ([`Values`]) |
//! | `part.rt`, `parameters.rt` | | what an encoder takes as values ([`ValueList`]) and as parameters ([`ParameterList`]) |
//! | `fields.rt`, `text_lengths.rt`, `terminated_fields.rt` | `Fields` | the fields of an error or a notice in one block ([`Fields`]), what each code means, and how a message spells them |
//!
//! **A row that is owned** stands in one block: the bytes after its count, as the message spells them, and at the end where each value begins.
//! So it is judged where it stands, takes one allocation, is copied at once, and written by one append. A contract sees the list of values. The
//! fields of an error stand in a block likewise, and the length of each text in a list beside it.
#![tactic(auto)]

mod block;
mod fields;
mod first;
mod parameters;
mod part;
mod places;
mod terminated_fields;
mod text;
mod text_lengths;
mod values;
mod view;

pub use fields::{Fields, KeptFields, fields_at};
pub use parameters::{ParameterList, TerminatedParameters};
pub use part::{CountedValues, ValueList};
pub use terminated_fields::TerminatedFields;
pub use text::Text;
pub use values::{Values, values_at};
pub use view::{FieldsView, LentFields, LentValues, RowView};
