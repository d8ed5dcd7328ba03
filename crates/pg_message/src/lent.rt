//! Messages of a backend that are read in place.

ghost use Rattle.std.specs.Prelude.{◌≡◌, Some, IsSome};
ghost use Rattle.pg_message.specs.Private.LentReader.{has_lent, lent_body};

use pg_values::{FieldsView, RowView};

/// A message that a decoder lends: nothing of it is copied.
#[derive(Drop)]
pub enum Lent<'a> {
    /// A DataRow.
    Row(RowView<'a>),
    /// An ErrorResponse.
    Error(FieldsView<'a>),
    /// A NoticeResponse.
    Notice(FieldsView<'a>),
}

impl<'a> Lent<'a> {
    /// Whether messages with this tag are lent.
    pub fn has_tag(tag: u8) -> bool
        ensures { result ≡ has_lent tag }
    {
        tag == b'D' || tag == b'E' || tag == b'N'
    }

    /// The message of this tag and this body; None where there is no such message, or it isn't one that is lent.
    pub fn of_body(tag: u8, body: &'a [u8]) -> Option<Lent<'a>>
        ensures { result ≡ lent_body tag body.now }
    {
        match tag {
            b'D' if RowView::is_row(body) => Some(Lent::Row(RowView::of_body(body))),
            b'E' if FieldsView::is_fields(body) => Some(Lent::Error(FieldsView::of_body(body))),
            b'N' if FieldsView::is_fields(body) => Some(Lent::Notice(FieldsView::of_body(body))),
            _ => None,
        }
    }

    /// The message of this tag and this body, for which [`Lent::of_body`] returns one.
    pub fn of_judged(tag: u8, body: &'a [u8]) -> Lent<'a>
        requires { IsSome (lent_body tag body.now) }
        ensures { lent_body tag body.now ≡ Some result }
    {
        match tag {
            b'D' => Lent::Row(RowView::of_body(body)),
            b'E' => Lent::Error(FieldsView::of_body(body)),
            _ => Lent::Notice(FieldsView::of_body(body)),
        }
    }
}
