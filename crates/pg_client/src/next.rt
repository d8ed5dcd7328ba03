//! What an early client gives as rows are lent.

use crate::item::Item;

/// What [`next_lent`](crate::EarlyClient::next_lent) returns.
#[derive(Debug, PartialEq, Drop)]
pub enum Next {
    /// No item waits, and no message is whole any more.
    Nothing,
    /// A row, which [`held`](crate::EarlyClient::held) lends. Its item counts as given.
    Held,
    /// The next item. It isn't a row, unless it waited before the call.
    Item(Item),
}
