//! How a stream is shown.

/// What is shown of a stream.
#[derive(Clone, Copy, Debug, PartialEq, Eq)]
pub enum Form {
    /// A line for each message and first packet of the tables, as [`show`](crate::show::show) writes it. The first one that isn't of the tables ends
    /// the stream.
    Messages,
    /// A line for each frame, whatever it is. Only a bad length field ends the stream.
    Frames(Line),
}

/// What stands in the line of a frame.
#[derive(Clone, Copy, Debug, PartialEq, Eq)]
pub enum Line {
    /// The line that [`show`](crate::show::show) writes. For a frame that isn't of the tables it is a question mark, its tag, its length field and
    /// its body.
    Hexadecimal,
    /// Its name and its fields, as a person reads them.
    Decoded,
    /// A JSON object of its name, its length field and its fields.
    Json,
}
