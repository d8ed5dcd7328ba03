//! What was expected.

use thiserror::Error;

/// What was expected where a fault stands.
#[derive(Clone, Copy, Debug, Error)]
pub enum Rule {
    /// FunctionCallResponse is left out.
    #[error("the answer to a FunctionCall is left out, which large objects are read and written by")]
    FunctionCallResponse,
    /// CopyBothResponse is left out.
    #[error("CopyBothResponse is left out, which begins replication")]
    CopyBothResponse,
    /// NegotiateProtocolVersion is left out.
    #[error("NegotiateProtocolVersion is left out: the client asked for a protocol other than 3.0")]
    NegotiateProtocolVersion,
    /// A tag of a server.
    #[error("no message of a server has this tag")]
    BackTag,
    /// A length field of a message.
    #[error("a length field counts its own 4 bytes, so it is at least 4")]
    LeastLength,
    /// A length field of a message.
    #[error("a length field is at most 1,073,741,823")]
    MostLength,
    /// A body.
    #[error("the body isn't of the layout of a message with this tag")]
    Body,
    /// A first packet of a client.
    #[error("a client begins with a Startup of protocol 3.0, or asks for encryption or to cancel")]
    FirstPacket,
    /// FunctionCall is left out.
    #[error("FunctionCall is left out, which large objects are read and written by")]
    FunctionCall,
    /// A tag of a client.
    #[error("no message of a client has this tag")]
    FrontTag,
    /// A password.
    #[error("a password ends in a zero byte; the answers of SCRAM are left out")]
    Password,
    /// Protocol 3.2 is left out.
    #[error("protocol 3.2 is asked for, and only 3.0 is read: max_protocol_version=3.0")]
    Protocol,
    /// A length field of a client.
    #[error("a length field counts itself: it is at least 4, and at least 8 in a first packet")]
    LeastFrontLength,
    /// A length field of a client.
    #[error("a length field is at most 1,073,741,823, and at most 10,000 in a first packet")]
    MostFrontLength,
    /// A whole message.
    #[error("the stream ends within it")]
    WholeMessage,
    /// A whole message or packet, and nothing after a Cancel.
    #[error("the stream ends within it, or a Cancel came before, after which nothing comes")]
    WholePacket,
    /// A return within a value.
    #[error("lines end in one way in the whole file, and a return within a value is written \\r")]
    Return,
    /// A newline within a value.
    #[error("lines end in one way in the whole file, and a newline within a value is written \\n")]
    Newline,
    /// An escape.
    #[error("a backslash has a byte after it, and the file ends here")]
    Escape,
    /// As many fields as there are columns, and not one.
    #[error("a row has as many fields as --columns says, and this line has one: maybe another --delimiter")]
    Delimited,
    /// As many fields as there are columns.
    #[error("a row has as many fields as --columns says")]
    Columns,
    /// The signature of a binary file.
    #[error("a binary file begins with PGCOPY and 5 bytes that mark it: maybe it is a text file")]
    Signature,
    /// The flags of a binary file.
    #[error("none of the flags 16 to 31 is known")]
    Flags,
    /// The extension of a binary file's header.
    #[error("the length of the header's extension isn't negative")]
    Extension,
    /// As many fields as there are columns, or the trailer.
    #[error("a row has as many fields as --columns says, and after the last one comes -1")]
    FieldCount,
    /// The length of a value.
    #[error("a value has -1, which is null, to 1,073,741,823 bytes")]
    FieldLength,
    /// The trailer of a binary file.
    #[error("the file ends before its trailer, which is -1 in the place of a number of fields")]
    Trailer,
    /// Nothing after the trailer.
    #[error("nothing comes after the trailer")]
    End,
    /// A row's width.
    #[error("a row has 1 to 32,767 fields")]
    Width,
    /// The length of a value that is written.
    #[error("a value of a binary file has at most 2,147,483,647 bytes")]
    WrittenLength,
    /// A value that isn't written as null is.
    #[error("a value that is written as null is would be read as null: take another --null")]
    LikeNull,
    /// One byte for a delimiter.
    #[error("a delimiter is one byte, as a comma is, or a tab, which a shell writes $'\\t'")]
    OneByte,
    /// A byte that may be a delimiter.
    #[error("a delimiter is no newline, return, backslash, dot, letter from a to z or digit")]
    Delimiter,
    /// Bytes that may be a null mark.
    #[error("a null mark has no newline, return or delimiter, isn't \\., and doesn't end in a lone backslash")]
    NullMark,
    /// One copy from the client in an answer.
    #[error("an answer has at most one `copyin`")]
    Copies,
    /// Texts that a message can hold.
    #[error("a text of a message has no zero byte, and a message has at most 1,073,741,823 bytes after its tag")]
    Spelling,
    /// Memory.
    #[error("memory was refused")]
    Memory,
}
