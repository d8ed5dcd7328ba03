//! What `{:?}` writes of a message of the frontend.

ghost use Rattle.pg_message.specs.Shown.{shown_front};

use crate::message::FrontMessage;
use pg_codec::Target;
use pg_seq::Seq;
use std::fmt;

fn write_bytes<W: fmt::Write>(
    variant: &str,
    bytes: &Seq<u8>,
    f: &mut fmt::Formatter<W>,
) -> fmt::Result {
    f.debug_tuple(variant).field(bytes).finish()
}

fn write_target<W: fmt::Write>(
    variant: &str,
    target: &Target,
    name: &Seq<u8>,
    f: &mut fmt::Formatter<W>,
) -> fmt::Result {
    f.debug_struct(variant)
        .field("target", target)
        .field("name", name)
        .finish()
}

/// `{:?}` writes the variant and its fields, as a derived form does. For a password, or the text of an MD5 answer, it writes `Password(..)`.
impl fmt::Debug for FrontMessage {
    ghost debug_output = { shown_front };

    fn fmt<W: fmt::Write>(&self, f: &mut fmt::Formatter<W>) -> fmt::Result {
        match self {
            FrontMessage::Query(text) => write_bytes("Query", text, f),
            FrontMessage::Parse { name, text, types } => f
                .debug_struct("Parse")
                .field("name", name)
                .field("text", text)
                .field("types", types)
                .finish(),
            FrontMessage::Bind {
                portal,
                statement,
                formats,
                values,
                result_formats,
            } => f
                .debug_struct("Bind")
                .field("portal", portal)
                .field("statement", statement)
                .field("formats", formats)
                .field("values", values)
                .field("result_formats", result_formats)
                .finish(),
            FrontMessage::Describe { target, name } => write_target("Describe", target, name, f),
            FrontMessage::Close { target, name } => write_target("Close", target, name, f),
            FrontMessage::Execute { portal, max_rows } => f
                .debug_struct("Execute")
                .field("portal", portal)
                .field("max_rows", max_rows)
                .finish(),
            FrontMessage::Sync => f.write_str("Sync"),
            FrontMessage::Flush => f.write_str("Flush"),
            FrontMessage::Terminate => f.write_str("Terminate"),
            FrontMessage::CopyData(bytes) => write_bytes("CopyData", bytes, f),
            FrontMessage::CopyDone => f.write_str("CopyDone"),
            FrontMessage::CopyFail(reason) => write_bytes("CopyFail", reason, f),
            FrontMessage::Password(_) => f.write_str("Password(..)"),
        }
    }
}
