//! What was expected where each fault stands.

ghost use Rattle.std.specs.Prelude.{◌≡◌};
ghost use Rattle.pgpipe_explain.specs.Faults.{back_rule, binary_rule, front_rule, option_rule};
ghost use Rattle.pgpipe_explain.specs.Faults.{row_rule, script_rule, text_rule};

use crate::rule::Rule;
use pg_backend::ScriptFault;
use pg_copy::{BinaryFault, OptionFault, RowFault, TextFault};
use pg_wire::WireFault;

/// What was expected of a message of a server.
pub fn back_rule(fault: WireFault) -> Rule
    ensures { result ≡ back_rule fault }
{
    match fault {
        WireFault::UnknownTag(86) => Rule::FunctionCallResponse,
        WireFault::UnknownTag(87) => Rule::CopyBothResponse,
        WireFault::UnknownTag(118) => Rule::NegotiateProtocolVersion,
        WireFault::UnknownTag(_) => Rule::BackTag,
        WireFault::ShortLength(_) => Rule::LeastLength,
        WireFault::LongLength(_) => Rule::MostLength,
        WireFault::BadBody(_) => Rule::Body,
        WireFault::BadFirst(_) => Rule::FirstPacket,
        WireFault::Memory => Rule::Memory,
    }
}

/// What was expected of a message of a client, or of a first packet.
pub fn front_rule(fault: WireFault) -> Rule
    ensures { result ≡ front_rule fault }
{
    match fault {
        WireFault::UnknownTag(70) => Rule::FunctionCall,
        WireFault::UnknownTag(_) => Rule::FrontTag,
        WireFault::ShortLength(_) => Rule::LeastFrontLength,
        WireFault::LongLength(_) => Rule::MostFrontLength,
        WireFault::BadBody(112) => Rule::Password,
        WireFault::BadBody(_) => Rule::Body,
        WireFault::BadFirst(196_610) => Rule::Protocol,
        WireFault::BadFirst(_) => Rule::FirstPacket,
        WireFault::Memory => Rule::Memory,
    }
}

/// What was expected of a line of a COPY text file.
pub fn text_rule(fault: TextFault) -> Rule
    ensures { result ≡ text_rule fault }
{
    match fault {
        TextFault::RawReturn => Rule::Return,
        TextFault::RawNewline => Rule::Newline,
        TextFault::LoneBackslash => Rule::Escape,
        TextFault::Columns(1) => Rule::Delimited,
        TextFault::Columns(_) => Rule::Columns,
        TextFault::Memory => Rule::Memory,
    }
}

/// What was expected of a part of a COPY binary file.
pub fn binary_rule(fault: BinaryFault) -> Rule
    ensures { result ≡ binary_rule fault }
{
    match fault {
        BinaryFault::Signature => Rule::Signature,
        BinaryFault::Flags(_) => Rule::Flags,
        BinaryFault::Extension(_) => Rule::Extension,
        BinaryFault::FieldCount(_) => Rule::FieldCount,
        BinaryFault::FieldLength(_) => Rule::FieldLength,
        BinaryFault::Truncated => Rule::Trailer,
        BinaryFault::AfterTrailer => Rule::End,
        BinaryFault::Memory => Rule::Memory,
    }
}

/// What was expected of a row that is written.
pub fn row_rule(fault: RowFault) -> Rule
    ensures { result ≡ row_rule fault }
{
    match fault {
        RowFault::Width(_) => Rule::Width,
        RowFault::FieldLong => Rule::WrittenLength,
        RowFault::LikeNull(_) => Rule::LikeNull,
        RowFault::Memory => Rule::Memory,
    }
}

/// What was expected of the options of a COPY text file.
pub fn option_rule(fault: OptionFault) -> Rule
    ensures { result ≡ option_rule fault }
{
    match fault {
        OptionFault::Delimiter(_) => Rule::Delimiter,
        OptionFault::NullMark => Rule::NullMark,
        OptionFault::Memory => Rule::Memory,
    }
}

/// What was expected of a script.
pub fn script_rule(fault: ScriptFault) -> Rule
    ensures { result ≡ script_rule fault }
{
    match fault {
        ScriptFault::Copies => Rule::Copies,
        ScriptFault::Encode => Rule::Spelling,
        ScriptFault::Memory => Rule::Memory,
    }
}
