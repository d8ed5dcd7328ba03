//! The kinds of the frontend's messages, by their tags.

ghost use Rattle.std.specs.Prelude.{◌≡◌, IfSome};
ghost use Rattle.pg_message.specs.Private.FrontReader.{front_reading, front_kind_of};

/// What a tag stands for.
#[derive(Clone, Copy, Debug, PartialEq, Eq)]
pub enum FrontKind {
    Query,
    Parse,
    Bind,
    Describe,
    Close,
    Execute,
    Sync,
    Flush,
    Terminate,
    CopyData,
    CopyDone,
    CopyFail,
    Password,
}

impl FrontKind {
    pub fn of(byte: u8) -> Option<FrontKind>
        ensures value { result ≡ front_kind_of byte }
        ensures byte { IfSome result (λ kind. byte ≡ (front_reading kind).tag) }
    {
        match byte {
            b'Q' => Some(FrontKind::Query),
            b'P' => Some(FrontKind::Parse),
            b'B' => Some(FrontKind::Bind),
            b'D' => Some(FrontKind::Describe),
            b'C' => Some(FrontKind::Close),
            b'E' => Some(FrontKind::Execute),
            b'S' => Some(FrontKind::Sync),
            b'H' => Some(FrontKind::Flush),
            b'X' => Some(FrontKind::Terminate),
            b'd' => Some(FrontKind::CopyData),
            b'c' => Some(FrontKind::CopyDone),
            b'f' => Some(FrontKind::CopyFail),
            b'p' => Some(FrontKind::Password),
            _ => None,
        }
    }
}
