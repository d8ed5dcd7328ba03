//! The kinds of the backend's messages, by their tags.

ghost use Rattle.std.specs.Prelude.{◌≡◌, IfSome};
ghost use Rattle.pg_message.specs.Private.BackReader.{back_reading, back_kind_of};

/// What a tag stands for. Authentication requests share one.
#[derive(Clone, Copy, Debug, PartialEq, Eq)]
pub enum BackKind {
    Auth,
    KeyData,
    ParameterStatus,
    Ready,
    RowDescription,
    DataRow,
    CommandComplete,
    EmptyQuery,
    ParseComplete,
    BindComplete,
    CloseComplete,
    NoData,
    PortalSuspended,
    ParameterDescription,
    ErrorResponse,
    NoticeResponse,
    Notification,
    CopyIn,
    CopyOut,
    CopyData,
    CopyDone,
}

impl BackKind {
    pub fn of(byte: u8) -> Option<BackKind>
        ensures value { result ≡ back_kind_of byte }
        ensures byte { IfSome result (λ kind. byte ≡ (back_reading kind).tag) }
    {
        match byte {
            b'R' => Some(BackKind::Auth),
            b'K' => Some(BackKind::KeyData),
            b'S' => Some(BackKind::ParameterStatus),
            b'Z' => Some(BackKind::Ready),
            b'T' => Some(BackKind::RowDescription),
            b'D' => Some(BackKind::DataRow),
            b'C' => Some(BackKind::CommandComplete),
            b'I' => Some(BackKind::EmptyQuery),
            b'1' => Some(BackKind::ParseComplete),
            b'2' => Some(BackKind::BindComplete),
            b'3' => Some(BackKind::CloseComplete),
            b'n' => Some(BackKind::NoData),
            b's' => Some(BackKind::PortalSuspended),
            b't' => Some(BackKind::ParameterDescription),
            b'E' => Some(BackKind::ErrorResponse),
            b'N' => Some(BackKind::NoticeResponse),
            b'A' => Some(BackKind::Notification),
            b'G' => Some(BackKind::CopyIn),
            b'H' => Some(BackKind::CopyOut),
            b'd' => Some(BackKind::CopyData),
            b'c' => Some(BackKind::CopyDone),
            _ => None,
        }
    }
}
