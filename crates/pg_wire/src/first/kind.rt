//! The kinds of first packets, by their codes.

ghost use Rattle.std.specs.Prelude.{◌≡◌, IfSome, pos};
ghost use Rattle.pg_wire.specs.Private.FirstReader.{first_code, first_kind_of};

/// What a code stands for.
#[derive(Clone, Copy, Debug, PartialEq, Eq)]
pub enum FirstKind {
    Startup,
    Cancel,
    Ssl,
    Gss,
}

impl FirstKind {
    pub fn of(code: i32) -> Option<FirstKind>
        ensures value { result ≡ first_kind_of code }
        ensures code { IfSome result (λ kind. code ≡ pos (first_code kind)) }
    {
        match code {
            196_608 => Some(FirstKind::Startup),
            80_877_102 => Some(FirstKind::Cancel),
            80_877_103 => Some(FirstKind::Ssl),
            80_877_104 => Some(FirstKind::Gss),
            _ => None,
        }
    }
}
