//! How the lines of a text file end.

ghost use Rattle.std.specs.Prelude.{◌≡◌};
ghost use Rattle.pg_copy_text.specs.Private.Breaks.{is_break, at_newline, at_return, break_at};
ghost use Rattle.pg_copy_text.specs.Text.{end_len};

/// What ends each line of a file. The first newline or return that isn't escaped decides it (PostgreSQL documentation, page COPY, "Text Format").
#[derive(Clone, Copy, Debug, Drop, PartialEq, Eq)]
pub enum LineEnd {
    Newline,
    Return,
    /// A return with a newline directly after it.
    Both,
}

impl LineEnd {
    /// How many bytes the end has.
    pub fn len(self) -> usize
        ensures { result ≡ end_len self }
    {
        match self {
            LineEnd::Newline | LineEnd::Return => 1,
            LineEnd::Both => 2,
        }
    }
}

/// What a newline or a return that isn't escaped does.
#[derive(Clone, Copy, Debug, Drop, PartialEq, Eq)]
pub enum LineBreak {
    /// It begins the end of the line.
    Ends(LineEnd),
    /// It ends no line.
    Stays,
    /// It is a return, and the byte after it, which hasn't come yet, decides.
    Waits,
}

pub fn is_break(byte: u8) -> bool
    ensures { result ≡ is_break byte }
{
    byte == b'\n' || byte == b'\r'
}

// What a newline does, where the lines before it ended so.
fn at_newline(before: Option<LineEnd>) -> LineBreak
    ensures { result ≡ at_newline before }
{
    match before {
        None | Some(LineEnd::Newline) => LineBreak::Ends(LineEnd::Newline),
        Some(_) => LineBreak::Stays,
    }
}

// What a return with these bytes after it does, where the lines before it ended so.
fn at_return(before: Option<LineEnd>, after: &[u8]) -> LineBreak
    ensures { result ≡ at_return before after.now }
{
    match before {
        Some(LineEnd::Newline) => LineBreak::Stays,
        Some(LineEnd::Return) => LineBreak::Ends(LineEnd::Return),
        None => match after {
            [] => LineBreak::Waits,
            [b'\n', ..] => LineBreak::Ends(LineEnd::Both),
            _ => LineBreak::Ends(LineEnd::Return),
        },
        Some(LineEnd::Both) => match after {
            [] => LineBreak::Waits,
            [b'\n', ..] => LineBreak::Ends(LineEnd::Both),
            _ => LineBreak::Stays,
        },
    }
}

/// What the newline or return at the front does, where the lines before it ended so.
pub fn break_at(before: Option<LineEnd>, rest: &[u8]) -> LineBreak
    ensures { result ≡ break_at before rest.now }
{
    match rest {
        [b'\n', ..] => at_newline(before),
        [_, after @ ..] => at_return(before, after),
        [] => LineBreak::Stays,
    }
}
