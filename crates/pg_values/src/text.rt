//! Values as text.

ghost use Rattle.std.specs.Prelude.{option_copied};
ghost use Rattle.pg_values.specs.Text.{IsText};

/// A value as text. Which encoding its bytes have is the client's choice (the run-time parameter `client_encoding`).
#[derive(Clone, Copy, Debug, PartialEq, Eq)]
pub enum Text<'a> {
    /// The value is null.
    Null,
    /// Its bytes, which are UTF-8.
    Utf8(&'a str),
    /// Its bytes, which aren't UTF-8.
    NotUtf8(&'a [u8]),
}

impl<'a> Text<'a> {
    /// The text of a value that is lent. None is null.
    pub fn of(value: Option<&'a [u8]>) -> Text<'a>
        ensures { IsText result (option_copied value.entry) }
    {
        let Some(bytes) = value else {
            return Text::Null;
        };
        match str::from_utf8(bytes) {
            Ok(text) => Text::Utf8(text),
            Err(_) => Text::NotUtf8(bytes),
        }
    }
}
