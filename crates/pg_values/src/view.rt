//! The bodies of rows, errors and notices, read in place: nothing of them is copied, and no memory is taken.

ghost use Rattle.std.specs.Prelude.{◌≡◌, Some};
ghost use Rattle.std.specs.Prelude.{is_some, option_copied, option_map, slice_get, IsSome};
ghost use Rattle.std.specs.Iterator.{YieldsFirstBy, item_count};
ghost use Rattle.pg_codec.specs.Private.Lent.{lent_field};
ghost use Rattle.pg_values.specs.Fields.{field_text, code_text, severity_text, message_text};
ghost use Rattle.pg_values.specs.Private.View.{row_of, fields_of, values_left, fields_left};
ghost use Rattle.pg_values.specs.Private.Block.{IsRow};
ghost use Rattle.pg_values.specs.Private.Kept.{IsFields};
ghost use Rattle.pg_values.specs.Text.{IsTextAt};

use crate::first::first_value;
use crate::text::Text;
use pg_codec::{ErrorField, after_counted, after_terminated, lent_field_at, u16_at};
use pg_seq::Seq;
use std::marker::Model;

/// The values of a row, lent by the body that they stand in ("Message Formats", DataRow). A clause sees the list of the values.
#[derive(Drop)]
pub struct RowView<'a> {
    count: u16,
    values: &'a [u8],
}

impl<'a> Model for RowView<'a> {
    ghost use Rattle.std.specs.Prelude.{List, Option, ℕ};
    ghost use Rattle.pg_values.specs.Private.View.{values_left};
    ghost use Rattle.pg_values.specs.Private.Block.{IsRow};

    ghost Value = { List (Option (List ℕ)) };

    ghost view = { λ r. values_left r.count r.values.now };

    ghost invariant = { λ r. IsRow r.count r.values.now };
}

impl<'a> RowView<'a> {
    /// Whether this is the body of a row: its count, so many values, and no more bytes.
    pub fn is_row(body: &[u8]) -> bool
        ensures { result ≡ is_some (row_of body.now) }
    {
        matches!(after_counted::<Option<Seq<u8>>>(body), Some([]))
    }

    /// The row of this body, for which [`RowView::is_row`] returns true.
    pub fn of_body(body: &'a [u8]) -> RowView<'a>
        requires { IsSome (row_of body.now) }
        ensures { row_of body.now ≡ Some result }
    {
        match u16_at(body) {
            Ok((count, values)) => RowView { count, values },
            Err(_) => RowView {
                count: 0,
                values: body,
            },
        }
    }

    /// How many values there are, and the bytes that spell them.
    pub(crate) fn parts(&self) -> (u16, &'a [u8])
        ensures whole { IsRow result.0 result.1.now }
        ensures values { values_left result.0 result.1.now ≡ self.now }
    {
        (self.count, self.values)
    }

    /// The values in their order. None is null.
    pub fn values(&self) -> LentValues<'a>
        ensures { result ≡ self.now }
    {
        LentValues::new(usize::from(self.count), self.values)
    }

    /// The value at `index`, or `None` past the end. A value that is None is null. It walks over the values before it.
    pub fn get(&self, index: usize) -> Option<Option<&'a [u8]>>
        ensures { option_map option_copied result ≡ slice_get self.now index }
    {
        self.values().nth(index)
    }

    /// The value at `index` as text, or `None` past the end. It walks over the values before it.
    pub fn text(&self, index: usize) -> Option<Text<'a>>
        ensures { IsTextAt result self.now index }
    {
        let value = self.get(index)?;
        Some(Text::of(value))
    }
}

/// Values, one after the other. A clause sees the list of those that are still to come.
#[derive(Drop)]
pub struct LentValues<'a> {
    count: usize,
    values: &'a [u8],
}

impl<'a> Model for LentValues<'a> {
    ghost use Rattle.std.specs.Prelude.{List, Option, ℕ};
    ghost use Rattle.pg_values.specs.Private.View.{values_left};
    ghost use Rattle.pg_values.specs.Private.Block.{IsRow};

    ghost Value = { List (Option (List ℕ)) };

    ghost view = { λ r. values_left r.count r.values.now };

    ghost invariant = { λ r. IsRow r.count r.values.now };
}

impl<'a> LentValues<'a> {
    /// So many values, which all of these bytes spell one after the other.
    pub(crate) fn new(count: usize, values: &'a [u8]) -> LentValues<'a>
        requires { IsRow count values.now }
        ensures { result ≡ values_left count values.now }
    {
        LentValues { count, values }
    }
}

impl<'a> Iterator for LentValues<'a> {
    type Item = Option<&'a [u8]>;

    ghost next_gives = { YieldsFirstBy option_copied (λ left. left) };

    ghost remaining = { item_count (λ left. left) };

    fn next(&mut self) -> Option<Option<&'a [u8]>> {
        if self.count == 0 {
            return None;
        }
        let (value, values) = first_value(self.values);
        self.count -= 1;
        self.values = values;
        Some(value)
    }
}

/// The fields of an error or a notice, lent by the body that they stand in ("Message Formats", ErrorResponse and NoticeResponse).
/// A clause sees the list of the fields.
#[derive(Drop)]
pub struct FieldsView<'a> {
    fields: &'a [u8],
}

impl<'a> Model for FieldsView<'a> {
    ghost use Rattle.std.specs.Prelude.{List};
    ghost use Rattle.pg_codec.specs.declared.value.ErrorField.{ErrorField};
    ghost use Rattle.pg_values.specs.Private.View.{fields_left};
    ghost use Rattle.pg_values.specs.Private.Kept.{IsFields};

    ghost Value = { List ErrorField };

    ghost view = { λ r. fields_left r.fields.now };

    ghost invariant = { λ r. IsFields r.fields.now };
}

impl<'a> FieldsView<'a> {
    /// Whether this is the body of an error or a notice: its fields, the zero byte that closes them, and no more bytes.
    pub fn is_fields(body: &[u8]) -> bool
        ensures { result ≡ is_some (fields_of body.now) }
    {
        matches!(after_terminated::<ErrorField>(body), Some([]))
    }

    /// The fields of this body, for which [`FieldsView::is_fields`] returns true.
    pub fn of_body(body: &'a [u8]) -> FieldsView<'a>
        requires { IsSome (fields_of body.now) }
        ensures { fields_of body.now ≡ Some result }
    {
        FieldsView { fields: body }
    }

    /// The bytes that spell the fields, and the zero byte that closes them.
    pub(crate) fn body(&self) -> &'a [u8]
        ensures whole { IsFields result.now }
        ensures fields { fields_left result.now ≡ self.now }
    {
        self.fields
    }

    /// The fields in their order: the code of each, and its text.
    pub fn fields(&self) -> LentFields<'a>
        ensures { result ≡ self.now }
    {
        LentFields::new(self.fields)
    }

    /// The text of the first field with this code.
    pub fn get(&self, code: u8) -> Option<&'a [u8]>
        ensures { option_copied result ≡ field_text code self.now }
    {
        'fields: for field in self.fields() {
            if field.0 == code {
                return Some(field.1);
            }
        }
        None
    }

    /// The SQLSTATE code: the text of the field `C`.
    pub fn code(&self) -> Option<&'a [u8]>
        ensures { option_copied result ≡ code_text self.now }
    {
        self.get(b'C')
    }

    /// The severity: the text of the field `V`, which is never translated. Where there is no `V`, as before PostgreSQL 9.6, it is the text of `S`.
    pub fn severity(&self) -> Option<&'a [u8]>
        ensures { option_copied result ≡ severity_text self.now }
    {
        match self.get(b'V') {
            Some(text) => Some(text),
            None => self.get(b'S'),
        }
    }

    /// The primary message: the text of the field `M`.
    pub fn message(&self) -> Option<&'a [u8]>
        ensures { option_copied result ≡ message_text self.now }
    {
        self.get(b'M')
    }
}

/// The fields of an error or a notice, one after the other. A clause sees the list of those that are still to come.
#[derive(Drop)]
pub struct LentFields<'a> {
    fields: &'a [u8],
}

impl<'a> Model for LentFields<'a> {
    ghost use Rattle.std.specs.Prelude.{List};
    ghost use Rattle.pg_codec.specs.declared.value.ErrorField.{ErrorField};
    ghost use Rattle.pg_values.specs.Private.View.{fields_left};

    ghost Value = { List ErrorField };

    ghost view = { λ r. fields_left r.fields.now };
}

impl<'a> LentFields<'a> {
    /// The fields that these bytes spell, up to where no more of them begins.
    pub(crate) fn new(fields: &'a [u8]) -> LentFields<'a>
        ensures { result ≡ fields_left fields.now }
    {
        LentFields { fields }
    }
}

impl<'a> Iterator for LentFields<'a> {
    type Item = (u8, &'a [u8]);

    ghost next_gives = { YieldsFirstBy lent_field (λ left. left) };

    ghost remaining = { item_count (λ left. left) };

    fn next(&mut self) -> Option<(u8, &'a [u8])> {
        let (field, fields) = lent_field_at(self.fields)?;
        self.fields = fields;
        Some(field)
    }
}
