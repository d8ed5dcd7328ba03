//! The JSON values that bytes, numbers and lists are shown as.

ghost use Rattle.std.specs.Prelude.{◌≡◌, option_copied, IfOk};
ghost use Rattle.serde_json.specs.Data.{boolean};
ghost use Rattle.serde_json.specs.View.{view};
ghost use Rattle.pgpipe_texts.specs.Json.Values.{count_json, hex_json, hidden_json, list_json};
ghost use Rattle.pgpipe_texts.specs.Json.Values.{signed_json, text_json, text_or_null, utf8_text};
ghost use Rattle.pgpipe_texts.specs.Json.Values.{word_or_null};

use pg_wire::{LentValues, Seq, Values};
use serde_json::{Value, json};
use std::alloc::{AllocError, Global};
use std::str::from_utf8;

/// Something that is shown as a JSON value.
pub trait ToJson {
    ghost use Rattle.serde_json.specs.Data.{Data};

    // The value that it is shown as.
    ghost shown: { Self → Data };

    /// Its value.
    fn value(&self, alloc: Global) -> Result<Value, AllocError>
        ensures { IfOk result (λ v. view v ≡ shown self.now) };
}

/// Bytes in hexadecimal.
pub fn hex_value(alloc: Global, bytes: &[u8]) -> Result<Value, AllocError>
    ensures { IfOk result (λ v. view v ≡ hex_json bytes.now) }
{
    let digits = hex::encode(alloc, bytes)?;
    json!(in alloc; {"hex": digits})
}

// Bytes as the text that they are, if they are UTF-8.
fn utf8_text(bytes: &[u8]) -> Option<&str>
    ensures { option_copied result ≡ utf8_text bytes.now }
{
    match from_utf8(bytes) {
        Ok(text) => Some(text),
        Err(_) => None,
    }
}

/// Bytes: a string where they are UTF-8, and else in hexadecimal.
pub fn text_value(alloc: Global, bytes: &[u8]) -> Result<Value, AllocError>
    ensures { IfOk result (λ v. view v ≡ text_json bytes.now) }
{
    match utf8_text(bytes) {
        Some(text) => Value::try_from_str(alloc, text),
        None => hex_value(alloc, bytes),
    }
}

/// What stands for a secret.
pub fn hidden_value(alloc: Global) -> Result<Value, AllocError>
    ensures { IfOk result (λ v. view v ≡ hidden_json) }
{
    json!(in alloc; {"hidden": true})
}

/// Bytes that may be missing.
pub fn optional_value(alloc: Global, bytes: Option<&[u8]>) -> Result<Value, AllocError>
    ensures { IfOk result (λ v. view v ≡ text_or_null (option_copied bytes.entry)) }
{
    match bytes {
        None => Ok(Value::Null),
        Some(bytes) => text_value(alloc, bytes),
    }
}

/// A word that may be missing.
pub fn word_value(alloc: Global, word: Option<&str>) -> Result<Value, AllocError>
    ensures { IfOk result (λ v. view v ≡ word_or_null (option_copied word.entry)) }
{
    match word {
        None => Ok(Value::Null),
        Some(word) => Value::try_from_str(alloc, word),
    }
}

impl ToJson for bool {
    ghost shown = { boolean };

    fn value(&self, _alloc: Global) -> Result<Value, AllocError> {
        Ok(Value::from(*self))
    }
}

impl ToJson for usize {
    ghost shown = { count_json };

    fn value(&self, _alloc: Global) -> Result<Value, AllocError> {
        Ok(Value::from(*self))
    }
}

/// An object id or a code.
impl ToJson for u32 {
    ghost shown = { count_json };

    fn value(&self, _alloc: Global) -> Result<Value, AllocError> {
        Ok(Value::from(*self))
    }
}

/// A format, a size or the number of an attribute.
impl ToJson for i16 {
    ghost shown = { signed_json };

    fn value(&self, _alloc: Global) -> Result<Value, AllocError> {
        Ok(Value::from(*self))
    }
}

impl ToJson for i32 {
    ghost shown = { signed_json };

    fn value(&self, _alloc: Global) -> Result<Value, AllocError> {
        Ok(Value::from(*self))
    }
}

// A list of what is shown, in its order.
fn list_value<T: ToJson>(alloc: Global, items: &[T]) -> Result<Value, AllocError>
    ensures { IfOk result (λ v. view v ≡ list_json T.shown items.now) }
{
    let mut list = Vec::new(alloc);
    for item in items {
        let shown = item.value(alloc)?;
        serde_json::push(&mut list, shown)?;
    }
    Ok(Value::from(list))
}

impl<T: ToJson> ToJson for Seq<T> {
    ghost shown = { list_json T.shown };

    fn value(&self, alloc: Global) -> Result<Value, AllocError> {
        list_value(alloc, self.as_slice())
    }
}

// A list of values, in its order.
fn values_value(alloc: Global, values: LentValues<'_>) -> Result<Value, AllocError>
    ensures { IfOk result (λ v. view v ≡ list_json text_or_null values.entry) }
{
    let mut list = Vec::new(alloc);
    'values: for value in values {
        let shown = optional_value(alloc, value)?;
        serde_json::push(&mut list, shown)?;
    }
    Ok(Value::from(list))
}

impl ToJson for Values {
    ghost shown = { list_json text_or_null };

    fn value(&self, alloc: Global) -> Result<Value, AllocError> {
        values_value(alloc, self.iter())
    }
}
