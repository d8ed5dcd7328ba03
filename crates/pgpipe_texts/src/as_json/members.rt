//! The members of an object.

ghost use Rattle.std.specs.Prelude.{◌≡◌, option_copied, IfOk, OnOk};
ghost use Rattle.serde_json.specs.Data.{put as with_member, string};
ghost use Rattle.serde_json.specs.View.{members_view};
ghost use Rattle.pgpipe_texts.specs.Json.Members.{head_members};
ghost use Rattle.pgpipe_texts.specs.Json.Values.{hidden_json, text_json, text_or_null};

use super::values::{ToJson, hidden_value, optional_value, text_value};
use serde_json::{Map, Value};
use std::alloc::{AllocError, Global};

/// Puts a word.
pub fn put_word(
    key: &str,
    word: &str,
    alloc: Global,
    object: &mut Map<String, Value>,
) -> Result<(), AllocError>
    ensures { OnOk result (members_view object.new.entries
        ≡ with_member key.now (string word.now) (members_view object.old.entries)) }
{
    let value = Value::try_from_str(alloc, word)?;
    serde_json::put(object, alloc, key, value)
}

/// Puts bytes.
pub fn put_text(
    key: &str,
    bytes: &[u8],
    alloc: Global,
    object: &mut Map<String, Value>,
) -> Result<(), AllocError>
    ensures { OnOk result (members_view object.new.entries
        ≡ with_member key.now (text_json bytes.now) (members_view object.old.entries)) }
{
    let value = text_value(alloc, bytes)?;
    serde_json::put(object, alloc, key, value)
}

/// Puts bytes that may be missing.
pub fn put_optional(
    key: &str,
    bytes: Option<&[u8]>,
    alloc: Global,
    object: &mut Map<String, Value>,
) -> Result<(), AllocError>
    ensures { OnOk result (members_view object.new.entries ≡ with_member key.now
        (text_or_null (option_copied bytes.entry)) (members_view object.old.entries)) }
{
    let value = optional_value(alloc, bytes)?;
    serde_json::put(object, alloc, key, value)
}

/// Puts what stands for a secret.
pub fn put_hidden(
    key: &str,
    alloc: Global,
    object: &mut Map<String, Value>,
) -> Result<(), AllocError>
    ensures { OnOk result (members_view object.new.entries
        ≡ with_member key.now hidden_json (members_view object.old.entries)) }
{
    let value = hidden_value(alloc)?;
    serde_json::put(object, alloc, key, value)
}

/// Puts what is shown.
pub fn put_shown<T: ToJson>(
    key: &str,
    item: &T,
    alloc: Global,
    object: &mut Map<String, Value>,
) -> Result<(), AllocError>
    ensures { OnOk result (members_view object.new.entries
        ≡ with_member key.now (T.shown item.now) (members_view object.old.entries)) }
{
    let value = item.value(alloc)?;
    serde_json::put(object, alloc, key, value)
}

/// The object of a message, with no more than its name and its length field.
#[tactic(auto, unfolding(crate::specs::Json::Members::head_members))]
pub fn begin(alloc: Global, name: &str, size: usize) -> Result<Map<String, Value>, AllocError>
    ensures { IfOk result (λ object. members_view object.entries ≡ head_members name.now size) }
{
    let mut object = Map::new(alloc);
    put_word("name", name, alloc, &mut object)?;
    put_shown("length", &size, alloc, &mut object)?;
    Ok(object)
}
