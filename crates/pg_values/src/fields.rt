//! The fields of an error or a notice, in one block of memory.

ghost use Rattle.std.specs.Prelude.{◌≡◌, ◌↔◌, ◌<◌, ◌≤◌, ◌+◌, [], ◌∷◌, ◌++◌, length, map};
ghost use Rattle.std.specs.Prelude.{option_copied, nat_eq, OnOk, OnErr, IfOk, IfErr, IsTrue, Err};
ghost use Rattle.std.specs.Prelude.{◌⊎◌};
ghost use Rattle.std.specs.Cmp.{and_equiv, partial_equiv_from_equiv};
ghost use Rattle.std.specs.Cmp.Lexicographic.{pointwise, lists_per, lists_equiv, nat_list_eq_equiv};
ghost use Rattle.std.specs.Iterator.{YieldsFirstBy, item_count};
ghost use Rattle.std.specs.Ordering.{eq_of_both, on};
ghost use Rattle.std.proofs.lemmas.Cmp.{on_equiv, nat_eq_equiv};
ghost use Rattle.pg_codec.specs.Value.{error_field};
ghost use Rattle.pg_codec.specs.declared.fault.EncodeFault.TheVariants.{TooLong, Memory};
ghost use Rattle.pg_codec.specs.Private.Lent.{lent_field};
ghost use Rattle.pg_codec.specs.Private.Reader.{Gives, error_field_at, terminated_at};
ghost use Rattle.pg_values.specs.Fields.{field_text, code_text, severity_text, message_text};
ghost use Rattle.pg_values.specs.Fields.{fields_spelled};
ghost use Rattle.pg_values.specs.Private.Block.{longest_block};
ghost use Rattle.pg_values.specs.Private.Kept.{fields_kept, IsKept};

use crate::text_lengths::text_lengths_at;
use crate::values::ByteText;
use crate::view::FieldsView;
use pg_codec::{BodyFault, EncodeFault, LONGEST};
use pg_seq::{ByElement, DebugElement};
use std::alloc::{AllocError, Global};
use std::fmt;
use std::marker::Model;

/// The fields of an error or a notice ("Error and Notice Message Fields"): each is a code and a text. There may be none. They stand in
/// one block of memory. A clause sees the list of the fields.
#[derive(Drop)]
pub struct Fields {
    // how long the text of each field is
    lengths: Vec<u32>,
    // the fields one after the other, each as it stands in a message: its code, its text, and a zero byte
    block: Vec<u8>,
}

impl Model for Fields {
    ghost use Rattle.std.specs.Prelude.{List};
    ghost use Rattle.pg_codec.specs.declared.value.ErrorField.{ErrorField};
    ghost use Rattle.pg_values.specs.Private.Kept.{fields_kept, IsKept};

    ghost Value = { List ErrorField };

    ghost view = { λ f. fields_kept f.lengths.items f.block.items };

    ghost invariant = { λ f. IsKept f.lengths.items f.block.items };
}

// Puts a field at the end of a block, or leaves the block as it was where memory runs out.
fn put(block: &mut Vec<u8>, code: u8, text: &[u8]) -> Result<(), AllocError>
    requires { length text.now ≤ longest_block }
    ensures ok { OnOk result (block.new.items
        ≡ block.old.items ++ (error_field (record { code = code; value = text.now })).bytes) }
    ensures err { OnErr result (block.new.items ≡ block.old.items) }
{
    // once there is room nothing fails
    block.reserve(text.len() + 2)?;
    block.push(code)?;
    block.extend_from_slice(text)?;
    block.push(0)?;
    Ok(())
}

// The fields at the beginning of the bytes, up to the zero byte that closes them, and the bytes after it: they are read once, and
// copied at once.
fn kept_at(alloc: Global, bytes: &[u8]) -> Result<(Fields, &[u8]), BodyFault>
    requires short { length bytes.now ≤ longest_block + 1 }
    ensures { Gives (λ x. (x.0, x.1.now)) result (terminated_at error_field_at bytes.now) }
{
    let (lengths, rest) = text_lengths_at(alloc, bytes)?;
    // the zero byte stands between the fields and the rest
    let (block, _) = bytes.split_at(bytes.len() - rest.len() - 1);
    let block = Vec::from_slice(alloc, block)?;
    Ok((Fields { lengths, block }, rest))
}

/// The fields at the beginning of the bytes, up to the zero byte that closes them, and the bytes after it.
pub fn fields_at(alloc: Global, bytes: &[u8]) -> Result<(Fields, &[u8]), BodyFault>
    ensures { Gives (λ x. (x.0, x.1.now)) result (terminated_at error_field_at bytes.now) }
{
    // no message has a body as long as that
    if bytes.len() > LONGEST as usize {
        return Err(BodyFault::Memory);
    }
    kept_at(alloc, bytes)
}

impl Fields {
    /// A list without fields. It takes no memory.
    pub fn new(alloc: Global) -> Fields
        ensures { result ≡ [] }
    {
        Fields {
            lengths: Vec::new(alloc),
            block: Vec::new(alloc),
        }
    }

    /// Copies these fields, each given by its code and its text. TooLong: no message could hold them. Memory: memory ran out.
    pub fn from_slice(alloc: Global, list: &[(u8, &[u8])]) -> Result<Fields, EncodeFault>
        ensures ok { IfOk result (λ fields. fields ≡ map lent_field list.now) }
        ensures too_long { result ≡ Err TooLong
            → longest_block < length (fields_spelled (map lent_field list.now)) }
        ensures faults { IfErr result (λ fault. (fault ≡ TooLong) ⊎ (fault ≡ Memory)) }
    {
        let mut fields = Fields::new(alloc);
        for field in list {
            let (code, text) = *field;
            fields.push(code, text)?;
        }
        Ok(fields)
    }

    /// Copies fields that are lent. TooLong: no message could hold them. Memory: memory ran out.
    pub fn of_view(alloc: Global, view: &FieldsView<'_>) -> Result<Fields, EncodeFault>
        ensures ok { IfOk result (λ fields. fields ≡ view.now) }
        ensures too_long { (result ≡ Err TooLong)
            ↔ (longest_block < length (fields_spelled view.now)) }
        ensures faults { IfErr result (λ fault. (fault ≡ TooLong) ⊎ (fault ≡ Memory)) }
    {
        let body = view.body();
        // the zero byte that closes the fields is none of theirs
        if body.len() > LONGEST as usize + 1 {
            return Err(EncodeFault::TooLong);
        }
        match kept_at(alloc, body) {
            Ok((fields, _)) => Ok(fields),
            Err(_) => Err(EncodeFault::Memory),
        }
    }

    /// How many fields there are.
    pub fn len(&self) -> usize
        ensures { result ≡ length self.now }
    {
        self.lengths.len()
    }

    /// Whether there is no field.
    pub fn is_empty(&self) -> bool
        ensures { IsTrue result ↔ (self.now ≡ []) }
    {
        self.lengths.is_empty()
    }

    /// The fields as a message spells them, one after the other, without the zero byte that closes them.
    pub(crate) fn spelling(&self) -> &[u8]
        ensures bytes { result.now ≡ fields_spelled self.now }
        ensures short { length result.now ≤ longest_block }
    {
        self.block.as_slice()
    }

    /// The text of the first field with this code.
    pub fn get(&self, code: u8) -> Option<&[u8]>
        ensures { option_copied result ≡ field_text code self.now }
    {
        'fields: for field in self.iter() {
            if field.0 == code {
                return Some(field.1);
            }
        }
        None
    }

    /// The SQLSTATE code: the text of the field `C`.
    pub fn code(&self) -> Option<&[u8]>
        ensures { option_copied result ≡ code_text self.now }
    {
        self.get(b'C')
    }

    /// The severity: the text of the field `V`, which is never translated. Where there is no `V`, as before PostgreSQL 9.6, it is the text of `S`.
    pub fn severity(&self) -> Option<&[u8]>
        ensures { option_copied result ≡ severity_text self.now }
    {
        match self.get(b'V') {
            Some(text) => Some(text),
            None => self.get(b'S'),
        }
    }

    /// The primary message: the text of the field `M`.
    pub fn message(&self) -> Option<&[u8]>
        ensures { option_copied result ≡ message_text self.now }
    {
        self.get(b'M')
    }

    /// Goes over the fields in their order: the code of each, and its text.
    pub fn iter(&self) -> KeptFields<'_>
        ensures { result ≡ self.now }
    {
        KeptFields {
            lengths: self.lengths.as_slice(),
            block: self.block.as_slice(),
        }
    }

    /// Adds a field at the end. Any code and any text are taken, even those that no message can have. TooLong: no message could hold the fields any
    /// more. Memory: memory ran out. After either the list is as it was.
    pub fn push(&mut self, code: u8, text: &[u8]) -> Result<(), EncodeFault>
        ensures ok { OnOk result (self.new
            ≡ self.old ++ record { code = code; value = text.now } ∷ []) }
        ensures err { OnErr result (self.new ≡ self.old) }
        ensures too_long { (result ≡ Err TooLong) ↔ (longest_block
            < length (fields_spelled (self.old ++ record { code = code; value = text.now } ∷ []))) }
        ensures faults { IfErr result (λ fault. (fault ≡ TooLong) ⊎ (fault ≡ Memory)) }
    {
        let room = LONGEST as usize - self.block.len();
        if room < 2 || room - 2 < text.len() {
            return Err(EncodeFault::TooLong);
        }
        self.lengths.reserve(1)?;
        put(&mut self.block, code, text)?;
        self.lengths.push(text.len() as u32)?;
        Ok(())
    }
}

/// `clone` copies the block, and fails only where memory runs out.
impl Clone for Fields {
    ghost is_clone = { λ fields copy. copy ≡ fields };

    fn clone(&self) -> Result<Self, AllocError> {
        let alloc = *self.block.allocator();
        Ok(Fields {
            lengths: Vec::from_slice(alloc, self.lengths.as_slice())?,
            block: Vec::from_slice(alloc, self.block.as_slice())?,
        })
    }
}

/// Two lists of fields are equal where their codes and their texts are, place by place.
impl PartialEq for Fields {
    ghost eq = { pointwise (eq_of_both (on (λ f. f.code) nat_eq)
        (on (λ f. f.value) (pointwise nat_eq))) };

    ghost laws = { lists_per (partial_equiv_from_equiv
        (and_equiv (on_equiv (λ f. f.code) nat_eq_equiv)
        (on_equiv (λ f. f.value) nat_list_eq_equiv))) };

    fn eq(&self, other: &Self) -> bool {
        self.lengths == other.lengths && self.block == other.block
    }
}

impl Eq for Fields {
    ghost laws = { lists_equiv (and_equiv (on_equiv (λ f. f.code) nat_eq_equiv)
        (on_equiv (λ f. f.value) nat_list_eq_equiv)) };
}

/// A field as `{:?}` writes it.
#[derive(Drop)]
struct ShownField<'a>(u8, &'a [u8]);

impl fmt::Debug for ShownField<'_> {
    fn fmt<W: fmt::Write>(&self, f: &mut fmt::Formatter<W>) -> fmt::Result {
        f.debug_struct("ErrorField")
            .field("code", &self.0)
            .field("value", &ByteText(self.1))
            .finish()
    }
}

/// `{:?}` writes the fields with their texts escaped, as `[ErrorField { code: 67, value: b"57014" }]`.
impl fmt::Debug for Fields {
    fn fmt<W: fmt::Write>(&self, f: &mut fmt::Formatter<W>) -> fmt::Result {
        let mut list = f.debug_list();
        for field in self.iter() {
            list.entry(&ShownField(field.0, field.1));
        }
        list.finish()
    }
}

impl DebugElement for Fields {
    type Form = ByElement;
}

/// The fields of a [`Fields`], one after the other. A clause sees the list of those that are still to come.
#[derive(Drop)]
pub struct KeptFields<'a> {
    lengths: &'a [u32],
    block: &'a [u8],
}

impl<'a> Model for KeptFields<'a> {
    ghost use Rattle.std.specs.Prelude.{List};
    ghost use Rattle.pg_codec.specs.declared.value.ErrorField.{ErrorField};
    ghost use Rattle.pg_values.specs.Private.Kept.{fields_kept, IsKept};

    ghost Value = { List ErrorField };

    ghost view = { λ f. fields_kept f.lengths.now f.block.now };

    ghost invariant = { λ f. IsKept f.lengths.now f.block.now };
}

impl<'a> Iterator for KeptFields<'a> {
    type Item = (u8, &'a [u8]);

    ghost next_gives = { YieldsFirstBy lent_field (λ left. left) };

    ghost remaining = { item_count (λ left. left) };

    fn next(&mut self) -> Option<(u8, &'a [u8])> {
        let [length, lengths @ ..] = self.lengths else {
            return None;
        };
        let [code, rest @ ..] = self.block else {
            return None;
        };
        let (text, rest) = rest.split_at(*length as usize);
        let (_, rest) = rest.split_at(1);
        self.lengths = lengths;
        self.block = rest;
        Some((*code, text))
    }
}
