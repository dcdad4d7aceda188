// The values of a far form, of either kind.
ghost use Rattle.std.specs.Prelude.{◌≡◌, ◌↔◌, Some, IfOk, IfErr, IfSome};
ghost use Rattle.far_codec.specs.Forms.{form_of, HaveForm};
ghost use Rattle.far_codec.specs.Reading.{IsIntsForm};
ghost use Rattle.far_codec.specs.TextForm.{IsTextsForm};

use crate::ints::{read_ints, split_ints};
use crate::lists::{IntList, TextList};
use crate::texts::{read_texts, split_texts};
use far_types::{Kind, Refusal};
use std::alloc::Global;

/// The values of a far form, in order. Each may be missing.
#[derive(Drop, Debug)]
pub enum Values {
    Ints(IntList),
    Texts(TextList),
}

/// Decodes a far form: returns its values, or `None` if the bytes are not a far form. Refused only with `NoMemory` (1).
pub fn decode(alloc: Global, bytes: &[u8]) -> Result<Option<Values>, Refusal>
    // Values that are returned have these bytes as their form.
    ensures found { IfOk result
        (λ read. IfSome read (λ values. HaveForm values × (bytes.now ≡ form_of values))) }
    // Values with these bytes as their form are returned.
    ensures only { (values : Values) → HaveForm values → bytes.now ≡ form_of values
        → IfOk result (λ read. read ≡ Some values) }
    ensures memory { IfErr result (λ e. e ≡ Refusal.NoMemory) }
{
    if let Some(parts) = split_ints(bytes) {
        return Ok(Some(Values::Ints(IntList::new(read_ints(alloc, &parts)?))));
    }
    if let Some(parts) = split_texts(bytes) {
        return Ok(Some(Values::Texts(TextList::new(read_texts(alloc, parts)?))));
    }
    Ok(None)
}

/// Returns the kind of a far form's values, or `None` if the bytes are not a far form. Allocates nothing.
pub fn kind_of(bytes: &[u8]) -> Option<Kind>
    ensures ints { (result ≡ Some Kind.Int) ↔ IsIntsForm bytes.now }
    ensures texts { (result ≡ Some Kind.Text) ↔ IsTextsForm bytes.now }
{
    if split_ints(bytes).is_some() {
        return Some(Kind::Int);
    }
    if split_texts(bytes).is_some() {
        return Some(Kind::Text);
    }
    None
}
