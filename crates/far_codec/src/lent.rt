// The values of a valid far form, read in place.
ghost use Rattle.std.specs.Prelude.{◌≡◌, slice_get, IfSome, FitsSigned};
ghost use Rattle.std.specs.Int.{w64};
ghost use Rattle.std.specs.Option.{option_and_then, option_copied};
ghost use Rattle.far_codec.specs.Reading.{ints_meaning, IsIntsForm};
ghost use Rattle.far_codec.specs.TextForm.{texts_meaning, IsTextsForm};
ghost use Rattle.far_codec.specs.Lent.{IsForm, lent_in};

use crate::head::is_set;
use crate::ints::option_in;
use crate::text_forms::{form_parts, mask_size};
use crate::texts::{TextParts, text_in};
use std::marker::Model;

/// The numbers of a far form, read in place. Contracts see their list.
#[derive(Drop)]
pub struct LentInts<'a> {
    mask: &'a [u8],
    words: &'a [[u8; 8]],
}

impl<'a> Model for LentInts<'a> {
    ghost use Rattle.std.specs.Prelude.{ℤ, List, Option};
    ghost use Rattle.far_codec.specs.Reading.{numbers_of};

    ghost Value = { List (Option ℤ) };

    ghost view = { λ lent. numbers_of lent.mask.now lent.words.now };
}

impl<'a> LentInts<'a> {
    /// Borrows the numbers of a far form of numbers. Allocates nothing, and reads only the head.
    fn new(form: &'a [u8]) -> LentInts<'a>
        requires { IsIntsForm form.now }
        ensures { result ≡ ints_meaning form.now }
    {
        let count = u32::from_le_bytes([form[2], form[3], form[4], form[5]]) as usize;
        let (_, rest) = form.split_at(6);
        let (mask, fields) = rest.split_at(mask_size(form[0], count));
        let (words, _) = fields.as_chunks::<8>();
        LentInts { mask, words }
    }

    /// Returns number `i`, or `None` if it is missing or past the end. Allocates nothing.
    pub fn get(&self, i: usize) -> Option<i64>
        ensures number { result ≡ option_and_then (λ number. number) (slice_get self.now i) }
        ensures fits { IfSome result (FitsSigned w64) }
    {
        if i >= self.words.len() {
            return None;
        }
        option_in(is_set(self.mask, i), &self.words[i])
    }
}

/// The texts of a far form, read in place. Contracts see each text as the list of its bytes.
#[derive(Drop)]
pub struct LentTexts<'a> {
    parts: TextParts<'a>,
}

impl<'a> Model for LentTexts<'a> {
    ghost use Rattle.std.specs.Prelude.{ℕ, List, Option};
    ghost use Rattle.far_codec.specs.TextForm.{texts_of, ends_in, AreTextParts};

    ghost Value = { List (Option (List ℕ)) };

    ghost view = { λ lent. texts_of lent.parts.mask.now (ends_in lent.parts.ends.now)
        lent.parts.body.now };

    ghost invariant = { λ lent. AreTextParts lent.parts.mask.now (ends_in lent.parts.ends.now)
        lent.parts.body.now };
}

impl<'a> LentTexts<'a> {
    /// Borrows the texts of a far form of texts. Allocates nothing, and reads only the head.
    fn new(form: &'a [u8]) -> LentTexts<'a>
        requires { IsTextsForm form.now }
        ensures { result ≡ texts_meaning form.now }
    {
        LentTexts {
            parts: form_parts(form),
        }
    }

    /// Borrows text `i` in place. Returns `None` if it is missing or past the end. Allocates nothing.
    pub fn get(&self, i: usize) -> Option<&'a str>
        ensures { option_copied result ≡ option_and_then (λ text. text) (slice_get self.now i) }
    {
        text_in(self.parts, i)
    }
}

/// The values of a far form, read in place.
#[derive(Drop)]
pub enum LentValues<'a> {
    Ints(LentInts<'a>),
    Texts(LentTexts<'a>),
}

/// Borrows the values of a valid far form. Allocates nothing, and reads only the head.
pub fn lend_values(form: &[u8]) -> LentValues<'_>
    requires { IsForm form.now }
    ensures { result ≡ lent_in form.now }
{
    if form[1] == 1 {
        LentValues::Texts(LentTexts::new(form))
    } else {
        LentValues::Ints(LentInts::new(form))
    }
}
