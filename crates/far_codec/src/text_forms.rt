// Writes far forms of texts, and borrows single texts of them.
ghost use Rattle.std.specs.Prelude.{◌≡◌, ◌++◌, ◌∷◌, ◌+◌, ◌/◌, ◌==◌, ◌<◌, ◌^◌, [], cond, ℕ, List, Option, Some, length, map, slice_get, option_and_then, OnOk, IfOk, IfErr, IfSome, All};
ghost use Rattle.std.specs.Option.{option_copied};
ghost use Rattle.std.specs.List.{flat_map};
ghost use Rattle.std.specs.Int.{w32, to_le_bytes};
ghost use Rattle.std.specs.Str.{IsUtf8};
ghost use Rattle.far_types.specs.FormLengths.{text_bytes, texts_length};
ghost use Rattle.far_codec.specs.TextForm.{bytes_of, ends_of, texts_form, texts_of, ends_in, texts_meaning, AreTexts, AreTextParts, IsTextsForm};

use crate::mask::{mask_length, push_head};
use crate::texts::{TextParts, split_texts, text_in};
use far_types::{Refusal, Text};
use std::alloc::{AllocError, Global};

/// Borrows the bytes of a text in place; an empty slice if it is missing.
pub(crate) fn bytes_in(text: &Option<Text>) -> &[u8]
    ensures bytes { result.now ≡ bytes_of text.now }
    ensures utf8 { IfSome text.now IsUtf8 }
{
    match text {
        Some(text) => text.as_str().as_bytes(),
        None => &[],
    }
}

/// Returns how many bytes the texts have in total.
fn count_bytes(texts: &[Option<Text>]) -> usize
    requires { text_bytes texts.now < 2 ^ 62 }
    ensures { result ≡ text_bytes texts.now }
{
    let mut total = 0;
    for text in texts {
        total += bytes_in(text).len();
    }
    total
}

/// Returns how many bytes the far form of texts has.
pub fn texts_length(texts: &[Option<Text>]) -> usize
    requires count { length texts.now < 2 ^ 32 }
    requires bytes { text_bytes texts.now < 2 ^ 62 }
    ensures { result ≡ texts_length texts.now }
{
    6 + mask_length(texts) + 4 * texts.len() + count_bytes(texts)
}

/// Appends the end of each text.
fn push_ends(form: &mut Vec<u8>, texts: &[Option<Text>]) -> Result<(), AllocError>
    requires { text_bytes texts.now < 2 ^ 32 }
    ensures { OnOk result
        (form.new.items ≡ form.old.items ++ flat_map (to_le_bytes w32) (ends_of texts.now)) }
{
    let mut end = 0;
    for text in texts {
        end += bytes_in(text).len();
        form.extend_from_slice(&(end as u32).to_le_bytes())?;
    }
    Ok(())
}

/// Appends the bytes of each text.
fn push_texts(form: &mut Vec<u8>, texts: &[Option<Text>]) -> Result<(), AllocError>
    ensures written { OnOk result
        (form.new.items ≡ form.old.items ++ flat_map bytes_of texts.now) }
    ensures utf8 { OnOk result (All (λ text. IfSome text IsUtf8) texts.now) }
{
    for text in texts {
        form.extend_from_slice(bytes_in(text))?;
    }
    Ok(())
}

/// Encodes texts: returns their one far form. Refused only with `NoMemory` (1).
pub fn encode_texts(alloc: Global, texts: &[Option<Text>]) -> Result<Vec<u8>, Refusal>
    requires count { length texts.now < 2 ^ 32 }
    requires bytes { text_bytes texts.now < 2 ^ 32 }
    ensures spelled { IfOk result
        (λ form. (form.items ≡ texts_form texts.now) × AreTexts texts.now) }
    ensures length { IfOk result (λ form. length form.items ≡ texts_length texts.now) }
    ensures memory { IfErr result (λ e. e ≡ Refusal.NoMemory) }
{
    let mut form = Vec::with_capacity(alloc, texts_length(texts))?;
    push_head(&mut form, 1, &texts)?;
    push_ends(&mut form, texts)?;
    push_texts(&mut form, texts)?;
    Ok(form)
}

/// Borrows text `i` of a far form in place. Allocates nothing. Returns `None` if:
/// - the bytes are not a far form of texts;
/// - text `i` is past the end;
/// - text `i` is missing.
pub fn text_at(bytes: &[u8], i: usize) -> Option<&str>
    ensures found { IfSome result (λ text. IsTextsForm bytes.now
        × (slice_get (texts_meaning bytes.now) i ≡ Some (Some text.now))) }
    ensures only { IsTextsForm bytes.now
        → option_copied result
        ≡ option_and_then (λ text. text) (slice_get (texts_meaning bytes.now) i) }
{
    let parts = split_texts(bytes)?;
    text_in(parts, i)
}

/// Returns the length of the mask of `count` values in bytes, given the first byte of a form.
pub(crate) fn mask_size(version: u8, count: usize) -> usize
    requires { count < 2 ^ 32 }
    ensures { result ≡ cond (version == 2) ((count + 7) / 8) 0 }
{
    if version == 2 { (count + 7) / 8 } else { 0 }
}

/// Splits a valid far form of texts into its parts.
pub(crate) fn form_parts(form: &[u8]) -> TextParts<'_>
    requires { IsTextsForm form.now }
    ensures parts { AreTextParts result.mask.now (ends_in result.ends.now) result.body.now }
    ensures words { result.ends.now ≡ map (to_le_bytes w32) (ends_in result.ends.now) }
    ensures same { texts_of result.mask.now (ends_in result.ends.now) result.body.now
        ≡ texts_meaning form.now }
{
    let count = u32::from_le_bytes([form[2], form[3], form[4], form[5]]) as usize;
    let (_, rest) = form.split_at(6);
    let (mask, fields) = rest.split_at(mask_size(form[0], count));
    let (front, body) = fields.split_at(4 * count);
    let (ends, _) = front.as_chunks::<4>();
    TextParts { mask, ends, body }
}

/// Returns how many texts a far form of texts has. Allocates nothing, and reads only the head.
pub fn count_texts(form: &[u8]) -> usize
    requires { IsTextsForm form.now }
    ensures { result ≡ length (texts_meaning form.now) }
{
    form_parts(form).ends.len()
}

/// Borrows text `i` of a valid far form of texts in place. Returns `None` if it is past the end or missing.
///
/// Allocates nothing. Reads only the head, one bit of the mask and two ends.
pub fn text_of(form: &[u8], i: usize) -> Option<&str>
    requires { IsTextsForm form.now }
    ensures { option_copied result
        ≡ option_and_then (λ text. text) (slice_get (texts_meaning form.now) i) }
{
    text_in(form_parts(form), i)
}
