// Texts that may be missing: the parts of their far form, and how they are decoded.
ghost use Rattle.std.specs.Prelude.{◌≡◌, ◌↔◌, ◌≤◌, ℕ, List, ◌∷◌, Option, length, slice_get, slice_index, option_and_then, IfOk, IfErr, IfSome, IsSome, IsTrue};
ghost use Rattle.std.specs.Option.{option_copied};
ghost use Rattle.std.specs.Int.{w32, from_le_bytes};
ghost use Rattle.std.specs.Str.{IsUtf8};
ghost use Rattle.far_codec.specs.TextForm.{texts_form, texts_of, ends_in, AreTexts, AreTextParts};
ghost use Rattle.far_codec.specs.TextParts.{Ascend, MissingAreEmpty, AreUtf8};

use crate::head::{Masked, is_set, split_head};
use far_types::{Refusal, Text};
use std::alloc::Global;

/// The parts of a form of texts: its mask, the end of each text in four bytes, and the text bytes.
#[derive(Clone, Copy)]
pub(crate) struct TextParts<'a> {
    pub mask: &'a [u8],
    pub ends: &'a [[u8; 4]],
    pub body: &'a [u8],
}

/// Returns the end that four bytes encode.
pub(crate) fn end_in(word: &[u8; 4]) -> usize
    ensures { result ≡ from_le_bytes w32 word.now }
{
    u32::from_le_bytes(*word) as usize
}

/// Returns where text `i` begins, which is where the text before it ends.
pub(crate) fn start_in(ends: &[[u8; 4]], i: usize) -> usize
    requires { i ≤ length ends.now }
    ensures { result ≡ slice_index (0 ∷ ends_in ends.now) i }
{
    if i == 0 { 0 } else { end_in(&ends[i - 1]) }
}

/// Returns whether the ends ascend from 0 to `last`.
fn ascend_to(ends: &[[u8; 4]], last: usize) -> bool
    ensures { IsTrue result ↔ Ascend (ends_in ends.now) last }
{
    let mut start = 0;
    for i in 0..ends.len() {
        let end = end_in(&ends[i]);
        if end < start {
            return false;
        }
        start = end;
    }
    start == last
}

/// Returns whether each missing text ends where it begins.
fn missing_are_empty(mask: &[u8], ends: &[[u8; 4]]) -> bool
    ensures { IsTrue result ↔ MissingAreEmpty mask.now (ends_in ends.now) }
{
    if mask.is_empty() {
        return true;
    }
    for i in 0..ends.len() {
        if is_set(mask, i) && start_in(ends, i) != end_in(&ends[i]) {
            return false;
        }
    }
    true
}

/// Returns whether the bytes are valid UTF-8.
fn is_utf8(bytes: &[u8]) -> bool
    ensures { IsTrue result ↔ IsUtf8 bytes.now }
{
    str::from_utf8(bytes).is_ok()
}

/// Returns whether each text is valid UTF-8.
fn are_utf8(ends: &[[u8; 4]], body: &[u8]) -> bool
    requires { Ascend (ends_in ends.now) (length body.now) }
    ensures { IsTrue result ↔ AreUtf8 (ends_in ends.now) body.now }
{
    for i in 0..ends.len() {
        let start = start_in(ends, i);
        let end = end_in(&ends[i]);
        if !is_utf8(&body[start..end]) {
            return false;
        }
    }
    true
}

/// Returns whether these are the parts of a form of texts. If all text bytes are ASCII, does not check the texts one by one.
fn are_texts(mask: &[u8], ends: &[[u8; 4]], body: &[u8]) -> bool
    ensures { IsTrue result ↔ AreTextParts mask.now (ends_in ends.now) body.now }
{
    if !ascend_to(ends, body.len()) {
        return false;
    }
    if !missing_are_empty(mask, ends) {
        return false;
    }
    if body.is_ascii() {
        return true;
    }
    are_utf8(ends, body)
}

/// Splits a form of texts into its parts. Returns `None` if the bytes are not a far form of texts.
pub(crate) fn split_texts(bytes: &[u8]) -> Option<TextParts<'_>>
    ensures parts { IfSome result (λ p. AreTextParts p.mask.now (ends_in p.ends.now) p.body.now) }
    ensures found { IfSome result (λ p. AreTexts
        (texts_of p.mask.now (ends_in p.ends.now) p.body.now)
        × (bytes.now ≡ texts_form (texts_of p.mask.now (ends_in p.ends.now) p.body.now))) }
    ensures only { (texts : List (Option (List ℕ))) → AreTexts texts
        → bytes.now ≡ texts_form texts → IsSome result }
{
    let Masked {
        count,
        mask,
        fields,
    } = split_head(bytes, 1)?;
    if fields.len() < 4 * count {
        return None;
    }
    let (front, body) = fields.split_at(4 * count);
    let (ends, _) = front.as_chunks::<4>();
    if !are_texts(mask, ends, body) {
        return None;
    }
    Some(TextParts { mask, ends, body })
}

/// Borrows text `i` of the parts in place. Returns `None` if it is missing or past the end.
pub(crate) fn text_in<'a>(parts: TextParts<'a>, i: usize) -> Option<&'a str>
    requires { AreTextParts parts.mask.now (ends_in parts.ends.now) parts.body.now }
    ensures { option_copied result
        ≡ option_and_then (λ text. text) (slice_get
        (texts_of parts.entry.mask.now (ends_in parts.entry.ends.now) parts.entry.body.now) i) }
{
    if i >= parts.ends.len() {
        return None;
    }
    if is_set(parts.mask, i) {
        return None;
    }
    let start = start_in(parts.ends, i);
    let end = end_in(&parts.ends[i]);
    Some(unsafe { str::from_utf8_unchecked(&parts.body[start..end]) })
}

/// Copies a text, if there is one.
fn owned(alloc: Global, text: Option<&str>) -> Result<Option<Text>, Refusal>
    ensures equal { IfOk result (λ owned. owned ≡ option_copied text.entry) }
    ensures memory { IfErr result (λ e. e ≡ Refusal.NoMemory) }
{
    match text {
        Some(text) => Ok(Some(Text::new(String::from_str(alloc, text)?))),
        None => Ok(None),
    }
}

/// Decodes the texts of a form from its parts.
pub(crate) fn read_texts(alloc: Global, parts: TextParts<'_>) -> Result<Vec<Option<Text>>, Refusal>
    requires { AreTextParts parts.mask.now (ends_in parts.ends.now) parts.body.now }
    ensures read { IfOk result (λ texts. texts.items
        ≡ texts_of parts.entry.mask.now (ends_in parts.entry.ends.now) parts.entry.body.now) }
    ensures memory { IfErr result (λ e. e ≡ Refusal.NoMemory) }
{
    let mut texts = Vec::with_capacity(alloc, parts.ends.len())?;
    for i in 0..parts.ends.len() {
        texts.push_reserved(owned(alloc, text_in(parts, i))?);
    }
    Ok(texts)
}
