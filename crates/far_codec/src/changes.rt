// Far forms of texts after one text changed: made in one pass over the old form.
ghost use Rattle.std.specs.Prelude.{◌≡◌, ◌++◌, ◌∷◌, ◌+◌, ◌-◌, ◌<◌, ◌≤◌, ◌^◌, [], List, length, map, slice_set, is_none, false, All, OnOk, IfOk, IfErr, IfSome};
ghost use Rattle.std.specs.List.{flat_map, list_any};
ghost use Rattle.std.specs.Int.{w32, to_le_bytes};
ghost use Rattle.std.specs.Str.{IsUtf8};
ghost use Rattle.far_types.specs.FormLengths.{text_bytes, texts_length};
ghost use Rattle.far_codec.specs.Effects.{with_text};
ghost use Rattle.far_codec.specs.TextForm.{bytes_of, ends_of, texts_of, ends_in, texts_meaning, AreTexts, AreTextParts, IsTextsForm};

use crate::flags::ChangedFlags;
use crate::lengths::{length_of, length_with, length_with_next};
use crate::mask::push_head;
use crate::text_forms::{bytes_in, form_parts};
use crate::texts::{TextParts, end_in, start_in};
use far_types::{Refusal, Text};
use std::alloc::{AllocError, Global};

/// Appends the ends, each as `end - from + to`.
fn push_moved(
    form: &mut Vec<u8>,
    ends: &[[u8; 4]],
    from: usize,
    to: usize,
) -> Result<(), AllocError>
    requires { All (λ end. (from ≤ end) × (end - from + to < 2 ^ 32)) (ends_in ends.now) }
    ensures { OnOk result (form.new.items
        ≡ form.old.items
        ++ flat_map (to_le_bytes w32) (map (λ end. end - from + to) (ends_in ends.now))) }
{
    for word in ends {
        let end = end_in(word) - from + to;
        form.extend_from_slice(&(end as u32).to_le_bytes())?;
    }
    Ok(())
}

/// Appends the ends and the bytes of the texts with text `i` replaced by `text`, or with `text` appended if `i` is their count. Recomputes
/// only the ends from text `i` on, and copies the rest.
fn push_fields(
    form: &mut Vec<u8>,
    parts: TextParts<'_>,
    i: usize,
    text: &Option<Text>,
) -> Result<(), AllocError>
    requires parts { AreTextParts parts.mask.now (ends_in parts.ends.now) parts.body.now }
    requires words { parts.ends.now ≡ map (to_le_bytes w32) (ends_in parts.ends.now) }
    requires there { i ≤ length parts.ends.now }
    requires space { text_bytes
        (with_text (texts_of parts.mask.now (ends_in parts.ends.now) parts.body.now) i text.now)
        < 2 ^ 32 }
    ensures utf8 { IfSome text.now IsUtf8 }
    ensures written { let texts = with_text
        (texts_of parts.entry.mask.now (ends_in parts.entry.ends.now) parts.entry.body.now) i
        text.now in
        OnOk result (form.new.items
        ≡ form.old.items
        ++ (flat_map (to_le_bytes w32) (ends_of texts) ++ flat_map bytes_of texts)) }
{
    let after = (i + 1).min(parts.ends.len());
    let start = start_in(parts.ends, i);
    let old_end = start_in(parts.ends, after);
    let bytes = bytes_in(text);
    let end = start + bytes.len();
    let (ends_before, _) = parts.ends.split_at(i);
    let (_, ends_behind) = parts.ends.split_at(after);
    let (before, _) = parts.body.split_at(start);
    let (_, behind) = parts.body.split_at(old_end);
    form.extend_from_slice(ends_before.as_flattened())?;
    form.extend_from_slice(&(end as u32).to_le_bytes())?;
    push_moved(form, ends_behind, old_end, end)?;
    form.extend_from_slice(before)?;
    form.extend_from_slice(bytes)?;
    form.extend_from_slice(behind)?;
    Ok(())
}

/// Clears a list that is no longer needed, and reserves `size` bytes in it. Allocates only if its capacity is smaller.
#[inline(always)]
fn emptied(spare: Vec<u8>, size: usize) -> Result<Vec<u8>, Refusal>
    ensures items { IfOk result (λ list. list.items ≡ []) }
    ensures memory { IfErr result (λ e. e ≡ Refusal.NoMemory) }
{
    let mut list = spare;
    list.clear();
    list.reserve(size)?;
    Ok(list)
}

/// Makes the far form of the texts with text `i` replaced by `text`, or with `text` appended if `i` is their count. Reserves `size` bytes
/// in the memory of `spare`, a list that is no longer needed.
fn form_around(
    spare: Vec<u8>,
    parts: TextParts<'_>,
    i: usize,
    text: &Option<Text>,
    size: usize,
) -> Result<Vec<u8>, Refusal>
    requires parts { AreTextParts parts.mask.now (ends_in parts.ends.now) parts.body.now }
    requires words { parts.ends.now ≡ map (to_le_bytes w32) (ends_in parts.ends.now) }
    requires texts { AreTexts (texts_of parts.mask.now (ends_in parts.ends.now) parts.body.now) }
    requires there { i ≤ length parts.ends.now }
    requires space { texts_length
        (with_text (texts_of parts.mask.now (ends_in parts.ends.now) parts.body.now) i text.now)
        < 2 ^ 32 }
    ensures form { IfOk result (λ new. IsTextsForm new.items) }
    ensures texts { let texts = with_text
        (texts_of parts.entry.mask.now (ends_in parts.entry.ends.now) parts.entry.body.now) i
        text.now in
        IfOk result (λ new. texts_meaning new.items ≡ texts) }
    ensures length { let texts = with_text
        (texts_of parts.entry.mask.now (ends_in parts.entry.ends.now) parts.entry.body.now) i
        text.now in
        IfOk result (λ new. length new.items ≡ texts_length texts) }
    ensures memory { IfErr result (λ e. e ≡ Refusal.NoMemory) }
{
    let flags = ChangedFlags {
        mask: parts.mask,
        count: parts.ends.len().max(i + 1),
        i,
        missing: text.is_none(),
    };
    let mut form = emptied(spare, size)?;
    push_head(&mut form, 1, &flags)?;
    push_fields(&mut form, parts, i, text)?;
    Ok(form)
}

/// Makes the far form of the texts with `text` appended, if no text is missing. Reserves `size` bytes in the memory of `spare`, a list
/// that is no longer needed. Copies the old ends and bytes unchanged.
fn form_behind(
    spare: Vec<u8>,
    parts: TextParts<'_>,
    text: &Option<Text>,
    size: usize,
) -> Result<Vec<u8>, Refusal>
    requires parts { AreTextParts parts.mask.now (ends_in parts.ends.now) parts.body.now }
    requires words { parts.ends.now ≡ map (to_le_bytes w32) (ends_in parts.ends.now) }
    requires texts { AreTexts (texts_of parts.mask.now (ends_in parts.ends.now) parts.body.now) }
    requires there { list_any is_none (with_text
        (texts_of parts.mask.now (ends_in parts.ends.now) parts.body.now) (length parts.ends.now)
        text.now)
        ≡ false }
    requires space { texts_length (with_text
        (texts_of parts.mask.now (ends_in parts.ends.now) parts.body.now) (length parts.ends.now)
        text.now)
        < 2 ^ 32 }
    ensures form { IfOk result (λ new. IsTextsForm new.items) }
    ensures texts { let texts = with_text
        (texts_of parts.entry.mask.now (ends_in parts.entry.ends.now) parts.entry.body.now)
        (length parts.entry.ends.now) text.now in
        IfOk result (λ new. texts_meaning new.items ≡ texts) }
    ensures length { let texts = with_text
        (texts_of parts.entry.mask.now (ends_in parts.entry.ends.now) parts.entry.body.now)
        (length parts.entry.ends.now) text.now in
        IfOk result (λ new. length new.items ≡ texts_length texts) }
    ensures memory { IfErr result (λ e. e ≡ Refusal.NoMemory) }
{
    let count = (parts.ends.len() + 1).to_le_bytes();
    let bytes = bytes_in(text);
    let end = parts.body.len() + bytes.len();
    let mut form = emptied(spare, size)?;
    form.extend_from_slice(&[1, 1, count[0], count[1], count[2], count[3]])?;
    form.extend_from_slice(parts.ends.as_flattened())?;
    form.extend_from_slice(&(end as u32).to_le_bytes())?;
    form.extend_from_slice(parts.body)?;
    form.extend_from_slice(bytes)?;
    Ok(form)
}

/// Makes the far form of the texts with text `i` replaced by `text`, in one pass over the old form and one allocation. Refused only with
/// `NoMemory` (1).
pub fn form_with(
    alloc: Global,
    form: &[u8],
    i: usize,
    text: &Option<Text>,
) -> Result<Vec<u8>, Refusal>
    requires form { IsTextsForm form.now }
    requires there { i < length (texts_meaning form.now) }
    requires space { texts_length (slice_set (texts_meaning form.now) i text.now) < 2 ^ 32 }
    ensures form { IfOk result (λ new. IsTextsForm new.items) }
    ensures texts { IfOk result
        (λ new. texts_meaning new.items ≡ slice_set (texts_meaning form.now) i text.now) }
    ensures length { IfOk result
        (λ new. length new.items
        ≡ texts_length (slice_set (texts_meaning form.now) i text.now)) }
    ensures memory { IfErr result (λ e. e ≡ Refusal.NoMemory) }
{
    form_around(
        Vec::new(alloc),
        form_parts(form),
        i,
        text,
        length_with(form, i, text),
    )
}

/// Makes the far form of the texts with `text` appended, in one pass over the old form.
///
/// Reuses the memory of `spare`, a list that is no longer needed, and allocates only if its capacity is too small. Refused only with
/// `NoMemory` (1).
pub fn form_with_next(spare: Vec<u8>, form: &[u8], text: &Option<Text>) -> Result<Vec<u8>, Refusal>
    requires form { IsTextsForm form.now }
    requires space { texts_length (texts_meaning form.now ++ text.now ∷ []) < 2 ^ 32 }
    ensures form { IfOk result (λ new. IsTextsForm new.items) }
    ensures texts { IfOk result
        (λ new. texts_meaning new.items ≡ texts_meaning form.now ++ text.now ∷ []) }
    ensures length { IfOk result
        (λ new. length new.items ≡ texts_length (texts_meaning form.now ++ text.now ∷ [])) }
    ensures memory { IfErr result (λ e. e ≡ Refusal.NoMemory) }
{
    let size = length_with_next(form, text);
    if form[0] == 1 && text.is_some() {
        // In this branch the compiler knows that there is no mask.
        let parts = form_parts(form);
        return form_behind(spare, parts, text, size);
    }
    let old = form_parts(form);
    form_around(spare, old, old.ends.len(), text, size)
}

/// Makes the far form of one text, in the memory of `spare`, a list that is no longer needed. Refused only with `NoMemory` (1).
pub fn form_of(spare: Vec<u8>, text: &Option<Text>) -> Result<Vec<u8>, Refusal>
    requires { texts_length (text.now ∷ []) < 2 ^ 32 }
    ensures form { IfOk result (λ new. IsTextsForm new.items) }
    ensures texts { IfOk result (λ new. texts_meaning new.items ≡ text.now ∷ []) }
    ensures length { IfOk result (λ new. length new.items ≡ texts_length (text.now ∷ [])) }
    ensures memory { IfErr result (λ e. e ≡ Refusal.NoMemory) }
{
    let none = TextParts {
        mask: &[],
        ends: &[],
        body: &[],
    };
    form_around(
        spare,
        none,
        0,
        text,
        length_of(text.is_none(), 1, bytes_in(text).len()),
    )
}
