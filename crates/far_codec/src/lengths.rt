// The length of a far form of texts after one text changes, computed before the form is made.
ghost use Rattle.std.specs.Prelude.{◌≡◌, ◌++◌, ◌∷◌, ◌+◌, ◌*◌, ◌/◌, ◌<◌, ◌≤◌, ◌^◌, [], cond, length, slice_set};
ghost use Rattle.std.specs.Option.{option_copied};
ghost use Rattle.far_types.specs.FormLengths.{texts_length};
ghost use Rattle.far_codec.specs.TextForm.{bytes_of, texts_meaning, IsTextsForm};

use crate::flags::other_missing;
use crate::text_forms::{bytes_in, form_parts};
use crate::texts::text_in;
use far_types::Text;

/// Returns the length of a borrowed text in bytes; 0 if it is missing.
fn lent_length(text: Option<&str>) -> usize
    ensures { result ≡ length (bytes_of (option_copied text.entry)) }
{
    match text {
        Some(text) => text.len(),
        None => 0,
    }
}

/// Returns the length of the mask of `count` values in bytes; 0 if none is missing.
fn mask_size(missing: bool, count: usize) -> usize
    requires { count ≤ 2 ^ 32 }
    ensures { result ≡ cond missing ((count + 7) / 8) 0 }
{
    if missing { (count + 7) / 8 } else { 0 }
}

/// Returns the length of the form of `count` texts that have `bytes` bytes in total.
pub(crate) fn length_of(missing: bool, count: usize, bytes: usize) -> usize
    requires few { count ≤ 2 ^ 32 }
    requires space { bytes < 2 ^ 63 + 2 ^ 33 }
    ensures { result ≡ 6 + cond missing ((count + 7) / 8) 0 + 4 * count + bytes }
{
    6 + mask_size(missing, count) + 4 * count + bytes
}

/// Returns the length of the far form with text `i` replaced by `text`.
pub fn length_with(form: &[u8], i: usize, text: &Option<Text>) -> usize
    requires form { IsTextsForm form.now }
    requires there { i < length (texts_meaning form.now) }
    ensures { result ≡ texts_length (slice_set (texts_meaning form.now) i text.now) }
{
    let parts = form_parts(form);
    let count = parts.ends.len();
    let old = lent_length(text_in(parts, i));
    let missing = text.is_none() | other_missing(parts.mask, count, i);
    length_of(
        missing,
        count,
        parts.body.len() - old + bytes_in(text).len(),
    )
}

// Returns the length of the far form with `text` appended, computed from the form's parts.
fn parted_length_with_next(form: &[u8], text: &Option<Text>) -> usize
    requires { IsTextsForm form.now }
    ensures { result ≡ texts_length (texts_meaning form.now ++ text.now ∷ []) }
{
    let parts = form_parts(form);
    let count = parts.ends.len();
    let missing = text.is_none() | other_missing(parts.mask, count, count);
    length_of(missing, count + 1, parts.body.len() + bytes_in(text).len())
}

/// Returns the length of the far form with `text` appended.
pub fn length_with_next(form: &[u8], text: &Option<Text>) -> usize
    requires { IsTextsForm form.now }
    ensures { result ≡ texts_length (texts_meaning form.now ++ text.now ∷ []) }
{
    // If no text is missing, there is no mask before or after. The form then grows by an end and by the text's bytes.
    if form[0] == 1 && text.is_some() {
        return form.len() + 4 + bytes_in(text).len();
    }
    parted_length_with_next(form, text)
}
