// Numbers that may be missing: the parts of their far form, and how they are decoded.
ghost use Rattle.std.specs.Prelude.{◌≡◌, ◌==◌, ◌↔◌, is_none, ◌<◌, ◌^◌, ℕ, ℤ, List, [], Option, None, Some, cond, true, length, slice_index_or, FitsSigned, IfOk, IfErr, IfSome, IsSome, IsTrue};
ghost use Rattle.std.specs.Int.{w64};
ghost use Rattle.std.specs.List.{list_any, AllByRecursion};
ghost use Rattle.far_types.specs.FormLengths.{ints_length};
ghost use Rattle.far_codec.specs.FarForm.{number_bytes, ints_form, FitsCount, AreInts};
ghost use Rattle.far_codec.specs.Reading.{is_missing, number_of, numbers_of, ints_meaning};
ghost use Rattle.far_codec.specs.ReadingLaws.{ints_list_reads_back, one_ints_list};

use crate::elem::Elem;
use crate::head::{Masked, is_set, split_head};
use crate::mask::{mask_length, push_head, strip_head};
use crate::numbers::push_plain_head;
use crate::present::{push_present, spells_present};
use crate::words::{are_words, number_in, push_words};
use far_types::Refusal;
use std::alloc::{AllocError, Global};

/// The parts of a form of numbers: its mask, and the eight bytes of each number.
#[derive(Clone, Copy)]
pub(crate) struct IntParts<'a> {
    pub mask: &'a [u8],
    pub words: &'a [[u8; 8]],
}

/// Returns whether the word of each missing number is 0.
fn missing_are_zero(mask: &[u8], words: &[[u8; 8]]) -> bool
    ensures { IsTrue result
        ↔ ((i : ℕ) → i < length words.now → is_missing mask.now i ≡ true
        → slice_index_or words.now i [] ≡ number_bytes None) }
{
    if mask.is_empty() {
        return true;
    }
    for i in 0..words.len() {
        if is_set(mask, i) {
            if words[i] != [0; 8] {
                return false;
            }
        }
    }
    true
}

/// Splits a form of numbers into its parts. Returns `None` if the bytes are not a far form of numbers.
pub(crate) fn split_ints(bytes: &[u8]) -> Option<IntParts<'_>>
    ensures found { IfSome result (λ parts. AreInts (numbers_of parts.mask.now parts.words.now)
        × (bytes.now ≡ ints_form (numbers_of parts.mask.now parts.words.now))) }
    ensures only { (numbers : List (Option ℤ)) → AreInts numbers
        → bytes.now ≡ ints_form numbers → IsSome result }
{
    let Masked {
        count,
        mask,
        fields,
    } = split_head(bytes, 0)?;
    if fields.len() != 8 * count {
        return None;
    }
    let (words, _) = fields.as_chunks::<8>();
    if !missing_are_zero(mask, words) {
        return None;
    }
    Some(IntParts { mask, words })
}

/// Returns the number that a word encodes, or `None` if it is missing.
pub(crate) fn option_in(missing: bool, word: &[u8; 8]) -> Option<i64>
    ensures { result ≡ cond missing None (Some (number_of word.now)) }
{
    if missing { None } else { Some(number_in(word)) }
}

/// Decodes the numbers of a form from its parts.
pub(crate) fn read_ints(alloc: Global, parts: &IntParts<'_>) -> Result<Vec<Option<i64>>, AllocError>
    ensures { IfOk result
        (λ numbers. numbers.items ≡ numbers_of parts.now.mask.now parts.now.words.now) }
{
    let mut numbers = Vec::with_capacity(alloc, parts.words.len())?;
    if parts.mask.is_empty() {
        numbers.extend(parts.words.iter().map(|word| Some(number_in(word))))?;
        return Ok(numbers);
    }
    for i in 0..parts.words.len() {
        numbers.push_reserved(option_in(is_set(parts.mask, i), &parts.words[i]));
    }
    Ok(numbers)
}

/// Returns how many bytes the far form of numbers has.
pub fn ints_length(numbers: &[Option<i64>]) -> usize
    requires { length numbers.now < 2 ^ 32 }
    ensures { result ≡ ints_length numbers.now }
{
    6 + mask_length(numbers) + 8 * numbers.len()
}

/// Encodes numbers: returns their one far form. Refused only with `NoMemory` (1).
pub fn encode_ints(alloc: Global, numbers: &[Option<i64>]) -> Result<Vec<u8>, Refusal>
    requires { length numbers.now < 2 ^ 32 }
    ensures spelled { IfOk result
        (λ form. (form.items ≡ ints_form numbers.now) × AreInts numbers.now) }
    ensures length { IfOk result (λ form. length form.items ≡ ints_length numbers.now) }
    ensures memory { IfErr result (λ e. e ≡ Refusal.NoMemory) }
{
    let space = 6 + numbers.len().div_ceil(8) + 8 * numbers.len();
    let mut form = Vec::with_capacity(alloc, space)?;
    push_plain_head(&mut form, numbers.len())?;
    let all = push_present(&mut form, numbers)?;
    if all {
        return Ok(form);
    }
    form.clear();
    push_head(&mut form, 0, &numbers)?;
    push_words(&mut form, numbers)?;
    Ok(form)
}

/// Returns whether the first byte is 2, which says in a far form that a value is missing.
fn tells_missing(bytes: &[u8]) -> bool
    ensures { result ≡ (slice_index_or bytes.now 0 0 == 2) }
{
    !bytes.is_empty() && bytes[0] == 2
}

/// Returns whether the bytes are the far form of numbers, some of them missing. Stops at the first difference.
fn spells_masked(bytes: &[u8], numbers: &[Option<i64>]) -> bool
    ensures found { IsTrue result
        → (bytes.now ≡ ints_form numbers.now)
        × AllByRecursion (λ number. IfSome number (FitsSigned w64)) numbers.now }
    ensures only { bytes.now ≡ ints_form numbers.now → list_any is_none numbers.now ≡ true
        → IsTrue result }
{
    match strip_head(bytes, 0, numbers) {
        Some(fields) => {
            let (words, spare) = fields.as_chunks::<8>();
            spare.is_empty() && are_words(words, numbers)
        }
        None => false,
    }
}

impl Elem for Option<i64> {
    ghost in_range = { λ number. IfSome number (FitsSigned w64) };

    ghost has_spelling = { FitsCount };

    ghost spelling = { ints_form };

    ghost meaning = { ints_meaning };

    fn spell(alloc: Global, view: &[Option<i64>]) -> Result<Vec<u8>, Refusal> {
        encode_ints(alloc, view)
    }

    fn unspell(alloc: Global, bytes: &[u8]) -> Result<Option<Vec<Option<i64>>>, Refusal> {
        match split_ints(bytes) {
            Some(parts) => Ok(Some(read_ints(alloc, &parts)?)),
            None => Ok(None),
        }
    }

    fn spells(bytes: &[u8], view: &[Option<i64>]) -> bool {
        if tells_missing(bytes) {
            spells_masked(bytes, view)
        } else {
            spells_present(bytes, view)
        }
    }

    ghost reads_back = { ints_list_reads_back };

    ghost one_list = { one_ints_list };
}
