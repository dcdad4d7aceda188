// Numbers as elements of objects; none of them is missing.
ghost use Rattle.std.specs.Prelude.{◌≡◌, ◌↔◌, ◌++◌, ◌∷◌, ◌<◌, ◌^◌, ℤ, List, map, length, FitsSigned, OnOk, IfOk, IfSome, IsSomeAnd, IsTrue, Some};
ghost use Rattle.std.specs.List.{flat_map, AllByRecursion};
ghost use Rattle.std.specs.Int.{w32, w64, to_le_bytes};
ghost use Rattle.far_codec.specs.FarForm.{number_bytes, FitsCount};
ghost use Rattle.far_codec.specs.PlainNumbers.{plain_form, plain_meaning, IsPlain};
ghost use Rattle.far_codec.specs.Reading.{number_of};
ghost use Rattle.far_codec.specs.PlainLaws.{plain_reads_back, one_plain_list};

use crate::elem::Elem;
use crate::words::{are_words, number_in, push_words};
use far_types::Refusal;
use std::alloc::{AllocError, Global};

/// Decodes the number in each word.
fn read_numbers(alloc: Global, words: &[[u8; 8]]) -> Result<Vec<i64>, AllocError>
    ensures { IfOk result (λ numbers. numbers.items ≡ map number_of words.now) }
{
    let mut numbers = Vec::with_capacity(alloc, words.len())?;
    numbers.extend(words.iter().map(number_in))?;
    Ok(numbers)
}

/// Returns the words of a form of numbers without a mask, if the bytes are such a form. Does not check that the count fits four bytes.
pub(crate) fn plain_words(bytes: &[u8]) -> Option<&[[u8; 8]]>
    ensures found { IfSome result (λ words. IsPlain bytes.now words.now) }
    ensures only { (numbers : List ℤ) → bytes.now ≡ plain_form numbers
        → IsSomeAnd result (λ words. words.now ≡ map (λ x. number_bytes (Some x)) numbers) }
{
    if bytes.len() < 6 {
        return None;
    }
    let (head, body) = bytes.split_at(6);
    let (words, spare) = body.as_chunks::<8>();
    let count = words.len().to_le_bytes();
    if !spare.is_empty() {
        return None;
    }
    if head != [1, 0, count[0], count[1], count[2], count[3]].as_slice() {
        return None;
    }
    Some(words)
}

/// Appends the head of `count` numbers, none of which is missing.
pub(crate) fn push_plain_head(form: &mut Vec<u8>, count: usize) -> Result<(), AllocError>
    requires { count < 2 ^ 32 }
    ensures { OnOk result (form.new.items ≡ form.old.items ++ 1 ∷ 0 ∷ to_le_bytes w32 count) }
{
    form.extend_from_slice(&[1, 0])?;
    form.extend_from_slice(&(count as u32).to_le_bytes())
}

impl Elem for i64 {
    ghost in_range = { FitsSigned w64 };

    ghost has_spelling = { FitsCount };

    ghost spelling = { plain_form };

    ghost meaning = { plain_meaning };

    fn spell(alloc: Global, view: &[i64]) -> Result<Vec<u8>, Refusal> {
        let mut form = Vec::with_capacity(alloc, 6 + 8 * view.len())?;
        push_plain_head(&mut form, view.len())?;
        push_words(&mut form, view)?;
        Ok(form)
    }

    fn unspell(alloc: Global, bytes: &[u8]) -> Result<Option<Vec<i64>>, Refusal> {
        match plain_words(bytes) {
            Some(words) if words.len() <= 0xffff_ffff => Ok(Some(read_numbers(alloc, words)?)),
            _ => Ok(None),
        }
    }

    fn spells(bytes: &[u8], view: &[i64]) -> bool {
        match plain_words(bytes) {
            Some(words) => are_words(words, view),
            None => false,
        }
    }

    ghost reads_back = { plain_reads_back };

    ghost one_list = { one_plain_list };
}
