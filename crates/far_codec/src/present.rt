// Numbers that may be missing: written and compared up to the first missing one.
ghost use Rattle.std.specs.Prelude.{◌≡◌, ◌++◌, length, map, is_none, false, IfOk, IsTrue};
ghost use Rattle.std.specs.List.{list_any, flat_map, AllByRecursion};
ghost use Rattle.far_codec.specs.FarForm.{number_bytes, ints_form};
ghost use Rattle.far_codec.specs.PlainNumbers.{IsThere};

use crate::numbers::plain_words;
use crate::words::EightBytes;
use std::alloc::AllocError;

/// Writes the word of each number of a block into its place. Returns whether none is missing. Stops at the first missing one.
#[tactic(auto, unfolding(crate::specs::FarForm::number_bytes))]
fn write_present(words: &mut [[u8; 8]], block: &[Option<i64>]) -> bool
    requires { length words.old ≡ length block.now }
    ensures words { IsTrue result → words.new ≡ map number_bytes block.now }
    ensures there { IsTrue result → AllByRecursion IsThere block.now }
{
    for j in 0..block.len() {
        match block[j] {
            Some(number) => words[j] = number.to_le_bytes(),
            None => return false,
        }
    }
    true
}

/// Appends the words of a few numbers. Returns whether none is missing. Stops at the first missing one.
fn push_few(form: &mut Vec<u8>, numbers: &[Option<i64>]) -> Result<bool, AllocError>
    ensures written { IfOk result
        (λ all. IsTrue all
        → form.new.items ≡ form.old.items ++ flat_map number_bytes numbers.now) }
    ensures there { IfOk result (λ all. IsTrue all → AllByRecursion IsThere numbers.now) }
{
    for number in numbers {
        if number.is_none() {
            return Ok(false);
        }
        form.extend_from_slice(&number.word())?;
    }
    Ok(true)
}

/// Appends the words of numbers. Returns whether none is missing. Stops at the first missing one.
///
/// Writes the words in blocks, so that it tests only once for each block whether the form has capacity.
pub(crate) fn push_present(form: &mut Vec<u8>, numbers: &[Option<i64>]) -> Result<bool, AllocError>
    ensures written { IfOk result
        (λ all. IsTrue all
        → form.new.items ≡ form.old.items ++ flat_map number_bytes numbers.now) }
    ensures there { IfOk result (λ all. IsTrue all → AllByRecursion IsThere numbers.now) }
{
    let mut words = [[0; 8]; 64];
    for i in 0..numbers.len() / 64 {
        let (_, from) = numbers.split_at(64 * i);
        let (block, _) = from.split_at(64);
        if !write_present(&mut words, block) {
            return Ok(false);
        }
        form.extend_from_slice(words.as_flattened())?;
    }
    let (_, rest) = numbers.split_at(numbers.len() / 64 * 64);
    push_few(form, rest)
}

/// Returns whether none of the numbers is missing and the words encode them. Stops at the first difference.
fn are_present(words: &[[u8; 8]], numbers: &[Option<i64>]) -> bool
    ensures found { IsTrue result
        → (words.now ≡ map number_bytes numbers.now) × AllByRecursion IsThere numbers.now }
    ensures only { words.now ≡ map number_bytes numbers.now
        → list_any is_none numbers.now ≡ false → IsTrue result }
{
    if words.len() != numbers.len() {
        return false;
    }
    for i in 0..words.len() {
        if numbers[i].is_none() || words[i] != numbers[i].word() {
            return false;
        }
    }
    true
}

/// Returns whether none of the numbers is missing and the bytes are their far form. Stops at the first difference.
pub(crate) fn spells_present(bytes: &[u8], numbers: &[Option<i64>]) -> bool
    ensures found { IsTrue result
        → (bytes.now ≡ ints_form numbers.now) × AllByRecursion IsThere numbers.now }
    ensures only { bytes.now ≡ ints_form numbers.now → list_any is_none numbers.now ≡ false
        → IsTrue result }
{
    match plain_words(bytes) {
        Some(words) => are_present(words, numbers),
        None => false,
    }
}
