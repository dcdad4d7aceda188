// Words of eight bytes: writing and comparing numbers.
ghost use Rattle.std.specs.Prelude.{◌≡◌, ◌↔◌, ◌++◌, ℕ, List, length, map, FitsSigned, OnOk, IfSome, IsTrue, Some};
ghost use Rattle.std.specs.List.{flat_map, AllByRecursion};
ghost use Rattle.std.specs.Int.{w64};
ghost use Rattle.far_codec.specs.FarForm.{number_bytes};
ghost use Rattle.far_codec.specs.Reading.{number_of};

use std::alloc::AllocError;

/// A value that is written as eight bytes.
pub(crate) trait EightBytes: Copy + Drop {
    /// The eight bytes of the value.
    ghost written: { Self → List ℕ };

    /// The value is in the range of its type.
    ghost in_range: { Self → Type 0 };

    fn word(&self) -> [u8; 8]
        ensures bytes { result ≡ written self.now }
        ensures range { in_range self.now };
}

impl EightBytes for i64 {
    ghost written = { λ number. number_bytes (Some number) };

    ghost in_range = { FitsSigned w64 };

    #[tactic(auto, unfolding(crate::specs::FarForm::number_bytes))]
    fn word(&self) -> [u8; 8] {
        self.to_le_bytes()
    }
}

impl EightBytes for Option<i64> {
    ghost written = { number_bytes };

    ghost in_range = { λ number. IfSome number (FitsSigned w64) };

    #[tactic(auto, unfolding(crate::specs::FarForm::number_bytes))]
    fn word(&self) -> [u8; 8] {
        let number = match self {
            Some(number) => *number,
            None => 0,
        };
        number.to_le_bytes()
    }
}

/// Returns the number that eight bytes encode.
#[tactic(auto, unfolding(crate::specs::Reading::number_of))]
pub(crate) fn number_in(word: &[u8; 8]) -> i64
    ensures { result ≡ number_of word.now }
{
    i64::from_le_bytes(*word)
}

/// Writes the word of each element of a block into its place.
fn write_words<T: EightBytes>(words: &mut [[u8; 8]], block: &[T])
    requires { length words.old ≡ length block.now }
    ensures words { words.new ≡ map T.written block.now }
    ensures range { AllByRecursion T.in_range block.now }
{
    for j in 0..block.len() {
        words[j] = block[j].word();
    }
}

/// Appends the words of a list. Writes them in blocks, so that the compiler uses wide moves.
pub(crate) fn push_words<T: EightBytes>(form: &mut Vec<u8>, list: &[T]) -> Result<(), AllocError>
    ensures written { OnOk result
        (form.new.items ≡ form.old.items ++ flat_map T.written list.now) }
    ensures range { OnOk result (AllByRecursion T.in_range list.now) }
{
    let mut words = [[0; 8]; 64];
    for i in 0..list.len() / 64 {
        let (_, from) = list.split_at(64 * i);
        let (block, _) = from.split_at(64);
        write_words(&mut words, block);
        form.extend_from_slice(words.as_flattened())?;
    }
    let (_, rest) = list.split_at(list.len() / 64 * 64);
    for element in rest {
        form.extend_from_slice(&element.word())?;
    }
    Ok(())
}

/// Returns whether the words encode the list. Stops at the first difference.
pub(crate) fn are_words<T: EightBytes>(words: &[[u8; 8]], list: &[T]) -> bool
    ensures exact { IsTrue result ↔ (words.now ≡ map T.written list.now) }
    ensures range { IsTrue result → AllByRecursion T.in_range list.now }
{
    if words.len() != list.len() {
        return false;
    }
    for i in 0..words.len() {
        if words[i] != list[i].word() {
            return false;
        }
    }
    true
}
