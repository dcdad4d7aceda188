// Updates the words of objects whose far copies moved to another store.
ghost use Rattle.std.specs.Prelude.{◌≡◌, ℕ, IsSome};
ghost use Rattle.far_scopes.specs.Memory.{place_of, list_in};
ghost use Rattle.far_scopes.specs.Renewal.{renewed_word, renewed_memory};

use super::LocalMemory;
use far_codec::Elem;
use far_pointer::{Pointer, Word};

impl<T: Elem> LocalMemory<T> {
    /// Marks each local object as dirty and without a far copy.
    pub fn forget_copies(&mut self)
        ensures renewed { self.new ≡ renewed_memory self.old }
        ensures lists { (p : ℕ) → list_in self.new p ≡ list_in self.old p }
        ensures placed { (p : ℕ) → IsSome (place_of self.old.words p)
            → IsSome (list_in self.old p) }
    {
        for word in self.words.iter_mut() {
            *word = without_copy(*word);
        }
    }
}

// Returns the word of a local object as dirty and without a far copy. Returns the word of an object that is away unchanged.
fn without_copy(word: Word) -> Word
    ensures { result ≡ renewed_word word }
{
    let Pointer::Local { at, hot, .. } = word.read() else {
        return word;
    };
    let Some(word) = Word::local(at, true, hot, false) else {
        unreachable!()
    };
    word
}
