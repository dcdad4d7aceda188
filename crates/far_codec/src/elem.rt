// The element types of objects, and how a list of elements is encoded as bytes.
ghost use Rattle.std.specs.Prelude.{◌≡◌, ◌↔◌, ℕ, List, All, IfOk, IfErr, IfSome, IsTrue, Some, option_map};
ghost use Rattle.far_codec.specs.Spelling.{IsSpelled};

use far_types::Refusal;
use std::alloc::Global;

/// An element type of objects: numbers, numbers that may be missing, or the bytes of a far form of texts.
///
/// A list of elements has at most one spelling, which is its encoding as bytes. Decoding a spelling returns the list.
pub trait Elem: Copy + Drop + Send + Sync {
    /// The element is in the range of its type, as each element of a running program is.
    ///
    /// Proofs of the crates that use this trait need it: they cannot learn it from elsewhere.
    ghost in_range: { Self → Type 0 };

    /// The list has a spelling.
    ghost has_spelling: { List Self → Type 0 };

    /// The spelling of a list that has one.
    ghost spelling: { List Self → List ℕ };

    /// The list that bytes spell, if they spell one.
    ghost meaning: { List ℕ → List Self };

    /// Encodes the list: returns its one spelling. Refused only with `NoMemory` (1).
    fn spell(alloc: Global, view: &[Self]) -> Result<Vec<u8>, Refusal>
        requires { has_spelling view.now }
        ensures spelled { IfOk result
            (λ bytes. IsSpelled in_range has_spelling spelling view.now bytes.items) }
        ensures memory { IfErr result (λ e. e ≡ Refusal.NoMemory) };

    /// Decodes the bytes: returns the list that they spell, or `None` if they spell none. Refused only with `NoMemory` (1).
    fn unspell(alloc: Global, bytes: &[u8]) -> Result<Option<Vec<Self>>, Refusal>
        // A list that is returned has these bytes as its spelling.
        ensures found { IfOk result (λ read. IfSome read
            (λ list. IsSpelled in_range has_spelling spelling list.items bytes.now)) }
        // A list with these bytes as its spelling is returned.
        ensures only { (list : List Self)
            → IsSpelled in_range has_spelling spelling list bytes.now
            → IfOk result (λ read. option_map (λ found. found.items) read ≡ Some list) }
        ensures memory { IfErr result (λ e. e ≡ Refusal.NoMemory) };

    /// Returns whether the bytes are the spelling of the list. Allocates nothing, and stops at the first difference.
    fn spells(bytes: &[u8], view: &[Self]) -> bool
        ensures exact { IsTrue result ↔ (bytes.now ≡ spelling view.now) }
        ensures range { IsTrue result → All in_range view.now };

    /// Decoding a spelling returns the list.
    ghost reads_back: { (list : List Self) → All in_range list → has_spelling list
        → meaning (spelling list) ≡ list };

    /// Different lists have different spellings.
    ghost one_list: { (one other : List Self) → All in_range one → All in_range other
        → has_spelling one → spelling one ≡ spelling other → one ≡ other };
}
