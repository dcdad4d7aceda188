// Pointer words.
ghost use Rattle.std.specs.Prelude.{◌≡◌, ◌==◌, ◌||◌, ◌<◌, IfSome, if◌then◌else◌};
ghost use Rattle.std.specs.Int.{bit_at};
ghost use Rattle.far_pointer.specs.Layout.{bits_of};

use super::pointer::{At, Pointer};
use std::marker::Model;

// The flags, by the numbers of their bits, counted from the lowest bit.
const PRESENT: u32 = 63;

const DIRTY: u32 = 62;

const HOT: u32 = 61;

const FAR: u32 = 60;

// Where the spare bits and the segment begin; the offset has the lowest bits.
const SPARE: u32 = 48;

const SEGMENT: u32 = 32;

// The word of every remote object.
const REMOTE: u64 = 1 << FAR;

/// A pointer word: 64 bits that say where an object's elements are and what state they are in. Contracts see the `Pointer` that it
/// encodes.
///
/// | Bits | Meaning |
/// |---|---|
/// | 63 | present (local) |
/// | 62 | dirty |
/// | 61 | hot |
/// | 60 | has a far copy |
/// | 59..48 | 0 |
/// | 47..32 | segment, if present, else 0 |
/// | 31..0 | offset, if present, else 0 |
///
/// A local word is dirty, or has a far copy, or both. A remote word has only bit 60.
///
/// Follows the word of a clean object that is moved, used and written:
///
/// ```
/// fn changes_part_by_part() -> bool {
///     let Some(word) = Word::from_bits(0x9000_0000_0000_0000) else {
///         return false;
///     };
///     let moved = word.with_at(At {
///         segment: 3,
///         offset: 9,
///     });
///     let hot = moved.with_hot(true);
///     let dirty = hot.with_dirty();
///     moved.bits() == 0x9000_0003_0000_0009
///         && hot.bits() == 0xb000_0003_0000_0009
///         && dirty.bits() == 0xf000_0003_0000_0009
///         && dirty.dirty()
///         && dirty.hot()
///         && dirty.with_hot(false).bits() == 0xd000_0003_0000_0009
/// }
/// ```
///
/// Modelled on the remoteable pointer of AIFM (Ruan et al., OSDI 2020), which also keeps flags and address in one word.
#[derive(Clone, Copy, Debug, PartialEq, Eq)]
pub struct Word {
    bits: u64,
}

impl Model for Word {
    ghost use Rattle.far_pointer.specs.declared.pointer.Pointer.{Pointer};

    ghost Value = { Pointer };

    ghost use Rattle.far_pointer.specs.Layout.{bits_of};
    ghost use Rattle.far_pointer.specs.Reading.{pointer_of, IsWord, inside-spelled};

    ghost view = { λ w. pointer_of w.bits };

    ghost invariant = { λ w. IsWord w.bits };

    ghost inverse = { λ p. record { bits = bits_of p } };

    ghost inverse_ok = { inside-spelled };
}

impl Word {
    ghost use Rattle.far_pointer.specs.declared.pointer.Pointer.{Pointer};
    ghost use Rattle.far_pointer.specs.Layout.{bits_of, HasWord, is_dirty, is_hot, with_dirty, with_hot, with_at};

    /// Makes the word of a local object. Returns `None` exactly if the object is neither dirty nor has a far copy. No object is in such a
    /// state, since a clean object equals its far copy.
    pub fn local(at: At, dirty: bool, hot: bool, far: bool) -> Option<Word>
        ensures { result
            ≡ (if dirty || far then Some (Pointer.Local at dirty hot far) else None) }
    {
        if dirty || far {
            Some(Word {
                bits: local_bits(at, dirty, hot, far),
            })
        } else {
            None
        }
    }

    /// Makes the word of an object that only the far store has.
    pub fn remote() -> Word
        ensures { result ≡ Pointer.Remote }
    {
        Word { bits: REMOTE }
    }

    /// Returns the word with these bits, or `None` exactly if no word has them.
    pub fn from_bits(bits: u64) -> Option<Word>
        ensures found { IfSome result (λ word. bits_of word ≡ bits) }
        ensures only { (p : Pointer) → HasWord p → bits_of p ≡ bits → result ≡ Some p }
    {
        let spare = bits >> SPARE & 0xfff;
        let is_kept = is_set(bits, DIRTY) || is_set(bits, FAR);
        let is_local = is_set(bits, PRESENT) && is_kept && spare == 0;
        if is_local || bits == REMOTE {
            Some(Word { bits })
        } else {
            None
        }
    }

    /// Returns the bits of the word.
    pub fn bits(&self) -> u64
        ensures { result ≡ bits_of self.now }
    {
        self.bits
    }

    /// Returns the pointer that the word encodes.
    pub fn read(&self) -> Pointer
        ensures says { result ≡ self.now }
        ensures valid { HasWord result }
    {
        if !is_set(self.bits, PRESENT) {
            return Pointer::Remote;
        }
        Pointer::Local {
            at: At {
                segment: (self.bits >> SEGMENT & 0xffff) as u16,
                offset: (self.bits & 0xffff_ffff) as u32,
            },
            dirty: self.dirty(),
            hot: self.hot(),
            far: is_set(self.bits, FAR),
        }
    }

    /// Returns whether the object is local and dirty: changed since its far copy was written, or without a far copy.
    pub fn dirty(&self) -> bool
        ensures { result ≡ is_dirty self.now }
    {
        is_set(self.bits, DIRTY)
    }

    /// Returns whether the object is local and was used since its hot bit was last cleared.
    pub fn hot(&self) -> bool
        ensures { result ≡ is_hot self.now }
    {
        is_set(self.bits, HOT)
    }

    /// Returns the word with the dirty bit set, otherwise unchanged. A remote word is returned unchanged.
    pub fn with_dirty(self) -> Word
        ensures { result ≡ with_dirty self }
    {
        match self.read() {
            Pointer::Local { at, hot, far, .. } => Word {
                bits: local_bits(at, true, hot, far),
            },
            Pointer::Remote => self,
        }
    }

    /// Returns the word with this hot bit, otherwise unchanged. A remote word is returned unchanged.
    pub fn with_hot(self, hot: bool) -> Word
        ensures { result ≡ with_hot self hot }
    {
        match self.read() {
            Pointer::Local { at, dirty, far, .. } => Word {
                bits: local_bits(at, dirty, hot, far),
            },
            Pointer::Remote => self,
        }
    }

    /// Returns the word with this location, otherwise unchanged. A remote word is returned unchanged.
    pub fn with_at(self, at: At) -> Word
        ensures { result ≡ with_at self at }
    {
        match self.read() {
            Pointer::Local {
                dirty,
                hot,
                far,
                ..
            } => Word {
                bits: local_bits(at, dirty, hot, far),
            },
            Pointer::Remote => self,
        }
    }
}

// Returns the bits of a local word.
fn local_bits(at: At, dirty: bool, hot: bool, far: bool) -> u64
    ensures { result ≡ bits_of (Pointer.Local at dirty hot far) }
{
    (1 << PRESENT)
        + (u64::from(dirty) << DIRTY)
        + (u64::from(hot) << HOT)
        + (u64::from(far) << FAR)
        + (u64::from(at.segment) << SEGMENT)
        + u64::from(at.offset)
}

// Returns whether a bit is set.
fn is_set(bits: u64, bit: u32) -> bool
    requires { bit < 64 }
    ensures { result ≡ (bit_at bits bit == 1) }
{
    bits >> bit & 1 == 1
}
