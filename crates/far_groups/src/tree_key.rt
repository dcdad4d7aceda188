// The kinds of keys that have a tree of their own.
ghost use Rattle.std.specs.Prelude.{◌≡◌, Some, IfOk, IfSome, IfNone, refl};
ghost use Rattle.far_types.specs.declared.key.Key.{Key};
ghost use Rattle.far_types.specs.declared.key.Key.TheVariants as key_of;
ghost use Rattle.far_groups.specs.KeyTree.{KeepsOrder};

use far_types::{Key, Text};
use std::alloc::AllocError;

/// A kind of keys: numbers or texts. A tree of one kind compares the values themselves, and does not look which kind each one is.
pub trait TreeKey: Ord + Drop {
    /// A value of this kind, as a key.
    ghost as_key: { Self → Key };

    /// Returns the value of a key of this kind, or `None` for any other key, and where there is no key.
    fn of(key: &Option<Key>) -> Option<&Self>
        ensures some { IfSome result (λ value. key.now ≡ Some (as_key value.now)) }
        ensures none { IfNone result ((value : Self) → key.now ≡ Some (as_key value) → ⊥) };

    /// Makes the key of this value. Allocates only for a text.
    fn to_key(&self) -> Result<Key, AllocError>
        ensures { IfOk result (λ key. key ≡ as_key self.now) };

    /// Returns an equal value. Allocates only for a text.
    fn again(&self) -> Result<Self, AllocError>
        ensures { IfOk result (λ again. again ≡ self.now) };

    /// Keys have the order of their values.
    ghost keeps_order: { KeepsOrder as_key Self.cmp };
}

impl TreeKey for i64 {
    ghost as_key = { key_of.Int };

    ghost keeps_order = { record { compares = λ one other. refl } };

    #[inline(always)]
    fn of(key: &Option<Key>) -> Option<&i64> {
        match key {
            Some(Key::Int(number)) => Some(number),
            _ => None,
        }
    }

    #[inline(always)]
    fn to_key(&self) -> Result<Key, AllocError> {
        Ok(Key::Int(*self))
    }

    #[inline(always)]
    fn again(&self) -> Result<i64, AllocError> {
        Ok(*self)
    }
}

impl TreeKey for Text {
    ghost as_key = { key_of.Text };

    ghost keeps_order = { record { compares = λ one other. refl } };

    #[inline(always)]
    fn of(key: &Option<Key>) -> Option<&Text> {
        match key {
            Some(Key::Text(text)) => Some(text),
            _ => None,
        }
    }

    fn to_key(&self) -> Result<Key, AllocError> {
        Ok(Key::Text(self.clone()?))
    }

    fn again(&self) -> Result<Text, AllocError> {
        self.clone()
    }
}
