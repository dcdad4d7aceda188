// The keys of an aggregate's lines, and their order.
ghost use Rattle.std.specs.Prelude.{◌≡◌, IfOk};

use super::text::Text;
use std::alloc::{AllocError, Global};
use std::cmp::Ordering;

/// A key of an aggregate: the value of a row's cell in the key column.
///
/// Numbers are ordered by value, texts by bytes. Numbers sort before texts, but no answer has both, since a column has one kind.
///
/// ```
/// fn are_in_order(alloc: Global) -> Result<bool, Refusal> {
///     let bread = Key::of_text(alloc, "bread")?;
///     let rye = Key::of_text(alloc, "rye")?;
///     Ok(bread < rye && Key::from(2i64) < Key::from(10i64))
/// }
/// ```
#[derive(Drop, Debug)]
pub enum Key {
    Int(i64),
    Text(Text),
}

impl Key {
    /// Copies these characters into a key.
    pub fn of_text(alloc: Global, text: &str) -> Result<Key, AllocError>
        ensures text { IfOk result (λ key. key ≡ Key.Text text.now) }
    {
        Ok(Key::Text(Text::from_str(alloc, text)?))
    }

    /// Returns an equal key.
    pub fn clone(&self) -> Result<Key, AllocError>
        ensures equal { IfOk result (λ key. key ≡ self.now) }
    {
        match self {
            Key::Int(number) => Ok(Key::Int(*number)),
            Key::Text(text) => Ok(Key::Text(text.clone()?)),
        }
    }
}

/// Clones a key, if there is one.
pub fn clone_key(key: &Option<Key>) -> Result<Option<Key>, AllocError>
    ensures equal { IfOk result (λ clone. clone ≡ key.now) }
{
    match key {
        None => Ok(None),
        Some(key) => Ok(Some(key.clone()?)),
    }
}

impl PartialEq for Key {
    ghost use Rattle.std.specs.Ordering.{eq_by_cmp};
    ghost use Rattle.std.specs.Cmp.{eq_by_cmp_equiv, partial_equiv_from_equiv};
    ghost use Rattle.far_types.specs.Keys.{key_cmp};
    ghost use Rattle.far_types.specs.KeyOrder.{key_total};

    ghost eq = { eq_by_cmp key_cmp };

    ghost laws = { partial_equiv_from_equiv (eq_by_cmp_equiv key_total) };

    fn eq(&self, other: &Key) -> bool {
        self.cmp(other) == Ordering::Equal
    }
}

impl Eq for Key {
    ghost use Rattle.std.specs.Cmp.{eq_by_cmp_equiv};
    ghost use Rattle.far_types.specs.KeyOrder.{key_total};

    ghost laws = { eq_by_cmp_equiv key_total };
}

impl PartialOrd for Key {
    ghost use Rattle.std.specs.Ordering.{as_partial_cmp};
    ghost use Rattle.std.specs.Cmp.{partial_order_from_total};
    ghost use Rattle.far_types.specs.Keys.{key_cmp};
    ghost use Rattle.far_types.specs.KeyOrder.{key_total};

    ghost partial_cmp = { as_partial_cmp key_cmp };

    ghost laws = { partial_order_from_total key_total };

    fn partial_cmp(&self, other: &Key) -> Option<Ordering> {
        Some(self.cmp(other))
    }
}

impl Ord for Key {
    ghost use Rattle.std.specs.Prelude.{refl};
    ghost use Rattle.far_types.specs.Keys.{key_cmp};
    ghost use Rattle.far_types.specs.KeyOrder.{key_total};

    ghost cmp = { key_cmp };

    ghost total = { key_total };

    ghost matches_partial_cmp = { λ x y. refl };

    ghost matches_eq = { λ x y. refl };

    #[inline(always)]
    fn cmp(&self, other: &Key) -> Ordering {
        match (self, other) {
            (Key::Int(a), Key::Int(b)) => a.cmp(b),
            (Key::Int(_), Key::Text(_)) => Ordering::Less,
            (Key::Text(_), Key::Int(_)) => Ordering::Greater,
            (Key::Text(s), Key::Text(t)) => s.cmp(t),
        }
    }
}

impl From<i64> for Key {
    ghost use Rattle.std.specs.Prelude.{◌≡◌};
    ghost use Rattle.far_types.specs.declared.key.Key.TheVariants.{Int};

    ghost from_gives = { λ number key. key ≡ Int number };

    fn from(number: i64) -> Key {
        Key::Int(number)
    }
}

impl From<Text> for Key {
    ghost use Rattle.std.specs.Prelude.{◌≡◌};
    ghost use Rattle.far_types.specs.declared.key.Key.TheVariants.{Text};

    ghost from_gives = { λ text key. key ≡ Text text };

    fn from(text: Text) -> Key {
        Key::Text(text)
    }
}
