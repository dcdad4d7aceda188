// The pair that a row contributes to an aggregate, borrowed in place.
ghost use Rattle.std.specs.Prelude.{◌≡◌, IfOk, IsSome, OnErr};
ghost use Rattle.far_types.specs.Lent.{key_by, lent_pair};
ghost use Rattle.far_types.specs.Pairs.{text_under};

use super::cell_ref::CellRef;
use super::key::Key;
use std::alloc::{AllocError, Global};

/// The pair that a row contributes to an aggregate, or nothing if the row is not kept or not folded. A text key is borrowed in place.
/// `lent_pair` in `specs/Lent.antt` says which pair of the plain table it is.
#[derive(Clone, Copy, Debug)]
pub enum PairRef<'a> {
    /// No pair.
    Nothing,
    /// A value under a number, or under no key in an aggregate without key column.
    Under { number: Option<i64>, value: i64 },
    /// A value under a text.
    UnderText { text: &'a str, value: i64 },
}

/// Returns the key of a number, or `None` if there is no number. Allocates nothing.
#[inline(always)]
pub fn number_key(number: Option<i64>) -> Option<Key>
    ensures { result ≡ key_by number }
{
    match number {
        Some(number) => Some(Key::Int(number)),
        None => None,
    }
}

impl<'a> PairRef<'a> {
    /// Returns the pair with an owned key, or `None` if there is no pair.
    ///
    /// Copies a text into the memory of `earlier` if `earlier` is a text key, and otherwise into new memory. Allocates only
    /// for a text.
    pub fn pair(
        self,
        alloc: Global,
        earlier: Option<Key>,
    ) -> Result<Option<(Option<Key>, i64)>, AllocError>
        ensures pair { IfOk result (λ pair. pair ≡ lent_pair self.entry) }
        ensures text { OnErr result (IsSome (text_under (lent_pair self.entry))) }
    {
        match self {
            PairRef::Nothing => Ok(None),
            PairRef::Under { number, value } => Ok(Some((number_key(number), value))),
            PairRef::UnderText { text, value } => {
                let key = CellRef::Text(text).key(alloc, earlier)?;
                Ok(Some((key, value)))
            }
        }
    }
}
