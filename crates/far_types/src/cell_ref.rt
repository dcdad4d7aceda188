// Cells borrowed in place.
ghost use Rattle.std.specs.Prelude.{◌≡◌, ◌↔◌, IsTrue, Some, IfOk, IfSome, IsSome, OnErr, FitsSigned};
ghost use Rattle.std.specs.Int.{w64};
ghost use Rattle.std.specs.Option.{option_copied};
ghost use Rattle.far_types.specs.declared.key.Key.TheVariants as keys;
ghost use Rattle.far_types.specs.Cells.{number_in, text_in, key_in};
ghost use Rattle.far_types.specs.Lent.{lent_cell, int_cell, text_cell};

use super::cell::Cell;
use super::key::Key;
use super::text::Text;
use std::alloc::{AllocError, Global};

/// A cell that is borrowed in place. `lent_cell` in `specs/Lent.antt` says which cell of the plain table it is.
#[derive(Clone, Copy, Debug)]
pub enum CellRef<'a> {
    /// A number.
    Int(i64),
    /// A text.
    Text(&'a str),
    /// No value.
    Missing,
}

impl Cell {
    /// Borrows the cell in place. Allocates nothing.
    #[inline(always)]
    pub fn lend(&self) -> CellRef<'_>
        ensures { lent_cell result ≡ self.now }
    {
        match self {
            Cell::Int(number) => CellRef::Int(*number),
            Cell::Text(text) => CellRef::Text(text.as_str()),
            Cell::Missing => CellRef::Missing,
        }
    }
}

impl<'a> CellRef<'a> {
    /// Makes the cell of a number that may be missing. Allocates nothing.
    #[inline(always)]
    pub fn of_int(number: Option<i64>) -> CellRef<'a>
        ensures { lent_cell result ≡ int_cell number }
    {
        match number {
            Some(number) => CellRef::Int(number),
            None => CellRef::Missing,
        }
    }

    /// Makes the cell of a text that may be missing, borrowed in place. Allocates nothing.
    #[inline(always)]
    pub fn of_text(text: Option<&'a str>) -> CellRef<'a>
        ensures { lent_cell result ≡ text_cell (option_copied text.entry) }
    {
        match text {
            Some(text) => CellRef::Text(text),
            None => CellRef::Missing,
        }
    }

    /// Returns the cell's number, or `None` if it has none. Allocates nothing.
    #[inline(always)]
    pub fn number(self) -> Option<i64>
        ensures number { result ≡ number_in (Some (lent_cell self.entry)) }
        ensures fits { IfSome result (FitsSigned w64) }
    {
        match self {
            CellRef::Int(number) => Some(number),
            _ => None,
        }
    }

    /// Returns whether the cell's value equals this key. Allocates nothing.
    #[inline(always)]
    pub fn is_key(self, key: &Key) -> bool
        ensures { IsTrue result ↔ (key_in (Some (lent_cell self.entry)) ≡ Some key.now) }
    {
        match (self, key) {
            (CellRef::Int(number), Key::Int(key)) => number == *key,
            (CellRef::Text(text), Key::Text(key)) => text == key.as_str(),
            _ => false,
        }
    }

    /// Returns the cell's value as a key, or `None` if it has no value.
    ///
    /// Copies a text into the memory of `earlier` if `earlier` is a text key, and otherwise into new memory. Allocates only
    /// for a text.
    ///
    /// The branch for a number is inlined into the caller's loop, so only a text costs a call.
    #[inline(always)]
    pub fn key(self, alloc: Global, earlier: Option<Key>) -> Result<Option<Key>, AllocError>
        ensures key { IfOk result (λ key. key ≡ key_in (Some (lent_cell self.entry))) }
        ensures text { OnErr result (IsSome (text_in (lent_cell self.entry))) }
    {
        match self {
            CellRef::Int(number) => Ok(Some(Key::Int(number))),
            CellRef::Text(text) => Ok(Some(text_key(alloc, earlier, text)?)),
            CellRef::Missing => Ok(None),
        }
    }
}

/// Returns the key of a text. Reuses the memory of an earlier text key.
#[inline(never)]
fn text_key(alloc: Global, earlier: Option<Key>, text: &str) -> Result<Key, AllocError>
    ensures key { IfOk result (λ key. key ≡ keys.Text text.now) }
{
    match earlier {
        Some(Key::Text(earlier)) => {
            let mut string = earlier.into_string();
            string.clear();
            string.push_str(text)?;
            Ok(Key::Text(Text::new(string)))
        }
        _ => Ok(Key::Text(Text::new(String::from_str(alloc, text)?))),
    }
}
