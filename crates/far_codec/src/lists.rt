// Lists of values.
ghost use Rattle.std.specs.Prelude.{◌≡◌, length};

use far_types::Text;
use std::marker::Model;

/// A list of numbers, each of which may be missing. Contracts see the list.
#[derive(Drop, Debug)]
pub struct IntList {
    numbers: Vec<Option<i64>>,
}

impl Model for IntList {
    ghost use Rattle.std.specs.Prelude.{ℤ, List, Option};

    ghost Value = { List (Option ℤ) };

    ghost view = { λ list. list.numbers.items };
}

impl IntList {
    /// Makes the list of these numbers. Allocates nothing.
    pub fn new(numbers: Vec<Option<i64>>) -> IntList
        ensures { result ≡ numbers.items }
    {
        IntList { numbers }
    }

    /// Borrows the numbers in place.
    pub fn as_slice(&self) -> &[Option<i64>]
        ensures { result.now ≡ self.now }
    {
        self.numbers.as_slice()
    }

    /// Returns the numbers of the list, without a copy. Allocates nothing.
    pub fn into_vec(self) -> Vec<Option<i64>>
        ensures { result.items ≡ self }
    {
        self.numbers
    }
}

/// A list of texts, each of which may be missing. Contracts see each text as the list of its bytes.
#[derive(Drop, Debug)]
pub struct TextList {
    texts: Vec<Option<Text>>,
}

impl Model for TextList {
    ghost use Rattle.std.specs.Prelude.{ℕ, List, Option};

    ghost Value = { List (Option (List ℕ)) };

    ghost view = { λ list. list.texts.items };
}

impl TextList {
    /// Makes the list of these texts. Allocates nothing.
    pub fn new(texts: Vec<Option<Text>>) -> TextList
        ensures { result ≡ texts.items }
    {
        TextList { texts }
    }

    /// Borrows the texts in place.
    pub fn as_slice(&self) -> &[Option<Text>]
        ensures { result.now ≡ self.now }
    {
        self.texts.as_slice()
    }

    /// Returns the texts of the list, without a copy. Allocates nothing.
    pub fn into_vec(self) -> Vec<Option<Text>>
        ensures { result.items ≡ self }
    {
        self.texts
    }
}
