// Cells in scripts of tests.
ghost use Rattle.std.specs.Prelude.{◌≡◌, ⊤};

use far_types::{Refusal, Text};
use std::alloc::{AllocError, Global};

/// The letters of a text. Each text has a name, since the proof of a test goes through each letter of its data.
pub enum Word {
    Empty,
    A,
    One,
    Three,
    Two,
    Uno,
}

impl Word {
    fn letters(self) -> &'static str {
        match self {
            Word::Empty => "",
            Word::A => "a",
            Word::One => "one",
            Word::Three => "three",
            Word::Two => "two",
            Word::Uno => "uno",
        }
    }
}

/// A cell: missing, a number, or a text, given by its letters and how often they are repeated.
pub enum Cell {
    Missing,
    Number(i64),
    Text(Word, usize),
}

// Written by hand: a derived `clone` goes through the variants, and so does its proof.
impl Clone for Word {
    ghost is_clone = { λ x y. y ≡ x };

    ghost is_infallible = { λ _. ⊤ };

    fn clone(&self) -> Result<Word, AllocError> {
        Ok(*self)
    }
}

impl Copy for Word {}

impl Clone for Cell {
    ghost is_clone = { λ x y. y ≡ x };

    ghost is_infallible = { λ _. ⊤ };

    fn clone(&self) -> Result<Cell, AllocError> {
        Ok(*self)
    }
}

impl Copy for Cell {}

impl Cell {
    /// Returns the number, or `None` if the cell is not a number.
    pub fn number(self) -> Option<i64> {
        match self {
            Cell::Number(number) => Some(number),
            _ => None,
        }
    }

    /// Returns the text, or `None` if the cell is not a text. Refused only with `NoMemory` (1).
    pub fn text(self, alloc: Global) -> Result<Option<Text>, Refusal> {
        let Cell::Text(word, times) = self else {
            return Ok(None);
        };
        let mut string = String::new(alloc);
        for _ in 0..times {
            string.push_str(word.letters())?;
        }
        Ok(Some(Text::new(string)))
    }

    /// Returns whether the cell is this text, or missing if there is none.
    pub fn is_text(self, text: Option<&str>) -> bool {
        match (text, self) {
            (Some(text), Cell::Text(word, times)) => {
                are_repeated(text.as_bytes(), word.letters().as_bytes(), times)
            }
            (None, Cell::Missing) => true,
            _ => false,
        }
    }
}

// Returns whether bytes are these letters, repeated this many times.
fn are_repeated(bytes: &[u8], letters: &[u8], times: usize) -> bool {
    for (index, byte) in bytes.iter().enumerate() {
        if letters.get(index % letters.len().max(1)) != Some(byte) {
            return false;
        }
    }
    bytes.len() == letters.len().saturating_mul(times)
}
