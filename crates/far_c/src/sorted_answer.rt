// The answer in a handle.
ghost use Rattle.std.specs.Prelude.{◌≡◌};
ghost use Rattle.std.specs.Option.{MatchOption};
ghost use Rattle.far_types.specs.Keys.{line_cmp};
ghost use Rattle.far_types.specs.Lent.{lent_cell};
ghost use Rattle.far_c.specs.Answering.{lines_in};
ghost use Rattle.far_c.specs.Keys.{Ascend, IsKeyAt, IsNoKeyOf, key_of, keys_in, keys_of};

use far_types::{Answer, CellRef, Key};
use std::cmp::Ordering;
use std::marker::Model;

/// An answer whose lines ascend by key, so that the line of a key is found without reading all.
#[derive(Drop)]
pub struct SortedAnswer {
    answer: Answer,
}

impl Model for SortedAnswer {
    ghost use Rattle.far_types.specs.declared.answer.Answer.{Answer};
    ghost use Rattle.far_c.specs.Keys.{Ascend, keys_of};

    ghost Value = { Answer };

    ghost view = { λ sorted. sorted.answer };

    ghost invariant = { λ sorted. Ascend (keys_of sorted.answer) };
}

impl SortedAnswer {
    /// Takes an answer whose lines ascend by key.
    pub fn new(answer: Answer) -> SortedAnswer
        requires { Ascend (keys_of answer) }
        ensures { result ≡ answer }
    {
        SortedAnswer { answer }
    }

    /// Borrows the answer.
    pub fn get(&self) -> &Answer
        ensures { result.now ≡ self.now }
    {
        &self.answer
    }

    /// Returns the number of lines.
    pub fn len(&self) -> usize
        ensures { result ≡ lines_in self.now }
    {
        match &self.answer {
            Answer::Totals(lines) => lines.as_slice().len(),
            Answer::Extrema(lines) => lines.as_slice().len(),
        }
    }

    /// Returns the index of the line with this key, or `None` if no line has it.
    pub fn index_of(&self, key: CellRef<'_>) -> Option<usize>
        ensures { MatchOption result (IsNoKeyOf (keys_of self.now) (key_of (lent_cell key.entry)))
            (λ index. IsKeyAt (keys_of self.now) index (key_of (lent_cell key.entry))) }
    {
        match &self.answer {
            Answer::Totals(lines) => total_at(lines.as_slice(), key),
            Answer::Extrema(lines) => extrema_at(lines.as_slice(), key),
        }
    }
}

fn total_at(lines: &[(Option<Key>, u64, i128)], key: CellRef<'_>) -> Option<usize>
    requires { Ascend (keys_in lines.now) }
    ensures { MatchOption result (IsNoKeyOf (keys_in lines.now) (key_of (lent_cell key.entry)))
        (λ index. IsKeyAt (keys_in lines.now) index (key_of (lent_cell key.entry))) }
{
    lines.binary_search_by(|line| compared(&line.0, key)).ok()
}

fn extrema_at(lines: &[(Option<Key>, i64, i64)], key: CellRef<'_>) -> Option<usize>
    requires { Ascend (keys_in lines.now) }
    ensures { MatchOption result (IsNoKeyOf (keys_in lines.now) (key_of (lent_cell key.entry)))
        (λ index. IsKeyAt (keys_in lines.now) index (key_of (lent_cell key.entry))) }
{
    lines.binary_search_by(|line| compared(&line.0, key)).ok()
}

// Compares the key of a line with the key that a cell names.
fn compared(key: &Option<Key>, named: CellRef<'_>) -> Ordering
    ensures { result ≡ line_cmp key.now (key_of (lent_cell named.entry)) }
{
    match (key, named) {
        (None, CellRef::Missing) => Ordering::Equal,
        (None, _) => Ordering::Less,
        (Some(_), CellRef::Missing) => Ordering::Greater,
        (Some(Key::Int(number)), CellRef::Int(named)) => number.cmp(&named),
        (Some(Key::Int(_)), CellRef::Text(_)) => Ordering::Less,
        (Some(Key::Text(_)), CellRef::Int(_)) => Ordering::Greater,
        (Some(Key::Text(text)), CellRef::Text(named)) => text.as_str().cmp(named),
    }
}
