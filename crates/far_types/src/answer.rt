// The answers of aggregates.
ghost use Rattle.std.specs.Prelude.{◌≡◌, IfOk, OnErr, [], None};
ghost use Rattle.std.specs.Slice.Iter.{iter_rest};

use super::key::Key;
use std::alloc::AllocError;
use std::marker::Model;
use std::slice;

/// The lines of totals, each with a key, a count and a sum, in ascending order of keys. Contracts see the list of lines.
///
/// The number of lines whose sum, or whose least value, is above 0:
///
/// ```
/// fn lines_above_zero(answer: &Answer) -> usize {
///     match answer {
///         Answer::Totals(lines) => lines.iter().filter(|line| line.2 > 0).count(),
///         Answer::Extrema(lines) => lines.iter().filter(|line| line.1 > 0).count(),
///     }
/// }
/// ```
///
/// Two lines, one of them above 0:
///
/// ```
/// fn are_totals_right(alloc: Global) -> Result<bool, Refusal> {
///     let one = (Some(Key::from(1i64)), 1, 5);
///     let other = (Some(Key::from(2i64)), 1, -5);
///     let lines = TotalLines::new(Vec::from_array(alloc, [one, other])?);
///     Ok(lines_above_zero(&Answer::Totals(lines)) == 1)
/// }
/// ```
#[derive(Drop, Debug)]
pub struct TotalLines {
    lines: Vec<(Option<Key>, u64, i128)>,
}

impl Model for TotalLines {
    ghost use Rattle.std.specs.Prelude.{List, Option, ℕ, ℤ};
    ghost use Rattle.far_types.specs.declared.key.Key.{Key};

    ghost Value = { List (Option Key × ℕ × ℤ) };

    ghost view = { λ answer. answer.lines.items };
}

impl TotalLines {
    ghost use Rattle.far_types.specs.Answers.{or_zero};

    /// Makes an answer's lines of this list. Allocates nothing.
    pub fn new(lines: Vec<(Option<Key>, u64, i128)>) -> TotalLines
        ensures { result ≡ lines.items }
    {
        TotalLines { lines }
    }

    /// Borrows the lines in place.
    pub fn as_slice(&self) -> &[(Option<Key>, u64, i128)]
        ensures { result.now ≡ self.now }
    {
        self.lines.as_slice()
    }

    /// Borrows the lines in the order of their keys, in place. Allocates nothing.
    pub fn iter(&self) -> slice::Iter<'_, (Option<Key>, u64, i128)>
        ensures { iter_rest result ≡ self.now }
    {
        self.lines.iter()
    }

    /// Returns the list of the lines. Allocates nothing.
    pub fn into_lines(self) -> Vec<(Option<Key>, u64, i128)>
        ensures { result.items ≡ self }
    {
        self.lines
    }

    /// Adds the line of count 0 and sum 0 if there are no lines and the aggregate has no key column. Otherwise returns the lines unchanged.
    ///
    /// Allocates only that line.
    pub fn or_zero(self, key: Option<u32>) -> Result<TotalLines, AllocError>
        ensures lines { IfOk result (λ lines. lines ≡ or_zero key self) }
        ensures growth { OnErr result ((key ≡ None) × (self ≡ [])) }
    {
        let mut lines = self.lines;
        if key.is_none() && lines.is_empty() {
            lines.push((None, 0, 0))?;
        }
        Ok(TotalLines { lines })
    }
}

impl<'a> IntoIterator for &'a TotalLines {
    ghost use Rattle.std.specs.Prelude.{◌≡◌};
    ghost use Rattle.std.specs.Slice.Iter.{iter_rest};

    type Item = &'a (Option<Key>, u64, i128);

    type IntoIter = slice::Iter<'a, (Option<Key>, u64, i128)>;

    ghost into_iter_gives = { λ lines it. iter_rest it ≡ lines.now };

    fn into_iter(self) -> Self::IntoIter {
        TotalLines::iter(self)
    }
}

/// The lines of extrema, each with a key, a least and a greatest value, in ascending order of keys. Contracts see the list of lines.
#[derive(Drop, Debug)]
pub struct ExtremaLines {
    lines: Vec<(Option<Key>, i64, i64)>,
}

impl Model for ExtremaLines {
    ghost use Rattle.std.specs.Prelude.{List, Option, ℤ};
    ghost use Rattle.far_types.specs.declared.key.Key.{Key};

    ghost Value = { List (Option Key × ℤ × ℤ) };

    ghost view = { λ answer. answer.lines.items };
}

impl ExtremaLines {
    /// Makes an answer's lines of this list. Allocates nothing.
    pub fn new(lines: Vec<(Option<Key>, i64, i64)>) -> ExtremaLines
        ensures { result ≡ lines.items }
    {
        ExtremaLines { lines }
    }

    /// Borrows the lines in place.
    pub fn as_slice(&self) -> &[(Option<Key>, i64, i64)]
        ensures { result.now ≡ self.now }
    {
        self.lines.as_slice()
    }

    /// Borrows the lines in the order of their keys, in place. Allocates nothing.
    pub fn iter(&self) -> slice::Iter<'_, (Option<Key>, i64, i64)>
        ensures { iter_rest result ≡ self.now }
    {
        self.lines.iter()
    }

    /// Returns the list of the lines. Allocates nothing.
    pub fn into_lines(self) -> Vec<(Option<Key>, i64, i64)>
        ensures { result.items ≡ self }
    {
        self.lines
    }
}

impl<'a> IntoIterator for &'a ExtremaLines {
    ghost use Rattle.std.specs.Prelude.{◌≡◌};
    ghost use Rattle.std.specs.Slice.Iter.{iter_rest};

    type Item = &'a (Option<Key>, i64, i64);

    type IntoIter = slice::Iter<'a, (Option<Key>, i64, i64)>;

    ghost into_iter_gives = { λ lines it. iter_rest it ≡ lines.now };

    fn into_iter(self) -> Self::IntoIter {
        ExtremaLines::iter(self)
    }
}

/// The answer of an aggregate: a line for each key, with the result over the key's values. Keys ascend: numbers by value, texts by
/// bytes.
///
/// Without a key column, totals always have one line, and extrema have none if no row is folded.
#[derive(Drop, Debug)]
pub enum Answer {
    Totals(TotalLines),
    Extrema(ExtremaLines),
}
