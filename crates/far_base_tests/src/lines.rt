// Keys, rows and lines in tables of tests.
use far_types::{Answer, Key, Refusal, Text};
use std::alloc::Global;

/// A key, or none.
#[derive(Clone, Copy)]
pub enum Name {
    Nobody,
    Number(i64),
    Word(&'static str),
}

/// The name of a row's key, and the row's value.
pub type Row = (Name, i64);

/// The lines of an answer, each with the name of its key.
#[derive(Clone, Copy)]
pub enum Lines<'a> {
    /// Lines with a count and a sum.
    Totals(&'a [(Name, u64, i128)]),
    /// Lines with a least and a greatest value.
    Extrema(&'a [(Name, i64, i64)]),
}

pub fn text(alloc: Global, word: &str) -> Result<Text, Refusal> {
    Ok(Text::new(String::from_str(alloc, word)?))
}

pub fn key_of(alloc: Global, name: Name) -> Result<Option<Key>, Refusal> {
    match name {
        Name::Nobody => Ok(None),
        Name::Number(number) => Ok(Some(Key::Int(number))),
        Name::Word(word) => Ok(Some(Key::Text(text(alloc, word)?))),
    }
}

fn is_named(key: &Option<Key>, name: Name) -> bool {
    match key {
        None => matches!(name, Name::Nobody),
        Some(Key::Int(key)) => matches!(name, Name::Number(number) if number == *key),
        Some(Key::Text(key)) => matches!(name, Name::Word(word) if word == key.as_str()),
    }
}

fn are_lines<A: Copy + PartialEq, B: Copy + PartialEq>(
    lines: &[(Option<Key>, A, B)],
    table: &[(Name, A, B)],
) -> bool {
    if lines.len() != table.len() {
        return false;
    }
    for i in 0..lines.len() {
        let (key, a, b) = &lines[i];
        if !is_named(key, table[i].0) || *a != table[i].1 || *b != table[i].2 {
            return false;
        }
    }
    true
}

impl Lines<'_> {
    fn are_in(self, answer: &Answer) -> bool {
        match (answer, self) {
            (Answer::Totals(lines), Lines::Totals(table)) => are_lines(lines.as_slice(), table),
            (Answer::Extrema(lines), Lines::Extrema(table)) => are_lines(lines.as_slice(), table),
            _ => false,
        }
    }

    /// Returns whether an answer has these lines.
    pub fn are_of(self, answer: Result<Answer, Refusal>) -> Result<bool, Refusal> {
        match answer {
            Ok(answer) => Ok(self.are_in(&answer)),
            Err(refusal) => Err(refusal),
        }
    }
}
