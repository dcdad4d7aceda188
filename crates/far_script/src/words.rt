// Takes the words of a line one by one.
ghost use Rattle.std.specs.Prelude.{◌≡◌, option_map, is_none, IfSome, IfNone, ◌∷◌, [], Some};
ghost use Rattle.std.specs.List.{position_or_len};
ghost use Rattle.far_script.specs.Words.{is_space, rest_of, after, word_in, number_in, long_number_in, last_number_in, last_long_number_in, is_next, words_in};

use super::cut::{behind, cut};
use super::number::{first_number, long_number};
use std::marker::Model;

/// The remaining words of a line, separated by exactly one space each. Contracts see the remaining text, or `None` once the
/// last word was taken.
#[derive(Drop)]
pub struct Words<'a> {
    left: Option<&'a str>,
}

impl<'a> Model for Words<'a> {
    ghost use Rattle.std.specs.Prelude.{ℕ, List, Option, option_map};

    ghost Value = { Option (List ℕ) };

    ghost view = { λ words. option_map (λ text. text.now) words.left };
}

/// Returns the text after the first word, which has `len` bytes, and its space; `None` if there is no space.
#[inline(always)]
fn rest_behind(text: &str, len: usize) -> Option<&str>
    requires { len ≡ position_or_len is_space text.now }
    ensures { option_map (λ text. text.now) result ≡ rest_of text.now }
{
    if len < text.len() {
        Some(behind(text, len, b' '))
    } else {
        None
    }
}

impl<'a> Words<'a> {
    /// Returns the words of a text.
    pub fn new(text: &'a str) -> Words<'a>
        ensures { result ≡ Some text.now }
    {
        Words { left: Some(text) }
    }

    /// Returns the remaining text, with all its spaces.
    pub fn rest(self) -> Option<&'a str>
        ensures { option_map (λ text. text.now) result ≡ self.entry }
    {
        self.left
    }

    /// Returns whether the last word was taken.
    pub fn is_empty(&self) -> bool
        ensures { result ≡ is_none self.now }
    {
        self.left.is_none()
    }

    /// Takes the next word; `None` if there is none. A word is empty between two spaces, or if the text begins or ends with
    /// a space.
    pub fn word(&mut self) -> Option<&'a str>
        ensures word { option_map (λ word. word.now) result ≡ word_in self.old }
        ensures left { self.new ≡ after self.old }
        ensures first { IfSome result (λ word. words_in self.old ≡ word.now ∷ words_in self.new) }
        ensures none { IfNone result (words_in self.old ≡ []) }
    {
        let text = self.left?;
        match cut(text, b' ') {
            Some((word, rest)) => {
                self.left = Some(rest);
                Some(word)
            }
            None => {
                self.left = None;
                Some(text)
            }
        }
    }

    /// Returns whether the next word is `name`.
    pub fn next_is(&self, name: &str) -> bool
        ensures { result ≡ is_next self.now name.now }
    {
        match self.left {
            Some(text) => match text.split_once(' ') {
                Some((word, _)) => word == name,
                None => text == name,
            },
            None => false,
        }
    }

    /// Takes the next word and reads it as a number below 2^32.
    pub fn number(&mut self) -> Option<u32>
        ensures number { result ≡ number_in self.old }
        ensures left { self.new ≡ after self.old }
    {
        let number = self.long_number()?;
        u32::try_from(number).ok()
    }

    /// Takes the next word and reads it as a number below 2^64.
    pub fn long_number(&mut self) -> Option<u64>
        ensures number { result ≡ long_number_in self.old }
        ensures left { self.new ≡ after self.old }
    {
        let text = self.left?;
        match first_number(text.as_bytes(), b' ') {
            Some((number, len)) => {
                self.left = rest_behind(text, len);
                Some(number)
            }
            None => long_number(self.word()?),
        }
    }

    /// Reads the last word as a number below 2^32; `None` if more than one word remains.
    pub fn last_number(mut self) -> Option<u32>
        ensures { result ≡ last_number_in self.entry }
    {
        let number = self.number();
        if self.is_empty() { number } else { None }
    }

    /// Reads the last word as a number below 2^64; `None` if more than one word remains.
    pub fn last_long_number(mut self) -> Option<u64>
        ensures { result ≡ last_long_number_in self.entry }
    {
        match self.long_number() {
            Some(number) if self.is_empty() => Some(number),
            _ => None,
        }
    }
}
