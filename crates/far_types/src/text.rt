// A text, which contracts see as the list of its bytes. It also keeps its first bytes as a number, so that most comparisons take one step.
ghost use Rattle.std.specs.Prelude.{◌≡◌, ◌↔◌, IsTrue, [], ◌==◌, IfOk, length};
ghost use Rattle.std.specs.String.{string_bytes};
ghost use Rattle.std.proofs.Common.{rules};
ghost use Rattle.std.specs.Cmp.{partial_order_from_own_ties};
ghost use Rattle.std.specs.Cmp.Rules.{comparing};
ghost use Rattle.std.specs.Ordering.{nat_cmp, as_partial_cmp};
ghost use Rattle.std.specs.Cmp.Lexicographic.{slice_cmp, pointwise};

use super::prefix::prefix_of;
use std::alloc::{AllocError, Global};
use std::cmp::Ordering;
use std::fmt;
use std::marker::Model;

/// A text of a cell, a key or a test: valid UTF-8, compared by bytes. Contracts see the list of its bytes.
#[derive(Drop)]
pub struct Text {
    string: String,
    prefix: u64,
}

impl Model for Text {
    ghost use Rattle.std.specs.Prelude.{◌≡◌, ℕ, List};
    ghost use Rattle.std.specs.String.{string_bytes};
    ghost use Rattle.far_types.specs.Prefixes.{prefix_of, AreBytes};

    ghost Value = { List ℕ };

    ghost view = { λ t. string_bytes t.string };

    ghost invariant = { λ t. (t.prefix ≡ prefix_of (string_bytes t.string))
        × AreBytes (string_bytes t.string) };
}

impl Text {
    /// Makes a text of a string. Allocates nothing.
    #[inline(always)]
    pub fn new(string: String) -> Text
        ensures { result ≡ string_bytes string }
    {
        let prefix = prefix_of(string.as_str().as_bytes());
        Text { string, prefix }
    }

    /// Copies these characters into a text.
    pub fn from_str(alloc: Global, text: &str) -> Result<Text, AllocError>
        ensures equal { IfOk result (λ made. made ≡ text.now) }
    {
        Ok(Text::new(String::from_str(alloc, text)?))
    }

    /// Borrows the text in place.
    pub fn as_str(&self) -> &str
        ensures { result.now ≡ self.now }
    {
        self.string.as_str()
    }

    /// Borrows the bytes of the text in place.
    pub fn as_bytes(&self) -> &[u8]
        ensures { result.now ≡ self.now }
    {
        self.string.as_str().as_bytes()
    }

    /// Returns the string that the text was made of. Allocates nothing.
    pub fn into_string(self) -> String
        ensures { string_bytes result ≡ self }
    {
        self.string
    }

    /// Returns how many bytes the text has.
    pub fn len(&self) -> usize
        ensures { result ≡ length self.now }
    {
        self.string.len()
    }

    /// Returns whether the text has no bytes.
    pub fn is_empty(&self) -> bool
        ensures { IsTrue result ↔ (self.now ≡ []) }
    {
        self.string.is_empty()
    }

    /// Returns an equal text.
    pub fn clone(&self) -> Result<Text, AllocError>
        ensures equal { IfOk result (λ text. text ≡ self.now) }
    {
        Ok(Text {
            string: self.string.clone()?,
            prefix: self.prefix,
        })
    }
}

impl PartialEq for Text {
    ghost eq = { pointwise ◌==◌ };

    ghost laws = { Prim.search (comparing, rules) };

    fn eq(&self, other: &Text) -> bool {
        self.string == other.string
    }
}

impl Eq for Text {
    ghost laws = { Prim.search (comparing, rules) };
}

impl Ord for Text {
    ghost cmp = { slice_cmp nat_cmp };

    ghost total = { Prim.search (comparing, rules) };

    ghost matches_partial_cmp = { Prim.search (comparing, rules) };

    ghost matches_eq = { Prim.search (comparing, rules) };

    #[inline(always)]
    fn cmp(&self, other: &Text) -> Ordering {
        if self.prefix == other.prefix {
            return self.string.cmp(&other.string);
        }
        self.prefix.cmp(&other.prefix)
    }
}

impl PartialOrd for Text {
    ghost partial_cmp = { as_partial_cmp (slice_cmp nat_cmp) };

    ghost laws = { partial_order_from_own_ties (Prim.search (comparing, rules))
        (Prim.search (comparing, rules)) };

    fn partial_cmp(&self, other: &Text) -> Option<Ordering> {
        Some(self.cmp(other))
    }
}

/// Prints the string without the prefix.
impl fmt::Debug for Text {
    fn fmt<W: fmt::Write>(&self, f: &mut fmt::Formatter<W>) -> fmt::Result {
        f.debug_struct("Text")
            .field("string", &self.string)
            .finish()
    }
}
