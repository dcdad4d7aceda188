// Keeps the memory of text keys from one edit to the next.
ghost use Rattle.std.specs.Prelude.{◌≡◌, ◌↔◌, ◌<◌, ◌≤◌, ◌++◌, [], Some, IsTrue, IfOk, vec_len, vec_capacity};
ghost use Rattle.far_types.specs.declared.key.Key.TheVariants as keys;
ghost use Rattle.far_aggregates.specs.SpareKeys.{text_key};

use super::deltas::Delta;
use far_groups::Pair;
use far_types::{CellRef, Key};
use std::alloc::{AllocError, Global};

/// The most keys that an edit has: for each of 32 aggregates, the key of a delta and the key of a retracted pair.
const MOST: usize = 64;

/// Text keys of edits that have ended. The next edit writes its texts into their strings, so a key mostly allocates only if it
/// is new to an aggregate. No answer depends on which keys are kept.
#[derive(Drop)]
pub struct SpareKeys {
    alloc: Global,
    keys: Vec<Key>,
}

impl SpareKeys {
    /// Makes an empty list. Allocates nothing.
    pub fn new(alloc: Global) -> SpareKeys
        ensures { result.keys.items ≡ [] }
    {
        SpareKeys {
            alloc,
            keys: Vec::new(alloc),
        }
    }

    /// Makes a key of a text, in the string of a spare key if there is one.
    pub fn key_of(&mut self, text: &str) -> Result<Option<Key>, AllocError>
        ensures key { IfOk result (λ key. key ≡ Some (keys.Text text.now)) }
    {
        let earlier = self.keys.pop();
        if earlier.is_none() {
            self.keys.reserve(MOST)?;
        }
        CellRef::Text(text).key(self.alloc, earlier)
    }

    // Returns whether the list has capacity for a key. It has none before the first text key, and then no pair is inspected.
    fn has_capacity(&self) -> bool
        ensures { IsTrue result ↔ (vec_len self.now.keys < vec_capacity self.now.keys) }
    {
        self.keys.len() < self.keys.capacity()
    }

    /// Keeps the key of a pair that is no longer needed, if it is a text and the list has capacity for it. Allocates nothing.
    pub fn keep(&mut self, pair: Pair)
        ensures kept { vec_len self.old.keys < vec_capacity self.old.keys
            → self.new.keys.items ≡ self.old.keys.items ++ text_key pair.0 }
        ensures full { vec_capacity self.old.keys ≤ vec_len self.old.keys
            → self.new.keys.items ≡ self.old.keys.items }
        ensures capacity { vec_capacity self.new.keys ≡ vec_capacity self.old.keys }
    {
        if self.keys.len() == self.keys.capacity() {
            return;
        }
        if let (Some(Key::Text(text)), _) = pair {
            self.keys.push_reserved(Key::Text(text));
        }
    }

    /// Empties the list of the deltas of an edit that has ended, and keeps their text keys. Allocates nothing.
    pub fn keep_deltas(&mut self, applied: &mut Vec<Option<Delta>>)
        ensures { applied.new.items ≡ [] }
    {
        if !self.has_capacity() {
            applied.clear();
            return;
        }
        while let Some(delta) = applied.pop() {
            if let Some(Delta { pair, .. }) = delta {
                self.keep(pair);
            }
        }
    }

    /// Empties the list of the retracted pairs of an edit that has ended, and keeps their text keys. Allocates nothing.
    pub fn keep_pairs(&mut self, to_retract: &mut Vec<Option<Pair>>)
        ensures { to_retract.new.items ≡ [] }
    {
        if !self.has_capacity() {
            to_retract.clear();
            return;
        }
        while let Some(pair) = to_retract.pop() {
            if let Some(pair) = pair {
                self.keep(pair);
            }
        }
    }
}
