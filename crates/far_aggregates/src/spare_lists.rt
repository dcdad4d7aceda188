// Keeps the lists of edits from one edit to the next.
ghost use Rattle.std.specs.Prelude.{◌≡◌, []};

use super::deltas::Delta;
use super::pending::Pending;
use super::spare_keys::SpareKeys;
use far_groups::Pair;
use std::alloc::Global;
use std::mem;

/// The lists of edits that have ended. The next edit uses them instead of new lists. No answer depends on them.
#[derive(Drop)]
pub struct SpareLists {
    deltas: Vec<Option<Delta>>,
    pairs: Vec<Option<Pair>>,
}

impl SpareLists {
    /// Makes lists without capacity. Allocates nothing.
    pub fn new(alloc: Global) -> SpareLists
        ensures deltas { result.deltas.items ≡ [] }
        ensures pairs { result.pairs.items ≡ [] }
    {
        SpareLists {
            deltas: Vec::new(alloc),
            pairs: Vec::new(alloc),
        }
    }

    /// Takes the list of deltas. Allocates nothing.
    #[inline(always)]
    pub fn take_deltas(&mut self, alloc: Global) -> Vec<Option<Delta>>
        ensures deltas { self.new.deltas.items ≡ [] }
        ensures pairs { self.new.pairs ≡ self.old.pairs }
    {
        mem::replace(&mut self.deltas, Vec::new(alloc))
    }

    /// Takes the list of pairs. Allocates nothing.
    #[inline(always)]
    pub fn take_pairs(&mut self, alloc: Global) -> Vec<Option<Pair>>
        ensures deltas { self.new.deltas ≡ self.old.deltas }
        ensures pairs { self.new.pairs.items ≡ [] }
    {
        mem::replace(&mut self.pairs, Vec::new(alloc))
    }

    /// Empties the lists of an edit that has ended, and keeps them. Their text keys become spare keys. A list that the edit did
    /// not take is kept already: an insert retracts no pairs, and a removal applies no deltas. Allocates nothing.
    #[inline(always)]
    pub fn keep(&mut self, pending: Pending, keys: &mut SpareKeys)
        ensures deltas { self.old.deltas.items ≡ [] → self.new.deltas.items ≡ [] }
        ensures pairs { self.old.pairs.items ≡ [] → self.new.pairs.items ≡ [] }
    {
        let Pending {
            applied,
            to_retract,
            ..
        } = pending;
        // Each list is emptied where it is kept, so that it is not copied to a temporary.
        if applied.capacity() > 0 {
            self.deltas = applied;
            keys.keep_deltas(&mut self.deltas);
        }
        if to_retract.capacity() > 0 {
            self.pairs = to_retract;
            keys.keep_pairs(&mut self.pairs);
        }
    }
}
