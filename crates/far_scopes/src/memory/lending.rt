// Mutable borrows of lists.
ghost use Rattle.std.specs.Prelude.{◌≡◌, ℕ, ◌-◌, ◌≤◌, ◌++◌, List, length, take, drop, slice_range, Some, IsSome, IfSome, IsSomeAnd};
ghost use Rattle.std.specs.Borrow.{sem};
ghost use Rattle.far_scopes.specs.Memory.{place_of, list_in, ChangesList};
ghost use Rattle.far_scopes.specs.Placing.{after_overwrite};
ghost use Rattle.far_scopes.specs.Lending.{lends_part};

use super::{LocalMemory, at_of};
use far_codec::Elem;

impl<T: Elem> LocalMemory<T> {
    /// Mutably borrows the list of object `o`, which is local and has `len` elements.
    pub fn lend_mut(&mut self, o: usize, len: usize) -> &mut [T]
        requires local { IsSome (place_of self.old.words o) }
        requires long { IfSome (list_in self.old o) (λ list. length list ≡ len) }
        ensures* writes_back { sem 𝓛 (lends_part T.row self.entry o 0 result) }
        ensures lent { list_in self.old o ≡ Some result.now }
        ensures alone { (list : List T) → length list ≡ length result.now
            → ChangesList (list_in self.old) (list_in (after_overwrite self.old o 0 list)) o
            (Some list) }
    {
        let at = at_of(self.words[o]);
        let region = &mut self.region;
        region.part_long_mut(at, len)
    }

    /// Mutably borrows the elements `from..to` of object `o`, which is local.
    pub fn lend_range_mut(&mut self, o: usize, from: usize, to: usize) -> &mut [T]
        requires ordered { from ≤ to }
        requires within { IsSomeAnd (list_in self.old o) (λ list. to ≤ length list) }
        ensures* writes_back { sem 𝓛 (lends_part T.row self.entry o from result) }
        ensures lent { IsSomeAnd (list_in self.old o)
            (λ list. result.now ≡ slice_range list from to) }
        ensures alone { IsSomeAnd (list_in self.old o) (λ list. (range : List T)
            → length range ≡ to - from
            → ChangesList (list_in self.old) (list_in (after_overwrite self.old o from range)) o
            (Some (take from list ++ (range ++ drop to list)))) }
    {
        let at = at_of(self.words[o]);
        let region = &mut self.region;
        region.range_mut(at, from, to)
    }
}
