// The eviction victim.
ghost use Rattle.std.specs.Prelude.{◌≡◌, ◌≢◌, ◌↔◌, ℕ, true, None, IfSome, reverse};
ghost use Rattle.std.specs.List.{find};
ghost use Rattle.far_scopes.specs.Coldest.{coldest, is_unpinned};
ghost use Rattle.far_scopes.specs.Movement.{is_local, pins_of};

use super::Objects;
use far_codec::Elem;
use far_store::FarTickets;

impl<T: Elem, S: FarTickets> Objects<T, S> {
    /// Returns the eviction victim: the least recently used object that is neither pinned nor hot. If there is none, the victim is the
    /// least recently used object without pins. Returns `None` exactly if every local object has a pin.
    ///
    /// Allocates nothing. Walks the order of use, the least recently used object first. If every local object is hot, it stops at the
    /// first object without pins. Otherwise it stops at the first object that is neither pinned nor hot, or else walks the whole order.
    pub fn coldest(&self) -> Option<u32>
        ensures coldest { result ≡ coldest self.now }
        ensures local { IfSome result (λ o. is_local self.now o ≡ true) }
        ensures unpinned { IfSome result (λ o. pins_of self.now o ≡ 0) }
        ensures none { (result ≡ None)
            ↔ ((o : ℕ) → is_local self.now o ≡ true → pins_of self.now o ≢ 0) }
    {
        if self.memory.cool() == 0 {
            return self.last_unpinned();
        }
        self.first_cold()
    }

    // Returns the least recently used object without pins.
    fn last_unpinned(&self) -> Option<u32>
        ensures { result ≡ find (is_unpinned self.now) (reverse self.now.order) }
    {
        let mut rest = self.order.least_recent();
        while let Some(last) = rest.next() {
            if self.pins(last) == 0 {
                return Some(last);
            }
        }
        None
    }

    // Returns the least recently used object that is neither pinned nor hot, or else the least recently used object without pins.
    fn first_cold(&self) -> Option<u32>
        ensures { result ≡ coldest self.now }
    {
        let mut hot = None;
        let mut rest = self.order.least_recent();
        while let Some(o) = rest.next() {
            if self.pins(o) == 0 {
                if !self.word(o).hot() {
                    return Some(o);
                }
                hot = hot.or(Some(o));
            }
        }
        hot
    }
}
