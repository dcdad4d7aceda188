// The segments that a search for space skips.
ghost use Rattle.std.specs.Prelude.{◌≡◌, ◌≤◌, ◌⊎◌, nat_le, true};
ghost use Rattle.std.specs.List.{list_all};
ghost use Rattle.far_log.specs.Skipping.{IsSpaced};

// How many segments a search may revisit, so that searches for shorter lists still skip the earlier ones.
const NEAR: usize = 64;

/// The segments that a search for space skips: no segment below `next`, except `first`, has the space for `len` elements. So a search for
/// a list of at least `len` elements tries `first`, and then the segments from `next` on.
///
/// One segment number is not enough:
/// - A full segment mostly has the space for some short list, so `len` says for which lists it counts as full.
/// - A replaced list frees space in its segment, which may be far before the others that have space. That segment is `first`. When it is
///   full again, the search continues at `next`.
#[derive(Clone, Copy)]
pub struct Skip {
    /// The number of the segment that is tried first.
    pub first: usize,
    /// The number of the segment that is tried next.
    pub next: usize,
    /// The length of the shortest list for which a search skips the others.
    pub len: usize,
}

impl Skip {
    /// Returns a skip that skips nothing.
    pub fn none() -> Skip
        ensures { result ≡ record { first = 0; next = 0; len = 0 } }
    {
        Skip {
            first: 0,
            next: 0,
            len: 0,
        }
    }

    /// Returns which segments a search for a list of `len` elements skips.
    pub fn for_list(self, len: usize) -> Skip
        ensures long { result.len ≤ len }
        ensures known { (result ≡ self) ⊎ (result ≡ record { first = 0; next = 0; len = 0 }) }
    {
        if self.len <= len { self } else { Skip::none() }
    }

    /// Returns which segments a search for several lists skips.
    pub fn for_lists(self, lens: &[usize]) -> Skip
        ensures { (result ≡ record { first = 0; next = 0; len = 0 })
            ⊎ ((result ≡ self) × (list_all (λ n. nat_le self.len n) lens.now ≡ true)) }
    {
        if none_shorter(lens, self.len) {
            self
        } else {
            Skip::none()
        }
    }

    /// Returns which segments are skipped after a search for a list of `len` elements ended with `found`.
    ///
    /// After a search through many segments the result is `found`, so that the next search skips them. After a short search it is `found`
    /// only if each field of `found` is at least as good, or if nothing was skipped yet.
    pub fn after_search(self, found: Skip, len: usize) -> Skip
        ensures { (result ≡ self) ⊎ (result ≡ found) }
    {
        // Usually the first segment that was tried has the space. Then `found` equals `self`.
        if found.first == self.first && self.len <= len {
            return self;
        }
        let passed = found.first.saturating_sub(self.for_list(len).next);
        let is_far = passed > NEAR;
        let is_no_worse = found.len <= self.len
            && self.first <= found.first
            && self.next <= found.next;
        let is_first = self.next == 0;
        if is_far || is_no_worse || is_first {
            found
        } else {
            self
        }
    }

    /// Returns which segments are skipped after the space of a segment changed to `space`, which may be more or less than before.
    pub fn with_space(self, number: usize, space: usize) -> Skip
        requires { self.first ≤ self.next }
        ensures { IsSpaced self result number space }
    {
        // Usually this is the segment that is tried first, and it still has the space.
        if number == self.first && space >= self.len {
            return self;
        }
        let (first, next) = if space < self.len {
            let is_first = number == self.first;
            (if is_first { self.next } else { self.first }, self.next)
        } else if number < self.first {
            (number, self.first)
        } else if self.first < number && number < self.next {
            (self.first, number)
        } else {
            (self.first, self.next)
        };
        Skip {
            first,
            next,
            len: self.len,
        }
    }
}

// Returns whether every length is at least this one.
fn none_shorter(lens: &[usize], len: usize) -> bool
    ensures { result ≡ list_all (λ n. nat_le len n) lens.now }
{
    lens.iter().all(|n| len <= *n)
}
