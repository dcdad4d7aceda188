// A block of memory for elements.
ghost use Rattle.std.specs.Prelude.{◌≡◌, ◌+◌, ◌-◌, ◌<◌, ◌≤◌, ◌++◌, length, take, drop, replicate, slice_range, vec_len, vec_capacity};
ghost use Rattle.std.specs.Borrow.{sem};
ghost use Rattle.far_log.specs.Stacking.{IsPut};

/// A block of memory that is reserved once. Its list has the elements up to the highest index that was written so far.
#[derive(Drop)]
pub struct Block<T> {
    pub items: Vec<T>,
}

impl<T: Copy + Drop> Block<T> {
    /// Writes a list at index `at`. Fills a gap before it with the list's first element. Allocates nothing.
    #[inline(always)]
    pub fn write_at(&mut self, at: usize, list: &[T])
        requires some { 0 < length list.now }
        requires enough { at + length list.now ≤ vec_capacity self.old.items }
        ensures put { IsPut self.old.items.items self.new.items.items at list.now }
        ensures capacity { vec_capacity self.old.items ≤ vec_capacity self.new.items }
    {
        let block = &mut self.items;
        let end = at + list.len();
        if end <= block.len() {
            block.slice_mut(at..end).copy_from_slice(list);
            return;
        }
        let Ok(()) = block.resize(at, list[0]) else {
            unreachable!();
        };
        let Ok(()) = block.extend_from_slice(list) else {
            unreachable!();
        };
    }

    // Extends the list to `len` elements with copies of `filler`, if it is shorter.
    fn lengthen(&mut self, len: usize, filler: T)
        requires { len ≤ vec_capacity self.old.items }
        ensures grown { self.new.items.items
            ≡ self.old.items.items ++ replicate (len - vec_len self.old.items) filler }
        ensures capacity { vec_capacity self.old.items ≤ vec_capacity self.new.items }
    {
        if len <= self.items.len() {
            return;
        }
        let Ok(()) = self.items.resize(len, filler) else {
            unreachable!();
        };
    }

    /// Copies `len` elements of the block to another index. Allocates nothing.
    pub fn copy_to(&mut self, from: usize, len: usize, to: usize)
        requires some { 0 < len }
        requires within { from + len ≤ length self.old.items.items }
        requires enough { to + len ≤ vec_capacity self.old.items }
        ensures put { IsPut self.old.items.items self.new.items.items to
            (take len (drop from self.old.items.items)) }
        ensures capacity { vec_capacity self.old.items ≤ vec_capacity self.new.items }
    {
        let filler = self.items[from];
        self.lengthen(to + len, filler);
        self.items.copy_within(from..from + len, to);
    }

    /// Borrows a range of the block in place.
    pub fn slice(&self, begin: usize, end: usize) -> &[T]
        requires ordered { begin ≤ end }
        requires within { end ≤ length self.now.items.items }
        ensures { result.now ≡ slice_range self.now.items.items begin end }
    {
        &self.items[begin..end]
    }
}

impl<T> Block<T> {
    ghost use Rattle.far_log.specs.Lending.{lends_block, lends_bounded};

    // Mutably borrows a range of the block.
    fn slice_mut(&mut self, begin: usize, end: usize) -> &mut [T]
        requires ordered { begin ≤ end }
        requires within { end ≤ vec_len self.old.items }
        ensures* writes_back { sem 𝓛 (lends_block T.row self.entry begin result) }
        ensures value { result.now ≡ slice_range self.old.items.items begin end }
    {
        self.items.slice_mut(begin..end)
    }

    /// Mutably borrows a range of the block. By the contract, a write through the borrow changes at most `most` elements.
    ///
    /// A slice keeps its length, so this does the same as `slice_mut`. But the contract of a borrow also covers lists that are longer than
    /// the slice. By the contract of `slice_mut`, those would overwrite the elements after the first `most`.
    pub fn lend(&mut self, begin: usize, end: usize, most: usize) -> &mut [T]
        requires ordered { begin ≤ end }
        requires within { end ≤ vec_len self.old.items }
        requires enough { end - begin ≤ most }
        ensures* writes_back { sem 𝓛 (lends_bounded T.row self.entry begin most result) }
        ensures value { result.now ≡ slice_range self.old.items.items begin end }
    {
        self.slice_mut(begin, end)
    }
}
