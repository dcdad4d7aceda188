// Reads properties of objects and of local memory.
ghost use Rattle.std.specs.Prelude.{◌≡◌, ℕ, ◌<◌, ◌≤◌, ◌↔◌, length, All, Some, IsTrue, true, option_map};
ghost use Rattle.far_log.specs.RegionState.{fits_in, fit_in_order, spaces_of, space_of, capacity_of};
ghost use Rattle.far_scopes.specs.Movement.{record_of, leavings_of, is_local};

use super::Objects;
use far_codec::Elem;
use far_store::FarTickets;
use far_types::Name;

impl<T: Elem, S: FarTickets> Objects<T, S> {
    /// Returns how many objects there are. The objects are numbered from 0 to one less than this. Allocates nothing.
    pub fn count(&self) -> u32
        ensures { result ≡ length self.now.records }
    {
        self.records.len() as u32
    }

    /// Returns whether every object is local. Reads no object, since it compares the count of objects with the length of the order of
    /// use. Allocates nothing.
    pub fn are_all_local(&self) -> bool
        ensures { IsTrue result
            ↔ ((o : ℕ) → o < length self.now.records → is_local self.now o ≡ true) }
    {
        let local = self.order.len();
        let all = self.records.len();
        local == all
    }

    /// Returns how many elements an object's list has, whether the object is local or away. Allocates nothing.
    pub fn len(&self, o: u32) -> usize
        requires { o < length self.now.records }
        ensures { option_map (λ object_record. object_record.len) (record_of self.now o)
            ≡ Some result }
    {
        self.records[o as usize].len as usize
    }

    /// Returns the name of an object: the column and the row group that were passed to `create`. Allocates nothing.
    pub fn name(&self, o: u32) -> Name
        requires { o < length self.now.records }
        ensures { option_map (λ object_record. object_record.name) (record_of self.now o)
            ≡ Some result }
    {
        self.records[o as usize].name
    }

    /// Returns whether some segment has the space for a list of `len` elements. Allocates nothing.
    pub fn fits(&self, len: usize) -> bool
        ensures { result ≡ fits_in self.now.memory.state len }
    {
        self.memory.fits(len)
    }

    /// Returns whether lists of these lengths can be placed one after another, each in the lowest segment that has the space. There are
    /// at most 16 lengths, and none is 0. Allocates nothing.
    pub fn fits_in_order(&self, lens: &[usize]) -> bool
        requires few { length lens.now ≤ 16 }
        requires some { All (λ len. 0 < len) lens.now }
        ensures { result ≡ fit_in_order (spaces_of self.now.memory.state) lens.now }
    {
        self.memory.fits_in_order(lens)
    }

    /// Returns the total space of the segments, in elements. Allocates nothing.
    ///
    /// A list needs all its space in one segment. So a list may not fit although it is no longer than the total space.
    pub fn space(&self) -> usize
        ensures { result ≡ space_of self.now.memory.state }
    {
        self.memory.space()
    }

    /// Returns the total capacity of the segments, in elements. Allocates nothing.
    pub fn capacity(&self) -> usize
        ensures { result ≡ capacity_of self.now.memory.state }
    {
        self.memory.capacity()
    }

    /// Returns whether the limits passed to `new` allow an object to be evicted once more. Allocates nothing.
    pub fn may_leave(&self, o: u32) -> bool
        requires { o < length self.now.records }
        ensures { IsTrue result ↔ (leavings_of self.now o < self.now.leavings) }
    {
        self.records[o as usize].leavings < self.leavings
    }
}
