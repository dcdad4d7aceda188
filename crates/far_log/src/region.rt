// The local region.
ghost use Rattle.std.specs.Prelude.{◌≡◌, ◌≢◌, ℕ, ◌+◌, ◌-◌, ◌<◌, ◌≤◌, ◌^◌, ◌↔◌, ◌⊎◌, List, [], ◌++◌, length, take, drop, replicate, true, false, Some, IsSome, IsSomeAnd, IsTrue, IfOk, IfErr, IfSome, OnOk, OnErr, IfNone, IsErrOf, slice_index, slice_range, slice_set, option_map, All};
ghost use Rattle.std.specs.Borrow.{sem};
ghost use Rattle.far_log.specs.RegionState.{part_of, used_of, spaces_of, space_of, capacity_of, fits_in, target_of, fit_in_order, segment_of, IsRegion};
ghost use Rattle.far_log.specs.Skipping.{IsSkip};
ghost use Rattle.far_log.specs.Effects.{ChangesOnly, WritesPart, after_write_at, AddsPart, IsPlaced, IsEmptyOther, HasNoEmptyOther, IsOrder, Compacts, with_segment, without_part};

use super::compaction::Moved;
use super::fitting::{fill, none_waits};
use super::segments::Segments;
use super::skip::Skip;
use far_pointer::At;
use far_types::Refusal;
use std::alloc::Global;
use std::marker::Model;

/// The local memory of all objects of one element type: lists of elements in segments, after the log-structured local memory of AIFM (Ruan
/// et al., OSDI 2020).
///
/// - A part is a list of elements that is not empty. It is in one segment, in one piece.
/// - A segment's fill is where its last part ends, 0 if it has no part. It falls when the last part is dropped.
/// - A location is a segment and the offset in it at which a part begins, counted in elements.
#[derive(Drop)]
pub struct Region<T> {
    segments: Segments<T>,
    skip: Skip,
}

impl<T> Model for Region<T> {
    ghost use Rattle.far_log.specs.RegionState.{RegionState};

    ghost Value = { RegionState T };

    ghost use Rattle.far_log.specs.Skipping.{IsSearched};

    ghost view = { λ r. r.segments };

    ghost invariant = { λ r. IsSearched r.segments r.skip };
}

impl<T: Copy + Drop> Region<T> {
    /// Makes a region of `segments` segments, each for `size` elements, without parts.
    ///
    /// It allocates all memory for elements, as one block, and writes none of it. A later `place` writes its own list, and the gap before
    /// it if nothing was written there yet. Refused only with `NoMemory` (1).
    pub fn new(alloc: Global, segments: u32, size: u32) -> Result<Region<T>, Refusal>
        requires { segments ≤ 65536 }
        ensures empty { IfOk result
            (λ region. region ≡ replicate segments record { parts = []; size = size }) }
        ensures sound { IfOk result IsRegion }
        ensures memory { IfErr result (λ e. e ≡ Refusal.NoMemory) }
    {
        Ok(Region {
            segments: Segments::new(alloc, segments, size)?,
            skip: Skip::none(),
        })
    }

    // Searches for the lowest segment that has the space for a list of `len` elements. That segment is `first` of the result, which also
    // records all segments that the search passed over.
    fn search(&self, len: usize) -> Option<Skip>
        ensures lowest { option_map (λ found. found.first) result ≡ target_of self.now len }
        ensures passed { IfSome result (IsSkip self.now) }
        ensures sound { IsRegion self.now }
    {
        let known = self.skip.for_list(len);
        let mut number = known.first;
        let mut more = known.len;
        while number < self.segments.len() {
            let space = self.segments.space(number);
            if len <= space {
                return Some(Skip {
                    first: number,
                    next: number.max(known.next),
                    len: more,
                });
            }
            more = more.max(space + 1);
            number = known.next.max(number + 1);
        }
        None
    }

    /// Returns whether some segment has the space for a list of `len` elements after its fill. Allocates nothing.
    pub fn fits(&self, len: usize) -> bool
        ensures fits { result ≡ fits_in self.now len }
        ensures sound { IsRegion self.now }
    {
        self.search(len).is_some()
    }

    /// Returns whether at most 16 lists of these lengths, none of them empty, can be placed one after another. Allocates nothing and places
    /// nothing.
    ///
    /// Each list is placed in the lowest segment that has the space. So one pass over the segments is enough: each takes the lists that
    /// fit, and the next takes from the rest. The pass skips the segments that a search for each list would skip.
    pub fn fits_in_order(&self, lens: &[usize]) -> bool
        requires few { length lens.now ≤ 16 }
        requires some { All (λ len. 0 < len) lens.now }
        ensures { result ≡ fit_in_order (spaces_of self.now) lens.now }
    {
        let mut lengths = [0; 16];
        let waiting = &mut lengths[..lens.len()];
        waiting.copy_from_slice(lens);
        let skip = self.skip.for_lists(lens);
        let mut number = skip.first;
        while number < self.segments.len() {
            if none_waits(waiting) {
                return true;
            }
            fill(self.segments.space(number), waiting);
            number = skip.next.max(number + 1);
        }
        none_waits(waiting)
    }

    /// Returns the total length of all parts, in elements. Allocates nothing.
    pub fn used(&self) -> u64
        ensures { result ≡ used_of self.now }
    {
        self.segments.used()
    }

    /// Returns the total space of the segments after their fills, in elements. Allocates nothing.
    ///
    /// A list must fit in one segment. So a list may not fit although it is no longer than this total.
    pub fn space(&self) -> usize
        ensures { result ≡ space_of self.now }
    {
        self.capacity() - self.segments.filled()
    }

    /// Returns the total capacity of the segments, in elements. Allocates nothing.
    pub fn capacity(&self) -> usize
        ensures { result ≡ capacity_of self.now }
    {
        self.segments.len() * self.size() as usize
    }

    /// Returns the capacity of each segment, in elements; 0 if there is no segment. Allocates nothing.
    pub fn size(&self) -> u32
        ensures size { result ≡ (segment_of self.now 0).size }
        ensures sound { IsRegion self.now }
    {
        if self.segments.len() == 0 {
            return 0;
        }
        self.segments.size()
    }

    /// Returns whether a part begins at a location. Allocates nothing.
    pub fn holds(&self, at: At) -> bool
        ensures { IsTrue result ↔ IsSome (part_of self.now at) }
    {
        (at.segment as usize) < self.segments.len() && self.segments.holds(at)
    }

    /// Borrows the part at a location in place. Allocates nothing.
    pub fn part(&self, at: At) -> &[T]
        requires { IsSome (part_of self.now at) }
        ensures { part_of self.now at ≡ Some result.now }
    {
        self.segments.part(at)
    }

    /// Borrows the part at a location, which has `len` elements, in place. Allocates nothing, and reads no segment's table: the length says
    /// where the part ends.
    pub fn part_long(&self, at: At, len: usize) -> &[T]
        requires { IsSomeAnd (part_of self.now at) (λ list. length list ≡ len) }
        ensures { part_of self.now at ≡ Some result.now }
    {
        self.segments.part_long(at, len)
    }

    /// Drops the part at a location, without moving the others. Allocates nothing.
    #[inline(always)]
    pub fn drop_at(&mut self, at: At)
        requires { IsSome (part_of self.old at) }
        ensures state { self.new
            ≡ with_segment self.old at.segment
            (without_part (segment_of self.old at.segment) at.offset) }
        ensures change { ChangesOnly self.old self.new at None }
        ensures sound { IsRegion self.new }
    {
        let number = at.segment as usize;
        self.segments.drop_at(at);
        let space = self.segments.space(number);
        self.skip = self.skip.with_space(number, space);
    }

    /// Places a list as a new part in the lowest segment that has the space, at its fill. Returns the part's location.
    ///
    /// It allocates nothing for elements. A refused call changes nothing. Refused with:
    /// - `RegionFull` (17) exactly if `fits` returns false;
    /// - else only `NoMemory` (1), if the table of parts cannot grow.
    ///
    /// It is inlined, since returning a location through memory costs more than the search for it.
    #[inline(always)]
    pub fn place(&mut self, items: &[T]) -> Result<At, Refusal>
        requires some { 0 < length items.now }
        ensures placed { IfOk result (λ at. IsPlaced self.old self.new at items.now) }
        ensures added { IfOk result (λ at. AddsPart self.old self.new at items.now) }
        ensures space { IfOk result (λ at. spaces_of self.new
            ≡ slice_set (spaces_of self.old) at.segment
            (slice_index (spaces_of self.old) at.segment - length items.now)) }
        ensures sound { IsRegion self.new }
        ensures full { IsErrOf result Refusal.RegionFull
            ↔ (fits_in self.old (length items.now) ≡ false) }
        ensures refused { IfErr result
            (λ e. (e ≡ Refusal.RegionFull) ⊎ (e ≡ Refusal.NoMemory)) }
        ensures err { OnErr result (self.new ≡ self.old) }
    {
        let Some(found) = self.search(items.len()) else {
            return Err(Refusal::RegionFull);
        };
        let offset = self.segments.place(found.first, items)?;
        let space = self.segments.space(found.first);
        let skip = self.skip.after_search(found, items.len());
        self.skip = skip.with_space(found.first, space);
        Ok(At {
            segment: found.first as u16,
            offset,
        })
    }

    // Returns the lowest segment without parts, other than `from`.
    fn empty_other(&self, from: usize) -> Option<usize>
        ensures found { IfSome result (λ to. IsEmptyOther self.now from to) }
        ensures none { IfNone result (HasNoEmptyOther self.now from) }
    {
        for number in 0..self.segments.len() {
            if number != from && self.segments.is_empty(number) {
                return Some(number);
            }
        }
        None
    }

    /// Returns whether segment `from` may be compacted. Allocates nothing.
    ///
    /// Refused with:
    /// - `OutOfRange` (14) exactly if there is no segment `from`;
    /// - `RegionFull` (17) exactly if segment `from` exists and every other segment has a part.
    pub fn may_compact(&self, from: u32) -> Result<(), Refusal>
        ensures missing { IsErrOf result Refusal.OutOfRange ↔ (length self.now ≤ from) }
        ensures full { IsErrOf result Refusal.RegionFull
            ↔ ((from < length self.now) × HasNoEmptyOther self.now from) }
        ensures refused { IfErr result
            (λ e. (e ≡ Refusal.OutOfRange) ⊎ (e ≡ Refusal.RegionFull)) }
    {
        let from = from as usize;
        if self.segments.len() <= from {
            return Err(Refusal::OutOfRange);
        }
        if self.empty_other(from).is_none() {
            return Err(Refusal::RegionFull);
        }
        Ok(())
    }

    /// Moves the parts of segment `from` into the lowest other segment without parts. `order` lists the offsets of the parts, which are
    /// moved in this order. Returns their new locations. Afterwards segment `from` has no parts.
    ///
    /// Copies each element once, within the block. A refused call changes nothing. Refused with:
    /// - `OutOfRange` (14) exactly if there is no segment `from`;
    /// - `RegionFull` (17) exactly if segment `from` exists and every other segment has a part;
    /// - else only `NoMemory` (1), if the tables cannot grow.
    pub fn compact(&mut self, alloc: Global, from: u32, order: &[u32]) -> Result<Moved, Refusal>
        requires { IsOrder (segment_of self.old from).parts order.now }
        ensures compacted { IfOk result (λ moved. Compacts self.old self.new from
            moved.segment order.now moved.offsets.items) }
        ensures sound { IsRegion self.new }
        ensures missing { IsErrOf result Refusal.OutOfRange ↔ (length self.old ≤ from) }
        ensures full { IsErrOf result Refusal.RegionFull
            ↔ ((from < length self.old) × HasNoEmptyOther self.old from) }
        ensures refused { IfErr result
            (λ e. (e ≡ Refusal.OutOfRange)
            ⊎ ((e ≡ Refusal.RegionFull) ⊎ (e ≡ Refusal.NoMemory))) }
        ensures err { OnErr result (self.new ≡ self.old) }
    {
        let from = from as usize;
        if from >= self.segments.len() {
            return Err(Refusal::OutOfRange);
        }
        let Some(to) = self.empty_other(from) else {
            return Err(Refusal::RegionFull);
        };
        let size = self.size() as usize;
        let offsets = self.segments.compact(alloc, from as u16, to, order)?;
        self.skip = self.skip.with_space(from, size);
        Ok(Moved {
            segment: to as u16,
            offsets,
        })
    }
}

impl<T: Copy + Drop> Region<T> {
    ghost use Rattle.far_log.specs.Lending.{lends_part};

    /// Mutably borrows the part at a location, in place. Allocates nothing.
    ///
    /// A write through the borrow changes only this part (`alone`).
    pub fn part_mut(&mut self, at: At) -> &mut [T]
        requires { IsSome (part_of self.old at) }
        ensures* writes_back { sem 𝓛 (lends_part T.row self.entry at 0 result) }
        ensures lent { part_of self.old at ≡ Some result.now }
        ensures alone { (list : List T) → length list ≡ length result.now
            → WritesPart self.old (after_write_at self.old at 0 list) at list }
    {
        let len = self.part(at).len();
        self.part_long_mut(at, len)
    }

    /// Mutably borrows the part at a location, which has `len` elements, in place. Allocates nothing, and reads no segment's table.
    ///
    /// A write through the borrow changes only this part (`alone`).
    pub fn part_long_mut(&mut self, at: At, len: usize) -> &mut [T]
        requires { IsSomeAnd (part_of self.old at) (λ list. length list ≡ len) }
        ensures* writes_back { sem 𝓛 (lends_part T.row self.entry at 0 result) }
        ensures lent { part_of self.old at ≡ Some result.now }
        ensures alone { (list : List T) → length list ≡ length result.now
            → WritesPart self.old (after_write_at self.old at 0 list) at list }
    {
        self.segments.range_mut(at, 0, len)
    }

    /// Mutably borrows the elements `from` to `to` of the part at a location, in place. Allocates nothing.
    pub fn range_mut(&mut self, at: At, from: usize, to: usize) -> &mut [T]
        requires ordered { from ≤ to }
        requires within { IsSomeAnd (part_of self.old at) (λ list. to ≤ length list) }
        ensures* writes_back { sem 𝓛 (lends_part T.row self.entry at from result) }
        ensures lent { IsSomeAnd (part_of self.old at)
            (λ list. result.now ≡ slice_range list from to) }
        ensures alone { IsSomeAnd (part_of self.old at) (λ list. (range : List T)
            → length range ≡ to - from
            → WritesPart self.old (after_write_at self.old at from range) at
            (take from list ++ (range ++ drop to list))) }
    {
        self.segments.range_mut(at, from, to)
    }
}
