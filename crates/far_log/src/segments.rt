// The segments of the region.
ghost use Rattle.std.specs.Prelude.{◌≡◌, ℕ, ◌+◌, ◌-◌, ◌<◌, ◌≤◌, ◌^◌, ◌↔◌, List, [], length, take, drop, replicate, slice_range, sum_by, Some, IsSome, IsSomeAnd, IsTrue, IfOk, IfErr, OnOk, OnErr};
ghost use Rattle.std.specs.Borrow.{sem};
ghost use Rattle.far_log.specs.RegionState.{list_at, part_of, segment_of, fill_of, space_in, used_of};
ghost use Rattle.far_log.specs.Effects.{with_segment, with_part, without_part, list_or_none};

use super::extents::{end_of, extent_at, number_at};
use super::links::unlink;
use super::stacks::Stacks;
use super::table::{Table, used_by};
use far_pointer::At;
use far_types::Refusal;
use std::alloc::Global;
use std::marker::Model;

/// Segments of one size. Each has a stack of elements and a table of its parts. All stacks are in one block.
#[derive(Drop)]
pub struct Segments<T> {
    stacks: Stacks<T>,
    tables: Vec<Table>,
}

impl<T> Model for Segments<T> {
    ghost use Rattle.far_log.specs.RegionState.{RegionState};

    ghost Value = { RegionState T };

    ghost use Rattle.far_log.specs.Storage.{segment_states, AreSegmentsStored};

    ghost view = { λ s. segment_states s.stacks.size s.stacks.stacks s.tables.items };

    ghost invariant = { λ s. AreSegmentsStored s.stacks.size s.stacks.stacks s.tables.items };
}

impl<T: Copy + Drop> Segments<T> {
    /// Makes `count` segments, each for `size` elements, without parts. Reserves their memory and does not write it. Refused only with
    /// `NoMemory` (1).
    pub fn new(alloc: Global, count: u32, size: u32) -> Result<Segments<T>, Refusal>
        requires { count ≤ 65536 }
        ensures empty { IfOk result
            (λ state. state ≡ replicate count record { parts = []; size = size }) }
        ensures memory { IfErr result (λ e. e ≡ Refusal.NoMemory) }
    {
        let stacks = Stacks::new(alloc, count, size)?;
        let mut tables = Vec::with_capacity(alloc, count as usize)?;
        for _ in 0..count {
            tables.push(Table::new(alloc))?;
        }
        Ok(Segments { stacks, tables })
    }

    /// Returns how many segments there are.
    pub fn len(&self) -> usize
        ensures { result ≡ length self.now }
    {
        self.tables.len()
    }

    /// Returns the capacity of each segment, in elements.
    pub fn size(&self) -> u32
        ensures { (number : ℕ) → number < length self.now
            → (segment_of self.now number).size ≡ result }
    {
        self.stacks.size()
    }

    /// Returns how many elements a segment has space for after its last part.
    pub fn space(&self, number: usize) -> usize
        requires { number < length self.now }
        ensures space { result ≡ space_in (segment_of self.now number) }
        ensures small { result < 2 ^ 32 }
    {
        self.stacks.size() as usize - self.stacks.len(number)
    }

    /// Returns whether a segment has no part.
    pub fn is_empty(&self, number: usize) -> bool
        requires { number < length self.now }
        ensures { IsTrue result ↔ ((segment_of self.now number).parts ≡ []) }
    {
        self.stacks.len(number) == 0
    }

    /// Returns the total of the segments' fills.
    pub fn filled(&self) -> usize
        ensures { result ≡ sum_by fill_of self.now }
    {
        self.stacks.filled()
    }

    /// Returns the total length of all parts.
    pub fn used(&self) -> u64
        requires { length self.now ≤ 65536 }
        ensures { result ≡ used_of self.now }
    {
        used_by(&self.tables)
    }

    /// Returns whether a part begins at a location.
    pub fn holds(&self, at: At) -> bool
        requires { at.segment < length self.now }
        ensures { IsTrue result ↔ IsSome (part_of self.now at) }
    {
        let table = &self.tables[at.segment as usize];
        match extent_at(&table.entries, at.offset) {
            Some(extent) => extent.live && extent.offset == at.offset,
            None => false,
        }
    }

    /// Borrows the part at a location.
    pub fn part(&self, at: At) -> &[T]
        requires { IsSome (part_of self.now at) }
        ensures { part_of self.now at ≡ Some result.now }
    {
        let number = at.segment as usize;
        let table = &self.tables[number];
        let Some(extent) = extent_at(&table.entries, at.offset) else {
            unreachable!();
        };
        self.stacks
            .slice(number, extent.offset as usize, extent.len as usize)
    }

    /// Borrows the part at a location, which has `len` elements.
    pub fn part_long(&self, at: At, len: usize) -> &[T]
        requires { IsSomeAnd (part_of self.now at) (λ list. length list ≡ len) }
        ensures { part_of self.now at ≡ Some result.now }
    {
        self.stacks
            .slice(at.segment as usize, at.offset as usize, len)
    }

    /// Places a list after the last part of a segment. Returns where it begins. Refused only with `NoMemory` (1), if the table of parts
    /// cannot grow. It allocates nothing for elements.
    #[inline(always)]
    pub fn place(&mut self, number: usize, items: &[T]) -> Result<u32, Refusal>
        requires there { number < length self.old }
        requires some { 0 < length items.now }
        requires fits { length items.now ≤ space_in (segment_of self.old number) }
        ensures placed { OnOk result (self.new
            ≡ with_segment self.old number (with_part (segment_of self.old number) items.now)) }
        ensures offset { IfOk result (λ offset. offset ≡ fill_of (segment_of self.old number)) }
        ensures memory { IfErr result (λ e. e ≡ Refusal.NoMemory) }
        ensures err { OnErr result (self.new ≡ self.old) }
    {
        let fill = self.stacks.len(number);
        let table = &mut self.tables[number];
        let offset = table.push(fill, items.len())?;
        self.stacks.push_slice(number, items);
        Ok(offset)
    }

    /// Places a copy of the part at a location after the last part of a segment. Returns where it begins. Refused only with `NoMemory`
    /// (1), if the table of parts cannot grow. It allocates nothing for elements.
    pub fn place_copy(&mut self, from: At, number: usize) -> Result<u32, Refusal>
        requires there { number < length self.old }
        requires part { IsSome (part_of self.old from) }
        requires fits { length (list_or_none (segment_of self.old from.segment).parts from.offset)
            ≤ space_in (segment_of self.old number) }
        ensures placed { OnOk result (self.new
            ≡ with_segment self.old number (with_part (segment_of self.old number)
            (list_or_none (segment_of self.old from.segment).parts from.offset))) }
        ensures offset { IfOk result (λ offset. offset ≡ fill_of (segment_of self.old number)) }
        ensures memory { IfErr result (λ e. e ≡ Refusal.NoMemory) }
        ensures err { OnErr result (self.new ≡ self.old) }
    {
        let len = self.part(from).len();
        let fill = self.stacks.len(number);
        let table = &mut self.tables[number];
        let offset = table.push(fill, len)?;
        self.stacks
            .push_from(from.segment as usize, from.offset as usize, len, number);
        Ok(offset)
    }

    /// Drops the part at a location. Moves no elements.
    #[inline(always)]
    pub fn drop_at(&mut self, at: At)
        requires { IsSome (part_of self.old at) }
        ensures { self.new
            ≡ with_segment self.old at.segment
            (without_part (segment_of self.old at.segment) at.offset) }
    {
        let segment = at.segment as usize;
        let table = &mut self.tables[segment];
        let number = number_at(&table.entries, at.offset);
        let left = unlink(&mut table.entries, number);
        let mut entry = table.entries.get(number);
        entry.extent.live = false;
        table.entries.set(number, entry);
        table.used -= entry.extent.len;
        table.entries.truncate(left);
        let end = end_of(&table.entries);
        self.stacks.truncate(segment, end);
    }

    /// Drops all parts of a segment.
    pub fn clear(&mut self, number: usize)
        requires { number < length self.old }
        ensures { self.new
            ≡ with_segment self.old number (record (segment_of self.old number) { parts = [] }) }
    {
        let table = &mut self.tables[number];
        table.clear();
        self.stacks.truncate(number, 0);
    }
}

impl<T> Segments<T> {
    ghost use Rattle.far_log.specs.Lending.{lends_range};

    /// Mutably borrows a range of the part at a location.
    pub fn range_mut(&mut self, at: At, from: usize, to: usize) -> &mut [T]
        requires ordered { from ≤ to }
        requires within { IsSomeAnd (part_of self.old at) (λ list. to ≤ length list) }
        ensures* writes_back { sem 𝓛 (lends_range T.row self.entry at from result) }
        ensures value { IsSomeAnd (part_of self.old at)
            (λ list. result.now ≡ slice_range list from to) }
    {
        let stacks = &mut self.stacks;
        let begin = at.offset as usize + from;
        stacks.slice_mut(at.segment as usize, begin, to - from)
    }
}
