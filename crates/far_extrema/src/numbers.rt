// The row groups by number. The numbers from 0 to a bound are in a list, and the numbers below and above it are in two trees.
ghost use Rattle.std.specs.Prelude.{◌≡◌, ◌≤◌, ℤ, Some, None, length, OnOk, OnErr};
ghost use Rattle.std.specs.Ordering.{int_cmp};
ghost use Rattle.std.specs.List.{AllByRecursion};
ghost use Rattle.far_extrema.specs.Parts.{IsPart};

use super::dense::{self, Dense};
use super::holder::Holder;
use super::lines::Lines;
use super::number_tree::{self, NumberTree};
use std::alloc::{AllocError, Global};
use std::collections::BTreeMap;
use std::marker::Model;

/// The numbers from 0 to 2,047 are kept in the list. With all its places, it takes 96 KB.
const PLACES: i64 = 2048;

/// Where a number is kept: in the tree of the numbers below 0, at a place of the list, or in the tree of the numbers above the list.
enum Part {
    Below,
    At(usize),
    Above,
}

/// Returns where a number is kept.
#[inline(always)]
fn part_of(number: &i64) -> Part
    ensures { IsPart number.now result }
{
    if *number < 0 {
        return Part::Below;
    }
    if *number < PLACES {
        return Part::At(*number as usize);
    }
    Part::Above
}

/// The row groups by number. A number within the list is in no tree.
///
/// Contracts see the holding of each number, ascending. A number that does not occur may have a vacant holder.
#[derive(Drop)]
pub struct Numbers {
    below: NumberTree,
    small: Dense,
    above: NumberTree,
}

impl Model for Numbers {
    ghost use Rattle.far_extrema.specs.Numbers.{Numbers, coded_numbers, numbers_in, AreApart};

    ghost Value = { Numbers };

    ghost coded = { coded_numbers };

    ghost view = { λ n. numbers_in n.below.entries n.small.items n.above.entries };

    ghost invariant = { λ n. AreApart n.below.entries n.small.items n.above.entries };
}

impl Numbers {
    ghost use Rattle.std.specs.Prelude.{[]};
    ghost use Rattle.std.specs.Borrow.{sem};
    ghost use Rattle.std.specs.Option.{option_copied, option_copied_mut};
    ghost use Rattle.std.specs.List.Sorted.{IsStrictlySortedBy};
    ghost use Rattle.std.specs.Map.{keys_of};
    ghost use Rattle.far_extrema.specs.Holders.{IsVacant, IsTopped};
    ghost use Rattle.far_extrema.specs.Entries.{numbered, Adds};
    ghost use Rattle.far_extrema.specs.Numbers.{number_at, IsNumberPut, AreNumbersLike, AreNumbersCleared};
    ghost use Rattle.far_extrema.specs.LendingNumbers.{lends_number};

    /// Makes an empty collection: no number has a holder. Allocates nothing.
    pub fn new(alloc: Global) -> Numbers
        ensures { result ≡ [] }
    {
        Numbers {
            below: BTreeMap::new(alloc),
            small: Vec::new(alloc),
            above: BTreeMap::new(alloc),
        }
    }

    /// Returns the holder of a number, or `None` if there is none.
    #[inline]
    pub fn get(&self, number: &i64) -> Option<&Holder>
        ensures { option_copied result ≡ number_at self.now number.now }
    {
        match part_of(number) {
            Part::Below => self.below.get(number),
            Part::At(place) => dense::get(&self.small, place),
            Part::Above => self.above.get(number),
        }
    }

    /// Mutably borrows the holder of a number. Returns `None` if there is none.
    #[inline]
    pub fn get_mut(&mut self, number: &i64) -> Option<&mut Holder>
        ensures* writes_back { sem 𝓛 (lends_number self.entry number.now result) }
        ensures value { option_copied_mut result ≡ number_at self.old number.now }
    {
        match part_of(number) {
            Part::Below => self.below.get_mut(number),
            Part::At(place) => self.small.get_mut(place),
            Part::Above => self.above.get_mut(number),
        }
    }

    /// Adds or replaces the holder of a number. If memory runs out, the same numbers occur as before.
    pub fn insert(&mut self, number: &i64, holder: Holder) -> Result<(), AllocError>
        ensures ok { OnOk result (IsNumberPut self.old number.now (Some holder) self.new) }
        ensures err { OnErr result (AreNumbersLike self.old self.new) }
    {
        match part_of(number) {
            Part::Below => number_tree::put(&mut self.below, number, holder),
            Part::At(place) => dense::put(&mut self.small, place, holder),
            Part::Above => number_tree::put(&mut self.above, number, holder),
        }
    }

    /// Removes the vacant holder of a number. A vacant holder in the list stays. Allocates nothing.
    pub fn remove(&mut self, number: &i64)
        requires { IsVacant (number_at self.old number.now) }
        ensures { IsNumberPut self.old number.now None self.new }
    {
        match part_of(number) {
            Part::Below => number_tree::remove(&mut self.below, number),
            Part::At(_) => {}
            Part::Above => number_tree::remove(&mut self.above, number),
        }
    }

    /// Removes a row group from all numbers. Allocates nothing.
    pub fn clear(&mut self, group: u32)
        ensures { AreNumbersCleared group self.old self.new }
    {
        number_tree::clear_all(&mut self.below, group);
        dense::clear_all(&mut self.small, group);
        number_tree::clear_all(&mut self.above, group);
    }

    /// Returns how many numbers occur or are reserved, or `usize::MAX` if there are more.
    pub fn len(&self) -> usize
        ensures { result ≤ length self.now }
    {
        let others = self.below.len().saturating_add(self.above.len());
        others.saturating_add(dense::count_of(&self.small))
    }

    /// Adds the lines of the numbers, ascending. A number that is only reserved has none.
    pub fn add_lines(&self, lines: &mut Lines) -> Result<(), AllocError>
        ensures ok { OnOk result (Adds lines.old.items (numbered self.now) lines.new.items) }
        ensures ordered { OnOk result (IsStrictlySortedBy int_cmp (keys_of self.now)) }
        ensures topped { OnOk result (AllByRecursion IsTopped (numbered self.now)) }
    {
        number_tree::add_lines(lines, &self.below)?;
        dense::add_lines(lines, &self.small)?;
        number_tree::add_lines(lines, &self.above)
    }
}
