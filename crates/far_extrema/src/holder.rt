// The row groups of one key.
ghost use Rattle.std.specs.Prelude.{◌≡◌, ◌≢◌, ◌∷◌, [], None, Some, true, false, IsTrue, OnOk, OnErr, IfOk};
ghost use Rattle.far_types.specs.Effects.{min_max_with};
ghost use Rattle.far_extrema.specs.Spreads.{at, IsSet, AreSame, IsTopOf};
ghost use Rattle.far_extrema.specs.Runs.{with_last, min_maxes_of, top_of, is_of, IsApart};
ghost use Rattle.far_extrema.specs.Holders.{IsCleared};

use super::min_max::{MinMax, either};
use super::rows_left::RowsLeft;
use super::runs::Runs;
use std::alloc::{AllocError, Global};
use std::marker::Model;

/// The row groups in which a key occurs, and whether memory for one more of them is reserved. A key that is only reserved occurs in none.
///
/// The last row group that was added is kept apart from the others. Its place is the reserved memory.
#[derive(Drop)]
pub struct Holder {
    last: Option<(u32, MinMax)>,
    reserved: bool,
    others: Option<Box<Runs>>,
}

impl Model for Holder {
    ghost use Rattle.std.specs.Prelude.{◌≡◌, true, None};
    ghost use Rattle.far_types.specs.Effects.{join_min_maxes, merge_two};
    ghost use Rattle.far_extrema.specs.Holders.{Holding};
    ghost use Rattle.far_extrema.specs.Runs.{with_last, min_maxes_of, top_of, value_of, IsApart};

    ghost Value = { Holding };

    ghost view = { λ holder. record {
      min_maxes = with_last holder.last (min_maxes_of holder.others);
      top = merge_two join_min_maxes (top_of holder.others) (value_of holder.last);
      reserved = holder.reserved;
    } };

    ghost invariant = { λ holder. IsApart holder.last (min_maxes_of holder.others)
        × (holder.reserved ≡ true → holder.last ≡ None) };
}

/// Returns whether the last row group is this one.
fn is_at(last: &Option<(u32, MinMax)>, group: u32) -> bool
    ensures { result ≡ is_of last.now group }
{
    match last {
        Some((last, _)) => group == *last,
        None => false,
    }
}

/// Adds a row group to the others. If memory runs out, nothing is changed.
fn add_to(
    others: &mut Option<Box<Runs>>,
    alloc: Global,
    group: u32,
    min_max: MinMax,
) -> Result<(), AllocError>
    requires { at (min_maxes_of others.old) group ≡ None }
    ensures ok { OnOk result
        (IsSet (min_maxes_of others.old) group (Some min_max) (min_maxes_of others.new)) }
    ensures err { OnErr result (others.new ≡ others.old) }
{
    match others {
        Some(runs) => runs.add(alloc, group, min_max),
        None => {
            let mut runs = Box::new(alloc, Runs::new(alloc))?;
            runs.add(alloc, group, min_max)?;
            *others = Some(runs);
            Ok(())
        }
    }
}

/// Adds the last row group to the others, if there is one. If memory runs out, nothing is changed.
fn settle(
    last: &Option<(u32, MinMax)>,
    others: &mut Option<Box<Runs>>,
    alloc: Global,
) -> Result<(), AllocError>
    requires { IsApart last.now (min_maxes_of others.old) }
    ensures ok { OnOk result
        (AreSame (with_last last.now (min_maxes_of others.old)) (min_maxes_of others.new)) }
    ensures err { OnErr result (others.new ≡ others.old) }
{
    if let Some((group, min_max)) = last {
        add_to(others, alloc, *group, *min_max)?;
    }
    Ok(())
}

/// Sets the min-max of one of the others. Allocates nothing.
fn put_in(others: &mut Option<Box<Runs>>, group: u32, min_max: MinMax)
    requires { at (min_maxes_of others.old) group ≢ None }
    ensures { IsSet (min_maxes_of others.old) group (Some min_max) (min_maxes_of others.new) }
{
    match others {
        Some(runs) => runs.put(group, min_max),
        None => unreachable!(),
    }
}

/// Removes one of the others. Allocates nothing.
fn leave_in(others: &mut Option<Box<Runs>>, group: u32)
    requires { at (min_maxes_of others.old) group ≢ None }
    ensures { IsSet (min_maxes_of others.old) group None (min_maxes_of others.new) }
{
    match others {
        Some(runs) => {
            runs.leave(group);
            if !runs.is_empty() {
                return;
            }
        }
        None => unreachable!(),
    }
    *others = None;
}

/// Returns the joined min-max of the others, or `None` if there is none.
fn top_in(others: &Option<Box<Runs>>) -> Option<MinMax>
    ensures is { result ≡ top_of others.now }
    ensures top { IsTopOf (min_maxes_of others.now) result }
{
    match others {
        Some(runs) => runs.top(),
        None => None,
    }
}

impl Holder {
    /// Makes a holder of one row group, without memory for another. Allocates nothing.
    pub fn new(group: u32, min_max: MinMax) -> Holder
        ensures min_maxes { result.min_maxes ≡ (group, min_max) ∷ [] }
        ensures reserved { result.reserved ≡ false }
    {
        Holder {
            last: Some((group, min_max)),
            reserved: false,
            others: None,
        }
    }

    /// Makes a holder without a row group. Allocates nothing.
    fn empty(reserved: bool) -> Holder
        ensures min_maxes { result.min_maxes ≡ [] }
        ensures reserved { result.reserved ≡ reserved }
    {
        Holder {
            last: None,
            reserved,
            others: None,
        }
    }

    /// Makes a holder without a row group, with memory for one. Allocates nothing.
    pub fn with_place() -> Holder
        ensures min_maxes { result.min_maxes ≡ [] }
        ensures reserved { result.reserved ≡ true }
    {
        Holder::empty(true)
    }

    /// Makes a holder that has neither a row group nor memory for one. Allocates nothing.
    pub fn vacant() -> Holder
        ensures min_maxes { result.min_maxes ≡ [] }
        ensures reserved { result.reserved ≡ false }
    {
        Holder::empty(false)
    }

    /// Returns the min-max of a row group, or `None` if the key does not occur in it.
    pub fn min_max(&self, group: u32) -> Option<MinMax>
        ensures { result ≡ at self.now.min_maxes group }
    {
        if let Some((last, min_max)) = &self.last {
            if *last == group {
                return Some(*min_max);
            }
        }
        match &self.others {
            Some(runs) => runs.min_max(group),
            None => None,
        }
    }

    /// Returns the joined min-max of all row groups, or `None` if there is none.
    pub fn top(&self) -> Option<MinMax>
        ensures is { result ≡ self.now.top }
        ensures top { IsTopOf self.now.min_maxes result }
    {
        match &self.last {
            Some((_, min_max)) => either(top_in(&self.others), Some(*min_max)),
            None => top_in(&self.others),
        }
    }

    /// Returns whether the holder has neither a row group nor memory for one.
    pub fn is_vacant(&self) -> bool
        ensures min_maxes { IsTrue result → self.now.min_maxes ≡ [] }
        ensures reserved { IsTrue result → self.now.reserved ≡ false }
    {
        self.last.is_none() && !self.reserved && self.others.is_none()
    }

    /// Reserves memory for one more row group. If memory runs out, nothing is changed.
    pub fn reserve(&mut self, alloc: Global) -> Result<(), AllocError>
        ensures min_maxes { AreSame self.old.min_maxes self.new.min_maxes }
        ensures reserved { OnOk result (self.new.reserved ≡ true) }
        ensures err { OnErr result (self.new ≡ self.old) }
    {
        settle(&self.last, &mut self.others, alloc)?;
        self.last = None;
        self.reserved = true;
        Ok(())
    }

    /// Adds a row group, and leaves the reserved memory as it is. If memory runs out, nothing is changed.
    fn add(&mut self, alloc: Global, group: u32, min_max: MinMax) -> Result<(), AllocError>
        requires { at self.old.min_maxes group ≡ None }
        ensures ok { OnOk result
            (IsSet self.old.min_maxes group (Some min_max) self.new.min_maxes) }
        ensures reserved { self.new.reserved ≡ self.old.reserved }
        ensures err { OnErr result (self.new ≡ self.old) }
    {
        if self.reserved {
            return add_to(&mut self.others, alloc, group, min_max);
        }
        settle(&self.last, &mut self.others, alloc)?;
        self.last = Some((group, min_max));
        Ok(())
    }

    /// Observes a value in a row group whose min-max is known. A value within it changes nothing. Allocates nothing.
    fn widen(&mut self, group: u32, previous: MinMax, value: i64)
        requires { at self.old.min_maxes group ≡ Some previous }
        ensures min_maxes { IsSet self.old.min_maxes group
            (Some (min_max_with value (Some previous))) self.new.min_maxes }
        ensures reserved { self.new.reserved ≡ self.old.reserved }
    {
        if previous.is_within(value) {
            return;
        }
        self.put(group, previous.with(value));
    }

    /// Observes a value in a row group, and leaves the reserved memory as it is. Returns the previous min-max there, or `None` if the key
    /// did not occur.
    ///
    /// Fails only if memory runs out for a key that is new there. Then nothing is changed.
    pub fn observe(
        &mut self,
        alloc: Global,
        group: u32,
        value: i64,
    ) -> Result<Option<MinMax>, AllocError>
        ensures previous { IfOk result (λ previous. previous ≡ at self.old.min_maxes group) }
        ensures ok { OnOk result
            (IsSet self.old.min_maxes group
            (Some (min_max_with value (at self.old.min_maxes group))) self.new.min_maxes) }
        ensures reserved { self.new.reserved ≡ self.old.reserved }
        ensures err { OnErr result (self.new ≡ self.old) }
        ensures only_new { OnErr result (at self.old.min_maxes group ≡ None) }
    {
        match self.min_max(group) {
            Some(min_max) => {
                self.widen(group, min_max, value);
                Ok(Some(min_max))
            }
            None => {
                self.add(alloc, group, MinMax::of(value))?;
                Ok(None)
            }
        }
    }

    /// Adds a row group, which takes the reserved memory. Allocates nothing.
    pub fn fill(&mut self, group: u32, min_max: MinMax)
        requires reserved { self.old.reserved ≡ true }
        requires new { at self.old.min_maxes group ≡ None }
        ensures { IsSet self.old.min_maxes group (Some min_max) self.new.min_maxes }
    {
        self.last = Some((group, min_max));
        self.reserved = false;
    }

    /// Sets the min-max of a row group in which the key occurs. Allocates nothing.
    pub fn put(&mut self, group: u32, min_max: MinMax)
        requires { at self.old.min_maxes group ≢ None }
        ensures min_maxes { IsSet self.old.min_maxes group (Some min_max) self.new.min_maxes }
        ensures reserved { self.new.reserved ≡ self.old.reserved }
    {
        if is_at(&self.last, group) {
            self.last = Some((group, min_max));
            return;
        }
        put_in(&mut self.others, group, min_max);
    }

    /// Removes a row group. Allocates nothing.
    pub fn leave(&mut self, group: u32)
        requires { at self.old.min_maxes group ≢ None }
        ensures min_maxes { IsSet self.old.min_maxes group None self.new.min_maxes }
        ensures reserved { self.new.reserved ≡ self.old.reserved }
    {
        if is_at(&self.last, group) {
            self.last = None;
            return;
        }
        leave_in(&mut self.others, group);
    }

    /// Removes a value from a row group. `rows` are the remaining rows, which it reads only if the value was the least or the greatest.
    /// Returns the remaining min-max, or `None` if the key no longer occurs there. Allocates nothing.
    pub fn shrink<R: RowsLeft>(&mut self, group: u32, value: i64, rows: &R) -> Option<MinMax>
        requires at_hand { R.at_hand rows.now }
        requires previous { at self.old.min_maxes group
            ≡ Some (min_max_with value (R.extremes rows.now)) }
        ensures left { result ≡ R.extremes rows.now }
        ensures min_maxes { IsSet self.old.min_maxes group (R.extremes rows.now)
            self.new.min_maxes }
        ensures reserved { self.new.reserved ≡ self.old.reserved }
    {
        if let Some(min_max) = self.min_max(group) {
            if min_max.is_strictly_within(value) {
                return Some(min_max);
            }
        }
        match rows.min_max() {
            Some(min_max) => {
                self.put(group, min_max);
                Some(min_max)
            }
            None => {
                self.leave(group);
                None
            }
        }
    }

    /// Removes a row group, if the key occurs in it. Allocates nothing.
    pub fn clear(&mut self, group: u32)
        ensures min_maxes { IsSet self.old.min_maxes group None self.new.min_maxes }
        ensures reserved { self.new.reserved ≡ self.old.reserved }
    {
        if self.min_max(group).is_some() {
            self.leave(group);
        }
    }
}

/// Removes a row group from a key, if the key occurs in it. Returns whether to keep the key: it has a row group left, or is reserved.
pub fn clear(holder: &mut Holder, group: u32) -> bool
    ensures { IsCleared group holder.old result holder.new }
{
    holder.clear(group);
    !holder.is_vacant()
}
