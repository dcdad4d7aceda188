// The row groups of one key in order.
ghost use Rattle.std.specs.Prelude.{◌≡◌, ◌≢◌, ℕ, ◌+◌, ◌<◌, ◌∷◌, [], Option, None, Some, true, false, IsTrue, OnOk, OnErr, IfOk, IfErr, vec_len, vec_capacity};
ghost use Rattle.far_types.specs.Effects.{join_min_maxes, merge_two};
ghost use Rattle.far_extrema.specs.Spreads.{MinMaxes, at, IsSet, IsTopOf};
ghost use Rattle.far_extrema.specs.Runs.{paired, RiseFrom, AreInOrder, IsAt, IsGap, IsKept, IsCut, joined_values};

use super::min_max::{MinMax, either};
use std::alloc::{AllocError, Global};
use std::marker::Model;

/// The row groups in which a key occurs, ascending, their min-maxes, and their joined min-max.
#[derive(Drop)]
pub struct Run {
    groups: Vec<u32>,
    values: Vec<MinMax>,
    top: Option<MinMax>,
}

impl Model for Run {
    ghost use Rattle.far_extrema.specs.Spreads.{IsTopOf};
    ghost use Rattle.far_extrema.specs.Runs.{RunState, paired, AreInOrder};

    ghost Value = { RunState };

    ghost view = { λ run. record
        { min_maxes = paired run.groups.items run.values.items; top = run.top } };

    ghost invariant = { λ run. AreInOrder run.groups.items run.values.items
        × IsTopOf (paired run.groups.items run.values.items) run.top };
}

/// Returns the index of a row group, or the index at which to insert it.
pub fn search(groups: &[u32], group: u32) -> Result<usize, usize>
    requires { RiseFrom 0 groups.now }
    ensures found { IfOk result (IsAt groups.now group) }
    ensures absent { IfErr result (IsGap groups.now group) }
{
    groups.binary_search(&group)
}

/// Returns what `search` does, but without a search for a row group after all others. Most new row groups are after all others.
fn place_of(groups: &[u32], group: u32) -> Result<usize, usize>
    requires { RiseFrom 0 groups.now }
    ensures found { IfOk result (IsAt groups.now group) }
    ensures absent { IfErr result (IsGap groups.now group) }
{
    let len = groups.len();
    if len == 0 || groups[len - 1] < group {
        return Err(len);
    }
    search(groups, group)
}

/// Joins all min-maxes. Returns `None` if there is none.
fn joined(values: &[MinMax]) -> Option<MinMax>
    ensures { result ≡ joined_values values.now }
{
    let mut top = None;
    for value in values {
        top = either(top, Some(*value));
    }
    top
}

/// Returns whether the joined min-max can be kept and joined with `now`, which replaces `previous`. Else it is computed anew.
fn is_kept(top: &Option<MinMax>, previous: MinMax, now: &Option<MinMax>) -> bool
    ensures { IsTrue result → IsKept top.now previous now.now }
{
    if let Some(now) = now {
        if now.covers(previous) {
            return true;
        }
    }
    match top {
        Some(top) => top.surpasses(previous),
        None => false,
    }
}

/// Returns the joined min-max of all row groups once one of the min-maxes was replaced or removed.
fn top_after(
    groups: &[u32],
    values: &[MinMax],
    top: Option<MinMax>,
    previous: MinMax,
    now: Option<MinMax>,
) -> Option<MinMax>
    requires { AreInOrder groups.now values.now }
    ensures { (old : MinMaxes) → (g : ℕ) → at old g ≡ Some previous
        → IsSet old g now (paired groups.now values.now)
        → IsTopOf old top
        → IsTopOf (paired groups.now values.now) result }
{
    if is_kept(&top, previous, &now) {
        return either(top, now);
    }
    joined(values)
}

/// Inserts a row group into vectors that have capacity for it. Allocates nothing.
fn insert_in(groups: &mut Vec<u32>, values: &mut Vec<MinMax>, group: u32, min_max: MinMax)
    requires order { AreInOrder groups.old.items values.old.items }
    requires new { at (paired groups.old.items values.old.items) group ≡ None }
    requires groups_room { vec_len groups.old < vec_capacity groups.old }
    requires values_room { vec_len values.old < vec_capacity values.old }
    ensures order { AreInOrder groups.new.items values.new.items }
    ensures set { IsSet (paired groups.old.items values.old.items) group (Some min_max)
        (paired groups.new.items values.new.items) }
    ensures groups_len { vec_len groups.new ≡ vec_len groups.old + 1 }
    ensures values_len { vec_len values.new ≡ vec_len values.old + 1 }
    ensures groups_capacity { vec_capacity groups.new ≡ vec_capacity groups.old }
    ensures values_capacity { vec_capacity values.new ≡ vec_capacity values.old }
{
    match place_of(groups, group) {
        Ok(_) => unreachable!(),
        Err(place) => {
            if groups.insert(place, group).is_err() || values.insert(place, min_max).is_err() {
                unreachable!();
            }
        }
    }
}

impl Run {
    /// Makes a run without row groups. Allocates nothing.
    pub fn new(alloc: Global) -> Run
        ensures { result.min_maxes ≡ [] }
    {
        Run {
            groups: Vec::new(alloc),
            values: Vec::new(alloc),
            top: None,
        }
    }

    /// Cuts a full run in two, so that a row group can be added. `self` keeps the first part. Returns the least row group that the second
    /// part may have, and the second part. If the new row group is after all others, the run stays full and the second part is empty.
    ///
    /// Returns `None` if the run is not full. If memory runs out, nothing is changed.
    pub fn cut_if_full(
        &mut self,
        alloc: Global,
        group: u32,
    ) -> Result<Option<(u32, Run)>, AllocError>
        ensures kept { IfOk result (λ late. late ≡ None → self.new ≡ self.old) }
        ensures cut { IfOk result (IsCut group self.old.min_maxes self.new.min_maxes) }
        ensures err { OnErr result (self.new ≡ self.old) }
    {
        let len = self.groups.len();
        if len < 64 {
            return Ok(None);
        }
        if self.groups[len - 1] < group {
            return Ok(Some((group, Run::new(alloc))));
        }
        self.cut(alloc)
    }

    /// Cuts a run in two halves. `self` keeps the first half.
    fn cut(&mut self, alloc: Global) -> Result<Option<(u32, Run)>, AllocError>
        ensures kept { IfOk result (λ late. late ≡ None → self.new ≡ self.old) }
        ensures cut { (group : ℕ)
            → IfOk result (IsCut group self.old.min_maxes self.new.min_maxes) }
        ensures err { OnErr result (self.new ≡ self.old) }
    {
        let len = self.groups.len();
        if len < 2 {
            return Ok(None);
        }
        let half = len / 2;
        let groups = Vec::from_slice(alloc, &self.groups[half..])?;
        let values = Vec::from_slice(alloc, &self.values[half..])?;
        let first = groups[0];
        let top = joined(&values);
        self.groups.truncate(half);
        self.values.truncate(half);
        self.top = joined(&self.values);
        Ok(Some((
            first,
            Run {
                groups,
                values,
                top,
            },
        )))
    }

    /// Returns the min-max of a row group, or `None` if the key does not occur in it.
    pub fn min_max(&self, group: u32) -> Option<MinMax>
        ensures { result ≡ at self.now.min_maxes group }
    {
        match search(&self.groups, group) {
            Ok(place) => Some(self.values[place]),
            Err(_) => None,
        }
    }

    /// Returns the joined min-max of all row groups, or `None` if there is none.
    pub fn top(&self) -> Option<MinMax>
        ensures is { result ≡ self.now.top }
        ensures top { IsTopOf self.now.min_maxes result }
    {
        self.top
    }

    /// Returns whether there is no row group.
    pub fn is_empty(&self) -> bool
        ensures { IsTrue result → self.now.min_maxes ≡ [] }
    {
        self.groups.is_empty()
    }

    /// Adds a row group. If memory runs out, nothing is changed.
    pub fn add(&mut self, group: u32, min_max: MinMax) -> Result<(), AllocError>
        requires { at self.old.min_maxes group ≡ None }
        ensures ok { OnOk result
            (IsSet self.old.min_maxes group (Some min_max) self.new.min_maxes) }
        ensures err { OnErr result (self.new ≡ self.old) }
    {
        self.groups.reserve(1)?;
        self.values.reserve(1)?;
        insert_in(&mut self.groups, &mut self.values, group, min_max);
        self.top = either(self.top, Some(min_max));
        Ok(())
    }

    /// Sets the min-max of a row group in which the key occurs. Allocates nothing.
    pub fn put(&mut self, group: u32, min_max: MinMax)
        requires { at self.old.min_maxes group ≢ None }
        ensures { IsSet self.old.min_maxes group (Some min_max) self.new.min_maxes }
    {
        match search(&self.groups, group) {
            Ok(place) => {
                let previous = self.values[place];
                self.values[place] = min_max;
                self.top = top_after(
                    &self.groups,
                    &self.values,
                    self.top,
                    previous,
                    Some(min_max),
                );
            }
            Err(_) => unreachable!(),
        }
    }

    /// Removes a row group. Allocates nothing.
    pub fn leave(&mut self, group: u32)
        requires { at self.old.min_maxes group ≢ None }
        ensures { IsSet self.old.min_maxes group None self.new.min_maxes }
    {
        match search(&self.groups, group) {
            Ok(place) => {
                self.groups.remove(place);
                let previous = self.values.remove(place);
                self.top = top_after(&self.groups, &self.values, self.top, previous, None);
            }
            Err(_) => unreachable!(),
        }
    }
}
