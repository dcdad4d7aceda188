// Extrema that are kept up to date, row group by row group.
ghost use Rattle.std.specs.Prelude.{◌≡◌, ◌≢◌, ◌-◌, ◌<◌, [], None, Some, Err, OnOk, OnErr, IfOk, IfErr, length, slice_set};
ghost use Rattle.far_extrema.specs.Live.{all_groups};

use super::group_extrema::GroupExtrema;
use super::holders::{
    Holders, fill_all, leave_in, min_max_in, observe_in, reserve_all, set_in, shrink_in, top_under,
};
use super::min_max::MinMax;
use super::rows_left::RowsLeft;
use far_types::{Answer, ExtremaLines, Key, Refusal};
use std::alloc::{AllocError, Global};
use std::marker::Model;

/// The least and the greatest value under each key, kept up to date row group by row group. It also counts the row groups that are pending:
/// not yet scanned.
///
/// Each key keeps the row groups in which it occurs in runs of at most 64. So a changed min-max costs a look-up by key, a search for the
/// run, and a search in the run. The cost of an answer does not depend on the number of row groups.
///
/// Contracts see how many row groups are pending. For each reserved row group, in their order, they see the extrema of its rows.
#[derive(Drop)]
pub struct LiveExtrema {
    left: u32,
    reserved_groups: usize,
    holders: Holders,
    alloc: Global,
}

impl Model for LiveExtrema {
    ghost use Rattle.far_extrema.specs.Live.{ExtremaState, coded_extrema_state};
    ghost use Rattle.far_extrema.specs.Holders.{groups_in, reserved_keys, AreReserved};

    ghost Value = { ExtremaState };

    ghost coded = { coded_extrema_state };

    ghost view = { λ live. record {
      left = live.left;
      groups = groups_in live.holders live.reserved_groups;
      reserved = reserved_keys live.holders;
    } };

    ghost invariant = { λ live. AreReserved live.reserved_groups live.holders };
}

impl LiveExtrema {
    ghost use Rattle.std.specs.FinMap as fin;
    ghost use Rattle.far_types.specs.Answers.{lines_by_key};
    ghost use Rattle.far_types.specs.Effects.{with_observed, min_max_with};
    ghost use Rattle.far_extrema.specs.Live.{after_reserve, group_at, IsReservedFor};
    ghost use Rattle.far_extrema.specs.MinMaxes.{put_min_max};

    /// Makes extrema without a reserved row group, with `left` row groups pending. Allocates nothing.
    pub fn new(alloc: Global, left: u32) -> LiveExtrema
        ensures left { result.left ≡ left }
        ensures empty { result.groups ≡ [] }
    {
        LiveExtrema {
            left,
            reserved_groups: 0,
            holders: Holders::new(alloc),
            alloc,
        }
    }

    /// Returns how many row groups are pending.
    pub fn left(&self) -> u32
        ensures { result ≡ self.now.left }
    {
        self.left
    }

    /// Reserves the row groups up to this one. New row groups have no rows. Allocates nothing.
    pub fn make_room(&mut self, group: u32)
        ensures { self.new ≡ record self.old { groups = after_reserve group self.old.groups } }
    {
        self.reserved_groups = self.reserved_groups.max(group as usize + 1);
    }

    /// Reserves as `make_room` does, and reserves memory for each key of these extrema, so that `set_group` or `merge` can take them for
    /// the row group. A key that is only reserved is in no answer.
    ///
    /// If memory runs out, no more row groups are reserved, but some of the keys may be.
    pub fn reserve_for(&mut self, group: u32, extrema: &GroupExtrema) -> Result<(), AllocError>
        ensures left { self.new.left ≡ self.old.left }
        ensures groups { OnOk result (self.new.groups ≡ after_reserve group self.old.groups) }
        ensures reserved { OnOk result (IsReservedFor extrema.now self.new) }
        ensures err { OnErr result (self.new.groups ≡ self.old.groups) }
    {
        reserve_all(&mut self.holders, self.alloc, extrema.min_maxes())?;
        self.make_room(group);
        Ok(())
    }

    /// Observes one folded row in a row group. Returns the previous min-max of its key there, or `None` if the key did not occur.
    /// `put_min_max` with that min-max undoes the row.
    ///
    /// Costs one look-up, if the key occurs in some row group. Clones the key if it is new. Fails only if memory
    /// runs out for a key that is new in the row group. Then nothing is changed.
    pub fn observe_under(
        &mut self,
        group: u32,
        key: &Option<Key>,
        value: i64,
    ) -> Result<Option<MinMax>, AllocError>
        requires { group < length self.old.groups }
        ensures previous { IfOk result
            (λ previous. previous ≡ fin.get (group_at self.old.groups group) key.now) }
        ensures ok { OnOk result
            (self.new
            ≡ record self.old {
              groups = slice_set self.old.groups group
                  (with_observed (group_at self.old.groups group) (key.now, value));
            }) }
        ensures err { OnErr result (self.new ≡ self.old) }
        ensures only_new { OnErr result
            (fin.get (group_at self.old.groups group) key.now ≡ None) }
    {
        observe_in(&mut self.holders, self.alloc, group, key, value)
    }

    /// Observes one folded row, as `observe_under` does, for a caller that knows the key's min-max in the row group. A value within that
    /// min-max costs no look-up. Allocates nothing.
    pub fn observe_over(&mut self, group: u32, key: &Option<Key>, value: i64, previous: MinMax)
        requires reserved { group < length self.old.groups }
        requires previous { fin.get (group_at self.old.groups group) key.now ≡ Some previous }
        ensures { self.new
            ≡ record self.old {
              groups = slice_set self.old.groups group
                  (with_observed (group_at self.old.groups group) (key.now, value));
            } }
    {
        if previous.is_within(value) {
            return;
        }
        let wide = previous.with(value);
        set_in(&mut self.holders, group, key, wide);
    }

    /// Returns the least and the greatest value under a key in a row group, or `None` if it does not occur there. No key occurs in a row
    /// group that is not reserved. Allocates nothing.
    pub fn min_max(&self, group: u32, key: &Option<Key>) -> Option<MinMax>
        ensures { result ≡ fin.get (group_at self.now.groups group) key.now }
    {
        min_max_in(&self.holders, group, key)
    }

    /// Replaces the min-max of a key that occurs in a row group. `None` removes the key there. With the previous min-max, this call undoes
    /// `observe_under`. Allocates nothing.
    pub fn put_min_max(&mut self, group: u32, key: &Option<Key>, min_max: Option<MinMax>)
        requires reserved { group < length self.old.groups }
        requires there { fin.get (group_at self.old.groups group) key.now ≢ None }
        ensures { self.new
            ≡ record self.old {
              groups = slice_set self.old.groups group
                  (put_min_max (group_at self.old.groups group) key.now min_max);
            } }
    {
        match min_max {
            Some(min_max) => set_in(&mut self.holders, group, key, min_max),
            None => leave_in(&mut self.holders, group, key),
        }
    }

    /// Removes one folded row from a row group. `rows` are the remaining rows under its key, which it reads only if the value was the least
    /// or the greatest there. Returns the remaining min-max, or `None` if the key no longer occurs there. Allocates nothing.
    ///
    /// Costs one look-up, and one more if the key then occurs in no row group.
    pub fn shrink<R: RowsLeft>(
        &mut self,
        group: u32,
        key: &Option<Key>,
        value: i64,
        rows: &R,
    ) -> Option<MinMax>
        requires reserved { group < length self.old.groups }
        requires at_hand { R.at_hand rows.now }
        requires previous { fin.get (group_at self.old.groups group) key.now
            ≡ Some (min_max_with value (R.extremes rows.now)) }
        ensures left { result ≡ R.extremes rows.now }
        ensures shrunk { self.new
            ≡ record self.old {
              groups = slice_set self.old.groups group
                  (put_min_max (group_at self.old.groups group) key.now (R.extremes rows.now));
            } }
    {
        shrink_in(&mut self.holders, group, key, value, rows)
    }

    /// Replaces the extrema of a row group. Costs a step for each key that occurs anywhere, and a look-up for each given key. Allocates
    /// nothing.
    pub fn set_group(&mut self, group: u32, extrema: GroupExtrema)
        requires reserved { group < length self.old.groups }
        requires keys { IsReservedFor extrema self.old }
        ensures left { self.new.left ≡ self.old.left }
        ensures groups { self.new.groups ≡ slice_set self.old.groups group extrema }
    {
        self.holders.clear(group);
        fill_all(&mut self.holders, group, extrema.min_maxes());
    }

    /// Sets the extrema of a row group in which no key occurs yet. One row group less is pending. Costs a look-up for each given key.
    /// Allocates nothing.
    pub fn merge(&mut self, group: u32, extrema: GroupExtrema)
        requires reserved { group < length self.old.groups }
        requires keys { IsReservedFor extrema self.old }
        requires new { group_at self.old.groups group ≡ fin.empty }
        requires left { self.old.left ≢ 0 }
        ensures left { self.new.left ≡ self.old.left - 1 }
        ensures groups { self.new.groups ≡ slice_set self.old.groups group extrema }
    {
        fill_all(&mut self.holders, group, extrema.min_maxes());
        self.left -= 1;
    }

    /// Returns the keys that occur in any row group, ascending, each with its least and its greatest value. The cost does not depend on the
    /// number of row groups.
    ///
    /// Refused with:
    /// - `Building` (15) exactly if row groups are pending; it says how many;
    /// - else only `NoMemory` (1).
    pub fn answer(&self, alloc: Global) -> Result<Answer, Refusal>
        ensures ok { IfOk result
            (λ answer. answer ≡ Answer.Extrema (lines_by_key (all_groups self.now.groups))) }
        ensures all_scanned { OnOk result (self.now.left ≡ 0) }
        ensures building { self.now.left ≢ 0 → result ≡ Err (Refusal.Building self.now.left) }
        ensures memory { self.now.left ≡ 0 → IfErr result (λ e. e ≡ Refusal.NoMemory) }
    {
        if self.left != 0 {
            return Err(Refusal::Building(self.left));
        }
        let lines = self.holders.lines(alloc)?;
        Ok(Answer::Extrema(ExtremaLines::new(lines)))
    }

    /// Returns the least and the greatest value under a key over all row groups, or `None` if it occurs in none. Pending row groups do not
    /// matter. Costs one look-up. Allocates nothing.
    pub fn get(&self, key: &Option<Key>) -> Option<MinMax>
        ensures { result ≡ fin.get (all_groups self.now.groups) key.now }
    {
        top_under(&self.holders, key)
    }
}
