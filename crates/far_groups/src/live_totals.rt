// Totals that are kept up to date.
ghost use Rattle.std.specs.Prelude.{◌≡◌, ◌≢◌, ◌+◌, ◌-◌, ◌^◌, ◌<◌, ◌≤◌, pos, None, Some, Err, unwrap_or, OnOk, OnErr, IfOk, IfErr};

use super::by_key::{ByKey, add, add_under, get, join, lines, nothing, plain, replace, take};
use super::count_sum::CountSum;
use super::folds::{Pair, fold_all};
use far_types::{Answer, Key, Refusal, TotalLines};
use std::alloc::{AllocError, Global};
use std::marker::Model;

/// The count and the sum of the rows under each key, kept up to date row by row. It also counts the row groups that are still pending.
/// Without a key column all rows have the key `None`. A sum is exact: at most 2^26 numbers of 64 bits have one key.
///
/// Contracts see how many row groups are pending, and the totals of the folded pairs. Each key has a count of at least 1 and a sum.
/// The laws of `far_types::laws` relate each call to the lists of pairs that have these totals.
#[derive(Drop)]
pub struct LiveTotals {
    left: u32,
    count_sums: ByKey,
}

impl Model for LiveTotals {
    ghost use Rattle.far_groups.specs.Live.{TotalsState, coded_totals_state};
    ghost use Rattle.far_groups.specs.CountSums.{AreCountSums};
    ghost use Rattle.far_groups.specs.ByKey.{totals_in};

    ghost Value = { TotalsState };

    ghost coded = { coded_totals_state };

    ghost view = { λ live. record { left = live.left; totals = totals_in live.count_sums } };

    ghost invariant = { λ live. AreCountSums (totals_in live.count_sums) };
}

impl LiveTotals {
    ghost use Rattle.std.specs.FinMap as fin;
    ghost use Rattle.far_types.specs.Answers.{lines_by_key, totals};
    ghost use Rattle.far_types.specs.Pairs.{PairsFit};
    ghost use Rattle.far_types.specs.Effects.{count_in, with_pair, without_pair, joined_totals};
    ghost use Rattle.far_groups.specs.Live.{CanRetract, CanJoin, with_replaced};
    ghost use Rattle.far_groups.specs.CountSums.{IsCountSum};

    /// Makes totals without rows, with `left` row groups pending. Allocates nothing.
    pub fn new(alloc: Global, left: u32) -> LiveTotals
        ensures left { result.left ≡ left }
        ensures empty { result.totals ≡ fin.empty }
    {
        LiveTotals {
            left,
            count_sums: nothing(alloc),
        }
    }

    /// Returns how many row groups are still pending.
    pub fn left(&self) -> u32
        ensures { result ≡ self.now.left }
    {
        self.left
    }

    /// Adds a folded row. If its key is in already, it drops the given key and allocates nothing.
    ///
    /// Refused only with `NoMemory` (1), and only if the key is new. Then nothing is changed.
    pub fn add(&mut self, key: Option<Key>, value: i64) -> Result<(), Refusal>
        requires { count_in (fin.get self.old.totals key) < 2 ^ 26 }
        ensures ok { OnOk result
            (self.new ≡ record self.old { totals = with_pair self.old.totals (key, value) }) }
        ensures err { OnErr result (self.new ≡ self.old) }
        ensures only_new { OnErr result (fin.get self.old.totals key ≡ None) }
        ensures memory { IfErr result (λ e. e ≡ Refusal.NoMemory) }
    {
        add(&mut self.count_sums, key, CountSum::of(value))?;
        Ok(())
    }

    /// Adds a folded row, as `add` does, for a caller that keeps the key. Clones the key if it is new.
    #[inline(always)]
    pub fn add_under(&mut self, key: &Option<Key>, value: i64) -> Result<(), AllocError>
        requires { count_in (fin.get self.old.totals key.now) < 2 ^ 26 }
        ensures ok { OnOk result
            (self.new ≡ record self.old { totals = with_pair self.old.totals (key.now, value) }) }
        ensures err { OnErr result (self.new ≡ self.old) }
        ensures only_new { OnErr result (fin.get self.old.totals key.now ≡ None) }
    {
        add_under(&mut self.count_sums, key, CountSum::of(value))
    }

    /// Adds one or more folded rows, all under one key, by their count and their sum, which the caller computed. Fails only if
    /// memory runs out for a new key. Then nothing is changed.
    pub fn add_rows(&mut self, key: Option<Key>, count_sum: CountSum) -> Result<(), AllocError>
        requires valid_sums { IsCountSum count_sum }
        requires capacity { count_in (fin.get self.old.totals key) + count_sum.0 ≤ 2 ^ 26 }
        ensures ok { OnOk result
            (self.new
            ≡ record self.old {
              totals = joined_totals self.old.totals (fin.insert fin.empty key count_sum);
            }) }
        ensures err { OnErr result (self.new ≡ self.old) }
        ensures only_new { OnErr result (fin.get self.old.totals key ≡ None) }
    {
        add(&mut self.count_sums, key, count_sum)
    }

    /// Removes one of the folded rows. If its key has no rows left, removes the key too. Allocates nothing.
    #[inline(always)]
    pub fn take(&mut self, key: &Option<Key>, value: i64)
        requires { CanRetract value (fin.get self.old.totals key.now) }
        ensures { self.new
            ≡ record self.old { totals = without_pair self.old.totals (key.now, value) } }
    {
        take(&mut self.count_sums, key, CountSum::of(value));
    }

    /// Replaces the value of one of the folded rows by another value, under the same key. Looks the key up once. Allocates nothing.
    #[inline(always)]
    pub fn replace(&mut self, key: &Option<Key>, from: i64, to: i64)
        requires { CanRetract from (fin.get self.old.totals key.now) }
        ensures { self.new
            ≡ record self.old { totals = with_replaced self.old.totals key.now from to } }
    {
        replace(&mut self.count_sums, key, from, to);
    }

    /// Joins the rows of other totals to these, key by key. One row group less is pending. It does not read how many row groups `other`
    /// has pending. Refused only with `NoMemory` (1). Then nothing is changed.
    ///
    /// What it costs:
    /// - If the keys are all numbers, or all texts: a look-up for each key of `other`. If these totals are a list of numbers and `other` is a
    ///   tree, also an insert for each key here, since the list becomes a tree.
    /// - Else, if `other` has less than a quarter as many keys as there are here: a look-up for each key of `other`.
    /// - Else two walks along the keys of both. If the keys that are new here are at most a quarter as many as the keys here, also a
    ///   look-up for each new key.
    pub fn merge(&mut self, other: &LiveTotals) -> Result<(), Refusal>
        requires left { self.old.left ≢ 0 }
        requires can_join { CanJoin self.old.totals other.now.totals }
        ensures ok { OnOk result
            (self.new
            ≡ record {
              left = self.old.left - 1;
              totals = joined_totals self.old.totals other.now.totals;
            }) }
        ensures err { OnErr result (self.new ≡ self.old) }
        ensures memory { IfErr result (λ e. e ≡ Refusal.NoMemory) }
    {
        join(&mut self.count_sums, &other.count_sums)?;
        self.left -= 1;
        Ok(())
    }

    /// Adds the folded rows of a row group. One row group less is pending. If memory runs out, nothing is changed.
    ///
    /// Costs a look-up for each row. `merge` costs a look-up for each key, once the rows are folded into totals of their own.
    pub fn fold_in(&mut self, pairs: &[Pair]) -> Result<(), AllocError>
        requires left { self.old.left ≢ 0 }
        requires fits { PairsFit pairs.now }
        requires can_join { CanJoin self.old.totals (totals pairs.now) }
        ensures ok { OnOk result
            (self.new
            ≡ record {
              left = self.old.left - 1;
              totals = joined_totals self.old.totals (totals pairs.now);
            }) }
        ensures err { OnErr result (self.new ≡ self.old) }
    {
        fold_all(&mut self.count_sums, pairs)?;
        self.left -= 1;
        Ok(())
    }

    /// Returns the keys that occur, ascending, each with its count and its sum. Without a key column and without rows there is no line.
    ///
    /// Refused with:
    /// - `Building` (15) exactly if row groups are pending; it says how many;
    /// - else only `NoMemory` (1).
    pub fn answer(&self, alloc: Global) -> Result<Answer, Refusal>
        ensures ok { IfOk result
            (λ answer. answer ≡ Answer.Totals (lines_by_key self.now.totals)) }
        ensures all_scanned { OnOk result (self.now.left ≡ 0) }
        ensures building { self.now.left ≢ 0 → result ≡ Err (Refusal.Building self.now.left) }
        ensures memory { self.now.left ≡ 0 → IfErr result (λ e. e ≡ Refusal.NoMemory) }
    {
        if self.left != 0 {
            return Err(Refusal::Building(self.left));
        }
        Ok(Answer::Totals(TotalLines::new(lines(alloc, &self.count_sums)?)))
    }

    /// Returns the count and the sum of the rows under no key: 0 and 0 if there are none. Pending row groups do not matter. Allocates
    /// nothing.
    pub fn plain(&self) -> (u64, i128)
        ensures { result ≡ unwrap_or (fin.get self.now.totals None) (0, pos 0) }
    {
        let count_sum = plain(&self.count_sums);
        (count_sum.count, count_sum.sum)
    }

    /// Returns the count and the sum of the rows under a key, or `None` if there are none. Pending row groups do not matter. Costs one
    /// look-up, or an index if the keys are small numbers. Allocates nothing.
    pub fn get(&self, key: &Option<Key>) -> Option<CountSum>
        ensures { result ≡ fin.get self.now.totals key.now }
    {
        get(&self.count_sums, key)
    }
}
