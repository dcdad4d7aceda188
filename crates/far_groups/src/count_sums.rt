// Counts and sums by key, in a tree map.
ghost use Rattle.std.specs.Prelude.{◌≡◌, ◌+◌, ◌-◌, ◌-ℤ◌, None, Some, ◌^◌, ◌≤◌, false, IsTrue, is_some, IfOk, OnOk, OnErr, map, take, ℕ, ℤ, Option};
ghost use Rattle.std.specs.BTreeMap.{IsOrdered};
ghost use Rattle.std.specs.FinMap as fin;
ghost use Rattle.far_types.specs.declared.key.Key.{Key};
ghost use Rattle.far_types.specs.Keys.{line_cmp};
ghost use Rattle.far_types.specs.Effects.{add_count_sums, count_in, joined_totals};
ghost use Rattle.far_groups.specs.Live.{CanRetract, CanJoin, with_replaced};
ghost use Rattle.far_groups.specs.CountSums.{totals_of, IsCountSum, AreCountSums, with_count_sum, LeavesCountSum, without_count_sum, CanRetractAll, without_all};

use super::count_sum::CountSum;
use far_types::{Key, clone_key};
use std::alloc::{AllocError, Global};
use std::collections::BTreeMap;

/// Counts and sums by key. No key has a count of 0.
pub type CountSums = BTreeMap<Option<Key>, CountSum>;

/// Adds a count and a sum under a key, if the map has it. Returns whether the map has it. Allocates nothing.
pub fn add_existing(count_sums: &mut CountSums, key: &Option<Key>, more: CountSum) -> bool
    requires valid_sums { AreCountSums (totals_of count_sums.old.entries) }
    requires more_valid_sums { IsCountSum more }
    requires capacity { count_in (fin.get (totals_of count_sums.old.entries) key.now) + more.0
        ≤ 2 ^ 26 }
    ensures valid_sums { AreCountSums (totals_of count_sums.new.entries) }
    ensures there { result ≡ is_some (fin.get (totals_of count_sums.old.entries) key.now) }
    ensures added { IsTrue result
        → totals_of count_sums.new.entries
        ≡ with_count_sum (totals_of count_sums.old.entries) key.now more }
    ensures absent { result ≡ false → count_sums.new.entries ≡ count_sums.old.entries }
{
    match count_sums.get_mut(key) {
        Some(count_sum) => {
            *count_sum = count_sum.merge_two(more);
            true
        }
        None => false,
    }
}

/// Adds a count and a sum under a key. If the key is in already, drops the given key.
pub fn add(count_sums: &mut CountSums, key: Option<Key>, more: CountSum) -> Result<(), AllocError>
    requires valid_sums { AreCountSums (totals_of count_sums.old.entries) }
    requires more_valid_sums { IsCountSum more }
    requires capacity { count_in (fin.get (totals_of count_sums.old.entries) key) + more.0
        ≤ 2 ^ 26 }
    ensures valid_sums { AreCountSums (totals_of count_sums.new.entries) }
    ensures ok { OnOk result
        (totals_of count_sums.new.entries
        ≡ with_count_sum (totals_of count_sums.old.entries) key more) }
    ensures err { OnErr result (count_sums.new.entries ≡ count_sums.old.entries) }
    ensures only_new { OnErr result (fin.get (totals_of count_sums.old.entries) key ≡ None) }
{
    if !add_existing(count_sums, &key, more) {
        count_sums.insert(key, more)?;
    }
    Ok(())
}

/// Adds a count and a sum under a key. Clones the key if it is new.
pub fn add_under(
    count_sums: &mut CountSums,
    key: &Option<Key>,
    more: CountSum,
) -> Result<(), AllocError>
    requires valid_sums { AreCountSums (totals_of count_sums.old.entries) }
    requires more_valid_sums { IsCountSum more }
    requires capacity { count_in (fin.get (totals_of count_sums.old.entries) key.now) + more.0
        ≤ 2 ^ 26 }
    ensures valid_sums { AreCountSums (totals_of count_sums.new.entries) }
    ensures ok { OnOk result
        (totals_of count_sums.new.entries
        ≡ with_count_sum (totals_of count_sums.old.entries) key.now more) }
    ensures err { OnErr result (count_sums.new.entries ≡ count_sums.old.entries) }
    ensures only_new { OnErr result (fin.get (totals_of count_sums.old.entries) key.now ≡ None) }
{
    if !add_existing(count_sums, key, more) {
        count_sums.insert(clone_key(key)?, more)?;
    }
    Ok(())
}

/// Subtracts a count and a sum under a key. Removes a key whose count is then 0. Allocates nothing.
#[inline(never)]
pub fn take(count_sums: &mut CountSums, key: &Option<Key>, less: CountSum)
    requires valid_sums { AreCountSums (totals_of count_sums.old.entries) }
    requires there { LeavesCountSum less (fin.get (totals_of count_sums.old.entries) key.now) }
    ensures valid_sums { AreCountSums (totals_of count_sums.new.entries) }
    ensures less { totals_of count_sums.new.entries
        ≡ without_count_sum (totals_of count_sums.old.entries) key.now less }
{
    match count_sums.get_mut(key) {
        None => {}
        Some(count_sum) => {
            let rest = count_sum.subtract(less);
            if rest.count == 0 {
                count_sums.remove(key);
            } else {
                *count_sum = rest;
            }
        }
    }
}

/// Replaces one of the values under a key by another one. Allocates nothing.
#[inline(never)]
pub fn replace(count_sums: &mut CountSums, key: &Option<Key>, from: i64, to: i64)
    requires valid_sums { AreCountSums (totals_of count_sums.old.entries) }
    requires there { CanRetract from (fin.get (totals_of count_sums.old.entries) key.now) }
    ensures valid_sums { AreCountSums (totals_of count_sums.new.entries) }
    ensures replaced { totals_of count_sums.new.entries
        ≡ with_replaced (totals_of count_sums.old.entries) key.now from to }
{
    match count_sums.get_mut(key) {
        None => {}
        Some(count_sum) => *count_sum = count_sum.replace(from, to),
    }
}

/// Subtracts the first `count` entries of another map from this one. Allocates nothing.
fn retract_first(count_sums: &mut CountSums, other: &CountSums, count: usize)
    requires valid_sums { AreCountSums (totals_of count_sums.old.entries) }
    requires there { CanRetractAll (totals_of count_sums.old.entries)
        (take count other.now.entries) }
    ensures { totals_of count_sums.new.entries
        ≡ without_all (totals_of count_sums.old.entries) (take count other.now.entries) }
{
    let mut left = count;
    for (key, count_sum) in other {
        if left == 0 {
            return;
        }
        take(count_sums, key, *count_sum);
        left -= 1;
    }
}

/// Joins the counts and sums of another map to these. If memory runs out, it undoes what it did.
pub fn join(count_sums: &mut CountSums, other: &CountSums) -> Result<(), AllocError>
    requires valid_sums { AreCountSums (totals_of count_sums.old.entries) }
    requires other_valid_sums { AreCountSums (totals_of other.now.entries) }
    requires can_join { CanJoin (totals_of count_sums.old.entries) (totals_of other.now.entries) }
    ensures valid_sums { AreCountSums (totals_of count_sums.new.entries) }
    ensures ok { OnOk result
        (totals_of count_sums.new.entries
        ≡ joined_totals (totals_of count_sums.old.entries) (totals_of other.now.entries)) }
    ensures err { OnErr result
        (totals_of count_sums.new.entries ≡ totals_of count_sums.old.entries) }
{
    let mut done = 0;
    for (key, count_sum) in other {
        match add_under(count_sums, key, *count_sum) {
            Ok(()) => done += 1,
            Err(no_memory) => {
                retract_first(count_sums, other, done);
                return Err(no_memory);
            }
        }
    }
    Ok(())
}

/// Makes an answer's lines, ascending by key.
pub fn lines(
    alloc: Global,
    count_sums: &CountSums,
) -> Result<Vec<(Option<Key>, u64, i128)>, AllocError>
    ensures ok { IfOk result
        (λ lines. lines.items
        ≡ map (λ (entry : Option Key × (ℕ × ℤ)). (entry.0, entry.1.0, entry.1.1))
        count_sums.now.entries) }
    ensures ordered { IsOrdered line_cmp count_sums.now }
{
    let mut lines = Vec::with_capacity(alloc, count_sums.len())?;
    for (key, count_sum) in count_sums {
        lines.push((clone_key(key)?, count_sum.count, count_sum.sum))?;
    }
    Ok(lines)
}
