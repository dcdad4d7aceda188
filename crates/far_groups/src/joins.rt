// Joins one map of counts and sums to another, by walks along both: a merge join.
ghost use Rattle.std.specs.Prelude.{◌≡◌, IfOk, OnOk, OnErr, Option};
ghost use Rattle.std.specs.BTreeMap.{IsOrdered, IsFromIterResult};
ghost use Rattle.std.specs.declared.cmp.Ordering.TheVariants.{Less};
ghost use Rattle.far_types.specs.declared.key.Key.{Key};
ghost use Rattle.far_types.specs.Keys.{line_cmp};
ghost use Rattle.far_types.specs.Effects.{add_count_sums, joined_totals};
ghost use Rattle.far_groups.specs.Live.{CanJoin};
ghost use Rattle.far_groups.specs.CountSums.{totals_of, AreCountSums, IsAddend, AreAddends};
ghost use Rattle.far_groups.specs.Walks.{count_sum_at, new_lines, added_to};

use super::count_sum::{CountSum, NO_VALUES};
use super::count_sums::{CountSums, join};
use far_types::{Key, clone_key};
use std::alloc::{AllocError, Global};
use std::cmp::Ordering;
use std::collections::btree_map::Iter;
use std::marker::Model;

/// If the other map has fewer than one key for each so many keys here, a look-up for each of its keys costs less than walks along both
/// maps (measured).
const WALKED: usize = 4;

/// A walk along the lines of a map, which looks keys up in ascending order. Contracts see the lines that it has not passed.
#[derive(Drop)]
struct Walk<'a> {
    next: Option<(&'a Option<Key>, &'a CountSum)>,
    rest: Iter<'a, Option<Key>, CountSum>,
}

impl<'a> Model for Walk<'a> {
    ghost use Rattle.std.specs.List.Sorted.{IsStrictlySortedBy};
    ghost use Rattle.std.specs.Map.{keys_of};
    ghost use Rattle.far_types.specs.Keys.{line_cmp};
    ghost use Rattle.far_groups.specs.Walks.{Lines, ahead};

    ghost Value = { Lines };

    ghost view = { λ walk. ahead walk.next walk.rest };

    ghost invariant = { λ walk.
        IsStrictlySortedBy line_cmp (keys_of (ahead walk.next walk.rest)) };
}

impl<'a> Walk<'a> {
    /// Begins a walk at the first line.
    fn new(count_sums: &'a CountSums) -> Walk<'a>
        ensures { result ≡ count_sums.now.entries }
    {
        let mut rest = count_sums.iter();
        let next = rest.next();
        Walk { next, rest }
    }

    /// Advances past all lines below a key and past the key's line. Returns the key's count and sum, or `None` if it has no line.
    fn find(&mut self, key: &Option<Key>) -> Option<CountSum>
        ensures found { result ≡ count_sum_at self.old key.now }
        ensures rest { (above : Option Key) → line_cmp key.now above ≡ Less
            → count_sum_at self.new above ≡ count_sum_at self.old above }
    {
        while let Some((next, count_sum)) = self.next {
            match next.cmp(key) {
                Ordering::Greater => return None,
                Ordering::Equal => {
                    self.next = self.rest.next();
                    return Some(*count_sum);
                }
                Ordering::Less => self.next = self.rest.next(),
            }
        }
        None
    }
}

/// Lists the keys that are only in the other map, each with a count of 0.
fn new_lines(
    alloc: Global,
    count_sums: &CountSums,
    other: &CountSums,
) -> Result<Vec<(Option<Key>, CountSum)>, AllocError>
    ensures ok { IfOk result
        (λ lines. lines.items ≡ new_lines count_sums.now.entries other.now.entries) }
    ensures ordered { IsOrdered line_cmp other.now }
{
    let mut lines = Vec::new(alloc);
    let mut walk = Walk::new(count_sums);
    for (key, _) in other {
        if walk.find(key).is_none() {
            lines.push((clone_key(key)?, NO_VALUES))?;
        }
    }
    Ok(lines)
}

/// Makes a map from lines whose keys ascend.
pub fn map_of(alloc: Global, lines: Vec<(Option<Key>, CountSum)>) -> Result<CountSums, AllocError>
    ensures ok { IfOk result (IsFromIterResult line_cmp lines.items) }
{
    let all = lines.into_iter();
    Ok(all.collect(alloc)?)
}

/// Inserts the keys that are only in the other map, each with a count of 0. If memory runs out, it removes all keys of count 0.
fn reserve_keys(
    alloc: Global,
    count_sums: &mut CountSums,
    other: &CountSums,
) -> Result<(), AllocError>
    requires valid_sums { AreCountSums (totals_of count_sums.old.entries) }
    ensures ok { OnOk result
        (totals_of count_sums.new.entries
        ≡ joined_totals (totals_of count_sums.old.entries)
        (totals_of (new_lines count_sums.old.entries other.now.entries))) }
    ensures err { OnErr result
        (totals_of count_sums.new.entries ≡ totals_of count_sums.old.entries) }
{
    let lines = new_lines(alloc, count_sums, other)?;
    let mut fresh = map_of(alloc, lines)?;
    match count_sums.append(&mut fresh) {
        Ok(()) => Ok(()),
        Err(_) => {
            count_sums.retain(|_, count_sum| count_sum.count != 0);
            Err(AllocError)
        }
    }
}

/// Adds two counts and sums. The result is exact if the counts are at most 2^26 and so many numbers of 64 bits can have the sums.
fn added(count_sum: CountSum, more: CountSum) -> CountSum
    ensures { IsAddend count_sum → IsAddend more → result ≡ add_count_sums count_sum more }
{
    CountSum {
        count: count_sum.count.wrapping_add(more.count),
        sum: count_sum.sum.wrapping_add(more.sum),
    }
}

/// Adds the counts and sums of the other map under each key that both have. Allocates nothing.
fn add_all_existing(count_sums: &mut CountSums, other: &CountSums)
    requires addends { (key : Option Key)
        → AreAddends (count_sum_at count_sums.old.entries key)
        (count_sum_at other.now.entries key) }
    ensures { (key : Option Key)
        → count_sum_at count_sums.new.entries key
        ≡ added_to (count_sum_at other.now.entries key)
        (count_sum_at count_sums.old.entries key) }
{
    let mut walk = Walk::new(other);
    count_sums.retain(|key, count_sum| {
        if let Some(more) = walk.find(key) {
            *count_sum = added(*count_sum, more);
        }
        true
    });
}

/// Joins the counts and sums of another map to these, by walks along both. Inserts the new keys first: only this step can fail.
fn join_walking(
    alloc: Global,
    count_sums: &mut CountSums,
    other: &CountSums,
) -> Result<(), AllocError>
    requires valid_sums { AreCountSums (totals_of count_sums.old.entries) }
    requires other_valid_sums { AreCountSums (totals_of other.now.entries) }
    requires can_join { CanJoin (totals_of count_sums.old.entries) (totals_of other.now.entries) }
    ensures valid_sums { AreCountSums (totals_of count_sums.new.entries) }
    ensures ok { OnOk result
        (totals_of count_sums.new.entries
        ≡ joined_totals (totals_of count_sums.old.entries) (totals_of other.now.entries)) }
    ensures err { OnErr result
        (totals_of count_sums.new.entries ≡ totals_of count_sums.old.entries) }
{
    reserve_keys(alloc, count_sums, other)?;
    add_all_existing(count_sums, other);
    Ok(())
}

/// Joins the counts and sums of another map to these: by walks along both, or by look-ups if the other map has few keys.
pub fn join_all(
    alloc: Global,
    count_sums: &mut CountSums,
    other: &CountSums,
) -> Result<(), AllocError>
    requires valid_sums { AreCountSums (totals_of count_sums.old.entries) }
    requires other_valid_sums { AreCountSums (totals_of other.now.entries) }
    requires can_join { CanJoin (totals_of count_sums.old.entries) (totals_of other.now.entries) }
    ensures valid_sums { AreCountSums (totals_of count_sums.new.entries) }
    ensures ok { OnOk result
        (totals_of count_sums.new.entries
        ≡ joined_totals (totals_of count_sums.old.entries) (totals_of other.now.entries)) }
    ensures err { OnErr result
        (totals_of count_sums.new.entries ≡ totals_of count_sums.old.entries) }
{
    if other.len() < count_sums.len() / WALKED {
        return join(count_sums, other);
    }
    join_walking(alloc, count_sums, other)
}
