// Counts and sums by key, in a tree map of keys that are all of one kind. A look-up compares the numbers or the texts themselves.
ghost use Rattle.std.specs.Prelude.{◌≡◌, ◌+◌, ◌^◌, ◌≤◌, None, Some, false, IsTrue, is_some, IfOk, OnOk, OnErr, take};
ghost use Rattle.std.specs.BTreeMap.{IsOrdered};
ghost use Rattle.std.specs.FinMap as fin;
ghost use Rattle.far_types.specs.Effects.{count_in, joined_totals};
ghost use Rattle.far_groups.specs.Live.{CanRetract, CanJoin, with_replaced};
ghost use Rattle.far_groups.specs.CountSums.{IsCountSum, AreCountSums, with_count_sum, LeavesCountSum, without_count_sum, CanRetractAll, without_all};
ghost use Rattle.far_groups.specs.KeyTree.{keyed_by, by_kind, line_of, lines_of};

use super::count_sum::CountSum;
use super::count_sums::CountSums;
use super::joins::map_of;
use super::tree_key::TreeKey;
use far_types::{Key, Text};
use std::alloc::{AllocError, Global};
use std::collections::BTreeMap;

/// Counts and sums by keys of one kind. No key has a count of 0.
pub type Tree<K> = BTreeMap<K, CountSum>;

/// Counts and sums by number.
pub type Numbers = Tree<i64>;

/// Counts and sums by text.
pub type Texts = Tree<Text>;

/// Adds a count and a sum under a key, if the tree has it. Returns whether the tree has it. Allocates nothing.
fn add_existing<K: TreeKey>(tree: &mut Tree<K>, key: &K, more: CountSum) -> bool
    requires valid_sums { AreCountSums (by_kind K.as_key tree.old.entries) }
    requires more_valid_sums { IsCountSum more }
    requires capacity { count_in
        (fin.get (by_kind K.as_key tree.old.entries) (Some (K.as_key key.now)))
        + more.0 ≤ 2 ^ 26 }
    ensures valid_sums { AreCountSums (by_kind K.as_key tree.new.entries) }
    ensures there { result
        ≡ is_some (fin.get (by_kind K.as_key tree.old.entries) (Some (K.as_key key.now))) }
    ensures added { IsTrue result
        → by_kind K.as_key tree.new.entries
        ≡ with_count_sum (by_kind K.as_key tree.old.entries) (Some (K.as_key key.now)) more }
    ensures absent { result ≡ false → tree.new.entries ≡ tree.old.entries }
{
    match tree.get_mut(key) {
        Some(count_sum) => {
            *count_sum = count_sum.merge_two(more);
            true
        }
        None => false,
    }
}

/// Adds a count and a sum under a key. If the key is in already, drops the given key.
pub fn add<K: TreeKey>(tree: &mut Tree<K>, key: K, more: CountSum) -> Result<(), AllocError>
    requires valid_sums { AreCountSums (by_kind K.as_key tree.old.entries) }
    requires more_valid_sums { IsCountSum more }
    requires capacity { count_in
        (fin.get (by_kind K.as_key tree.old.entries) (Some (K.as_key key)))
        + more.0 ≤ 2 ^ 26 }
    ensures valid_sums { AreCountSums (by_kind K.as_key tree.new.entries) }
    ensures ok { OnOk result
        (by_kind K.as_key tree.new.entries
        ≡ with_count_sum (by_kind K.as_key tree.old.entries) (Some (K.as_key key)) more) }
    ensures err { OnErr result (tree.new.entries ≡ tree.old.entries) }
    ensures only_new { OnErr result
        (fin.get (by_kind K.as_key tree.old.entries) (Some (K.as_key key)) ≡ None) }
{
    if !add_existing(tree, &key, more) {
        tree.insert(key, more)?;
    }
    Ok(())
}

/// Adds a count and a sum under a key. Copies the key if it is new.
pub fn add_under<K: TreeKey>(tree: &mut Tree<K>, key: &K, more: CountSum) -> Result<(), AllocError>
    requires valid_sums { AreCountSums (by_kind K.as_key tree.old.entries) }
    requires more_valid_sums { IsCountSum more }
    requires capacity { count_in
        (fin.get (by_kind K.as_key tree.old.entries) (Some (K.as_key key.now)))
        + more.0 ≤ 2 ^ 26 }
    ensures valid_sums { AreCountSums (by_kind K.as_key tree.new.entries) }
    ensures ok { OnOk result
        (by_kind K.as_key tree.new.entries
        ≡ with_count_sum (by_kind K.as_key tree.old.entries) (Some (K.as_key key.now)) more) }
    ensures err { OnErr result (tree.new.entries ≡ tree.old.entries) }
    ensures only_new { OnErr result
        (fin.get (by_kind K.as_key tree.old.entries) (Some (K.as_key key.now)) ≡ None) }
{
    if !add_existing(tree, key, more) {
        tree.insert(key.again()?, more)?;
    }
    Ok(())
}

/// Subtracts a count and a sum under a key. Removes a key whose count is then 0. Allocates nothing.
#[inline(never)]
pub fn take<K: TreeKey>(tree: &mut Tree<K>, key: &K, less: CountSum)
    requires valid_sums { AreCountSums (by_kind K.as_key tree.old.entries) }
    requires there { LeavesCountSum less
        (fin.get (by_kind K.as_key tree.old.entries) (Some (K.as_key key.now))) }
    ensures valid_sums { AreCountSums (by_kind K.as_key tree.new.entries) }
    ensures less { by_kind K.as_key tree.new.entries
        ≡ without_count_sum (by_kind K.as_key tree.old.entries) (Some (K.as_key key.now)) less }
{
    match tree.get_mut(key) {
        None => {}
        Some(count_sum) => {
            let rest = count_sum.subtract(less);
            if rest.count == 0 {
                tree.remove(key);
            } else {
                *count_sum = rest;
            }
        }
    }
}

/// Replaces one of the values under a key by another one. Allocates nothing.
#[inline(never)]
pub fn replace<K: TreeKey>(tree: &mut Tree<K>, key: &K, from: i64, to: i64)
    requires valid_sums { AreCountSums (by_kind K.as_key tree.old.entries) }
    requires there { CanRetract from
        (fin.get (by_kind K.as_key tree.old.entries) (Some (K.as_key key.now))) }
    ensures valid_sums { AreCountSums (by_kind K.as_key tree.new.entries) }
    ensures replaced { by_kind K.as_key tree.new.entries
        ≡ with_replaced (by_kind K.as_key tree.old.entries) (Some (K.as_key key.now)) from to }
{
    match tree.get_mut(key) {
        None => {}
        Some(count_sum) => *count_sum = count_sum.replace(from, to),
    }
}

/// Subtracts the first `count` entries of another tree from this one. Allocates nothing.
fn retract_first<K: TreeKey>(tree: &mut Tree<K>, other: &Tree<K>, count: usize)
    requires valid_sums { AreCountSums (by_kind K.as_key tree.old.entries) }
    requires there { CanRetractAll (by_kind K.as_key tree.old.entries)
        (take count (keyed_by K.as_key other.now.entries)) }
    ensures { by_kind K.as_key tree.new.entries
        ≡ without_all (by_kind K.as_key tree.old.entries)
        (take count (keyed_by K.as_key other.now.entries)) }
{
    let mut left = count;
    for (key, count_sum) in other {
        if left == 0 {
            return;
        }
        take(tree, key, *count_sum);
        left -= 1;
    }
}

/// Joins the counts and sums of another tree to these. If memory runs out, it undoes what it did.
pub fn join<K: TreeKey>(tree: &mut Tree<K>, other: &Tree<K>) -> Result<(), AllocError>
    requires valid_sums { AreCountSums (by_kind K.as_key tree.old.entries) }
    requires other_valid_sums { AreCountSums (by_kind K.as_key other.now.entries) }
    requires can_join { CanJoin (by_kind K.as_key tree.old.entries)
        (by_kind K.as_key other.now.entries) }
    ensures valid_sums { AreCountSums (by_kind K.as_key tree.new.entries) }
    ensures ok { OnOk result
        (by_kind K.as_key tree.new.entries
        ≡ joined_totals (by_kind K.as_key tree.old.entries)
        (by_kind K.as_key other.now.entries)) }
    ensures err { OnErr result
        (by_kind K.as_key tree.new.entries ≡ by_kind K.as_key tree.old.entries) }
{
    let mut done = 0;
    for (key, count_sum) in other {
        match add_under(tree, key, *count_sum) {
            Ok(()) => done += 1,
            Err(no_memory) => {
                retract_first(tree, other, done);
                return Err(no_memory);
            }
        }
    }
    Ok(())
}

/// Lists the entries by key.
fn keyed_lines<K: TreeKey>(
    alloc: Global,
    tree: &Tree<K>,
) -> Result<Vec<(Option<Key>, CountSum)>, AllocError>
    ensures ok { IfOk result (λ lines. lines.items ≡ keyed_by K.as_key tree.now.entries) }
    ensures ordered { IsOrdered K.cmp tree.now }
{
    let mut lines = Vec::with_capacity(alloc, tree.len())?;
    for (key, count_sum) in tree {
        lines.push((Some(key.to_key()?), *count_sum))?;
    }
    Ok(lines)
}

/// Copies the counts and sums into a tree map of keys.
pub fn keyed<K: TreeKey>(alloc: Global, tree: &Tree<K>) -> Result<CountSums, AllocError>
    ensures ok { IfOk result (λ keys. keys.entries ≡ keyed_by K.as_key tree.now.entries) }
{
    let lines = keyed_lines(alloc, tree)?;
    map_of(alloc, lines)
}

/// Makes a line of an answer.
fn line<K: TreeKey>(key: &K, count_sum: &CountSum) -> Result<(Option<Key>, u64, i128), AllocError>
    ensures { IfOk result (λ line. line ≡ line_of K.as_key (key.now, count_sum.now)) }
{
    Ok((Some(key.to_key()?), count_sum.count, count_sum.sum))
}

/// Makes an answer's lines, ascending by key.
pub fn lines<K: TreeKey>(
    alloc: Global,
    tree: &Tree<K>,
) -> Result<Vec<(Option<Key>, u64, i128)>, AllocError>
    ensures ok { IfOk result (λ lines. lines.items ≡ lines_of K.as_key tree.now.entries) }
    ensures ordered { IsOrdered K.cmp tree.now }
{
    let mut lines = Vec::with_capacity(alloc, tree.len())?;
    for (key, count_sum) in tree {
        lines.push(line(key, count_sum)?)?;
    }
    Ok(lines)
}
