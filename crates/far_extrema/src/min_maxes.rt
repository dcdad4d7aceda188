// The least and the greatest value by key, in a tree map.
ghost use Rattle.std.specs.Prelude.{◌≡◌, ◌≢◌, None, false, IsTrue, is_some, IfOk, OnOk, OnErr, map, ℤ, ◌≤ℤ◌, ◌<ℤ◌, Option};
ghost use Rattle.std.specs.BTreeMap.{IsOrdered};
ghost use Rattle.std.specs.FinMap as fin;
ghost use Rattle.far_types.specs.declared.key.Key.{Key};
ghost use Rattle.far_types.specs.Keys.{line_cmp};
ghost use Rattle.far_types.specs.Effects.{join_min_maxes};
ghost use Rattle.far_extrema.specs.MinMaxes.{extrema_of, with_min_max, put_min_max};

use super::min_max::MinMax;
use far_types::{Key, clone_key};
use std::alloc::{AllocError, Global};
use std::collections::BTreeMap;

/// The min-maxes by key.
pub type MinMaxes = BTreeMap<Option<Key>, MinMax>;

/// Joins a min-max to the one under a key, if the map has the key. Returns whether it has. Allocates nothing.
fn widen(min_maxes: &mut MinMaxes, key: &Option<Key>, more: MinMax) -> bool
    ensures there { result ≡ is_some (fin.get (extrema_of min_maxes.old.entries) key.now) }
    ensures widened { IsTrue result
        → extrema_of min_maxes.new.entries
        ≡ with_min_max (extrema_of min_maxes.old.entries) key.now more }
    ensures absent { result ≡ false → min_maxes.new.entries ≡ min_maxes.old.entries }
{
    match min_maxes.get_mut(key) {
        Some(min_max) => {
            *min_max = min_max.merge_two(more);
            true
        }
        None => false,
    }
}

/// Joins a min-max to the one under a key, or inserts it. If the key is in already, drops the given key.
pub fn observe(min_maxes: &mut MinMaxes, key: Option<Key>, more: MinMax) -> Result<(), AllocError>
    ensures ok { OnOk result
        (extrema_of min_maxes.new.entries
        ≡ with_min_max (extrema_of min_maxes.old.entries) key more) }
    ensures err { OnErr result (min_maxes.new.entries ≡ min_maxes.old.entries) }
    ensures only_new { OnErr result (fin.get (extrema_of min_maxes.old.entries) key ≡ None) }
{
    if !widen(min_maxes, &key, more) {
        min_maxes.insert(key, more)?;
    }
    Ok(())
}

/// Joins a min-max to the one under a key, or inserts it. Clones the key if it is new.
pub fn observe_under(
    min_maxes: &mut MinMaxes,
    key: &Option<Key>,
    more: MinMax,
) -> Result<(), AllocError>
    ensures ok { OnOk result
        (extrema_of min_maxes.new.entries
        ≡ with_min_max (extrema_of min_maxes.old.entries) key.now more) }
    ensures err { OnErr result (min_maxes.new.entries ≡ min_maxes.old.entries) }
    ensures only_new { OnErr result (fin.get (extrema_of min_maxes.old.entries) key.now ≡ None) }
{
    if !widen(min_maxes, key, more) {
        min_maxes.insert(clone_key(key)?, more)?;
    }
    Ok(())
}

/// Returns the min-max under a key, or `None` if the map does not have the key. Allocates nothing.
pub fn min_max_under(min_maxes: &MinMaxes, key: &Option<Key>) -> Option<MinMax>
    ensures { result ≡ fin.get (extrema_of min_maxes.now.entries) key.now }
{
    min_maxes.get(key).copied()
}

/// Replaces the min-max under a key that the map has. `None` removes the key. Allocates nothing.
pub fn put(min_maxes: &mut MinMaxes, key: &Option<Key>, min_max: Option<MinMax>)
    requires { fin.get (extrema_of min_maxes.old.entries) key.now ≢ None }
    ensures { extrema_of min_maxes.new.entries
        ≡ put_min_max (extrema_of min_maxes.old.entries) key.now min_max }
{
    match min_max {
        None => {
            min_maxes.remove(key);
        }
        Some(min_max) => match min_maxes.get_mut(key) {
            Some(previous) => *previous = min_max,
            None => unreachable!(),
        },
    }
}

/// Makes an answer's lines, ascending by key. Clones the keys.
pub fn lines(
    alloc: Global,
    min_maxes: &MinMaxes,
) -> Result<Vec<(Option<Key>, i64, i64)>, AllocError>
    ensures ok { IfOk result
        (λ lines. lines.items
        ≡ map (λ (entry : Option Key × (ℤ × ℤ)). (entry.0, entry.1.0, entry.1.1))
        min_maxes.now.entries) }
    ensures ordered { IsOrdered line_cmp min_maxes.now }
{
    let mut lines = Vec::with_capacity(alloc, min_maxes.len())?;
    for (key, min_max) in min_maxes {
        lines.push((clone_key(key)?, min_max.min, min_max.max))?;
    }
    Ok(lines)
}
