// Pairs that need not be retracted from extrema.
ghost use Rattle.std.specs.Prelude.{◌≡◌, Some, IsTrue, length};
ghost use Rattle.far_types.specs.Effects.{min_max_with};
ghost use Rattle.far_aggregates.specs.LeavingOut.{NeedNotRetract, IsLeftOut, EachLeftOut};

use super::deltas::Delta;
use super::spare_keys::SpareKeys;
use far_extrema::MinMax;
use far_groups::Pair;
use far_types::Key;

/// Returns whether two keys are equal.
#[inline(always)]
fn are_same(key: &Option<Key>, other: &Option<Key>) -> bool
    ensures { IsTrue result → key.now ≡ other.now }
{
    match (key, other) {
        (None, None) => true,
        (Some(Key::Int(number)), Some(Key::Int(other))) => number == other,
        (Some(Key::Text(text)), Some(Key::Text(other))) => text.as_str() == other.as_str(),
        _ => false,
    }
}

/// Widens a min-max to include the value of a pair.
fn wide(min_max: MinMax, pair: &Pair) -> MinMax
    ensures { result ≡ min_max_with pair.now.1 (Some min_max) }
{
    min_max.with(pair.1)
}

/// Returns whether a pair need not be retracted, because its value is strictly within the min-max under its key after the delta
/// was applied.
fn need_not_retract(delta: &Option<Delta>, to_retract: &Option<Pair>) -> bool
    ensures { IsTrue result → NeedNotRetract delta.now to_retract.now }
{
    if let Some(delta) = delta {
        if let Some(min_max) = delta.previous {
            if let Some(pair) = to_retract {
                return wide(min_max, &delta.pair).is_strictly_within(pair.1)
                    && are_same(&delta.pair.0, &pair.0);
            }
        }
    }
    false
}

/// Removes a pair that need not be retracted. Its key becomes a spare key.
fn leave_out_one(keys: &mut SpareKeys, delta: &Option<Delta>, to_retract: &mut Option<Pair>)
    ensures { IsLeftOut delta.now to_retract.old to_retract.new }
{
    if need_not_retract(delta, to_retract) {
        if let Some(pair) = to_retract.take() {
            keys.keep(pair);
        }
    }
}

/// Removes the pairs that need not be retracted.
fn leave_out_each(keys: &mut SpareKeys, to_retract: &mut [Option<Pair>], deltas: &[Option<Delta>])
    requires { length to_retract.old ≡ length deltas.now }
    ensures len { length to_retract.new ≡ length to_retract.old }
    ensures left_out { EachLeftOut deltas.now to_retract.old to_retract.new }
{
    for i in 0..to_retract.len() {
        leave_out_one(keys, &deltas[i], &mut to_retract[i]);
    }
}

/// Removes the pairs that need not be retracted, so that the min-max under their keys is not looked up again.
#[inline(always)]
pub fn leave_out(
    keys: &mut SpareKeys,
    pairs: Vec<Option<Pair>>,
    deltas: &[Option<Delta>],
) -> Vec<Option<Pair>>
    requires { length pairs.items ≡ length deltas.now }
    ensures len { length result.items ≡ length pairs.items }
    ensures left_out { EachLeftOut deltas.now pairs.items result.items }
{
    let mut to_retract = pairs;
    leave_out_each(keys, to_retract.as_mut_slice(), deltas);
    to_retract
}
