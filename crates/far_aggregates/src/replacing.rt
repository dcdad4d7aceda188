// Replaces the values of pairs in totals, if each pair stays under its key. Nothing here allocates.
ghost use Rattle.std.specs.Prelude.{◌≡◌, ◌==◌, ◌≤◌, length};
ghost use Rattle.std.specs.List.{list_any, list_all};
ghost use Rattle.far_types.specs.Bounds.{column_of};
ghost use Rattle.far_aggregates.specs.Replacing.{looks_at, selects_by, is_of_totals, keeps_key, after_replace, MayReplace, EachMayReplace};
ghost use Rattle.far_aggregates.specs.Until.{zip_all};

use super::aggregate::{Accumulator, Aggregate};
use far_groups::Pair;
use far_types::{Spec, Test};

/// Returns whether an aggregate uses a column.
fn looks_at(entry: &Option<Aggregate>, column: u32) -> bool
    ensures { result ≡ looks_at column entry.now }
{
    match entry {
        None => false,
        Some(aggregate) => aggregate.spec.needs(column),
    }
}

/// Returns whether some aggregate uses a column.
pub fn one_looks_at(registry: &[Option<Aggregate>], column: u32) -> bool
    ensures { result ≡ list_any (looks_at column) registry.now }
{
    registry.iter().any(|entry| looks_at(entry, column))
}

/// Returns whether some test uses a column.
fn are_looking_at(tests: &[Test], column: u32) -> bool
    ensures { result ≡ list_any (λ test. column_of test == column) tests.now }
{
    tests.iter().any(|test| test.column() == column)
}

/// Returns whether a test or the key of an aggregate uses a column.
fn selects_by(spec: &Spec, column: u32) -> bool
    ensures { result ≡ selects_by column spec.now }
{
    if are_looking_at(spec.filter.as_slice(), column) {
        return true;
    }
    match spec.key {
        Some(key) => key == column,
        None => false,
    }
}

/// Returns whether an accumulator computes totals.
fn is_of_totals(accumulator: &Accumulator) -> bool
    ensures { result ≡ is_of_totals accumulator.now }
{
    match accumulator {
        Accumulator::Totals(_) => true,
        Accumulator::Extrema(_) => false,
    }
}

/// Returns whether an aggregate uses a column only for the values of totals, or not at all.
fn keeps_key(entry: &Option<Aggregate>, column: u32) -> bool
    ensures { result ≡ keeps_key column entry.now }
{
    match entry {
        None => true,
        Some(aggregate) => {
            !selects_by(&aggregate.spec, column)
                && (is_of_totals(&aggregate.accumulator) || aggregate.spec.value != column)
        }
    }
}

/// Returns whether each aggregate uses a column only for the values of totals, or not at all.
pub fn keep_keys(registry: &[Option<Aggregate>], column: u32) -> bool
    ensures { result ≡ list_all (keeps_key column) registry.now }
{
    registry.iter().all(|entry| keeps_key(entry, column))
}

/// Replaces the value of a pair in totals by a number, if there is a pair.
fn replace_one(entry: &mut Option<Aggregate>, pair: &Option<Pair>, to: i64)
    requires { MayReplace entry.old pair.now }
    ensures { entry.new ≡ after_replace to entry.old pair.now }
{
    if let Some(aggregate) = entry {
        if let Some(pair) = pair {
            if let Accumulator::Totals(live) = &mut aggregate.accumulator {
                live.replace(&pair.0, pair.1, to);
            }
        }
    }
}

/// Replaces the values of pairs in totals by a number.
pub fn replace_all(registry: &mut [Option<Aggregate>], pairs: &[Option<Pair>], to: i64)
    requires len { length pairs.now ≤ length registry.old }
    requires may { EachMayReplace registry.old pairs.now }
    ensures { registry.new ≡ zip_all (after_replace to) registry.old pairs.now }
{
    for i in 0..pairs.len() {
        replace_one(&mut registry[i], &pairs[i], to);
    }
}
