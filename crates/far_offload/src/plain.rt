// The fold of a row group without a key column: all values have one key.
ghost use Rattle.std.specs.Prelude.{◌≡◌, ◌≤◌, ◌^◌, ◌<◌, ◌+◌, ◌+ℤ◌, Some, length, IfSome, FitsSigned};
ghost use Rattle.std.specs.Int.{w64};
ghost use Rattle.far_types.specs.Answers.{count_sum};
ghost use Rattle.far_types.specs.Effects.{min_max_with};
ghost use Rattle.far_groups.specs.CountSums.{IsSumOf};
ghost use Rattle.far_offload.specs.Partials.{values_over, min_max_in, MinMaxFits};

use crate::column::{Column, find};
use crate::filtering::{value_at, value_beyond};
use far_extrema::MinMax;
use far_groups::{CountSum, NO_VALUES};
use far_types::Spec;

/// Adds a value to a count and a sum.
#[inline(always)]
fn added(count_sum: CountSum, value: i64) -> CountSum
    requires few { count_sum.0 < 2 ^ 26 }
    requires sum { IsSumOf count_sum.0 count_sum.1 }
    requires fits { FitsSigned w64 value }
    ensures value { result ≡ (count_sum.0 + 1, count_sum.1 +ℤ value) }
    ensures sum { IsSumOf result.0 result.1 }
{
    CountSum {
        count: count_sum.count + 1,
        sum: count_sum.sum + i128::from(value),
    }
}

/// Returns the count and the sum of the values of the places that are alive and pass the filter.
pub(crate) fn count_sum_of(spec: &Spec, columns: &[Column<'_>], alive: &[bool]) -> CountSum
    requires { length alive.now ≤ 2 ^ 26 }
    ensures count_sum { result ≡ count_sum (values_over spec.now columns.now alive.now) }
    ensures sum { IsSumOf result.0 result.1 }
    ensures few { result.0 ≤ 2 ^ 26 }
{
    let values = find(columns, spec.value);
    let mut count_sum = NO_VALUES;
    for place in 0..alive.len() {
        if let Some(value) = value_at(spec, columns, values, place, alive[place]) {
            count_sum = added(count_sum, value);
        }
    }
    count_sum
}

/// Widens a least and a greatest value to include one more value.
#[inline(always)]
pub(crate) fn widened(min_max: Option<MinMax>, value: i64) -> MinMax
    requires { MinMaxFits min_max }
    ensures value { result ≡ min_max_with value min_max }
    ensures fits { MinMaxFits (Some result) }
{
    match min_max {
        Some(min_max) => min_max.with(value),
        None => MinMax::of(value),
    }
}

/// Returns the least and the greatest value of the places that are alive and pass the filter, if there is a value.
pub(crate) fn min_max_of(spec: &Spec, columns: &[Column<'_>], alive: &[bool]) -> Option<MinMax>
    ensures min_max { result ≡ min_max_in (values_over spec.now columns.now alive.now) }
    ensures fits { MinMaxFits result }
{
    let values = find(columns, spec.value);
    let mut min_max = None;
    for place in 0..alive.len() {
        if let Some(value) = value_beyond(spec, columns, values, place, alive[place], &min_max) {
            min_max = Some(widened(min_max, value));
        }
    }
    min_max
}
