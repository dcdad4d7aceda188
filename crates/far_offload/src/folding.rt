// The fold of a row group, for any aggregate.
ghost use Rattle.std.specs.Prelude.{◌≡◌, ◌≤◌, ◌^◌, Some, None, length, IfOk};
ghost use Rattle.far_types.specs.declared.spec.Fold.TheVariants as folds;
ghost use Rattle.far_types.specs.Answers.{totals, extrema};
ghost use Rattle.far_offload.specs.Partials.{partial_of, pairs_over};

use crate::column::{Column, find};
use crate::filtering::value_at;
use crate::keys::key_at;
use crate::observing::observe_into;
use crate::partial::PartialDone;
use crate::plain::count_sum_of;
use far_extrema::GroupExtrema;
use far_groups::LiveTotals;
use far_types::{Fold, Spec};
use std::alloc::{AllocError, Global};

/// Folds totals without a key column.
fn plain_totals(
    alloc: Global,
    spec: &Spec,
    columns: &[Column<'_>],
    alive: &[bool],
) -> Result<LiveTotals, AllocError>
    requires few { length alive.now ≤ 2 ^ 26 }
    requires plain { spec.now.key ≡ None }
    ensures totals { IfOk result
        (λ live. live
        ≡ record { left = 0; totals = totals (pairs_over spec.now columns.now alive.now) }) }
{
    let mut live = LiveTotals::new(alloc, 0);
    let count_sum = count_sum_of(spec, columns, alive);
    if count_sum.count != 0 {
        live.add_rows(None, count_sum)?;
    }
    Ok(live)
}

/// Folds totals with a key column.
fn keyed_totals(
    alloc: Global,
    spec: &Spec,
    column: u32,
    columns: &[Column<'_>],
    alive: &[bool],
) -> Result<LiveTotals, AllocError>
    requires few { length alive.now ≤ 2 ^ 26 }
    requires keyed { spec.now.key ≡ Some column }
    ensures totals { IfOk result
        (λ live. live
        ≡ record { left = 0; totals = totals (pairs_over spec.now columns.now alive.now) }) }
{
    let values = find(columns, spec.value);
    let keys = find(columns, column);
    let mut totals = LiveTotals::new(alloc, 0);
    let mut key = None;
    for place in 0..alive.len() {
        if let Some(value) = value_at(spec, columns, values, place, alive[place]) {
            key = key_at(alloc, keys, place, key)?;
            if key.is_some() {
                totals.add_under(&key, value)?;
            }
        }
    }
    Ok(totals)
}

/// Folds totals, with or without a key column.
fn totals_of(
    alloc: Global,
    spec: &Spec,
    columns: &[Column<'_>],
    alive: &[bool],
) -> Result<LiveTotals, AllocError>
    requires few { length alive.now ≤ 2 ^ 26 }
    ensures totals { IfOk result
        (λ live. live
        ≡ record { left = 0; totals = totals (pairs_over spec.now columns.now alive.now) }) }
{
    match spec.key {
        Some(column) => keyed_totals(alloc, spec, column, columns, alive),
        None => plain_totals(alloc, spec, columns, alive),
    }
}

/// Folds extrema.
fn extrema_of(
    alloc: Global,
    spec: &Spec,
    columns: &[Column<'_>],
    alive: &[bool],
) -> Result<GroupExtrema, AllocError>
    ensures extrema { IfOk result
        (λ observed. observed ≡ extrema (pairs_over spec.now columns.now alive.now)) }
{
    let mut observed = GroupExtrema::new(alloc);
    observe_into(alloc, &mut observed, spec, columns, alive)?;
    Ok(observed)
}

/// Folds the live places of available columns. `alive` has one flag per place, at most 2^26. A missing column, and a place past
/// the end of a column, have no value. If several columns have one number, the first of them is used.
pub fn fold(
    alloc: Global,
    spec: &Spec,
    columns: &[Column<'_>],
    alive: &[bool],
) -> Result<PartialDone, AllocError>
    requires few { length alive.now ≤ 2 ^ 26 }
    ensures partial { IfOk result
        (λ done. done ≡ partial_of spec.now.fold (pairs_over spec.now columns.now alive.now)) }
{
    match spec.fold {
        Fold::Totals => Ok(PartialDone::Totals(totals_of(alloc, spec, columns, alive)?)),
        Fold::Extrema => Ok(PartialDone::Extrema(extrema_of(alloc, spec, columns, alive)?)),
    }
}
