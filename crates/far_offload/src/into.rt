// Folds a row group into existing totals.
ghost use Rattle.std.specs.Prelude.{◌≡◌, ◌≢◌, ◌-◌, ◌≤◌, ◌^◌, length, OnOk, OnErr, IfErr};
ghost use Rattle.far_types.specs.declared.spec.Fold.TheVariants as folds;
ghost use Rattle.far_types.specs.Answers.{totals};
ghost use Rattle.far_types.specs.Effects.{joined_totals};
ghost use Rattle.far_groups.specs.Live.{CanJoin};
ghost use Rattle.far_offload.specs.Partials.{pairs_over};

use crate::column::{Column, find};
use crate::folding::fold;
use crate::pairs::keyed_pairs;
use crate::partial::PartialDone;
use far_groups::LiveTotals;
use far_types::{Refusal, Spec};
use std::alloc::Global;

/// Adds the live places of a row group to totals in which a row group is pending. `alive` has one flag per place, at most 2^26.
/// Each place contributes the same pair as in `fold`.
///
/// A key that is a number allocates nothing. So the call makes a partial aggregate of the row group only if the keys are texts
/// or there are none.
///
/// Refused only with `NoMemory` (1). A refused call changes no totals.
pub fn fold_into(
    alloc: Global,
    live: &mut LiveTotals,
    spec: &Spec,
    columns: &[Column<'_>],
    alive: &[bool],
) -> Result<(), Refusal>
    requires few { length alive.now ≤ 2 ^ 26 }
    requires fold { spec.now.fold ≡ folds.Totals }
    requires left { live.old.left ≢ 0 }
    requires can_join { CanJoin live.old.totals
        (totals (pairs_over spec.now columns.now alive.now)) }
    ensures ok { OnOk result
        (live.new
        ≡ record {
          left = live.old.left - 1;
          totals = joined_totals live.old.totals
              (totals (pairs_over spec.now columns.now alive.now));
        }) }
    ensures err { OnErr result (live.new ≡ live.old) }
    ensures memory { IfErr result (λ e. e ≡ Refusal.NoMemory) }
{
    if let Some(column) = spec.key {
        if have_numbers(columns, column) {
            let pairs = keyed_pairs(alloc, spec, column, columns, alive)?;
            live.fold_in(pairs.as_slice())?;
            return Ok(());
        }
    }
    match fold(alloc, spec, columns, alive)? {
        PartialDone::Totals(partial) => live.merge(&partial),
        PartialDone::Extrema(_) => unreachable!(),
    }
}

/// Returns whether the column with this number has numbers. Only the running time of a fold depends on it.
fn have_numbers(columns: &[Column<'_>], number: u32) -> bool {
    match find(columns, number) {
        Some(column) => column.has_numbers(),
        None => false,
    }
}
