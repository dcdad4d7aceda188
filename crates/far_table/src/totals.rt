// Totals of a run of row groups, folded together.
ghost use Rattle.std.specs.Prelude.{◌≡◌, ◌≢◌, ◌+◌, ◌-◌, ◌*◌, ◌<◌, ◌≤◌, ◌^◌, ℕ, [], ◌∷◌, length, IfOk, OnOk};
ghost use Rattle.far_types.specs.declared.spec.Fold.TheVariants as folds;
ghost use Rattle.far_types.specs.Answers.{totals};
ghost use Rattle.far_types.specs.Effects.{joined_totals};
ghost use Rattle.far_store.specs.Faults.{faults_in, FailsOnlyIf, RefusedBy};
ghost use Rattle.far_groups.specs.Live.{CanJoin};
ghost use Rattle.far_rows.specs.Jobs.{AreAt};
ghost use Rattle.far_rows.specs.Places.{places_in};
ghost use Rattle.far_aggregates.specs.Accumulators.{pairs_here, group_pairs};
ghost use Rattle.far_table.specs.MixedGroups.{MayFold};
ghost use Rattle.far_table.specs.Pieces.{run_of};

use crate::contents::contents_away;
use crate::mixed_group::MixedGroup;
use far_aggregates::scan_totals;
use far_groups::LiveTotals;
use far_rows::Rows;
use far_store::{FarRead, Meter};
use far_types::{Refusal, Spec};
use std::alloc::Global;

// Adds the rows of a row group to totals: a local column is read in place, any other through its ticket.
fn total_at<S: FarRead>(
    alloc: Global,
    live: &mut LiveTotals,
    rows: &Rows<S>,
    store: &S,
    meter: &mut Meter,
    spec: &Spec,
    group: u32,
) -> Result<(), Refusal>
    requires few { meter.old < 2 ^ 63 }
    requires here { AreAt S.is_of (S.store_id store.now) rows.now }
    requires begun { group * rows.now.size < length rows.now.alive }
    requires may_fold { MayFold rows.now spec.now }
    requires fold { spec.now.fold ≡ folds.Totals }
    requires left { live.old.left ≢ 0 }
    requires can_join { CanJoin live.old.totals
        (totals (group_pairs spec.now rows.now.size group (places_in S.content rows.now))) }
    ensures totals { OnOk result
        (live.new
        ≡ record {
          left = live.old.left - 1;
          totals = joined_totals live.old.totals
              (totals
              (group_pairs spec.now rows.now.size group (places_in S.content rows.now)));
        }) }
    ensures faults { meter.new ≡ meter.old + faults_in result }
    ensures cause { FailsOnlyIf S.may_fail result }
    ensures refused { RefusedBy (21 ∷ 1 ∷ []) result }
{
    // For the proof: shows `AreRows`, which bounds the number of places.
    let _len = rows.len();
    let contents = contents_away(alloc, rows, store, meter, spec, group)?;
    scan_totals(
        alloc,
        live,
        spec,
        &MixedGroup::new(rows, group, spec, &contents),
    )
}

/// Returns the totals of a run of row groups.
///
/// Refused with `FarFault` (21) exactly if the meter rises, else with `NoMemory` (1).
pub(crate) fn total_run<S: FarRead>(
    alloc: Global,
    rows: &Rows<S>,
    store: &S,
    meter: &mut Meter,
    spec: &Spec,
    from: u32,
    to: u32,
) -> Result<LiveTotals, Refusal>
    requires few { meter.old < 2 ^ 63 }
    requires here { AreAt S.is_of (S.store_id store.now) rows.now }
    requires order { from ≤ to }
    requires begun { (group : ℕ) → group < to → group * rows.now.size < length rows.now.alive }
    requires may_fold { MayFold rows.now spec.now }
    requires fold { spec.now.fold ≡ folds.Totals }
    ensures totals { IfOk result
        (λ live. live
        ≡ record {
          left = 0;
          totals = totals
              (pairs_here spec.now
              (run_of rows.now.size from to (places_in S.content rows.now)));
        }) }
    ensures faults { meter.new ≡ meter.old + faults_in result }
    ensures cause { FailsOnlyIf S.may_fail result }
    ensures refused { RefusedBy (21 ∷ 1 ∷ []) result }
{
    // For the proof: shows `AreRows`, which bounds the number of places.
    let _len = rows.len();
    let mut live = LiveTotals::new(alloc, to - from);
    for group in from..to {
        total_at(alloc, &mut live, rows, store, meter, spec, group)?;
    }
    Ok(live)
}
