// Extrema of a run of row groups, folded together.
ghost use Rattle.std.specs.Prelude.{◌≡◌, ◌+◌, ◌*◌, ◌<◌, ◌≤◌, ◌^◌, ℕ, [], ◌∷◌, length, IfOk, OnOk};
ghost use Rattle.far_types.specs.Answers.{extrema};
ghost use Rattle.far_types.specs.Effects.{joined_extrema};
ghost use Rattle.far_store.specs.Faults.{faults_in, FailsOnlyIf, RefusedBy};
ghost use Rattle.far_rows.specs.Jobs.{AreAt};
ghost use Rattle.far_rows.specs.Places.{places_in};
ghost use Rattle.far_aggregates.specs.Accumulators.{pairs_here, group_pairs};
ghost use Rattle.far_table.specs.MixedGroups.{MayFold};
ghost use Rattle.far_table.specs.Pieces.{run_of};

use crate::contents::contents_away;
use crate::mixed_group::MixedGroup;
use far_aggregates::observe_group;
use far_extrema::GroupExtrema;
use far_rows::Rows;
use far_store::{FarRead, Meter};
use far_types::{Refusal, Spec};
use std::alloc::Global;

// Observes the rows of a row group: a local column is read in place, any other through its ticket.
fn observe_at<S: FarRead>(
    alloc: Global,
    observed: &mut GroupExtrema,
    rows: &Rows<S>,
    store: &S,
    meter: &mut Meter,
    spec: &Spec,
    group: u32,
) -> Result<(), Refusal>
    requires few { meter.old < 2 ^ 63 }
    requires here { AreAt S.is_of (S.store_id store.now) rows.now }
    requires begun { group * rows.now.size < length rows.now.alive }
    requires may_fold { MayFold rows.now spec.now }
    ensures extrema { OnOk result
        (observed.new
        ≡ joined_extrema observed.old
        (extrema (group_pairs spec.now rows.now.size group (places_in S.content rows.now)))) }
    ensures faults { meter.new ≡ meter.old + faults_in result }
    ensures cause { FailsOnlyIf S.may_fail result }
    ensures refused { RefusedBy (21 ∷ 1 ∷ []) result }
{
    // For the proof: shows `AreRows`, which bounds the number of places.
    let _len = rows.len();
    let contents = contents_away(alloc, rows, store, meter, spec, group)?;
    observe_group(
        alloc,
        observed,
        spec,
        &MixedGroup::new(rows, group, spec, &contents),
    )?;
    Ok(())
}

/// Returns the extrema of a run of row groups.
///
/// Refused with `FarFault` (21) exactly if the meter rises, else with `NoMemory` (1).
pub(crate) fn observe_run<S: FarRead>(
    alloc: Global,
    rows: &Rows<S>,
    store: &S,
    meter: &mut Meter,
    spec: &Spec,
    from: u32,
    to: u32,
) -> Result<GroupExtrema, Refusal>
    requires few { meter.old < 2 ^ 63 }
    requires here { AreAt S.is_of (S.store_id store.now) rows.now }
    requires order { from ≤ to }
    requires begun { (group : ℕ) → group < to → group * rows.now.size < length rows.now.alive }
    requires may_fold { MayFold rows.now spec.now }
    ensures extrema { IfOk result
        (λ observed. observed
        ≡ extrema
        (pairs_here spec.now (run_of rows.now.size from to (places_in S.content rows.now)))) }
    ensures faults { meter.new ≡ meter.old + faults_in result }
    ensures cause { FailsOnlyIf S.may_fail result }
    ensures refused { RefusedBy (21 ∷ 1 ∷ []) result }
{
    let mut observed = GroupExtrema::new(alloc);
    for group in from..to {
        observe_at(alloc, &mut observed, rows, store, meter, spec, group)?;
    }
    Ok(observed)
}
