// Computes an aggregate from scratch, from the partial aggregates of its row groups.
ghost use Rattle.std.specs.Prelude.{◌≡◌, ◌<◌, ◌≤◌, ◌^◌, ℕ, List, Some, true, false, length, slice_set, OnOk, IfOk, IfErr};
ghost use Rattle.far_types.specs.Answers.{answer_over};
ghost use Rattle.far_types.specs.Table.{Place, groups, is_pending, rows_of};
ghost use Rattle.far_aggregates.specs.Accumulators.{KeepsEntry};
ghost use Rattle.far_aggregates.specs.Recounting.{partial_at, partials_from};

use super::aggregate::Aggregate;
use super::answers::answer;
use super::registrations::{group_count, new_aggregate};
use super::scans::merge_in;
use far_offload::PartialDone;
use far_types::{Answer, Refusal, Spec};
use std::alloc::Global;

/// Merges the partial aggregate of a row group into an aggregate in which it is pending. Refused only with `NoMemory` (1).
fn merge_next(
    aggregate: &mut Aggregate,
    size: u32,
    number: u32,
    partial: PartialDone,
) -> Result<(), Refusal>
    requires size { 0 < size }
    requires pending { is_pending aggregate.old.pending number ≡ true }
    requires may { (places : List Place) × (length places ≤ 2 ^ 24)
        × (partial ≡ partial_at aggregate.old.spec size places number)
        × KeepsEntry size places (Some aggregate.old) }
    ensures spec { OnOk result (aggregate.new.spec ≡ aggregate.old.spec) }
    ensures pending { OnOk result
        (aggregate.new.pending ≡ slice_set aggregate.old.pending number false) }
    ensures kept { OnOk result
        ((places : List Place) → partial ≡ partial_at aggregate.old.spec size places number
        → KeepsEntry size places (Some aggregate.old)
        → KeepsEntry size places (Some aggregate.new)) }
    ensures memory { IfErr result (λ e. e ≡ Refusal.NoMemory) }
{
    merge_in(&mut aggregate.accumulator, number, partial)?;
    aggregate.pending.clear(number as usize);
    Ok(())
}

/// Returns the answer of an aggregate over `places` places, from the partial aggregates of their row groups, in order.
///
/// Refused only with `NoMemory` (1).
pub fn answer_of(
    alloc: Global,
    spec: &Spec,
    partials: Vec<PartialDone>,
    size: u32,
    places: usize,
) -> Result<Answer, Refusal>
    requires size { 0 < size }
    requires few { places ≤ 2 ^ 24 }
    requires partials { (all : List Place) × (length all ≡ places)
        × (partials.items ≡ partials_from spec.now size all 0 (groups size places)) }
    ensures answer { IfOk result
        (λ answer. (all : List Place) → length all ≡ places
        → partials.items ≡ partials_from spec.now size all 0 (groups size places)
        → answer ≡ answer_over spec.now (rows_of all)) }
    ensures memory { IfErr result (λ e. e ≡ Refusal.NoMemory) }
{
    let mut aggregate = new_aggregate(alloc, spec.clone()?, 0, size, places)?;
    // For the proof: the contract of `group_count` bounds the number of row groups.
    let _groups = group_count(size, places);
    let mut number = 0;
    for partial in partials {
        merge_next(&mut aggregate, size, number, partial)?;
        number += 1;
    }
    answer(alloc, &aggregate)
}
