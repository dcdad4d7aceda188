// Scans a row group into an aggregate.
ghost use Rattle.std.specs.Prelude.{◌≡◌, ◌≢◌, ◌-◌, ◌<◌, ◌≤◌, ◌^◌, ℕ, List, true, length, option_map, slice_get, slice_set, IfOk, OnOk, OnErr, IfErr};
ghost use Rattle.far_types.specs.declared.spec.Fold.TheVariants as folds;
ghost use Rattle.far_types.specs.Answers.{totals, extrema};
ghost use Rattle.far_types.specs.Effects.{joined_totals, joined_extrema};
ghost use Rattle.far_types.specs.Table.{Place, in_group};
ghost use Rattle.far_groups.specs.Live.{CanJoin};
ghost use Rattle.far_offload.specs.Partials.{partial_of};
ghost use Rattle.far_aggregates.specs.Accumulators.{KeepsEntry, Keeps, fold_of, pairs_here, registered_in, registered_of};
ghost use Rattle.far_aggregates.specs.Lending.{IsServed, EntryIsServed};
ghost use Rattle.far_aggregates.specs.Scans.{has_pending, IsScanned, IsSame, AccumulatorMayScan, EntryMayScan};
ghost use Rattle.far_aggregates.specs.Aggregates.{after_scan, flattened};
ghost use Rattle.far_aggregates.specs.Recounting.{AccumulatorMayMerge, IsMerged};

use super::aggregate::{Accumulator, Aggregate};
use super::lend_group::LendGroup;
use super::needed::needed_columns;
use far_extrema::GroupExtrema;
use far_groups::LiveTotals;
use far_offload::{PartialDone, fold, fold_into, observe_into};
use far_types::{Refusal, Spec};
use std::alloc::{AllocError, Global};

/// Folds the live places of a row group.
fn fold_group<G: LendGroup>(
    alloc: Global,
    spec: &Spec,
    group: &G,
) -> Result<PartialDone, AllocError>
    requires few { length (G.places group.now) ≤ 2 ^ 24 }
    requires served { IsServed (G.has group.now) spec.now }
    ensures partial { IfOk result
        (λ done. done ≡ partial_of spec.now.fold (pairs_here spec.now (G.places group.now))) }
{
    let columns = needed_columns(spec, group);
    fold(alloc, spec, &columns, group.alive())
}

/// Merges the partial aggregate of a row group into an accumulator. Refused only with `NoMemory` (1). A refused call changes nothing.
pub fn merge_in(
    accumulator: &mut Accumulator,
    number: u32,
    partial: PartialDone,
) -> Result<(), Refusal>
    requires { AccumulatorMayMerge number partial accumulator.old }
    ensures ok { OnOk result (IsMerged number partial accumulator.old accumulator.new) }
    ensures err { OnErr result (IsSame accumulator.old accumulator.new) }
    ensures memory { IfErr result (λ e. e ≡ Refusal.NoMemory) }
{
    match accumulator {
        Accumulator::Totals(live) => match partial {
            PartialDone::Totals(totals) => live.merge(&totals),
            PartialDone::Extrema(_) => unreachable!(),
        },
        Accumulator::Extrema(live) => match partial {
            PartialDone::Totals(_) => unreachable!(),
            PartialDone::Extrema(extrema) => {
                live.reserve_for(number, &extrema)?;
                live.merge(number, extrema);
                Ok(())
            }
        },
    }
}

/// Adds the rows of a row group to totals in which a row group is pending. Refused only with `NoMemory` (1). A refused call
/// changes nothing.
pub fn scan_totals<G: LendGroup>(
    alloc: Global,
    live: &mut LiveTotals,
    spec: &Spec,
    group: &G,
) -> Result<(), Refusal>
    requires few { length (G.places group.now) ≤ 2 ^ 24 }
    requires served { IsServed (G.has group.now) spec.now }
    requires fold { spec.now.fold ≡ folds.Totals }
    requires left { live.old.left ≢ 0 }
    requires can_join { CanJoin live.old.totals
        (totals (pairs_here spec.now (G.places group.now))) }
    ensures ok { OnOk result
        (live.new
        ≡ record {
          left = live.old.left - 1;
          totals = joined_totals live.old.totals
              (totals (pairs_here spec.now (G.places group.now)));
        }) }
    ensures err { OnErr result (live.new ≡ live.old) }
    ensures memory { IfErr result (λ e. e ≡ Refusal.NoMemory) }
{
    let columns = needed_columns(spec, group);
    fold_into(alloc, live, spec, &columns, group.alive())
}

/// Observes the rows of a row group in extrema, which may already include rows of other row groups. If memory runs out, it may
/// have observed some of the rows.
pub fn observe_group<G: LendGroup>(
    alloc: Global,
    observed: &mut GroupExtrema,
    spec: &Spec,
    group: &G,
) -> Result<(), AllocError>
    requires served { IsServed (G.has group.now) spec.now }
    ensures ok { OnOk result
        (observed.new
        ≡ joined_extrema observed.old (extrema (pairs_here spec.now (G.places group.now)))) }
{
    let columns = needed_columns(spec, group);
    observe_into(alloc, observed, spec, &columns, group.alive())
}

/// Scans the rows of a row group into an accumulator. Refused only with `NoMemory` (1). A refused call changes nothing.
fn scan<G: LendGroup>(
    alloc: Global,
    accumulator: &mut Accumulator,
    spec: &Spec,
    group: &G,
    number: u32,
) -> Result<(), Refusal>
    requires few { length (G.places group.now) ≤ 2 ^ 24 }
    requires served { IsServed (G.has group.now) spec.now }
    requires fold { fold_of accumulator.old ≡ spec.now.fold }
    requires may_scan { AccumulatorMayScan spec.now number (G.places group.now) accumulator.old }
    ensures ok { OnOk result
        (IsScanned spec.now number (G.places group.now) accumulator.old accumulator.new) }
    ensures err { OnErr result (IsSame accumulator.old accumulator.new) }
    ensures memory { IfErr result (λ e. e ≡ Refusal.NoMemory) }
{
    if let Accumulator::Totals(live) = accumulator {
        return scan_totals(alloc, live, spec, group);
    }
    let partial = fold_group(alloc, spec, group)?;
    merge_in(accumulator, number, partial)
}

/// Scans the rows of a row group into an aggregate in which it is pending. Refused only with `NoMemory` (1). A refusal does
/// not change its answer.
fn scan_in<G: LendGroup>(
    alloc: Global,
    entry: &mut Option<Aggregate>,
    group: &G,
    size: u32,
    number: u32,
) -> Result<(), Refusal>
    requires size { 0 < size }
    requires pending { has_pending number entry.old ≡ true }
    requires served { EntryIsServed (G.has group.now) (registered_in entry.old) }
    requires may { EntryMayScan size number (G.places group.now) entry.old }
    ensures registered { OnOk result
        (registered_in entry.new ≡ option_map (after_scan number) (registered_in entry.old)) }
    ensures kept { (places : List Place) → G.places group.now ≡ in_group size number places
        → KeepsEntry size places entry.old
        → KeepsEntry size places entry.new }
    ensures unchanged { OnErr result (registered_in entry.new ≡ registered_in entry.old) }
    ensures memory { IfErr result (λ e. e ≡ Refusal.NoMemory) }
{
    if let Some(aggregate) = entry {
        scan(
            alloc,
            &mut aggregate.accumulator,
            &aggregate.spec,
            group,
            number,
        )?;
        aggregate.pending.clear(number as usize);
    }
    Ok(())
}

/// Scans the rows of a row group into the aggregate with this number. Refused only with `NoMemory` (1). A refusal does not
/// change its answer.
pub fn scan_at<G: LendGroup>(
    alloc: Global,
    registry: &mut Vec<Option<Aggregate>>,
    a: u32,
    group: &G,
    size: u32,
    number: u32,
) -> Result<(), Refusal>
    requires size { 0 < size }
    requires pending { has_pending number (flattened (slice_get registry.old.items a)) ≡ true }
    requires served { EntryIsServed (G.has group.now)
        (registered_in (flattened (slice_get registry.old.items a))) }
    requires may { EntryMayScan size number (G.places group.now)
        (flattened (slice_get registry.old.items a)) }
    ensures registered { OnOk result
        (registered_of registry.new.items
        ≡ slice_set (registered_of registry.old.items) a
        (option_map (after_scan number)
        (registered_in (flattened (slice_get registry.old.items a))))) }
    ensures kept { (places : List Place) → G.places group.now ≡ in_group size number places
        → Keeps size places registry.old.items
        → Keeps size places registry.new.items }
    ensures unchanged { OnErr result
        (registered_of registry.new.items ≡ registered_of registry.old.items) }
    ensures memory { IfErr result (λ e. e ≡ Refusal.NoMemory) }
{
    scan_in(alloc, &mut registry[a as usize], group, size, number)?;
    Ok(())
}
