// Registers aggregates under their numbers.
ghost use Rattle.std.specs.Prelude.{◌≡◌, ◌<◌, ◌≤◌, ◌+◌, ◌^◌, ℕ, List, Some, None, true, length, replicate, slice_get, slice_set, IfOk, IfSome, OnOk, OnErr};
ghost use Rattle.std.specs.Option.{option_copied};
ghost use Rattle.far_types.specs.Table.{Place, groups, is_pending};
ghost use Rattle.far_aggregates.specs.Accumulators.{Keeps, KeepsEntry, KeepsNothing, fold_of, registered_in, registered_of};
ghost use Rattle.far_aggregates.specs.Aggregates.{free_from, flattened};

use super::aggregate::{Accumulator, Aggregate};
use super::known::KnownExtrema;
use super::pending_groups::PendingGroups;
use far_groups::LiveTotals;
use far_types::{Fold, Spec};
use std::alloc::{AllocError, Global};

/// Returns the lowest number under which no aggregate is registered, or `None` if 32 are.
pub fn free_number(registry: &[Option<Aggregate>]) -> Option<u32>
    requires { length registry.now ≤ 32 }
    ensures value { result ≡ free_from 0 (registered_of registry.now) }
    ensures within { IfSome result (λ a. a ≤ length registry.now) }
    ensures number { IfSome result (λ a. a < 32) }
{
    for i in 0..registry.len() {
        if registry[i].is_none() {
            return Some(i as u32);
        }
    }
    if registry.len() < 32 {
        return Some(registry.len() as u32);
    }
    None
}

/// Returns the aggregate with this number, if there is one.
pub fn aggregate_at(registry: &[Option<Aggregate>], a: u32) -> Option<&Aggregate>
    ensures { option_copied result ≡ flattened (slice_get registry.now a) }
{
    match registry.get(a as usize) {
        Some(Some(aggregate)) => Some(aggregate),
        _ => None,
    }
}

/// Returns how many row groups hold one of `places` places.
pub fn group_count(size: u32, places: usize) -> usize
    requires size { 0 < size }
    requires few { places ≤ 2 ^ 24 }
    ensures value { result ≡ groups size places }
    ensures few { result < 2 ^ 32 }
{
    (places + size as usize - 1) / size as usize
}

/// Makes an accumulator without a row, in which `left` row groups are pending.
fn empty_accumulator(alloc: Global, fold: Fold, left: u32) -> Accumulator
    ensures fold { fold_of result ≡ fold }
    ensures nothing { KeepsNothing left result }
{
    match fold {
        Fold::Totals => Accumulator::Totals(LiveTotals::new(alloc, left)),
        Fold::Extrema => Accumulator::Extrema(KnownExtrema::new(alloc, left)),
    }
}

/// Makes an aggregate with nothing scanned: all row groups that hold one of `places` places are pending.
pub fn new_aggregate(
    alloc: Global,
    spec: Spec,
    registration: u64,
    size: u32,
    places: usize,
) -> Result<Aggregate, AllocError>
    requires size { 0 < size }
    requires few { places ≤ 2 ^ 24 }
    ensures registered { IfOk result
        (λ a. registered_in (Some a)
        ≡ Some
        (record {
          spec = spec;
          registration = registration;
          pending = replicate (groups size places) true;
        })) }
    ensures kept { IfOk result
        (λ a. (all : List Place) → length all ≡ places → KeepsEntry size all (Some a)) }
{
    let groups = group_count(size, places);
    let pending = PendingGroups::all(alloc, groups)?;
    Ok(Aggregate {
        registration,
        pending,
        accumulator: empty_accumulator(alloc, spec.fold, groups as u32),
        spec,
    })
}

/// Puts an aggregate under a free number.
pub fn put(
    registry: &mut Vec<Option<Aggregate>>,
    a: u32,
    aggregate: Aggregate,
) -> Result<(), AllocError>
    requires number { a < 32 }
    requires within { a ≤ length registry.old.items }
    requires numbers { length registry.old.items ≤ 32 }
    ensures registered { OnOk result
        (registered_of registry.new.items
        ≡ slice_set (registered_of registry.old.items) a (registered_in (Some aggregate))) }
    ensures kept { (size : ℕ) → (places : List Place) → Keeps size places registry.old.items
        → KeepsEntry size places (Some aggregate)
        → Keeps size places registry.new.items }
    ensures numbers { length registry.new.items ≤ 32 }
    ensures unchanged { OnErr result (registry.new.items ≡ registry.old.items) }
{
    if a as usize == registry.len() {
        registry.push(Some(aggregate))?;
    } else {
        registry[a as usize] = Some(aggregate);
    }
    Ok(())
}

/// Registers an aggregate over `places` places under a free number.
pub fn register(
    alloc: Global,
    registry: &mut Vec<Option<Aggregate>>,
    a: u32,
    spec: Spec,
    registration: u64,
    size: u32,
    places: usize,
) -> Result<(), AllocError>
    requires size { 0 < size }
    requires few { places ≤ 2 ^ 24 }
    requires number { a < 32 }
    requires within { a ≤ length registry.old.items }
    requires numbers { length registry.old.items ≤ 32 }
    ensures registered { OnOk result
        (registered_of registry.new.items
        ≡ slice_set (registered_of registry.old.items) a
        (Some
        (record {
          spec = spec;
          registration = registration;
          pending = replicate (groups size places) true;
        }))) }
    ensures kept { (all : List Place) → length all ≡ places
        → Keeps size all registry.old.items
        → Keeps size all registry.new.items }
    ensures numbers { length registry.new.items ≤ 32 }
    ensures unchanged { OnErr result (registry.new.items ≡ registry.old.items) }
{
    let aggregate = new_aggregate(alloc, spec, registration, size, places)?;
    put(registry, a, aggregate)
}

/// Forgets the aggregate with this number.
pub fn forget(registry: &mut Vec<Option<Aggregate>>, a: u32)
    requires { a < length registry.old.items }
    ensures registered { registered_of registry.new.items
        ≡ slice_set (registered_of registry.old.items) a None }
    ensures kept { (size : ℕ) → (places : List Place) → Keeps size places registry.old.items
        → Keeps size places registry.new.items }
    ensures numbers { length registry.new.items ≡ length registry.old.items }
{
    registry[a as usize] = None;
}
