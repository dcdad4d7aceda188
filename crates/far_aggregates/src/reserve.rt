// Reserves the row group of an edit in extrema.
ghost use Rattle.std.specs.Prelude.{◌≡◌, ℕ, List, map};
ghost use Rattle.far_types.specs.Table.{Place};
ghost use Rattle.far_aggregates.specs.Accumulators.{Keeps, registered_in};
ghost use Rattle.far_aggregates.specs.Reserve.{AreReserved, entry_after_reserve};

use super::aggregate::{Accumulator, Aggregate};

/// Reserves a row group, if the aggregate computes extrema.
fn reserve_one(entry: &mut Option<Aggregate>, group: u32)
    ensures { entry.new ≡ entry_after_reserve group entry.old }
{
    if let Some(aggregate) = entry {
        if let Accumulator::Extrema(live) = &mut aggregate.accumulator {
            live.reserve(group);
        }
    }
}

/// Reserves a row group in the extrema of each aggregate. Changes no answer. Allocates nothing.
pub fn reserve_all(registry: &mut [Option<Aggregate>], group: u32)
    ensures reserved { AreReserved group registry.new }
    ensures registered { map registered_in registry.new ≡ map registered_in registry.old }
    ensures kept { (size : ℕ) → (places : List Place) → Keeps size places registry.old
        → Keeps size places registry.new }
{
    for i in 0..registry.len() {
        reserve_one(&mut registry[i], group);
    }
}
