// The answer of an aggregate.
ghost use Rattle.std.specs.Prelude.{◌≡◌, ◌≢◌, ◌<◌, ℕ, List, Some, true, Err, OnOk, IfOk, IfErr};
ghost use Rattle.far_types.specs.Answers.{lines_by_key, answer_over};
ghost use Rattle.far_types.specs.MayRefuse.{MayRefuse};
ghost use Rattle.far_types.specs.Table.{Place, left, rows_of};
ghost use Rattle.far_aggregates.specs.Accumulators.{KeepsEntry, registered_in};
ghost use Rattle.far_aggregates.specs.Aggregates.{ask_refusal};

use super::aggregate::{Accumulator, Aggregate};
use far_groups::LiveTotals;
use far_types::{Answer, Refusal, TotalLines};
use std::alloc::Global;

/// Returns the lines of live totals.
fn lines_of(alloc: Global, live: &LiveTotals) -> Result<TotalLines, Refusal>
    ensures ok { IfOk result (λ lines. lines ≡ lines_by_key live.now.totals) }
    ensures all_scanned { OnOk result (live.now.left ≡ 0) }
    ensures building { live.now.left ≢ 0 → result ≡ Err (Refusal.Building live.now.left) }
    ensures memory { live.now.left ≡ 0 → IfErr result (λ e. e ≡ Refusal.NoMemory) }
{
    match live.answer(alloc) {
        Ok(Answer::Totals(lines)) => Ok(lines),
        Ok(Answer::Extrema(_)) => unreachable!(),
        Err(refusal) => Err(refusal),
    }
}

/// Returns the answer of an aggregate over the rows for which it is up to date.
///
/// Refused with the first of these that applies:
///
/// - `Building` (15): row groups are pending. The refusal says how many.
/// - `NoMemory` (1): an allocation fails.
pub fn answer(alloc: Global, aggregate: &Aggregate) -> Result<Answer, Refusal>
    ensures ok { IfOk result
        (λ answer. (size : ℕ) → (places : List Place) → 0 < size
        → KeepsEntry size places (Some aggregate.now)
        → (left aggregate.now.pending ≡ 0)
        × (answer ≡ answer_over aggregate.now.spec (rows_of places))) }
    ensures err { IfErr result
        (λ e. (size : ℕ) → (places : List Place)
        → KeepsEntry size places (Some aggregate.now)
        → MayRefuse (ask_refusal (registered_in (Some aggregate.now))) true e) }
{
    match &aggregate.accumulator {
        Accumulator::Totals(live) => {
            let lines = lines_of(alloc, live)?.or_zero(aggregate.spec.key)?;
            Ok(Answer::Totals(lines))
        }
        Accumulator::Extrema(live) => Ok(live.answer(alloc)?),
    }
}
