// Reads aggregates without building a whole answer.
ghost use Rattle.std.specs.Prelude.{◌≡◌, ◌<◌, ◌≤◌, ℕ, List, Some, None, true, false, cond, ◌&&◌, ◌==◌, is_none, length, slice_get, IfSome, IfNone, IfOk, IfErr};
ghost use Rattle.far_types.specs.declared.answer.Answer.TheVariants as answer;
ghost use Rattle.far_types.specs.Answers.{or_zero, lines_by_key};
ghost use Rattle.far_types.specs.MayRefuse.{MayRefuse};
ghost use Rattle.far_types.specs.Table.{Place, left};
ghost use Rattle.far_extrema.specs.Live.{all_groups};
ghost use Rattle.far_aggregates.specs.Accumulators.{KeepsEntry, registered_in, pending_in};
ghost use Rattle.far_aggregates.specs.Lines.{AnswersKey, KeysFit, line_in};
ghost use Rattle.far_aggregates.specs.Readings.{plain_in};
ghost use Rattle.far_aggregates.specs.Scans.{has_pending};
ghost use Rattle.far_aggregates.specs.Aggregates.{flattened, ask_refusal};

use super::aggregate::{Accumulator, Aggregate};
use super::known::KnownExtrema;
use super::line::Line;
use far_groups::LiveTotals;
use far_types::{Key, Refusal};

/// Returns the lowest number of an aggregate in which a row group is pending, and the first row group that is pending in it.
pub fn first_pending(registry: &[Option<Aggregate>]) -> Option<(u32, u32)>
    requires { length registry.now ≤ 32 }
    ensures some { IfSome result
        (λ at. has_pending at.1 (flattened (slice_get registry.now at.0)) ≡ true) }
    ensures none { IfNone result
        ((a : ℕ) → (g : ℕ)
        → has_pending g (flattened (slice_get registry.now a)) ≡ false) }
{
    for i in 0..registry.len() {
        if let Some(aggregate) = &registry[i] {
            if let Some(group) = aggregate.pending.first() {
                return Some((i as u32, group));
            }
        }
    }
    None
}

/// Returns the count and the sum of an aggregate of totals without a key column, if no row group is pending.
pub fn plain(aggregate: &Aggregate) -> Option<(u64, i128)>
    ensures { (size : ℕ) → (places : List Place) → KeepsEntry size places (Some aggregate.now)
        → result ≡ plain_in places (registered_in (Some aggregate.now)) }
{
    match &aggregate.accumulator {
        Accumulator::Totals(live) => {
            if aggregate.spec.key.is_none() && live.left() == 0 {
                Some(live.plain())
            } else {
                None
            }
        }
        Accumulator::Extrema(_) => None,
    }
}

// Returns how many row groups are pending.
fn left_in(accumulator: &Accumulator) -> u32
    ensures { result ≡ pending_in accumulator.now }
{
    match accumulator {
        Accumulator::Totals(live) => live.left(),
        Accumulator::Extrema(live) => live.left(),
    }
}

// Returns the line of a key in totals. Totals without a key column always have a line for no key.
fn total_line(live: &LiveTotals, column: Option<u32>, key: &Option<Key>) -> Option<Line>
    ensures { KeysFit column live.now.totals
        → result
        ≡ line_in (answer.Totals (or_zero column (lines_by_key live.now.totals))) key.now }
{
    match live.get(key) {
        Some(found) => Some(Line::of_totals(found)),
        None => {
            if column.is_none() && key.is_none() {
                Some(Line::Totals { count: 0, sum: 0 })
            } else {
                None
            }
        }
    }
}

// Returns the line of a key in extrema.
fn extrema_line(live: &KnownExtrema, key: &Option<Key>) -> Option<Line>
    ensures { result
        ≡ line_in (answer.Extrema (lines_by_key (all_groups live.now.groups))) key.now }
{
    match live.get(key) {
        Some(found) => Some(Line::of_extrema(found)),
        None => None,
    }
}

/// Returns the line of a key in the answer of an aggregate over the rows for which it is up to date, or `None` if the answer has
/// no such line. Allocates nothing.
///
/// Refused with `Building` (15) exactly if row groups are pending. The refusal says how many.
pub fn line(aggregate: &Aggregate, key: &Option<Key>) -> Result<Option<Line>, Refusal>
    ensures ok { IfOk result
        (λ line. (size : ℕ) → (places : List Place) → 0 < size
        → KeepsEntry size places (Some aggregate.now)
        → AnswersKey places (registered_in (Some aggregate.now)) key.now line) }
    ensures err { IfErr result
        (λ e. (size : ℕ) → (places : List Place)
        → KeepsEntry size places (Some aggregate.now)
        → MayRefuse (ask_refusal (registered_in (Some aggregate.now))) false e) }
{
    let left = left_in(&aggregate.accumulator);
    if left != 0 {
        return Err(Refusal::Building(left));
    }
    match &aggregate.accumulator {
        Accumulator::Totals(live) => Ok(total_line(live, aggregate.spec.key, key)),
        Accumulator::Extrema(live) => Ok(extrema_line(live, key)),
    }
}
