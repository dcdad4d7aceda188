// Retracts pairs from the aggregates. Nothing here allocates.
ghost use Rattle.std.specs.Prelude.{◌≡◌, ◌≤◌, ◌<◌, [], Some, false, length, map, slice_get, slice_set};
ghost use Rattle.std.specs.FinMap as fin;
ghost use Rattle.far_types.specs.Answers.{extrema};
ghost use Rattle.far_types.specs.Effects.{min_max_with};
ghost use Rattle.far_extrema.specs.Live.{group_at};
ghost use Rattle.far_extrema.specs.MinMaxes.{put_min_max};
ghost use Rattle.far_aggregates.specs.Accumulators.{pairs_here, registered_in};
ghost use Rattle.far_aggregates.specs.Lending.{IsServed, EntryIsServed, AreServed};
ghost use Rattle.far_aggregates.specs.Retract.{after_retract, MayRetract, EachMayRetract, IsPlain, EachIsPlain};
ghost use Rattle.far_aggregates.specs.Until.{zip_all};

use super::aggregate::{Accumulator, Aggregate};
use super::known::KnownExtrema;
use super::lend_group::LendGroup;
use super::needed::{has_no_test, needed_columns, untested_columns};
use far_extrema::{MinMax, RowsLeft};
use far_groups::Pair;
use far_offload::min_max_under;
use far_types::{Key, Spec};

/// Returns the least and the greatest value of a key's rows in a row group, if there is one. Many aggregates have no tests: for
/// them no test columns are lent.
#[inline(always)]
fn min_max_left<G: LendGroup>(spec: &Spec, group: &G, key: &Option<Key>) -> Option<MinMax>
    requires { IsServed (G.has group.now) spec.now }
    ensures { result ≡ fin.get (extrema (pairs_here spec.now (G.places group.now))) key.now }
{
    if has_no_test(spec) {
        return min_max_under(spec, &untested_columns(spec, group), group.alive(), key);
    }
    min_max_under(spec, &needed_columns(spec, group), group.alive(), key)
}

/// The rows of a row group that remain under the key of a retracted pair, as an aggregate folds them.
#[derive(Drop)]
struct Left<'a, G> {
    spec: &'a Spec,
    group: &'a G,
    key: &'a Option<Key>,
}

impl<'a, G: LendGroup> RowsLeft for Left<'a, G> {
    ghost at_hand = { λ left. IsServed (G.has left.group.now) left.spec.now };

    ghost extremes = { λ left. fin.get
        (extrema (pairs_here left.spec.now (G.places left.group.now))) left.key.now };

    /// Reads the remaining rows. It is not inlined, so that its callers reserve no stack space for columns that are rarely read.
    #[inline(never)]
    fn min_max(&self) -> Option<MinMax> {
        min_max_left(self.spec, self.group, self.key)
    }
}

/// Retracts a pair from the extrema of a row group. Reads the remaining rows only if the pair's value was the least or the
/// greatest under its key.
fn shrink<G: LendGroup>(live: &mut KnownExtrema, spec: &Spec, group: &G, number: u32, pair: &Pair)
    requires served { IsServed (G.has group.now) spec.now }
    requires observed { fin.get (group_at live.old.groups number) pair.now.0
        ≡ Some
        (min_max_with pair.now.1
        (fin.get (extrema (pairs_here spec.now (G.places group.now))) pair.now.0)) }
    ensures { live.new
        ≡ record live.old {
          groups = slice_set live.old.groups number
              (put_min_max (group_at live.old.groups number) pair.now.0
              (fin.get (extrema (pairs_here spec.now (G.places group.now))) pair.now.0));
        } }
{
    let left = Left {
        spec,
        group,
        key: &pair.0,
    };
    live.shrink(number, &pair.0, pair.1, &left);
}

/// Retracts a pair, if there is one.
fn retract_one<G: LendGroup>(
    entry: &mut Option<Aggregate>,
    group: &G,
    number: u32,
    to_retract: &Option<Pair>,
)
    requires served { EntryIsServed (G.has group.now) (registered_in entry.old) }
    requires may { MayRetract number (G.places group.now) entry.old to_retract.now }
    ensures { entry.new ≡ after_retract number (G.places group.now) entry.old to_retract.now }
{
    if let Some(aggregate) = entry {
        if let Some(pair) = to_retract {
            match &mut aggregate.accumulator {
                Accumulator::Totals(live) => live.take(&pair.0, pair.1),
                Accumulator::Extrema(live) => shrink(live, &aggregate.spec, group, number, pair),
            }
        }
    }
}

/// Retracts the pairs that a place of a row group contributed before its row changed.
pub fn retract_all<G: LendGroup>(
    registry: &mut [Option<Aggregate>],
    group: &G,
    number: u32,
    to_retract: &[Option<Pair>],
)
    requires served { AreServed (G.has group.now) (map registered_in registry.old) }
    requires len { length to_retract.now ≤ length registry.old }
    requires may { EachMayRetract number (G.places group.now) registry.old to_retract.now }
    ensures { registry.new
        ≡ zip_all (after_retract number (G.places group.now)) registry.old to_retract.now }
{
    for i in 0..to_retract.len() {
        retract_one(&mut registry[i], group, number, &to_retract[i]);
    }
}

/// Returns whether there is a pair to retract from extrema, so that rows may have to be read.
fn needs_rows_at(entry: &Option<Aggregate>, to_retract: &Option<Pair>) -> bool
    ensures { result ≡ false → IsPlain entry.now to_retract.now }
{
    if let Some(aggregate) = entry {
        if let Some(_) = to_retract {
            if let Accumulator::Extrema(_) = &aggregate.accumulator {
                return true;
            }
        }
    }
    false
}

/// Returns whether there is a pair to retract from the extrema of some aggregate.
pub fn needs_rows(registry: &[Option<Aggregate>], to_retract: &[Option<Pair>]) -> bool
    ensures { result ≡ false → EachIsPlain registry.now to_retract.now }
{
    let n = registry.len().min(to_retract.len());
    for i in 0..n {
        if needs_rows_at(&registry[i], &to_retract[i]) {
            return true;
        }
    }
    false
}

/// Retracts a pair from totals, if there is one.
fn retract_plain(entry: &mut Option<Aggregate>, to_retract: &Option<Pair>)
    requires plain { IsPlain entry.old to_retract.now }
    requires may { MayRetract 0 [] entry.old to_retract.now }
    ensures { entry.new ≡ after_retract 0 [] entry.old to_retract.now }
{
    if let Some(aggregate) = entry {
        if let Some(pair) = to_retract {
            if let Accumulator::Totals(live) = &mut aggregate.accumulator {
                live.take(&pair.0, pair.1);
            }
        }
    }
}

/// Retracts the pairs that a place contributed before its row changed, all of them from totals.
pub fn retract_totals(registry: &mut [Option<Aggregate>], pairs: &[Option<Pair>])
    requires len { length pairs.now ≤ length registry.old }
    requires plain { EachIsPlain registry.old pairs.now }
    requires may { EachMayRetract 0 [] registry.old pairs.now }
    ensures { registry.new ≡ zip_all (after_retract 0 []) registry.old pairs.now }
{
    for i in 0..pairs.len() {
        retract_plain(&mut registry[i], &pairs[i]);
    }
}
