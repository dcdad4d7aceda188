// Applies changes to the aggregates, and undoes them if a later change is refused.
ghost use Rattle.std.specs.Prelude.{◌≡◌, ◌/◌, ◌^◌, ◌<◌, ◌≤◌, ◌∷◌, ◌++◌, [], Some, OnOk, OnErr, IfOk, length, map, vec_len, vec_capacity};
ghost use Rattle.far_types.specs.declared.key.Key.TheVariants as variants;
ghost use Rattle.far_types.specs.Lent.{key_by};
ghost use Rattle.far_aggregates.specs.Pairs.{Folds, EachFolds, row_gives};
ghost use Rattle.far_aggregates.specs.Deltas.{previous_in, row_delta, delta_in, accumulator_more, with_delta, undo, AccumulatorMayAdd, MayUndo, EachMayUndo};
ghost use Rattle.far_aggregates.specs.Reserve.{IsReserved, AreReserved};
ghost use Rattle.far_aggregates.specs.Until.{zip_until, zip_all};

use super::aggregate::{Accumulator, Aggregate};
use super::pairs::give;
use super::spare_keys::SpareKeys;
use far_extrema::MinMax;
use far_groups::Pair;
use far_types::{Key, LendCells, PairRef, number_key};
use std::alloc::AllocError;

/// A change to one aggregate: a pair that is added. For extrema it also holds the key's previous least and greatest value in
/// the row group, so that the change can be undone.
#[derive(Drop)]
pub struct Delta {
    pub pair: Pair,
    pub previous: Option<MinMax>,
}

/// Undoes a delta.
fn undo_one(entry: &mut Option<Aggregate>, group: u32, delta: &Option<Delta>)
    requires { MayUndo group entry.old delta.now }
    ensures { entry.new ≡ undo group entry.old delta.now }
{
    if let Some(aggregate) = entry {
        if let Some(delta) = delta {
            match &mut aggregate.accumulator {
                Accumulator::Totals(live) => live.take(&delta.pair.0, delta.pair.1),
                Accumulator::Extrema(live) => live.put_min_max(
                    group,
                    &delta.pair.0,
                    &delta.previous,
                ),
            }
        }
    }
}

/// Undoes the deltas of the first n aggregates.
fn undo_first(registry: &mut [Option<Aggregate>], group: u32, deltas: &[Option<Delta>], n: usize)
    requires registry { n ≤ length registry.old }
    requires deltas { n ≤ length deltas.now }
    requires may { EachMayUndo group n registry.old deltas.now }
    ensures { registry.new ≡ zip_until (undo group) n registry.old deltas.now }
{
    for i in 0..n {
        undo_one(&mut registry[i], group, &deltas[i]);
    }
}

/// Adds a pair to an accumulator. For extrema it returns the key's previous least and greatest value in the row group, which the
/// look-up for the pair finds.
#[inline(always)]
fn add_to(
    accumulator: &mut Accumulator,
    group: u32,
    key: &Option<Key>,
    value: i64,
) -> Result<Option<MinMax>, AllocError>
    requires { AccumulatorMayAdd group accumulator.old (key.now, value) }
    ensures previous { IfOk result
        (λ previous. previous ≡ previous_in group key.now accumulator.old) }
    ensures ok { OnOk result
        (accumulator.new ≡ accumulator_more group accumulator.old (key.now, value)) }
    ensures err { OnErr result (accumulator.new ≡ accumulator.old) }
{
    match accumulator {
        Accumulator::Totals(live) => {
            live.add_under(key, value)?;
            Ok(None)
        }
        Accumulator::Extrema(live) => live.observe_under(group, key, value),
    }
}

/// Adds a value to an aggregate, under a number or under no key. Appends the delta to the list, which has capacity for it. The
/// delta is built in place: passing a pair through memory costs more than adding it.
#[inline(always)]
fn apply_under(
    deltas: &mut Vec<Option<Delta>>,
    entry: &mut Option<Aggregate>,
    group: u32,
    number: Option<i64>,
    value: i64,
) -> Result<(), AllocError>
    requires folds { Folds entry.old }
    requires reserved { IsReserved group entry.old }
    requires place { vec_len deltas.old < vec_capacity deltas.old }
    ensures ok { OnOk result
        (entry.new
        ≡ with_delta group entry.old (delta_in group entry.old (key_by number, value))) }
    ensures deltas { OnOk result
        (deltas.new.items
        ≡ deltas.old.items ++ delta_in group entry.old (key_by number, value) ∷ []) }
    ensures capacity { vec_capacity deltas.new ≡ vec_capacity deltas.old }
    ensures err { OnErr result (entry.new ≡ entry.old) }
    ensures before { OnErr result (deltas.new.items ≡ deltas.old.items) }
{
    match entry {
        None => {
            deltas.push_reserved(None);
            Ok(())
        }
        Some(aggregate) => {
            let previous = add_to(
                &mut aggregate.accumulator,
                group,
                &number_key(number),
                value,
            )?;
            let pair = (number_key(number), value);
            deltas.push_reserved(Some(Delta { pair, previous }));
            Ok(())
        }
    }
}

/// Adds a value to an aggregate under a text, like `apply_under`. The text is written into the string of a spare key.
#[inline(never)]
fn apply_under_text(
    keys: &mut SpareKeys,
    deltas: &mut Vec<Option<Delta>>,
    entry: &mut Option<Aggregate>,
    group: u32,
    text: &str,
    value: i64,
) -> Result<(), AllocError>
    requires folds { Folds entry.old }
    requires reserved { IsReserved group entry.old }
    requires place { vec_len deltas.old < vec_capacity deltas.old }
    ensures ok { OnOk result
        (entry.new
        ≡ with_delta group entry.old
        (delta_in group entry.old (Some (variants.Text text.now), value))) }
    ensures deltas { OnOk result
        (deltas.new.items
        ≡ deltas.old.items
        ++ delta_in group entry.old (Some (variants.Text text.now), value) ∷ []) }
    ensures capacity { vec_capacity deltas.new ≡ vec_capacity deltas.old }
    ensures err { OnErr result (entry.new ≡ entry.old) }
    ensures before { OnErr result (deltas.new.items ≡ deltas.old.items) }
{
    match entry {
        None => {
            deltas.push_reserved(None);
            Ok(())
        }
        Some(aggregate) => {
            let key = keys.key_of(text)?;
            let previous = add_to(&mut aggregate.accumulator, group, &key, value)?;
            let pair = (key, value);
            deltas.push_reserved(Some(Delta { pair, previous }));
            Ok(())
        }
    }
}

/// Applies the delta of a row that is alive at a place to an aggregate. Appends it to the list, which has capacity for it.
#[inline(always)]
fn apply_next<R: LendCells>(
    keys: &mut SpareKeys,
    deltas: &mut Vec<Option<Delta>>,
    entry: &mut Option<Aggregate>,
    row: &R,
    size: u32,
    place: usize,
    group: u32,
) -> Result<(), AllocError>
    requires size { 0 < size }
    requires few { place ≤ 2 ^ 24 }
    requires group { group ≡ place / size }
    requires folds { Folds entry.old }
    requires reserved { IsReserved (place / size) entry.old }
    requires place { vec_len deltas.old < vec_capacity deltas.old }
    ensures ok { OnOk result
        (entry.new
        ≡ with_delta (place / size) entry.old
        (row_delta size place (row_gives (R.cells row.now)) entry.old)) }
    ensures deltas { OnOk result
        (deltas.new.items
        ≡ deltas.old.items
        ++ row_delta size place (row_gives (R.cells row.now)) entry.old ∷ []) }
    ensures capacity { vec_capacity deltas.new ≡ vec_capacity deltas.old }
    ensures err { OnErr result (entry.new ≡ entry.old) }
    ensures before { OnErr result (deltas.new.items ≡ deltas.old.items) }
{
    match give(entry, row, size, place, group) {
        PairRef::Nothing => {
            deltas.push_reserved(None);
            Ok(())
        }
        // Most aggregates have no key column. For them the call is compiled separately, without a test of the key.
        PairRef::Under {
            number: None,
            value,
        } => apply_under(deltas, entry, group, None, value),
        PairRef::Under { number, value } => apply_under(deltas, entry, group, number, value),
        PairRef::UnderText { text, value } => {
            apply_under_text(keys, deltas, entry, group, text, value)
        }
    }
}

/// Applies the deltas of a row that is alive at a place to all aggregates, or to none if an allocation fails. Returns the deltas
/// in `list`, which an earlier edit may have allocated. `undo_all` undoes them.
#[inline(always)]
pub fn apply_deltas<R: LendCells>(
    keys: &mut SpareKeys,
    list: Vec<Option<Delta>>,
    registry: &mut [Option<Aggregate>],
    row: &R,
    size: u32,
    place: usize,
    group: u32,
) -> Result<Vec<Option<Delta>>, AllocError>
    requires size { 0 < size }
    requires few { place ≤ 2 ^ 24 }
    requires group { group ≡ place / size }
    requires folds { EachFolds registry.old }
    requires reserved { AreReserved (place / size) registry.old }
    ensures ok { OnOk result
        (registry.new
        ≡ zip_all (with_delta (place / size)) registry.old
        (map (row_delta size place (row_gives (R.cells row.now))) registry.old)) }
    ensures deltas { IfOk result
        (λ deltas. deltas.items
        ≡ map (row_delta size place (row_gives (R.cells row.now))) registry.old) }
    ensures len { IfOk result (λ deltas. length deltas.items ≡ length registry.new) }
    ensures may_undo { IfOk result
        (λ deltas. EachMayUndo (place / size) (length registry.new) registry.new deltas.items) }
    ensures undo { IfOk result
        (λ deltas. zip_all (undo (place / size)) registry.new deltas.items ≡ registry.old) }
    ensures err { OnErr result (registry.new ≡ registry.old) }
{
    let mut deltas = list;
    deltas.clear();
    deltas.reserve(registry.len())?;
    for i in 0..registry.len() {
        match apply_next(keys, &mut deltas, &mut registry[i], row, size, place, group) {
            Ok(()) => {}
            Err(no_memory) => {
                undo_first(registry, group, deltas.as_slice(), i);
                return Err(no_memory);
            }
        }
    }
    Ok(deltas)
}

/// Undoes all deltas. Allocates nothing.
pub fn undo_all(registry: &mut [Option<Aggregate>], group: u32, deltas: &[Option<Delta>])
    requires len { length deltas.now ≤ length registry.old }
    requires may { EachMayUndo group (length registry.old) registry.old deltas.now }
    ensures { registry.new ≡ zip_all (undo group) registry.old deltas.now }
{
    undo_first(registry, group, deltas, deltas.len());
}
