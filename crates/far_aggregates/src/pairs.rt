// The pairs that a row contributes to the aggregates.
ghost use Rattle.std.specs.Prelude.{◌≡◌, ◌<◌, ◌/◌, ◌++◌, ◌∷◌, [], IfOk, OnOk, map, vec_len, vec_capacity};
ghost use Rattle.far_types.specs.Lent.{lent_pair};
ghost use Rattle.far_aggregates.specs.Pairs.{change_of, row_gives};
ghost use Rattle.far_aggregates.specs.Replacing.{value_of};

use super::aggregate::Aggregate;
use super::spare_keys::SpareKeys;
use far_groups::Pair;
use far_types::{LendCells, PairRef, number_key};
use std::alloc::AllocError;

/// Returns the pair that a row that is alive at a place contributes to an aggregate, unless its row group is pending.
#[inline(always)]
pub fn give<'a, R: LendCells>(
    entry: &Option<Aggregate>,
    row: &'a R,
    size: u32,
    place: usize,
    group: u32,
) -> PairRef<'a>
    requires size { 0 < size }
    requires group { group ≡ place / size }
    ensures { lent_pair result ≡ change_of size place (row_gives (R.cells row.now)) entry.now }
{
    match entry {
        None => PairRef::Nothing,
        Some(aggregate) if aggregate.pending.has(group as usize) => PairRef::Nothing,
        Some(aggregate) => aggregate.spec.lend_pair(row),
    }
}

/// Returns the pair like `give` for an aggregate whose values are in a column, and nothing for any other aggregate.
#[inline(always)]
fn give_value<'a, R: LendCells>(
    entry: &Option<Aggregate>,
    column: u32,
    row: &'a R,
    size: u32,
    place: usize,
    group: u32,
) -> PairRef<'a>
    requires size { 0 < size }
    requires group { group ≡ place / size }
    ensures { lent_pair result
        ≡ value_of column size place (row_gives (R.cells row.now)) entry.now }
{
    match entry {
        Some(aggregate) if aggregate.spec.value == column => {
            give(entry, row, size, place, group)
        }
        _ => PairRef::Nothing,
    }
}

/// Appends a pair, or none, to the list, which has capacity for it. A text is written into the string of a spare key.
#[inline(always)]
fn push_pair(
    keys: &mut SpareKeys,
    pairs: &mut Vec<Option<Pair>>,
    pair: PairRef<'_>,
) -> Result<(), AllocError>
    requires place { vec_len pairs.old < vec_capacity pairs.old }
    ensures capacity { vec_capacity pairs.new ≡ vec_capacity pairs.old }
    ensures ok { OnOk result (pairs.new.items ≡ pairs.old.items ++ lent_pair pair.entry ∷ []) }
{
    match pair {
        PairRef::Nothing => pairs.push_reserved(None),
        PairRef::Under { number, value } => {
            let pair = (number_key(number), value);
            pairs.push_reserved(Some(pair));
        }
        PairRef::UnderText { text, value } => {
            let pair = (keys.key_of(text)?, value);
            pairs.push_reserved(Some(pair));
        }
    }
    Ok(())
}

/// Returns the pairs that a row that is alive at a place contributes to the aggregates. They are in `list`, which an earlier edit
/// may have allocated. Texts are written into the strings of spare keys.
#[inline(always)]
pub fn row_pairs<R: LendCells>(
    keys: &mut SpareKeys,
    list: Vec<Option<Pair>>,
    registry: &[Option<Aggregate>],
    row: &R,
    size: u32,
    place: usize,
    group: u32,
) -> Result<Vec<Option<Pair>>, AllocError>
    requires size { 0 < size }
    requires group { group ≡ place / size }
    ensures ok { IfOk result
        (λ pairs. pairs.items
        ≡ map (change_of size place (row_gives (R.cells row.now))) registry.now) }
{
    let mut pairs = list;
    pairs.clear();
    pairs.reserve(registry.len())?;
    for entry in registry {
        push_pair(keys, &mut pairs, give(entry, row, size, place, group))?;
    }
    Ok(pairs)
}

/// Returns pairs like `row_pairs`, but only for the aggregates whose values are in a column. The list has `None` for each other
/// aggregate.
#[inline(always)]
pub fn value_pairs<R: LendCells>(
    keys: &mut SpareKeys,
    list: Vec<Option<Pair>>,
    registry: &[Option<Aggregate>],
    column: u32,
    row: &R,
    size: u32,
    place: usize,
    group: u32,
) -> Result<Vec<Option<Pair>>, AllocError>
    requires size { 0 < size }
    requires group { group ≡ place / size }
    ensures ok { IfOk result
        (λ pairs. pairs.items
        ≡ map (value_of column size place (row_gives (R.cells row.now))) registry.now) }
{
    let mut pairs = list;
    pairs.clear();
    pairs.reserve(registry.len())?;
    for entry in registry {
        let pair = give_value(entry, column, row, size, place, group);
        push_pair(keys, &mut pairs, pair)?;
    }
    Ok(pairs)
}
