// The least and the greatest value of one key.
ghost use Rattle.std.specs.Prelude.{◌≡◌, ◌↔◌, [], None, Some, IsTrue, IfSome, FitsSigned, map, option_map, slice_index_or};
ghost use Rattle.std.specs.Int.{w64};
ghost use Rattle.std.specs.FinMap as fin;
ghost use Rattle.std.specs.Option.{option_copied, option_and_then};
ghost use Rattle.far_types.specs.declared.cell.Cell.TheVariants as cell;
ghost use Rattle.far_types.specs.declared.cell.Cell.TheVariants.{Missing};
ghost use Rattle.far_types.specs.declared.key.Key.TheVariants as key_of;
ghost use Rattle.far_types.specs.Cells.{key_in, number_in};
ghost use Rattle.far_types.specs.Lent.{int_cell};
ghost use Rattle.far_types.specs.Pairs.{key_under};
ghost use Rattle.far_types.specs.Answers.{extrema};
ghost use Rattle.far_offload.specs.Columns.{column_of, cell_of, cells_at, AreKeys, AreValues};
ghost use Rattle.far_offload.specs.Partials.{pairs_over, value_at, MinMaxFits};

use crate::column::{Column, find};
use crate::filtering::{value_at, value_beyond};
use crate::plain::widened;
use far_codec::LentInts;
use far_extrema::MinMax;
use far_types::{Key, Spec};

/// Returns the key column, if there is one and it is available.
fn key_column<'a, 'b>(columns: &'a [Column<'b>], key: Option<u32>) -> Option<&'a Column<'b>>
    ensures { option_copied result ≡ option_and_then (column_of columns.now) key }
{
    find(columns, key?)
}

/// Returns whether a column has this key at a place.
#[inline(always)]
fn gives(column: Option<&Column<'_>>, place: usize, key: &Key) -> bool
    ensures { IsTrue result
        ↔ (key_in (option_map (cell_of place) (option_copied column.entry)) ≡ Some key.now) }
{
    match column {
        Some(column) => column.cell(place).is_key(key),
        None => false,
    }
}

/// Returns whether a place has this key. The caller looks up the key column once for all places.
#[inline(always)]
fn stands_under(
    spec: &Spec,
    columns: &[Column<'_>],
    keys: Option<&Column<'_>>,
    place: usize,
    key: &Option<Key>,
) -> bool
    requires { option_copied keys ≡ option_and_then (column_of columns.now) spec.now.key }
    ensures { IsTrue result
        ↔ (key_under spec.now.key (cells_at columns.now place) ≡ Some key.now) }
{
    match (spec.key, key) {
        (None, None) => true,
        (Some(_), Some(key)) => gives(keys, place, key),
        _ => false,
    }
}

/// The numbers of a key column, in any form that is read by place.
trait NumberKeys {
    ghost use Rattle.std.specs.Prelude.{ℤ, List, Option};

    /// The numbers, in the order of the places.
    ghost numbers: { Self → List (Option ℤ) };

    /// Returns whether this number is at a place.
    fn is_at(&self, place: usize, number: &i64) -> bool
        ensures { IsTrue result
            ↔ (slice_index_or (map int_cell (numbers self.now)) place Missing
            ≡ cell.Int number.now) };
}

impl<'a> NumberKeys for LentInts<'a> {
    ghost numbers = { λ keys. keys };

    #[inline(always)]
    fn is_at(&self, place: usize, number: &i64) -> bool {
        match self.get(place) {
            Some(found) => found == *number,
            None => false,
        }
    }
}

impl<'a> NumberKeys for &'a [Option<i64>] {
    ghost numbers = { λ keys. keys.now };

    #[inline(always)]
    fn is_at(&self, place: usize, number: &i64) -> bool {
        match self.get(place) {
            Some(Some(found)) => found == number,
            _ => false,
        }
    }
}

/// Computes `min_max_under` for a key that is a number and a key column of numbers. The form of the column is tested once for
/// all places.
fn min_max_under_number<N: NumberKeys>(
    spec: &Spec,
    columns: &[Column<'_>],
    alive: &[bool],
    keys: &N,
    number: &i64,
) -> Option<MinMax>
    requires { AreKeys columns.now spec.now.key (N.numbers keys.now) }
    ensures min_max { result
        ≡ fin.get (extrema (pairs_over spec.now columns.now alive.now))
        (Some (key_of.Int number.now)) }
    ensures fits { MinMaxFits result }
{
    let values = find(columns, spec.value);
    let mut min_max = None;
    for place in 0..alive.len() {
        if keys.is_at(place, number) {
            if let Some(value) = value_at(spec, columns, values, place, alive[place]) {
                min_max = Some(widened(min_max, value));
            }
        }
    }
    min_max
}

/// Computes `min_max_under` for any key.
fn min_max_under_key(
    spec: &Spec,
    columns: &[Column<'_>],
    alive: &[bool],
    key: &Option<Key>,
) -> Option<MinMax>
    ensures min_max { result
        ≡ fin.get (extrema (pairs_over spec.now columns.now alive.now)) key.now }
    ensures fits { MinMaxFits result }
{
    let values = find(columns, spec.value);
    let keys = key_column(columns, spec.key);
    let mut min_max = None;
    for place in 0..alive.len() {
        if stands_under(spec, columns, keys, place, key) {
            if let Some(value) = value_beyond(
                spec,
                columns,
                values,
                place,
                alive[place],
                &min_max,
            ) {
                min_max = Some(widened(min_max, value));
            }
        }
    }
    min_max
}

/// Returns the values as a list, if they are stored as one and the aggregate has no filter.
fn untested_numbers<'a>(spec: &Spec, columns: &[Column<'a>]) -> Option<&'a [Option<i64>]>
    ensures values { IfSome result (λ numbers. AreValues columns.now spec.now.value numbers.now) }
    ensures untested { IfSome result (λ numbers. spec.now.filter ≡ []) }
{
    if !spec.filter.as_slice().is_empty() {
        return None;
    }
    find(columns, spec.value)?.numbers()
}

/// Returns the number in a list at a place, if there is one.
#[inline(always)]
fn number_at(numbers: &[Option<i64>], place: usize) -> Option<i64>
    ensures number { result
        ≡ number_in (Some (slice_index_or (map int_cell numbers.now) place Missing)) }
    ensures fits { IfSome result (FitsSigned w64) }
{
    match numbers.get(place) {
        Some(Some(number)) => Some(*number),
        _ => None,
    }
}

/// Returns the value at a place, if the place is alive and has one. The aggregate has no filter.
#[inline(always)]
fn untested_value(
    spec: &Spec,
    columns: &[Column<'_>],
    numbers: &[Option<i64>],
    place: usize,
    alive: bool,
) -> Option<i64>
    requires values { AreValues columns.now spec.now.value numbers.now }
    requires untested { spec.now.filter ≡ [] }
    ensures value { result ≡ value_at spec.now columns.now (place, alive) }
    ensures fits { IfSome result (FitsSigned w64) }
{
    if alive {
        number_at(numbers, place)
    } else {
        None
    }
}

/// Computes `min_max_under` without a key, for values in a list and an aggregate without a filter. The form of the column is
/// tested once for all places.
fn min_max_untested(
    spec: &Spec,
    columns: &[Column<'_>],
    alive: &[bool],
    numbers: &[Option<i64>],
) -> Option<MinMax>
    requires values { AreValues columns.now spec.now.value numbers.now }
    requires untested { spec.now.filter ≡ [] }
    requires plain { spec.now.key ≡ None }
    ensures min_max { result
        ≡ fin.get (extrema (pairs_over spec.now columns.now alive.now)) None }
    ensures fits { MinMaxFits result }
{
    let mut min_max = None;
    for place in 0..alive.len() {
        if let Some(value) = untested_value(spec, columns, numbers, place, alive[place]) {
            min_max = Some(widened(min_max, value));
        }
    }
    min_max
}

/// Returns the least and the greatest value of the live places with this key, or `None` if there is no value. The extrema of
/// `fold` have the same pair under this key. Allocates nothing.
pub fn min_max_under(
    spec: &Spec,
    columns: &[Column<'_>],
    alive: &[bool],
    key: &Option<Key>,
) -> Option<MinMax>
    ensures min_max { result
        ≡ fin.get (extrema (pairs_over spec.now columns.now alive.now)) key.now }
    ensures fits { MinMaxFits result }
{
    if let (Some(column), Some(Key::Int(number))) = (key_column(columns, spec.key), key) {
        if let Some(numbers) = column.numbers() {
            // There is a number for each place, so the loop need not test for the end of the list.
            if numbers.len() >= alive.len() {
                return min_max_under_number(spec, columns, alive, &numbers, number);
            }
        }
        if let Some(ints) = column.ints() {
            return min_max_under_number(spec, columns, alive, ints, number);
        }
    }
    if let (None, None) = (spec.key, key) {
        if let Some(numbers) = untested_numbers(spec, columns) {
            return min_max_untested(spec, columns, alive, numbers);
        }
    }
    min_max_under_key(spec, columns, alive, key)
}
