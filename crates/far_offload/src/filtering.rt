// Tests which places pass a filter, and reads their values.
ghost use Rattle.std.specs.Prelude.{◌≡◌, Some, None, IsTrue, IfSome, IfNone, FitsSigned, option_map, cond};
ghost use Rattle.std.specs.Int.{w64};
ghost use Rattle.std.specs.Option.{option_copied};
ghost use Rattle.far_types.specs.Cells.{number_in};
ghost use Rattle.far_offload.specs.Columns.{column_of, cell_of};
ghost use Rattle.far_offload.specs.Partials.{value_at, IsWithin};

use crate::column::{Column, find};
use far_extrema::MinMax;
use far_types::{CellRef, LendCells, Spec};

/// A place in the available columns, which lends the cells of the place by column number.
#[derive(Clone, Copy)]
struct PlaceCells<'a, 'b> {
    columns: &'a [Column<'b>],
    place: usize,
}

impl<'a, 'b> LendCells for PlaceCells<'a, 'b> {
    ghost use Rattle.far_offload.specs.Columns.{cells_at};

    ghost cells = { λ at. cells_at at.columns.now at.place };

    #[inline(always)]
    fn cell(&self, column: u32) -> Option<CellRef<'_>> {
        match find(self.columns, column) {
            Some(column) => Some(column.cell(self.place)),
            None => None,
        }
    }
}

/// Returns a column's number at a place, if there is one.
#[inline(always)]
fn number_in(column: Option<&Column<'_>>, place: usize) -> Option<i64>
    ensures number { result
        ≡ number_in (option_map (cell_of place) (option_copied column.entry)) }
    ensures fits { IfSome result (FitsSigned w64) }
{
    column?.cell(place).number()
}

/// Returns the value at a place, if the place is alive, passes the filter and has a value. The caller looks up the value
/// column once for all places.
#[inline(always)]
pub(crate) fn value_at(
    spec: &Spec,
    columns: &[Column<'_>],
    values: Option<&Column<'_>>,
    place: usize,
    alive: bool,
) -> Option<i64>
    requires { option_copied values ≡ column_of columns.now spec.now.value }
    ensures value { result ≡ value_at spec.now columns.now (place, alive) }
    ensures fits { IfSome result (FitsSigned w64) }
{
    if !alive {
        return None;
    }
    if !spec.filter.keeps_cells(&PlaceCells { columns, place }) {
        return None;
    }
    number_in(values, place)
}

/// Returns the number at a place in the value column, if the place is alive and has one.
#[inline(always)]
fn number_alive(values: Option<&Column<'_>>, place: usize, alive: bool) -> Option<i64>
    ensures number { result
        ≡ cond alive (number_in (option_map (cell_of place) (option_copied values.entry))) None }
    ensures fits { IfSome result (FitsSigned w64) }
{
    if alive {
        number_in(values, place)
    } else {
        None
    }
}

/// Returns whether a value is within a min-max, so that observing it changes nothing.
#[inline(always)]
fn is_within(min_max: &Option<MinMax>, value: i64) -> bool
    ensures { IsTrue result → IsWithin min_max.now (Some value) }
{
    match min_max {
        Some(min_max) => min_max.is_within(value),
        None => false,
    }
}

/// Returns the value at a place as `value_at` does, unless the value is within a min-max. The filter is tested last, because
/// most values of a row group are within the min-max of the values before them.
#[inline(always)]
pub(crate) fn value_beyond(
    spec: &Spec,
    columns: &[Column<'_>],
    values: Option<&Column<'_>>,
    place: usize,
    alive: bool,
    min_max: &Option<MinMax>,
) -> Option<i64>
    requires { option_copied values ≡ column_of columns.now spec.now.value }
    ensures beyond { IfSome result
        (λ value. Some value ≡ value_at spec.now columns.now (place, alive)) }
    ensures within { IfNone result
        (IsWithin min_max.now (value_at spec.now columns.now (place, alive))) }
    ensures fits { IfSome result (FitsSigned w64) }
{
    let Some(value) = number_alive(values, place, alive) else {
        return None;
    };
    if is_within(min_max, value) {
        return None;
    }
    if spec.filter.keeps_cells(&PlaceCells { columns, place }) {
        Some(value)
    } else {
        None
    }
}
