// Observes the rows of a row group in existing extrema.
ghost use Rattle.std.specs.Prelude.{◌≡◌, None, Some, OnOk};
ghost use Rattle.far_types.specs.Answers.{extrema};
ghost use Rattle.far_types.specs.Effects.{joined_extrema};
ghost use Rattle.far_offload.specs.Partials.{pairs_over};

use crate::column::{Column, find};
use crate::filtering::value_at;
use crate::keys::key_at;
use crate::plain::min_max_of;
use far_extrema::GroupExtrema;
use far_types::Spec;
use std::alloc::{AllocError, Global};

/// Observes rows without a key column.
fn observe_plain(
    observed: &mut GroupExtrema,
    spec: &Spec,
    columns: &[Column<'_>],
    alive: &[bool],
) -> Result<(), AllocError>
    requires { spec.now.key ≡ None }
    ensures ok { OnOk result
        (observed.new
        ≡ joined_extrema observed.old (extrema (pairs_over spec.now columns.now alive.now))) }
{
    match min_max_of(spec, columns, alive) {
        Some(min_max) => observed.observe_rows(None, min_max),
        None => Ok(()),
    }
}

/// Observes rows with a key column.
fn observe_keyed(
    alloc: Global,
    observed: &mut GroupExtrema,
    spec: &Spec,
    column: u32,
    columns: &[Column<'_>],
    alive: &[bool],
) -> Result<(), AllocError>
    requires { spec.now.key ≡ Some column }
    ensures ok { OnOk result
        (observed.new
        ≡ joined_extrema observed.old (extrema (pairs_over spec.now columns.now alive.now))) }
{
    let values = find(columns, spec.value);
    let keys = find(columns, column);
    let mut key = None;
    for place in 0..alive.len() {
        if let Some(value) = value_at(spec, columns, values, place, alive[place]) {
            key = key_at(alloc, keys, place, key)?;
            if key.is_some() {
                observed.observe_under(&key, value)?;
            }
        }
    }
    Ok(())
}

/// Observes the live places of a row group in extrema, which may already include rows of other row groups. `alive` has one flag
/// per place. Each place contributes the same pair as in `fold`.
///
/// If memory runs out, it may have observed some of the places.
pub fn observe_into(
    alloc: Global,
    observed: &mut GroupExtrema,
    spec: &Spec,
    columns: &[Column<'_>],
    alive: &[bool],
) -> Result<(), AllocError>
    ensures ok { OnOk result
        (observed.new
        ≡ joined_extrema observed.old (extrema (pairs_over spec.now columns.now alive.now))) }
{
    match spec.key {
        Some(column) => observe_keyed(alloc, observed, spec, column, columns, alive),
        None => observe_plain(observed, spec, columns, alive),
    }
}
