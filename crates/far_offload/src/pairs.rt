// The pairs of a row group, for an aggregate with a key column.
ghost use Rattle.std.specs.Prelude.{◌≡◌, Some, IfOk};
ghost use Rattle.far_types.specs.Pairs.{PairsFit};
ghost use Rattle.far_offload.specs.Partials.{pairs_over};

use crate::column::{Column, find};
use crate::filtering::value_at;
use crate::keys::key_at;
use far_groups::Pair;
use far_types::Spec;
use std::alloc::{AllocError, Global};

/// Returns the pairs that the live places contribute to the aggregate, in order.
pub(crate) fn keyed_pairs(
    alloc: Global,
    spec: &Spec,
    column: u32,
    columns: &[Column<'_>],
    alive: &[bool],
) -> Result<Vec<Pair>, AllocError>
    requires { spec.now.key ≡ Some column }
    ensures pairs { IfOk result
        (λ pairs. pairs.items ≡ pairs_over spec.now columns.now alive.now) }
    ensures fits { IfOk result (λ pairs. PairsFit pairs.items) }
{
    let values = find(columns, spec.value);
    let keys = find(columns, column);
    let mut pairs = Vec::with_capacity(alloc, alive.len())?;
    for place in 0..alive.len() {
        if let Some(value) = value_at(spec, columns, values, place, alive[place]) {
            let key = key_at(alloc, keys, place, None)?;
            if key.is_some() {
                pairs.push((key, value))?;
            }
        }
    }
    Ok(pairs)
}
