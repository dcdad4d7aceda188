// Keys of places.
ghost use Rattle.std.specs.Prelude.{◌≡◌, IfOk, option_map};
ghost use Rattle.std.specs.Option.{option_copied};
ghost use Rattle.far_types.specs.Cells.{key_in};
ghost use Rattle.far_offload.specs.Columns.{cell_of};

use crate::column::Column;
use far_types::Key;
use std::alloc::{AllocError, Global};

/// Returns the key of a column at a place, if there is one. Reuses the memory of an earlier key.
#[inline(always)]
pub(crate) fn key_at(
    alloc: Global,
    column: Option<&Column<'_>>,
    place: usize,
    earlier: Option<Key>,
) -> Result<Option<Key>, AllocError>
    ensures key { IfOk result
        (λ key. key ≡ key_in (option_map (cell_of place) (option_copied column.entry))) }
{
    let Some(column) = column else {
        return Ok(None);
    };
    column.cell(place).key(alloc, earlier)
}
