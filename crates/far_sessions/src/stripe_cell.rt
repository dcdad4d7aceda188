// The tag of the four cells, and the cell of one stripe.
ghost use Rattle.std.specs.Prelude.{◌≡◌};

use crate::law::{HistoryCell, PlanTag};
use std::marker::{Brand, PhantomData};

/// The tag of four cells, as a type. It has no functions: a caller picks a type, as `Brand`.
pub trait CellsTag {
    ghost use Rattle.std.specs.Prelude.{ℕ};
    ghost use Rattle.atomic_table.specs.Seated.{TableId};

    ghost cells: { ℕ → TableId };
}

impl CellsTag for Brand {
    ghost use Rattle.far_sessions.specs.Cells.{no_cell};

    ghost cells = { λ _. no_cell };
}

/// The cell of stripe I, outside any lock.
#[derive(Drop)]
pub struct StripeCell<N: PlanTag, B: CellsTag, const I: usize> {
    pub(crate) cell: HistoryCell<N>,
    pub(crate) of: PhantomData<B>,
    ghost is: { cell.table.shared.table_id ≡ B.cells I },
}
