// Tests of far_aggregates: edits that need no allocation.
ghost use Rattle.std.specs.Prelude.{◌≡◌, ◌+◌, ◌<◌, ◌^◌, [], List, length, IfOk, OnOk};
ghost use Rattle.far_types.specs.Table.{Place};
ghost use Rattle.far_aggregates.specs.Accumulators.{Keeps};
ghost use Rattle.far_aggregates.specs.Pending.{AreUpToDate};

use crate::cases::must_be;
use far_aggregates::Aggregates;
use far_types::{CellRef, LendCells, Refusal, Spec};
use std::alloc::Global;

/// A row with a name and the price 5.
struct Sale {
    name: &'static str,
}

impl LendCells for Sale {
    ghost use Rattle.std.specs.Prelude.{pos, [], ◌∷◌};
    ghost use Rattle.far_types.specs.declared.cell.Cell.TheVariants as cell;
    ghost use Rattle.far_types.specs.Cells.{cells_of};

    ghost cells = { λ sale. cells_of (cell.Text sale.name.now ∷ cell.Int (pos 5) ∷ []) };

    fn cell(&self, column: u32) -> Option<CellRef<'_>> {
        match column {
            0 => Some(CellRef::Text(self.name)),
            1 => Some(CellRef::Int(5)),
            _ => None,
        }
    }
}

/// Returns one aggregate without rows, for row groups of 4.
fn with_one(alloc: Global, spec: Spec) -> Result<Aggregates, Refusal>
    ensures { IfOk result (λ aggregates. Keeps 4 [] aggregates) }
{
    let mut aggregates = Aggregates::new(alloc);
    let Some(a) = aggregates.free_number() else {
        return Err(Refusal::NoAggregate);
    };
    aggregates.register(alloc, a, spec, 0, 4, 0)?;
    Ok(aggregates)
}

/// Applies the deltas of a row that is appended at a place, and ends the edit.
fn append(
    alloc: Global,
    aggregates: &mut Aggregates,
    sale: &Sale,
    place: usize,
) -> Result<(), Refusal>
    requires few { place < 2 ^ 24 }
    requires kept { (places : List Place) × (length places ≡ place)
        × AreUpToDate 4 places aggregates.old }
    ensures { OnOk result
        ((places : List Place) × (length places ≡ place + 1)
        × AreUpToDate 4 places aggregates.new) }
{
    let pending = aggregates.apply_deltas(alloc, sale, 4, place)?;
    aggregates.end(pending);
    Ok(())
}

static ANN: Sale = Sale { name: "ann" };

/// Returns whether a second row under a name allocates nothing. Only the first may run out of memory.
fn knows_a_name(alloc: Global, aggregates: &mut Aggregates) -> Result<bool, Refusal>
    requires { Keeps 4 [] aggregates.old }
{
    append(alloc, aggregates, &ANN, 0)?;
    Ok(append(alloc, aggregates, &ANN, 1).is_ok())
}

/// Returns the same for one aggregate by name.
fn knows_its_name(alloc: Global, spec: Spec) -> Result<bool, Refusal> {
    knows_a_name(alloc, &mut with_one(alloc, spec.by(0))?)
}

#[test]
fn a_row_under_a_known_text_allocates_nothing(rt: HostRuntime) {
    let alloc = rt.alloc();
    let totals = knows_its_name(alloc, Spec::totals(alloc, 1));
    must_be(&rt, totals, Ok(true));
    let extrema = knows_its_name(alloc, Spec::extrema(alloc, 1));
    must_be(&rt, extrema, Ok(true));
}
