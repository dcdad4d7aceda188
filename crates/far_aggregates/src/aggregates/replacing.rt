// Edits that replace a number in a column, and change no key of an aggregate.
ghost use Rattle.std.specs.Prelude.{◌≡◌, ◌<◌, ◌≤◌, ◌^◌, ℕ, List, Some, false, true, IfOk};
ghost use Rattle.far_types.specs.declared.cell.Cell.{Cell};
ghost use Rattle.far_types.specs.declared.cell.Cell.TheVariants as cell;
ghost use Rattle.far_types.specs.declared.edit.Edit.TheVariants as edit;
ghost use Rattle.far_types.specs.Edits.{places_after};
ghost use Rattle.far_types.specs.Table.{Place};
ghost use Rattle.far_aggregates.specs.Accumulators.{Keeps, registered_of};
ghost use Rattle.far_aggregates.specs.Pending.{AreUpToDate, IsAliveAt};
ghost use Rattle.far_aggregates.specs.Replacing.{keeps_keys, MayReplaceAll, after_replace_all, ReplacesAll};

use super::Aggregates;
use crate::changed::Changed;
use crate::pairs::value_pairs;
use crate::pending::Pending;
use crate::replacing::{keep_keys, one_looks_at, replace_all};
use far_types::{CellRef, LendCells};
use std::alloc::{AllocError, Global};

impl Aggregates {
    /// Returns whether some aggregate uses a column, for a test, its key or its value. If none does, the table may change cells
    /// of the column without telling the aggregates. Allocates nothing.
    pub fn needs(&self, column: u32) -> bool
        ensures { result ≡ false
            → (size : ℕ) → (places : List Place) → (place : ℕ) → (cell : Cell)
            → 0 < size
            → Keeps size places self.now
            → Keeps size (places_after (edit.Set place column cell) places) self.now }
    {
        one_looks_at(self.registry.as_slice(), column)
    }

    /// Returns whether each aggregate that uses a column computes totals and uses the column only for its values. Then a number
    /// that replaces a number leaves each pair under its key, and `note_values` and `replace` suffice. Allocates nothing.
    pub fn keeps_keys(&self, column: u32) -> bool
        ensures { result ≡ keeps_keys column self.now }
    {
        keep_keys(self.registry.as_slice(), column)
    }

    /// Notes the pairs that a place's row contributes to the aggregates whose values are in a column, where the row has the
    /// number `from`. Once another number is stored there, `replace` replaces these values by it. If the row keeps `from`, `end`
    /// ends the edit: there is nothing to undo.
    #[inline(always)]
    pub fn note_values<R: LendCells>(
        &mut self,
        alloc: Global,
        row: &R,
        column: u32,
        from: i64,
        size: u32,
        place: usize,
    ) -> Result<Pending, AllocError>
        requires size { 0 < size }
        requires few { place ≤ 2 ^ 24 }
        requires number { R.cells row.now column ≡ Some (cell.Int from) }
        requires keys { keeps_keys column self.old ≡ true }
        ensures replaces { IfOk result
            (λ pending. (places : List Place) → IsAliveAt (R.cells row.now) place places
            → AreUpToDate size places self.old
            → ReplacesAll size place column places self.new pending) }
        ensures same { self.new ≡ self.old }
    {
        let group = self.group_of(place, size);
        let list = self.spare_lists.take_pairs(alloc);
        // The caller has read the number, which is the value of each pair, so it is not read again.
        let cell = CellRef::Int(from);
        let known = Changed { row, column, cell };
        let to_retract = value_pairs(
            &mut self.spare_keys,
            list,
            self.registry.as_slice(),
            column,
            &known,
            size,
            place,
            group,
        )?;
        let applied = Vec::new(alloc);
        Ok(Pending {
            group,
            applied,
            to_retract,
        })
    }

    /// Replaces the values of the noted pairs by a number, once it is stored. Searches for each key once. Allocates nothing.
    #[inline(always)]
    pub fn replace(&mut self, pending: Pending, to: i64)
        requires { MayReplaceAll self.old pending }
        ensures replaced { self.new ≡ after_replace_all to self.old pending }
        ensures registered { registered_of self.new ≡ registered_of self.old }
    {
        replace_all(
            self.registry.as_mut_slice(),
            pending.to_retract.as_slice(),
            to,
        );
        self.end(pending);
    }
}
