// Edits of the rows: an edit applies its deltas first, and retracts the pairs of the old row once the rows are changed.
ghost use Rattle.std.specs.Prelude.{◌≡◌, ◌<◌, ◌≤◌, ◌/◌, ◌^◌, List, false, length, IsSome, IfOk, OnOk, OnErr};
ghost use Rattle.far_types.specs.declared.cell.Cell.{Cell};
ghost use Rattle.far_types.specs.declared.edit.Edit.TheVariants as edit;
ghost use Rattle.far_types.specs.Cells.{cells_of};
ghost use Rattle.far_types.specs.Edits.{places_after};
ghost use Rattle.far_types.specs.Lent.{lent_cell};
ghost use Rattle.far_types.specs.Table.{Place};
ghost use Rattle.far_aggregates.specs.Accumulators.{Keeps, registered_of};
ghost use Rattle.far_aggregates.specs.Lending.{AreServed};
ghost use Rattle.far_aggregates.specs.Pending.{AreUpToDate, KeepsAsBefore, IsAliveAt};
ghost use Rattle.far_aggregates.specs.Pending.{MayUndoAll, after_undo_all, UndoesAll};
ghost use Rattle.far_aggregates.specs.Pending.{MayRetractAll, after_retract_all, RetractsAll, RetractsOnce};
ghost use Rattle.far_aggregates.specs.Retract.{EachIsPlain};

use super::Aggregates;
use crate::changed::Changed;
use crate::deltas::{apply_deltas, undo_all};
use crate::leaving_out::leave_out;
use crate::lend_group::LendGroup;
use crate::pairs::row_pairs;
use crate::pending::Pending;
use crate::reserve::reserve_all;
use crate::retract::{needs_rows, retract_all, retract_totals};
use far_types::{CellRef, LendCells};
use std::alloc::{AllocError, Global};

impl Aggregates {
    /// Applies the deltas of a row that the table is about to append at a place, the first past the end. Once the row is stored,
    /// `end` ends the edit. If the table refuses the row, `undo` undoes the deltas. If memory runs out, no answer is changed.
    ///
    /// The method is inlined, like `end`, so that an insert moves no lists through memory.
    #[inline(always)]
    pub fn apply_deltas<R: LendCells>(
        &mut self,
        alloc: Global,
        row: &R,
        size: u32,
        place: usize,
    ) -> Result<Pending, AllocError>
        requires size { 0 < size }
        requires few { place ≤ 2 ^ 24 }
        requires kept { (places : List Place) × AreUpToDate size places self.old }
        ensures applied { OnOk result
            ((places : List Place) → (cells : List Cell) → length places ≡ place
            → R.cells row.now ≡ cells_of cells
            → Keeps size places self.old
            → Keeps size (places_after (edit.Insert cells) places) self.new) }
        ensures undo { IfOk result (UndoesAll self.old self.new) }
        ensures unchanged { OnErr result (KeepsAsBefore self.old self.new) }
        ensures registered { registered_of self.new ≡ registered_of self.old }
    {
        // A table without aggregates need not look at its rows.
        if self.registry.is_empty() {
            return Ok(Pending::nothing(alloc));
        }
        let group = self.group_of(place, size);
        let list = self.spare_lists.take_deltas(alloc);
        let registry = self.registry.as_mut_slice();
        reserve_all(registry, group);
        let applied = apply_deltas(
            &mut self.spare_keys,
            list,
            registry,
            row,
            size,
            place,
            group,
        )?;
        let to_retract = Vec::new(alloc);
        Ok(Pending {
            group,
            applied,
            to_retract,
        })
    }

    /// Applies the deltas of a place's row as it will be with another cell in one of its columns. Also notes the pairs of the row
    /// as it is. Once the cell is stored, `retract` retracts those pairs. If the table refuses the cell, `undo` undoes the
    /// deltas. If memory runs out, no answer is changed.
    #[inline(always)]
    pub fn change_in<R: LendCells>(
        &mut self,
        alloc: Global,
        row: &R,
        column: u32,
        cell: CellRef<'_>,
        size: u32,
        place: usize,
    ) -> Result<Pending, AllocError>
        requires size { 0 < size }
        requires few { place ≤ 2 ^ 24 }
        requires column { IsSome (R.cells row.now column) }
        requires kept { (places : List Place) × AreUpToDate size places self.old }
        ensures retracts { IfOk result
            (λ pending. RetractsOnce (edit.Set place column (lent_cell cell.entry)) size place
            (R.cells row.now) self.old self.new pending) }
        ensures undo { IfOk result (UndoesAll self.old self.new) }
        ensures unchanged { OnErr result (KeepsAsBefore self.old self.new) }
        ensures registered { registered_of self.new ≡ registered_of self.old }
    {
        let group = self.group_of(place, size);
        let pairs = self.spare_lists.take_pairs(alloc);
        let deltas = self.spare_lists.take_deltas(alloc);
        let keys = &mut self.spare_keys;
        let registry = self.registry.as_mut_slice();
        reserve_all(registry, group);
        let to_retract = row_pairs(keys, pairs, registry, row, size, place, group)?;
        let changed = Changed { row, column, cell };
        let applied = apply_deltas(keys, deltas, registry, &changed, size, place, group)?;
        let to_retract = leave_out(keys, to_retract, applied.as_slice());
        Ok(Pending {
            group,
            applied,
            to_retract,
        })
    }

    /// Notes the pairs of a place's row that the table is about to remove. Once the place is dead, `retract` retracts the pairs.
    /// If the place stays alive, there is nothing to undo. The call changes no answer.
    #[inline(always)]
    pub fn leave<R: LendCells>(
        &mut self,
        alloc: Global,
        row: &R,
        size: u32,
        place: usize,
    ) -> Result<Pending, AllocError>
        requires size { 0 < size }
        requires few { place ≤ 2 ^ 24 }
        ensures retracts { IfOk result
            (λ pending. (places : List Place) → IsAliveAt (R.cells row.now) place places
            → AreUpToDate size places self.old
            → RetractsAll size (place / size) (places_after (edit.Remove place) places) self.new
            pending) }
        ensures unchanged { KeepsAsBefore self.old self.new }
        ensures registered { registered_of self.new ≡ registered_of self.old }
    {
        let group = self.group_of(place, size);
        let list = self.spare_lists.take_pairs(alloc);
        let registry = self.registry.as_mut_slice();
        reserve_all(registry, group);
        let to_retract = row_pairs(
            &mut self.spare_keys,
            list,
            registry,
            row,
            size,
            place,
            group,
        )?;
        let applied = Vec::new(alloc);
        Ok(Pending {
            group,
            applied,
            to_retract,
        })
    }

    /// Undoes the deltas of an edit that the table refused. Allocates nothing.
    pub fn undo(&mut self, pending: Pending)
        requires { MayUndoAll self.old pending }
        ensures undo { self.new ≡ after_undo_all self.old pending }
        ensures registered { registered_of self.new ≡ registered_of self.old }
    {
        undo_all(
            self.registry.as_mut_slice(),
            pending.group,
            pending.applied.as_slice(),
        );
        self.end(pending);
    }

    /// Ends an edit that has nothing to retract. Keeps its lists, and the strings of its text keys, for the next edit. Allocates
    /// nothing.
    #[inline(always)]
    pub fn end(&mut self, pending: Pending)
        ensures same { self.new ≡ self.old }
    {
        self.spare_lists.keep(pending, &mut self.spare_keys);
    }

    /// Retracts the pairs that the row contributed before an edit, once the rows are changed. The row group lends its changed
    /// columns. Its rows are read only if the least or the greatest value of a key is retracted. Allocates nothing.
    #[inline(always)]
    pub fn retract<G: LendGroup>(&mut self, group: &G, pending: Pending)
        requires may { MayRetractAll (G.places group.now) self.old pending }
        requires served { AreServed (G.has group.now) (registered_of self.old) }
        ensures retracted { self.new ≡ after_retract_all (G.places group.now) self.old pending }
        ensures registered { registered_of self.new ≡ registered_of self.old }
    {
        retract_all(
            self.registry.as_mut_slice(),
            group,
            pending.group,
            pending.to_retract.as_slice(),
        );
        self.end(pending);
    }

    /// Returns whether `retract` may have to read the rows of the row group, because it retracts a pair from extrema. Allocates
    /// nothing.
    pub fn needs_rows(&self, pending: &Pending) -> bool
        ensures { result ≡ false → EachIsPlain self.now pending.now.to_retract.items }
    {
        needs_rows(self.registry.as_slice(), pending.to_retract.as_slice())
    }

    /// Retracts the pairs like `retract`, but without a row group, if `needs_rows` returned false. Allocates nothing.
    #[inline(always)]
    pub fn retract_totals(&mut self, pending: Pending)
        requires may { (here : List Place) × MayRetractAll here self.old pending }
        requires plain { EachIsPlain self.old pending.to_retract.items }
        ensures retracted { (here : List Place)
            → self.new ≡ after_retract_all here self.old pending }
        ensures registered { registered_of self.new ≡ registered_of self.old }
    {
        retract_totals(self.registry.as_mut_slice(), pending.to_retract.as_slice());
        self.end(pending);
    }
}
