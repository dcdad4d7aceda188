// Checks whether an edit may be made.
ghost use Rattle.std.specs.Prelude.{◌≡◌, ◌==◌, ◌<◌, ◌*◌, ◌∷◌, [], length, Some, option_map, slice_get, OnOk, IfOk};
ghost use Rattle.far_types.specs.declared.edit.Edit.TheVariants as edit;
ghost use Rattle.far_types.specs.FirstOf.{first_of};
ghost use Rattle.far_scopes.specs.Refusing.{refusal_in};
ghost use Rattle.far_rows.specs.ColumnIndexes.{row_of};
ghost use Rattle.far_rows.specs.Setting.{cell_of};
ghost use Rattle.far_table.specs.TableRows.{asked};
ghost use Rattle.far_table.specs.Edits.{edit_due, MayPush, MayPut};
ghost use Rattle.far_table.specs.Watching.{needed_from};

use super::TableRows;
use crate::faults::{cell_faults, living, row_faults};
use far_rows::{NewCell, RowRef};
use far_store::FarTickets;
use far_types::{Cell, Refusal, Row, Spec};

impl<S: FarTickets> TableRows<S> {
    /// Takes a row, if it may be appended. Allocates nothing. After `Ok`, `push` can be refused only with `NoMemory` (1).
    ///
    /// Refused with the first of these that applies:
    ///
    /// - `WrongKind` (5), `RowWidth` (6), `TextTooLong` (7), `TableFull` (10)
    /// - `Absent` (16): the last row group is begun, and an object of it is away. It names the first in the order of the
    ///   columns.
    /// - `ChunkFull` (11), `RegionFull` (17), `EditsUsedUp` (24)
    pub fn may_insert(&mut self, row: Row) -> Result<(), Refusal>
        ensures refused { refusal_in result ≡ edit_due (asked self.old) (edit.Insert row) }
        ensures loaded { OnOk result (row_of self.new.held.column_indexes self.new.new_row ≡ row) }
        ensures free { OnOk result (MayPush S.content self.new) }
        ensures stays { self.new ≡ record self.old { new_row = self.new.new_row } }
    {
        // For the proof: show `AreRows`, and that the numbers of the row fit 64 bits.
        let len = self.rows.len();
        let _cells = row.as_slice();
        row_faults(&self.schema, &self.limits, len, &row)?;
        self.new_row.load(self.rows.column_indexes(), row);
        self.rows.may_push(&self.new_row)?;
        self.may_count()
    }

    /// Returns cells that are no longer needed, whose memory a later row can reuse. Allocates nothing.
    pub fn spare_cells(&mut self) -> Vec<Cell>
        ensures { self.new ≡ self.old }
    {
        self.new_row.spare_cells()
    }

    /// Checks that a cell may be written to a column of a place, and returns it as a value of that column. Allocates nothing. After
    /// `Ok`, `set` can be refused only with `NoMemory` (1).
    ///
    /// Refused with the first of these that applies:
    ///
    /// - `NoColumn` (4), `WrongKind` (5), `TextTooLong` (7), `NoRow` (8), `RemovedRow` (9)
    /// - `Absent` (16): an object of the place's row group is away. It names the first in the order of the columns.
    /// - `ChunkFull` (11), `RegionFull` (17), `EditsUsedUp` (24)
    pub fn may_set(&self, column: u32, place: u32, cell: Cell) -> Result<NewCell, Refusal>
        ensures refused { refusal_in result
            ≡ edit_due (asked self.now) (edit.Set place column cell) }
        ensures cell { IfOk result (λ value. cell_of value ≡ cell) }
        ensures free { IfOk result (MayPut S.content self.now column place) }
    {
        // For the proof: shows `AreRows`.
        let _len = self.rows.len();
        cell_faults(&self.schema, column, self.is_alive(place as usize), &cell)?;
        let Some(kind) = self.schema.get(column as usize) else {
            unreachable!()
        };
        let value = NewCell::new(kind, cell);
        self.rows.may_set(column as usize, place as usize, &value)?;
        self.may_count()?;
        Ok(value)
    }

    /// Checks that a place may be removed, and returns its row, which borrows a cell only when the caller reads it. Allocates nothing.
    ///
    /// Refused with the first of these that applies:
    ///
    /// - `NoRow` (8), `RemovedRow` (9)
    /// - `Absent` (16): an object of the place's row group is away. It names the first in the order of the columns.
    /// - `EditsUsedUp` (24)
    pub fn may_remove(&self, place: u32) -> Result<RowRef<'_, S>, Refusal>
        ensures refused { refusal_in result ≡ edit_due (asked self.now) (edit.Remove place) }
        ensures row { IfOk result
            (λ row. option_map (λ p. p.cells) (slice_get self.now.places place) ≡ Some row) }
    {
        // For the proof: shows `AreRows`.
        let _len = self.rows.len();
        living(self.is_alive(place as usize))?;
        let row = self.row_ref(place as usize)?;
        self.may_count()?;
        Ok(row)
    }

    /// Checks that the columns that an aggregate needs are local in a row group with places. Allocates nothing.
    ///
    /// Refused with `Absent` (16) exactly if one is away. The refusal names the first, in the order of the columns.
    pub fn may_scan(&self, spec: &Spec, group: u32) -> Result<(), Refusal>
        requires { group * self.now.limits.group < length self.now.places }
        ensures { refusal_in result
            ≡ first_of (needed_from self.now.held spec.now group 0 self.now.held.column_indexes) }
    {
        // For the proof: shows `AreRows`.
        let _len = self.rows.len();
        for column in 0..self.schema.len() {
            if spec.needs(column as u32) {
                self.rows.group_column(column, group)?;
            }
        }
        Ok(())
    }

    // Checks that one more edit can be counted.
    fn may_count(&self) -> Result<(), Refusal>
        ensures { refusal_in result
            ≡ first_of ((self.now.edits == self.now.limits.edits, Refusal.EditsUsedUp) ∷ []) }
    {
        if self.edits == self.limits.edits {
            return Err(Refusal::EditsUsedUp);
        }
        Ok(())
    }
}
