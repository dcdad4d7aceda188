// Makes edits that were accepted.
ghost use Rattle.std.specs.Prelude.{◌≡◌, None, OnOk, OnErr, IfErr};
ghost use Rattle.far_types.specs.declared.edit.Edit.TheVariants as edit;
ghost use Rattle.far_types.specs.Cells.{CellFits};
ghost use Rattle.far_rows.specs.Effects.{KeepsObjects};
ghost use Rattle.far_rows.specs.Setting.{cell_of};
ghost use Rattle.far_table.specs.TableRows.{asked};
ghost use Rattle.far_table.specs.Edits.{edit_due, MayPush, MayPut, IsAppended, IsPut, IsCleared};

use super::TableRows;
use far_rows::NewCell;
use far_store::FarTickets;
use far_types::Refusal;
use std::alloc::Global;

impl<S: FarTickets> TableRows<S> {
    /// Appends the new row, which is alive, and counts the edit.
    ///
    /// The row is one that `may_insert` accepted. Refused only with `NoMemory` (1). A refused call changes nothing.
    pub fn push(&mut self, alloc: Global) -> Result<(), Refusal>
        requires { MayPush S.content self.old }
        ensures appended { OnOk result (IsAppended S.content self.old self.new) }
        ensures kept { KeepsObjects S.is_of self.old.held self.new.held }
        ensures memory { IfErr result (λ e. e ≡ Refusal.NoMemory) }
        ensures err { OnErr result (self.new ≡ self.old) }
    {
        self.rows.push(alloc, &self.new_row)?;
        self.edits += 1;
        Ok(())
    }

    /// Writes a value to a column of a place, and counts the edit.
    ///
    /// The value is one that `may_set` returned. Refused only with `NoMemory` (1). A refused call changes nothing.
    pub fn set(
        &mut self,
        alloc: Global,
        column: u32,
        place: u32,
        value: &NewCell,
    ) -> Result<(), Refusal>
        requires { MayPut S.content self.old column place value.now }
        ensures put { OnOk result (IsPut S.content self.old self.new column place value.now) }
        ensures kept { KeepsObjects S.is_of self.old.held self.new.held }
        ensures memory { IfErr result (λ e. e ≡ Refusal.NoMemory) }
        ensures err { OnErr result (self.new ≡ self.old) }
    {
        // For the proof: shows that a number fits 64 bits.
        let _cell = fitting(value);
        self.rows
            .set(alloc, column as usize, place as usize, value)?;
        self.edits += 1;
        Ok(())
    }

    /// Marks a place as dead, and counts the edit. Its cells stay. Allocates nothing.
    ///
    /// The place is one that `may_remove` accepted.
    pub fn remove(&mut self, place: u32)
        requires { edit_due (asked self.old) (edit.Remove place) ≡ None }
        ensures { IsCleared self.old self.new place }
    {
        self.rows.clear(place as usize);
        self.edits += 1;
    }
}

// For the proof: returns the value, and shows that its number fits 64 bits.
fn fitting(value: &NewCell) -> &NewCell
    ensures value { result.now ≡ value.now }
    ensures fits { CellFits (cell_of value.now) }
{
    if let NewCell::Number(Some(number)) = value {
        let _number: i64 = *number;
    }
    value
}
