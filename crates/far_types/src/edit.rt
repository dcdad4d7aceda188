// Edits of a table.
ghost use Rattle.std.specs.Prelude.{◌≡◌, IfOk, IfErr};

use super::cell::Cell;
use super::refusal::Refusal;
use super::row::Row;

/// A change of the table's rows.
#[derive(Drop, Debug)]
pub enum Edit {
    /// Appends a row, which gets the next place.
    Insert(Row),
    /// Replaces one cell of a place. It counts as an edit even if the cell is equal to the old one.
    Set { place: u32, column: u32, cell: Cell },
    /// Marks a place as dead. The place keeps its cells and is never used again.
    Remove(u32),
}

impl Edit {
    /// Returns an equal edit. Refused with `NoMemory` (1) alone.
    pub fn clone(&self) -> Result<Edit, Refusal>
        ensures equal { IfOk result (λ edit. edit ≡ self.now) }
        ensures memory { IfErr result (λ e. e ≡ Refusal.NoMemory) }
    {
        match self {
            Edit::Insert(row) => Ok(Edit::Insert(row.clone()?)),
            Edit::Set {
                place,
                column,
                cell,
            } => Ok(Edit::Set {
                place: *place,
                column: *column,
                cell: cell.clone()?,
            }),
            Edit::Remove(place) => Ok(Edit::Remove(*place)),
        }
    }
}
