// Borrowed row groups.
ghost use Rattle.std.specs.Prelude.{◌≡◌, Some, IfOk, option_map, slice_get};
ghost use Rattle.far_types.specs.Table.{in_group};
ghost use Rattle.far_scopes.specs.Refusing.{refusal_in};
ghost use Rattle.far_rows.specs.Rows.{all_cells};
ghost use Rattle.far_rows.specs.Lending.{cells_lent, IsLent};
ghost use Rattle.far_rows.specs.Jobs.{evac_refusal};

use super::Rows;
use crate::lent_column::LentColumn;
use crate::object::Object;
use far_store::FarTickets;
use far_types::Refusal;

impl<S: FarTickets> Rows<S> {
    /// Borrows the alive flags of the used places of a row group, which may be none. Allocates nothing.
    pub fn flags(&self, group: u32) -> &[bool]
        ensures { result.now ≡ in_group self.now.size group self.now.alive }
    {
        let size = self.size as usize;
        let len = self.alive.len();
        let from = group as usize * size;
        if from >= len {
            return self.alive.flags(0, 0);
        }
        if len - from < size {
            return self.alive.flags(from, len);
        }
        self.alive.flags(from, from + size)
    }

    /// Borrows the values of a row group of a column. Allocates nothing.
    ///
    /// Refused with the first of these that applies:
    ///
    /// - `NoColumn` (4): there is no such column.
    /// - `OutOfRange` (14): no place of the row group is used.
    /// - `Absent` (16): the object of the row group is away.
    pub fn group_column(&self, column: usize, group: u32) -> Result<LentColumn<'_>, Refusal>
        ensures cells { IfOk result
            (λ lent. option_map (in_group self.now.size group)
            (slice_get (all_cells S.content self.now) column) ≡ Some (cells_lent lent)) }
        ensures form { IfOk result IsLent }
        ensures refused { refusal_in result ≡ evac_refusal self.now column group }
    {
        // For the proof: shows `AreRows`.
        let _len = self.len();
        match self.object(column, group)? {
            Object::Number(o) => {
                let used = self.flags(group).len();
                Ok(LentColumn::Numbers(&self.number_objects().lend(o)?[..used]))
            }
            Object::Text(o) => Ok(LentColumn::Form(self.text_objects().lend(o)?)),
        }
    }
}
