// The columns of a row group, lent to aggregates.
ghost use Rattle.std.specs.Prelude.{◌≡◌, ℕ, None, length, slice_index_or};
ghost use Rattle.far_table.specs.Groups.{IsLentOf};

use far_aggregates::LendGroup;
use far_offload::Column;
use far_rows::{LentColumn, Rows};
use far_store::FarTickets;
use std::marker::Model;

/// A row group of a table. Its columns are read in place; a column whose object is away is not available. Contracts see the rows
/// and the number of the row group. A table has at most 16 columns.
#[derive(Drop)]
pub struct RowGroup<'a, S: FarTickets> {
    // For the proof: only contracts read the rows and the number. The columns were looked up when the row group was made.
    rows: &'a Rows<S>,
    group: u32,
    columns: [Option<LentColumn<'a>>; 16],
    alive: &'a [bool],
}

impl<'a, S: FarTickets> Model for RowGroup<'a, S> {
    ghost use Rattle.far_table.specs.Groups.{GroupRows, AreLent};

    ghost Value = { GroupRows S.Ticket };

    ghost view = { λ g. record { rows = g.rows.now; group = g.group } };

    ghost invariant = { λ g. AreLent S.content record { rows = g.rows.now; group = g.group }
        g.columns g.alive.now };
}

impl<'a, S: FarTickets> RowGroup<'a, S> {
    /// Returns the row group with this number. Looks up all columns once, here. Allocates nothing.
    pub(crate) fn new(rows: &'a Rows<S>, group: u32) -> RowGroup<'a, S>
        ensures { result ≡ record { rows = rows.now; group = group } }
    {
        RowGroup {
            rows,
            group,
            columns: columns_of(rows, group),
            alive: rows.flags(group),
        }
    }
}

impl<'a, S: FarTickets> LendGroup for RowGroup<'a, S> {
    ghost use Rattle.far_table.specs.Groups.{places_here, has_column};

    ghost places = { places_here S.content };

    ghost has = { has_column };

    fn column(&self, number: u32) -> Option<Column<'_>> {
        match self.columns.get(number as usize)? {
            Some(LentColumn::Numbers(numbers)) => Some(Column::of_numbers(number, numbers)),
            Some(LentColumn::Form(form)) => Some(Column::of_form(number, form)),
            None => None,
        }
    }

    fn alive(&self) -> &[bool] {
        self.alive
    }
}

// Returns each column of a row group that is lent; `None` for a column whose object is away, and past the last column.
fn columns_of<'a, S: FarTickets>(rows: &'a Rows<S>, group: u32) -> [Option<LentColumn<'a>>; 16]
    ensures count { length result ≡ 16 }
    ensures lent { (column : ℕ)
        → IsLentOf S.content record { rows = rows.now; group = group } column
        (slice_index_or result column None) }
{
    // For the proof: shows that there are at most 16 columns.
    let _len = rows.len();
    let mut columns = [None; 16];
    for column in 0..rows.column_indexes().len() {
        columns[column] = rows.group_column(column, group).ok();
    }
    columns
}
