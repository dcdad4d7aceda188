// Rows of cells.
ghost use Rattle.std.specs.Prelude.{◌≡◌, ◌↔◌, IsTrue, [], IfOk, IfErr, length, slice_get, take};
ghost use Rattle.std.specs.Option.{option_copied};
ghost use Rattle.std.specs.Slice.Iter.{iter_rest};
ghost use Rattle.far_types.specs.Cells.{RowFits, CellFits};

use super::cell::Cell;
use super::refusal::Refusal;
use std::marker::Model;
use std::slice;

/// The cells of a row, in the order of the columns. Contracts see the list of cells.
///
/// ```
/// fn sale(alloc: Global, bread: &str, sold: i64) -> Result<Row, Refusal> {
///     let cells = [Cell::of_text(alloc, bread)?, Cell::from(sold)];
///     Ok(Row::from(Vec::from_array(alloc, cells)?))
/// }
/// ```
#[derive(Drop, Debug)]
pub struct Row {
    cells: Vec<Cell>,
}

impl Model for Row {
    ghost use Rattle.std.specs.Prelude.{List};
    ghost use Rattle.far_types.specs.declared.cell.Cell.{Cell};
    ghost use Rattle.far_types.specs.Cells.{RowFits};

    ghost Value = { List Cell };

    ghost view = { λ row. row.cells.items };

    ghost invariant = { λ row. RowFits row.cells.items };
}

/// Tells the prover the range of a cell's number, which it learns when an `i64` is read through a reference.
fn read_number(cell: &Cell)
    ensures { CellFits cell.now }
{
    if let Cell::Int(number) = cell {
        let _number = *number;
    }
}

fn read_numbers(cells: &[Cell])
    ensures { RowFits cells.now }
{
    for cell in cells {
        read_number(cell);
    }
}

impl Row {
    /// Makes a row of these cells. Allocates nothing.
    pub fn new(cells: Vec<Cell>) -> Row
        ensures { result ≡ cells.items }
    {
        read_numbers(cells.as_slice());
        Row { cells }
    }

    /// Returns the cells that the row was made of. Allocates nothing.
    pub fn into_cells(self) -> Vec<Cell>
        ensures cells { result.items ≡ self }
        ensures fit { RowFits self }
    {
        self.cells
    }

    /// Returns how many cells the row has.
    pub fn len(&self) -> usize
        ensures { result ≡ length self.now }
    {
        self.cells.len()
    }

    /// Returns whether the row has no cells.
    pub fn is_empty(&self) -> bool
        ensures { IsTrue result ↔ (self.now ≡ []) }
    {
        self.cells.is_empty()
    }

    /// Returns the cell of a column, or `None` if the row has no such column.
    pub fn get(&self, column: usize) -> Option<&Cell>
        ensures { option_copied result ≡ slice_get self.now column }
    {
        self.cells.get(column)
    }

    /// Borrows the cells in place. Each number has 64 bits.
    pub fn as_slice(&self) -> &[Cell]
        ensures cells { result.now ≡ self.now }
        ensures fit { RowFits self.now }
    {
        self.cells.as_slice()
    }

    /// Borrows the cells in the order of the columns, in place. Allocates nothing.
    pub fn iter(&self) -> slice::Iter<'_, Cell>
        ensures { iter_rest result ≡ self.now }
    {
        self.cells.iter()
    }

    /// Returns an equal row. Refused with `NoMemory` (1) alone.
    pub fn clone(&self) -> Result<Row, Refusal>
        ensures equal { IfOk result (λ row. row ≡ self.now) }
        ensures memory { IfErr result (λ e. e ≡ Refusal.NoMemory) }
    {
        let mut cells = Vec::with_capacity(*self.cells.allocator(), self.cells.len())?;
        for cell in &self.cells {
            cells.push(cell.clone()?)?;
        }
        Ok(Row { cells })
    }
}

impl From<Vec<Cell>> for Row {
    ghost use Rattle.std.specs.Prelude.{◌≡◌};

    ghost from_gives = { λ cells row. row ≡ cells.items };

    fn from(cells: Vec<Cell>) -> Row {
        Row::new(cells)
    }
}

impl<'a> IntoIterator for &'a Row {
    ghost use Rattle.std.specs.Prelude.{◌≡◌};
    ghost use Rattle.std.specs.Slice.Iter.{iter_rest};

    type Item = &'a Cell;

    type IntoIter = slice::Iter<'a, Cell>;

    ghost into_iter_gives = { λ row it. iter_rest it ≡ row.now };

    fn into_iter(self) -> Self::IntoIter {
        self.iter()
    }
}
