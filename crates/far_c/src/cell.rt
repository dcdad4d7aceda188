// Cells and rows as C passes them.
ghost use Rattle.std.specs.Prelude.{◌≡◌, ◌≢◌, ◌<◌, ◌≤◌, ◌+◌, ◌++◌, [], ◌∷◌, IfErr, IfOk, OnOk, take, vec_len};
ghost use Rattle.std.specs.List.{All};
ghost use Rattle.std.specs.String.{string_bytes};
ghost use Rattle.far_types.specs.Lent.{lent_cell};
ghost use Rattle.far_c.specs.Cells.{cell_of, row_of};
ghost use Rattle.far_c.specs.Unreadable.{CellFault, IsReadable, RowFault};

use crate::unread::Unread;
use far_types::{Cell, CellRef, Row, Text};
use std::alloc::{AllocError, Global};
use std::mem;

/// The kinds of cells, as C numbers them: a cell without a value, a number, and a text.
pub const MISSING: u32 = 0;

pub const INT: u32 = 1;

pub const TEXT: u32 = 2;

/// A cell. Only a cell of kind 1 uses the number, and only one of kind 2 the text.
#[repr(C)]
#[derive(Drop)]
pub struct FcCell<'a> {
    pub number: i64,
    pub text: &'a [u8],
    pub kind: u32,
}

impl<'a> FcCell<'a> {
    /// Borrows the cell for a table.
    #[inline(always)]
    pub fn lend(&self) -> Result<CellRef<'_>, Unread>
        ensures ok { IfOk result (λ cell. lent_cell cell ≡ cell_of self.now) }
        ensures readable { OnOk result (IsReadable self.now) }
        ensures fault { IfErr result (CellFault self.now) }
        ensures err { IfErr result (λ why. why ≢ Unread.NoMemory) }
    {
        match self.kind {
            MISSING => Ok(CellRef::Missing),
            INT => Ok(CellRef::Int(self.number)),
            TEXT => match str::from_utf8(self.text) {
                Ok(text) => Ok(CellRef::Text(text)),
                Err(_) => Err(Unread::NoUtf8),
            },
            _ => Err(Unread::BadArgument),
        }
    }

    /// Copies the cell for a table.
    pub fn read(&self, alloc: Global) -> Result<Cell, Unread>
        ensures ok { IfOk result (λ cell. cell ≡ cell_of self.now) }
        ensures readable { OnOk result (IsReadable self.now) }
        ensures fault { IfErr result (CellFault self.now) }
        ensures memory { IfErr result (λ why. why ≡ Unread.NoMemory → IsReadable self.now) }
    {
        copy_cell(alloc, self.lend()?)
    }
}

/// Copies a cell for a table. Allocates only for a text.
#[inline(always)]
pub fn copy_cell(alloc: Global, cell: CellRef<'_>) -> Result<Cell, Unread>
    ensures ok { IfOk result (λ made. made ≡ lent_cell cell.entry) }
    ensures memory { IfErr result (λ why. why ≡ Unread.NoMemory) }
{
    match cell {
        CellRef::Missing => Ok(Cell::Missing),
        CellRef::Int(number) => Ok(Cell::Int(number)),
        CellRef::Text(text) => Ok(Cell::Text(Text::new(String::from_str(alloc, text)?))),
    }
}

/// Copies a row for a table, into the memory of cells that are no longer needed.
#[inline(always)]
pub fn read_row(alloc: Global, spare: Vec<Cell>, cells: &[FcCell<'_>]) -> Result<Row, Unread>
    ensures ok { IfOk result (λ row. row ≡ row_of cells.now) }
    ensures readable { OnOk result (All IsReadable cells.now) }
    ensures fault { IfErr result (RowFault cells.now) }
{
    let mut made = spare;
    for column in 0..cells.len() {
        write_cell(alloc, &mut made, column, cells[column].lend()?)?;
    }
    made.truncate(cells.len());
    Ok(Row::new(made))
}

/// Writes a cell after the first `at` cells of a list, in place of a cell that is no longer needed, if there is one.
#[inline(always)]
pub fn write_cell(
    alloc: Global,
    cells: &mut Vec<Cell>,
    at: usize,
    cell: CellRef<'_>,
) -> Result<(), Unread>
    requires { at ≤ vec_len cells.old }
    ensures cell { OnOk result
        (take (at + 1) cells.new.items ≡ take at cells.old.items ++ lent_cell cell.entry ∷ []) }
    ensures there { OnOk result (at < vec_len cells.new) }
    ensures memory { IfErr result (λ why. why ≡ Unread.NoMemory) }
{
    if at == cells.len() {
        cells.push(Cell::Missing)?;
    }
    match cell {
        CellRef::Missing => cells[at] = Cell::Missing,
        CellRef::Int(number) => cells[at] = Cell::Int(number),
        CellRef::Text(text) => {
            let spare = mem::replace(&mut cells[at], Cell::Missing);
            cells[at] = Cell::Text(Text::new(string_in(alloc, spare, text)?));
        }
    }
    Ok(())
}

// Copies a text into the memory of a cell that is no longer needed, if that is a text.
fn string_in(alloc: Global, spare: Cell, text: &str) -> Result<String, AllocError>
    ensures { IfOk result (λ string. string_bytes string ≡ text.now) }
{
    let Cell::Text(earlier) = spare else {
        return String::from_str(alloc, text);
    };
    let mut string = earlier.into_string();
    string.clear();
    string.push_str(text)?;
    Ok(string)
}
