// Prints lent parts of columns, and the row groups to fetch next.
ghost use Rattle.std.specs.Prelude.{◌≡◌, ◌++◌, ◌∷◌, [], map, OnOk};
ghost use Rattle.csv.specs.Writing.{default_writer, fields_text};
ghost use Rattle.far_types.specs.declared.cell.Cell.{Cell};
ghost use Rattle.far_types.specs.Lent.{int_cell, lent_cell, text_cell};
ghost use Rattle.far_frame.specs.Lending.{int_piece, text_piece};
ghost use Rattle.far_commands.specs.Listings.{cell_text, row_line};
ghost use Rattle.far_commands.specs.Pieces.{flag_text, next_text, piece_text, pieces_text};
ghost use Rattle.far_script.specs.Printing.{texts_of};

use super::listing::cell;
use far_frame::{IntPiece, TextPiece};
use far_script::Page;
use far_types::{CellRef, Text};
use std::alloc::AllocError;

/// A value of a piece: a number or a text, or none.
pub trait Value {
    /// The cell of the value.
    ghost cell: { Self → Cell };

    /// Borrows the value as a cell.
    fn lend(&self) -> CellRef<'_>
        ensures { lent_cell result ≡ cell self.now };
}

impl Value for Option<i64> {
    ghost cell = { int_cell };

    fn lend(&self) -> CellRef<'_> {
        CellRef::of_int(*self)
    }
}

impl Value for Option<Text> {
    ghost cell = { text_cell };

    fn lend(&self) -> CellRef<'_> {
        match self {
            Some(text) => CellRef::Text(text.as_str()),
            None => CellRef::Missing,
        }
    }
}

/// Returns the mark that says whether a place is alive.
pub fn mark(alive: bool) -> u8
    ensures { result ∷ [] ≡ flag_text alive }
{
    if alive { b'+' } else { b'-' }
}

/// Prints the marks of places.
fn marks(page: &mut Page, flags: &[bool]) -> Result<(), AllocError>
    ensures ok { OnOk result (page.new ≡ page.old ++ texts_of flag_text flags.now) }
{
    for alive in flags {
        page.byte(mark(*alive))?;
    }
    Ok(())
}

/// Prints the values of a row after the first.
fn more_values<V: Value>(page: &mut Page, values: &[V]) -> Result<(), AllocError>
    ensures ok { OnOk result
        (page.new
        ≡ page.old ++ fields_text default_writer (map cell_text (map V.cell values.now))) }
{
    for value in values {
        page.byte(b',')?;
        cell(page, false, value.lend())?;
    }
    Ok(())
}

/// Prints values as a row, with its line feed.
fn row<V: Value>(page: &mut Page, values: &[V]) -> Result<(), AllocError>
    ensures ok { OnOk result (page.new ≡ page.old ++ row_line (map V.cell values.now)) }
{
    match values {
        [] => page.text("\"\"\n"),
        [first, rest @ ..] => {
            cell(page, rest.is_empty(), first.lend())?;
            more_values(page, rest)?;
            page.text("\n")
        }
    }
}

/// Prints `piece FLAGS VALUES`.
pub fn piece<V: Value>(page: &mut Page, values: &[V], flags: &[bool]) -> Result<(), AllocError>
    ensures ok { OnOk result
        (page.new
        ≡ page.old ++ piece_text record { cells = map V.cell values.now; flags = flags.now }) }
{
    page.text("piece ")?;
    marks(page, flags)?;
    page.text(" ")?;
    row(page, values)
}

/// Prints pieces of numbers, one a line, or `empty` if there are none.
pub fn ints(page: &mut Page, pieces: &[IntPiece]) -> Result<(), AllocError>
    ensures ok { OnOk result (page.new ≡ page.old ++ pieces_text (map int_piece pieces.now)) }
{
    if pieces.is_empty() {
        return page.text("empty\n");
    }
    for lent in pieces {
        piece(page, lent.values.as_slice(), lent.flags.as_slice())?;
    }
    Ok(())
}

/// Prints pieces of texts, one a line, or `empty` if there are none.
pub fn texts(page: &mut Page, pieces: &[TextPiece]) -> Result<(), AllocError>
    ensures ok { OnOk result (page.new ≡ page.old ++ pieces_text (map text_piece pieces.now)) }
{
    if pieces.is_empty() {
        return page.text("empty\n");
    }
    for lent in pieces {
        piece(page, lent.values.as_slice(), lent.flags.as_slice())?;
    }
    Ok(())
}

/// Prints `next` and the row groups, or `next none` if there are none.
pub fn next(page: &mut Page, groups: &[u32]) -> Result<(), AllocError>
    ensures ok { OnOk result (page.new ≡ page.old ++ next_text groups.now) }
{
    if groups.is_empty() {
        return page.text("next none\n");
    }
    page.text("next")?;
    for group in groups {
        page.text(" ")?;
        page.number(u64::from(*group))?;
    }
    page.text("\n")
}
