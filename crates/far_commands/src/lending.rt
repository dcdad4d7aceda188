// Prints parts of columns without copying a value.
ghost use Rattle.std.specs.Prelude.{◌≡◌, [], ◌∷◌, ◌++◌, true, false, map, slice_range, OnOk, IfOk};
ghost use Rattle.csv.specs.Writing.{default_writer, fields_text};
ghost use Rattle.far_types.specs.Lent.{lent_cell, text_cell};
ghost use Rattle.far_types.specs.Table.{part};
ghost use Rattle.far_frame.specs.Lending.{flags_of, lent_part};
ghost use Rattle.far_commands.specs.Listings.{cell_text, field_in_record, row_line};
ghost use Rattle.far_commands.specs.Pieces.{flag_text, piece_text, pieces_text};
ghost use Rattle.far_script.specs.Printing.{texts_of};

use super::listing::cell;
use super::pieces::{mark, piece};
use far_frame::{Frame, View};
use far_script::Page;
use far_store::FarTickets;
use far_texts::TextCells;
use far_types::{CellRef, Kind};
use std::alloc::AllocError;

/// Prints the pieces of a part of a column of numbers. Returns false if the part cannot be lent.
fn lent_ints<S: FarTickets>(
    page: &mut Page,
    view: &View<'_, S>,
    column: u32,
    from: u32,
    to: u32,
) -> Result<bool, AllocError>
    ensures ok { IfOk result
        (λ lent. lent ≡ true
        → page.new ≡ page.old ++ texts_of piece_text (lent_part view.now.table column from to)) }
{
    let Ok(mut lents) = view.ints(column, from, to) else {
        return Ok(false);
    };
    while let Some(lent) = lents.next() {
        piece(page, lent.values, lent.alive)?;
    }
    Ok(true)
}

/// Prints the marks of the places `from` to `to`, not including `to`.
fn marks_at<S: FarTickets>(
    page: &mut Page,
    view: &View<'_, S>,
    from: u32,
    to: u32,
) -> Result<(), AllocError>
    ensures ok { OnOk result
        (page.new
        ≡ page.old ++ texts_of flag_text (slice_range (flags_of view.now.table.places) from to)) }
{
    for place in from..to {
        let Some(alive) = view.is_alive(place) else {
            return Ok(());
        };
        page.byte(mark(alive))?;
    }
    Ok(())
}

/// Prints the texts of a row after the first two.
fn more_texts<S: FarTickets>(
    page: &mut Page,
    texts: &mut TextCells<'_, S>,
) -> Result<(), AllocError>
    ensures ok { OnOk result
        (page.new
        ≡ page.old
        ++ fields_text default_writer (map cell_text (map (λ it. text_cell it.0) texts.old))) }
{
    while let Some(it) = texts.next() {
        page.byte(b',')?;
        cell(page, false, CellRef::of_text(it.text))?;
    }
    Ok(())
}

/// Prints the first two fields of a row. Inlined, since the caller knows the kind of the cells.
#[inline(always)]
fn two_fields(page: &mut Page, first: CellRef, second: CellRef) -> Result<(), AllocError>
    ensures ok { OnOk result
        (page.new
        ≡ ((page.old ++ field_in_record false (cell_text (lent_cell first.entry))) ++ 44 ∷ [])
        ++ field_in_record false (cell_text (lent_cell second.entry))) }
{
    cell(page, false, first)?;
    page.byte(b',')?;
    cell(page, false, second)
}

/// Prints texts as a row, with its line feed.
fn text_row<S: FarTickets>(page: &mut Page, texts: &mut TextCells<'_, S>) -> Result<(), AllocError>
    ensures ok { OnOk result
        (page.new ≡ page.old ++ row_line (map (λ it. text_cell it.0) texts.old)) }
{
    let Some(first) = texts.next() else {
        return page.text("\"\"\n");
    };
    let Some(second) = texts.next() else {
        cell(page, true, CellRef::of_text(first.text))?;
        return page.text("\n");
    };
    two_fields(
        page,
        CellRef::of_text(first.text),
        CellRef::of_text(second.text),
    )?;
    more_texts(page, texts)?;
    page.text("\n")
}

/// Prints a part of a column of texts as one piece, `piece FLAGS VALUES`. Returns false if the part cannot be lent.
fn text_piece<S: FarTickets>(
    page: &mut Page,
    view: &View<'_, S>,
    column: u32,
    from: u32,
    to: u32,
) -> Result<bool, AllocError>
    ensures ok { IfOk result
        (λ lent. lent ≡ true
        → page.new
        ≡ page.old
        ++ piece_text record {
          cells = part column from to view.now.table.places;
          flags = slice_range (flags_of view.now.table.places) from to;
        }) }
{
    let Ok(mut texts) = view.texts(column, from, to) else {
        return Ok(false);
    };
    page.text("piece ")?;
    marks_at(page, view, from, to)?;
    page.text(" ")?;
    text_row(page, &mut texts)?;
    Ok(true)
}

/// Prints the pieces of a part of a column of texts, one for each row group. Returns false if one cannot be lent.
fn lent_texts<S: FarTickets>(
    page: &mut Page,
    view: &View<'_, S>,
    column: u32,
    from: u32,
    to: u32,
) -> Result<bool, AllocError>
    ensures ok { IfOk result
        (λ lent. lent ≡ true
        → page.new ≡ page.old ++ texts_of piece_text (lent_part view.now.table column from to)) }
{
    let size = view.size();
    let mut start = from;
    while start < to {
        let end = (to as usize).min((start as usize / size + 1) * size) as u32;
        if !text_piece(page, view, column, start, end)? {
            return Ok(false);
        }
        start = end;
    }
    Ok(true)
}

/// Makes the reply the pieces of a part of a column, or `empty`. Reads each value in place. Returns false if the part
/// cannot be lent.
#[inline(never)]
pub fn lent<S: FarTickets>(
    reply: &mut Page,
    frame: &Frame<S>,
    column: u32,
    from: u32,
    to: u32,
) -> Result<bool, AllocError>
    ensures ok { IfOk result
        (λ lent. lent ≡ true → reply.new ≡ pieces_text (lent_part frame.now.table column from to)) }
{
    let view = frame.scope();
    // For the proof: shows that row groups are not empty.
    let _size = view.size();
    reply.truncate(0);
    if from >= to {
        reply.text("empty\n")?;
        return Ok(true);
    }
    match frame.schema().get(column as usize) {
        Some(Kind::Int) => lent_ints(reply, &view, column, from, to),
        Some(Kind::Text) => lent_texts(reply, &view, column, from, to),
        None => Ok(false),
    }
}
