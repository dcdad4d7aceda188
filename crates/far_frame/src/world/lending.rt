// Serves the step that lends a part of a column.
ghost use Rattle.std.specs.Prelude.{◌≡◌, ℕ, List, true, None, Some, map, option_copied, slice_get, IfOk, IfErr, OnOk};
ghost use Rattle.far_types.specs.MayRefuse.{MayRefuse};
ghost use Rattle.far_rows.specs.Jobs.{AreAt};
ghost use Rattle.far_rows.specs.Refusing.{ints_refusal, texts_refusal};
ghost use Rattle.far_frame.specs.Effects.{Changes};
ghost use Rattle.far_frame.specs.Lending.{IsReplyOf, int_piece, ints_lent, lent_part, lend_refusal, text_piece, texts_lent};

use crate::frame::Frame;
use crate::piece::{IntPiece, TextPiece};
use crate::step::{Reply, Step};
use far_columns::Lent;
use far_store::FarTickets;
use far_texts::TextCells;
use far_types::{Kind, Refusal, Text};
use std::alloc::Global;

/// Copies a part of a column, and records the accesses to its row groups.
pub(super) fn lend<S: FarTickets>(
    frame: &mut Frame<S>,
    alloc: Global,
    column: u32,
    from: u32,
    to: u32,
) -> Reply
    ensures changes { Changes S.content frame.old (Step.Lend column from to) result frame.new }
    ensures here { (id : List ℕ) → AreAt S.is_of id frame.old.rows
        → AreAt S.is_of id frame.new.rows }
{
    match copied(frame, alloc, column, from, to) {
        Ok(reply) => {
            frame.record_accesses(column, from, to);
            reply
        }
        Err(refusal) => Reply::Refused(refusal),
    }
}

/// Copies a part of a column, as a reply.
fn copied<S: FarTickets>(
    frame: &Frame<S>,
    alloc: Global,
    column: u32,
    from: u32,
    to: u32,
) -> Result<Reply, Refusal>
    ensures given { IfOk result
        (IsReplyOf (slice_get frame.now.table.schema column)
        (lent_part frame.now.table column from to)) }
    ensures due { OnOk result (lend_refusal frame.now.rows column from to ≡ None) }
    ensures refused { IfErr result (MayRefuse (lend_refusal frame.now.rows column from to) true) }
{
    match frame.scope().kind(column) {
        Some(Kind::Int) => Ok(Reply::Ints(copied_ints(frame, alloc, column, from, to)?)),
        Some(Kind::Text) => Ok(Reply::Texts(copied_texts(frame, alloc, column, from, to)?)),
        None => Err(Refusal::NoColumn),
    }
}

/// Copies a part of a column of numbers, as one piece for each of its row groups.
fn copied_ints<S: FarTickets>(
    frame: &Frame<S>,
    alloc: Global,
    column: u32,
    from: u32,
    to: u32,
) -> Result<Vec<IntPiece>, Refusal>
    ensures pieces { IfOk result
        (λ copies. map int_piece copies.items ≡ lent_part frame.now.table column from to) }
    ensures due { OnOk result (ints_refusal frame.now.rows column from to ≡ None) }
    ensures refused { IfErr result (MayRefuse (ints_refusal frame.now.rows column from to) true) }
{
    let view = frame.scope();
    let mut lents = view.ints(column, from, to)?;
    let mut copies = Vec::with_capacity(alloc, lents.len())?;
    while let Some(lent) = lents.next() {
        copies.push(copy_ints(alloc, &lent)?)?;
    }
    Ok(copies)
}

/// Copies a piece of numbers. Refused only with `NoMemory` (1).
fn copy_ints(alloc: Global, lent: &Lent<'_>) -> Result<IntPiece, Refusal>
    ensures copy { IfOk result
        (λ copy. int_piece copy ≡ ints_lent (lent.now.values.now, lent.now.alive.now)) }
    ensures memory { IfErr result (λ e. e ≡ Refusal.NoMemory) }
{
    Ok(IntPiece {
        values: Vec::from_slice(alloc, lent.values)?,
        flags: Vec::from_slice(alloc, lent.alive)?,
    })
}

/// Copies a part of a column of texts, as one piece for each of its row groups.
fn copied_texts<S: FarTickets>(
    frame: &Frame<S>,
    alloc: Global,
    column: u32,
    from: u32,
    to: u32,
) -> Result<Vec<TextPiece>, Refusal>
    ensures pieces { IfOk result
        (λ copies. map text_piece copies.items ≡ lent_part frame.now.table column from to) }
    ensures due { OnOk result (texts_refusal frame.now.rows column from to ≡ None) }
    ensures refused { IfErr result (MayRefuse (texts_refusal frame.now.rows column from to) true) }
{
    let view = frame.scope();
    // Checks that the whole part is local before anything is copied.
    view.texts(column, from, to)?;
    let size = view.size();
    let mut copies = Vec::new(alloc);
    let mut start = from;
    while start < to {
        let end = (to as usize).min((start as usize / size + 1) * size) as u32;
        let mut texts = view.texts(column, start, end)?;
        copies.push(copy_texts(alloc, &mut texts)?)?;
        start = end;
    }
    Ok(copies)
}

/// Copies a piece of texts. Refused only with `NoMemory` (1).
fn copy_texts<S: FarTickets>(
    alloc: Global,
    lent: &mut TextCells<'_, S>,
) -> Result<TextPiece, Refusal>
    ensures copy { IfOk result (λ copy. text_piece copy ≡ texts_lent lent.old) }
    ensures memory { IfErr result (λ e. e ≡ Refusal.NoMemory) }
{
    let mut values = Vec::new(alloc);
    let mut flags = Vec::new(alloc);
    while let Some(cell) = lent.next() {
        values.push(copy_text(alloc, cell.text)?)?;
        flags.push(cell.alive)?;
    }
    Ok(TextPiece { values, flags })
}

/// Copies a text, if there is one. Refused only with `NoMemory` (1).
fn copy_text(alloc: Global, text: Option<&str>) -> Result<Option<Text>, Refusal>
    ensures copy { IfOk result (λ copy. copy ≡ option_copied text.entry) }
    ensures memory { IfErr result (λ e. e ≡ Refusal.NoMemory) }
{
    match text {
        Some(text) => Ok(Some(Text::new(String::from_str(alloc, text)?))),
        None => Ok(None),
    }
}
