// The line of one key, without the other lines of an answer.
ghost use Rattle.std.specs.Prelude.{◌≡◌, ◌≢◌, ◌<◌, ◌≤◌, IfOk, IfErr, IsSomeAnd};
ghost use Rattle.far_types.specs.Lent.{lent_cell};
ghost use Rattle.far_c.specs.Answering.{IsKey};
ghost use Rattle.far_c.specs.Cells.{cell_of};
ghost use Rattle.far_c.specs.KeyLines.{AnswersCell, HasLine, HasNoLine, IsLine, IsNotAnswered, MayRefuseKey};
ghost use Rattle.far_c.specs.Keys.{key_of};
ghost use Rattle.far_c.specs.Outcomes.{Behind, IsRefusal, IsRejectedFor};
ghost use Rattle.far_c.specs.Unreadable.{IsReadable};

use crate::answer::FcLine;
use crate::cell::{FcCell, INT, MISSING, TEXT};
use crate::code::{CLOSED, NOTHING, OK};
use crate::handle::Handle;
use crate::spec::{EXTREMA, TOTALS};
use crate::table::Table;
use crate::words::words;
use far_aggregates::Line;
use far_types::{CellRef, Refusal};
use std::alloc::Global;

/// Writes the line of a key in the answer of an aggregate. Makes no other line, and leaves the answer in the handle unchanged.
#[unsafe(no_mangle)]
pub extern "C" fn fc_ask_key<'a>(
    alloc: Global,
    handle: &mut Handle,
    aggregate: u32,
    key: &'a FcCell<'a>,
    line: &mut FcLine<'a>,
) -> u32
    ensures line { result ≡ 0
        → IsSomeAnd handle.old.table
        (λ old. HasLine old.world.state.table aggregate (cell_of key.now) line.new) }
    ensures refused { IsRefusal result
        → Behind (IsNotAnswered result aggregate) handle.old.table handle.new.table }
    ensures rejected { 100 ≤ result
        → IsRejectedFor (HasNoLine aggregate key.now) result handle.old.table handle.new.table }
    ensures read { result < 100 → IsReadable key.now }
    ensures kept { result ≡ 0 → handle.new.table ≡ handle.old.table }
    ensures unwritten { result ≢ 0 → line.new ≡ line.old }
{
    let Some(table) = handle.table() else {
        return CLOSED;
    };
    let key = match key.lend() {
        Ok(key) => key,
        Err(why) => return table.turn_away(why),
    };
    match found_under(alloc, table, aggregate, key) {
        Ok(Some(found)) => {
            *line = line_of(key, found);
            OK
        }
        Ok(None) => NOTHING,
        Err(refusal) => table.refuse(refusal),
    }
}

// Returns the line of the key that a cell names. A text is copied into a key first; if that fails, a refusal of the ask comes first.
fn found_under(
    alloc: Global,
    table: &Table,
    aggregate: u32,
    key: CellRef<'_>,
) -> Result<Option<Line>, Refusal>
    ensures ok { IfOk result
        (AnswersCell table.now.world.state.table aggregate (lent_cell key.entry)) }
    ensures err { IfErr result (MayRefuseKey table.now.world.state.table aggregate) }
{
    let frame = table.world().frame();
    match key.key(alloc, None) {
        Ok(key) => frame.line(aggregate, &key),
        Err(no_memory) => {
            frame.line(aggregate, &None)?;
            Err(no_memory.into())
        }
    }
}

// Makes a line, which borrows the key's text from the caller.
fn line_of<'a>(key: CellRef<'a>, found: Line) -> FcLine<'a>
    ensures { IsLine (key_of (lent_cell key.entry)) found result }
{
    let (key_kind, key_number, key_text) = parts_of(key);
    let mut line = FcLine {
        key_text,
        key_number,
        count: 0,
        sum_low: 0,
        sum_high: 0,
        min: 0,
        max: 0,
        key_kind,
        fold: TOTALS,
    };
    match found {
        Line::Totals { count, sum } => {
            let (sum_low, sum_high) = words(sum);
            line.count = count;
            line.sum_low = sum_low;
            line.sum_high = sum_high;
        }
        Line::Extrema { min, max } => {
            line.min = min;
            line.max = max;
            line.fold = EXTREMA;
        }
    }
    line
}

// Returns the kind, the number and the text of the key that a cell names.
fn parts_of(key: CellRef<'_>) -> (u32, i64, &[u8])
    ensures { IsKey (key_of (lent_cell key.entry)) result.0 result.1 result.2.now }
{
    match key {
        CellRef::Missing => (MISSING, 0, b""),
        CellRef::Int(number) => (INT, number, b""),
        CellRef::Text(text) => (TEXT, 0, text.as_bytes()),
    }
}
