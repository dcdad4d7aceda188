// The answer of an aggregate, line by line.
ghost use Rattle.std.specs.Prelude.{◌≡◌, ◌≢◌, ◌≤◌, ◌⊎◌, [], ◌∷◌, None, IfSome, IsSomeAnd, slice_get};
ghost use Rattle.std.specs.Option.{MatchOption};
ghost use Rattle.far_frame.specs.declared.step.Step.TheVariants as step;
ghost use Rattle.far_c.specs.Answering.{IsAsked, IsExtremaLine, IsKey, IsLineAt, IsPast, IsRecounted, IsTotalLine};
ghost use Rattle.far_c.specs.Cells.{cell_of};
ghost use Rattle.far_c.specs.Keys.{IsKeyAt, IsNoKeyOf, key_of, keys_of};
ghost use Rattle.far_c.specs.Outcomes.{Behind, IsOneOf, IsRefused, IsRefusal, IsRejected, IsRejectedFor, IsUsedUp};
ghost use Rattle.far_c.specs.Unreadable.{CellFault, IsReadable, IsUnreadable};

use crate::cell::{FcCell, INT, MISSING, TEXT};
use crate::code::{CLOSED, NOTHING, OK, USED_UP};
use crate::handle::Handle;
use crate::replies;
use crate::spec::{EXTREMA, TOTALS};
use crate::table::Table;
use crate::words::words;
use far_frame::Step;
use far_types::{Answer, ExtremaLines, Key, TotalLines};

/// A line of an answer: a key and its values. The fold says which of the numbers count.
#[repr(C)]
#[derive(Drop)]
pub struct FcLine<'a> {
    pub key_text: &'a [u8],
    pub key_number: i64,
    pub count: u64,
    pub sum_low: u64,
    pub sum_high: i64,
    pub min: i64,
    pub max: i64,
    pub key_kind: u32,
    pub fold: u32,
}

/// Asks an aggregate, keeps its answer in the handle, and writes the number of its lines.
#[unsafe(no_mangle)]
pub extern "C" fn fc_ask(handle: &mut Handle, aggregate: u32, lines: &mut usize) -> u32
    ensures served { result ≡ 0
        → Behind (IsAsked aggregate lines.new) handle.old.table handle.new.table }
    ensures refused { IsRefusal result
        → Behind (IsRefused result (step.Ask aggregate)) handle.old.table handle.new.table }
    ensures rejected { 100 ≤ result → IsRejected [] result handle.old.table handle.new.table }
    ensures lines { result ≢ 0 → lines.new ≡ lines.old }
{
    let Some(table) = handle.table() else {
        return CLOSED;
    };
    match replies::answer(table.serve(Step::Ask(aggregate))) {
        Ok(answer) => {
            *lines = table.keep(answer);
            OK
        }
        Err(refusal) => table.refuse(refusal),
    }
}

/// Computes the answer of an aggregate from scratch, whatever is pending in it, and keeps it in the handle as `fc_ask` does.
#[unsafe(no_mangle)]
pub extern "C" fn fc_recount(handle: &mut Handle, aggregate: u32, lines: &mut usize) -> u32
    ensures served { result ≡ 0
        → Behind (IsRecounted aggregate lines.new) handle.old.table handle.new.table }
    ensures rejected { 100 ≤ result
        → IsRejectedFor IsUsedUp result handle.old.table handle.new.table }
    ensures lines { result ≢ 0 → lines.new ≡ lines.old }
{
    let Some(table) = handle.table() else {
        return CLOSED;
    };
    if !table.may_fault() {
        return USED_UP;
    }
    match table.recount(aggregate) {
        Ok(answer) => {
            *lines = table.keep(answer);
            OK
        }
        Err(refusal) => table.refuse(refusal),
    }
}

/// Writes a line of the answer in the handle.
#[unsafe(no_mangle)]
pub extern "C" fn fc_line_at<'a>(handle: &'a mut Handle, index: usize, line: &mut FcLine<'a>) -> u32
    ensures line { result ≡ 0
        → IsSomeAnd handle.old.table
        (λ old. IsSomeAnd old.answer (λ answer. IsLineAt answer index line.new)) }
    ensures past { result ≡ 104
        → IsSomeAnd handle.old.table (λ old. IfSome old.answer (λ answer. IsPast answer index)) }
    ensures codes { MatchOption handle.old.table (result ≡ 100)
        (λ _. IsOneOf (0 ∷ 104 ∷ []) result) }
{
    let Some(table) = handle.table() else {
        return CLOSED;
    };
    lend_line(table, index, line)
}

// Writes a line of the answer in the handle. The line borrows its text.
fn lend_line<'a>(table: &'a Table, index: usize, line: &mut FcLine<'a>) -> u32
    ensures line { result ≡ 0
        → IsSomeAnd table.now.answer (λ answer. IsLineAt answer index line.new) }
    ensures past { result ≡ 104 → IfSome table.now.answer (λ answer. IsPast answer index) }
    ensures codes { IsOneOf (0 ∷ 104 ∷ []) result }
{
    let Some(answer) = table.answer() else {
        return NOTHING;
    };
    match line_of(answer.get(), index) {
        Some(found) => {
            *line = found;
            OK
        }
        None => NOTHING,
    }
}

/// Writes the index of the line with a key in the answer in the handle.
#[unsafe(no_mangle)]
pub extern "C" fn fc_find(handle: &mut Handle, key: &FcCell<'_>, index: &mut usize) -> u32
    ensures found { result ≡ 0
        → IsSomeAnd handle.old.table
        (λ old. IsSomeAnd old.answer
        (λ answer. IsKeyAt (keys_of answer) index.new (key_of (cell_of key.now)))) }
    ensures none { result ≡ 104
        → IsSomeAnd handle.old.table
        (λ old. IfSome old.answer
        (λ answer. IsNoKeyOf (keys_of answer) (key_of (cell_of key.now)))) }
    ensures codes { MatchOption handle.old.table (result ≡ 100)
        (λ _. IsUnreadable (CellFault key.now) result
        ⊎ (IsReadable key.now × IsOneOf (0 ∷ 104 ∷ []) result)) }
    ensures kept { handle.new.table ≡ handle.old.table }
    ensures index { result ≢ 0 → index.new ≡ index.old }
{
    let Some(table) = handle.table() else {
        return CLOSED;
    };
    let key = match key.lend() {
        Ok(key) => key,
        Err(why) => return table.turn_away(why),
    };
    let Some(answer) = table.answer() else {
        return NOTHING;
    };
    match answer.index_of(key) {
        Some(found) => {
            *index = found;
            OK
        }
        None => NOTHING,
    }
}

/// Returns the line of an answer at an index.
pub fn line_of<'a>(answer: &'a Answer, index: usize) -> Option<FcLine<'a>>
    ensures { MatchOption result (IsPast answer.now index)
        (λ line. IsLineAt answer.now index line) }
{
    match answer {
        Answer::Totals(lines) => total_line(lines, index),
        Answer::Extrema(lines) => extrema_line(lines, index),
    }
}

fn total_line<'a>(lines: &'a TotalLines, index: usize) -> Option<FcLine<'a>>
    ensures { MatchOption result (slice_get lines.now index ≡ None)
        (λ line. IsSomeAnd (slice_get lines.now index) (λ found. IsTotalLine found line)) }
{
    let line = lines.as_slice().get(index)?;
    Some(FcLine::of_total(line))
}

fn extrema_line<'a>(lines: &'a ExtremaLines, index: usize) -> Option<FcLine<'a>>
    ensures { MatchOption result (slice_get lines.now index ≡ None)
        (λ line. IsSomeAnd (slice_get lines.now index) (λ found. IsExtremaLine found line)) }
{
    let line = lines.as_slice().get(index)?;
    Some(FcLine::of_extrema(line))
}

impl<'a> FcLine<'a> {
    fn of_total(line: &'a (Option<Key>, u64, i128)) -> FcLine<'a>
        ensures { IsTotalLine line.now result }
    {
        let (key, count, sum) = line;
        let (key_kind, key_number, key_text) = parts_of(key);
        let (sum_low, sum_high) = words(*sum);
        FcLine {
            key_text,
            key_number,
            count: *count,
            sum_low,
            sum_high,
            min: 0,
            max: 0,
            key_kind,
            fold: TOTALS,
        }
    }

    fn of_extrema(line: &'a (Option<Key>, i64, i64)) -> FcLine<'a>
        ensures { IsExtremaLine line.now result }
    {
        let (key, min, max) = line;
        let (key_kind, key_number, key_text) = parts_of(key);
        FcLine {
            key_text,
            key_number,
            count: 0,
            sum_low: 0,
            sum_high: 0,
            min: *min,
            max: *max,
            key_kind,
            fold: EXTREMA,
        }
    }
}

// The kind, the number and the text of a key, as a line has them.
fn parts_of(key: &Option<Key>) -> (u32, i64, &[u8])
    ensures { IsKey key.now result.0 result.1 result.2.now }
{
    match key {
        None => (MISSING, 0, b""),
        Some(Key::Int(number)) => (INT, *number, b""),
        Some(Key::Text(text)) => (TEXT, 0, text.as_bytes()),
    }
}
