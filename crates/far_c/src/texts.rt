// Texts of a column, copied.
ghost use Rattle.std.specs.Prelude.{◌≡◌, ◌≢◌, ◌<◌, ◌≤◌, ◌+◌, ◌++◌, ◌-◌, ◌^◌, [], None, Some, IfErr, IfOk, IsFalse, IsSomeAnd, IsTrue, OnErr, OnOk, drop, length, map, min, option_copied, take};
ghost use Rattle.std.specs.Option.{MatchOption};
ghost use Rattle.far_types.specs.Lent.{text_cell};
ghost use Rattle.far_types.specs.Table.{part};
ghost use Rattle.far_rows.specs.Refusing.{texts_refusal};
ghost use Rattle.far_frame.specs.Lending.{lend_refusal};
ghost use Rattle.far_c.specs.TableState.{places_of};
ghost use Rattle.far_c.specs.Outcomes.{Behind, IsDue, IsRefusal, IsRejected, IsRejectedFor};
ghost use Rattle.far_c.specs.Parts.{AreTextsOf, FitTexts, HasNoSpace, IsNotCopied, IsPartLent, alive_of, bytes_of, cells_in, has_value, texts_of};

use crate::code::{BAD_ARGUMENT, CLOSED, OK, SHORT_BUFFER};
use crate::handle::Handle;
use crate::table::Table;
use far_host::HostStore;
use far_texts::TextCells;
use far_types::Refusal;

/// Writes the number of bytes of the texts of the places `from` up to `to` of a column.
#[unsafe(no_mangle)]
pub extern "C" fn fc_texts_size(
    handle: &mut Handle,
    column: u32,
    from: u32,
    to: u32,
    size: &mut usize,
) -> u32
    ensures size { result ≡ 0
        → IsSomeAnd handle.old.table
        (λ old. size.new
        ≡ min (length (texts_of (part column from to (places_of old)))) (2 ^ 64 - 1)) }
    ensures kept { result ≡ 0 → handle.new.table ≡ handle.old.table }
    ensures refused { IsRefusal result
        → Behind (IsDue (λ old. texts_refusal old.world.state.rows column from to) result)
        handle.old.table handle.new.table }
    ensures rejected { 100 ≤ result → IsRejected [] result handle.old.table handle.new.table }
    ensures left { result ≢ 0 → size.new ≡ size.old }
{
    let Some(table) = handle.table() else {
        return CLOSED;
    };
    match lent_texts(table, column, from, to) {
        Ok(texts) => {
            *size = size_of_texts(texts);
            OK
        }
        Err(refusal) => table.refuse(refusal),
    }
}

// Lends the texts of a part of a column.
fn lent_texts<'a>(
    table: &'a Table,
    column: u32,
    from: u32,
    to: u32,
) -> Result<TextCells<'a, HostStore>, Refusal>
    ensures cells { IfOk result
        (λ texts. cells_in texts ≡ part column from to (places_of table.now)) }
    ensures flags { IfOk result
        (λ texts. map (λ text. text.1) texts ≡ alive_of (places_of table.now) from to) }
    ensures free { OnOk result (lend_refusal table.now.world.state.rows column from to ≡ None) }
    ensures refused { IfErr result
        (λ why. texts_refusal table.now.world.state.rows column from to ≡ Some why) }
{
    table.world().frame().scope().texts(column, from, to)
}

// Returns the number of bytes of texts, or 2^64 - 1 if they have more.
fn size_of_texts(texts: TextCells<'_, HostStore>) -> usize
    ensures { result ≡ min (length (texts_of (cells_in texts.entry))) (2 ^ 64 - 1) }
{
    let mut texts = texts;
    let mut size = 0usize;
    while let Some(cell) = texts.next() {
        let (_, text) = parts_of(cell.text);
        size = size.saturating_add(text.len());
    }
    size
}

/// Copies the texts of the places `from` up to `to` of a column, one after another, with their offsets, whether each place has a
/// text, and whether it is alive.
#[unsafe(no_mangle)]
pub extern "C" fn fc_texts(
    handle: &mut Handle,
    column: u32,
    from: u32,
    to: u32,
    offsets: &mut [u64],
    bytes: &mut [u8],
    valid: &mut [bool],
    alive: &mut [bool],
) -> u32
    ensures texts { result ≡ 0
        → IsSomeAnd handle.old.table
        (λ old. AreTextsOf
        (part column from to (places_of old)) offsets.new bytes.new valid.new) }
    ensures alive { result ≡ 0
        → IsSomeAnd handle.old.table (λ old. alive.new ≡ alive_of (places_of old) from to) }
    ensures lent { result ≡ 0
        → Behind (IsPartLent column from to) handle.old.table handle.new.table }
    ensures refused { IsRefusal result
        → Behind (IsDue (λ old. texts_refusal old.world.state.rows column from to) result)
        handle.old.table handle.new.table }
    ensures rejected { 100 ≤ result
        → IsRejectedFor
        (IsNotCopied
        (FitTexts from to (length offsets.old) (length valid.old) (length alive.old))
        column from to (length bytes.old))
        result handle.old.table handle.new.table }
    ensures lengths { result < 100
        → FitTexts from to (length offsets.old) (length valid.old) (length alive.old) }
{
    let Some(table) = handle.table() else {
        return CLOSED;
    };
    let len = (to as usize).saturating_sub(from as usize);
    if offsets.len() != len + 1 || valid.len() != len || alive.len() != len {
        return BAD_ARGUMENT;
    }
    match read_texts(table, column, from, to, offsets, bytes, valid, alive) {
        Ok(true) => OK,
        Ok(false) => SHORT_BUFFER,
        Err(refusal) => table.refuse(refusal),
    }
}

// Copies texts into buffers, and records that they were read. Returns whether the buffer of their bytes has the space; if not,
// records nothing.
fn read_texts(
    table: &mut Table,
    column: u32,
    from: u32,
    to: u32,
    offsets: &mut [u64],
    bytes: &mut [u8],
    valid: &mut [bool],
    alive: &mut [bool],
) -> Result<bool, Refusal>
    requires { FitTexts from to (length offsets.old) (length valid.old) (length alive.old) }
    ensures texts { IfOk result
        (λ whole. IsTrue whole
        → AreTextsOf
        (part column from to (places_of table.old)) offsets.new bytes.new valid.new) }
    ensures alive { IfOk result
        (λ whole. IsTrue whole → alive.new ≡ alive_of (places_of table.old) from to) }
    ensures lent { IfOk result
        (λ whole. IsTrue whole → IsPartLent column from to table.old table.new) }
    ensures short { IfOk result
        (λ whole. IsFalse whole
        → HasNoSpace (part column from to (places_of table.old)) (length bytes.old)
        × (table.new ≡ table.old)) }
    ensures refused { IfErr result
        (λ why. texts_refusal table.old.world.state.rows column from to ≡ Some why) }
    ensures err { OnErr result (table.new ≡ table.old) }
{
    let texts = lent_texts(table, column, from, to)?;
    if !copy_texts(texts, offsets, bytes, valid, alive) {
        return Ok(false);
    }
    table.record_lending(column, from, to)?;
    Ok(true)
}

// Copies texts. Returns whether the buffer of their bytes has the space.
fn copy_texts(
    texts: TextCells<'_, HostStore>,
    offsets: &mut [u64],
    bytes: &mut [u8],
    valid: &mut [bool],
    alive: &mut [bool],
) -> bool
    requires offsets { length offsets.old ≡ length valid.old + 1 }
    requires alive { length alive.old ≡ length valid.old }
    requires texts { length texts ≤ length valid.old }
    ensures texts { IsTrue result → length texts.entry ≡ length valid.old
        → AreTextsOf (cells_in texts.entry) offsets.new bytes.new valid.new }
    ensures alive { IsTrue result → length texts.entry ≡ length valid.old
        → alive.new ≡ map (λ text. text.1) texts.entry }
    ensures short { IsFalse result → HasNoSpace (cells_in texts.entry) (length bytes.old) }
{
    let mut texts = texts;
    let mut index = 0;
    let mut at = 0;
    while let Some(cell) = texts.next() {
        let (is_there, text) = parts_of(cell.text);
        let Some(end) = copy_text(text, bytes, at) else {
            return false;
        };
        offsets[index] = at as u64;
        valid[index] = is_there;
        alive[index] = cell.alive;
        index += 1;
        at = end;
    }
    offsets[index] = at as u64;
    true
}

// Returns whether a place has a text, and the text's bytes.
fn parts_of(text: Option<&str>) -> (bool, &[u8])
    ensures valid { result.0 ≡ has_value (text_cell (option_copied text.entry)) }
    ensures bytes { result.1.now ≡ bytes_of (text_cell (option_copied text.entry)) }
{
    match text {
        Some(text) => (true, text.as_bytes()),
        None => (false, b""),
    }
}

// Copies a text to a place of a buffer. Returns where it ends, or `None` if the buffer has no space for it.
fn copy_text(text: &[u8], bytes: &mut [u8], at: usize) -> Option<usize>
    requires { at ≤ length bytes.old }
    ensures end { MatchOption result (length bytes.old < at + length text.now)
        (λ end. (end ≡ at + length text.now) × (end ≤ length bytes.old)) }
    ensures bytes { MatchOption result (bytes.new ≡ bytes.old)
        (λ _. bytes.new ≡ take at bytes.old ++ text.now ++ drop (at + length text.now) bytes.old) }
{
    if text.len() > bytes.len() - at {
        return None;
    }
    let end = at + text.len();
    bytes[at..end].copy_from_slice(text);
    Some(end)
}
