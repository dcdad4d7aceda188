// Reads fields as cells and rows.
ghost use Rattle.std.specs.Prelude.{◌≡◌, ◌==◌, ◌+◌, ◌<◌, ◌≤◌, ◌++◌, ◌∷◌, [], vec_len, IfOk, OnOk, option_map, slice_get, None, Some, length, take};
ghost use Rattle.std.specs.String.{string_bytes};
ghost use Rattle.std.specs.List.{slice_split, list_any, position_or_len, before_first};
ghost use Rattle.csv.specs.Records.{fields_of};
ghost use Rattle.far_script.specs.OneRecord.{one_record, is_comma};
ghost use Rattle.far_script.specs.Fields.{cell_of, cells_from, row_of, lone_cell_of, only_field, is_missing_mark};

use super::cut::{behind, cut};
use super::number::{first_signed, signed_number};
use super::record::{is_plain, read_record};
use csv::StringRecord;
use far_types::{Cell, Kind, Row, Text};
use std::alloc::{AllocError, Global};
use std::mem;

/// Returns whether a field is `\N`, the mark of a missing cell.
fn is_missing_mark(field: &str) -> bool
    ensures { result ≡ is_missing_mark field.now }
{
    field == "\\N"
}

/// Reads a field as a cell: `\N` as `Missing` in every column, a number in a column of numbers as that number, anything
/// else as a text. Fails only if memory runs out.
pub fn cell(alloc: Global, column: Option<Kind>, field: &str) -> Result<Cell, AllocError>
    ensures cell { IfOk result (λ cell. cell ≡ cell_of column field.now) }
{
    cell_in(alloc, Cell::Missing, column, field)
}

/// Returns the kind of a column, or `None` if there is no such column.
pub fn kind_of(kinds: &[Kind], column: usize) -> Option<Kind>
    ensures { result ≡ slice_get kinds.now column }
{
    kinds.get(column).copied()
}

/// Returns the text before the first comma.
fn first_field(text: &str) -> &str
    ensures { result.now ≡ before_first is_comma text.now }
{
    match cut(text, b',') {
        Some((field, _)) => field,
        None => text,
    }
}

/// Copies a field into a string, which reuses the memory of `spare` if that is a text.
#[inline(always)]
fn string_in(alloc: Global, spare: Cell, field: &str) -> Result<String, AllocError>
    ensures string { IfOk result (λ string. string_bytes string ≡ field.now) }
{
    let Cell::Text(text) = spare else {
        return String::from_str(alloc, field);
    };
    let mut string = text.into_string();
    string.clear();
    string.push_str(field)?;
    Ok(string)
}

/// Reads a field as `cell` does, reusing the memory of `spare`. Inlined, since a cell that is passed to another call goes
/// through memory.
#[inline(always)]
fn cell_in(
    alloc: Global,
    spare: Cell,
    column: Option<Kind>,
    field: &str,
) -> Result<Cell, AllocError>
    ensures cell { IfOk result (λ cell. cell ≡ cell_of column field.now) }
{
    if is_missing_mark(field) {
        return Ok(Cell::Missing);
    }
    if let Some(Kind::Int) = column {
        if let Some(number) = signed_number(field) {
            return Ok(Cell::Int(number));
        }
    }
    Ok(Cell::Text(Text::new(string_in(alloc, spare, field)?)))
}

/// Reads the first field of a text as the cell at `at`, overwriting a cell that is no longer needed. Returns the field's
/// length. A number of few digits is read in one pass together with its comma.
#[inline(always)]
fn write_cell(
    alloc: Global,
    cells: &mut Vec<Cell>,
    at: usize,
    column: Option<Kind>,
    text: &str,
) -> Result<usize, AllocError>
    requires { at ≤ vec_len cells.old }
    ensures len { IfOk result (λ len. len ≡ position_or_len is_comma text.now) }
    ensures cell { OnOk result
        (take (at + 1) cells.new.items
        ≡ take at cells.old.items ++ cell_of column (before_first is_comma text.now) ∷ []) }
    ensures there { OnOk result (at < vec_len cells.new) }
{
    if at == cells.len() {
        cells.push(Cell::Missing)?;
    }
    if let Some(Kind::Int) = column {
        if let Some((number, len)) = first_signed(text.as_bytes()) {
            cells[at] = Cell::Int(number);
            return Ok(len);
        }
    }
    let field = first_field(text);
    let spare = mem::replace(&mut cells[at], Cell::Missing);
    cells[at] = cell_in(alloc, spare, column, field)?;
    Ok(field.len())
}

/// Returns the cells of the fields between the commas of a text, reusing the memory of cells that are no longer needed.
/// Fails only if memory runs out.
#[inline(always)]
pub fn cells_in(
    alloc: Global,
    spare: Vec<Cell>,
    kinds: &[Kind],
    text: &str,
) -> Result<Vec<Cell>, AllocError>
    ensures cells { IfOk result
        (λ cells. cells.items ≡ cells_from kinds.now 0 (slice_split is_comma text.now)) }
{
    let mut cells = spare;
    let mut rest = text;
    let mut count = 0;
    let mut more = true;
    while more {
        let column = kind_of(kinds, count);
        let len = write_cell(alloc, &mut cells, count, column, rest)?;
        count += 1;
        more = len < rest.len();
        rest = behind(rest, len, b',');
    }
    cells.truncate(count);
    Ok(cells)
}

/// Returns the cells of a record's fields. Fails only if memory runs out.
pub fn record_cells(
    alloc: Global,
    kinds: &[Kind],
    fields: &StringRecord,
) -> Result<Vec<Cell>, AllocError>
    ensures cells { IfOk result
        (λ cells. cells.items ≡ cells_from kinds.now 0 (fields_of fields.now)) }
{
    let mut cells = Vec::with_capacity(alloc, kinds.len())?;
    for i in 0..fields.len() {
        if let Some(field) = fields.get(i) {
            cells.push(cell(alloc, kind_of(kinds, i), field)?)?;
        }
    }
    Ok(cells)
}

/// Reads a text as a row, reusing the memory of cells that are no longer needed; `None` if the text is not exactly one
/// record. Fails only if memory runs out.
pub fn row(
    alloc: Global,
    spare: Vec<Cell>,
    kinds: &[Kind],
    text: &str,
) -> Result<Option<Row>, AllocError>
    ensures row { IfOk result (λ row. row ≡ row_of kinds.now text.now) }
{
    if text.is_empty() {
        return Ok(None);
    }
    if is_plain(text) {
        return Ok(Some(Row::new(cells_in(alloc, spare, kinds, text)?)));
    }
    match read_record(alloc, text)? {
        Some(record) => Ok(Some(Row::new(record_cells(alloc, kinds, &record)?))),
        None => Ok(None),
    }
}

fn has_comma(bytes: &[u8]) -> bool
    ensures { result ≡ list_any is_comma bytes.now }
{
    bytes.iter().any(|byte| *byte == b',')
}

/// Returns the cell of a record, or `None` if the record has not exactly one field.
fn lone_record_cell(
    alloc: Global,
    column: Option<Kind>,
    fields: &StringRecord,
) -> Result<Option<Cell>, AllocError>
    ensures cell { IfOk result
        (λ cell. cell ≡ option_map (cell_of column) (only_field (Some (fields_of fields.now)))) }
{
    if fields.len() != 1 {
        return Ok(None);
    }
    match fields.get(0) {
        Some(field) => Ok(Some(cell(alloc, column, field)?)),
        None => Ok(None),
    }
}

/// Reads a text as a cell; `None` if the text is not exactly one record of one field. A number is such a record. Fails
/// only if memory runs out.
pub fn lone_cell(
    alloc: Global,
    column: Option<Kind>,
    text: &str,
) -> Result<Option<Cell>, AllocError>
    ensures cell { IfOk result (λ cell. cell ≡ lone_cell_of column text.now) }
{
    if let Some(Kind::Int) = column {
        if let Some(number) = signed_number(text) {
            return Ok(Some(Cell::Int(number)));
        }
    }
    if text.is_empty() {
        return Ok(None);
    }
    if is_plain(text) && !has_comma(text.as_bytes()) {
        return Ok(Some(cell(alloc, column, text)?));
    }
    match read_record(alloc, text)? {
        Some(record) => lone_record_cell(alloc, column, &record),
        None => Ok(None),
    }
}
