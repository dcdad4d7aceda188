// Faults of an edit itself, whichever objects are local: the first of refusals 4 to 10, in their order. Nothing here allocates.
ghost use Rattle.std.specs.Prelude.{◌≡◌, ◌==◌, ◌&&◌, not, ◌∷◌, [], ℕ, List, Option, is_none, length, option_map, slice_get};
ghost use Rattle.std.specs.List.{list_all, list_any, zip};
ghost use Rattle.far_types.specs.declared.cell.Cell.{Cell};
ghost use Rattle.far_types.specs.declared.cell.Kind.{Kind};
ghost use Rattle.far_types.specs.declared.edit.Edit.TheVariants as edit;
ghost use Rattle.far_types.specs.Cells.{is_of_kind, is_too_long};
ghost use Rattle.far_types.specs.declared.limits.Limits.{Limits};
ghost use Rattle.far_types.specs.Edits.{edit_faults, kinds_fit, is_dead};
ghost use Rattle.far_types.specs.FirstOf.{first_of};
ghost use Rattle.far_types.specs.Table.{Place};
ghost use Rattle.far_scopes.specs.Refusing.{refusal_in};

use far_types::{Cell, Kind, Limits, Refusal, Row, Schema};

/// Returns whether a cell is of this kind, or missing.
fn is_of_kind(kind: Kind, cell: &Cell) -> bool
    ensures { result ≡ is_of_kind kind cell.now }
{
    match (kind, cell) {
        (Kind::Int, Cell::Text(_)) => false,
        (Kind::Text, Cell::Int(_)) => false,
        _ => true,
    }
}

/// Returns whether a cell is a text of more than 4,096 bytes.
fn is_too_long(cell: &Cell) -> bool
    ensures { result ≡ is_too_long cell.now }
{
    match cell {
        Cell::Text(text) => text.len() > 4096,
        _ => false,
    }
}

/// Returns whether the kinds are right at the columns that schema and row both have.
fn kinds_fit(schema: &Schema, row: &Row) -> bool
    ensures { result ≡ kinds_fit schema.now row.now }
{
    schema
        .as_slice()
        .iter()
        .zip(row.as_slice())
        .all(|(kind, cell)| is_of_kind(*kind, cell))
}

fn has_too_long(row: &Row) -> bool
    ensures { result ≡ list_any is_too_long row.now }
{
    row.as_slice().iter().any(|cell| is_too_long(cell))
}

/// Returns whether a cell is of this kind, or missing, and is not a text that is too long.
fn may_stand(kind: Kind, cell: &Cell) -> bool
    ensures { result ≡ (is_of_kind kind cell.now && not (is_too_long cell.now)) }
{
    is_of_kind(kind, cell) && !is_too_long(cell)
}

/// Returns whether each cell fits its column, at the columns that schema and row both have. Looks at each cell once.
fn each_may_stand(schema: &Schema, row: &Row) -> bool
    ensures { result
        ≡ list_all (λ (at : Kind × Cell). is_of_kind at.0 at.1 && not (is_too_long at.1))
        (zip schema.now row.now) }
{
    schema
        .as_slice()
        .iter()
        .zip(row.as_slice())
        .all(|(kind, cell)| may_stand(*kind, cell))
}

/// Returns whether a row has a cell for each column, and each cell fits.
fn is_faultless(schema: &Schema, row: &Row) -> bool
    ensures { result
        ≡ ((length row.now == length schema.now)
        && list_all (λ (at : Kind × Cell). is_of_kind at.0 at.1 && not (is_too_long at.1))
        (zip schema.now row.now)) }
{
    row.len() == schema.len() && each_may_stand(schema, row)
}

/// Checks that a table of `len` places may have one more. Refused with `TableFull` (10).
fn one_more(limits: &Limits, len: usize) -> Result<(), Refusal>
    ensures { refusal_in result ≡ first_of ((len == limits.now.places, Refusal.TableFull) ∷ []) }
{
    if len == limits.places as usize {
        return Err(Refusal::TableFull);
    }
    Ok(())
}

/// Checks a new row after `len` places. Refused with the first of these that applies: `WrongKind` (5), `RowWidth` (6),
/// `TextTooLong` (7), `TableFull` (10).
pub(crate) fn row_faults(
    schema: &Schema,
    limits: &Limits,
    len: usize,
    row: &Row,
) -> Result<(), Refusal>
    ensures { (places : List Place) → length places ≡ len
        → refusal_in result
        ≡ first_of (edit_faults schema.now limits.now places (edit.Insert row.now)) }
{
    // Most rows have no fault of their own.
    if is_faultless(schema, row) {
        return one_more(limits, len);
    }
    if !kinds_fit(schema, row) {
        return Err(Refusal::WrongKind);
    }
    if row.len() != schema.len() {
        return Err(Refusal::RowWidth);
    }
    if has_too_long(row) {
        return Err(Refusal::TextTooLong);
    }
    one_more(limits, len)
}

/// Checks a new cell of a column, at a place that is alive, is dead or does not exist. Refused with the first of these that applies:
/// `NoColumn` (4), `WrongKind` (5), `TextTooLong` (7), `NoRow` (8), `RemovedRow` (9).
pub(crate) fn cell_faults(
    schema: &Schema,
    column: u32,
    alive: Option<bool>,
    cell: &Cell,
) -> Result<(), Refusal>
    ensures { (limits : Limits) → (places : List Place) → (place : ℕ)
        → option_map (λ p. p.alive) (slice_get places place) ≡ alive
        → refusal_in result
        ≡ first_of (edit_faults schema.now limits places (edit.Set place column cell.now)) }
{
    let Some(kind) = schema.get(column as usize) else {
        return Err(Refusal::NoColumn);
    };
    if !is_of_kind(kind, cell) {
        return Err(Refusal::WrongKind);
    }
    if is_too_long(cell) {
        return Err(Refusal::TextTooLong);
    }
    living(alive)
}

/// Checks a place that is alive, is dead or does not exist. Refused with `NoRow` (8) or `RemovedRow` (9).
pub(crate) fn living(alive: Option<bool>) -> Result<(), Refusal>
    ensures { (at : Option Place) → option_map (λ p. p.alive) at ≡ alive
        → refusal_in result
        ≡ first_of ((is_none at, Refusal.NoRow) ∷ (is_dead at, Refusal.RemovedRow) ∷ []) }
{
    match alive {
        None => Err(Refusal::NoRow),
        Some(true) => Ok(()),
        Some(false) => Err(Refusal::RemovedRow),
    }
}
