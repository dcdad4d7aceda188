// The pairs of rows for an aggregate, from rows in memory and from lent ones.
use crate::cases::{all, must_be};
use crate::types::samples::{row, text_key};
use far_types::{CellRef, Key, LentRow, Refusal, Row, Spec};
use std::alloc::{AllocError, Global};

/// The pair of a row: its key and value.
type Pair = Option<(Option<Key>, i64)>;

/// Returns the pair of a row for the totals of its number, 7, under its second cell, with `earlier` as a key that can be
/// reused.
fn pair_under(alloc: Global, cell: CellRef<'_>, earlier: Option<Key>) -> Result<Pair, AllocError> {
    let mut row = LentRow::new();
    row.push(CellRef::Int(7));
    row.push(cell);
    let spec = Spec::totals(alloc, 0).by(1);
    spec.lend_pair(&row).pair(alloc, earlier)
}

/// Returns whether a row has its text as key, when the key of a number can be reused.
fn is_under_text(alloc: Global) -> Result<bool, Refusal> {
    let key = text_key(alloc, "ab")?;
    let pair = pair_under(alloc, CellRef::Text("ab"), Some(Key::Int(3)))?;
    Ok(pair == Some((Some(key), 7)))
}

/// Returns whether a row in memory has the same pair as the row lent.
fn gives_the_same(alloc: Global, row: &Row) -> Result<bool, Refusal> {
    if row.len() > 16 {
        return Ok(false);
    }
    let spec = Spec::totals(alloc, 0).by(1);
    let lent = spec.pair_of(alloc, &LentRow::of_row(row))?;
    Ok(spec.pair_of(alloc, row)? == lent)
}

fn is_given_in_hand_and_lent(alloc: Global) -> Result<bool, Refusal> {
    gives_the_same(alloc, &row(alloc)?)
}

#[test]
fn a_row_gives_its_value_under_its_key(rt: HostRuntime) {
    let alloc = rt.alloc();
    let are_given = all(&[is_under_text(alloc), is_given_in_hand_and_lent(alloc)]);
    must_be(&rt, are_given, Ok(true));
}
