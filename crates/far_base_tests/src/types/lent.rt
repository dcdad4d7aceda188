// Rows that are lent in place.
use far_types::{CellRef, LentRow};

fn is_text(cell: Option<CellRef<'_>>, expected: &str) -> bool {
    matches!(cell, Some(CellRef::Text(text)) if text == expected)
}

/// Returns whether a row has its cells in order, and `with` replaces one of them.
fn has_its_cells() -> bool {
    let mut row = LentRow::new();
    row.push(CellRef::Int(1));
    row.push(CellRef::Text("a"));
    let is_in_order = row.len() == 2 && is_text(row.get(1), "a");
    is_in_order && is_text(row.with(1, CellRef::Text("b")).get(1), "b")
}

#[test]
fn a_lent_row_gets_cells_in_order_and_another_cell(rt: HostRuntime) {
    assert!(rt; has_its_cells());
}
