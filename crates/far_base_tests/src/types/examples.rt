// The examples in the comments of far_types, and their results: a table of breads and how many of each were sold.
use crate::cases::{all, must_be};
use far_types::{
    Answer, Cell, Filter, Key, Kind, Limits, Op, Refusal, Row, Schema, Spec, Test, TotalLines,
};
use std::alloc::{AllocError, Global};

/// Returns a schema with a column of texts and one of numbers.
fn breads(alloc: Global) -> Result<Schema, Refusal> {
    let kinds = Vec::from_array(alloc, [Kind::Text, Kind::Int])?;
    Schema::new(kinds)
}

/// Returns whether limits for at most 1,000 rows are valid.
fn are_small_limits_allowed() -> bool {
    let limits = Limits {
        places: 1_000,
        ..Limits::default()
    };
    limits.check() == Ok(())
}

/// Returns a row of a bread and how many were sold.
fn sale(alloc: Global, bread: &str, sold: i64) -> Result<Row, Refusal> {
    let cells = [Cell::of_text(alloc, bread)?, Cell::from(sold)];
    Ok(Row::from(Vec::from_array(alloc, cells)?))
}

/// Returns whether no cell of a row is missing.
fn is_whole(row: &Row) -> bool {
    for cell in row {
        if let Cell::Missing = cell {
            return false;
        }
    }
    true
}

/// Returns a text, a number, and a missing cell.
fn cells(alloc: Global) -> Result<Vec<Cell>, Refusal> {
    let bread = Cell::of_text(alloc, "bread")?;
    let sold = Cell::from(5i64);
    let unknown = Cell::from(None::<i64>);
    Ok(Vec::from_array(alloc, [bread, sold, unknown])?)
}

/// Returns whether texts are ordered by their bytes, and numbers by their values.
fn are_in_order(alloc: Global) -> Result<bool, Refusal> {
    let bread = Key::of_text(alloc, "bread")?;
    let rye = Key::of_text(alloc, "rye")?;
    Ok(bread < rye && Key::from(2i64) < Key::from(10i64))
}

/// Returns a filter for rows with more than two ryes sold.
fn many_ryes(alloc: Global) -> Result<Filter, Refusal> {
    let is_rye = Test::text_is(alloc, 0, "rye")?;
    let are_many = Test::Int {
        column: 1,
        op: Op::Gt,
        value: 2,
    };
    Ok(Filter::from(Vec::from_array(alloc, [is_rye, are_many])?))
}

/// Returns the totals of breads whose name begins with an r, by name.
fn sold_by_bread(alloc: Global) -> Result<Spec, AllocError> {
    let begins_with_r = Test::text_begins(alloc, 0, "r")?;
    Spec::totals(alloc, 1).by(0).only(begins_with_r)
}

/// Returns how many lines have a sum, or a least value, above 0.
fn lines_above_zero(answer: &Answer) -> usize {
    match answer {
        Answer::Totals(lines) => lines.iter().filter(|line| line.2 > 0).count(),
        Answer::Extrema(lines) => lines.iter().filter(|line| line.1 > 0).count(),
    }
}

/// Returns the sentence for a schema without a column.
fn printed_of_no_column(alloc: Global) -> Result<String, Refusal> {
    match Schema::new(Vec::new(alloc)) {
        Ok(_) => Ok(String::new(alloc)),
        Err(refusal) => Ok(format!(in alloc; "{}: {refusal}", refusal.number())?),
    }
}

fn are_rows_right(alloc: Global) -> Result<bool, Refusal> {
    let row = sale(alloc, "rye", 3)?;
    let filter = many_ryes(alloc)?;
    Ok(is_whole(&row) && filter.keeps(&row))
}

fn are_cells_right(alloc: Global) -> Result<bool, Refusal> {
    let row = Row::from(cells(alloc)?);
    Ok(row.len() == 3 && !is_whole(&row))
}

fn is_spec_right(alloc: Global) -> Result<bool, Refusal> {
    let schema = breads(alloc)?;
    let spec = sold_by_bread(alloc)?;
    Ok(spec.check(&schema) == Ok(()))
}

fn is_sentence_right(alloc: Global) -> Result<bool, Refusal> {
    let printed = printed_of_no_column(alloc)?;
    Ok(printed.as_str() == "2: a table may not have this schema or these limits")
}

/// Returns whether one of two lines is counted.
fn are_totals_right(alloc: Global) -> Result<bool, Refusal> {
    let one = (Some(Key::from(1i64)), 1, 5);
    let other = (Some(Key::from(2i64)), 1, -5);
    let lines = TotalLines::new(Vec::from_array(alloc, [one, other])?);
    Ok(lines_above_zero(&Answer::Totals(lines)) == 1)
}

#[test]
fn the_examples_of_the_words_come_out(rt: HostRuntime) {
    let alloc = rt.alloc();
    let are_right = all(&[
        Ok(are_small_limits_allowed()),
        are_rows_right(alloc),
        are_cells_right(alloc),
        are_in_order(alloc),
        is_spec_right(alloc),
        is_sentence_right(alloc),
        are_totals_right(alloc),
    ]);
    must_be(&rt, are_right, Ok(true));
}
