// The plans of the tables of scenes.
use crate::scenes::{Letter, Table};
use far_shared::Plan;
use far_types::{Cell, Filter, Fold, Kind, Limits, Op, Refusal, Row, Schema, Spec, Test, Text};
use std::alloc::{AllocError, Global};

// The number of places in a row group.
pub const GROUP: u32 = 64;

// The limits of each stripe. There is space for all objects of a scene.
pub const LIMITS: Limits = Limits {
    group: GROUP,
    places: 1_048_576,
    edits: 1_099_511_627_776,
    int_segments: 512,
    int_size: GROUP,
    text_segments: 64,
    text_size: 4_096,
};

// The same limits with space for two objects, each of one place.
const NARROW: Limits = Limits {
    group: 1,
    places: 1_048_576,
    edits: 1_099_511_627_776,
    int_segments: 2,
    int_size: 1,
    text_segments: 64,
    text_size: 4_096,
};

// Returns the limits of each stripe of a table.
fn limits_of(table: Table) -> Limits {
    match table {
        Table::Narrow => NARROW,
        _ => LIMITS,
    }
}

// Returns the number of contents that the store of a table can hold.
pub fn capacity_of(table: Table) -> u64 {
    match table {
        Table::Narrow => 4,
        _ => 16_777_216,
    }
}

// Returns the kinds of the columns of a table.
fn kinds_of(alloc: Global, table: Table) -> Result<Vec<Kind>, AllocError> {
    match table {
        Table::Numbers => Ok(Vec::from_array(alloc, [Kind::Int])?),
        Table::NumbersAboveZero => Ok(Vec::from_array(alloc, [Kind::Int])?),
        Table::NumbersWithTexts => Ok(Vec::from_array(alloc, [Kind::Int, Kind::Text])?),
        Table::Narrow => Ok(Vec::from_array(alloc, [Kind::Int])?),
    }
}

// Returns the tests of a table's gauge.
fn tests_of(alloc: Global, table: Table) -> Result<Vec<Test>, AllocError> {
    match table {
        Table::Numbers => Ok(Vec::new(alloc)),
        Table::NumbersAboveZero => Ok(Vec::from_array(alloc, [above_zero()])?),
        Table::NumbersWithTexts => Ok(Vec::new(alloc)),
        Table::Narrow => Ok(Vec::new(alloc)),
    }
}

// The number is above 0.
fn above_zero() -> Test {
    Test::Int {
        column: 0,
        op: Op::Gt,
        value: 0,
    }
}

// Returns an aggregate of all numbers, with a key column or without.
pub fn all_numbers(alloc: Global, fold: Fold, key: Option<u32>) -> Spec {
    Spec {
        fold,
        value: 0,
        key,
        filter: Filter::new(Vec::new(alloc)),
    }
}

// Returns the gauge of a table.
fn gauge_of(alloc: Global, table: Table) -> Result<Spec, AllocError> {
    Ok(Spec {
        fold: Fold::Totals,
        value: 0,
        key: None,
        filter: Filter::new(tests_of(alloc, table)?),
    })
}

// Returns the plan of a table for this many sessions.
pub fn plan_of(alloc: Global, table: Table, sessions: u64) -> Result<Plan, Refusal> {
    let schema = Schema::new(kinds_of(alloc, table)?)?;
    Plan::new(schema, limits_of(table), gauge_of(alloc, table)?, sessions)
}

// Returns why a plan of numbers is refused with such a gauge and this many sessions.
pub fn why_no_plan(
    alloc: Global,
    fold: Fold,
    key: Option<u32>,
    sessions: u64,
) -> Result<(), Refusal> {
    let schema = Schema::new(kinds_of(alloc, Table::Numbers)?)?;
    Plan::new(schema, LIMITS, all_numbers(alloc, fold, key), sessions)?;
    Ok(())
}

// Returns the row of a number.
pub fn row_of(alloc: Global, number: i64) -> Result<Row, AllocError> {
    Ok(Row::new(Vec::from_array(alloc, [Cell::Int(number)])?))
}

// Returns the row of the number 1 and a key.
pub fn keyed_row(alloc: Global, key: Letter) -> Result<Row, AllocError> {
    let text = Text::new(String::from_str(alloc, key.text())?);
    let cells = [Cell::Int(1), Cell::Text(text)];
    Ok(Row::new(Vec::from_array(alloc, cells)?))
}
