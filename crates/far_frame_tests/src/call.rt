//! Calls on a world, as data: every step of the table, and checks of what no step returns.
use crate::opening::push;
use far_frame::Step;
use far_types::{Cell, Edit, Filter, Fold, Kind, Refusal, Row, Spec, Text};
use std::alloc::Global;

/// The value of a cell.
#[derive(Clone, Copy)]
pub enum Value {
    Missing,
    Int(i64),
    Text(&'static str),
}

/// An aggregate without conditions.
#[derive(Clone, Copy)]
pub struct Watched {
    pub fold: Fold,
    pub value: u32,
    pub key: Option<u32>,
}

/// Count and sum of column 0.
pub const TOTALS: Watched = Watched {
    fold: Fold::Totals,
    value: 0,
    key: None,
};

/// Count and sum of column 0 by the text of column 1.
pub const TOTALS_BY_TEXT: Watched = Watched {
    fold: Fold::Totals,
    value: 0,
    key: Some(1),
};

/// Least and greatest value of column 0.
pub const EXTREMA: Watched = Watched {
    fold: Fold::Extrema,
    value: 0,
    key: None,
};

/// Least and greatest value of column 0 by the text of column 1.
pub const EXTREMA_BY_TEXT: Watched = Watched {
    fold: Fold::Extrema,
    value: 0,
    key: Some(1),
};

/// A call on a world. Columns come before places and row groups, aggregates before row groups.
#[derive(Clone, Copy)]
pub enum Call {
    Insert(&'static [Value]),
    /// Sets a place, in a column, to a value.
    Set(u32, u32, Value),
    Remove(u32),
    Watch(Watched),
    Unwatch(u32),
    Scan(u32, u32),
    Ask(u32),
    /// Lends places of a column, from the first number to the second, not including it.
    Lend(u32, u32, u32),
    Pin(u32, u32),
    Unpin(u32, u32),
    Evac(u32, u32),
    Fetch(u32, u32),
    Offload(u32, u32),
    Carry(u64),
    Commit(u64),
    Install(u64),
    Merge(u64),
    Compact(Kind, u32),
    Prefetch(u32),
    /// Checks the row of a place.
    Row(u32),
    /// Checks that a place is alive; refused with `RemovedRow` if not.
    IsAlive(u32),
    /// Checks that an object can be evicted.
    MayEvac(u32, u32),
    /// Checks that a row group can be scanned into an aggregate; refused with `StaleJob` if not.
    MayScan(u32, u32),
    /// Checks that a row group can be scanned in the store.
    MayOffload(u32, u32),
    /// Checks which object is the coldest.
    Coldest,
    /// Computes an aggregate from scratch, with this many workers.
    Recount(u32, u32),
    /// Checks that this many faults were met so far; refused with `FarFault` if not.
    Faults(u64),
}

fn text(alloc: Global, letters: &str) -> Result<Cell, Refusal> {
    match String::from_str(alloc, letters) {
        Ok(letters) => Ok(Cell::Text(Text::new(letters))),
        Err(_) => Err(Refusal::NoMemory),
    }
}

fn cell(alloc: Global, value: Value) -> Result<Cell, Refusal> {
    match value {
        Value::Missing => Ok(Cell::Missing),
        Value::Int(number) => Ok(Cell::Int(number)),
        Value::Text(letters) => text(alloc, letters),
    }
}

fn insert(alloc: Global, values: &[Value]) -> Result<Step, Refusal> {
    let mut cells = Vec::new(alloc);
    let mut refusal = None;
    for value in values {
        refusal = refusal.or(push(&mut cells, cell(alloc, *value)));
    }
    match refusal {
        None => Ok(Step::Edit(Edit::Insert(Row::new(cells)))),
        Some(refusal) => {
            drop(cells);
            Err(refusal)
        }
    }
}

fn set(alloc: Global, place: u32, column: u32, value: Value) -> Result<Step, Refusal> {
    match cell(alloc, value) {
        Ok(cell) => Ok(Step::Edit(Edit::Set {
            place,
            column,
            cell,
        })),
        Err(refusal) => Err(refusal),
    }
}

/// Returns the specification of an aggregate.
pub fn spec(alloc: Global, watched: Watched) -> Spec {
    Spec {
        fold: watched.fold,
        value: watched.value,
        key: watched.key,
        filter: Filter::new(Vec::new(alloc)),
    }
}

/// Returns the step of a call, if the call is a step.
pub fn step(alloc: Global, call: Call) -> Result<Step, Refusal> {
    match call {
        Call::Insert(values) => insert(alloc, values),
        Call::Set(place, column, value) => set(alloc, place, column, value),
        Call::Watch(watched) => Ok(Step::Watch(spec(alloc, watched))),
        call => Ok(plain_step(call)),
    }
}

// Returns a step that owns no memory.
fn plain_step(call: Call) -> Step {
    match call {
        Call::Remove(place) => Step::Edit(Edit::Remove(place)),
        Call::Unwatch(a) => Step::Unwatch(a),
        Call::Scan(aggregate, group) => Step::ScanGroup { aggregate, group },
        Call::Ask(a) => Step::Ask(a),
        Call::Lend(column, from, to) => Step::Lend { column, from, to },
        Call::Pin(column, group) => Step::Pin { column, group },
        Call::Unpin(column, group) => Step::Unpin { column, group },
        Call::Evac(column, group) => Step::BeginEvac { column, group },
        Call::Fetch(column, group) => Step::BeginFetch { column, group },
        Call::Offload(aggregate, group) => Step::BeginOffload { aggregate, group },
        Call::Carry(n) => Step::Carry(n),
        Call::Commit(n) => Step::Commit(n),
        Call::Install(n) => Step::Install(n),
        Call::Merge(n) => Step::Merge(n),
        Call::Compact(kind, segment) => Step::Compact(kind, segment),
        Call::Prefetch(column) => Step::Prefetch(column),
        _ => Step::Ask(99),
    }
}
