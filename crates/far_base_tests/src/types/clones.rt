// Clones are equal to the values that they are cloned from.
use crate::cases::{all, must_be};
use crate::types::samples::{row, schema, spec, text_key};
use far_types::{Cell, Edit, Key, Kind, Refusal, Schema, Spec, clone_key};
use std::alloc::Global;

/// A value that is cloned if memory allows.
trait Cloned: Drop {
    fn cloned(&self) -> Result<Self, Refusal>;

    /// Returns whether this is a clone of a value.
    fn is_clone_of(&self, value: &Self) -> bool;
}

fn is_cloned<T: Cloned>(made: Result<T, Refusal>) -> Result<bool, Refusal> {
    let value = made?;
    let clone = value.cloned()?;
    Ok(clone.is_clone_of(&value))
}

impl Cloned for Schema {
    fn cloned(&self) -> Result<Schema, Refusal> {
        self.clone()
    }

    fn is_clone_of(&self, _: &Schema) -> bool {
        self.as_slice() == [Kind::Int, Kind::Text].as_slice()
    }
}

/// Returns whether these are the cells of the row of 1 and `a`.
fn are_cells(cells: &[Cell]) -> bool {
    matches!(cells, [Cell::Int(1), Cell::Text(text)] if text.as_str() == "a")
}

/// An edit, which contains a row, cells and a text.
impl Cloned for Edit {
    fn cloned(&self) -> Result<Edit, Refusal> {
        self.clone()
    }

    fn is_clone_of(&self, _: &Edit) -> bool {
        matches!(self, Edit::Insert(row) if are_cells(row.as_slice()))
    }
}

impl Cloned for Option<Key> {
    fn cloned(&self) -> Result<Option<Key>, Refusal> {
        Ok(clone_key(self)?)
    }

    fn is_clone_of(&self, key: &Option<Key>) -> bool {
        *self == *key
    }
}

/// An aggregate, which contains a filter and a test.
impl Cloned for Spec {
    fn cloned(&self) -> Result<Spec, Refusal> {
        self.clone()
    }

    fn is_clone_of(&self, spec: &Spec) -> bool {
        self.is_same(spec)
    }
}

fn are_cloned(alloc: Global) -> Result<bool, Refusal> {
    all(&[
        is_cloned(schema(alloc)),
        is_cloned(Ok(Edit::Insert(row(alloc)?))),
        is_cloned(Ok(Some(text_key(alloc, "a")?))),
        is_cloned(spec(alloc)),
    ])
}

#[test]
fn a_clone_is_equal(rt: HostRuntime) {
    must_be(&rt, are_cloned(rt.alloc()), Ok(true));
}
