// The specifications of aggregates.
ghost use Rattle.std.specs.Prelude.{◌≡◌, ◌↔◌, IsTrue, ◌==◌, IfOk, IfErr, OnOk, nat_lt, length, slice_get, Some, None, [], ◌∷◌, ◌++◌};
ghost use Rattle.std.specs.List.{list_any, list_all};
ghost use Rattle.far_types.specs.Bounds.{has_its_kind, has_long_constant, column_of};

use super::cell::Kind;
use super::filter::{Filter, Test};
use super::refusal::Refusal;
use super::schema::Schema;
use std::alloc::{AllocError, Global};

/// The aggregate function: what an aggregate computes from the values under each key.
#[derive(Clone, Copy, Debug, PartialEq, Eq)]
pub enum Fold {
    /// The count and the sum of the values.
    Totals,
    /// The least and the greatest value.
    Extrema,
}

/// The specification of an aggregate: its fold, the column of its values, its key column and its filter.
///
/// The totals of column 1 by column 0, over the rows whose text in column 0 begins with an r:
///
/// ```
/// fn sold_by_bread(alloc: Global) -> Result<Spec, AllocError> {
///     let begins_with_r = Test::text_begins(alloc, 0, "r")?;
///     Spec::totals(alloc, 1).by(0).only(begins_with_r)
/// }
/// ```
#[derive(Drop, Debug)]
pub struct Spec {
    pub fold: Fold,
    /// The column of the values, of whole numbers.
    pub value: u32,
    /// The column of the keys, of either kind. Without a key column, all rows are under the single key "none".
    pub key: Option<u32>,
    /// Which rows are kept.
    pub filter: Filter,
}

/// Returns whether a test fits the kind of its column.
fn has_its_kind(schema: &Schema, test: &Test) -> bool
    ensures { result ≡ has_its_kind schema.now test.now }
{
    match test {
        Test::Int { column, .. } => schema.get(*column as usize) == Some(Kind::Int),
        Test::TextIs { column, .. } => schema.get(*column as usize) == Some(Kind::Text),
        Test::TextBegins { column, .. } => schema.get(*column as usize) == Some(Kind::Text),
    }
}

/// Returns whether each test fits the kind of its column.
fn have_their_kinds(schema: &Schema, tests: &[Test]) -> bool
    ensures { result ≡ list_all (has_its_kind schema.now) tests.now }
{
    tests.iter().all(|test| has_its_kind(schema, test))
}

/// Returns whether there are more than 4 tests.
fn are_too_many(tests: &[Test]) -> bool
    ensures { result ≡ nat_lt 4 (length tests.now) }
{
    tests.len() > 4
}

/// Returns whether the constant of some test is too long.
fn is_one_too_long(tests: &[Test]) -> bool
    ensures { result ≡ list_any has_long_constant tests.now }
{
    tests.iter().any(|test| test.is_too_long())
}

/// Returns whether some test reads this column.
fn one_looks_at(tests: &[Test], column: u32) -> bool
    ensures { result ≡ list_any (λ test. column_of test == column) tests.now }
{
    tests.iter().any(|test| test.column() == column)
}

/// Returns whether all tests read only the first `columns` columns.
fn are_within(tests: &[Test], columns: usize) -> bool
    ensures { result ≡ list_all (λ test. nat_lt (column_of test) columns) tests.now }
{
    tests.iter().all(|test| (test.column() as usize) < columns)
}

impl Spec {
    ghost use Rattle.far_types.specs.Bounds.{needs, is_within, spec_refusal};

    /// Makes the aggregate that counts and sums the values of a column of numbers, over all rows. Allocates nothing.
    ///
    /// `Spec::totals(alloc, 1).by(0)` counts and sums the values for each key of column 0.
    pub fn totals(alloc: Global, value: u32) -> Spec
        ensures { result ≡ record { fold = Fold.Totals; value = value; key = None; filter = [] } }
    {
        Spec::of_all(alloc, Fold::Totals, value)
    }

    /// Makes the aggregate that finds the least and the greatest value of a column of numbers, over all rows. Allocates nothing.
    pub fn extrema(alloc: Global, value: u32) -> Spec
        ensures { result
            ≡ record { fold = Fold.Extrema; value = value; key = None; filter = [] } }
    {
        Spec::of_all(alloc, Fold::Extrema, value)
    }

    fn of_all(alloc: Global, fold: Fold, value: u32) -> Spec
        ensures { result ≡ record { fold = fold; value = value; key = None; filter = [] } }
    {
        Spec {
            fold,
            value,
            key: None,
            filter: Filter::new(Vec::new(alloc)),
        }
    }

    /// Returns the same aggregate, computed for each key of this column. Allocates nothing.
    pub fn by(self, key: u32) -> Spec
        ensures { result ≡ record self { key = Some key } }
    {
        let Spec {
            fold,
            value,
            key: _,
            filter,
        } = self;
        Spec {
            fold,
            value,
            key: Some(key),
            filter,
        }
    }

    /// Returns the same aggregate over only those rows that also pass this test.
    pub fn only(self, test: Test) -> Result<Spec, AllocError>
        ensures test { IfOk result
            (λ spec. spec ≡ record self { filter = self.filter ++ test ∷ [] }) }
    {
        let Spec {
            fold,
            value,
            key,
            filter,
        } = self;
        let mut tests = filter.into_tests();
        tests.push(test)?;
        Ok(Spec {
            fold,
            value,
            key,
            filter: Filter::new(tests),
        })
    }

    /// Returns whether the aggregate needs a column: for a test, for its key or for its value. Allocates nothing.
    pub fn needs(&self, column: u32) -> bool
        ensures { result ≡ needs self.now column }
    {
        if one_looks_at(self.filter.as_slice(), column) {
            return true;
        }
        match self.key {
            Some(key) if key == column => true,
            _ => self.value == column,
        }
    }

    /// Returns whether all columns that the aggregate needs are among the first `columns`.
    fn is_within(&self, columns: usize) -> bool
        ensures { result ≡ is_within columns self.now }
    {
        if !are_within(self.filter.as_slice(), columns) {
            return false;
        }
        match self.key {
            Some(key) if key as usize >= columns => false,
            _ => (self.value as usize) < columns,
        }
    }

    /// Checks that a table with this schema may register the aggregate. Allocates nothing. Refused with:
    /// - `BadSpec` (3) exactly if it has more than 4 tests or a text constant of more than 4,096 bytes;
    /// - else `NoColumn` (4) exactly if a column that it needs does not exist;
    /// - else `WrongKind` (5) exactly if the value column is not a column of numbers, or a test does not fit the kind of its column.
    pub fn check(&self, schema: &Schema) -> Result<(), Refusal>
        ensures ok { OnOk result (spec_refusal schema.now self.now ≡ None) }
        ensures refused { IfErr result (λ e. spec_refusal schema.now self.now ≡ Some e) }
    {
        let tests = self.filter.as_slice();
        if are_too_many(tests) || is_one_too_long(tests) {
            return Err(Refusal::BadSpec);
        }
        if !self.is_within(schema.len()) {
            return Err(Refusal::NoColumn);
        }
        if schema.get(self.value as usize) != Some(Kind::Int) || !have_their_kinds(schema, tests) {
            return Err(Refusal::WrongKind);
        }
        Ok(())
    }

    /// Returns whether both aggregates are equal: the same fold of the same columns over the same tests in the same order. Allocates
    /// nothing.
    pub fn is_same(&self, other: &Spec) -> bool
        ensures { IsTrue result ↔ (self.now ≡ other.now) }
    {
        self.fold == other.fold
            && self.value == other.value
            && self.key == other.key
            && self.filter.is_same(&other.filter)
    }

    /// Returns an equal aggregate. Refused with `NoMemory` (1) alone.
    pub fn clone(&self) -> Result<Spec, Refusal>
        ensures equal { IfOk result (λ spec. spec ≡ self.now) }
        ensures memory { IfErr result (λ e. e ≡ Refusal.NoMemory) }
    {
        Ok(Spec {
            fold: self.fold,
            value: self.value,
            key: self.key,
            filter: self.filter.clone()?,
        })
    }
}
