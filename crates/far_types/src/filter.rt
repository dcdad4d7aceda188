// Tests of rows.
ghost use Rattle.std.specs.Prelude.{◌≡◌, ◌↔◌, IsTrue, IfOk, length, take};
ghost use Rattle.std.specs.Slice.Iter.{iter_rest};

use super::cell_ref::CellRef;
use super::lend_cells::LendCells;
use super::row::Row;
use super::text::Text;
use std::alloc::{AllocError, Global};
use std::marker::Model;
use std::slice;

/// How a number is compared with a constant.
#[derive(Clone, Copy, Debug, PartialEq, Eq)]
pub enum Op {
    Eq,
    Ne,
    Lt,
    Le,
    Gt,
    Ge,
}

impl Op {
    ghost use Rattle.far_types.specs.Filters.{compares};

    /// Returns whether a number and the constant satisfy the comparison.
    pub fn holds(self, number: i64, constant: i64) -> bool
        ensures { result ≡ compares self number constant }
    {
        match self {
            Op::Eq => number == constant,
            Op::Ne => number != constant,
            Op::Lt => number < constant,
            Op::Le => number <= constant,
            Op::Gt => number > constant,
            Op::Ge => number >= constant,
        }
    }
}

/// A test of one column. A row fails a test, even one with `Ne`, if:
/// - the row has no such column;
/// - the cell is of the other kind;
/// - the cell has no value.
#[derive(Drop, Debug)]
pub enum Test {
    /// The number compares with the constant as `op` says.
    Int { column: u32, op: Op, value: i64 },
    /// The text equals the constant, byte by byte.
    TextIs { column: u32, text: Text },
    /// The text begins with the constant's bytes. Every text begins with the empty text.
    TextBegins { column: u32, text: Text },
}

impl Test {
    ghost use Rattle.far_types.specs.Filters.{passes};
    ghost use Rattle.far_types.specs.Bounds.{column_of, has_long_constant};

    /// Makes the test that the text in a column equals this one.
    pub fn text_is(alloc: Global, column: u32, text: &str) -> Result<Test, AllocError>
        ensures test { IfOk result (λ test. test ≡ Test.TextIs column text.now) }
    {
        let text = Text::from_str(alloc, text)?;
        Ok(Test::TextIs { column, text })
    }

    /// Makes the test that the text in a column begins with this one.
    pub fn text_begins(alloc: Global, column: u32, text: &str) -> Result<Test, AllocError>
        ensures test { IfOk result (λ test. test ≡ Test.TextBegins column text.now) }
    {
        let text = Text::from_str(alloc, text)?;
        Ok(Test::TextBegins { column, text })
    }

    /// Returns the column that the test reads.
    pub fn column(&self) -> u32
        ensures { result ≡ column_of self.now }
    {
        match self {
            Test::Int { column, .. } => *column,
            Test::TextIs { column, .. } => *column,
            Test::TextBegins { column, .. } => *column,
        }
    }

    /// Returns whether the test's constant is a text of more than 4,096 bytes.
    pub fn is_too_long(&self) -> bool
        ensures { result ≡ has_long_constant self.now }
    {
        match self {
            Test::Int { .. } => false,
            Test::TextIs { text, .. } => text.len() > 4096,
            Test::TextBegins { text, .. } => text.len() > 4096,
        }
    }

    /// Returns whether a row passes the test. Compares texts in place. Allocates nothing.
    #[inline(always)]
    pub fn holds<R: LendCells>(&self, row: &R) -> bool
        ensures { result ≡ passes self.now (R.cells row.now) }
    {
        match self {
            Test::Int { column, op, value } => match row.cell(*column) {
                Some(CellRef::Int(number)) => op.holds(number, *value),
                _ => false,
            },
            Test::TextIs { column, text } => match row.cell(*column) {
                Some(CellRef::Text(cell)) => cell == text.as_str(),
                _ => false,
            },
            Test::TextBegins { column, text } => match row.cell(*column) {
                Some(CellRef::Text(cell)) => cell.as_bytes().starts_with(text.as_bytes()),
                _ => false,
            },
        }
    }

    /// Returns whether both tests are equal. Allocates nothing.
    pub fn is_same(&self, other: &Test) -> bool
        ensures { IsTrue result ↔ (self.now ≡ other.now) }
    {
        match (self, other) {
            (
                Test::Int { column, op, value },
                Test::Int {
                    column: other_column,
                    op: other_op,
                    value: other_value,
                },
            ) => *column == *other_column && *op == *other_op && *value == *other_value,
            (
                Test::TextIs { column, text },
                Test::TextIs {
                    column: other_column,
                    text: other_text,
                },
            ) => *column == *other_column && text.as_str() == other_text.as_str(),
            (
                Test::TextBegins { column, text },
                Test::TextBegins {
                    column: other_column,
                    text: other_text,
                },
            ) => *column == *other_column && text.as_str() == other_text.as_str(),
            _ => false,
        }
    }

    /// Returns an equal test.
    pub fn clone(&self) -> Result<Test, AllocError>
        ensures equal { IfOk result (λ test. test ≡ self.now) }
    {
        match self {
            Test::Int { column, op, value } => Ok(Test::Int {
                column: *column,
                op: *op,
                value: *value,
            }),
            Test::TextIs { column, text } => Ok(Test::TextIs {
                column: *column,
                text: text.clone()?,
            }),
            Test::TextBegins { column, text } => Ok(Test::TextBegins {
                column: *column,
                text: text.clone()?,
            }),
        }
    }
}

/// The tests that a row must pass to be kept. Contracts see the list of tests.
///
/// A filter for rows whose text is "rye" and whose number is above 2:
///
/// ```
/// fn many_ryes(alloc: Global) -> Result<Filter, Refusal> {
///     let is_rye = Test::text_is(alloc, 0, "rye")?;
///     let are_many = Test::Int {
///         column: 1,
///         op: Op::Gt,
///         value: 2,
///     };
///     Ok(Filter::from(Vec::from_array(alloc, [is_rye, are_many])?))
/// }
/// ```
#[derive(Drop, Debug)]
pub struct Filter {
    tests: Vec<Test>,
}

impl Model for Filter {
    ghost use Rattle.std.specs.Prelude.{List};
    ghost use Rattle.far_types.specs.declared.filter.Test.{Test};

    ghost Value = { List Test };

    ghost view = { λ filter. filter.tests.items };
}

impl Filter {
    ghost use Rattle.far_types.specs.Filters.{keeps};
    ghost use Rattle.far_types.specs.Cells.{cells_of};

    /// Makes the filter of these tests. A filter without tests keeps every row. Allocates nothing.
    pub fn new(tests: Vec<Test>) -> Filter
        ensures { result ≡ tests.items }
    {
        Filter { tests }
    }

    /// Returns the tests that the filter was made of. Allocates nothing.
    pub fn into_tests(self) -> Vec<Test>
        ensures { result.items ≡ self }
    {
        self.tests
    }

    /// Borrows the tests in place.
    pub fn as_slice(&self) -> &[Test]
        ensures { result.now ≡ self.now }
    {
        self.tests.as_slice()
    }

    /// Borrows the tests in order, in place. Allocates nothing.
    pub fn iter(&self) -> slice::Iter<'_, Test>
        ensures { iter_rest result ≡ self.now }
    {
        self.tests.iter()
    }

    /// Returns whether the row passes every test. Allocates nothing.
    pub fn keeps(&self, row: &Row) -> bool
        ensures { result ≡ keeps self.now (cells_of row.now) }
    {
        self.keeps_cells(row)
    }

    /// Returns whether a row that lends its cells by column passes every test. Allocates nothing.
    #[inline(always)]
    pub fn keeps_cells<R: LendCells>(&self, row: &R) -> bool
        ensures { result ≡ keeps self.now (R.cells row.now) }
    {
        // The empty filter has a check of its own, since a fold over numbers alone runs it at each place.
        if self.tests.is_empty() {
            return true;
        }
        self.tests.iter().all(|test| test.holds(row))
    }

    /// Returns whether both filters have the same tests in the same order. Allocates nothing.
    pub fn is_same(&self, other: &Filter) -> bool
        ensures { IsTrue result ↔ (self.now ≡ other.now) }
    {
        if self.tests.len() != other.tests.len() {
            return false;
        }
        for test in 0..self.tests.len() {
            if !self.tests[test].is_same(&other.tests[test]) {
                return false;
            }
        }
        true
    }

    /// Returns an equal filter.
    pub fn clone(&self) -> Result<Filter, AllocError>
        ensures equal { IfOk result (λ filter. filter ≡ self.now) }
    {
        let mut tests = Vec::with_capacity(*self.tests.allocator(), self.tests.len())?;
        for test in &self.tests {
            tests.push(test.clone()?)?;
        }
        Ok(Filter { tests })
    }
}

impl From<Vec<Test>> for Filter {
    ghost use Rattle.std.specs.Prelude.{◌≡◌};

    ghost from_gives = { λ tests filter. filter ≡ tests.items };

    fn from(tests: Vec<Test>) -> Filter {
        Filter::new(tests)
    }
}

impl<'a> IntoIterator for &'a Filter {
    ghost use Rattle.std.specs.Prelude.{◌≡◌};
    ghost use Rattle.std.specs.Slice.Iter.{iter_rest};

    type Item = &'a Test;

    type IntoIter = slice::Iter<'a, Test>;

    ghost into_iter_gives = { λ filter it. iter_rest it ≡ filter.now };

    fn into_iter(self) -> Self::IntoIter {
        self.iter()
    }
}
