// Columns whose values can be read in place.
ghost use Rattle.std.specs.Prelude.{◌≡◌, [], map, slice_index_or, None, Some, IfSome};
ghost use Rattle.std.specs.Option.{option_copied};
ghost use Rattle.far_types.specs.declared.cell.Cell.TheVariants.{Missing};
ghost use Rattle.far_types.specs.Cells.{CellFits};
ghost use Rattle.far_codec.specs.Lent.{IsForm, lent_in};
ghost use Rattle.far_offload.specs.Columns.{column_of, cell_of, cells_in, cells_meant};
ghost use Rattle.far_types.specs.Lent.{lent_cell, int_cell};
ghost use Rattle.far_offload.specs.Lent.{cells_lent};

use far_codec::{LentInts, LentTexts, LentValues, kind_of, lend_values};
use far_types::{CellRef, Kind};
use std::marker::Model;

/// The values of a column, in one of several forms.
#[derive(Drop)]
pub(crate) enum ColumnValues<'a> {
    /// A list of numbers.
    Numbers(&'a [Option<i64>]),
    /// A far form of numbers.
    Ints(LentInts<'a>),
    /// A far form of texts.
    Texts(LentTexts<'a>),
    /// No values: the bytes are not a far form.
    Nowhere,
}

/// A column: its number, and its values, read in place. Contracts see the number and the cells.
#[derive(Drop)]
pub struct Column<'a> {
    number: u32,
    values: ColumnValues<'a>,
}

impl<'a> Model for Column<'a> {
    ghost use Rattle.std.specs.Prelude.{ℕ, List};
    ghost use Rattle.far_types.specs.declared.cell.Cell.{Cell};
    ghost use Rattle.far_offload.specs.Lent.{cells_lent};

    ghost Value = { ℕ × List Cell };

    ghost view = { λ column. (column.number, cells_lent column.values) };
}

impl<'a> Column<'a> {
    /// Makes a column with this number over a list of numbers. Allocates nothing.
    pub fn of_numbers(number: u32, values: &'a [Option<i64>]) -> Column<'a>
        ensures { result ≡ (number, map int_cell values.now) }
    {
        Column {
            number,
            values: ColumnValues::Numbers(values),
        }
    }

    /// Makes a column with this number over a far form. The caller must know that the bytes are a far form: they are not
    /// checked. Allocates nothing, and reads only the head.
    pub fn of_form(number: u32, form: &'a [u8]) -> Column<'a>
        requires { IsForm form.now }
        ensures { result ≡ (number, cells_meant form.now) }
    {
        Column {
            number,
            values: values_in(lend_values(form)),
        }
    }

    /// Makes a column with this number over bytes that were read from the far store. Allocates nothing.
    ///
    /// The bytes are checked once, in one pass, before a value is read. Bytes that are not a far form make a column without
    /// values. Only a store that breaks its contract returns such bytes.
    pub fn of_content(number: u32, bytes: &'a [u8]) -> Column<'a>
        ensures form { IsForm bytes.now → result ≡ (number, cells_meant bytes.now) }
        ensures other { (¬ IsForm bytes.now) → result ≡ (number, []) }
    {
        match tested(bytes) {
            Some(values) => Column {
                number,
                values: values_in(values),
            },
            None => Column {
                number,
                values: ColumnValues::Nowhere,
            },
        }
    }

    /// Returns the number of the column.
    pub fn number(&self) -> u32
        ensures { result ≡ self.now.0 }
    {
        self.number
    }

    /// Returns whether the values are numbers. Only the running time of a fold depends on it.
    pub(crate) fn has_numbers(&self) -> bool {
        matches!(
            &self.values,
            ColumnValues::Numbers(_) | ColumnValues::Ints(_)
        )
    }

    /// Returns the numbers as a list, if the column stores them as one.
    pub(crate) fn numbers(&self) -> Option<&'a [Option<i64>]>
        ensures { IfSome result (λ numbers. self.now.1 ≡ map int_cell numbers.now) }
    {
        match &self.values {
            ColumnValues::Numbers(numbers) => Some(*numbers),
            _ => None,
        }
    }

    /// Returns the numbers as a far form, if the column stores them as one.
    pub(crate) fn ints(&self) -> Option<&LentInts<'a>>
        ensures { IfSome result (λ ints. self.now.1 ≡ map int_cell ints.now) }
    {
        match &self.values {
            ColumnValues::Ints(numbers) => Some(numbers),
            _ => None,
        }
    }

    /// Returns the cell at a place. A place past the end has no value.
    #[inline(always)]
    pub(crate) fn cell(&self, place: usize) -> CellRef<'_>
        ensures cell { lent_cell result ≡ cell_of place self.now }
        ensures fits { CellFits (lent_cell result) }
    {
        match &self.values {
            ColumnValues::Numbers(numbers) => match numbers.get(place) {
                Some(Some(number)) => CellRef::Int(*number),
                _ => CellRef::Missing,
            },
            ColumnValues::Ints(numbers) => match numbers.get(place) {
                Some(number) => CellRef::Int(number),
                None => CellRef::Missing,
            },
            ColumnValues::Texts(texts) => match texts.get(place) {
                Some(text) => CellRef::Text(text),
                None => CellRef::Missing,
            },
            ColumnValues::Nowhere => CellRef::Missing,
        }
    }
}

/// Converts the values of a far form to the values of a column.
fn values_in(values: LentValues<'_>) -> ColumnValues<'_>
    ensures { cells_lent result ≡ cells_in values.entry }
{
    match values {
        LentValues::Ints(numbers) => ColumnValues::Ints(numbers),
        LentValues::Texts(texts) => ColumnValues::Texts(texts),
    }
}

/// Returns the values of bytes that are a far form, or `None` if they are not.
fn tested(bytes: &[u8]) -> Option<LentValues<'_>>
    ensures form { IsForm bytes.now → result ≡ Some (lent_in bytes.now) }
    ensures other { (¬ IsForm bytes.now) → result ≡ None }
{
    match kind_of(bytes) {
        Some(Kind::Int) => Some(lend_values(bytes)),
        Some(Kind::Text) => Some(lend_values(bytes)),
        None => None,
    }
}

/// Returns the first column with this number, if there is one.
pub(crate) fn find<'a, 'b>(columns: &'a [Column<'b>], number: u32) -> Option<&'a Column<'b>>
    ensures { option_copied result ≡ column_of columns.now number }
{
    columns.iter().find(|column| column.number() == number)
}
