// The rows of a table in the plain table's words.
ghost use Rattle.std.specs.Prelude.{◌≡◌, ◌<◌, ◌≤◌, ◌/◌, ℕ, [], Some, length, map, option_map, slice_get, IfOk, IfErr, OnOk};
ghost use Rattle.far_types.specs.Bounds.{AreLimits};
ghost use Rattle.far_types.specs.FirstOf.{first_of};
ghost use Rattle.far_types.specs.Table.{groups};
ghost use Rattle.far_scopes.specs.Refusing.{refusal_in};
ghost use Rattle.far_rows.specs.ColumnIndexes.{kind_of, row_of};
ghost use Rattle.far_rows.specs.Refusing.{absents};
ghost use Rattle.far_rows.specs.Rows.{AreRows};
ghost use Rattle.far_rows.specs.Opening.{numbers_from, texts_from};
ghost use Rattle.far_rows.specs.Places.{places_in};
ghost use Rattle.far_aggregates.specs.Accumulators.{PlacesFit};
ghost use Rattle.far_table.specs.TableRows.{AreOpened};

mod asking;
mod editing;
mod moving;
mod renewing;

use super::row_group::RowGroup;
use far_rows::{NewRow, NewRowRef, PlaceRow, RowRef, Rows};
use far_store::FarTickets;
use far_types::{Kind, LentRow, Limits, Refusal, Schema};
use std::alloc::Global;
use std::marker::Model;

/// The rows of a table under its limits, over objects that are local or away, and the number of accepted edits.
///
/// An insert first loads its row into values that are made once, when the table is opened. `new_row_ref` borrows it until it is
/// appended. Contracts see the places of the plain table (`specs/TableRows.antt`), and the rows that hold them.
#[derive(Drop)]
pub struct TableRows<S: FarTickets> {
    schema: Schema,
    limits: Limits,
    rows: Rows<S>,
    new_row: NewRow,
    edits: u64,
}

impl<S: FarTickets> Model for TableRows<S> {
    ghost use Rattle.far_table.specs.TableRows.{TableRows, AreTableRows, rows_in};

    ghost Value = { TableRows S.Ticket };

    ghost view = { λ t. rows_in S.content t.schema t.limits t.rows t.new_row t.edits };

    ghost invariant = { λ t. AreTableRows S.content t.schema t.limits t.rows t.new_row t.edits };
}

impl<S: FarTickets> TableRows<S> {
    /// Returns the rows of a table with this schema and these limits, without a row. The number distinguishes the jobs of its
    /// objects from those of other tables. Allocates all memory for elements.
    ///
    /// Refused only with `NoMemory` (1).
    pub fn new(
        alloc: Global,
        schema: Schema,
        limits: Limits,
        number: u32,
    ) -> Result<TableRows<S>, Refusal>
        requires { AreLimits limits }
        ensures opened { IfOk result (AreOpened schema limits number) }
        ensures memory { IfErr result (λ e. e ≡ Refusal.NoMemory) }
    {
        let rows = Rows::new(alloc, &schema, &limits, number)?;
        let widths = widths_of(&schema);
        Ok(TableRows {
            new_row: NewRow::new(alloc, widths.numbers, widths.texts)?,
            schema,
            limits,
            rows,
            edits: 0,
        })
    }

    /// Returns the kinds of the columns. Allocates nothing.
    pub fn schema(&self) -> &Schema
        ensures { result.now ≡ self.now.schema }
    {
        &self.schema
    }

    /// Returns the limits of the table. Allocates nothing.
    pub fn limits(&self) -> &Limits
        ensures same { result.now ≡ self.now.limits }
        ensures bounds { AreLimits self.now.limits }
    {
        &self.limits
    }

    /// Returns the number of accepted edits. Allocates nothing.
    pub fn edits(&self) -> u64
        ensures { result ≡ self.now.edits }
    {
        self.edits
    }

    /// Returns the number of places, including dead ones. Allocates nothing.
    pub fn len(&self) -> usize
        ensures len { result ≡ length self.now.places }
        ensures few { length self.now.places ≤ self.now.limits.places }
        ensures fit { PlacesFit self.now.places }
    {
        self.rows.len()
    }

    /// Returns the number of row groups that have a place. Allocates nothing.
    pub fn groups(&self) -> usize
        ensures { result ≡ groups self.now.limits.group (length self.now.places) }
    {
        let size = self.limits.group as usize;
        (self.rows.len() + size - 1) / size
    }

    /// Returns whether a place is alive; `None` if there is no such place. Allocates nothing.
    pub fn is_alive(&self, place: usize) -> Option<bool>
        ensures { result ≡ option_map (λ p. p.alive) (slice_get self.now.places place) }
    {
        self.rows.is_alive(place)
    }

    /// Returns the row of a place, with each cell borrowed. Allocates nothing.
    ///
    /// Refused with `Absent` (16) exactly if an object of the place's row group is away. It names the first in the order of the
    /// columns.
    #[inline(always)]
    pub fn row(&self, place: usize) -> Result<LentRow<'_>, Refusal>
        requires { place < length self.now.places }
        ensures row { IfOk result
            (λ row. option_map (λ p. p.cells) (slice_get self.now.places place) ≡ Some row) }
        ensures refused { refusal_in result
            ≡ first_of (absents self.now.held (place / self.now.limits.group)) }
    {
        self.rows.row(place)
    }

    /// Makes a row without cells, for `place_row`. Allocates nothing.
    #[inline(always)]
    pub fn empty_row(&self) -> PlaceRow<'_>
        ensures { result ≡ [] }
    {
        PlaceRow::new()
    }

    /// Borrows the cells of a place into an empty row. Looks at each column once, and reads a number only when the caller reads it. The
    /// caller makes the row by `empty_row`, so that it is not moved. Allocates nothing.
    ///
    /// Refused as `row` is.
    #[inline(always)]
    pub fn place_row<'a>(&'a self, place: usize, row: &mut PlaceRow<'a>) -> Result<(), Refusal>
        requires place { place < length self.now.places }
        requires empty { row.old ≡ [] }
        ensures row { OnOk result
            (option_map (λ p. p.cells) (slice_get self.now.places place) ≡ Some row.new) }
        ensures refused { refusal_in result
            ≡ first_of (absents self.now.held (place / self.now.limits.group)) }
    {
        self.rows.place_row(place, row)
    }

    /// Returns the row of a place. Borrows each cell only when the caller reads it. Allocates nothing.
    ///
    /// Refused as `row` is.
    pub fn row_ref(&self, place: usize) -> Result<RowRef<'_, S>, Refusal>
        requires { place < length self.now.places }
        ensures row { IfOk result
            (λ row. option_map (λ p. p.cells) (slice_get self.now.places place) ≡ Some row) }
        ensures refused { refusal_in result
            ≡ first_of (absents self.now.held (place / self.now.limits.group)) }
    {
        self.rows.row_ref(place)
    }

    /// Returns a row group, as it is lent to aggregates. Allocates nothing.
    pub fn group(&self, number: u32) -> RowGroup<'_, S>
        ensures { result ≡ record { rows = self.now.held; group = number } }
    {
        RowGroup::new(&self.rows, number)
    }

    /// Returns the rows over objects that hold the places. Allocates nothing.
    pub fn held(&self) -> &Rows<S>
        ensures held { result.now ≡ self.now.held }
        ensures rows { AreRows S.content self.now.held }
        ensures kinds { map kind_of self.now.held.column_indexes ≡ self.now.schema }
        ensures places { self.now.places ≡ places_in S.content self.now.held }
        ensures size { self.now.held.size ≡ self.now.limits.group }
    {
        // For the proof: shows `AreRows`.
        let _len = self.rows.len();
        &self.rows
    }

    /// Returns the new row. Borrows each cell only when the caller reads it. Allocates nothing.
    #[inline(always)]
    pub fn new_row_ref(&self) -> NewRowRef<'_>
        ensures { result ≡ row_of self.now.held.column_indexes self.now.new_row }
    {
        // For the proof: shows that each index is the index of a column.
        let _len = self.rows.len();
        self.new_row.row_ref(self.rows.column_indexes())
    }
}

// The numbers of int columns and of text columns.
#[derive(Clone, Copy)]
struct Widths {
    numbers: usize,
    texts: usize,
}

// Counts the columns of each kind of a schema.
fn widths_of(schema: &Schema) -> Widths
    ensures numbers { (size : ℕ) → result.numbers ≡ length (numbers_from size 0 schema.now) }
    ensures texts { (size limit : ℕ) → result.texts ≡ length (texts_from size limit 0 schema.now) }
{
    let mut widths = Widths {
        numbers: 0,
        texts: 0,
    };
    for kind in schema.as_slice() {
        match kind {
            Kind::Int => widths.numbers += 1,
            Kind::Text => widths.texts += 1,
        }
    }
    widths
}
