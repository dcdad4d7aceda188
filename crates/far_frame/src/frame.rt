// A table with its aggregates.
ghost use Rattle.std.specs.Prelude.{◌≡◌, ◌⊎◌, ℕ, List, true, false, length, IfOk, IfErr, OnOk};
ghost use Rattle.far_types.specs.declared.edit.Edit.TheVariants as edit;
ghost use Rattle.far_types.specs.Bounds.{AreLimits};
ghost use Rattle.far_rows.specs.Jobs.{AreAt};
ghost use Rattle.far_frame.specs.Effects.{Accepts, Refuses};
ghost use Rattle.far_frame.specs.State.{empty_state, live};
ghost use Rattle.far_frame.specs.declared.step.Step.TheVariants as step;
ghost use Rattle.far_frame.specs.declared.step.Reply.TheVariants as reply;
ghost use Rattle.far_frame.specs.TableViews.{IsKept, new_table, table_of};

mod editing;
mod lending;
mod moving;
mod offloading;
mod reading;
mod reading_ahead;
mod recounting;
mod renewing;
mod watching;

use super::view::View;
use editing::{put_cell, retract_row};
use far_aggregates::Aggregates;
use far_prefetcher::Prefetcher;
use far_store::FarTickets;
use far_table::TableRows;
use far_types::{Cell, Limits, Refusal, Row, Schema};
pub use reading_ahead::READ_AHEAD;
pub use renewing::migrate;
use std::alloc::Global;
use std::marker::Model;

/// A table whose rows are in objects that are local or away, and whose aggregates are kept up to date under every edit.
/// Contracts see the plain table, the rows over objects, and the access history of each column.
///
/// Each call that takes a store must get the one that holds the table's objects.
///
/// A table without rows:
///
/// ```
/// pub fn frame<S: FarTickets>(
///     alloc: Global,
///     kinds: &[Kind],
///     limits: Limits,
///     number: u32,
/// ) -> Result<Frame<S>, Refusal>
///     ensures { IfOk result (λ frame. (id : List ℕ) → AreAt S.is_of id frame.rows) }
/// {
///     match schema(alloc, kinds) {
///         Ok(schema) => Frame::open(alloc, schema, limits, number),
///         Err(refusal) => Err(refusal),
///     }
/// }
/// ```
///
/// Inserts a row, which gets the next place:
///
/// ```
/// pub fn insert<S: FarTickets>(
///     alloc: Global,
///     frame: &mut Frame<S>,
///     number: i64,
/// ) -> Result<(), Refusal>
///     ensures { (id : List ℕ) → AreAt S.is_of id frame.old.rows → AreAt S.is_of id frame.new.rows }
/// {
///     match row_of(alloc, number) {
///         Ok(row) => match frame.insert(row) {
///             Ok(_) => Ok(()),
///             Err(refusal) => Err(refusal),
///         },
///         Err(refusal) => Err(refusal),
///     }
/// }
/// ```
#[derive(Drop)]
pub struct Frame<S: FarTickets> {
    alloc: Global,
    rows: TableRows<S>,
    registrations: u64,
    aggregates: Aggregates,
    prefetcher: Prefetcher,
}

impl<S: FarTickets> Model for Frame<S> {
    ghost use Rattle.far_table.specs.Live.{IsLive, state_of};
    ghost use Rattle.far_frame.specs.State.{State, with_accesses};

    ghost Value = { State S.Ticket };

    ghost view = { λ f. with_accesses (state_of f.rows f.registrations f.aggregates) f.prefetcher };

    ghost invariant = { λ f. IsLive f.rows f.registrations f.aggregates };
}

impl<S: FarTickets> Frame<S> {
    /// Makes an empty table. `number` distinguishes its jobs from those of other tables. Allocates all memory for elements at once.
    ///
    /// Refused with the first of these that applies:
    ///
    /// - `BadSchema` (2): the limits are not valid.
    /// - `NoMemory` (1): an allocation fails.
    pub fn open(
        alloc: Global,
        schema: Schema,
        limits: Limits,
        number: u32,
    ) -> Result<Frame<S>, Refusal>
        ensures ok { IfOk result (λ frame. frame ≡ empty_state schema limits number) }
        ensures table { IfOk result (λ frame. table_of frame ≡ new_table schema limits) }
        ensures limits { OnOk result (AreLimits limits) }
        ensures here { IfOk result (λ frame. (id : List ℕ) → AreAt S.is_of id frame.rows) }
        ensures bad { IfErr result
            (λ e. ((e ≡ Refusal.BadSchema) × ¬ (AreLimits limits))
            ⊎ ((e ≡ Refusal.NoMemory) × AreLimits limits)) }
    {
        let columns = schema.len();
        limits.check()?;
        let rows = TableRows::new(alloc, schema, limits, number)?;
        let prefetcher = Prefetcher::new(alloc, columns as u32)?;
        Ok(Frame {
            alloc,
            rows,
            registrations: 0,
            aggregates: Aggregates::new(alloc),
            prefetcher,
        })
    }

    /// Takes cells that are no longer needed, whose memory the next row can reuse. Allocates nothing.
    pub fn spare_cells(&mut self) -> Vec<Cell>
        ensures { self.new ≡ self.old }
    {
        self.rows.spare_cells()
    }

    /// Appends a row and returns its place.
    ///
    /// Refused with the first of these that applies:
    ///
    /// - `WrongKind` (5): a cell is of another kind than its column.
    /// - `RowWidth` (6), `TextTooLong` (7), `TableFull` (10)
    /// - `Absent` (16): the last row group is begun, and an object of it is away.
    /// - `ChunkFull` (11), `RegionFull` (17), `EditsUsedUp` (24), `NoMemory` (1)
    pub fn insert(&mut self, row: Row) -> Result<u32, Refusal>
        ensures ok { IfOk result
            (λ place. Accepts S.content self.old (step.Edit (edit.Insert row)) (reply.Place place)
            self.new) }
        ensures err { IfErr result
            (λ e. Refuses self.old (step.Edit (edit.Insert row)) e self.new) }
        ensures here { (id : List ℕ) → AreAt S.is_of id self.old.rows
            → AreAt S.is_of id self.new.rows }
    {
        self.rows.may_insert(row)?;
        let place = self.rows.len();
        let size = self.rows.limits().group;
        // Without aggregates there is nothing to update.
        if self.aggregates.is_empty() {
            self.rows.push(self.alloc)?;
            return Ok(place as u32);
        }
        let pending = self
            .aggregates
            .apply_deltas(self.alloc, &self.rows.new_row_ref(), size, place)?;
        if let Err(refusal) = self.rows.push(self.alloc) {
            // The rows are as before, and now the aggregates are too.
            self.aggregates.undo(pending);
            return Err(refusal);
        }
        self.aggregates.end(pending);
        Ok(place as u32)
    }

    /// Sets the cell of a place in a column. Counts as an edit even if the cell had this value.
    ///
    /// Refused with the first of these that applies:
    ///
    /// - `NoColumn` (4), `WrongKind` (5), `TextTooLong` (7), `NoRow` (8), `RemovedRow` (9)
    /// - `Absent` (16): an object of the place's row group is away.
    /// - `ChunkFull` (11), `RegionFull` (17), `EditsUsedUp` (24), `NoMemory` (1)
    pub fn set(&mut self, place: u32, column: u32, cell: Cell) -> Result<(), Refusal>
        ensures ok { OnOk result
            (Accepts S.content self.old (step.Edit (edit.Set place column cell)) reply.Done
            self.new) }
        ensures err { IfErr result
            (λ e. Refuses self.old (step.Edit (edit.Set place column cell)) e self.new) }
        ensures here { (id : List ℕ) → AreAt S.is_of id self.old.rows
            → AreAt S.is_of id self.new.rows }
    {
        let value = self.rows.may_set(column, place, cell)?;
        put_cell(
            self.alloc,
            &mut self.rows,
            &mut self.aggregates,
            column,
            place,
            &value,
        )?;
        Ok(())
    }

    /// Marks a place as dead. Its cells stay.
    ///
    /// Refused with the first of these that applies:
    ///
    /// - `NoRow` (8), `RemovedRow` (9)
    /// - `Absent` (16): an object of the place's row group is away.
    /// - `EditsUsedUp` (24), `NoMemory` (1)
    pub fn remove(&mut self, place: u32) -> Result<(), Refusal>
        ensures ok { OnOk result
            (Accepts S.content self.old (step.Edit (edit.Remove place)) reply.Done self.new) }
        ensures err { IfErr result
            (λ e. Refuses self.old (step.Edit (edit.Remove place)) e self.new) }
        ensures here { (id : List ℕ) → AreAt S.is_of id self.old.rows
            → AreAt S.is_of id self.new.rows }
    {
        let _row = self.rows.may_remove(place)?;
        // Without aggregates there is nothing to update.
        if self.aggregates.is_empty() {
            self.rows.remove(place);
            return Ok(());
        }
        let size = self.rows.limits().group;
        // For the proof: shows `AreTableRows`, which bounds the number of places and the numbers in them.
        let _len = self.rows.len();
        let lent = &self.rows;
        let mut row = lent.empty_row();
        let Ok(()) = lent.place_row(place as usize, &mut row) else {
            unreachable!()
        };
        let pending = self
            .aggregates
            .leave(self.alloc, &row, size, place as usize)?;
        self.rows.remove(place);
        retract_row(&self.rows, &mut self.aggregates, place, pending);
        Ok(())
    }

    /// Returns a view of the rows, which reads them in place. Allocates nothing.
    pub fn scope(&self) -> View<'_, S>
        ensures { result ≡ live self.now }
    {
        View::new(self)
    }

    /// Returns the rows, with their limits. Allocates nothing.
    pub(crate) fn rows(&self) -> &TableRows<S>
        ensures schema { result.now.schema ≡ self.now.table.schema }
        ensures limits { result.now.limits ≡ self.now.table.limits }
        ensures places { result.now.places ≡ self.now.table.places }
        ensures held { result.now.held ≡ self.now.rows }
    {
        &self.rows
    }

    /// Returns the kinds of the columns. Allocates nothing.
    pub fn schema(&self) -> &Schema
        ensures { result.now ≡ self.now.table.schema }
    {
        self.rows.schema()
    }

    /// Returns the limits of the table. Allocates nothing.
    pub fn limits(&self) -> &Limits
        ensures same { result.now ≡ self.now.table.limits }
        ensures bounds { AreLimits self.now.table.limits }
    {
        self.rows.limits()
    }

    /// For the proof: shows the invariant of a table, its rows and their objects. Does nothing.
    #[inline(always)]
    pub fn keeps(&self)
        ensures { IsKept S.content self.now }
    {
        let _limits = self.rows.limits();
        let held = self.rows.held();
        held.each_object_has_a_word();
    }

    /// Returns how many places there are, including dead ones. Allocates nothing.
    pub fn places(&self) -> u32
        ensures { result ≡ length self.now.table.places }
    {
        // For the proof: shows that a table has at most 16,777,216 places.
        let _limits = self.rows.limits();
        self.rows.len() as u32
    }
}
