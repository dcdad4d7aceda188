// A borrow of the rows and columns of a table.
ghost use Rattle.std.specs.Prelude.{◌≡◌, ◌<◌, ◌≤◌, ◌/◌, ◌^◌, ℕ, None, Some, length, map, option_map, option_copied, slice_get, slice_range, IfOk, OnOk};
ghost use Rattle.far_types.specs.FirstOf.{first_of};
ghost use Rattle.far_scopes.specs.Refusing.{refusal_in};
ghost use Rattle.far_types.specs.Lent.{text_cell};
ghost use Rattle.far_types.specs.Table.{column as column_of, part};
ghost use Rattle.far_rows.specs.Refusing.{absents, ints_refusal, text_refusal, texts_refusal};
ghost use Rattle.far_rows.specs.ColumnIndexes.{kind_of};
ghost use Rattle.far_frame.specs.Lending.{flags_of, ints_lent, lent_part};
ghost use Rattle.far_frame.specs.State.{live};
ghost use Rattle.far_frame.specs.Views.{away};

use crate::frame::Frame;
use far_columns::Lents;
use far_rows::RowRef;
use far_store::FarTickets;
use far_texts::TextCells;
use far_types::{Kind, LentRow, Refusal};
use std::marker::Model;

/// The rows of a table, read in place. No object moves or changes while a view exists. Contracts see the table's state.
///
/// Borrows a part of a column piece by piece, and copies each:
///
/// ```
/// fn copied_ints<S: FarTickets>(
///     frame: &Frame<S>,
///     alloc: Global,
///     column: u32,
///     from: u32,
///     to: u32,
/// ) -> Result<Vec<IntPiece>, Refusal>
///     ensures pieces { IfOk result
///         (λ copies. map int_piece copies.items ≡ lent_part frame.now.table column from to) }
///     ensures due { OnOk result (ints_refusal frame.now.rows column from to ≡ None) }
///     ensures refused { IfErr result (MayRefuse (ints_refusal frame.now.rows column from to) true) }
/// {
///     let view = frame.scope();
///     let mut lents = view.ints(column, from, to)?;
///     let mut copies = Vec::with_capacity(alloc, lents.len())?;
///     while let Some(lent) = lents.next() {
///         copies.push(copy_ints(alloc, &lent)?)?;
///     }
///     Ok(copies)
/// }
/// ```
#[derive(Drop)]
pub struct View<'a, S: FarTickets> {
    frame: &'a Frame<S>,
}

impl<'a, S: FarTickets> Model for View<'a, S> {
    ghost use Rattle.far_table.specs.State.{LiveState};
    ghost use Rattle.far_frame.specs.State.{live};

    ghost Value = { LiveState S.Ticket };

    ghost view = { λ v. live v.frame.now };
}

impl<'a, S: FarTickets> View<'a, S> {
    /// Returns a view of the rows of a table. Allocates nothing.
    pub(crate) fn new(frame: &'a Frame<S>) -> View<'a, S>
        ensures { result ≡ live frame.now }
    {
        View { frame }
    }

    /// Returns whether a place is alive; `None` if there is no such place. Allocates nothing.
    pub fn is_alive(&self, place: u32) -> Option<bool>
        ensures { result ≡ option_map (λ p. p.alive) (slice_get self.now.table.places place) }
    {
        self.frame.rows().is_alive(place as usize)
    }

    /// Checks that every place can be lent. Allocates nothing.
    ///
    /// Refused with `Absent` (16) exactly if an object is away. The refusal names the first: of the lowest row group, and
    /// there of the lowest column.
    pub fn all(&self) -> Result<(), Refusal>
        ensures refused { refusal_in result ≡ away self.now }
        ensures here { OnOk result
            ((place : ℕ) → place < length self.now.table.places
            → first_of (absents self.now.rows (place / self.now.table.limits.group)) ≡ None) }
    {
        // For the proof: shows `AreLimits`, and that there are few places.
        let rows = self.frame.rows();
        let _limits = rows.limits();
        let _len = rows.len();
        let held = rows.held();
        for group in 0..rows.groups() {
            held.here(group as u32)?;
        }
        Ok(())
    }

    /// Borrows the row of a place, all cells at once. A dead place still has its cells. Allocates nothing.
    ///
    /// Refused with the first of these that applies:
    ///
    /// - `NoRow` (8): the place is past the end.
    /// - `Absent` (16): an object of the place's row group is away. The refusal names the first in the order of the
    ///   columns.
    pub fn row(&self, place: u32) -> Result<LentRow<'a>, Refusal>
        ensures row { IfOk result
            (λ row. option_map (λ p. p.cells) (slice_get self.now.table.places place) ≡ Some row) }
        ensures past { length self.now.table.places ≤ place
            → refusal_in result ≡ Some Refusal.NoRow }
        ensures refused { place < length self.now.table.places
            → refusal_in result
            ≡ first_of (absents self.now.rows (place / self.now.table.limits.group)) }
    {
        let rows = self.frame.rows();
        if place as usize >= rows.len() {
            return Err(Refusal::NoRow);
        }
        rows.row(place as usize)
    }

    /// Borrows the row of a place, each cell when it is read, so that the row is not copied. Allocates nothing.
    ///
    /// Refused as `row` is, with `NoRow` (8) and `Absent` (16).
    pub fn row_ref(&self, place: u32) -> Result<RowRef<'_, S>, Refusal>
        ensures row { IfOk result
            (λ row. option_map (λ p. p.cells) (slice_get self.now.table.places place) ≡ Some row) }
        ensures past { length self.now.table.places ≤ place
            → refusal_in result ≡ Some Refusal.NoRow }
        ensures refused { place < length self.now.table.places
            → refusal_in result
            ≡ first_of (absents self.now.rows (place / self.now.table.limits.group)) }
    {
        let rows = self.frame.rows();
        if place as usize >= rows.len() {
            return Err(Refusal::NoRow);
        }
        rows.row_ref(place as usize)
    }

    /// Returns the kind of a column; `None` if there is no such column. Allocates nothing.
    pub(crate) fn kind(&self, column: u32) -> Option<Kind>
        ensures schema { result ≡ slice_get self.now.table.schema column }
        ensures column_index { result
            ≡ option_map kind_of (slice_get self.now.rows.column_indexes column) }
    {
        let rows = self.frame.rows();
        // For the proof: shows that the schema has the kinds of the columns.
        let _held = rows.held();
        rows.schema().get(column as usize)
    }

    /// Returns how many places a row group has. Allocates nothing.
    pub fn size(&self) -> usize
        ensures rows { result ≡ self.now.rows.size }
        ensures limit { result ≡ self.now.table.limits.group }
        ensures some { 0 < result }
        ensures small { result ≤ 2 ^ 16 }
    {
        let rows = self.frame.rows();
        // For the proof: shows that the size of a row group is the one in the limits.
        let _held = rows.held();
        rows.limits().group as usize
    }

    /// Borrows the numbers and alive flags of the places `from` to `to` of a column, not including `to`, as one piece for
    /// each row group. Allocates nothing.
    ///
    /// Refused with the first of these that applies:
    ///
    /// - `NoColumn` (4): there is no such column.
    /// - `WrongKind` (5): the column is a text column.
    /// - `OutOfRange` (14): `from` is above `to`, or `to` is past the places.
    /// - `Absent` (16): the object of one of the row groups is away. The refusal names the first.
    pub fn ints(&self, column: u32, from: u32, to: u32) -> Result<Lents<'a, S>, Refusal>
        ensures lent { IfOk result
            (λ lents. map ints_lent lents ≡ lent_part self.now.table column from to) }
        ensures refused { refusal_in result ≡ ints_refusal self.now.rows column from to }
    {
        let rows = self.frame.rows();
        // For the proof: shows `AreRows`, and how many places there are.
        let _len = rows.len();
        let _limits = rows.limits();
        rows.held()
            .ints(column as usize, from as usize, to as usize)
    }

    /// Borrows the texts and alive flags of the places `from` to `to` of a column, not including `to`. Allocates nothing.
    ///
    /// Refused with the first of these that applies:
    ///
    /// - `NoColumn` (4): there is no such column.
    /// - `WrongKind` (5): the column is a column of numbers.
    /// - `OutOfRange` (14): `from` is above `to`, or `to` is past the places.
    /// - `Absent` (16): the object of one of the row groups is away. The refusal names the first.
    pub fn texts(&self, column: u32, from: u32, to: u32) -> Result<TextCells<'a, S>, Refusal>
        ensures cells { IfOk result
            (λ lent. map (λ cell. text_cell cell.0) lent
            ≡ part column from to self.now.table.places) }
        ensures flags { IfOk result
            (λ lent. map (λ cell. cell.1) lent
            ≡ slice_range (flags_of self.now.table.places) from to) }
        ensures refused { refusal_in result ≡ texts_refusal self.now.rows column from to }
    {
        let rows = self.frame.rows();
        // For the proof: shows how many places there are.
        let _len = rows.len();
        rows.held()
            .texts(column as usize, from as usize, to as usize)
    }

    /// Borrows the text of a place; `None` if it is missing. A dead place still has its text. Allocates nothing.
    ///
    /// Refused with the first of these that applies:
    ///
    /// - `NoColumn` (4): there is no such column.
    /// - `WrongKind` (5): the column is a column of numbers.
    /// - `NoRow` (8): the place is past the end.
    /// - `Absent` (16): the object of the place's row group is away.
    pub fn text(&self, column: u32, place: u32) -> Result<Option<&'a str>, Refusal>
        ensures text { IfOk result
            (λ text. slice_get (column_of column self.now.table.places) place
            ≡ Some (text_cell (option_copied text))) }
        ensures refused { refusal_in result ≡ text_refusal self.now.rows column place }
    {
        let rows = self.frame.rows();
        // For the proof: shows how many places there are.
        let _len = rows.len();
        rows.held().text(column as usize, place as usize)
    }
}
