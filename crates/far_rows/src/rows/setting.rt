// Sets a cell.
ghost use Rattle.std.specs.Prelude.{◌≡◌, ◌≢◌, [], ◌/◌, ◌<◌, ◌≤◌, ◌+◌, ℕ, ℤ, Option, List, length, map, false, None, Some, OnOk, OnErr, IfErr, IsOk, IfSome, option_map, slice_get, slice_set, slice_index_or};
ghost use Rattle.std.specs.Option.{option_and_then};
ghost use Rattle.far_types.specs.Cells.{is_too_long};
ghost use Rattle.far_scopes.specs.Movement.{AreHere, version_of};
ghost use Rattle.far_scopes.specs.Refusing.{refusal_in};
ghost use Rattle.far_columns.specs.Refusing.{set_refusal as number_set_refusal};
ghost use Rattle.far_rows.specs.declared.column_index.ColumnIndex.TheVariants as column_index;
ghost use Rattle.far_rows.specs.declared.new_cell.NewCell.TheVariants as new;
ghost use Rattle.far_types.specs.declared.limits.Limits.{Limits};
ghost use Rattle.far_rows.specs.ColumnIndexes.{kind_of};
ghost use Rattle.far_rows.specs.Places.{AreOf, places_in};
ghost use Rattle.far_rows.specs.Plain.{cell_set_refusal};
ghost use Rattle.far_rows.specs.Rows.{all_numbers, all_texts, all_cells};
ghost use Rattle.far_types.specs.Edits.{change_at, with_cell};
ghost use Rattle.far_rows.specs.Refusing.{absents};
ghost use Rattle.far_rows.specs.Effects.{IsSet, KeepsObjects};
ghost use Rattle.far_rows.specs.Setting.{cell_of, kind_in, set_in, set_refusal, value_refusal, with_cell_at};

use super::Rows;
use crate::column_index::ColumnIndex;
use crate::new_cell::NewCell;
use far_store::FarTickets;
use far_types::{Kind, Refusal, Text};
use std::alloc::Global;

impl<S: FarTickets> Rows<S> {
    /// Checks that a cell may be set to a value. Allocates nothing. After `Ok`, `set` of a text can be refused only with
    /// `NoMemory` (1), and `set` of a number not at all.
    ///
    /// Refused with the first of these that applies:
    ///
    /// - `Absent` (16): some object of the place's row group is away. The refusal names the first in the order of the columns.
    /// - `ChunkFull` (11): the value is a text, and the row group's new form would be longer than the column's limit.
    /// - `RegionFull` (17): the value is a text, and the new form does not fit while the old form is kept.
    /// - `EditsUsedUp` (24): the cell's object was written as often as the limits allow.
    pub fn may_set(&self, column: usize, place: usize, value: &NewCell) -> Result<(), Refusal>
        requires place { place < length self.now.alive }
        requires of_kind { option_map kind_of (slice_get self.now.column_indexes column)
            ≡ Some (kind_in value.now) }
        requires short { is_too_long (cell_of value.now) ≡ false }
        ensures refused { refusal_in result
            ≡ set_refusal S.content self.now column place value.now }
        ensures plain { (limits : Limits) → AreOf limits self.now
            → refusal_in result
            ≡ cell_set_refusal S.content limits self.now column place value.now }
    {
        // For the proof: shows `AreRows`.
        let _len = self.len();
        self.may_set_value(column, place, value)
    }

    // Checks that a cell may be set to a value: all objects of its row group are local, and then the column accepts the value.
    fn may_set_value(&self, column: usize, place: usize, value: &NewCell) -> Result<(), Refusal>
        requires place { place < length self.now.alive }
        requires of_kind { option_map kind_of (slice_get self.now.column_indexes column)
            ≡ Some (kind_in value.now) }
        ensures { refusal_in result ≡ set_refusal S.content self.now column place value.now }
    {
        // For the proof: shows that each column index is in range.
        let _len = self.len();
        let group = self.group_of(place);
        self.here(group)?;
        match (self.column_indexes[column], value) {
            (ColumnIndex::Number(i), NewCell::Number(_)) => self.number_is_writable(
                i, place, group,
            ),
            (ColumnIndex::Text(i), NewCell::Text(text)) => {
                self.texts[i].may_set(&self.text_objects, place as u32, text)
            }
            _ => unreachable!(),
        }
    }

    // Returns the row group of a place.
    pub(super) fn group_of(&self, place: usize) -> u32
        requires { place < length self.now.alive }
        ensures { result ≡ place / self.now.size }
    {
        // For the proof: shows that each place fits into 32 bits.
        let _len = self.len();
        self.reciprocal.quotient(place, self.size as usize) as u32
    }

    // Checks that a number may be written at a place of a number column. The caller passes the place's row group, so it is not
    // computed again.
    fn number_is_writable(&self, i: usize, place: usize, group: u32) -> Result<(), Refusal>
        requires within { i < length self.now.numbers }
        requires place { place < length self.now.alive }
        requires group { group ≡ place / self.now.size }
        ensures { refusal_in result
            ≡ option_and_then (λ v. number_set_refusal self.now.number_objects v place)
            (slice_get self.now.numbers i) }
    {
        // For the proof: shows `AreRows`, and that an object with a list is in use.
        let _len = self.len();
        let _number = self.number_objects.number();
        let Some(o) = self.numbers[i].object(group) else {
            unreachable!()
        };
        self.number_objects.may_write(o)
    }

    // Writes a number at a place of a number column. The object of the place must accept a write.
    fn set_number(&mut self, i: usize, place: usize, number: Option<i64>)
        requires within { i < length self.old.numbers }
        requires free { value_refusal S.content self.old (column_index.Number i) place
            (new.Number number) ≡ None }
        ensures moved { self.new
            ≡ set_in S.content self.old (column_index.Number i) place (new.Number number) }
        ensures numbers { all_numbers S.content self.new
            ≡ slice_set (all_numbers S.content self.old) i
            (slice_set (slice_index_or (all_numbers S.content self.old) i []) place number) }
        ensures store { (id : List ℕ) → AreHere S.is_of id self.old.number_objects
            → AreHere S.is_of id self.new.number_objects }
        ensures versions { (o : ℕ)
            → version_of self.new.number_objects o ≤ version_of self.old.number_objects o + 1 }
    {
        // For the proof: shows `AreRows`.
        let _len = self.len();
        let group = self.group_of(place);
        self.numbers[i].set_in_group(&mut self.number_objects, group, place, number);
    }

    // Sets a text at a place of a text column, which must accept the text. Refused only with `NoMemory` (1).
    fn set_text(
        &mut self,
        alloc: Global,
        i: usize,
        place: usize,
        text: &Option<Text>,
    ) -> Result<(), Refusal>
        requires within { i < length self.old.texts }
        requires free { value_refusal S.content self.old (column_index.Text i) place
            (new.Text text.now) ≡ None }
        ensures moved { OnOk result
            (self.new
            ≡ set_in S.content self.old (column_index.Text i) place (new.Text text.now)) }
        ensures texts { OnOk result
            (all_texts S.content self.new
            ≡ slice_set (all_texts S.content self.old) i
            (slice_set (slice_index_or (all_texts S.content self.old) i []) place text.now)) }
        ensures store { (id : List ℕ) → AreHere S.is_of id self.old.text_objects
            → AreHere S.is_of id self.new.text_objects }
        ensures versions { (o : ℕ)
            → version_of self.new.text_objects o ≤ version_of self.old.text_objects o + 1 }
        ensures memory { IfErr result (λ e. e ≡ Refusal.NoMemory) }
        ensures err { OnErr result (self.new ≡ self.old) }
    {
        self.texts[i].set_accepted(alloc, &mut self.text_objects, place as u32, text)
    }

    /// Sets a cell to a value, which counts as a write of the cell's object. A text's new form is placed before the old form
    /// is dropped.
    ///
    /// `may_set` must have accepted the value. A number is never refused, and a text only with `NoMemory` (1). A refused call
    /// changes nothing.
    pub fn set(
        &mut self,
        alloc: Global,
        column: usize,
        place: usize,
        value: &NewCell,
    ) -> Result<(), Refusal>
        requires of_kind { option_map kind_of (slice_get self.old.column_indexes column)
            ≡ Some (kind_in value.now) }
        requires free { set_refusal S.content self.old column place value.now ≡ None }
        ensures set { OnOk result (IsSet S.content self.old column place value.now self.new) }
        ensures places { OnOk result
            (places_in S.content self.new
            ≡ change_at (with_cell column (cell_of value.now)) place
            (places_in S.content self.old)) }
        ensures here { (g : ℕ) → absents self.new g ≡ absents self.old g }
        ensures kept { KeepsObjects S.is_of self.old self.new }
        ensures memory { IfErr result
            (λ e. (e ≡ Refusal.NoMemory) × (kind_in value.now ≢ Kind.Int)) }
        ensures err { OnErr result (self.new ≡ self.old) }
    {
        // For the proof: shows `AreRows`.
        let _len = self.len();
        self.set_value(alloc, column, place, value)?;
        Ok(())
    }

    // Sets a cell to a value, in the column with this index.
    fn set_value(
        &mut self,
        alloc: Global,
        column: usize,
        place: usize,
        value: &NewCell,
    ) -> Result<(), Refusal>
        requires of_kind { option_map kind_of (slice_get self.old.column_indexes column)
            ≡ Some (kind_in value.now) }
        requires free { set_refusal S.content self.old column place value.now ≡ None }
        ensures cells { OnOk result
            (all_cells S.content self.new
            ≡ with_cell_at (all_cells S.content self.old) column place (cell_of value.now)) }
        ensures moved { OnOk result
            (IfSome (slice_get self.old.column_indexes column)
            (λ s. self.new ≡ set_in S.content self.old s place value.now)) }
        ensures number_store { (id : List ℕ) → AreHere S.is_of id self.old.number_objects
            → AreHere S.is_of id self.new.number_objects }
        ensures text_store { (id : List ℕ) → AreHere S.is_of id self.old.text_objects
            → AreHere S.is_of id self.new.text_objects }
        ensures number_versions { (o : ℕ)
            → version_of self.new.number_objects o ≤ version_of self.old.number_objects o + 1 }
        ensures text_versions { (o : ℕ)
            → version_of self.new.text_objects o ≤ version_of self.old.text_objects o + 1 }
        ensures number { kind_in value.now ≡ Kind.Int → IsOk result }
        ensures memory { IfErr result (λ e. e ≡ Refusal.NoMemory) }
        ensures err { OnErr result (self.new ≡ self.old) }
    {
        // For the proof: shows that each column index is in range.
        let _len = self.len();
        match (self.column_indexes[column], value) {
            (ColumnIndex::Number(i), NewCell::Number(number)) => {
                self.set_number(i, place, *number);
                Ok(())
            }
            (ColumnIndex::Text(i), NewCell::Text(text)) => self.set_text(alloc, i, place, text),
            _ => unreachable!(),
        }
    }
}
