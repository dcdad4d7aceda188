// Looks up, pins and touches the objects of the rows, by column and row group.
ghost use Rattle.std.specs.Prelude.{◌≡◌, ◌<◌, ℕ, length, Some, option_map, IfOk, IfSome, OnOk, OnErr, IsSomeAnd, slice_get};
ghost use Rattle.far_types.specs.declared.name.Name.{Name};
ghost use Rattle.far_codec.specs.FarForm.{FitsCount};
ghost use Rattle.far_codec.specs.TextForm.{IsTextsForm};
ghost use Rattle.far_scopes.specs.Memory.{list_in};
ghost use Rattle.far_scopes.specs.Refusing.{refusal_in};
ghost use Rattle.far_rows.specs.declared.column_index.ColumnIndex.TheVariants as column_index;
ghost use Rattle.far_rows.specs.declared.object.Object.TheVariants as object;
ghost use Rattle.far_rows.specs.Naming.{names_of};
ghost use Rattle.far_rows.specs.Rows.{object_of};
ghost use Rattle.far_rows.specs.Moving.{object_in, object_at, IsInUse, after_pin, after_unpin, after_touch, KeepsCells, object_refusal, pin_refusal, unpin_refusal};

use super::Rows;
use crate::column_index::ColumnIndex;
use crate::object::Object;
use far_scopes::Objects;
use far_store::FarTickets;
use far_types::Refusal;

impl<S: FarTickets> Rows<S> {
    /// Borrows the objects of numbers, on which jobs begin. The list of each local object has a far form. Each object
    /// belongs to the column and the row group in its name. Allocates nothing.
    pub fn number_objects(&self) -> &Objects<Option<i64>, S>
        ensures objects { result.now ≡ self.now.number_objects }
        ensures spelled { (o : ℕ) → IfSome (list_in result.now.memory o) FitsCount }
        ensures owned { (o : ℕ) (name : Name) → slice_get (names_of result.now) o ≡ Some name
            → object_at self.now name.column name.group ≡ Some (object.Number o) }
    {
        // For the proof: shows that an object with a list is in use.
        let _number = self.number_objects.number();
        &self.number_objects
    }

    /// Borrows the objects of texts, as `number_objects` borrows the objects of numbers. Allocates nothing.
    pub fn text_objects(&self) -> &Objects<u8, S>
        ensures objects { result.now ≡ self.now.text_objects }
        ensures spelled { (o : ℕ) → IfSome (list_in result.now.memory o) IsTextsForm }
        ensures owned { (o : ℕ) (name : Name) → slice_get (names_of result.now) o ≡ Some name
            → object_at self.now name.column name.group ≡ Some (object.Text o) }
    {
        let _number = self.text_objects.number();
        &self.text_objects
    }

    /// Returns the object of a row group of a column. Allocates nothing.
    ///
    /// Refused with the first of these that applies:
    ///
    /// - `NoColumn` (4): there is no such column.
    /// - `OutOfRange` (14): no place of the row group is used.
    pub fn object(&self, column: usize, group: u32) -> Result<Object, Refusal>
        ensures object { IfOk result (λ object. object_at self.now column group ≡ Some object) }
        ensures in_use { IfOk result (λ object. IsInUse self.now object) }
        ensures refused { refusal_in result ≡ object_refusal self.now column group }
    {
        let Some(column_index) = self.column_indexes.get(column) else {
            return Err(Refusal::NoColumn);
        };
        let object = match *column_index {
            ColumnIndex::Number(number) => self.number_object(number, group),
            ColumnIndex::Text(text) => self.text_object(text, group),
        };
        object.ok_or(Refusal::OutOfRange)
    }

    // Returns the object of a row group of a number column. For the proof: shows that this object exists.
    fn number_object(&self, number: usize, group: u32) -> Option<Object>
        requires { number < length self.now.numbers }
        ensures object { result
            ≡ option_map (object_in (column_index.Number number))
            (object_of self.now (column_index.Number number) group) }
        ensures in_use { IfSome result (IsInUse self.now) }
    {
        let _number = self.number_objects.number();
        Some(Object::Number(self.numbers[number].object(group)?))
    }

    // Returns the object of a row group of a text column. For the proof: shows that this object exists.
    fn text_object(&self, text: usize, group: u32) -> Option<Object>
        requires { text < length self.now.texts }
        ensures object { result
            ≡ option_map (object_in (column_index.Text text))
            (object_of self.now (column_index.Text text) group) }
        ensures in_use { IfSome result (IsInUse self.now) }
    {
        let _number = self.text_objects.number();
        Some(Object::Text(self.texts[text].object(group)?))
    }

    /// Adds a pin to the object of a row group of a column. Allocates nothing.
    ///
    /// Refused with the first of these that applies:
    ///
    /// - `NoColumn` (4): there is no such column.
    /// - `OutOfRange` (14): no place of the row group is used.
    /// - `Absent` (16): the object is away.
    /// - `EditsUsedUp` (24): the object has 65,535 pins.
    ///
    /// A refused call changes nothing.
    pub fn pin(&mut self, column: usize, group: u32) -> Result<(), Refusal>
        ensures pinned { OnOk result
            (IsSomeAnd (object_at self.old column group)
            (λ object. self.new ≡ after_pin self.old object)) }
        ensures kept { KeepsCells S.content S.is_of self.old self.new }
        ensures refused { refusal_in result ≡ pin_refusal self.old column group }
        ensures err { OnErr result (self.new ≡ self.old) }
    {
        match self.object(column, group)? {
            Object::Number(o) => self.number_objects.pin(o),
            Object::Text(o) => self.text_objects.pin(o),
        }
    }

    /// Removes a pin from the object of a row group of a column. Allocates nothing.
    ///
    /// Refused with the first of these that applies:
    ///
    /// - `NoColumn` (4): there is no such column.
    /// - `OutOfRange` (14): no place of the row group is used.
    /// - `NotPinned` (18): the object has no pin.
    ///
    /// A refused call changes nothing.
    pub fn unpin(&mut self, column: usize, group: u32) -> Result<(), Refusal>
        ensures unpinned { OnOk result
            (IsSomeAnd (object_at self.old column group)
            (λ object. self.new ≡ after_unpin self.old object)) }
        ensures kept { KeepsCells S.content S.is_of self.old self.new }
        ensures refused { refusal_in result ≡ unpin_refusal self.old column group }
        ensures err { OnErr result (self.new ≡ self.old) }
    {
        match self.object(column, group)? {
            Object::Number(o) => self.number_objects.unpin(o),
            Object::Text(o) => self.text_objects.unpin(o),
        }
    }

    /// Marks the object of a row group of a column as hot and most recently used, if it is local. Allocates nothing.
    ///
    /// Refused with the first of these that applies:
    ///
    /// - `NoColumn` (4): there is no such column.
    /// - `OutOfRange` (14): no place of the row group is used.
    ///
    /// A refused call changes nothing.
    pub fn touch(&mut self, column: usize, group: u32) -> Result<(), Refusal>
        ensures touched { OnOk result
            (IsSomeAnd (object_at self.old column group)
            (λ object. self.new ≡ after_touch self.old object)) }
        ensures kept { KeepsCells S.content S.is_of self.old self.new }
        ensures refused { refusal_in result ≡ object_refusal self.old column group }
        ensures err { OnErr result (self.new ≡ self.old) }
    {
        match self.object(column, group)? {
            Object::Number(o) => self.number_objects.touch(o),
            Object::Text(o) => self.text_objects.touch(o),
        }
        Ok(())
    }
}
