// Appends a row.
ghost use Rattle.std.specs.Prelude.{◌≡◌, ◌<◌, ◌^◌, ◌++◌, ◌∷◌, [], length, true, false, None, All, OnOk, OnErr, IfErr};
ghost use Rattle.far_codec.specs.Reading.{ints_meaning};
ghost use Rattle.far_columns.specs.Vector.{IsShaped};
ghost use Rattle.far_texts.specs.Texts.{HasGroups, lists_of};
ghost use Rattle.far_columns.specs.Changes.{KeepsCopies};
ghost use Rattle.far_texts.specs.Columns.{KeepsCopies as KeepsTextCopies};
ghost use Rattle.far_texts.specs.Together.{AreColumns};
ghost use Rattle.far_texts.specs.Appending.{TextsPushed};
ghost use Rattle.far_columns.specs.Numbers.{number_lists};
ghost use Rattle.far_columns.specs.NumbersTogether.{AreNumberColumns, all_begin};
ghost use Rattle.far_columns.specs.NumbersChanges.{NumbersPushed};
ghost use Rattle.far_rows.specs.ColumnIndexes.{row_of};
ghost use Rattle.far_rows.specs.Places.{places_in};
ghost use Rattle.far_rows.specs.Refusing.{push_refusal};
ghost use Rattle.far_rows.specs.ByKind.{kinds_refusal};
ghost use Rattle.far_rows.specs.Effects.{AreValuesOf, IsPushed, KeepsObjects};
ghost use Rattle.far_rows.specs.Appending.{MayTakeNumbers, MayTakeTexts};

use super::Rows;
use crate::new_row::NewRow;
use far_columns::{IntColumn, fill_numbers, push_numbers, unpush_numbers};
use far_scopes::Objects;
use far_store::FarTickets;
use far_texts::{TextColumn, fill_texts};
use far_types::{Refusal, Text};
use std::alloc::Global;

// For the proof: shows `IsShaped` of each number column.
pub(super) fn all_are_shaped(columns: &[IntColumn])
    ensures { All IsShaped columns.now }
{
    for column in columns {
        let _len = column.len();
    }
}

// For the proof: shows `HasGroups` of each text column.
pub(super) fn all_have_groups(columns: &[TextColumn])
    ensures { All HasGroups columns.now }
{
    for column in columns {
        let _len = column.len();
    }
}

// Appends a text to each text column. The columns must accept the texts. Does nothing if there are no text columns. The form
// of a single column is made in the memory of `spare`.
#[inline(always)]
fn push_all_texts<S: FarTickets>(
    alloc: Global,
    spare: &mut Vec<u8>,
    objects: &mut Objects<u8, S>,
    columns: &mut [TextColumn],
    texts: &[Option<Text>],
) -> Result<(), Refusal>
    requires may { MayTakeTexts S.content objects.old columns.old texts.now }
    ensures pushed { OnOk result
        (TextsPushed S.content objects.old columns.old texts.now objects.new columns.new) }
    ensures are { AreColumns (lists_of S.content objects.new) columns.new }
    ensures copies { KeepsTextCopies S.content S.is_of objects.old objects.new }
    ensures memory { IfErr result (λ e. e ≡ Refusal.NoMemory) }
    ensures err { OnErr result ((columns.new ≡ columns.old) × (objects.new ≡ objects.old)) }
{
    if columns.is_empty() {
        return Ok(());
    }
    fill_texts(alloc, spare, objects, columns, texts)
}

// Appends a value to each column. If row groups begin, appends the numbers first, and undoes this if the texts are refused.
// Otherwise appends the texts first, since the numbers cannot be refused then.
fn push_values<S: FarTickets>(
    alloc: Global,
    spare: &mut Vec<u8>,
    begins: bool,
    number_objects: &mut Objects<Option<i64>, S>,
    numbers: &mut [IntColumn],
    text_objects: &mut Objects<u8, S>,
    texts: &mut [TextColumn],
    row: &NewRow,
) -> Result<(), Refusal>
    requires numbers { MayTakeNumbers S.content number_objects.old numbers.old row.now.numbers }
    requires texts { MayTakeTexts S.content text_objects.old texts.old row.now.texts }
    requires begin { begins ≡ true → all_begin numbers.old ≡ true }
    requires begun { begins ≡ false → 0 < length numbers.old
        → all_begin numbers.old ≡ false }
    ensures numbers { OnOk result (NumbersPushed S.content number_objects.old number_objects.new
        numbers.old numbers.new row.now.numbers) }
    ensures texts { OnOk result (TextsPushed S.content text_objects.old texts.old row.now.texts
        text_objects.new texts.new) }
    ensures numbers_are { AreNumberColumns (number_lists S.content number_objects.new) numbers.new }
    ensures texts_are { AreColumns (lists_of S.content text_objects.new) texts.new }
    ensures number_copies { KeepsCopies ints_meaning S.content S.is_of
        number_objects.old number_objects.new }
    ensures text_copies { KeepsTextCopies S.content S.is_of
        text_objects.old text_objects.new }
    ensures memory { IfErr result (λ e. e ≡ Refusal.NoMemory) }
    ensures err { OnErr result
        (((numbers.new ≡ numbers.old) × (number_objects.new ≡ number_objects.old))
        × ((texts.new ≡ texts.old) × (text_objects.new ≡ text_objects.old))) }
{
    if begins {
        push_numbers(number_objects, numbers, row.numbers())?;
        if let Err(refusal) = push_all_texts(alloc, spare, text_objects, texts, row.texts()) {
            unpush_numbers(number_objects, numbers);
            return Err(refusal);
        }
        return Ok(());
    }
    push_all_texts(alloc, spare, text_objects, texts, row.texts())?;
    if numbers.is_empty() {
        return Ok(());
    }
    fill_numbers(number_objects, numbers, row.numbers());
    Ok(())
}

impl<S: FarTickets> Rows<S> {
    /// Appends a row, which is alive: each column gets its value. If the row is the first of a row group, makes a new object for
    /// each column. Otherwise writes the last object of each column, all texts before any number.
    ///
    /// `may_push` must have accepted the row, and there must be fewer than 2^24 places. Refused only with `NoMemory` (1). A
    /// refused call changes nothing.
    pub fn push(&mut self, alloc: Global, row: &NewRow) -> Result<(), Refusal>
        requires row { AreValuesOf self.old row.now }
        requires free { push_refusal S.content self.old row.now ≡ None }
        requires few { length self.old.alive < 2 ^ 24 }
        ensures pushed { OnOk result (IsPushed S.content self.old row.now self.new) }
        ensures places { OnOk result
            (places_in S.content self.new ≡ places_in S.content self.old
            ++ record { cells = row_of self.old.column_indexes row.now; alive = true } ∷ []) }
        ensures kept { KeepsObjects S.is_of self.old self.new }
        ensures memory { IfErr result (λ e. e ≡ Refusal.NoMemory) }
        ensures err { OnErr result (self.new ≡ self.old) }
    {
        // For the proof: shows `AreRows`, and that no text is too long.
        let _len = self.len();
        let _texts = row.texts();
        self.push_row(alloc, row)?;
        Ok(())
    }

    // Appends a row that was checked kind by kind.
    fn push_row(&mut self, alloc: Global, row: &NewRow) -> Result<(), Refusal>
        requires row { AreValuesOf self.old row.now }
        requires free { kinds_refusal S.content self.old row.now ≡ None }
        requires few { length self.old.alive < 2 ^ 24 }
        ensures pushed { OnOk result (IsPushed S.content self.old row.now self.new) }
        ensures kept { KeepsObjects S.is_of self.old self.new }
        ensures memory { IfErr result (λ e. e ≡ Refusal.NoMemory) }
        ensures err { OnErr result (self.new ≡ self.old) }
    {
        // For the proof: shows what is true of all objects (`AreTracked`).
        let _number = self.number_objects.number();
        let _number = self.text_objects.number();
        let index = self
            .reciprocal
            .remainder(self.alive.len(), self.size as usize);
        let begins = index == 0;
        self.alive.push()?;
        let pushed = push_values(
            alloc,
            &mut self.spare,
            begins,
            &mut self.number_objects,
            &mut self.numbers,
            &mut self.text_objects,
            &mut self.texts,
            row,
        );
        if let Err(refusal) = pushed {
            self.alive.unpush();
            return Err(refusal);
        }
        all_are_shaped(&self.numbers);
        all_have_groups(&self.texts);
        Ok(())
    }
}
