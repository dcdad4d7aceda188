// Appending a text to a column.
ghost use Rattle.std.specs.Prelude.{◌≡◌, ◌⊎◌, ◌<◌, ◌≤◌, ◌^◌, length, true, false, None, Some, OnOk, OnErr, IfOk, IfErr};
ghost use Rattle.far_types.specs.FormLengths.{texts_length};
ghost use Rattle.far_codec.specs.TextForm.{texts_meaning, IsTextsForm};
ghost use Rattle.far_log.specs.RegionState.{fits_in};
ghost use Rattle.far_scopes.specs.Refusing.{refusal_in, replace_refusal};
ghost use Rattle.far_texts.specs.Texts.{lists_of, HasGroups, IsTextColumn};
ghost use Rattle.far_texts.specs.Columns.{ChangesColumn, KeepsCopies};
ghost use Rattle.far_texts.specs.Effects.{begins_group, last_object, group_with_next, TextPushed};
ghost use Rattle.far_texts.specs.Refusing.{next_length_refusal, push_refusal};
ghost use Rattle.far_texts.specs.Storing.{GroupBegun, GroupExtended};

use super::TextColumn;
use super::lengths::text_length;
use far_codec::{form_of, form_with_next};
use far_scopes::Objects;
use far_store::FarTickets;
use far_types::{Name, Refusal, Text};
use std::alloc::Global;

impl TextColumn {
    // Checks that `push` would accept this text. After `Ok`, only an allocation can fail.
    pub(super) fn may_push<S: FarTickets>(
        &self,
        objects: &Objects<u8, S>,
        text: &Option<Text>,
    ) -> Result<(), Refusal>
        requires { IsTextColumn (lists_of S.content objects.now) self.now }
        ensures { refusal_in result ≡ push_refusal S.content objects.now self.now text.now }
    {
        if text_length(text) > 4096 {
            return Err(Refusal::TextTooLong);
        }
        let len = self.form_length_with_next(objects, text)?;
        if len > self.limit {
            return Err(Refusal::ChunkFull);
        }
        if !self.begins_group() {
            let o = self.object_in_use(objects, self.objects.len() - 1);
            return objects.may_replace(o, len);
        }
        if !objects.fits(len) {
            return Err(Refusal::RegionFull);
        }
        Ok(())
    }

    // Makes the form of the next place's row group with this text appended, in the memory of `spare`, a form that is no longer
    // needed. Inlined, so that a form is passed through memory by one call and not by two.
    #[inline(always)]
    pub(crate) fn form_pushed<S: FarTickets>(
        &self,
        spare: Vec<u8>,
        objects: &Objects<u8, S>,
        text: &Option<Text>,
    ) -> Result<Vec<u8>, Refusal>
        requires is { IsTextColumn (lists_of S.content objects.now) self.now }
        requires here { next_length_refusal S.content objects.now self.now ≡ None }
        requires short { texts_length
            (group_with_next (lists_of S.content objects.now) self.now text.now)
            ≤ self.now.limit }
        ensures form { IfOk result (λ form. IsTextsForm form.items) }
        ensures texts { IfOk result (λ form. texts_meaning form.items
            ≡ group_with_next (lists_of S.content objects.now) self.now text.now) }
        ensures length { IfOk result (λ form. length form.items
            ≡ texts_length (group_with_next (lists_of S.content objects.now) self.now text.now)) }
        ensures memory { IfErr result (λ e. e ≡ Refusal.NoMemory) }
    {
        let groups = self.objects.len();
        if self.begins_group() {
            return form_of(spare, text);
        }
        let form = self.form(objects, groups - 1)?;
        form_with_next(spare, form, text)
    }

    // For the proof: shows `HasGroups`, and that the next object's number has no list.
    pub(super) fn next_object_is_unused<S: FarTickets>(&self, objects: &Objects<u8, S>)
        requires { IsTextColumn (lists_of S.content objects.now) self.now }
        ensures objects { length self.now.objects ≤ length objects.now.records }
        ensures groups { HasGroups self.now }
        ensures fresh { lists_of S.content objects.now (length objects.now.records) ≡ None }
    {
        let _number = objects.number();
        let _len = self.len();
    }

    // Begins a row group at the next place, with an object that has this form.
    fn begin_group<S: FarTickets>(
        &mut self,
        objects: &mut Objects<u8, S>,
        form: &[u8],
    ) -> Result<(), Refusal>
        requires begins { begins_group self.old ≡ true }
        requires few { length objects.old.records < 2 ^ 28 }
        requires groups { length self.old.objects ≤ length objects.old.records }
        requires some { 0 < length form.now }
        ensures begun { OnOk result
            (GroupBegun S.content objects.old self.old form.now objects.new self.new) }
        ensures space { OnOk result (fits_in objects.old.memory.state (length form.now) ≡ true) }
        ensures copies { KeepsCopies S.content S.is_of objects.old objects.new }
        ensures refused { IfErr result (λ e.
            ((e ≡ Refusal.RegionFull)
            × (fits_in objects.old.memory.state (length form.now) ≡ false))
            ⊎ (e ≡ Refusal.NoMemory)) }
        ensures err { OnErr result ((self.new ≡ self.old) × (objects.new ≡ objects.old)) }
    {
        let name = Name {
            column: self.column,
            group: self.objects.len() as u32,
        };
        self.objects.reserve(1)?;
        let o = objects.create(name, form)?;
        self.objects.push_reserved(o);
        self.len += 1;
        Ok(())
    }

    // Replaces the form of the last row group, which has an unused place, by this one, and counts one more text.
    fn extend_group<S: FarTickets>(
        &mut self,
        objects: &mut Objects<u8, S>,
        form: &[u8],
    ) -> Result<(), Refusal>
        requires begun { begins_group self.old ≡ false }
        requires is { IsTextColumn (lists_of S.content objects.old) self.old }
        requires some { 0 < length form.now }
        ensures extended { OnOk result
            (GroupExtended S.content objects.old self.old form.now objects.new self.new) }
        ensures copies { KeepsCopies S.content S.is_of objects.old objects.new }
        ensures refused { IfErr result (λ e.
            (replace_refusal objects.old (last_object self.old) (length form.now) ≡ Some e)
            ⊎ ((replace_refusal objects.old (last_object self.old) (length form.now) ≡ None)
            × (e ≡ Refusal.NoMemory))) }
        ensures err { OnErr result ((self.new ≡ self.old) × (objects.new ≡ objects.old)) }
    {
        let o = self.object_in_use(objects, self.objects.len() - 1);
        objects.replace(o, form)?;
        self.len += 1;
        Ok(())
    }

    /// Appends a text. If the next place begins a row group, makes an object whose form has only this text. Otherwise the
    /// object of the last row group gets a new form, placed before the old one is dropped.
    ///
    /// Refused with the first of these that applies:
    ///
    /// - `TextTooLong` (7): the text has more than 4,096 bytes.
    /// - `Absent` (16): the row group has been begun, and its object is away.
    /// - `ChunkFull` (11): the new form would be longer than the column's limit.
    /// - `RegionFull` (17): no segment has the space.
    /// - `EditsUsedUp` (24): the row group has been begun, and its object was written as often as the limits allow.
    /// - `NoMemory` (1): an allocation fails.
    ///
    /// A refused call changes nothing.
    pub fn push<S: FarTickets>(
        &mut self,
        alloc: Global,
        objects: &mut Objects<u8, S>,
        text: &Option<Text>,
    ) -> Result<(), Refusal>
        requires is { IsTextColumn (lists_of S.content objects.old) self.old }
        requires few { begins_group self.old ≡ true → length objects.old.records < 2 ^ 28 }
        ensures pushed { OnOk result
            (TextPushed S.content objects.old self.old text.now objects.new self.new) }
        ensures changes { ChangesColumn
            (lists_of S.content objects.old) (lists_of S.content objects.new) self.old self.new }
        ensures copies { KeepsCopies S.content S.is_of objects.old objects.new }
        ensures free { OnOk result
            (push_refusal S.content objects.old self.old text.now ≡ None) }
        ensures refused { IfErr result (λ e.
            (push_refusal S.content objects.old self.old text.now ≡ Some e)
            ⊎ ((push_refusal S.content objects.old self.old text.now ≡ None)
            × (e ≡ Refusal.NoMemory))) }
        ensures err { OnErr result ((self.new ≡ self.old) × (objects.new ≡ objects.old)) }
    {
        self.may_push(objects, text)?;
        self.next_object_is_unused(objects);
        let form = self.form_pushed(Vec::new(alloc), objects, text)?;
        if self.begins_group() {
            self.begin_group(objects, &form)
        } else {
            self.extend_group(objects, &form)
        }
    }
}
