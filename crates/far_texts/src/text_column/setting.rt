// Setting a text of a column.
ghost use Rattle.std.specs.Prelude.{◌≡◌, ◌⊎◌, length, None, Some, OnOk, OnErr, IfOk, IfErr};
ghost use Rattle.far_types.specs.FormLengths.{texts_length};
ghost use Rattle.far_codec.specs.TextForm.{texts_meaning, IsTextsForm};
ghost use Rattle.far_scopes.specs.Refusing.{refusal_in};
ghost use Rattle.far_texts.specs.Texts.{lists_of, IsTextColumn};
ghost use Rattle.far_texts.specs.Columns.{ChangesColumn, KeepsCopies};
ghost use Rattle.far_texts.specs.Effects.{group_with, TextSet};
ghost use Rattle.far_texts.specs.Refusing.{set_refusal};

use super::TextColumn;
use super::lengths::text_length;
use far_codec::form_with;
use far_scopes::Objects;
use far_store::FarTickets;
use far_types::{Refusal, Text};
use std::alloc::Global;

impl TextColumn {
    /// Checks that the text at a place may be set to this one. Allocates nothing. After `Ok`, `set` can be refused only with
    /// `NoMemory` (1).
    ///
    /// Refused with the first of these that applies:
    ///
    /// - `TextTooLong` (7): the text has more than 4,096 bytes.
    /// - `OutOfRange` (14): the place is past the end.
    /// - `Absent` (16): the object of the place's row group is away.
    /// - `ChunkFull` (11): the new form would be longer than the column's limit.
    /// - `RegionFull` (17): no segment has the space.
    /// - `EditsUsedUp` (24): that object was written as often as the limits allow.
    pub fn may_set<S: FarTickets>(
        &self,
        objects: &Objects<u8, S>,
        place: u32,
        text: &Option<Text>,
    ) -> Result<(), Refusal>
        requires { IsTextColumn (lists_of S.content objects.now) self.now }
        ensures { refusal_in result ≡ set_refusal S.content objects.now self.now place text.now }
    {
        if text_length(text) > 4096 {
            return Err(Refusal::TextTooLong);
        }
        let len = self.form_length_with(objects, place, text)?;
        if len > self.limit {
            return Err(Refusal::ChunkFull);
        }
        let o = self.object_in_use(objects, place as usize / self.size);
        objects.may_replace(o, len)
    }

    // Makes the form of a place's row group with this text at the place. The text must be one that may be set (`may_set`).
    fn form_set<S: FarTickets>(
        &self,
        alloc: Global,
        objects: &Objects<u8, S>,
        place: u32,
        text: &Option<Text>,
    ) -> Result<Vec<u8>, Refusal>
        requires is { IsTextColumn (lists_of S.content objects.now) self.now }
        requires free { set_refusal S.content objects.now self.now place text.now ≡ None }
        ensures form { IfOk result (λ form. IsTextsForm form.items) }
        ensures texts { IfOk result (λ form. texts_meaning form.items
            ≡ group_with (lists_of S.content objects.now) self.now place text.now) }
        ensures length { IfOk result (λ form. length form.items
            ≡ texts_length
            (group_with (lists_of S.content objects.now) self.now place text.now)) }
        ensures memory { IfErr result (λ e. e ≡ Refusal.NoMemory) }
    {
        let place = place as usize;
        let form = self.form(objects, place / self.size)?;
        form_with(alloc, form, place % self.size, text)
    }

    /// Sets the text at a place. Changes only the objects, which hold the texts, and not the column itself. The object of the
    /// place's row group gets a new form, placed before the old one is dropped.
    ///
    /// Refused with the first of these that applies:
    ///
    /// - `TextTooLong` (7): the text has more than 4,096 bytes.
    /// - `OutOfRange` (14): the place is past the end.
    /// - `Absent` (16): the object of the place's row group is away.
    /// - `ChunkFull` (11): the new form would be longer than the column's limit.
    /// - `RegionFull` (17): no segment has the space.
    /// - `EditsUsedUp` (24): that object was written as often as the limits allow.
    /// - `NoMemory` (1): an allocation fails.
    ///
    /// A refused call changes nothing.
    pub fn set<S: FarTickets>(
        &self,
        alloc: Global,
        objects: &mut Objects<u8, S>,
        place: u32,
        text: &Option<Text>,
    ) -> Result<(), Refusal>
        requires { IsTextColumn (lists_of S.content objects.old) self.now }
        ensures set { OnOk result
            (TextSet S.content objects.old self.now place text.now objects.new) }
        ensures changes { ChangesColumn
            (lists_of S.content objects.old) (lists_of S.content objects.new) self.now self.now }
        ensures copies { KeepsCopies S.content S.is_of objects.old objects.new }
        ensures free { OnOk result
            (set_refusal S.content objects.old self.now place text.now ≡ None) }
        ensures refused { IfErr result (λ e.
            (set_refusal S.content objects.old self.now place text.now ≡ Some e)
            ⊎ ((set_refusal S.content objects.old self.now place text.now ≡ None)
            × (e ≡ Refusal.NoMemory))) }
        ensures err { OnErr result (objects.new ≡ objects.old) }
    {
        self.may_set(objects, place, text)?;
        self.set_accepted(alloc, objects, place, text)
    }

    /// Sets the text at a place, as `set` does, after `may_set` accepted it. It neither computes the length of the form nor
    /// searches for space before it makes the form.
    ///
    /// Refused only with `NoMemory` (1), if an allocation fails. A refused call changes nothing.
    pub fn set_accepted<S: FarTickets>(
        &self,
        alloc: Global,
        objects: &mut Objects<u8, S>,
        place: u32,
        text: &Option<Text>,
    ) -> Result<(), Refusal>
        requires is { IsTextColumn (lists_of S.content objects.old) self.now }
        requires free { set_refusal S.content objects.old self.now place text.now ≡ None }
        ensures set { OnOk result
            (TextSet S.content objects.old self.now place text.now objects.new) }
        ensures changes { ChangesColumn
            (lists_of S.content objects.old) (lists_of S.content objects.new) self.now self.now }
        ensures copies { KeepsCopies S.content S.is_of objects.old objects.new }
        ensures memory { IfErr result (λ e. e ≡ Refusal.NoMemory) }
        ensures err { OnErr result (objects.new ≡ objects.old) }
    {
        let form = self.form_set(alloc, objects, place, text)?;
        let o = self.object_in_use(objects, place as usize / self.size);
        objects.replace(o, &form)
    }
}
