// Reading texts of a column.
ghost use Rattle.std.specs.Prelude.{◌≡◌, ◌<◌, length, false, Some, IfOk, slice_get, slice_index};
ghost use Rattle.std.specs.Option.{option_copied};
ghost use Rattle.far_scopes.specs.Refusing.{refusal_in, lend_refusal};
ghost use Rattle.far_texts.specs.Texts.{lists_of, texts_in, IsTextColumn, IsGroupForm};
ghost use Rattle.far_texts.specs.Effects.{begins_group, last_object};
ghost use Rattle.far_texts.specs.Refusing.{text_refusal};

use super::TextColumn;
use far_codec::text_of;
use far_scopes::Objects;
use far_store::FarTickets;
use far_types::Refusal;

impl TextColumn {
    // Returns the object of a row group that has been begun.
    pub(super) fn object_in_use<S: FarTickets>(&self, objects: &Objects<u8, S>, group: usize) -> u32
        requires begun { group < length self.now.objects }
        requires is { IsTextColumn (lists_of S.content objects.now) self.now }
        ensures object { result ≡ slice_index self.now.objects group }
        ensures used { result < length objects.now.records }
    {
        // For the proof: the contract of `number` shows that an object with a list is in use.
        let _number = objects.number();
        self.objects[group]
    }

    // Borrows the far form of a row group that has been begun.
    pub(super) fn form<'a, S: FarTickets>(
        &self,
        objects: &'a Objects<u8, S>,
        group: usize,
    ) -> Result<&'a [u8], Refusal>
        requires begun { group < length self.now.objects }
        requires is { IsTextColumn (lists_of S.content objects.now) self.now }
        ensures lent { IfOk result (λ form. lists_of S.content objects.now
            (slice_index self.now.objects group) ≡ Some form.now) }
        ensures form { IfOk result (λ form. IsGroupForm self.now group form.now) }
        ensures refused { refusal_in result
            ≡ lend_refusal objects.now (slice_index self.now.objects group) }
    {
        let o = self.object_in_use(objects, group);
        objects.lend(o)
    }

    // Borrows the far form of the last row group, which has an unused place.
    pub(super) fn last_form<'a, S: FarTickets>(
        &self,
        objects: &'a Objects<u8, S>,
    ) -> Result<&'a [u8], Refusal>
        requires begun { begins_group self.now ≡ false }
        requires is { IsTextColumn (lists_of S.content objects.now) self.now }
        ensures refused { refusal_in result ≡ lend_refusal objects.now (last_object self.now) }
    {
        self.form(objects, self.objects.len() - 1)
    }

    /// Borrows the text at a place, or returns `None` if it is missing. Allocates nothing. Reads only the head of one form,
    /// one bit of its mask and two ends.
    ///
    /// Refused with the first of these that applies:
    ///
    /// - `NoRow` (8): the place is past the end.
    /// - `Absent` (16): the object of the place's row group is away.
    pub fn text<'a, S: FarTickets>(
        &self,
        objects: &'a Objects<u8, S>,
        place: u32,
    ) -> Result<Option<&'a str>, Refusal>
        requires { IsTextColumn (lists_of S.content objects.now) self.now }
        ensures text { IfOk result (λ text.
            slice_get (texts_in (lists_of S.content objects.now) self.now) place
            ≡ Some (option_copied text)) }
        ensures refused { refusal_in result ≡ text_refusal S.content objects.now self.now place }
    {
        let place = place as usize;
        if place >= self.len {
            return Err(Refusal::NoRow);
        }
        let group = self.group_of(place);
        let form = self.form(objects, group)?;
        Ok(text_of(form, self.index_in(group, place)))
    }
}
