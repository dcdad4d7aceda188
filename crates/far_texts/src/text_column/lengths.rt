// The lengths of a column's forms, computed before the forms are made.
ghost use Rattle.std.specs.Prelude.{◌≡◌, ◌∷◌, [], IfOk, length};
ghost use Rattle.far_types.specs.FormLengths.{texts_length};
ghost use Rattle.far_codec.specs.TextForm.{bytes_of};
ghost use Rattle.far_scopes.specs.Refusing.{refusal_in};
ghost use Rattle.far_texts.specs.Texts.{lists_of, IsTextColumn};
ghost use Rattle.far_texts.specs.Effects.{begins_group, group_with, group_with_next};
ghost use Rattle.far_texts.specs.Refusing.{length_refusal, next_length_refusal};

use super::TextColumn;
use far_codec::{length_with, length_with_next};
use far_scopes::Objects;
use far_store::FarTickets;
use far_types::{Refusal, Text};

/// Returns the length of a text in bytes, 0 if it is missing.
pub(crate) fn text_length(text: &Option<Text>) -> usize
    ensures { result ≡ length (bytes_of text.now) }
{
    match text {
        Some(text) => text.len(),
        None => 0,
    }
}

/// Returns the length of the form of one text, in bytes.
fn length_of_one(text: &Option<Text>) -> usize
    ensures { result ≡ texts_length (text.now ∷ []) }
{
    match text {
        Some(text) => 10 + text.as_bytes().len(),
        None => 11,
    }
}

impl TextColumn {
    // Returns whether the next place begins a row group.
    pub(super) fn begins_group(&self) -> bool
        ensures { result ≡ begins_group self.now }
    {
        self.len == self.objects.len() * self.size
    }

    /// Returns the length in bytes of the form of a place's row group with this text at the place. Allocates nothing.
    ///
    /// Refused with the first of these that applies:
    ///
    /// - `OutOfRange` (14): the place is past the end.
    /// - `Absent` (16): the object of the row group is away.
    pub fn form_length_with<S: FarTickets>(
        &self,
        objects: &Objects<u8, S>,
        place: u32,
        text: &Option<Text>,
    ) -> Result<usize, Refusal>
        requires { IsTextColumn (lists_of S.content objects.now) self.now }
        ensures length { IfOk result (λ len. len
            ≡ texts_length
            (group_with (lists_of S.content objects.now) self.now place text.now)) }
        ensures refused { refusal_in result
            ≡ length_refusal S.content objects.now self.now place }
    {
        let place = place as usize;
        if place >= self.len {
            return Err(Refusal::OutOfRange);
        }
        let group = self.group_of(place);
        let form = self.form(objects, group)?;
        Ok(length_with(form, self.index_in(group, place), text))
    }

    /// Returns the length in bytes of the form of the next place's row group with this text appended. Allocates nothing.
    ///
    /// Refused with `Absent` (16) exactly if the row group has been begun and its object is away.
    #[inline(always)]
    pub fn form_length_with_next<S: FarTickets>(
        &self,
        objects: &Objects<u8, S>,
        text: &Option<Text>,
    ) -> Result<usize, Refusal>
        requires { IsTextColumn (lists_of S.content objects.now) self.now }
        ensures length { IfOk result (λ len. len
            ≡ texts_length (group_with_next (lists_of S.content objects.now) self.now text.now)) }
        ensures refused { refusal_in result ≡ next_length_refusal S.content objects.now self.now }
    {
        if self.begins_group() {
            return Ok(length_of_one(text));
        }
        let form = self.form(objects, self.objects.len() - 1)?;
        Ok(length_with_next(form, text))
    }
}
