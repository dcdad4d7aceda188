// Checks before a text is appended to each of several columns.
ghost use Rattle.std.specs.Prelude.{◌≡◌, if◌then◌else◌, ◌∷◌, [], length, false, None, All, OnOk};
ghost use Rattle.far_types.specs.FirstOf.{first_of};
ghost use Rattle.far_scopes.specs.Refusing.{refusal_in};
ghost use Rattle.far_texts.specs.Texts.{lists_of, HasGroups, IsTextColumn};
ghost use Rattle.far_texts.specs.Effects.{begins_group};
ghost use Rattle.far_texts.specs.Refusing.{next_length_refusal};
ghost use Rattle.far_texts.specs.Together.{AreColumns, all_begin};
ghost use Rattle.far_texts.specs.RefusingTogether.{any_too_long, any_full, absents, first_tests};

use crate::text_column::TextColumn;
use crate::text_column::lengths::text_length;
use far_scopes::Objects;
use far_store::FarTickets;
use far_types::{Refusal, Text};

// Checks that no text is too long.
fn all_short(texts: &[Option<Text>]) -> Result<(), Refusal>
    ensures { refusal_in result ≡ first_of (any_too_long texts.now ∷ []) }
{
    for text in texts {
        if text_length(text) > 4096 {
            return Err(Refusal::TextTooLong);
        }
    }
    Ok(())
}

// Returns whether row groups begin at the next places.
pub(super) fn all_begin(columns: &[TextColumn]) -> bool
    ensures { result ≡ all_begin columns.now }
{
    for column in columns {
        if !column.begins_group() {
            return false;
        }
    }
    true
}

// For the proof: shows `HasGroups` of each column.
pub(super) fn all_have_groups(columns: &[TextColumn])
    ensures { All HasGroups columns.now }
{
    for column in columns {
        let _len = column.len();
    }
}

// Checks that the objects of the last row groups are local; the refusal names the first that is away.
fn all_here<S: FarTickets>(objects: &Objects<u8, S>, columns: &[TextColumn]) -> Result<(), Refusal>
    requires each { All (IsTextColumn (lists_of S.content objects.now)) columns.now }
    requires begun { All (λ c. begins_group c ≡ false) columns.now }
    ensures { refusal_in result ≡ first_of (absents objects.now columns.now) }
{
    for column in columns {
        let _form = column.last_form(objects)?;
    }
    Ok(())
}

// Checks that no new form is longer than its column's limit.
fn none_full<S: FarTickets>(
    objects: &Objects<u8, S>,
    columns: &[TextColumn],
    texts: &[Option<Text>],
) -> Result<(), Refusal>
    requires each { All (IsTextColumn (lists_of S.content objects.now)) columns.now }
    requires same_length { length texts.now ≡ length columns.now }
    requires here { All (λ c. next_length_refusal S.content objects.now c ≡ None) columns.now }
    ensures { refusal_in result
        ≡ first_of (any_full (lists_of S.content objects.now) columns.now texts.now ∷ []) }
{
    for k in 0..columns.len() {
        let column = &columns[k];
        let len = column.form_length_with_next(objects, &texts[k])?;
        if len > column.limit {
            return Err(Refusal::ChunkFull);
        }
    }
    Ok(())
}

// Checks that no text is too long, and that the objects of begun row groups are local. Then the lengths of the new forms can be
// computed.
pub(super) fn may_measure_forms<S: FarTickets>(
    objects: &Objects<u8, S>,
    columns: &[TextColumn],
    texts: &[Option<Text>],
) -> Result<(), Refusal>
    requires { AreColumns (lists_of S.content objects.now) columns.now }
    ensures refused { refusal_in result
        ≡ first_of (any_too_long texts.now
        ∷ (if all_begin columns.now then [] else absents objects.now columns.now)) }
    ensures here { OnOk result
        (All (λ c. next_length_refusal S.content objects.now c ≡ None) columns.now) }
{
    all_short(texts)?;
    all_have_groups(columns);
    if all_begin(columns) {
        return Ok(());
    }
    all_here(objects, columns)
}

// Runs all tests that come before a form is made: of the texts, of the objects and of the lengths of the new forms.
pub(super) fn may_make_forms<S: FarTickets>(
    objects: &Objects<u8, S>,
    columns: &[TextColumn],
    texts: &[Option<Text>],
) -> Result<(), Refusal>
    requires are { AreColumns (lists_of S.content objects.now) columns.now }
    requires same_length { length texts.now ≡ length columns.now }
    ensures { refusal_in result
        ≡ first_of (first_tests S.content objects.now columns.now texts.now) }
{
    may_measure_forms(objects, columns, texts)?;
    none_full(objects, columns, texts)
}
