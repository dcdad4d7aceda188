// The new forms of several columns, to each of which a text is appended.
ghost use Rattle.std.specs.Prelude.{◌≡◌, ◌<◌, ◌≤◌, ◌+◌, ◌^◌, ◌∷◌, ℕ, [], length, true, None, All, IfOk, IfErr};
ghost use Rattle.far_types.specs.FirstOf.{first_of};
ghost use Rattle.far_texts.specs.Texts.{lists_of, HasGroups, IsTextColumn};
ghost use Rattle.far_texts.specs.Effects.{begins_group};
ghost use Rattle.far_texts.specs.Refusing.{next_length_refusal};
ghost use Rattle.far_texts.specs.Together.{object_for, next_forms, forms_of, AreNextForms};
ghost use Rattle.far_texts.specs.RefusingTogether.{any_full};

use crate::text_column::TextColumn;
use far_scopes::{Objects, Replacement};
use far_store::FarTickets;
use far_types::{Refusal, Text};
use std::alloc::Global;

// For the proof: shows `HasGroups` of each column, and that an unused object number has no list.
pub(super) fn next_objects_are_unused<S: FarTickets>(
    objects: &Objects<u8, S>,
    columns: &[TextColumn],
)
    requires { All (IsTextColumn (lists_of S.content objects.now)) columns.now }
    ensures objects { All (λ c. length c.objects ≤ length objects.now.records) columns.now }
    ensures groups { All HasGroups columns.now }
    ensures fresh { (p : ℕ) → length objects.now.records ≤ p
        → lists_of S.content objects.now p ≡ None }
{
    let _number = objects.number();
    for column in columns {
        column.next_object_is_unused(objects);
    }
}

impl TextColumn {
    // Returns the object for the next text: the new object `count + k` if a row group begins, and else the last object.
    fn object_for(&self, count: u32, k: usize) -> u32
        requires { begins_group self.now ≡ true → count + k < 2 ^ 28 }
        ensures { result ≡ object_for self.now (count + k) }
    {
        if self.begins_group() {
            count + k as u32
        } else {
            self.objects[self.objects.len() - 1]
        }
    }
}

// Makes the form of a single column with its next text, and finds its object. Reuses the memory of `spare`, a form that is no
// longer needed.
pub(super) fn next_form<S: FarTickets>(
    spare: Vec<u8>,
    objects: &Objects<u8, S>,
    columns: &[TextColumn],
    texts: &[Option<Text>],
) -> Result<Replacement<u8>, Refusal>
    requires each { All (IsTextColumn (lists_of S.content objects.now)) columns.now }
    requires same_length { length texts.now ≡ length columns.now }
    requires one { length columns.now ≡ 1 }
    requires few { All (λ c. begins_group c ≡ true
        → length objects.now.records + length columns.now ≤ 2 ^ 28) columns.now }
    requires here { All (λ c. next_length_refusal S.content objects.now c ≡ None) columns.now }
    requires short { first_of
        (any_full (lists_of S.content objects.now) columns.now texts.now ∷ []) ≡ None }
    ensures form { IfOk result (λ form. forms_of (form ∷ [])
        ≡ next_forms (lists_of S.content objects.now) (length objects.now.records)
        columns.now texts.now) }
    ensures valid { IfOk result (λ form.
        AreNextForms (lists_of S.content objects.now) columns.now texts.now) }
    ensures memory { IfErr result (λ e. e ≡ Refusal.NoMemory) }
{
    let column = &columns[0];
    let list = column.form_pushed(spare, objects, &texts[0])?;
    let object = column.object_for(objects.count(), 0);
    Ok(Replacement { object, list })
}

// Makes the form of each column with its next text, and finds its object.
pub(super) fn next_forms<S: FarTickets>(
    alloc: Global,
    objects: &Objects<u8, S>,
    columns: &[TextColumn],
    texts: &[Option<Text>],
) -> Result<Vec<Replacement<u8>>, Refusal>
    requires each { All (IsTextColumn (lists_of S.content objects.now)) columns.now }
    requires same_length { length texts.now ≡ length columns.now }
    requires few { All (λ c. begins_group c ≡ true
        → length objects.now.records + length columns.now ≤ 2 ^ 28) columns.now }
    requires here { All (λ c. next_length_refusal S.content objects.now c ≡ None) columns.now }
    requires short { first_of
        (any_full (lists_of S.content objects.now) columns.now texts.now ∷ []) ≡ None }
    ensures forms { IfOk result (λ forms. forms_of forms.items
        ≡ next_forms (lists_of S.content objects.now) (length objects.now.records)
        columns.now texts.now) }
    ensures valid { IfOk result (λ forms.
        AreNextForms (lists_of S.content objects.now) columns.now texts.now) }
    ensures memory { IfErr result (λ e. e ≡ Refusal.NoMemory) }
{
    let count = objects.count();
    let mut forms = Vec::with_capacity(alloc, columns.len())?;
    for k in 0..columns.len() {
        let column = &columns[k];
        let list = column.form_pushed(Vec::new(alloc), objects, &texts[k])?;
        let object = column.object_for(count, k);
        forms.push_reserved(Replacement { object, list });
    }
    Ok(forms)
}
