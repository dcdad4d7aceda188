// Storing new forms in the objects of several columns.
ghost use Rattle.std.specs.Prelude.{◌≡◌, ◌⊎◌, ◌<◌, ◌≤◌, ◌+◌, ◌^◌, ℕ, length, map, true, false, None, Some, All, OnOk, OnErr, IfErr};
ghost use Rattle.std.specs.List.{slice_index_or};
ghost use Rattle.far_scopes.specs.declared.replacement.Replacement.{Replacement as Given};
ghost use Rattle.far_scopes.specs.Refusing.{replace_all_refusal, first_absent};
ghost use Rattle.far_scopes.specs.Replacing.{AreListedOnce, ChangesLists};
ghost use Rattle.far_scopes.specs.Effects.{after_replace_all};
ghost use Rattle.far_texts.specs.Texts.{lists_of};
ghost use Rattle.far_texts.specs.Effects.{begins_group};
ghost use Rattle.far_texts.specs.Columns.{KeepsCopies};
ghost use Rattle.far_texts.specs.Together.{after_push_all};
ghost use Rattle.far_texts.specs.Storing.{all_fit, GroupsBegun, GroupsExtended};

use crate::text_column::TextColumn;
use far_scopes::{Objects, Replacement};
use far_store::FarTickets;
use far_types::{Name, Refusal};

// Begins row groups at the next places, with these forms: makes an object for each column, or for none.
pub(super) fn begin_groups<S: FarTickets>(
    objects: &mut Objects<u8, S>,
    columns: &mut [TextColumn],
    forms: &[Replacement<u8>],
) -> Result<(), Refusal>
    requires begin { All (λ c. begins_group c ≡ true) columns.old }
    requires few { length objects.old.records + length columns.old ≤ 2 ^ 28 }
    requires groups { All (λ c. length c.objects ≤ length objects.old.records) columns.old }
    requires same_length { length forms.now ≡ length columns.old }
    requires some { All (λ r. 0 < length r.list.items) forms.now }
    requires numbered { (k : ℕ) (d : Given ℕ) → k < length forms.now
        → (slice_index_or forms.now k d).object ≡ length objects.old.records + k }
    ensures begun { OnOk result
        (GroupsBegun S.content objects.old columns.old forms.now objects.new columns.new) }
    ensures copies { KeepsCopies S.content S.is_of objects.old objects.new }
    ensures refused { IfErr result (λ e.
        ((e ≡ Refusal.RegionFull) × (all_fit objects.old forms.now ≡ false))
        ⊎ (e ≡ Refusal.NoMemory)) }
    ensures err { OnErr result ((columns.new ≡ columns.old) × (objects.new ≡ objects.old)) }
{
    let Some((column, columns)) = columns.split_first_mut() else {
        return Ok(());
    };
    let Some((form, forms)) = forms.split_first() else {
        unreachable!()
    };
    let name = Name {
        column: column.column,
        group: column.objects.len() as u32,
    };
    column.objects.reserve(1)?;
    let o = objects.create(name, &form.list)?;
    if let Err(refusal) = begin_groups(objects, columns, forms) {
        objects.uncreate();
        return Err(refusal);
    }
    column.objects.push_reserved(o);
    column.len += 1;
    Ok(())
}

// Adds one to the length of each column. The last row group of each must have an unused place.
fn lengthen(columns: &mut [TextColumn])
    requires { All (λ c. begins_group c ≡ false) columns.old }
    ensures { (n : ℕ) → columns.new ≡ after_push_all n columns.old }
{
    let Some((column, columns)) = columns.split_first_mut() else {
        return;
    };
    column.len += 1;
    lengthen(columns);
}

// Replaces the lists of the listed objects, all or none. A single replacement needs no undoing, so it takes the short path.
fn replace_forms<S: FarTickets>(
    objects: &mut Objects<u8, S>,
    forms: &[Replacement<u8>],
) -> Result<(), Refusal>
    requires some { All (λ r. 0 < length r.list.items) forms.now }
    requires within { All (λ r. r.object < length objects.old.records) forms.now }
    requires once { AreListedOnce forms.now }
    ensures replaced { OnOk result (objects.new ≡ after_replace_all objects.old forms.now) }
    ensures lists { OnOk result (ChangesLists
        (lists_of S.content objects.old) (lists_of S.content objects.new) forms.now) }
    ensures copies { KeepsCopies S.content S.is_of objects.old objects.new }
    ensures free { OnOk result (replace_all_refusal objects.old forms.now ≡ None) }
    ensures refused { IfErr result (λ e. (replace_all_refusal objects.old forms.now ≡ Some e)
        ⊎ ((first_absent objects.old (map (λ r. r.object) forms.now) ≡ None)
        × (e ≡ Refusal.NoMemory))) }
    ensures err { OnErr result (objects.new ≡ objects.old) }
{
    if forms.len() == 1 {
        let form = &forms[0];
        return objects.replace(form.object, &form.list);
    }
    objects.replace_all(forms)
}

// Replaces the forms of the last row groups, which are not full, by these, all or none.
pub(super) fn extend_groups<S: FarTickets>(
    objects: &mut Objects<u8, S>,
    columns: &mut [TextColumn],
    forms: &[Replacement<u8>],
) -> Result<(), Refusal>
    requires begun { All (λ c. begins_group c ≡ false) columns.old }
    requires some { All (λ r. 0 < length r.list.items) forms.now }
    requires within { All (λ r. r.object < length objects.old.records) forms.now }
    requires once { AreListedOnce forms.now }
    ensures extended { OnOk result
        (GroupsExtended S.content objects.old columns.old forms.now objects.new columns.new) }
    ensures copies { KeepsCopies S.content S.is_of objects.old objects.new }
    ensures refused { IfErr result (λ e. (replace_all_refusal objects.old forms.now ≡ Some e)
        ⊎ ((first_absent objects.old (map (λ r. r.object) forms.now) ≡ None)
        × (e ≡ Refusal.NoMemory))) }
    ensures err { OnErr result ((columns.new ≡ columns.old) × (objects.new ≡ objects.old)) }
{
    replace_forms(objects, forms)?;
    lengthen(columns);
    Ok(())
}
