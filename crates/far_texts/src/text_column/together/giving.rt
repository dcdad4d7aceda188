// Making and storing the new forms of several columns, all or none.
ghost use Rattle.std.specs.Prelude.{◌≡◌, ◌≤◌, ◌+◌, ◌^◌, length, true, None, OnOk, IfErr, OnErr};
ghost use Rattle.far_types.specs.FirstOf.{first_of};
ghost use Rattle.far_texts.specs.Texts.{lists_of};
ghost use Rattle.far_texts.specs.Together.{AreColumns, all_begin};
ghost use Rattle.far_texts.specs.RefusingTogether.{first_tests, push_texts_refusal, MayReturn};
ghost use Rattle.far_texts.specs.Appending.{TextsPushed, ChangesColumns};
ghost use Rattle.far_texts.specs.Storing.{AreMade};

use super::checking::all_begin;
use super::forms::{next_form, next_forms, next_objects_are_unused};
use super::growing::{begin_groups, extend_groups};
use crate::text_column::TextColumn;
use far_scopes::{Objects, Replacement};
use far_store::FarTickets;
use far_types::{Refusal, Text};
use std::alloc::Global;
use std::mem;
use std::slice::from_ref;

// Stores the form of each column with its next text, all or none. The forms must be the new forms of the columns, in order.
pub(super) fn give_forms<S: FarTickets>(
    objects: &mut Objects<u8, S>,
    columns: &mut [TextColumn],
    texts: &[Option<Text>],
    forms: &[Replacement<u8>],
) -> Result<(), Refusal>
    requires made { AreMade S.content objects.old columns.old forms.now texts.now }
    ensures pushed { OnOk result
        (TextsPushed S.content objects.old columns.old texts.now objects.new columns.new) }
    ensures changes { ChangesColumns S.content objects.old columns.old
        S.is_of objects.new columns.new }
    ensures free { OnOk result
        (push_texts_refusal S.content objects.old columns.old texts.now ≡ None) }
    ensures refused { IfErr result (MayReturn S.content objects.old columns.old texts.now) }
    ensures err { OnErr result ((columns.new ≡ columns.old) × (objects.new ≡ objects.old)) }
{
    if all_begin(columns) {
        begin_groups(objects, columns, forms)
    } else {
        extend_groups(objects, columns, forms)
    }
}

// Makes the form of each column with its next text, and stores all forms or none. No first test may refuse a text
// (`may_make_forms`). The form of a single column is made in the memory of `spare`, and remains there.
pub(super) fn make_forms<S: FarTickets>(
    alloc: Global,
    spare: &mut Vec<u8>,
    objects: &mut Objects<u8, S>,
    columns: &mut [TextColumn],
    texts: &[Option<Text>],
) -> Result<(), Refusal>
    requires are { AreColumns (lists_of S.content objects.old) columns.old }
    requires same_length { length texts.now ≡ length columns.old }
    requires few { all_begin columns.old ≡ true
        → length objects.old.records + length columns.old ≤ 2 ^ 28 }
    requires first { first_of (first_tests S.content objects.old columns.old texts.now) ≡ None }
    ensures pushed { OnOk result
        (TextsPushed S.content objects.old columns.old texts.now objects.new columns.new) }
    ensures changes { ChangesColumns S.content objects.old columns.old
        S.is_of objects.new columns.new }
    ensures free { OnOk result
        (push_texts_refusal S.content objects.old columns.old texts.now ≡ None) }
    ensures refused { IfErr result (MayReturn S.content objects.old columns.old texts.now) }
    ensures err { OnErr result ((columns.new ≡ columns.old) × (objects.new ≡ objects.old)) }
{
    next_objects_are_unused(objects, columns);
    if columns.len() == 1 {
        // A single form needs no list of forms, which would allocate. It is made in the memory of the form before it.
        let old = mem::replace(spare, Vec::new(alloc));
        let form = next_form(old, objects, columns, texts)?;
        let given = give_forms(objects, columns, texts, from_ref(&form));
        *spare = form.list;
        return given;
    }
    let forms = next_forms(alloc, objects, columns, texts)?;
    give_forms(objects, columns, texts, &forms)
}
