// Appends a text to each of several columns, all or none.
ghost use Rattle.std.specs.Prelude.{◌≡◌, ◌≤◌, ◌+◌, ◌^◌, length, true, None, OnOk, IfErr, OnErr};
ghost use Rattle.far_texts.specs.Texts.{lists_of};
ghost use Rattle.far_texts.specs.Together.{AreColumns, all_begin};
ghost use Rattle.far_texts.specs.RefusingTogether.{push_texts_refusal, MayReturn};
ghost use Rattle.far_texts.specs.Appending.{TextsPushed, ChangesColumns};

mod asking;
mod checking;
mod forms;
mod giving;
mod growing;

use super::TextColumn;
pub use asking::may_push_texts;
use checking::may_make_forms;
use far_scopes::Objects;
use far_store::FarTickets;
use far_types::{Refusal, Text};
use giving::make_forms;
use std::alloc::Global;

/// Appends a text to each of several columns, all or none.
///
/// If the next places begin row groups, makes an object for each column. Otherwise the last object of each gets a new form.
/// Places all new forms, in the order of the columns, before it drops an old one.
///
/// The form of a single column is made in the memory of `spare`, a form that is no longer needed. Afterwards `spare` is the new
/// form. So such a form is allocated only if it does not fit into that memory.
///
/// Refused with the first of these that applies:
///
/// - `TextTooLong` (7): some text has more than 4,096 bytes.
/// - `Absent` (16): the row groups have been begun, and some column's last object is away. The refusal names the first such
///   object.
/// - `ChunkFull` (11): some new form would be longer than its column's limit.
/// - `RegionFull` (17): the new forms, placed one after another, do not fit into the free space.
/// - `EditsUsedUp` (24): the row groups have been begun, and some last object was written as often as the limits allow.
///
/// `NoMemory` (1) means that an allocation failed, perhaps before it is known whether 17 or 24 applies. A refused call changes
/// nothing.
pub fn push_texts<S: FarTickets>(
    alloc: Global,
    spare: &mut Vec<u8>,
    objects: &mut Objects<u8, S>,
    columns: &mut [TextColumn],
    texts: &[Option<Text>],
) -> Result<(), Refusal>
    requires are { AreColumns (lists_of S.content objects.old) columns.old }
    requires same_length { length texts.now ≡ length columns.old }
    requires few { all_begin columns.old ≡ true
        → length objects.old.records + length columns.old ≤ 2 ^ 28 }
    ensures pushed { OnOk result
        (TextsPushed S.content objects.old columns.old texts.now objects.new columns.new) }
    ensures changes { ChangesColumns S.content objects.old columns.old
        S.is_of objects.new columns.new }
    ensures free { OnOk result
        (push_texts_refusal S.content objects.old columns.old texts.now ≡ None) }
    ensures refused { IfErr result (MayReturn S.content objects.old columns.old texts.now) }
    ensures err { OnErr result ((columns.new ≡ columns.old) × (objects.new ≡ objects.old)) }
{
    may_make_forms(objects, columns, texts)?;
    make_forms(alloc, spare, objects, columns, texts)
}

/// Appends a text to each of several columns, all or none, as `push_texts` does, after `may_push_texts` accepted them. It
/// checks no text and no object before it makes the forms.
///
/// Refused only with `NoMemory` (1), if an allocation fails. A refused call changes nothing.
pub fn fill_texts<S: FarTickets>(
    alloc: Global,
    spare: &mut Vec<u8>,
    objects: &mut Objects<u8, S>,
    columns: &mut [TextColumn],
    texts: &[Option<Text>],
) -> Result<(), Refusal>
    requires are { AreColumns (lists_of S.content objects.old) columns.old }
    requires same_length { length texts.now ≡ length columns.old }
    requires few { all_begin columns.old ≡ true
        → length objects.old.records + length columns.old ≤ 2 ^ 28 }
    requires free { push_texts_refusal S.content objects.old columns.old texts.now ≡ None }
    ensures pushed { OnOk result
        (TextsPushed S.content objects.old columns.old texts.now objects.new columns.new) }
    ensures changes { ChangesColumns S.content objects.old columns.old
        S.is_of objects.new columns.new }
    ensures memory { IfErr result (λ e. e ≡ Refusal.NoMemory) }
    ensures err { OnErr result ((columns.new ≡ columns.old) × (objects.new ≡ objects.old)) }
{
    make_forms(alloc, spare, objects, columns, texts)
}
