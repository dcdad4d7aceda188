// Checking that a text may be appended to each of several columns, before anything changes.
ghost use Rattle.std.specs.Prelude.{◌≡◌, ◌<◌, ◌≤◌, ◌∷◌, ℕ, [], length, map, take, false, None, All, IfOk};
ghost use Rattle.std.specs.List.{list_any};
ghost use Rattle.far_types.specs.FirstOf.{first_of};
ghost use Rattle.far_scopes.specs.Refusing.{refusal_in, write_refusal, written_out};
ghost use Rattle.far_texts.specs.Texts.{lists_of, IsTextColumn};
ghost use Rattle.far_texts.specs.Effects.{begins_group, last_object};
ghost use Rattle.far_texts.specs.Refusing.{next_length_refusal};
ghost use Rattle.far_texts.specs.Together.{AreColumns, next_forms};
ghost use Rattle.far_texts.specs.RefusingTogether.{any_full, last_tests, push_texts_refusal};

use super::checking::{all_begin, all_have_groups, may_measure_forms};
use crate::text_column::TextColumn;
use far_scopes::Objects;
use far_store::FarTickets;
use far_types::{Refusal, Text};

// Computes the lengths of the new forms, in the order of at most 16 columns. Refused with `ChunkFull` if one is longer than its
// column's limit.
fn next_lens<S: FarTickets>(
    objects: &Objects<u8, S>,
    columns: &[TextColumn],
    texts: &[Option<Text>],
) -> Result<[usize; 16], Refusal>
    requires each { All (IsTextColumn (lists_of S.content objects.now)) columns.now }
    requires same_length { length texts.now ≡ length columns.now }
    requires few { length columns.now ≤ 16 }
    requires here { All (λ c. next_length_refusal S.content objects.now c ≡ None) columns.now }
    ensures lens { IfOk result (λ lens. (n : ℕ)
        → take (length columns.now) lens
        ≡ map (λ form. length form.1)
        (next_forms (lists_of S.content objects.now) n columns.now texts.now)) }
    ensures refused { refusal_in result
        ≡ first_of (any_full (lists_of S.content objects.now) columns.now texts.now ∷ []) }
{
    let mut lens = [0; 16];
    for k in 0..columns.len() {
        let column = &columns[k];
        let len = column.form_length_with_next(objects, &texts[k])?;
        if len > column.limit {
            return Err(Refusal::ChunkFull);
        }
        lens[k] = len;
    }
    Ok(lens)
}

impl TextColumn {
    // Checks that the object of the last row group, which is not full, may be written.
    fn last_is_writable<S: FarTickets>(&self, objects: &Objects<u8, S>) -> Result<(), Refusal>
        requires begun { begins_group self.now ≡ false }
        requires is { IsTextColumn (lists_of S.content objects.now) self.now }
        ensures { refusal_in result ≡ write_refusal objects.now (last_object self.now) }
    {
        let o = self.object_in_use(objects, self.objects.len() - 1);
        objects.may_write(o)
    }
}

// Checks that the objects of the last row groups, which are local, may be written.
fn all_writable<S: FarTickets>(
    objects: &Objects<u8, S>,
    columns: &[TextColumn],
) -> Result<(), Refusal>
    requires each { All (IsTextColumn (lists_of S.content objects.now)) columns.now }
    requires begun { All (λ c. begins_group c ≡ false) columns.now }
    requires here { All (λ c. next_length_refusal S.content objects.now c ≡ None) columns.now }
    ensures { refusal_in result
        ≡ first_of ((
          list_any (λ c. (written_out objects.now (last_object c)).0) columns.now,
          Refusal.EditsUsedUp,
        ) ∷ []) }
{
    for column in columns {
        column.last_is_writable(objects)?;
    }
    Ok(())
}

// Checks that no new form is longer than its column's limit, that all of them fit, and that the objects that get them may be
// written. Computes the length of each form once.
fn may_place_forms<S: FarTickets>(
    objects: &Objects<u8, S>,
    columns: &[TextColumn],
    texts: &[Option<Text>],
) -> Result<(), Refusal>
    requires are { AreColumns (lists_of S.content objects.now) columns.now }
    requires same_length { length texts.now ≡ length columns.now }
    requires few { length columns.now ≤ 16 }
    requires here { All (λ c. next_length_refusal S.content objects.now c ≡ None) columns.now }
    ensures { refusal_in result
        ≡ first_of (any_full (lists_of S.content objects.now) columns.now texts.now
        ∷ last_tests S.content objects.now columns.now texts.now) }
{
    all_have_groups(columns);
    let lens = next_lens(objects, columns, texts)?;
    if !objects.fits_in_order(&lens[..columns.len()]) {
        return Err(Refusal::RegionFull);
    }
    if all_begin(columns) {
        return Ok(());
    }
    all_writable(objects, columns)
}

/// Checks that a text may be appended to each of at most 16 columns. Allocates nothing. After `Ok`, `push_texts` and
/// `fill_texts` can be refused only with `NoMemory` (1).
///
/// Refused with the first of these that applies:
///
/// - `TextTooLong` (7): some text has more than 4,096 bytes.
/// - `Absent` (16): the row groups have been begun, and some column's last object is away. The refusal names the first such
///   object.
/// - `ChunkFull` (11): some new form would be longer than its column's limit.
/// - `RegionFull` (17): the new forms, placed one after another, do not fit into the free space.
/// - `EditsUsedUp` (24): the row groups have been begun, and some last object was written as often as the limits allow.
pub fn may_push_texts<S: FarTickets>(
    objects: &Objects<u8, S>,
    columns: &[TextColumn],
    texts: &[Option<Text>],
) -> Result<(), Refusal>
    requires are { AreColumns (lists_of S.content objects.now) columns.now }
    requires same_length { length texts.now ≡ length columns.now }
    requires few { length columns.now ≤ 16 }
    ensures { refusal_in result ≡ push_texts_refusal S.content objects.now columns.now texts.now }
{
    if columns.len() == 1 {
        return columns[0].may_push(objects, &texts[0]);
    }
    may_measure_forms(objects, columns, texts)?;
    may_place_forms(objects, columns, texts)
}
