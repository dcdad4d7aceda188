// Appending a number to each of several columns, all or none, and undoing that.
ghost use Rattle.std.specs.Prelude.{◌≡◌, ◌⊎◌, ◌≤◌, ◌+◌, ◌-◌, ◌^◌, length, map, take, true, false, None, Some, OnOk, IfErr, OnErr};
ghost use Rattle.far_scopes.specs.Refusing.{refusal_in};
ghost use Rattle.far_columns.specs.Effects.{after_unpush};
ghost use Rattle.far_columns.specs.Numbers.{number_lists, numbers_in};
ghost use Rattle.far_columns.specs.NumbersTogether.{AreNumberColumns, all_begin, push_numbers_refusal};
ghost use Rattle.far_columns.specs.NumbersUndo.{AreBegunLast, after_uncreate_all};
ghost use Rattle.far_columns.specs.NumbersChanges.{NumbersPushed, ChangesNumbers};

mod checking;
mod filling;
mod groups;

use super::IntColumn;
use checking::{all_are_shaped, all_begin, all_here, all_writable, groups_fit};
use far_scopes::Objects;
use far_store::FarTickets;
use far_types::Refusal;
use filling::fill_places;
use groups::{begin_groups, unbegin_groups};

/// Checks that `push_numbers` would be accepted for at most 16 columns. Allocates nothing. After `Ok`, `push_numbers` can be
/// refused only with `NoMemory` (1).
///
/// If the next places begin row groups, refused with:
///
/// - `RegionFull` (17) exactly if the new objects, placed one after another, do not fit into the free space.
///
/// Otherwise refused with the first of these that applies:
///
/// - `Absent` (16): some column's last object is away. The refusal names the first such object.
/// - `EditsUsedUp` (24): some last object was written as often as the limits allow.
pub fn may_push_numbers<S: FarTickets>(
    objects: &Objects<Option<i64>, S>,
    columns: &[IntColumn],
) -> Result<(), Refusal>
    requires are { AreNumberColumns (number_lists S.content objects.now) columns.now }
    requires few { length columns.now ≤ 16 }
    ensures { refusal_in result ≡ push_numbers_refusal objects.now columns.now }
{
    all_are_shaped(columns);
    if all_begin(columns) {
        return groups_fit(objects, columns);
    }
    all_here(objects, columns)?;
    all_writable(objects, columns)
}

/// Appends a number to each of several columns, all or none. If the next places begin row groups, makes an object for each
/// column. Otherwise writes the last object of each in place.
///
/// If the next places begin row groups, refused with one of these:
///
/// - `RegionFull` (17): the new objects, placed one after another, do not fit into the free space.
/// - `NoMemory` (1): an allocation fails, perhaps before it is known whether 17 applies.
///
/// Otherwise it allocates nothing, and is refused with the first of these that applies:
///
/// - `Absent` (16): some column's last object is away. The refusal names the first such object.
/// - `EditsUsedUp` (24): some last object was written as often as the limits allow.
///
/// A refused call changes nothing.
///
/// `may_push_numbers` returns the same refusals beforehand, except `NoMemory`. `unpush_numbers` undoes a call that began row
/// groups (`BeginGroups`).
pub fn push_numbers<S: FarTickets>(
    objects: &mut Objects<Option<i64>, S>,
    columns: &mut [IntColumn],
    numbers: &[Option<i64>],
) -> Result<(), Refusal>
    requires are { AreNumberColumns (number_lists S.content objects.old) columns.old }
    requires same_length { length numbers.now ≡ length columns.old }
    requires few { all_begin columns.old ≡ true
        → length objects.old.records + length columns.old ≤ 2 ^ 28 }
    ensures pushed { OnOk result
        (NumbersPushed S.content objects.old objects.new columns.old columns.new numbers.now) }
    ensures are { AreNumberColumns (number_lists S.content objects.new) columns.new }
    ensures keeps { ChangesNumbers S.content objects.old objects.new columns.old columns.new
        S.is_of }
    ensures refused { IfErr result
        (λ e. (push_numbers_refusal objects.old columns.old ≡ Some e)
        ⊎ ((all_begin columns.old ≡ true) × (e ≡ Refusal.NoMemory))) }
    ensures err { OnErr result ((columns.new ≡ columns.old) × (objects.new ≡ objects.old)) }
{
    all_are_shaped(columns);
    if all_begin(columns) {
        return begin_groups(objects, columns, numbers);
    }
    all_here(objects, columns)?;
    all_writable(objects, columns)?;
    fill_numbers(objects, columns, numbers);
    Ok(())
}

/// Appends a number to each of several columns, as `push_numbers` does, after `may_push_numbers` accepted it. Each column's last
/// row group must have an unused place. Repeats no check, and allocates nothing.
pub fn fill_numbers<S: FarTickets>(
    objects: &mut Objects<Option<i64>, S>,
    columns: &mut [IntColumn],
    numbers: &[Option<i64>],
)
    requires are { AreNumberColumns (number_lists S.content objects.old) columns.old }
    requires same_length { length numbers.now ≡ length columns.old }
    requires begun { all_begin columns.old ≡ false }
    requires free { push_numbers_refusal objects.old columns.old ≡ None }
    ensures pushed { NumbersPushed S.content objects.old objects.new columns.old columns.new
        numbers.now }
    ensures are { AreNumberColumns (number_lists S.content objects.new) columns.new }
    ensures keeps { ChangesNumbers S.content objects.old objects.new columns.old columns.new
        S.is_of }
{
    all_are_shaped(columns);
    fill_places(objects, columns, numbers);
}

/// Undoes a `push_numbers` that began row groups. Removes each column's last row group, which has only one number, and the row
/// group's object. Removes the objects in the reverse order of their making. Allocates nothing.
pub fn unpush_numbers<S: FarTickets>(
    objects: &mut Objects<Option<i64>, S>,
    columns: &mut [IntColumn],
)
    requires are { AreNumberColumns (number_lists S.content objects.old) columns.old }
    requires begun { AreBegunLast objects.old columns.old }
    ensures unpushed { columns.new ≡ map after_unpush columns.old }
    ensures uncreated { objects.new ≡ after_uncreate_all (length columns.old) objects.old }
    ensures numbers { map (numbers_in S.content objects.new) columns.new
        ≡ map (λ c. take (c.len - 1) (numbers_in S.content objects.old c)) columns.old }
    ensures are { AreNumberColumns (number_lists S.content objects.new) columns.new }
    ensures keeps { ChangesNumbers S.content objects.old objects.new columns.old columns.new
        S.is_of }
{
    unbegin_groups(objects, columns);
}
