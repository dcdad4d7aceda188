// Checks before a number is appended to each of several columns.
ghost use Rattle.std.specs.Prelude.{◌≡◌, ◌≤◌, ◌∷◌, [], length, false, None, All, OnOk};
ghost use Rattle.far_types.specs.FirstOf.{first_of};
ghost use Rattle.far_scopes.specs.Refusing.{refusal_in};
ghost use Rattle.far_columns.specs.Vector.{IsShaped, IsVector};
ghost use Rattle.far_columns.specs.Effects.{is_full};
ghost use Rattle.far_columns.specs.Refusing.{push_refusal};
ghost use Rattle.far_columns.specs.Numbers.{number_lists};
ghost use Rattle.far_columns.specs.NumbersTogether.{all_begin, absents, some_written_out, no_space_for_groups};

use crate::int_column::IntColumn;
use far_scopes::Objects;
use far_store::FarTickets;
use far_types::Refusal;

// Returns whether the next places begin row groups.
pub(super) fn all_begin(columns: &[IntColumn]) -> bool
    ensures { result ≡ all_begin columns.now }
{
    for column in columns {
        if !column.begins_group() {
            return false;
        }
    }
    true
}

// For the proof: shows `IsShaped` of each column.
pub(super) fn all_are_shaped(columns: &[IntColumn])
    ensures { All IsShaped columns.now }
{
    for column in columns {
        let _len = column.len();
    }
}

// Checks that the objects of the last row groups are local; the refusal names the first that is away.
pub(super) fn all_here<S: FarTickets>(
    objects: &Objects<Option<i64>, S>,
    columns: &[IntColumn],
) -> Result<(), Refusal>
    requires each { All (IsVector (number_lists S.content objects.now)) columns.now }
    requires begun { All (λ c. is_full c ≡ false) columns.now }
    ensures { refusal_in result ≡ first_of (absents objects.now columns.now) }
{
    for column in columns {
        column.next_is_here(objects)?;
    }
    Ok(())
}

// Checks that the objects of the last row groups, which are local, may be written.
pub(super) fn all_writable<S: FarTickets>(
    objects: &Objects<Option<i64>, S>,
    columns: &[IntColumn],
) -> Result<(), Refusal>
    requires each { All (IsVector (number_lists S.content objects.now)) columns.now }
    requires begun { All (λ c. is_full c ≡ false) columns.now }
    requires here { first_of (absents objects.now columns.now) ≡ None }
    ensures refused { refusal_in result
        ≡ first_of (some_written_out objects.now columns.now ∷ []) }
    ensures free { OnOk result (All (λ c. push_refusal objects.now c ≡ None) columns.now) }
{
    for column in columns {
        column.next_is_writable(objects)?;
    }
    Ok(())
}

// Checks that a new object for each column fits, placed in the order of the columns.
pub(super) fn groups_fit<S: FarTickets>(
    objects: &Objects<Option<i64>, S>,
    columns: &[IntColumn],
) -> Result<(), Refusal>
    requires few { length columns.now ≤ 16 }
    requires shaped { All IsShaped columns.now }
    ensures { refusal_in result ≡ first_of (no_space_for_groups objects.now columns.now ∷ []) }
{
    let mut sizes = [0; 16];
    for k in 0..columns.len() {
        sizes[k] = columns[k].size();
    }
    if objects.fits_in_order(&sizes[..columns.len()]) {
        Ok(())
    } else {
        Err(Refusal::RegionFull)
    }
}
