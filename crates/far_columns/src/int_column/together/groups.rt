// Beginning row groups of several columns of numbers at once, and undoing that.
ghost use Rattle.std.specs.Prelude.{◌≡◌, ◌⊎◌, ◌≤◌, ◌+◌, ◌-◌, ◌^◌, length, map, take, true, false, All, OnOk, IfErr, OnErr};
ghost use Rattle.far_log.specs.RegionState.{spaces_of, fit_in_order};
ghost use Rattle.far_columns.specs.Vectors.{AreVectors};
ghost use Rattle.far_columns.specs.Effects.{is_full, after_unpush};
ghost use Rattle.far_columns.specs.Numbers.{number_lists, numbers_in};
ghost use Rattle.far_columns.specs.NumbersUndo.{KeepsBelow, AreBegunFrom, AreBegunLast, after_uncreate_all};
ghost use Rattle.far_columns.specs.NumbersChanges.{NumbersPushed, ChangesNumbers};

use crate::int_column::IntColumn;
use far_scopes::Objects;
use far_store::FarTickets;
use far_types::Refusal;

// Begins row groups at the next places: each column gets an object for its number, or none does.
pub(super) fn begin_groups<S: FarTickets>(
    objects: &mut Objects<Option<i64>, S>,
    columns: &mut [IntColumn],
    numbers: &[Option<i64>],
) -> Result<(), Refusal>
    requires begin { All (λ c. is_full c ≡ true) columns.old }
    requires all_disjoint { AreVectors (number_lists S.content objects.old) columns.old }
    requires same_length { length numbers.now ≡ length columns.old }
    requires few { length objects.old.records + length columns.old ≤ 2 ^ 28 }
    ensures pushed { OnOk result
        (NumbersPushed S.content objects.old objects.new columns.old columns.new numbers.now) }
    ensures all_disjoint { OnOk result
        (AreVectors (number_lists S.content objects.new) columns.new) }
    ensures begun { OnOk result
        (AreBegunFrom objects.new (length objects.old.records) columns.new) }
    ensures below { OnOk result (KeepsBelow (length objects.old.records) objects.old objects.new) }
    ensures keeps { OnOk result
        (ChangesNumbers S.content objects.old objects.new columns.old columns.new S.is_of) }
    ensures refused { IfErr result
        (λ e. ((e ≡ Refusal.RegionFull)
        × (fit_in_order (spaces_of objects.old.memory.state) (map (λ c. c.size) columns.old)
        ≡ false))
        ⊎ (e ≡ Refusal.NoMemory)) }
    ensures err { OnErr result ((columns.new ≡ columns.old) × (objects.new ≡ objects.old)) }
{
    let Some((column, columns)) = columns.split_first_mut() else {
        return Ok(());
    };
    let Some((number, numbers)) = numbers.split_first() else {
        unreachable!()
    };
    // For the proof: shows that a row group has a place.
    let _len = column.len();
    column.push(objects, *number)?;
    if let Err(refusal) = begin_groups(objects, columns, numbers) {
        column.unpush(objects);
        return Err(refusal);
    }
    Ok(())
}

// Undoes the row groups that were begun last, one for each column. Removes their objects in the reverse order of their making.
pub(super) fn unbegin_groups<S: FarTickets>(
    objects: &mut Objects<Option<i64>, S>,
    columns: &mut [IntColumn],
)
    requires all_disjoint { AreVectors (number_lists S.content objects.old) columns.old }
    requires begun { AreBegunLast objects.old columns.old }
    ensures unpushed { columns.new ≡ map after_unpush columns.old }
    ensures uncreated { objects.new ≡ after_uncreate_all (length columns.old) objects.old }
    ensures numbers { map (numbers_in S.content objects.new) columns.new
        ≡ map (λ c. take (c.len - 1) (numbers_in S.content objects.old c)) columns.old }
    ensures below { KeepsBelow (length objects.new.records) objects.old objects.new }
    ensures all_disjoint { AreVectors (number_lists S.content objects.new) columns.new }
    ensures keeps { ChangesNumbers S.content objects.old objects.new columns.old columns.new
        S.is_of }
{
    let Some((first, others)) = columns.split_first_mut() else {
        return;
    };
    unbegin_groups(objects, others);
    first.unpush(objects);
}
